//! Who the users are, which roles there are, and who has which role.
#![tactic(auto)]

ghost use Rattle.std.specs.Prelude.{◌≡◌, ◌<◌, ◌≤◌, ◌↔◌, ℕ, List, [], ◌∷◌, ◌++◌, length, is_some};
ghost use Rattle.std.specs.Prelude.{IfOk, OnOk, OnErr, IsErrOf, true, false};
ghost use Rattle.std.specs.FinSet as set;
ghost use Rattle.wf_names.specs.declared.limits.TheConstants.{ROLE_LIMIT, USER_LIMIT};
ghost use Rattle.wf_names.specs.Table.{place_of};
ghost use Rattle.wf_names.specs.UserSets.{has_user};
ghost use Rattle.rbac_state.specs.Laws.Rosters.{RosterShape, has_role, IsSoundRoster};

mod members;

use crate::members::Members;
use basics::Shared;
use std::alloc::{AllocError, Global};
use std::marker::Model;
use wf_names::{Name, NameFault, NameTable, ROLE_LIMIT, RoleId, USER_LIMIT, UserId, UserSet};

/// Why a role was not given or not taken away.
#[derive(Clone, Copy)]
pub enum RosterFault {
    /// The user has the role already.
    Already,
    /// The user does not have the role.
    Absent,
    /// There was no memory for it.
    NoMemory,
}

/// The users and roles of a policy, and who has which role.
#[derive(Drop)]
pub struct Roster {
    users: NameTable,
    roles: NameTable,
    members: Shared<Members>,
}

impl Model for Roster {
    ghost use Rattle.std.specs.Prelude.{◌≡◌};
    ghost use Rattle.wf_names.specs.declared.limits.TheConstants.{USER_LIMIT};
    ghost use Rattle.rbac_state.specs.Laws.Rosters.{RosterShape, roster_code, IsSoundRoster};

    ghost Value = { RosterShape };

    ghost coded = { roster_code };

    ghost view = { λ r.
        record { users = r.users.names; roles = r.roles.names; members = r.members } };

    ghost invariant = { λ r. (r.users.limit ≡ USER_LIMIT) × IsSoundRoster
        (record { users = r.users.names; roles = r.roles.names; members = r.members }) };
}

impl Roster {
    /// A roster of these roles without users.
    pub fn new(alloc: Global, roles: NameTable) -> Result<Roster, AllocError>
        requires { length roles.names ≤ ROLE_LIMIT }
        ensures { IfOk result (λ r. r ≡ record
            { users = []; roles = roles.names; members = set.empty }) }
    {
        let members = Shared::new(alloc, Members::none())?;
        Ok(Roster {
            users: NameTable::new(alloc, USER_LIMIT)?,
            roles,
            members,
        })
    }

    /// Adds a user without roles, and answers their number.
    pub fn add_user(&mut self, name: Name) -> Result<UserId, NameFault>
        ensures number { IfOk result (λ u. u ≡ length self.old.users) }
        ensures added { OnOk result (self.new
            ≡ record self.old { users = self.old.users ++ name ∷ [] }) }
        ensures fresh { OnOk result (is_some (place_of self.old.users name) ≡ false) }
        ensures room { OnOk result (length self.old.users < USER_LIMIT) }

        ensures twice { IsErrOf result NameFault.Twice
            ↔ (is_some (place_of self.old.users name) ≡ true) }
        ensures full { IsErrOf result NameFault.Full
            ↔ ((is_some (place_of self.old.users name) ≡ false)
            × (length self.old.users ≡ USER_LIMIT)) }
        ensures unchanged { OnErr result (self.new ≡ self.old) }
    {
        match self.users.add(name) {
            Ok(number) => Ok(UserId(number)),
            Err(fault) => Err(fault),
        }
    }

    /// Gives a user a role.
    pub fn enrol(&mut self, u: UserId, r: RoleId) -> Result<(), RosterFault>
        requires user { u < length self.old.users }
        requires role { r < length self.old.roles }
        ensures enrolled { OnOk result (self.new
            ≡ record self.old { members = set.insert self.old.members (u, r) }) }
        ensures fresh { OnOk result (has_role self.old u r ≡ false) }

        ensures already { IsErrOf result RosterFault.Already ↔ (has_role self.old u r ≡ true) }
        ensures absent { ¬ IsErrOf result RosterFault.Absent }
        ensures unchanged { OnErr result (self.new ≡ self.old) }
    {
        enrol_among(&mut self.members, u, r)
    }

    /// Takes a role away from a user.
    pub fn dismiss(&mut self, u: UserId, r: RoleId) -> Result<(), RosterFault>
        ensures dismissed { OnOk result (self.new
            ≡ record self.old { members = set.remove self.old.members (u, r) }) }
        ensures held { OnOk result (has_role self.old u r ≡ true) }

        ensures absent { IsErrOf result RosterFault.Absent ↔ (has_role self.old u r ≡ false) }
        ensures already { ¬ IsErrOf result RosterFault.Already }
        ensures unchanged { OnErr result (self.new ≡ self.old) }
    {
        dismiss_among(&mut self.members, u, r)
    }

    /// Whether a user has a role.
    pub fn has(&self, u: UserId, r: RoleId) -> bool
        ensures { result ≡ has_role self.now u r }
    {
        self.members.get().has(u, r)
    }

    /// The users who have a role. Takes no memory.
    pub fn holders(&self, r: RoleId) -> UserSet
        ensures { (u : ℕ) → has_user result u ≡ has_role self.now u r }
    {
        self.members.get().holders(r)
    }

    /// The users' names, by their numbers.
    pub fn users(&self) -> &NameTable
        ensures names { result.now.names ≡ self.now.users }
        ensures limit { result.now.limit ≡ USER_LIMIT }
        ensures sound { IsSoundRoster self.now }
    {
        &self.users
    }

    /// The roles' names, by their numbers.
    pub fn roles(&self) -> &NameTable
        ensures names { result.now.names ≡ self.now.roles }
        ensures sound { IsSoundRoster self.now }
    {
        &self.roles
    }

    /// A roster with the same users, roles and memberships.
    pub fn copy(&self) -> Result<Roster, AllocError>
        ensures { IfOk result (λ r. r ≡ self.now) }
    {
        Ok(Roster {
            users: self.users.copy()?,
            roles: self.roles.copy()?,
            members: self.members.share()?,
        })
    }
}

// Gives a user a role, in memberships of which others may have a share.
fn enrol_among(members: &mut Shared<Members>, u: UserId, r: RoleId) -> Result<(), RosterFault>
    requires user { u < USER_LIMIT }
    requires role { r < ROLE_LIMIT }
    ensures enrolled { OnOk result (members.new ≡ set.insert members.old (u, r)) }
    ensures fresh { OnOk result (set.contains members.old (u, r) ≡ false) }
    ensures already { IsErrOf result RosterFault.Already
        ↔ (set.contains members.old (u, r) ≡ true) }
    ensures absent { ¬ IsErrOf result RosterFault.Absent }
    ensures unchanged { OnErr result (members.new ≡ members.old) }
{
    if members.get().has(u, r) {
        return Err(RosterFault::Already);
    }
    let Ok(own) = members.edit() else {
        return Err(RosterFault::NoMemory);
    };
    own.insert(u, r);
    Ok(())
}

// Takes a role away from a user, in memberships of which others may have a share.
fn dismiss_among(members: &mut Shared<Members>, u: UserId, r: RoleId) -> Result<(), RosterFault>
    ensures dismissed { OnOk result (members.new ≡ set.remove members.old (u, r)) }
    ensures held { OnOk result (set.contains members.old (u, r) ≡ true) }
    ensures absent { IsErrOf result RosterFault.Absent ↔ (set.contains members.old (u, r) ≡ false) }
    ensures already { ¬ IsErrOf result RosterFault.Already }
    ensures unchanged { OnErr result (members.new ≡ members.old) }
{
    if !members.get().has(u, r) {
        return Err(RosterFault::Absent);
    }
    let Ok(own) = members.edit() else {
        return Err(RosterFault::NoMemory);
    };
    own.remove(u, r);
    Ok(())
}
