//! The users and roles of a trial, and who has which role.
ghost use Rattle.std.specs.Prelude.{◌≡◌, ◌<◌, ◌+◌, ◌∷◌, [], ◌++◌, length, map, IfOk, OnOk};
ghost use Rattle.std.specs.List.{range_with_len};
ghost use Rattle.std.specs.FinSet as set;
ghost use Rattle.trial_command.specs.Draws.{after};
ghost use Rattle.trial_command.specs.Named.{admin_name, role_name, user_name};
ghost use Rattle.trial_command.specs.Policy.{drawn_members, trial_roster};

use crate::draws::Generator;
use crate::named;
use rbac_state::{Roster, RosterFault};
use std::alloc::{AllocError, Global};
use wf_names::{NameFault, NameTable, ROLE_LIMIT, RoleId, UserId};

/// How many users there are.
pub(crate) const USERS: u16 = 60;
/// How many roles are given by number.
pub(crate) const ROLES: u8 = 5;
/// The role of the administrators, which comes after those.
pub(crate) const ADMIN: RoleId = RoleId(ROLES);

/// The roster, whose roles are drawn.
#[tactic(auto, unfolding(crate::specs::Policy::trial_roster))]
pub(crate) fn roster_of(alloc: Global, draws: &mut Generator) -> Result<Roster, AllocError>
    ensures roster { IfOk result (λ r. r ≡ trial_roster draws.old) }
    ensures drawn { OnOk result (draws.new ≡ after 60 draws.old) }
{
    let mut roster = Roster::new(alloc, role_table(alloc)?)?;
    fill(&mut roster, draws)?;
    Ok(roster)
}

// Adds the users, and gives them their roles.
fn fill(roster: &mut Roster, draws: &mut Generator) -> Result<(), AllocError>
    requires users { roster.old.users ≡ [] }
    requires roles { length roster.old.roles ≡ 6 }
    requires none { roster.old.members ≡ set.empty }
    ensures filled { OnOk result (roster.new ≡ record roster.old {
      users = map user_name (range_with_len 0 60);
      members = set.insert (drawn_members draws.old 60) (0, 5);
    }) }
    ensures drawn { OnOk result (draws.new ≡ after 60 draws.old) }
{
    add_users(roster)?;
    draw_roles(roster, draws)?;
    give(roster, UserId(0), ADMIN)
}

// The names of the roles.
#[tactic(auto, using(crate::proofs::NameForms::role_names))]
fn role_table(alloc: Global) -> Result<NameTable, AllocError>
    ensures { IfOk result (λ t. t.names ≡ map role_name (range_with_len 0 5) ++ admin_name ∷ []) }
{
    let mut roles = NameTable::new(alloc, ROLE_LIMIT)?;
    'roles: for r in 0..ROLES {
        named::add_name(&mut roles, named::role_name(RoleId(r)))?;
    }
    named::add_name(&mut roles, named::named("chief"))?;
    Ok(roles)
}

// Adds the users to a roster without any.
fn add_users(roster: &mut Roster) -> Result<(), AllocError>
    requires { roster.old.users ≡ [] }
    ensures { OnOk result (roster.new ≡ record roster.old
        { users = map user_name (range_with_len 0 60) }) }
{
    'users: for u in 0..USERS {
        add_user(roster, UserId(u))?;
    }
    Ok(())
}

// Adds the next user.
#[tactic(auto, using(crate::proofs::NameForms::user_names))]
fn add_user(roster: &mut Roster, u: UserId) -> Result<(), AllocError>
    requires few { u < 60 }
    requires earlier { roster.old.users ≡ map user_name (range_with_len 0 u) }
    ensures { OnOk result (roster.new ≡ record roster.old
        { users = map user_name (range_with_len 0 (u + 1)) }) }
{
    match roster.add_user(named::user_name(u)) {
        Ok(_) => Ok(()),
        Err(NameFault::NoMemory) => Err(AllocError),
        Err(_) => unreachable!(),
    }
}

// Gives each user a role by their number, and one that is drawn.
#[tactic(auto, using(crate::proofs::Growing::drawn_roles))]
fn draw_roles(roster: &mut Roster, draws: &mut Generator) -> Result<(), AllocError>
    requires users { length roster.old.users ≡ 60 }
    requires roles { length roster.old.roles ≡ 6 }
    requires none { roster.old.members ≡ set.empty }
    ensures members { OnOk result (roster.new
        ≡ record roster.old { members = drawn_members draws.old 60 }) }
    ensures drawn { OnOk result (draws.new ≡ after 60 draws.old) }
{
    'users: for u in 0..USERS {
        give(roster, UserId(u), RoleId((u % ROLES as u16) as u8))?;
        let drawn = draws.below(ROLES as u16);
        give(roster, UserId(u), RoleId(drawn as u8))?;
    }
    Ok(())
}

// Gives a user a role, who may have it already.
#[tactic(auto, using(crate::proofs::Growing::held_again))]
fn give(roster: &mut Roster, u: UserId, r: RoleId) -> Result<(), AllocError>
    requires user { u < length roster.old.users }
    requires role { r < length roster.old.roles }
    ensures { OnOk result (roster.new ≡ record roster.old
        { members = set.insert roster.old.members (u, r) }) }
{
    match roster.enrol(u, r) {
        Ok(()) | Err(RosterFault::Already) => Ok(()),
        Err(RosterFault::NoMemory) => Err(AllocError),
        Err(RosterFault::Absent) => unreachable!(),
    }
}
