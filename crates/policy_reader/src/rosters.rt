//! Reads the roles and the users of a policy file.
ghost use Rattle.std.specs.Prelude.{◌≡◌, ◌<◌, ◌≤◌, ◌+◌, ◌++◌, ◌∷◌, [], length, IfOk, OnOk};
ghost use Rattle.std.specs.Prelude.{string_bytes, is_some, false};
ghost use Rattle.std.specs.FinSet as set;
ghost use Rattle.toml.specs.View.{view, table_view, items_view};
ghost use Rattle.wf_names.specs.declared.limits.TheConstants.{ROLE_LIMIT, USER_LIMIT};
ghost use Rattle.wf_names.specs.Table.{place_of};
ghost use Rattle.policy_reader.specs.Faults.{fault_of};
ghost use Rattle.policy_reader.specs.declared.fault.PolicyPart.TheVariants.{Users};
ghost use Rattle.policy_reader.specs.Parts as parts;
ghost use Rattle.policy_reader.specs.Parts.{items as part_items, entries};
ghost use Rattle.policy_reader.specs.Laws.Printable.{Ascend};
ghost use Rattle.policy_reader.specs.Rosters as rosters;
ghost use Rattle.policy_reader.specs.Laws.Grammars.{today};
ghost use Rattle.basics.specs.Laws.Reading.{Gives, each};

use crate::fault::{PolicyPart, ReadFault};
use crate::parts::{array_of, entries_at, items_at, name_of, named_of, next_name, twice};
use rbac_state::{Roster, RosterFault};
use std::alloc::Global;
use toml::Value;
use toml::value::Table;
use wf_names::{NameFault, NameTable, ROLE_LIMIT, RoleId, USER_LIMIT, UserId};

/// Reads the roles.
#[tactic(auto, unfolding(crate::specs::Rosters::roles_of))]
fn read_roles(alloc: Global, file: &Table) -> Result<NameTable, ReadFault>
    ensures read { Gives fault_of (λ t. t.names) result (rosters.roles_of (table_view file.now)) }
    ensures few { IfOk result (λ t. length t.names ≤ ROLE_LIMIT) }
{
    let items = items_at(ROLE_LIMIT as usize, file, "roles", PolicyPart::Roles, 0)?;
    let mut roles = NameTable::new(alloc, ROLE_LIMIT)?;
    match all_roles(&mut roles, items) {
        Ok(()) => Ok(roles),
        Err(fault) => Err(fault),
    }
}

fn all_roles(roles: &mut NameTable, items: &[Value]) -> Result<(), ReadFault>
    requires limit { roles.old.limit ≡ ROLE_LIMIT }
    requires room { length roles.old.names + length items.now ≤ ROLE_LIMIT }
    ensures read { Gives fault_of (λ _. roles.new.names) result
        (each rosters.next_role roles.old.names (part_items (items_view items.now))) }
    ensures few { OnOk result (length roles.new.names ≤ ROLE_LIMIT) }
{
    'items: for value in items {
        if let Err(fault) = next_role(roles, value) {
            return Err(fault);
        }
    }
    Ok(())
}

#[tactic(auto, unfolding(crate::specs::Rosters::next_role))]
fn next_role(roles: &mut NameTable, value: &Value) -> Result<(), ReadFault>
    requires room { length roles.old.names < roles.old.limit }
    ensures read { Gives fault_of (λ _. roles.new.names) result
        (rosters.next_role roles.old.names (view value.now)) }
    ensures limit { OnOk result (roles.new.limit ≡ roles.old.limit) }
    ensures count { OnOk result (length roles.new.names ≡ length roles.old.names + 1) }
{
    let number = roles.len() as u32;
    next_name(roles, value, PolicyPart::Roles, number)
}

#[tactic(auto, unfolding(crate::specs::Rosters::next_held, crate::specs::Parts::once))]
fn next_held(roster: &mut Roster, u: UserId, value: &Value) -> Result<(), ReadFault>
    requires user { u < length roster.old.users }
    ensures read { Gives fault_of (λ _. roster.new) result
        (rosters.next_held u roster.old (view value.now)) }
    ensures users { OnOk result (roster.new.users ≡ roster.old.users) }
    ensures roles { OnOk result (roster.new.roles ≡ roster.old.roles) }
{
    let number = u.0 as u32;
    let role = named_of(roster.roles(), value, PolicyPart::Users, number)?;
    match roster.enrol(u, RoleId(role as u8)) {
        Ok(()) => Ok(()),
        Err(RosterFault::Already) => Err(twice(value, PolicyPart::Users, number)),
        Err(RosterFault::Absent) => unreachable!(),
        Err(RosterFault::NoMemory) => Err(ReadFault::NoMemory),
    }
}

fn all_held(roster: &mut Roster, u: UserId, items: &[Value]) -> Result<(), ReadFault>
    requires user { u < length roster.old.users }
    ensures read { Gives fault_of (λ _. roster.new) result
        (each (rosters.next_held u) roster.old (part_items (items_view items.now))) }
    ensures users { OnOk result (roster.new.users ≡ roster.old.users) }
    ensures roles { OnOk result (roster.new.roles ≡ roster.old.roles) }
{
    'items: for value in items {
        match next_held(roster, u, value) {
            Ok(()) => {}
            Err(fault) => return Err(fault),
        }
    }
    Ok(())
}

/// Adds the next user, whose faults carry the user's own number.
fn add_user(roster: &mut Roster, key: &str, number: u32) -> Result<UserId, ReadFault>
    requires fresh { is_some (place_of roster.old.users key.now) ≡ false }
    requires room { length roster.old.users < USER_LIMIT }
    ensures read { Gives fault_of (λ _. tt) result (parts.name_in Users number key.now) }
    ensures place { IfOk result (λ u. u ≡ length roster.old.users) }
    ensures added { OnOk result (roster.new
        ≡ record roster.old { users = roster.old.users ++ key.now ∷ [] }) }
{
    let name = name_of(key, PolicyPart::Users, number)?;
    match roster.add_user(name) {
        Ok(u) => Ok(u),
        Err(NameFault::NoMemory) => Err(ReadFault::NoMemory),
        Err(_) => unreachable!(),
    }
}

#[tactic(auto, unfolding(crate::specs::Rosters::next_user))]
fn next_user(roster: &mut Roster, key: &str, value: &Value) -> Result<(), ReadFault>
    requires fresh { is_some (place_of roster.old.users key.now) ≡ false }
    requires room { length roster.old.users < USER_LIMIT }
    ensures read { Gives fault_of (λ _. roster.new) result
        (rosters.next_user roster.old (key.now, view value.now)) }
    ensures users { OnOk result (roster.new.users ≡ roster.old.users ++ key.now ∷ []) }
    ensures roles { OnOk result (roster.new.roles ≡ roster.old.roles) }
{
    let number = roster.users().len() as u32;
    let u = add_user(roster, key, number)?;
    let held = array_of(value, PolicyPart::Users, number)?;
    all_held(roster, u, held)
}

/// A roster of the roles in a file, without users.
#[tactic(auto, unfolding(crate::specs::Rosters::roles_of))]
pub(crate) fn start_roster(alloc: Global, file: &Table) -> Result<Roster, ReadFault>
    ensures read { Gives fault_of (λ r. r.roles) result (rosters.roles_of (table_view file.now)) }
    ensures none { IfOk result (λ r. r ≡ record
        { users = []; roles = r.roles; members = set.empty }) }
    ensures few { IfOk result (λ r. length r.roles ≤ ROLE_LIMIT) }
{
    let roles = read_roles(alloc, file)?;
    match Roster::new(alloc, roles) {
        Ok(roster) => Ok(roster),
        Err(_) => Err(ReadFault::NoMemory),
    }
}

/// Reads the users and the roles that they hold into a roster without users.
#[tactic(auto, unfolding(crate::specs::Rosters::roster_of))]
pub(crate) fn read_users(roster: &mut Roster, file: &Table) -> Result<(), ReadFault>
    requires none { roster.old
        ≡ record { users = []; roles = roster.old.roles; members = set.empty } }
    ensures read { Gives fault_of (λ _. roster.new) result
        (rosters.roster_of today roster.old.roles (table_view file.now)) }
    ensures roles { OnOk result (roster.new.roles ≡ roster.old.roles) }
    ensures ascend { OnOk result (Ascend roster.new.users) }
{
    let users = entries_at(USER_LIMIT as usize, file, "users", PolicyPart::Users, 0)?;
    all_users(roster, users)
}

fn all_users(roster: &mut Roster, users: &Table) -> Result<(), ReadFault>
    requires none { roster.old.users ≡ [] }
    requires room { length users.now.entries ≤ USER_LIMIT }
    ensures read { Gives fault_of (λ _. roster.new) result
        (each rosters.next_user roster.old (entries (table_view users.now))) }
    ensures roles { OnOk result (roster.new.roles ≡ roster.old.roles) }
    ensures ascend { OnOk result (Ascend roster.new.users) }
{
    'entries: for (key, value) in users {
        if let Err(fault) = next_user(roster, key.as_str(), value) {
            return Err(fault);
        }
    }
    Ok(())
}
