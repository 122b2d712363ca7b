//! Reads a policy file.
ghost use Rattle.std.specs.Prelude.{◌≡◌, ◌<◌, ◌≤◌, Bool, true, [], length, Option, option_map};
ghost use Rattle.std.specs.Prelude.{IfOk, OnOk, IfErr, MatchResult, Some, None};
ghost use Rattle.std.specs.FinSet as set;
ghost use Rattle.toml.specs.View.{table_view};
ghost use Rattle.policy_reader.specs.declared.fault.ReadFault.TheVariants.{NoMemory};
ghost use Rattle.policy_reader.specs.Faults.{fault_of};
ghost use Rattle.policy_reader.specs.Files as spec;
ghost use Rattle.policy_reader.specs.Laws.Grammars.{today};
ghost use Rattle.policy_reader.specs.Kept.{IsBare};
ghost use Rattle.policy_reader.specs.Laws.Printable.{Ascend, IsPrintable};
ghost use Rattle.policy_book.specs.Laws.Facts.{AreOfUsers, IsSoundPolicy};
ghost use Rattle.policy_reader.specs.File.{IsFilePolicy};
ghost use Rattle.policy_reader.specs.Relations.{names_of};
ghost use Rattle.policy_reader.specs.Rosters.{some_user_has};
ghost use Rattle.wf_names.specs.declared.limits.TheConstants.{ROLE_LIMIT};
ghost use Rattle.basics.specs.Laws.Reading.{Gives};

use crate::fault::{PolicyKind, PolicyPart, ReadFault, refuse};
use crate::flows::read_flows;
use crate::format::Format;
use crate::laws::policy_of_file_is_sound;
use crate::parts::{no_others, number_of, text_name_of, value_at};
use crate::relations::read_relations;
use crate::rosters::{read_users, start_roster};
use policy_book::Policy;
use rbac_state::Roster;
use std::alloc::Global;
use toml::value::Table;
use user_relations::Relations;
use wf_names::{Name, RoleId, UserId};

/// Reads the policy in the bytes of a TOML file, or tells their first fault.
pub fn read(alloc: Global, bytes: &[u8]) -> Result<Policy, ReadFault>
    ensures policy { Gives fault_of (λ p. p) result (spec.policy_of_file bytes.now) }
    ensures printable { IfOk result IsPrintable }
    ensures sound { IfOk result IsSoundPolicy }
    ensures given { IfOk result IsFilePolicy }
{
    policy_of_file_is_sound();
    match read_policy(alloc, bytes) {
        Ok(policy) => Ok(policy),
        Err(fault) => Err(fault),
    }
}

#[tactic(auto, unfolding(crate::specs::Files::policy_by))]
fn read_policy(alloc: Global, bytes: &[u8]) -> Result<Policy, ReadFault>
    ensures policy { Gives fault_of (λ p. p) result (spec.policy_of_file bytes.now) }
    ensures printable { IfOk result IsPrintable }
{
    let file = document_of(alloc, bytes)?;
    policy_in(alloc, &file)
}

/// Reads the TOML document that bytes are.
#[tactic(auto, unfolding(crate::specs::Files::document_in))]
fn document_of(alloc: Global, bytes: &[u8]) -> Result<Table, ReadFault>
    ensures { Gives fault_of (λ t. table_view t) result (spec.document_in bytes.now) }
{
    match std::str::from_utf8(bytes) {
        Ok(text) => document_of_text(alloc, text),
        Err(_) => Err(refuse(PolicyKind::Syntax, PolicyPart::File, 0)),
    }
}

fn document_of_text(alloc: Global, text: &str) -> Result<Table, ReadFault>
    ensures { Gives fault_of (λ t. table_view t) result (spec.document_in_text text.now) }
{
    match toml::table_from_str(alloc, text) {
        Ok(table) => Ok(table),
        Err(e) => {
            if e.is_memory() {
                Err(ReadFault::NoMemory)
            } else {
                Err(refuse(PolicyKind::Syntax, PolicyPart::File, 0))
            }
        }
    }
}

/// Reads the policy in a document.
#[tactic(auto, unfolding(crate::specs::Files::policy_in))]
fn policy_in(alloc: Global, file: &Table) -> Result<Policy, ReadFault>
    ensures read { Gives fault_of (λ p. p) result (spec.policy_in today (table_view file.now)) }
    ensures printable { IfOk result IsPrintable }
{
    let format = read_format(file)?;
    match read_start(alloc, file) {
        Ok(policy) => with_rest(alloc, format, policy, file),
        Err(fault) => Err(fault),
    }
}

/// Reads the workflows into a policy that has none, after which there is no other key.
#[tactic(auto, unfolding(crate::specs::Files::rest_of))]
fn with_rest(
    alloc: Global,
    format: Format,
    mut policy: Policy,
    file: &Table,
) -> Result<Policy, ReadFault>
    requires bare { IsBare policy }
    ensures read { Gives fault_of (λ p. p) result
        (spec.rest_of today format policy (table_view file.now)) }
    ensures printable { IfOk result IsPrintable }
{
    if let Err(fault) = read_flows(alloc, format, &mut policy, file) {
        return Err(fault);
    }
    match no_others(file, format.file_keys(), PolicyPart::File, 0) {
        Ok(()) => Ok(policy),
        Err(fault) => Err(fault),
    }
}

/// Reads what a document says after its format and before its workflows.
#[tactic(auto, unfolding(crate::specs::Files::start_of, crate::specs::Files::start_named))]
fn read_start(alloc: Global, file: &Table) -> Result<Policy, ReadFault>
    ensures read { Gives fault_of (λ p. p) result (spec.start_of today (table_view file.now)) }
    ensures bare { IfOk result IsBare }
{
    let name = read_admin(file)?;
    match start_roster(alloc, file) {
        Ok(roster) => start_with(alloc, roster, &name, file),
        Err(fault) => Err(fault),
    }
}

/// Reads the rest of it, into a roster without users.
#[tactic(auto, unfolding(crate::specs::Files::start_with))]
fn start_with(
    alloc: Global,
    mut roster: Roster,
    name: &Name,
    file: &Table,
) -> Result<Policy, ReadFault>
    requires few { length roster.roles ≤ ROLE_LIMIT }
    requires none { roster ≡ record { users = []; roles = roster.roles; members = set.empty } }
    ensures read { Gives fault_of (λ p. p) result
        (spec.start_with today roster.roles name.now (table_view file.now)) }
    ensures bare { IfOk result IsBare }
{
    match read_staff(&mut roster, name, file) {
        Ok(admin) => start_over(alloc, roster, admin, file),
        Err(fault) => Err(fault),
    }
}

/// Finds the admin role, which has this name, and reads the users into a roster without users.
#[tactic(auto, unfolding(crate::specs::Files::staff_of))]
fn read_staff(roster: &mut Roster, name: &Name, file: &Table) -> Result<RoleId, ReadFault>
    requires few { length roster.old.roles ≤ ROLE_LIMIT }
    requires none { roster.old
        ≡ record { users = []; roles = roster.old.roles; members = set.empty } }
    ensures read { Gives fault_of (λ admin. (admin, roster.new)) result
        (spec.staff_of today roster.old.roles name.now (table_view file.now)) }
    ensures within { IfOk result (λ admin. admin < length roster.new.roles) }
    ensures ascend { OnOk result (Ascend roster.new.users) }
{
    let admin = number_of(roster.roles(), name.as_str(), PolicyPart::File, 0)?;
    match read_users(roster, file) {
        Ok(()) => Ok(RoleId(admin as u8)),
        Err(fault) => Err(fault),
    }
}

/// Reads the relations, where some user has the admin role.
#[tactic(auto, unfolding(crate::specs::Files::related_over))]
fn relations_over(
    alloc: Global,
    roster: &Roster,
    admin: RoleId,
    file: &Table,
) -> Result<Relations, ReadFault>
    ensures read { Gives fault_of (λ r. r) result
        (spec.related_over roster.now admin (table_view file.now)) }
    ensures admin { IfOk result (λ _. some_user_has roster.now admin ≡ true) }
    ensures related { IfOk result (AreOfUsers (length roster.now.users)) }
    ensures ascend { IfOk result (λ r. Ascend (names_of r)) }
{
    if !some_user_has(roster, admin) {
        return Err(refuse(PolicyKind::NoAdmin, PolicyPart::Users, 0));
    }
    read_relations(alloc, roster.users(), file)
}

/// Begins a policy over a roster.
#[tactic(auto, unfolding(crate::specs::Files::start_over))]
fn start_over(
    alloc: Global,
    roster: Roster,
    admin: RoleId,
    file: &Table,
) -> Result<Policy, ReadFault>
    requires within { admin < length roster.roles }
    requires ascend { Ascend roster.users }
    ensures read { Gives fault_of (λ p. p) result
        (spec.start_over roster admin (table_view file.now)) }
    ensures bare { IfOk result IsBare }
{
    match relations_over(alloc, &roster, admin, file) {
        Ok(relations) => begin(alloc, roster, relations, admin),
        Err(fault) => Err(fault),
    }
}

fn begin(
    alloc: Global,
    roster: Roster,
    relations: Relations,
    admin: RoleId,
) -> Result<Policy, ReadFault>
    requires within { admin < length roster.roles }
    requires related { AreOfUsers (length roster.users) relations }
    requires admin { some_user_has roster admin ≡ true }
    ensures begun { IfOk result (λ p. p ≡ record {
      roster = roster;
      relations = relations;
      flow_names = [];
      flows = [];
      admin = admin;
    }) }
    ensures memory { IfErr result (λ e. e ≡ NoMemory) }
{
    match Policy::start(alloc, roster, relations, admin) {
        Ok(policy) => Ok(policy),
        Err(_) => Err(ReadFault::NoMemory),
    }
}

#[tactic(auto, unfolding(crate::specs::Files::format_of))]
fn read_format(file: &Table) -> Result<Format, ReadFault>
    ensures { Gives fault_of (λ f. f) result (spec.format_of today (table_view file.now)) }
{
    let value = value_at(file, "format", PolicyPart::File, 0)?;
    let Some(number) = value.as_integer() else {
        return Err(refuse(PolicyKind::Shape, PolicyPart::File, 0));
    };
    match Format::with(number) {
        Some(format) => Ok(format),
        None => Err(refuse(PolicyKind::Version, PolicyPart::File, 0)),
    }
}

#[tactic(auto, unfolding(crate::specs::Files::admin_of))]
fn read_admin(file: &Table) -> Result<Name, ReadFault>
    ensures { Gives fault_of (λ n. n) result (spec.admin_of (table_view file.now)) }
{
    let value = value_at(file, "admin", PolicyPart::File, 0)?;
    text_name_of(value, PolicyPart::File, 0)
}

/// Whether some user holds a role.
fn some_user_has(roster: &Roster, r: RoleId) -> bool
    ensures { result ≡ some_user_has roster.now r }
{
    'users: for u in 0..roster.users().len() {
        if roster.has(UserId(u), r) {
            return true;
        }
    }
    false
}
