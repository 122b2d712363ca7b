//! Why an edit is refused.
ghost use Rattle.std.specs.Prelude.{◌≡◌, ◌≢◌, ◌==◌, ◌&&◌, not, IfOk, Ok, Some};
ghost use Rattle.basics.specs.declared.fault.Fault.TheVariants.{NoMemory};
ghost use Rattle.basics.specs.Laws.Reading.{check};
ghost use Rattle.admin_edits.specs.declared.amendment.Amendment.TheVariants as amend;
ghost use Rattle.admin_edits.specs.Laws.Edits.{allowed, amendment_of, edit_cause, has_other};
ghost use Rattle.admin_edits.specs.Laws.Edits.{has_some_role, is_last_admin, pair_fault};
ghost use Rattle.admin_edits.specs.Laws.Edits.{unless_fault};
ghost use Rattle.admin_edits.specs.Amendment.{IsKnownChange};
ghost use Rattle.rbac_state.specs.Laws.Rosters.{has_role};

use crate::find::{check_admin, find};
use crate::{Amendment, EditCause, EditFault};
use basics::Fault;
use policy_book::Policy;
use rbac_state::Roster;
use user_relations::RelationFault;
use wf_names::{Name, RoleId, USER_LIMIT, UserId};
use wf_talk::Edit;

/// The first fault of an edit that somebody asks for, if it has one. Takes no memory, and is never
/// `NoMemory`.
pub fn edit_cause(p: &Policy, by: &Name, e: &Edit) -> Option<EditFault>
    ensures cause { result ≡ edit_cause p.now by.now e.now }
    ensures never { result ≢ Some NoMemory }
{
    match amendment_of(p, by, e) {
        Ok(_) => None,
        Err(cause) => Some(Fault::Cause(cause)),
    }
}

/// What an edit changes, with numbers in place of names, or its first fault. Takes no memory.
pub fn amendment_of(p: &Policy, by: &Name, e: &Edit) -> Result<Amendment, EditCause>
    ensures amendment { result ≡ amendment_of p.now by.now e.now }
    ensures within { IfOk result (IsKnownChange p.now) }
    ensures allowed { IfOk result (λ a. allowed p.now a ≡ Ok tt) }
{
    check_admin(p, by)?;
    let amendment = find(p, e)?;
    allowed(p, &amendment)?;
    Ok(amendment)
}

/// The first fault of a change whose names are known.
fn allowed(p: &Policy, a: &Amendment) -> Result<(), EditCause>
    requires { IsKnownChange p.now a.now }
    ensures { result ≡ allowed p.now a.now }
{
    match *a {
        Amendment::AddUser { name } => allowed_user(p, &name),
        Amendment::Leave { user } => {
            check(has_some_role(p.roster(), user), EditCause::Absent)?;
            check(!is_last_admin(p, user), EditCause::LastAdmin)
        }
        Amendment::Enrol { user, role } => check(!p.roster().has(user, role), EditCause::Already),
        Amendment::Dismiss { user, role } => {
            check(p.roster().has(user, role), EditCause::Absent)?;
            check(
                !(role == p.admin() && is_last_admin(p, user)),
                EditCause::LastAdmin,
            )
        }
        Amendment::Relate {
            relation,
            first,
            second,
        } => unless_fault(p.relations().relate_fault(relation, first, second)),
        Amendment::Unrelate {
            relation,
            first,
            second,
        } => unless_fault(p.relations().unrelate_fault(relation, first, second)),
        Amendment::Permit { flow, role, step } => {
            check(!p.flow(flow).permits(role, step), EditCause::Already)
        }
        Amendment::Forbid { flow, role, step } => {
            check(p.flow(flow).permits(role, step), EditCause::Absent)
        }
        Amendment::Retire { flow } => check(!p.retired(flow), EditCause::Already),
    }
}

/// The fault of adding a user with a name.
fn allowed_user(p: &Policy, name: &Name) -> Result<(), EditCause>
    ensures { result ≡ allowed p.now (amend.AddUser name.now) }
{
    let users = p.roster().users();
    check(users.find(name).is_none(), EditCause::Already)?;
    check(users.len() < USER_LIMIT, EditCause::Full)
}

/// The fault where the test fails.
fn check(passes: bool, fault: EditCause) -> Result<(), EditCause>
    ensures { result ≡ check passes fault }
{
    if passes { Ok(()) } else { Err(fault) }
}

/// The fault of putting a pair into a relation or taking it out, if there is one.
fn unless_fault(fault: Option<RelationFault>) -> Result<(), EditCause>
    ensures { result ≡ unless_fault (pair_fault fault) }
{
    match fault {
        None | Some(RelationFault::NoMemory) => Ok(()),
        Some(RelationFault::Fixed) => Err(EditCause::Fixed),
        Some(RelationFault::Already) => Err(EditCause::Already),
        Some(RelationFault::Absent) => Err(EditCause::Absent),
        Some(RelationFault::Full) => Err(EditCause::Full),
    }
}

/// Whether a user has some role.
fn has_some_role(roster: &Roster, u: UserId) -> bool
    ensures { result ≡ has_some_role roster.now u }
{
    'roles: for r in 0..roster.roles().len() {
        if roster.has(u, RoleId(r as u8)) {
            return true;
        }
    }
    false
}

/// Whether nobody but this user has the admin role.
fn is_last_admin(p: &Policy, u: UserId) -> bool
    ensures { result ≡ is_last_admin p.now u }
{
    p.roster().has(u, p.admin()) && !has_other(p.roster(), p.admin(), u)
}

/// Whether somebody but this user has a role.
fn has_other(roster: &Roster, r: RoleId, u: UserId) -> bool
    ensures { result ≡ has_other roster.now r u }
{
    'users: for v in 0..roster.users().len() {
        if is_other(roster, r, u, UserId(v)) {
            return true;
        }
    }
    false
}

/// Whether this is another user than that, who has a role.
fn is_other(roster: &Roster, r: RoleId, u: UserId, v: UserId) -> bool
    ensures { result ≡ (not (v == u) && has_role roster.now v r) }
{
    v != u && roster.has(v, r)
}
