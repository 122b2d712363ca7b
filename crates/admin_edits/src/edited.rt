//! The policy after an edit.
ghost use Rattle.std.specs.Prelude.{◌≡◌, ◌<◌, length, None, OnErr, OnOk, IfOk, Err, Ok, Some};
ghost use Rattle.basics.specs.declared.fault.Fault.{Fault as FaultOf};
ghost use Rattle.basics.specs.declared.fault.Fault.TheVariants.{NoMemory};
ghost use Rattle.admin_edits.specs.declared.amendment.Amendment.TheVariants as amend;
ghost use Rattle.admin_edits.specs.declared.fault.EditCause.{EditCause};
ghost use Rattle.admin_edits.specs.Laws.Edits.{allowed, amended, edit_cause, edited_policy};
ghost use Rattle.admin_edits.specs.Amendment.{AreMember, IsKnownChange};
ghost use Rattle.user_relations.specs.Kinds.{AnswersFault};

use crate::cause::amendment_of;
use crate::{Amendment, EditFault};
use basics::Fault;
use policy_book::Policy;
use rbac_state::RosterFault;
use std::alloc::AllocError;
use user_relations::RelationFault;
use wf_names::{Name, NameFault, RoleId, UserId};
use wf_talk::Edit;

/// The policy as an edit leaves it; the one that it is made of stays as it is. Or the first fault
/// of the edit, or that there was no memory for the copy.
pub fn apply(p: &Policy, by: &Name, e: &Edit) -> Result<Policy, EditFault>
    ensures fault { (fault : FaultOf EditCause) → edit_cause p.now by.now e.now ≡ Some fault
        → result ≡ Err fault }
    ensures edited { edit_cause p.now by.now e.now ≡ None
        → IfOk result (λ q. q ≡ edited_policy p.now by.now e.now) }
    ensures memory { edit_cause p.now by.now e.now ≡ None
        → OnErr result (result ≡ Err NoMemory) }
{
    let amendment = amendment_of(p, by, e)?;
    match amended(p, amendment) {
        Ok(edited) => Ok(edited),
        Err(_) => Err(Fault::NoMemory),
    }
}

/// A copy of a policy with one change that has no fault. The policy that it is made of stays as it
/// is. Whoever found the change before, as the decider of a session has, need not find it again.
pub fn amended(p: &Policy, a: Amendment) -> Result<Policy, AllocError>
    requires within { IsKnownChange p.now a }
    requires allowed { allowed p.now a ≡ Ok tt }
    ensures { IfOk result (λ q. q ≡ amended p.now a) }
{
    let mut edited = p.copy()?;
    amend(&mut edited, a)?;
    Ok(edited)
}

/// Makes one change that has no fault.
fn amend(p: &mut Policy, a: Amendment) -> Result<(), AllocError>
    requires within { IsKnownChange p.old a }
    requires allowed { allowed p.old a ≡ Ok tt }
    ensures { OnOk result (p.new ≡ amended p.old a) }
{
    match a {
        Amendment::AddUser { name } => add_user(p, name),
        Amendment::Leave { user } => leave(p, user),
        Amendment::Enrol { user, role } => enrol(p, user, role),
        Amendment::Dismiss { user, role } => p.take_role(user, role),
        Amendment::Relate {
            relation,
            first,
            second,
        } => without_fault(p.relate(relation, first, second)),
        Amendment::Unrelate {
            relation,
            first,
            second,
        } => without_fault(p.unrelate(relation, first, second)),
        Amendment::Permit { flow, role, step } => {
            p.permit(flow, role, step);
            Ok(())
        }
        Amendment::Forbid { flow, role, step } => {
            p.forbid(flow, role, step);
            Ok(())
        }
        Amendment::Retire { flow } => {
            p.retire(flow);
            Ok(())
        }
    }
}

/// Adds a user of a new name.
fn add_user(p: &mut Policy, name: Name) -> Result<(), AllocError>
    requires { allowed p.old (amend.AddUser name) ≡ Ok tt }
    ensures { OnOk result (p.new ≡ amended p.old (amend.AddUser name)) }
{
    match p.add_user(name) {
        Ok(_) => Ok(()),
        Err(NameFault::NoMemory) => Err(AllocError),
        Err(_) => unreachable!(),
    }
}

/// Gives a user a role that the user does not have.
fn enrol(p: &mut Policy, user: UserId, role: RoleId) -> Result<(), AllocError>
    requires within { AreMember p.old user role }
    requires allowed { allowed p.old (amend.Enrol user role) ≡ Ok tt }
    ensures { OnOk result (p.new ≡ amended p.old (amend.Enrol user role)) }
{
    match p.enrol(user, role) {
        Ok(()) => Ok(()),
        Err(RosterFault::NoMemory) => Err(AllocError),
        Err(_) => unreachable!(),
    }
}

/// What comes of a change of a relation that has no fault: only memory can be wanting.
fn without_fault(related: Result<(), RelationFault>) -> Result<(), AllocError>
    requires { AnswersFault None related }
    ensures related { OnOk result (related ≡ Ok tt) }
    ensures memory { OnErr result (related ≡ Err RelationFault.NoMemory) }
{
    match related {
        Ok(()) => Ok(()),
        Err(RelationFault::NoMemory) => Err(AllocError),
        Err(_) => unreachable!(),
    }
}

/// Takes all roles away from a user.
fn leave(p: &mut Policy, user: UserId) -> Result<(), AllocError>
    requires { user < length p.old.roster.users }
    ensures { OnOk result (p.new ≡ amended p.old (amend.Leave user)) }
{
    let roles = p.roster().roles().len();
    'roles: for r in 0..roles {
        p.take_role(user, RoleId(r as u8))?;
    }
    Ok(())
}
