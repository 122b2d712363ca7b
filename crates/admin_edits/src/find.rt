//! The numbers for the names of an edit.
ghost use Rattle.std.specs.Prelude.{◌≡◌, ◌<◌, length, Err, IfOk, MatchResult, Ok, true, false};
ghost use Rattle.basics.specs.Laws.Reading.{check, or_fault};
ghost use Rattle.policy_book.specs.Policies.{flow_at};
ghost use Rattle.user_relations.specs.Laws.Relations.{known_names};
ghost use Rattle.wf_names.specs.Table.{place_of};
ghost use Rattle.wf_talk.specs.declared.edit.Edit.TheVariants as edit;
ghost use Rattle.admin_edits.specs.declared.amendment.Amendment.TheVariants as amend;
ghost use Rattle.admin_edits.specs.Laws.Edits.{found, is_admin};
ghost use Rattle.admin_edits.specs.Amendment.{AreMember, ArePermit, IsKnownChange};

use crate::{Amendment, EditCause};
use policy_book::Policy;
use wf_names::{FlowId, Name, RelId, RoleId, StepId, UserId};
use wf_talk::{Edit, Missing};

/// What is changed, or the first name that the policy does not have.
pub(crate) fn find(p: &Policy, e: &Edit) -> Result<Amendment, EditCause>
    ensures found { result ≡ found p.now e.now }
    ensures within { IfOk result (IsKnownChange p.now) }
{
    match e {
        Edit::AddUser { user } => Ok(Amendment::AddUser { name: *user }),
        Edit::Leave { user } => Ok(Amendment::Leave {
            user: find_user(p, user)?,
        }),
        Edit::Enrol { role, user } => {
            let (user, role) = find_member(p, user, role)?;
            Ok(Amendment::Enrol { user, role })
        }
        Edit::Dismiss { role, user } => {
            let (user, role) = find_member(p, user, role)?;
            Ok(Amendment::Dismiss { user, role })
        }
        Edit::Relate {
            first,
            relation,
            second,
        } => find_pair(p, relation, first, second, true),
        Edit::Unrelate {
            first,
            relation,
            second,
        } => find_pair(p, relation, first, second, false),
        Edit::Permit { flow, role, step } => {
            let (flow, step, role) = find_permit(p, flow, step, role)?;
            Ok(Amendment::Permit { flow, role, step })
        }
        Edit::Forbid { flow, role, step } => {
            let (flow, step, role) = find_permit(p, flow, step, role)?;
            Ok(Amendment::Forbid { flow, role, step })
        }
        Edit::Retire { flow } => Ok(Amendment::Retire {
            flow: find_flow(p, flow)?,
        }),
    }
}

/// A user and a role.
fn find_member(p: &Policy, user: &Name, role: &Name) -> Result<(UserId, RoleId), EditCause>
    ensures enrol { MatchResult result
        (λ x. found p.now (edit.Enrol role.now user.now) ≡ Ok (amend.Enrol x.0 x.1))
        (λ e. found p.now (edit.Enrol role.now user.now) ≡ Err e) }
    ensures dismiss { MatchResult result
        (λ x. found p.now (edit.Dismiss role.now user.now) ≡ Ok (amend.Dismiss x.0 x.1))
        (λ e. found p.now (edit.Dismiss role.now user.now) ≡ Err e) }
    ensures within { IfOk result (λ x. AreMember p.now x.0 x.1) }
{
    let user = find_user(p, user)?;
    let role = find_role(p, role)?;
    Ok((user, role))
}

/// The pair of users that a relation gains or loses.
fn find_pair(
    p: &Policy,
    relation: &Name,
    first: &Name,
    second: &Name,
    gains: bool,
) -> Result<Amendment, EditCause>
    ensures relate { gains ≡ true
        → result ≡ found p.now (edit.Relate first.now relation.now second.now) }
    ensures unrelate { gains ≡ false
        → result ≡ found p.now (edit.Unrelate first.now relation.now second.now) }
    ensures within { IfOk result (IsKnownChange p.now) }
{
    let relation = find_relation(p, relation)?;
    let first = find_user(p, first)?;
    let second = find_user(p, second)?;
    if gains {
        Ok(Amendment::Relate {
            relation,
            first,
            second,
        })
    } else {
        Ok(Amendment::Unrelate {
            relation,
            first,
            second,
        })
    }
}

/// A workflow, one of its steps, and a role.
fn find_permit(
    p: &Policy,
    flow: &Name,
    step: &Name,
    role: &Name,
) -> Result<(FlowId, StepId, RoleId), EditCause>
    ensures permit { MatchResult result
        (λ x. found p.now (edit.Permit flow.now role.now step.now) ≡ Ok (amend.Permit x.0 x.2 x.1))
        (λ e. found p.now (edit.Permit flow.now role.now step.now) ≡ Err e) }
    ensures forbid { MatchResult result
        (λ x. found p.now (edit.Forbid flow.now role.now step.now) ≡ Ok (amend.Forbid x.0 x.2 x.1))
        (λ e. found p.now (edit.Forbid flow.now role.now step.now) ≡ Err e) }
    ensures within { IfOk result (λ x. ArePermit p.now x.0 x.2 x.1) }
{
    let flow = find_flow(p, flow)?;
    let step = find_step(p, flow, step)?;
    let role = find_role(p, role)?;
    Ok((flow, step, role))
}

/// Refuses who does not administer.
pub(crate) fn check_admin(p: &Policy, by: &Name) -> Result<(), EditCause>
    ensures { result ≡ check (is_admin p.now by.now) EditCause.NotAdmin }
{
    match p.roster().users().find(by) {
        Some(u) if p.roster().has(UserId(u), p.admin()) => Ok(()),
        _ => Err(EditCause::NotAdmin),
    }
}

fn find_user(p: &Policy, name: &Name) -> Result<UserId, EditCause>
    ensures user { result ≡ or_fault (place_of p.now.roster.users name.now)
        (EditCause.Unknown Missing.User) }
    ensures within { IfOk result (λ u. u < length p.now.roster.users) }
{
    match p.roster().users().find(name) {
        Some(u) => Ok(UserId(u)),
        None => Err(EditCause::Unknown(Missing::User)),
    }
}

fn find_role(p: &Policy, name: &Name) -> Result<RoleId, EditCause>
    ensures role { result ≡ or_fault (place_of p.now.roster.roles name.now)
        (EditCause.Unknown Missing.Role) }
    ensures within { IfOk result (λ r. r < length p.now.roster.roles) }
{
    match p.roster().roles().find(name) {
        Some(r) => Ok(RoleId(r as u8)),
        None => Err(EditCause::Unknown(Missing::Role)),
    }
}

fn find_relation(p: &Policy, name: &Name) -> Result<RelId, EditCause>
    ensures { result ≡ or_fault (place_of (known_names p.now.relations) name.now)
        (EditCause.Unknown Missing.Relation) }
{
    match p.relations().find(name) {
        Some(rho) => Ok(rho),
        None => Err(EditCause::Unknown(Missing::Relation)),
    }
}

fn find_flow(p: &Policy, name: &Name) -> Result<FlowId, EditCause>
    ensures flow { result ≡ or_fault (place_of p.now.flow_names name.now)
        (EditCause.Unknown Missing.Flow) }
    ensures within { IfOk result (λ f. f < length p.now.flows) }
{
    match p.find_flow(name) {
        Some(f) => Ok(f),
        None => Err(EditCause::Unknown(Missing::Flow)),
    }
}

fn find_step(p: &Policy, f: FlowId, name: &Name) -> Result<StepId, EditCause>
    requires { f < length p.now.flows }
    ensures step { result ≡ or_fault (place_of (flow_at p.now f).flow.steps name.now)
        (EditCause.Unknown Missing.Step) }
    ensures within { IfOk result (λ s. s < length (flow_at p.now f).flow.steps) }
{
    match p.flow(f).steps().find(name) {
        Some(s) => Ok(StepId(s as u8)),
        None => Err(EditCause::Unknown(Missing::Step)),
    }
}
