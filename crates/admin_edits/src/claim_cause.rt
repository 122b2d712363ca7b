//! The first cause of a denied claim.
ghost use Rattle.std.specs.Prelude.{◌≡◌, ◌<◌, true, length, is_some, IfOk, OnErr};
ghost use Rattle.constraint_forms.specs.Assign.{user_at};
ghost use Rattle.policy_book.specs.Policies.{flow_at, problem_of};
ghost use Rattle.admin_edits.specs.ClaimCauses.{assigned_with, first_cause, first_falsified};
ghost use Rattle.admin_edits.specs.ClaimCauses.{permitted_roles, takes_memory};

use case_record::Case;
use constraint_forms::{Assign, falsified};
use policy_book::Policy;
use std::alloc::{AllocError, Global};
use wf_names::{FlowId, RoleId, StepId, UserId};
use wf_talk::{Denial, RoleList};

/// Why a user may not claim a step of a case, where there is a cause beside that the rest of the
/// case could not be completed. Only the list of roles takes memory.
pub fn first_cause(
    alloc: Global,
    p: &Policy,
    c: &Case,
    s: StepId,
    u: UserId,
) -> Result<Option<Denial>, AllocError>
    requires flow { c.now.flow < length p.now.flows }
    requires steps { length c.now.states ≡ length (flow_at p.now c.now.flow).flow.steps }
    requires step { s < length c.now.states }
    requires user { u < length p.now.roster.users }
    ensures cause { IfOk result (λ cause. cause ≡ first_cause p.now c.now s u) }
    ensures memory { OnErr result (takes_memory (first_cause p.now c.now s u) ≡ true) }
{
    let f = c.flow();
    if let Some(user) = c.state(s).user() {
        return Ok(Some(Denial::Taken(user)));
    }
    if let Some(step) = c.first_missing(p.flow(f), s) {
        return Ok(Some(Denial::Order { flow: f, step }));
    }
    if !p.authorised(f, s, u) {
        return Ok(Some(Denial::Role(permitted_roles(alloc, p, f, s)?)));
    }
    match first_falsified(p, f, &assigned_with(c, s, u)) {
        Some(k) => Ok(Some(Denial::Rule(k))),
        None => Ok(None),
    }
}

/// Whether there is such a cause. Its list of roles is not made, and what is least work to ask is
/// asked first.
pub fn has_cause(p: &Policy, c: &Case, s: StepId, u: UserId) -> bool
    requires flow { c.now.flow < length p.now.flows }
    requires steps { length c.now.states ≡ length (flow_at p.now c.now.flow).flow.steps }
    requires step { s < length c.now.states }
    requires user { u < length p.now.roster.users }
    ensures { result ≡ is_some (first_cause p.now c.now s u) }
{
    let f = c.flow();
    c.state(s).user().is_some()
        || !p.authorised(f, s, u)
        || c.first_missing(p.flow(f), s).is_some()
        || first_falsified(p, f, &assigned_with(c, s, u)).is_some()
}

/// The roles that are permitted for a step, ascending.
fn permitted_roles(alloc: Global, p: &Policy, f: FlowId, s: StepId) -> Result<RoleList, AllocError>
    requires { f < length p.now.flows }
    ensures { IfOk result (λ roles. roles ≡ permitted_roles p.now f s) }
{
    let flow = p.flow(f);
    let mut roles = RoleList::new(alloc);
    'roles: for r in 0..p.roster().roles().len() {
        let role = RoleId(r as u8);
        if flow.permits(role, s) {
            roles.push(role)?;
        }
    }
    Ok(roles)
}

/// What is assigned in a case, and a step given to a user with it.
fn assigned_with(c: &Case, s: StepId, u: UserId) -> Assign
    requires { s < length c.now.states }
    ensures { result ≡ assigned_with c.now s u }
{
    let _within = c.steps();
    c.assigned().with(s, u)
}

/// The number of the first rule of a workflow that an assignment falsifies.
fn first_falsified(p: &Policy, f: FlowId, a: &Assign) -> Option<u8>
    requires { f < length p.now.flows }
    ensures { result ≡ first_falsified (problem_of p.now f).related (user_at a.now) 0
        (flow_at p.now f).rules }
{
    let rules = p.rules(f);
    'rules: for k in 0..rules.len() {
        if falsified(rules.get(k), p, a) {
            return Some(k as u8);
        }
    }
    None
}
