//! Which valid plans a change of the policy makes invalid.
ghost use Rattle.std.specs.Prelude.{◌≡◌, ◌<◌, ◌==◌, ◌&&◌, ℕ, not, length, slice_get, true, false};
ghost use Rattle.wf_names.specs.States.{is_finished};
ghost use Rattle.constraint_forms.specs.Assign.{planned};
ghost use Rattle.policy_book.specs.Policies.{flow_at, is_authorised};
ghost use Rattle.case_record.specs.Cases.{state_at};
ghost use Rattle.wf_board.specs.Breaking.{breaks, breaks_rule, gives, is_barred, is_broken_over};
ghost use Rattle.wf_board.specs.Breaking.{loses_step, HasPlanFor, NamesStep};
ghost use Rattle.wf_board.specs.Edition.{IsPlanOf};
ghost use Rattle.wf_board.specs.Laws.Kept.{ArePlanned, EachRow, IsOfPolicy, IsPlanned};

use crate::Revision;
use admin_edits::{Amendment, is_over};
use case_record::Case;
use constraint_forms::{Plan, satisfied};
use grant_table::{Cases, Row};
use policy_book::Policy;
use user_relations::Relations;
use wf_names::{FlowId, RelId, StepId, UserId};

/// Whether a change may make a valid plan of a case invalid. Only what the change touches is looked
/// at: the steps of the user who loses a role, the step that is forbidden, or, where the plan gives
/// steps to both users of a pair, the rules over its relation. Takes no memory.
pub fn may_break(revision: &Revision, case: &Case, plan: &Plan) -> bool
    requires known { IsOfPolicy revision.now.before.now case.now }
    requires valid { IsPlanOf revision.now.before.now case.now plan.now }
    ensures { result ≡ false → IsPlanOf revision.now.after.now case.now plan.now }
{
    let _sound = revision.before.admin();
    breaks(
        revision.before,
        revision.after,
        revision.amendment,
        case,
        plan,
    )
}

fn breaks(p: &Policy, after: &Policy, a: &Amendment, case: &Case, plan: &Plan) -> bool
    requires has { HasPlanFor after.now case.now.flow plan.now }
    requires step { NamesStep a.now case.now.flow plan.now }
    ensures { result ≡ breaks p.now after.now a.now case.now plan.now }
{
    match *a {
        Amendment::AddUser { .. }
        | Amendment::Enrol { .. }
        | Amendment::Permit { .. }
        | Amendment::Retire { .. } => false,
        Amendment::Leave { user } | Amendment::Dismiss { user, .. } => {
            loses_step(after, case, plan, user)
        }
        Amendment::Relate {
            relation,
            first,
            second,
        }
        | Amendment::Unrelate {
            relation,
            first,
            second,
        } => {
            gives(plan, first)
                && gives(plan, second)
                && breaks_rule(p.relations(), after, relation, case.flow(), plan)
        }
        Amendment::Forbid { flow, step, .. } => {
            case.flow() == flow && is_barred(after, case, plan, step)
        }
    }
}

/// Whether a plan gives some step that is not finished to a user who may not perform it any more,
/// of the steps of one user.
fn loses_step(after: &Policy, case: &Case, plan: &Plan, u: UserId) -> bool
    requires { HasPlanFor after.now case.now.flow plan.now }
    ensures { result ≡ loses_step after.now case.now plan.now u }
{
    'steps: for s in 0..plan.len() {
        if loses_one(after, case, plan, u, StepId(s)) {
            return true;
        }
    }
    false
}

fn loses_one(after: &Policy, case: &Case, plan: &Plan, u: UserId, s: StepId) -> bool
    requires has { HasPlanFor after.now case.now.flow plan.now }
    requires step { s < length plan.now }
    ensures { result ≡ ((planned plan.now s == u) && is_barred after.now case.now plan.now s) }
{
    plan.at(s) == u && is_barred(after, case, plan, s)
}

/// Whether a step is not finished, and its user may not perform it.
fn is_barred(after: &Policy, case: &Case, plan: &Plan, s: StepId) -> bool
    requires has { HasPlanFor after.now case.now.flow plan.now }
    requires step { s < length plan.now }
    ensures { result ≡ is_barred after.now case.now plan.now s }
{
    !case.state(s).is_finished() && !after.authorised(case.flow(), s, plan.at(s))
}

/// Whether a plan gives some step to a user.
fn gives(plan: &Plan, u: UserId) -> bool
    ensures { result ≡ gives plan.now u }
{
    'steps: for s in 0..plan.len() {
        if plan.at(StepId(s)) == u {
            return true;
        }
    }
    false
}

/// Whether a plan does not satisfy some rule over a relation or its complement.
fn breaks_rule(relations: &Relations, after: &Policy, rho: RelId, f: FlowId, plan: &Plan) -> bool
    requires { HasPlanFor after.now f plan.now }
    ensures { result ≡ breaks_rule relations.now after.now rho f plan.now }
{
    'rules: for k in 0..after.rules(f).len() {
        if is_broken(relations, after, rho, f, plan, k) {
            return true;
        }
    }
    false
}

fn is_broken(
    relations: &Relations,
    after: &Policy,
    rho: RelId,
    f: FlowId,
    plan: &Plan,
    k: usize,
) -> bool
    requires { HasPlanFor after.now f plan.now }
    ensures { result ≡ is_broken_over relations.now after.now rho plan.now
        (slice_get (flow_at after.now f).rules k) }
{
    match after.rules(f).as_slice().get(k) {
        Some(rule) => is_over(relations, rho, rule) && !satisfied(rule, after, plan),
        None => false,
    }
}

/// Whether the plan that is kept for each open case stays valid under a change.
pub(crate) fn all_stay(revision: &Revision, cases: &Cases) -> bool
    requires { ArePlanned revision.now.before.now cases.now.rows }
    ensures { result ≡ true
        → EachRow (λ r. IsPlanned revision.now.after.now r.case r.plan) cases.now.rows }
{
    let _planned = cases.live();
    these_stay(revision, cases.open_part())
}

fn these_stay(revision: &Revision, rows: &[Row]) -> bool
    requires { ArePlanned revision.now.before.now rows.now }
    ensures { result ≡ true
        → EachRow (λ r. IsPlanned revision.now.after.now r.case r.plan) rows.now }
{
    'rows: for i in 0..rows.len() {
        if !stays(revision, &rows[i]) {
            return false;
        }
    }
    true
}

/// Whether the plan of a row stays valid, if it has one.
fn stays(revision: &Revision, row: &Row) -> bool
    requires known { IsOfPolicy revision.now.before.now row.now.case }
    requires planned { IsPlanned revision.now.before.now row.now.case row.now.plan }
    ensures { result ≡ true → IsPlanned revision.now.after.now row.now.case row.now.plan }
{
    match row.plan() {
        Some(plan) => !may_break(revision, row.case(), &plan),
        None => true,
    }
}
