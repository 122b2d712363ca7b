//! Whether an assignment can be completed, as a plan that is known and then a search tells.
ghost use Rattle.std.specs.Prelude.{◌≡◌, ◌<◌, length, IfOk, IfSome};
ghost use Rattle.constraint_forms.specs.Assign.{no_steps, no_users};
ghost use Rattle.policy_book.specs.Course.{problem_in};
ghost use Rattle.policy_book.specs.Policies.{problem_of};
ghost use Rattle.policy_book.specs.Laws.Plans.{AreAssigned, IsValidPlan, IsWithin};
ghost use Rattle.wf_names.specs.declared.limits.TheConstants.{STEP_LIMIT};
ghost use Rattle.case_record.specs.Cases.{assigned_of, finished_of};
ghost use Rattle.admin_edits.specs.ClaimCauses.{assigned_with};
ghost use Rattle.wsp_solver.specs.Searches.{HasSolved};
ghost use Rattle.case_views.specs.Found.{IsOffer};

use case_record::Case;
use certificate_check::moved_plan;
use constraint_forms::{Assign, Plan, StepSet};
use policy_book::{Course, Policy};
use std::alloc::Global;
use wf_board::TREE_LIMIT;
use wf_names::{StepId, UserId};
use wsp_solver::{Outcome, Unsolved, plan_near, solve_within};

/// A plan for a case with one of its steps given to a user: one that `plan_with` finds, and else
/// what a search finds.
pub(crate) fn outcome_with(
    alloc: Global,
    p: &Policy,
    case: &Case,
    kept: &Plan,
    step: StepId,
    user: UserId,
) -> Result<Outcome, Unsolved>
    requires { IsOffer p.now case.now kept.now step user }
    ensures { IfOk result (HasSolved (problem_of p.now case.now.flow)
        (assigned_with case.now step user)
        (finished_of case.now)) }
{
    match plan_with(p, case, kept, step, user) {
        Some(plan) => Ok(Outcome::Plan(plan)),
        None => {
            let assigned = assigned_with(case, step, user);
            solve_within(
                alloc,
                p,
                case.flow(),
                &assigned,
                &case.finished(),
                TREE_LIMIT,
            )
        }
    }
}

/// A plan for a case with one of its steps given to a user, with no search: the one that is kept
/// for it, where it gives the user the step, or that one with the user there, or one near that.
pub(crate) fn plan_with(
    p: &Policy,
    case: &Case,
    kept: &Plan,
    step: StepId,
    user: UserId,
) -> Option<Plan>
    requires { IsOffer p.now case.now kept.now step user }
    ensures { IfSome result (IsValidPlan (problem_of p.now case.now.flow)
        (assigned_with case.now step user)
        (finished_of case.now)) }
{
    if kept.at(step) == user {
        return Some(*kept);
    }
    let flow = case.flow();
    match moved_plan(p, flow, kept, step, user) {
        Some(plan) => Some(plan),
        None => {
            let assigned = assigned_with(case, step, user);
            plan_near(p, flow, &assigned, &case.finished(), kept)
        }
    }
}

/// A plan for a fresh case of a workflow near another, if one is valid.
pub(crate) fn plan_fresh(course: &Course, kept: &Plan) -> Option<Plan>
    ensures { IfSome result (IsValidPlan (problem_in course.now) no_users no_steps) }
{
    let (assigned, done) = (Assign::empty(), StepSet::empty());
    plan_near(course.policy, course.number, &assigned, &done, kept)
}

// What is assigned in a case, with one of its steps given to a user.
fn assigned_with(case: &Case, step: StepId, user: UserId) -> Assign
    requires { step < length case.now.states }
    ensures given { result ≡ assigned_with case.now step user }
    ensures len { length (assigned_of case.now) ≡ STEP_LIMIT }
    ensures within { step < STEP_LIMIT }
{
    let _ = case.steps();
    case.assigned().with(step, user)
}

/// A plan for a fresh case of a workflow: one near another plan, where there is one and one near it
/// is valid, and else what a search finds.
pub(crate) fn outcome_fresh(
    alloc: Global,
    course: &Course,
    recent: Option<Plan>,
) -> Result<Outcome, Unsolved>
    ensures { IfOk result (HasSolved (problem_in course.now) no_users no_steps) }
{
    let (assigned, done) = (Assign::empty(), StepSet::empty());
    match recent {
        Some(kept) => outcome_near(alloc, course, &assigned, &done, &kept),
        None => solve_within(
            alloc,
            course.policy,
            course.number,
            &assigned,
            &done,
            TREE_LIMIT,
        ),
    }
}

/// A plan for an assignment: one near another plan where one is valid, and else what a search
/// finds.
pub(crate) fn outcome_near(
    alloc: Global,
    course: &Course,
    a: &Assign,
    done: &StepSet,
    kept: &Plan,
) -> Result<Outcome, Unsolved>
    requires within { IsWithin (problem_in course.now) a.now }
    requires assigned { AreAssigned done.now a.now }
    ensures { IfOk result (HasSolved (problem_in course.now) a.now done.now) }
{
    match plan_near(course.policy, course.number, a, done, kept) {
        Some(near) => Ok(Outcome::Plan(near)),
        None => solve_within(alloc, course.policy, course.number, a, done, TREE_LIMIT),
    }
}
