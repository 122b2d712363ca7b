//! The decider on one thread.
ghost use Rattle.std.specs.Prelude.{◌≡◌, ◌<◌, length, IfSome, MatchResult, Ok};
ghost use Rattle.constraint_forms.specs.Assign.{no_steps, no_users};
ghost use Rattle.policy_book.specs.Laws.Plans.{IsValidPlan};
ghost use Rattle.policy_book.specs.Policies.{problem_of};
ghost use Rattle.case_record.specs.Cases.{finished_of};
ghost use Rattle.admin_edits.specs.ClaimCauses.{assigned_with};
ghost use Rattle.wf_board.specs.Boards.{book_of};
ghost use Rattle.wf_board.specs.Deeds.{DecidesDeed};
ghost use Rattle.wf_board.specs.Laws.Found.{AreFound, IsFound};
ghost use Rattle.wf_board.specs.Laws.Kept.{ArePlanned};
ghost use Rattle.wf_board.specs.Verdicts.{IsPlanFor};
ghost use Rattle.case_views.specs.Deciding.{verdict_without, DecidesFor, IsVerdictOf};

use crate::edit_decider::{Left, left_open};
use crate::found::{outcome_fresh, outcome_with, plan_fresh, plan_with};
use crate::lister::Lister;
use crate::stranded::stranded_in;
use crate::survey::Survey;
use crate::work_lists::work_in;
use basics::{Fault, Shared};
use constraint_forms::Plan;
use grant_table::{Cases, Row};
use policy_book::{Course, Policy};
use refutation_tree::Tree;
use std::alloc::{AllocError, Global};
use wf_board::{Decider, Deed, Duty, Revision, Verdict};
use wf_names::{FlowId, UserId};
use wf_talk::{CaseList, WorkList};
use wsp_solver::{Outcome, OverBudget, Unsolved};

/// Finds verdicts one after the other, on one thread. For a claim the plan that is kept for the
/// case decides where it gives the step to the user, else a plan near it where one is valid, and
/// else a search; for an opening a plan with which a case of the workflow was opened before, or one
/// near it, and else a search. An edit or a view goes over the open cases in order.
pub struct PlainDecider;

impl Decider for PlainDecider {
    fn decide_deed(&self, alloc: Global, p: &Policy, cases: &Cases, deed: &Deed) -> Verdict {
        let survey = Survey {
            lister: self,
            alloc,
            policy: p,
            cases,
        };
        verdict_on(&survey, deed)
    }

    fn decide_near(&self, p: &Policy, cases: &Cases, deed: &Deed) -> Option<Plan> {
        near_plan(p, cases, deed)
    }
}

impl Lister for PlainDecider {
    fn left(&self, alloc: Global, revision: &Revision, rows: &[Row]) -> Result<Left, Unsolved> {
        left_open(alloc, revision, rows)
    }

    fn stranded(
        &self,
        alloc: Global,
        revision: &Revision,
        rows: &[Row],
    ) -> Result<CaseList, Unsolved> {
        stranded_in(alloc, revision, rows)
    }

    fn work(
        &self,
        alloc: Global,
        p: &Policy,
        u: UserId,
        rows: &[Row],
    ) -> Result<WorkList, Unsolved> {
        work_in(alloc, p, u, rows)
    }
}

/// A plan for a claim or an opening, where one that is known, or one near it, is valid.
fn near_plan(p: &Policy, cases: &Cases, deed: &Deed) -> Option<Plan>
    requires kept { ArePlanned p.now cases.now.rows }
    requires found { IsFound p.now cases.now.rows deed.now }
    ensures { IfSome result (IsPlanFor (book_of p.now cases.now) (Ok deed.now)) }
{
    match deed {
        Deed::Open { flow } => near_opening(p, cases, *flow),
        Deed::Claim(duty) => near_claim(p, cases, duty),
        _ => None,
    }
}

// A plan for a claim, by the plan that is kept for its case.
fn near_claim(p: &Policy, cases: &Cases, duty: &Duty) -> Option<Plan>
    requires kept { ArePlanned p.now cases.now.rows }
    requires found { AreFound p.now cases.now.rows duty.now }
    ensures { IfSome result (IsValidPlan (problem_of p.now duty.now.case.flow)
        (assigned_with duty.now.case duty.now.step duty.now.user)
        (finished_of duty.now.case)) }
{
    let Some(kept) = cases.kept_plan(duty.number) else {
        unreachable!()
    };
    plan_with(p, &duty.case, kept, duty.step, duty.user)
}

// A plan for an opening, by a plan with which a case of the workflow was opened before.
fn near_opening(p: &Policy, cases: &Cases, flow: FlowId) -> Option<Plan>
    requires { flow < length p.now.flows }
    ensures { IfSome result (IsValidPlan (problem_of p.now flow) no_users no_steps) }
{
    let course = Course {
        policy: p,
        number: flow,
    };
    match cases.recent_plan(flow) {
        Some(kept) => plan_fresh(&course, &kept),
        None => None,
    }
}

/// The verdict on a deed that no earlier check denies.
pub(crate) fn verdict_on<L: Lister>(survey: &Survey<L>, deed: &Deed) -> Verdict
    requires ready { L.ready survey.now.lister.now }
    requires kept { ArePlanned survey.now.policy.now survey.now.cases.now.rows }
    requires found { IsFound survey.now.policy.now survey.now.cases.now.rows deed.now }
    ensures { DecidesDeed (book_of survey.now.policy.now survey.now.cases.now) deed.now result }
{
    match deed {
        Deed::Open { flow } => open_verdict(survey.alloc, survey.policy, survey.cases, *flow),
        Deed::Claim(duty) => claim_verdict(survey.alloc, survey.policy, survey.cases, duty),
        Deed::Change { .. } | Deed::Work { .. } | Deed::WhatIf { .. } => survey.verdict(deed),
        _ => Verdict::Nothing,
    }
}

// The verdict on a claim, by the plan that is kept for its case.
fn claim_verdict(alloc: Global, p: &Policy, cases: &Cases, duty: &Duty) -> Verdict
    requires kept { ArePlanned p.now cases.now.rows }
    requires found { AreFound p.now cases.now.rows duty.now }
    ensures { DecidesFor (problem_of p.now duty.now.case.flow)
        (assigned_with duty.now.case duty.now.step duty.now.user)
        (finished_of duty.now.case) result }
{
    let Some(kept) = cases.kept_plan(duty.number) else {
        unreachable!()
    };
    match outcome_with(alloc, p, &duty.case, kept, duty.step, duty.user) {
        Ok(outcome) => verdict_of(alloc, outcome),
        Err(unfound) => verdict_without(unfound),
    }
}

// The verdict on an opening, by a plan with which a case of the workflow was opened before.
fn open_verdict(alloc: Global, p: &Policy, cases: &Cases, flow: FlowId) -> Verdict
    requires { flow < length p.now.flows }
    ensures { DecidesFor (problem_of p.now flow) no_users no_steps result }
{
    let course = Course {
        policy: p,
        number: flow,
    };
    match outcome_fresh(alloc, &course, cases.recent_plan(flow)) {
        Ok(outcome) => verdict_of(alloc, outcome),
        Err(unfound) => verdict_without(unfound),
    }
}

// What was found of an assignment, as a verdict.
fn verdict_of(alloc: Global, outcome: Outcome) -> Verdict
    ensures { IsVerdictOf outcome result }
{
    match outcome {
        Outcome::Plan(plan) => Verdict::Plan(plan),
        Outcome::Refuted(tree) => verdict_by(Shared::new(alloc, tree)),
    }
}

fn verdict_by(tree: Result<Shared<Tree>, AllocError>) -> Verdict
    ensures { MatchResult tree (λ t. result ≡ Verdict.Refuted t) (λ _. result ≡ Verdict.NoMemory) }
{
    match tree {
        Ok(tree) => Verdict::Refuted(tree),
        Err(_) => Verdict::NoMemory,
    }
}

/// Why there is no other verdict, as one.
pub(crate) fn verdict_without(unfound: Unsolved) -> Verdict
    ensures { result ≡ verdict_without unfound }
{
    match unfound {
        Fault::NoMemory => Verdict::NoMemory,
        Fault::Cause(OverBudget) => Verdict::OverBudget,
    }
}
