//! How a board answers, over its policy and its table of cases.
ghost use Rattle.std.specs.Prelude.{◌≡◌, ◌≢◌, ◌≤◌, ◌<◌, None, Ok, false, length, true, OnErr, OnOk};
ghost use Rattle.wf_names.specs.States.{is_held};
ghost use Rattle.wf_names.specs.declared.states.StepState.TheVariants.{Free as FreeStep};
ghost use Rattle.wf_names.specs.declared.states.Phase.TheVariants.{Withdrawn as WithdrawnCase};
ghost use Rattle.constraint_forms.specs.Assign.{no_steps, no_users};
ghost use Rattle.policy_book.specs.Laws.Plans.{IsValidPlan};
ghost use Rattle.policy_book.specs.Course.{problem_in};
ghost use Rattle.policy_book.specs.Policies.{problem_of};
ghost use Rattle.case_record.specs.Cases.{finished_of, state_at, with_phase, with_state, CaseShape};
ghost use Rattle.grant_table.specs.Cases.{freed_row, withdrawn_row};
ghost use Rattle.admin_edits.specs.ClaimCauses.{assigned_with};
ghost use Rattle.wf_board.specs.declared.deed.Deed.TheVariants as deeds;
ghost use Rattle.wf_board.specs.declared.verdict.Verdict.TheVariants as verdicts;
ghost use Rattle.wf_talk.specs.declared.reply.Reply.TheVariants as replies;
ghost use Rattle.wf_board.specs.Boards.{book_of};
ghost use Rattle.wf_board.specs.Decisions.{cause_aside, decision_aside, decision_of, needs_plan};
ghost use Rattle.wf_board.specs.Decisions.{needs_verdict};
ghost use Rattle.wf_board.specs.Deeds.{answered_of, FitsDeed, IsLeftTo, IsUndecided};
ghost use Rattle.wf_board.specs.Laws.Found.{AreFound, IsFound, IsOpenAt};
ghost use Rattle.wf_board.specs.Laws.States.{is_full};
ghost use Rattle.wf_board.specs.Laws.Steps.{face_of};
ghost use Rattle.wf_board.specs.Taking.{full_or, keeps_policy, IsUnhindered, HasAnsweredAlone};
ghost use Rattle.wf_board.specs.Taking.{HasAnsweredBy};
ghost use Rattle.wf_board.specs.Taking.{HasChanged, HasTakenStep, IsHeldAt, IsKept, IsUsable};
ghost use Rattle.wf_board.specs.Taking.{LacksRoom};
ghost use Rattle.wf_board.specs.Limits.{is_large, shows_large};
ghost use Rattle.wf_board.specs.Verdicts.{is_opening, is_unusable, IsMadeOf, IsPlanFor, IsRight};
ghost use Rattle.wf_board.specs.Verdicts.{IsStrandingFor, IsTreeFor};

use crate::decision::{decision_of, is_full, needs_plan};
use crate::resolve::resolve;
use crate::views::by_view;
use crate::{Answered, Deed, Duty, Stepped, Verdict};
use basics::{Fault, Shared};
use case_record::Case;
use constraint_forms::Plan;
use grant_table::Cases;
use policy_book::{Course, Policy};
use refutation_tree::Tree;
use std::alloc::{AllocError, Global};
use wf_names::{CaseId, FlowId, StepId};
use wf_talk::{Ask, Denial, Face, Reply, States};

/// Answers what a line asks, with a verdict where one is needed, under the same policy.
pub(crate) fn answer(
    alloc: Global,
    p: &Policy,
    cases: &mut Cases,
    ask: &Ask,
    verdict: Verdict,
) -> Answered
    requires kept { IsKept p.now cases.old }
    requires right { IsRight (book_of p.now cases.old) ask.now verdict }
    requires same { keeps_policy verdict ≡ true }
    ensures answered { HasAnsweredBy p.now cases.old cases.new ask.now verdict result }
{
    if verdict.is_unusable() {
        return answer_want(alloc, p, cases, ask);
    }
    answer_by(alloc, p, cases, ask, verdict)
}

/// Answers what needs no verdict, and else that there was no memory, whatever the verdict is that
/// no reply can be made of.
fn answer_want(alloc: Global, p: &Policy, cases: &mut Cases, ask: &Ask) -> Answered
    requires { IsKept p.now cases.old }
    ensures { (v : Verdict) → is_unusable v ≡ true
        → HasAnsweredBy p.now cases.old cases.new ask.now v result }
{
    match without_verdict(alloc, p, cases, ask) {
        Answered::Done(reply) => Answered::Done(reply),
        Answered::Needs => Answered::Done(Reply::NoMemory),
    }
}

/// Answers with a verdict that a reply can be made of, or with none.
fn answer_by(alloc: Global, p: &Policy, cases: &mut Cases, ask: &Ask, verdict: Verdict) -> Answered
    requires kept { IsKept p.now cases.old }
    requires right { IsRight (book_of p.now cases.old) ask.now verdict }
    requires same { keeps_policy verdict ≡ true }
    requires usable { is_unusable verdict ≡ false }
    ensures answered { HasAnsweredBy p.now cases.old cases.new ask.now verdict result }
{
    match verdict {
        Verdict::Plan(plan) => Answered::Done(by_plan(p, cases, ask, plan)),
        Verdict::Refuted(tree) => Answered::Done(by_tree(p, cases, ask, tree)),
        Verdict::Strands(number, tree) => {
            Answered::Done(by_stranding(p, cases, ask, number, tree))
        }
        Verdict::View(view) => Answered::Done(by_view(p, cases, ask, view)),
        Verdict::Edited(_) => unreachable!(),
        Verdict::Nothing => without_verdict(alloc, p, cases, ask),
        Verdict::NoMemory | Verdict::OverBudget => unreachable!(),
    }
}

/// Answers what needs no verdict.
fn without_verdict(alloc: Global, p: &Policy, cases: &mut Cases, ask: &Ask) -> Answered
    requires { IsKept p.now cases.old }
    ensures { HasAnsweredAlone p.now cases.old cases.new
        (decision_of (book_of p.now cases.old) ask.now) result }
{
    match step(alloc, p, cases, ask) {
        Stepped::Done(reply) => Answered::Done(reply),
        Stepped::Undecided(_) => Answered::Needs,
    }
}

/// Does what is asked where it needs no verdict, and else gives its deed.
pub(crate) fn step(alloc: Global, p: &Policy, cases: &mut Cases, ask: &Ask) -> Stepped
    requires { IsKept p.now cases.old }
    ensures alone { HasAnsweredAlone p.now cases.old cases.new
        (decision_of (book_of p.now cases.old) ask.now) (answered_of result) }
    ensures left { IsLeftTo p.now cases.old ask.now result }
{
    match decision_of(alloc, p, cases, ask) {
        Ok(deed) if needs_plan(&deed) => Stepped::Undecided(deed),
        Ok(deed) => Stepped::Done(perform(p, cases, deed)),
        Err(Fault::Cause(denial)) => Stepped::Done(Reply::Denied(denial)),
        Err(Fault::NoMemory) => Stepped::Done(Reply::NoMemory),
    }
}

/// Answers a request on whose deed there is a verdict, under the same policy.
pub(crate) fn take(p: &Policy, cases: &mut Cases, ask: &Ask, deed: Deed, verdict: Verdict) -> Reply
    requires kept { IsKept p.now cases.old }
    requires undecided { IsUndecided p.now cases.old ask.now deed }
    requires fits { FitsDeed (book_of p.now cases.old) deed verdict }
    requires given { verdict ≢ verdicts.Nothing }
    requires same { keeps_policy verdict ≡ true }
    ensures taken { HasTakenStep p.now cases.old cases.new
        (decision_of (book_of p.now cases.old) ask.now) result }
    ensures small { shows_large result ≡ false }
    ensures unchanged { result ≡ replies.NoMemory → cases.new ≡ cases.old }
{
    if verdict.is_unusable() {
        return Reply::NoMemory;
    }
    take_by(p, cases, ask, deed, verdict)
}

/// Answers by a verdict that a reply can be made of.
fn take_by(p: &Policy, cases: &mut Cases, ask: &Ask, deed: Deed, verdict: Verdict) -> Reply
    requires kept { IsKept p.now cases.old }
    requires undecided { IsUndecided p.now cases.old ask.now deed }
    requires fits { FitsDeed (book_of p.now cases.old) deed verdict }
    requires usable { IsUsable verdict }
    ensures taken { HasTakenStep p.now cases.old cases.new
        (decision_of (book_of p.now cases.old) ask.now) result }
    ensures small { shows_large result ≡ false }
    ensures unchanged { result ≡ replies.NoMemory → cases.new ≡ cases.old }
{
    match verdict {
        Verdict::Plan(plan) => plan_for(p, cases, deed, plan),
        Verdict::Refuted(tree) => tree_for(p, cases, deed, tree),
        Verdict::Strands(number, tree) => by_stranding(p, cases, ask, number, tree),
        Verdict::View(view) => by_view(p, cases, ask, view),
        Verdict::Edited(_) => unreachable!(),
        Verdict::Nothing => unreachable!(),
        Verdict::NoMemory | Verdict::OverBudget => unreachable!(),
    }
}

/// Answers a request on whose deed there is a plan.
pub(crate) fn take_plan(p: &Policy, cases: &mut Cases, ask: &Ask, deed: Deed, plan: Plan) -> Reply
    requires kept { IsKept p.now cases.old }
    requires undecided { IsUndecided p.now cases.old ask.now deed }
    requires plan { IsPlanFor (book_of p.now cases.old) (Ok deed) plan }
    ensures taken { HasTakenStep p.now cases.old cases.new
        (decision_of (book_of p.now cases.old) ask.now) result }
    ensures made { IsMadeOf (verdicts.Plan plan) result }
    ensures small { shows_large result ≡ false }
    ensures memory { result ≡ replies.NoMemory
        → (is_opening (decision_of (book_of p.now cases.old) ask.now) ≡ true) ×
        (cases.old.spare ≡ 0) }
    ensures unchanged { result ≡ replies.NoMemory → cases.new ≡ cases.old }
{
    let _ = ask;
    plan_for(p, cases, deed, plan)
}

/// Answers by a plan that shows that a case can be completed.
fn by_plan(p: &Policy, cases: &mut Cases, ask: &Ask, plan: Plan) -> Reply
    requires kept { IsKept p.now cases.old }
    requires plan { IsPlanFor (book_of p.now cases.old)
        (decision_aside (book_of p.now cases.old) ask.now) plan }
    ensures taken { HasTakenStep p.now cases.old cases.new
        (decision_of (book_of p.now cases.old) ask.now) result }
    ensures made { needs_verdict (decision_of (book_of p.now cases.old) ask.now) ≡ true
        → IsMadeOf (verdicts.Plan plan) result }
    ensures memory { result ≡ replies.NoMemory
        → (is_opening (decision_of (book_of p.now cases.old) ask.now) ≡ true) ×
        (cases.old.spare ≡ 0) }
    ensures unchanged { result ≡ replies.NoMemory → cases.new ≡ cases.old }
{
    match resolve(p, cases, ask) {
        Ok(deed) => plan_for(p, cases, deed, plan),
        Err(_) => unreachable!(),
    }
}

/// Does a deed by a plan that shows that its case can be completed.
fn plan_for(p: &Policy, cases: &mut Cases, deed: Deed, plan: Plan) -> Reply
    requires ready { IsUnhindered p.now cases.old deed }
    requires plan { IsPlanFor (book_of p.now cases.old) (Ok deed) plan }
    ensures taken { HasTakenStep p.now cases.old cases.new (full_or (book_of p.now cases.old)
        deed) result }
    ensures made { needs_verdict (full_or (book_of p.now cases.old) deed) ≡ true
        → IsMadeOf (verdicts.Plan plan) result }
    ensures small { shows_large result ≡ false }
    ensures lacking { result ≡ replies.NoMemory
        → LacksRoom cases.old cases.new (full_or (book_of p.now cases.old) deed) }
{
    match deed {
        Deed::Open { flow } => {
            let course = Course {
                policy: p,
                number: flow,
            };
            open(&course, cases, plan)
        }
        Deed::Claim(duty) => {
            claim(p, cases, &duty, plan);
            Reply::Granted(plan)
        }
        _ => unreachable!(),
    }
}

/// Answers by a tree that shows that a case cannot be completed.
fn by_tree(p: &Policy, cases: &Cases, ask: &Ask, tree: Shared<Tree>) -> Reply
    requires kept { IsKept p.now cases.now }
    requires tree { IsTreeFor (book_of p.now cases.now)
        (decision_aside (book_of p.now cases.now) ask.now) tree }
    requires fits { is_large tree ≡ false }
    ensures taken { HasTakenStep p.now cases.now cases.now
        (decision_of (book_of p.now cases.now) ask.now) result }
    ensures made { needs_verdict (decision_of (book_of p.now cases.now) ask.now) ≡ true
        → IsMadeOf (verdicts.Refuted tree) result }
    ensures memory { result ≢ replies.NoMemory }
{
    match resolve(p, cases, ask) {
        Ok(deed) => tree_for(p, cases, deed, tree),
        Err(_) => unreachable!(),
    }
}

/// Denies a deed by a tree that shows that its case cannot be completed.
fn tree_for(p: &Policy, cases: &Cases, deed: Deed, tree: Shared<Tree>) -> Reply
    requires kept { IsKept p.now cases.now }
    requires tree { IsTreeFor (book_of p.now cases.now) (Ok deed) tree }
    requires fits { is_large tree ≡ false }
    ensures taken { HasTakenStep p.now cases.now cases.now (full_or (book_of p.now cases.now)
        deed) result }
    ensures made { needs_verdict (full_or (book_of p.now cases.now) deed) ≡ true
        → IsMadeOf (verdicts.Refuted tree) result }
    ensures small { shows_large result ≡ false }
    ensures memory { result ≢ replies.NoMemory }
{
    match deed {
        Deed::Open { flow } => unsatisfiable(p, cases, flow, tree),
        Deed::Claim(duty) => Reply::Denied(Denial::Stranded {
            flow: duty.case.flow(),
            tree,
        }),
        _ => unreachable!(),
    }
}

/// Denies to open a case of a workflow that has no valid plan.
fn unsatisfiable(p: &Policy, cases: &Cases, flow: FlowId, tree: Shared<Tree>) -> Reply
    requires kept { IsKept p.now cases.now }
    requires tree { IsTreeFor (book_of p.now cases.now) (Ok (deeds.Open flow)) tree }
    requires fits { is_large tree ≡ false }
    ensures taken { HasTakenStep p.now cases.now cases.now
        (full_or (book_of p.now cases.now) (deeds.Open flow)) result }
    ensures made { is_full (book_of p.now cases.now) ≡ false
        → IsMadeOf (verdicts.Refuted tree) result }
    ensures small { shows_large result ≡ false }
    ensures memory { result ≢ replies.NoMemory }
{
    if is_full(p, cases) {
        return Reply::Denied(Denial::Full);
    }
    Reply::Denied(Denial::Unsatisfiable { flow, tree })
}

/// Denies an edit by a tree that shows that an open case could not be completed any more.
fn by_stranding(p: &Policy, cases: &Cases, ask: &Ask, number: CaseId, tree: Shared<Tree>) -> Reply
    requires kept { IsKept p.now cases.now }
    requires tree { IsStrandingFor (book_of p.now cases.now)
        (decision_aside (book_of p.now cases.now) ask.now) number tree }
    requires fits { is_large tree ≡ false }
    ensures taken { HasTakenStep p.now cases.now cases.now
        (decision_of (book_of p.now cases.now) ask.now) result }
    ensures made { IsMadeOf (verdicts.Strands number tree) result }
    ensures small { shows_large result ≡ false }
    ensures memory { result ≢ replies.NoMemory }
{
    let _ = p;
    let _ = ask;
    let _ascending = cases.live();
    match cases.case(number) {
        Some(case) => Reply::Denied(Denial::Strands {
            case: number,
            flow: case.flow(),
            tree,
        }),
        None => unreachable!(),
    }
}

/// Does a deed that needs no verdict.
fn perform(p: &Policy, cases: &mut Cases, deed: Deed) -> Reply
    requires ready { IsUnhindered p.now cases.old deed }
    requires aside { needs_plan deed ≡ false }
    ensures taken { HasTakenStep p.now cases.old cases.new (Ok deed) result }
    ensures memory { result ≢ replies.NoMemory }
{
    match deed {
        Deed::Finish(duty) => Reply::Finished {
            done: finish(p, cases, &duty),
        },
        Deed::GiveBack(duty) => {
            give_back(p, cases, duty.number, &duty.case, duty.step);
            Reply::Returned
        }
        Deed::Release { number, case, step } => {
            give_back(p, cases, number, &case, step);
            Reply::Released
        }
        Deed::Withdraw { number } => {
            withdraw(p, cases, number);
            Reply::Withdrawn
        }
        Deed::Show { case } => Reply::Shown(face_of(&case)),
        Deed::TurnAway { bad } => Reply::Bad(bad),
        Deed::Open { .. }
        | Deed::Claim(_)
        | Deed::Change { .. }
        | Deed::Work { .. }
        | Deed::WhatIf { .. } => unreachable!(),
    }
}

/// Opens a case with a plan.
pub(crate) fn open(course: &Course, cases: &mut Cases, plan: Plan) -> Reply
    requires kept { IsKept course.now.policy.now cases.old }
    requires valid { IsValidPlan (problem_in course.now) no_users no_steps plan }
    ensures taken { HasTakenStep course.now.policy.now cases.old cases.new
        (full_or (book_of course.now.policy.now cases.old) (deeds.Open course.now.number)) result }
    ensures made { is_full (book_of course.now.policy.now cases.old) ≡ false
        → IsMadeOf (verdicts.Plan plan) result }
    ensures small { shows_large result ≡ false }
    ensures memory { result ≡ replies.NoMemory
        → (is_full (book_of course.now.policy.now cases.old) ≡ false) × (cases.old.spare ≡ 0) }
    ensures unchanged { result ≡ replies.NoMemory → cases.new ≡ cases.old }
{
    if is_full(course.policy, cases) {
        return Reply::Denied(Denial::Full);
    }
    if make_room(cases).is_err() {
        return Reply::NoMemory;
    }
    let case = cases.open_case(course.policy, course.number, plan);
    Reply::Opened { case, plan }
}

/// Makes room for one more case, where there is none.
fn make_room(cases: &mut Cases) -> Result<(), AllocError>
    ensures room { OnOk result (0 < cases.new.spare) }
    ensures kept { cases.old.spare ≤ cases.new.spare }
    ensures same { cases.new ≡ record cases.old { spare = cases.new.spare } }
    ensures short { OnErr result (cases.old.spare ≡ 0) }
    ensures unchanged { OnErr result (cases.new ≡ cases.old) }
{
    if cases.spare() > 0 {
        return Ok(());
    }
    cases.reserve(1)
}

/// Gives a free step to a user, with a plan for the rest of the case.
pub(crate) fn claim(p: &Policy, cases: &mut Cases, duty: &Duty, plan: Plan)
    requires kept { IsKept p.now cases.old }
    requires found { AreFound p.now cases.old.rows duty.now }
    requires free { state_at duty.now.case duty.now.step ≡ FreeStep }
    requires valid { IsPlanFor (book_of p.now cases.old) (Ok (deeds.Claim duty.now)) plan }
    ensures { HasTakenStep p.now cases.old cases.new (Ok (deeds.Claim duty.now))
        (replies.Granted plan) }
{
    cases.hold(p, duty.number, duty.step, duty.user, plan);
}

/// Finishes a step that a user holds, and answers whether the case is then done.
pub(crate) fn finish(p: &Policy, cases: &mut Cases, duty: &Duty) -> bool
    requires { IsHeldAt p.now cases.old duty.now.number duty.now.case duty.now.step }
    ensures { HasTakenStep p.now cases.old cases.new (Ok (deeds.Finish duty.now))
        (replies.Finished result) }
{
    let _ = p;
    cases.finish(duty.number, duty.step)
}

/// Takes a held step from its holder.
pub(crate) fn give_back(p: &Policy, cases: &mut Cases, n: CaseId, case: &Case, s: StepId)
    requires { IsHeldAt p.now cases.old n case.now s }
    ensures { HasChanged p.now cases.old cases.new n (freed_row s) (λ c. with_state c s FreeStep) }
{
    let _ = p;
    let _ = case;
    cases.give_back(n, s);
}

/// Ends an open case.
pub(crate) fn withdraw(p: &Policy, cases: &mut Cases, n: CaseId)
    requires { IsUnhindered p.now cases.old (deeds.Withdraw n) }
    ensures { HasChanged p.now cases.old cases.new n withdrawn_row
        (λ c. with_phase c WithdrawnCase) }
{
    let _ = p;
    cases.withdraw(n);
}

/// What is to be seen of a case.
fn face_of(case: &Case) -> Face
    ensures { result ≡ face_of case.now }
{
    Face {
        flow: case.flow(),
        phase: case.phase(),
        states: States::of(case.states()),
    }
}
