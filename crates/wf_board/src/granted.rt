//! Takes the replies to openings and claims that somebody else gave.
ghost use Rattle.std.specs.Prelude.{◌≡◌, ◌≢◌, ◌<◌, ◌↔◌, None, Ok, length, true};
ghost use Rattle.constraint_forms.specs.Assign.{no_steps, no_users};
ghost use Rattle.refutation_tree.specs.Laws.Views.{shape_of};
ghost use Rattle.policy_book.specs.Laws.Plans.{IsValidPlan, IsWithin};
ghost use Rattle.policy_book.specs.Course.{problem_in};
ghost use Rattle.policy_book.specs.Policies.{problem_of};
ghost use Rattle.policy_book.specs.Laws.Refuting.{refutes};
ghost use Rattle.case_record.specs.Cases.{finished_of};
ghost use Rattle.admin_edits.specs.ClaimCauses.{assigned_with};
ghost use Rattle.wf_talk.specs.declared.reply.Reply.TheVariants as replies;
ghost use Rattle.wf_board.specs.declared.deed.Deed.TheVariants as deeds;
ghost use Rattle.wf_board.specs.Admission.{HasAdmitted};
ghost use Rattle.wf_board.specs.Boards.{book_of};
ghost use Rattle.wf_board.specs.Decisions.{cause_aside};
ghost use Rattle.wf_board.specs.Laws.Found.{AreFound};
ghost use Rattle.wf_board.specs.Taking.{full_or, IsUnhindered, HasRoomToOpen, IsKept};

use crate::admit::{NotStep, when};
use crate::decision::assigned_with;
use crate::taking::{claim, open};
use crate::{AdmitFault, Duty};
use basics::Fault;
use certificate_check::{check_tree, is_valid_plan};
use constraint_forms::{Assign, Plan, StepSet};
use grant_table::Cases;
use policy_book::{Course, Policy};
use refutation_tree::Tree;
use wf_names::{CaseId, FlowId};
use wf_talk::{Denial, Reply};

/// Opens a case as a reply says, if the reply is one to it.
pub(crate) fn admit_opening(
    p: &Policy,
    cases: &mut Cases,
    flow: FlowId,
    reply: &Reply,
) -> Result<(), AdmitFault>
    requires kept { IsKept p.now cases.old }
    requires known { flow < length p.now.flows }
    requires room { full_or (book_of p.now cases.old) (deeds.Open flow) ≡ Ok (deeds.Open flow) }
    requires given { reply.now ≢ replies.NoMemory }
    ensures { HasAdmitted p.now cases.old cases.new (Ok (deeds.Open flow)) reply.now result }
{
    let course = Course {
        policy: p,
        number: flow,
    };
    match reply {
        Reply::Opened { case, plan } => open_as(&course, cases, *case, plan),
        Reply::Denied(denial) => admit_unsatisfiable(&course, cases, denial),
        _ => Err(Fault::Cause(NotStep)),
    }
}

/// Opens a case with a number and a plan, if the number is the next and the plan valid. Room is
/// made last.
fn open_as(
    course: &Course,
    cases: &mut Cases,
    number: CaseId,
    plan: &Plan,
) -> Result<(), AdmitFault>
    requires kept { IsKept course.now.policy.now cases.old }
    requires room { HasRoomToOpen course.now cases.old }
    ensures { HasAdmitted course.now.policy.now cases.old cases.new
        (Ok (deeds.Open course.now.number)) (replies.Opened number plan.now) result }
{
    if !is_next(cases, number) {
        return Err(Fault::Cause(NotStep));
    }
    if !is_opening_plan(course, plan) {
        return Err(Fault::Cause(NotStep));
    }
    match open(course, cases, *plan) {
        Reply::NoMemory => Err(Fault::NoMemory),
        _ => Ok(()),
    }
}

/// Whether a number is that of the next case.
fn is_next(cases: &Cases, number: CaseId) -> bool
    ensures { result ≡ true ↔ number ≡ cases.now.ever }
{
    number.0 == cases.ever()
}

/// Whether a plan is valid for a fresh case of a workflow.
fn is_opening_plan(course: &Course, plan: &Plan) -> bool
    ensures { result ≡ true ↔ IsValidPlan (problem_in course.now) no_users no_steps plan.now }
{
    let assigned = Assign::empty();
    let finished = StepSet::empty();
    is_valid_plan(course.policy, course.number, &assigned, &finished, plan)
}

/// Whether a denial shows by its tree that a workflow has no valid plan.
fn admit_unsatisfiable(course: &Course, cases: &Cases, denial: &Denial) -> Result<(), AdmitFault>
    requires { IsKept course.now.policy.now cases.now }
    ensures { HasAdmitted course.now.policy.now cases.now cases.now
        (Ok (deeds.Open course.now.number)) (replies.Denied denial.now) result }
{
    let _ = cases;
    match denial {
        Denial::Unsatisfiable { flow: named, tree } => {
            when(*named == course.number && is_opening_tree(course, tree.get()))
        }
        _ => Err(Fault::Cause(NotStep)),
    }
}

/// Whether a tree shows that a workflow has no valid plan.
fn is_opening_tree(course: &Course, tree: &Tree) -> bool
    ensures { result ≡ refutes (problem_in course.now) no_users no_steps (shape_of tree.now) }
{
    let assigned = Assign::empty();
    let finished = StepSet::empty();
    check_tree(course.policy, course.number, &assigned, &finished, tree)
}

/// Gives a step to a user as a reply says, if the reply is one to it.
pub(crate) fn admit_claim(
    p: &Policy,
    cases: &mut Cases,
    duty: &Duty,
    reply: &Reply,
) -> Result<(), AdmitFault>
    requires ready { IsUnhindered p.now cases.old (deeds.Claim duty.now) }
    requires given { reply.now ≢ replies.NoMemory }
    ensures { HasAdmitted p.now cases.old cases.new (Ok (deeds.Claim duty.now)) reply.now result }
{
    match reply {
        Reply::Granted(plan) => claim_as(p, cases, duty, plan),
        Reply::Denied(denial) => admit_stranded(p, cases, duty, denial),
        _ => Err(Fault::Cause(NotStep)),
    }
}

/// Gives a step to a user with a plan, if the plan is valid.
fn claim_as(p: &Policy, cases: &mut Cases, duty: &Duty, plan: &Plan) -> Result<(), AdmitFault>
    requires { IsUnhindered p.now cases.old (deeds.Claim duty.now) }
    ensures { HasAdmitted p.now cases.old cases.new (Ok (deeds.Claim duty.now))
        (replies.Granted plan.now) result }
{
    if !is_claim_plan(p, cases, duty, plan) {
        return Err(Fault::Cause(NotStep));
    }
    claim(p, cases, duty, *plan);
    Ok(())
}

/// Whether a plan is valid for a case once its step is given to a user.
fn is_claim_plan(p: &Policy, cases: &Cases, duty: &Duty, plan: &Plan) -> bool
    requires { AreFound p.now cases.now.rows duty.now }
    ensures { result ≡ true ↔ IsValidPlan (problem_of p.now duty.now.case.flow)
        (assigned_with duty.now.case duty.now.step duty.now.user) (finished_of duty.now.case)
        plan.now }
{
    let _ = cases;
    let case = &duty.case;
    let assigned = assigned_with(case, duty.step, duty.user);
    is_valid_plan(p, case.flow(), &assigned, &case.finished(), plan)
}

/// Whether a denial shows by its tree that a case could not be completed once its step is given to
/// a user.
fn admit_stranded(p: &Policy, cases: &Cases, duty: &Duty, denial: &Denial) -> Result<(), AdmitFault>
    requires kept { IsKept p.now cases.now }
    requires found { AreFound p.now cases.now.rows duty.now }
    ensures { HasAdmitted p.now cases.now cases.now (Ok (deeds.Claim duty.now))
        (replies.Denied denial.now) result }
{
    match denial {
        Denial::Stranded { flow, tree } => {
            when(*flow == duty.case.flow() && is_claim_tree(p, cases, duty, tree.get()))
        }
        _ => Err(Fault::Cause(NotStep)),
    }
}

/// Whether a tree shows that a case could not be completed once its step is given to a user.
fn is_claim_tree(p: &Policy, cases: &Cases, duty: &Duty, tree: &Tree) -> bool
    requires { AreFound p.now cases.now.rows duty.now }
    ensures { result ≡ refutes (problem_of p.now duty.now.case.flow)
        (assigned_with duty.now.case duty.now.step duty.now.user) (finished_of duty.now.case)
        (shape_of tree.now) }
{
    let _ = cases;
    let case = &duty.case;
    let assigned = assigned_with(case, duty.step, duty.user);
    check_tree(p, case.flow(), &assigned, &case.finished(), tree)
}
