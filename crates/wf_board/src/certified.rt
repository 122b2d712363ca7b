//! Plans and trees that come with what is asked.
ghost use Rattle.std.specs.Prelude.{◌≡◌, ◌<◌, ◌↔◌, Ok, length, true, IsTrue};
ghost use Rattle.wf_names.specs.declared.limits.TheConstants.{STEP_LIMIT};
ghost use Rattle.refutation_tree.specs.Laws.Views.{shape_of};
ghost use Rattle.policy_book.specs.Laws.Plans.{IsValidPlan, IsWithin};
ghost use Rattle.policy_book.specs.Course.{problem_in};
ghost use Rattle.policy_book.specs.Policies.{problem_of};
ghost use Rattle.policy_book.specs.Laws.Refuting.{refutes};
ghost use Rattle.case_record.specs.Cases.{assigned_of, finished_of};
ghost use Rattle.admin_edits.specs.ClaimCauses.{assigned_with};
ghost use Rattle.wf_board.specs.Boards.{book_of};
ghost use Rattle.wf_board.specs.Laws.Found.{AreFound, IsFound};
ghost use Rattle.wf_board.specs.Laws.Kept.{ArePlanned};
ghost use Rattle.wf_board.specs.Taking.{IsCertificateOf};
ghost use Rattle.wf_board.specs.Verdicts.{IsCertificate, IsCertified};

use crate::decision::{assigned_with, is_undecided};
use crate::resolve::resolve;
use crate::{Deed, Duty, Verdict};
use certificate_check::{check_tree, is_valid_plan};
use constraint_forms::{Assign, StepSet};
use grant_table::Cases;
use policy_book::{Course, Policy};
use wf_talk::Ask;

/// Whether a verdict is a plan or a tree that decides what is asked.
pub(crate) fn accepts(p: &Policy, cases: &Cases, ask: &Ask, verdict: &Verdict) -> bool
    requires { ArePlanned p.now cases.now.rows }
    ensures { result ≡ true ↔ IsCertified (book_of p.now cases.now) ask.now verdict.now }
{
    let Ok(deed) = resolve(p, cases, ask) else {
        return false;
    };
    is_undecided(p, cases, &deed) && decides(p, cases, &deed, verdict)
}

/// Whether a verdict is a plan or a tree that decides a deed.
pub fn decides(p: &Policy, cases: &Cases, deed: &Deed, verdict: &Verdict) -> bool
    requires planned { ArePlanned p.now cases.now.rows }
    requires found { IsFound p.now cases.now.rows deed.now }
    ensures { result ≡ true ↔ IsCertificate (book_of p.now cases.now) (Ok deed.now) verdict.now }
{
    match deed {
        Deed::Open { flow } => {
            let course = Course {
                policy: p,
                number: *flow,
            };
            is_certificate(&course, &Assign::empty(), &StepSet::empty(), verdict)
        }
        Deed::Claim(duty) => decides_claim(p, cases, duty, verdict),
        _ => false,
    }
}

/// Whether a verdict is a plan or a tree that decides a claim.
fn decides_claim(p: &Policy, cases: &Cases, duty: &Duty, verdict: &Verdict) -> bool
    requires planned { ArePlanned p.now cases.now.rows }
    requires found { AreFound p.now cases.now.rows duty.now }
    ensures { result ≡ true ↔ IsCertificateOf (problem_of p.now duty.now.case.flow)
        (assigned_with duty.now.case duty.now.step duty.now.user)
        (finished_of duty.now.case) verdict.now }
{
    let _ = cases;
    let case = &duty.case;
    let course = Course {
        policy: p,
        number: case.flow(),
    };
    is_certificate(
        &course,
        &assigned_with(case, duty.step, duty.user),
        &case.finished(),
        verdict,
    )
}

/// Whether a verdict is a valid plan, or a tree that refutes.
fn is_certificate(course: &Course, a: &Assign, done: &StepSet, verdict: &Verdict) -> bool
    requires { IsWithin (problem_in course.now) a.now }
    ensures { result ≡ true ↔ IsCertificateOf (problem_in course.now) a.now done.now verdict.now }
{
    let (p, f) = (course.policy, course.number);
    match verdict {
        Verdict::Plan(plan) => is_valid_plan(p, f, a, done, plan),
        Verdict::Refuted(tree) => check_tree(p, f, a, done, tree.get()),
        _ => false,
    }
}
