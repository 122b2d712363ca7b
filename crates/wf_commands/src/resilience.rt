//! The command `resilience`: whether a workflow can be done whichever of its users are absent.
ghost use Rattle.std.specs.Prelude.{◌≡◌, ◌↔◌, ℕ, true, IfOk};
ghost use Rattle.resilience_check.specs.Covering.{AnswersAbsence, holds};
ghost use Rattle.resilience_check.specs.Left.{IsResilient};
ghost use Rattle.wf_commands.specs.Answer.{ending_with};
ghost use Rattle.wf_commands.specs.Resilience.{ChecksAbsences, ChecksFlow};

use crate::answer::{Answer, Tells};
use crate::given::find_flow;
use policy_book::{Course, Policy};
use resilience_check::{AbsenceAnswer, resilience};
use run_record::RunFault;
use std::alloc::{AllocError, Global};
use wire_json::{write_absence, write_family};

/// `resilience`: can a workflow be done whichever users are absent, `absences` at most?
#[derive(Clone, Copy)]
pub struct ResilienceCommand<'a> {
    pub flow: &'a str,
    pub absences: u8,
}

impl Tells for ResilienceCommand<'_> {
    ghost tells = { λ command p. ChecksFlow p command.flow.now command.absences };

    fn tell(&self, alloc: Global, p: &Policy) -> Result<Answer, RunFault> {
        let course = Course {
            policy: p,
            number: find_flow(p, self.flow)?,
        };
        Ok(check_absences(alloc, &course, self.absences)?)
    }
}

// Whether a workflow can be done whichever at most `t` users are absent.
fn check_absences(alloc: Global, course: &Course, t: u8) -> Result<Answer, AllocError>
    ensures { IfOk result (λ answer. ChecksAbsences course.now.policy.now course.now.number t
        (ending_with answer.found) answer.text.items) }
{
    match resilience(alloc, course.policy, course.number, t) {
        Ok(found) => tell_absences(alloc, course, &found),
        Err(fault) => Err(fault),
    }
}

// The text of what was found.
fn tell_absences(
    alloc: Global,
    course: &Course,
    found: &AbsenceAnswer,
) -> Result<Answer, AllocError>
    ensures { (t : ℕ) → AnswersAbsence course.now.policy.now course.now.number t found.now →
        ((holds found.now ≡ true) ↔ IsResilient course.now.policy.now course.now.number t) →
        IfOk result (λ answer. ChecksAbsences course.now.policy.now course.now.number t
        (ending_with answer.found) answer.text.items) }
{
    let p = course.policy;
    match found {
        AbsenceAnswer::Holds(plans) => Ok(Answer {
            found: false,
            text: write_family(alloc, p, plans.as_slice())?,
        }),
        AbsenceAnswer::Breaks { absent, tree } => Ok(Answer {
            found: true,
            text: write_absence(alloc, p, course.number, absent.as_slice(), tree)?,
        }),
    }
}
