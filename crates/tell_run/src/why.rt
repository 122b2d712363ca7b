//! The command `why`: a plan of a workflow, or why there is none.
ghost use Rattle.std.specs.Prelude.{IfOk};
ghost use Rattle.wf_commands.specs.Answer.{ending_with};
ghost use Rattle.tell_run.specs.Why.{AnswersWhy, TellsWhy};

use plain_words::{clash_text, crowd_text, plan_text};
use policy_book::{Course, Policy};
use rule_core::{Why, why_at_start};
use run_record::RunFault;
use std::alloc::{AllocError, Global};
use wf_commands::{Answer, Tells, find_flow};

/// `why`: can this workflow be done, and why?
#[derive(Clone, Copy)]
pub(crate) struct WhyCommand<'a> {
    pub flow: &'a str,
}

impl Tells for WhyCommand<'_> {
    ghost tells = { λ command p. TellsWhy p command.flow.now };

    fn tell(&self, alloc: Global, p: &Policy) -> Result<Answer, RunFault> {
        let course = Course {
            policy: p,
            number: find_flow(p, self.flow)?,
        };
        Ok(tell_why(alloc, &course)?)
    }
}

// Whether a workflow can be done, and why, in words.
fn tell_why(alloc: Global, course: &Course) -> Result<Answer, AllocError>
    ensures { IfOk result (λ answer. AnswersWhy course.now.policy.now course.now.number
        (ending_with answer.found)) }
{
    match why_at_start(alloc, course)? {
        Why::Plan(plan) => Ok(Answer {
            found: false,
            text: plan_text(alloc, course, &plan)?.into_bytes(),
        }),
        Why::Crowd(steps) => Ok(Answer {
            found: true,
            text: crowd_text(alloc, course, steps.as_slice())?.into_bytes(),
        }),
        Why::Clash(rules) => Ok(Answer {
            found: true,
            text: clash_text(alloc, course, rules.as_slice())?.into_bytes(),
        }),
    }
}
