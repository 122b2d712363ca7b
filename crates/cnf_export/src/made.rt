//! The model that says a plan.
ghost use Rattle.std.specs.Prelude.{◌≡◌, ◌<◌, length, IfOk};
ghost use Rattle.policy_book.specs.Policies.{problem_of};
ghost use Rattle.cnf_export.specs.Saying.{has_variable, plan_flags};
ghost use Rattle.cnf_export.specs.Readings.{ReadsBack, SatisfiesWherever};

use crate::Model;
use crate::laws::plans_are_models;
use crate::saying::Planned;
use crate::sizes::{step_count, user_count};
use policy_book::{Course, Plan, Policy};
use std::alloc::{AllocError, Global};
use wf_names::FlowId;

/// The model that says a plan of a workflow: wherever the plan is valid, it satisfies all clauses,
/// and is read back as the plan.
pub fn model_of(alloc: Global, p: &Policy, f: FlowId, plan: &Plan) -> Result<Model, AllocError>
    requires { f < length p.now.flows }
    ensures flags { IfOk result (λ m. m ≡ plan_flags (problem_of p.now f) plan.now) }
    ensures satisfies { IfOk result
        (λ m. SatisfiesWherever (problem_of p.now f) plan.now (has_variable m)) }
    ensures back { IfOk result (λ m. ReadsBack (problem_of p.now f) plan.now (has_variable m)) }
{
    plans_are_models();
    let course = Course {
        policy: p,
        number: f,
    };
    let steps = step_count(&course);
    let users = user_count(&course);
    let planned = Planned { plan, users };
    let mut said = Model::new(alloc);
    planned.say_users(steps, &mut said)?;
    planned.say_until(steps, &mut said)?;
    planned.say_rules(course.rules(), &mut said)?;
    Ok(said)
}
