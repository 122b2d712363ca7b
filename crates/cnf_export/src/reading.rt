//! A model read as a plan, or as the first clause that it does not satisfy.
ghost use Rattle.std.specs.Prelude.{◌≡◌, ◌≤◌, ◌<◌, ◌+◌, ◌*◌, length, map, OnOk, IfOk, IsErrOf};
ghost use Rattle.policy_book.specs.Course.{problem_in};
ghost use Rattle.policy_book.specs.Policies.{problem_of};
ghost use Rattle.policy_book.specs.Laws.Plans.{IsWithin};
ghost use Rattle.cnf_export.specs.Laws.Encodings.{clauses_of, literals, numbers};
ghost use Rattle.cnf_export.specs.Models.{last_below};
ghost use Rattle.cnf_export.specs.Fault.{too_large};
ghost use Rattle.cnf_export.specs.declared.tally.TheConstants.{LITERAL_LIMIT};
ghost use Rattle.cnf_export.specs.Saying.{has_variable};
ghost use Rattle.cnf_export.specs.Readings.{first_false, IsReading};

use crate::laws::models_are_plans;
use crate::seen::{last_seen, satisfied};
use crate::sizes::{step_count, user_count};
use crate::{CnfFault, Encoder, Literals, Model};
use basics::List;
use constraint_forms::{Assign, StepSet};
use policy_book::{Course, Plan, Policy};
use std::alloc::{AllocError, Global};
use wf_names::{FlowId, UserId};

/// What a model says.
#[derive(Clone, Copy, PartialEq, Eq)]
pub enum Reading {
    /// A valid plan: the model satisfies all clauses.
    Plan(Plan),
    /// The first clause that it does not satisfy, numbered from 0.
    Clause(u32),
}

/// What a model says of a case: of a workflow, the steps that are assigned, and those of them that
/// are finished.
pub fn plan_of(
    alloc: Global,
    p: &Policy,
    f: FlowId,
    a: &Assign,
    done: &StepSet,
    m: &Model,
) -> Result<Reading, CnfFault>
    requires flow { f < length p.now.flows }
    requires within { IsWithin (problem_of p.now f) a.now }
    ensures reading { IfOk result
        (IsReading (problem_of p.now f) a.now done.now (has_variable m.now)) }
    ensures few { OnOk result (literals
        (clauses_of (problem_of p.now f) a.now done.now) ≤ LITERAL_LIMIT) }
    ensures large { IsErrOf result too_large
        → LITERAL_LIMIT < literals (clauses_of (problem_of p.now f) a.now done.now) }
{
    models_are_plans();
    let course = Course {
        policy: p,
        number: f,
    };
    let _ruled = course.rules();
    let encoder = Encoder::new(alloc, p, f, a, done)?;
    match first_unsatisfied(alloc, encoder, m)? {
        Some(i) => Ok(Reading::Clause(i)),
        None => Ok(Reading::Plan(plan_said(alloc, &course, m)?)),
    }
}

// The first clause that a model does not satisfy, if there is one, by an encoder that is before the
// first one.
fn first_unsatisfied(alloc: Global, encoder: Encoder, m: &Model) -> Result<Option<u32>, AllocError>
    requires { encoder.left ≡ encoder.all }
    ensures { IfOk result (λ found. found ≡ first_false 0 (has_variable m.now) encoder.all) }
{
    let mut encoder = encoder;
    unsatisfied_in(&mut encoder, &mut Literals::new(alloc), m)
}

// The same, with each clause made in `one`.
fn unsatisfied_in(
    encoder: &mut Encoder,
    one: &mut Literals,
    m: &Model,
) -> Result<Option<u32>, AllocError>
    requires { encoder.old.left ≡ encoder.old.all }
    ensures { IfOk result (λ found. found ≡ first_false 0 (has_variable m.now) encoder.old.all) }
{
    let count = encoder.clauses();
    prove!(count <= u32::MAX);
    let mut k = 0u32;
    'clauses: loop {
        if !encoder.next(one)? {
            return Ok(None);
        }
        if !satisfied(m, one) {
            return Ok(Some(k));
        }
        k += 1;
    }
}

// The plan that a model says.
fn plan_said(alloc: Global, course: &Course, m: &Model) -> Result<Plan, AllocError>
    ensures { IfOk result (λ plan. plan ≡ map (λ s. last_below (problem_in course.now).users
        (λ u. has_variable m.now (s * (problem_in course.now).users + u)))
        (numbers 0 (problem_in course.now).steps)) }
{
    let steps = step_count(course);
    let users = user_count(course);
    let mut chosen = List::new(alloc);
    'steps: for s in 0..steps {
        chosen.push(UserId(last_seen(m, s as usize * users as usize, users)))?;
    }
    Ok(Plan::of(chosen.as_slice()))
}
