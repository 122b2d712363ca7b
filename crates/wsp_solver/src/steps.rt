//! Steps and sets of steps.
ghost use Rattle.std.specs.Prelude.{◌≡◌, ◌<◌, ◌≤◌, length, ◌||◌, ◌&&◌, ◌==◌, ℕ, nat_lt, true};
ghost use Rattle.std.specs.Prelude.{slice_set, if◌then◌else◌};
ghost use Rattle.constraint_forms.specs.Assign.{is_member};
ghost use Rattle.constraint_forms.specs.Rules.{names};
ghost use Rattle.policy_book.specs.Course.{problem_in};
ghost use Rattle.wf_names.specs.declared.limits.TheConstants.{STEP_LIMIT};

use constraint_forms::{Rule, StepSet};
use policy_book::Course;
use wf_names::{STEP_LIMIT, StepId};

/// The steps of either set.
pub(crate) fn united(a: &StepSet, b: &StepSet) -> StepSet
    ensures { (t : ℕ) → is_member result t ≡ (is_member a.now t || is_member b.now t) }
{
    a.union(b)
}

/// The same, where the first set has all steps of a third one. Many rules of one node name the same
/// steps, one after the other.
pub(crate) fn joined(a: &StepSet, b: &StepSet, known: &StepSet) -> StepSet
    requires known { (t : ℕ) → is_member known.now t ≡ true → is_member a.now t ≡ true }
    ensures { (t : ℕ) → is_member result t ≡ (is_member a.now t || is_member b.now t) }
{
    prove!(b.limit() == known.limit());
    if *b == *known {
        return *a;
    }
    united(a, b)
}

/// The steps that a rule names.
pub(crate) fn steps_named(rule: &Rule) -> StepSet
    ensures { (t : ℕ) → is_member result t ≡ (nat_lt t STEP_LIMIT && names rule.now t) }
{
    let mut named = StepSet::empty();
    'steps: for s in 0..STEP_LIMIT {
        let step = StepId(s as u8);
        named = with_if(&named, step, rule.names(step));
    }
    named
}

/// A set, with one more step where that is wanted.
pub(crate) fn with_if(set: &StepSet, s: StepId, wanted: bool) -> StepSet
    requires { s < STEP_LIMIT }
    ensures value { result ≡ (if wanted then slice_set set.now s true else set.now) }
    ensures members { (t : ℕ) → is_member result t ≡ (is_member set.now t || (wanted && t == s)) }
{
    if wanted { set.with(s) } else { *set }
}

/// How many steps a workflow has.
pub(crate) fn step_count(course: &Course) -> usize
    ensures count { result ≡ (problem_in course.now).steps }
    ensures few { result ≤ STEP_LIMIT }
{
    course.flow().steps().len() as usize
}
