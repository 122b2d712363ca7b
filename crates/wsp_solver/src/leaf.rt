//! Leaves that refute.
ghost use Rattle.std.specs.Prelude.{◌≡◌, ◌<◌, ◌≤◌, ◌&&◌, ℕ, List, length, slice_get, Some, false};
ghost use Rattle.std.specs.Prelude.{IfSome, IsTrue, MatchOption};
ghost use Rattle.wf_names.specs.declared.limits.TheConstants.{STEP_LIMIT};
ghost use Rattle.constraint_forms.specs.declared.rule.Rule.{Rule as AnyRule};
ghost use Rattle.refutation_tree.specs.Tree.{holder, rule};
ghost use Rattle.refutation_tree.specs.Laws.Views.{shape_of};
ghost use Rattle.policy_book.specs.Laws.Plans.{IsWellFormed, IsWithin};
ghost use Rattle.policy_book.specs.Course.{problem_in};
ghost use Rattle.policy_book.specs.Laws.Refuting.{is_broken, is_rule_naming, refutes};
ghost use Rattle.policy_book.specs.Laws.Lean.{is_lean};
ghost use Rattle.wsp_solver.specs.Crews.{IsCrewOf};
ghost use Rattle.wsp_solver.specs.Searches.{AreMentioned, NamesSteps, IsRefutation, NoLeafRefutes};
ghost use Rattle.wsp_solver.specs.Searches.{NoLeafRefutesWithout};

use crate::crew::Crew;
use crate::steps::{steps_named, with_if};
use certificate_check::check_tree;
use constraint_forms::falsified;
use policy_book::{Assign, Course, StepSet};
use refutation_tree::Tree;
use wf_names::{STEP_LIMIT, StepId};

/// A tree that refutes, and the steps that it mentions, and maybe more.
#[derive(Drop)]
pub(crate) struct Refutation {
    pub(crate) tree: Tree,
    pub(crate) steps: StepSet,
}

/// A leaf that refutes an assignment, if there is one.
pub(crate) fn refuting_leaf(course: &Course, a: &Assign, done: &StepSet) -> Option<Refutation>
    requires within { IsWithin (problem_in course.now) a.now }
    ensures leaf { MatchOption result (IsWellFormed (problem_in course.now)
        × NoLeafRefutes (problem_in course.now) a.now done.now)
        (IsRefutation (problem_in course.now) a.now done.now) }
    ensures lean { IfSome result (λ r. IsTrue
        (is_lean (problem_in course.now) a.now (shape_of r.tree))) }
{
    if let Some(s) = first_misheld(course, a, done) {
        return Some(held_wrongly(s));
    }
    match first_falsified(course, a) {
        Some(k) => Some(falsified_rule(course, k)),
        None => None,
    }
}

/// The leaf of a step with a wrong holder.
pub(crate) fn held_wrongly(s: StepId) -> Refutation
    requires { s < STEP_LIMIT }
    ensures tree { shape_of result.tree ≡ holder s }
    ensures steps { (rules : List AnyRule) → AreMentioned rules (holder s) result.steps }
{
    Refutation {
        tree: Tree::Holder(s),
        steps: with_if(&StepSet::empty(), s, true),
    }
}

/// The leaf of a rule, by what a crew knows of it.
pub(crate) fn leaf_of_rule(course: &Course, crew: &Crew, k: u8) -> Refutation
    requires crew { IsCrewOf (problem_in course.now) crew.now }
    ensures tree { shape_of result.tree ≡ rule k }
    ensures steps { AreMentioned (problem_in course.now).rules (rule k) result.steps }
{
    Refutation {
        tree: Tree::Rule(k),
        steps: named_by(course, &crew.named, k),
    }
}

// The steps that a rule names, by a table.
fn named_by(course: &Course, named: &[StepSet], k: u8) -> StepSet
    requires named { NamesSteps (problem_in course.now) named.now }
    ensures { AreMentioned (problem_in course.now).rules (rule k) result }
{
    match named.get(k as usize) {
        Some(steps) => *steps,
        None => steps_of_rule(course, k),
    }
}

/// The leaf of a rule.
pub(crate) fn falsified_rule(course: &Course, k: u8) -> Refutation
    ensures tree { shape_of result.tree ≡ rule k }
    ensures steps { AreMentioned (problem_in course.now).rules (rule k) result.steps }
{
    Refutation {
        tree: Tree::Rule(k),
        steps: steps_of_rule(course, k),
    }
}

/// The steps that a rule names; none where there is no such rule.
pub(crate) fn steps_of_rule(course: &Course, k: u8) -> StepSet
    ensures { AreMentioned (problem_in course.now).rules (rule k) result }
{
    prove!(course.flow().steps().len() as usize <= STEP_LIMIT);
    match course.rules().as_slice().get(k as usize) {
        Some(rule) => steps_named(rule),
        None => StepSet::empty(),
    }
}

/// A step that is held by a user who is not authorised for it.
fn first_misheld(course: &Course, a: &Assign, done: &StepSet) -> Option<StepId>
    requires within { IsWithin (problem_in course.now) a.now }
    ensures { MatchOption result ((s : ℕ)
        → refutes (problem_in course.now) a.now done.now (holder s) ≡ false)
        (λ s. (s < STEP_LIMIT)
        × IsTrue (refutes (problem_in course.now) a.now done.now (holder s))) }
{
    'steps: for s in 0..course.flow().steps().len() {
        let step = StepId(s as u8);
        if check_tree(course.policy, course.number, a, done, &Tree::Holder(step)) {
            return Some(step);
        }
    }
    None
}

/// A rule that is falsified.
fn first_falsified(course: &Course, a: &Assign) -> Option<u8>
    ensures formed { IsWellFormed (problem_in course.now) }
    ensures falsified { MatchOption result
        ((k : ℕ) → is_broken (problem_in course.now) a.now
        (slice_get (problem_in course.now).rules k) ≡ false)
        (λ k. IsTrue (is_broken (problem_in course.now) a.now
        (slice_get (problem_in course.now).rules k))) }
{
    'rules: for k in 0..course.rules().len() {
        if course.breaks(a, k as u8) {
            return Some(k as u8);
        }
    }
    None
}

/// The leaf of a rule that is falsified, if there is one, where only rules that name a step can be.
/// One is looked at first.
pub(crate) fn broken_rule(
    course: &Course,
    a: &Assign,
    done: &StepSet,
    s: StepId,
    first: u8,
    crew: &Crew,
) -> Option<Refutation>
    requires crew { IsCrewOf (problem_in course.now) crew.now }
    requires others { NoLeafRefutesWithout (problem_in course.now) a.now done.now s }
    ensures { MatchOption result (NoLeafRefutes (problem_in course.now) a.now done.now)
        (IsRefutation (problem_in course.now) a.now done.now) }
{
    match falsified_with(course, a, done, s, first) {
        Some(k) => Some(leaf_of_rule(course, crew, k)),
        None => None,
    }
}

// A rule that is falsified, where only rules that name a step can be. One is looked at first.
fn falsified_with(course: &Course, a: &Assign, done: &StepSet, s: StepId, first: u8) -> Option<u8>
    requires { NoLeafRefutesWithout (problem_in course.now) a.now done.now s }
    ensures { MatchOption result (NoLeafRefutes (problem_in course.now) a.now done.now)
        (λ k. IsTrue (refutes (problem_in course.now) a.now done.now (rule k))) }
{
    let _ = done;
    if course.breaks(a, first) {
        return Some(first);
    }
    'rules: for k in 0..course.rules().len() {
        if is_falsified_with(course, a, k as u8, s) {
            return Some(k as u8);
        }
    }
    None
}

// Whether a rule names a step and is falsified.
fn is_falsified_with(course: &Course, a: &Assign, k: u8, s: StepId) -> bool
    ensures { result ≡ (is_rule_naming s (slice_get (problem_in course.now).rules k)
        && is_broken (problem_in course.now) a.now (slice_get (problem_in course.now).rules k)) }
{
    match course.rules().as_slice().get(k as usize) {
        Some(rule) => rule.names(s) && falsified(rule, course.policy, a),
        None => false,
    }
}
