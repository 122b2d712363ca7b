//! Steps that want different users, of whom there are too few.
ghost use Rattle.std.specs.Prelude.{◌≡◌, ℕ, ◌<◌, ◌&&◌, ◌||◌, length, Some, true, nat_lt};
ghost use Rattle.constraint_forms.specs.Assign.{user_at};
ghost use Rattle.constraint_forms.specs.Rules.{any_read};
ghost use Rattle.policy_book.specs.Course.{problem_in};
ghost use Rattle.rule_core.specs.Crowds.{AreSteps, all_parted, are_parted, is_open_to};
ghost use Rattle.rule_core.specs.Crowds.{is_parted_from};
ghost use Rattle.rule_core.specs.Crowds.{is_parting, is_strict, may_take_one, relates, those_below};

use basics::List;
use constraint_forms::Rule;
use policy_book::{Assign, Course};
use wf_names::{RelId, StepId, UserId};

/// Steps of a workflow.
pub type StepList = List<StepId>;

/// Whether some steps want different users, each two of them, and fewer users have or may get them.
/// Takes no memory.
pub(crate) fn is_crowd(course: &Course, a: &Assign, steps: &StepList) -> bool
    requires known { AreSteps (problem_in course.now) steps.now }
    ensures { result ≡ (all_parted (problem_in course.now) steps.now && nat_lt
        (length (those_below (problem_in course.now).users
        (may_take_one (problem_in course.now) a.now steps.now)))
        (length steps.now)) }
{
    all_parted(course, steps) && takers(course, a, steps) < steps.len()
}

// Whether each two of the steps want different users.
fn all_parted(course: &Course, steps: &StepList) -> bool
    ensures { result ≡ all_parted (problem_in course.now) steps.now }
{
    let items = steps.as_slice();
    'steps: for i in 0..items.len() {
        if !is_parted_from(course, items[i], &items[i + 1..]) {
            return false;
        }
    }
    true
}

fn is_parted_from(course: &Course, s: StepId, others: &[StepId]) -> bool
    ensures { result ≡ is_parted_from (problem_in course.now) s others.now }
{
    'others: for t in others {
        if !are_parted(course, s, *t) {
            return false;
        }
    }
    true
}

/// Whether some rule wants different users for two steps: it relates them by a relation that nobody
/// has to themselves.
pub fn are_parted(course: &Course, s: StepId, t: StepId) -> bool
    ensures { result ≡ are_parted (problem_in course.now) s t }
{
    'rules: for k in 0..course.rules().len() {
        if is_parting(course, course.rules().get(k), s, t) {
            return true;
        }
    }
    false
}

fn is_parting(course: &Course, rule: &Rule, s: StepId, t: StepId) -> bool
    ensures { result ≡ is_parting (problem_in course.now) s t (Some rule.now) }
{
    relates_either(rule, s, t) && reads_strict(course, rule)
}

// Whether a rule reads a relation that nobody has to themselves.
fn reads_strict(course: &Course, rule: &Rule) -> bool
    ensures { result ≡ any_read rule.now (is_strict (problem_in course.now)) }
{
    match rule.relation() {
        Some(rho) => is_strict(course, rho),
        None => false,
    }
}

// Whether a rule wants the users of two steps related, whichever of them comes first.
fn relates_either(rule: &Rule, s: StepId, t: StepId) -> bool
    ensures { result ≡ (relates rule.now s t || relates rule.now t s) }
{
    relates(rule, s, t) || relates(rule, t, s)
}

fn relates(rule: &Rule, s: StepId, t: StepId) -> bool
    ensures { result ≡ relates rule.now s t }
{
    match *rule {
        Rule::Pair { first, second, .. } => s == first && t == second,
        Rule::SomeOf { .. } => false,
        Rule::AllOf { group, step, .. } => group.has(s) && t == step,
        Rule::SomeTo { .. } => false,
        Rule::AllTo { group, step, .. } => group.has(s) && t == step,
        Rule::AtMost { .. } => false,
        Rule::AtLeast { .. } => false,
    }
}

/// Whether nobody has a relation to themselves.
pub fn is_strict(course: &Course, rho: RelId) -> bool
    ensures { result ≡ is_strict (problem_in course.now) rho }
{
    'users: for u in 0..course.policy.roster().users().len() {
        if course.policy.relations().holds(rho, UserId(u), UserId(u)) {
            return false;
        }
    }
    true
}

// How many users have or may get one of the steps.
fn takers(course: &Course, a: &Assign, steps: &StepList) -> usize
    requires known { AreSteps (problem_in course.now) steps.now }
    ensures { result ≡ length (those_below (problem_in course.now).users
        (may_take_one (problem_in course.now) a.now steps.now)) }
{
    let mut count = 0;
    'users: for u in 0..course.policy.roster().users().len() {
        if may_take_one(course, a, steps.as_slice(), UserId(u)) {
            count += 1;
        }
    }
    count
}

fn may_take_one(course: &Course, a: &Assign, steps: &[StepId], u: UserId) -> bool
    requires known { AreSteps (problem_in course.now) steps.now }
    requires user { u < (problem_in course.now).users }
    ensures { result ≡ may_take_one (problem_in course.now) a.now steps.now u }
{
    'steps: for s in steps {
        if is_open_to(course, a, *s, u) {
            return true;
        }
    }
    false
}

fn is_open_to(course: &Course, a: &Assign, s: StepId, u: UserId) -> bool
    requires step { s < (problem_in course.now).steps }
    requires user { u < (problem_in course.now).users }
    ensures { result ≡ is_open_to (problem_in course.now) s u (user_at a.now s) }
{
    match a.at(s) {
        Some(v) => v == u,
        None => course.authorised(s, u),
    }
}
