//! Whether a tree refutes an assignment, and which steps a tree speaks of.
ghost use Rattle.std.specs.Prelude.{◌≡◌, ◌<◌, ◌&&◌, nat_lt, ℕ, length, slice_get, IsTrue, [], drop};
ghost use Rattle.wf_names.specs.declared.limits.TheConstants.{STEP_LIMIT};
ghost use Rattle.constraint_forms.specs.Assign.{user_at};
ghost use Rattle.refutation_tree.specs.Tree.{no_kids, Kids};
ghost use Rattle.refutation_tree.specs.Laws.Views.{branch_onto, kids_of_items, shape_of};
ghost use Rattle.policy_book.specs.Laws.Plans.{IsWithin};
ghost use Rattle.policy_book.specs.Course.{problem_in};
ghost use Rattle.policy_book.specs.Policies.{problem_of};
ghost use Rattle.certificate_check.specs.Walks.{AreUsersBelow, begins_with, tree_users};
ghost use Rattle.certificate_check.specs.Walks.{kid_user_onto};
ghost use Rattle.policy_book.specs.Laws.Twins.{are_twins, is_one_of};
ghost use Rattle.policy_book.specs.Laws.Refuting.{all_refute, any_mentions, authorised_users};
ghost use Rattle.policy_book.specs.Laws.Refuting.{have_users, is_unassigned, is_misheld};
ghost use Rattle.policy_book.specs.Laws.Refuting.{is_rule_naming, mentions, refutes};

use crate::alike::twins;
use policy_book::{Assign, Course, Policy, Rules, StepSet};
use refutation_tree::{Branch, Kid, Tree};
use wf_names::{FlowId, StepId, UserId};

/// Whether a tree refutes an assignment with these finished steps, which then no valid plan keeps.
/// The tree may hold any numbers. Takes no memory.
pub fn check_tree(p: &Policy, f: FlowId, a: &Assign, done: &StepSet, tree: &Tree) -> bool
    requires flow { f < length p.now.flows }
    requires within { IsWithin (problem_of p.now f) a.now }
    ensures { result ≡ refutes (problem_of p.now f) a.now done.now (shape_of tree.now) }
{
    let course = Course {
        policy: p,
        number: f,
    };
    refutes(&course, a, done, tree)
}

/// Whether a tree refutes an assignment with these finished steps.
#[cycle(check)]
fn refutes(course: &Course, a: &Assign, done: &StepSet, tree: &Tree) -> bool
    requires { IsWithin (problem_in course.now) a.now }
    ensures { result ≡ refutes (problem_in course.now) a.now done.now (shape_of tree.now) }
{
    match tree {
        Tree::Holder(s) => is_misheld(course, a, done, *s),
        Tree::Rule(k) => course.breaks(a, *k),
        Tree::Step(s, branches) => {
            let branches = branches.as_slice();
            if !is_unassigned(course, a, *s) {
                return false;
            }
            if !have_users(course, *s, branches) {
                return false;
            }
            all_refute(course, a, done, *s, branches)
        }
    }
}

/// Whether each of a step's branches refutes.
#[cycle(check)]
fn all_refute(course: &Course, a: &Assign, done: &StepSet, s: StepId, branches: &[Branch]) -> bool
    requires within { IsWithin (problem_in course.now) a.now }
    requires room { s < STEP_LIMIT }
    requires free { IsTrue (is_unassigned (problem_in course.now) a.now s) }
    requires users { IsTrue (have_users (authorised_users (problem_in course.now) s)
        (kids_of_items branches.now)) }
    ensures { result ≡ all_refute (problem_in course.now) a.now done.now s []
        (kids_of_items branches.now) }
{
    'branches: for i in 0..branches.len() {
        if !branch_refutes(course, a, done, s, &branches[..i], &branches[i]) {
            return false;
        }
    }
    true
}

/// Whether a branch refutes: by its tree, once its step is given to its user, or as that of a twin
/// of a user whose branch stands earlier and has a tree.
#[cycle(check)]
fn branch_refutes(
    course: &Course,
    a: &Assign,
    done: &StepSet,
    s: StepId,
    earlier: &[Branch],
    branch: &Branch,
) -> bool
    requires within { IsWithin (problem_in course.now) a.now }
    requires room { s < STEP_LIMIT }
    requires free { IsTrue (is_unassigned (problem_in course.now) a.now s) }
    requires users { AreUsersBelow (problem_in course.now).users (kids_of_items earlier.now) }
    requires user { branch.now.user < (problem_in course.now).users }
    ensures { result ≡ all_refute (problem_in course.now) a.now done.now s
        (tree_users [] earlier.now) (branch_onto branch.now no_kids) }
{
    match &branch.kid {
        Kid::Tree(tree) => refutes(course, &a.with(s, branch.user), done, tree),
        Kid::Twin(twin) => is_twin_of_one(course, a, earlier, branch.user, *twin),
    }
}

// Whether `u` is a twin of a user among the branches whose branch has a tree.
fn is_twin_of_one(course: &Course, a: &Assign, branches: &[Branch], u: UserId, twin: UserId) -> bool
    requires users { AreUsersBelow (problem_in course.now).users (kids_of_items branches.now) }
    requires user { u < (problem_in course.now).users }
    ensures { result ≡ (is_one_of (tree_users [] branches.now) twin && are_twins
        (problem_in course.now) a.now u twin) }
{
    has_tree(branches, twin) && twins(course.policy, course.number, a, u, twin)
}

// Whether one of the branches is of a user and has a tree.
fn has_tree(branches: &[Branch], u: UserId) -> bool
    ensures { result ≡ is_one_of (tree_users [] branches.now) u }
{
    'branches: for branch in branches {
        if is_tree_of(branch, u) {
            return true;
        }
    }
    false
}

fn is_tree_of(branch: &Branch, u: UserId) -> bool
    ensures { result ≡ is_one_of (kid_user_onto branch.now.kid branch.now.user []) u }
{
    match &branch.kid {
        Kid::Tree(_) => branch.user == u,
        Kid::Twin(_) => false,
    }
}

fn is_misheld(course: &Course, a: &Assign, done: &StepSet, s: StepId) -> bool
    requires within { IsWithin (problem_in course.now) a.now }
    ensures { result ≡ (nat_lt s (problem_in course.now).steps && is_misheld (problem_in course.now)
        done.now s (user_at a.now s)) }
{
    match a.at(s) {
        Some(u) => !done.has(s) && !course.authorised(s, u),
        None => false,
    }
}

fn is_unassigned(course: &Course, a: &Assign, s: StepId) -> bool
    ensures within { IsTrue result → s < STEP_LIMIT }
    ensures free { result ≡ is_unassigned (problem_in course.now) a.now s }
{
    (s.0 as u16) < course.flow().steps().len() && a.at(s).is_none()
}

/// Whether branches are of exactly the users who are authorised for a step, ascending.
fn have_users(course: &Course, s: StepId, branches: &[Branch]) -> bool
    requires step { s < (problem_in course.now).steps }
    ensures { result ≡ have_users (authorised_users (problem_in course.now) s)
        (kids_of_items branches.now) }
{
    let row = course.policy.authorised_row(course.number, s);
    let mut from = 0;
    let mut next = 0;
    'users: while let Some(user) = row.next(from) {
        if !is_of(branches, next, user) {
            return false;
        }
        from = user.0 as u32 + 1;
        next += 1;
    }
    next == branches.len()
}

/// Whether there is a branch at a place, and it is of a user.
fn is_of(branches: &[Branch], place: usize, u: UserId) -> bool
    ensures user { result ≡ begins_with u (kids_of_items (drop place branches.now)) }
    ensures within { IsTrue result → place < length branches.now }
{
    match branches.get(place) {
        Some(branch) => u == branch.user,
        None => false,
    }
}

/// Whether some leaf of a tree is the holder of a step or a rule that names the step.
#[cycle(mentions)]
pub fn mentions(tree: &Tree, rules: &Rules, s: StepId) -> bool
    ensures { result ≡ mentions rules.now s (shape_of tree.now) }
{
    match tree {
        Tree::Holder(t) => s == *t,
        Tree::Rule(k) => names_step(rules, *k, s),
        Tree::Step(_, branches) => {
            let branches = branches.as_slice();
            any_mentions(branches, rules, s)
        }
    }
}

#[cycle(mentions)]
fn any_mentions(branches: &[Branch], rules: &Rules, s: StepId) -> bool
    ensures { result ≡ any_mentions rules.now s (kids_of_items branches.now) }
{
    'branches: for branch in branches {
        if branch_mentions(branch, rules, s) {
            return true;
        }
    }
    false
}

#[cycle(mentions)]
fn branch_mentions(branch: &Branch, rules: &Rules, s: StepId) -> bool
    ensures { result ≡ any_mentions rules.now s (branch_onto branch.now no_kids) }
{
    match &branch.kid {
        Kid::Tree(tree) => mentions(tree, rules, s),
        Kid::Twin(_) => false,
    }
}

fn names_step(rules: &Rules, k: u8, s: StepId) -> bool
    ensures { result ≡ is_rule_naming s (slice_get rules.now k) }
{
    match rules.as_slice().get(k as usize) {
        Some(rule) => rule.names(s),
        None => false,
    }
}
