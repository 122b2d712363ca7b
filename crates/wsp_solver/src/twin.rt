//! Twins among the branches of a node.
ghost use Rattle.std.specs.Prelude.{◌≡◌, ◌<◌, [], length, true, false, IsTrue, MatchOption};
ghost use Rattle.policy_book.specs.Course.{problem_in};
ghost use Rattle.policy_book.specs.Laws.Twins.{are_twins, has_no_step, has_twin, is_one_of};
ghost use Rattle.certificate_check.specs.Walks.{AreUsersBelow, kid_user_onto};
ghost use Rattle.refutation_tree.specs.Laws.Views.{kids_of_items};
ghost use Rattle.wsp_solver.specs.Crews.{IsCrewOf};
ghost use Rattle.wsp_solver.specs.Lean.{kid_users};

use crate::crew::{Crew, first_twin};
use certificate_check::has_no_step;
use plan_finder::Finder;
use policy_book::{Assign, Course};
use refutation_tree::{Branch, Branches, Kid};
use wf_names::UserId;

/// A twin of the user `u` whose branch has a tree, if there is one. The branches are of lower
/// users, so that there is none for a user who is the first twin.
pub(crate) fn twin_among(
    course: &Course,
    a: &Assign,
    crew: &Crew,
    finder: &mut Finder,
    branches: &Branches,
    u: UserId,
) -> Option<UserId>
    requires crew { IsCrewOf (problem_in course.now) crew.now }
    requires users { AreUsersBelow u branches.now }
    requires user { u < (problem_in course.now).users }
    ensures { MatchOption result
        (has_twin (problem_in course.now) a.now u (kid_users [] branches.now) ≡ false)
        (λ v. (is_one_of (kid_users [] branches.now) v ≡ true)
        × (are_twins (problem_in course.now) a.now u v ≡ true)) }
{
    if first_twin(course, crew, finder, u) == u {
        return None;
    }
    if !has_no_step(a, u) {
        return None;
    }
    let items = branches.as_slice();
    'branches: for branch in items {
        if is_twin_branch(course, a, crew, finder, branch, u) {
            return Some(branch.user);
        }
    }
    None
}

// Whether a branch has a tree, and its user is a twin of the user `u`, who has no step.
fn is_twin_branch(
    course: &Course,
    a: &Assign,
    crew: &Crew,
    finder: &mut Finder,
    branch: &Branch,
    u: UserId,
) -> bool
    requires crew { IsCrewOf (problem_in course.now) crew.now }
    requires first { branch.now.user < (problem_in course.now).users }
    requires user { u < (problem_in course.now).users }
    requires idle { IsTrue (has_no_step a.now u) }
    ensures { result ≡ has_twin (problem_in course.now) a.now u
        (kid_user_onto branch.now.kid branch.now.user []) }
{
    match &branch.kid {
        Kid::Tree(_) => are_twins(course, a, crew, finder, branch.user, u),
        Kid::Twin(_) => false,
    }
}

// Whether a user is a twin of another one, who has no step.
fn are_twins(
    course: &Course,
    a: &Assign,
    crew: &Crew,
    finder: &mut Finder,
    v: UserId,
    u: UserId,
) -> bool
    requires crew { IsCrewOf (problem_in course.now) crew.now }
    requires first { v < (problem_in course.now).users }
    requires user { u < (problem_in course.now).users }
    requires idle { IsTrue (has_no_step a.now u) }
    ensures { result ≡ are_twins (problem_in course.now) a.now u v }
{
    have_one_twin(course, crew, finder, v, u) && has_no_step(a, v)
}

// Whether two users have one first twin.
fn have_one_twin(course: &Course, crew: &Crew, finder: &mut Finder, v: UserId, u: UserId) -> bool
    requires crew { IsCrewOf (problem_in course.now) crew.now }
    requires first { v < (problem_in course.now).users }
    requires user { u < (problem_in course.now).users }
    ensures { result ≡ are_twins (problem_in course.now) [] u v }
{
    first_twin(course, crew, finder, u) == first_twin(course, crew, finder, v)
}
