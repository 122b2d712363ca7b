//! The search for the least absence that leaves no valid plan.
ghost use Rattle.std.specs.Prelude.{◌≡◌, ◌+◌, ◌<◌, ◌≤◌, ◌^◌, ◌∷◌, ◌++◌, [], ℕ, true, false, length};
ghost use Rattle.std.specs.Prelude.{None, Some, IfOk, OnOk};
ghost use Rattle.constraint_forms.specs.Assign.{no_steps, no_users};
ghost use Rattle.wsp_solver.specs.Searches.{HasSolved};
ghost use Rattle.resilience_check.specs.Left.{AreUsers, problem_without};
ghost use Rattle.policy_book.specs.Course.{problem_in};
ghost use Rattle.resilience_check.specs.Covering.{AreValidPlans};
ghost use Rattle.resilience_check.specs.Searches.{HasTriedAbsences, HasTriedOne};

use crate::away::Away;
use crate::covering::can_break;
use crate::left::without;
use crate::{Absent, Plans};
use policy_book::{Assign, Course, StepSet};
use refutation_tree::Tree;
use std::alloc::{AllocError, Global};
use wf_names::UserId;
use wsp_solver::{Outcome, solve};

/// The first absence of `left` more users, numbered from `from` on, that leaves with those who are
/// absent already no valid plan; they are put behind these, and a tree refutes what is left. Where
/// there is none, the family comes to have a plan for each such absence.
pub(crate) fn first_breaking(
    alloc: Global,
    course: &Course,
    family: &mut Plans,
    absent: &mut Absent,
    from: u16,
    left: u8,
) -> Result<Option<Tree>, AllocError>
    requires users { AreUsers (problem_in course.now).users absent.old }
    requires family { AreValidPlans (problem_in course.now) family.old }
    ensures { IfOk result
        (HasTriedAbsences course.now.policy.now course.now.number family.old absent.old
        from left family.new absent.new) }
{
    if !can_break(
        family.as_slice(),
        &Away::Those(absent.as_slice()),
        from,
        left,
    ) {
        return Ok(None);
    }
    if left == 0 {
        return try_absence(alloc, course, family, absent);
    }
    let count = absent.len();
    'users: for u in from..course.policy.roster().users().len() {
        absent.push(UserId(u))?;
        match first_breaking(alloc, course, family, absent, u + 1, left - 1)? {
            Some(tree) => return Ok(Some(tree)),
            None => absent.truncate(count),
        }
    }
    Ok(None)
}

// A tree that refutes what is left without some users; or a valid plan without them, in the family.
fn try_absence(
    alloc: Global,
    course: &Course,
    family: &mut Plans,
    absent: &Absent,
) -> Result<Option<Tree>, AllocError>
    requires users { AreUsers (problem_in course.now).users absent.now }
    requires family { AreValidPlans (problem_in course.now) family.old }
    ensures { IfOk result (HasTriedOne course.now.policy.now course.now.number
        family.old absent.now family.new) }
{
    match solve_without(alloc, course, absent)? {
        Outcome::Plan(plan) => {
            family.push(plan)?;
            Ok(None)
        }
        Outcome::Refuted(tree) => Ok(Some(tree)),
    }
}

// What a search finds without some users.
fn solve_without(alloc: Global, course: &Course, absent: &Absent) -> Result<Outcome, AllocError>
    requires users { AreUsers (problem_in course.now).users absent.now }
    ensures { IfOk result (HasSolved (problem_without course.now.policy.now course.now.number
        absent.now) no_users no_steps) }
{
    let left = without(course.policy, absent)?;
    solve(
        alloc,
        &left,
        course.number,
        &Assign::empty(),
        &StepSet::empty(),
    )
}
