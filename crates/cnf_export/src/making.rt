//! What an encoder is made of.
ghost use Rattle.std.specs.Prelude.{◌≡◌, ◌≤◌, ◌<◌, ℕ, length, IfOk, true, ◌==◌, ◌&&◌};
ghost use Rattle.wf_names.specs.UserSets.{has_user};
ghost use Rattle.wf_names.specs.declared.limits.TheConstants.{USER_LIMIT};
ghost use Rattle.policy_book.specs.Course.{problem_in};
ghost use Rattle.policy_book.specs.Laws.Plans.{IsWithin};
ghost use Rattle.constraint_forms.specs.Assign.{user_at};
ghost use Rattle.cnf_export.specs.Laws.Encodings.{encoding_of, may_be};
ghost use Rattle.cnf_export.specs.Terms.{AreDomains, encoding_in};

use crate::sizes::{step_count, user_count};
use crate::terms::Terms;
use constraint_forms::{Assign, StepSet};
use policy_book::Course;
use std::alloc::{AllocError, Global};
use wf_names::{STEP_LIMIT, StepId, USER_LIMIT, UserId, UserSet};

/// What the clauses of a case are made of.
pub(crate) fn terms_of(
    alloc: Global,
    course: &Course,
    a: &Assign,
    done: &StepSet,
) -> Result<Terms, AllocError>
    requires within { IsWithin (problem_in course.now) a.now }
    ensures { IfOk result (λ t. encoding_in t
        ≡ encoding_of (problem_in course.now) a.now done.now) }
{
    let domains = domains_of(alloc, course, a, done)?;
    let relations = course.policy.relations().copy()?;
    Ok(Terms::new(user_count(course), step_count(course), domains, relations))
}

fn domains_of(
    alloc: Global,
    course: &Course,
    a: &Assign,
    done: &StepSet,
) -> Result<Vec<UserSet>, AllocError>
    requires within { IsWithin (problem_in course.now) a.now }
    ensures { IfOk result (λ domains. AreDomains (problem_in course.now) a.now done.now
        (problem_in course.now).steps domains.items) }
{
    let mut domains = Vec::new(alloc);
    'steps: for s in 0..course.flow().steps().len() {
        domains.push(domain_of(course, a, done, StepId(s as u8)))?;
    }
    Ok(domains)
}

fn domain_of(course: &Course, a: &Assign, done: &StepSet, s: StepId) -> UserSet
    requires within { IsWithin (problem_in course.now) a.now }
    requires step { s < (problem_in course.now).steps }
    ensures known { (u : ℕ) → has_user result u ≡ true → u < (problem_in course.now).users }
    ensures may { (u : ℕ) → has_user result u
        ≡ may_be (problem_in course.now) done.now s (user_at a.now s) u }
{
    match a.at(s) {
        None => course.authorised_users(s),
        Some(v) => {
            prove!(user_count(course) <= USER_LIMIT);
            alone_if(v, done.has(s) || course.authorised(s, v))
        }
    }
}

// A user alone, or nobody.
fn alone_if(v: UserId, keeps: bool) -> UserSet
    requires { v < USER_LIMIT }
    ensures { (u : ℕ) → has_user result u ≡ ((v == u) && keeps) }
{
    let mut users = UserSet::empty();
    if keeps {
        users.insert(v);
    }
    users
}
