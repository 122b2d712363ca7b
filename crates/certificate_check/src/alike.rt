//! Whether two users are twins, so that nothing depends on which of them is given a step.
ghost use Rattle.std.specs.Prelude.{◌≡◌, ◌<◌, ◌↔◌, ◌&&◌, ◌||◌, ◌==◌, ℕ, Some, not, true, length};
ghost use Rattle.std.specs.Prelude.{slice_get, IsTrue};
ghost use Rattle.wf_names.specs.declared.limits.TheConstants.{STEP_LIMIT};
ghost use Rattle.wf_names.specs.UserSets.{has_user};
ghost use Rattle.constraint_forms.specs.Assign.{user_at};
ghost use Rattle.constraint_forms.specs.Rules.{all_read, reads};
ghost use Rattle.policy_book.specs.Course.{problem_in};
ghost use Rattle.policy_book.specs.Policies.{problem_of};
ghost use Rattle.policy_book.specs.Laws.Twins.{agree, all_below, are_related_alike, are_twins};
ghost use Rattle.policy_book.specs.Laws.Twins.{has_no_step, is_alike_to, is_given_to};
ghost use Rattle.policy_book.specs.Laws.Twins.{is_rule_alike};
ghost use Rattle.policy_book.specs.Laws.Twins.{may_do_the_same, treats_alike};
ghost use Rattle.certificate_check.specs.Alike.{AreSameBut, HasNoMoreThan, reads_as};

use constraint_forms::{Holds, RelatedRows, Rule};
use policy_book::{Assign, Course, Policy};
use wf_names::{FlowId, RelId, STEP_LIMIT, StepId, USER_LIMIT, UserId, UserSet};

// Up to how many users are looked at one by one.
const FEW: u16 = 64;

/// Whether two users are twins under an assignment: neither has a step, both are authorised for the
/// same steps, and every relation that a rule reads treats them alike. Takes no memory.
pub fn twins(p: &Policy, f: FlowId, a: &Assign, u: UserId, v: UserId) -> bool
    requires flow { f < length p.now.flows }
    requires first { u < (problem_of p.now f).users }
    requires second { v < (problem_of p.now f).users }
    ensures { result ≡ are_twins (problem_of p.now f) a.now u v }
{
    let course = Course {
        policy: p,
        number: f,
    };
    have_no_step(a, u, v) && may_do_the_same(&course, u, v) && are_related_alike(p, f, u, v)
}

fn have_no_step(a: &Assign, u: UserId, v: UserId) -> bool
    ensures { result ≡ (has_no_step a.now u && has_no_step a.now v) }
{
    has_no_step(a, u) && has_no_step(a, v)
}

/// Whether no step is given to a user.
pub fn has_no_step(a: &Assign, u: UserId) -> bool
    ensures { result ≡ has_no_step a.now u }
{
    'steps: for s in 0..STEP_LIMIT {
        if is_given_to(a, StepId(s as u8), u) {
            return false;
        }
    }
    true
}

fn is_given_to(a: &Assign, s: StepId, u: UserId) -> bool
    ensures given { result ≡ is_given_to u (user_at a.now s) }
    ensures len { length a.now ≡ STEP_LIMIT }
{
    match a.at(s) {
        Some(v) => v == u,
        None => false,
    }
}

fn may_do_the_same(course: &Course, u: UserId, v: UserId) -> bool
    requires first { u < (problem_in course.now).users }
    requires second { v < (problem_in course.now).users }
    ensures { result ≡ may_do_the_same (problem_in course.now) u v }
{
    'steps: for s in 0..course.flow().steps().len() {
        if !may_both_or_neither(course, StepId(s as u8), u, v) {
            return false;
        }
    }
    true
}

fn may_both_or_neither(course: &Course, s: StepId, u: UserId, v: UserId) -> bool
    requires step { s < (problem_in course.now).steps }
    requires first { u < (problem_in course.now).users }
    requires second { v < (problem_in course.now).users }
    ensures { result ≡ agree ((problem_in course.now).authorised s u)
        ((problem_in course.now).authorised s v) }
{
    agree(course.authorised(s, u), course.authorised(s, v))
}

fn agree(one: bool, other: bool) -> bool
    ensures { result ≡ agree one other }
{
    if one { other } else { !other }
}

/// Whether every relation that a rule reads treats two users alike. A rule is passed over where an
/// earlier one reads all that it reads. Takes no memory.
pub fn are_related_alike(p: &Policy, f: FlowId, u: UserId, v: UserId) -> bool
    requires flow { f < length p.now.flows }
    ensures { result ≡ are_related_alike (problem_of p.now f) u v }
{
    let course = Course {
        policy: p,
        number: f,
    };
    'rules: for k in 0..course.rules().len() {
        if read_before(&course, k) < k {
            continue;
        }
        if !is_rule_alike(&course, k, u, v) {
            return false;
        }
    }
    true
}

// An earlier rule that reads all that a rule reads, or else the rule itself.
fn read_before(course: &Course, k: usize) -> usize
    ensures { (u v : ℕ)
        → IsTrue (is_rule_alike (problem_in course.now) u v
        (slice_get (problem_in course.now).rules result))
        → IsTrue (is_rule_alike (problem_in course.now) u v
        (slice_get (problem_in course.now).rules k)) }
{
    'earlier: for j in 0..k {
        if reads_as(course, j, k) {
            return j;
        }
    }
    k
}

// Whether one rule reads all that another rule reads.
fn reads_as(course: &Course, j: usize, k: usize) -> bool
    ensures { result ≡ reads_as (slice_get (problem_in course.now).rules j)
        (slice_get (problem_in course.now).rules k) }
{
    match course.rules().as_slice().get(j) {
        Some(rule) => reads_all_of(course, rule, k),
        None => false,
    }
}

fn reads_all_of(course: &Course, rule: &Rule, k: usize) -> bool
    ensures { result ≡ reads_as (Some rule.now) (slice_get (problem_in course.now).rules k) }
{
    match course.rules().as_slice().get(k) {
        Some(other) => reads_all(rule, other),
        None => false,
    }
}

fn reads_all(rule: &Rule, other: &Rule) -> bool
    ensures { result ≡ all_read other.now (reads rule.now) }
{
    match other.relation() {
        Some(rho) => rule.reads(rho),
        None => true,
    }
}

fn is_rule_alike(course: &Course, k: usize, u: UserId, v: UserId) -> bool
    ensures { result ≡ is_rule_alike (problem_in course.now) u v
        (slice_get (problem_in course.now).rules k) }
{
    match course.rules().as_slice().get(k) {
        Some(rule) => are_read_alike(course, rule, u, v),
        None => true,
    }
}

// Whether every relation that a rule reads treats two users alike.
fn are_read_alike(course: &Course, rule: &Rule, u: UserId, v: UserId) -> bool
    ensures { result ≡ all_read rule.now (λ rho. treats_alike (problem_in course.now).users
        ((problem_in course.now).related rho) u v) }
{
    match rule.relation() {
        Some(rho) => treats_alike(course, rho, u, v),
        None => true,
    }
}

fn treats_alike(course: &Course, rho: RelId, u: UserId, v: UserId) -> bool
    ensures { result ≡ treats_alike (problem_in course.now).users
        ((problem_in course.now).related rho) u v }
{
    let p = course.policy;
    if !agree(p.holds(rho, u, u), p.holds(rho, v, v)) {
        return false;
    }
    if !agree(p.holds(rho, u, v), p.holds(rho, v, u)) {
        return false;
    }
    are_alike_to_all(course, rho, u, v)
}

fn are_alike_to_all(course: &Course, rho: RelId, u: UserId, v: UserId) -> bool
    ensures { result ≡ all_below (problem_in course.now).users
        (λ w. (w == u || w == v) || is_alike_to ((problem_in course.now).related rho) u v w) }
{
    if course.policy.roster().users().len() <= FEW {
        are_alike_to_each(course, rho, u, v)
    } else {
        have_same_rows(course, rho, u, v)
    }
}

fn are_alike_to_each(course: &Course, rho: RelId, u: UserId, v: UserId) -> bool
    ensures { result ≡ all_below (problem_in course.now).users
        (λ w. (w == u || w == v) || is_alike_to ((problem_in course.now).related rho) u v w) }
{
    'users: for w in 0..course.policy.roster().users().len() {
        if !are_alike_to(course, rho, u, v, UserId(w)) {
            return false;
        }
    }
    true
}

fn are_alike_to(course: &Course, rho: RelId, u: UserId, v: UserId, w: UserId) -> bool
    ensures { result ≡ ((w == u || w == v) || is_alike_to ((problem_in course.now).related
        rho) u v w) }
{
    w == u || w == v || is_alike_to(course, rho, u, v, w)
}

fn is_alike_to(course: &Course, rho: RelId, u: UserId, v: UserId, w: UserId) -> bool
    ensures { result ≡ is_alike_to ((problem_in course.now).related rho) u v w }
{
    let p = course.policy;
    agree(p.holds(rho, u, w), p.holds(rho, v, w)) && agree(p.holds(rho, w, u), p.holds(rho, w, v))
}

// By the rows of all whom a relation relates to each of the two.
fn have_same_rows(course: &Course, rho: RelId, u: UserId, v: UserId) -> bool
    ensures { result ≡ all_below (problem_in course.now).users
        (λ w. (w == u || w == v) || is_alike_to ((problem_in course.now).related rho) u v w) }
{
    let p = course.policy;
    let users = p.roster().users().len();
    prove!(users <= USER_LIMIT);
    if !are_same_but(&p.after(rho, u, users), &p.after(rho, v, users), u, v) {
        return false;
    }
    are_same_but(&p.ahead(rho, u, users), &p.ahead(rho, v, users), u, v)
}

// Whether two sets have the same users, two users aside.
fn are_same_but(one: &UserSet, other: &UserSet, u: UserId, v: UserId) -> bool
    ensures { result ≡ true ↔ AreSameBut one.now other.now u v }
{
    has_no_more_than(one, other, u, v) && has_no_more_than(other, one, u, v)
}

// Whether a set has no user, two users aside, who is not in another set.
fn has_no_more_than(one: &UserSet, other: &UserSet, u: UserId, v: UserId) -> bool
    ensures { result ≡ true ↔ HasNoMoreThan one.now other.now u v }
{
    let mut more = *one;
    more.strike(other);
    take_out(&mut more, u);
    take_out(&mut more, v);
    more.next(0).is_none()
}

fn take_out(set: &mut UserSet, u: UserId)
    ensures { (w : ℕ) → has_user set.new w ≡ (not (w == u) && has_user set.old w) }
{
    if set.has(u) {
        set.remove(u);
    }
}
