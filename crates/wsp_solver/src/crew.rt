//! What a search knows of each user: the steps for which the user is authorised, and the first
//! twin, so that users with one first twin are twins wherever neither has a step.
ghost use Rattle.std.specs.Prelude.{◌≡◌, ◌<◌, ◌≤◌, ℕ, [], None, length};
ghost use Rattle.std.specs.Prelude.{replicate, slice_get, false, IfOk, IsTrue, MatchOption};
ghost use Rattle.policy_book.specs.Course.{problem_in};
ghost use Rattle.constraint_forms.specs.Rules.{any_read};
ghost use Rattle.policy_book.specs.Laws.Twins.{are_related_alike, are_twins};
ghost use Rattle.wsp_solver.specs.Crews.{AreDutiesBelow, AreFirstTwins, IsCrewOf, IsFirstTwin};
ghost use Rattle.wsp_solver.specs.Crews.{IsNextWith, class_in, duties_below, duties_of, has_steps};
ghost use Rattle.wsp_solver.specs.Crews.{is_told_apart, tells_apart};
ghost use Rattle.wsp_solver.specs.Searches.{NamesSteps};

use crate::leaf::steps_of_rule;
use crate::steps::step_count;
use certificate_check::are_related_alike;
use constraint_forms::{Holds, Rule};
use plan_finder::Finder;
use policy_book::{Course, StepSet};
use std::alloc::{AllocError, Global};
use wf_names::{RelId, STEP_LIMIT, UserId};

/// The users of a policy, as the search for a tree sees them.
#[derive(Drop)]
pub(crate) struct Crew {
    /// The steps for which each user is authorised.
    pub(crate) duties: Vec<StepSet>,
    /// The first twin of each user who was asked for.
    pub(crate) classes: Vec<Option<UserId>>,
    /// The steps that each rule names.
    pub(crate) named: Vec<StepSet>,
}

impl Crew {
    /// The users of a workflow's policy.
    pub(crate) fn new(alloc: Global, course: &Course) -> Result<Crew, AllocError>
        ensures { IfOk result (IsCrewOf (problem_in course.now)) }
    {
        prove!(step_count(course) <= STEP_LIMIT);
        let duties = all_duties(alloc, course)?;
        let classes = no_classes(alloc, course.policy.roster().users().len())?;
        let named = all_named(alloc, course)?;
        Ok(Crew {
            duties,
            classes,
            named,
        })
    }
}

fn all_named(alloc: Global, course: &Course) -> Result<Vec<StepSet>, AllocError>
    ensures { IfOk result (λ named. NamesSteps (problem_in course.now) named.items) }
{
    let mut named = Vec::new(alloc);
    'rules: for k in 0..course.rules().len() {
        named.push(steps_of_rule(course, k as u8))?;
    }
    Ok(named)
}

fn all_duties(alloc: Global, course: &Course) -> Result<Vec<StepSet>, AllocError>
    ensures { IfOk result (λ rows. AreDutiesBelow (problem_in course.now) rows.items) }
{
    let mut rows = Vec::new(alloc);
    'users: for u in 0..course.policy.roster().users().len() {
        rows.push(duties(course, UserId(u)))?;
    }
    Ok(rows)
}

// The steps for which a user is authorised, as the policy keeps them.
fn duties(course: &Course, u: UserId) -> StepSet
    requires user { u < (problem_in course.now).users }
    ensures { result ≡ duties_below (problem_in course.now) u (problem_in course.now).steps }
{
    course.policy.duties(course.number, u)
}

// The table of classes where nobody was asked for.
fn no_classes(alloc: Global, users: u16) -> Result<Vec<Option<UserId>>, AllocError>
    ensures { IfOk result (λ classes. classes.items ≡ replicate users None) }
{
    let none: Option<UserId> = None;
    vec![in alloc; none; users as usize]
}

/// Finds the first twin of a user, where it is not known yet.
pub(crate) fn know_class(course: &Course, crew: &mut Crew, finder: &mut Finder, u: UserId)
    requires crew { IsCrewOf (problem_in course.now) crew.old }
    requires user { u < (problem_in course.now).users }
    ensures { IsCrewOf (problem_in course.now) crew.new }
{
    let at = u.0 as usize;
    if at < crew.classes.len() && crew.classes[at].is_none() {
        let class = find_twin(course, finder, &crew.duties, u);
        crew.classes[at] = Some(class);
    }
}

/// The first twin of a user where nothing is assigned, which may be the same user.
pub(crate) fn first_twin(course: &Course, crew: &Crew, finder: &mut Finder, u: UserId) -> UserId
    requires crew { IsCrewOf (problem_in course.now) crew.now }
    requires user { u < (problem_in course.now).users }
    ensures { IsFirstTwin (problem_in course.now) u result }
{
    match class_in(&crew.classes, u) {
        Some(class) => class,
        None => find_twin(course, finder, &crew.duties, u),
    }
}

fn class_in(classes: &[Option<UserId>], u: UserId) -> Option<UserId>
    ensures { result ≡ class_in classes.now u }
{
    match classes.get(u.0 as usize) {
        Some(class) => *class,
        None => None,
    }
}

// The first twin of a user among those up to the user.
fn find_twin(course: &Course, finder: &mut Finder, duties: &[StepSet], u: UserId) -> UserId
    requires user { u < (problem_in course.now).users }
    requires duties { AreDutiesBelow (problem_in course.now) duties.now }
    ensures { IsFirstTwin (problem_in course.now) u result }
{
    let end = u.0;
    let own = duties_at(duties, u);
    let mut from = 0;
    'earlier: while let Some(v) = next_with(duties, &own, from, end) {
        if are_alike(course, finder, duties, v, u) {
            return v;
        }
        from = v.0 + 1;
    }
    u
}

// The first user from one on and below another number who has these steps in a table.
fn next_with(duties: &[StepSet], steps: &StepSet, from: u16, end: u16) -> Option<UserId>
    ensures { MatchOption result ((v : ℕ) → from ≤ v → v < end
        → has_steps duties.now steps.now v ≡ false)
        (IsNextWith duties.now steps.now from end) }
{
    'users: for v in from..end {
        if duties_at(duties, UserId(v)) == *steps {
            return Some(UserId(v));
        }
    }
    None
}

/// The steps for which a user is authorised.
pub(crate) fn duties_at(duties: &[StepSet], u: UserId) -> StepSet
    ensures { result ≡ duties_of duties.now u }
{
    match duties.get(u.0 as usize) {
        Some(steps) => *steps,
        None => StepSet::empty(),
    }
}

// Whether two users are twins where nothing is assigned. Most who are not are told apart by their
// steps, and most others by one third user.
fn are_alike(course: &Course, finder: &mut Finder, duties: &[StepSet], u: UserId, v: UserId) -> bool
    requires duties { AreDutiesBelow (problem_in course.now) duties.now }
    requires first { u < (problem_in course.now).users }
    requires second { v < (problem_in course.now).users }
    ensures { result ≡ are_twins (problem_in course.now) [] u v }
{
    prove!(step_count(course) <= STEP_LIMIT);
    if duties_at(duties, u) != duties_at(duties, v) {
        return false;
    }
    if are_told_apart(course, finder, u, v) {
        return false;
    }
    are_related_alike(course.policy, course.number, u, v)
}

// Whether some relation that a rule reads is known to tell two users apart.
fn are_told_apart(course: &Course, finder: &mut Finder, u: UserId, v: UserId) -> bool
    ensures { IsTrue result → are_related_alike (problem_in course.now) u v ≡ false }
{
    match finder.clue(course.policy, u, v) {
        Some(clue) => tells_apart(course, clue.rule, u, v, clue.user),
        None => false,
    }
}

// Whether some relation that a rule reads treats two users differently at a third one.
fn tells_apart(course: &Course, k: u8, u: UserId, v: UserId, w: UserId) -> bool
    ensures { result ≡ is_told_apart (problem_in course.now) u v w
        (slice_get (problem_in course.now).rules k) }
{
    let users = course.policy.roster().users().len();
    match course.rules().as_slice().get(k as usize) {
        Some(rule) => w.0 < users && is_read_apart(course, rule, u, v, w),
        None => false,
    }
}

fn is_read_apart(course: &Course, rule: &Rule, u: UserId, v: UserId, w: UserId) -> bool
    ensures { result ≡ any_read rule.now
        (λ rho. tells_apart ((problem_in course.now).related rho) u v w) }
{
    match rule.relation() {
        Some(rho) => is_treated_apart(course, rho, u, v, w),
        None => false,
    }
}

fn is_treated_apart(course: &Course, rho: RelId, u: UserId, v: UserId, w: UserId) -> bool
    ensures { result ≡ tells_apart ((problem_in course.now).related rho) u v w }
{
    let p = course.policy;
    w != u
        && w != v
        && (p.holds(rho, u, w) != p.holds(rho, v, w) || p.holds(rho, w, u) != p.holds(rho, w, v))
}
