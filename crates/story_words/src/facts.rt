//! Who breaks a rule, and how.
ghost use Rattle.std.specs.Prelude.{◌≡◌, true, IfSome};
ghost use Rattle.constraint_forms.specs.Assign.{user_at};
ghost use Rattle.constraint_forms.specs.Rules.{are_unrelated, turned};
ghost use Rattle.user_relations.specs.Laws.Relations.{is_related};

use crate::held::Held;
use crate::names::push_users;
use constraint_forms::{Assign, Rule, StepSet, falsified};
use plain_words::{
    group_text, name_of, push_gap, relation_name, rule_text, say, step_name, text_of,
};
use policy_book::Policy;
use std::alloc::AllocError;
use wf_names::{Name, RelId, STEP_LIMIT, StepId, USER_LIMIT, UserId, UserSet};

// What a rule over a group wants: that those who do its steps are related to who does the step;
// read back, that who does the step is related to them.
#[derive(Clone, Copy)]
struct Wish {
    rho: RelId,
    group: StepSet,
    step: StepId,
    back: bool,
}

/// How a rule is told of.
#[derive(Clone, Copy)]
pub(crate) enum Breach {
    /// That it would be broken, with its words.
    Would,
    /// That it is broken; its words only where nobody breaks it.
    Is,
}

/// Adds the number of a rule, that it is or would be broken, and by whom where it is.
pub(crate) fn push_broken(
    out: &mut String,
    held: &Held<'_>,
    k: u8,
    breach: Breach,
) -> Result<(), AllocError> {
    let (verb, in_words) = match breach {
        Breach::Would => (" would be broken", true),
        Breach::Is => (" is broken", false),
    };
    write!(out, "rule {k}")?;
    match held.course.rules().as_slice().get(k as usize) {
        Some(rule) => push_breach(out, held, rule, verb, in_words),
        None => out.push_str(verb),
    }
}

// Adds that a rule is or would be broken, in its words where these are wanted or nobody breaks it.
fn push_breach(
    out: &mut String,
    held: &Held<'_>,
    rule: &Rule,
    verb: &str,
    in_words: bool,
) -> Result<(), AllocError> {
    let is_broken = falsified(rule, held.course.policy, &held.users);
    if in_words || !is_broken {
        push_words(out, held, rule)?;
    }
    if !is_broken {
        return out.push_str(verb);
    }
    say(out, &[verb, ": "])?;
    push_fact(out, held, rule)
}

// Adds the words of a rule.
fn push_words(out: &mut String, held: &Held<'_>, rule: &Rule) -> Result<(), AllocError> {
    let words = rule_text(*out.allocator(), &held.course, rule)?;
    say(out, &[" (", words.as_str(), ")"])
}

// Adds who breaks a rule that is broken.
fn push_fact(out: &mut String, held: &Held<'_>, rule: &Rule) -> Result<(), AllocError> {
    match rule {
        Rule::Pair { rho, first, second } => push_unrelated(out, held, *rho, *first, *second),
        Rule::AllOf { rho, group, step } => {
            push_one(out, held, &wish_of(*rho, group, *step, false))
        }
        Rule::AllTo { rho, step, group } => {
            push_one(out, held, &wish_of(*rho, group, *step, true))
        }
        Rule::SomeOf { rho, group, step } => {
            push_none(out, held, &wish_of(*rho, group, *step, false))
        }
        Rule::SomeTo { rho, step, group } => {
            push_none(out, held, &wish_of(*rho, group, *step, true))
        }
        Rule::AtMost { group, .. } => push_many(out, held, group),
        Rule::AtLeast { group, .. } => push_few(out, held, group),
    }
}

fn wish_of(rho: RelId, group: &StepSet, step: StepId, back: bool) -> Wish {
    Wish {
        rho,
        group: *group,
        step,
        back,
    }
}

// Adds that the users of two steps are not related from the first to the second.
fn push_unrelated(
    out: &mut String,
    held: &Held<'_>,
    rho: RelId,
    first: StepId,
    second: StepId,
) -> Result<(), AllocError> {
    let (Some(u), Some(v)) = (held.users.at(first), held.users.at(second)) else {
        return Ok(());
    };
    let users = held.course.policy.roster().users();
    let (u, v) = (name_of(users, u.0), name_of(users, v.0));
    let x = step_name(&held.course, first);
    let y = step_name(&held.course, second);
    push_pair(
        out,
        held.course.policy,
        rho,
        text_of(&u),
        text_of(&x),
        text_of(&v),
        text_of(&y),
    )
}

// Adds that `u`, who does `x`, is not related to `v`, who does `y`.
fn push_pair(
    out: &mut String,
    p: &Policy,
    rho: RelId,
    u: &str,
    x: &str,
    v: &str,
    y: &str,
) -> Result<(), AllocError> {
    if rho == RelId::SAME {
        return say(out, &[u, " does ", x, ", but ", v, " does ", y]);
    }
    match listed_in(p, rho) {
        Some((lacks, name)) => {
            let verb = if lacks { "has" } else { "does not have" };
            push_listed(out, verb, name.as_str(), u, x, v, y)
        }
        None => say(out, &[u, " would do both ", x, " and ", y]),
    }
}

// Adds that `u` has a listed relation to `v`, or does not have it.
fn push_listed(
    out: &mut String,
    verb: &str,
    relation: &str,
    u: &str,
    x: &str,
    v: &str,
    y: &str,
) -> Result<(), AllocError> {
    say(out, &[u, " (", x, ") ", verb, " \"", relation])?;
    say(out, &["\" to ", v, " (", y, ")"])
}

// The name of the listed relation that a relation is or complements, and whether it complements it;
// none of the built-in ones has one.
fn listed_in(p: &Policy, rho: RelId) -> Option<(bool, Name)> {
    if rho == RelId::SAME || rho == RelId::OTHER {
        return None;
    }
    let of = p.relations().complement_of(rho);
    let (lacks, listed) = match of {
        Some(of) => (true, of),
        None => (false, rho),
    };
    match relation_name(p, listed) {
        Some(name) => Some((lacks, name)),
        None => None,
    }
}

// Adds the first member of a group whose user is not related to that of the step.
fn push_one(out: &mut String, held: &Held<'_>, wish: &Wish) -> Result<(), AllocError> {
    match first_unrelated(held.course.policy, &held.users, wish) {
        Some(x) if wish.back => push_unrelated(out, held, wish.rho, wish.step, x),
        Some(x) => push_unrelated(out, held, wish.rho, x, wish.step),
        None => Ok(()),
    }
}

fn first_unrelated(p: &Policy, users: &Assign, wish: &Wish) -> Option<StepId>
    ensures { IfSome result (λ x. are_unrelated (turned wish.now.back (is_related p.now.relations))
        wish.now.rho (user_at users.now x) (user_at users.now wish.now.step) ≡ true) }
{
    'members: for x in 0..wish.group.limit() {
        let member = StepId(x as u8);
        if wish.group.has(member) && is_unrelated(p, users, wish, member) {
            return Some(member);
        }
    }
    None
}

// Whether a member and the step are given to users who are not related as the rule reads it.
fn is_unrelated(p: &Policy, users: &Assign, wish: &Wish, x: StepId) -> bool
    ensures { result ≡ are_unrelated (turned wish.now.back (is_related p.now.relations))
        wish.now.rho (user_at users.now x) (user_at users.now wish.now.step) }
{
    match (users.at(x), users.at(wish.step)) {
        (Some(u), Some(v)) if wish.back => !p.relations().holds(wish.rho, v, u),
        (Some(u), Some(v)) => !p.relations().holds(wish.rho, u, v),
        _ => false,
    }
}

// Adds that nobody of a group is related to the user of the step. That of a single member is told
// as a pair.
fn push_none(out: &mut String, held: &Held<'_>, wish: &Wish) -> Result<(), AllocError> {
    let Some(w) = held.users.at(wish.step) else {
        return Ok(());
    };
    if wish.group.count() < 2 {
        return push_one(out, held, wish);
    }
    let doer = name_of(held.course.policy.roster().users(), w.0);
    match listed_in(held.course.policy, wish.rho) {
        Some((lacks, name)) => push_lone(out, held, wish, w, lacks, name.as_str()),
        None if wish.rho == RelId::SAME => { push_neither(out, held, wish, text_of(&doer)) }
        None => push_all(out, held, wish, text_of(&doer)),
    }
}

// Adds that nobody of a group is who does the step.
fn push_neither(
    out: &mut String,
    held: &Held<'_>,
    wish: &Wish,
    doer: &str,
) -> Result<(), AllocError> {
    let step = step_name(&held.course, wish.step);
    say(out, &[doer, " does ", text_of(&step), ", and neither "])?;
    push_group(out, held, &wish.group, "nor")
}

// Adds that one user would do all of a group and the step.
fn push_all(out: &mut String, held: &Held<'_>, wish: &Wish, doer: &str) -> Result<(), AllocError> {
    say(out, &[doer, " would do "])?;
    push_group(out, held, &joined(&wish.group, wish.step), "and")
}

// Adds the names of a group's steps, the last one behind this word.
fn push_group(out: &mut String, held: &Held, group: &StepSet, end: &str) -> Result<(), AllocError> {
    let names = group_text(*out.allocator(), &held.course, group, end)?;
    out.push_str(names.as_str())
}

// Adds that nobody of a group has a listed relation to the user of the step, or that all have one
// that they should lack.
fn push_lone(
    out: &mut String,
    held: &Held<'_>,
    wish: &Wish,
    user: UserId,
    lacks: bool,
    name: &str,
) -> Result<(), AllocError> {
    let (front, last) = if lacks {
        ("", "and")
    } else {
        ("neither ", "nor")
    };
    if wish.back {
        push_doer(out, held, user, wish.step)?;
        say(out, &[" has \"", name, "\" to ", front])?;
        return push_doers(out, held, &wish.group, last);
    }
    let verb = if lacks { " have \"" } else { " has \"" };
    out.push_str(front)?;
    push_doers(out, held, &wish.group, last)?;
    say(out, &[verb, name, "\" to "])?;
    push_doer(out, held, user, wish.step)
}

// A group with a step.
fn joined(group: &StepSet, s: StepId) -> StepSet {
    if (s.0 as usize) < STEP_LIMIT {
        group.with(s)
    } else {
        *group
    }
}

// Adds who would do each step of a group.
fn push_doers(out: &mut String, held: &Held, group: &StepSet, end: &str) -> Result<(), AllocError> {
    let count = group.count() as u32;
    let mut place = 0u32;
    for x in 0..group.limit() {
        if let (true, Some(u)) = (group.has(StepId(x as u8)), held.users.at(StepId(x as u8))) {
            push_gap(out, place, count, end)?;
            push_doer(out, held, u, StepId(x as u8))?;
            place = place.saturating_add(1);
        }
    }
    Ok(())
}

fn push_doer(out: &mut String, held: &Held<'_>, u: UserId, s: StepId) -> Result<(), AllocError> {
    let user = name_of(held.course.policy.roster().users(), u.0);
    let step = step_name(&held.course, s);
    say(out, &[text_of(&user), " (", text_of(&step), ")"])
}

// The steps of a group that are given to somebody, and to whom.
fn given_of(held: &Held, group: &StepSet) -> (StepSet, UserSet) {
    let (mut steps, mut users) = (StepSet::empty(), UserSet::empty());
    for x in 0..STEP_LIMIT {
        let member = StepId(x as u8);
        if let (true, Some(u)) = (group.has(member), held.users.at(member)) {
            steps = steps.with(member);
            if u.0 < USER_LIMIT {
                users.insert(u);
            }
        }
    }
    (steps, users)
}

// Adds that the steps of a group would be done by too many users.
fn push_many(out: &mut String, held: &Held<'_>, group: &StepSet) -> Result<(), AllocError> {
    let (steps, users) = given_of(held, group);
    push_group(out, held, &steps, "and")?;
    out.push_str(" would be done by ")?;
    push_users(out, held.course.policy, &users, "and")
}

// Adds that too few users are left for the steps of a group.
fn push_few(out: &mut String, held: &Held<'_>, group: &StepSet) -> Result<(), AllocError> {
    let (steps, users) = given_of(held, group);
    let open = group.count().saturating_sub(steps.count());
    let left = users.count().saturating_add(open as u32);
    let people = if left == 1 {
        "person is"
    } else {
        "different people are"
    };
    write!(out, "only {left} {people} left for ")?;
    push_group(out, held, group, "and")
}
