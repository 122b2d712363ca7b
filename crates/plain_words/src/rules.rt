//! Rules as sentences.

use crate::lists::{group_text, step_name, text_of};
use crate::texts::{joined, say};
use constraint_forms::{Rule, StepSet};
use policy_book::{Course, Policy};
use std::alloc::{AllocError, Global};
use wf_names::{Name, RelId, StepId};

// What a relation says of two people.
#[derive(Clone, Copy)]
enum Sense {
    // That they are one.
    Same,
    // That they are two.
    Other,
    // That the first has a listed relation of this name to the second.
    Has(Name),
    // That the first does not have it.
    Lacks(Name),
    // Nothing that has a name.
    Nothing,
}

// Which people of a group a rule speaks of, and in which direction it reads its relation.
#[derive(Clone, Copy)]
enum Form {
    SomeOf,
    AllOf,
    SomeTo,
    AllTo,
}

/// What a rule of a workflow wants, as a sentence without its full stop.
pub fn rule_text(alloc: Global, course: &Course, rule: &Rule) -> Result<String, AllocError> {
    match rule {
        Rule::Pair { rho, first, second } => pair_text(alloc, course, *rho, *first, *second),
        Rule::SomeOf { rho, group, step } => {
            group_rule(alloc, course, Form::SomeOf, *rho, group, *step)
        }
        Rule::AllOf { rho, group, step } => {
            group_rule(alloc, course, Form::AllOf, *rho, group, *step)
        }
        Rule::SomeTo { rho, group, step } => {
            group_rule(alloc, course, Form::SomeTo, *rho, group, *step)
        }
        Rule::AllTo { rho, group, step } => {
            group_rule(alloc, course, Form::AllTo, *rho, group, *step)
        }
        Rule::AtMost { limit, group } => limit_text(alloc, course, "at most ", "", *limit, group),
        Rule::AtLeast { limit, group } => {
            limit_text(alloc, course, "at least ", "at least ", *limit, group)
        }
    }
}

// What a relation says of two people.
fn sense_of(p: &Policy, rho: RelId) -> Sense {
    if rho == RelId::SAME {
        return Sense::Same;
    }
    if rho == RelId::OTHER {
        return Sense::Other;
    }
    match p.relations().complement_of(rho) {
        Some(of) => match relation_name(p, of) {
            Some(name) => Sense::Lacks(name),
            None => Sense::Nothing,
        },
        None => match relation_name(p, rho) {
            Some(name) => Sense::Has(name),
            None => Sense::Nothing,
        },
    }
}

/// The name of a relation, if there is one.
pub fn relation_name(p: &Policy, rho: RelId) -> Option<Name> {
    if (rho.0 as u16) < p.relations().count() as u16 + 2 {
        Some(p.relations().name(rho))
    } else {
        None
    }
}

fn pair_text(
    alloc: Global,
    course: &Course,
    rho: RelId,
    first: StepId,
    second: StepId,
) -> Result<String, AllocError> {
    let x = step_name(course, first);
    let y = step_name(course, second);
    pair_words(
        alloc,
        sense_of(course.policy, rho),
        text_of(&x),
        text_of(&y),
    )
}

fn pair_words(alloc: Global, sense: Sense, x: &str, y: &str) -> Result<String, AllocError> {
    match sense {
        Sense::Same => joined(alloc, &[x, " and ", y, " are done by the same person"]),
        Sense::Other => joined(alloc, &[x, " and ", y, " are done by different people"]),
        Sense::Has(name) => has_words(alloc, "who does ", x, " has", name.as_str(), "who does ", y),
        Sense::Lacks(name) => {
            let verb = " does not have";
            has_words(alloc, "who does ", x, verb, name.as_str(), "who does ", y)
        }
        Sense::Nothing => joined(alloc, &[x, " and ", y, " are related"]),
    }
}

// That somebody has a relation to somebody, or does not have it.
fn has_words(
    alloc: Global,
    who: &str,
    x: &str,
    verb: &str,
    name: &str,
    whom: &str,
    y: &str,
) -> Result<String, AllocError> {
    joined(alloc, &[who, x, verb, " \"", name, "\" to ", whom, y])
}

// A rule over a group; that of a single step says what a pair says.
fn group_rule(
    alloc: Global,
    course: &Course,
    form: Form,
    rho: RelId,
    group: &StepSet,
    step: StepId,
) -> Result<String, AllocError> {
    let s = step_name(course, step);
    let (sense, last) = (
        sense_of(course.policy, rho),
        last_word(sense_of(course.policy, rho), form),
    );
    let all = group_text(alloc, course, group, last)?;
    if group.count() > 1 {
        return many_words(alloc, form, sense, all.as_str(), text_of(&s));
    }
    match form {
        Form::SomeOf | Form::AllOf => pair_words(alloc, sense, all.as_str(), text_of(&s)),
        Form::SomeTo | Form::AllTo => pair_words(alloc, sense, text_of(&s), all.as_str()),
    }
}

// The word before the last step of a rule's group.
fn last_word(sense: Sense, form: Form) -> &'static str {
    match (sense, form) {
        (Sense::Has(_) | Sense::Lacks(_), _) => "or",
        (Sense::Same, Form::SomeOf | Form::SomeTo) => "or",
        _ => "and",
    }
}

// A rule over a group of several steps.
fn many_words(
    alloc: Global,
    form: Form,
    sense: Sense,
    group: &str,
    s: &str,
) -> Result<String, AllocError> {
    match sense {
        Sense::Same => joined(alloc, &["who does ", s, " also does ", group]),
        Sense::Other => match form {
            Form::SomeOf | Form::SomeTo => {
                joined(alloc, &["not all of ", group, " are done by who does ", s])
            }
            Form::AllOf | Form::AllTo => joined(alloc, &["who does ", s, " does none of ", group]),
        },
        Sense::Has(name) => many_relate(alloc, form, false, name.as_str(), group, s),
        Sense::Lacks(name) => many_relate(alloc, form, true, name.as_str(), group, s),
        Sense::Nothing => joined(alloc, &[group, " and ", s, " are related"]),
    }
}

// That people of a group have a listed relation to who does a step, or that they lack it; or the
// other way.
fn many_relate(
    alloc: Global,
    form: Form,
    lacks: bool,
    name: &str,
    group: &str,
    s: &str,
) -> Result<String, AllocError> {
    let who = match form {
        Form::SomeOf | Form::SomeTo => "somebody who does ",
        Form::AllOf | Form::AllTo if lacks => "nobody who does ",
        Form::AllOf | Form::AllTo => "everybody who does ",
    };
    match form {
        Form::SomeTo if lacks => {
            let verb = " does not have \"";
            joined(
                alloc,
                &["to ", who, group, " who does ", s, verb, name, "\""],
            )
        }
        Form::SomeOf if lacks => {
            has_words(alloc, who, group, " does not have", name, "who does ", s)
        }
        Form::SomeOf | Form::AllOf => has_words(alloc, who, group, " has", name, "who does ", s),
        Form::SomeTo | Form::AllTo => has_words(alloc, "who does ", s, " has", name, who, group),
    }
}

// A rule over the number of people; of one person the words differ.
fn limit_text(
    alloc: Global,
    course: &Course,
    most: &str,
    one: &str,
    limit: u8,
    group: &StepSet,
) -> Result<String, AllocError> {
    let mut text = group_text(alloc, course, group, "and")?;
    push_limit(&mut text, most, one, limit)?;
    Ok(text)
}

fn push_limit(text: &mut String, most: &str, one: &str, limit: u8) -> Result<(), AllocError> {
    let different = if one.is_empty() { "" } else { "different " };
    if limit == 1 {
        say(text, &[" are done by ", one, "one person"])
    } else {
        write!(text, " are done by {most}{limit} {different}people")
    }
}
