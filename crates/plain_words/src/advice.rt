//! What a policy may say and probably does not mean.
ghost use Rattle.std.specs.Prelude.{◌<◌, length};

use crate::lists::{flow_name, name_of, step_name, text_of, users_text};
use crate::one_way::push_one_way;
use crate::rules::relation_name;
use crate::texts::say;
use constraint_forms::Rule;
use policy_book::{Course, Policy};
use rule_core::are_parted;
use std::alloc::AllocError;
use wf_names::{FlowId, RelId, RoleId, StepId, UserId, UserSet};

// What a workflow may say: that a step is permitted to a role, or that a rule reads a relation.
#[derive(Clone, Copy)]
enum Said {
    Permits(RoleId),
    Reads(RelId),
}

// What is probably not meant by a rule.
#[derive(Clone, Copy)]
enum Slip {
    // The step is to be done by others than those who do it.
    OwnGroup(StepId),
    // The relation leads from nobody who may do the first step to anybody who may do the second,
    // but the other way.
    Turned(StepId, StepId),
    // The user may do both steps, since a complement holds of each user and themselves.
    Both(UserId, StepId, StepId),
}

/// Adds a line for each thing in a policy that is legal and probably not meant, each behind this
/// front. Whether a workflow has a plan is not looked at.
pub fn push_advice(out: &mut String, front: &str, p: &Policy) -> Result<(), AllocError> {
    push_admin(out, front, p)?;
    for r in 0..p.roster().roles().len().min(256) {
        push_role(out, front, p, RoleId(r as u8))?;
    }
    for rho in 2..(p.relations().count() as u16 + 2).min(256) {
        push_relation(out, front, p, RelId(rho as u8))?;
    }
    for f in 0..p.flows().len() {
        push_flow(out, front, &course_of(p, FlowId(f as u8)))?;
    }
    Ok(())
}

// One of the policy's workflows.
fn course_of(p: &Policy, f: FlowId) -> Course<'_>
    requires { f < length p.now.flows }
{
    Course {
        policy: p,
        number: f,
    }
}

// One administrator alone.
fn push_admin(out: &mut String, front: &str, p: &Policy) -> Result<(), AllocError> {
    let holders = p.roster().holders(p.admin());
    if holders.count() != 1 {
        return Ok(());
    }
    let role = name_of(p.roster().roles(), p.admin().0 as u16);
    let user = users_text(*out.allocator(), p, &holders)?;
    let alone = " alone administers the policy\n";
    say(
        out,
        &[front, "role ", text_of(&role), ": ", user.as_str(), alone],
    )
}

// A role that permits nothing and does not administer the policy.
fn push_role(out: &mut String, front: &str, p: &Policy, r: RoleId) -> Result<(), AllocError> {
    if r == p.admin() || is_said(p, &Said::Permits(r)) {
        return Ok(());
    }
    let role = name_of(p.roster().roles(), r.0 as u16);
    say(
        out,
        &[
            front,
            "role ",
            text_of(&role),
            ": no step is permitted to it\n",
        ],
    )
}

// Whether a workflow of the policy says so.
fn is_said(p: &Policy, said: &Said) -> bool {
    for f in 0..p.flows().len() {
        if says(&course_of(p, FlowId(f as u8)), said) {
            return true;
        }
    }
    false
}

fn says(course: &Course, said: &Said) -> bool {
    match said {
        Said::Permits(r) => permits_in(course, *r),
        Said::Reads(rho) => is_read_in(course, *rho),
    }
}

fn permits_in(course: &Course, r: RoleId) -> bool {
    let flow = course.flow();
    for s in 0..flow.steps().len().min(256) {
        if flow.permits(r, StepId(s as u8)) {
            return true;
        }
    }
    false
}

// A relation that no rule reads, nor a complement that a rule reads; and a pair of it that stands
// one way only.
fn push_relation(out: &mut String, front: &str, p: &Policy, rho: RelId) -> Result<(), AllocError> {
    if !is_said(p, &Said::Reads(rho)) {
        let name = relation_name(p, rho);
        say(
            out,
            &[front, "relation ", text_of(&name), ": no rule reads it\n"],
        )?;
    }
    push_one_way(out, front, p, rho)
}

fn is_read_in(course: &Course, rho: RelId) -> bool {
    for rule in course.rules().as_slice() {
        match rule.relation() {
            Some(read) => {
                if read == rho || course.policy.relations().complement_of(read) == Some(rho) {
                    return true;
                }
            }
            None => {}
        }
    }
    false
}

fn push_flow(out: &mut String, front: &str, course: &Course) -> Result<(), AllocError> {
    for s in 0..course.flow().steps().len().min(256) {
        push_step(out, front, course, StepId(s as u8))?;
    }
    for k in 0..course.rules().len() {
        push_rule(out, front, course, k)?;
    }
    Ok(())
}

// A step that nobody may do.
fn push_step(out: &mut String, front: &str, course: &Course, s: StepId) -> Result<(), AllocError> {
    if course.authorised_users(s).count() > 0 {
        return Ok(());
    }
    let flow = flow_name(course);
    let step = step_name(course, s);
    let (flow, step) = (text_of(&flow), text_of(&step));
    say(
        out,
        &[front, "workflow ", flow, ": nobody may do ", step, "\n"],
    )
}

// What may not be meant by a rule.
fn push_rule(out: &mut String, front: &str, course: &Course, k: usize) -> Result<(), AllocError> {
    let Some(slip) = slip_of(course, k) else {
        return Ok(());
    };
    let flow = flow_name(course);
    say(out, &[front, "workflow ", text_of(&flow), ", rule "])?;
    write!(out, "{k}: ")?;
    push_slip(out, course, slip)
}

fn slip_of(course: &Course, k: usize) -> Option<Slip> {
    match course.rules().as_slice().get(k) {
        Some(Rule::Pair { rho, first, second }) => pair_slip(course, *rho, *first, *second),
        Some(Rule::AllOf { rho, group, step } | Rule::AllTo { rho, group, step }) => {
            if *rho == RelId::OTHER && group.has(*step) {
                return Some(Slip::OwnGroup(*step));
            }
            None
        }
        _ => None,
    }
}

fn pair_slip(course: &Course, rho: RelId, first: StepId, second: StepId) -> Option<Slip> {
    let p = course.policy;
    let from = course.authorised_users(first);
    let to = course.authorised_users(second);
    if p.relations().complement_of(rho).is_some() {
        if are_parted(course, first, second) {
            return None;
        }
        let user = both_user(p, rho, &from, &to)?;
        return Some(Slip::Both(user, first, second));
    }
    if leads(p, rho, &from, &to) || !leads(p, rho, &to, &from) {
        return None;
    }
    Some(Slip::Turned(first, second))
}

// Whether a relation holds from some user of a set to one of another.
fn leads(p: &Policy, rho: RelId, from: &UserSet, to: &UserSet) -> bool {
    for u in 0..p.roster().users().len() {
        if from.has(UserId(u)) && leads_from(p, rho, UserId(u), to) {
            return true;
        }
    }
    false
}

fn leads_from(p: &Policy, rho: RelId, u: UserId, to: &UserSet) -> bool {
    for v in 0..p.roster().users().len() {
        if to.has(UserId(v)) && p.relations().holds(rho, u, UserId(v)) {
            return true;
        }
    }
    false
}

// The first user of both sets of whom a relation holds with themselves.
fn both_user(p: &Policy, rho: RelId, from: &UserSet, to: &UserSet) -> Option<UserId> {
    for u in 0..p.roster().users().len() {
        let both = from.has(UserId(u)) && to.has(UserId(u));
        if both && p.relations().holds(rho, UserId(u), UserId(u)) {
            return Some(UserId(u));
        }
    }
    None
}

fn push_slip(out: &mut String, course: &Course, slip: Slip) -> Result<(), AllocError> {
    match slip {
        Slip::OwnGroup(step) => {
            let step = step_name(course, step);
            let end = " is in its own group, so nobody can meet the rule\n";
            say(out, &[text_of(&step), end])
        }
        Slip::Turned(first, second) => {
            let (x, y) = (step_name(course, first), step_name(course, second));
            let front = "the relation leads from nobody who may do ";
            let middle = " to anybody who may do ";
            let end = ", but the other way; exchange first and second?\n";
            say(out, &[front, text_of(&x), middle, text_of(&y), end])
        }
        Slip::Both(user, first, second) => push_both(out, course, user, first, second),
    }
}

fn push_both(
    out: &mut String,
    course: &Course,
    u: UserId,
    first: StepId,
    second: StepId,
) -> Result<(), AllocError> {
    let user = name_of(course.policy.roster().users(), u.0);
    let (x, y) = (step_name(course, first), step_name(course, second));
    let (x, y) = (text_of(&x), text_of(&y));
    let end = ", since a complement holds of each user and themselves; add a rule with other if \
               that is not meant\n";
    say(out, &[text_of(&user), " may do both ", x, " and ", y, end])
}
