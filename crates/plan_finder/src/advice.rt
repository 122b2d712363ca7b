//! Which step of a case to try next.

use crate::bits::{Cells, bit, has_bit, pop, pop_law};
use crate::problem::{Demand, Law, Over, Problem};
use crate::rows::{add_user, clear, count, has_user, is_empty, join, meet, put, strike, take_user};
use crate::work::Work;
use constraint_forms::Assign;
use wf_names::{RULE_LIMIT, STEP_LIMIT, StepId};

/// A step that is not assigned: few candidates and rules of much weight speak for a step, and
/// before all that it has no candidate.
pub(crate) fn advised(problem: &Problem, work: &mut Work, a: &Assign) -> Option<StepId> {
    let open = open_steps(problem, a);
    let mut best = None;
    let mut least = (u32::MAX, 1u32);
    let mut fewest = u32::MAX;
    let weights = weights_of(problem, work, open);
    for s in 0..problem.steps {
        if !has_bit(open, s) {
            continue;
        }
        let candidates = count_candidates(problem, work, a, open, s);
        if candidates == 0 {
            let users = count(problem.allowed.row(s as usize));
            if users < fewest {
                best = Some(StepId(s));
                fewest = users;
            }
        } else if fewest == u32::MAX {
            let share = (candidates, weights.at(s));
            if best.is_none() || is_less(share, least) {
                best = Some(StepId(s));
                least = share;
            }
        }
    }
    best
}

/// At most `most` steps that are not assigned, chosen by their candidates and the weight of their
/// rules.
pub(crate) fn best_roots(problem: &Problem, work: &mut Work, a: &Assign, most: u32) -> u32 {
    let open = open_steps(problem, a);
    let mut shares = [(0u32, 1u32); STEP_LIMIT];
    find_shares(&mut shares, problem, work, a, open);
    let mut best = 0u32;
    for _ in 0..most {
        if let Some(s) = next_best(&shares, open & !best) {
            best |= bit(s);
        }
    }
    best
}

// The candidates and the weight of each step, where `open` are not assigned.
fn find_shares(
    shares: &mut [(u32, u32)],
    problem: &Problem,
    work: &mut Work,
    a: &Assign,
    open: u32,
) {
    for s in 0..problem.steps {
        let candidates = count_candidates(problem, work, a, open, s);
        if (s as usize) < shares.len() {
            shares[s as usize] = (candidates, weight_of(problem, work, open, s));
        }
    }
}

fn next_best(shares: &[(u32, u32)], left: u32) -> Option<u8> {
    let mut best = None;
    let mut least = (1u32, 0u32);
    for (at, share) in shares.iter().enumerate() {
        let s = (at & 31) as u8;
        if has_bit(left, s) && (best.is_none() || is_less(*share, least)) {
            best = Some(s);
            least = *share;
        }
    }
    best
}

fn is_less(a: (u32, u32), b: (u32, u32)) -> bool {
    (a.0 as u64).saturating_mul(b.1 as u64) < (b.0 as u64).saturating_mul(a.1 as u64)
}

fn open_steps(problem: &Problem, a: &Assign) -> u32 {
    let mut open = 0;
    for s in 0..problem.steps {
        if a.at(StepId(s)).is_none() {
            open |= bit(s);
        }
    }
    open
}

// For each open step the weights of the rules that it has with other open steps.
fn weights_of(problem: &Problem, work: &Work, open: u32) -> Cells {
    let mut weights = Cells::all(1);
    for (k, law) in problem.laws.as_slice().iter().enumerate() {
        weights.add_to(law.scope & open, work.tree_rule(k));
    }
    weights
}

// The same for one step.
fn weight_of(problem: &Problem, work: &Work, open: u32, s: u8) -> u32 {
    let mut weight = 1u32;
    for (k, law) in problem.laws.as_slice().iter().enumerate() {
        if has_bit(law.scope, s) && law.scope & open & !bit(s) != 0 {
            weight = weight.saturating_add(work.tree_rule(k));
        }
    }
    weight
}

// How many authorised users a step may be given to without falsifying a rule. The rule that leaves
// nobody is blamed.
fn count_candidates(problem: &Problem, work: &mut Work, a: &Assign, open: u32, s: u8) -> u32 {
    put(work.spare.row_mut(0), problem.allowed.row(s as usize));
    let mut left = problem.laws_of(s);
    if is_empty(work.spare.row(0)) {
        if let Some(k) = pop_law(&mut left) {
            work.blame_tried(k);
        }
        return 0;
    }
    for _ in 0..RULE_LIMIT {
        let Some(k) = pop_law(&mut left) else { break };
        let Some(law) = problem.laws.as_slice().get(k) else {
            break
        };
        if law.is_free(open | bit(s)) {
            continue;
        }
        restrict(problem, work, law, a, s);
        if is_empty(work.spare.row(0)) {
            work.blame_tried(k);
            return 0;
        }
    }
    count(work.spare.row(0))
}

/// Keeps in the spare row those whom a rule admits for a step.
pub(crate) fn restrict(problem: &Problem, work: &mut Work, law: &Law, a: &Assign, s: u8) {
    match law.demand {
        Demand::Some => restrict_some(problem, work, law, a, s),
        Demand::Each => restrict_each(problem, work, law, a, s),
        Demand::AtMost(most) => restrict_at_most(work, law, a, s, most),
        Demand::AtLeast(least) => restrict_at_least(work, law, a, s, least),
    }
}

fn restrict_each(problem: &Problem, work: &mut Work, law: &Law, a: &Assign, s: u8) {
    if law.step == s {
        restrict_last(problem, work, law, a, false);
    } else if let Some(v) = holder(a, law.step) {
        keep_ahead(problem, work, law.over.turned(), v);
    }
}

// Where the other members have as many users as there may be, one of them stays.
fn restrict_at_most(work: &mut Work, law: &Law, a: &Assign, s: u8, most: u32) {
    find_users(work, a, law.group & !bit(s));
    let users = count(work.taken.row(0));
    if users > most {
        clear(work.spare.row_mut(0));
    } else if users == most {
        let _ = meet(work.spare.row_mut(0), work.taken.row(0));
    }
}

// Where each free member is needed for one more user, those stay who have no other member.
fn restrict_at_least(work: &mut Work, law: &Law, a: &Assign, s: u8, least: u32) {
    let others = law.group & !bit(s);
    let users = find_users(work, a, others);
    let reach = count(work.taken.row(0)).saturating_add(users);
    if reach.saturating_add(1) < least {
        clear(work.spare.row_mut(0));
    } else if reach < least {
        strike(work.spare.row_mut(0), work.taken.row(0));
    }
}

// Finds the users who have `steps`, and tells how many of these steps are free.
fn find_users(work: &mut Work, a: &Assign, steps: u32) -> u32 {
    clear(work.taken.row_mut(0));
    let mut left = steps;
    let mut free = 0u32;
    for _ in 0..32u8 {
        let Some(x) = pop(&mut left) else { break };
        match holder(a, x) {
            Some(u) => add_user(work.taken.row_mut(0), u),
            None => free = free.saturating_add(1),
        }
    }
    free
}

fn holder(a: &Assign, s: u8) -> Option<u16> {
    match a.at(StepId(s)) {
        Some(user) => Some(user.0),
        None => None,
    }
}

// Those stay to whom each user of the group is related, and who are related to themselves where the
// step is in the group; or with `some` those are collected of whom one of these is true.
fn restrict_last(problem: &Problem, work: &mut Work, law: &Law, a: &Assign, some: bool) {
    let mut group = law.group;
    for _ in 0..32u8 {
        let Some(x) = pop(&mut group) else { break };
        if x == law.step {
            if some {
                add_own(problem, work, law.over);
            } else {
                keep_own(problem, work, law.over);
            }
        } else if let Some(u) = holder(a, x) {
            if some {
                add_ahead(problem, work, law.over, u);
            } else {
                keep_ahead(problem, work, law.over, u);
            }
        }
    }
}

// Those who are related to themselves stay.
fn keep_own(problem: &Problem, work: &mut Work, over: Over) {
    match over {
        Over::Same => {}
        Over::Other => clear(work.spare.row_mut(0)),
        Over::Declared(at, back) => {
            if let Some(link) = problem.link(at, back) {
                let _ = meet(work.spare.row_mut(0), link.own.row(0));
            }
        }
    }
}

// Those to whom a user is related stay.
fn keep_ahead(problem: &Problem, work: &mut Work, over: Over, u: u16) {
    match over {
        Over::Same => keep_only(work, u),
        Over::Other => take_user(work.spare.row_mut(0), u),
        Over::Declared(at, back) => {
            if let Some(link) = problem.link(at, back) {
                let _ = meet(work.spare.row_mut(0), link.ahead(u));
            }
        }
    }
}

fn keep_only(work: &mut Work, u: u16) {
    let stays = has_user(work.spare.row(0), u);
    clear(work.spare.row_mut(0));
    if stays {
        add_user(work.spare.row_mut(0), u);
    }
}

// Some member of the group is to be related to the user of the rule's step: looked at where all its
// other steps are assigned.
fn restrict_some(problem: &Problem, work: &mut Work, law: &Law, a: &Assign, s: u8) {
    if !are_assigned(a, law.scope & !bit(s)) {
        return;
    }
    if law.step == s {
        restrict_some_last(problem, work, law, a);
        return;
    }
    let Some(v) = holder(a, law.step) else { return };
    if !some_related(problem, law, a, s, v) {
        keep_ahead(problem, work, law.over.turned(), v);
    }
}

fn are_assigned(a: &Assign, steps: u32) -> bool {
    let mut left = steps;
    for _ in 0..32u8 {
        let Some(x) = pop(&mut left) else { break };
        if holder(a, x).is_none() {
            return false;
        }
    }
    true
}

// Whether some member of the group other than a step has a user who is related to another user.
fn some_related(problem: &Problem, law: &Law, a: &Assign, s: u8, v: u16) -> bool {
    let mut group = law.group & !bit(s);
    for _ in 0..32u8 {
        let Some(x) = pop(&mut group) else { break };
        if let Some(u) = holder(a, x) {
            if are_related(problem, law.over, u, v) {
                return true;
            }
        }
    }
    false
}

fn are_related(problem: &Problem, over: Over, u: u16, v: u16) -> bool {
    match over {
        Over::Same => u == v,
        Over::Other => u != v,
        Over::Declared(at, back) => match problem.link(at, back) {
            Some(link) => has_user(link.ahead(u), v),
            None => true,
        },
    }
}

// Those stay to whom some user of the group is related, or who are related to themselves where the
// step is in the group.
fn restrict_some_last(problem: &Problem, work: &mut Work, law: &Law, a: &Assign) {
    clear(work.taken.row_mut(0));
    restrict_last(problem, work, law, a, true);
    let _ = meet(work.spare.row_mut(0), work.taken.row(0));
}

fn add_own(problem: &Problem, work: &mut Work, over: Over) {
    match over {
        Over::Same => join(work.taken.row_mut(0), work.spare.row(0)),
        Over::Other => {}
        Over::Declared(at, back) => {
            if let Some(link) = problem.link(at, back) {
                join(work.taken.row_mut(0), link.own.row(0));
            }
        }
    }
}

fn add_ahead(problem: &Problem, work: &mut Work, over: Over, u: u16) {
    match over {
        Over::Same => add_user(work.taken.row_mut(0), u),
        Over::Other => {
            let known = has_user(work.taken.row(0), u);
            join(work.taken.row_mut(0), work.spare.row(0));
            if !known {
                take_user(work.taken.row_mut(0), u);
            }
        }
        Over::Declared(at, back) => {
            if let Some(link) = problem.link(at, back) {
                join(work.taken.row_mut(0), link.ahead(u));
            }
        }
    }
}
