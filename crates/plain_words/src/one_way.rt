//! A pair that is probably meant to stand both ways.

use crate::lists::{name_of, text_of};
use crate::rules::relation_name;
use crate::texts::say;
use policy_book::Policy;
use std::alloc::{AllocError, Global};
use wf_names::{RelId, UserId};

/// Adds a line for the first pair that stands in a listed relation one way only, where another pair
/// of it stands both ways, or the relation has a complement.
pub(crate) fn push_one_way(
    out: &mut String,
    front: &str,
    p: &Policy,
    rho: RelId,
) -> Result<(), AllocError> {
    let pairs = p.relations().pairs(rho)?;
    match lone_pair(p, rho, pairs.as_slice()) {
        Some((u, v)) => push_pair(out, front, p, rho, u, v),
        None => Ok(()),
    }
}

fn lone_pair(p: &Policy, rho: RelId, pairs: &[(u16, u16)]) -> Option<(u16, u16)> {
    let mut both = has_complement(p, rho);
    let mut lone = None;
    for (u, v) in pairs {
        if p.relations().holds(rho, UserId(*v), UserId(*u)) {
            both = both || u != v;
        } else if lone.is_none() {
            lone = Some((*u, *v));
        }
    }
    if both { lone } else { None }
}

// Whether some relation is the complement of `rho`.
fn has_complement(p: &Policy, rho: RelId) -> bool {
    for sigma in 2..(p.relations().count() as u16 + 2).min(256) {
        if p.relations().complement_of(RelId(sigma as u8)) == Some(rho) {
            return true;
        }
    }
    false
}

fn push_pair(
    out: &mut String,
    front: &str,
    p: &Policy,
    rho: RelId,
    u: u16,
    v: u16,
) -> Result<(), AllocError> {
    let name = relation_name(p, rho);
    let users = p.roster().users();
    let (first, second) = (name_of(users, u), name_of(users, v));
    let (name, x, y) = (text_of(&name), text_of(&first), text_of(&second));
    let (has, lacks, to) = (": it has ", " and not ", " to ");
    say(
        out,
        &[
            front,
            "relation ",
            name,
            has,
            x,
            to,
            y,
            lacks,
            y,
            to,
            x,
            "\n",
        ],
    )
}
