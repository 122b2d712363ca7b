//! The relations of a trial.
ghost use Rattle.std.specs.Prelude.{◌≡◌, ◌≤◌, ◌<◌, ◌+◌, ◌∷◌, [], ◌++◌, length, is_some, false};
ghost use Rattle.std.specs.Prelude.{if◌then◌else◌, IfOk, OnOk};
ghost use Rattle.std.specs.FinSet as set;
ghost use Rattle.wf_names.specs.declared.limits.TheConstants.{PAIR_LIMIT, RELATION_LIMIT};
ghost use Rattle.wf_names.specs.declared.limits.TheConstants.{USER_LIMIT};
ghost use Rattle.wf_names.specs.Table.{place_of};
ghost use Rattle.basics.specs.Laws.Pairs.{AllPairs};
ghost use Rattle.user_relations.specs.Laws.Relations.{known_names, listed};
ghost use Rattle.trial_command.specs.Policy.{are_peers, peers, trial_relations};

use crate::named::named;
use crate::people::USERS;
use std::alloc::{AllocError, Global};
use user_relations::{Relations, UserPairs};
use wf_names::{Name, NameFault, RelId, UserId};

/// The relation of users of different teams, and of a user to themselves.
pub(crate) const APART: RelId = RelId(2);
/// The relation of different users of one team.
pub(crate) const PEER: RelId = RelId(3);
/// How many users a team has.
const TEAM: u16 = 6;

/// The relations.
#[tactic(auto, using(crate::proofs::Peers::both), unfolding(crate::specs::Policy::trial_relations))]
pub(crate) fn relations_of(alloc: Global) -> Result<Relations, AllocError>
    ensures { IfOk result (λ r. r ≡ trial_relations) }
{
    let mut relations = Relations::new(alloc)?;
    declare(&mut relations, named("apart"), UserPairs::new(alloc)?)?;
    declare(&mut relations, named("peer"), peers(alloc)?)?;
    relations.make_complement(APART, PEER);
    Ok(relations)
}

// Declares a listed relation of a new name, where there is room.
fn declare(relations: &mut Relations, name: Name, pairs: UserPairs) -> Result<(), AllocError>
    requires few { set.len pairs ≤ PAIR_LIMIT }
    requires users { AllPairs (λ u v. (u < USER_LIMIT) × (v < USER_LIMIT)) pairs }
    requires fresh { is_some (place_of (known_names relations.old) name) ≡ false }
    requires room { length relations.old < RELATION_LIMIT }
    ensures { OnOk result (relations.new ≡ relations.old ++
        (record { name = name; kind = listed pairs }) ∷ []) }
{
    match relations.add_pairs(name, pairs) {
        Ok(_) => Ok(()),
        Err(NameFault::NoMemory) => Err(AllocError),
        Err(_) => unreachable!(),
    }
}

// The pairs of different users of one team.
#[tactic(auto, using(crate::proofs::Peers::all_pairs))]
fn peers(alloc: Global) -> Result<UserPairs, AllocError>
    ensures { IfOk result (λ s. s ≡ peers) }
{
    let mut pairs = UserPairs::new(alloc)?;
    'pairs: for n in 0..USERS * USERS {
        add_peers(&mut pairs, n / USERS, n % USERS)?;
    }
    Ok(pairs)
}

// Puts in a pair of users, if they are different ones of one team.
fn add_peers(pairs: &mut UserPairs, i: u16, j: u16) -> Result<(), AllocError>
    requires users { (i < USER_LIMIT) × (j < USER_LIMIT) }
    ensures { OnOk result (pairs.new ≡ (if are_peers i j then set.insert pairs.old (i, j) else
        pairs.old)) }
{
    if i != j && i / TEAM == j / TEAM {
        pairs.insert(UserId(i), UserId(j))?;
    }
    Ok(())
}
