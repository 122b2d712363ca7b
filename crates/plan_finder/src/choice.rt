//! Where the search branches next.

use crate::bits::{Cells, pop_law};
use crate::problem::Problem;
use crate::rows::{count, has_one};
use crate::state::State;
use crate::work::Work;
use wf_names::RULE_LIMIT;

/// What a node of the search branches over.
#[derive(Clone, Copy, PartialEq, Eq)]
pub(crate) enum Choice {
    /// The blocks that an open step may join.
    Step(u8),
    /// The users who may stand for a block.
    Block(u8),
    /// Nothing: each step stands in a block, and users may be given.
    Nothing,
}

// A share: how many branches there are for a weight.
#[derive(Clone, Copy)]
struct Share {
    branches: u32,
    weight: u32,
}

/// An open step or a block, chosen by its branches and the weight of what is to be decided there.
pub(crate) fn choose(problem: &Problem, state: &State, work: &Work) -> Choice {
    let mut choice = Choice::Nothing;
    let mut least = Share {
        branches: 1,
        weight: 0,
    };
    let weights = weights_of_steps(problem, state, work);
    for s in 0..problem.steps {
        if state.is_open(s) {
            let share = Share {
                branches: state.options.at(s).count_ones(),
                weight: weights.at(s),
            };
            if choice == Choice::Nothing || is_less(share, least) {
                choice = Choice::Step(s);
                least = share;
            }
        }
    }
    for b in 0..state.blocks {
        if has_one(state.block(b)) {
            continue;
        }
        let share = share_of_block(problem, state, work, b);
        if share.branches > 1
            && share.weight > 0
            && (choice == Choice::Nothing || is_less(share, least))
        {
            choice = Choice::Block(b);
            least = share;
        }
    }
    choice
}

fn is_less(a: Share, b: Share) -> bool {
    (a.branches as u64).saturating_mul(b.weight as u64)
        < (b.branches as u64).saturating_mul(a.weight as u64)
}

// The weight of each open step: its own, and those of the rules that it has with other open steps.
fn weights_of_steps(problem: &Problem, state: &State, work: &Work) -> Cells {
    let mut weights = work.steps;
    for (k, law) in problem.laws.as_slice().iter().enumerate() {
        weights.add_to(law.scope & state.open, work.rule(k));
    }
    weights
}

// The users of a block, and the weights of its rules over declared relations.
fn share_of_block(problem: &Problem, state: &State, work: &Work, b: u8) -> Share {
    let mut weight = 0u32;
    let mut laws = problem.related_laws(state.members.at(b));
    for _ in 0..RULE_LIMIT {
        let Some(k) = pop_law(&mut laws) else { break };
        weight = weight.saturating_add(work.rule(k));
    }
    Share {
        branches: count(state.block(b)),
        weight,
    }
}
