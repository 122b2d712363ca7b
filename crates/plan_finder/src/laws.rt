//! What the rules leave, once blocks have changed.

use crate::bits::{bit, has_bit, pop, pop_law};
use crate::links::{
    Changed, Settling, keep_options, keep_reached, keep_step, make_other, make_same,
};
use crate::matching::{can_match, can_reach};
use crate::problem::{Demand, Law, Link, Over, Problem};
use crate::rows::{clear, has_user, is_empty, join, only_user, take_user};
use crate::state::State;
use crate::work::Work;
use wf_names::RULE_LIMIT;

/// How often blocks are looked at again after one step of the search, at most.
const PASSES: u32 = 4_096;

/// Follows the change of the blocks `changed` to what the rules leave. Tells whether everything can
/// still be met.
pub(crate) fn settle(problem: &Problem, state: &mut State, work: &mut Work, changed: u32) -> bool {
    let mut settling = Settling {
        problem,
        state,
        work,
        changed: Changed {
            blocks: changed,
            now: 0,
        },
    };
    settling.settle()
}

impl Settling<'_> {
    fn settle(&mut self) -> bool {
        for _ in 0..PASSES {
            let Some(b) = pop(&mut self.changed.blocks) else {
                break
            };
            self.changed.now = bit(b);
            if !self.settle_block(b) {
                return false;
            }
        }
        self.state.refresh(self.problem, self.work) && can_match(self.state) && self.can_reach_all()
    }

    // Whether each rule that wants a number of users at least can have them.
    fn can_reach_all(&mut self) -> bool {
        for (k, law) in self.problem.laws.as_slice().iter().enumerate() {
            if let Demand::AtLeast(least) = law.demand {
                if !can_reach(self.state, law.group, least) {
                    self.work.blame(k);
                    return false;
                }
            }
        }
        true
    }

    fn settle_block(&mut self, b: u8) -> bool {
        if is_empty(self.state.block(b)) {
            return false;
        }
        if let Some(user) = only_user(self.state.block(b)) {
            if !leave_others(self.state, b, user, &mut self.changed) {
                return false;
            }
        }
        let mut laws = self.problem.laws_of_some(self.state.members.at(b));
        for _ in 0..RULE_LIMIT {
            let Some(k) = pop_law(&mut laws) else { break };
            let Some(law) = self.problem.laws.as_slice().get(k) else {
                break
            };
            if !self.follow(law) {
                self.work.blame(k);
                return false;
            }
        }
        true
    }

    // What one rule leaves.
    fn follow(&mut self, law: &Law) -> bool {
        match law.demand {
            Demand::Each => self.follow_each(law),
            Demand::Some => self.follow_some(law),
            Demand::AtMost(most) => follow_at_most(self.state, law, most),
            Demand::AtLeast(least) => follow_at_least(self.state, law, least),
        }
    }

    // Some member of the group is to be related to the step.
    fn follow_some(&mut self, law: &Law) -> bool {
        match law.over {
            Over::Same => follow_some_plain(self.state, law, true),
            Over::Other => follow_some_plain(self.state, law, false),
            Over::Declared(at, back) => match self.problem.link(at, back) {
                Some(link) => self.follow_some_related(link, law),
                None => true,
            },
        }
    }

    // Each member of the group is to be related to the step.
    fn follow_each(&mut self, law: &Law) -> bool {
        let mut group = law.group;
        for _ in 0..32u8 {
            let Some(x) = pop(&mut group) else { break };
            let met = match law.over {
                Over::Same => make_same(self.state, x, law.step),
                Over::Other => make_other(self.state, x, law.step),
                Over::Declared(at, back) => match self.problem.link(at, back) {
                    Some(link) => self.make_related(link, x, law.step),
                    None => true,
                },
            };
            if !met {
                return false;
            }
        }
        true
    }

    // Some member of the group is to be related to the step: looked at where no other step is open.
    fn follow_some_related(&mut self, link: Link<'_>, law: &Law) -> bool {
        let mut group = law.group & !bit(law.step);
        if group & self.state.open != 0 {
            return true;
        }
        clear(self.work.spare.row_mut(0));
        if has_bit(law.group, law.step) {
            join(self.work.spare.row_mut(0), link.own.row(0));
        }
        for _ in 0..32u8 {
            let Some(x) = pop(&mut group) else { break };
            self.add_ahead(link, x, law.step);
        }
        if self.state.is_open(law.step) {
            keep_step(self.state, self.work, law.step)
        } else {
            keep_reached(self.state, self.work, law.step, &mut self.changed)
        }
    }
}

// The one user of a block leaves all others. Tells whether each keeps somebody.
fn leave_others(state: &mut State, b: u8, user: u16, changed: &mut Changed) -> bool {
    for c in 0..state.blocks {
        if c != b && has_user(state.block(c), user) {
            take_user(state.block_mut(c), user);
            changed.blocks |= bit(c);
            if is_empty(state.block(c)) {
                return false;
            }
        }
    }
    true
}

// Where the closed members have as many users as there may be, the open ones have one of them.
fn follow_at_most(state: &mut State, law: &Law, most: u32) -> bool {
    let homes = homes_of(state, law.group & !state.open);
    let count = homes.count_ones();
    count <= most && (count < most || keep_options_of(state, law.group & state.open, homes))
}

// Where each open member is needed for one more user, none has a user of the closed ones.
fn follow_at_least(state: &mut State, law: &Law, least: u32) -> bool {
    let open = law.group & state.open;
    let homes = homes_of(state, law.group & !state.open);
    let count = homes.count_ones().saturating_add(open.count_ones());
    count >= least && (count > least || keep_options_of(state, open, !homes))
}

// Keeps of the options of open steps those in a set, and tells whether each keeps one.
fn keep_options_of(state: &mut State, steps: u32, set: u32) -> bool {
    let mut left = steps;
    for _ in 0..32u8 {
        let Some(t) = pop(&mut left) else { break };
        if !keep_options(state, t, set) {
            return false;
        }
    }
    true
}

// Some member of the group is to have the step's user, or another one: looked at where at most one
// step is open.
fn follow_some_plain(state: &mut State, law: &Law, same: bool) -> bool {
    let mut open = law.scope & state.open;
    let Some(t) = pop(&mut open) else {
        return some_member(state, law, law.group, same);
    };
    if open != 0 {
        return true;
    }
    if t == law.step {
        return follow_some_step(state, law, same);
    }
    if some_member(state, law, law.group & !bit(t), same) {
        return true;
    }
    let home = bit(state.home(law.step));
    keep_options(state, t, if same { home } else { !home })
}

// The same where the step itself is open.
fn follow_some_step(state: &mut State, law: &Law, same: bool) -> bool {
    let homes = homes_of(state, law.group & !bit(law.step));
    if same {
        return has_bit(law.group, law.step) || keep_options(state, law.step, homes);
    }
    homes & homes.wrapping_sub(1) != 0 || keep_options(state, law.step, !homes)
}

// The blocks of those of `steps` that are not open.
fn homes_of(state: &State, steps: u32) -> u32 {
    let mut left = steps;
    let mut homes = 0;
    for _ in 0..32u8 {
        let Some(x) = pop(&mut left) else { break };
        homes |= bit(state.home(x));
    }
    homes
}

// Whether some of the steps, none of them open, has the user of the law's step, or another one.
fn some_member(state: &State, law: &Law, steps: u32, same: bool) -> bool {
    let home = bit(state.home(law.step));
    let homes = homes_of(state, steps);
    if same {
        homes & home != 0
    } else {
        homes & !home != 0
    }
}
