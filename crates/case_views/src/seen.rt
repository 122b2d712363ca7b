//! What was found of cases, for those that come later and stand alike.
ghost use Rattle.std.specs.Prelude.{◌≡◌, true, IfSome};
ghost use Rattle.wf_names.specs.declared.states.StepState.TheVariants.{Finished, Held};
ghost use Rattle.policy_book.specs.Laws.Shapes.{PolicyShape};
ghost use Rattle.case_views.specs.Seeing.{IsTold, TellsRight};

use case_record::Case;
use constraint_forms::Plan;
use std::alloc::Global;
use wf_names::{StepState, UserId};

/// How many cases are remembered at most.
pub(crate) const REMEMBERED: usize = 32;

/// A factor that spreads the marks of cases.
const SPREAD: u32 = 0x9e37_79b1;

/// A case, and whether it can be completed. Cases that stand alike have the same mark.
#[derive(Clone, Copy)]
struct Told {
    mark: u32,
    case: Case,
    completable: bool,
}

/// Whether some cases can be completed under one policy, and the plan that was found last.
#[derive(Drop)]
pub(crate) struct Seen {
    told: Vec<Told>,
    pub(crate) recent: Option<Plan>,
}

impl Seen {
    /// Nothing was found yet.
    pub(crate) fn nothing(alloc: Global) -> Seen
        ensures { (p : PolicyShape) → TellsRight p result }
    {
        Seen {
            told: Vec::new(alloc),
            recent: None,
        }
    }

    /// Whether a case can be completed, where that was found of one that stands alike.
    pub(crate) fn completable(&self, case: &Case) -> Option<bool>
        ensures { (p : PolicyShape) → TellsRight p self.now → IfSome result (IsTold p case.now) }
    {
        let mark = mark_of(case);
        'told: for i in 0..self.told.len() {
            let told = &self.told[i];
            if told.mark == mark && stands_alike(&told.case, case) {
                return Some(told.completable);
            }
        }
        None
    }

    /// Remembers whether a case can be completed, in the place of another where there are many.
    /// Where there is no memory for it, it is not remembered.
    pub(crate) fn keep(&mut self, case: &Case, completable: bool)
        ensures { (p : PolicyShape) → TellsRight p self.old → IsTold p case.now completable
            → TellsRight p self.new }
    {
        let told = Told {
            mark: mark_of(case),
            case: *case,
            completable,
        };
        if self.told.len() < REMEMBERED {
            let _ = self.told.push(told);
        } else {
            self.told[told.mark as usize % REMEMBERED] = told;
        }
    }
}

/// A number that is the same for cases that stand alike, and mostly another for others.
pub(crate) fn mark_of(case: &Case) -> u32 {
    let mut mark = 0u32;
    for state in case.states() {
        mark = (mark ^ number_of(*state)).wrapping_mul(SPREAD);
    }
    mark
}

fn number_of(state: StepState) -> u32 {
    match state {
        StepState::Free => 1,
        StepState::Held(user) => user.0 as u32 * 2 + 2,
        StepState::Finished(user) => user.0 as u32 * 2 + 3,
    }
}

/// Whether two cases are of one workflow and stand alike.
pub(crate) fn stands_alike(a: &Case, b: &Case) -> bool
    ensures { result ≡ true → a.now ≡ b.now }
{
    a.flow() == b.flow() && a.phase() == b.phase() && are_alike(a.states(), b.states())
}

fn are_alike(xs: &[StepState], ys: &[StepState]) -> bool
    ensures { result ≡ true → xs.now ≡ ys.now }
{
    if xs.len() != ys.len() {
        return false;
    }
    'states: for i in 0..xs.len() {
        if !is_same(xs[i], ys[i]) {
            return false;
        }
    }
    true
}

fn is_same(x: StepState, y: StepState) -> bool
    ensures { result ≡ true → x ≡ y }
{
    match x {
        StepState::Free => matches!(y, StepState::Free),
        StepState::Held(user) => is_held_by(y, user),
        StepState::Finished(user) => is_finished_by(y, user),
    }
}

fn is_held_by(state: StepState, user: UserId) -> bool
    ensures { result ≡ true → state ≡ Held user }
{
    match state {
        StepState::Held(other) => other == user,
        _ => false,
    }
}

fn is_finished_by(state: StepState, user: UserId) -> bool
    ensures { result ≡ true → state ≡ Finished user }
{
    match state {
        StepState::Finished(other) => other == user,
        _ => false,
    }
}
