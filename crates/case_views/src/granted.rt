//! Which steps of cases a user would be granted, for cases that come later and stand alike.
ghost use Rattle.std.specs.Prelude.{ℕ, IfSome};
ghost use Rattle.policy_book.specs.Laws.Shapes.{PolicyShape};
ghost use Rattle.case_views.specs.Granting.{TellsSteps, TellsWork};

use crate::seen::{REMEMBERED, mark_of, stands_alike};
use case_record::Case;
use constraint_forms::StepSet;
use std::alloc::Global;

/// A case, and the steps of it that a user would be granted.
#[derive(Clone, Copy)]
struct WorkOf {
    mark: u32,
    case: Case,
    steps: StepSet,
}

/// Cases, each with the steps of it that one user would be granted under one policy.
#[derive(Drop)]
pub(crate) struct Work {
    told: Vec<WorkOf>,
}

impl Work {
    /// Nothing was found yet.
    pub(crate) fn nothing(alloc: Global) -> Work
        ensures { (p : PolicyShape) → (u : ℕ) → TellsWork p u result }
    {
        Work {
            told: Vec::new(alloc),
        }
    }

    /// The steps of a case, where they were found of one that stands alike.
    pub(crate) fn steps(&self, case: &Case) -> Option<StepSet>
        ensures { (p : PolicyShape) → (u : ℕ) → TellsWork p u self.now
            → IfSome result (TellsSteps p u case.now) }
    {
        let mark = mark_of(case);
        'told: for i in 0..self.told.len() {
            let told = &self.told[i];
            if told.mark == mark && stands_alike(&told.case, case) {
                return Some(told.steps);
            }
        }
        None
    }

    /// Remembers the steps of a case, in the place of another where there are many. Where there is
    /// no memory for it, they are not remembered.
    pub(crate) fn keep(&mut self, case: &Case, steps: StepSet)
        ensures { (p : PolicyShape) → (u : ℕ) → TellsWork p u self.old
            → TellsSteps p u case.now steps → TellsWork p u self.new }
    {
        let told = WorkOf {
            mark: mark_of(case),
            case: *case,
            steps,
        };
        if self.told.len() < REMEMBERED {
            let _ = self.told.push(told);
        } else {
            self.told[told.mark as usize % REMEMBERED] = told;
        }
    }
}
