//! Verdicts on whether cases can be completed, and what a board answers with one.
ghost use Rattle.std.specs.Prelude.{◌≡◌};
ghost use Rattle.wf_board.specs.Limits.{is_large};
ghost use Rattle.wf_board.specs.Verdicts.{is_unusable, is_want};

use crate::{Deed, Edition, TREE_LIMIT};
use basics::Shared;
use constraint_forms::Plan;
use refutation_tree::Tree;
use wf_names::CaseId;
use wf_talk::{CaseList, Reply, WorkList};

/// What a view over the open cases lists.
#[derive(Drop)]
pub enum View {
    /// The steps that would be granted to the user.
    Work(WorkList),
    /// The cases that the edit would strand.
    WhatIf(CaseList),
}

/// Whether what is asked leaves its case a valid plan, or each open case where it is an edit; or
/// the view that is asked for.
#[derive(Drop)]
pub enum Verdict {
    /// An earlier check decides, or no plan is needed.
    Nothing,
    /// By this plan.
    Plan(Plan),
    /// It does not, as the tree shows.
    Refuted(Shared<Tree>),
    /// The edit leaves each open case a plan: the policy after it, with these plans.
    Edited(Edition),
    /// The edit leaves this open case, and none before it, without one, as the tree shows.
    Strands(CaseId, Shared<Tree>),
    /// What is to be seen of the open cases.
    View(View),
    /// There was no memory to find out.
    NoMemory,
    /// The search would keep more than its budget.
    OverBudget,
}

impl Verdict {
    /// Whether it was not found out: there was no memory, or the search is over its budget.
    pub fn is_want(&self) -> bool
        ensures { result ≡ is_want self.now }
    {
        matches!(self, Verdict::NoMemory | Verdict::OverBudget)
    }

    /// Whether no reply can be made of it: it was not found out, or its tree is too large for an
    /// entry.
    pub fn is_unusable(&self) -> bool
        ensures { result ≡ is_unusable self.now }
    {
        match self {
            Verdict::Refuted(tree) | Verdict::Strands(_, tree) => is_large(tree.get()),
            Verdict::NoMemory | Verdict::OverBudget => true,
            Verdict::Nothing | Verdict::Plan(_) | Verdict::Edited(_) | Verdict::View(_) => false,
        }
    }
}

// Whether a tree has more leaves and nodes than an entry shows.
fn is_large(tree: &Tree) -> bool
    ensures { result ≡ is_large tree.now }
{
    tree.nodes() > TREE_LIMIT as u64
}

/// What a board answers.
#[derive(Drop)]
pub enum Answered {
    /// The reply; the step is taken.
    Done(Reply),
    /// Nothing yet: a verdict is needed.
    Needs,
}

/// What came of a request that was looked at with no verdict.
#[derive(Drop)]
pub enum Stepped {
    /// The reply; the step is taken.
    Done(Reply),
    /// Nothing yet: a verdict is needed on this deed.
    Undecided(Deed),
}
