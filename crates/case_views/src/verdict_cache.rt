//! Plans and trees that were found for claims and openings, kept for when the same is asked again.

use basics::Shared;
use constraint_forms::{Assign, Plan, StepSet};
use indexmap::IndexMap;
use refutation_tree::Tree;
use std::alloc::{AllocError, Global};
use std::hint::spin_loop;
use std::sync::{Mutex, MutexGuard};
use wf_names::FlowId;

/// How many plans and trees are kept at most.
const VERDICTS: usize = 1_024;

/// How many leaves and nodes the trees have together at most; each takes about 50 bytes.
const NODES: u64 = 524_288;

/// How often the lock is tried: whoever has it gives it back in some microseconds, or later where
/// one large tree takes the place of many.
const TRIES: u16 = 1_000;

/// What a plan or a tree is about: a case of a workflow, by what is assigned in it and what is
/// finished.
#[derive(Clone, Copy, PartialEq, Eq, Hash)]
pub(crate) struct Subject {
    pub(crate) flow: FlowId,
    pub(crate) assigned: Assign,
    pub(crate) finished: StepSet,
}

/// What was found by a search.
#[derive(Drop)]
pub(crate) enum Found {
    Plan(Plan),
    Tree(Shared<Tree>),
}

/// Plans and trees that were found for claims and openings: the last ones, at most 1,024, the trees
/// with 524,288 leaves and nodes together. Threads may share it. Each has to be checked where it is
/// used, since the policy may have changed; so nothing is promised of what is kept.
#[derive(Drop)]
pub struct VerdictCache {
    verdicts: Mutex<Verdicts>,
}

impl VerdictCache {
    /// A cache with nothing in it.
    pub fn new(alloc: Global) -> VerdictCache {
        VerdictCache {
            verdicts: Mutex::new(Verdicts {
                kept: IndexMap::new(alloc),
                nodes: 0,
            }),
        }
    }

    /// The plan that is kept for a subject, if there is one.
    pub(crate) fn plan(&self, subject: &Subject) -> Option<Plan> {
        let verdicts = self.enter()?;
        match &verdicts.kept.get(subject)?.found {
            Found::Plan(plan) => Some(*plan),
            Found::Tree(_) => None,
        }
    }

    /// The tree that is kept for a subject, if there is one.
    pub(crate) fn tree(&self, subject: &Subject) -> Option<Shared<Tree>> {
        let verdicts = self.enter()?;
        match &verdicts.kept.get(subject)?.found {
            Found::Plan(_) => None,
            Found::Tree(tree) => tree.share().ok(),
        }
    }

    /// Keeps a plan or a tree, in the place of what is kept for the same subject. The oldest go
    /// where there is no room beside them. Without memory it is not kept.
    pub(crate) fn put(&self, alloc: Global, subject: &Subject, found: Found) {
        let _ = self.try_put(alloc, subject, found);
    }

    fn try_put(&self, alloc: Global, subject: &Subject, found: Found) -> Result<(), AllocError> {
        let nodes = nodes_of(&found);
        if nodes > NODES {
            return Ok(());
        }
        let new = Kept { found, nodes };
        // what goes is let go once others may enter again
        let _gone = match self.enter() {
            Some(mut verdicts) => verdicts.add(alloc, *subject, new)?,
            None => return Ok(()),
        };
        Ok(())
    }

    // The verdicts, for one thread alone; none where others are at them all the time.
    fn enter(&self) -> Option<MutexGuard<'_, Verdicts>> {
        'tries: for _ in 0..TRIES {
            if let Some(verdicts) = self.verdicts.try_lock() {
                return Some(verdicts);
            }
            spin_loop();
        }
        None
    }
}

// How many leaves and nodes a tree has; none where it is a plan.
fn nodes_of(found: &Found) -> u64 {
    match found {
        Found::Plan(_) => 0,
        Found::Tree(tree) => tree.get().nodes(),
    }
}

// What is kept, and how many leaves and nodes it has together.
#[derive(Drop)]
struct Verdicts {
    kept: IndexMap<Subject, Kept>,
    nodes: u64,
}

#[derive(Drop)]
struct Kept {
    found: Found,
    nodes: u64,
}

impl Verdicts {
    // Adds what was found, and answers what went for it.
    fn add(&mut self, alloc: Global, subject: Subject, new: Kept) -> Result<Vec<Kept>, AllocError> {
        let mut gone = Vec::new(alloc);
        if let Some(old) = self.kept.shift_remove(&subject) {
            self.let_go(old, &mut gone)?;
        }
        'kept: for _ in 0..VERDICTS {
            if self.kept.len() < VERDICTS && self.nodes.saturating_add(new.nodes) <= NODES {
                break;
            }
            if let Some((_, old)) = self.kept.shift_remove_index(0) {
                self.let_go(old, &mut gone)?;
            }
        }
        let nodes = new.nodes;
        if self.kept.insert(subject, new).is_ok() {
            self.nodes = self.nodes.saturating_add(nodes);
        }
        Ok(gone)
    }

    fn let_go(&mut self, old: Kept, gone: &mut Vec<Kept>) -> Result<(), AllocError> {
        self.nodes = self.nodes.saturating_sub(old.nodes);
        gone.push(old)?;
        Ok(())
    }
}
