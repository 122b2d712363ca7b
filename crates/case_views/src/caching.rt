//! A decider that keeps the plans and trees that it finds.
ghost use Rattle.std.specs.Prelude.{◌≡◌, IfSome, Ok};
ghost use Rattle.wf_board.specs.Boards.{book_of};
ghost use Rattle.wf_board.specs.Deeds.{DecidesDeed};
ghost use Rattle.wf_board.specs.Laws.Found.{IsFound};
ghost use Rattle.wf_board.specs.Laws.Kept.{ArePlanned};
ghost use Rattle.wf_board.specs.Verdicts.{IsPlanFor};

use crate::verdict_cache::{Found, Subject, VerdictCache};
use constraint_forms::{Assign, Plan, StepSet};
use grant_table::Cases;
use policy_book::Policy;
use refutation_tree::Tree;
use std::alloc::Global;
use wf_board::{Decider, Deed, Verdict, decides};
use wf_names::STEP_LIMIT;

/// Finds the verdicts of another decider, and keeps the plans and trees that it finds for claims
/// and openings in a cache. A plan that is kept and valid is at hand, as one that the other finds
/// with no search. Where none is and a tree that is kept refutes, it is the verdict, and nothing is
/// searched.
pub struct CachingDecider<'a, V> {
    decider: &'a V,
    cache: &'a VerdictCache,
}

impl<'a, V> CachingDecider<'a, V> {
    /// A decider that asks another one where the cache has nothing that decides.
    pub fn new(decider: &'a V, cache: &'a VerdictCache) -> CachingDecider<'a, V>
        ensures { result.decider.now ≡ decider.now }
    {
        CachingDecider { decider, cache }
    }
}

impl<V> Drop for CachingDecider<'_, V> {
    fn drop(self) {
        let CachingDecider {
            decider: _,
            cache: _,
        } = self;
    }
}

impl<V: Decider> Decider for CachingDecider<'_, V> {
    ghost ready = { λ d. V.ready d.decider.now };

    fn decide_deed(&self, alloc: Global, p: &Policy, cases: &Cases, deed: &Deed) -> Verdict {
        if let Some(plan) = self.decide_near(p, cases, deed) {
            return Verdict::Plan(plan);
        }
        if let Some(verdict) = known_tree(self.cache, p, cases, deed) {
            return verdict;
        }
        let verdict = self.decider.decide_deed(alloc, p, cases, deed);
        keep(alloc, self.cache, deed, &verdict);
        verdict
    }

    fn decide_near(&self, p: &Policy, cases: &Cases, deed: &Deed) -> Option<Plan> {
        match self.decider.decide_near(p, cases, deed) {
            Some(plan) => Some(plan),
            None => known_plan(self.cache, p, cases, deed),
        }
    }
}

// The plan that is kept for a deed, if there is one that is valid.
fn known_plan(cache: &VerdictCache, p: &Policy, cases: &Cases, deed: &Deed) -> Option<Plan>
    requires planned { ArePlanned p.now cases.now.rows }
    requires found { IsFound p.now cases.now.rows deed.now }
    ensures { IfSome result (IsPlanFor (book_of p.now cases.now) (Ok deed.now)) }
{
    let plan = cache.plan(&subject_of(deed)?)?;
    if decides(p, cases, deed, &Verdict::Plan(plan)) {
        Some(plan)
    } else {
        None
    }
}

// The tree that is kept for a deed, if there is one that refutes, as a verdict.
fn known_tree(cache: &VerdictCache, p: &Policy, cases: &Cases, deed: &Deed) -> Option<Verdict>
    requires planned { ArePlanned p.now cases.now.rows }
    requires found { IsFound p.now cases.now.rows deed.now }
    ensures { IfSome result (DecidesDeed (book_of p.now cases.now) deed.now) }
{
    let verdict = Verdict::Refuted(cache.tree(&subject_of(deed)?)?);
    if decides(p, cases, deed, &verdict) {
        Some(verdict)
    } else {
        None
    }
}

// Keeps what was found for a deed.
fn keep(alloc: Global, cache: &VerdictCache, deed: &Deed, verdict: &Verdict) {
    if let (Some(found), Some(subject)) = (found_by_search(verdict), subject_of(deed)) {
        cache.put(alloc, &subject, found);
    }
}

// The plan or the tree of a verdict; none where the tree is a leaf, which is found with no search.
fn found_by_search(verdict: &Verdict) -> Option<Found> {
    match verdict {
        Verdict::Plan(plan) => Some(Found::Plan(*plan)),
        Verdict::Refuted(tree) if matches!(tree.get(), Tree::Step(..)) => {
            Some(Found::Tree(tree.share().ok()?))
        }
        _ => None,
    }
}

// What a plan or a tree for a deed is about; none where neither may be its verdict.
fn subject_of(deed: &Deed) -> Option<Subject> {
    match deed {
        Deed::Open { flow } => Some(Subject {
            flow: *flow,
            assigned: Assign::empty(),
            finished: StepSet::empty(),
        }),
        Deed::Claim(duty) if (duty.step.0 as usize) < STEP_LIMIT => Some(Subject {
            flow: duty.case.flow(),
            assigned: duty.case.assigned().with(duty.step, duty.user),
            finished: duty.case.finished(),
        }),
        _ => None,
    }
}
