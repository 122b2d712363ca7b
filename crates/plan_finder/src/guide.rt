//! How far a search for a tree may go, where it begins, and how large its trees seem to become.

use crate::bits::{Cells, bit, pop};
use wf_names::STEP_LIMIT;

/// The most tries of the first run; those of later ones are twice as many.
const FIRST_LIMIT: u32 = 1_000;

/// The most tries of a run.
const GREATEST_LIMIT: u32 = 1 << 30;

/// After how many tries a short run of one more root ends, where its tree seems to become more than
/// `TIMES` times as large as that of another root.
const LOOK: u32 = 500;

const TIMES: u64 = 2;

/// How many roots are tried beside the one that seems best.
const FEW: u32 = 6;

/// A whole, where shares of a search are counted.
const WHOLE: u64 = 1 << 20;

/// What is counted in a run, and what is known of each step as a root.
#[derive(Drop)]
pub(crate) struct Guide {
    /// The most branches that may be kept.
    most: u32,
    /// How many branches are kept.
    kept: u32,
    run: u32,
    limit: u32,
    spent: u32,
    root: Option<u8>,
    /// How many tries a whole search from each root seems to take; 0 where nothing is known.
    sizes: Cells,
    /// The bound of the run that told it.
    bounds: Cells,
    /// The first root.
    first: Option<u8>,
    /// The steps that were roots.
    seen: u32,
    /// For each depth how many users are to be tried there, and how many were.
    users: Cells,
    tried: Cells,
    depth: u8,
}

impl Guide {
    /// Nothing is known yet.
    pub(crate) fn new(most: u32) -> Guide {
        Guide {
            most,
            kept: 0,
            run: 0,
            limit: FIRST_LIMIT,
            spent: 0,
            root: None,
            sizes: Cells::all(0),
            bounds: Cells::all(0),
            first: None,
            seen: 0,
            users: Cells::all(0),
            tried: Cells::all(0),
            depth: 0,
        }
    }

    /// The root of this run; None where it is free.
    pub(crate) fn root(&self) -> Option<u8> {
        self.root
    }

    /// How many branches are kept.
    pub(crate) fn kept(&self) -> u32 {
        self.kept
    }

    /// Counts one more branch that is kept.
    pub(crate) fn keep(&mut self) {
        self.kept = self.kept.saturating_add(1);
    }

    /// Of the branches that are kept now only `kept` are kept on.
    pub(crate) fn drop_to(&mut self, kept: u32) {
        self.kept = kept;
    }

    /// Whether more branches were to be kept than may be.
    pub(crate) fn is_spent(&self) -> bool {
        self.kept > self.most
    }

    /// How many tries the run had within its bound.
    pub(crate) fn tries(&self) -> u32 {
        smaller(self.spent, self.limit)
    }

    /// Begins the next run, where these are the steps that seem best as roots. Each of them is the
    /// root of a short run first; then the one whose tree seems to become smallest is.
    pub(crate) fn begin(&mut self, best: u32) {
        self.note();
        if self.run > 0 {
            self.root = if self.run <= FEW {
                self.untried(best)
            } else {
                None
            };
            if self.root.is_none() {
                self.root = self.smallest();
                self.limit = self.next_limit();
            }
        }
        self.run = self.run.saturating_add(1);
        self.spent = 0;
        self.kept = 0;
        self.depth = 0;
        self.users = Cells::all(0);
        self.tried = Cells::all(0);
    }

    // The bound of a longer run: about twice what its tree seems to take, but not much more than
    // before.
    fn next_limit(&self) -> u32 {
        let size = match self.root {
            Some(root) => self.sizes.at(root).saturating_mul(2),
            None => 0,
        };
        let least = smaller(self.limit.saturating_mul(2), GREATEST_LIMIT);
        let most = smaller(self.limit.saturating_mul(64), GREATEST_LIMIT);
        if size < least {
            least
        } else {
            smaller(size, most)
        }
    }

    /// Begins a node, where `users` users are to be tried.
    pub(crate) fn enter(&mut self, depth: u8, s: u8, users: u32) {
        if depth == 0 {
            self.root = Some(s);
            self.seen |= bit(s);
            if self.first.is_none() {
                self.first = Some(s);
            }
        }
        self.depth = depth;
        self.users.set(depth, users);
        self.tried.set(depth, 0);
    }

    /// Counts a try at a depth, and tells whether it is within the bound of the run.
    pub(crate) fn try_at(&mut self, depth: u8) -> bool {
        self.depth = depth;
        self.tried.raise(depth);
        self.spent = self.spent.saturating_add(1);
        self.spent <= self.limit && self.kept <= self.most && !self.is_hopeless()
    }

    // Whether a run that tries one more root tells already that its tree becomes too large.
    fn is_hopeless(&self) -> bool {
        if self.run < 2 || self.limit != FIRST_LIMIT || self.spent != LOOK {
            return false;
        }
        match self.size() {
            Some(size) => (size as u64) > (self.least() as u64).saturating_mul(TIMES),
            None => false,
        }
    }

    // How many tries a whole search seems to take, as far as this run tells.
    fn size(&self) -> Option<u32> {
        let whole = (self.spent as u64).saturating_mul(WHOLE);
        match whole.checked_div(self.share()) {
            Some(size) => Some(capped(size)),
            None => None,
        }
    }

    // The smallest size that is known.
    fn least(&self) -> u32 {
        let mut least = u32::MAX;
        for s in 0..STEP_LIMIT {
            let size = self.sizes.at((s & 0xff) as u8);
            if size > 0 {
                least = smaller(size, least);
            }
        }
        least
    }

    // Notes how large the tree of the last run seems to become. Where that is more than a shorter
    // run told, trees of roots that only had shorter runs seem to become larger too.
    fn note(&mut self) {
        let Some(root) = self.root else { return };
        let Some(size) = self.size() else { return };
        let before = self.sizes.at(root);
        if before > 0 && before < size {
            self.enlarge(root, before, size);
        }
        self.sizes.set(root, size);
        self.bounds.set(root, self.limit);
    }

    fn enlarge(&mut self, root: u8, before: u32, size: u32) {
        for at in 0..STEP_LIMIT {
            let s = (at & 0xff) as u8;
            if s != root && self.bounds.at(s) < self.limit {
                let larger = (self.sizes.at(s) as u64).saturating_mul(size as u64);
                self.sizes
                    .set(s, capped(larger.checked_div(before as u64).unwrap_or(0)));
            }
        }
    }

    // The share of the search that is done.
    fn share(&self) -> u64 {
        let mut share = 0u64;
        for up in 0..STEP_LIMIT {
            let at = ((up & 0xff) as u8)
                .wrapping_neg()
                .wrapping_add(STEP_LIMIT as u8 - 1);
            if at <= self.depth {
                share = self.share_at(at, share);
            }
        }
        share
    }

    // The share that is done at a depth, where this is the share of the branch under way.
    fn share_at(&self, depth: u8, below: u64) -> u64 {
        let users = self.users.at(depth) as u64;
        let before = self.tried.at(depth).saturating_sub(1) as u64;
        let done = before.saturating_mul(WHOLE).saturating_add(below);
        match done.checked_div(users) {
            Some(share) => share,
            None => 0,
        }
    }

    // The root whose tree seems to become smallest; the first one, where no other's seems to become
    // much smaller.
    fn smallest(&self) -> Option<u8> {
        let mut found = self.first;
        let mut least = match self.first {
            Some(first) => self.sizes.at(first) / 4 * 3,
            None => u32::MAX,
        };
        for s in 0..STEP_LIMIT {
            let step = (s & 0xff) as u8;
            let size = self.sizes.at(step);
            if size > 0 && size < least {
                least = size;
                found = Some(step);
            }
        }
        found
    }

    // The first step of `best` that was no root yet.
    fn untried(&self, best: u32) -> Option<u8> {
        let mut left = best & !self.seen;
        pop(&mut left)
    }
}

fn capped(size: u64) -> u32 {
    if size < u32::MAX as u64 {
        (size & 0xffff_ffff) as u32
    } else {
        u32::MAX
    }
}

fn smaller(a: u32, b: u32) -> u32 {
    if a < b { a } else { b }
}

/// How many roots are looked at.
pub(crate) fn few() -> u32 {
    FEW
}
