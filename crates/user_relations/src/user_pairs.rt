//! Sets of pairs of users, kept as rows of bits both ways.
ghost use Rattle.std.specs.Prelude.{◌≡◌, ◌<◌, ◌≤◌, ◌↔◌, ◌&&◌, not, true, false, nat_lt, is_some, ℕ};
ghost use Rattle.std.specs.Prelude.{cond, IfOk, IfSome, OnOk, OnErr, IsTrue};
ghost use Rattle.std.specs.FinSet as set;
ghost use Rattle.basics.specs.Laws.Pairs.{IsAscending};
ghost use Rattle.wf_names.specs.declared.limits.TheConstants.{USER_LIMIT};
ghost use Rattle.wf_names.specs.UserSets.{has_user};

use crate::blocks::Block;
use crate::{blocks, masks};
use basics::{Copied, Shared};
use std::alloc::{AllocError, Global};
use std::marker::Model;
use wf_names::{USER_LIMIT, UserId, UserSet};

/// A finite set of pairs of users. A look-up reads one bit. A copy shares all rows, and a change
/// after it copies 16 KiB of them each way.
#[derive(Drop)]
pub struct UserPairs {
    // For each first user the second ones, and for each second user the first ones.
    ahead: Vec<Shared<Block>>,
    behind: Vec<Shared<Block>>,
    count: usize,
}

impl Model for UserPairs {
    ghost use Rattle.basics.specs.Laws.Pairs.{Pairs, pairs_code};
    ghost use Rattle.user_relations.specs.Rows.{pairs_in, AreRows};

    ghost Value = { Pairs };

    ghost coded = { pairs_code };

    ghost view = { λ p. pairs_in p.ahead.items };

    ghost invariant = { λ p. AreRows p.ahead.items p.behind.items p.count };
}

impl UserPairs {
    /// The empty set.
    pub fn new(alloc: Global) -> Result<UserPairs, AllocError>
        ensures { IfOk result (λ pairs. pairs ≡ set.empty) }
    {
        let ahead = blocks::no_bits(alloc)?;
        let behind = blocks::copy(alloc, &ahead)?;
        Ok(UserPairs {
            ahead,
            behind,
            count: 0,
        })
    }

    /// Whether the pair `(u, v)` is in the set.
    pub fn has(&self, u: UserId, v: UserId) -> bool
        ensures { result ≡ set.contains self.now (u, v) }
    {
        blocks::has(&self.ahead, u, v)
    }

    /// The number of pairs.
    pub fn len(&self) -> usize
        ensures { result ≡ set.len self.now }
    {
        self.count
    }

    /// Whether the set has no pair.
    pub fn is_empty(&self) -> bool
        ensures { IsTrue result ↔ (self.now ≡ set.empty) }
    {
        self.len() == 0
    }

    /// Puts the pair `(u, v)` into the set and answers whether it is new there.
    /// A pair that is there takes no memory.
    pub fn insert(&mut self, u: UserId, v: UserId) -> Result<bool, AllocError>
        requires first { u < USER_LIMIT }
        requires second { v < USER_LIMIT }
        ensures added { OnOk result (self.new ≡ set.insert self.old (u, v)) }
        ensures fresh { IfOk result (λ fresh. fresh ≡ not (set.contains self.old (u, v))) }
        ensures present { IfOk result (λ fresh. fresh ≡ false → self.new ≡ self.old) }
        ensures absent { OnErr result (set.contains self.old (u, v) ≡ false) }
        ensures unchanged { OnErr result (self.new ≡ self.old) }
    {
        if self.has(u, v) {
            return Ok(false);
        }
        blocks::write(&mut self.ahead, &mut self.behind, u, v, true)?;
        self.count += 1;
        Ok(true)
    }

    /// Takes the pair `(u, v)` out of the set and answers whether it was there.
    /// A pair that is not there takes no memory.
    pub fn remove(&mut self, u: UserId, v: UserId) -> Result<bool, AllocError>
        ensures removed { OnOk result (self.new ≡ set.remove self.old (u, v)) }
        ensures found { IfOk result (λ found. found ≡ set.contains self.old (u, v)) }
        ensures absent { IfOk result (λ found. found ≡ false → self.new ≡ self.old) }
        ensures present { OnErr result (set.contains self.old (u, v) ≡ true) }
        ensures unchanged { OnErr result (self.new ≡ self.old) }
    {
        if !self.has(u, v) {
            return Ok(false);
        }
        blocks::write(&mut self.ahead, &mut self.behind, u, v, false)?;
        self.count -= 1;
        Ok(true)
    }

    /// The users `v` below `users` of pairs `(u, v)`, or of pairs `(v, u)` where `back` says so.
    pub fn beside(&self, u: UserId, users: u16, back: bool) -> UserSet
        requires { users ≤ USER_LIMIT }
        ensures { (v : ℕ) → has_user result v
            ≡ (nat_lt v users && set.contains self.now (cond back v u, cond back u v)) }
    {
        let rows = if back { &self.behind } else { &self.ahead };
        masks::below(users, &blocks::row(rows, u))
    }

    /// The users `v` of pairs `(u, v)` in place; None where u is no number below the limit.
    pub fn row_after(&self, u: UserId) -> Option<&UserSet>
        ensures there { is_some result ≡ nat_lt u USER_LIMIT }
        ensures users { IfSome result (λ row. (v : ℕ) → v < USER_LIMIT
            → has_user row.now v ≡ set.contains self.now (u, v)) }
    {
        blocks::row_at(&self.ahead, u)
    }

    /// The users `v` of pairs `(v, u)` in place; None where u is no number below the limit.
    pub fn row_ahead(&self, u: UserId) -> Option<&UserSet>
        ensures there { is_some result ≡ nat_lt u USER_LIMIT }
        ensures users { IfSome result (λ row. (v : ℕ) → v < USER_LIMIT
            → has_user row.now v ≡ set.contains self.now (v, u)) }
    {
        blocks::row_at(&self.behind, u)
    }

    /// The pairs in ascending order, each once.
    pub fn pairs(&self) -> Result<Vec<(u16, u16)>, AllocError>
        ensures pairs { IfOk result (λ pairs. set.from_list pairs.items ≡ self.now) }
        ensures ascending { IfOk result (λ pairs. IsAscending pairs.items) }
    {
        let none = Vec::with_capacity(*self.ahead.allocator(), self.count)?;
        blocks::pairs(&self.ahead, none)
    }

    /// A set of the same pairs, which shares all rows.
    pub fn copy(&self) -> Result<UserPairs, AllocError>
        ensures { IfOk result (λ copy. copy ≡ self.now) }
    {
        let alloc = *self.ahead.allocator();
        Ok(UserPairs {
            ahead: blocks::copy(alloc, &self.ahead)?,
            behind: blocks::copy(alloc, &self.behind)?,
            count: self.count,
        })
    }
}

impl Clone for UserPairs {
    ghost is_clone = { λ x y. y ≡ x };

    fn clone(&self) -> Result<UserPairs, AllocError> {
        self.copy()
    }
}

impl Copied for UserPairs {
    ghost equal = { λ x y h. h };
}
