//! What the clauses are made of.
ghost use Rattle.std.specs.Prelude.{◌≡◌, ◌≤◌, ◌<◌, ◌+◌, ◌*◌, ◌^◌, ◌&&◌, not, ℕ, true, length, OnOk};
ghost use Rattle.std.specs.Prelude.{slice_index_or, nat_lt, [], ◌∷◌, ◌++◌, map};
ghost use Rattle.std.specs.List.{flat_map};
ghost use Rattle.cnf_export.specs.Laws.Clauses.{yes_to, no_to};
ghost use Rattle.wf_names.specs.declared.limits.TheConstants.{STEP_LIMIT, USER_LIMIT};
ghost use Rattle.wf_names.specs.UserSets.{has_user};
ghost use Rattle.policy_book.specs.Laws.Refuting.{passing};
ghost use Rattle.constraint_forms.specs.Rules.{turned};
ghost use Rattle.cnf_export.specs.Laws.Encodings.{clause, counts, has, has_by, height, members};
ghost use Rattle.cnf_export.specs.Laws.Encodings.{part_items};
ghost use Rattle.cnf_export.specs.Laws.Encodings.{once_clause, once_items, parts, some_clause};
ghost use Rattle.cnf_export.specs.Laws.Encodings.{takes};
ghost use Rattle.cnf_export.specs.Laws.Encodings.{users_who};
ghost use Rattle.cnf_export.specs.Terms.{TermsShape, AreTerms, encoding_in};
ghost use Rattle.cnf_export.specs.declared.group.Group.TheVariants as groups;

use crate::Literals;
use crate::counting::{
    Count, count_in, ending, height, list_members, list_rows, write_counting, write_taking,
};
use crate::group::Group;
use crate::listed::{Items, list_users};
use crate::literals::{add_no, add_two, add_yes, no_to, yes_to};
use constraint_forms::StepSet;
use std::alloc::AllocError;
use std::marker::Model;
use user_relations::Relations;
use wf_names::{RelId, StepId, UserId, UserSet};

/// How many users and steps there are, whom each step may have, and who is related to whom.
#[derive(Drop)]
pub(crate) struct Terms {
    users: u16,
    steps: u8,
    domains: Vec<UserSet>,
    relations: Relations,
}

impl Model for Terms {
    ghost use Rattle.cnf_export.specs.Terms.{TermsShape, AreTerms, terms_code};

    ghost Value = { TermsShape };

    ghost coded = { terms_code };

    ghost view = { λ t. record {
      users = t.users;
      steps = t.steps;
      domains =
          t.domains.items;
      relations = t.relations;
    } };

    ghost invariant = { λ t. AreTerms
        (record {
          users = t.users;
          steps = t.steps;
          domains = t.domains.items;
          relations = t.relations;
        }) };
}

impl Terms {
    /// For `users` users and `steps` steps, with the users whom each step may have.
    pub(crate) fn new(users: u16, steps: u8, domains: Vec<UserSet>, relations: Relations) -> Terms
        requires { AreTerms (record {
          users = users;
          steps = steps;
          domains = domains.items;
          relations = relations;
        }) }
        ensures { result ≡ record {
          users = users;
          steps = steps;
          domains = domains.items;
          relations = relations;
        } }
    {
        Terms {
            users,
            steps,
            domains,
            relations,
        }
    }

    /// The variable that says that a step has a user.
    pub(crate) fn has(&self, s: StepId, u: u16) -> u32
        ensures value { result ≡ has (encoding_in self.now) s u }
        ensures small { result < 2 ^ 29 }
    {
        s.0 as u32 * self.users as u32 + u as u32
    }

    /// The variable that says that a step has a user or one before.
    pub(crate) fn has_by(&self, s: StepId, u: u16) -> u32
        ensures value { result ≡ has_by (encoding_in self.now) s u }
        ensures small { result < 2 ^ 30 }
    {
        self.steps as u32 * self.users as u32 + self.has(s, u)
    }

    /// The first variable of a block, which is how many variables the blocks before it have.
    #[tactic(auto, using(crate::proofs::Products::block_small))]
    pub(crate) fn block(&self, block: u16) -> u32
        ensures value { result ≡ block * self.now.users }
        ensures small { result < 2 ^ 28 }
    {
        block as u32 * self.users as u32
    }

    /// The variable that says that a user has some step of a rule that counts.
    pub(crate) fn takes(&self, block: u16, u: u16) -> u32
        ensures value { result ≡ takes (encoding_in self.now) block u }
        ensures small { result < 2 ^ 29 }
    {
        self.block(block) + u as u32
    }

    /// The variable that says that of the users up to u more than j have some step of the rule.
    #[tactic(auto, using(crate::proofs::Products::row_small))]
    pub(crate) fn counts(&self, count: Count, u: u16, j: u16) -> u32
        ensures value { result ≡ counts (encoding_in self.now) count.block count.high u j }
        ensures small { result < 2 ^ 30 }
    {
        self.block(count.block) + self.users as u32 + (u as u32 * count.high as u32 + j as u32)
    }

    /// How many users there are.
    pub(crate) fn users(&self) -> u16
        ensures { result ≡ self.now.users }
    {
        self.users
    }

    /// The users whom a step may have.
    fn domain(&self, s: StepId) -> UserSet
        ensures users { (u : ℕ) → has_user result u ≡ (encoding_in self.now).may_have s u }
        ensures known { (u : ℕ) → has_user result u ≡ true → u < self.now.users }
    {
        domain_at(&self.domains, s)
    }

    fn everybody(&self) -> UserSet
        ensures { (u : ℕ) → has_user result u ≡ nat_lt u self.now.users }
    {
        UserSet::up_to(self.users)
    }

    // The users to whom a user is related.
    fn related_to(&self, rho: RelId, u: UserId) -> UserSet
        ensures { (v : ℕ) → has_user result v
            ≡ (nat_lt v self.now.users && (encoding_in self.now).related rho u v) }
    {
        self.relations.after(rho, u, self.users)
    }

    // The users who are related to a user, or, read back, to whom the user is.
    fn related_from(&self, rho: RelId, back: bool, v: UserId) -> UserSet
        ensures { (u : ℕ) → has_user result u
            ≡ (nat_lt u self.now.users && turned back (encoding_in self.now).related rho u v) }
    {
        if back {
            self.relations.after(rho, v, self.users)
        } else {
            self.relations.ahead(rho, v, self.users)
        }
    }

    fn list(&self, set: &UserSet, into: &mut Items) -> Result<(), AllocError>
        requires { (u : ℕ) → has_user set.now u ≡ true → u < self.now.users }
        ensures { OnOk result (into.new ≡ passing (has_user set.now) 0 self.now.users) }
    {
        list_users(set, self.users, into)
    }

    /// The users whom a step may not have, in their order.
    pub(crate) fn list_outside(&self, s: StepId, into: &mut Items) -> Result<(), AllocError>
        ensures { OnOk result (into.new ≡ part_items (encoding_in self.now) (groups.Outside s) 0) }
    {
        let mut users = self.everybody();
        users.strike(&self.domain(s));
        self.list(&users, into)?;
        Ok(())
    }

    /// The users whom a second step may have and to whom a user is not related, where the first
    /// step may have the user.
    pub(crate) fn list_unrelated(
        &self,
        rho: RelId,
        first: StepId,
        second: StepId,
        u: UserId,
        into: &mut Items,
    ) -> Result<(), AllocError>
        ensures { OnOk result (into.new
            ≡ part_items (encoding_in self.now) (groups.Pair rho first second) u) }
    {
        if !self.domain(first).has(u) {
            into.truncate(0);
            return Ok(());
        }
        let mut users = self.domain(second);
        users.strike(&self.related_to(rho, u));
        self.list(&users, into)?;
        Ok(())
    }

    /// How many parts a group has.
    pub(crate) fn parts(&self, g: &Group) -> u16
        ensures { result ≡ parts (encoding_in self.now) g.now }
    {
        match *g {
            Group::Outside(_) => 1,
            Group::Someone(_) => 1,
            Group::Once(_) => self.users,
            Group::Pair { .. } => self.users,
            Group::SomeOf { .. } => 1,
            Group::Taking { .. } => self.users,
            Group::Counting { .. } => self.users,
            Group::Ending { .. } => { if self.users == 0 { 0 } else { 1 } }
        }
    }

    /// The items of a part.
    pub(crate) fn list_items(&self, g: &Group, i: u16, into: &mut Items) -> Result<(), AllocError>
        ensures { OnOk result (into.new ≡ part_items (encoding_in self.now) g.now i) }
    {
        match *g {
            Group::Outside(s) => self.list_outside(s, into),
            Group::Someone(_) => list_first(into),
            Group::Once(_) => list_once(i, into),
            Group::Pair { rho, first, second } => self.list_unrelated(
                rho,
                first,
                second,
                UserId(i),
                into,
            ),
            Group::SomeOf { step, .. } => self.list(&self.domain(step), into),
            Group::Taking { group, .. } => list_members(&group, into),
            Group::Counting { most, limit, .. } => list_rows(i, height(most, limit), into),
            Group::Ending { .. } => list_first(into),
        }
    }

    /// The clause of an item.
    pub(crate) fn write_clause(
        &self,
        g: &Group,
        i: u16,
        k: u16,
        into: &mut Literals,
    ) -> Result<(), AllocError>
        ensures { OnOk result (into.new ≡ clause (encoding_in self.now) g.now i k) }
    {
        into.truncate(0);
        match *g {
            Group::Outside(s) => into.push(no_to(self.has(s, k))),
            Group::Someone(s) => self.add_users(s, &self.domain(s), into),
            Group::Once(s) => self.write_once(s, i, k, into),
            Group::Pair { first, second, .. } => self.write_pair(first, second, i, k, into),
            Group::SomeOf {
                rho,
                back,
                group,
                step,
            } => self.write_some(rho, back, &group, step, UserId(k), into),
            Group::Taking { block, group } => write_taking(self, block, &group, i, k, into),
            Group::Counting { block, most, limit } => {
                let count = count_in(block, most, limit);
                write_counting(self, count, i, k / 4, k % 4, into)
            }
            Group::Ending { block, most, limit } => {
                into.push(ending(self, count_in(block, most, limit), most))
            }
        }
    }

    // That where v has a step, some member of a group has a user who is related to v, or, read
    // back, to whom v is.
    fn write_some(
        &self,
        rho: RelId,
        back: bool,
        group: &StepSet,
        step: StepId,
        v: UserId,
        into: &mut Literals,
    ) -> Result<(), AllocError>
        ensures { OnOk result (into.new
            ≡ into.old ++ some_clause (encoding_in self.now) rho back group.now step v) }
    {
        add_no(into, self.has(step, v.0))?;
        self.add_members(rho, back, group, v, into)
    }

    // That two users do not have the two steps.
    fn write_pair(
        &self,
        first: StepId,
        second: StepId,
        u: u16,
        v: u16,
        into: &mut Literals,
    ) -> Result<(), AllocError>
        ensures { OnOk result (into.new ≡ into.old ++ no_to (has (encoding_in self.now) first u)
            ∷ no_to (has (encoding_in self.now) second v) ∷ []) }
    {
        add_two(into, no_to(self.has(first, u)), no_to(self.has(second, v)))
    }

    // That one user alone has a step.
    fn write_once(&self, s: StepId, u: u16, k: u16, into: &mut Literals) -> Result<(), AllocError>
        ensures { OnOk result (into.new ≡ into.old ++ once_clause (encoding_in self.now) s u k) }
    {
        let before = u.saturating_sub(1);
        match k {
            0 => add_two(into, no_to(self.has(s, u)), yes_to(self.has_by(s, u))),
            1 => add_two(
                into,
                no_to(self.has_by(s, before)),
                yes_to(self.has_by(s, u)),
            ),
            _ => add_two(into, no_to(self.has(s, u)), no_to(self.has_by(s, before))),
        }
    }

    // That a step has some user of a set, behind other literals.
    fn add_users(&self, s: StepId, set: &UserSet, into: &mut Literals) -> Result<(), AllocError>
        requires { (u : ℕ) → has_user set.now u ≡ true → u < self.now.users }
        ensures { OnOk result (into.new
            ≡ into.old ++ map (λ u. yes_to (has (encoding_in self.now) s u))
            (passing (has_user set.now) 0 self.now.users)) }
    {
        let mut from = 0u32;
        'adding: loop {
            match set.next(from) {
                None => return Ok(()),
                Some(u) => {
                    add_yes(into, self.has(s, u.0))?;
                    from = u.0 as u32 + 1;
                }
            }
        }
    }

    // That some member of a group has a user who is related to v, behind other literals.
    fn add_members(
        &self,
        rho: RelId,
        back: bool,
        group: &StepSet,
        v: UserId,
        into: &mut Literals,
    ) -> Result<(), AllocError>
        ensures { OnOk result (into.new
            ≡ into.old ++ flat_map (λ t. map (λ u. yes_to (has (encoding_in self.now) t u))
            (users_who (encoding_in self.now)
            (λ u. (encoding_in self.now).may_have t u
            && turned back (encoding_in self.now).related rho u v)))
            (members group.now)) }
    {
        let limit = group.limit();
        'members: for t in 0..limit {
            if group.has(StepId(t as u8)) {
                self.add_member(rho, back, StepId(t as u8), v, into)?;
            }
        }
        Ok(())
    }

    fn add_member(
        &self,
        rho: RelId,
        back: bool,
        t: StepId,
        v: UserId,
        into: &mut Literals,
    ) -> Result<(), AllocError>
        ensures { OnOk result (into.new
            ≡ into.old ++ map (λ u. yes_to (has (encoding_in self.now) t u))
            (users_who (encoding_in self.now)
            (λ u. (encoding_in self.now).may_have t u
            && turned back (encoding_in self.now).related rho u v))) }
    {
        let mut users = self.domain(t);
        users.meet(&self.related_from(rho, back, v));
        self.add_users(t, &users, into)?;
        Ok(())
    }
}

// The item of a part that has one.
fn list_first(into: &mut Items) -> Result<(), AllocError>
    ensures { OnOk result (into.new ≡ 0 ∷ []) }
{
    into.truncate(0);
    into.push(0)
}

// The items of a part for a user of a step, of whom the first has no user before.
fn list_once(u: u16, into: &mut Items) -> Result<(), AllocError>
    ensures { OnOk result (into.new ≡ once_items u) }
{
    into.truncate(0);
    into.push(0)?;
    if u > 0 {
        into.push(1)?;
        into.push(2)?;
    }
    Ok(())
}

fn domain_at(domains: &[UserSet], s: StepId) -> UserSet
    ensures { (u : ℕ) → has_user result u ≡ has_user (slice_index_or domains.now s []) u }
{
    match domains.get(s.0 as usize) {
        Some(users) => *users,
        None => UserSet::empty(),
    }
}
