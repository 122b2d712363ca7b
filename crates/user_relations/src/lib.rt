//! The relations between users: those that are listed pair by pair, their complements, and the
//! built-in `same` and `other`.
#![tactic(auto)]

ghost use Rattle.std.specs.Prelude.{◌≡◌, ◌≢◌, ◌<◌, ◌≤◌, ◌+◌, ℕ, List, [], ◌∷◌, ◌++◌, length};
ghost use Rattle.std.specs.Prelude.{IfOk, IfSome, OnOk, OnErr, MatchOption, Err, true};
ghost use Rattle.std.specs.Prelude.{false, ◌==◌, ◌&&◌, cond, not, nat_lt, slice_get, Some};
ghost use Rattle.std.specs.FinSet as set;
ghost use Rattle.basics.specs.Laws.Pairs.{AllPairs, IsAscending};
ghost use Rattle.wf_names.specs.declared.limits.TheConstants.{PAIR_LIMIT, RELATION_LIMIT};
ghost use Rattle.wf_names.specs.declared.limits.TheConstants.{USER_LIMIT};
ghost use Rattle.wf_names.specs.Table.{place_of};
ghost use Rattle.wf_names.specs.UserSets.{has_user};
ghost use Rattle.user_relations.specs.Laws.Relations.{RelationShape, listed, complement, kind_of};
ghost use Rattle.user_relations.specs.Laws.Relations.{pairs_of, is_listed, complement_of};
ghost use Rattle.user_relations.specs.Laws.Relations.{is_related};
ghost use Rattle.user_relations.specs.Laws.Relations.{CanDeclare, known_names, with_kind};
ghost use Rattle.user_relations.specs.Laws.Soundness.{AreSoundRelations};
ghost use Rattle.user_relations.specs.View.{shapes};
ghost use Rattle.user_relations.specs.Kinds.{relate_fault, unrelate_fault, AnswersFault};
ghost use Rattle.user_relations.specs.Kinds.{RefusesName};

mod blocks;
mod kinds;
mod masks;
mod user_pairs;

pub use kinds::{Kind, Relation};
use std::alloc::{AllocError, Global};
use std::marker::Model;
pub use user_pairs::UserPairs;
use wf_names::{Name, NameFault, RELATION_LIMIT, RelId, USER_LIMIT, UserId, UserSet};

/// Why a pair was not put into a relation or not taken out of it.
#[derive(Clone, Copy)]
pub enum RelationFault {
    /// The relation is not a listed one.
    Fixed,
    /// The pair is in the relation already.
    Already,
    /// The pair is not in the relation.
    Absent,
    /// The relation has as many pairs as the limit.
    Full,
    /// There was no memory for it.
    NoMemory,
}

/// The declared relations. Contracts see them as a list; the first has the number 2.
#[derive(Drop)]
pub struct Relations {
    declared: Vec<Relation>,
}

impl Model for Relations {
    ghost use Rattle.std.specs.Prelude.{List};
    ghost use Rattle.user_relations.specs.Laws.Relations.{RelationShape, relations_code};

    ghost Value = { List RelationShape };

    ghost coded = { relations_code };

    ghost use Rattle.user_relations.specs.Laws.Soundness.{AreSoundRelations};
    ghost use Rattle.user_relations.specs.View.{shapes};

    ghost view = { λ r. shapes r.declared.items };

    ghost invariant = { λ r. AreSoundRelations (shapes r.declared.items) };
}

impl Relations {
    /// No declared relations.
    pub fn new(alloc: Global) -> Result<Relations, AllocError>
        ensures { IfOk result (λ relations. relations ≡ []) }
    {
        Ok(Relations {
            declared: Vec::new(alloc),
        })
    }

    /// The relations of a list of them, each with what it is. A complement may stand before the
    /// relation whose complement it is.
    pub fn build(declared: Vec<Relation>) -> Result<Relations, AllocError>
        requires { AreSoundRelations (shapes declared.items) }
        ensures { IfOk result (λ relations. relations ≡ shapes declared.items) }
    {
        Ok(Relations { declared })
    }

    /// Declares a listed relation without pairs, and answers its number.
    pub fn add_listed(&mut self, name: Name) -> Result<RelId, NameFault>
        ensures number { IfOk result (λ rho. rho ≡ length self.old + 2) }
        ensures added { OnOk result (self.new
            ≡ self.old ++ (record { name = name; kind = listed set.empty }) ∷ []) }
        ensures free { OnOk result (CanDeclare self.old name) }
        ensures refused { RefusesName self.old name result }
        ensures unchanged { OnErr result (self.new ≡ self.old) }
    {
        match UserPairs::new(*self.declared.allocator()) {
            Ok(none) => self.add_pairs(name, none),
            Err(_) => Err(self.unlisted(&name)),
        }
    }

    // Why a relation is not declared where there is no memory for its pairs.
    fn unlisted(&self, name: &Name) -> NameFault
        ensures { RefusesName {A = ℕ} self.now name.now (Err result) }
    {
        if self.find(name).is_some() {
            NameFault::Twice
        } else if self.count() as u16 >= RELATION_LIMIT {
            NameFault::Full
        } else {
            NameFault::NoMemory
        }
    }

    /// Declares a listed relation with these pairs, and answers its number.
    pub fn add_pairs(&mut self, name: Name, pairs: UserPairs) -> Result<RelId, NameFault>
        requires few { set.len pairs ≤ PAIR_LIMIT }
        requires users { AllPairs (λ u v. (u < USER_LIMIT) × (v < USER_LIMIT)) pairs }
        ensures number { IfOk result (λ rho. rho ≡ length self.old + 2) }
        ensures added { OnOk result (self.new
            ≡ self.old ++ (record { name = name; kind = listed pairs }) ∷ []) }
        ensures free { OnOk result (CanDeclare self.old name) }
        ensures refused { RefusesName self.old name result }
        ensures unchanged { OnErr result (self.new ≡ self.old) }
    {
        if self.find(&name).is_some() {
            return Err(NameFault::Twice);
        }
        let count = self.count();
        if count as u16 >= RELATION_LIMIT {
            return Err(NameFault::Full);
        }
        match kinds::push_listed(&mut self.declared, name, pairs) {
            Ok(()) => Ok(RelId(count + 2)),
            Err(_) => Err(NameFault::NoMemory),
        }
    }

    /// Makes a declared relation the complement of a listed one. Takes no memory.
    pub fn make_complement(&mut self, rho: RelId, of: RelId)
        requires bare { kind_of self.old rho ≡ Some (listed set.empty) }
        requires of_listed { is_listed self.old of ≡ true }
        requires different { rho ≢ of }
        requires free { (n : ℕ) → complement_of self.old n ≢ Some rho }
        ensures { self.new ≡ with_kind self.old rho (complement of) }
    {
        kinds::set_kind(&mut self.declared, rho, Kind::Complement(of));
    }

    /// Whether a relation holds of two users, in this order. It holds of none where there is no
    /// relation with that number.
    pub fn holds(&self, rho: RelId, u: UserId, v: UserId) -> bool
        ensures { result ≡ is_related self.now rho u v }
    {
        match rho.0 {
            0 => u == v,
            1 => u != v,
            _ => kinds::holds(&self.declared, rho, u, v),
        }
    }

    /// The users `v` below `users` such that the relation holds of u and v. Takes no memory.
    pub fn after(&self, rho: RelId, u: UserId, users: u16) -> UserSet
        requires { users ≤ USER_LIMIT }
        ensures { (v : ℕ) → has_user result v ≡ (nat_lt v users && is_related self.now rho u v) }
    {
        self.beside(rho, u, users, false)
    }

    /// The users `v` below `users` such that the relation holds of v and u. Takes no memory.
    pub fn ahead(&self, rho: RelId, u: UserId, users: u16) -> UserSet
        requires { users ≤ USER_LIMIT }
        ensures { (v : ℕ) → has_user result v ≡ (nat_lt v users && is_related self.now rho v u) }
    {
        self.beside(rho, u, users, true)
    }

    // Who is after a user, or where `back` says so ahead of one.
    fn beside(&self, rho: RelId, u: UserId, users: u16, back: bool) -> UserSet
        requires { users ≤ USER_LIMIT }
        ensures { (v : ℕ) → has_user result v
            ≡ (nat_lt v users && is_related self.now rho (cond back v u) (cond back u v)) }
    {
        match rho.0 {
            0 => masks::alone(users, u),
            1 => masks::all_but(users, u),
            _ => kinds::beside(&self.declared, rho, u, users, back),
        }
    }

    /// The pairs of a listed relation in place; None where it is no listed relation.
    pub fn listed(&self, rho: RelId) -> Option<&UserPairs>
        ensures { MatchOption result (is_listed self.now rho ≡ false)
            (λ pairs. kind_of self.now rho ≡ Some (listed pairs.now)) }
    {
        kinds::listed(&self.declared, rho)
    }

    /// Puts a pair into a listed relation.
    pub fn relate(&mut self, rho: RelId, u: UserId, v: UserId) -> Result<(), RelationFault>
        requires first { u < USER_LIMIT }
        requires second { v < USER_LIMIT }
        ensures related { OnOk result (self.new
            ≡ with_kind self.old rho (listed (set.insert (pairs_of self.old rho) (u, v)))) }
        ensures fault { AnswersFault (relate_fault self.old rho u v) result }
        ensures unchanged { OnErr result (self.new ≡ self.old) }
    {
        kinds::change(&mut self.declared, rho, u, v, true)
    }

    /// Takes a pair out of a listed relation.
    pub fn unrelate(&mut self, rho: RelId, u: UserId, v: UserId) -> Result<(), RelationFault>
        ensures unrelated { OnOk result (self.new
            ≡ with_kind self.old rho (listed (set.remove (pairs_of self.old rho) (u, v)))) }
        ensures fault { AnswersFault (unrelate_fault self.old rho u v) result }
        ensures unchanged { OnErr result (self.new ≡ self.old) }
    {
        kinds::change(&mut self.declared, rho, u, v, false)
    }

    /// Why `relate` would not put a pair into a relation, want of memory aside.
    pub fn relate_fault(&self, rho: RelId, u: UserId, v: UserId) -> Option<RelationFault>
        ensures { result ≡ relate_fault self.now rho u v }
    {
        kinds::change_fault(&self.declared, rho, u, v, true)
    }

    /// Why `unrelate` would not take a pair out of a relation.
    pub fn unrelate_fault(&self, rho: RelId, u: UserId, v: UserId) -> Option<RelationFault>
        ensures { result ≡ unrelate_fault self.now rho u v }
    {
        kinds::change_fault(&self.declared, rho, u, v, false)
    }

    /// The number of the relation with a name; that of `same` is 0, that of `other` is 1.
    pub fn find(&self, name: &Name) -> Option<RelId>
        ensures place { result ≡ place_of (known_names self.now) name.now }
        ensures within { IfSome result (λ rho. rho < length self.now + 2) }
    {
        kinds::find(&self.declared, name)
    }

    /// The name of a relation.
    pub fn name(&self, rho: RelId) -> Name
        requires { rho < length self.now + 2 }
        ensures name { slice_get (known_names self.now) rho ≡ Some result }
        ensures alone { place_of (known_names self.now) result ≡ Some rho }
    {
        kinds::name(&self.declared, rho)
    }

    /// The number of declared relations.
    pub fn count(&self) -> u8
        ensures count { result ≡ length self.now }
        ensures sound { AreSoundRelations self.now }
    {
        self.declared.len() as u8
    }

    /// The listed relation whose complement this is; None where it is no complement.
    pub fn complement_of(&self, rho: RelId) -> Option<RelId>
        ensures { result ≡ complement_of self.now rho }
    {
        kinds::complement_of(&self.declared, rho)
    }

    /// The pairs of a listed relation in ascending order; none where it is no listed relation.
    pub fn pairs(&self, rho: RelId) -> Result<Vec<(u16, u16)>, AllocError>
        ensures pairs { IfOk result (λ pairs. set.from_list pairs.items ≡ pairs_of self.now rho) }
        ensures ascending { IfOk result (λ pairs. IsAscending pairs.items) }
    {
        kinds::pairs(*self.declared.allocator(), &self.declared, rho)
    }

    /// The same relations.
    pub fn copy(&self) -> Result<Relations, AllocError>
        ensures { IfOk result (λ relations. relations ≡ self.now) }
    {
        Ok(Relations {
            declared: kinds::copy(*self.declared.allocator(), &self.declared)?,
        })
    }
}
