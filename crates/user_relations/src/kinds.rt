//! The declared relations as they are kept, and what each call does to them.
ghost use Rattle.std.specs.Prelude.{◌≡◌, ◌≢◌, ◌<◌, ◌≤◌, ◌+◌, ℕ, List, [], ◌∷◌, ◌++◌, length, IfOk};
ghost use Rattle.std.specs.Prelude.{IfSome, OnOk, OnErr, MatchOption, IsTrue, ◌&&◌, not, nat_lt};
ghost use Rattle.std.specs.Prelude.{cond, true, false, slice_get, Some, None, position, nat_eq};
ghost use Rattle.std.specs.Cmp.Lexicographic.{pointwise};
ghost use Rattle.std.specs.FinSet as set;
ghost use Rattle.basics.specs.Laws.Pairs.{IsAscending};
ghost use Rattle.wf_names.specs.declared.limits.TheConstants.{USER_LIMIT};
ghost use Rattle.wf_names.specs.Names.{is_name};
ghost use Rattle.wf_names.specs.Table.{place_of};
ghost use Rattle.wf_names.specs.UserSets.{has_user};
ghost use Rattle.user_relations.specs.Laws.Relations.{listed, complement, kind_of, kind_holds};
ghost use Rattle.user_relations.specs.Laws.Relations.{listed_pairs, pairs_of, complement_of};
ghost use Rattle.user_relations.specs.Laws.Relations.{known_names, with_kind, has_list};
ghost use Rattle.user_relations.specs.Kinds.{relate_fault, unrelate_fault, put_fault, take_fault};
ghost use Rattle.user_relations.specs.Kinds.{AnswersFault, changed};
ghost use Rattle.user_relations.specs.Places.{IsPlace};
ghost use Rattle.user_relations.specs.View.{kind_view, relation_view, shapes};

use crate::user_pairs::UserPairs;
use crate::{RelationFault, masks};
use basics::Shared;
use std::alloc::{AllocError, Global};
use wf_names::{Name, PAIR_LIMIT, RELATION_LIMIT, RelId, USER_LIMIT, UserId, UserSet};

/// What a declared relation is.
#[derive(Drop)]
pub enum Kind {
    Listed(Shared<UserPairs>),
    /// The complement of a listed relation.
    Complement(RelId),
}

/// A declared relation.
#[derive(Drop)]
pub struct Relation {
    pub name: Name,
    pub kind: Kind,
}

impl Kind {
    /// A listed relation with these pairs.
    pub fn of_pairs(alloc: Global, pairs: UserPairs) -> Result<Kind, AllocError>
        ensures { IfOk result (λ kind. kind_view kind ≡ listed pairs) }
    {
        Ok(Kind::Listed(Shared::new(alloc, pairs)?))
    }
}

/// The place of a declared relation in the list.
fn place(declared: &[Relation], rho: RelId) -> Option<usize>
    ensures { MatchOption result (kind_of (shapes declared.now) rho ≡ None)
        (IsPlace (length declared.now) rho) }
{
    if rho.0 >= 2 && (rho.0 as usize - 2) < declared.len() {
        Some(rho.0 as usize - 2)
    } else {
        None
    }
}

fn kind_at(declared: &[Relation], rho: RelId) -> Option<&Kind>
    ensures { MatchOption result (kind_of (shapes declared.now) rho ≡ None)
        (λ kind. kind_of (shapes declared.now) rho ≡ Some (kind_view kind.now)) }
{
    match place(declared, rho) {
        Some(place) => Some(&declared[place].kind),
        None => None,
    }
}

pub(crate) fn holds(declared: &[Relation], rho: RelId, u: UserId, v: UserId) -> bool
    ensures { result ≡ kind_holds (shapes declared.now) (kind_of (shapes declared.now) rho) u v }
{
    match kind_at(declared, rho) {
        None => false,
        Some(Kind::Listed(pairs)) => pairs.get().has(u, v),
        Some(Kind::Complement(of)) => !is_in_list(declared, *of, u, v),
    }
}

fn is_in_list(declared: &[Relation], rho: RelId, u: UserId, v: UserId) -> bool
    ensures { result ≡ set.contains (pairs_of (shapes declared.now) rho) (u, v) }
{
    match listed(declared, rho) {
        Some(pairs) => pairs.has(u, v),
        None => false,
    }
}

/// The pairs of a listed relation in place.
pub(crate) fn listed(declared: &[Relation], rho: RelId) -> Option<&UserPairs>
    ensures { MatchOption result (has_list (kind_of (shapes declared.now) rho) ≡ false)
        (λ pairs. kind_of (shapes declared.now) rho ≡ Some (listed pairs.now)) }
{
    match kind_at(declared, rho) {
        None => None,
        Some(Kind::Listed(pairs)) => Some(pairs.get()),
        Some(Kind::Complement(_)) => None,
    }
}

/// The pairs of a listed relation in ascending order.
pub(crate) fn pairs(
    alloc: Global,
    declared: &[Relation],
    rho: RelId,
) -> Result<Vec<(u16, u16)>, AllocError>
    ensures pairs { IfOk result (λ pairs. set.from_list pairs.items
        ≡ pairs_of (shapes declared.now) rho) }
    ensures ascending { IfOk result (λ pairs. IsAscending pairs.items) }
{
    match kind_at(declared, rho) {
        None => Ok(Vec::new(alloc)),
        Some(Kind::Listed(pairs)) => pairs.get().pairs(),
        Some(Kind::Complement(_)) => Ok(Vec::new(alloc)),
    }
}

/// The users below `users` to whom a declared relation relates u, or whom it relates to u where
/// `back` says so.
pub(crate) fn beside(
    declared: &[Relation],
    rho: RelId,
    u: UserId,
    users: u16,
    back: bool,
) -> UserSet
    requires { users ≤ USER_LIMIT }
    ensures { (v : ℕ) → has_user result v
        ≡ (nat_lt v users && kind_holds (shapes declared.now) (kind_of
        (shapes declared.now) rho) (cond back v u) (cond back u v)) }
{
    match kind_at(declared, rho) {
        None => UserSet::empty(),
        Some(Kind::Listed(pairs)) => pairs.get().beside(u, users, back),
        Some(Kind::Complement(of)) => {
            masks::others(users, &listed_beside(declared, *of, u, users, back))
        }
    }
}

fn listed_beside(declared: &[Relation], rho: RelId, u: UserId, users: u16, back: bool) -> UserSet
    requires { users ≤ USER_LIMIT }
    ensures { (v : ℕ) → has_user result v
        ≡ (nat_lt v users && set.contains (pairs_of (shapes declared.now) rho)
        (cond back v u, cond back u v)) }
{
    match listed(declared, rho) {
        Some(pairs) => pairs.beside(u, users, back),
        None => UserSet::empty(),
    }
}

pub(crate) fn complement_of(declared: &[Relation], rho: RelId) -> Option<RelId>
    ensures { result ≡ complement_of (shapes declared.now) rho }
{
    match kind_at(declared, rho) {
        None => None,
        Some(Kind::Listed(_)) => None,
        Some(Kind::Complement(of)) => Some(*of),
    }
}

/// Why a pair would not be put into a relation, or not taken out of it.
pub(crate) fn change_fault(
    declared: &[Relation],
    rho: RelId,
    u: UserId,
    v: UserId,
    put: bool,
) -> Option<RelationFault>
    ensures { result ≡ cond put (relate_fault (shapes declared.now) rho u v)
        (unrelate_fault (shapes declared.now) rho u v) }
{
    match kind_at(declared, rho) {
        None => Some(RelationFault::Fixed),
        Some(kind) => kind_fault(kind, u, v, put),
    }
}

fn kind_fault(kind: &Kind, u: UserId, v: UserId, put: bool) -> Option<RelationFault>
    ensures { result ≡ cond put (put_fault (Some (kind_view kind.now)) u v)
        (take_fault (Some (kind_view kind.now)) u v) }
{
    match kind {
        Kind::Complement(_) => Some(RelationFault::Fixed),
        Kind::Listed(pairs) => {
            let has = pairs.get().has(u, v);
            if !put {
                if has {
                    None
                } else {
                    Some(RelationFault::Absent)
                }
            } else if has {
                Some(RelationFault::Already)
            } else if pairs.get().len() >= PAIR_LIMIT {
                Some(RelationFault::Full)
            } else {
                None
            }
        }
    }
}

/// Declares a listed relation with these pairs, at the end.
pub(crate) fn push_listed(
    declared: &mut Vec<Relation>,
    name: Name,
    pairs: UserPairs,
) -> Result<(), AllocError>
    ensures pushed { OnOk result (shapes declared.new.items
        ≡ shapes declared.old.items ++ record { name = name; kind = listed pairs } ∷ []) }
    ensures unchanged { OnErr result (declared.new.items ≡ declared.old.items) }
{
    let kind = Kind::of_pairs(*declared.allocator(), pairs)?;
    declared.push(Relation { name, kind })?;
    Ok(())
}

/// Makes a declared relation one of this kind.
pub(crate) fn set_kind(declared: &mut [Relation], rho: RelId, kind: Kind)
    requires { kind_of (shapes declared.old) rho ≢ None }
    ensures { shapes declared.new ≡ with_kind (shapes declared.old) rho (kind_view kind) }
{
    if let Some(place) = place(declared, rho) {
        declared[place].kind = kind;
    }
}

/// Puts a pair into a listed relation, or takes it out of it.
pub(crate) fn change(
    declared: &mut [Relation],
    rho: RelId,
    u: UserId,
    v: UserId,
    put: bool,
) -> Result<(), RelationFault>
    requires { IsTrue put → (u < USER_LIMIT) × (v < USER_LIMIT) }
    ensures changed { OnOk result (shapes declared.new
        ≡ with_kind (shapes declared.old) rho
        (listed (changed put (pairs_of (shapes declared.old) rho) (u, v)))) }
    ensures fault { AnswersFault (cond put (relate_fault (shapes declared.old) rho u v)
        (unrelate_fault (shapes declared.old) rho u v)) result }
    ensures unchanged { OnErr result (shapes declared.new ≡ shapes declared.old) }
{
    let Some(place) = place(declared, rho) else {
        return Err(RelationFault::Fixed);
    };
    let relation = &mut declared[place];
    change_pair(&mut relation.kind, u, v, put)
}

fn change_pair(kind: &mut Kind, u: UserId, v: UserId, put: bool) -> Result<(), RelationFault>
    requires { IsTrue put → (u < USER_LIMIT) × (v < USER_LIMIT) }
    ensures changed { OnOk result (kind_view kind.new
        ≡ listed (changed put (listed_pairs (Some (kind_view kind.old))) (u, v))) }
    ensures fault { AnswersFault (cond put (put_fault (Some (kind_view kind.old)) u v)
        (take_fault (Some (kind_view kind.old)) u v)) result }
    ensures unchanged { OnErr result (kind_view kind.new ≡ kind_view kind.old) }
{
    if let Some(fault) = kind_fault(kind, u, v, put) {
        return Err(fault);
    }
    let Kind::Listed(pairs) = kind else {
        return Err(RelationFault::Fixed);
    };
    // others may have a share of the pairs
    let Ok(own) = pairs.edit() else {
        return Err(RelationFault::NoMemory);
    };
    let done = if put {
        own.insert(u, v)
    } else {
        own.remove(u, v)
    };
    match done {
        Ok(_) => Ok(()),
        Err(_) => Err(RelationFault::NoMemory),
    }
}

/// The number of the relation with a name.
pub(crate) fn find(declared: &[Relation], name: &Name) -> Option<RelId>
    requires { length declared.now ≤ RELATION_LIMIT }
    ensures place { result ≡ place_of (known_names (shapes declared.now)) name.now }
    ensures within { IfSome result (λ rho. rho < length (shapes declared.now) + 2) }
{
    if *name == known_name("same") {
        return Some(RelId::SAME);
    }
    if *name == known_name("other") {
        return Some(RelId::OTHER);
    }
    match find_declared(declared, name) {
        Some(place) => Some(RelId(place as u8 + 2)),
        None => None,
    }
}

fn find_declared(declared: &[Relation], name: &Name) -> Option<usize>
    ensures place { result ≡ position (λ relation. pointwise nat_eq name.now relation.name)
        declared.now }
    ensures within { IfSome result (λ place. place < length declared.now) }
{
    declared.iter().position(|relation| *name == relation.name)
}

pub(crate) fn name(declared: &[Relation], rho: RelId) -> Name
    requires { rho < length (shapes declared.now) + 2 }
    ensures { slice_get (known_names (shapes declared.now)) rho ≡ Some result }
{
    match rho.0 {
        0 => known_name("same"),
        1 => known_name("other"),
        _ => declared[rho.0 as usize - 2].name,
    }
}

fn known_name(text: &str) -> Name
    requires { IsTrue (is_name text.now) }
    ensures { result ≡ text.now }
{
    match Name::read(text) {
        Some(name) => name,
        None => unreachable!(),
    }
}

/// The same relations.
pub(crate) fn copy(alloc: Global, declared: &[Relation]) -> Result<Vec<Relation>, AllocError>
    ensures { IfOk result (λ copies. shapes copies.items ≡ shapes declared.now) }
{
    let mut copies = Vec::with_capacity(alloc, declared.len())?;
    push_copies(&mut copies, declared)?;
    Ok(copies)
}

fn push_copies(copies: &mut Vec<Relation>, declared: &[Relation]) -> Result<(), AllocError>
    requires { copies.old.items ≡ [] }
    ensures { OnOk result (shapes copies.new.items ≡ shapes declared.now) }
{
    'copying: for relation in declared {
        push_copy(copies, relation)?;
    }
    Ok(())
}

fn push_copy(copies: &mut Vec<Relation>, relation: &Relation) -> Result<(), AllocError>
    ensures { OnOk result (shapes copies.new.items
        ≡ shapes copies.old.items ++ relation_view relation.now ∷ []) }
{
    let copy = copy_one(relation)?;
    copies.push(copy)?;
    Ok(())
}

fn copy_one(relation: &Relation) -> Result<Relation, AllocError>
    ensures { IfOk result (λ copy. relation_view copy ≡ relation_view relation.now) }
{
    let kind = match &relation.kind {
        Kind::Listed(pairs) => Kind::Listed(pairs.share()?),
        Kind::Complement(of) => Kind::Complement(*of),
    };
    Ok(Relation {
        name: relation.name,
        kind,
    })
}
