//! Reads the relations of a policy file. Their faults carry the relation's number.
ghost use Rattle.std.specs.Prelude.{◌≡◌, ℕ, Bool, List, ◌<◌, ◌≤◌, ◌+◌, ◌++◌, ◌∷◌, [], length, map};
ghost use Rattle.std.specs.Prelude.{is_some, IfOk, IfErr, OnOk, option_map, false};
ghost use Rattle.toml.specs.Data.{Data};
ghost use Rattle.toml.specs.View.{view, table_view};
ghost use Rattle.wf_names.specs.declared.limits.TheConstants.{RELATION_LIMIT, USER_LIMIT};
ghost use Rattle.wf_names.specs.Table.{place_of};
ghost use Rattle.user_relations.specs.Laws.Relations.{complement};
ghost use Rattle.policy_book.specs.Laws.Facts.{AreOfUsers};
ghost use Rattle.policy_reader.specs.Kinds.{is_marked, IsTarget, IsReadKind, AreReadRelations};
ghost use Rattle.policy_reader.specs.Kinds.{HasReadNext};
ghost use Rattle.policy_reader.specs.Laws.Printable.{Ascend};
ghost use Rattle.user_relations.specs.Laws.Soundness.{AreSoundRelations};
ghost use Rattle.user_relations.specs.View.{kind_view, shapes};
ghost use Rattle.policy_reader.specs.Faults.{fault_of};
ghost use Rattle.policy_reader.specs.Parts as parts;
ghost use Rattle.policy_reader.specs.Parts.{entries};
ghost use Rattle.policy_reader.specs.Relations as spec;
ghost use Rattle.policy_reader.specs.Relations.{first_declared, names_of};
ghost use Rattle.policy_reader.specs.declared.fault.ReadFault.TheVariants.{NoMemory};
ghost use Rattle.basics.specs.Laws.Reading.{Gives, each};

use crate::fault::{PolicyKind, PolicyPart, ReadFault, refuse, refuse_text};
use crate::pairs::read_pairs;
use crate::parts::{array_of, at_most, find, is_among, name_of, table_of, text_of};
use std::alloc::Global;
use toml::Value;
use toml::value::Table;
use user_relations::{Kind, Relation, Relations, UserPairs};
use wf_names::{Name, NameTable, PAIR_LIMIT, RELATION_LIMIT, RelId};

/// Whether a table has one entry.
#[tactic(auto, using(crate::proofs::Counts::count_entries))]
fn has_one(table: &Table) -> bool
    ensures { result ≡ spec.has_one (table_view table.now) }
{
    table.len() == 1
}

/// Whether a value is that of a complement.
fn is_complement(value: &Value) -> bool
    ensures { result ≡ spec.is_complement (view value.now) }
{
    match value.as_table() {
        Some(table) => has_one(table) && find(table, "complement").is_some(),
        None => false,
    }
}

/// The number of the relation with a name and whether it is a complement.
fn entry_of(all: &Table, text: &str) -> Option<(u8, bool)>
    requires few { length all.now.entries ≤ RELATION_LIMIT }
    ensures { result ≡ spec.entry_of first_declared text.now (entries (table_view all.now)) }
{
    let mut number: u8 = 2;
    'entries: for (key, value) in all {
        if text == key.as_str() {
            return Some((number, is_complement(value)));
        }
        number += 1;
    }
    None
}

/// Reads the relation whose complement a relation is.
#[tactic(auto, unfolding(crate::specs::Relations::complement_in))]
fn complement_of(all: &Table, number: u32, value: &Value) -> Result<RelId, ReadFault>
    requires few { length all.now.entries ≤ RELATION_LIMIT }
    ensures read { Gives fault_of (λ rho. complement rho) result
        (spec.complement_in (table_view all.now) number (view value.now)) }
    ensures target { IfOk result (IsTarget (entries (table_view all.now))) }
{
    let text = text_of(value, PolicyPart::Relations, number)?;
    let Some(_name) = Name::read(text) else {
        return Err(refuse(PolicyKind::Unknown, PolicyPart::Relations, number));
    };
    match entry_of(all, text) {
        Some((other, false)) => Ok(RelId(other)),
        Some((_, true)) => Err(refuse_text(PolicyKind::Chain, PolicyPart::Relations, number, text)),
        None => Err(refuse_text(PolicyKind::Unknown, PolicyPart::Relations, number, text)),
    }
}

/// Reads a listed relation.
#[tactic(auto, unfolding(crate::specs::Relations::listed_in))]
fn listed_kind(
    alloc: Global,
    users: &NameTable,
    number: u32,
    value: &Value,
) -> Result<Kind, ReadFault>
    requires known { length users.now.names ≤ USER_LIMIT }
    ensures read { Gives fault_of kind_view result
        (spec.listed_in users.now.names number (view value.now)) }
    ensures kept { IfOk result (λ k. (all : List (List ℕ × Data)) (marked : Bool)
        → IsReadKind (length users.now.names) all marked (kind_view k)) }
{
    let items = array_of(value, PolicyPart::Relations, number)?;
    at_most(PAIR_LIMIT, items.len(), PolicyPart::Relations, number)?;
    let none = UserPairs::new(alloc)?;
    let pairs = read_pairs(none, users, items, PolicyPart::Relations, number)?;
    match Kind::of_pairs(alloc, pairs) {
        Ok(kind) => Ok(kind),
        Err(_) => Err(ReadFault::NoMemory),
    }
}

/// Reads what a value says that a relation is.
#[tactic(auto, unfolding(crate::specs::Relations::kind_at, crate::specs::Relations::kind_in))]
fn kind_at(
    alloc: Global,
    users: &NameTable,
    all: &Table,
    number: u32,
    value: &Value,
) -> Result<Kind, ReadFault>
    requires known { length users.now.names ≤ USER_LIMIT }
    requires few { length all.now.entries ≤ RELATION_LIMIT }
    ensures read { Gives fault_of kind_view result
        (spec.kind_at users.now.names (table_view all.now) number (view value.now)) }
    ensures kept { IfOk result (λ k. IsReadKind (length users.now.names)
        (entries (table_view all.now)) (spec.is_complement (view value.now)) (kind_view k)) }
{
    let table = table_of(value, PolicyPart::Relations, number)?;
    if !has_one(table) {
        return Err(refuse(PolicyKind::Shape, PolicyPart::Relations, number));
    }
    if let Some(value) = find(table, "pairs") {
        return listed_kind(alloc, users, number, value);
    }
    let Some(value) = find(table, "complement") else {
        return Err(refuse(PolicyKind::Shape, PolicyPart::Relations, number));
    };
    let rho = complement_of(all, number, value)?;
    Ok(Kind::Complement(rho))
}

fn push_relation(relations: &mut Vec<Relation>, name: Name, kind: Kind) -> Result<(), ReadFault>
    ensures added { OnOk result (shapes relations.new.items
        ≡ shapes relations.old.items ++ record { name = name; kind = kind_view kind } ∷ []) }
    ensures memory { IfErr result (λ e. e ≡ NoMemory) }
{
    match relations.push(Relation { name, kind }) {
        Ok(()) => Ok(()),
        Err(_) => Err(ReadFault::NoMemory),
    }
}

/// The name of a relation, which no built-in one has.
#[tactic(auto, unfolding(crate::specs::Relations::free_name_in))]
fn free_name(text: &str, number: u32) -> Result<Name, ReadFault>
    ensures read { Gives fault_of (λ _. tt) result (spec.free_name_in number text.now) }
    ensures value { IfOk result (λ n. n ≡ text.now) }
    ensures free { IfOk result (λ _. spec.is_built_in text.now ≡ false) }
{
    let name = name_of(text, PolicyPart::Relations, number)?;
    if is_among(&["same", "other"], text) {
        return Err(refuse_text(PolicyKind::Reserved, PolicyPart::Relations, number, text));
    }
    Ok(name)
}

/// Reads the next relation.
#[tactic(auto, unfolding(crate::specs::Relations::next_relation))]
fn next_relation(
    alloc: Global,
    users: &NameTable,
    all: &Table,
    relations: &mut Vec<Relation>,
    key: &str,
    value: &Value,
) -> Result<(), ReadFault>
    requires known { length users.now.names ≤ USER_LIMIT }
    requires few { length all.now.entries ≤ RELATION_LIMIT }
    requires room { length (shapes relations.old.items) < RELATION_LIMIT }
    requires new { parts.lists_text (names_of (shapes relations.old.items)) key.now ≡ false }
    requires kept { AreReadRelations (length users.now.names) (entries (table_view all.now))
        (shapes relations.old.items) }
    requires here { is_marked first_declared (entries (table_view all.now))
        (first_declared + length (shapes relations.old.items))
        ≡ spec.is_complement (view value.now) }
    ensures read { Gives fault_of (λ _. shapes relations.new.items) result
        (spec.next_relation users.now.names (table_view all.now) (shapes relations.old.items)
        (key.now, view value.now)) }
    ensures next { OnOk result (HasReadNext (length users.now.names)
        (entries (table_view all.now)) (shapes relations.old.items)
        (shapes relations.new.items) key.now) }
{
    let number = relations.len() as u32 + 2;
    let name = free_name(key, number)?;
    match kind_at(alloc, users, all, number, value) {
        Ok(kind) => push_relation(relations, name, kind),
        Err(fault) => Err(fault),
    }
}

/// Reads the relations into an empty list.
fn all_relations(
    alloc: Global,
    users: &NameTable,
    all: &Table,
    relations: &mut Vec<Relation>,
) -> Result<(), ReadFault>
    requires none { relations.old.items ≡ [] }
    requires users { length users.now.names ≤ USER_LIMIT }
    requires few { length all.now.entries ≤ RELATION_LIMIT }
    ensures read { Gives fault_of (λ _. shapes relations.new.items) result
        (each (spec.next_relation users.now.names (table_view all.now)) []
        (entries (table_view all.now))) }
    ensures sound { OnOk result (AreSoundRelations (shapes relations.new.items)) }
    ensures related { OnOk result (AreOfUsers (length users.now.names)
        (shapes relations.new.items)) }
    ensures ascend { OnOk result (Ascend (names_of (shapes relations.new.items))) }
{
    'entries: for (key, value) in all {
        if let Err(fault) = next_relation(alloc, users, all, relations, key.as_str(), value) {
            return Err(fault);
        }
    }
    Ok(())
}

#[tactic(auto, unfolding(crate::specs::Relations::relations_in))]
fn relations_in(alloc: Global, users: &NameTable, value: &Value) -> Result<Relations, ReadFault>
    requires users { length users.now.names ≤ USER_LIMIT }
    ensures read { Gives fault_of (λ r. r) result
        (spec.relations_in users.now.names (view value.now)) }
    ensures related { IfOk result (AreOfUsers (length users.now.names)) }
    ensures ascend { IfOk result (λ r. Ascend (names_of r)) }
{
    let all = table_of(value, PolicyPart::Relations, 0)?;
    at_most(RELATION_LIMIT as usize, all.len(), PolicyPart::Relations, 0)?;
    relations_of(alloc, users, all)
}

/// Reads the relations of a table of them.
fn relations_of(alloc: Global, users: &NameTable, all: &Table) -> Result<Relations, ReadFault>
    requires users { length users.now.names ≤ USER_LIMIT }
    requires few { length all.now.entries ≤ RELATION_LIMIT }
    ensures read { Gives fault_of (λ r. r) result
        (each (spec.next_relation users.now.names (table_view all.now)) []
        (entries (table_view all.now))) }
    ensures related { IfOk result (AreOfUsers (length users.now.names)) }
    ensures ascend { IfOk result (λ r. Ascend (names_of r)) }
{
    let mut relations = Vec::new(alloc);
    match all_relations(alloc, users, all, &mut relations) {
        Ok(()) => Ok(Relations::build(relations)?),
        Err(fault) => Err(fault),
    }
}

/// Reads the relations of a policy file.
#[tactic(auto, unfolding(crate::specs::Relations::relations_of))]
pub(crate) fn read_relations(
    alloc: Global,
    users: &NameTable,
    file: &Table,
) -> Result<Relations, ReadFault>
    requires users { length users.now.names ≤ USER_LIMIT }
    ensures read { Gives fault_of (λ r. r) result
        (spec.relations_of users.now.names (table_view file.now)) }
    ensures related { IfOk result (AreOfUsers (length users.now.names)) }
    ensures ascend { IfOk result (λ r. Ascend (names_of r)) }
{
    match find(file, "relations") {
        Some(value) => relations_in(alloc, users, value),
        None => Ok(Relations::new(alloc)?),
    }
}
