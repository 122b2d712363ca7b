//! What the readers of all tables have in common. Each takes the table and the number that its
//! faults carry.
ghost use Rattle.std.specs.Prelude.{◌≡◌, ◌<◌, ◌≤◌, ◌+◌, length, map, IfOk, OnOk, option_map};
ghost use Rattle.toml.specs.View.{view, items_view, table_view, array_view};
ghost use Rattle.toml.specs.Data.{Data, get_member};
ghost use Rattle.policy_reader.specs.Faults.{fault_of, fault_about};
ghost use Rattle.policy_reader.specs.declared.fault.ReadFault.TheVariants.{Policy};
ghost use Rattle.policy_reader.specs.declared.fault.PolicyKind.TheVariants as kind;
ghost use Rattle.policy_reader.specs.Parts as parts;
ghost use Rattle.basics.specs.Laws.Reading.{Gives, each};

use crate::fault::{PolicyKind, PolicyPart, ReadFault, refuse, refuse_text};
use std::alloc::Global;
use toml::Value;
use toml::value::{Array, Table};
use wf_names::{Name, NameFault, NameTable};

/// The value at a key that has to be there.
#[tactic(auto, unfolding(crate::specs::Parts::value_at))]
pub(crate) fn value_at<'t>(
    table: &'t Table,
    key: &str,
    part: PolicyPart,
    index: u32,
) -> Result<&'t Value, ReadFault>
    ensures { Gives fault_of (λ v. view v.now) result
        (parts.value_at part index key.now (table_view table.now)) }
{
    match find(table, key) {
        Some(value) => Ok(value),
        None => Err(refuse_text(PolicyKind::Missing, part, index, key)),
    }
}

/// The value at a key.
pub(crate) fn find<'t>(table: &'t Table, key: &str) -> Option<&'t Value>
    ensures { option_map (λ v. view v.now) result ≡ get_member key.now (table_view table.now) }
{
    table.get(key)
}

/// The text that a value has to be.
#[tactic(auto, unfolding(crate::specs::Parts::text_in))]
pub(crate) fn text_of(value: &Value, part: PolicyPart, index: u32) -> Result<&str, ReadFault>
    ensures { Gives fault_of (λ t. t.now) result (parts.text_in part index (view value.now)) }
{
    match value.as_str() {
        Some(text) => Ok(text),
        None => Err(refuse(PolicyKind::Shape, part, index)),
    }
}

/// The array that a value has to be.
#[tactic(auto, unfolding(crate::specs::Parts::array_in), using(crate::proofs::Counts::count_items))]
pub(crate) fn array_of(value: &Value, part: PolicyPart, index: u32) -> Result<&Array, ReadFault>
    ensures read { Gives fault_of (λ v. array_view v.now) result
        (parts.array_in part index (view value.now)) }
    ensures count { IfOk result (λ v. length (parts.items (array_view v.now))
        ≡ length v.now.items) }
{
    match value.as_array() {
        Some(items) => Ok(items),
        None => Err(refuse(PolicyKind::Shape, part, index)),
    }
}

/// The table that a value has to be.
#[tactic(auto, unfolding(crate::specs::Parts::table_in))]
pub(crate) fn table_of(value: &Value, part: PolicyPart, index: u32) -> Result<&Table, ReadFault>
    ensures read { Gives fault_of (λ t. table_view t.now) result
        (parts.table_in part index (view value.now)) }
    ensures count { IfOk result (λ t. length (parts.entries (table_view t.now))
        ≡ length t.now.entries) }
{
    match value.as_table() {
        Some(members) => Ok(members),
        None => Err(refuse(PolicyKind::Shape, part, index)),
    }
}

/// A count that may not pass a limit.
#[tactic(auto, unfolding(crate::specs::Parts::at_most))]
pub(crate) fn at_most(
    limit: usize,
    count: usize,
    part: PolicyPart,
    index: u32,
) -> Result<(), ReadFault>
    ensures read { Gives fault_of (λ u. u) result (parts.at_most part index limit count) }
    ensures few { OnOk result (count ≤ limit) }
{
    if count > limit {
        return Err(refuse(PolicyKind::TooMany, part, index));
    }
    Ok(())
}

/// A count that may not be 0.
#[tactic(auto, unfolding(crate::specs::Parts::at_least_one))]
pub(crate) fn at_least_one(count: usize, part: PolicyPart, index: u32) -> Result<(), ReadFault>
    ensures read { Gives fault_of (λ u. u) result (parts.at_least_one part index count) }
    ensures some { OnOk result (0 < count) }
{
    if count == 0 {
        return Err(refuse(PolicyKind::Empty, part, index));
    }
    Ok(())
}

/// The table at a key that has to be there.
#[tactic(auto, unfolding(crate::specs::Parts::table_at))]
pub(crate) fn table_at<'t>(
    table: &'t Table,
    key: &str,
    part: PolicyPart,
    index: u32,
) -> Result<&'t Table, ReadFault>
    ensures read { Gives fault_of (λ v. table_view v.now) result
        (parts.table_at part index key.now (table_view table.now)) }
    ensures count { IfOk result (λ v. length (parts.entries (table_view v.now))
        ≡ length v.now.entries) }
{
    let value = value_at(table, key, part, index)?;
    table_of(value, part, index)
}

/// A count that may neither be 0 nor pass a limit.
#[tactic(auto, unfolding(crate::specs::Parts::count_in))]
fn counted(limit: usize, count: usize, part: PolicyPart, index: u32) -> Result<(), ReadFault>
    ensures read { Gives fault_of (λ u. u) result (parts.count_in part index limit count) }
    ensures some { OnOk result (0 < count) }
    ensures few { OnOk result (count ≤ limit) }
{
    match at_least_one(count, part, index) {
        Ok(()) => at_most(limit, count, part, index),
        Err(fault) => Err(fault),
    }
}

/// The array at a key, of at least one item and at most `limit`.
#[tactic(auto, unfolding(crate::specs::Parts::items_at, crate::specs::Parts::array_at))]
pub(crate) fn items_at<'t>(
    limit: usize,
    table: &'t Table,
    key: &str,
    part: PolicyPart,
    index: u32,
) -> Result<&'t Array, ReadFault>
    ensures read { Gives fault_of (λ v. array_view v.now) result
        (parts.items_at part index limit key.now (table_view table.now)) }
    ensures some { IfOk result (λ v. 0 < length v.now.items) }
    ensures few { IfOk result (λ v. length v.now.items ≤ limit) }
{
    let value = value_at(table, key, part, index)?;
    let items = array_of(value, part, index)?;
    counted(limit, items.len(), part, index)?;
    Ok(items)
}

/// The table at a key, of at least one entry and at most `limit`.
#[tactic(auto, unfolding(crate::specs::Parts::entries_at))]
pub(crate) fn entries_at<'t>(
    limit: usize,
    table: &'t Table,
    key: &str,
    part: PolicyPart,
    index: u32,
) -> Result<&'t Table, ReadFault>
    ensures read { Gives fault_of (λ t. table_view t.now) result
        (parts.entries_at part index limit key.now (table_view table.now)) }
    ensures some { IfOk result (λ t. 0 < length t.now.entries) }
    ensures few { IfOk result (λ t. length t.now.entries ≤ limit) }
{
    let entries = table_at(table, key, part, index)?;
    counted(limit, entries.len(), part, index)?;
    Ok(entries)
}

/// The name that a text has to be.
#[tactic(auto, unfolding(crate::specs::Parts::name_in))]
pub(crate) fn name_of(text: &str, part: PolicyPart, index: u32) -> Result<Name, ReadFault>
    ensures read { Gives fault_of (λ _. tt) result (parts.name_in part index text.now) }
    ensures value { IfOk result (λ n. n ≡ text.now) }
{
    match Name::read(text) {
        Some(name) => Ok(name),
        None => Err(refuse(PolicyKind::Name, part, index)),
    }
}

/// The name that a value has to be.
#[tactic(auto, unfolding(crate::specs::Parts::text_name_in))]
pub(crate) fn text_name_of(value: &Value, part: PolicyPart, index: u32) -> Result<Name, ReadFault>
    ensures { Gives fault_of (λ n. n) result (parts.text_name_in part index (view value.now)) }
{
    let text = text_of(value, part, index)?;
    name_of(text, part, index)
}

/// The number of a name that is declared.
#[tactic(auto, unfolding(crate::specs::Parts::number_in))]
pub(crate) fn number_of(
    names: &NameTable,
    text: &str,
    part: PolicyPart,
    index: u32,
) -> Result<u16, ReadFault>
    ensures read { Gives fault_of (λ n. n) result
        (parts.number_in part index names.now.names text.now) }
    ensures within { IfOk result (λ n. n < length names.now.names) }
{
    let Some(name) = Name::read(text) else {
        return Err(refuse(PolicyKind::Unknown, part, index));
    };
    match names.find(&name) {
        Some(number) => Ok(number),
        None => Err(refuse_text(PolicyKind::Unknown, part, index, text)),
    }
}

/// The number of the declared name that a value says.
#[tactic(auto, unfolding(crate::specs::Parts::named_in))]
pub(crate) fn named_of(
    names: &NameTable,
    value: &Value,
    part: PolicyPart,
    index: u32,
) -> Result<u16, ReadFault>
    ensures read { Gives fault_of (λ n. n) result
        (parts.named_in part index names.now.names (view value.now)) }
    ensures within { IfOk result (λ n. n < length names.now.names) }
{
    let text = text_of(value, part, index)?;
    number_of(names, text, part, index)
}

/// The fault of a value that stands twice.
pub(crate) fn twice(value: &Value, part: PolicyPart, index: u32) -> ReadFault
    ensures { result ≡ Policy (fault_about kind.Twice part index (parts.said (view value.now))) }
{
    match value.as_str() {
        Some(text) => refuse_text(PolicyKind::Twice, part, index, text),
        None => refuse_text(PolicyKind::Twice, part, index, ""),
    }
}

/// Adds the next name of a list of distinct names.
#[tactic(auto, unfolding(crate::specs::Parts::next_name, crate::specs::Parts::once))]
pub(crate) fn next_name(
    names: &mut NameTable,
    value: &Value,
    part: PolicyPart,
    index: u32,
) -> Result<(), ReadFault>
    requires room { length names.old.names < names.old.limit }
    ensures read { Gives fault_of (λ _. names.new.names) result
        (parts.next_name part index names.old.names (view value.now)) }
    ensures limit { OnOk result (names.new.limit ≡ names.old.limit) }
    ensures count { OnOk result (length names.new.names ≡ length names.old.names + 1) }
{
    let name = text_name_of(value, part, index)?;
    match names.add(name) {
        Ok(_) => Ok(()),
        Err(NameFault::Twice) => Err(refuse_text(PolicyKind::Twice, part, index, name.as_str())),
        Err(NameFault::Full) => unreachable!(),
        Err(NameFault::NoMemory) => Err(ReadFault::NoMemory),
    }
}

/// Refuses the least key that is not one of the known ones.
#[tactic(auto, unfolding(crate::specs::Parts::no_others))]
pub(crate) fn no_others(
    table: &Table,
    known: &[&str],
    part: PolicyPart,
    index: u32,
) -> Result<(), ReadFault>
    ensures { Gives fault_of (λ u. u) result
        (parts.no_others part index (map (λ k. k.now) known.now) (table_view table.now)) }
{
    'entries: for (key, _value) in table {
        if let Err(fault) = known_key(key.as_str(), known, part, index) {
            return Err(fault);
        }
    }
    Ok(())
}

#[tactic(auto, unfolding(crate::specs::Parts::known_key))]
fn known_key(key: &str, known: &[&str], part: PolicyPart, index: u32) -> Result<(), ReadFault>
    ensures { (d : Data) → Gives fault_of (λ u. u) result
        (parts.known_key part index (map (λ k. k.now) known.now) tt (key.now, d)) }
{
    if is_among(known, key) {
        Ok(())
    } else {
        Err(refuse_text(PolicyKind::Extra, part, index, key))
    }
}

/// Whether a text is one of `texts`.
pub(crate) fn is_among(texts: &[&str], text: &str) -> bool
    ensures { result ≡ parts.lists_text (map (λ k. k.now) texts.now) text.now }
{
    'texts: for word in texts {
        if text == *word {
            return true;
        }
    }
    false
}
