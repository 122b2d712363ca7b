//! What the values of all tables that are written have in common.
ghost use Rattle.std.specs.Prelude.{◌≡◌, ◌<◌, ◌++◌, ◌∷◌, [], length, map, true, IfOk, OnOk};
ghost use Rattle.toml.specs.Data.{string};
ghost use Rattle.toml.specs.View.{view, table_view};
ghost use Rattle.std.specs.List.{All};
ghost use Rattle.wf_names.specs.Names.{is_name};
ghost use Rattle.policy_reader.specs.Documents as spec;
ghost use Rattle.wf_names.specs.Table.{AreNames};

use std::alloc::{AllocError, Global};
use toml::Value;
use toml::value::Table;
use wf_names::{Name, NameTable};

/// The text of a name.
pub(crate) fn name_value(alloc: Global, name: &Name) -> Result<Value, AllocError>
    ensures value { IfOk result (λ v. view v ≡ string name.now) }
    ensures form { is_name name.now ≡ true }
{
    Value::string(alloc, name.as_str())
}

/// The text of the name with a number.
#[tactic(auto, using(crate::proofs::Writing::name_found))]
fn numbered(alloc: Global, names: &NameTable, n: u16) -> Result<Value, AllocError>
    requires { n < length names.now.names }
    ensures { IfOk result (λ v. view v ≡ string (spec.name_at names.now.names n)) }
{
    name_value(alloc, &names.name(n))
}

/// Puts a value into a table at a key.
#[tactic(auto, using(crate::proofs::Writing::insert_view))]
pub(crate) fn put(
    alloc: Global,
    table: &mut Table,
    key: &str,
    value: Value,
) -> Result<(), AllocError>
    ensures { OnOk result (table_view table.new
        ≡ spec.with_member key.now (view value) (table_view table.old)) }
{
    let key = String::from_str(alloc, key)?;
    match table.insert(key, value) {
        Ok(_) => Ok(()),
        Err(_) => Err(AllocError),
    }
}

/// Puts the text of the name with a number into a table at a key.
pub(crate) fn put_name(
    alloc: Global,
    table: &mut Table,
    key: &str,
    names: &NameTable,
    n: u16,
) -> Result<(), AllocError>
    requires { n < length names.now.names }
    ensures { OnOk result (table_view table.new ≡ spec.with_member key.now
        (string (spec.name_at names.now.names n)) (table_view table.old)) }
{
    let value = numbered(alloc, names, n)?;
    put(alloc, table, key, value)
}

/// Puts a word into a table at a key.
pub(crate) fn put_word(
    alloc: Global,
    table: &mut Table,
    key: &str,
    word: &str,
) -> Result<(), AllocError>
    ensures { OnOk result (table_view table.new
        ≡ spec.with_member key.now (string word.now) (table_view table.old)) }
{
    let value = Value::string(alloc, word)?;
    put(alloc, table, key, value)
}

/// Puts an array of all names of a table of names into a table at a key.
pub(crate) fn put_names(
    alloc: Global,
    table: &mut Table,
    key: &str,
    names: &NameTable,
) -> Result<(), AllocError>
    ensures put { OnOk result (table_view table.new
        ≡ spec.with_member key.now (spec.names_array names.now.names) (table_view table.old)) }
    ensures named { AreNames names.now.names }
{
    let value = names_value(alloc, names)?;
    put(alloc, table, key, value)
}

/// Appends the text of the name with a number.
pub(crate) fn push_name(
    alloc: Global,
    values: &mut Vec<Value>,
    names: &NameTable,
    n: u16,
) -> Result<(), AllocError>
    requires { n < length names.now.names }
    ensures { OnOk result (map view values.new.items
        ≡ map view values.old.items ++ string (spec.name_at names.now.names n) ∷ []) }
{
    let value = numbered(alloc, names, n)?;
    push(values, value)
}

/// Appends a value.
pub(crate) fn push(values: &mut Vec<Value>, value: Value) -> Result<(), AllocError>
    ensures { OnOk result (map view values.new.items
        ≡ map view values.old.items ++ view value ∷ []) }
{
    match values.push(value) {
        Ok(()) => Ok(()),
        Err(_) => Err(AllocError),
    }
}

/// An array of all names of a table.
#[tactic(auto, using(crate::proofs::Writing::names_more))]
fn names_value(alloc: Global, names: &NameTable) -> Result<Value, AllocError>
    ensures value { IfOk result (λ v. view v ≡ spec.names_array names.now.names) }
    ensures named { AreNames names.now.names }
{
    let mut values = Vec::new(alloc);
    'names: for n in 0..names.len() {
        if push_name(alloc, &mut values, names, n).is_err() {
            return Err(AllocError);
        }
    }
    Ok(Value::Array(values))
}

fn pair_value(alloc: Global, names: &NameTable, pair: (u16, u16)) -> Result<Value, AllocError>
    requires first { pair.0 < length names.now.names }
    requires second { pair.1 < length names.now.names }
    ensures { IfOk result (λ v. view v ≡ spec.pair_data names.now.names pair) }
{
    let mut values = Vec::new(alloc);
    push_name(alloc, &mut values, names, pair.0)?;
    push_name(alloc, &mut values, names, pair.1)?;
    Ok(Value::Array(values))
}

/// Appends a pair of names.
pub(crate) fn push_pair(
    alloc: Global,
    values: &mut Vec<Value>,
    names: &NameTable,
    pair: (u16, u16),
) -> Result<(), AllocError>
    requires first { pair.0 < length names.now.names }
    requires second { pair.1 < length names.now.names }
    ensures { OnOk result (map view values.new.items
        ≡ map view values.old.items ++ spec.pair_data names.now.names pair ∷ []) }
{
    let value = pair_value(alloc, names, pair)?;
    push(values, value)
}

/// An array of pairs of names.
#[tactic(auto, using(crate::proofs::Writing::pairs_more))]
pub(crate) fn pairs_value(
    alloc: Global,
    names: &NameTable,
    pairs: &[(u16, u16)],
) -> Result<Value, AllocError>
    requires within { All (λ p. (p.0 < length names.now.names)
        × (p.1 < length names.now.names)) pairs.now }
    ensures { IfOk result (λ v. view v ≡ spec.listed_data names.now.names pairs.now) }
{
    let mut values = Vec::new(alloc);
    'pairs: for pair in pairs {
        if push_pair(alloc, &mut values, names, *pair).is_err() {
            return Err(AllocError);
        }
    }
    Ok(Value::Array(values))
}
