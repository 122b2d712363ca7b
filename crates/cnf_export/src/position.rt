//! How far an encoder has come.
ghost use Rattle.std.specs.Prelude.{◌≡◌, ◌≤◌, ◌<◌, ◌^◌, suc, List, length, false, true, Bool, OnOk};
ghost use Rattle.std.specs.Prelude.{OnErr, IfOk};
ghost use Rattle.cnf_export.specs.Positions.{clause_at, left_from, StandsReady, HasGiven};
ghost use Rattle.cnf_export.specs.Terms.{encoding_in};
ghost use Rattle.std.specs.List.{flat_map};
ghost use Rattle.cnf_export.specs.Laws.Encodings.{Encoding, group_clauses};
ghost use Rattle.cnf_export.specs.declared.group.Group.{Group as AnyGroup};

use crate::Literals;
use crate::group::Group;
use crate::listed::Items;
use crate::terms::Terms;
use std::alloc::{AllocError, Global};
use wf_names::StepId;

/// A group with its parts, of which those before `part` are given or listed, and the items of the
/// part that was listed last, of which those before `item` are given.
#[derive(Drop)]
pub(crate) struct Position {
    next_group: usize,
    current: Group,
    parts: u16,
    part: u16,
    listed: u16,
    items: Items,
    item: usize,
}

/// Gives the next clause, if there is one.
pub(crate) fn give(
    terms: &Terms,
    groups: &[Group],
    at: &mut Position,
    into: &mut Literals,
) -> Result<bool, AllocError>
    ensures given { IfOk result
        (λ more. HasGiven (left_from (encoding_in terms.now) groups.now at.old) more into.new
        (left_from (encoding_in terms.now) groups.now at.new)) }
    ensures unchanged { OnErr result (left_from (encoding_in terms.now) groups.now at.new
        ≡ left_from (encoding_in terms.now) groups.now at.old) }
{
    skip(terms, groups, at)?;
    if at.item >= at.items.len() {
        return Ok(false);
    }
    write_item(terms, at, into)?;
    at.item += 1;
    Ok(true)
}

fn write_item(terms: &Terms, at: &Position, into: &mut Literals) -> Result<(), AllocError>
    requires { at.now.item < length at.now.items }
    ensures { OnOk result (into.new ≡ clause_at (encoding_in terms.now) at.now) }
{
    let item = *at.items.get(at.item);
    terms.write_clause(&at.current, at.listed, item, into)
}

// Goes on to the next item, if there is one. No clause is left out.
fn skip(terms: &Terms, groups: &[Group], at: &mut Position) -> Result<(), AllocError>
    ensures left { left_from (encoding_in terms.now) groups.now at.new
        ≡ left_from (encoding_in terms.now) groups.now at.old }
    ensures ready { OnOk result (StandsReady groups.now at.new) }
{
    'skipping: while at.item >= at.items.len() {
        if at.part < at.parts {
            list_part(terms, groups, at)?;
        } else if at.next_group < groups.len() {
            enter(terms, groups, at);
        } else {
            return Ok(());
        }
    }
    Ok(())
}

// Lists the items of the next part.
fn list_part(terms: &Terms, groups: &[Group], at: &mut Position) -> Result<(), AllocError>
    requires done { length at.old.items ≤ at.old.item }
    requires some { at.old.part < at.old.parts }
    ensures left { left_from (encoding_in terms.now) groups.now at.new
        ≡ left_from (encoding_in terms.now) groups.now at.old }
    ensures parts { OnOk result (at.new.parts ≡ at.old.parts) }
    ensures part { OnOk result (at.new.part ≡ suc at.old.part) }
    ensures group { OnOk result (at.new.next_group ≡ at.old.next_group) }
{
    let _ = groups;
    match terms.list_items(&at.current, at.part, &mut at.items) {
        Ok(()) => {
            at.listed = at.part;
            at.part += 1;
            at.item = 0;
            Ok(())
        }
        Err(e) => {
            at.items.truncate(0);
            Err(e)
        }
    }
}

// Goes on to the next group.
fn enter(terms: &Terms, groups: &[Group], at: &mut Position)
    requires done { length at.old.items ≤ at.old.item }
    requires all { at.old.parts ≤ at.old.part }
    requires some { at.old.next_group < length groups.now }
    ensures left { left_from (encoding_in terms.now) groups.now at.new
        ≡ left_from (encoding_in terms.now) groups.now at.old }
    ensures group { at.new.next_group ≡ suc at.old.next_group }
    ensures few { at.new.parts < 2 ^ 16 }
{
    at.current = groups[at.next_group];
    at.parts = terms.parts(&at.current);
    at.part = 0;
    at.next_group += 1;
}

/// Goes back to before the first group.
pub(crate) fn start(at: &mut Position)
    ensures { (e : Encoding) → (groups : List AnyGroup) → left_from e groups at.new
        ≡ flat_map (group_clauses e) groups }
{
    at.items.truncate(0);
    at.item = 0;
    at.part = 0;
    at.parts = 0;
    at.next_group = 0;
}

impl Position {
    /// Before the first group.
    pub(crate) fn before(alloc: Global) -> Position
        ensures { (e : Encoding) → (groups : List AnyGroup) → left_from e groups result
            ≡ flat_map (group_clauses e) groups }
    {
        Position {
            next_group: 0,
            current: Group::Outside(StepId(0)),
            parts: 0,
            part: 0,
            listed: 0,
            items: Items::new(alloc),
            item: 0,
        }
    }
}
