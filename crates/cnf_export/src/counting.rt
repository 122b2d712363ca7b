//! The items and clauses of rules that count.
ghost use Rattle.std.specs.Prelude.{◌≡◌, ◌≤◌, ◌<◌, ◌+◌, ◌*◌, ◌^◌, ◌-◌, ◌==◌, ℕ, suc, [], ◌∷◌, ◌++◌};
ghost use Rattle.std.specs.Prelude.{map, cond, List, OnOk};
ghost use Rattle.std.specs.List.{flat_map};
ghost use Rattle.cnf_export.specs.Laws.Clauses.{yes_to, no_to};
ghost use Rattle.cnf_export.specs.Laws.Encodings.{counting_clause, counts, ending_clause, has};
ghost use Rattle.cnf_export.specs.Laws.Encodings.{height};
ghost use Rattle.cnf_export.specs.Laws.Encodings.{count_rows, members, numbers, takes};
ghost use Rattle.cnf_export.specs.Laws.Encodings.{taking_clause};
ghost use Rattle.cnf_export.specs.Terms.{encoding_in};

use crate::Literals;
use crate::listed::Items;
use crate::literals::{add_no, add_three, add_two, add_yes, no_to, yes_to};
use crate::terms::Terms;
use constraint_forms::StepSet;
use std::alloc::AllocError;
use wf_names::StepId;

/// The variables of a count: the number of their block, and how many of them a user has.
#[derive(Clone, Copy)]
pub(crate) struct Count {
    pub(crate) block: u16,
    pub(crate) high: u16,
    ghost low: { high ≤ 256 },
}

/// The count in a block of a rule that limits how many users have a step.
pub(crate) fn count_in(block: u16, most: bool, limit: u8) -> Count
    ensures block { result.block ≡ block }
    ensures high { result.high ≡ height most limit }
{
    Count {
        block,
        high: height(most, limit),
    }
}

/// How many variables of a count a user has.
pub(crate) fn height(most: bool, limit: u8) -> u16
    ensures value { result ≡ height most limit }
    ensures small { result ≤ 256 }
{
    if most { limit as u16 + 1 } else { limit as u16 }
}

/// The items of a part of who has a step: the members, and that one of them is meant.
pub(crate) fn list_members(group: &StepSet, into: &mut Items) -> Result<(), AllocError>
    ensures { OnOk result (into.new ≡ map (λ t. suc t) (members group.now) ++ 0 ∷ []) }
{
    into.truncate(0);
    let limit = group.limit();
    'members: for t in 0..limit {
        if group.has(StepId(t as u8)) {
            into.push(t as u16 + 1)?;
        }
    }
    into.push(0)
}

/// The items of a part of a count: four rows for each number, of which some are left out.
pub(crate) fn list_rows(u: u16, high: u16, into: &mut Items) -> Result<(), AllocError>
    requires { high ≤ 256 }
    ensures { OnOk result (into.new
        ≡ flat_map (λ j. map (λ row. 4 * j + row) (count_rows u j)) (numbers 0 high)) }
{
    into.truncate(0);
    'numbers: for j in 0..high {
        list_row(u, j, into)?;
    }
    Ok(())
}

fn list_row(u: u16, j: u16, into: &mut Items) -> Result<(), AllocError>
    requires { j < 256 }
    ensures { OnOk result (into.new ≡ into.old ++ map (λ row. 4 * j + row) (count_rows u j)) }
{
    if u > 0 {
        into.push(4 * j)?;
    }
    if u > 0 || j == 0 {
        into.push(4 * j + 1)?;
    }
    into.push(4 * j + 2)?;
    if j > 0 {
        into.push(4 * j + 3)?;
    }
    Ok(())
}

/// That a user has some step of a group exactly where one of the steps has the user.
pub(crate) fn write_taking(
    terms: &Terms,
    block: u16,
    group: &StepSet,
    u: u16,
    k: u16,
    into: &mut Literals,
) -> Result<(), AllocError>
    ensures { OnOk result (into.new
        ≡ into.old ++ taking_clause (encoding_in terms.now) block group.now u k) }
{
    if k == 0 {
        add_no(into, terms.takes(block, u))?;
        return add_takers(terms, group, u, into);
    }
    add_two(
        into,
        no_to(terms.takes(k - 1, u)),
        yes_to(terms.takes(block, u)),
    )
}

// That some step of a group has the user, behind other literals.
fn add_takers(terms: &Terms, group: &StepSet, u: u16, into: &mut Literals) -> Result<(), AllocError>
    ensures { OnOk result (into.new
        ≡ into.old ++ map (λ t. yes_to (has (encoding_in terms.now) t u)) (members group.now)) }
{
    let limit = group.limit();
    'members: for t in 0..limit {
        if group.has(StepId(t as u8)) {
            add_yes(into, terms.has(StepId(t as u8), u))?;
        }
    }
    Ok(())
}

/// A row of a count, for the users up to u and a number j.
pub(crate) fn write_counting(
    terms: &Terms,
    count: Count,
    u: u16,
    j: u16,
    row: u16,
    into: &mut Literals,
) -> Result<(), AllocError>
    ensures { OnOk result (into.new
        ≡ into.old ++ counting_clause (encoding_in terms.now) count.block count.high u j row) }
{
    let so_many = terms.counts(count, u, j);
    let above = terms.counts(count, u.saturating_sub(1), j);
    let before = terms.counts(count, u.saturating_sub(1), j.saturating_sub(1));
    let taken = terms.takes(count.block, u);
    match row {
        0 => add_two(into, no_to(above), yes_to(so_many)),
        1 => add_three(into, no_to(taken), j == 0, no_to(before), yes_to(so_many)),
        2 => add_three(into, no_to(so_many), u == 0, yes_to(above), yes_to(taken)),
        _ => write_followed(so_many, u == 0, above, before, into),
    }
}

fn write_followed(
    so_many: u32,
    first: bool,
    above: u32,
    before: u32,
    into: &mut Literals,
) -> Result<(), AllocError>
    requires so_many { so_many < 2 ^ 30 }
    requires above { above < 2 ^ 30 }
    requires before { before < 2 ^ 30 }
    ensures { OnOk result (into.new
        ≡ into.old ++ no_to so_many ∷ cond first [] (yes_to above ∷ yes_to before ∷ [])) }
{
    add_no(into, so_many)?;
    if !first {
        add_yes(into, above)?;
        add_yes(into, before)?;
    }
    Ok(())
}

/// The literal that not more of all users have a step, or not fewer.
pub(crate) fn ending(terms: &Terms, count: Count, most: bool) -> i32
    ensures { ending_clause (encoding_in terms.now) count.block most count.high ≡ result ∷ [] }
{
    let last = terms.users().saturating_sub(1);
    let all = terms.counts(count, last, count.high.saturating_sub(1));
    if most { no_to(all) } else { yes_to(all) }
}
