//! The rows of a table of cases, ascending by number.
ghost use Rattle.std.specs.Prelude.{◌≡◌, ℕ, ◌+◌, ◌<◌, ◌≤◌, Bool, true, cond, drop, nat_lt, length};
ghost use Rattle.std.specs.Prelude.{is_some, None, Some, slice_get, slice_set, IfOk, MatchOption};
ghost use Rattle.std.specs.List.{prefix_len};
ghost use Rattle.std.specs.Vec.{vec_capacity, vec_len};
ghost use Rattle.grant_table.specs.Cases.{case_in, change_row, next_open, only, open_count};
ghost use Rattle.grant_table.specs.Cases.{open_rows, plan_of, replanned, row_at};
ghost use Rattle.grant_table.specs.Kept.{ArePassed, AscendFrom, IsRowFound, rows_of};

use crate::changes::replanned;
use case_record::Case;
use constraint_forms::Plan;
use std::alloc::{AllocError, Global};
use wf_names::CaseId;

/// A case at its number with the plan that is kept for it.
#[derive(Clone, Copy)]
pub struct Row {
    pub(crate) number: u16,
    pub(crate) case: Case,
    pub(crate) plan: Option<Plan>,
}

impl Row {
    /// The number of the case.
    pub fn number(&self) -> CaseId
        ensures { result ≡ self.now.number }
    {
        CaseId(self.number)
    }

    /// The case.
    pub fn case(&self) -> &Case
        ensures { result.now ≡ self.now.case }
    {
        &self.case
    }

    /// The plan that is kept for it.
    pub fn plan(&self) -> Option<Plan>
        ensures { result ≡ self.now.plan }
    {
        self.plan
    }
}

/// Where the first row not below a number stands.
fn place_from(rows: &[Row], n: u32) -> usize
    requires { AscendFrom 0 rows.now }
    ensures place { result ≡ prefix_len (λ r. nat_lt r.number n) rows.now }
    ensures within { result ≤ length rows.now }
{
    rows.partition_point(|row| (row.number as u32) < n)
}

/// Where the row with the number `n` stands: at the place `n`, unless a case before it is left out.
fn find(rows: &[Row], n: u16) -> Option<usize>
    requires { AscendFrom 0 rows.now }
    ensures { MatchOption result (row_at n rows.now ≡ None) (λ i. IsRowFound n rows.now i) }
{
    let at = n as usize;
    if at < rows.len() && rows[at].number == n {
        return Some(at);
    }
    search(rows, n)
}

/// Where the row with the number `n` stands, found by halving.
fn search(rows: &[Row], n: u16) -> Option<usize>
    requires { AscendFrom 0 rows.now }
    ensures { MatchOption result (row_at n rows.now ≡ None) (λ i. IsRowFound n rows.now i) }
{
    let i = place_from(rows, n as u32);
    if i < rows.len() && rows[i].number == n {
        Some(i)
    } else {
        None
    }
}

/// The row with a number.
pub(crate) fn row_of(rows: &[Row], n: u16) -> Option<Row>
    requires { AscendFrom 0 rows.now }
    ensures { result ≡ row_at n rows.now }
{
    Some(rows[find(rows, n)?])
}

/// The case with a number.
pub(crate) fn case_of(rows: &[Row], n: u16) -> Option<&Case>
    requires { AscendFrom 0 rows.now }
    ensures { MatchOption result (case_in n rows.now ≡ None)
        (λ c. case_in n rows.now ≡ Some c.now) }
{
    Some(&rows[find(rows, n)?].case)
}

/// The plan that is kept for the case with a number.
pub(crate) fn plan_in(rows: &[Row], n: u16) -> Option<&Plan>
    requires { AscendFrom 0 rows.now }
    ensures { MatchOption result (plan_of (row_at n rows.now) ≡ None)
        (λ plan. plan_of (row_at n rows.now) ≡ Some plan.now) }
{
    let i = find(rows, n)?;
    match &rows[i].plan {
        Some(plan) => Some(plan),
        None => None,
    }
}

/// Puts a row in the place of the one with its number.
pub(crate) fn put(rows: &mut Vec<Row>, row: &Row)
    requires order { AscendFrom 0 rows.old.items }
    requires there { is_some (row_at row.now.number rows.old.items) ≡ true }
    ensures rows { rows.new.items ≡ change_row row.now.number (λ _. row.now) rows.old.items }
    ensures len { vec_len rows.new ≡ vec_len rows.old }
    ensures capacity { vec_capacity rows.new ≡ vec_capacity rows.old }
{
    let Some(i) = find(rows, row.number) else {
        unreachable!()
    };
    rows[i] = *row;
}

/// Keeps other plans for the open cases, in order, as far as there are plans. No case before the
/// place `first` is open.
pub(crate) fn replan(rows: &mut Vec<Row>, first: usize, plans: &[Plan])
    requires { ArePassed rows.old.items first }
    ensures rows { rows.new.items ≡ replanned rows.old.items plans.now }
    ensures len { vec_len rows.new ≡ vec_len rows.old }
    ensures capacity { vec_capacity rows.new ≡ vec_capacity rows.old }
{
    let mut next = 0;
    'rows: for i in first..rows.len() {
        if next < plans.len() && rows[i].case.phase().is_live() {
            rows[i] = replanned(rows[i], plans[next]);
            next += 1;
        }
    }
}

/// The least open case not below a number.
fn next_open(rows: &[Row], from: u32) -> Option<u16>
    requires { AscendFrom 0 rows.now }
    ensures { result ≡ next_open from rows.now }
{
    let start = place_from(rows, from);
    'rows: for i in start..rows.len() {
        let row = rows[i];
        if row.case.phase().is_live() {
            return Some(row.number);
        }
    }
    None
}

/// The rows from the place `first` on.
pub(crate) fn behind(rows: &[Row], first: usize) -> &[Row]
    requires { first ≤ length rows.now }
    ensures { result.now ≡ drop first rows.now }
{
    &rows[first..]
}

/// The least open case not below `from`, where no case before the place `first` is open.
pub(crate) fn next_behind(rows: &[Row], first: usize, from: u32) -> Option<u16>
    requires order { AscendFrom 0 rows.now }
    requires passed { ArePassed rows.now first }
    ensures { result ≡ next_open from rows.now }
{
    next_open(behind(rows, first), from)
}

/// How many rows stand before the first open case, where no case before the place `first` is open.
pub(crate) fn past_ended(rows: &[Row], first: usize) -> usize
    requires { ArePassed rows.now first }
    ensures { ArePassed rows.now result }
{
    'passing: for i in first..rows.len() {
        if rows[i].case.phase().is_live() {
            return i;
        }
    }
    rows.len()
}

/// How many of `live` open cases are left open: one less where one has ended.
pub(crate) fn still_open(live: u16, has_ended: bool) -> u16
    requires { cond has_ended 1 0 ≤ live }
    ensures { result + cond has_ended 1 0 ≡ live }
{
    if has_ended { live - 1 } else { live }
}

/// The row with the number `n` alone, or no row where there is none with that number.
pub(crate) fn only(alloc: Global, rows: &[Row], n: u16) -> Result<Vec<Row>, AllocError>
    requires { AscendFrom 0 rows.now }
    ensures { IfOk result (λ some. some.items ≡ only n rows.now) }
{
    let mut some = Vec::new(alloc);
    let Some(i) = find(rows, n) else {
        return Ok(some);
    };
    some.push(rows[i])?;
    Ok(some)
}

/// How many cases are open in a table with this row alone, or without a row.
pub(crate) fn one_live(row: Option<Row>) -> u16
    ensures { result ≡ open_count (rows_of row) }
{
    match row {
        Some(row) if row.case.phase().is_live() => 1,
        _ => 0,
    }
}

/// The rows of the open cases, where no case before the place `first` is open.
pub(crate) fn open_behind(
    alloc: Global,
    rows: &[Row],
    first: usize,
    live: u16,
) -> Result<Vec<Row>, AllocError>
    requires { ArePassed rows.now first }
    ensures { IfOk result (λ some. some.items ≡ open_rows rows.now) }
{
    open_rows(alloc, behind(rows, first), live)
}

/// The rows of the open cases. Room for `live` of them is made at once.
fn open_rows(alloc: Global, rows: &[Row], live: u16) -> Result<Vec<Row>, AllocError>
    ensures { IfOk result (λ some. some.items ≡ open_rows rows.now) }
{
    let mut some = Vec::with_capacity(alloc, live as usize)?;
    'rows: for row in rows {
        if row.case.phase().is_live() {
            some.push(*row)?;
        }
    }
    Ok(some)
}
