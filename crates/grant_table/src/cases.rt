//! The table of cases.
ghost use Rattle.std.specs.Prelude.{◌≡◌, ℕ, ◌+◌, ◌-◌, ◌<◌, ◌≤◌, Bool, true, false, cond, []};
ghost use Rattle.std.specs.Prelude.{length, is_some, IfOk, IfSome, OnOk, OnErr, IsSomeAnd};
ghost use Rattle.std.specs.Prelude.{MatchOption};
ghost use Rattle.wf_names.specs.declared.limits.TheConstants.{CASE_LIMIT, OPEN_CASE_LIMIT};
ghost use Rattle.wf_names.specs.declared.limits.TheConstants.{STEP_LIMIT};
ghost use Rattle.wf_names.specs.States.{is_done};
ghost use Rattle.case_record.specs.Cases.{is_open};
ghost use Rattle.grant_table.specs.Kept.{IsOpenPart, IsSoundTable};
ghost use Rattle.grant_table.specs.Cases.{case_at, finished_row, freed_row, held_row};
ghost use Rattle.grant_table.specs.Cases.{is_open_case, next_open, only, open_count, open_rows};
ghost use Rattle.grant_table.specs.Cases.{ones, plan_at, replanned, row_at, with_case, with_row};
ghost use Rattle.grant_table.specs.Cases.{withdrawn_row, IsNextOpen, HasFreeStep, HasHeldStep};

use crate::changes::{finish, free, hold, withdraw};
use crate::recent::Recent;
use crate::rows::{
    Row, behind, case_of, next_behind, one_live, only, open_behind, past_ended, plan_in, put,
    replan, row_of, still_open,
};
use case_record::Case;
use constraint_forms::Plan;
use std::alloc::{AllocError, Global};
use std::marker::Model;
use wf_names::{CaseId, FlowId, StepId, UserId};

/// Cases at their numbers, and a plan for each open one.
///
/// The table holds no policy. Where no number is left out a look-up takes the same time in a long
/// table as in a short one. What goes over the open cases passes over the ended ones in front of
/// them once in all.
#[derive(Drop)]
pub struct Cases {
    rows: Vec<Row>,
    ever: u16,
    live: u16,
    first: usize,
    recent: Recent,
}

impl Model for Cases {
    ghost use Rattle.std.specs.Prelude.{◌-◌};
    ghost use Rattle.std.specs.Vec.{vec_capacity, vec_len};
    ghost use Rattle.grant_table.specs.Cases.{CasesShape};
    ghost use Rattle.grant_table.specs.Kept.{IsKeptTable};

    ghost Value = { CasesShape };

    ghost view = { λ t. record {
      rows = t.rows.items;
      ever = t.ever;
      spare =
          vec_capacity t.rows - vec_len t.rows;
    } };

    ghost invariant = { λ t. IsKeptTable t.rows.items t.ever t.live t.first };
}

impl Cases {
    /// A table with no case.
    pub fn new(alloc: Global) -> Result<Cases, AllocError>
        ensures { IfOk result (λ t. t ≡ record { rows = []; ever = 0; spare = t.spare }) }
    {
        Ok(Cases {
            rows: Vec::new(alloc),
            ever: 0,
            live: 0,
            first: 0,
            recent: Recent::none(),
        })
    }

    /// Makes room, so that the next `more` openings take no memory.
    pub fn reserve(&mut self, more: u16) -> Result<(), AllocError>
        ensures room { OnOk result (more ≤ self.new.spare) }
        ensures kept { self.old.spare ≤ self.new.spare }
        ensures same { self.new ≡ record self.old { spare = self.new.spare } }
        ensures unchanged { OnErr result (self.new ≡ self.old) }
    {
        self.rows.reserve(more as usize)
    }

    /// Opens a fresh case with `steps` steps at the next number, and answers that number.
    pub(crate) fn open_fresh(&mut self, f: FlowId, steps: u8, plan: Plan) -> CaseId
        requires steps { steps ≤ STEP_LIMIT }
        requires room { 0 < self.old.spare }
        requires open { open_count self.old.rows < OPEN_CASE_LIMIT }
        requires ever { self.old.ever < CASE_LIMIT }
        ensures number { result ≡ self.old.ever }
        ensures opened { self.new ≡ with_case self.old f steps plan }
    {
        let number = self.ever;
        let row = Row {
            number,
            case: Case::fresh(f, steps),
            plan: Some(plan),
        };
        self.rows.push_reserved(row);
        self.ever += 1;
        self.live += 1;
        self.recent.keep(f, plan);
        CaseId(number)
    }

    /// Gives a free step of an open case to a user, and keeps the plan for the case.
    pub(crate) fn hold_step(&mut self, c: CaseId, s: StepId, u: UserId, plan: Plan)
        requires { IsSomeAnd (case_at self.old c) (λ k. HasFreeStep k s) }
        ensures { self.new ≡ with_row self.old c (held_row s u plan) }
    {
        let mut row = self.row(c);
        hold(&mut row, s, u, plan);
        self.put_row(&row, false);
    }

    /// Finishes a held step of an open case, and answers whether the case is then done.
    pub fn finish(&mut self, c: CaseId, s: StepId) -> bool
        requires { IsSomeAnd (case_at self.old c) (λ k. HasHeldStep k s) }
        ensures finished { self.new ≡ with_row self.old c (finished_row s) }
        ensures done { IsSomeAnd (case_at self.new c) (λ k. result ≡ is_done k.phase) }
    {
        let mut row = self.row(c);
        finish(&mut row, s);
        let done = row.case.phase().is_done();
        self.put_row(&row, done);
        done
    }

    /// Takes a held step of an open case from its holder; the kept plan stays.
    pub fn give_back(&mut self, c: CaseId, s: StepId)
        requires { IsSomeAnd (case_at self.old c) (λ k. HasHeldStep k s) }
        ensures { self.new ≡ with_row self.old c (freed_row s) }
    {
        let mut row = self.row(c);
        free(&mut row, s);
        self.put_row(&row, false);
    }

    /// Ends an open case before its steps are finished.
    pub fn withdraw(&mut self, c: CaseId)
        requires { IsSomeAnd (case_at self.old c) (λ k. is_open k ≡ true) }
        ensures { self.new ≡ with_row self.old c withdrawn_row }
    {
        let mut row = self.row(c);
        withdraw(&mut row);
        self.put_row(&row, true);
    }

    /// Keeps other plans for the open cases, by ascending number, as far as there are plans. Takes
    /// no memory.
    pub fn replace_plans(&mut self, plans: &[Plan])
        ensures { self.new ≡ record self.old { rows = replanned self.old.rows plans.now } }
    {
        replan(&mut self.rows, self.first, plans);
    }

    /// The case with a number.
    pub fn case(&self, c: CaseId) -> Option<&Case>
        ensures { MatchOption result (case_at self.now c ≡ None)
            (λ k. case_at self.now c ≡ Some k.now) }
    {
        case_of(&self.rows, c.0)
    }

    /// The plan that is kept for a case; none where the case is not open.
    pub fn plan(&self, c: CaseId) -> Option<Plan>
        ensures plan { result ≡ plan_at self.now c }
        ensures open { is_some result ≡ is_open_case (case_at self.now c) }
    {
        match self.kept_plan(c) {
            Some(plan) => Some(*plan),
            None => None,
        }
    }

    /// The plan that is kept for a case, borrowed from the table; none where the case is not open.
    pub fn kept_plan(&self, c: CaseId) -> Option<&Plan>
        ensures plan { MatchOption result (plan_at self.now c ≡ None)
            (λ plan. plan_at self.now c ≡ Some plan.now) }
        ensures open { is_some result ≡ is_open_case (case_at self.now c) }
    {
        plan_in(&self.rows, c.0)
    }

    /// The plan with which a case of a workflow was last opened, where it is remembered: a hint
    /// where to look for the next one. Nothing is promised of it.
    pub fn recent_plan(&self, f: FlowId) -> Option<Plan> {
        self.recent.plan(f)
    }

    /// All cases with their numbers and kept plans, by ascending number.
    pub fn rows(&self) -> &[Row]
        ensures { result.now ≡ self.now.rows }
    {
        &self.rows
    }

    /// The rows from the first open case on, and some before it maybe.
    pub fn open_part(&self) -> &[Row]
        ensures { IsOpenPart self.now.rows result.now }
    {
        behind(&self.rows, self.first)
    }

    /// How many cases are open.
    pub fn live(&self) -> u16
        ensures count { result ≡ open_count self.now.rows }
        ensures kept { IsSoundTable self.now.rows self.now.ever result }
    {
        self.live
    }

    /// How many cases were ever opened.
    pub fn ever(&self) -> u16
        ensures count { result ≡ self.now.ever }
        ensures within { result ≤ CASE_LIMIT }
    {
        self.ever
    }

    /// The least open case not below a number.
    pub fn next_live(&self, from: u32) -> Option<CaseId>
        ensures answer { result ≡ next_open from self.now.rows }
        ensures meaning { MatchOption result
            ((n : ℕ) → from ≤ n → is_open_case (case_at self.now n) ≡ false)
            (λ n. IsNextOpen self.now from n) }
    {
        match next_behind(&self.rows, self.first, from) {
            Some(number) => Some(CaseId(number)),
            None => None,
        }
    }

    /// A table with the same cases and plans at the same numbers.
    pub fn copy(&self) -> Result<Cases, AllocError>
        ensures { IfOk result (λ t. t ≡ record self.now { spare = t.spare }) }
    {
        Ok(Cases {
            rows: self.rows.clone()?,
            ever: self.ever,
            live: self.live,
            first: self.first,
            recent: self.recent,
        })
    }

    /// A table with one case alone, at its number, and with none where there is no such case.
    pub fn copy_one(&self, alloc: Global, c: CaseId) -> Result<Cases, AllocError>
        ensures { IfOk result (λ t. t ≡ record self.now
            { rows = only c self.now.rows; spare = t.spare }) }
    {
        Ok(Cases {
            rows: only(alloc, &self.rows, c.0)?,
            ever: self.ever,
            live: one_live(row_of(&self.rows, c.0)),
            first: 0,
            recent: self.recent,
        })
    }

    /// A table with none of the cases, which goes on at the same number.
    pub fn copy_none(&self, alloc: Global) -> Cases
        ensures { result ≡ record self.now { rows = []; spare = result.spare } }
    {
        Cases {
            rows: Vec::new(alloc),
            ever: self.ever,
            live: 0,
            first: 0,
            recent: self.recent,
        }
    }

    /// A table with the open cases alone, each at its number.
    pub fn copy_open(&self, alloc: Global) -> Result<Cases, AllocError>
        ensures { IfOk result (λ t. t ≡ record self.now
            { rows = open_rows self.now.rows; spare = t.spare }) }
    {
        Ok(Cases {
            rows: open_behind(alloc, &self.rows, self.first, self.live)?,
            ever: self.ever,
            live: self.live,
            first: 0,
            recent: self.recent,
        })
    }

    /// How many more cases can be opened without memory being taken.
    pub fn spare(&self) -> usize
        ensures { result ≡ self.now.spare }
    {
        self.rows.capacity() - self.rows.len()
    }

    /// The row of a case.
    fn row(&self, c: CaseId) -> Row
        requires { is_some (case_at self.now c) ≡ true }
        ensures row { row_at c self.now.rows ≡ Some result }
        ensures planned { is_some result.plan ≡ is_open result.case }
    {
        let Some(row) = row_of(&self.rows, c.0) else {
            unreachable!()
        };
        row
    }

    /// Puts a row in the place of the one with its number.
    fn put_row(&mut self, row: &Row, has_ended: bool)
        requires there { IsSomeAnd (row_at row.now.number self.old.rows)
            (λ r. ones r ≡ ones row.now + cond has_ended 1 0) }
        requires planned { is_some row.now.plan ≡ is_open row.now.case }
        ensures { self.new ≡ with_row self.old row.now.number (λ _. row.now) }
    {
        self.live = still_open(self.live, has_ended);
        put(&mut self.rows, row);
        self.first = past_ended(&self.rows, self.first);
    }
}
