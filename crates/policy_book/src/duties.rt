//! Who is authorised for what in one workflow: the users of each step, and the steps of each user.
ghost use Rattle.std.specs.Prelude.{◌≡◌, ◌<◌, ◌≤◌, ℕ, ◌==◌, ◌&&◌, [], length, true, if◌then◌else◌};
ghost use Rattle.std.specs.Prelude.{slice_index_or, slice_set, IfOk, OnOk, OnErr};
ghost use Rattle.std.specs.FinSet as set;
ghost use Rattle.wf_names.specs.declared.limits.TheConstants.{STEP_LIMIT, USER_LIMIT};
ghost use Rattle.wf_names.specs.UserSets.{has_user};
ghost use Rattle.constraint_forms.specs.Assign.{is_member};
ghost use Rattle.policy_book.specs.Duties.{AreDuties, AreGathered, IsSettled, may_do, row_has};
ghost use Rattle.policy_book.specs.Duties.{set_at, steps_below, steps_in};

use crate::authority::{holders_of_some, some_role};
use constraint_forms::StepSet;
use rbac_state::Roster;
use std::alloc::{AllocError, Global};
use std::marker::Model;
use wf_names::{RoleId, STEP_LIMIT, StepId, USER_LIMIT, UserId, UserSet};
use workflow_schema::Flow;

/// Who is authorised for what in one workflow. Contracts see the rows of users, one a step, and
/// for how many users the sets of their steps are kept.
#[derive(Drop)]
pub(crate) struct Duties {
    rows: Vec<UserSet>,
    // The set of a user has the steps in whose rows the user is.
    sets: Vec<StepSet>,
}

impl Model for Duties {
    ghost use Rattle.std.specs.Prelude.{◌≤◌, length};
    ghost use Rattle.wf_names.specs.declared.limits.TheConstants.{STEP_LIMIT, USER_LIMIT};
    ghost use Rattle.policy_book.specs.Duties.{DutyShape, AreGathered, duty_code};

    ghost Value = { DutyShape };

    ghost coded = { duty_code };

    ghost view = { λ d. record { rows = d.rows.items; users = length d.sets.items } };

    ghost invariant = { λ d. (length d.rows.items ≤ STEP_LIMIT) ×
        (length d.sets.items ≤ USER_LIMIT) × AreGathered d.rows.items d.sets.items };
}

impl Duties {
    /// Who is authorised for what by a roster and the permissions of a workflow.
    pub(crate) fn new(alloc: Global, roster: &Roster, flow: &Flow) -> Result<Duties, AllocError>
        ensures { IfOk result (AreDuties roster.now flow.now) }
    {
        let rows = all_rows(alloc, roster, flow)?;
        let sets = all_sets(alloc, &rows, roster.users().len())?;
        Ok(Duties { rows, sets })
    }

    /// The users who are authorised for a step.
    pub(crate) fn row(&self, s: StepId) -> &UserSet
        requires { s < length self.now.rows }
        ensures { result.now ≡ slice_index_or self.now.rows s [] }
    {
        &self.rows[s.0 as usize]
    }

    /// The steps in whose rows a user is.
    pub(crate) fn steps(&self, u: UserId) -> StepSet
        requires { u < self.now.users }
        ensures steps { result ≡ steps_in self.now.rows u }
        ensures few { length self.now.rows ≤ STEP_LIMIT }
    {
        self.sets[u.0 as usize]
    }

    /// Gives a step another row.
    #[tactic(auto, using(crate::proofs::Rows::put_back))]
    pub(crate) fn set_row(&mut self, s: StepId, row: UserSet)
        requires { s < length self.old.rows }
        ensures { self.new ≡ record self.old { rows = slice_set self.old.rows s row } }
    {
        let before = self.rows[s.0 as usize];
        self.rows[s.0 as usize] = row;
        gather_changed(&self.rows, s, &before, &mut self.sets);
    }

    /// Puts a user right in the rows of the steps that a role is permitted for.
    pub(crate) fn settle(&mut self, roster: &Roster, flow: &Flow, u: UserId, r: RoleId)
        requires { u < USER_LIMIT }
        ensures rows { IsSettled roster.now flow.now u r self.old.rows self.new.rows }
        ensures users { self.new.users ≡ self.old.users }
    {
        settle_user(roster, flow, u, r, &mut self.rows, &mut self.sets);
    }

    /// Keeps the set of one user more, where there is none for that number yet.
    pub(crate) fn grow(&mut self, u: UserId) -> Result<(), AllocError>
        requires within { u < USER_LIMIT }
        requires next { u ≤ self.old.users }
        ensures rows { self.new.rows ≡ self.old.rows }
        ensures more { self.old.users ≤ self.new.users }
        ensures room { OnOk result (u < self.new.users) }
    {
        if self.sets.len() <= u.0 as usize {
            self.sets.push(gathered(&self.rows, u))?;
        }
        Ok(())
    }

    /// The same for a copy of the policy.
    pub(crate) fn copy(&self) -> Result<Duties, AllocError>
        ensures { IfOk result (λ d. d ≡ self.now) }
    {
        let alloc = *self.rows.allocator();
        Ok(Duties {
            rows: Vec::from_slice(alloc, &self.rows)?,
            sets: Vec::from_slice(alloc, &self.sets)?,
        })
    }
}

// The users who are authorised for each step.
fn all_rows(alloc: Global, roster: &Roster, flow: &Flow) -> Result<Vec<UserSet>, AllocError>
    ensures few { OnOk result (length flow.now.steps ≤ STEP_LIMIT) }
    ensures count { IfOk result (λ rows. length rows.items ≡ length flow.now.steps) }
    ensures each { IfOk result (λ rows. (s u : ℕ) → s < length rows.items
        → row_has rows.items s u ≡ may_do roster.now flow.now s u) }
{
    let count = flow.steps().len() as usize;
    prove!(count <= STEP_LIMIT);
    let mut rows = Vec::new(alloc);
    'steps: for s in 0..count {
        rows.push(holders_of_some(roster, flow, StepId(s as u8)))?;
    }
    Ok(rows)
}

// For each user below `users`, the steps in whose rows the user is.
fn all_sets(alloc: Global, rows: &[UserSet], users: u16) -> Result<Vec<StepSet>, AllocError>
    requires { length rows.now ≤ STEP_LIMIT }
    ensures count { IfOk result (λ sets. length sets.items ≡ users) }
    ensures gathered { IfOk result (λ sets. AreGathered rows.now sets.items) }
{
    let mut sets = Vec::new(alloc);
    'users: for u in 0..users {
        sets.push(gathered(rows, UserId(u)))?;
    }
    Ok(sets)
}

// The steps in whose rows a user is.
fn gathered(rows: &[UserSet], u: UserId) -> StepSet
    requires { length rows.now ≤ STEP_LIMIT }
    ensures { result ≡ steps_in rows.now u }
{
    let mut set = StepSet::empty();
    'steps: for s in 0..rows.len() {
        set = with_if(&set, StepId(s as u8), rows[s].has(u));
    }
    set
}

// A set of steps, with one more where that is wanted.
fn with_if(set: &StepSet, s: StepId, wanted: bool) -> StepSet
    requires { s < STEP_LIMIT }
    ensures { result ≡ (if wanted then slice_set set.now s true else set.now) }
{
    if wanted { set.with(s) } else { *set }
}

// Gathers the steps of one user again.
fn gather_user(rows: &[UserSet], u: UserId, sets: &mut [StepSet])
    requires { length rows.now ≤ STEP_LIMIT }
    ensures { sets.new ≡ slice_set sets.old u (steps_in rows.now u) }
{
    let at = u.0 as usize;
    if at < sets.len() {
        sets[at] = gathered(rows, u);
    }
}

// Gathers the steps of those users again who are not in a step's row as they were before.
fn gather_changed(rows: &[UserSet], s: StepId, before: &UserSet, sets: &mut [StepSet])
    requires few { length rows.now ≤ STEP_LIMIT }
    requires users { length sets.old ≤ USER_LIMIT }
    requires step { s < length rows.now }
    requires gathered { AreGathered (slice_set rows.now s before.now) sets.old }
    ensures count { length sets.new ≡ length sets.old }
    ensures gathered { AreGathered rows.now sets.new }
{
    'users: for u in 0..sets.len() {
        gather_if_changed(rows, s, before, UserId(u as u16), &mut sets[u]);
    }
}

#[tactic(auto, using(crate::proofs::Rows::same_gathered))]
fn gather_if_changed(rows: &[UserSet], s: StepId, before: &UserSet, u: UserId, set: &mut StepSet)
    requires few { length rows.now ≤ STEP_LIMIT }
    requires step { s < length rows.now }
    requires gathered { set.old ≡ steps_in (slice_set rows.now s before.now) u }
    ensures { set.new ≡ steps_in rows.now u }
{
    if rows[s.0 as usize].has(u) == before.has(u) {
        return;
    }
    *set = gathered(rows, u);
}

// Puts a user right in the rows of the steps that a role is permitted for, and in the sets.
fn settle_user(
    roster: &Roster,
    flow: &Flow,
    u: UserId,
    r: RoleId,
    rows: &mut [UserSet],
    sets: &mut [StepSet],
)
    requires few { length rows.old ≤ STEP_LIMIT }
    requires user { u < USER_LIMIT }
    requires gathered { AreGathered rows.old sets.old }
    ensures rows { IsSettled roster.now flow.now u r rows.old rows.new }
    ensures count { length sets.new ≡ length sets.old }
    ensures gathered { AreGathered rows.new sets.new }
{
    settle_rows(roster, flow, u, r, rows);
    gather_user(rows, u, sets);
}

// Puts a user right in the rows of the steps that a role is permitted for.
fn settle_rows(roster: &Roster, flow: &Flow, u: UserId, r: RoleId, rows: &mut [UserSet])
    requires few { length rows.old ≤ STEP_LIMIT }
    requires user { u < USER_LIMIT }
    ensures { IsSettled roster.now flow.now u r rows.old rows.new }
{
    'steps: for s in 0..rows.len() {
        settle_row(roster, flow, u, r, StepId(s as u8), &mut rows[s]);
    }
}

// Puts a user right in the row of a step, where a role is permitted for it.
#[tactic(auto, using(crate::proofs::Rows::settled_row, crate::proofs::Rows::unsettled_row))]
fn settle_row(roster: &Roster, flow: &Flow, u: UserId, r: RoleId, s: StepId, row: &mut UserSet)
    requires { u < USER_LIMIT }
    ensures { (v : ℕ) → has_user row.new v
        ≡ (if v == u && set.contains flow.now.permits (r, s)
        then may_do roster.now flow.now s v
        else has_user row.old v) }
{
    if !flow.permits(r, s) {
        return;
    }
    put_if(row, u, some_role(roster, flow, s, u));
}

// Puts a user in or takes the user out.
fn put_if(row: &mut UserSet, u: UserId, wanted: bool)
    requires { u < USER_LIMIT }
    ensures { (v : ℕ) → has_user row.new v ≡ (if v == u then wanted else has_user row.old v) }
{
    if wanted {
        row.insert(u);
    } else {
        row.remove(u);
    }
}
