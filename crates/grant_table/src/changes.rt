//! How a row changes with its case.
ghost use Rattle.std.specs.Prelude.{◌≡◌, true};
ghost use Rattle.case_record.specs.Cases.{is_open};
ghost use Rattle.grant_table.specs.Cases.{finished_row, freed_row, held_row, plan_while};
ghost use Rattle.grant_table.specs.Cases.{replanned_row, withdrawn_row, HasFreeStep, HasHeldStep};

use crate::rows::Row;
use constraint_forms::Plan;
use wf_names::{StepId, UserId};

/// Gives a free step of a row's case to a user, and keeps the plan for it.
pub(crate) fn hold(row: &mut Row, s: StepId, u: UserId, plan: Plan)
    requires { HasFreeStep row.old.case s }
    ensures { row.new ≡ held_row s u plan row.old }
{
    row.case.hold(s, u);
    row.plan = Some(plan);
}

/// Finishes a held step of a row's case; the plan is kept while the case is open.
pub(crate) fn finish(row: &mut Row, s: StepId)
    requires { HasHeldStep row.old.case s }
    ensures { row.new ≡ finished_row s row.old }
{
    row.case.finish(s);
    row.plan = plan_while(row.case.phase().is_live(), row.plan);
}

/// Takes a held step of a row's case from its holder.
pub(crate) fn free(row: &mut Row, s: StepId)
    requires { HasHeldStep row.old.case s }
    ensures { row.new ≡ freed_row s row.old }
{
    row.case.release(s);
}

/// Withdraws a row's case; no plan is kept for it any more.
pub(crate) fn withdraw(row: &mut Row)
    ensures { row.new ≡ withdrawn_row row.old }
{
    row.case.withdraw();
    row.plan = None;
}

/// A row with another plan.
pub(crate) fn replanned(row: Row, plan: Plan) -> Row
    ensures { result ≡ replanned_row plan row }
{
    let mut replanned = row;
    replanned.plan = Some(plan);
    replanned
}

fn plan_while(is_kept: bool, plan: Option<Plan>) -> Option<Plan>
    ensures { result ≡ plan_while is_kept plan }
{
    if is_kept { plan } else { None }
}
