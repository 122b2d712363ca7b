//! Who is authorised for what in each workflow of a policy.
ghost use Rattle.std.specs.Prelude.{◌≡◌, ◌<◌, ◌≤◌, ℕ, length, IfOk, OnOk};
ghost use Rattle.wf_names.specs.declared.limits.TheConstants.{USER_LIMIT};
ghost use Rattle.policy_book.specs.Duties.{AreGrown, AreSettled, IsSettled, duties_at};

use crate::duties::Duties;
use crate::workflow::Workflow;
use rbac_state::Roster;
use std::alloc::{AllocError, Global};
use wf_names::{RoleId, USER_LIMIT, UserId};

/// Puts a user right in each workflow, in the rows of the steps that a role is permitted for.
pub(crate) fn settle_all(
    roster: &Roster,
    flows: &[Workflow],
    u: UserId,
    r: RoleId,
    duties: &mut [Duties],
)
    requires user { u < USER_LIMIT }
    requires count { length duties.old ≡ length flows.now }
    ensures { AreSettled roster.now flows.now u r duties.old duties.new }
{
    'flows: for f in 0..duties.len() {
        settle_flow(roster, &flows[f], u, r, &mut duties[f]);
    }
}

fn settle_flow(roster: &Roster, workflow: &Workflow, u: UserId, r: RoleId, duties: &mut Duties)
    requires user { u < USER_LIMIT }
    ensures rows { IsSettled roster.now workflow.now.flow u r duties.old.rows duties.new.rows }
    ensures users { duties.new.users ≡ duties.old.users }
{
    duties.settle(roster, &workflow.flow, u, r);
}

/// Makes room for the sets of one user more in each workflow.
pub(crate) fn make_room(duties: &mut [Duties], u: UserId) -> Result<(), AllocError>
    requires within { u < USER_LIMIT }
    requires next { (f : ℕ) → f < length duties.old → u ≤ (duties_at duties.old f).users }
    ensures grown { AreGrown duties.old duties.new }
    ensures room { OnOk result ((f : ℕ) → f < length duties.old
        → u < (duties_at duties.new f).users) }
{
    'flows: for f in 0..duties.len() {
        duties[f].grow(u)?;
    }
    Ok(())
}

/// The same for a copy of the policy.
pub(crate) fn copied(alloc: Global, duties: &[Duties]) -> Result<Vec<Duties>, AllocError>
    ensures { IfOk result (λ copies. copies.items ≡ duties.now) }
{
    let mut copies = Vec::new(alloc);
    'flows: for own in duties {
        copies.push(own.copy()?)?;
    }
    Ok(copies)
}
