//! Who is authorised for a step.
ghost use Rattle.std.specs.Prelude.{◌≡◌, ℕ, ◌<◌, ◌&&◌, ◌||◌, true, length};
ghost use Rattle.std.specs.FinSet as set;
ghost use Rattle.wf_names.specs.UserSets.{has_user};
ghost use Rattle.rbac_state.specs.Laws.Rosters.{has_role};
ghost use Rattle.policy_book.specs.Policies.{any_below};

use rbac_state::Roster;
use wf_names::{RoleId, StepId, UserId, UserSet};
use workflow_schema::Flow;

/// Whether some role is held by a user and permitted for a step.
pub(crate) fn some_role(roster: &Roster, flow: &Flow, s: StepId, u: UserId) -> bool
    ensures { result ≡ any_below (length roster.now.roles)
        (λ r. has_role roster.now u r && set.contains flow.now.permits (r, s)) }
{
    'roles: for r in 0..roster.roles().len() {
        let role = RoleId(r as u8);
        if authorises(roster, flow, s, u, role) {
            return true;
        }
    }
    false
}

// Whether a role is held by a user and permitted for a step. The permission is one bit, so it is
// asked first.
#[tactic(auto, using(basics::proofs::Booleans::and_swap))]
fn authorises(roster: &Roster, flow: &Flow, s: StepId, u: UserId, r: RoleId) -> bool
    ensures { result ≡ (has_role roster.now u r && set.contains flow.now.permits (r, s)) }
{
    flow.permits(r, s) && roster.has(u, r)
}

/// The users who hold a role that is permitted for a step.
pub(crate) fn holders_of_some(roster: &Roster, flow: &Flow, s: StepId) -> UserSet
    ensures known { (u : ℕ) → has_user result u ≡ true → u < length roster.now.users }
    ensures held { (u : ℕ) → has_user result u
        ≡ any_below (length roster.now.roles)
        (λ r. has_role roster.now u r && set.contains flow.now.permits (r, s)) }
{
    let mut users = UserSet::empty();
    'roles: for r in 0..roster.roles().len() {
        join_if_permitted(roster, flow, s, RoleId(r as u8), &mut users);
    }
    users
}

// Puts in the users who hold a role, where it is permitted for a step.
fn join_if_permitted(roster: &Roster, flow: &Flow, s: StepId, r: RoleId, users: &mut UserSet)
    ensures { (u : ℕ) → has_user users.new u
        ≡ (has_user users.old u || (has_role roster.now u r && set.contains
        flow.now.permits (r, s))) }
{
    if flow.permits(r, s) {
        users.join(&roster.holders(r));
    }
}
