//! The calls that keep a plan, which is valid under a policy.
ghost use Rattle.std.specs.Prelude.{◌≡◌, ◌<◌, length, slice_set, Some, IsSomeAnd};
ghost use Rattle.wf_names.specs.declared.limits.TheConstants.{CASE_LIMIT, OPEN_CASE_LIMIT};
ghost use Rattle.constraint_forms.specs.Assign.{no_steps, no_users};
ghost use Rattle.policy_book.specs.Policies.{flow_at, problem_of};
ghost use Rattle.policy_book.specs.Laws.Plans.{IsValidPlan};
ghost use Rattle.case_record.specs.Cases.{assigned_of, finished_of};
ghost use Rattle.grant_table.specs.Cases.{case_at, held_row, open_count, with_case, with_row};
ghost use Rattle.grant_table.specs.Cases.{HasFreeStep};

use crate::Cases;
use constraint_forms::Plan;
use policy_book::Policy;
use wf_names::{CaseId, FlowId, StepId, UserId};

impl Cases {
    /// Opens a fresh case of a workflow at the next number, and answers that number. Takes no
    /// memory.
    pub fn open_case(&mut self, p: &Policy, f: FlowId, plan: Plan) -> CaseId
        requires flow { f < length p.now.flows }
        requires valid { IsValidPlan (problem_of p.now f) no_users no_steps plan }
        requires room { 0 < self.old.spare }
        requires open { open_count self.old.rows < OPEN_CASE_LIMIT }
        requires ever { self.old.ever < CASE_LIMIT }
        ensures number { result ≡ self.old.ever }
        ensures opened { self.new ≡ with_case self.old f (length
            (flow_at p.now f).flow.steps) plan }
    {
        let steps = p.flow(f).steps().len() as u8;
        self.open_fresh(f, steps, plan)
    }

    /// Gives a free step of an open case to a user, and keeps a plan that is valid with the user
    /// there.
    pub fn hold(&mut self, p: &Policy, c: CaseId, s: StepId, u: UserId, plan: Plan)
        requires free { IsSomeAnd (case_at self.old c) (λ k. HasFreeStep k s) }
        requires valid { IsSomeAnd (case_at self.old c)
            (λ k. IsValidPlan (problem_of p.now k.flow) (slice_set (assigned_of k) s (Some u))
            (finished_of k) plan) }
        ensures { self.new ≡ with_row self.old c (held_row s u plan) }
    {
        let _ = p;
        self.hold_step(c, s, u, plan);
    }
}
