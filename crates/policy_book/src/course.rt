//! A workflow with its policy.
ghost use Rattle.std.specs.Prelude.{◌<◌, length};

use crate::policy::Policy;
use constraint_forms::{Assign, Rules, falsified};
use wf_names::{FlowId, StepId, UserId, UserSet};
use workflow_schema::Flow;

/// A policy with the number of one of its workflows.
#[derive(Clone, Copy)]
pub struct Course<'p> {
    /// The policy.
    pub policy: &'p Policy,
    /// The number of the workflow.
    pub number: FlowId,
    ghost known: { number < length policy.now.flows },
}

impl<'p> Course<'p> {
    ghost use Rattle.std.specs.Prelude.{◌≡◌, ◌≤◌, ℕ, slice_get, true};
    ghost use Rattle.wf_names.specs.declared.limits.TheConstants.{RULE_LIMIT};
    ghost use Rattle.wf_names.specs.UserSets.{has_user};
    ghost use Rattle.policy_book.specs.Course.{problem_in};
    ghost use Rattle.policy_book.specs.Laws.Plans.{IsWellFormed};
    ghost use Rattle.policy_book.specs.Policies.{flow_at};
    ghost use Rattle.policy_book.specs.Laws.Facts.{AreSoundRules, PermitsRolesBelow};
    ghost use Rattle.policy_book.specs.Laws.Refuting.{is_broken};

    /// The workflow's steps, their order and who may perform them.
    pub fn flow(&self) -> &'p Flow
        ensures flow { result.now ≡ (flow_at self.now.policy.now self.now.number).flow }
        ensures roles { PermitsRolesBelow (length self.now.policy.now.roster.roles)
            (flow_at self.now.policy.now self.now.number).flow }
    {
        self.policy.flow(self.number)
    }

    /// The workflow's rules.
    pub fn rules(&self) -> &'p Rules
        ensures rules { result.now ≡ (problem_in self.now).rules }
        ensures few { length (problem_in self.now).rules ≤ RULE_LIMIT }
        ensures ruled { AreSoundRules (problem_in self.now).steps
            (length self.now.policy.now.relations) (problem_in self.now).rules }
        ensures well_formed { IsWellFormed (problem_in self.now) }
    {
        self.policy.rules(self.number)
    }

    /// Whether there is a rule with the number `k`, and an assignment falsifies it.
    pub fn breaks(&self, a: &Assign, k: u8) -> bool
        ensures { result ≡ is_broken (problem_in self.now) a.now
            (slice_get (problem_in self.now).rules k) }
    {
        match self.rules().as_slice().get(k as usize) {
            Some(rule) => falsified(rule, self.policy, a),
            None => false,
        }
    }

    /// Whether a user is authorised for a step.
    pub fn authorised(&self, s: StepId, u: UserId) -> bool
        requires step { s < (problem_in self.now).steps }
        requires user { u < (problem_in self.now).users }
        ensures { result ≡ (problem_in self.now).authorised s u }
    {
        self.policy.authorised(self.number, s, u)
    }

    /// The users who are authorised for a step. Takes no memory.
    pub fn authorised_users(&self, s: StepId) -> UserSet
        ensures authorised { (u : ℕ) → has_user result u ≡ (problem_in self.now).authorised s u }
        ensures known { (u : ℕ) → has_user result u ≡ true → u < (problem_in self.now).users }
    {
        self.policy.authorised_users(self.number, s)
    }
}
