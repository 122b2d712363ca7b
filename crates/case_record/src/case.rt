//! A case of a workflow.
ghost use Rattle.std.specs.Prelude.{◌≡◌, ℕ, ◌<◌, ◌≤◌, ◌↔◌, true, length, slice_set, IsTrue};
ghost use Rattle.std.specs.Prelude.{MatchOption};
ghost use Rattle.wf_names.specs.declared.limits.TheConstants.{STEP_LIMIT};
ghost use Rattle.wf_names.specs.declared.states.StepState.TheVariants.{Free, Held, Finished};
ghost use Rattle.wf_names.specs.declared.states.Phase.TheVariants.{Live, Done, Withdrawn};
ghost use Rattle.wf_names.specs.States.{is_held, is_finished, is_done, user_of};
ghost use Rattle.constraint_forms.specs.Assign.{is_member, no_steps, no_users, user_at};
ghost use Rattle.workflow_schema.specs.Flows.{Precedes};
ghost use Rattle.case_record.specs.Cases.{assigned_of, finished_of, fresh_case, finished_case};
ghost use Rattle.case_record.specs.Cases.{state_at, with_phase, with_state};
ghost use Rattle.case_record.specs.Order.{first_missing, is_ready, IsFirstMissing, IsReady};

use crate::order::{first_unfinished, is_free_step};
use crate::steps::{all_free, as_finished, assigned, finished, phase_after};
use constraint_forms::{Assign, StepSet};
use std::marker::Model;
use wf_names::{FlowId, Phase, STEP_LIMIT, StepId, StepState, UserId};
use workflow_schema::Flow;

/// A case: an instance of a workflow with where each of its steps stands.
///
/// No call takes memory. A call that takes a workflow is about the case's own: one with as many
/// steps as the case has.
#[derive(Clone, Copy)]
pub struct Case {
    flow: FlowId,
    // The cells from `steps` on are free.
    cells: [StepState; STEP_LIMIT],
    steps: u8,
    phase: Phase,
}

impl Model for Case {
    ghost use Rattle.std.specs.Prelude.{take, length};
    ghost use Rattle.case_record.specs.Cases.{CaseShape};
    ghost use Rattle.wf_names.specs.declared.limits.TheConstants.{STEP_LIMIT};
    ghost use Rattle.wf_names.specs.declared.states.StepState.TheVariants.{Free};
    ghost use Rattle.wf_names.specs.Padded.{IsPadded, padded-take, length-taken};
    ghost use Rattle.case_record.specs.Steps.{all_steps};

    ghost Value = { CaseShape };

    ghost view = { λ c. record { flow = c.flow; states = take c.steps c.cells; phase = c.phase } };

    ghost invariant = { λ c. IsPadded STEP_LIMIT Free c.cells c.steps };

    ghost inverse = { λ v. record {
      flow = v.flow;
      cells = all_steps v.states;
      steps =
          length v.states;
      phase = v.phase;
    } };

    ghost inverse_ok = { λ c h i.
        record {
          flow = c.flow;
          cells = padded-take STEP_LIMIT Free c.cells c.steps h i;
          steps =
              length-taken STEP_LIMIT Free c.cells c.steps h i;
          phase = c.phase;
        } };
}

impl Case {
    /// An open case of a workflow with `steps` steps, each of them free.
    pub fn fresh(flow: FlowId, steps: u8) -> Case
        requires { steps ≤ STEP_LIMIT }
        ensures case { result ≡ fresh_case flow steps }
        ensures assigned { assigned_of result ≡ no_users }
        ensures finished { finished_of result ≡ no_steps }
    {
        Case {
            flow,
            cells: all_free(),
            steps,
            phase: Phase::Live,
        }
    }

    /// The workflow of which this is a case.
    pub fn flow(&self) -> FlowId
        ensures { result ≡ self.now.flow }
    {
        self.flow
    }

    /// How many steps the workflow has.
    pub fn steps(&self) -> u8
        ensures count { result ≡ length self.now.states }
        ensures within { length self.now.states ≤ STEP_LIMIT }
    {
        self.steps
    }

    /// Where the case stands.
    pub fn phase(&self) -> Phase
        ensures { result ≡ self.now.phase }
    {
        self.phase
    }

    /// Where a step stands; a step that the workflow lacks is free.
    pub fn state(&self, s: StepId) -> StepState
        ensures { result ≡ state_at self.now s }
    {
        if s.0 < self.steps {
            self.cells[s.0 as usize]
        } else {
            StepState::Free
        }
    }

    /// Where each step stands, in the order of their numbers.
    pub fn states(&self) -> &[StepState]
        ensures states { result.now ≡ self.now.states }
        ensures within { length self.now.states ≤ STEP_LIMIT }
    {
        &self.cells[..self.steps as usize]
    }

    /// Whether a step is free, and every step that comes before it finished.
    pub fn ready(&self, f: &Flow, s: StepId) -> bool
        requires steps { length self.now.states ≡ length f.now.steps }
        ensures answer { result ≡ is_ready self.now f.now.order s }
        ensures meaning { IsTrue result ↔ IsReady self.now f.now.order s }
    {
        is_free_step(self, s) && self.first_missing(f, s).is_none()
    }

    /// The least step that comes before a step and is not finished.
    pub fn first_missing(&self, f: &Flow, s: StepId) -> Option<StepId>
        requires steps { length self.now.states ≡ length f.now.steps }
        ensures answer { result ≡ first_missing self.now f.now.order s }
        ensures meaning { MatchOption result
            ((t : ℕ) → Precedes f.now.order t s → IsTrue (is_finished (state_at self.now t)))
            (λ t. IsFirstMissing self.now f.now.order s t) }
    {
        first_unfinished(self, f, s)
    }

    /// Gives a free step to a user.
    pub fn hold(&mut self, s: StepId, u: UserId)
        requires step { s < length self.old.states }
        requires free { state_at self.old s ≡ Free }
        ensures held { self.new ≡ with_state self.old s (Held u) }
        ensures assigned { assigned_of self.new ≡ slice_set (assigned_of self.old) s (Some u) }
        ensures finished { finished_of self.new ≡ finished_of self.old }
    {
        self.cells[s.0 as usize] = StepState::Held(u);
    }

    /// Takes a held step from its holder.
    pub fn release(&mut self, s: StepId)
        requires { is_held (state_at self.old s) ≡ true }
        ensures released { self.new ≡ with_state self.old s Free }
        ensures assigned { assigned_of self.new ≡ slice_set (assigned_of self.old) s None }
        ensures finished { finished_of self.new ≡ finished_of self.old }
    {
        self.cells[s.0 as usize] = StepState::Free;
    }

    /// Finishes a held step for its holder, and answers whether the case is now done.
    pub fn finish(&mut self, s: StepId) -> bool
        requires { is_held (state_at self.old s) ≡ true }
        ensures case { self.new ≡ finished_case self.old s }
        ensures assigned { assigned_of self.new ≡ assigned_of self.old }
        ensures finished { finished_of self.new ≡ slice_set (finished_of self.old) s true }
        ensures done { result ≡ is_done self.new.phase }
    {
        let at = s.0 as usize;
        self.cells[at] = as_finished(self.cells[at]);
        self.phase = phase_after(&self.cells[..self.steps as usize], self.phase);
        self.phase.is_done()
    }

    /// Ends the case before its steps are finished.
    pub fn withdraw(&mut self)
        ensures { self.new ≡ with_phase self.old Withdrawn }
    {
        self.phase = Phase::Withdrawn;
    }

    /// The users of the steps that are held or finished.
    pub fn assigned(&self) -> Assign
        ensures value { result ≡ assigned_of self.now }
        ensures users { (s : ℕ) → user_at result s ≡ user_of (state_at self.now s) }
    {
        assigned(&self.cells)
    }

    /// The steps that are finished.
    pub fn finished(&self) -> StepSet
        ensures value { result ≡ finished_of self.now }
        ensures members { (s : ℕ) → is_member result s ≡ is_finished (state_at self.now s) }
    {
        finished(&self.cells)
    }
}
