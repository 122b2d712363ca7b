//! Workflows: steps with their order and permissions.
ghost use Rattle.std.specs.Prelude.{◌≡◌, ℕ, ◌<◌, ◌↔◌, true, false, not, ◌||◌, length, IfOk};
ghost use Rattle.std.specs.Prelude.{IsErrOf, IsTrue};
ghost use Rattle.std.specs.List.{All};
ghost use Rattle.std.specs.FinSet as set;
ghost use Rattle.basics.specs.Laws.Pairs.{AllPairs};
ghost use Rattle.wf_names.specs.declared.limits.TheConstants.{ROLE_LIMIT, STEP_LIMIT};
ghost use Rattle.workflow_schema.specs.Flows.{has_twice, is_before, is_count, IsFlow, IsLeastCycle};
ghost use Rattle.workflow_schema.specs.Flows.{Precedes};
ghost use Rattle.workflow_schema.specs.Stored.{IsClosedOrder};

use crate::lists::{order_table, permit_table};
use crate::table::{clear_flag, has_flag, set_flag};
use crate::{FlowFault, StepPairs};
use basics::Shared;
use std::alloc::{AllocError, Global};
use std::marker::Model;
use wf_names::{NameTable, RoleId, STEP_LIMIT, StepId};

/// What no call changes of a workflow.
#[derive(Drop)]
struct Frame {
    steps: NameTable,
    order: StepPairs,
    // Row s has the flag t where s comes before t.
    later: [u64; STEP_LIMIT],
}

/// The steps of a workflow, the order in which they come, and the roles permitted for each.
#[derive(Drop)]
pub struct Flow {
    frame: Shared<Frame>,
    // Row s has the flag r where the role r is permitted for s.
    roles: [u64; STEP_LIMIT],
}

impl Model for Flow {
    ghost use Rattle.workflow_schema.specs.Flows.{FlowShape, flow_code};

    ghost Value = { FlowShape };

    ghost coded = { flow_code };

    ghost use Rattle.workflow_schema.specs.Tables.{permitted_by};
    ghost use Rattle.workflow_schema.specs.Stored.{IsStoredFlow};

    ghost view = { λ f. record {
      steps = f.frame.steps.names;
      order = f.frame.order;
      permits =
          permitted_by f.roles;
    } };

    ghost invariant = { λ f. IsStoredFlow f.frame.steps.names f.frame.order f.frame.later f.roles };
}

impl Flow {
    /// A workflow of these steps, where `order` has the pairs (before, after) and `permits` the
    /// pairs (role, step).
    pub fn build(
        alloc: Global,
        steps: NameTable,
        order: &[(StepId, StepId)],
        permits: &[(RoleId, StepId)],
    ) -> Result<Flow, FlowFault>
        requires order_in { All (λ p. (p.0 < length steps.names)
            × (p.1 < length steps.names)) order.now }
        requires permits_in { All (λ p. (p.0 < ROLE_LIMIT) × (p.1 < length steps.names))
            permits.now }
        ensures built { IfOk result (λ f. f
            ≡ record {
              steps = steps.names;
              order = set.from_list order.now;
              permits = set.from_list
                  permits.now;
            }) }
        ensures too_many { IsErrOf result FlowFault.TooMany
            ↔ (is_count (length steps.names) ≡ false) }
        ensures twice { IsErrOf result FlowFault.Twice
            ↔ ((is_count (length steps.names) ≡ true)
            × ((has_twice order.now || has_twice permits.now) ≡ true)) }
        ensures cycle { (s : ℕ) → IsErrOf result (FlowFault.Cycle s)
            ↔ ((is_count (length steps.names) ≡ true)
            × ((has_twice order.now || has_twice permits.now) ≡ false)
            × IsLeastCycle (set.from_list order.now) s) }
    {
        if !is_counted(&steps) {
            return Err(FlowFault::TooMany);
        }
        let (order, roles) = match (order_table(order), permit_table(permits)) {
            (Some(order), Some(roles)) => (order, roles),
            _ => return Err(FlowFault::Twice),
        };
        match frame_of(alloc, steps, &order) {
            Ok(frame) => Ok(Flow { frame, roles }),
            Err(fault) => Err(fault),
        }
    }

    /// A workflow of these steps in this order, which permits nothing yet.
    pub fn ordered_by(alloc: Global, steps: NameTable, order: &StepPairs) -> Result<Flow, FlowFault>
        requires { AllPairs (λ s t. (s < length steps.names) × (t < length steps.names)) order.now }
        ensures built { IfOk result (λ f. f
            ≡ record { steps = steps.names; order = order.now; permits = set.empty }) }
        ensures too_many { IsErrOf result FlowFault.TooMany
            ↔ (is_count (length steps.names) ≡ false) }
        ensures single { ¬ IsErrOf result FlowFault.Twice }
        ensures cycle { (s : ℕ) → IsErrOf result (FlowFault.Cycle s)
            ↔ ((is_count (length steps.names) ≡ true) × IsLeastCycle order.now s) }
    {
        if !is_counted(&steps) {
            return Err(FlowFault::TooMany);
        }
        match frame_of(alloc, steps, order) {
            Ok(frame) => Ok(Flow {
                frame,
                roles: [0; STEP_LIMIT],
            }),
            Err(fault) => Err(fault),
        }
    }

    /// The names of the steps.
    pub fn steps(&self) -> &NameTable
        ensures names { result.now.names ≡ self.now.steps }
        ensures kept { IsFlow self.now }
    {
        &self.frame.get().steps
    }

    /// Whether a step comes before another, in constant time.
    pub fn before(&self, s: StepId, t: StepId) -> bool
        ensures answer { result ≡ is_before self.now.order s t }
        ensures chain { IsTrue result ↔ Precedes self.now.order s t }
    {
        has_flag(&self.frame.get().later, s.0 as usize, t.0)
    }

    /// Whether the pair itself was handed in.
    pub fn ordered(&self, s: StepId, t: StepId) -> bool
        ensures { result ≡ set.contains self.now.order (s, t) }
    {
        self.frame.get().order.has(s, t)
    }

    /// Whether a role is permitted for a step.
    pub fn permits(&self, r: RoleId, s: StepId) -> bool
        ensures { result ≡ set.contains self.now.permits (r, s) }
    {
        has_flag(&self.roles, s.0 as usize, r.0)
    }

    /// Permits a role for a step; false where it was permitted already. Takes no memory.
    pub fn permit(&mut self, r: RoleId, s: StepId) -> bool
        requires role_in { r < ROLE_LIMIT }
        requires step_in { s < length self.old.steps }
        ensures permitted { self.new ≡ record self.old
            { permits = set.insert self.old.permits (r, s) } }
        ensures changed { result ≡ not (set.contains self.old.permits (r, s)) }
        ensures unchanged { result ≡ false → self.new ≡ self.old }
    {
        let held = has_flag(&self.roles, s.0 as usize, r.0);
        set_flag(&mut self.roles, s.0 as usize, r.0);
        !held
    }

    /// Forbids a role for a step; false where it was not permitted. Takes no memory.
    pub fn forbid(&mut self, r: RoleId, s: StepId) -> bool
        requires role_in { r < ROLE_LIMIT }
        requires step_in { s < length self.old.steps }
        ensures forbidden { self.new ≡ record self.old
            { permits = set.remove self.old.permits (r, s) } }
        ensures changed { result ≡ set.contains self.old.permits (r, s) }
        ensures unchanged { result ≡ false → self.new ≡ self.old }
    {
        let held = has_flag(&self.roles, s.0 as usize, r.0);
        clear_flag(&mut self.roles, s.0 as usize, r.0);
        held
    }

    /// A workflow with the same steps, order and permissions.
    pub fn copy(&self) -> Result<Flow, AllocError>
        ensures { IfOk result (λ f. f ≡ self.now) }
    {
        Ok(Flow {
            frame: self.frame.share()?,
            roles: self.roles,
        })
    }
}

// Whether a workflow can have as many steps.
fn is_counted(steps: &NameTable) -> bool
    ensures { result ≡ is_count (length steps.now.names) }
{
    let count = steps.len() as usize;
    0 < count && count <= STEP_LIMIT
}

// The frame of these steps in this order, where no step comes before itself.
fn frame_of(alloc: Global, steps: NameTable, order: &StepPairs) -> Result<Shared<Frame>, FlowFault>
    requires { AllPairs (λ _ t. t < STEP_LIMIT) order.now }
    ensures made { IfOk result (λ f. (f.steps ≡ steps) × (f.order ≡ order.now)
        × IsClosedOrder order.now f.later) }
    ensures counted { ¬ IsErrOf result FlowFault.TooMany }
    ensures single { ¬ IsErrOf result FlowFault.Twice }
    ensures cycle { (s : ℕ) → IsErrOf result (FlowFault.Cycle s) ↔ IsLeastCycle order.now s }
{
    let later = match order.closed() {
        Ok(later) => later,
        Err(s) => return Err(FlowFault::Cycle(s)),
    };
    let frame = Frame {
        steps,
        order: order.copy(),
        later,
    };
    match Shared::new(alloc, frame) {
        Ok(frame) => Ok(frame),
        Err(_) => Err(FlowFault::NoMemory),
    }
}
