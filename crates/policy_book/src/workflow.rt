//! A workflow of a policy.
ghost use Rattle.std.specs.Prelude.{◌≡◌, IfOk, false};

use basics::Shared;
use constraint_forms::Rules;
use std::alloc::{AllocError, Global};
use std::marker::Model;
use workflow_schema::Flow;

/// A workflow: its steps with their order and permissions, its rules, and whether it is retired.
#[derive(Drop)]
pub(crate) struct Workflow {
    pub(crate) flow: Flow,
    pub(crate) rules: Shared<Rules>,
    pub(crate) retired: bool,
}

impl Model for Workflow {
    ghost use Rattle.policy_book.specs.Laws.Shapes.{WorkflowShape, workflow_code};

    ghost Value = { WorkflowShape };

    ghost coded = { workflow_code };

    ghost view = { λ w. record { flow = w.flow; rules = w.rules; retired = w.retired } };
}

impl Workflow {
    /// A workflow that is not retired.
    pub(crate) fn new(alloc: Global, flow: Flow, rules: Rules) -> Result<Workflow, AllocError>
        ensures { IfOk result (λ w. w ≡ record { flow = flow; rules = rules; retired = false }) }
    {
        Ok(Workflow {
            flow,
            rules: Shared::new(alloc, rules)?,
            retired: false,
        })
    }

    /// A workflow that is equal to `self`.
    pub(crate) fn copy(&self) -> Result<Workflow, AllocError>
        ensures { IfOk result (λ w. w ≡ self.now) }
    {
        Ok(Workflow {
            flow: self.flow.copy()?,
            rules: self.rules.share()?,
            retired: self.retired,
        })
    }
}
