//! The plans with which cases were last opened.
use constraint_forms::Plan;
use wf_names::FlowId;

/// How many plans are remembered.
const REMEMBERED: usize = 8;

/// For some workflows, the plan with which a case was last opened: a hint where to look for the
/// next one. Nothing is promised of it, so whoever takes it has to check it.
#[derive(Clone, Copy)]
pub(crate) struct Recent {
    plans: [Option<(FlowId, Plan)>; REMEMBERED],
}

impl Recent {
    /// Nothing is remembered.
    pub(crate) fn none() -> Recent {
        Recent {
            plans: [None; REMEMBERED],
        }
    }

    /// Remembers the plan of an opening, in the place of that of another workflow.
    pub(crate) fn keep(&mut self, f: FlowId, plan: Plan) {
        self.plans[f.0 as usize % REMEMBERED] = Some((f, plan));
    }

    /// The plan of the last opening of a workflow, if it is remembered.
    pub(crate) fn plan(&self, f: FlowId) -> Option<Plan> {
        let (of, plan) = self.plans[f.0 as usize % REMEMBERED]?;
        if of == f { Some(plan) } else { None }
    }
}
