//! Why a workflow was not made.

use wf_names::StepId;

/// The first reason against a workflow.
#[derive(Clone, Copy, Drop)]
pub enum FlowFault {
    /// There are no steps, or more than the limit.
    TooMany,
    /// A pair of the order or of the permissions is repeated.
    Twice,
    /// The least step that comes before itself.
    Cycle(StepId),
    /// There was no memory for it.
    NoMemory,
}
