//! Which workflow each case is of.
ghost use Rattle.std.specs.Prelude.{◌≡◌, ℕ, Option};

use wf_names::{CaseId, FlowId};

/// Who knows the workflow of each case.
pub trait FlowOf {
    /// The workflow of each case that there is, by the case's number.
    ghost flows: { Self → ℕ → Option ℕ };

    /// The workflow of a case; None where there is no such case.
    fn flow_of(&self, case: CaseId) -> Option<FlowId>
        ensures { result ≡ flows self.now case };
}
