//! Which workflow each case of a board is of.
ghost use Rattle.std.specs.Prelude.{◌≡◌, map, option_map};
ghost use Rattle.wf_board.specs.Boards.{numbered};
ghost use Rattle.wf_board.specs.Laws.States.{numbered_case};

use grant_table::Cases;
use wf_names::{CaseId, FlowId};
use wf_talk::FlowOf;

/// The cases of a board, each known for its workflow.
#[derive(Clone, Copy)]
pub(crate) struct Flows<'a> {
    pub cases: &'a Cases,
}

impl FlowOf for Flows<'_> {
    ghost flows = { λ f n. option_map (λ c. c.flow)
        (numbered_case (map numbered f.cases.now.rows) n) };

    fn flow_of(&self, case: CaseId) -> Option<FlowId> {
        flow_in(self.cases, case)
    }
}

/// The workflow of a case, if there is one with this number.
#[tactic(auto, using(wf_board::proofs::Rows::case_numbered))]
fn flow_in(cases: &Cases, case: CaseId) -> Option<FlowId>
    ensures { result ≡ option_map (λ c. c.flow) (numbered_case (map numbered cases.now.rows) case) }
{
    match cases.case(case) {
        Some(found) => Some(found.flow()),
        None => None,
    }
}
