//! Which workflow each case of a board is of.
ghost use Rattle.std.specs.Prelude.{◌≡◌, option_map};
ghost use Rattle.wf_board.specs.Boards.{state_on};
ghost use Rattle.wf_board.specs.Laws.States.{numbered_case};

use crate::Board;
use wf_names::{CaseId, FlowId};
use wf_talk::FlowOf;

impl FlowOf for Board {
    ghost flows = { λ b n. option_map (λ c. c.flow) (numbered_case (state_on b).book.cases n) };

    fn flow_of(&self, case: CaseId) -> Option<FlowId> {
        flow_on(self, case)
    }
}

/// The workflow of a case, if there is one with this number.
#[tactic(auto, using(crate::proofs::Rows::case_numbered))]
fn flow_on(board: &Board, case: CaseId) -> Option<FlowId>
    ensures { result
        ≡ option_map (λ c. c.flow) (numbered_case (state_on board.now).book.cases case) }
{
    match board.cases().case(case) {
        Some(found) => Some(found.flow()),
        None => None,
    }
}
