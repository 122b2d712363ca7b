//! What is written of entries is the same with the names of a later policy.
ghost use Rattle.wf_board.specs.Laws.States.{opening_state};
ghost use Rattle.wf_board.specs.Laws.Histories.{state_after};
ghost use Rattle.entry_reader.specs.Named.{HasNames};
ghost use Rattle.wf_server.specs.Names.{KeepsTexts};

use entry_reader::know_names;
use wf_desk::Desk;

/// The entries of a batch, each written with the names of the policy after it, are written as with
/// the names of the policy after the batch. Does nothing.
pub(crate) fn texts_stay(desk: &Desk)
    ensures { KeepsTexts desk.now }
{
    let _ = desk.board().policy();
}

/// The names of the policy at a desk have a name's form. Does nothing.
pub(crate) fn names_known(desk: &Desk)
    ensures { HasNames (state_after (opening_state desk.now.opening)
        desk.now.entries).book.policy }
{
    know_names(desk.board().policy());
}
