//! The desk at a turn table.

use crate::Desk;
use policy_book::Policy;
use turn_table::Tabled;
use wf_talk::{Entry, Jobs};

/// What no turn changes of a desk. No value of it is made.
pub struct Fixed {
    /// The policy at the beginning.
    pub opening: Policy,
    /// How many lanes there are.
    pub lanes: u8,
    /// After how many lost rounds a request is answered again.
    pub rounds: u8,
    /// The jobs of the batches before.
    pub earlier: Jobs,
    /// The jobs of the batch.
    pub jobs: Jobs,
    /// How many entries there were when they came.
    pub start: u32,
    /// How many entries were taken up from an earlier session.
    pub restored: u32,
}

impl Tabled for Desk {
    type Ground = Fixed;

    type Item = Entry;

    ghost use Rattle.wf_desk.specs.Tabled.{fixed_of, tagged_of};

    ghost fixed_part = { fixed_of };

    ghost list = { tagged_of };
}
