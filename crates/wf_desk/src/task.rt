//! What is found outside a turn.

use wf_board::Snap;
use wf_talk::Ask;

/// A lane's next job, with all that a verdict on it needs.
#[derive(Drop)]
pub struct Task {
    /// The lane of the job.
    pub lane: u8,
    /// The number of the job's line, counted from 0.
    pub line: u32,
    /// What the line asks.
    pub ask: Ask,
    /// How many entries there were when the snapshot was taken.
    pub number: u32,
    /// The policy and the cases as they were then.
    pub snap: Snap,
}

/// What came of taking up a lane's next job.
#[derive(Drop)]
pub enum Taken {
    /// A verdict has to be searched for and committed.
    Task(Task),
    /// It needed no search, and was decided inside the turn.
    Served,
    /// A plan that was at hand decided it inside the turn.
    Planned,
    /// The lane has no job left.
    Ended,
}
