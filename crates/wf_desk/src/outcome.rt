//! What a commit came to.

/// What became of a task that was committed.
#[derive(Clone, Copy, PartialEq, Eq)]
pub enum Outcome {
    /// Its entry stands at this place.
    Recorded(u32),
    /// It is not for its lane's next job, and nothing has changed.
    NotNext,
    /// What it rests on has changed since it was found: it has to be found again.
    Lost,
}
