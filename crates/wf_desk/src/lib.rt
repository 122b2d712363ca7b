//! The desk: one history for several lanes.
//!
//! A `Desk` has the journal, the board after it, and the jobs of one batch. Each lane's jobs are
//! answered in order. A lane's next job is decided inside a turn (`serve_next`), or outside it:
//! `begin` takes a numbered snapshot, `solve_task` finds a verdict on it, and a later turn takes
//! the verdict, by the number (`commit`) or by a check of its plan or tree (`commit_checked`).
//! Where an entry since then counts for the job, the verdict no longer decides. An opening, a claim
//! or an edit is then lost, and found again, until it was lost in all of its rounds and is answered
//! `again`; everything else is decided in the turn. `commit_checked` decides an edit in the turn,
//! so that it is never lost.
//!
//! Whatever is called in whatever order, the journal is a legal history (`specs/Desks.antt`). Once
//! a batch is loaded, no turn takes memory but for what the decider and the reply need.
#![tactic(auto)]

mod desk;
pub mod docket;
pub mod journal;
mod loss;
mod outcome;
mod schedule;
mod tabled;
mod task;

pub use desk::{Desk, solve_task};
pub use loss::Loss;
pub use outcome::Outcome;
pub use schedule::{Event, Mark, Marks, Solved};
pub use tabled::Fixed;
pub use task::{Taken, Task};
