//! Trials of the server and of desks and lanes, over their public calls: what no clause says, and
//! what no row of a file can say. Each tells whether all is as it should be.
#![tactic(auto)]

mod desks;
mod endings;
mod lanes;
mod schedules;
mod sessions;
mod system;
mod trials;
mod world;

pub use desks::{
    a_checked_edit_is_never_lost, some_entries_lose_no_task, tasks_are_served_begun_and_committed,
};
pub use endings::endings_have_their_texts;
pub use lanes::{
    eight_lanes_answer_each_line_once, long_lines_are_written_alike,
    plans_at_hand_answer_on_eight_lanes, stale_task_meets_its_commit, two_claims_solve_at_once,
};
pub use sessions::{numbers_end, open_cases_are_limited};
pub use system::bytes_go_through_one_by_one;
pub use trials::a_trial_is_served;
