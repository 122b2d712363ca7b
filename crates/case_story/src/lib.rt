//! What a transcript tells in words: the files of a session are loaded, the transcript is audited,
//! and as far as it is right it is told, as lines or as a page of HTML about one case. What comes
//! from the files is escaped there.
#![tactic(auto)]

mod answer;
mod case_page;
mod entry;
mod escape;
mod follow;
mod head;
mod html;
pub mod laws;
mod layout;
mod log;
mod now;
mod page;
mod picture;
mod place;
mod printed;
mod session;
mod shown;
mod standing;
mod steps;
mod transcript;
mod verdict;
mod whole;

pub use transcript::{What, run_told};
pub use transcript_commands::Earlier;
pub use verdict::Verdict;
