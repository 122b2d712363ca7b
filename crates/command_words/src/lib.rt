//! The words of the command line: the commands of the program, each read by a command of `clap`.
#![tactic(auto)]

mod arguments;
mod command;
mod finding;
mod forms;
mod laws;
mod reading;

pub use command::{ABSENCE_LIMIT, Command, Options};
pub use laws::{usage_is_read, usage_with_options_is_read};
pub use reading::read_words;
