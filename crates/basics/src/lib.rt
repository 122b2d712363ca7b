//! What several crates share and none owns: lists and shared values that contracts see as what
//! they hold. Beside them, specs/ has finite sets of pairs with their laws, and the words for
//! readers whose contract names the first fault that they meet (their result gives what a
//! definition reads), and proofs/ has facts of Booleans and numbers.
#![tactic(auto)]

mod fault;
mod list;
mod log;
mod same;
mod shared;

pub use fault::Fault;
pub use list::List;
pub use log::Log;
pub use same::Same;
pub use shared::{Copied, Shared};
