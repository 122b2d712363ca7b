//! A lock by which lanes take turns at one value, in which each lane knows a history.
//!
//! The value has a list of pairs of a lane's number and an item. What a lane has seen of that list
//! is a beginning of what it finds when it next takes the value, and only the lane itself appends
//! pairs of its number.
//!
//! Nothing is said of progress or fairness, or of the order of turns of lanes that never met:
//! `take` meets its contract if it returns.
#![tactic(auto)]

mod lane;
mod plays;
mod table;
mod tabled;
mod view;

pub use lane::Lane;
pub use table::{Refused, TurnTable};
pub use tabled::Tabled;
