//! A case as clauses for SAT solvers: their models are exactly the case's valid plans.
//!
//! An `Encoder` gives the clauses one by one, `write_clauses` writes them as the text that solvers
//! read, and `read_model` and `plan_of` make a plan of what a solver answers.
#![tactic(auto)]

mod counting;
mod encoder;
mod fault;
mod group;
mod grouping;
pub mod laws;
mod listed;
mod literals;
mod made;
mod making;
mod model;
pub mod model_laws;
mod model_text;
mod position;
mod reading;
mod saying;
mod seen;
mod sizes;
mod tally;
mod terms;
mod text;
mod word;
mod writing;

pub use encoder::Encoder;
pub use fault::{CnfFault, TooLarge};
pub use literals::Literals;
pub use made::model_of;
pub use model::Model;
pub use model_text::{ModelFault, read_model};
pub use reading::{Reading, plan_of};
pub use tally::LITERAL_LIMIT;
pub use writing::{WriteFault, write_clauses};
