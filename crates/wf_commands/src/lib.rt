//! The commands that answer once: each loads a policy, and writes one text, or the clauses of a
//! case as they come.
#![tactic(auto)]

mod answer;
mod case;
mod clauses;
mod cnf_answer;
mod encoding;
mod given;
mod input;
mod load;
mod model;
mod model_file;
mod once;
mod plan;
mod resilience;
mod said;
mod show;
mod solve;

pub use answer::{Answer, Answers, Tells};
pub use clauses::run_clauses;
pub use given::{find_flow, take_input};
pub use input::{InputError, find_user, json_of};
pub use load::{load_file, load_policy};
pub use model::run_model;
pub use model_file::MODEL_FILE_LIMIT;
pub use once::answer_once;
pub use plan::{PlanCommand, name_text};
pub use resilience::ResilienceCommand;
pub use show::ShowCommand;
pub use solve::SolveCommand;
