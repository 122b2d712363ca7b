//! Trials of the crates below the server, and of the sentences of rules: what no clause of theirs
//! says, and no row of a file shows. Each tells whether all is as it should be.
#![tactic(auto)]

mod caches;
mod fixture;
mod lines;
mod rules;
mod searches;
mod sentences;
mod trees;
mod uncalled;
mod views;

pub use caches::what_was_found_serves_again_as_long_as_it_decides;
pub use lines::plain_lines_are_read;
pub use rules::rules_are_falsified_where_they_should;
pub use searches::search_agrees_with_all_assignments;
pub use sentences::rules_are_sentences;
pub use trees::a_step_that_is_not_mentioned_goes_and_makes_twins;
pub use uncalled::calls_succeed;
pub use views::both_deciders_see_the_same;
