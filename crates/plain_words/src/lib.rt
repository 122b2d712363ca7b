//! What a policy says, and what is wrong with it, in plain words. Nothing here decides anything:
//! the words tell what was decided.
#![tactic(auto)]

mod advice;
mod amiss;
mod culprit;
mod fault;
mod lists;
mod marks;
mod nearest;
mod one_way;
mod place;
mod rules;
mod shown;
mod texts;
mod why;

pub use advice::push_advice;
pub use fault::fault_text;
pub use lists::{
    counted, flow_name, flow_text, group_text, name_of, name_text, push_gap, step_name, steps_text,
    text_of, users_text,
};
pub use rules::{relation_name, rule_text};
pub use texts::{joined, say};
pub use why::{clash_text, crowd_text, plan_text, push_rule_lines};
