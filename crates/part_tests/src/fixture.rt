//! The trio of clerks that several tests share, and the one place where a test reads a policy.

use crate::{lines, rules, searches, trees, uncalled};
use plain_words::say;
use policy_book::Policy;
use std::alloc::Global;
use std::test::Fail;
use wf_names::FlowId;

/// The first workflow of a policy.
pub(crate) const FLOW: FlowId = FlowId(0);

// Three clerks for three steps, of whom kim alone is mentor of somebody, of lee. Rules follow.
const TRIO: &str = r#"
format = 2
admin = "chief"
roles = ["boss", "chief", "clerk"]

[users]
kim = ["clerk"]
lee = ["clerk"]
max = ["clerk"]
zoe = ["chief"]

[relations]
mentor = { pairs = [["kim", "lee"]] }

[flows.trio]
steps = ["a", "b", "c"]
permit = { a = ["clerk"], b = ["clerk"], c = ["clerk"] }
rules = [
"#;

/// What is looked at under a policy.
#[derive(Clone, Copy)]
pub(crate) enum Look {
    /// The lines that are read fastest.
    Lines,
    /// Which assignments falsify its rules.
    Rules,
    /// What the search finds, where it is known whether there is a valid plan.
    Search(bool),
    /// What is left of a tree that is trimmed.
    Tree,
    /// The calls that the program makes nowhere.
    Uncalled,
}

/// Whether all is right under the policy of three clerks with these rules over the steps a, b and
/// c.
pub(crate) fn is_right_in_trio(alloc: Global, rules: &str, look: Look) -> Result<bool, Fail> {
    let mut text = String::new(alloc);
    match say(&mut text, &[TRIO, rules, "]\n"]) {
        Ok(()) => is_right(alloc, text.as_str(), look),
        Err(e) => Err(e.into()),
    }
}

/// Whether all is right under a policy.
pub(crate) fn is_right(alloc: Global, policy: &str, look: Look) -> Result<bool, Fail> {
    match policy_reader::read(alloc, policy.as_bytes()) {
        Ok(p) => looks_right(alloc, &p, look),
        Err(fault) => Err(fault.into()),
    }
}

fn looks_right(alloc: Global, p: &Policy, look: Look) -> Result<bool, Fail> {
    match look {
        Look::Lines => lines::are_read(alloc, p),
        Look::Rules => Ok(rules::are_falsified_so(p)),
        Look::Search(solvable) => searches::agrees(alloc, p, solvable),
        Look::Tree => trees::is_trimmed(alloc, p),
        Look::Uncalled => uncalled::succeed(alloc, p),
    }
}
