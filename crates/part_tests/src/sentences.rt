//! Sentences of rules, worked out by hand.

use constraint_forms::{Rule, Rules};
use plain_words::rule_text;
use policy_book::{Course, Policy};
use policy_reader::read;
use std::alloc::{AllocError, Global};
use wf_names::FlowId;

const POLICY: &str = "format = 2\nadmin = \"chief\"\nroles = [\"chief\"]\n\
    [users]\neve = [\"chief\"]\n\
    [relations]\nowes = { pairs = [] }\nclear = { complement = \"owes\" }\n\
    [flows.buy]\nsteps = [\"ask\", \"price\", \"sign\"]\npermit = {}\nrules = [\n\
    { form = \"pair\", relation = \"other\", first = \"ask\", second = \"price\" },\n\
    { form = \"pair\", relation = \"same\", first = \"ask\", second = \"price\" },\n\
    { form = \"pair\", relation = \"owes\", first = \"ask\", second = \"price\" },\n\
    { form = \"pair\", relation = \"clear\", first = \"ask\", second = \"price\" },\n\
    { form = \"all\", relation = \"other\", group = [\"ask\", \"price\"], step = \"sign\" },\n\
    { form = \"some\", relation = \"same\", group = [\"ask\", \"price\"], step = \"sign\" },\n\
    { form = \"all\", relation = \"owes\", group = [\"ask\", \"price\"], step = \"sign\" },\n\
    { form = \"all_to\", relation = \"owes\", group = [\"ask\", \"price\"], step = \"sign\" },\n\
    { form = \"some\", relation = \"clear\", group = [\"ask\", \"price\"], step = \"sign\" },\n\
    { form = \"all\", relation = \"clear\", group = [\"ask\", \"price\"], step = \"sign\" },\n\
    { form = \"all_to\", relation = \"owes\", group = [\"ask\"], step = \"sign\" },\n\
    { form = \"at_most\", limit = 2, group = [\"ask\", \"price\", \"sign\"] },\n\
    { form = \"at_least\", limit = 3, group = [\"ask\", \"price\", \"sign\"] },\n]\n";

const SENTENCES: [&str; 13] = [
    "ask and price are done by different people",
    "ask and price are done by the same person",
    "who does ask has \"owes\" to who does price",
    "who does ask does not have \"owes\" to who does price",
    "who does sign does none of ask and price",
    "who does sign also does ask or price",
    "everybody who does ask or price has \"owes\" to who does sign",
    "who does sign has \"owes\" to everybody who does ask or price",
    "somebody who does ask or price does not have \"owes\" to who does sign",
    "nobody who does ask or price has \"owes\" to who does sign",
    "who does sign has \"owes\" to who does ask",
    "ask, price and sign are done by at most 2 people",
    "ask, price and sign are done by at least 3 different people",
];

/// Whether each rule reads as its sentence.
pub fn rules_are_sentences(alloc: Global) -> Result<bool, AllocError> {
    Ok(count_in(alloc, POLICY)? == 13)
}

// How many rules of a policy file read as their sentences do.
fn count_in(alloc: Global, file: &str) -> Result<u32, AllocError> {
    match read(alloc, file.as_bytes()) {
        Ok(p) => count_right(alloc, &p),
        Err(_) => Ok(0),
    }
}

// How many rules of the first workflow read as their sentences do.
fn count_right(alloc: Global, p: &Policy) -> Result<u32, AllocError> {
    if p.flows().is_empty() {
        return Ok(0);
    }
    let mut count = 0u32;
    let course = Course {
        policy: p,
        number: FlowId(0),
    };
    let rules: &Rules = course.rules();
    for k in 0..rules.len().min(13) {
        if reads_as(alloc, &course, rules.get(k), SENTENCES[k])? {
            count = count.saturating_add(1);
        }
    }
    Ok(count)
}

fn reads_as(
    alloc: Global,
    course: &Course<'_>,
    rule: &Rule,
    sentence: &str,
) -> Result<bool, AllocError> {
    match rule_text(alloc, course, rule) {
        Ok(text) => Ok(text.as_str() == sentence),
        Err(e) => Err(e),
    }
}
