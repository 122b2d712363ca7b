//! What an item of the input says of a step.
ghost use Rattle.std.specs.Prelude.{◌≡◌, length, option_and_then, IfSome};
ghost use Rattle.serde_json.specs.View.{view, items_view};
ghost use Rattle.serde_json.specs.Find.{as_str};
ghost use Rattle.wf_commands.specs.Cases.{free_said, said_at, said_in, user_said, IsOfUsers};

use crate::find_user;
use policy_book::Policy;
use serde_json::Value;
use wf_names::StepState;

/// What an item says of a step, as a view shows it: where it stands, unless its user is not known;
/// nothing where it is of no such form.
pub(crate) fn said_in(p: &Policy, item: &Value) -> Option<Option<StepState>>
    ensures said { result ≡ said_in p.now (view item.now) }
    ensures known { IfSome result (λ said. IfSome said (IsOfUsers (length p.now.roster.users))) }
{
    match item.as_array() {
        Some(items) => said_at(p, items),
        None => None,
    }
}

// What the items of an array say.
#[tactic(auto, using(crate::proofs::ItemsSaid::all_said))]
fn said_at(p: &Policy, items: &[Value]) -> Option<Option<StepState>>
    ensures said { result ≡ said_at p.now (items_view items.now) }
    ensures known { IfSome result (λ said. IfSome said (IsOfUsers (length p.now.roster.users))) }
{
    if items.len() == 1 {
        word_said(&items[0])
    } else if items.len() == 2 {
        words_said(p, &items[0], &items[1])
    } else {
        None
    }
}

// What one item says.
fn word_said(word: &Value) -> Option<Option<StepState>>
    ensures said { result ≡ option_and_then free_said (as_str (view word.now)) }
    ensures known { IfSome result (λ said. IfSome said (IsOfUsers 0)) }
{
    match word.as_str() {
        Some(word) => free_said(word),
        None => None,
    }
}

// What two items say.
fn words_said(p: &Policy, word: &Value, name: &Value) -> Option<Option<StepState>>
    ensures said { result ≡ option_and_then (λ w. option_and_then (user_said p.now w)
        (as_str (view name.now))) (as_str (view word.now)) }
    ensures known { IfSome result (λ said. IfSome said (IsOfUsers (length p.now.roster.users))) }
{
    match (word.as_str(), name.as_str()) {
        (Some(word), Some(name)) => user_said(p, word, name),
        _ => None,
    }
}

// That nobody has a step.
fn free_said(word: &str) -> Option<Option<StepState>>
    ensures said { result ≡ free_said word.now }
    ensures known { IfSome result (λ said. IfSome said (IsOfUsers 0)) }
{
    if word == "free" {
        Some(Some(StepState::Free))
    } else {
        None
    }
}

// That a user of this name has a step.
fn user_said(p: &Policy, word: &str, name: &str) -> Option<Option<StepState>>
    ensures said { result ≡ user_said p.now word.now name.now }
    ensures known { IfSome result (λ said. IfSome said (IsOfUsers (length p.now.roster.users))) }
{
    if word == "held" {
        Some(find_user(p, name).map(StepState::Held))
    } else if word == "finished" {
        Some(find_user(p, name).map(StepState::Finished))
    } else {
        None
    }
}
