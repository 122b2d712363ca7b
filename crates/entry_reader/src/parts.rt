//! The parts of values: numbers, names, and what stands at a key.
ghost use Rattle.std.specs.Prelude.{◌≡◌, ◌<◌, IfSome, length, option_map};
ghost use Rattle.serde_json.specs.View.{view};
ghost use Rattle.entry_reader.specs.Places.{number_below};
ghost use Rattle.entry_reader.specs.Values as read;
ghost use Rattle.entry_reader.specs.Told as told;

use policy_book::Policy;
use serde_json::Value;
use wf_names::{
    CASE_NUMBER_LIMIT, CaseId, FlowId, Name, NameTable, RoleId, StepId, StepState, UserId,
};

/// The key and the value of an object with one member.
pub(crate) fn only(value: &Value) -> Option<(&str, &Value)>
    ensures { option_map (λ m. (m.0.now, view m.1.now)) result ≡ read.only_member (view value.now) }
{
    let members = value.as_object()?;
    if members.len() != 1 {
        return None;
    }
    let (key, member) = members.first_key_value()?;
    Some((key.as_str(), member))
}

/// The two items of an array.
#[tactic(auto, using(crate::proofs::Small::pair_none, crate::proofs::Small::pair_some))]
pub(crate) fn pair_of(value: &Value) -> Option<(&Value, &Value)>
    ensures { option_map (λ b. (view b.0.now, view b.1.now)) result
        ≡ read.pair_parts (view value.now) }
{
    let items = value.as_array()?;
    if items.len() != 2 {
        return None;
    }
    Some((&items[0], &items[1]))
}

/// The number at a key, where it is below a bound.
pub(crate) fn number_below(value: &Value, key: &str, bound: u64) -> Option<u64>
    ensures { result ≡ number_below bound key.now (view value.now) }
{
    match value.get(key).and_then(Value::as_u64) {
        Some(n) if n < bound => Some(n),
        _ => None,
    }
}

/// The number of a case, at the key case.
pub(crate) fn case_of(value: &Value) -> Option<CaseId>
    ensures { result ≡ told.case_read (view value.now) }
{
    match number_below(value, "case", CASE_NUMBER_LIMIT as u64 + 1) {
        Some(n) => Some(CaseId(n as u16)),
        None => None,
    }
}

/// The number of a case.
pub(crate) fn case_number_of(value: &Value) -> Option<CaseId>
    ensures { result ≡ told.number_of_case (view value.now) }
{
    match value.as_u64() {
        Some(n) if n <= CASE_NUMBER_LIMIT as u64 => Some(CaseId(n as u16)),
        _ => None,
    }
}

/// The number of a rule.
pub(crate) fn rule_of(value: &Value) -> Option<u8>
    ensures { result ≡ read.below 256 (view value.now) }
{
    match value.as_u64() {
        Some(n) if n < 256 => Some(n as u8),
        _ => None,
    }
}

/// The name that a value is.
pub(crate) fn name_of(value: &Value) -> Option<Name>
    ensures { result ≡ read.name_read (view value.now) }
{
    Name::read(value.as_str()?)
}

/// The number of the name that a value is.
pub(crate) fn numbered(names: &NameTable, value: &Value) -> Option<u16>
    ensures place { result ≡ read.number_read names.now.names (view value.now) }
    ensures within { IfSome result (λ n. n < length names.now.names) }
{
    names.find(&name_of(value)?)
}

/// The user whose name a value is.
pub(crate) fn user_of(p: &Policy, value: &Value) -> Option<UserId>
    ensures { result ≡ read.user_read p.now (view value.now) }
{
    match numbered(p.roster().users(), value) {
        Some(u) => Some(UserId(u)),
        None => None,
    }
}

/// The role whose name a value is.
pub(crate) fn role_of(p: &Policy, value: &Value) -> Option<RoleId>
    ensures { result ≡ read.number_read p.now.roster.roles (view value.now) }
{
    let role = numbered(p.roster().roles(), value)?;
    Some(RoleId(role as u8))
}

/// The step of a workflow whose name a value is.
pub(crate) fn step_of(p: &Policy, f: FlowId, value: &Value) -> Option<StepId>
    ensures { result ≡ read.step_read p.now f (view value.now) }
{
    if f.0 as u16 >= p.flows().len() {
        return None;
    }
    match numbered(p.flow(f).steps(), value) {
        Some(s) => Some(StepId(s as u8)),
        None => None,
    }
}

/// Where a step stands.
pub(crate) fn state_of(p: &Policy, value: &Value) -> Option<StepState>
    ensures { result ≡ read.state_read p.now (view value.now) }
{
    if let Some(state) = value.as_str().and_then(free_state) {
        return Some(state);
    }
    let (word, user) = only(value)?;
    user_state(word, user_of(p, user)?)
}

/// Where a step stands, as a view shows it.
#[tactic(auto, using(crate::proofs::Uses::seen_states))]
pub(crate) fn seen_of(p: &Policy, value: &Value) -> Option<StepState>
    ensures { result ≡ read.seen_read p.now (view value.now) }
{
    let items = value.as_array()?;
    match items.len() {
        1 => free_state(items[0].as_str()?),
        2 => user_state(items[0].as_str()?, user_of(p, &items[1])?),
        _ => None,
    }
}

// The state of a step that nobody has.
fn free_state(word: &str) -> Option<StepState>
    ensures { result ≡ read.free_state word.now }
{
    if word == "free" {
        Some(StepState::Free)
    } else {
        None
    }
}

// The state of a step that a user has.
fn user_state(word: &str, user: UserId) -> Option<StepState>
    ensures { result ≡ read.user_state word.now user }
{
    match word {
        "held" => Some(StepState::Held(user)),
        "finished" => Some(StepState::Finished(user)),
        _ => None,
    }
}
