//! Reads pairs of declared names: those of a listed relation and those of an order, each straight
//! into its rows.
ghost use Rattle.std.specs.Prelude.{◌≡◌, ℕ, ◌<◌, ◌≤◌, ◌+◌, length, not, IfOk, OnOk, option_map};
ghost use Rattle.std.specs.FinSet as set;
ghost use Rattle.toml.specs.View.{view, items_view};
ghost use Rattle.wf_names.specs.declared.limits.TheConstants.{STEP_LIMIT, USER_LIMIT};
ghost use Rattle.policy_reader.specs.Bounds.{AreBelow};
ghost use Rattle.policy_reader.specs.Faults.{fault_of, fault_about};
ghost use Rattle.policy_reader.specs.declared.fault.ReadFault.TheVariants.{Policy};
ghost use Rattle.policy_reader.specs.declared.fault.PolicyKind.TheVariants as kind;
ghost use Rattle.policy_reader.specs.Parts as parts;
ghost use Rattle.basics.specs.Laws.Pairs.{Pairs};
ghost use Rattle.basics.specs.Laws.Reading.{Gives, each};

use crate::fault::{PolicyKind, PolicyPart, ReadFault, refuse, refuse_text};
use crate::parts::number_of;
use std::alloc::AllocError;
use toml::Value;
use user_relations::UserPairs;
use wf_names::{NameTable, StepId, UserId};
use workflow_schema::StepPairs;

/// A set of pairs of numbers, which takes one pair at a time.
pub(crate) trait PairSet: Drop {
    ghost held: { Self → Pairs };

    // The numbers of its pairs are below this.
    ghost limit: { ℕ };

    /// Puts the pair `(a, b)` into the set and answers whether it is new there.
    fn put(&mut self, a: u16, b: u16) -> Result<bool, AllocError>
        requires first { a < limit }
        requires second { b < limit }
        ensures added { OnOk result (held self.new ≡ set.insert (held self.old) (a, b)) }
        ensures fresh { IfOk result (λ fresh. fresh
            ≡ not (set.contains (held self.old) (a, b))) };
}

impl PairSet for UserPairs {
    ghost held = { λ pairs. pairs };

    ghost limit = { USER_LIMIT };

    fn put(&mut self, a: u16, b: u16) -> Result<bool, AllocError> {
        self.insert(UserId(a), UserId(b))
    }
}

impl PairSet for StepPairs {
    ghost held = { λ pairs. pairs };

    ghost limit = { STEP_LIMIT };

    fn put(&mut self, a: u16, b: u16) -> Result<bool, AllocError> {
        Ok(self.insert(StepId(a as u8), StepId(b as u8)))
    }
}

/// The two texts of an array of two texts.
fn two_texts(value: &Value) -> Option<(&str, &str)>
    ensures { option_map (λ p. (p.0.now, p.1.now)) result ≡ parts.two_texts (view value.now) }
{
    match value.as_array() {
        Some(items) => texts_of(items),
        None => None,
    }
}

#[tactic(auto, using(crate::proofs::Counts::texts_of_two, crate::proofs::Counts::texts_of_others))]
fn texts_of(items: &[Value]) -> Option<(&str, &str)>
    ensures { option_map (λ p. (p.0.now, p.1.now)) result ≡ parts.texts_in (items_view items.now) }
{
    if items.len() != 2 {
        return None;
    }
    match (items[0].as_str(), items[1].as_str()) {
        (Some(first), Some(second)) => Some((first, second)),
        _ => None,
    }
}

/// The fault of a value of two texts that stands twice.
pub(crate) fn twice_pair(value: &Value, part: PolicyPart, index: u32) -> ReadFault
    ensures { result
        ≡ Policy (fault_about kind.Twice part index (parts.first_said (view value.now))) }
{
    match two_texts(value) {
        Some((first, _)) => refuse_text(PolicyKind::Twice, part, index, first),
        None => refuse_text(PolicyKind::Twice, part, index, ""),
    }
}

/// The numbers of the two declared names that a value says.
#[tactic(auto, unfolding(crate::specs::Parts::named_pair_in, crate::specs::Parts::numbers_in))]
fn named_pair(
    names: &NameTable,
    value: &Value,
    part: PolicyPart,
    index: u32,
) -> Result<(u16, u16), ReadFault>
    ensures read { Gives fault_of (λ p. p) result
        (parts.named_pair_in part index names.now.names (view value.now)) }
    ensures first { IfOk result (λ p. p.0 < length names.now.names) }
    ensures second { IfOk result (λ p. p.1 < length names.now.names) }
{
    let Some((first, second)) = two_texts(value) else {
        return Err(refuse(PolicyKind::Shape, part, index));
    };
    let a = number_of(names, first, part, index)?;
    match number_of(names, second, part, index) {
        Ok(b) => Ok((a, b)),
        Err(fault) => Err(fault),
    }
}

/// Reads pairs of declared names into a set that has none.
#[tactic(auto, using(basics::specs::PairLaws::all_empty))]
pub(crate) fn read_pairs<P: PairSet>(
    mut pairs: P,
    names: &NameTable,
    items: &[Value],
    part: PolicyPart,
    index: u32,
) -> Result<P, ReadFault>
    requires none { P.held pairs ≡ set.empty }
    requires few { length names.now.names ≤ P.limit }
    ensures read { Gives fault_of P.held result
        (each (parts.next_pair part index names.now.names) set.empty
        (parts.items (items_view items.now))) }
    ensures within { IfOk result (λ pairs. AreBelow (length names.now.names) (P.held pairs)) }
    ensures len { IfOk result (λ pairs. set.len (P.held pairs) ≤ length items.now) }
{
    'items: for value in items {
        if let Err(fault) = next_pair(&mut pairs, names, value, part, index) {
            return Err(fault);
        }
    }
    Ok(pairs)
}

// Puts the next pair of declared names in.
#[tactic(auto, unfolding(crate::specs::Parts::next_pair, crate::specs::Parts::once))]
fn next_pair<P: PairSet>(
    pairs: &mut P,
    names: &NameTable,
    value: &Value,
    part: PolicyPart,
    index: u32,
) -> Result<(), ReadFault>
    requires few { length names.now.names ≤ P.limit }
    requires within { AreBelow (length names.now.names) (P.held pairs.old) }
    ensures read { Gives fault_of (λ _. P.held pairs.new) result
        (parts.next_pair part index names.now.names (P.held pairs.old) (view value.now)) }
    ensures within { OnOk result (AreBelow (length names.now.names) (P.held pairs.new)) }
    ensures len { OnOk result (set.len (P.held pairs.new) ≤ set.len (P.held pairs.old) + 1) }
{
    let (a, b) = named_pair(names, value, part, index)?;
    if pairs.put(a, b)? {
        Ok(())
    } else {
        Err(twice_pair(value, part, index))
    }
}
