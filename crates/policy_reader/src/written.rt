//! In which format a policy is written.
ghost use Rattle.std.specs.Prelude.{◌≡◌, ◌<◌, length, not};
ghost use Rattle.policy_book.specs.Policies.{any_below, flow_at};
ghost use Rattle.policy_reader.specs.Documents as spec;
ghost use Rattle.policy_reader.specs.Forms.{is_first_form};

use crate::{Form, Format};
use constraint_forms::{Rule, Rules};
use policy_book::Policy;
use wf_names::FlowId;

/// The format that a policy is written in: the first one, where it has the forms of all rules.
pub(crate) fn written_format(policy: &Policy) -> Format
    ensures { result ≡ spec.written_format policy.now }
{
    if some_flow_needs_second(policy) {
        Format::Second
    } else {
        Format::First
    }
}

fn some_flow_needs_second(policy: &Policy) -> bool
    ensures { result ≡ any_below (length policy.now.flows)
        (λ f. spec.needs_second (flow_at policy.now f).rules) }
{
    'flows: for f in 0..policy.flows().len() {
        if needs_second(policy.rules(FlowId(f as u8))) {
            return true;
        }
    }
    false
}

fn needs_second(rules: &Rules) -> bool
    ensures { result ≡ spec.needs_second rules.now }
{
    rules.as_slice().iter().any(|rule| is_second(rule))
}

fn is_second(rule: &Rule) -> bool
    ensures { result ≡ not (is_first_form (spec.form_of rule.now)) }
{
    !form_of(rule).is_first()
}

/// The form of a rule.
pub(crate) fn form_of(rule: &Rule) -> Form
    ensures { result ≡ spec.form_of rule.now }
{
    match rule {
        Rule::Pair { .. } => Form::Pair,
        Rule::SomeOf { .. } => Form::SomeOf,
        Rule::AllOf { .. } => Form::AllOf,
        Rule::SomeTo { .. } => Form::SomeTo,
        Rule::AllTo { .. } => Form::AllTo,
        Rule::AtMost { .. } => Form::AtMost,
        Rule::AtLeast { .. } => Form::AtLeast,
    }
}
