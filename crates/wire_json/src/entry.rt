//! The parts of entries as JSON values.
ghost use Rattle.std.specs.Prelude.{◌≡◌, IfOk};
ghost use Rattle.serde_json.specs.View.{view};
ghost use Rattle.policy_book.specs.Policies.{flow_at};
ghost use Rattle.wire_json.specs.Entries.{named, user_data, step_data};

use policy_book::Policy;
use serde_json::{Value, json};
use std::alloc::{AllocError, Global};
use wf_names::{FlowId, NameTable, StepId, UserId};

pub(crate) fn user_value(alloc: Global, p: &Policy, u: UserId) -> Result<Value, AllocError>
    ensures { IfOk result (λ v. view v ≡ user_data p.now u) }
{
    name_value(alloc, p.roster().users(), u.0)
}

pub(crate) fn step_value(
    alloc: Global,
    p: &Policy,
    f: FlowId,
    s: StepId,
) -> Result<Value, AllocError>
    ensures { IfOk result (λ v. view v ≡ step_data p.now f s) }
{
    if (f.0 as u16) < p.flows().len() {
        name_value(alloc, p.flow(f).steps(), s.0 as u16)
    } else {
        json!(in alloc; "")
    }
}

// The name with a number, as text; the empty text where there is none.
fn name_value(alloc: Global, names: &NameTable, n: u16) -> Result<Value, AllocError>
    ensures { IfOk result (λ v. view v ≡ named names.now.names n) }
{
    if n < names.len() {
        json!(in alloc; (names.name(n).as_str()))
    } else {
        json!(in alloc; "")
    }
}
