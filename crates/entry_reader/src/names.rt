//! What is known of the names of a policy.
ghost use Rattle.std.specs.Prelude.{◌<◌, length};
ghost use Rattle.wf_names.specs.Table.{AreNames};
ghost use Rattle.policy_book.specs.Policies.{flow_at};
ghost use Rattle.entry_reader.specs.Named.{HasNames};

use policy_book::Policy;
use wf_names::{FlowId, NameTable};

/// Each table of names has distinct names, each of a name's form. Changes nothing.
pub fn know_names(p: &Policy)
    ensures { HasNames p.now }
{
    know(p.roster().users());
    know(p.roster().roles());
    know(p.flows());
    'flows: for f in 0..p.flows().len() {
        know_steps(p, FlowId(f as u8));
    }
}

// The steps of a workflow have names.
fn know_steps(p: &Policy, f: FlowId)
    requires { f < length p.now.flows }
    ensures { AreNames (flow_at p.now f).flow.steps }
{
    know(p.flow(f).steps());
}

// A table's names are names.
fn know(names: &NameTable)
    ensures { AreNames names.now.names }
{
    let _ = names.len();
}
