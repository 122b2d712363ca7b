//! The policy of a trial.
ghost use Rattle.std.specs.Prelude.{◌≡◌, ◌∷◌, [], false, length, IfOk, OnOk};
ghost use Rattle.trial_command.specs.Draws.{after};
ghost use Rattle.trial_command.specs.Policy.{trial_flow, trial_policy, trial_relations};
ghost use Rattle.trial_command.specs.Policy.{trial_roster, trial_rules};
ghost use Rattle.trial_command.specs.Named.{flow_name};

use crate::draws::Generator;
use crate::named::named;
use crate::people::{ADMIN, roster_of};
use crate::related::relations_of;
use crate::steps::{flow_of, rules_of};
use policy_book::Policy;
use std::alloc::{AllocError, Global};
use wf_names::NameFault;

/// The policy, whose roles are drawn.
#[tactic(auto, using(crate::proofs::Peers::counts), unfolding(crate::specs::Policy::trial_policy))]
pub(crate) fn policy_of(alloc: Global, draws: &mut Generator) -> Result<Policy, AllocError>
    ensures policy { IfOk result (λ p. p ≡ trial_policy draws.old) }
    ensures drawn { OnOk result (draws.new ≡ after 60 draws.old) }
{
    let mut policy = started(alloc, draws)?;
    add_workflow(alloc, &mut policy)?;
    Ok(policy)
}

// The policy before its workflow.
#[tactic(auto, using(crate::proofs::Peers::counts), unfolding(crate::specs::Policy::trial_policy))]
fn started(alloc: Global, draws: &mut Generator) -> Result<Policy, AllocError>
    ensures policy { IfOk result (λ p. p
        ≡ record (trial_policy draws.old) { flow_names = []; flows = [] }) }
    ensures drawn { OnOk result (draws.new ≡ after 60 draws.old) }
{
    let roster = roster_of(alloc, draws)?;
    Policy::start(alloc, roster, relations_of(alloc)?, ADMIN)
}

// Makes the workflow, and adds it to a policy without any.
#[tactic(auto, using(crate::proofs::FlowFacts::flow_facts))]
fn add_workflow(alloc: Global, policy: &mut Policy) -> Result<(), AllocError>
    requires roles { length policy.old.roster.roles ≡ 6 }
    requires related { length policy.old.relations ≡ 2 }
    requires unnamed { policy.old.flow_names ≡ [] }
    requires bare { policy.old.flows ≡ [] }
    ensures { OnOk result (policy.new ≡ record policy.old {
      flow_names = flow_name ∷ [];
      flows = record { flow = trial_flow; rules = trial_rules; retired = false } ∷ [];
    }) }
{
    let flow = flow_of(alloc)?;
    let rules = rules_of(alloc)?;
    match policy.add_flow(named("buy"), flow, rules) {
        Ok(_) => Ok(()),
        Err(NameFault::NoMemory) => Err(AllocError),
        Err(_) => unreachable!(),
    }
}
