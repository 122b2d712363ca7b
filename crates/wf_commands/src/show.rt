//! The command `show`: the policy is written.
ghost use Rattle.wf_commands.specs.Show.{ShowsPolicy};

use crate::answer::{Answer, Tells};
use policy_book::Policy;
use policy_reader::print;
use run_record::RunFault;
use std::alloc::Global;

/// `show`: what is the policy?
#[derive(Clone, Copy)]
pub struct ShowCommand;

impl Tells for ShowCommand {
    ghost tells = { λ _. ShowsPolicy };

    fn tell(&self, alloc: Global, p: &Policy) -> Result<Answer, RunFault> {
        Ok(Answer::told(print(alloc, p)?.into_bytes()))
    }
}
