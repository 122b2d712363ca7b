//! What a command answers.
ghost use Rattle.std.specs.Prelude.{◌≡◌, ℕ, false, List, Option, None, Ok, IfErr};
ghost use Rattle.policy_book.specs.Laws.Shapes.{PolicyShape};
ghost use Rattle.policy_reader.specs.Files.{policy_of_file};
ghost use Rattle.policy_reader.specs.Laws.Printable.{IsPrintable};
ghost use Rattle.run_record.specs.declared.fault.RunFault.{RunFault};
ghost use Rattle.run_record.specs.Fault.{fault_in, CountsReadsAlone};
ghost use Rattle.wf_commands.specs.Answer.{ending_with, AnswersAs, IsAnswerEnding};
ghost use Rattle.wf_commands.specs.Answer.{IsTellEnding};
ghost use Rattle.wf_commands.specs.Once.{ReadsInput};

use policy_book::Policy;
use run_record::RunFault;
use std::alloc::Global;
use wf_outside::Source;

/// What is written, and whether the command found what it looks for, which is told by its status:
/// `plan` a plan that is not valid, `resilience` users without whom the workflow cannot be done,
/// `cnf` a clause that the model does not satisfy.
#[derive(Drop)]
pub struct Answer {
    pub found: bool,
    pub text: Vec<u8>,
}

impl Answer {
    /// The answer of a command that looks for nothing.
    pub(crate) fn told(text: Vec<u8>) -> Answer
        ensures { result ≡ record { found = false; text = text } }
    {
        Answer { found: false, text }
    }

    /// How the run ends where all of the text is written.
    pub fn ending(&self) -> RunFault
        ensures { result ≡ ending_with self.now.found }
    {
        if self.found {
            RunFault::Found
        } else {
            RunFault::Nothing
        }
    }
}

/// A command that answers once about the policy in a file.
pub trait Answers {
    /// How many bytes of the input it reads at most; none where it reads no input.
    ghost limit: { Self → Option ℕ };

    /// Its answers for a policy: how the run ends with which text, by what is told of the input.
    ghost answers: { Self → Option (List ℕ) → PolicyShape → RunFault → List ℕ → Type 0 };

    /// The answer about a policy that a file gave.
    fn answer<S: Source>(
        &self,
        alloc: Global,
        p: &Policy,
        source: &mut S,
    ) -> Result<Answer, RunFault>
        requires { IsPrintable p.now }
        ensures answer { (file : List ℕ) → policy_of_file file ≡ Ok p.now →
            AnswersAs (answers self.now (S.left source.old) p.now) result }
        ensures ending { IfErr result IsAnswerEnding }
        ensures reads { CountsReadsAlone (fault_in result) (S.faults source.old)
            (S.faults source.new) }
        ensures input { ReadsInput (limit self.now) (fault_in result) (S.left source.old)
            (S.left source.new) }
        ensures untouched { limit self.now ≡ None → source.new ≡ source.old };
}

/// A command that answers once about the policy in a file, and reads no input.
pub trait Tells {
    /// Its answers for a policy: how the run ends with which text.
    ghost tells: { Self → PolicyShape → RunFault → List ℕ → Type 0 };

    /// The answer about a policy that a file gave.
    fn tell(&self, alloc: Global, p: &Policy) -> Result<Answer, RunFault>
        requires { IsPrintable p.now }
        ensures answer { (file : List ℕ) → policy_of_file file ≡ Ok p.now →
            AnswersAs (tells self.now p.now) result }
        ensures ending { IfErr result IsTellEnding };
}

impl<T: Tells> Answers for T {
    ghost limit = { λ _. None };

    ghost answers = { λ command _ p. T.tells command p };

    fn answer<S: Source>(
        &self,
        alloc: Global,
        p: &Policy,
        _source: &mut S,
    ) -> Result<Answer, RunFault> {
        self.tell(alloc, p)
    }
}
