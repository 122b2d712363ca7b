//! Laws of trials. The function does nothing; its contract is the law.
ghost use Rattle.trial_command.specs.TrialLaws.{AreTrials};

/// The jobs of each trial have lines without gaps and four lanes, and come in short batches.
pub fn trials_come_in_batches()
    ensures { AreTrials }
{}
