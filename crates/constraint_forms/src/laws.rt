//! Laws of the rule forms: all that is needed to know of a rule without a look at its form.
//!
//! Each function does nothing; its contract is the law.
ghost use Rattle.constraint_forms.specs.Laws.{ExchangeDoesNotMatter, FalsifiedByNamed};
ghost use Rattle.constraint_forms.specs.Laws.{SatisfiedByNamed, SeesRelatedness, StaysFalsified};
ghost use Rattle.constraint_forms.specs.Laws.{TotalsDecide};

/// A total assignment satisfies a rule exactly where it does not falsify it, and what an
/// assignment falsifies, every extension of it falsifies.
pub fn falsified_is_final()
    ensures total { TotalsDecide }
    ensures stays { StaysFalsified }
{}

/// Steps that a rule does not name do not matter to it.
pub fn only_named_steps_matter()
    ensures falsified { FalsifiedByNamed }
    ensures satisfied { SatisfiedByNamed }
{}

/// Of users a rule sees only who is related to whom and who is one user, so that users whom its
/// relation treats alike can be exchanged.
pub fn only_relatedness_matters()
    ensures alike { SeesRelatedness }
    ensures exchange { ExchangeDoesNotMatter }
{}
