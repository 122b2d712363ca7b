//! Laws of refuting trees and of twins. Each function does nothing; its contract is the law.
ghost use Rattle.certificate_check.specs.Laws.{RefutesSoundly, TwinsChain, TwinsExchange};
ghost use Rattle.certificate_check.specs.Laws.{UnmentionedStepDrops};

/// A tree that refutes an assignment excludes every valid plan.
pub fn refutation_is_sound()
    ensures { RefutesSoundly }
{}

/// A tree that refutes once a step is given to a user, and does not mention the step, refutes
/// without it.
pub fn unmentioned_step_drops()
    ensures { UnmentionedStepDrops }
{}

/// Twins can be exchanged: once a step is given to one of them, there is a valid plan exactly where
/// there is one once it is given to the other.
pub fn twins_exchange()
    ensures { TwinsExchange }
{}

/// A twin of a twin is a twin.
pub fn twins_chain()
    ensures { TwinsChain }
{}
