//! Laws of sessions. Each function changes nothing; its contract is the law.
ghost use Rattle.wf_board.specs.Laws.{ClaimsAreExact, EditsAreExact, GrantsAreExact};
ghost use Rattle.wf_board.specs.Laws.{HistoriesAreExact, HistoriesKeepCompletable};
ghost use Rattle.wf_board.specs.Laws.{HistoriesNumberCases, HistoriesStaySound, OutcomeIsFixed};
ghost use Rattle.wf_board.specs.Laws.{PlansStayValid, SnapsSuffice, StepsKeepCompletable};

/// Whatever is asked and answered, each open case can still be completed.
pub fn steps_keep_completable()
    ensures { StepsKeepCompletable }
{}

/// After any number of entries of a legal history each open case can be completed.
pub fn histories_keep_completable()
    ensures { HistoriesKeepCompletable }
{}

/// After any number of entries of a legal history each case is of one of the workflows of the
/// policy, as it then is.
pub fn histories_stay_sound()
    ensures { HistoriesStaySound }
{}

/// After any entries the cases are numbered 0, 1, 2 .. in order.
pub fn histories_number_cases()
    ensures { HistoriesNumberCases }
{}

/// Each entry of a legal history decides exactly what was asked, in the state that those before it
/// leave: a claim is granted exactly where it may be, an edit accepted exactly where each open case
/// can then be completed, and a denial is the first cause or has a tree that refutes.
pub fn histories_are_exact()
    ensures { HistoriesAreExact }
{}

/// In a state of one policy, a claim against which there is no cause and for which there is memory
/// is granted exactly where its case can then be completed.
pub fn claims_are_exact()
    ensures { ClaimsAreExact }
{}

/// In a state of one policy, a claim of a step and for a user that are there, in an open case, for
/// which there is memory is granted exactly where its user is authorised, its step is ready, and
/// its case can then be completed.
pub fn grants_are_exact()
    ensures { GrantsAreExact }
{}

/// In a state of one policy, an edit against which there is no cause and for which there is memory
/// is accepted exactly where each open case can be completed under the policy that it leaves.
pub fn edits_are_exact()
    ensures { EditsAreExact }
{}

/// When a held step is finished or given back, a valid plan stays valid.
pub fn plans_stay_valid()
    ensures { PlansStayValid }
{}

/// What is right for a snapshot is right for the board of which it was taken.
pub fn snaps_suffice()
    ensures { SnapsSuffice }
{}

/// Want of memory aside, a state and what is asked fix the reply but for its plan or tree, and they
/// fix the state after it.
pub fn outcome_is_fixed()
    ensures { OutcomeIsFixed }
{}
