//! Laws of edits. Each function changes nothing; its contract is the law.
ghost use Rattle.admin_edits.specs.Hurting.{UnhurtPlansStayValid};
ghost use Rattle.admin_edits.specs.Laws.Keeping.{ChangesKeepNames, ChangesKeepPoliciesSound};

/// A valid plan that a change cannot hurt stays valid.
pub fn unhurt_plans_stay_valid()
    ensures { UnhurtPlansStayValid }
{}

/// A change whose names are found keeps all names.
pub fn changes_keep_names()
    ensures { ChangesKeepNames }
{}

/// A change that has no fault keeps what every policy keeps.
pub fn changes_keep_policies_sound()
    ensures { ChangesKeepPoliciesSound }
{}
