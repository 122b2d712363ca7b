//! Laws of the clauses. Each function does nothing; its contract is the law.
ghost use Rattle.cnf_export.specs.ModelLaws.{SatisfiableIsCompletable};

use crate::laws::{models_are_plans, plans_are_models};

/// The clauses of a case have a model exactly where the case can be completed.
pub fn satisfiable_is_completable()
    ensures { SatisfiableIsCompletable }
{
    models_are_plans();
    plans_are_models();
}
