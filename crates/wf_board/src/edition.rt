//! The policy after an edit.
ghost use Rattle.std.specs.Prelude.{◌≡◌};
ghost use Rattle.std.specs.Arc.{arc_value};

use basics::List;
use constraint_forms::Plan;
use policy_book::Policy;
use std::alloc::Global;
use std::marker::Model;
use std::sync::Arc;

/// Plans, one for each open case, by ascending number of the case.
pub type Plans = List<Plan>;

/// The policy after an edit, with a plan for each case that is open, by ascending number.
#[derive(Drop)]
pub struct Edition {
    policy: Arc<Policy, Global>,
    plans: Plans,
}

impl Model for Edition {
    ghost use Rattle.std.specs.Arc.{arc_value};
    ghost use Rattle.std.specs.Coded.{codes};
    ghost use Rattle.policy_book.specs.Laws.Shapes.{policy_code};
    ghost use Rattle.wf_board.specs.Boards.{EditionShape};

    ghost Value = { EditionShape };

    ghost coded = { Prim.hlevel (codes, policy_code) };

    ghost view = { λ e. record { policy = arc_value e.policy; plans = e.plans } };
}

impl Edition {
    /// A policy with these plans.
    pub fn of(policy: Arc<Policy, Global>, plans: Plans) -> Edition
        ensures { result ≡ record { policy = arc_value policy; plans = plans } }
    {
        Edition { policy, plans }
    }

    /// The policy and the plans.
    pub(crate) fn into_parts(self) -> (Arc<Policy, Global>, Plans)
        ensures policy { arc_value result.0 ≡ self.policy }
        ensures plans { result.1 ≡ self.plans }
    {
        (self.policy, self.plans)
    }
}
