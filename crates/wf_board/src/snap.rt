//! Snapshots of a board.
ghost use Rattle.std.specs.Prelude.{◌≡◌};
ghost use Rattle.std.specs.Arc.{arc_value};
ghost use Rattle.wf_board.specs.Laws.Kept.{ArePlanned};

use grant_table::Cases;
use policy_book::Policy;
use std::alloc::Global;
use std::marker::Model;
use std::sync::Arc;

/// The policy, and of the cases those that a request may need, each at its number.
#[derive(Drop)]
pub struct Snap {
    policy: Arc<Policy, Global>,
    cases: Cases,
}

impl Model for Snap {
    ghost use Rattle.std.specs.Arc.{arc_value};
    ghost use Rattle.std.specs.Coded.{codes};
    ghost use Rattle.policy_book.specs.Laws.Shapes.{policy_code};
    ghost use Rattle.wf_board.specs.Boards.{SnapShape};
    ghost use Rattle.wf_board.specs.Laws.Kept.{ArePlanned};

    ghost Value = { SnapShape };

    ghost coded = { Prim.hlevel (codes, policy_code) };

    ghost view = { λ s. record { policy = arc_value s.policy; cases = s.cases } };

    ghost invariant = { λ s. ArePlanned (arc_value s.policy) s.cases.rows };
}

impl Snap {
    /// A policy with some of its cases.
    pub(crate) fn of(policy: Arc<Policy, Global>, cases: Cases) -> Snap
        requires { ArePlanned (arc_value policy) cases.rows }
        ensures { result ≡ record { policy = arc_value policy; cases = cases } }
    {
        Snap { policy, cases }
    }

    /// The policy.
    pub fn policy(&self) -> &Policy
        ensures policy { result.now ≡ self.now.policy }
        ensures kept { ArePlanned self.now.policy self.now.cases.rows }
    {
        &self.policy
    }

    /// The cases, with their kept plans.
    pub fn cases(&self) -> &Cases
        ensures cases { result.now ≡ self.now.cases }
        ensures kept { ArePlanned self.now.policy self.now.cases.rows }
    {
        &self.cases
    }
}
