//! A change of the policy, with the policies before and after it.
ghost use Rattle.std.specs.Prelude.{◌≡◌};
ghost use Rattle.admin_edits.specs.Laws.Edits.{amended};
ghost use Rattle.std.proofs.Props.{props};
ghost use Rattle.std.specs.Coded.{Coded-set};
ghost use Rattle.policy_book.specs.Laws.Shapes.{policy_code};
ghost use Rattle.wf_board.specs.Laws.Found.{IsAllowed};
ghost use Rattle.wf_board.specs.Revision.{known-prop};

use admin_edits::Amendment;
use policy_book::Policy;

/// A change of a policy that has no fault, with the policies before and after it.
#[derive(Clone, Copy)]
pub struct Revision<'p> {
    /// The policy before the change.
    pub before: &'p Policy,
    /// The change.
    pub amendment: &'p Amendment,
    /// The policy after it.
    pub after: &'p Policy,
    ghost allowed: { IsAllowed before.now amendment.now } by { Prim.hlevel (known-prop, props) },
    ghost made: { after.now ≡ amended before.now amendment.now } by { Coded-set policy_code _ _ },
}

impl<'p> Revision<'p> {
    /// A change that has no fault, with the policy that it makes.
    pub fn of(before: &'p Policy, amendment: &'p Amendment, after: &'p Policy) -> Revision<'p>
        requires allowed { IsAllowed before.now amendment.now }
        requires made { after.now ≡ amended before.now amendment.now }
        ensures before { result.before.now ≡ before.now }
        ensures amendment { result.amendment.now ≡ amendment.now }
        ensures after { result.after.now ≡ after.now }
    {
        Revision {
            before,
            amendment,
            after,
        }
    }
}
