//! Who is related to whom, as rules ask it.
ghost use Rattle.std.specs.Prelude.{◌≡◌, ℕ};

use crate::Policy;
use constraint_forms::{Holds, RelatedRows};
use wf_names::{RelId, UserId, UserSet};

impl Holds for Policy {
    ghost use Rattle.user_relations.specs.Laws.Relations.{is_related};

    ghost related = { λ p. is_related p.relations };

    fn holds(&self, rho: RelId, u: UserId, v: UserId) -> bool {
        self.relations().holds(rho, u, v)
    }
}

impl RelatedRows for Policy {
    fn after(&self, rho: RelId, u: UserId, users: u16) -> UserSet {
        self.relations().after(rho, u, users)
    }

    fn ahead(&self, rho: RelId, u: UserId, users: u16) -> UserSet {
        self.relations().ahead(rho, u, users)
    }
}
