//! Whether a workflow can be done whoever is absent.
ghost use Rattle.std.specs.Prelude.{◌≡◌, ◌<◌, ◌↔◌, true, length, IfOk};
ghost use Rattle.resilience_check.specs.Left.{IsResilient};
ghost use Rattle.resilience_check.specs.Covering.{holds, AnswersAbsence};

use crate::finding::first_breaking;
use basics::List;
use policy_book::{Course, Plan, Policy};
use refutation_tree::Tree;
use std::alloc::{AllocError, Global};
use wf_names::{FlowId, UserId};

/// A family of plans.
pub type Plans = List<Plan>;

/// Users who are absent.
pub type Absent = List<UserId>;

/// Whether a workflow has a valid plan whoever is absent.
#[derive(Drop)]
pub enum AbsenceAnswer {
    /// It has: some of these valid plans has nobody who is absent.
    Holds(Plans),
    /// It has none without these users, the least such list; the tree refutes what is left of it.
    Breaks { absent: Absent, tree: Tree },
}

/// Whether a workflow has a valid plan whichever at most `t` users are absent.
pub fn resilience(alloc: Global, p: &Policy, f: FlowId, t: u8) -> Result<AbsenceAnswer, AllocError>
    requires flow { f < length p.now.flows }
    ensures answer { IfOk result (AnswersAbsence p.now f t) }
    ensures holds { IfOk result (λ answer. (holds answer ≡ true) ↔ IsResilient p.now f t) }
{
    let course = Course {
        policy: p,
        number: f,
    };
    let _ = course.rules();
    let mut family = Plans::new(alloc);
    let mut absent = Absent::new(alloc);
    'sizes: for size in 0..t as u16 + 1 {
        match first_breaking(alloc, &course, &mut family, &mut absent, 0, size as u8)? {
            Some(tree) => return Ok(AbsenceAnswer::Breaks { absent, tree }),
            None => {}
        }
    }
    Ok(AbsenceAnswer::Holds(family))
}
