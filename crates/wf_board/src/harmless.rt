//! Changes of the policy that make no kept plan invalid.
ghost use Rattle.std.specs.Prelude.{◌≡◌, true, IfOk, IfSome};
ghost use Rattle.std.specs.Arc.{arc_value};
ghost use Rattle.wf_board.specs.Laws.Found.{IsAllowed};
ghost use Rattle.wf_board.specs.Deeds.{is_harmless, is_harmless_deed};
ghost use Rattle.wf_board.specs.Laws.Kept.{ArePlanned};
ghost use Rattle.wf_board.specs.Taking.{KeepsAll};

use crate::breaking::all_stay;
use crate::{Deed, Revision};
use admin_edits::{Amendment, amended};
use grant_table::Cases;
use policy_book::Policy;
use std::alloc::{AllocError, Global};
use std::sync::Arc;

/// Whether a deed is a change that makes no valid plan invalid, so that nothing has to be searched.
pub fn is_harmless_deed(deed: &Deed) -> bool
    ensures { result ≡ is_harmless_deed deed.now }
{
    match deed {
        Deed::Change { amendment } => is_harmless(amendment),
        _ => false,
    }
}

/// Whether a change makes no valid plan invalid, whatever the plan.
fn is_harmless(a: &Amendment) -> bool
    ensures { result ≡ is_harmless a.now }
{
    matches!(
        a,
        Amendment::AddUser { .. }
            | Amendment::Enrol { .. }
            | Amendment::Permit { .. }
            | Amendment::Retire { .. }
    )
}

/// The policy after a change, to be shared, where each kept plan stays valid under it.
pub(crate) fn unbroken(
    alloc: Global,
    p: &Policy,
    a: &Amendment,
    cases: &Cases,
) -> Result<Option<Arc<Policy, Global>>, AllocError>
    requires allowed { IsAllowed p.now a.now }
    requires kept { ArePlanned p.now cases.now.rows }
    ensures { IfOk result (λ after. IfSome after
        (λ q. KeepsAll p.now a.now cases.now.rows (arc_value q))) }
{
    let after = amended(p, *a)?;
    let revision = Revision {
        before: p,
        amendment: a,
        after: &after,
    };
    if keeps_all(&revision, cases) {
        Ok(Some(Arc::new(alloc, after)?))
    } else {
        Ok(None)
    }
}

/// Whether each kept plan stays valid under a change.
fn keeps_all(revision: &Revision, cases: &Cases) -> bool
    requires { ArePlanned revision.now.before.now cases.now.rows }
    ensures { result ≡ true → KeepsAll revision.now.before.now revision.now.amendment.now
        cases.now.rows revision.now.after.now }
{
    is_harmless(revision.amendment) || all_stay(revision, cases)
}
