//! Takes the denials of edits that somebody else gave.
ghost use Rattle.std.specs.Prelude.{◌≡◌, ◌≢◌, ◌↔◌, Ok, true, IfOk};
ghost use Rattle.refutation_tree.specs.Laws.Views.{shape_of};
ghost use Rattle.refutation_tree.specs.declared.tree.Tree.{Tree};
ghost use Rattle.policy_book.specs.Policies.{problem_of};
ghost use Rattle.policy_book.specs.Laws.Refuting.{refutes};
ghost use Rattle.case_record.specs.Cases.{assigned_of, finished_of};
ghost use Rattle.admin_edits.specs.Laws.Edits.{amended};
ghost use Rattle.wf_talk.specs.declared.reply.Reply.TheVariants as replies;
ghost use Rattle.wf_talk.specs.declared.reply.Denial.TheVariants as denials;
ghost use Rattle.wf_board.specs.declared.deed.Deed.TheVariants as deeds;
ghost use Rattle.wf_board.specs.Admission.{HasAdmitted, IsVerdictFor};
ghost use Rattle.wf_board.specs.Boards.{book_of};
ghost use Rattle.wf_board.specs.Laws.Found.{IsAllowed};
ghost use Rattle.wf_board.specs.Laws.Kept.{IsOfPolicy};
ghost use Rattle.wf_board.specs.Taking.{IsUnhindered};
ghost use Rattle.wf_board.specs.Verdicts.{IsStrandingFor};

use crate::admit::{NotStep, when};
use crate::{AdmitFault, Verdict};
use admin_edits::{Amendment, amended};
use basics::Fault;
use case_record::Case;
use certificate_check::check_tree;
use grant_table::Cases;
use policy_book::Policy;
use refutation_tree::Tree;
use std::alloc::AllocError;
use wf_names::{CaseId, FlowId};
use wf_talk::{Denial, Reply};

/// Whether a reply denies a change of the policy by the case that it strands, as the verdict does.
pub(crate) fn admit_change(
    p: &Policy,
    cases: &Cases,
    a: Amendment,
    reply: &Reply,
    verdict: &Verdict,
) -> Result<(), AdmitFault>
    requires ready { IsUnhindered p.now cases.now (deeds.Change a) }
    requires given { reply.now ≢ replies.NoMemory }
    requires verdict { IsVerdictFor (book_of p.now cases.now) (deeds.Change a) verdict.now }
    ensures { HasAdmitted p.now cases.now cases.now (Ok (deeds.Change a)) reply.now result }
{
    match verdict {
        Verdict::Strands(n, tree) => admit_denied_change(p, cases, a, reply, *n, tree.get()),
        _ => unreachable!(),
    }
}

/// Whether a reply denies a change of the policy that strands a case, by this case.
fn admit_denied_change(
    p: &Policy,
    cases: &Cases,
    a: Amendment,
    reply: &Reply,
    n: CaseId,
    shown: &Tree,
) -> Result<(), AdmitFault>
    requires ready { IsUnhindered p.now cases.now (deeds.Change a) }
    requires given { reply.now ≢ replies.NoMemory }
    requires stranded { IsStrandingFor (book_of p.now cases.now) (Ok (deeds.Change a)) n shown.now }
    ensures { HasAdmitted p.now cases.now cases.now (Ok (deeds.Change a)) reply.now result }
{
    let _sound = p.admin();
    let _ = shown;
    let Reply::Denied(denial) = reply else {
        return Err(Fault::Cause(NotStep));
    };
    match denial {
        Denial::Strands { case, flow, tree } => {
            admit_strands(p, cases, a, *case, *flow, tree.get(), n)
        }
        _ => Err(Fault::Cause(NotStep)),
    }
}

/// Whether the case with a number and a workflow is the one that a change strands, and a tree
/// shows it.
fn admit_strands(
    p: &Policy,
    cases: &Cases,
    a: Amendment,
    named: CaseId,
    flow: FlowId,
    tree: &Tree,
    n: CaseId,
) -> Result<(), AdmitFault>
    requires ready { IsUnhindered p.now cases.now (deeds.Change a) }
    requires stranded { (shown : Tree)
        × IsStrandingFor (book_of p.now cases.now) (Ok (deeds.Change a)) n shown }
    ensures { HasAdmitted p.now cases.now cases.now (Ok (deeds.Change a))
        (replies.Denied (denials.Strands named flow tree.now)) result }
{
    let _sound = p.admin();
    let _ascending = cases.live();
    let Some(case) = cases.case(n) else {
        unreachable!()
    };
    if !is_named(n, case, named, flow) {
        return Err(Fault::Cause(NotStep));
    }
    when(is_tree_after(p, a, case, tree)?)
}

/// Whether a number and a workflow are those of a case.
fn is_named(n: CaseId, case: &Case, named: CaseId, flow: FlowId) -> bool
    ensures { result ≡ true ↔ ((named ≡ n) × (flow ≡ case.now.flow)) }
{
    named == n && flow == case.flow()
}

/// Whether a tree shows that a case could not be completed under a changed policy.
fn is_tree_after(p: &Policy, a: Amendment, case: &Case, tree: &Tree) -> Result<bool, AllocError>
    requires allowed { IsAllowed p.now a }
    requires known { IsOfPolicy p.now case.now }
    ensures { IfOk result (λ b. b ≡ refutes (problem_of (amended p.now a) case.now.flow)
        (assigned_of case.now) (finished_of case.now) (shape_of tree.now)) }
{
    let after = amended(p, a)?;
    Ok(is_refuted(&after, case, tree))
}

/// Whether a tree shows that a case cannot be completed.
fn is_refuted(p: &Policy, case: &Case, tree: &Tree) -> bool
    requires { IsOfPolicy p.now case.now }
    ensures { result ≡ refutes (problem_of p.now case.now.flow) (assigned_of case.now)
        (finished_of case.now) (shape_of tree.now) }
{
    let assigned = case.assigned();
    let finished = case.finished();
    check_tree(p, case.flow(), &assigned, &finished, tree)
}
