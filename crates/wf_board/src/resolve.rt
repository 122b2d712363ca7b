//! What a line asks, with numbers in place of names.
ghost use Rattle.std.specs.Prelude.{◌≡◌, ◌<◌, ℕ, length, Err, IfErr, IfOk, IfSome, MatchOption};
ghost use Rattle.std.specs.Prelude.{MatchResult, None, Ok, Some};
ghost use Rattle.policy_book.specs.Policies.{flow_at};
ghost use Rattle.grant_table.specs.Cases.{case_in};
ghost use Rattle.admin_edits.specs.declared.amendment.Amendment.{Amendment};
ghost use Rattle.wf_talk.specs.declared.request.Request.TheVariants as requests;
ghost use Rattle.wf_board.specs.declared.deed.Deed.{Deed};
ghost use Rattle.wf_board.specs.declared.deed.Duty.{Duty};
ghost use Rattle.wf_board.specs.Boards.{book_of};
ghost use Rattle.wf_board.specs.Laws.Found.{AreFound, IsAllowed, IsFound, IsOpenAt};
ghost use Rattle.wf_board.specs.Laws.Kept.{ArePlanned, IsOfPolicy};
ghost use Rattle.wf_board.specs.Resolve.{edit_denial, on_edit, on_step, open_case_at, resolve};
ghost use Rattle.wf_board.specs.Resolve.{resolve_request};
ghost use Rattle.wf_board.specs.Laws.States.{numbered_case};
ghost use Rattle.admin_edits.specs.Laws.Edits.{amendment_of, is_admin};
ghost use Rattle.wf_names.specs.Table.{place_of};

use crate::{Deed, Duty};
use admin_edits::{Amendment, EditCause, amendment_of};
use case_record::Case;
use grant_table::Cases;
use policy_book::Policy;
use wf_names::{CaseId, Name, StepId, UserId};
use wf_talk::{Ask, Denial, Edit, Request};

/// What a line asks, or why it is nothing.
pub(crate) fn resolve(p: &Policy, cases: &Cases, ask: &Ask) -> Result<Deed, Denial>
    requires { ArePlanned p.now cases.now.rows }
    ensures deed { result ≡ resolve (book_of p.now cases.now) ask.now }
    ensures found { IfOk result (IsFound p.now cases.now.rows) }
{
    match ask {
        Ask::Request(request) => resolve_request(p, cases, request),
        Ask::Bad(bad) => Ok(Deed::TurnAway { bad: *bad }),
    }
}

/// What a request asks, or the first of its names and numbers that is nothing; of an edit its first
/// fault of any kind.
fn resolve_request(p: &Policy, cases: &Cases, request: &Request) -> Result<Deed, Denial>
    requires { ArePlanned p.now cases.now.rows }
    ensures deed { result ≡ resolve_request (book_of p.now cases.now) request.now }
    ensures found { IfOk result (IsFound p.now cases.now.rows) }
{
    match request {
        Request::OpenCase { flow } => match p.find_flow(flow) {
            Some(flow) => Ok(Deed::Open { flow }),
            None => Err(Denial::NoFlow),
        },
        Request::Claim { case, step, user } => {
            Ok(Deed::Claim(on_step(p, cases, *case, step, user)?))
        }
        Request::Finish { case, step, user } => {
            Ok(Deed::Finish(on_step(p, cases, *case, step, user)?))
        }
        Request::GiveBack { case, step, user } => {
            Ok(Deed::GiveBack(on_step(p, cases, *case, step, user)?))
        }
        Request::Release {
            by,
            case: number,
            step,
        } => release(p, cases, by, *number, step),
        Request::Withdraw { by, case: number } => withdrawal(p, cases, by, *number),
        Request::Change { by, edit } => match change(p, by, edit) {
            Ok(amendment) => Ok(Deed::Change { amendment }),
            Err(denial) => Err(denial),
        },
        Request::Show { case: number } => match case_with(p, cases, *number) {
            Some(case) => Ok(Deed::Show { case: *case }),
            None => Err(Denial::NoCase),
        },
        Request::Worklist { user } => match user_named(p, user) {
            Some(user) => Ok(Deed::Work { user }),
            None => Err(Denial::NoUser),
        },
        Request::WhatIf { by, edit } => match change(p, by, edit) {
            Ok(amendment) => Ok(Deed::WhatIf { amendment }),
            Err(denial) => Err(denial),
        },
    }
}

/// A step taken from its holder, if an administrator asks for it.
fn release(p: &Policy, cases: &Cases, by: &Name, n: CaseId, step: &Name) -> Result<Deed, Denial>
    requires { ArePlanned p.now cases.now.rows }
    ensures deed { result ≡ resolve_request (book_of p.now cases.now)
        (requests.Release by.now n step.now) }
    ensures found { IfOk result (IsFound p.now cases.now.rows) }
{
    if !is_admin(p, by) {
        return Err(Denial::NotAdmin);
    }
    match open_case(p, cases, n) {
        Ok(case) => match step_named(p, case, step) {
            Some(step) => Ok(Deed::Release {
                number: n,
                case: *case,
                step,
            }),
            None => Err(Denial::NoStep),
        },
        Err(denial) => Err(denial),
    }
}

/// The end of an open case, if an administrator asks for it.
fn withdrawal(p: &Policy, cases: &Cases, by: &Name, n: CaseId) -> Result<Deed, Denial>
    requires { ArePlanned p.now cases.now.rows }
    ensures deed { result ≡ resolve_request (book_of p.now cases.now)
        (requests.Withdraw by.now n) }
    ensures found { IfOk result (IsFound p.now cases.now.rows) }
{
    if !is_admin(p, by) {
        return Err(Denial::NotAdmin);
    }
    match open_case(p, cases, n) {
        Ok(_) => Ok(Deed::Withdraw { number: n }),
        Err(denial) => Err(denial),
    }
}

/// A step of an open case, and a user.
fn on_step(p: &Policy, cases: &Cases, n: CaseId, step: &Name, user: &Name) -> Result<Duty, Denial>
    requires { ArePlanned p.now cases.now.rows }
    ensures duty { IfOk result (λ d. (deed : Duty → Deed)
        → on_step deed (book_of p.now cases.now) n step.now user.now ≡ Ok (deed d)) }
    ensures denied { IfErr result (λ d. (deed : Duty → Deed)
        → on_step deed (book_of p.now cases.now) n step.now user.now ≡ Err d) }
    ensures found { IfOk result (AreFound p.now cases.now.rows) }
{
    let case = match open_case(p, cases, n) {
        Ok(case) => case,
        Err(denial) => return Err(denial),
    };
    let Some(s) = step_named(p, case, step) else {
        return Err(Denial::NoStep);
    };
    let Some(u) = user_named(p, user) else {
        return Err(Denial::NoUser);
    };
    Ok(Duty {
        number: n,
        case: *case,
        step: s,
        user: u,
    })
}

/// The user with a name.
fn user_named(p: &Policy, name: &Name) -> Option<UserId>
    ensures user { result ≡ place_of p.now.roster.users name.now }
    ensures within { IfSome result (λ u. u < length p.now.roster.users) }
{
    match p.roster().users().find(name) {
        Some(u) => Some(UserId(u)),
        None => None,
    }
}

/// The open case with a number.
fn open_case<'a>(p: &Policy, cases: &'a Cases, n: CaseId) -> Result<&'a Case, Denial>
    requires { ArePlanned p.now cases.now.rows }
    ensures case { MatchResult result (λ c. open_case_at (book_of p.now cases.now) n ≡ Ok c.now)
        (λ d. open_case_at (book_of p.now cases.now) n ≡ Err d) }
    ensures found { IfOk result (λ c. IsOpenAt p.now cases.now.rows n c.now) }
{
    let Some(case) = case_with(p, cases, n) else {
        return Err(Denial::NoCase);
    };
    if case.phase().is_live() {
        Ok(case)
    } else {
        Err(Denial::Closed)
    }
}

/// The case with a number.
fn case_with<'a>(p: &Policy, cases: &'a Cases, n: CaseId) -> Option<&'a Case>
    requires { ArePlanned p.now cases.now.rows }
    ensures case { MatchOption result (numbered_case (book_of p.now cases.now).cases n ≡ None)
        (λ c. numbered_case (book_of p.now cases.now).cases n ≡ Some c.now) }
    ensures found { IfSome result (λ c. case_in n cases.now.rows ≡ Some c.now) }
    ensures known { IfSome result (λ c. IsOfPolicy p.now c.now) }
{
    let _ = p;
    match cases.case(n) {
        Some(case) => Some(case),
        None => None,
    }
}

/// The step with a name, of a case's workflow.
fn step_named(p: &Policy, case: &Case, name: &Name) -> Option<StepId>
    requires { IsOfPolicy p.now case.now }
    ensures step { result ≡ place_of (flow_at p.now case.now.flow).flow.steps name.now }
    ensures within { IfSome result (λ s. s < length case.now.states) }
{
    match p.flow(case.flow()).steps().find(name) {
        Some(s) => Some(StepId(s as u8)),
        None => None,
    }
}

/// The change that an edit is, or its first fault.
fn change(p: &Policy, by: &Name, edit: &Edit) -> Result<Amendment, Denial>
    ensures change { IfOk result (λ a. amendment_of p.now by.now edit.now ≡ Ok a) }
    ensures denied { IfErr result (λ d. (deed : Amendment → Deed)
        → on_edit deed (amendment_of p.now by.now edit.now) ≡ Err d) }
    ensures allowed { IfOk result (IsAllowed p.now) }
{
    match amendment_of(p, by, edit) {
        Ok(amendment) => Ok(amendment),
        Err(fault) => Err(edit_denial(fault)),
    }
}

/// Why an edit is refused.
fn edit_denial(fault: EditCause) -> Denial
    ensures { result ≡ edit_denial fault }
{
    match fault {
        EditCause::NotAdmin => Denial::NotAdmin,
        EditCause::Unknown(what) => Denial::Unknown(what),
        EditCause::Fixed => Denial::Fixed,
        EditCause::Already => Denial::Already,
        EditCause::Absent => Denial::Absent,
        EditCause::Full => Denial::Full,
        EditCause::LastAdmin => Denial::LastAdmin,
    }
}

/// Whether a name is that of a user who administers.
fn is_admin(p: &Policy, by: &Name) -> bool
    ensures { result ≡ is_admin p.now by.now }
{
    match p.roster().users().find(by) {
        Some(u) => p.roster().has(UserId(u), p.admin()),
        None => false,
    }
}
