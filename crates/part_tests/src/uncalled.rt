//! Calls that the program makes nowhere: that they succeed while there is memory.

use crate::fixture::{FLOW, Look, is_right};
use admin_edits::{EditCause, apply, edit_cause};
use basics::{Fault, Log};
use cnf_export::{Model, Reading, model_of, plan_of};
use constraint_forms::{Assign, Plan, StepSet};
use fixtures::PAY;
use policy_book::Policy;
use std::alloc::{AllocError, Global};
use std::test::Fail;
use user_relations::Relations;
use wf_names::{CaseId, Name, RelId, RoleId, UserId};
use wf_talk::{Ask, Bad, Denial, Edit, Entry, Journal, Reply, Request, RoleList};
use wire_json::{Asked, read_request};

/// Whether each succeeds.
pub fn calls_succeed(alloc: Global) -> Result<bool, Fail> {
    is_right(alloc, PAY, Look::Uncalled)
}

pub(crate) fn succeed(alloc: Global, p: &Policy) -> Result<bool, Fail> {
    Ok(copies_succeed(alloc)? && a_user_leaves(p) && a_model_is_made(alloc, p)?)
}

fn copies_succeed(alloc: Global) -> Result<bool, AllocError> {
    Ok(
        a_journal_is_copied(alloc)?
            && a_log_is_copied(alloc)?
            && a_relation_is_declared(alloc)?
            && a_line_is_read(alloc)?,
    )
}

fn a_journal_is_copied(alloc: Global) -> Result<bool, AllocError> {
    let mut journal = Journal::new(alloc);
    keeps_the_entry(alloc, &mut journal)
}

fn keeps_the_entry(alloc: Global, journal: &mut Journal) -> Result<bool, AllocError> {
    journal.push(denied_entry(alloc)?)?;
    match journal.copy_each() {
        Ok(copy) => Ok(is_of_the_role(copy.as_slice())),
        Err(e) => Err(e),
    }
}

fn denied_entry(alloc: Global) -> Result<Entry, AllocError> {
    let mut roles = RoleList::new(alloc);
    match roles.add(&RoleId(4)) {
        Ok(()) => Ok(Entry {
            at: 0,
            lane: 0,
            line: 7,
            ask: Ask::Bad(Bad::Syntax),
            reply: Reply::Denied(Denial::Role(roles)),
        }),
        Err(e) => Err(e),
    }
}

fn is_of_the_role(entries: &[Entry]) -> bool {
    match entries {
        [only] => only.line == 7 && is_role(&only.reply),
        _ => false,
    }
}

fn is_role(reply: &Reply) -> bool {
    match reply {
        Reply::Denied(Denial::Role(roles)) => roles.as_slice() == [RoleId(4)].as_slice(),
        _ => false,
    }
}

fn a_log_is_copied(alloc: Global) -> Result<bool, AllocError> {
    let mut log = Log::new(alloc);
    keeps_both(&mut log)
}

fn keeps_both(log: &mut Log<u32>) -> Result<bool, AllocError> {
    log.add(&3)?;
    log.add(&5)?;
    let copy = log.copy()?;
    Ok(copy.as_slice() == [3u32, 5].as_slice())
}

fn a_relation_is_declared(alloc: Global) -> Result<bool, AllocError> {
    let mut relations = Relations::new(alloc)?;
    match Name::read("mentor") {
        Some(mentor) => Ok(matches!(relations.add_listed(mentor), Ok(RelId(2)))),
        None => Ok(false),
    }
}

fn a_line_is_read(alloc: Global) -> Result<bool, AllocError> {
    let ask = Ask::Request(Request::Show { case: CaseId(3) });
    match read_request(alloc, br#"{"do":"view","case":3,"lane":1}"#, 2) {
        Ok(asked) => Ok(asked == Asked { lane: 1, ask }),
        Err(e) => Err(e),
    }
}

// Who left cannot leave again.
fn a_user_leaves(p: &Policy) -> bool {
    let (Some(eve), Some(user)) = (Name::read("eve"), Name::read("bob")) else {
        return false;
    };
    let edit = Edit::Leave { user };
    match apply(p, &eve, &edit) {
        Ok(after) => edit_cause(&after, &eve, &edit) == Some(Fault::Cause(EditCause::Absent)),
        Err(_) => false,
    }
}

// The model that says a plan is read as the plan.
fn a_model_is_made(alloc: Global, p: &Policy) -> Result<bool, Fail> {
    if p.flows().len() == 0 {
        return Ok(false);
    }
    let plan = Plan::of(&[UserId(0), UserId(2), UserId(1)]);
    match model_of(alloc, p, FLOW, &plan) {
        Ok(model) => is_plan_of(alloc, p, &plan, &model),
        Err(e) => Err(e.into()),
    }
}

fn is_plan_of(alloc: Global, p: &Policy, plan: &Plan, model: &Model) -> Result<bool, Fail> {
    if p.flows().len() == 0 {
        return Ok(false);
    }
    match plan_of(alloc, p, FLOW, &Assign::empty(), &StepSet::empty(), model) {
        Ok(read) => Ok(read == Reading::Plan(*plan)),
        Err(fault) => Err(fault.into()),
    }
}
