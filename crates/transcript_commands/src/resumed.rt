//! A session that goes on from a transcript.
ghost use Rattle.std.specs.Prelude.{◌≡◌, ◌<◌, length, IfErr, IfOk};
ghost use Rattle.wf_names.specs.declared.limits.TheConstants.{LANE_LIMIT};
ghost use Rattle.line_reader.specs.Laws.{AreInOrder, AreNamedJobs};
ghost use Rattle.wf_board.specs.Boards.{state_on};
ghost use Rattle.wf_board.specs.Laws.Histories.{IsLegal, state_after};
ghost use Rattle.wf_board.specs.Laws.States.{opening_state};
ghost use Rattle.wf_desk.specs.Desks.{desk_with};
ghost use Rattle.wf_desk.specs.Laws.Parts.{FillsPart};
ghost use Rattle.transcript_audit.specs.Auditor.{state_now};
ghost use Rattle.transcript_audit.specs.declared.fault.AuditFault.TheVariants.{NoMemory};
ghost use Rattle.transcript_commands.specs.Resumed.{GoesOnAt, HasResumed, IsTakenUp, RefusesBy};
ghost use Rattle.transcript_commands.specs.Sessions.{AreServedWithin, IsRestored, session_at};
ghost use Rattle.transcript_commands.specs.Sessions.{session_over};

use crate::auditing::open_audit;
use crate::lines::whole_lines;
use crate::taking::take_lines;
use crate::unserved::rest;
use line_reader::Batch;
use policy_book::Policy;
use std::alloc::{AllocError, Global};
use transcript_audit::laws::{faults_exclude, next_is_one, part_is_exact};
use transcript_audit::{AuditFault, Auditor};
use wf_board::{Board, Decider};
use wf_desk::Desk;
use wf_talk::Journal;

/// A session that goes on.
#[derive(Drop)]
pub struct Resumed {
    /// The desk behind the entries of the transcript, with the jobs of the batch in which they
    /// stop, behind those of the batches before it.
    pub desk: Desk,
    /// All jobs of the requests, with the ends of their batches.
    pub batch: Batch,
    /// How many jobs there are up to the end of the batch in which the entries stop.
    pub next: u32,
}

/// Takes up the whole lines of a transcript, where they are those of a legal session over a policy
/// that answers a part of these jobs. Else there is the first line that is none of such a session,
/// and what is wrong with it; what follows the last LF is not looked at.
pub fn resume<V: Decider>(
    alloc: Global,
    decider: &V,
    policy: &Policy,
    batch: Batch,
    transcript: &[u8],
    lanes: u8,
    rounds: u8,
) -> Result<Resumed, AuditFault>
    requires ready { V.ready decider.now }
    requires within { AreServedWithin lanes rounds }
    requires order { AreInOrder lanes batch.jobs batch.ends }
    requires named { AreNamedJobs batch.jobs }
    ensures resumed { IfOk result (λ r. HasResumed (session_over policy.now lanes rounds batch)
        transcript.now r.next r.desk) }
    ensures jobs { IfOk result (λ r. r.batch.jobs ≡ batch.jobs) }
    ensures ends { IfOk result (λ r. r.batch.ends ≡ batch.ends) }
    ensures refused { IfErr result (RefusesBy (session_over policy.now lanes rounds batch)
        transcript.now) }
{
    let Ok(opening) = policy.copy() else {
        return Err(AuditFault::NoMemory);
    };
    let (board, journal, batch) = take_up(
        alloc, decider, opening, batch, transcript, lanes, rounds,
    )?;
    match go_on(alloc, policy, board, journal, &batch, lanes, rounds) {
        Ok((desk, next)) => Ok(Resumed { desk, batch, next }),
        Err(_) => Err(AuditFault::NoMemory),
    }
}

// The board after the entries of a transcript, the entries, and the jobs that came.
fn take_up<V: Decider>(
    alloc: Global,
    decider: &V,
    policy: Policy,
    batch: Batch,
    transcript: &[u8],
    lanes: u8,
    rounds: u8,
) -> Result<(Board, Journal, Batch), AuditFault>
    requires ready { V.ready decider.now }
    requires order { AreInOrder LANE_LIMIT batch.jobs batch.ends }
    requires named { AreNamedJobs batch.jobs }
    ensures state { IfOk result (λ r. state_on r.0
        ≡ state_after (opening_state policy) r.1.entries) }
    ensures taken { IfOk result (λ r. IsTakenUp (session_over policy lanes rounds batch)
        transcript.now r.1.entries) }
    ensures jobs { IfOk result (λ r. r.2.jobs ≡ batch.jobs) }
    ensures ends { IfOk result (λ r. r.2.ends ≡ batch.ends) }
    ensures refused { IfErr result (RefusesBy (session_over policy lanes rounds batch)
        transcript.now) }
{
    part_is_exact();
    faults_exclude();
    next_is_one();
    match open_audit(alloc, policy, batch, rounds) {
        Ok(mut auditor) => match take_lines(alloc, decider, &mut auditor, whole_lines(transcript)) {
            Ok(()) => Ok(parts_of(auditor)),
            Err(fault) => Err(fault),
        },
        Err(_) => Err(AuditFault::NoMemory),
    }
}

// The board, the entries and the jobs of an audit that is let go.
fn parts_of(auditor: Auditor) -> (Board, Journal, Batch)
    ensures state { state_on result.0 ≡ state_now auditor }
    ensures entries { result.1.entries ≡ auditor.entries }
    ensures jobs { result.2.jobs ≡ auditor.jobs }
    ensures ends { result.2.ends ≡ auditor.batch_ends }
{
    let (board, journal, jobs, ends) = auditor.into_parts();
    (board, journal, Batch { jobs, ends })
}

// The desk behind these entries, with the jobs of the batch in which they stop, behind those of
// the batches before it, and how many jobs there are up to its end.
fn go_on(
    alloc: Global,
    policy: &Policy,
    board: Board,
    journal: Journal,
    batch: &Batch,
    lanes: u8,
    rounds: u8,
) -> Result<(Desk, u32), AllocError>
    requires within { AreServedWithin lanes rounds }
    requires order { AreInOrder lanes batch.now.jobs batch.now.ends }
    requires state { state_on board ≡ state_after (opening_state policy.now) journal.entries }
    requires legal { IsLegal (opening_state policy.now) rounds journal.entries }
    requires part { FillsPart journal.entries batch.now.jobs batch.now.ends }
    ensures { IfOk result (λ r. GoesOnAt (session_over policy.now lanes rounds batch.now)
        journal.entries r.1 r.0) }
{
    match restore(alloc, policy, board, journal, lanes, rounds) {
        Ok(mut desk) => match take_rest(alloc, &mut desk, batch) {
            Ok(next) => Ok((desk, next)),
            Err(fault) => Err(fault),
        },
        Err(fault) => Err(fault),
    }
}

// The desk behind these entries.
fn restore(
    alloc: Global,
    policy: &Policy,
    board: Board,
    journal: Journal,
    lanes: u8,
    rounds: u8,
) -> Result<Desk, AllocError>
    requires within { AreServedWithin lanes rounds }
    requires state { state_on board ≡ state_after (opening_state policy.now) journal.entries }
    requires few { length journal.entries < 4294967296 }
    requires legal { IsLegal (opening_state policy.now) rounds journal.entries }
    ensures { IfOk result (λ desk. desk ≡ desk_with policy.now lanes rounds board journal.entries
        journal.spare) }
{
    match policy.copy() {
        Ok(opening) => Desk::restore(alloc, opening, board, journal, lanes, rounds),
        Err(fault) => Err(fault),
    }
}

// Gives a desk at which only entries stand the jobs of the batch in which they stop, behind those
// of the batches before it. Answers how many jobs there are up to its end.
fn take_rest(alloc: Global, desk: &mut Desk, batch: &Batch) -> Result<u32, AllocError>
    requires restored { IsRestored desk.old }
    requires order { AreInOrder desk.old.lanes batch.now.jobs batch.now.ends }
    requires part { FillsPart desk.old.entries batch.now.jobs batch.now.ends }
    ensures { IfOk result (λ next. GoesOnAt (session_at desk.old batch.now) desk.old.entries next
        desk.new) }
{
    let unserved = rest(alloc, batch, desk.journal())?;
    desk.behind(unserved.earlier);
    desk.resume_batch(alloc, unserved.jobs.as_slice(), unserved.from)?;
    Ok(unserved.next)
}
