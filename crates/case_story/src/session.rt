//! The files of a session, and its audit.
ghost use Rattle.std.specs.Prelude.{◌≡◌, IfErr, IfOk, Ok};
ghost use Rattle.transcript_audit.specs.Laws.{AreOfSession};
ghost use Rattle.run_record.specs.Fault.{fault_in, CountsLoads};
ghost use Rattle.wf_commands.specs.Load.{GivesBytes, IsLoadEnding};
ghost use Rattle.transcript_commands.specs.Run.{IsOnLanes};
ghost use Rattle.transcript_commands.specs.Start.{names_in};
ghost use Rattle.case_story.specs.Sessions.{FailsRequests, GivesSession, IsServed, audit_in};
ghost use Rattle.case_story.specs.Sessions.{cut_in};
ghost use Rattle.case_story.specs.declared.session.TheConstants.{TRANSCRIPT_FILE_LIMIT};
ghost use Rattle.wf_names.specs.declared.limits.TheConstants.{REQUESTS_FILE_LIMIT};

use line_reader::jobs_of;
use policy_book::Policy;
use run_record::RunFault;
use std::alloc::{AllocError, Global};
use transcript_audit::{Auditor, know_session};
use transcript_commands::Earlier;
use wf_commands::{load_file, load_policy};
use wf_names::REQUESTS_FILE_LIMIT;
use wf_outside::{Loaded, Shelf};

/// Most bytes of a transcript.
pub const TRANSCRIPT_FILE_LIMIT: usize = 67_108_864;

/// What is told of a session: the policy at its beginning, the texts of its requests and of its
/// transcript, and how it was served.
#[derive(Drop)]
pub struct Session {
    pub policy: Policy,
    pub requests: Loaded,
    pub transcript: Loaded,
    /// How many lanes there were.
    pub lanes: u8,
    /// After how many lost rounds a request was answered again.
    pub rounds: u8,
}

impl Session {
    /// An audit before the first line of the transcript. Where the requests meet a limit, the lines
    /// before it count.
    pub(crate) fn auditor(&self, alloc: Global) -> Result<Auditor, AllocError>
        requires served { IsServed self.now }
        ensures auditor { IfOk result (λ a. a ≡ audit_in self.now) }
        ensures session { IfOk result (λ _. AreOfSession self.now.policy self.now.rounds
            (cut_in self.now).jobs (cut_in self.now).ends) }
    {
        let batch = jobs_of(alloc, self.requests.as_bytes(), self.lanes)?;
        know_session(&self.policy, self.rounds, &batch.jobs, &batch.ends);
        match self.policy.copy() {
            Ok(policy) => Auditor::new(alloc, policy, batch.jobs, batch.ends, self.rounds),
            Err(e) => Err(e),
        }
    }
}

/// Loads the policy, the requests and the transcript of a session, in this order.
pub(crate) fn load_session<F: Shelf>(
    alloc: Global,
    files: Earlier,
    shelf: &mut F,
) -> Result<Session, RunFault>
    requires { IsOnLanes files.lanes }
    ensures gives { GivesSession (F.file shelf.old) (names_in files.entry) result }
    ensures lanes { IfOk result (λ s. s.lanes ≡ files.entry.lanes) }
    ensures rounds { IfOk result (λ s. s.rounds ≡ files.entry.rounds) }
    ensures served { IfOk result IsServed }
    ensures ending { IfErr result IsLoadEnding }
    ensures loads { CountsLoads (fault_in result) (F.faults shelf.old) (F.faults shelf.new) }
{
    match load_policy(alloc, shelf, files.policy) {
        Ok(policy) => match load_texts(alloc, files, shelf) {
            Ok((requests, transcript)) => Ok(Session {
                policy,
                requests,
                transcript,
                lanes: files.lanes,
                rounds: files.rounds,
            }),
            Err(fault) => Err(fault),
        },
        Err(fault) => Err(fault),
    }
}

// Loads the requests and the transcript of a session.
fn load_texts<F: Shelf>(
    alloc: Global,
    files: Earlier,
    shelf: &mut F,
) -> Result<(Loaded, Loaded), RunFault>
    ensures requests { IfOk result (λ t. GivesBytes REQUESTS_FILE_LIMIT
        (F.file shelf.old files.entry.requests.now) (Ok t.0)) }
    ensures transcript { IfOk result (λ t. GivesBytes TRANSCRIPT_FILE_LIMIT
        (F.file shelf.old files.entry.transcript.now) (Ok t.1)) }
    ensures fails { IfErr result (FailsRequests (F.file shelf.old) (names_in files.entry)) }
    ensures ending { IfErr result IsLoadEnding }
    ensures loads { CountsLoads (fault_in result) (F.faults shelf.old) (F.faults shelf.new) }
{
    match load_file(alloc, shelf, files.requests, REQUESTS_FILE_LIMIT) {
        Ok(requests) => {
            match load_file(alloc, shelf, files.transcript, TRANSCRIPT_FILE_LIMIT) {
                Ok(transcript) => Ok((requests, transcript)),
                Err(fault) => Err(fault),
            }
        }
        Err(fault) => Err(fault),
    }
}
