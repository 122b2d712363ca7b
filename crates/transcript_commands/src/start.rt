//! Where a session goes on: its files are loaded, and its transcript is taken up.
ghost use Rattle.std.specs.Prelude.{◌≡◌, ◌≤◌, ℕ, true, List, IfOk, length, take};
ghost use Rattle.line_reader.specs.Jobs.{jobs_of_input};
ghost use Rattle.run_record.specs.Fault.{how_of, refused, CountsLoads};
ghost use Rattle.transcript_commands.specs.Sessions.{AreServedWithin};
ghost use Rattle.transcript_commands.specs.Start.{AreWhole, names_in};
ghost use Rattle.transcript_commands.specs.Load.{IsCutOf, ending_at, OverBoth, OverFiles};
ghost use Rattle.transcript_commands.specs.Load.{OverTranscript, OverTranscriptFile};
ghost use Rattle.transcript_commands.specs.Laws.Begun.{BeginsBy, EndsBeginning, EndsLoaded};
ghost use Rattle.transcript_commands.specs.Laws.Begun.{StopsBy};
ghost use Rattle.transcript_commands.specs.Laws.Begun.{ends_to, fault_by, session_of};

use crate::load::load_requests;
use crate::{Refusal, Resumed, first_long, resume};
use line_reader::{Batch, BatchReader, CutText, Stop, inputs_go_on};
use policy_book::Policy;
use run_record::RunFault;
use std::alloc::{AllocError, Global};
use wf_board::Decider;
use wf_commands::{load_file, load_policy};
use wf_desk::Desk;
use wf_outside::Shelf;
use wf_talk::Ends;

/// Most bytes of a transcript.
pub const TRANSCRIPT_FILE_LIMIT: usize = 67_108_864;

/// How many bytes of the input are taken at once.
pub const PIECE: usize = 65_536;

/// A session that goes on behind the entries of an earlier one.
#[derive(Drop)]
pub struct Beginning {
    /// The desk behind these entries, with the batch in which they stop and those before it.
    pub desk: Desk,
    /// All jobs of the requests file, with the ends of their batches.
    pub file: Batch,
    /// How many batches there are up to that one and with it.
    pub count: usize,
    /// The ends of these batches.
    pub ends: Ends,
    /// What reads the input, with its lines numbered on behind those of the file.
    pub reader: BatchReader,
}

/// An earlier session: its files, and how it was served.
#[derive(Clone, Copy)]
pub struct Earlier<'a> {
    pub policy: &'a str,
    pub requests: &'a str,
    pub transcript: &'a str,
    /// How many lanes there were, at least one.
    pub lanes: u8,
    /// After how many lost rounds a request was answered again.
    pub rounds: u8,
}

/// Loads the policy, the requests and the transcript of an earlier session, each once those before
/// it are found to be within their limits, and takes the session up.
pub fn begin<V: Decider, F: Shelf>(
    alloc: Global,
    decider: &V,
    earlier: Earlier,
    shelf: &mut F,
) -> Result<Beginning, Refusal>
    requires ready { V.ready decider.now }
    requires within { AreServedWithin earlier.lanes earlier.rounds }
    ensures begins { OverFiles (F.file shelf.old) (names_in earlier.entry) earlier.entry.lanes
        (StopsBy result)
        (λ p cut transcript.
        BeginsBy (session_of p earlier.entry.lanes earlier.entry.rounds cut) cut transcript
        result) }
    ensures ending { EndsBeginning (how_of (fault_by result)) }
    ensures loads { CountsLoads (fault_by result) (F.faults shelf.old) (F.faults shelf.new) }
{
    let policy = load_policy(alloc, shelf, earlier.policy)?;
    begin_under(alloc, decider, earlier, &policy, shelf)
}

// Loads the requests and the transcript of a session over a policy, and takes it up.
fn begin_under<V: Decider, F: Shelf>(
    alloc: Global,
    decider: &V,
    earlier: Earlier,
    policy: &Policy,
    shelf: &mut F,
) -> Result<Beginning, Refusal>
    requires ready { V.ready decider.now }
    requires within { AreServedWithin earlier.lanes earlier.rounds }
    ensures begins { OverBoth earlier.entry.lanes (StopsBy result) (λ cut transcript.
        BeginsBy (session_of policy.now earlier.entry.lanes earlier.entry.rounds cut) cut transcript
        result)
        (F.file shelf.old earlier.entry.requests.now)
        (F.file shelf.old earlier.entry.transcript.now) }
    ensures ending { EndsBeginning (how_of (fault_by result)) }
    ensures loads { CountsLoads (fault_by result) (F.faults shelf.old) (F.faults shelf.new) }
{
    let text = load_requests(alloc, shelf, earlier.requests, earlier.lanes)?;
    match text.stop {
        Some(stop) => Err(Refusal::Ends(ending_at(stop))),
        None => begin_behind(alloc, decider, earlier, policy, text, shelf),
    }
}

// How a run ends that stops at a limit of lines.
fn ending_at(stop: Stop) -> RunFault
    ensures fault { result ≡ ending_at stop }
    ensures ending { EndsBeginning (how_of result) }
    ensures loads { how_of result ≡ refused }
{
    match stop {
        Stop::LineTooLong(line) => RunFault::LineTooLong(line),
        Stop::TooManyLines => RunFault::TooManyLines,
    }
}

// Loads the transcript of a session over a policy and requests, and takes it up.
fn begin_behind<V: Decider, F: Shelf>(
    alloc: Global,
    decider: &V,
    earlier: Earlier,
    policy: &Policy,
    text: CutText,
    shelf: &mut F,
) -> Result<Beginning, Refusal>
    requires ready { V.ready decider.now }
    requires within { AreServedWithin earlier.lanes earlier.rounds }
    requires whole { AreWhole earlier.lanes text }
    ensures begins { (requests : List ℕ) → IsCutOf requests earlier.entry.lanes text →
        OverTranscriptFile (StopsBy result) (λ transcript. BeginsBy
        (session_of policy.now earlier.entry.lanes earlier.entry.rounds
        (jobs_of_input requests true earlier.entry.lanes))
        (jobs_of_input requests true earlier.entry.lanes) transcript result)
        (F.file shelf.old earlier.entry.transcript.now) }
    ensures ending { EndsBeginning (how_of (fault_by result)) }
    ensures loads { CountsLoads (fault_by result) (F.faults shelf.old) (F.faults shelf.new) }
{
    let file = load_file(alloc, shelf, earlier.transcript, TRANSCRIPT_FILE_LIMIT)?;
    let transcript = file.as_bytes();
    match first_long(transcript) {
        Some(line) => Err(Refusal::Ends(RunFault::LineTooLong(line))),
        None => take_up(alloc, decider, earlier, policy, text, transcript),
    }
}

// Takes up the entries of a transcript.
fn take_up<V: Decider>(
    alloc: Global,
    decider: &V,
    earlier: Earlier,
    policy: &Policy,
    text: CutText,
    transcript: &[u8],
) -> Result<Beginning, Refusal>
    requires ready { V.ready decider.now }
    requires within { AreServedWithin earlier.lanes earlier.rounds }
    requires whole { AreWhole earlier.lanes text }
    ensures begins { (requests : List ℕ) → IsCutOf requests earlier.entry.lanes text →
        BeginsBy (session_of policy.now earlier.entry.lanes earlier.entry.rounds
        (jobs_of_input requests true earlier.entry.lanes))
        (jobs_of_input requests true earlier.entry.lanes) transcript.now result }
    ensures ending { EndsLoaded (how_of (fault_by result)) }
{
    let (lanes, rounds) = (earlier.lanes, earlier.rounds);
    inputs_go_on(lanes);
    let _ = policy.admin();
    let reader = BatchReader::new(alloc, lanes, text.lines, PIECE)?;
    let resumed = resume(
        alloc, decider, policy, text.batch, transcript, lanes, rounds,
    )?;
    Ok(with_told(alloc, resumed, reader)?)
}

// The desk of a session that was taken up, with the ends of the batches whose jobs are told.
fn with_told(alloc: Global, resumed: Resumed, reader: BatchReader) -> Result<Beginning, AllocError>
    ensures desk { IfOk result (λ b. b.desk ≡ resumed.desk) }
    ensures file_jobs { IfOk result (λ b. b.file.jobs ≡ resumed.batch.jobs) }
    ensures file_ends { IfOk result (λ b. b.file.ends ≡ resumed.batch.ends) }
    ensures count { IfOk result (λ b. b.count ≡ ends_to resumed.next resumed.batch.ends) }
    ensures ends { IfOk result (λ b. b.ends ≡ take b.count resumed.batch.ends) }
    ensures reader { IfOk result (λ b. b.reader ≡ reader) }
{
    let Resumed {
        desk,
        batch: file,
        next,
    } = resumed;
    let count = count_ends(file.ends.as_slice(), next);
    let ends = Vec::from_slice(alloc, &file.ends.as_slice()[..count])?;
    Ok(Beginning {
        desk,
        file,
        count,
        ends: Ends::from_vec(ends),
        reader,
    })
}

// How many of the ends of batches, from the first on, are not behind a place.
fn count_ends(ends: &[u32], place: u32) -> usize
    ensures count { result ≡ ends_to place ends.now }
    ensures within { result ≤ length ends.now }
{
    let mut count = 0;
    'ends: for end in ends {
        if *end > place {
            return count;
        }
        count += 1;
    }
    count
}
