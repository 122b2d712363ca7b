//! The jobs that have no entry yet.
ghost use Rattle.std.specs.Prelude.{◌≡◌, ◌≤◌, ◌<◌, length, take, IfOk};
ghost use Rattle.wf_names.specs.declared.limits.TheConstants.{BATCH_LINE_LIMIT, SESSION_LINE_LIMIT};
ghost use Rattle.line_reader.specs.Laws.{LeadTo};
ghost use Rattle.wf_desk.specs.Desks.{AnswersPart};
ghost use Rattle.wf_desk.specs.Laws.Parts.{FillsPart};
ghost use Rattle.transcript_commands.specs.Unserved.{HasStoppedIn, end_at, jobs_between, start_at};

use line_reader::Batch;
use std::alloc::{AllocError, Global};
use wf_talk::{Job, Jobs, Journal};

/// The batch in which a session stopped.
#[derive(Drop)]
pub struct Unserved {
    /// Its jobs, those with an entry too; none where each job has its entry.
    pub jobs: Jobs,
    /// The place where its entries begin.
    pub from: u32,
    /// How many jobs there are up to its end.
    pub next: u32,
    /// The jobs of the batches before it.
    pub earlier: Jobs,
}

/// The jobs of the first batch that is not whole in the journal, and those of the batches before.
pub fn rest(alloc: Global, batch: &Batch, journal: &Journal) -> Result<Unserved, AllocError>
    requires few { length batch.now.jobs ≤ SESSION_LINE_LIMIT }
    requires ends { LeadTo 0 batch.now.ends (length batch.now.jobs) }
    requires part { FillsPart journal.now.entries batch.now.jobs batch.now.ends }
    ensures stopped { IfOk result
        (HasStoppedIn batch.now.jobs batch.now.ends (length journal.now.entries)) }
    ensures answers { IfOk result (λ u. AnswersPart journal.now.entries u.from u.jobs) }
    ensures short { IfOk result (λ u. length u.jobs ≤ BATCH_LINE_LIMIT) }
{
    let (from, next) = bounds(batch.ends.as_slice(), journal.len() as u32);
    let jobs = jobs_between(batch.jobs.as_slice(), from, next);
    let before = jobs_between(batch.jobs.as_slice(), 0, from);
    let earlier = Vec::from_slice(alloc, before)?;
    Ok(Unserved {
        jobs: Jobs::from_vec(Vec::from_slice(alloc, jobs)?),
        from,
        next,
        earlier: Jobs::from_vec(earlier),
    })
}

// The jobs between two places.
#[tactic(auto, using(transcript_audit::proofs::Batches::slice_part))]
fn jobs_between(jobs: &[Job], from: u32, end: u32) -> &[Job]
    requires order { from ≤ end }
    requires within { end ≤ length jobs.now }
    ensures { result.now ≡ jobs_between from end jobs.now }
{
    &jobs[from as usize..end as usize]
}

// Where the batch begins and ends in which a place stands; behind the last, where that ends and the
// place.
fn bounds(ends: &[u32], place: u32) -> (u32, u32)
    ensures start { result.0 ≡ start_at 0 place ends.now }
    ensures end { result.1 ≡ end_at place ends.now }
{
    let mut from = 0;
    'ends: for end in ends {
        if place < *end {
            return (from, *end);
        }
        from = *end;
    }
    (from, place)
}
