//! Where the next job of each lane stands.
ghost use Rattle.std.specs.Prelude.{◌≡◌, ◌≢◌, ◌≤◌, ◌<◌, ◌+◌, length, slice_index_or};
ghost use Rattle.wf_names.specs.declared.limits.TheConstants.{LANE_LIMIT};
ghost use Rattle.transcript_audit.specs.Keeping.{HasMovedOn, HasMoved, IsAtFirst, part};

use wf_desk::docket::{first_places, go_on};
use wf_names::LANE_LIMIT;
use wf_talk::Job;

/// A batch among the jobs, and for each lane the place of its next job in it.
#[derive(Clone, Copy)]
pub(crate) struct Cursor {
    /// How many batches there were before.
    pub batch: usize,
    /// How many jobs stand before the batch.
    pub start: u32,
    /// How many jobs there are up to its end.
    pub end: u32,
    /// For each lane the place of its next job among those of the batch.
    pub places: [u32; LANE_LIMIT as usize],
}

/// The first jobs of a batch, which begins at a place.
pub(crate) fn first(jobs: &[Job], ends: &[u32], batch: usize, start: u32) -> Cursor
    requires begins { start ≤ slice_index_or ends.now batch start }
    requires within { slice_index_or ends.now batch start ≤ length jobs.now }
    ensures { IsAtFirst jobs.now ends.now batch start result }
{
    let end = end_of(ends, batch, start);
    Cursor {
        batch,
        start,
        end,
        places: first_places(&jobs[start as usize..end as usize]),
    }
}

// Where a batch ends that begins at a place; behind the last, where it begins.
fn end_of(ends: &[u32], batch: usize, start: u32) -> u32
    ensures { result ≡ slice_index_or ends.now batch start }
{
    if batch < ends.len() {
        ends[batch]
    } else {
        start
    }
}

/// The jobs between two places.
#[tactic(auto, using(crate::proofs::Batches::slice_part))]
pub(crate) fn jobs_between(jobs: &[Job], start: u32, end: u32) -> &[Job]
    requires order { start ≤ end }
    requires within { end ≤ length jobs.now }
    ensures { result.now ≡ part start end jobs.now }
{
    &jobs[start as usize..end as usize]
}

/// Goes on to a lane's next job, or to the next batch where `count`, the number of entries, is that
/// of the jobs up to the end of the batch.
pub(crate) fn advance(cursor: &mut Cursor, jobs: &[Job], ends: &[u32], lane: u8, count: usize)
    requires known { lane < LANE_LIMIT }
    requires here { slice_index_or cursor.old.places lane 0
        < length (part cursor.old.start cursor.old.end jobs.now) }
    requires order { cursor.old.start ≤ cursor.old.end }
    requires within { cursor.old.end ≤ length jobs.now }
    requires begins { cursor.old.end
        ≤ slice_index_or ends.now (cursor.old.batch + 1) cursor.old.end }
    requires next { slice_index_or ends.now (cursor.old.batch + 1) cursor.old.end
        ≤ length jobs.now }
    requires small { cursor.old.batch ≤ length ends.now }
    ensures { HasMovedOn jobs.now ends.now lane count cursor.old cursor.new }
{
    if count == cursor.end as usize {
        *cursor = first(jobs, ends, cursor.batch + 1, cursor.end);
    } else {
        step(cursor, jobs, lane);
    }
}

/// Goes on to a lane's next job.
fn step(cursor: &mut Cursor, jobs: &[Job], lane: u8)
    requires known { lane < LANE_LIMIT }
    requires here { slice_index_or cursor.old.places lane 0
        < length (part cursor.old.start cursor.old.end jobs.now) }
    requires order { cursor.old.start ≤ cursor.old.end }
    requires within { cursor.old.end ≤ length jobs.now }
    ensures { HasMoved jobs.now lane cursor.old cursor.new }
{
    let batch = &jobs[cursor.start as usize..cursor.end as usize];
    go_on(&mut cursor.places, batch, lane);
}
