//! The jobs of a batch, lane by lane.
ghost use Rattle.std.specs.Prelude.{◌≡◌, ◌≤◌, ◌<◌, ◌+◌, ℕ, length, slice_get, slice_index_or};
ghost use Rattle.std.specs.Prelude.{slice_set, Some};
ghost use Rattle.wf_names.specs.declared.limits.TheConstants.{LANE_LIMIT};
ghost use Rattle.wf_board.specs.Laws.Histories.{lane_jobs};
ghost use Rattle.wf_talk.specs.Jobs.{AreOfLanes};
ghost use Rattle.wf_desk.specs.Docket.{AnswersFirst, IsNextPlace, IsPlaceBehind};

use wf_names::LANE_LIMIT;
use wf_talk::{Entry, Job};

/// The place of a lane's first job from a place on, or behind all where there is none.
pub fn next_place(jobs: &[Job], lane: u8, from: usize) -> usize
    requires { from ≤ length jobs.now }
    ensures { IsNextPlace jobs.now lane from result }
{
    'looking: for place in from..jobs.len() {
        if jobs[place].lane == lane {
            return place;
        }
    }
    jobs.len()
}

/// The job at a place, if there is one.
pub fn job_at(jobs: &[Job], place: u32) -> Option<Job>
    ensures { result ≡ slice_get jobs.now place }
{
    if (place as usize) < jobs.len() {
        Some(jobs[place as usize])
    } else {
        None
    }
}

/// The job at a place where there is one.
pub fn job_here(jobs: &[Job], place: u32) -> &Job
    requires { place < length jobs.now }
    ensures { slice_get jobs.now place ≡ Some result.now }
{
    &jobs[place as usize]
}

/// How many of these jobs are a lane's.
pub fn count_of_lane(jobs: &[Job], lane: u8) -> u32
    requires { length jobs.now < 4294967296 }
    ensures { result ≡ length (lane_jobs lane jobs.now) }
{
    let mut count = 0;
    'counting: for job in jobs {
        if job.lane == lane {
            count += 1;
        }
    }
    count
}

/// For each lane the place of its first job.
pub fn first_places(jobs: &[Job]) -> [u32; LANE_LIMIT as usize]
    requires { length jobs.now < 4294967296 }
    ensures { (lane : ℕ) → lane < LANE_LIMIT
        → IsNextPlace jobs.now lane 0 (slice_index_or result lane 0) }
{
    let mut places = [0; LANE_LIMIT as usize];
    'lanes: for lane in 0..LANE_LIMIT {
        places[lane as usize] = next_place(jobs, lane, 0) as u32;
    }
    places
}

/// Goes on to a lane's next job.
pub fn go_on(places: &mut [u32; LANE_LIMIT as usize], jobs: &[Job], lane: u8)
    requires known { lane < LANE_LIMIT }
    requires here { slice_index_or places.old lane 0 < length jobs.now }
    requires small { length jobs.now < 4294967296 }
    ensures sized { lane < length places.old }
    ensures moved { (place : ℕ) × ((places.new ≡ slice_set places.old lane place)
        × IsNextPlace jobs.now lane (slice_index_or places.old lane 0 + 1) place) }
{
    let from = places[lane as usize] as usize + 1;
    places[lane as usize] = next_place(jobs, lane, from) as u32;
}

/// For each lane the place of its first job that is not answered by these entries, which answer its
/// first ones.
pub fn places_after(jobs: &[Job], entries: &[Entry]) -> [u32; LANE_LIMIT as usize]
    requires small { length jobs.now < 4294967296 }
    requires lanes { AreOfLanes LANE_LIMIT jobs.now }
    requires first { AnswersFirst jobs.now entries.now }
    ensures { (lane : ℕ) → lane < LANE_LIMIT
        → IsPlaceBehind jobs.now entries.now lane (slice_index_or result lane 0) }
{
    let mut places = first_places(jobs);
    'answered: for entry in entries {
        go_on(&mut places, jobs, entry.lane);
    }
    places
}
