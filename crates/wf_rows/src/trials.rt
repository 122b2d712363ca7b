//! Trials that no row can say, which are told by their names.

use part_tests::{
    a_step_that_is_not_mentioned_goes_and_makes_twins, both_deciders_see_the_same, calls_succeed,
    plain_lines_are_read, rules_are_falsified_where_they_should, rules_are_sentences,
    search_agrees_with_all_assignments, what_was_found_serves_again_as_long_as_it_decides,
};
use server_tests::{
    a_checked_edit_is_never_lost, a_trial_is_served, bytes_go_through_one_by_one,
    eight_lanes_answer_each_line_once, endings_have_their_texts, long_lines_are_written_alike,
    numbers_end, open_cases_are_limited, plans_at_hand_answer_on_eight_lanes,
    some_entries_lose_no_task, stale_task_meets_its_commit, tasks_are_served_begun_and_committed,
    two_claims_solve_at_once,
};
use std::alloc::Global;
use std::sync::Wait;
use std::test::Fail;
use std::thread::Threads;

/// The trials of what the crates below the server do, by their names.
pub const PARTS: [&str; 8] = [
    "what was found serves again as long as it decides",
    "plain lines are read",
    "rules are falsified where they should",
    "search agrees with all assignments",
    "rules are sentences",
    "a step that is not mentioned goes and makes twins",
    "calls succeed",
    "both deciders see the same",
];

/// Whether all was as it should be in each of these.
pub fn try_parts<R: Threads + Sync>(rt: &R, alloc: Global) -> Result<[bool; 8], Fail> {
    Ok([
        what_was_found_serves_again_as_long_as_it_decides(alloc)?,
        plain_lines_are_read(alloc)?,
        rules_are_falsified_where_they_should(alloc)?,
        search_agrees_with_all_assignments(alloc)?,
        rules_are_sentences(alloc)?,
        a_step_that_is_not_mentioned_goes_and_makes_twins(alloc)?,
        calls_succeed(alloc)?,
        both_deciders_see_the_same(rt, alloc)?,
    ])
}

/// The trials of what the server and its desks do, and of the streams of the system.
pub const SESSIONS: [&str; 8] = [
    "tasks are served, begun and committed",
    "some entries lose no task",
    "a checked edit is never lost",
    "numbers end",
    "open cases are limited",
    "bytes go through one by one",
    "endings have their texts",
    "a trial is served",
];

/// Whether all was as it should be in each of these.
pub fn try_sessions(alloc: Global) -> Result<[bool; 8], Fail> {
    Ok([
        tasks_are_served_begun_and_committed(alloc)?,
        some_entries_lose_no_task(alloc)?,
        a_checked_edit_is_never_lost(alloc)?,
        numbers_end(alloc)?,
        open_cases_are_limited(alloc)?,
        bytes_go_through_one_by_one(alloc)?,
        endings_have_their_texts(alloc)?,
        a_trial_is_served(alloc)?,
    ])
}

/// The trials of what lanes do on threads.
pub const LANES: [&str; 5] = [
    "two claims solve at once",
    "a stale task meets its commit",
    "eight lanes answer each line once",
    "plans at hand answer on eight lanes",
    "long lines are written alike",
];

/// Whether all was as it should be in each of these.
pub fn try_lanes<R: Threads + Wait + Sync>(rt: &R, alloc: Global) -> Result<[bool; 5], Fail> {
    Ok([
        two_claims_solve_at_once(rt, alloc)?,
        stale_task_meets_its_commit(rt, alloc)?,
        eight_lanes_answer_each_line_once(rt, alloc)?,
        plans_at_hand_answer_on_eight_lanes(rt, alloc)?,
        long_lines_are_written_alike(rt, alloc)?,
    ])
}
