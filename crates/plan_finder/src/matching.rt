//! Different users for steps and blocks.

use crate::bits::{Cells, bit, pop};
use crate::rows::{has_many, has_user, nth_user};
use crate::state::State;
use constraint_forms::Plan;
use wf_names::{STEP_LIMIT, UserId};

/// Users who were given to seats. A seat is a step that is open, or that stands for its block.
#[derive(Clone, Copy)]
struct Given {
    users: Cells,
    /// The seats that have a user.
    seats: u32,
}

/// Whether the blocks can have different users; looked at where one has fewer than there are
/// blocks.
pub(crate) fn can_match(state: &State) -> bool {
    let seats = block_seats(state);
    are_wide(state, seats) || reach(state, seats) == seats.count_ones()
}

/// Whether `steps` can have `least` different users between them. Steps of one block have one.
pub(crate) fn can_reach(state: &State, steps: u32, least: u32) -> bool {
    let seats = steps & (state.open | block_seats_of(state, steps));
    (seats.count_ones() >= least && are_wide(state, seats)) || reach(state, seats) >= least
}

/// The plan that gives each step a user of its block, all blocks different ones, where there is
/// one.
pub(crate) fn matched(state: &State, steps: u8) -> Option<Plan> {
    let seats = block_seats(state);
    let given = give_all(state, seats);
    if given.seats != seats {
        return None;
    }
    let mut users = [UserId(0); STEP_LIMIT];
    for s in 0..STEP_LIMIT {
        let seat = seat_of(state, state.home((s & 31) as u8));
        users[s] = UserId((given.users.at(seat) & 0xffff) as u16);
    }
    let count = steps as usize;
    if count <= STEP_LIMIT {
        Some(Plan::of(&users[..count]))
    } else {
        None
    }
}

// The step that stands for a block: its first one.
fn seat_of(state: &State, b: u8) -> u8 {
    (state.members.at(b).trailing_zeros() & 31) as u8
}

// The steps that stand for the blocks.
fn block_seats(state: &State) -> u32 {
    let mut seats = 0;
    for b in 0..state.blocks {
        seats |= bit(seat_of(state, b));
    }
    seats
}

// Of each block with some of these steps the first one of them.
fn block_seats_of(state: &State, steps: u32) -> u32 {
    let mut seats = 0;
    for b in 0..state.blocks {
        let members = state.members.at(b) & steps;
        seats |= members & members.wrapping_neg();
    }
    seats
}

/// The users who may still have a step, or stand for its block.
pub(crate) fn users_of(state: &State, seat: u8) -> &[u64] {
    if state.is_open(seat) {
        state.step(seat)
    } else {
        state.block(state.home(seat))
    }
}

// Whether each seat has as many users as there are seats, so that they can have different ones.
fn are_wide(state: &State, seats: u32) -> bool {
    let mut left = seats;
    let least = seats.count_ones();
    for _ in 0..32u8 {
        let Some(seat) = pop(&mut left) else { break };
        if !has_many(users_of(state, seat), least) {
            return false;
        }
    }
    true
}

// How many of the seats can have different users.
fn reach(state: &State, seats: u32) -> u32 {
    give_all(state, seats).seats.count_ones()
}

fn give_all(state: &State, seats: u32) -> Given {
    let mut given = Given {
        users: Cells::all(0),
        seats: 0,
    };
    let mut left = seats;
    for _ in 0..32u8 {
        let Some(seat) = pop(&mut left) else { break };
        give_one(state, &mut given, seat);
    }
    given
}

// Gives a seat a user, if need be by giving others a new one. The way back from each seat that was
// met leads to the seat that wants its user.
fn give_one(state: &State, given: &mut Given, start: u8) {
    let mut todo = bit(start);
    let mut met = bit(start);
    let mut back = Cells::all(0);
    for _ in 0..STEP_LIMIT {
        let Some(seat) = pop(&mut todo) else { break };
        if let Some(user) = free_user(state, given, seat) {
            hand_on(given, &back, start, seat, user);
            return;
        }
        let mut others = given.seats & !met;
        for _ in 0..32u8 {
            let Some(other) = pop(&mut others) else { break };
            if has_user(users_of(state, seat), user_of(given, other)) {
                met |= bit(other);
                todo |= bit(other);
                back.set(other, seat as u32);
            }
        }
    }
}

// A user of a seat who was given to none. Each seat before it can have taken one user, and there
// are at most 32 of them, so one of the first 33 users is free, if any is.
fn free_user(state: &State, given: &Given, seat: u8) -> Option<u16> {
    for place in 0..33u32 {
        let user = nth_user(users_of(state, seat), place)?;
        if !is_given(given, user) {
            return Some(user);
        }
    }
    None
}

fn is_given(given: &Given, user: u16) -> bool {
    let mut left = given.seats;
    for _ in 0..32u8 {
        let Some(seat) = pop(&mut left) else { break };
        if user_of(given, seat) == user {
            return true;
        }
    }
    false
}

fn user_of(given: &Given, seat: u8) -> u16 {
    (given.users.at(seat) & 0xffff) as u16
}

// Each seat on the way back gets the user whom the next one had.
fn hand_on(given: &mut Given, back: &Cells, start: u8, last: u8, free: u16) {
    let mut seat = last;
    let mut user = free as u32;
    for _ in 0..STEP_LIMIT {
        let own = given.users.at(seat);
        given.users.set(seat, user);
        given.seats |= bit(seat);
        if seat == start {
            break;
        }
        seat = back.block(seat);
        user = own;
    }
}
