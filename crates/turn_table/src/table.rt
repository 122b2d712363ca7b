//! The table, and the calls by which lanes take turns.
ghost use Rattle.std.specs.Prelude.{◌≡◌, ◌⊎◌, ℕ, ◌+◌, ◌<◌, ◌≤◌, true, false, ◌++◌, length, drop};
ghost use Rattle.std.specs.Prelude.{[], ◌∷◌, IsSome, IfSome, IfOk, IfErr};
ghost use Rattle.std.specs.List.{Contains};
ghost use Rattle.turn_table.specs.Table.{StartsWith, Quiet, OwnPast, GrowsByOne};
ghost use Rattle.turn_table.specs.Lanes.{first_lane, next_lane, joined_lane};

use crate::lane::Lane;
use crate::plays::{Compare, Lock, Note, Part, Told, Turns, Unite, Unlock};
use crate::tabled::Tabled;
use crate::view::View;
use atomic_table::Table;
use std::alloc::{AllocFailed, Global};
use std::marker::Model;
use std::snapshot::Snapshot;
use std::sync::Wait;
use std::{hint, thread};

// What word 0 is: the lock is free, it is held, or it is held and the list that the turn gives back
// is noted.
const FREE: u64 = 0;

const HELD: u64 = 1;

const NOTED: u64 = 2;

// How often a lane tries to take the lock before it lets other threads go on.
const SPINS: u32 = 100;

// What a lane does between two tries, where it made `tries` since it last let others go on.
fn pause(tries: u32) -> u32 {
    if tries < SPINS {
        hint::spin_loop();
        tries + 1
    } else {
        thread::yield_now();
        0
    }
}

/// A value at which lanes take turns. Contracts see which table it is.
pub struct TurnTable<D: Tabled> {
    table: Table<Option<D>, View<D::Ground, D::Item>, Told<D>, Turns<D>, Global>,
}

impl<D: Tabled> Model for TurnTable<D> {
    ghost use Rattle.std.specs.Prelude.{◌≡◌};
    ghost use Rattle.atomic_table.specs.Seated.{TableId, table_id_coded};

    ghost Value = { TableId };

    ghost coded = { table_id_coded };

    ghost view = { λ t. t.table.shared.table_id };

    ghost invariant = { λ t. (t.table.shared.table_id.words ≡ 1) ×
        (t.table.shared.table_id.slots ≡ 1) };
}

/// There was no memory for a table. The value comes back.
#[derive(Drop)]
pub struct Refused<D> {
    pub value: D,
}

// A row of one slot, which has the value.
fn row_of<D>(alloc: Global, value: D) -> Result<Vec<Option<D>>, Refused<D>>
    ensures row { IfOk result (λ v. v.items ≡ Some value ∷ []) }
    ensures refused { IfErr result (λ r. r.value ≡ value) }
{
    let mut slots = Vec::new(alloc);
    match slots.push(Some(value)) {
        Ok(()) => Ok(slots),
        Err(AllocFailed { value }) => {
            slots.destroy_empty();
            Err(Refused {
                value: value.unwrap(),
            })
        }
    }
}

// The value of a row of one slot.
fn value_of<D>(mut slots: Vec<Option<D>>) -> D
    requires { (x : D) × (slots.items ≡ Some x ∷ []) }
    ensures { slots.items ≡ Some result ∷ [] }
{
    let value = slots.pop().unwrap().unwrap();
    slots.destroy_empty();
    value
}

impl<D: Tabled> TurnTable<D> {
    /// A table for `lanes` lanes beside the first one, 1 to 8, and its first lane, which has no
    /// number and takes no turns.
    pub fn new(alloc: Global, value: D, lanes: u8) -> Result<(TurnTable<D>, Lane<D>), Refused<D>>
        requires { (1 ≤ lanes) × (lanes ≤ 8) }
        ensures first { IfOk result (λ t. t.1
            ≡ first_lane t.0 (D.fixed_part value) (D.list value) lanes) }
        ensures refused { IfErr result (λ r. r.value ≡ value) }
    {
        let told = Told {
            value: Snapshot::of(&value),
            lanes,
        };
        let slots = row_of(alloc, value)?;
        match Table::new(alloc, &[FREE], slots, &told) {
            Ok((table, seat)) => Ok((TurnTable { table }, Lane { seat, out: false })),
            Err(atomic_table::Refused { slots }) => Err(Refused {
                value: value_of(slots),
            }),
        }
    }

    /// A lane of the table, with the next number. Only the first lane makes lanes, and no more than
    /// the table may have.
    pub fn lane(&self, parent: &mut Lane<D>) -> Lane<D>
        requires table { parent.old.table ≡ self.now }
        requires first { parent.old.number ≡ None }
        requires room { parent.old.made < parent.old.lanes }
        ensures lane { result ≡ next_lane parent.old }
        ensures parent { parent.new ≡ record parent.old { made = parent.old.made + 1 } }
    {
        let seat = self.table.shared.split_seat::<Part>(&mut parent.seat);
        Lane { seat, out: false }
    }

    /// Waits for the lane's turn, and takes the value out. It meets its contract if it returns.
    pub fn take<R: Wait>(&self, rt: &R, lane: &mut Lane<D>) -> D
        requires table { lane.old.table ≡ self.now }
        requires numbered { IsSome lane.old.number }
        requires inside { lane.old.out ≡ false }
        ensures fixed { Some (D.fixed_part result) ≡ lane.old.fixed }
        ensures list { Quiet (λ n. lane.old.number ≡ Some n) (D.list result) lane.old.seen }
        ensures lane { lane.new ≡ record lane.old { out = true; seen = D.list result } }
    {
        let shared = &self.table.shared;
        let mut tries = 0;
        for _ in rt.forever() {
            let found = shared.compare_exchange::<Lock<D>>(&mut lane.seat, 0, FREE, HELD);
            if found == FREE {
                lane.out = true;
                return shared.exchange(&mut lane.seat, 0, None).unwrap();
            }
            tries = pause(tries);
        }
        unreachable!()
    }

    /// Gives the value back, with at most one item of the lane's after those that it had, and ends
    /// the turn.
    pub fn give(&self, lane: &mut Lane<D>, value: D)
        requires table { lane.old.table ≡ self.now }
        requires out { lane.old.out ≡ true }
        requires fixed { Some (D.fixed_part value) ≡ lane.old.fixed }
        requires list { IfSome lane.old.number (λ n. GrowsByOne n (D.list value) lane.old.seen) }
        ensures lane { lane.new ≡ record lane.old {
          out = false;
          seen = D.list value;
          own = lane.old.own ++ drop (length lane.old.seen)
              (D.list value);
        } }
        ensures own { IfSome lane.new.number
            (λ n. OwnPast n lane.new.seen lane.new.opening lane.new.own
            × OwnPast n lane.new.seen lane.new.born lane.new.own) }
    {
        let shared = &self.table.shared;
        let value = Some(value);
        shared.compare_exchange_with::<Note<D>>(&mut lane.seat, 0, HELD, NOTED, &value);
        let emptied = shared.exchange(&mut lane.seat, 0, value);
        let None = emptied else { unreachable!() };
        shared.swap::<Unlock>(&mut lane.seat, 0, FREE);
        lane.out = false;
    }

    /// Takes a lane that has ended into another, which has then seen the longer of the two lists.
    pub fn join(&self, into: &mut Lane<D>, from: Lane<D>)
        requires table { (into.old.table ≡ self.now) × (from.table ≡ self.now) }
        requires inside { (into.old.out ≡ false) × (from.out ≡ false) }
        requires numbered { IsSome from.number }
        ensures into { into.new ≡ joined_lane into.old from }
        ensures begins { StartsWith into.new.seen into.old.seen
            × StartsWith into.new.seen from.seen }
        ensures counted { (n : ℕ) → (from.number ≡ Some n) ⊎ Contains from.joined n
            → Contains into.new.joined n }
        ensures kept { (n : ℕ) → Contains into.old.joined n → Contains into.new.joined n }
    {
        let shared = &self.table.shared;
        shared.join_seat::<Unite>(&mut into.seat, from.into_seat());
        shared.load::<Compare>(&mut into.seat, 0);
    }

    /// The value, once every lane is joined into the first one. Its list is what the first lane has
    /// seen.
    pub fn close(self, first: Lane<D>) -> D
        requires table { first.table ≡ self }
        requires first { first.number ≡ None }
        requires joined { (n : ℕ) → n < first.made → Contains first.joined n }
        ensures fixed { Some (D.fixed_part result) ≡ first.fixed }
        ensures list { D.list result ≡ first.seen }
    {
        let TurnTable { table } = self;
        let mut closed = table.close_with(first.into_seat());
        let value = closed.take(0);
        closed.free();
        value.unwrap()
    }
}
