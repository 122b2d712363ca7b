//! The rule of the table, and what each kind of step does to the views. The kinds, and no others:
//!
//! | Kind | On | The view that changes |
//! |---|---|---|
//! | lock | a compare-exchange of word 0 from free to held | that of the seat, where the word was
//! free: it holds the lock, and has seen the value's list |
//! | take | an exchange of slot 0 for nothing | none |
//! | note | a compare-exchange of word 0 from held to noted, while the value is out | that of the
//! seat: what it has seen and its own pairs grow by what the turn appends |
//! | give | an exchange of slot 0 for the value | none |
//! | unlock | a swap of word 0 to free | that of the seat: it no longer holds the lock |
//! | split | a load of word 0 | that of the first lane, which has made one lane more, and that of
//! the new lane |
//! | join | a load of word 0 | both: one has the longer list and the other's numbers, the other is
//! spent |
//! | compare | a load of word 0, after a join | none: it tells that the longer list begins with the
//! shorter |
use crate::tabled::Tabled;
use crate::view::View;
use atomic_table::{Join, Play, Split, TableRule};
use std::marker::PhantomData;
use std::snapshot::Snapshot;

/// What the table is told when it is made.
pub struct Told<D> {
    pub value: Snapshot<D>,
    pub lanes: u8,
}

impl<D> Drop for Told<D> {
    fn drop(self) {
        let Told { value: _, lanes: _ } = self;
    }
}

/// The rule.
pub struct Turns<D> {
    of: PhantomData<D>,
}

impl<D: Tabled> TableRule<Option<D>, View<D::Ground, D::Item>, Told<D>> for Turns<D> {
    ghost use Rattle.std.specs.Prelude.{Some};
    ghost use Rattle.turn_table.specs.Plays.{TurnRule, starting};

    ghost holds = { λ key. TurnRule D.fixed_part D.list (D.fixed_part key.value.value)
        (D.list key.value.value) key.lanes };

    ghost first = { λ key. starting (Some (D.fixed_part key.value.value))
        (D.list key.value.value) key.lanes };
}

/// Takes the lock, and with it the slot.
pub struct Lock<D> {
    of: PhantomData<D>,
}

impl<D: Tabled> Play<Option<D>, View<D::Ground, D::Item>> for Lock<D> {
    ghost use Rattle.turn_table.specs.Plays.{locked};

    ghost then = { locked D.fixed_part D.list };
}

/// Notes the list that the turn gives back, while the value is out.
pub struct Note<D> {
    of: PhantomData<D>,
}

impl<D: Tabled> Play<Option<D>, View<D::Ground, D::Item>> for Note<D> {
    ghost use Rattle.turn_table.specs.Plays.{noted};

    ghost then = { noted D.list };
}

/// Gives the lock back, and with it the slot.
pub struct Unlock;

impl<D, G, I> Play<Option<D>, View<G, I>> for Unlock {
    ghost use Rattle.turn_table.specs.Plays.{unlocked};

    ghost then = { unlocked };
}

/// Tells of the two lists that were seen before a join.
pub struct Compare;

impl<D, G, I> Play<Option<D>, View<G, I>> for Compare {
    ghost use Rattle.turn_table.specs.Plays.{compared};

    ghost then = { compared };
}

/// The first lane makes a lane.
pub struct Part;

impl<G, I> Split<View<G, I>> for Part {
    ghost use Rattle.turn_table.specs.Plays.{parent, newcomer};

    ghost left = { parent };

    ghost right = { newcomer };
}

/// Takes a lane into another.
pub struct Unite;

impl<G, I> Join<View<G, I>> for Unite {
    ghost use Rattle.turn_table.specs.Plays.{united, spent};

    ghost both = { united };

    ghost spent = { spent };
}
