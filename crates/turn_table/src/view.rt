//! What a seat at the table knows.
use std::collections::LinkedList;

/// How a seat stands to the lock.
pub enum Hold {
    Free,
    Held,
    /// Held, and the list that the turn gives back is noted.
    Noted,
}

/// What a seat knows. No value of it is made.
pub struct View<G, I> {
    /// False of a seat that was joined into another.
    pub live: bool,
    /// The lane's number; the first lane has none.
    pub number: Option<u64>,
    pub hold: Hold,
    /// The value's fixed part; none in a seat that is spent.
    pub fixed: Option<G>,
    /// The value's list when the table was made.
    pub opening: LinkedList<(u64, I)>,
    /// What the seat had seen when it was made.
    pub born: LinkedList<(u64, I)>,
    /// What it has seen.
    pub seen: LinkedList<(u64, I)>,
    /// The shorter of the two lists that were seen before the last join.
    pub told: LinkedList<(u64, I)>,
    /// The pairs that its lane gave.
    pub own: LinkedList<(u64, I)>,
    /// How many lanes it has made.
    pub made: u64,
    /// How many lanes the table may have.
    pub lanes: u64,
    /// The numbers of the lanes that were joined into it.
    pub joined: LinkedList<u64>,
}
