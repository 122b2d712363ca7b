//! Where the cutting of an input stops.

/// Why the cutting stopped: what follows is not read.
#[derive(Clone, Copy)]
pub enum Stop {
    /// The line with this number, counted from 0, has more bytes than a line may have.
    LineTooLong(u32),
    /// There are more lines than a session may have.
    TooManyLines,
}
