//! What came of reading a line.

/// What came of reading a line.
#[derive(Clone, Copy)]
pub enum Read {
    /// A line was read, with its line end; the last one of the input may have none.
    Line,
    /// The input has ended.
    End,
    /// The source failed.
    Failed,
    /// The line has more bytes than a line may have; its line end does not count.
    TooLong,
    /// An allocation was refused.
    NoMemory,
}
