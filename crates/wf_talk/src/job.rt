//! The jobs of the input.

use crate::Ask;

/// What a line of the input asks for.
#[derive(Clone, Copy, PartialEq, Eq)]
pub struct Job {
    /// The lane that serves it.
    pub lane: u8,
    /// The number of its line, counted from 0.
    pub line: u32,
    pub ask: Ask,
}
