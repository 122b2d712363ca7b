//! What is wrong with a transcript.

/// What is wrong with a line of a transcript: the first of these that applies, in the order of
/// checks: `Text` where it tells no place or does not end, `At`, `Job`, `Text`, `Reply`.
#[derive(Clone, Copy)]
pub enum AuditKind {
    /// It does not tell its place and end with LF, or it is the text of no reply to its request.
    Text,
    /// It does not stand at the place that it tells.
    At,
    /// It does not answer its lane's next job of the present batch.
    Job,
    /// Its reply is no step of a session after the lines before it, and not answered again as it
    /// may be.
    Reply,
    /// It is not there, though a job is left.
    Missing,
}

/// Why an audit does not go on.
#[derive(Clone, Copy)]
pub enum AuditFault {
    /// The line with this number, counted from 0, is the first that is wrong, and how.
    At(u32, AuditKind),
    /// An allocation was refused.
    NoMemory,
}
