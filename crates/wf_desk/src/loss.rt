//! What is known of a job that was lost.

/// How often a lane's next job was lost, and up to which entry.
#[derive(Clone, Copy)]
pub struct Loss {
    /// How many of its commits were lost.
    pub count: u8,
    /// How many entries there were at the last of them.
    pub end: u32,
}
