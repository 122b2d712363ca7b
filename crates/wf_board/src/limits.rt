//! How large what an entry shows may be.

/// The most leaves and nodes of a tree that an entry shows, and the most branches that a search for
/// the server keeps. A name has at most 40 bytes, so each leaf or node takes at most 108 bytes of
/// an entry, and an entry with such a tree at most 16,777,216, the longest line that an audit
/// reads.
pub const TREE_LIMIT: u32 = 150_000;
