//! Laws of entries: what a session writes is read back. Each function changes nothing; its contract
//! is the law.
#![tactic(auto)]

ghost use Rattle.entry_laws.specs.Laws.Fits.{LinesFit};
ghost use Rattle.entry_laws.specs.Laws.{EntriesAreLines, TextsAreLines, TreesFitLines};

/// The text of each entry of a legal history is a line that the reader of transcripts accepts.
pub fn entries_are_lines()
    ensures { EntriesAreLines }
{}

/// The text of an entry has LF at its end and nowhere else.
pub fn texts_are_lines()
    ensures { TextsAreLines }
{}

/// The text of an entry that denies by a tree is no longer than a line that an audit reads, if the
/// tree is one that a session shows.
pub fn trees_fit_lines()
    ensures { TreesFitLines }
{}

/// The text of each entry that a session made, each with the names of the policy after it, is no
/// longer than a line that an audit reads.
pub fn lines_fit()
    ensures { LinesFit }
{}
