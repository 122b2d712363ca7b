//! An entry with what stands round it.

use crate::past::recent;
use grant_table::Cases;
use policy_book::Policy;
use wf_talk::Entry;

/// An entry, with the policy and the cases after it, and all entries up to it: it is the last.
#[derive(Clone, Copy)]
pub struct Told<'a> {
    /// The policy after the entry.
    pub policy: &'a Policy,
    /// The cases after the entry.
    pub cases: &'a Cases,
    /// The entries up to it.
    pub entries: &'a [Entry],
    /// The entry.
    pub entry: &'a Entry,
}

impl<'a> Told<'a> {
    /// The same with the last entries alone, as many as are looked at for one line.
    pub(crate) fn recent(&self) -> Told<'a> {
        Told {
            policy: self.policy,
            cases: self.cases,
            entries: recent(self.entries),
            entry: self.entry,
        }
    }
}
