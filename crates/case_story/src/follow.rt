//! Following a transcript line by line.
ghost use Rattle.std.specs.Prelude.{◌≡◌, ◌<◌, ◌≤◌, ◌+◌, length, None, Some, Ok, IfOk, IfSome};
ghost use Rattle.transcript_audit.specs.Auditor.{AuditShape};
ghost use Rattle.case_story.specs.Followed.{EndsAt, HasFollowed, IsAt, FollowsTo, StopsTo};
ghost use Rattle.case_story.specs.Follow.{IsBetween};
ghost use Rattle.case_story.specs.Verdicts.{right_lines};

use crate::place::Place;
use crate::verdict::Verdict;
use case_views::PlainDecider;
use std::alloc::{AllocError, Global};
use story_words::Told;
use transcript_audit::{AuditFault, Auditor};
use transcript_commands::{first_len, is_long};

/// What looks at an audit after each entry. Nothing is promised of what it makes of it.
pub(crate) trait Watches {
    /// Looks at the audit, of which one more entry is taken.
    fn see(&mut self, auditor: &Auditor) -> Result<(), AllocError>;
}

/// Looks at nothing.
#[derive(Clone, Copy)]
pub(crate) struct Quiet;

impl Watches for Quiet {
    fn see(&mut self, _auditor: &Auditor) -> Result<(), AllocError> {
        Ok(())
    }
}

/// The last entry that an audit has taken, if there is one.
pub(crate) fn last_told(auditor: &Auditor) -> Option<Told<'_>> {
    let board = auditor.board();
    let entries = auditor.entries();
    match entries.last() {
        Some(entry) => Some(Told {
            policy: board.policy(),
            cases: board.cases(),
            entries,
            entry,
        }),
        None => None,
    }
}

/// Follows all lines that are left; what is found.
pub(crate) fn follow_rest<W: Watches>(
    alloc: Global,
    auditor: &mut Auditor,
    text: &[u8],
    place: &mut Place,
    watcher: &mut W,
) -> Result<Verdict, AllocError>
    requires short { length text.now < 4294967295 }
    requires at { IsAt text.now auditor.old place.old }
    ensures stops { IfOk result (λ v. (first : AuditShape) →
        HasFollowed first auditor.old text.now place.old →
        StopsTo first auditor.new text.now v) }
    ensures more { IfOk result (λ v. place.old.number ≤ right_lines v) }
    ensures number { IfOk result (λ v. place.new.number ≡ right_lines v) }
{
    match follow_to(alloc, auditor, text, place, u32::MAX, watcher)? {
        Some(verdict) => Ok(verdict),
        None => Ok(find_end(auditor, place.number)),
    }
}

/// Follows the lines until `most` are taken, or none is left, or one has a fault, which is told.
pub(crate) fn follow_to<W: Watches>(
    alloc: Global,
    auditor: &mut Auditor,
    text: &[u8],
    place: &mut Place,
    most: u32,
    watcher: &mut W,
) -> Result<Option<Verdict>, AllocError>
    requires short { length text.now < 4294967295 }
    requires at { IsAt text.now auditor.old place.old }
    requires most { place.old.number ≤ most }
    ensures steps { IfOk result (λ o. (first : AuditShape) →
        HasFollowed first auditor.old text.now place.old →
        FollowsTo first auditor.new text.now place.new o) }
    ensures at { result ≡ Ok None → IsAt text.now auditor.new place.new }
    ensures all { result ≡ Ok None → place.new.number < most → length text.now ≤ place.new.at }
    ensures between { IfOk result (λ _. IsBetween place.old.number place.new.number most) }
    ensures number { IfOk result (λ o. IfSome o (λ v. right_lines v ≡ place.new.number)) }
{
    'lines: while place.number < most && place.at < text.len() {
        let found = follow_line(alloc, auditor, text, place, watcher)?;
        if let Some(verdict) = found {
            return Ok(Some(verdict));
        }
    }
    Ok(None)
}

// Follows one line.
fn follow_line<W: Watches>(
    alloc: Global,
    auditor: &mut Auditor,
    text: &[u8],
    place: &mut Place,
    watcher: &mut W,
) -> Result<Option<Verdict>, AllocError>
    requires short { length text.now < 4294967295 }
    requires at { IsAt text.now auditor.old place.old }
    requires some { place.old.at < length text.now }
    ensures steps { IfOk result (λ o. (first : AuditShape) →
        HasFollowed first auditor.old text.now place.old →
        FollowsTo first auditor.new text.now place.new o) }
    ensures at { result ≡ Ok None → IsAt text.now auditor.new place.new }
    ensures more { result ≡ Ok None → place.new.number ≡ place.old.number + 1 }
    ensures further { result ≡ Ok None → place.old.at < place.new.at }
    ensures number { IfOk result (λ o. IfSome o (λ v.
        (right_lines v ≡ place.old.number) × (place.new ≡ place.old))) }
{
    let rest = &text[place.at..];
    if is_long(rest) {
        return Ok(Some(Verdict::TooLong(place.number)));
    }
    let count = first_len(rest);
    match auditor.line(alloc, &PlainDecider, &rest[..count]) {
        Ok(()) => {
            watcher.see(auditor)?;
            place.at += count;
            place.number += 1;
            Ok(None)
        }
        Err(AuditFault::At(_, kind)) => Ok(Some(Verdict::Fault(place.number, kind))),
        Err(AuditFault::NoMemory) => Err(AllocError),
    }
}

// What is found where no line is left. This takes no memory.
fn find_end(auditor: &Auditor, number: u32) -> Verdict
    requires going { auditor.now.fault ≡ None }
    ensures ends { EndsAt auditor.now number result }
    ensures number { right_lines result ≡ number }
{
    match auditor.end() {
        Err(AuditFault::At(_, kind)) => Verdict::Fault(number, kind),
        _ => Verdict::Legal(number),
    }
}
