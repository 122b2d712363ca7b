//! Laws of audits. Each function changes nothing; its contract is the law.
ghost use Rattle.transcript_audit.specs.Laws.{AuditIsExact, FaultsExclude, NextIsOne, PartIsExact};

use entry_laws::{entries_are_lines, texts_are_lines};

/// A line that has a fault is the text of no entry that comes next, where all lines before it are
/// such texts.
pub fn faults_exclude()
    ensures { FaultsExclude }
{
    entries_are_lines();
    texts_are_lines();
}

/// A line is the text of one entry at most that comes next, where all lines before it are such
/// texts.
pub fn next_is_one()
    ensures { NextIsOne }
{
    entries_are_lines();
    texts_are_lines();
}

/// All lines are the texts of entries that come next, one for each job, exactly where they are
/// those of a legal history that fills the jobs.
pub fn audit_is_exact()
    ensures { AuditIsExact }
{}

/// Lines are the texts of entries of which each comes next exactly where these are a legal history
/// that answers a part of the jobs, and the lines are its text.
pub fn part_is_exact()
    ensures { PartIsExact }
{}
