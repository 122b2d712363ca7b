//! Lines of entries that are made side by side, on threads.
ghost use Rattle.std.specs.Prelude.{◌≡◌, IfOk};
ghost use Rattle.std.specs.List.{AllZip};
ghost use Rattle.wire_json.specs.Replies.{entry_text};

use policy_book::Policy;
use rayon::prelude::*;
use refutation_tree::{Kid, Tree};
use std::alloc::{AllocError, Global};
use std::thread::Threads;
use wf_talk::{Denial, Entry, Reply};
use wire_json::push_line;

// With how many branches of trees, the roots' and those right below, threads are worth their start.
const LONG: usize = 2_048;

// The room that a line has before it grows.
const LINE_ROOM: usize = 4_096;

/// Whether the lines of entries are long together: whether their trees are large.
pub(crate) fn are_long(entries: &[Entry]) -> bool {
    let mut branches: usize = 0;
    'entries: for entry in entries {
        if let Some(tree) = tree_of(&entry.reply) {
            branches = branches.saturating_add(count_top(tree));
        }
    }
    branches >= LONG
}

/// The lines of entries, made by as many threads as are worth it.
pub(crate) fn lines_beside<R: Threads + Sync>(
    rt: &R,
    alloc: Global,
    p: &Policy,
    entries: &[Entry],
) -> Result<Vec<Vec<u8>>, AllocError>
    ensures { IfOk result (λ lines.
        AllZip (λ e line. line.items ≡ entry_text p.now e) entries.now lines.items) }
{
    let lines: Result<Vec<Vec<u8>>, AllocError> = entries
        .par_iter()
        .with_min_len(1)
        .map(
            |entry: &Entry| -> Result<Vec<u8>, AllocError>
                ensures { IfOk result (λ line. line.items ≡ entry_text p.entry.now entry.now) }
            { line_of(alloc, p, entry) },
        )
        .collect(rt, alloc)?;
    lines
}

// The line of an entry.
fn line_of(alloc: Global, p: &Policy, entry: &Entry) -> Result<Vec<u8>, AllocError>
    ensures { IfOk result (λ line. line.items ≡ entry_text p.now entry.now) }
{
    let mut line = Vec::with_capacity(alloc, LINE_ROOM)?;
    push_line(&mut line, p, entry)?;
    Ok(line)
}

// The tree that a reply carries, if it carries one.
fn tree_of(reply: &Reply) -> Option<&Tree> {
    match reply {
        Reply::Denied(
            Denial::Unsatisfiable { tree, .. }
            | Denial::Stranded { tree, .. }
            | Denial::Strands { tree, .. },
        ) => Some(tree.get()),
        _ => None,
    }
}

// How many branches a tree has at its root and right below.
fn count_top(tree: &Tree) -> usize {
    let Tree::Step(_, branches) = tree else {
        return 0;
    };
    let mut count = branches.len();
    'branches: for branch in branches.as_slice() {
        if let Kid::Tree(Tree::Step(_, below)) = &branch.kid {
            count = count.saturating_add(below.len());
        }
    }
    count
}
