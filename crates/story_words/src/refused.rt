//! Why nobody could finish a case after what was denied.

use crate::held::{Held, held_as, held_in, held_with};
use crate::told::Told;
use crate::trees::push_short;
use crate::why::push_why;
use admin_edits::apply;
use basics::Fault;
use constraint_forms::{Assign, StepSet};
use refutation_tree::Tree;
use std::alloc::AllocError;
use wf_names::CaseId;
use wf_talk::{Ask, Denial, Reply, Request};

/// How much is told of a tree.
#[derive(Clone, Copy)]
pub(crate) enum Telling {
    /// What has room in the line, behind what stands there.
    InLine,
    /// All of it, in lines below.
    InLines,
}

impl Telling {
    // Adds that much of why nobody can finish a case in which steps are held so, if it is known.
    fn push(
        self,
        out: &mut String,
        held: &Option<Held<'_>>,
        tree: &Tree,
    ) -> Result<(), AllocError> {
        match (self, held) {
            (Telling::InLine, Some(held)) => push_short(out, held, tree),
            (Telling::InLines, Some(held)) => push_why(out, held, tree),
            (_, None) => Ok(()),
        }
    }
}

/// Adds lines that tell why nobody could finish a case after what was denied, if that is why it
/// was.
pub fn push_reasons(out: &mut String, told: &Told<'_>) -> Result<(), AllocError> {
    push_refused(out, told, Telling::InLines)
}

/// Adds why nobody could finish a case after what was denied, as much of it as is to be told.
pub(crate) fn push_refused(
    out: &mut String,
    told: &Told<'_>,
    telling: Telling,
) -> Result<(), AllocError> {
    match &told.entry.reply {
        Reply::Denied(Denial::Unsatisfiable { flow, tree }) => {
            let held = held_as(told.policy, *flow, Assign::empty(), StepSet::empty());
            telling.push(out, &held, tree.get())
        }
        Reply::Denied(Denial::Stranded { tree, .. }) => {
            telling.push(out, &held_with(told), tree.get())
        }
        Reply::Denied(Denial::Strands { case, tree, .. }) => {
            push_strands(out, told, *case, tree.get(), telling)
        }
        _ => Ok(()),
    }
}

// Adds why an edit would have stranded a case, under the policy that it would have made.
fn push_strands(
    out: &mut String,
    told: &Told<'_>,
    case: CaseId,
    tree: &Tree,
    telling: Telling,
) -> Result<(), AllocError> {
    let Ask::Request(Request::Change { by, edit }) = &told.entry.ask else {
        return Ok(());
    };
    match apply(told.policy, by, edit) {
        Ok(after) => telling.push(out, &held_in(&after, told.cases, case), tree),
        Err(Fault::NoMemory) => Err(AllocError),
        Err(_) => Ok(()),
    }
}
