//! What no clause shows: that a trial is served while there is memory.
use constraint_forms::Plan;
use grant_table::Cases;
use policy_book::Policy;
use run_record::Report;
use std::alloc::{AllocError, Global};
use trial_command::run_trial;
use wf_board::{Decider, Deed, Verdict};
use wf_outside::MemSink;

// Finds no verdict for want of memory.
struct Idle;

impl Decider for Idle {
    fn decide_deed(&self, _alloc: Global, _p: &Policy, _cases: &Cases, deed: &Deed) -> Verdict {
        match deed {
            Deed::Open { .. }
            | Deed::Claim(_)
            | Deed::Change { .. }
            | Deed::Work { .. }
            | Deed::WhatIf { .. } => Verdict::NoMemory,
            _ => Verdict::Nothing,
        }
    }

    fn decide_near(&self, _p: &Policy, _cases: &Cases, _deed: &Deed) -> Option<Plan> {
        None
    }
}

/// Whether a trial is served. No case is opened, so no step is granted or finished.
pub fn a_trial_is_served(alloc: Global) -> Result<bool, AllocError> {
    let mut sink = MemSink::new(alloc, 200, 7, Vec::new(alloc))?;
    Ok(is_served(alloc, &mut sink))
}

fn is_served(alloc: Global, sink: &mut MemSink) -> bool {
    tells(&run_trial(alloc, &Idle, 7, sink))
        && sink.bytes().starts_with(b"trial 7 lines 1965 opened 0 granted 0 finished 0 edited ")
}

fn tells(report: &Report) -> bool {
    report.status == 0
        && report.entries.len() == 1_965
        && report.batch_ends.as_slice() == [40, 1_064, 1_965].as_slice()
}
