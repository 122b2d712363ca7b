//! What is known of a session before it is audited.
ghost use Rattle.std.specs.Prelude.{◌<◌, ◌≤◌, length};
ghost use Rattle.wf_names.specs.declared.limits.TheConstants.{LANE_LIMIT, STEP_LIMIT};
ghost use Rattle.policy_book.specs.Policies.{flow_at};
ghost use Rattle.line_reader.specs.Laws.{AreInOrder, AreNamedJobs};
ghost use Rattle.entry_laws.specs.Laws.{HasFewSteps};
ghost use Rattle.transcript_audit.specs.Laws.{AreOfSession};

use entry_reader::know_names;
use policy_book::Policy;
use wf_names::FlowId;
use wf_talk::{Ends, Jobs};

/// A policy, and jobs and ends as those of an input are, are of a session. Changes nothing.
pub fn know_session(p: &Policy, rounds: u8, jobs: &Jobs, ends: &Ends)
    requires order { AreInOrder LANE_LIMIT jobs.now ends.now }
    requires named { AreNamedJobs jobs.now }
    ensures { AreOfSession p.now rounds jobs.now ends.now }
{
    let _ = rounds;
    let _ = jobs;
    let _ = ends;
    let _ = p.admin();
    know_names(p);
    know_steps(p);
}

// No workflow has more steps than the limit.
fn know_steps(p: &Policy)
    ensures { HasFewSteps p.now }
{
    'flows: for f in 0..p.flows().len() {
        know_few(p, FlowId(f as u8));
    }
}

fn know_few(p: &Policy, f: FlowId)
    requires { f < length p.now.flows }
    ensures { length (flow_at p.now f).flow.steps ≤ STEP_LIMIT }
{
    let _ = p.flow(f).steps();
}
