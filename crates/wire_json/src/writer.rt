//! Writing the lines of entries, one after the other.
ghost use Rattle.std.specs.Prelude.{◌≡◌, ◌≤◌, ◌++◌, ◌↔◌, codes, drop, length, IsTrue, OnOk};
ghost use Rattle.serde_json.specs.Data.{boolean};
ghost use Rattle.serde_json.specs.Written.{compact_text};
ghost use Rattle.wire_json.specs.Replies.{entry_text};
ghost use Rattle.wire_json.specs.Entries.{single};
ghost use Rattle.wire_json.specs.Pieces.{head_text, plan_ending};

use crate::fill::{PLAN_ROOM, put_bytes, put_plan};
use crate::reply::{push_head, push_line};
use crate::text::{push, push_case, push_from};
use policy_book::{Plan, Policy};
use std::alloc::AllocError;
use std::marker::Model;
use wf_names::{CaseId, NameTable, StepId};
use wf_talk::{Entry, Reply};

// The room that a plan needs with its key before it, and with the end of a line behind it.
const ENDING_ROOM: usize = PLAN_ROOM + 16;

/// Writes the lines of entries under one policy. How the last line ends that gives a plan is kept,
/// and the next line that gives the same plan ends so too. Contracts see the policy.
#[derive(Drop)]
pub struct LineWriter<'a> {
    policy: &'a Policy,
    plan: Plan,
    // From `start` on, how a line ends that gives `plan`.
    cells: [u8; ENDING_ROOM],
    start: usize,
}

impl<'a> Model for LineWriter<'a> {
    ghost use Rattle.std.specs.Prelude.{◌≡◌, ◌≤◌, drop, length};
    ghost use Rattle.policy_book.specs.Laws.Shapes.{PolicyShape, policy_code};
    ghost use Rattle.wire_json.specs.Pieces.{plan_ending};

    ghost Value = { PolicyShape };

    ghost coded = { policy_code };

    ghost view = { λ w. w.policy.now };

    ghost invariant = { λ w. (w.start ≤ length w.cells)
        × (drop w.start w.cells ≡ plan_ending w.policy.now.roster.users w.plan) };
}

impl<'a> LineWriter<'a> {
    /// A writer of lines under a policy.
    pub fn new(policy: &'a Policy) -> LineWriter<'a>
        ensures { result ≡ policy.now }
    {
        let plan = Plan::of(&[]);
        let mut cells = [0; ENDING_ROOM];
        let start = put_ending(&mut cells, policy.roster().users(), &plan);
        LineWriter {
            policy,
            plan,
            cells,
            start,
        }
    }

    /// Adds the line that is written for an entry.
    #[tactic(auto, unfolding(json::specs::Print::escape_byte))]
    pub fn push_line(&mut self, out: &mut Vec<u8>, e: &Entry) -> Result<(), AllocError>
        ensures same { self.new ≡ self.old }
        ensures added { OnOk result (out.new.items ≡ out.old.items ++ entry_text self.old e.now) }
    {
        match &e.reply {
            Reply::Granted(plan) => self.push_granted(out, e, plan),
            Reply::Finished { done } => {
                push_finished(out, e, *done)?;
                Ok(())
            }
            Reply::Returned => {
                push_head(out, e, b"\"returned\"}\n")?;
                Ok(())
            }
            Reply::Opened { case, plan } => self.push_opened(out, e, *case, plan),
            _ => push_line(out, self.policy, e),
        }
    }

    // Adds the line of a request that was granted.
    fn push_granted(&mut self, out: &mut Vec<u8>, e: &Entry, plan: &Plan) -> Result<(), AllocError>
        requires { e.now.reply ≡ Reply.Granted plan.now }
        ensures same { self.new ≡ self.old }
        ensures added { OnOk result (out.new.items ≡ out.old.items ++ entry_text self.old e.now) }
    {
        push_head(out, e, b"{\"granted\":{")?;
        self.push_ending(out, plan)?;
        Ok(())
    }

    // Adds the line of a case that was opened.
    fn push_opened(
        &mut self,
        out: &mut Vec<u8>,
        e: &Entry,
        case: CaseId,
        plan: &Plan,
    ) -> Result<(), AllocError>
        requires { e.now.reply ≡ Reply.Opened case plan.now }
        ensures same { self.new ≡ self.old }
        ensures added { OnOk result (out.new.items ≡ out.old.items ++ entry_text self.old e.now) }
    {
        push_head(out, e, b"{\"opened\":{\"case\":")?;
        push_case(out, b"", case)?;
        push(out, b",")?;
        self.push_ending(out, plan)?;
        Ok(())
    }

    // Adds how a line ends that gives a plan.
    fn push_ending(&mut self, out: &mut Vec<u8>, plan: &Plan) -> Result<(), AllocError>
        ensures same { self.new ≡ self.old }
        ensures added { OnOk result (out.new.items
            ≡ out.old.items ++ plan_ending self.old.roster.users plan.now) }
    {
        let users = self.policy.roster().users();
        self.start = keep_ending(&mut self.cells, self.start, &self.plan, users, plan);
        self.plan = *plan;
        push_from(out, &self.cells, self.start)
    }
}

// Puts how a line ends that gives a plan in the place of how a line ends that gives the `kept` one;
// where it starts.
fn keep_ending(cells: &mut [u8], start: usize, kept: &Plan, users: &NameTable, plan: &Plan) -> usize
    requires room { length cells.old ≡ ENDING_ROOM }
    requires within { start ≤ length cells.old }
    requires kept { drop start cells.old ≡ plan_ending users.now.names kept.now }
    ensures within { result ≤ length cells.new }
    ensures written { drop result cells.new ≡ plan_ending users.now.names plan.now }
{
    if are_same(plan, kept) {
        start
    } else {
        put_ending(cells, users, plan)
    }
}

// Puts how a line ends that gives a plan at the end of cells; where it starts.
fn put_ending(cells: &mut [u8], users: &NameTable, plan: &Plan) -> usize
    requires { length cells.old ≡ ENDING_ROOM }
    ensures within { result ≤ length cells.new }
    ensures written { drop result cells.new ≡ plan_ending users.now.names plan.now }
{
    let end = put_bytes(cells, ENDING_ROOM, b"}}}\n");
    let names = put_plan(cells, end, users, plan);
    put_bytes(cells, names, b"\"plan\":")
}

// Adds the line of a step that was finished.
#[tactic(auto, unfolding(json::specs::Print::escape_byte))]
fn push_finished(out: &mut Vec<u8>, e: &Entry, done: bool) -> Result<(), AllocError>
    ensures { OnOk result (out.new.items ≡ out.old.items ++ (head_text e.now ++ (compact_text
        (single (codes "finished") (single (codes "done") (boolean done))) ++ codes "}\n"))) }
{
    if done {
        push_head(out, e, b"{\"finished\":{\"done\":true}}}\n")
    } else {
        push_head(out, e, b"{\"finished\":{\"done\":false}}}\n")
    }
}

// Whether two plans are equal.
fn are_same(a: &Plan, b: &Plan) -> bool
    ensures { IsTrue result ↔ (a.now ≡ b.now) }
{
    let count = a.len();
    if b.len() != count {
        return false;
    }
    'steps: for s in 0..count {
        let step = StepId(s);
        if a.at(step).0 != b.at(step).0 {
            return false;
        }
    }
    true
}
