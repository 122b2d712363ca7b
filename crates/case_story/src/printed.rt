//! A policy as a file, with what a file cannot hold.
ghost use Rattle.std.specs.Prelude.{◌≡◌, ◌<◌, ◌++◌, ◌||◌, IfOk, OnOk, length, string_bytes};
ghost use Rattle.policy_book.specs.Policies.{flow_at};
ghost use Rattle.policy_reader.specs.Documents.{name_at};
ghost use Rattle.case_story.specs.Printed.{WritesPolicy, has_retired, retired_line, retired_lines};

use policy_book::Policy;
use policy_reader::print;
use std::alloc::{AllocError, Global};
use wf_names::FlowId;

/// A policy in words and as a file.
#[derive(Drop)]
pub(crate) struct Printed {
    /// What a file cannot hold, in lines that a file may have.
    pub remarks: String,
    /// Whether there is something that it cannot hold.
    pub is_less: bool,
    /// The policy as a file.
    pub document: String,
}

/// Prints a policy.
pub(crate) fn print_policy(alloc: Global, p: &Policy) -> Result<Printed, AllocError>
    ensures remarks { IfOk result (λ r. string_bytes r.remarks
        ≡ retired_lines p.now (length p.now.flows)) }
    ensures less { IfOk result (λ r. r.is_less ≡ has_retired p.now) }
    ensures document { IfOk result (λ r. WritesPolicy p.now (string_bytes r.document)) }
{
    let mut remarks = String::new(alloc);
    let is_less = push_remarks(&mut remarks, p)?;
    let document = print(alloc, p)?;
    Ok(Printed {
        remarks,
        is_less,
        document,
    })
}

// Adds a line for each workflow that is retired; whether there is one.
fn push_remarks(out: &mut String, p: &Policy) -> Result<bool, AllocError>
    ensures lines { OnOk result (string_bytes out.new ≡ string_bytes out.old
        ++ retired_lines p.now (length p.now.flows)) }
    ensures some { IfOk result (λ some. some ≡ has_retired p.now) }
{
    let mut some = false;
    'flows: for f in 0..p.flows().len() {
        let retired = push_remark(out, p, FlowId(f as u8))?;
        some = either(some, retired);
    }
    Ok(some)
}

// Whether one of two things is so.
fn either(a: bool, b: bool) -> bool
    ensures { result ≡ (a || b) }
{
    a || b
}

// Adds the line of a workflow, if it is retired; whether it is.
fn push_remark(out: &mut String, p: &Policy, f: FlowId) -> Result<bool, AllocError>
    requires { f < length p.now.flows }
    ensures line { OnOk result (string_bytes out.new ≡ string_bytes out.old
        ++ retired_line p.now f) }
    ensures retired { IfOk result (λ retired. retired ≡ (flow_at p.now f).retired) }
{
    if !p.retired(f) {
        return Ok(false);
    }
    let name = p.flows().name(f.0 as u16);
    out.push_str("# workflow ")?;
    out.push_str(name.as_str())?;
    out.push_str(" is retired, which a policy file cannot say\n")?;
    Ok(true)
}
