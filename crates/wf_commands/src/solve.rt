//! The command `solve`: a plan for each workflow, or a tree that shows that there is none.
ghost use Rattle.std.specs.Prelude.{length, IfOk, OnOk};
ghost use Rattle.wf_commands.specs.Solve.{SolvesPolicy, TellsFirst, TellsNext};

use crate::answer::{Answer, Tells};
use policy_book::{Assign, Course, Policy, StepSet};
use run_record::RunFault;
use std::alloc::{AllocError, Global};
use wf_names::FlowId;
use wire_json::{push_plan_line, push_tree_line};
use wsp_solver::Outcome;

/// `solve`: which plan is there for each workflow, or why is there none?
#[derive(Clone, Copy)]
pub struct SolveCommand;

impl Tells for SolveCommand {
    ghost tells = { λ _. SolvesPolicy };

    fn tell(&self, alloc: Global, p: &Policy) -> Result<Answer, RunFault> {
        Ok(Answer::told(solve_flows(alloc, p)?))
    }
}

// The lines of all workflows of a policy, in their order.
fn solve_flows(alloc: Global, p: &Policy) -> Result<Vec<u8>, AllocError>
    ensures { IfOk result (λ text. TellsFirst p.now (length p.now.flows) text.items) }
{
    let mut text = Vec::new(alloc);
    'flows: for f in 0..p.flows().len() {
        let course = Course {
            policy: p,
            number: FlowId(f as u8),
        };
        push_solved(alloc, &mut text, &course)?;
    }
    Ok(text)
}

// Adds the line of a workflow.
fn push_solved(alloc: Global, out: &mut Vec<u8>, course: &Course) -> Result<(), AllocError>
    ensures { OnOk result (TellsNext course.now.policy.now course.now.number
        out.old.items out.new.items) }
{
    let (p, f) = (course.policy, course.number);
    match wsp_solver::solve(alloc, p, f, &Assign::empty(), &StepSet::empty())? {
        Outcome::Plan(plan) => push_plan_line(out, p, f, &plan),
        Outcome::Refuted(tree) => push_tree_line(out, p, f, &tree),
    }
}
