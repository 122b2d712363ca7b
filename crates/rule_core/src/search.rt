//! The rules that cannot be met together, by leaving out one after the other.
ghost use Rattle.std.specs.Prelude.{◌≤◌, length, IfOk};
ghost use Rattle.wf_names.specs.declared.limits.TheConstants.{RULE_LIMIT};
ghost use Rattle.constraint_forms.specs.Assign.{no_steps, no_users};
ghost use Rattle.policy_book.specs.Course.{problem_in};
ghost use Rattle.rule_core.specs.Progress.{in_case};
ghost use Rattle.rule_core.specs.Search.{IsCore, IsBlocked, problem_with};
ghost use Rattle.rule_core.specs.Trials.{HasTried, HasStarted};
ghost use Rattle.rule_core.specs.Laws.Whys.{IsWhy};
ghost use Rattle.wsp_solver.specs.Searches.{HasSolved};

use crate::crowd::StepList;
use crate::fewer::{RuleList, with_rules};
use crate::find::find_crowd;
use crate::numbers::{all_numbers, has, used, without};
use crate::progress::Progress;
use policy_book::{Assign, Course, Plan, StepSet};
use refutation_tree::Tree;
use std::alloc::{AllocError, Global};
use wf_names::FlowId;
use wsp_solver::{Outcome, solve};

/// Why a case can or cannot be completed.
#[derive(Drop)]
pub enum Why {
    /// It can, by this valid plan.
    Plan(Plan),
    /// It cannot: each two of these steps want different users, and fewer users have or may get
    /// them.
    Crowd(StepList),
    /// It cannot: these rules cannot be met together, though they can without any one of them.
    Clash(RuleList),
}

/// Why a case can or cannot be completed. A crowd is told before rules are; that one is found where
/// there is one is not promised.
pub fn why_of(alloc: Global, case: &Progress) -> Result<Why, AllocError>
    ensures { IfOk result (in_case IsWhy case.now) }
{
    match find_crowd(alloc, case.course, case.users)? {
        Some(steps) => Ok(Why::Crowd(steps)),
        None => plan_or_clash(alloc, case),
    }
}

/// Why a workflow can or cannot be done from its start.
pub fn why_at_start(alloc: Global, course: &Course) -> Result<Why, AllocError>
    ensures { IfOk result (IsWhy (problem_in course.now) no_users no_steps) }
{
    let (users, done) = (Assign::empty(), StepSet::empty());
    let case = Progress {
        course,
        users: &users,
        done: &done,
    };
    why_of(alloc, &case)
}

// A plan, or rules that cannot be met together.
fn plan_or_clash(alloc: Global, case: &Progress) -> Result<Why, AllocError>
    ensures { IfOk result (in_case IsWhy case.now) }
{
    match solve(
        alloc,
        case.course.policy,
        case.course.number,
        case.users,
        case.done,
    )? {
        Outcome::Plan(plan) => Ok(Why::Plan(plan)),
        Outcome::Refuted(tree) => {
            let rules = core(alloc, case, &tree)?;
            Ok(Why::Clash(rules))
        }
    }
}

// Rules that cannot be met together, though they can without any one of them.
fn core(alloc: Global, case: &Progress, tree: &Tree) -> Result<RuleList, AllocError>
    requires { in_case HasStarted case.now tree.now }
    ensures { IfOk result (in_case IsCore case.now) }
{
    let rules = first_rules(alloc, case, tree)?;
    let left = fewest(alloc, case, rules)?;
    Ok(left)
}

// The rules at the leaves of a tree that refutes under all rules.
fn first_rules(alloc: Global, case: &Progress, tree: &Tree) -> Result<RuleList, AllocError>
    requires { in_case HasStarted case.now tree.now }
    ensures { IfOk result (in_case IsBlocked case.now) }
{
    let count = case.course.rules().len();
    let all = all_numbers(alloc, count)?;
    let rules = used(alloc, &all, tree)?;
    Ok(rules)
}

// Of rules that cannot be met together those that are left when each was tried in turn.
fn fewest(alloc: Global, case: &Progress, rules: RuleList) -> Result<RuleList, AllocError>
    requires { in_case IsBlocked case.now rules }
    ensures { IfOk result (in_case IsCore case.now) }
{
    let mut left = rules;
    let count = case.course.rules().len();
    'rules: for k in 0..count {
        left = tried(alloc, case, left, k as u8)?;
    }
    Ok(left)
}

// The same rules; or those without one of them that still cannot be met together.
fn tried(alloc: Global, case: &Progress, numbers: RuleList, k: u8) -> Result<RuleList, AllocError>
    requires { in_case IsBlocked case.now numbers }
    ensures { IfOk result (in_case HasTried case.now numbers k) }
{
    if !has(&numbers, k) {
        return Ok(numbers);
    }
    let _ = case.course.rules();
    let fewer = without(alloc, &numbers, k)?;
    match solve_with(alloc, case, &fewer)? {
        Outcome::Plan(_) => Ok(numbers),
        Outcome::Refuted(tree) => {
            let used = used(alloc, &fewer, &tree)?;
            Ok(used)
        }
    }
}

// What a search finds under the rules of these numbers alone.
fn solve_with(alloc: Global, case: &Progress, numbers: &RuleList) -> Result<Outcome, AllocError>
    requires { length numbers.now ≤ RULE_LIMIT }
    ensures { IfOk result (HasSolved (problem_with (problem_in case.now.course.now) numbers.now)
        case.now.users.now case.now.done.now) }
{
    let left = with_rules(alloc, case.course, numbers)?;
    solve(alloc, &left, FlowId(0), case.users, case.done)
}
