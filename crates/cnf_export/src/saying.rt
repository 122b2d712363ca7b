//! The flags of a model that says a plan, part by part.
ghost use Rattle.std.specs.Prelude.{◌≡◌, ◌≤◌, ◌<◌, ◌==◌, ◌+◌, ◌++◌, ℕ, suc, cond, nat_le, nat_lt};
ghost use Rattle.std.specs.Prelude.{map, Bool, OnOk, IfOk};
ghost use Rattle.wf_names.specs.UserSets.{count_below};
ghost use Rattle.constraint_forms.specs.Assign.{planned};
ghost use Rattle.cnf_export.specs.Laws.Encodings.{height, numbers};
ghost use Rattle.cnf_export.specs.Models.{has_some};
ghost use Rattle.cnf_export.specs.Saying.{Says, count_flags, grid, rule_flags, rules_flags};

use crate::Model;
use constraint_forms::{Rule, Rules, StepSet};
use policy_book::Plan;
use std::alloc::AllocError;
use wf_names::StepId;

/// A plan, and how many users there are.
#[derive(Clone, Copy)]
pub(crate) struct Planned<'a> {
    pub(crate) plan: &'a Plan,
    pub(crate) users: u16,
}

// The user whom a plan gives a step.
fn user_of(plan: &Plan, s: StepId) -> u16
    ensures { result ≡ planned plan.now s }
{
    if s.0 < plan.len() { plan.at(s).0 } else { 0 }
}

// What a test says of each of the first `n` numbers.
fn say_each<F: Fn(u16) -> bool>(n: u16, test: F, into: &mut Model) -> Result<(), AllocError>
    requires { F.IsAlwaysCallable test }
    ensures { (said : ℕ → Bool) → Says (F.post test) n said
        → OnOk result (into.new ≡ into.old ++ map said (numbers 0 n)) }
{
    'numbers: for k in 0..n {
        into.push(test(k))?;
    }
    Ok(())
}

impl Planned<'_> {
    /// Of each step and user, whether the step has the user.
    pub(crate) fn say_users(&self, steps: u8, into: &mut Model) -> Result<(), AllocError>
        ensures { OnOk result (into.new
            ≡ into.old ++ grid (λ s u. planned self.now.plan.now s == u) steps self.now.users) }
    {
        'steps: for s in 0..steps {
            say_user(user_of(self.plan, StepId(s)), self.users, into)?;
        }
        Ok(())
    }

    /// Of each step and user, whether the step has the user or one before.
    pub(crate) fn say_until(&self, steps: u8, into: &mut Model) -> Result<(), AllocError>
        ensures { OnOk result (into.new ≡ into.old
            ++ grid (λ s u. nat_le (planned self.now.plan.now s) u) steps self.now.users) }
    {
        'steps: for s in 0..steps {
            say_from(user_of(self.plan, StepId(s)), self.users, into)?;
        }
        Ok(())
    }

    /// What the rules that count are asked.
    pub(crate) fn say_rules(&self, rules: &Rules, into: &mut Model) -> Result<(), AllocError>
        ensures { OnOk result (into.new
            ≡ into.old ++ rules_flags self.now.users self.now.plan.now rules.now) }
    {
        'rules: for k in 0..rules.len() {
            self.say_rule(rules.get(k), into)?;
        }
        Ok(())
    }

    fn say_rule(&self, rule: &Rule, into: &mut Model) -> Result<(), AllocError>
        ensures { OnOk result (into.new
            ≡ into.old ++ rule_flags self.now.users self.now.plan.now rule.now) }
    {
        match *rule {
            Rule::Pair { .. } => Ok(()),
            Rule::SomeOf { .. } => Ok(()),
            Rule::AllOf { .. } => Ok(()),
            Rule::SomeTo { .. } => Ok(()),
            Rule::AllTo { .. } => Ok(()),
            Rule::AtMost { limit, group } => self.say_count(limit as u16 + 1, &group, into),
            Rule::AtLeast { limit, group } => self.say_count(limit as u16, &group, into),
        }
    }

    fn say_count(&self, high: u16, group: &StepSet, into: &mut Model) -> Result<(), AllocError>
        ensures { OnOk result (into.new
            ≡ into.old ++ count_flags self.now.users self.now.plan.now high group.now) }
    {
        self.say_takers(group, into)?;
        self.say_counts(high, group, into)
    }

    fn say_takers(&self, group: &StepSet, into: &mut Model) -> Result<(), AllocError>
        ensures { OnOk result (into.new ≡ into.old
            ++ map (has_some group.now self.now.plan.now) (numbers 0 self.now.users)) }
    {
        say_each(self.users, |u| takes_some(self.plan, group, u), into)
    }

    fn say_counts(&self, high: u16, group: &StepSet, into: &mut Model) -> Result<(), AllocError>
        ensures { OnOk result (into.new ≡ into.old ++ grid (λ u j. nat_lt j
            (count_below (suc u) (has_some group.now self.now.plan.now))) self.now.users high) }
    {
        let mut count = 0u16;
        'users: for u in 0..self.users {
            count = count_on(count, takes_some(self.plan, group, u));
            say_below(count, high, into)?;
        }
        Ok(())
    }
}

fn say_user(v: u16, users: u16, into: &mut Model) -> Result<(), AllocError>
    ensures { OnOk result (into.new ≡ into.old ++ map (λ u. v == u) (numbers 0 users)) }
{
    say_each(users, |u| v == u, into)
}

fn say_from(v: u16, users: u16, into: &mut Model) -> Result<(), AllocError>
    ensures { OnOk result (into.new ≡ into.old ++ map (λ u. nat_le v u) (numbers 0 users)) }
{
    say_each(users, |u| v <= u, into)
}

// One more, where there is one.
fn count_on(count: u16, more: bool) -> u16
    requires { count < 65535 }
    ensures { result ≡ count + cond more 1 0 }
{
    if more { count + 1 } else { count }
}

fn say_below(count: u16, high: u16, into: &mut Model) -> Result<(), AllocError>
    ensures { OnOk result (into.new ≡ into.old ++ map (λ j. nat_lt j count) (numbers 0 high)) }
{
    say_each(high, |j| j < count, into)
}

// Whether a user has some step of a group.
fn takes_some(plan: &Plan, group: &StepSet, u: u16) -> bool
    ensures { result ≡ has_some group.now plan.now u }
{
    let limit = group.limit();
    'members: for t in 0..limit {
        let step = StepId(t as u8);
        if group.has(step) && user_of(plan, step) == u {
            return true;
        }
    }
    false
}
