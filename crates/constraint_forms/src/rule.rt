//! The forms of rules, and what relates users.
ghost use Rattle.std.specs.Prelude.{◌≡◌, ℕ, Bool};
ghost use Rattle.constraint_forms.specs.Rules.{names, reads, relation_of};

use crate::StepSet;
use wf_names::{RelId, StepId, UserId};

/// A rule of a workflow: it names some of its steps, and reads relations.
#[derive(Clone, Copy)]
pub enum Rule {
    /// The user of the first step is related to the user of the second.
    Pair {
        rho: RelId,
        first: StepId,
        second: StepId,
    },
    /// The user of some step of the group is related to the user of the step.
    SomeOf {
        rho: RelId,
        group: StepSet,
        step: StepId,
    },
    /// The user of every step of the group is related to the user of the step.
    AllOf {
        rho: RelId,
        group: StepSet,
        step: StepId,
    },
    /// The user of the step is related to the user of some step of the group.
    SomeTo {
        rho: RelId,
        step: StepId,
        group: StepSet,
    },
    /// The user of the step is related to the user of every step of the group.
    AllTo {
        rho: RelId,
        step: StepId,
        group: StepSet,
    },
    /// The steps of the group have at most `limit` users.
    AtMost {
        limit: u8,
        group: StepSet,
    },
    /// The steps of the group have at least `limit` users.
    AtLeast {
        limit: u8,
        group: StepSet,
    },
}

impl Rule {
    /// Whether a step is one of the rule's.
    pub fn names(&self, s: StepId) -> bool
        ensures { result ≡ names self.now s }
    {
        match *self {
            Rule::Pair { first, second, .. } => s == first || s == second,
            Rule::SomeOf { group, step, .. } => s == step || group.has(s),
            Rule::AllOf { group, step, .. } => s == step || group.has(s),
            Rule::SomeTo { group, step, .. } => s == step || group.has(s),
            Rule::AllTo { group, step, .. } => s == step || group.has(s),
            Rule::AtMost { group, .. } => group.has(s),
            Rule::AtLeast { group, .. } => group.has(s),
        }
    }

    /// The relation that the rule reads, if it reads one.
    pub fn relation(&self) -> Option<RelId>
        ensures { result ≡ relation_of self.now }
    {
        match *self {
            Rule::Pair { rho, .. } => Some(rho),
            Rule::SomeOf { rho, .. } => Some(rho),
            Rule::AllOf { rho, .. } => Some(rho),
            Rule::SomeTo { rho, .. } => Some(rho),
            Rule::AllTo { rho, .. } => Some(rho),
            Rule::AtMost { .. } => None,
            Rule::AtLeast { .. } => None,
        }
    }

    /// Whether the rule reads a relation: who is related by it may matter to the rule.
    pub fn reads(&self, rho: RelId) -> bool
        ensures { result ≡ reads self.now rho }
    {
        match self.relation() {
            Some(own) => rho == own,
            None => false,
        }
    }
}

/// What tells which users are related.
pub trait Holds {
    ghost related: { Self → ℕ → ℕ → ℕ → Bool };

    /// Whether a relation holds from the user `u` to the user `v`.
    fn holds(&self, rho: RelId, u: UserId, v: UserId) -> bool
        ensures { result ≡ related self.now rho u v };
}
