//! The clauses of a case, one after the other.
ghost use Rattle.std.specs.Prelude.{◌≡◌, ◌≤◌, ◌<◌, ℕ, List, length, false, true, Bool, OnOk, OnErr};
ghost use Rattle.std.specs.Prelude.{IfOk, IsErrOf};
ghost use Rattle.policy_book.specs.Policies.{problem_of};
ghost use Rattle.policy_book.specs.Laws.Plans.{IsWithin};
ghost use Rattle.cnf_export.specs.Laws.Encodings.{clauses_of, literals, variables_of};
ghost use Rattle.cnf_export.specs.Positions.{HasGiven};
ghost use Rattle.cnf_export.specs.Fault.{too_large};
ghost use Rattle.cnf_export.specs.declared.tally.TheConstants.{LITERAL_LIMIT};

use crate::group::Group;
use crate::grouping::{all_blocks, groups_of};
use crate::making::terms_of;
use crate::position::{Position, give, start};
use crate::sizes::step_count;
use crate::tally::count;
use crate::terms::Terms;
use crate::{CnfFault, Literals};
use constraint_forms::{Assign, StepSet};
use policy_book::{Course, Policy};
use std::alloc::{AllocError, Global};
use std::marker::Model;
use wf_names::FlowId;

/// An encoder: it gives the clauses in their order, and holds one part of them at a time.
#[derive(Drop)]
pub struct Encoder {
    terms: Terms,
    groups: Vec<Group>,
    at: Position,
    clauses: u32,
    variables: u32,
}

impl Model for Encoder {
    ghost use Rattle.std.specs.Prelude.{◌≡◌, length};
    ghost use Rattle.cnf_export.specs.Encoders.{EncoderShape, encoder_view};

    ghost Value = { EncoderShape };

    ghost view = { λ x. encoder_view x.terms x.groups.items x.at x.variables };

    ghost invariant = { λ x. x.clauses
        ≡ length (encoder_view x.terms x.groups.items x.at x.variables).all };
}

impl Encoder {
    /// An encoder for a case before its first clause: for a workflow, the steps that are assigned,
    /// and those of them that are finished.
    pub fn new(
        alloc: Global,
        p: &Policy,
        f: FlowId,
        a: &Assign,
        done: &StepSet,
    ) -> Result<Encoder, CnfFault>
        requires flow { f < length p.now.flows }
        requires within { IsWithin (problem_of p.now f) a.now }
        ensures all { IfOk result (λ e. e.all ≡ clauses_of (problem_of p.now f) a.now done.now) }
        ensures left { IfOk result (λ e. e.left ≡ e.all) }
        ensures variables { IfOk result (λ e. e.variables ≡ variables_of (problem_of p.now f)) }
        ensures few { OnOk result (literals
            (clauses_of (problem_of p.now f) a.now done.now) ≤ LITERAL_LIMIT) }
        ensures large { IsErrOf result too_large
            → LITERAL_LIMIT < literals (clauses_of (problem_of p.now f) a.now done.now) }
    {
        let course = Course {
            policy: p,
            number: f,
        };
        let terms = terms_of(alloc, &course, a, done)?;
        let steps = step_count(&course);
        let groups = groups_of(alloc, steps, course.rules())?;
        let variables = terms.block(all_blocks(steps, course.rules()));
        let mut at = Position::before(alloc);
        let mut one = Literals::new(alloc);
        let clauses = count(&terms, &groups, &mut at, &mut one)?;
        start(&mut at);
        Ok(Encoder {
            terms,
            groups,
            at,
            clauses,
            variables,
        })
    }

    /// How many variables there are; they are numbered from 1.
    pub fn variables(&self) -> u32
        ensures { result ≡ self.now.variables }
    {
        self.variables
    }

    /// How many clauses there are.
    pub fn clauses(&self) -> u32
        ensures { result ≡ length self.now.all }
    {
        self.clauses
    }

    /// The next clause, in place of what was in the list; or that there is none, at the end.
    pub fn next(&mut self, into: &mut Literals) -> Result<bool, AllocError>
        ensures given { IfOk result (λ more. HasGiven self.old.left more into.new self.new.left) }
        ensures unchanged { OnErr result (self.new.left ≡ self.old.left) }
        ensures all { self.new.all ≡ self.old.all }
        ensures variables { self.new.variables ≡ self.old.variables }
    {
        give(&self.terms, &self.groups, &mut self.at, into)
    }

    /// Back to before the first clause.
    pub fn rewind(&mut self)
        ensures left { self.new.left ≡ self.old.all }
        ensures all { self.new.all ≡ self.old.all }
        ensures variables { self.new.variables ≡ self.old.variables }
    {
        start(&mut self.at);
    }
}
