//! The policy over its parts.
ghost use Rattle.std.specs.Prelude.{◌≡◌, ◌<◌, ◌≤◌, ◌+◌, ◌↔◌, ℕ, List, [], ◌∷◌, ◌++◌, length};
ghost use Rattle.std.specs.Prelude.{is_some, true, false, IfOk, IfSome, OnOk, OnErr, IsErrOf};
ghost use Rattle.std.specs.Prelude.{IsTrue, not};
ghost use Rattle.std.specs.FinSet as set;
ghost use Rattle.wf_names.specs.declared.limits.TheConstants.{FLOW_LIMIT, RULE_LIMIT, USER_LIMIT};
ghost use Rattle.rbac_state.specs.Laws.Rosters.{has_role};
ghost use Rattle.wf_names.specs.Table.{place_of};
ghost use Rattle.wf_names.specs.UserSets.{has_user};
ghost use Rattle.user_relations.specs.Laws.Relations.{pairs_of};
ghost use Rattle.user_relations.specs.Kinds.{AnswersFault, relate_fault, unrelate_fault};
ghost use Rattle.policy_book.specs.Policies.{flow_at, is_authorised, problem_of, with_roster};
ghost use Rattle.policy_book.specs.Policies.{IsNextFlow, with_pairs, with_permits, with_flow};
ghost use Rattle.policy_book.specs.Laws.Plans.{IsWellFormed};
ghost use Rattle.policy_book.specs.Laws.Refuting.{is_unassigned};
ghost use Rattle.policy_book.specs.Candidates.{is_candidate};
ghost use Rattle.constraint_forms.specs.Assign.{is_member};
ghost use Rattle.policy_book.specs.Duties.{AreDuties, authorised_steps};
ghost use Rattle.policy_book.specs.Laws.Facts.{AreOfUsers, AreSoundRules, IsSoundPolicy};
ghost use Rattle.policy_book.specs.Laws.Facts.{PermitsRolesBelow};

use crate::authority::holders_of_some;
use crate::candidates::keep_unbroken;
use crate::duties::Duties;
use crate::kept::{copied, make_room, settle_all};
use crate::workflow::Workflow;
use constraint_forms::{Assign, Rules, StepSet};
use rbac_state::{Roster, RosterFault};
use std::alloc::{AllocError, Global};
use std::marker::Model;
use user_relations::{RelationFault, Relations};
use wf_names::{
    FLOW_LIMIT, FlowId, Name, NameFault, NameTable, ROLE_LIMIT, RelId, RoleId, STEP_LIMIT, StepId,
    USER_LIMIT, UserId, UserSet,
};
use workflow_schema::Flow;

/// A policy: a roster, relations, workflows with their rules, and the role of its administrators.
#[derive(Drop)]
pub struct Policy {
    roster: Roster,
    relations: Relations,
    names: NameTable,
    flows: Vec<Workflow>,
    // Who is authorised for what in each workflow, as the roster and the permissions say.
    duties: Vec<Duties>,
    admin: RoleId,
    alloc: Global,
}

impl Model for Policy {
    ghost use Rattle.policy_book.specs.Laws.Shapes.{PolicyShape, policy_code};

    ghost Value = { PolicyShape };

    ghost coded = { policy_code };

    ghost use Rattle.policy_book.specs.Stored.{shape_of};
    ghost use Rattle.policy_book.specs.Duties.{IsBook};

    ghost view = { λ p. shape_of p.roster p.relations p.names p.flows.items p.admin };

    ghost invariant = { λ p. IsBook p.roster p.relations p.names p.flows.items p.admin
        p.duties.items };
}

impl Policy {
    /// A policy with no workflow yet.
    pub fn start(
        alloc: Global,
        roster: Roster,
        relations: Relations,
        admin: RoleId,
    ) -> Result<Policy, AllocError>
        requires related { AreOfUsers (length roster.users) relations }
        requires admin { admin < length roster.roles }
        ensures { IfOk result (λ p. p ≡ record {
          roster = roster;
          relations = relations;
          flow_names = [];
          flows = [];
          admin = admin;
        }) }
    {
        let (users, roles) = (roster.users().len(), roster.roles().len());
        prove!(users <= USER_LIMIT && roles <= ROLE_LIMIT);
        Ok(Policy {
            roster,
            relations,
            names: NameTable::new(alloc, FLOW_LIMIT)?,
            flows: Vec::new(alloc),
            duties: Vec::new(alloc),
            admin,
            alloc,
        })
    }

    /// Adds a workflow, which is not retired, and answers its number.
    pub fn add_flow(&mut self, name: Name, flow: Flow, rules: Rules) -> Result<FlowId, NameFault>
        requires roles { PermitsRolesBelow (length self.old.roster.roles) flow }
        requires few { length rules ≤ RULE_LIMIT }
        requires ruled { AreSoundRules (length flow.steps) (length self.old.relations) rules }

        ensures place { IfOk result (IsNextFlow self.old name) }
        ensures added { OnOk result (self.new ≡ record self.old {
          flow_names = self.old.flow_names ++ name ∷ [];
          flows = self.old.flows ++ record { flow = flow; rules = rules; retired = false } ∷ [];
        }) }

        ensures twice { IsErrOf result NameFault.Twice
            ↔ (is_some (place_of self.old.flow_names name) ≡ true) }
        ensures full { IsErrOf result NameFault.Full
            ↔ ((is_some (place_of self.old.flow_names name) ≡ false)
            × (length self.old.flows ≡ FLOW_LIMIT)) }
        ensures unchanged { OnErr result (self.new ≡ self.old) }
    {
        let place = free_number(&self.names, &name, FLOW_LIMIT)?;
        let Ok(kept) = Duties::new(self.alloc, &self.roster, &flow) else {
            return Err(NameFault::NoMemory);
        };
        let Ok(workflow) = Workflow::new(self.alloc, flow, rules) else {
            return Err(NameFault::NoMemory);
        };
        put_flow(
            &mut self.names,
            &mut self.flows,
            &mut self.duties,
            name,
            workflow,
            kept,
        )?;
        Ok(FlowId(place as u8))
    }

    /// Whether a user is authorised for a step of a workflow: some role is held by the user and
    /// permitted for the step.
    pub fn authorised(&self, f: FlowId, s: StepId, u: UserId) -> bool
        requires flow { f < length self.now.flows }
        requires step { s < length (flow_at self.now f).flow.steps }
        requires user { u < length self.now.roster.users }
        ensures { result ≡ is_authorised self.now f s u }
    {
        self.kept(f).row(s).has(u)
    }

    /// The users who are authorised for a step of a workflow. Takes no memory.
    pub fn authorised_users(&self, f: FlowId, s: StepId) -> UserSet
        requires flow { f < length self.now.flows }
        ensures authorised { (u : ℕ) → has_user result u ≡ is_authorised self.now f s u }
        ensures known { (u : ℕ) → has_user result u ≡ true → u < length self.now.roster.users }
    {
        if (s.0 as u16) < self.flow(f).steps().len() {
            *self.authorised_row(f, s)
        } else {
            UserSet::empty()
        }
    }

    /// The same where the workflow has the step, as the policy keeps them.
    pub fn authorised_row(&self, f: FlowId, s: StepId) -> &UserSet
        requires flow { f < length self.now.flows }
        requires step { s < length (flow_at self.now f).flow.steps }
        ensures authorised { (u : ℕ) → has_user result.now u ≡ is_authorised self.now f s u }
        ensures known { (u : ℕ) → has_user result.now u ≡ true → u < length self.now.roster.users }
    {
        self.kept(f).row(s)
    }

    /// The steps of a workflow for which a user is authorised.
    #[tactic(auto, using(crate::proofs::Rows::steps_same, crate::proofs::Rows::steps_member))]
    pub fn duties(&self, f: FlowId, u: UserId) -> StepSet
        requires flow { f < length self.now.flows }
        requires user { u < length self.now.roster.users }
        ensures steps { result ≡ authorised_steps (problem_of self.now f) u }
        ensures each { (s : ℕ) → s < length (flow_at self.now f).flow.steps
            → is_member result s ≡ is_authorised self.now f s u }
    {
        self.kept(f).steps(u)
    }

    // Who is authorised for what in a workflow.
    fn kept(&self, f: FlowId) -> &Duties
        requires { f < length self.now.flows }
        ensures right { AreDuties self.now.roster (flow_at self.now f).flow result.now }
        ensures known { (s u : ℕ) → is_authorised self.now f s u ≡ true
            → u < length self.now.roster.users }
    {
        let users = self.roster.users().len();
        prove!(users <= USER_LIMIT);
        &self.duties[f.0 as usize]
    }

    /// The users who are authorised for a step that is not assigned, and to whom it can be given
    /// without falsifying a rule. Takes no memory.
    pub fn candidates(&self, f: FlowId, s: StepId, a: &Assign) -> UserSet
        requires flow { f < length self.now.flows }
        requires free { IsTrue (is_unassigned (problem_of self.now f) a.now s) }
        ensures { (u : ℕ) → has_user result u ≡ is_candidate (problem_of self.now f) a.now s u }
    {
        let steps = self.flow(f).steps().len();
        prove!(steps as usize <= STEP_LIMIT);
        let mut users = self.authorised_users(f, s);
        keep_unbroken(self, f, s, a, &mut users);
        users
    }

    /// The users, the roles and who holds which.
    pub fn roster(&self) -> &Roster
        ensures roster { result.now ≡ self.now.roster }
        ensures admin { self.now.admin < length self.now.roster.roles }
    {
        &self.roster
    }

    /// The relations between users.
    pub fn relations(&self) -> &Relations
        ensures relations { result.now ≡ self.now.relations }
        ensures users { AreOfUsers (length self.now.roster.users) self.now.relations }
    {
        &self.relations
    }

    /// A workflow's steps, their order and who may perform them.
    pub fn flow(&self, f: FlowId) -> &Flow
        requires { f < length self.now.flows }
        ensures flow { result.now ≡ (flow_at self.now f).flow }
        ensures roles { PermitsRolesBelow (length self.now.roster.roles) (flow_at self.now f).flow }
    {
        let workflow = &self.flows[f.0 as usize];
        &workflow.flow
    }

    /// A workflow's rules.
    pub fn rules(&self, f: FlowId) -> &Rules
        requires { f < length self.now.flows }
        ensures rules { result.now ≡ (flow_at self.now f).rules }
        ensures few { length (flow_at self.now f).rules ≤ RULE_LIMIT }
        ensures ruled { AreSoundRules (length (flow_at self.now f).flow.steps)
            (length self.now.relations) (flow_at self.now f).rules }
        ensures well_formed { IsWellFormed (problem_of self.now f) }
    {
        let workflow = &self.flows[f.0 as usize];
        workflow.rules.get()
    }

    /// Whether a workflow is retired: no case of it is opened any more.
    pub fn retired(&self, f: FlowId) -> bool
        requires { f < length self.now.flows }
        ensures { result ≡ (flow_at self.now f).retired }
    {
        let retiring = &self.flows[f.0 as usize];
        retiring.retired
    }

    /// The role of the administrators.
    pub fn admin(&self) -> RoleId
        ensures admin { result ≡ self.now.admin }
        ensures within { self.now.admin < length self.now.roster.roles }
        ensures sound { IsSoundPolicy self.now }
    {
        self.admin
    }

    /// The number of the workflow with a name.
    pub fn find_flow(&self, name: &Name) -> Option<FlowId>
        ensures place { result ≡ place_of self.now.flow_names name.now }
        ensures within { IfSome result (λ f. f < length self.now.flows) }
    {
        match self.names.find(name) {
            Some(place) => Some(FlowId(place as u8)),
            None => None,
        }
    }

    /// The names of the workflows, at their numbers.
    pub fn flows(&self) -> &NameTable
        ensures names { result.now.names ≡ self.now.flow_names }
        ensures count { length self.now.flow_names ≡ length self.now.flows }
        ensures within { length self.now.flows ≤ FLOW_LIMIT }
    {
        &self.names
    }

    /// A policy that is equal to `self`.
    pub fn copy(&self) -> Result<Policy, AllocError>
        ensures { IfOk result (λ p. p ≡ self.now) }
    {
        let (roster, relations) = copy_people(&self.roster, &self.relations)?;
        let (names, flows) = copy_flows(self.alloc, &self.names, &self.flows)?;
        let duties = copied(self.alloc, &self.duties)?;
        Ok(Policy {
            roster,
            relations,
            names,
            flows,
            duties,
            admin: self.admin,
            alloc: self.alloc,
        })
    }

    /// Adds a user without roles, and answers their number.
    pub fn add_user(&mut self, name: Name) -> Result<UserId, NameFault>
        ensures number { IfOk result (λ u. u ≡ length self.old.roster.users) }
        ensures added { OnOk result (self.new
            ≡ with_roster self.old (record self.old.roster
            { users = self.old.roster.users ++ name ∷ [] })) }

        ensures twice { IsErrOf result NameFault.Twice
            ↔ (is_some (place_of self.old.roster.users name) ≡ true) }
        ensures full { IsErrOf result NameFault.Full
            ↔ ((is_some (place_of self.old.roster.users name) ≡ false)
            × (length self.old.roster.users ≡ USER_LIMIT)) }
        ensures unchanged { OnErr result (self.new ≡ self.old) }
    {
        let number = free_number(self.roster.users(), &name, USER_LIMIT)?;
        let Ok(()) = make_room(&mut self.duties, UserId(number)) else {
            return Err(NameFault::NoMemory);
        };
        match self.roster.add_user(name) {
            Ok(u) => Ok(u),
            Err(fault) => Err(fault),
        }
    }

    /// Gives a user a role.
    pub fn enrol(&mut self, u: UserId, r: RoleId) -> Result<(), RosterFault>
        requires user { u < length self.old.roster.users }
        requires role { r < length self.old.roster.roles }
        ensures enrolled { OnOk result (self.new
            ≡ with_roster self.old (record self.old.roster
            { members = set.insert self.old.roster.members (u, r) })) }

        ensures already { IsErrOf result RosterFault.Already
            ↔ (has_role self.old.roster u r ≡ true) }
        ensures absent { ¬ IsErrOf result RosterFault.Absent }
        ensures unchanged { OnErr result (self.new ≡ self.old) }
    {
        self.roster.enrol(u, r)?;
        settle_all(&self.roster, &self.flows, u, r, &mut self.duties);
        Ok(())
    }

    /// Takes a role away from a user.
    pub fn dismiss(&mut self, u: UserId, r: RoleId) -> Result<(), RosterFault>
        requires user { u < length self.old.roster.users }
        requires role { r < length self.old.roster.roles }
        ensures dismissed { OnOk result (self.new
            ≡ with_roster self.old (record self.old.roster
            { members = set.remove self.old.roster.members (u, r) })) }
        ensures held { OnOk result (has_role self.old.roster u r ≡ true) }

        ensures absent { IsErrOf result RosterFault.Absent
            ↔ (has_role self.old.roster u r ≡ false) }
        ensures already { ¬ IsErrOf result RosterFault.Already }
        ensures unchanged { OnErr result (self.new ≡ self.old) }
    {
        self.roster.dismiss(u, r)?;
        settle_all(&self.roster, &self.flows, u, r, &mut self.duties);
        Ok(())
    }

    /// Takes a role away from a user where the user has it.
    pub fn take_role(&mut self, u: UserId, r: RoleId) -> Result<(), AllocError>
        requires user { u < length self.old.roster.users }
        requires role { r < length self.old.roster.roles }
        ensures { OnOk result (self.new ≡ with_roster self.old (record self.old.roster
            { members = set.remove self.old.roster.members (u, r) })) }
    {
        if !self.roster().has(u, r) {
            return Ok(());
        }
        match self.dismiss(u, r) {
            Ok(()) => Ok(()),
            Err(RosterFault::NoMemory) => Err(AllocError),
            Err(_) => unreachable!(),
        }
    }

    /// Puts a pair of users into a listed relation.
    pub fn relate(&mut self, rho: RelId, u: UserId, v: UserId) -> Result<(), RelationFault>
        requires first { u < length self.old.roster.users }
        requires second { v < length self.old.roster.users }
        ensures related { OnOk result (self.new
            ≡ with_pairs self.old rho (set.insert (pairs_of self.old.relations rho) (u, v))) }
        ensures fault { AnswersFault (relate_fault self.old.relations rho u v) result }
        ensures unchanged { OnErr result (self.new ≡ self.old) }
    {
        match self.relations.relate(rho, u, v) {
            Ok(()) => Ok(()),
            Err(fault) => Err(fault),
        }
    }

    /// Takes a pair of users out of a listed relation.
    pub fn unrelate(&mut self, rho: RelId, u: UserId, v: UserId) -> Result<(), RelationFault>
        requires first { u < length self.old.roster.users }
        requires second { v < length self.old.roster.users }
        ensures unrelated { OnOk result (self.new
            ≡ with_pairs self.old rho (set.remove (pairs_of self.old.relations rho) (u, v))) }
        ensures fault { AnswersFault (unrelate_fault self.old.relations rho u v) result }
        ensures unchanged { OnErr result (self.new ≡ self.old) }
    {
        match self.relations.unrelate(rho, u, v) {
            Ok(()) => Ok(()),
            Err(fault) => Err(fault),
        }
    }

    /// Permits a step of a workflow to a role, and answers whether that changes anything.
    pub fn permit(&mut self, f: FlowId, r: RoleId, s: StepId) -> bool
        requires flow { f < length self.old.flows }
        requires role { r < length self.old.roster.roles }
        requires step { s < length (flow_at self.old f).flow.steps }
        ensures permitted { self.new ≡ with_permits self.old f
            (set.insert (flow_at self.old f).flow.permits (r, s)) }
        ensures changed { result ≡ not (set.contains (flow_at self.old f).flow.permits (r, s)) }
        ensures unchanged { result ≡ false → self.new ≡ self.old }
    {
        let workflow = &mut self.flows[f.0 as usize];
        let changed = workflow.flow.permit(r, s);
        let row = holders_of_some(&self.roster, &workflow.flow, s);
        let kept = &mut self.duties[f.0 as usize];
        kept.set_row(s, row);
        changed
    }

    /// Forbids a step of a workflow to a role, and answers whether that changes anything.
    pub fn forbid(&mut self, f: FlowId, r: RoleId, s: StepId) -> bool
        requires flow { f < length self.old.flows }
        requires role { r < length self.old.roster.roles }
        requires step { s < length (flow_at self.old f).flow.steps }
        ensures forbidden { self.new ≡ with_permits self.old f
            (set.remove (flow_at self.old f).flow.permits (r, s)) }
        ensures changed { result ≡ set.contains (flow_at self.old f).flow.permits (r, s) }
        ensures unchanged { result ≡ false → self.new ≡ self.old }
    {
        let workflow = &mut self.flows[f.0 as usize];
        let changed = workflow.flow.forbid(r, s);
        let row = holders_of_some(&self.roster, &workflow.flow, s);
        let kept = &mut self.duties[f.0 as usize];
        kept.set_row(s, row);
        changed
    }

    /// Retires a workflow, which it stays.
    pub fn retire(&mut self, f: FlowId)
        requires { f < length self.old.flows }
        ensures { self.new ≡ with_flow self.old f (record (flow_at self.old f) { retired = true }) }
    {
        let retiring = &mut self.flows[f.0 as usize];
        retiring.retired = true;
    }
}

// The number that a new name gets in a table, where it is new and there is room.
fn free_number(names: &NameTable, name: &Name, limit: u16) -> Result<u16, NameFault>
    requires { names.now.limit ≡ limit }
    ensures place { IfOk result (λ n. n ≡ length names.now.names) }
    ensures fresh { OnOk result (is_some (place_of names.now.names name.now) ≡ false) }
    ensures room { OnOk result (length names.now.names < limit) }
    ensures twice { IsErrOf result NameFault.Twice
        ↔ (is_some (place_of names.now.names name.now) ≡ true) }
    ensures full { IsErrOf result NameFault.Full
        ↔ ((is_some (place_of names.now.names name.now) ≡ false)
        × (length names.now.names ≡ limit)) }
    ensures memory { ¬ IsErrOf result NameFault.NoMemory }
{
    if names.find(name).is_some() {
        return Err(NameFault::Twice);
    }
    let count = names.len();
    if count >= limit {
        return Err(NameFault::Full);
    }
    Ok(count)
}

// Adds a workflow with its name and what is kept of it, where there is memory for all.
fn put_flow(
    names: &mut NameTable,
    flows: &mut Vec<Workflow>,
    duties: &mut Vec<Duties>,
    name: Name,
    workflow: Workflow,
    kept: Duties,
) -> Result<(), NameFault>
    ensures named { OnOk result (names.new
        ≡ record names.old { names = names.old.names ++ name ∷ [] }) }
    ensures added { OnOk result (flows.new.items ≡ flows.old.items ++ workflow ∷ []) }
    ensures kept { OnOk result (duties.new.items ≡ duties.old.items ++ kept ∷ []) }
    ensures twice { IsErrOf result NameFault.Twice
        → is_some (place_of names.old.names name) ≡ true }
    ensures full { IsErrOf result NameFault.Full → length names.old.names ≡ names.old.limit }
    ensures unchanged { OnErr result ((names.new ≡ names.old)
        × (flows.new.items ≡ flows.old.items)
        × (duties.new.items ≡ duties.old.items)) }
{
    if flows.reserve(1).is_err() {
        return Err(NameFault::NoMemory);
    }
    if duties.reserve(1).is_err() {
        return Err(NameFault::NoMemory);
    }
    names.add(name)?;
    let Ok(()) = flows.push(workflow) else {
        unreachable!()
    };
    match duties.push(kept) {
        Ok(()) => Ok(()),
        Err(_) => unreachable!(),
    }
}

fn copy_people(roster: &Roster, relations: &Relations) -> Result<(Roster, Relations), AllocError>
    ensures { IfOk result (λ c. (c.0 ≡ roster.now) × (c.1 ≡ relations.now)) }
{
    let users = roster.copy()?;
    Ok((users, relations.copy()?))
}

fn copy_flows(
    alloc: Global,
    names: &NameTable,
    flows: &[Workflow],
) -> Result<(NameTable, Vec<Workflow>), AllocError>
    ensures { IfOk result (λ c. (c.0 ≡ names.now) × (c.1.items ≡ flows.now)) }
{
    let named = names.copy()?;
    Ok((named, copies(alloc, flows)?))
}

// Copies of workflows.
fn copies(alloc: Global, flows: &[Workflow]) -> Result<Vec<Workflow>, AllocError>
    ensures { IfOk result (λ copies. copies.items ≡ flows.now) }
{
    let mut copies = Vec::new(alloc);
    'flows: for workflow in flows {
        copies.push(workflow.copy()?)?;
    }
    Ok(copies)
}
