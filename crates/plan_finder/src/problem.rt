//! What is asked: the steps of a workflow, who may have each, and its rules over rows of bits.
ghost use Rattle.std.specs.Prelude.{◌<◌, length};

use crate::bits::{bit, has_bit, pop};
use crate::rows::{Rows, add_first, add_user, has_user, put, turn, user_at, word_at};
use constraint_forms::{Assign, Rule, Rules, StepSet};
use policy_book::Policy;
use std::alloc::{AllocError, Global};
use user_relations::UserPairs;
use wf_names::{FlowId, RelId, STEP_LIMIT, StepId, UserId, UserSet};

/// Over what a law is.
#[derive(Clone, Copy)]
pub(crate) enum Over {
    /// One user.
    Same,
    /// Two users.
    Other,
    /// A declared relation, by its place among those of the problem; read from the member to the
    /// step, or back.
    Declared(u8, bool),
}

impl Over {
    /// The relation read the other way round.
    pub(crate) fn turned(self) -> Over {
        match self {
            Over::Same => Over::Same,
            Over::Other => Over::Other,
            Over::Declared(at, back) => Over::Declared(at, !back),
        }
    }
}

/// What a law asks of its group.
#[derive(Clone, Copy)]
pub(crate) enum Demand {
    /// Some member is related to the step.
    Some,
    /// Each member is related to the step.
    Each,
    /// The members have this number of users at most.
    AtMost(u32),
    /// The members have this number of users at least.
    AtLeast(u32),
}

/// A rule, as the search sees it.
#[derive(Clone, Copy)]
pub(crate) struct Law {
    pub(crate) demand: Demand,
    pub(crate) over: Over,
    pub(crate) group: u32,
    /// The step; a member where the law has none.
    pub(crate) step: u8,
    /// The group and the step.
    pub(crate) scope: u32,
    /// Whether the law may ask something of a step before another one is assigned.
    asks_alone: bool,
}

impl Law {
    /// Whether the law asks nothing yet of any one step: none of its scope is assigned, all are in
    /// `open`.
    pub(crate) fn is_free(&self, open: u32) -> bool {
        !self.asks_alone && self.scope & !open == 0
    }
}

/// The rows of a relation as a law reads it.
#[derive(Clone, Copy)]
pub(crate) struct Link<'r> {
    pub(crate) places: &'r [u16],
    pub(crate) ahead: &'r Rows,
    back: &'r Rows,
    pub(crate) own: &'r Rows,
}

impl<'r> Link<'r> {
    /// Those to whom a user is related.
    pub(crate) fn ahead(&self, u: u16) -> &[u64] {
        self.ahead.row(place_of(self.places, u))
    }

    /// Those who are related to a user.
    pub(crate) fn back(&self, u: u16) -> &[u64] {
        self.back.row(place_of(self.places, u))
    }

    /// The rows of the relation read the other way round.
    pub(crate) fn turned(self) -> Link<'r> {
        Link {
            ahead: self.back,
            back: self.ahead,
            ..self
        }
    }
}

// The pairs that a policy keeps for a relation: its own, or those of the relation whose complement
// it is.
#[derive(Clone, Copy)]
struct Source<'p> {
    pairs: Option<&'p UserPairs>,
    turned: bool,
}

impl<'p> Source<'p> {
    fn of(p: &'p Policy, rho: RelId) -> Source<'p> {
        let relations = p.relations();
        match relations.complement_of(rho) {
            Some(of) => Source {
                pairs: relations.listed(of),
                turned: true,
            },
            None => Source {
                pairs: relations.listed(rho),
                turned: false,
            },
        }
    }

    fn row(&self, u: u16, back: bool) -> Option<&'p UserSet> {
        match self.pairs {
            Some(pairs) if back => pairs.row_ahead(UserId(u)),
            Some(pairs) => pairs.row_after(UserId(u)),
            None => None,
        }
    }
}

/// A declared relation: for each user whose rows were read those to whom they are related, and
/// those who are related to them; and which of these users are related to themselves.
#[derive(Drop)]
pub(crate) struct Relation {
    rho: RelId,
    /// The steps of the laws over it.
    steps: u32,
    /// The place of each user's rows; 0 where they were not read, and nobody's rows are there.
    places: Vec<u16>,
    /// The last place that was given.
    last: u16,
    ahead: Rows,
    back: Rows,
    own: Rows,
}

impl Relation {
    // Its rows, as they are or read back.
    fn link(&self, back: bool) -> Link<'_> {
        let link = Link {
            places: &self.places,
            ahead: &self.ahead,
            back: &self.back,
            own: &self.own,
        };
        if back { link.turned() } else { link }
    }
}

/// A workflow's steps and rules over the users of its policy.
#[derive(Drop)]
pub(crate) struct Problem {
    pub(crate) steps: u8,
    pub(crate) width: usize,
    pub(crate) laws: Vec<Law>,
    pub(crate) relations: Vec<Relation>,
    /// The users who are authorised for each step.
    pub(crate) allowed: Rows,
    /// All users.
    everyone: Rows,
    /// The laws that name each step.
    naming: [u64; STEP_LIMIT],
    /// The laws over declared relations.
    related: u64,
    /// Whether the rows of all who may have a step were read.
    full: bool,
}

impl Problem {
    /// The rows of a relation, as they are or read back.
    pub(crate) fn link(&self, at: u8, back: bool) -> Option<Link<'_>> {
        match self.relations.get(at as usize) {
            Some(relation) => Some(relation.link(back)),
            None => None,
        }
    }

    /// The problem of a workflow.
    pub(crate) fn new(alloc: Global, p: &Policy, f: FlowId) -> Result<Problem, AllocError>
        requires { f < length p.now.flows }
    {
        let width = width_of(p);
        let mut relations = Vec::new(alloc);
        let laws = read_laws(alloc, p, p.rules(f), &mut relations)?;
        note_steps(laws.as_slice(), &mut relations);
        let mut problem = Problem {
            steps: (p.flow(f).steps().len() & 0xff) as u8,
            width,
            laws,
            relations,
            allowed: read_allowed(alloc, p, f, width)?,
            everyone: Rows::new(alloc, 1, width)?,
            naming: [0; STEP_LIMIT],
            related: 0,
            full: false,
        };
        add_first(problem.everyone.row_mut(0), p.roster().users().len());
        problem.note_laws();
        if reads_own(&problem) {
            problem.learn_all(p)?;
        }
        Ok(problem)
    }

    // Notes for each step the laws that name it, and which laws are over declared relations.
    fn note_laws(&mut self) {
        for (k, law) in self.laws.as_slice().iter().enumerate() {
            let mut scope = law.scope;
            if is_declared(law.over) {
                self.related |= 1u64 << (k & 63);
            }
            for _ in 0..32u8 {
                let Some(s) = pop(&mut scope) else { break };
                if (s as usize) < STEP_LIMIT {
                    self.naming[s as usize] |= 1u64 << (k & 63);
                }
            }
        }
    }

    /// The laws that name a step.
    pub(crate) fn laws_of(&self, s: u8) -> u64 {
        match self.naming.get(s as usize) {
            Some(laws) => *laws,
            None => 0,
        }
    }

    /// The laws that name some step of a set.
    pub(crate) fn laws_of_some(&self, steps: u32) -> u64 {
        let mut left = steps;
        let mut laws = 0;
        for _ in 0..32u8 {
            let Some(s) = pop(&mut left) else { break };
            laws |= self.laws_of(s);
        }
        laws
    }

    /// The laws over declared relations that name some step of a set.
    pub(crate) fn related_laws(&self, steps: u32) -> u64 {
        self.laws_of_some(steps) & self.related
    }

    /// Reads the rows of a user.
    pub(crate) fn learn(&mut self, p: &Policy, u: UserId) -> Result<(), AllocError> {
        for relation in self.relations.iter_mut() {
            if relation.steps != 0 && lacks(relation, u.0) {
                let source = Source::of(p, relation.rho);
                learn_row(&source, relation, self.everyone.row(0), u.0)?;
            }
        }
        Ok(())
    }

    /// Reads the rows of those who have a step.
    pub(crate) fn learn_assigned(&mut self, p: &Policy, a: &Assign) -> Result<(), AllocError> {
        for s in 0..self.steps {
            if let Some(u) = a.at(StepId(s)) {
                self.learn(p, u)?;
            }
        }
        Ok(())
    }

    /// The same, unless the rows of all who may have a step were read.
    pub(crate) fn learn_given(&mut self, p: &Policy, a: &Assign) -> Result<(), AllocError> {
        if self.full {
            Ok(())
        } else {
            self.learn_assigned(p, a)
        }
    }

    /// Reads the rows of all who may have a step.
    pub(crate) fn learn_all(&mut self, p: &Policy) -> Result<(), AllocError> {
        if self.full {
            return Ok(());
        }
        for relation in self.relations.iter_mut() {
            learn_relation(p, relation, &self.allowed, self.everyone.row(0))?;
        }
        self.full = true;
        Ok(())
    }
}

/// The place of a user's rows.
pub(crate) fn place_of(places: &[u16], u: u16) -> usize {
    match places.get(u as usize) {
        Some(place) => *place as usize,
        None => 0,
    }
}

// How many words a row has, with a bit for each user.
fn width_of(p: &Policy) -> usize {
    (p.roster().users().len() as usize).saturating_add(63) / 64
}

// Notes for each relation the steps of the laws over it.
fn note_steps(laws: &[Law], relations: &mut Vec<Relation>) {
    for law in laws.iter() {
        if let Over::Declared(at, _) = law.over {
            if let Some(relation) = relations.get_mut(at as usize) {
                relation.steps |= law.scope;
            }
        }
    }
}

// Whether a law asks who is related to themselves.
fn reads_own(problem: &Problem) -> bool {
    for law in problem.laws.as_slice().iter() {
        if is_declared(law.over) && has_bit(law.group, law.step) {
            return true;
        }
    }
    false
}

// Whether a law is over a declared relation.
fn is_declared(over: Over) -> bool {
    match over {
        Over::Declared(..) => true,
        Over::Same | Over::Other => false,
    }
}

// The laws that the rules are, with the relations that they are over.
fn read_laws(
    alloc: Global,
    p: &Policy,
    rules: &Rules,
    relations: &mut Vec<Relation>,
) -> Result<Vec<Law>, AllocError> {
    let mut laws = Vec::new(alloc);
    for rule in rules.as_slice().iter() {
        let law = read_law(p, *rule, relations)?;
        laws.push(law)?;
    }
    Ok(laws)
}

fn read_law(p: &Policy, rule: Rule, relations: &mut Vec<Relation>) -> Result<Law, AllocError> {
    let over = match rule.relation() {
        Some(rho) => read_over(p, rho, relations)?,
        None => Over::Same,
    };
    Ok(law_of(rule, over))
}

// The law that a rule is, whose relation, if it has one, is over `over`.
fn law_of(rule: Rule, over: Over) -> Law {
    match rule {
        Rule::Pair { first, second, .. } => { make_law(Demand::Each, over, bit(first.0), second.0) }
        Rule::SomeOf { group, step, .. } => {
            make_law(Demand::Some, over, bits_of(&group), step.0)
        }
        Rule::AllOf { group, step, .. } => { make_law(Demand::Each, over, bits_of(&group), step.0) }
        Rule::SomeTo { step, group, .. } => {
            make_law(Demand::Some, turned(over), bits_of(&group), step.0)
        }
        Rule::AllTo { step, group, .. } => {
            make_law(Demand::Each, turned(over), bits_of(&group), step.0)
        }
        Rule::AtMost { limit, group } => {
            counting_law(Demand::AtMost(limit as u32), bits_of(&group))
        }
        Rule::AtLeast { limit, group } => {
            counting_law(Demand::AtLeast(limit as u32), bits_of(&group))
        }
    }
}

// The same relation, read back.
fn turned(over: Over) -> Over {
    match over {
        Over::Declared(at, back) => Over::Declared(at, !back),
        _ => over,
    }
}

fn counting_law(demand: Demand, group: u32) -> Law {
    Law {
        demand,
        over: Over::Same,
        group,
        step: (group.trailing_zeros() & 31) as u8,
        scope: group,
        asks_alone: true,
    }
}

fn make_law(demand: Demand, over: Over, group: u32, step: u8) -> Law {
    Law {
        demand,
        over,
        group,
        step,
        scope: group | bit(step),
        asks_alone: has_bit(group, step),
    }
}

fn bits_of(steps: &StepSet) -> u32 {
    let mut bits = 0;
    for s in 0..STEP_LIMIT {
        let step = (s & 0xff) as u8;
        if steps.has(StepId(step)) {
            bits |= bit(step);
        }
    }
    bits
}

// What a relation is over; its rows are made where no law before was over it.
fn read_over(p: &Policy, rho: RelId, relations: &mut Vec<Relation>) -> Result<Over, AllocError> {
    if rho == RelId::SAME {
        return Ok(Over::Same);
    }
    if rho == RelId::OTHER {
        return Ok(Over::Other);
    }
    for (at, known) in relations.as_slice().iter().enumerate() {
        if known.rho == rho {
            return Ok(Over::Declared((at & 0xff) as u8, false));
        }
    }
    let place = relations.len();
    let relation = read_relation(*relations.allocator(), p, rho)?;
    relations.push(relation)?;
    Ok(Over::Declared((place & 0xff) as u8, false))
}

fn read_relation(alloc: Global, p: &Policy, rho: RelId) -> Result<Relation, AllocError> {
    let (users, width) = (p.roster().users().len(), width_of(p));
    Ok(Relation {
        rho,
        steps: 0,
        places: vec![in alloc; 0u16; users as usize]?,
        last: 0,
        ahead: Rows::new(alloc, 1, width)?,
        back: Rows::new(alloc, 1, width)?,
        own: Rows::new(alloc, 1, width)?,
    })
}

// Whether the rows of a user were not read yet.
fn lacks(relation: &Relation, u: u16) -> bool {
    match relation.places.get(u as usize) {
        Some(place) => *place == 0,
        None => false,
    }
}

// Reads the rows of those who may have some step of the laws over a relation.
fn learn_relation(
    p: &Policy,
    relation: &mut Relation,
    allowed: &Rows,
    everyone: &[u64],
) -> Result<(), AllocError> {
    let source = Source::of(p, relation.rho);
    let count = count_some(allowed, relation.steps, everyone.len());
    relation.ahead.reserve(count)?;
    relation.back.reserve(count)?;
    for at in 0..everyone.len() {
        let mut left = some_word(allowed, relation.steps, at);
        for _ in 0..64u8 {
            if left == 0 {
                break;
            }
            let user = user_at(at, left.trailing_zeros());
            left &= left.wrapping_sub(1);
            if lacks(relation, user) {
                learn_row(&source, relation, everyone, user)?;
            }
        }
    }
    Ok(())
}

// How many users may have some step of `steps`, in the first `width` words.
fn count_some(allowed: &Rows, steps: u32, width: usize) -> usize {
    let mut users = 0usize;
    for at in 0..width {
        users = users.saturating_add(some_word(allowed, steps, at).count_ones() as usize);
    }
    users
}

// A word of the row of those who may have some step of a set.
fn some_word(allowed: &Rows, steps: u32, at: usize) -> u64 {
    let mut left = steps;
    let mut some = 0;
    for _ in 0..32u8 {
        let Some(s) = pop(&mut left) else { break };
        some |= word_at(allowed.row(s as usize), at);
    }
    some
}

// Reads the rows of a user, which were not read before.
fn learn_row(
    source: &Source<'_>,
    relation: &mut Relation,
    everyone: &[u64],
    u: u16,
) -> Result<(), AllocError> {
    let place = relation.last.saturating_add(1);
    let at = place as usize;
    read_row(&mut relation.ahead, at, source, everyone, u, false)?;
    read_row(&mut relation.back, at, source, everyone, u, true)?;
    if has_user(relation.ahead.row(at), u) {
        add_user(relation.own.row_mut(0), u);
    }
    relation.last = place;
    if (u as usize) < relation.places.len() {
        relation.places[u as usize] = place;
    }
    Ok(())
}

fn read_row(
    rows: &mut Rows,
    at: usize,
    source: &Source<'_>,
    everyone: &[u64],
    u: u16,
    back: bool,
) -> Result<(), AllocError> {
    match source.row(u, back) {
        Some(row) => rows.put_at(at, row.as_words())?,
        None => rows.clear_at(at)?,
    }
    if source.turned {
        turn(rows.row_mut(at), everyone);
    }
    Ok(())
}

// The users who are authorised for each step.
fn read_allowed(alloc: Global, p: &Policy, f: FlowId, width: usize) -> Result<Rows, AllocError>
    requires { f < length p.now.flows }
{
    let steps = p.flow(f).steps().len() as usize;
    let mut allowed = Rows::new(alloc, steps, width)?;
    put_allowed(&mut allowed, p, f, steps);
    Ok(allowed)
}

// Puts in the users who are authorised for each of the first `steps` steps.
fn put_allowed(allowed: &mut Rows, p: &Policy, f: FlowId, steps: usize)
    requires { f < length p.now.flows }
{
    for s in 0..steps {
        let users = p.authorised_users(f, StepId((s & 0xff) as u8));
        put(allowed.row_mut(s), users.as_words());
    }
}
