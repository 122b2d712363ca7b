//! The runs of a search, each bounded by counted work.
ghost use Rattle.std.specs.Prelude.{◌<◌, length};

use crate::advice::{advised, best_roots};
use crate::bits::{NEW, bit, has_bit};
use crate::branch::Node;
use crate::choice::{Choice, choose};
use crate::guide::{Guide, few};
use crate::laws::settle;
use crate::matching::matched;
use crate::problem::{Demand, Over, Problem};
use crate::reasons::Reasons;
use crate::rows::{add_user, clear, count, first_apart, has_user, is_empty, put};
use crate::state::State;
use crate::work::Work;
use constraint_forms::{Assign, Plan, StepSet};
use policy_book::Policy;
use std::alloc::{AllocError, Global};
use wf_names::{FlowId, STEP_LIMIT, StepId, UserId};

/// The work of the start.
const FIRST_WORK: u64 = 100_000;

/// The work of a run for each try of the search for a tree before it.
const WORK_A_TRY: u64 = 100;

/// The same where a rule counts users, which leaves much open until late.
const WORK_A_TRY_COUNTING: u64 = 200;

/// Most nodes of a run, whatever work they take.
const NODE_LIMIT: u32 = 1_000_000;

// How a run ended.
#[derive(Clone, Copy)]
enum Ending {
    Found(Plan),
    // There is nothing to be found.
    Exhausted,
    // The work is used up.
    Stopped,
}

/// What is asked of a workflow, and what was learned about its rules so far.
#[derive(Drop)]
pub struct Finder {
    problem: Problem,
    work: Work,
    reasons: Reasons,
    guide: Guide,
    space: Option<Space>,
    run: u8,
    // Whether there is nothing to be found.
    over: bool,
}

impl Finder {
    /// A finder for a workflow, which has learned nothing yet. A run keeps at most `most`
    /// branches.
    pub fn new(alloc: Global, p: &Policy, f: FlowId, most: u32) -> Result<Finder, AllocError>
        requires { f < length p.now.flows }
    {
        let problem = Problem::new(alloc, p, f)?;
        let mut work = Work::new(alloc, problem.width)?;
        if counts_users(&problem) {
            work.blame_in_tree();
        }
        let reasons = Reasons::new(alloc);
        Ok(Finder {
            problem,
            work,
            reasons,
            guide: Guide::new(most),
            space: None,
            run: 0,
            over: false,
        })
    }

    /// Looks for a plan that extends an assignment, where the finished steps need no authorised
    /// user any more, in one more run, which may go further than the one before. The plan is to be
    /// checked; where none is found there may be one all the same. Each call is to be about the
    /// same policy, workflow, assignment and finished steps.
    pub fn find(
        &mut self,
        alloc: Global,
        p: &Policy,
        a: &Assign,
        done: &StepSet,
    ) -> Result<Option<Plan>, AllocError> {
        if self.space.is_none() && !self.over {
            self.begin(alloc, p, a, done)?;
        }
        if self.over {
            return Ok(None);
        }
        let ending = self.run_on(alloc)?;
        self.run = self.run.saturating_add(1);
        match ending {
            Ending::Found(plan) => Ok(Some(plan)),
            Ending::Exhausted => {
                self.over = true;
                Ok(None)
            }
            Ending::Stopped => Ok(None),
        }
    }

    // Makes the space of the runs, unless there is nothing to be found in it.
    fn begin(
        &mut self,
        alloc: Global,
        p: &Policy,
        a: &Assign,
        done: &StepSet,
    ) -> Result<(), AllocError> {
        self.problem.learn_all(p)?;
        let mut space = Space::new(alloc, &self.problem)?;
        self.work.begin(0, FIRST_WORK);
        if start(&self.problem, &mut space.root, &mut self.work, a, done) {
            self.space = Some(space);
        } else {
            self.over = true;
        }
        Ok(())
    }

    // One more run in the space.
    fn run_on(&mut self, alloc: Global) -> Result<Ending, AllocError> {
        let tries = self.guide.tries() as u64;
        let limit = tries.saturating_mul(work_a_try(&self.problem));
        self.work.begin(self.run, limit);
        match &mut self.space {
            Some(space) => run_once(alloc, &self.problem, space, &mut self.work, self.run),
            None => Ok(Ending::Stopped),
        }
    }

    /// Begins a run of a search for a tree, which may go further than the run before.
    pub fn begin_run(&mut self, p: &Policy, a: &Assign) -> Result<(), AllocError> {
        self.problem.learn_assigned(p, a)?;
        let best = best_roots(&self.problem, &mut self.work, a, few());
        self.guide.begin(best);
        Ok(())
    }

    /// Counts a try at a depth of a search, and tells whether it is within the bound of the run.
    pub fn may_try(&mut self, depth: u8) -> bool {
        self.guide.try_at(depth)
    }

    /// How many branches a run keeps.
    pub fn kept(&self) -> u32 {
        self.guide.kept()
    }

    /// Counts one more branch that a run keeps.
    pub fn keep(&mut self) {
        self.guide.keep();
    }

    /// Counts on with `kept` branches, where others were dropped.
    pub fn drop_to(&mut self, kept: u32) {
        self.guide.drop_to(kept);
    }

    /// Whether a run was to keep more branches than it may.
    pub fn is_spent(&self) -> bool {
        self.guide.is_spent()
    }

    /// A step that is not assigned, which is a good one to try next at a depth of a search; it may
    /// be another one all the same. None is advised where memory is wanted.
    pub fn next_step(&mut self, p: &Policy, a: &Assign, depth: u8) -> Option<StepId> {
        if self.problem.learn_given(p, a).is_err() {
            return None;
        }
        match self.guide.root() {
            Some(root) if depth == 0 => Some(StepId(root)),
            _ => advised(&self.problem, &mut self.work, a),
        }
    }

    /// Makes room for reasons; none is found before.
    pub fn make_room(&mut self, alloc: Global) -> Result<(), AllocError> {
        let users = self.problem.width.saturating_mul(64);
        self.reasons.make_room(alloc, users)
    }

    /// Finds for each user a rule that keeps the user from a step, at a depth of a search.
    pub fn find_reasons(&mut self, a: &Assign, depth: u8, s: StepId) {
        let users = count(self.problem.allowed.row(s.0 as usize));
        self.guide.enter(depth, s.0, users);
        self.reasons
            .find(&self.problem, &mut self.work, a, depth, s.0);
    }

    /// The number of a rule that may keep a user from the step at a depth; 255 where none is known.
    pub fn reason(&self, depth: u8, u: UserId) -> u8 {
        self.reasons.rule(depth, u.0)
    }

    /// Where to look for what tells two users apart; they may differ elsewhere all the same.
    pub fn clue(&mut self, p: &Policy, u: UserId, v: UserId) -> Option<Clue> {
        if self.problem.learn(p, u).is_err() || self.problem.learn(p, v).is_err() {
            return None;
        }
        found_clue(&self.problem, u.0, v.0)
    }
}

/// A rule whose relation may treat two users differently at a third one.
#[derive(Clone, Copy)]
pub struct Clue {
    /// The number of the rule.
    pub rule: u8,
    /// The third user.
    pub user: UserId,
}

// The first rule over each relation is enough.
fn found_clue(problem: &Problem, u: u16, v: u16) -> Option<Clue> {
    let mut seen = 0u32;
    for (k, law) in problem.laws.as_slice().iter().enumerate() {
        if let Over::Declared(at, _) = law.over {
            if !has_bit(seen, at) {
                seen |= bit(at);
                if let Some(user) = third_user(problem, at, u, v) {
                    return Some(Clue {
                        rule: (k & 0xff) as u8,
                        user: UserId(user),
                    });
                }
            }
        }
    }
    None
}

fn third_user(problem: &Problem, at: u8, u: u16, v: u16) -> Option<u16> {
    let link = problem.link(at, false)?;
    match first_apart(link.ahead(u), link.ahead(v), u, v) {
        Some(user) => Some(user),
        None => first_apart(link.back(u), link.back(v), u, v),
    }
}

fn work_a_try(problem: &Problem) -> u64 {
    if counts_users(problem) {
        WORK_A_TRY_COUNTING
    } else {
        WORK_A_TRY
    }
}

// Whether a rule counts users.
fn counts_users(problem: &Problem) -> bool {
    for law in problem.laws.as_slice().iter() {
        match law.demand {
            Demand::AtMost(_) | Demand::AtLeast(_) => return true,
            Demand::Some | Demand::Each => {}
        }
    }
    false
}

// Where a search stands.
#[derive(Drop)]
struct Space {
    root: State,
    now: State,
    nodes: Vec<Node>,
}

impl Space {
    fn new(alloc: Global, problem: &Problem) -> Result<Space, AllocError> {
        Ok(Space {
            root: State::new(alloc, problem.steps, problem.width)?,
            now: State::new(alloc, problem.steps, problem.width)?,
            nodes: Vec::new(alloc),
        })
    }

    // Makes the state a node at a depth, where there is a place for one, and tells the depth below
    // it. A search reaches no depth from twice the number of steps on, since each branch closes a
    // step or fixes a block.
    fn enter(
        &mut self,
        alloc: Global,
        problem: &Problem,
        depth: usize,
        choice: Choice,
    ) -> Result<usize, AllocError> {
        if depth == self.nodes.len() && depth < STEP_LIMIT * 2 {
            let node = Node::new(alloc, problem)?;
            self.nodes.push(node)?;
        }
        if depth < self.nodes.len() {
            self.nodes[depth].become_node(&self.now, choice);
            return Ok(depth + 1);
        }
        Ok(depth)
    }
}

// Where every run starts: a block for each user who has a step already. Tells whether everything
// can still be met.
fn start(problem: &Problem, root: &mut State, work: &mut Work, a: &Assign, done: &StepSet) -> bool {
    for s in 0..problem.steps {
        if !open_step(problem, root, s, a.at(StepId(s)), done.has(StepId(s))) {
            return false;
        }
    }
    let blocks = root.all_blocks();
    for s in 0..problem.steps {
        root.options.set(s, blocks | NEW);
    }
    settle(problem, root, work, blocks)
}

// Opens a step for those who are authorised, or puts it into the block of the user who has it.
// Tells whether somebody can have it.
fn open_step(
    problem: &Problem,
    root: &mut State,
    s: u8,
    holder: Option<UserId>,
    finished: bool,
) -> bool {
    let allowed = problem.allowed.row(s as usize);
    root.open |= bit(s);
    put(root.step_mut(s), allowed);
    match holder {
        Some(user) if finished || has_user(allowed, user.0) => {
            seat(root, s, user.0);
            true
        }
        Some(_) => false,
        None => !is_empty(allowed),
    }
}

// Puts a step into the block of its user.
fn seat(root: &mut State, s: u8, user: u16) {
    let row = root.step_mut(s);
    clear(row);
    add_user(row, user);
    let b = match root.block_of_user(user) {
        Some(b) => b,
        None => root.open_for(user),
    };
    root.place(s, b);
}

// One run, from the state that it starts in.
fn run_once(
    alloc: Global,
    problem: &Problem,
    space: &mut Space,
    work: &mut Work,
    run: u8,
) -> Result<Ending, AllocError> {
    space.now.become_same(&space.root);
    let mut depth = 0;
    let mut met = true;
    let cost = problem
        .width
        .saturating_mul(problem.steps as usize)
        .saturating_mul(3);
    for _ in 0..NODE_LIMIT {
        if !work.spend(cost.saturating_add(200)) {
            return Ok(Ending::Stopped);
        }
        if met {
            let choice = choose(problem, &space.now, work);
            if choice == Choice::Nothing {
                if let Some(plan) = matched(&space.now, problem.steps) {
                    return Ok(Ending::Found(plan));
                }
            } else {
                depth = space.enter(alloc, problem, depth, choice)?;
            }
        }
        let Some(top) = depth.checked_sub(1) else {
            return Ok(Ending::Exhausted);
        };
        if top >= space.nodes.len() {
            return Ok(Ending::Stopped);
        }
        match space.nodes[top].take_branch(problem, &mut space.now, work, run) {
            Some(can) => met = can,
            None => {
                met = false;
                depth = top;
            }
        }
    }
    Ok(Ending::Stopped)
}
