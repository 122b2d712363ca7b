//! The jobs of a trial, and the ends of their batches.
ghost use Rattle.std.specs.Prelude.{◌≡◌, ◌≤◌, ◌<◌, ◌+◌, ◌*◌, ◌^◌, length, IfOk, OnOk};
ghost use Rattle.trial_command.specs.Draws.{next_state};
ghost use Rattle.trial_command.specs.Jobs.{batch_ends, openings, rounds, turn, turn_user, turns};
ghost use Rattle.trial_command.specs.Jobs.{with_edit, with_request, with_round, with_turn};

use crate::draws::Generator;
use crate::named::{named, role_name, step_name, user_name};
use crate::people::{ROLES, USERS};
use crate::steps::STEPS;
use std::alloc::{AllocError, Global};
use std::marker::Model;
use wf_names::{BATCH_LINE_LIMIT, CaseId, RoleId, StepId, UserId};
use wf_talk::{Ask, Edit, Ends, Job, Jobs, Request};

/// How many lanes the jobs are for.
const LANES: u16 = 4;
/// How many rounds there are: two for each step.
const ROUNDS: u8 = 2 * STEPS;

// What has been made so far: the generator and the jobs.
#[derive(Drop)]
struct Maker {
    draws: Generator,
    jobs: Jobs,
}

impl Model for Maker {
    ghost use Rattle.trial_command.specs.Jobs.{Made};

    ghost Value = { Made };

    ghost view = { λ m. record { state = m.draws; jobs = m.jobs } };
}

/// The jobs for a number of cases, and the ends of their batches.
#[tactic(auto, using(crate::proofs::Growing::rounds_count, crate::proofs::Growing::openings_count))]
pub(crate) fn batches_of(
    alloc: Global,
    draws: Generator,
    cases: u16,
) -> Result<(Jobs, Ends), AllocError>
    requires some { 1 ≤ cases }
    requires few { cases ≤ 40 }
    ensures jobs { IfOk result (λ made. made.0 ≡ (rounds cases 24
        (record { state = draws; jobs = openings cases })).jobs) }
    ensures ends { IfOk result (λ made. made.1 ≡ batch_ends cases (length made.0)) }
{
    let jobs = jobs_of(alloc, draws, cases)?;
    let ends = batch_ends(alloc, cases as u32, jobs.len() as u32)?;
    Ok((jobs, ends))
}

// The jobs for a number of cases.
#[tactic(auto, using(crate::proofs::Growing::all_rounds))]
fn jobs_of(alloc: Global, draws: Generator, cases: u16) -> Result<Jobs, AllocError>
    requires { cases ≤ 40 }
    ensures { IfOk result (λ jobs. jobs ≡ (rounds cases 24
        (record { state = draws; jobs = openings cases })).jobs) }
{
    let jobs = openings(alloc, cases)?;
    let mut maker = Maker { draws, jobs };
    'rounds: for round in 0..ROUNDS {
        maker.add_round(round, cases)?;
    }
    Ok(maker.jobs)
}

// The openings of a number of cases.
#[tactic(auto, using(crate::proofs::NameForms::buy_form, crate::proofs::Growing::all_openings))]
fn openings(alloc: Global, cases: u16) -> Result<Jobs, AllocError>
    requires { cases ≤ 40 }
    ensures { IfOk result (λ jobs. jobs ≡ openings cases) }
{
    let flow = named("buy");
    let mut jobs = Jobs::new(alloc);
    'cases: for _case in 0..cases {
        add_job(&mut jobs, 0, Request::OpenCase { flow })?;
    }
    Ok(jobs)
}

// Adds a job for a lane, on the next line.
fn add_job(jobs: &mut Jobs, lane: u8, request: Request) -> Result<(), AllocError>
    requires { length jobs.old < 2 ^ 32 }
    ensures { OnOk result (jobs.new ≡ with_request jobs.old lane request) }
{
    let line = jobs.len() as u32;
    let ask = Ask::Request(request);
    jobs.add(&Job { lane, line, ask })
}

impl Maker {
    // Adds a round's turns of a number of cases, and the edit before them if there is one.
    #[tactic(auto, using(crate::proofs::Growing::cases), unfolding(crate::specs::Jobs::with_round))]
    fn add_round(&mut self, round: u8, cases: u16) -> Result<(), AllocError>
        requires few { length self.old.jobs + 2 * cases + 1 ≤ 2 ^ 32 }
        requires round { round < 24 }
        ensures { OnOk result (self.new ≡ with_round cases round self.old) }
    {
        if round > 0 && round % 4 == 0 {
            self.add_edit()?;
        }
        'cases: for case in 0..cases {
            self.add_turn(round, CaseId(case))?;
        }
        Ok(())
    }

    // Adds an edit: the administrator takes a role from a user.
    #[tactic(auto, unfolding(crate::specs::Jobs::with_edit))]
    fn add_edit(&mut self) -> Result<(), AllocError>
        requires { length self.old.jobs < 2 ^ 32 }
        ensures { OnOk result (self.new ≡ with_edit self.old) }
    {
        let user = self.draws.below(USERS);
        let edit = Edit::Dismiss {
            role: role_name(RoleId((user % ROLES as u16) as u8)),
            user: user_name(UserId(user)),
        };
        let by = user_name(UserId(0));
        add_job(&mut self.jobs, 0, Request::Change { by, edit })
    }

    // Adds the turn of a case: the claim of the round's step, and the report that it is done.
    #[tactic(auto, unfolding(crate::specs::Jobs::turn))]
    fn add_turn(&mut self, round: u8, case: CaseId) -> Result<(), AllocError>
        requires few { length self.old.jobs + 2 ≤ 2 ^ 32 }
        requires round { round < 24 }
        ensures { OnOk result (self.new ≡ turn round case self.old) }
    {
        let user = self.draw_user(round);
        add_claim_and_finish(&mut self.jobs, round, case, user)
    }

    // The user of a turn. Where the round is even it is one with the step's role.
    #[tactic(auto, unfolding(crate::specs::Jobs::turn_user))]
    fn draw_user(&mut self, round: u8) -> UserId
        requires { round < 24 }
        ensures user { result ≡ turn_user round self.old.state }
        ensures within { result < 60 }
        ensures drawn { self.new ≡ record self.old { state = next_state self.old.state } }
    {
        if round % 2 == 0 {
            let roles = ROLES as u16;
            UserId(roles * self.draws.below(USERS / roles) + (round / 2) as u16 % roles)
        } else {
            UserId(self.draws.below(USERS))
        }
    }
}

fn add_claim_and_finish(
    jobs: &mut Jobs,
    round: u8,
    case: CaseId,
    user: UserId,
) -> Result<(), AllocError>
    requires few { length jobs.old + 2 ≤ 2 ^ 32 }
    requires round { round < 24 }
    requires user { user < 60 }
    ensures { OnOk result (jobs.new ≡ with_turn round case user jobs.old) }
{
    let lane = (case.0 % LANES) as u8;
    let step = step_name(StepId(round / 2));
    let user = user_name(user);
    add_job(jobs, lane, Request::Claim { case, step, user })?;
    add_job(jobs, lane, Request::Finish { case, step, user })
}

/// The ends of the batches of `count` jobs: the first has `first` jobs, the others up to the limit.
#[tactic(auto, using(crate::proofs::Growing::ends_more), unfolding(crate::specs::Jobs::batch_ends))]
pub(crate) fn batch_ends(alloc: Global, first: u32, count: u32) -> Result<Ends, AllocError>
    requires { first < count }
    ensures { IfOk result (λ ends. ends ≡ batch_ends first count) }
{
    let mut ends = Ends::new(alloc);
    ends.add(&first)?;
    'batches: for batch in 0..(count - first - 1) / BATCH_LINE_LIMIT {
        ends.add(&(first + BATCH_LINE_LIMIT * (batch + 1)))?;
    }
    ends.add(&count)?;
    Ok(ends)
}
