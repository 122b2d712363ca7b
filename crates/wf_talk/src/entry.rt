//! The entries of the journal.
ghost use Rattle.std.specs.Prelude.{◌≡◌, IfOk};

use crate::{Ask, Denial, Reply};
use basics::Same;
use std::alloc::AllocError;

/// An ask with its reply, as the journal keeps it.
#[derive(Drop)]
pub struct Entry {
    /// The entry's place in the journal, counted from 0.
    pub at: u32,
    /// The lane of the job.
    pub lane: u8,
    /// The number of the job's line, counted from 0.
    pub line: u32,
    pub ask: Ask,
    pub reply: Reply,
}

impl Same for Entry {
    fn same(&self) -> Result<Entry, AllocError> {
        Ok(Entry {
            at: self.at,
            lane: self.lane,
            line: self.line,
            ask: self.ask,
            reply: same_reply(&self.reply)?,
        })
    }
}

/// An equal reply.
fn same_reply(reply: &Reply) -> Result<Reply, AllocError>
    ensures { IfOk result (λ r. r ≡ reply.now) }
{
    Ok(match reply {
        Reply::Granted(plan) => Reply::Granted(*plan),
        Reply::Finished { done } => Reply::Finished { done: *done },
        Reply::Returned => Reply::Returned,
        Reply::Released => Reply::Released,
        Reply::Opened { case, plan } => Reply::Opened {
            case: *case,
            plan: *plan,
        },
        Reply::Withdrawn => Reply::Withdrawn,
        Reply::Edited { number } => Reply::Edited { number: *number },
        Reply::Shown(face) => Reply::Shown(*face),
        Reply::Work(items) => Reply::Work(items.copy()?),
        Reply::WhatIf(cases) => Reply::WhatIf(cases.copy()?),
        Reply::Denied(denial) => Reply::Denied(same_denial(denial)?),
        Reply::Again { rounds, at } => Reply::Again {
            rounds: *rounds,
            at: *at,
        },
        Reply::NoMemory => Reply::NoMemory,
        Reply::Bad(bad) => Reply::Bad(*bad),
    })
}

/// An equal denial.
fn same_denial(denial: &Denial) -> Result<Denial, AllocError>
    ensures { IfOk result (λ d. d ≡ denial.now) }
{
    Ok(match denial {
        Denial::NoFlow => Denial::NoFlow,
        Denial::Retired => Denial::Retired,
        Denial::Full => Denial::Full,
        Denial::Unsatisfiable { flow, tree } => Denial::Unsatisfiable {
            flow: *flow,
            tree: tree.share()?,
        },
        Denial::NoCase => Denial::NoCase,
        Denial::Closed => Denial::Closed,
        Denial::NoStep => Denial::NoStep,
        Denial::NoUser => Denial::NoUser,
        Denial::Taken(user) => Denial::Taken(*user),
        Denial::Order { flow, step } => Denial::Order {
            flow: *flow,
            step: *step,
        },
        Denial::Role(roles) => Denial::Role(roles.copy()?),
        Denial::Rule(k) => Denial::Rule(*k),
        Denial::Stranded { flow, tree } => Denial::Stranded {
            flow: *flow,
            tree: tree.share()?,
        },
        Denial::NotHeld(state) => Denial::NotHeld(*state),
        Denial::NotAdmin => Denial::NotAdmin,
        Denial::Unknown(missing) => Denial::Unknown(*missing),
        Denial::Fixed => Denial::Fixed,
        Denial::Already => Denial::Already,
        Denial::Absent => Denial::Absent,
        Denial::LastAdmin => Denial::LastAdmin,
        Denial::Strands { case, flow, tree } => Denial::Strands {
            case: *case,
            flow: *flow,
            tree: tree.share()?,
        },
    })
}
