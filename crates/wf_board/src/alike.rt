//! Whether what a reply says is what is to be said.
ghost use Rattle.std.specs.Prelude.{◌≡◌, ◌↔◌, true};
ghost use Rattle.wf_talk.specs.declared.reply.Reply.TheVariants as replies;
ghost use Rattle.wf_board.specs.Admission.{has_no_tree};
ghost use Rattle.wf_board.specs.Laws.Steps.{face_of};

use case_record::Case;
use wf_names::{RoleId, StepState};
use wf_talk::{Denial, Face, Reply};

/// Whether a reply is the denial by a cause, which has no tree.
pub(crate) fn is_denied(reply: &Reply, cause: &Denial) -> bool
    requires { has_no_tree cause.now ≡ true }
    ensures { result ≡ true ↔ reply.now ≡ replies.Denied cause.now }
{
    match reply {
        Reply::Denied(denial) => is_cause(denial, cause),
        _ => false,
    }
}

/// Whether a denial is this cause, which has no tree.
fn is_cause(denial: &Denial, cause: &Denial) -> bool
    requires { has_no_tree cause.now ≡ true }
    ensures { result ≡ true ↔ denial.now ≡ cause.now }
{
    match cause {
        Denial::Taken(user) => matches!(denial, Denial::Taken(given) if *given == *user),
        Denial::Order { flow: f, step: s } => {
            matches!(denial, Denial::Order { flow, step } if *flow == *f && *step == *s)
        }
        Denial::Role(roles) => {
            matches!(denial, Denial::Role(given) if are_roles(given.as_slice(), roles.as_slice()))
        }
        Denial::Rule(rule) => matches!(denial, Denial::Rule(given) if *given == *rule),
        Denial::NotHeld(state) => matches!(denial, Denial::NotHeld(given) if *given == *state),
        Denial::Unknown(what) => matches!(denial, Denial::Unknown(given) if *given == *what),
        Denial::NoFlow => matches!(denial, Denial::NoFlow),
        Denial::Retired => matches!(denial, Denial::Retired),
        Denial::Full => matches!(denial, Denial::Full),
        Denial::NoCase => matches!(denial, Denial::NoCase),
        Denial::Closed => matches!(denial, Denial::Closed),
        Denial::NoStep => matches!(denial, Denial::NoStep),
        Denial::NoUser => matches!(denial, Denial::NoUser),
        Denial::NotAdmin => matches!(denial, Denial::NotAdmin),
        Denial::Fixed => matches!(denial, Denial::Fixed),
        Denial::Already => matches!(denial, Denial::Already),
        Denial::Absent => matches!(denial, Denial::Absent),
        Denial::LastAdmin => matches!(denial, Denial::LastAdmin),
        Denial::Unsatisfiable { .. } | Denial::Stranded { .. } | Denial::Strands { .. } => false,
    }
}

fn are_roles(some: &[RoleId], others: &[RoleId]) -> bool
    ensures { result ≡ true ↔ some.now ≡ others.now }
{
    some == others
}

/// Whether this is what is to be seen of a case.
pub(crate) fn is_face(face: &Face, case: &Case) -> bool
    ensures { result ≡ true ↔ face.now ≡ face_of case.now }
{
    face.flow == case.flow()
        && face.phase == case.phase()
        && are_states(face.states.as_slice(), case.states())
}

fn are_states(some: &[StepState], others: &[StepState]) -> bool
    ensures { result ≡ true ↔ some.now ≡ others.now }
{
    some == others
}
