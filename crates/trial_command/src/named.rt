//! The names in a trial.
ghost use Rattle.std.specs.Prelude.{◌≡◌, ◌<◌, ◌∷◌, [], ◌++◌, length, is_some, true, false, IsTrue};
ghost use Rattle.std.specs.Prelude.{OnOk};
ghost use Rattle.wf_names.specs.Names.{is_letter, is_name};
ghost use Rattle.wf_names.specs.Table.{place_of};
ghost use Rattle.trial_command.specs.Named.{role_name, step_name, two_digits, user_name};

use std::alloc::AllocError;
use std::str;
use wf_names::{Name, NameFault, NameTable, RoleId, StepId, UserId};

/// The name that a text is.
pub(crate) fn named(text: &str) -> Name
    requires { IsTrue (is_name text.now) }
    ensures { result ≡ text.now }
{
    match Name::read(text) {
        Some(name) => name,
        None => unreachable!(),
    }
}

/// The name that bytes are.
#[tactic(auto, using(wf_names::proofs::NameForms::name_utf8))]
fn of_bytes(bytes: &[u8]) -> Name
    requires { IsTrue (is_name bytes.now) }
    ensures { result ≡ bytes.now }
{
    match str::from_utf8(bytes) {
        Ok(text) => named(text),
        Err(_) => unreachable!(),
    }
}

// A letter and the two digits of a number.
#[tactic(auto, using(crate::proofs::NameForms::numbered_form))]
fn with_two_digits(letter: u8, n: u16) -> Name
    requires letter { is_letter letter ≡ true }
    requires small { n < 100 }
    ensures { result ≡ letter ∷ two_digits n }
{
    of_bytes(&[letter, b'0' + (n / 10) as u8, b'0' + (n % 10) as u8])
}

/// The name of a user.
#[tactic(auto, unfolding(crate::specs::Named::user_name))]
pub(crate) fn user_name(u: UserId) -> Name
    requires { u < 100 }
    ensures { result ≡ user_name u }
{
    with_two_digits(b'u', u.0)
}

/// The name of a step.
#[tactic(auto, unfolding(crate::specs::Named::step_name))]
pub(crate) fn step_name(s: StepId) -> Name
    requires { s < 100 }
    ensures { result ≡ step_name s }
{
    with_two_digits(b's', s.0 as u16)
}

/// The name of a role other than that of the administrators.
#[tactic(auto, using(crate::proofs::NameForms::r_digit), unfolding(crate::specs::Named::role_name))]
pub(crate) fn role_name(r: RoleId) -> Name
    requires { r < 10 }
    ensures { result ≡ role_name r }
{
    of_bytes(&[b'r', b'0' + r.0])
}

/// Adds a name that a table does not have, where there is room.
pub(crate) fn add_name(table: &mut NameTable, name: Name) -> Result<(), AllocError>
    requires fresh { is_some (place_of table.old.names name) ≡ false }
    requires room { length table.old.names < table.old.limit }
    ensures { OnOk result (table.new ≡ record table.old { names = table.old.names ++ name ∷ [] }) }
{
    match table.add(name) {
        Ok(_) => Ok(()),
        Err(NameFault::NoMemory) => Err(AllocError),
        Err(_) => unreachable!(),
    }
}
