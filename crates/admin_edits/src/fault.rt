//! Why an edit is refused.
ghost use Rattle.std.specs.Prelude.{◌≡◌};
ghost use Rattle.basics.specs.declared.fault.Fault.TheVariants.{Cause};

use basics::Fault;
use wf_talk::Missing;

/// Why an edit is refused, whatever cases are open. Want of memory never is why.
#[derive(Clone, Copy, PartialEq, Eq)]
pub enum EditCause {
    /// No user of that name holds the admin role.
    NotAdmin,
    /// The policy has nothing of that kind by the name that is given.
    Unknown(Missing),
    /// The relation is built in or the complement of another, so its pairs are not listed.
    Fixed,
    /// It is so already.
    Already,
    /// There is nothing to take away.
    Absent,
    /// The limit of users, or of pairs in a relation, is reached.
    Full,
    /// Nobody would hold the admin role any more.
    LastAdmin,
}

/// Why an edit gives no policy: a cause against it, or that there was no memory.
pub type EditFault = Fault<EditCause>;

impl From<EditCause> for EditFault {
    ghost from_gives = { λ cause fault. fault ≡ Cause cause };

    fn from(cause: EditCause) -> EditFault {
        Fault::Cause(cause)
    }
}
