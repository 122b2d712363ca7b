//! What is wrong with a policy file.
ghost use Rattle.std.specs.Prelude.{◌≡◌, Some};
ghost use Rattle.policy_reader.specs.Fault.{kind_word, part_word, fault_text};
ghost use Rattle.policy_reader.specs.declared.fault.ReadFault.TheVariants.{Policy, NoMemory};
ghost use Rattle.policy_reader.specs.Faults.{fault, fault_about};

use std::alloc::AllocError;
use std::fmt;
use wf_names::Name;

/// What kind of fault it is.
#[derive(Clone, Copy)]
pub enum PolicyKind {
    /// The bytes are no TOML document.
    Syntax,
    /// A key is not there.
    Missing,
    /// A value is not of the type that is wanted.
    Shape,
    /// The format is no known one.
    Version,
    /// A text is not of a name's form.
    Name,
    /// A list has no item.
    Empty,
    /// A list has more items than its limit.
    TooMany,
    /// An item stands twice.
    Twice,
    /// A text names nothing that is declared.
    Unknown,
    /// No user holds the admin role.
    NoAdmin,
    /// A relation has the name of a built-in one.
    Reserved,
    /// A relation is the complement of a complement.
    Chain,
    /// A key has no meaning.
    Extra,
    /// A step is before itself.
    Cycle,
    /// A rule has none of the format's forms.
    Form,
    /// A number is too low or too high.
    Range,
}

/// The part of the file that has the fault.
#[derive(Clone, Copy)]
pub enum PolicyPart {
    /// The file as a whole.
    File,
    /// The list of roles.
    Roles,
    /// The table of users.
    Users,
    /// The table of relations.
    Relations,
    /// The table of workflows.
    Flows,
}

/// The first fault of a policy file.
#[derive(Clone, Copy)]
pub struct PolicyFault {
    /// What is wrong.
    pub kind: PolicyKind,
    /// Where it is wrong.
    pub table: PolicyPart,
    /// The number of the role, user, relation or workflow that has the fault; else 0.
    pub index: u32,
    /// The text that the fault is about, where it is of a name's form.
    pub name: Option<Name>,
}

/// Why a policy file was not read.
#[derive(Debug, Drop)]
pub enum ReadFault {
    /// The file has this first fault.
    Policy(PolicyFault),
    /// There was no memory for the policy.
    NoMemory,
}

impl PolicyKind {
    /// The word for the kind in a fault's text.
    pub fn word(&self) -> &'static str
        ensures { result.now ≡ kind_word self.now }
    {
        match self {
            PolicyKind::Syntax => "syntax",
            PolicyKind::Missing => "missing",
            PolicyKind::Shape => "shape",
            PolicyKind::Version => "version",
            PolicyKind::Name => "name",
            PolicyKind::Empty => "empty",
            PolicyKind::TooMany => "too_many",
            PolicyKind::Twice => "twice",
            PolicyKind::Unknown => "unknown",
            PolicyKind::NoAdmin => "no_admin",
            PolicyKind::Reserved => "reserved",
            PolicyKind::Chain => "chain",
            PolicyKind::Extra => "extra",
            PolicyKind::Cycle => "cycle",
            PolicyKind::Form => "form",
            PolicyKind::Range => "range",
        }
    }
}

impl PolicyPart {
    /// The word for the table in a fault's text.
    pub fn word(&self) -> &'static str
        ensures { result.now ≡ part_word self.now }
    {
        match self {
            PolicyPart::File => "file",
            PolicyPart::Roles => "roles",
            PolicyPart::Users => "users",
            PolicyPart::Relations => "relations",
            PolicyPart::Flows => "flows",
        }
    }
}

/// Prints the kind, the table and the index, and the name where there is one.
impl fmt::Display for PolicyFault {
    ghost output = { λ fault. Some (fault_text fault) };

    fn fmt<W: fmt::Write>(&self, f: &mut fmt::Formatter<W>) -> fmt::Result {
        let kind = self.kind.word();
        let table = self.table.word();
        let index = self.index;
        write!(f, "{kind} {table} {index}")?;
        match &self.name {
            None => Ok(()),
            Some(name) => write!(f, " {}", name.as_str()),
        }
    }
}

impl fmt::Debug for PolicyFault {
    fn fmt<W: fmt::Write>(&self, f: &mut fmt::Formatter<W>) -> fmt::Result {
        fmt::Display::fmt(self, f)
    }
}

impl From<AllocError> for ReadFault {
    ghost from_gives = { λ _ e. e ≡ NoMemory };

    fn from(_e: AllocError) -> ReadFault {
        ReadFault::NoMemory
    }
}

/// A fault that is about no text.
pub(crate) fn refuse(kind: PolicyKind, table: PolicyPart, index: u32) -> ReadFault
    ensures { result ≡ Policy (fault kind table index) }
{
    ReadFault::Policy(PolicyFault {
        kind,
        table,
        index,
        name: None,
    })
}

/// A fault that is about a text.
pub(crate) fn refuse_text(kind: PolicyKind, table: PolicyPart, index: u32, text: &str) -> ReadFault
    ensures { result ≡ Policy (fault_about kind table index text.now) }
{
    ReadFault::Policy(PolicyFault {
        kind,
        table,
        index,
        name: Name::read(text),
    })
}
