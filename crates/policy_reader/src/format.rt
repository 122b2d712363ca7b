//! The formats of a policy file. A further one is a row here, one in `specs/Formats.antt`, and
//! what is read and written of it.
ghost use Rattle.std.specs.Prelude.{◌≡◌, pos, map};
ghost use Rattle.policy_reader.specs.Formats as spec;

/// The format of a policy file.
#[derive(Clone, Copy)]
pub enum Format {
    /// The first one.
    First,
    /// The second one, which has more forms of rules.
    Second,
}

impl Format {
    /// The number of the format in a policy file.
    pub fn number(&self) -> i64
        ensures { result ≡ pos (spec.format_number self.now) }
    {
        match self {
            Format::First => 1,
            Format::Second => 2,
        }
    }

    /// The format with a number.
    pub(crate) fn with(number: i64) -> Option<Format>
        ensures { result ≡ spec.format_with number }
    {
        if number == 1 {
            Some(Format::First)
        } else if number == 2 {
            Some(Format::Second)
        } else {
            None
        }
    }

    /// The keys of the file.
    pub(crate) fn file_keys(&self) -> &'static [&'static str]
        ensures { map (λ k. k.now) result.now ≡ spec.file_keys self.now }
    {
        match self {
            Format::First => &["admin", "flows", "format", "relations", "roles", "users"],
            Format::Second => &["admin", "flows", "format", "relations", "roles", "users"],
        }
    }
}
