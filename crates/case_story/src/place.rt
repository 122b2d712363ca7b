//! How far a transcript was followed.
ghost use Rattle.std.specs.Prelude.{◌≡◌};

/// A place in a transcript, at the beginning of a line.
#[derive(Clone, Copy)]
pub(crate) struct Place {
    /// How many bytes stand before it.
    pub at: usize,
    /// How many lines stand before it.
    pub number: u32,
}

impl Place {
    /// The place before the first line.
    pub(crate) fn start() -> Place
        ensures at { result.at ≡ 0 }
        ensures number { result.number ≡ 0 }
    {
        Place { at: 0, number: 0 }
    }
}
