//! The text of a page.
ghost use Rattle.std.specs.Prelude.{◌≡◌, ◌++◌, [], OnOk, string_bytes};
ghost use Rattle.case_story.specs.Html.{part_text, parts_text};

use crate::escape::push_escaped;
use itoa::Buffer;
use std::alloc::{AllocError, Global};
use std::marker::Model;

/// A part of a page.
#[derive(Clone, Copy)]
pub(crate) enum Part<'a> {
    /// Marks, which stand in this program.
    Mark(&'static str),
    /// A value, which may be any text.
    Value(&'a str),
    /// A number.
    Number(u32),
}

/// A page or a piece of one. Nothing is added but parts, and other pieces: so of the values nothing
/// comes in but escaped.
#[derive(Drop)]
pub(crate) struct Html {
    text: String,
}

impl Model for Html {
    ghost use Rattle.std.specs.Prelude.{ℕ, List, string_bytes};

    ghost Value = { List ℕ };

    ghost view = { λ h. string_bytes h.text };
}

impl Html {
    /// Nothing.
    pub(crate) fn new(alloc: Global) -> Html
        ensures { result ≡ [] }
    {
        Html {
            text: String::new(alloc),
        }
    }

    /// The allocator of the text.
    pub(crate) fn allocator(&self) -> Global {
        *self.text.allocator()
    }

    /// Adds some parts, one behind the other.
    pub(crate) fn put(&mut self, parts: &[Part<'_>]) -> Result<(), AllocError>
        ensures { OnOk result (self.new ≡ self.old ++ parts_text parts.now) }
    {
        'parts: for part in parts {
            self.add(*part)?;
        }
        Ok(())
    }

    fn add(&mut self, part: Part<'_>) -> Result<(), AllocError>
        ensures { OnOk result (self.new ≡ self.old ++ part_text part.entry) }
    {
        match part {
            Part::Mark(marks) => self.text.push_str(marks),
            Part::Value(value) => push_escaped(&mut self.text, value),
            Part::Number(n) => {
                let mut digits = Buffer::new();
                self.text.push_str(digits.format(n))
            }
        }
    }

    /// Adds another piece.
    pub(crate) fn join(&mut self, piece: &Html) -> Result<(), AllocError>
        ensures { OnOk result (self.new ≡ self.old ++ piece.now) }
    {
        self.text.push_str(piece.text.as_str())
    }

    /// The text.
    pub(crate) fn into_text(self) -> String
        ensures { string_bytes result ≡ self }
    {
        self.text
    }
}
