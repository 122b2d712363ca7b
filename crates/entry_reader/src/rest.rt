//! A text that is guessed from its front. Nothing rests on what is taken from it, since the whole
//! is written again and compared.

use memchr::memchr;
use std::alloc::Global;
use wf_names::Name;

/// What of a text is still to be read.
#[derive(Drop)]
pub(crate) struct Rest<'t> {
    /// The memory for what is made of it.
    pub(crate) alloc: Global,
    pub(crate) text: &'t [u8],
}

impl<'t> Rest<'t> {
    /// Goes past some bytes where they come next, and says whether they do.
    pub(crate) fn has(&mut self, bytes: &[u8]) -> bool {
        match self.text.strip_prefix(bytes) {
            Some(rest) => {
                self.text = rest;
                true
            }
            None => false,
        }
    }

    /// Goes past some bytes that have to come next. Where they do not, nothing is left to be read.
    pub(crate) fn skip(&mut self, bytes: &[u8]) {
        if !self.has(bytes) {
            self.text = b"";
        }
    }

    /// Takes the name that comes next, in quotes.
    pub(crate) fn take_name(&mut self) -> Option<Name> {
        let text = self.text.strip_prefix(b"\"")?;
        let end = memchr(b'"', text)?;
        self.text = &text[end + 1..];
        Name::of_bytes(&text[..end])
    }

    /// Takes the number that comes next: some number, where it has too many digits.
    pub(crate) fn take_number(&mut self) -> Option<u32> {
        let (n, rest) = guess_number(self.text)?;
        self.text = rest;
        Some(n)
    }
}

/// Some number, by the digits at the front of a text, and what follows.
pub(crate) fn guess_number(text: &[u8]) -> Option<(u32, &[u8])> {
    let mut n: u32 = 0;
    'digits: for at in 0..text.len() {
        if !text[at].is_ascii_digit() {
            return Some((n, &text[at..]));
        }
        n = n
            .wrapping_mul(10)
            .wrapping_add(text[at] as u32)
            .wrapping_sub(48);
    }
    None
}
