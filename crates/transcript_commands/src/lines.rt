//! The lines of a transcript.
ghost use Rattle.std.specs.Prelude.{◌≡◌, ◌≢◌, ◌<◌, ◌≤◌, ◌-◌, ℕ, length, nat_lt, slice_index};
ghost use Rattle.std.specs.Prelude.{take, drop};
ghost use Rattle.wf_names.specs.declared.limits.TheConstants.{TRANSCRIPT_LINE_LIMIT};
ghost use Rattle.line_reader.specs.Reader.{behind_line, first_line, line_length, lines_of};
ghost use Rattle.transcript_commands.specs.Resumed.{first_long, whole_lines};

use memchr::{memchr, memrchr};
use wf_names::TRANSCRIPT_LINE_LIMIT;

/// How many bytes there are up to the last LF and with it: none where there is no LF.
pub fn whole(transcript: &[u8]) -> usize
    ensures within { result ≤ length transcript.now }
    ensures ended { 0 < result → slice_index transcript.now (result - 1) ≡ 10 }
    ensures last { (k : ℕ) → result ≤ k → k < length transcript.now
        → slice_index transcript.now k ≢ 10 }
{
    match memrchr(b'\n', transcript) {
        Some(place) => place + 1,
        None => 0,
    }
}

/// The whole lines.
pub(crate) fn whole_lines(transcript: &[u8]) -> &[u8]
    ensures { result.now ≡ whole_lines transcript.now }
{
    &transcript[..whole(transcript)]
}

/// How many bytes the first line has, with its LF.
pub fn first_len(text: &[u8]) -> usize
    requires { 0 < length text.now }
    ensures some { 0 < result }
    ensures within { result ≤ length text.now }
    ensures line { take result text.now ≡ first_line text.now }
    ensures behind { drop result text.now ≡ behind_line text.now }
{
    match memchr(b'\n', text) {
        Some(place) => place + 1,
        None => text.len(),
    }
}

/// The number of the first whole line of a transcript that is longer than a line may be, if one is.
pub fn first_long(transcript: &[u8]) -> Option<u32>
    requires { length transcript.now < 4294967296 }
    ensures { result ≡ first_long 0 (lines_of (whole_lines transcript.now)) }
{
    first_long_of(whole_lines(transcript))
}

// The number of the first line of a text that is too long, if one is.
fn first_long_of(text: &[u8]) -> Option<u32>
    requires { length text.now < 4294967296 }
    ensures { result ≡ first_long 0 (lines_of text.now) }
{
    let mut at = 0;
    let mut number = 0;
    'looking: while at < text.len() {
        let rest = &text[at..];
        if is_long(rest) {
            return Some(number);
        }
        at += first_len(rest);
        number += 1;
    }
    None
}

/// Whether the first line is longer than a line of a transcript may be.
pub fn is_long(text: &[u8]) -> bool
    ensures { result ≡ nat_lt TRANSCRIPT_LINE_LIMIT (line_length text.now) }
{
    line_len(text) > TRANSCRIPT_LINE_LIMIT
}

// How many bytes the first line has, without its LF.
fn line_len(text: &[u8]) -> usize
    ensures { result ≡ line_length text.now }
{
    match memchr(b'\n', text) {
        Some(place) => place,
        None => text.len(),
    }
}
