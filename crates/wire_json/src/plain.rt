//! Reading a request about a step without making a value of its line.
ghost use Rattle.std.specs.Prelude.{◌≡◌, ◌<◌, ◌+◌, ◌∷◌, [], ◌++◌, length, take, drop, decimal};
ghost use Rattle.std.specs.Prelude.{codes};
ghost use Rattle.std.specs.Prelude.{IfSome, Some, true};
ghost use Rattle.serde_json.specs.Data.{object};
ghost use Rattle.wire_json.specs.Requests as read;
ghost use Rattle.wire_json.specs.Plain.{request_of, word, known_members, lane_known};
ghost use Rattle.wire_json.specs.Plain.{IsSpaced, ReadsValue, ReadsPart};

use crate::Asked;
use itoa::Buffer;
use memchr::memchr;
use wf_names::{CaseId, Name};
use wf_talk::{Ask, Request};

/// What is asked of a step by its user.
#[derive(Clone, Copy)]
pub(crate) enum Act {
    Claim,
    Finish,
    GiveBack,
}

/// What stands at the keys of a line, as far as it was read.
#[derive(Clone, Copy)]
pub(crate) struct Known {
    act: Option<Act>,
    case: Option<u16>,
    lane: Option<u16>,
    step: Option<Name>,
    user: Option<Name>,
}

/// What a line asks that is a claim, a finish or a return as most are written: its keys, in any
/// order, each come once, and it has no blanks but for one behind a colon or a comma. None says
/// nothing.
pub(crate) fn read_plain(line: &[u8], lanes: u8) -> Option<Asked>
    ensures { IfSome result (λ asked. asked ≡ read.asked_of lanes line.now) }
{
    let mut known = Known {
        act: None,
        case: None,
        lane: None,
        step: None,
        user: None,
    };
    let mut rest = take(line, b"{")?;
    // There are five keys, and none comes twice.
    'parts: for _ in 0..5 {
        rest = read_part(rest, &mut known)?;
        if is_end(rest) {
            return known.asked(lanes);
        }
        rest = take_spaced(rest, b",")?;
    }
    None
}

// Reads a key and its value, and gives what follows them.
fn read_part<'t>(text: &'t [u8], known: &mut Known) -> Option<&'t [u8]>
    ensures { IfSome result (λ rest. ReadsPart text.now known.old known.new rest.now) }
{
    match *text.get(1)? {
        b'd' => known.read_act(take_spaced(text, b"\"do\":")?),
        b'c' => known.read_case(take_spaced(text, b"\"case\":")?),
        b's' => known.read_step(take_spaced(text, b"\"step\":")?),
        b'u' => known.read_user(take_spaced(text, b"\"user\":")?),
        b'l' => known.read_lane(take_spaced(text, b"\"lane\":")?),
        _ => None,
    }
}

impl Known {
    // Reads the value at the key do, and gives what follows it.
    fn read_act<'t>(&mut self, text: &'t [u8]) -> Option<&'t [u8]>
        ensures { IfSome result (λ rest. ReadsValue (codes "do") text.now self.old self.new
            rest.now) }
    {
        if self.act.is_some() {
            return None;
        }
        let (act, rest) = take_act(text)?;
        self.act = Some(act);
        Some(rest)
    }

    // Reads the value at the key case, and gives what follows it.
    fn read_case<'t>(&mut self, text: &'t [u8]) -> Option<&'t [u8]>
        ensures { IfSome result (λ rest. ReadsValue read.case text.now self.old self.new rest.now) }
    {
        if self.case.is_some() {
            return None;
        }
        let (case, rest) = take_number(text)?;
        self.case = Some(case);
        Some(rest)
    }

    // Reads the value at the key lane, and gives what follows it.
    fn read_lane<'t>(&mut self, text: &'t [u8]) -> Option<&'t [u8]>
        ensures { IfSome result (λ rest. ReadsValue (codes "lane") text.now self.old self.new
            rest.now) }
    {
        if self.lane.is_some() {
            return None;
        }
        let (lane, rest) = take_number(text)?;
        self.lane = Some(lane);
        Some(rest)
    }

    // Reads the value at the key step, and gives what follows it.
    fn read_step<'t>(&mut self, text: &'t [u8]) -> Option<&'t [u8]>
        ensures { IfSome result (λ rest. ReadsValue read.step text.now self.old self.new rest.now) }
    {
        if self.step.is_some() {
            return None;
        }
        let (bytes, rest) = take_quoted(text)?;
        self.step = Some(Name::of_bytes(bytes)?);
        Some(rest)
    }

    // Reads the value at the key user, and gives what follows it.
    fn read_user<'t>(&mut self, text: &'t [u8]) -> Option<&'t [u8]>
        ensures { IfSome result (λ rest. ReadsValue read.user text.now self.old self.new rest.now) }
    {
        if self.user.is_some() {
            return None;
        }
        let (bytes, rest) = take_quoted(text)?;
        self.user = Some(Name::of_bytes(bytes)?);
        Some(rest)
    }

    // What is asked, where all is known that a request about a step needs.
    fn asked(&self, lanes: u8) -> Option<Asked>
        ensures { IfSome result (λ asked. asked
            ≡ read.asked (read.request_in lanes (object (known_members self.now)))) }
    {
        let act = self.act?;
        let case = case_id(self.case?);
        let step = self.step?;
        let user = self.user?;
        let lane = self.lane_below(lanes)?;
        // Both have a name's form.
        let (_step, _user) = (step.as_str(), user.as_str());
        Some(Asked {
            lane,
            ask: Ask::Request(act.request(case, step, user)),
        })
    }

    // The lane, which is the first one where none is named.
    fn lane_below(&self, lanes: u8) -> Option<u8>
        ensures { IfSome result (λ n. lane_known lanes self.now.lane ≡ Some n) }
    {
        match self.lane {
            None => Some(0),
            Some(lane) if lane < lanes as u16 => Some(lane as u8),
            Some(_) => None,
        }
    }
}

impl Act {
    /// The request.
    pub(crate) fn request(self, case: CaseId, step: Name, user: Name) -> Request
        ensures { result ≡ request_of self case step user }
    {
        match self {
            Act::Claim => Request::Claim { case, step, user },
            Act::Finish => Request::Finish { case, step, user },
            Act::GiveBack => Request::GiveBack { case, step, user },
        }
    }
}

// The case of a number.
fn case_id(n: u16) -> CaseId
    ensures case { result ≡ n }
    ensures small { n < 65536 }
{
    CaseId(n)
}

// What the word at the front of a text asks, and what follows it.
fn take_act(text: &[u8]) -> Option<(Act, &[u8])>
    ensures { IfSome result (λ p. text.now ≡ 34 ∷ (word p.0 ++ 34 ∷ p.1.now)) }
{
    if let Some(rest) = take(text, b"\"claim\"") {
        return Some((Act::Claim, rest));
    }
    if let Some(rest) = take(text, b"\"finish\"") {
        return Some((Act::Finish, rest));
    }
    let rest = take(text, b"\"give_back\"")?;
    Some((Act::GiveBack, rest))
}

// What stands in quotes at the front of a text, without an escape, and what follows it.
fn take_quoted(text: &[u8]) -> Option<(&[u8], &[u8])>
    ensures { IfSome result (λ p. text.now ≡ 34 ∷ (p.0.now ++ 34 ∷ p.1.now)) }
{
    let rest = take(text, b"\"")?;
    let end = quote_at(rest)?;
    Some((&rest[..end], &rest[end + 1..]))
}

// Whether all that is left of a text is the brace at its end.
fn is_end(text: &[u8]) -> bool
    ensures { result ≡ true → text.now ≡ 125 ∷ [] }
{
    text == b"}".as_slice()
}

// How long a text is up to its first quote.
fn quote_at(text: &[u8]) -> Option<usize>
    ensures within { IfSome result (λ n. n < length text.now) }
    ensures quote { IfSome result (λ n. text.now ≡ take n text.now ++ 34 ∷ drop (n + 1) text.now) }
{
    memchr(b'"', text)
}

// The number at the front of a text, without a zero at its front, and what follows it.
fn take_number(text: &[u8]) -> Option<(u16, &[u8])>
    ensures text { IfSome result (λ p. text.now ≡ decimal p.0 ++ p.1.now) }
    ensures small { IfSome result (λ p. p.0 < 65536) }
{
    let n = guess_number(text);
    let mut digits = Buffer::new();
    let rest = take(text, digits.format(n).as_bytes())?;
    Some((n, rest))
}

/// Some number: that of the digits at the front of a text, where it is below 65,536.
pub(crate) fn guess_number(text: &[u8]) -> u16 {
    let mut n: u16 = 0;
    'digits: for byte in text {
        if !byte.is_ascii_digit() {
            return n;
        }
        n = n
            .wrapping_mul(10)
            .wrapping_add(*byte as u16)
            .wrapping_sub(48);
    }
    n
}

// What follows some bytes at the front of a text. They are few, and a text that does not begin with
// them mostly differs early.
#[inline(always)]
fn take<'t>(text: &'t [u8], front: &[u8]) -> Option<&'t [u8]>
    ensures { IfSome result (λ rest. text.now ≡ front.now ++ rest.now) }
{
    if text.len() < front.len() {
        return None;
    }
    'bytes: for i in 0..front.len() {
        if text[i] != front[i] {
            return None;
        }
    }
    Some(&text[front.len()..])
}

// What follows some bytes at the front of a text, and a blank behind them, where there is one.
#[inline(always)]
fn take_spaced<'t>(text: &'t [u8], front: &[u8]) -> Option<&'t [u8]>
    ensures { IfSome result (λ rest. IsSpaced front.now text.now rest.now) }
{
    let rest = take(text, front)?;
    if !rest.is_empty() && rest[0] == b' ' {
        return Some(&rest[1..]);
    }
    Some(rest)
}
