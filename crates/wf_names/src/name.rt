//! Names of users, roles, relations, workflows and steps.
ghost use Rattle.std.specs.Prelude.{◌≡◌, ◌≤◌, ◌↔◌, IsSome, IfSome, IsTrue, nat_eq, replicate};
ghost use Rattle.std.specs.List.{list_all};
ghost use Rattle.std.specs.Cmp.{partial_equiv_from_equiv};
ghost use Rattle.std.specs.Cmp.Lexicographic.{pointwise, nat_list_eq_equiv};
ghost use Rattle.std.specs.Cmp.Rules.{hashing};
ghost use Rattle.std.specs.Hash as fed;
ghost use Rattle.std.proofs.Common.{rules};
ghost use Rattle.wf_names.specs.Names.{is_name, is_name_byte, is_letter, starts_with_letter};

use crate::NAME_LIMIT;
use std::hash::{Hash, Hasher};
use std::marker::Model;
use std::str;

/// A name: 1 to 40 bytes of `a-z`, `0-9` and `_`, the first of them a letter. Contracts see its
/// bytes.
#[derive(Clone, Copy)]
pub struct Name {
    bytes: [u8; NAME_LIMIT],
    len: u8,
}

impl Model for Name {
    ghost use Rattle.std.specs.Prelude.{List, ℕ, length, take};
    ghost use Rattle.wf_names.specs.declared.limits.TheConstants.{NAME_LIMIT};
    ghost use Rattle.wf_names.specs.Names.{IsStoredName};
    ghost use Rattle.wf_names.specs.Padded.{padded, padded-take, length-taken};

    ghost Value = { List ℕ };

    ghost view = { λ n. take n.len n.bytes };

    ghost invariant = { λ n. IsStoredName n.bytes n.len };

    ghost inverse = { λ v. record { bytes = padded NAME_LIMIT 0 v; len = length v } };

    ghost inverse_ok = { λ n h i. record {
      bytes = padded-take NAME_LIMIT 0 n.bytes n.len
          h.cells i;
      len = length-taken NAME_LIMIT 0 n.bytes n.len h.cells i;
    } };
}

impl Name {
    /// The name that a text is; None where it is not of a name's form.
    pub fn read(text: &str) -> Option<Name>
        ensures form { IsSome result ↔ IsTrue (is_name text.now) }
        ensures value { IfSome result (λ n. n ≡ text.now) }
    {
        Name::of_bytes(text.as_bytes())
    }

    /// The name that the bytes of a text are; None where they are not of a name's form.
    pub fn of_bytes(bytes: &[u8]) -> Option<Name>
        ensures form { IsSome result ↔ IsTrue (is_name bytes.now) }
        ensures value { IfSome result (λ n. n ≡ bytes.now) }
    {
        if has_form(bytes) {
            Some(stored(bytes))
        } else {
            None
        }
    }

    /// The name as text.
    pub fn as_str(&self) -> &str
        ensures text { result.now ≡ self.now }
        ensures form { IsTrue (is_name self.now) }
    {
        // A name's bytes are ASCII.
        unsafe { str::from_utf8_unchecked(&self.bytes[..self.len as usize]) }
    }
}

impl PartialEq for Name {
    ghost eq = { pointwise nat_eq };

    ghost laws = { partial_equiv_from_equiv nat_list_eq_equiv };

    fn eq(&self, other: &Name) -> bool {
        self.as_str() == other.as_str()
    }
}

impl Eq for Name {
    ghost laws = { nat_list_eq_equiv };
}

impl Hash for Name {
    ghost hash_input = { fed.str };

    ghost respects_eq = { Prim.search (hashing, rules) };

    fn hash<H: Hasher>(&self, state: &mut H) {
        self.as_str().hash(state);
    }
}

/// Whether bytes are of a name's form.
#[tactic(auto, unfolding(crate::specs::Names::is_name))]
fn has_form(bytes: &[u8]) -> bool
    ensures { result ≡ is_name bytes.now }
{
    starts_with_letter(bytes) && all_in_names(bytes) && bytes.len() <= NAME_LIMIT
}

fn starts_with_letter(bytes: &[u8]) -> bool
    ensures { result ≡ starts_with_letter bytes.now }
{
    match bytes {
        [] => false,
        [first, ..] => is_letter(*first),
    }
}

fn all_in_names(bytes: &[u8]) -> bool
    ensures { result ≡ list_all is_name_byte bytes.now }
{
    bytes.iter().all(|b| is_name_byte(*b))
}

fn is_letter(byte: u8) -> bool
    ensures { result ≡ is_letter byte }
{
    byte >= b'a' && byte <= b'z'
}

fn is_name_byte(byte: u8) -> bool
    ensures { result ≡ is_name_byte byte }
{
    is_letter(byte) || (byte >= b'0' && byte <= b'9') || byte == b'_'
}

/// The name of these bytes.
fn stored(bytes: &[u8]) -> Name
    requires { IsTrue (is_name bytes.now) }
    ensures { result ≡ bytes.now }
{
    let mut cells = blank();
    cells[..bytes.len()].copy_from_slice(bytes);
    Name {
        bytes: cells,
        len: bytes.len() as u8,
    }
}

fn blank() -> [u8; NAME_LIMIT]
    ensures { result ≡ replicate NAME_LIMIT 0 }
{
    [0; NAME_LIMIT]
}
