//! Tables of distinct names, each found by its number and by its text.
ghost use Rattle.std.specs.Prelude.{◌≡◌, ◌<◌, ◌≤◌, ◌↔◌, IsTrue, ℕ, List, [], ◌∷◌, ◌++◌, length};
ghost use Rattle.std.specs.Prelude.{is_some, IfOk, IfSome, OnOk, OnErr, IsErrOf, true, false};
ghost use Rattle.std.specs.Prelude.{slice_get, Some};
ghost use Rattle.wf_names.specs.Table.{Table, place_of, AreNames};

use crate::Name;
use crate::stored::StoredNames;
use basics::Shared;
use std::alloc::{AllocError, Global};
use std::marker::Model;

/// Why a name was not added.
#[derive(Clone, Copy)]
pub enum NameFault {
    /// The name is there already.
    Twice,
    /// The table has as many names as its limit.
    Full,
    /// There was no memory for it.
    NoMemory,
}

/// A list of distinct names, at most `limit` of them. A name's number is its place in the list.
#[derive(Drop)]
pub struct NameTable {
    names: Shared<StoredNames>,
    limit: u16,
}

impl Model for NameTable {
    ghost use Rattle.std.specs.Prelude.{length, ◌≤◌, ◌<◌, ◌^◌};
    ghost use Rattle.wf_names.specs.Table.{Table};

    ghost Value = { Table };

    ghost view = { λ t. record { names = t.names; limit = t.limit } };

    ghost invariant = { λ t. (length t.names ≤ t.limit) × (t.limit < 2 ^ 16) };
}

impl NameTable {
    /// An empty table that takes at most `limit` names.
    pub fn new(alloc: Global, limit: u16) -> Result<NameTable, AllocError>
        ensures { IfOk result (λ t. t ≡ record { names = []; limit = limit }) }
    {
        Ok(NameTable {
            names: Shared::new(alloc, StoredNames::new(alloc))?,
            limit,
        })
    }

    /// Adds a name at the end, and answers its number.
    pub fn add(&mut self, name: Name) -> Result<u16, NameFault>
        ensures place { IfOk result (λ n. n ≡ length self.old.names) }
        ensures added { OnOk result (self.new
            ≡ record self.old { names = self.old.names ++ name ∷ [] }) }
        ensures fresh { OnOk result (is_some (place_of self.old.names name) ≡ false) }
        ensures room { OnOk result (length self.old.names < self.old.limit) }

        ensures twice { IsErrOf result NameFault.Twice
            ↔ (is_some (place_of self.old.names name) ≡ true) }
        ensures full { IsErrOf result NameFault.Full
            ↔ ((is_some (place_of self.old.names name) ≡ false)
            × (length self.old.names ≡ self.old.limit)) }
        ensures unchanged { OnErr result (self.new ≡ self.old) }
    {
        if self.find(&name).is_some() {
            return Err(NameFault::Twice);
        }
        let count = self.len();
        if count >= self.limit {
            return Err(NameFault::Full);
        }
        match put_last(&mut self.names, name) {
            Ok(()) => Ok(count),
            Err(_) => Err(NameFault::NoMemory),
        }
    }

    /// The number of a name.
    pub fn find(&self, name: &Name) -> Option<u16>
        ensures place { result ≡ place_of self.now.names name.now }
        ensures within { IfSome result (λ n. n < length self.now.names) }
    {
        match self.names.get().find(name) {
            Some(place) => Some(place as u16),
            None => None,
        }
    }

    /// The name with a number.
    pub fn name(&self, n: u16) -> Name
        requires { n < length self.now.names }
        ensures name { slice_get self.now.names n ≡ Some result }
        ensures alone { place_of self.now.names result ≡ Some n }
    {
        self.names.get().name(n as usize)
    }

    /// How many names there are.
    pub fn len(&self) -> u16
        ensures count { result ≡ length self.now.names }
        ensures within { length self.now.names ≤ self.now.limit }
        ensures names { AreNames self.now.names }
    {
        self.names.get().len() as u16
    }

    /// Whether there is no name.
    pub fn is_empty(&self) -> bool
        ensures { IsTrue result ↔ (self.now.names ≡ []) }
    {
        self.names.get().is_empty()
    }

    /// A table with the same names and the same limit.
    pub fn copy(&self) -> Result<NameTable, AllocError>
        ensures { IfOk result (λ t. t ≡ self.now) }
    {
        Ok(NameTable {
            names: self.names.share()?,
            limit: self.limit,
        })
    }
}

// Adds a name that is not there at the end, for this table alone.
fn put_last(names: &mut Shared<StoredNames>, name: Name) -> Result<(), AllocError>
    requires { is_some (place_of names.old name) ≡ false }
    ensures added { OnOk result (names.new ≡ names.old ++ name ∷ []) }
    ensures unchanged { OnErr result (names.new ≡ names.old) }
{
    let own = names.edit()?;
    own.add(name)
}
