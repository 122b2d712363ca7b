//! The names of a table, as they are kept.
ghost use Rattle.std.specs.Prelude.{◌≡◌, ◌<◌, ◌↔◌, IsTrue, List, [], ◌∷◌, ◌++◌, length, is_some};
ghost use Rattle.std.specs.Prelude.{IfSome, OnOk, OnErr, false, slice_get, Some};
ghost use Rattle.wf_names.specs.Table.{place_of, AreNames};

use crate::Name;
use basics::Copied;
use indexmap::IndexSet;
use std::alloc::{AllocError, Global};
use std::marker::Model;

/// Distinct names in the order in which they were added. Contracts see their list.
#[derive(Drop)]
pub(crate) struct StoredNames {
    set: IndexSet<Name>,
}

impl Model for StoredNames {
    ghost use Rattle.std.specs.Prelude.{List, ℕ, IsTrue};
    ghost use Rattle.std.specs.List.{All};
    ghost use Rattle.wf_names.specs.Names.{is_name};

    ghost Value = { List (List ℕ) };

    ghost view = { λ n. n.set.keys };

    ghost invariant = { λ n. All (λ name. IsTrue (is_name name)) n.set.keys };
}

impl StoredNames {
    pub(crate) fn new(alloc: Global) -> StoredNames
        ensures { result ≡ [] }
    {
        StoredNames {
            set: IndexSet::new(alloc),
        }
    }

    /// Adds a name that is not there, at the end.
    pub(crate) fn add(&mut self, name: Name) -> Result<(), AllocError>
        requires { is_some (place_of self.old name) ≡ false }
        ensures added { OnOk result (self.new ≡ self.old ++ name ∷ []) }
        ensures unchanged { OnErr result (self.new ≡ self.old) }
    {
        self.set.insert_full(name)?;
        Ok(())
    }

    pub(crate) fn find(&self, name: &Name) -> Option<usize>
        ensures place { result ≡ place_of self.now name.now }
        ensures within { IfSome result (λ n. n < length self.now) }
    {
        self.set.get_index_of(name)
    }

    pub(crate) fn name(&self, n: usize) -> Name
        requires { n < length self.now }
        ensures name { slice_get self.now n ≡ Some result }
        ensures alone { place_of self.now result ≡ Some n }
    {
        let count = self.set.len();
        prove!(n < count);
        match self.set.get_index(n) {
            Some(name) => *name,
            None => unreachable!(),
        }
    }

    pub(crate) fn len(&self) -> usize
        ensures count { result ≡ length self.now }
        ensures names { AreNames self.now }
    {
        self.set.len()
    }

    pub(crate) fn is_empty(&self) -> bool
        ensures { IsTrue result ↔ (self.now ≡ []) }
    {
        self.set.is_empty()
    }
}

impl Clone for StoredNames {
    ghost is_clone = { λ x y. y ≡ x };

    fn clone(&self) -> Result<StoredNames, AllocError> {
        Ok(StoredNames {
            set: self.set.clone()?,
        })
    }
}

impl Copied for StoredNames {
    ghost equal = { λ x y h. h };
}
