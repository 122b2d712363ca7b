//! A list that only grows, with the room that is left in it.
ghost use Rattle.std.specs.Prelude.{◌≡◌, ◌<◌, ◌≤◌, ◌+◌, [], ◌∷◌, ◌++◌, length, slice_get, Some};
ghost use Rattle.std.specs.Prelude.{IfOk, IsOk, OnOk, OnErr};

use crate::Same;
use std::alloc::{AllocError, Global};
use std::marker::Model;

/// Entries in order. Contracts also see the room that is left: how many more entries can be
/// added before memory is asked for.
#[derive(Drop)]
pub struct Log<T> {
    items: Vec<T>,
}

impl<T> Model for Log<T> {
    ghost use Rattle.std.specs.Prelude.{◌-◌, vec_len, vec_capacity};
    ghost use Rattle.basics.specs.Logs.{LogShape, log_code};

    ghost Value = { LogShape T };

    ghost coded = { log_code T.code };

    ghost view = { λ l.
        record { entries = l.items.items; spare = vec_capacity l.items - vec_len l.items } };
}

impl<T> Log<T> {
    /// A log without entries.
    pub fn new(alloc: Global) -> Log<T>
        ensures { result.entries ≡ [] }
    {
        Log {
            items: Vec::new(alloc),
        }
    }

    /// How many entries there are.
    pub fn len(&self) -> usize
        ensures { result ≡ length self.now.entries }
    {
        self.items.len()
    }

    /// The entry at a place.
    pub fn get(&self, i: usize) -> &T
        requires { i < length self.now.entries }
        ensures { slice_get self.now.entries i ≡ Some result.now }
    {
        &self.items[i]
    }

    /// The entries, in order.
    pub fn as_slice(&self) -> &[T]
        ensures { result.now ≡ self.now.entries }
    {
        &self.items
    }
}

impl<T> Log<T> {
    /// Makes room for `more` further entries. Where it is there already, this succeeds.
    pub fn reserve(&mut self, more: u32) -> Result<(), AllocError>
        ensures succeeds { more ≤ self.old.spare → IsOk result }
        ensures room { OnOk result (more ≤ self.new.spare) }
        ensures kept { self.old.spare ≤ self.new.spare }
        ensures entries { self.new.entries ≡ self.old.entries }
        ensures unchanged { OnErr result (self.new ≡ self.old) }
    {
        self.items.reserve(more as usize)
    }
}

impl<T: Drop> Log<T> {
    /// Adds an entry at the end. Where there is room this takes no memory and succeeds.
    pub fn push(&mut self, entry: T) -> Result<(), AllocError>
        ensures pushed { OnOk result (self.new.entries ≡ self.old.entries ++ entry ∷ []) }
        ensures unchanged { OnErr result (self.new ≡ self.old) }
        ensures succeeds { 0 < self.old.spare → IsOk result }
        ensures room { self.old.spare ≤ self.new.spare + 1 }
    {
        self.reserve(1)?;
        self.items.push(entry)?;
        Ok(())
    }
}

impl<T: Same> Log<T> {
    /// A log with equal entries.
    pub fn copy_each(&self) -> Result<Log<T>, AllocError>
        ensures { IfOk result (λ l. l.entries ≡ self.now.entries) }
    {
        let mut items = Vec::with_capacity(*self.items.allocator(), self.items.len())?;
        'entries: for entry in &self.items {
            items.push(entry.same()?)?;
        }
        Ok(Log { items })
    }
}

impl<T: Copy> Log<T> {
    /// Adds a copy of an entry at the end. Where there is room this takes no memory and succeeds.
    pub fn add(&mut self, entry: &T) -> Result<(), AllocError>
        ensures added { OnOk result (self.new.entries ≡ self.old.entries ++ entry.now ∷ []) }
        ensures unchanged { OnErr result (self.new ≡ self.old) }
        ensures succeeds { 0 < self.old.spare → IsOk result }
        ensures room { self.old.spare ≤ self.new.spare + 1 }
    {
        self.reserve(1)?;
        self.items.push(*entry)?;
        Ok(())
    }

    /// A log with the same entries.
    pub fn copy(&self) -> Result<Log<T>, AllocError>
        ensures { IfOk result (λ l. l.entries ≡ self.now.entries) }
    {
        Ok(Log {
            items: Vec::from_slice(*self.items.allocator(), &self.items)?,
        })
    }
}
