//! A list of values.
ghost use Rattle.std.specs.Prelude.{◌≡◌, ◌<◌, [], ◌∷◌, ◌++◌, length, take, slice_get, Some, IfOk};
ghost use Rattle.std.specs.Prelude.{OnOk, OnErr};

use std::alloc::{AllocError, Global};
use std::marker::Model;

/// Values in order. Contracts see the list of them, and not the memory that keeps it.
#[derive(Drop)]
pub struct List<T> {
    items: Vec<T>,
}

impl<T> Model for List<T> {
    ghost use Rattle.std.specs.Coded.{coded_list};
    ghost use Rattle.std.specs.Prelude.{List as Items};

    ghost Value = { Items T };

    ghost coded = { coded_list T.code };

    ghost view = { λ l. l.items.items };
}

impl<T> List<T> {
    /// The empty list.
    pub fn new(alloc: Global) -> List<T>
        ensures { result ≡ [] }
    {
        List {
            items: Vec::new(alloc),
        }
    }

    /// The list of these values.
    pub fn from_vec(items: Vec<T>) -> List<T>
        ensures { result ≡ items.items }
    {
        List { items }
    }

    /// How many there are.
    pub fn len(&self) -> usize
        ensures { result ≡ length self.now }
    {
        self.items.len()
    }

    /// The one at a place.
    pub fn get(&self, i: usize) -> &T
        requires { i < length self.now }
        ensures { slice_get self.now i ≡ Some result.now }
    {
        &self.items[i]
    }

    /// All of them, in order.
    pub fn as_slice(&self) -> &[T]
        ensures { result.now ≡ self.now }
    {
        &self.items
    }
}

impl<T: Drop> List<T> {
    /// Adds one at the end.
    pub fn push(&mut self, item: T) -> Result<(), AllocError>
        ensures pushed { OnOk result (self.new ≡ self.old ++ item ∷ []) }
        ensures unchanged { OnErr result (self.new ≡ self.old) }
    {
        self.items.push(item)?;
        Ok(())
    }

    /// Keeps the first `len` items alone. Takes no memory.
    pub fn truncate(&mut self, len: usize)
        ensures { self.new ≡ take len self.old }
    {
        self.items.truncate(len);
    }
}

impl<T: Copy> List<T> {
    /// Adds a copy of one at the end.
    pub fn add(&mut self, item: &T) -> Result<(), AllocError>
        ensures added { OnOk result (self.new ≡ self.old ++ item.now ∷ []) }
        ensures unchanged { OnErr result (self.new ≡ self.old) }
    {
        self.items.push(*item)?;
        Ok(())
    }

    /// Adds copies of all of these at the end, in order.
    pub fn push_all(&mut self, items: &[T]) -> Result<(), AllocError>
        ensures pushed { OnOk result (self.new ≡ self.old ++ items.now) }
        ensures unchanged { OnErr result (self.new ≡ self.old) }
    {
        self.items.extend_from_slice(items)
    }

    /// A list of the same ones.
    pub fn copy(&self) -> Result<List<T>, AllocError>
        ensures { IfOk result (λ l. l ≡ self.now) }
    {
        Ok(List {
            items: Vec::from_slice(*self.items.allocator(), &self.items)?,
        })
    }
}

impl<T: Copy> Clone for List<T> {
    ghost is_clone = { λ x y. y ≡ x };

    fn clone(&self) -> Result<List<T>, AllocError> {
        self.copy()
    }
}

impl List<u8> {
    /// All of the bytes, in order.
    pub fn as_bytes(&self) -> &[u8]
        ensures { result.now ≡ self.now }
    {
        &self.items
    }
}
