ghost use Rattle.std.specs.Prelude.{◌≡◌, ◌<◌, ℕ, List, [], ◌∷◌, ◌++◌, length, slice_index, IfOk};
ghost use Rattle.std.specs.Prelude.{OnOk, OnErr};
ghost use Rattle.wf_outside.specs.declared.loaded.LoadFault.TheVariants.{NoMemory};

use std::alloc::{AllocError, AllocFailed, Global};
use std::marker::Model;

/// Why a file, or all of an input, could not be read.
#[derive(Clone, Copy)]
pub enum LoadFault {
    /// Reading failed, and the count of faults has risen.
    Failed,
    /// There are more bytes than the limit.
    TooLong,
    /// An allocation was refused.
    NoMemory,
}

impl From<AllocError> for LoadFault {
    ghost from_gives = { λ _ e. e ≡ NoMemory };

    fn from(_: AllocError) -> Self {
        LoadFault::NoMemory
    }
}

impl<T: Drop> From<AllocFailed<T>> for LoadFault {
    ghost from_gives = { λ _ e. e ≡ NoMemory };

    fn from(_: AllocFailed<T>) -> Self {
        LoadFault::NoMemory
    }
}

/// The bytes that were read.
#[derive(Drop)]
pub struct Loaded {
    bytes: Vec<u8>,
}

impl Model for Loaded {
    ghost Value = { List ℕ };

    ghost view = { λ a. a.bytes.items };
}

impl Loaded {
    pub fn new(alloc: Global) -> Self
        ensures { result ≡ [] }
    {
        Loaded {
            bytes: Vec::new(alloc),
        }
    }

    pub fn from_bytes(bytes: Vec<u8>) -> Self
        ensures { result ≡ bytes.items }
    {
        Loaded { bytes }
    }

    pub fn len(&self) -> usize
        ensures { result ≡ length self.now }
    {
        self.bytes.len()
    }

    pub fn get(&self, i: usize) -> &u8
        requires { i < length self.now }
        ensures { result.now ≡ slice_index self.now i }
    {
        &self.bytes[i]
    }

    pub fn push(&mut self, byte: u8) -> Result<(), AllocError>
        ensures pushed { OnOk result (self.new ≡ self.old ++ byte ∷ []) }
        ensures unchanged { OnErr result (self.new ≡ self.old) }
    {
        self.bytes.push(byte)?;
        Ok(())
    }

    pub fn copy(&self) -> Result<Loaded, AllocError>
        ensures { IfOk result (λ same. same ≡ self.now) }
    {
        Ok(Loaded {
            bytes: self.bytes.clone()?,
        })
    }

    pub fn as_bytes(&self) -> &[u8]
        ensures { result.now ≡ self.now }
    {
        &self.bytes
    }
}
