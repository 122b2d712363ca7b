ghost use Rattle.std.specs.Prelude.{◌≡◌, ◌≤◌, ◌<◌, ◌+◌, ◌++◌, ℕ, List, length, take, Option, IfOk};
ghost use Rattle.std.specs.Prelude.{IfSome, OnOk, OnErr, IsErrOf};
ghost use Rattle.wf_outside.specs.Laws.Outside.{Rose, CountsFailed, StaysUnlessFailed, HasTaken};
ghost use Rattle.wf_outside.specs.Laws.Outside.{HasTakenCount, HasTakenAtMost, IsAtEnd, ReadsAll};
ghost use Rattle.wf_outside.specs.declared.loaded.LoadFault.TheVariants.{Failed as ReadFailed};

use crate::{LoadFault, Loaded};
use std::alloc::Global;

/// A call to a source or a sink failed, and its count of faults has risen.
#[derive(Clone, Copy)]
pub struct Failed;

impl From<Failed> for LoadFault {
    ghost from_gives = { λ _ e. e ≡ ReadFailed };

    fn from(_: Failed) -> Self {
        LoadFault::Failed
    }
}

/// Where bytes come from, as standard input.
pub trait Source {
    /// The bytes that are still to come, or `None` where the source does not tell.
    ghost left: { Self → Option (List ℕ) };

    /// How often a call has failed.
    ghost faults: { Self → ℕ };

    /// Puts bytes at the front of `buf` and answers how many; 0 into a buffer that is not empty is
    /// the end.
    fn take(&mut self, buf: &mut [u8]) -> Result<usize, Failed>
        ensures within { IfOk result (λ n. n ≤ length buf.old) }
        ensures taken { IfOk result (λ n. HasTaken (left self.old) (left self.new)
            (take n buf.new)) }
        ensures ended { IfOk result (λ n. n ≡ 0 → 0 < length buf.old → IsAtEnd (left self.new)) }

        // After a fault the same bytes are still to come; what stands in `buf` is open.
        ensures kept { OnErr result (left self.new ≡ left self.old) }
        ensures faults { faults self.old ≤ faults self.new }
        ensures rose { OnErr result (Rose (faults self.old) (faults self.new)) }
        ensures stays { OnOk result (faults self.new ≡ faults self.old) };
}

// Takes the next bytes to the front of `buf`; how many.
fn take_some<S: Source>(source: &mut S, buf: &mut [u8]) -> Result<usize, Failed>
    ensures within { IfOk result (λ n. n ≤ length buf.old) }
    ensures taken { IfOk result (λ n. HasTaken (S.left source.old) (S.left source.new)
        (take n buf.new)) }
    ensures ended { IfOk result (λ n. n ≡ 0 → 0 < length buf.old → IsAtEnd (S.left source.new)) }
    ensures kept { OnErr result (S.left source.new ≡ S.left source.old) }
    ensures faults { S.faults source.old ≤ S.faults source.new }
    ensures rose { OnErr result (Rose (S.faults source.old) (S.faults source.new)) }
    ensures stays { OnOk result (S.faults source.new ≡ S.faults source.old) }
{
    source.take(buf)
}

// One call's bytes behind those that were taken before; how many came.
fn take_piece<S: Source>(
    source: &mut S,
    buf: &mut [u8],
    bytes: &mut Vec<u8>,
) -> Result<usize, LoadFault>
    ensures count { IfOk result (λ n. (n ≤ length buf.old)
        × (length bytes.new.items ≡ length bytes.old.items + n)) }
    ensures more { OnOk result ((before : Option (List ℕ))
        → HasTaken before (S.left source.old) bytes.old.items
        → HasTaken before (S.left source.new) bytes.new.items) }
    ensures ended { IfOk result (λ n. n ≡ 0 → 0 < length buf.old → IsAtEnd (S.left source.new)) }
    ensures part { (before : Option (List ℕ)) → HasTaken before (S.left source.old) bytes.old.items
        → HasTakenAtMost before (S.left source.new) (length bytes.old.items + length buf.old) }
    ensures fault { IsErrOf result LoadFault.TooLong → ⊥ }
    ensures faults { S.faults source.old ≤ S.faults source.new }
    ensures rose { IsErrOf result LoadFault.Failed
        → Rose (S.faults source.old) (S.faults source.new) }
    ensures stays { StaysUnlessFailed result (S.faults source.old) (S.faults source.new) }
{
    let count = take_some(source, buf)?;
    bytes.extend_from_slice(&buf[..count])?;
    Ok(count)
}

// How many bytes to ask for: a piece, but no more than one past the limit.
fn next_room(taken: usize, limit: usize, chunk: usize) -> usize
    requires below { taken ≤ limit }
    requires some { 0 < chunk }
    ensures some { 0 < result }
    ensures piece { result ≤ chunk }
    ensures one_past { taken + result ≤ limit + 1 }
{
    let missing = limit - taken;
    if missing < chunk { missing + 1 } else { chunk }
}

/// All that is left of `source`, at most `limit` bytes, taken in pieces of at most `chunk`.
/// One byte more than `limit` shows that there are too many, and none is taken after it.
pub fn take_all<S: Source>(
    alloc: Global,
    source: &mut S,
    limit: usize,
    chunk: usize,
) -> Result<Loaded, LoadFault>
    requires { 0 < chunk }

    // What the source gave, where this ends well and where it does not.
    ensures taken { IfOk result (λ bytes. HasTaken (S.left source.old) (S.left source.new) bytes) }
    ensures ended { OnOk result (IsAtEnd (S.left source.new)) }
    ensures within { IfOk result (λ bytes. length bytes ≤ limit) }
    ensures too_long { IsErrOf result LoadFault.TooLong
        → HasTakenCount (S.left source.old) (S.left source.new) (limit + 1) }
    ensures part { HasTakenAtMost (S.left source.old) (S.left source.new) (limit + 1) }

    // The same of a source that tells.
    ensures told { IfSome (S.left source.old) (λ content. ReadsAll content limit result) }

    ensures counts { CountsFailed result (S.faults source.old) (S.faults source.new) }
{
    let mut bytes = Vec::new(alloc);
    let mut buf = vec![in alloc; 0u8; chunk]?;
    'taking: while bytes.len() <= limit {
        let room = next_room(bytes.len(), limit, chunk);
        if take_piece(source, &mut buf[..room], &mut bytes)? == 0 {
            return Ok(Loaded::from_bytes(bytes));
        }
    }
    Err(LoadFault::TooLong)
}
