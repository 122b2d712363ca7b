//! All that a reader gives, up to a limit.
ghost use Rattle.std.specs.Prelude.{◌≡◌, ◌≤◌, ◌<◌, ◌+◌, ℕ, List, length, Option, IfOk, IfSome};
ghost use Rattle.std.specs.Prelude.{OnOk, IsErrOf};
ghost use Rattle.std.specs.Io.KnownBytes.{Consumes, IsAtEnd};
ghost use Rattle.wf_outside.specs.Laws.Outside.{ReadsAll};

use std::alloc::Global;
use std::io::Read;
use wf_outside::{LoadFault, Loaded};

/// All that is left of a reader, at most `limit` bytes, read in pieces of at most `chunk`. One byte
/// more than `limit` shows that there are too many, and none is read after it.
pub(crate) fn read_all<R: Read>(
    alloc: Global,
    reader: &mut R,
    limit: usize,
    chunk: usize,
) -> Result<Loaded, LoadFault>
    requires { 0 < chunk }
    ensures told { IfSome (R.remaining reader.old) (λ content. ReadsAll content limit result) }
    ensures within { IfOk result (λ bytes. length bytes ≤ limit) }
{
    let mut bytes = Vec::new(alloc);
    let mut buf = vec![in alloc; 0u8; chunk]?;
    'reading: while bytes.len() <= limit {
        let room = (limit - bytes.len()).min(chunk - 1) + 1;
        if read_piece(reader, &mut buf[..room], &mut bytes)? == 0 {
            return Ok(Loaded::from_bytes(bytes));
        }
    }
    Err(LoadFault::TooLong)
}

// One read's bytes behind those that were read before; how many came.
fn read_piece<R: Read>(
    reader: &mut R,
    buf: &mut [u8],
    bytes: &mut Vec<u8>,
) -> Result<usize, LoadFault>
    ensures count { IfOk result (λ n. (n ≤ length buf.old)
        × (length bytes.new.items ≡ length bytes.old.items + n)) }
    ensures more { OnOk result ((before : Option (List ℕ))
        → Consumes before (R.remaining reader.old) bytes.old.items
        → Consumes before (R.remaining reader.new) bytes.new.items) }
    ensures ended { IfOk result (λ n. n ≡ 0 → 0 < length buf.old
        → IsAtEnd (R.remaining reader.new)) }
    ensures fault { IsErrOf result LoadFault.TooLong → ⊥ }
{
    let Ok(count) = reader.read(buf) else {
        return Err(LoadFault::Failed);
    };
    bytes.extend_from_slice(&buf[..count])?;
    Ok(count)
}
