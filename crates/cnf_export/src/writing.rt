//! Writing the clauses of a case, in pieces.
ghost use Rattle.std.specs.Prelude.{◌≡◌, ◌++◌, [], IsErrOf, OnErr, OnOk};
ghost use Rattle.std.specs.List.{flat_map};
ghost use Rattle.wf_outside.specs.Laws.Outside.{HasPart, Rose, with_bytes};
ghost use Rattle.cnf_export.specs.Text.{clause_line, dimacs_text};
ghost use Rattle.cnf_export.specs.Writing.{not_written, StaysUnlessUnwritten};

use crate::text::{push_clause, push_header};
use crate::{Encoder, Literals};
use basics::Fault;
use std::alloc::Global;
use wf_outside::{Failed, Sink, put_all, put_and_flush};

/// From how many bytes on the text is put.
const PIECE: usize = 65_536;

/// Why clauses were not written whole: the sink failed, and its count of faults has risen, or there
/// was no memory.
pub type WriteFault = Fault<Failed>;

/// Writes the text of all clauses, with an encoder that is before the first one, and lets it go. No
/// more of the text is kept than a piece and the line of one clause, so that after a fault the sink
/// holds a prefix of it.
pub fn write_clauses<K: Sink>(
    alloc: Global,
    encoder: &mut Encoder,
    sink: &mut K,
) -> Result<(), WriteFault>
    requires { encoder.old.left ≡ encoder.old.all }
    ensures all { OnOk result (K.held sink.new ≡ with_bytes (K.held sink.old)
        (dimacs_text encoder.old.variables encoder.old.all)) }
    ensures part { HasPart (K.held sink.old) (K.held sink.new)
        (dimacs_text encoder.old.variables encoder.old.all) }
    ensures flushed { OnOk result (K.is_flushed sink.new) }
    ensures rose { IsErrOf result not_written → Rose (K.faults sink.old) (K.faults sink.new) }
    ensures stays { StaysUnlessUnwritten result (K.faults sink.old) (K.faults sink.new) }
{
    let mut out = Vec::new(alloc);
    push_header(&mut out, encoder.variables(), encoder.clauses())?;
    write_left(encoder, sink, &mut out, &mut Literals::new(alloc))
}

// Writes what is kept of the text, and the clauses that are left. Each is held in `one` meanwhile.
fn write_left<K: Sink>(
    encoder: &mut Encoder,
    sink: &mut K,
    out: &mut Vec<u8>,
    one: &mut Literals,
) -> Result<(), WriteFault>
    ensures all { OnOk result (K.held sink.new ≡ with_bytes (K.held sink.old)
        (out.old.items ++ flat_map clause_line encoder.old.left)) }
    ensures part { HasPart (K.held sink.old) (K.held sink.new)
        (out.old.items ++ flat_map clause_line encoder.old.left) }
    ensures flushed { OnOk result (K.is_flushed sink.new) }
    ensures rose { IsErrOf result not_written → Rose (K.faults sink.old) (K.faults sink.new) }
    ensures stays { StaysUnlessUnwritten result (K.faults sink.old) (K.faults sink.new) }
{
    'writing: loop {
        if !encoder.next(one)? {
            return match put_and_flush(sink, out) {
                Ok(()) => Ok(()),
                Err(failed) => Err(Fault::Cause(failed)),
            };
        }
        push_clause(out, one)?;
        if out.len() >= PIECE {
            if let Err(failed) = put_piece(sink, out) {
                return Err(Fault::Cause(failed));
            }
        }
    }
}

// Puts what is kept of the text, and keeps it no longer.
fn put_piece<K: Sink>(sink: &mut K, out: &mut Vec<u8>) -> Result<(), Failed>
    ensures all { OnOk result (K.held sink.new ≡ with_bytes (K.held sink.old) out.old.items) }
    ensures part { HasPart (K.held sink.old) (K.held sink.new) out.old.items }
    ensures empty { OnOk result (out.new.items ≡ []) }
    ensures rose { OnErr result (Rose (K.faults sink.old) (K.faults sink.new)) }
    ensures stays { OnOk result (K.faults sink.new ≡ K.faults sink.old) }
{
    put_all(sink, out)?;
    out.clear();
    Ok(())
}
