//! Writing the entries of a batch.
ghost use Rattle.std.specs.Prelude.{◌≡◌, ◌≢◌, ◌<◌, length, Err, IfErr, OnOk, OnErr};
ghost use Rattle.std.specs.List.{flat_map};
ghost use Rattle.wf_outside.specs.Laws.Outside.{HasPart, with_bytes};
ghost use Rattle.wire_json.specs.Replies.{entry_text};
ghost use Rattle.run_record.specs.Fault.{fault_in, CountsWrites};
ghost use Rattle.wf_server.specs.Batches.{entries_text, IsWriteEnding};

use crate::way::Way;
use policy_book::Policy;
use run_record::RunFault;
use std::alloc::Global;
use wf_outside::{Sink, put_all};
use wf_talk::Entry;
use wire_json::LineWriter;

// The room that most lines need.
const LINE_ROOM: usize = 256;

/// Writes the lines of the entries of a batch, and lets them go; also those before the one for
/// which memory is refused.
pub(crate) fn write_entries<K: Sink, W: Way>(
    alloc: Global,
    way: &W,
    p: &Policy,
    entries: &[Entry],
    sink: &mut K,
) -> Result<(), RunFault>
    requires ready { W.ready way.now }
    ensures all { OnOk result (K.held sink.new
        ≡ with_bytes (K.held sink.old) (entries_text p.now entries.now)) }
    ensures part { HasPart (K.held sink.old) (K.held sink.new) (entries_text p.now entries.now) }
    ensures some { OnErr result (0 < length entries.now) }
    ensures ending { IfErr result IsWriteEnding }
    ensures counts { CountsWrites (fault_in result) (K.faults sink.old) (K.faults sink.new) }
    ensures flushed { K.is_flushed sink.old → result ≢ Err RunFault.Write
        → K.is_flushed sink.new }
{
    if entries.is_empty() {
        return Ok(());
    }
    let written = write_made(alloc, way, p, entries, sink);
    if let Err(RunFault::Write) = written {
        return written;
    }
    match sink.flush() {
        Ok(()) => written,
        Err(_) => Err(RunFault::Write),
    }
}

// Writes the lines of entries: those that the way makes beforehand, or one after the other.
fn write_made<K: Sink, W: Way>(
    alloc: Global,
    way: &W,
    p: &Policy,
    entries: &[Entry],
    sink: &mut K,
) -> Result<(), RunFault>
    requires ready { W.ready way.now }
    ensures all { OnOk result (K.held sink.new
        ≡ with_bytes (K.held sink.old) (entries_text p.now entries.now)) }
    ensures part { HasPart (K.held sink.old) (K.held sink.new) (entries_text p.now entries.now) }
    ensures ending { IfErr result IsWriteEnding }
    ensures counts { CountsWrites (fault_in result) (K.faults sink.old) (K.faults sink.new) }
{
    if let Some(lines) = way.make_lines(alloc, p, entries) {
        return put_lines(&lines, sink);
    }
    write_lines(alloc, p, entries, sink)
}

// Puts lines, one after the other.
fn put_lines<K: Sink>(lines: &[Vec<u8>], sink: &mut K) -> Result<(), RunFault>
    ensures all { OnOk result (K.held sink.new
        ≡ with_bytes (K.held sink.old) (flat_map (λ line. line.items) lines.now)) }
    ensures part { HasPart (K.held sink.old) (K.held sink.new)
        (flat_map (λ line. line.items) lines.now) }
    ensures ending { IfErr result IsWriteEnding }
    ensures counts { CountsWrites (fault_in result) (K.faults sink.old) (K.faults sink.new) }
{
    'lines: for line in lines {
        put_line(line, sink)?;
    }
    Ok(())
}

// Writes the lines of entries, one after the other.
fn write_lines<K: Sink>(
    alloc: Global,
    p: &Policy,
    entries: &[Entry],
    sink: &mut K,
) -> Result<(), RunFault>
    ensures all { OnOk result (K.held sink.new
        ≡ with_bytes (K.held sink.old) (entries_text p.now entries.now)) }
    ensures part { HasPart (K.held sink.old) (K.held sink.new) (entries_text p.now entries.now) }
    ensures ending { IfErr result IsWriteEnding }
    ensures counts { CountsWrites (fault_in result) (K.faults sink.old) (K.faults sink.new) }
{
    let mut writer = LineWriter::new(p);
    let mut line = Vec::with_capacity(alloc, LINE_ROOM)?;
    'writing: for entry in entries {
        write_one(&mut writer, entry, &mut line, sink)?;
    }
    Ok(())
}

// Writes the line of an entry, which is made in the place of the line before.
fn write_one<K: Sink>(
    writer: &mut LineWriter<'_>,
    entry: &Entry,
    line: &mut Vec<u8>,
    sink: &mut K,
) -> Result<(), RunFault>
    ensures all { OnOk result (K.held sink.new
        ≡ with_bytes (K.held sink.old) (entry_text writer.old entry.now)) }
    ensures part { HasPart (K.held sink.old) (K.held sink.new) (entry_text writer.old entry.now) }
    ensures same { writer.new ≡ writer.old }
    ensures ending { IfErr result IsWriteEnding }
    ensures counts { CountsWrites (fault_in result) (K.faults sink.old) (K.faults sink.new) }
{
    line.truncate(0);
    writer.push_line(line, entry)?;
    put_line(line.as_slice(), sink)
}

// Puts a line.
fn put_line<K: Sink>(line: &[u8], sink: &mut K) -> Result<(), RunFault>
    ensures all { OnOk result (K.held sink.new ≡ with_bytes (K.held sink.old) line.now) }
    ensures part { HasPart (K.held sink.old) (K.held sink.new) line.now }
    ensures ending { IfErr result IsWriteEnding }
    ensures counts { CountsWrites (fault_in result) (K.faults sink.old) (K.faults sink.new) }
{
    match put_all(sink, line) {
        Ok(()) => Ok(()),
        Err(_) => Err(RunFault::Write),
    }
}
