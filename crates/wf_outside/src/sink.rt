ghost use Rattle.std.specs.Prelude.{◌≡◌, ◌≤◌, ◌<◌, ℕ, List, length, take, Option, IfOk, OnOk};
ghost use Rattle.std.specs.Prelude.{OnErr};
ghost use Rattle.wf_outside.specs.Laws.Outside.{Rose, with_bytes, HasPart};

use crate::Failed;

/// Where bytes go, as standard output.
pub trait Sink {
    /// The bytes that were put so far, or `None` where the sink does not tell.
    ghost held: { Self → Option (List ℕ) };

    /// How often a call has failed.
    ghost faults: { Self → ℕ };

    /// Nothing that was put is kept back.
    ghost is_flushed: { Self → Type 0 };

    /// Takes a prefix of `bytes` and answers its length, at least 1 where `bytes` is not empty.
    fn put(&mut self, bytes: &[u8]) -> Result<usize, Failed>
        ensures within { IfOk result (λ n. n ≤ length bytes.now) }
        ensures some { IfOk result (λ n. 0 < length bytes.now → 0 < n) }
        ensures taken { IfOk result (λ n. held self.new
            ≡ with_bytes (held self.old) (take n bytes.now)) }
        ensures kept { OnErr result (held self.new ≡ held self.old) }
        ensures faults { faults self.old ≤ faults self.new }
        ensures rose { OnErr result (Rose (faults self.old) (faults self.new)) }
        ensures stays { OnOk result (faults self.new ≡ faults self.old) };

    /// Lets go what was put and is kept back.
    fn flush(&mut self) -> Result<(), Failed>
        ensures held { held self.new ≡ held self.old }
        ensures flushed { OnOk result (is_flushed self.new) }
        ensures faults { faults self.old ≤ faults self.new }
        ensures rose { OnErr result (Rose (faults self.old) (faults self.new)) }
        ensures stays { OnOk result (faults self.new ≡ faults self.old) };
}

// Puts the first of the bytes; how many.
fn put_some<K: Sink>(sink: &mut K, bytes: &[u8]) -> Result<usize, Failed>
    ensures within { IfOk result (λ n. n ≤ length bytes.now) }
    ensures some { IfOk result (λ n. 0 < length bytes.now → 0 < n) }
    ensures taken { IfOk result (λ n. K.held sink.new
        ≡ with_bytes (K.held sink.old) (take n bytes.now)) }
    ensures kept { OnErr result (K.held sink.new ≡ K.held sink.old) }
    ensures faults { K.faults sink.old ≤ K.faults sink.new }
    ensures rose { OnErr result (Rose (K.faults sink.old) (K.faults sink.new)) }
    ensures stays { OnOk result (K.faults sink.new ≡ K.faults sink.old) }
{
    sink.put(bytes)
}

/// Puts all of the bytes; after a fault the sink holds a prefix of them.
pub fn put_all<K: Sink>(sink: &mut K, bytes: &[u8]) -> Result<(), Failed>
    ensures all { OnOk result (K.held sink.new ≡ with_bytes (K.held sink.old) bytes.now) }
    ensures part { HasPart (K.held sink.old) (K.held sink.new) bytes.now }
    ensures faults { K.faults sink.old ≤ K.faults sink.new }
    ensures rose { OnErr result (Rose (K.faults sink.old) (K.faults sink.new)) }
    ensures stays { OnOk result (K.faults sink.new ≡ K.faults sink.old) }
{
    let mut done = 0;
    'putting: while done < bytes.len() {
        done += put_some(sink, &bytes[done..])?;
    }
    Ok(())
}

/// Puts all of the bytes and lets them go; after a fault the sink holds a prefix of them.
pub fn put_and_flush<K: Sink>(sink: &mut K, bytes: &[u8]) -> Result<(), Failed>
    ensures all { OnOk result (K.held sink.new ≡ with_bytes (K.held sink.old) bytes.now) }
    ensures part { HasPart (K.held sink.old) (K.held sink.new) bytes.now }
    ensures flushed { OnOk result (K.is_flushed sink.new) }
    ensures faults { K.faults sink.old ≤ K.faults sink.new }
    ensures rose { OnErr result (Rose (K.faults sink.old) (K.faults sink.new)) }
    ensures stays { OnOk result (K.faults sink.new ≡ K.faults sink.old) }
{
    put_all(sink, bytes)?;
    sink.flush()
}
