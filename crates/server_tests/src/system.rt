//! Runs over a reader and a writer in memory that move one byte at a time and fail: nothing is lost
//! or added between them and the server.

use fixtures::{shelf_of, words_of};
use std::alloc::{AllocError, Global};
use std::io;
use std::io::{BufWriter, ErrorKind, Read, Write};
use wf_outside::{MemShelf, Sink};
use wf_server::run_alone;
use wf_system::{StdinSource, StdoutSink};

const ONE: &str = r#"
format = 1
admin = "chief"
roles = ["chief", "clerk"]
users = { kim = ["clerk"], zoe = ["chief"] }

[flows.one]
steps = ["a"]
permit = { a = ["clerk"] }
"#;

// The bytes one at a time; the call with the number `failing` fails, and so do those after it.
#[derive(Drop)]
struct Dripping {
    bytes: &'static [u8],
    at: usize,
    failing: usize,
}

impl Read for Dripping {
    fn read(&mut self, buf: &mut [u8]) -> io::Result<usize> {
        if self.at >= self.failing {
            return Err(io::Error::from(ErrorKind::BrokenPipe));
        }
        if buf.is_empty() || self.at >= self.bytes.len() {
            return Ok(0);
        }
        buf[0] = self.bytes[self.at];
        self.at += 1;
        Ok(1)
    }
}

// Room for `room` bytes, 16 at most, which are taken one at a time.
#[derive(Drop)]
struct Narrow {
    taken: [u8; 16],
    len: usize,
    room: usize,
}

impl Write for Narrow {
    fn write(&mut self, bytes: &[u8]) -> io::Result<usize> {
        if self.len >= self.room.min(16) {
            return Err(io::Error::from(ErrorKind::BrokenPipe));
        }
        let Some(first) = bytes.first() else {
            return Ok(0);
        };
        self.taken[self.len] = *first;
        self.len += 1;
        Ok(1)
    }

    fn flush(&mut self) -> io::Result<()> {
        Ok(())
    }
}

// An input with no line end, the read that fails, the room for what is written, the status, and
// what was written. Bytes are kept back until they are let go, and the fault of that is told.
type Row = (&'static str, usize, usize, u8, &'static str);

const ROWS: [Row; 6] = [
    (r#"["kim"]"#, 99, 16, 0, "valid\n"),
    (r#"["zoe"]"#, 99, 16, 1, "role a\n"),
    (r#"["kim"]"#, 6, 16, 4, ""),
    (r#"["kim"]"#, 7, 16, 4, ""),
    (r#"["kim"]"#, 99, 0, 5, ""),
    (r#"["kim"]"#, 99, 5, 5, "valid"),
];

/// Whether each row ends as it says.
pub fn bytes_go_through_one_by_one(alloc: Global) -> Result<bool, AllocError> {
    for row in &ROWS {
        if !ends_so(alloc, row)? {
            return Ok(false);
        }
    }
    Ok(true)
}

// Whether `plan` ends and writes as its row says.
fn ends_so(alloc: Global, row: &Row) -> Result<bool, AllocError> {
    let mut narrow = Narrow {
        taken: [0; 16],
        len: 0,
        room: row.2,
    };
    let status = run(alloc, row, &mut narrow)?;
    Ok(status == row.3 && &narrow.taken[..narrow.len.min(16)] == row.4.as_bytes())
}

fn run(alloc: Global, row: &Row, narrow: &mut Narrow) -> Result<u8, AllocError> {
    let words = words_of(alloc, &["plan", "policy", "one"])?;
    run_with(alloc, row, &words, narrow)
}

fn run_with(
    alloc: Global,
    row: &Row,
    words: &[String],
    narrow: &mut Narrow,
) -> Result<u8, AllocError> {
    let mut shelf = shelf_of(alloc, ONE)?;
    run_over(alloc, row, words, &mut shelf, narrow)
}

fn run_over(
    alloc: Global,
    row: &Row,
    words: &[String],
    shelf: &mut MemShelf,
    narrow: &mut Narrow,
) -> Result<u8, AllocError> {
    let Ok(kept) = BufWriter::with_capacity(alloc, 64, narrow) else {
        return Err(AllocError);
    };
    let mut sink = StdoutSink::new(kept);
    Ok(status_of(alloc, row, words, shelf, &mut sink))
}

fn status_of<K: Sink>(
    alloc: Global,
    row: &Row,
    words: &[String],
    shelf: &mut MemShelf,
    sink: &mut K,
) -> u8 {
    let mut source = StdinSource::new(Dripping {
        bytes: row.0.as_bytes(),
        at: 0,
        failing: row.1,
    });
    run_alone(alloc, words, shelf, &mut source, sink).status
}
