//! What is written of a run that has ended.

use run_record::RunFault;
use std::alloc::Global;
use std::io;
use wf_system::write_ending;

// How a run ended, and what is written of it; what a command that was done leaves has no text.
const ROWS: [(RunFault, &str); 4] = [
    (RunFault::Nothing, ""),
    (RunFault::Found, ""),
    (RunFault::NoMemory, "wfserve: no memory\n"),
    (RunFault::LineTooLong(7), "wfserve: line 7 too long\n"),
];

/// Whether each ending is written as its row says.
pub fn endings_have_their_texts(alloc: Global) -> io::Result<bool> {
    for (fault, text) in &ROWS {
        if !is_written(alloc, fault, text)? {
            return Ok(false);
        }
    }
    Ok(true)
}

fn is_written(alloc: Global, fault: &RunFault, text: &str) -> io::Result<bool> {
    let mut written = Vec::new(alloc);
    write_ending(&mut written, fault)?;
    Ok(written.as_slice() == text.as_bytes())
}
