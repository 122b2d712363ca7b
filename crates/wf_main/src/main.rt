//! The program: it lends the real input, output and files to the server, and ends with its status.
#![tactic(auto)]

use run_record::{Report, RunFault};
use std::io::BufWriter;
use std::mem::forget;
use std::process::ExitCode;
use std::{env, io};
use wf_server::{OpenGate, run};
use wf_system::{DiskShelf, StdinSource, StdoutSink, after_name, all_words, end};

/// How many bytes of the output are kept back at most until they are let go.
const KEPT_BACK: usize = 65_536;

fn main(rt: HostRuntime) -> ExitCode {
    let Ok(writer) = BufWriter::with_capacity(rt.alloc(), KEPT_BACK, io::writer(&rt)) else {
        return end(&mut rt.stderr(), RunFault::NoMemory);
    };
    let fault = match all_words(rt.alloc(), env::args(&rt)) {
        Ok(words) => {
            let Report {
                status: _,
                fault,
                entries,
                jobs,
                batch_ends,
            } = run(
                &rt,
                rt.alloc(),
                after_name(&words),
                &OpenGate,
                &mut DiskShelf::new(&rt),
                &mut StdinSource::new(rt.reader()),
                &mut StdoutSink::new(writer),
            );
            // The process ends, and all that the session keeps goes with it at once.
            forget((entries, jobs, batch_ends));
            fault
        }
        Err(fault) => fault,
    };
    end(&mut rt.stderr(), fault)
}
