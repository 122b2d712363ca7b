//! The program `wftell`: it lends the real input, output and files to what tells, and ends with its
//! status.
#![tactic(auto)]

use run_record::RunFault;
use std::io::BufWriter;
use std::process::ExitCode;
use std::{env, io};
use tell_run::{Ended, Outside, end, run_alone};
use wf_system::{DiskShelf, StdinSource, StdoutSink, after_name, all_words};

/// How many bytes of the output are kept back at most until they are let go.
const KEPT_BACK: usize = 65_536;

fn main(rt: HostRuntime) -> ExitCode {
    let Ok(writer) = BufWriter::with_capacity(rt.alloc(), KEPT_BACK, io::writer(&rt)) else {
        let ended = Ended {
            fault: RunFault::NoMemory,
            usage: String::new(rt.alloc()),
        };
        return end(&mut rt.stderr(), &ended);
    };
    let ended = match all_words(rt.alloc(), env::args(&rt)) {
        Ok(words) => run_alone(
            after_name(&words),
            &mut Outside::new(
                rt.alloc(),
                &mut DiskShelf::new(&rt),
                &mut StdinSource::new(rt.reader()),
                &mut StdoutSink::new(writer),
            ),
        ),
        Err(fault) => Ended {
            fault,
            usage: String::new(rt.alloc()),
        },
    };
    end(&mut rt.stderr(), &ended)
}
