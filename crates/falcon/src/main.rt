//! Answers the calls of a script on a small cluster, and writes the transcript.
#![tactic(auto)]

use fal_io::{ReaderSource, WriterSink};
use falcon_run::{Trace, run_serial};
use std::alloc::AllocError;
use std::io::ErrorKind;
use std::process::ExitCode;
use std::{env, io, mem};

// The status with want of memory.
const OUT_OF_MEMORY: u8 = 6;

// The words after the program's name. Where one is no UTF-8 they are none of the grammar, and so there are none.
fn words(rt: &HostRuntime) -> Result<Vec<String>, AllocError> {
    match env::args(rt) {
        Ok(args) => args.skip(1).collect(rt.alloc()),
        Err(error) if error.kind() == ErrorKind::OutOfMemory => Err(AllocError),
        Err(_) => Ok(Vec::new(rt.alloc())),
    }
}

fn main(rt: HostRuntime) -> ExitCode {
    let Ok(words) = words(&rt) else {
        return ExitCode::from(OUT_OF_MEMORY);
    };
    let mut source = ReaderSource::new(rt.reader());
    let mut sink = WriterSink::new(io::writer(&rt));
    let mut trace = Trace {
        config: None,
        events: Vec::new(rt.alloc()),
    };
    let status = run_serial(rt.alloc(), &words, &mut source, &mut sink, &mut trace);
    // The process ends, and the system takes its memory back at once.
    mem::forget(trace);
    ExitCode::from(status)
}
