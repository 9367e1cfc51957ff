use fal_io::{MemSink, MemSource};
use falcon_run::{Trace, run_serial};
use std::alloc::Global;
use std::test::Fail;

/// What a run answered and wrote.
#[derive(Drop)]
pub struct Ran {
    pub status: u8,
    pub text: Vec<u8>,
    pub is_traced: bool,
}

/// A source that never fails, in one piece a read.
pub fn whole(alloc: Global, script: &[u8]) -> Result<MemSource, Fail> {
    let bytes = Vec::from_slice(alloc, script)?;
    Ok(MemSource::new(bytes, 65_536, Vec::new(alloc)))
}

fn words_of(alloc: Global, words: &[&str]) -> Result<Vec<String>, Fail> {
    let mut owned = Vec::new(alloc);
    for word in words {
        owned.push(String::from_str(alloc, word)?)?;
    }
    Ok(owned)
}

/// Runs the program on these words, source and sink.
pub fn run_with(
    alloc: Global,
    words: &[&str],
    mut source: MemSource,
    mut sink: MemSink,
) -> Result<Ran, Fail> {
    let words = words_of(alloc, words)?;
    let mut trace = Trace {
        config: None,
        events: Vec::new(alloc),
    };
    let status = run_serial(alloc, &words, &mut source, &mut sink, &mut trace);
    Ok(Ran {
        status,
        text: Vec::from_slice(alloc, sink.bytes())?,
        is_traced: trace.config.is_some(),
    })
}

/// Runs the program on a script, where neither stream fails.
pub fn run(alloc: Global, script: &[u8]) -> Result<Ran, Fail> {
    let source = whole(alloc, script)?;
    let sink = MemSink::new(alloc, 65_536, Vec::new(alloc));
    run_with(alloc, &["serial"], source, sink)
}
