ghost use Rattle.std.specs.Prelude.{◌<◌};

use fal_io::{
    Failed, MemSink, MemSource, PUT_SIZE, READ_SIZE, ReadAll, ReaderSource, Source, WriterSink,
    put_all, read_all,
};
use std::alloc::Global;
use std::io::{Error, ErrorKind, Read};
use std::process::Abort;
use std::test::Fail;

const ALL: [u8; 20] = [
    0, 1, 2, 3, 4, 5, 6, 7, 8, 9, 10, 11, 12, 13, 14, 15, 16, 17, 18, 19,
];

/// Gives a byte, fails, and then gives a byte again.
#[derive(Drop)]
struct Hiccup {
    calls: u8,
}

impl Read for Hiccup {
    fn read(&mut self, buf: &mut [u8]) -> std::io::Result<usize> {
        self.calls = self.calls.saturating_add(1);
        if self.calls == 2 {
            return Err(Error::from(ErrorKind::BrokenPipe));
        }
        if buf.is_empty() || self.calls > 3 {
            return Ok(0);
        }
        buf[0] = self.calls;
        Ok(1)
    }
}

/// A fault at this read loses only what was taken, and the next call reads the rest.
fn read_with_a_fault(rt: &impl Abort, alloc: Global, step: usize, call: usize) -> Result<(), Fail>
    requires { 0 < step }
{
    let failing = vec![in alloc; call as u64]?;
    let mut source = MemSource::new(ALL.to_vec(alloc)?, step, failing);
    let fault = read_all(alloc, &mut source, 20).err();
    assert_eq!(rt; fault, Some(ReadAll::Fault));
    let rest = &ALL[call.saturating_mul(step).min(20)..];
    assert_eq!(rt; source.left(), rest);
    assert_eq!(rt; read_all(alloc, &mut source, 20)?.as_slice(), rest);
    Ok(())
}

/// All is read in exactly so many reads.
fn read_in(rt: &impl Abort, alloc: Global, step: usize, reads: u64) -> Result<(), Fail>
    requires { 0 < step }
{
    let failing = vec![in alloc; reads]?;
    let mut source = MemSource::new(ALL.to_vec(alloc)?, step, failing);
    assert_eq!(rt;
        read_all(alloc, &mut source, 20)?.as_slice(),
        ALL.as_slice()
    );
    assert_eq!(rt; source.take(&mut [0; 1]), Err(Failed::Fault));
    Ok(())
}

#[test]
fn a_fault_at_each_read_loses_only_what_was_taken(rt: HostRuntime) -> Result<(), Fail> {
    for call in 0..21 {
        read_with_a_fault(&rt, rt.alloc(), 1, call)?;
    }
    for call in 0..4 {
        read_with_a_fault(&rt, rt.alloc(), 7, call)?;
    }
    read_in(&rt, rt.alloc(), 1, 21)?;
    read_in(&rt, rt.alloc(), 7, 4)
}

#[test]
fn more_than_the_limit_is_too_large(rt: HostRuntime) -> Result<(), Fail> {
    let alloc = rt.alloc();
    let mut source = MemSource::new(ALL.to_vec(alloc)?, 7, Vec::new(alloc));
    assert_eq!(rt;
        read_all(alloc, &mut source, 13).err(),
        Some(ReadAll::TooLarge)
    );
    assert_eq!(rt; source.left(), &ALL[14..]);
    let mut source = MemSource::new(ALL.to_vec(alloc)?, 7, Vec::new(alloc));
    assert_eq!(rt;
        read_all(alloc, &mut source, 0).err(),
        Some(ReadAll::TooLarge)
    );
    assert_eq!(rt; source.left(), &ALL[7..]);
    let mut source = MemSource::new(Vec::new(alloc), 7, Vec::new(alloc));
    assert_eq!(rt; read_all(alloc, &mut source, 0)?.len(), 0);
    Ok(())
}

/// A fault at this write leaves the front that was taken, and the next call appends the rest.
fn put_with_a_fault(rt: &impl Abort, alloc: Global, step: usize, call: usize) -> Result<(), Fail>
    requires { 0 < step }
{
    let mut sink = MemSink::new(alloc, step, vec![in alloc; call as u64]?);
    assert_eq!(rt; put_all(&mut sink, &ALL), Err(Failed::Fault));
    let put = call.saturating_mul(step).min(20);
    assert_eq!(rt; sink.bytes(), &ALL[..put]);
    put_all(&mut sink, &ALL[put..])?;
    assert_eq!(rt; sink.bytes(), ALL.as_slice());
    Ok(())
}

/// All is put in exactly so many writes.
fn put_in(rt: &impl Abort, alloc: Global, step: usize, writes: u64) -> Result<(), Fail>
    requires { 0 < step }
{
    let mut sink = MemSink::new(alloc, step, vec![in alloc; writes]?);
    put_all(&mut sink, &ALL)?;
    assert_eq!(rt; sink.bytes(), ALL.as_slice());
    assert_eq!(rt; put_all(&mut sink, &[1]), Err(Failed::Fault));
    Ok(())
}

#[test]
fn a_fault_at_each_write_leaves_a_front(rt: HostRuntime) -> Result<(), Fail> {
    for call in 0..20 {
        put_with_a_fault(&rt, rt.alloc(), 1, call)?;
    }
    for call in 0..3 {
        put_with_a_fault(&rt, rt.alloc(), 7, call)?;
    }
    put_in(&rt, rt.alloc(), 1, 20)?;
    put_in(&rt, rt.alloc(), 7, 3)
}

#[test]
fn reads_and_writes_are_in_large_pieces(rt: HostRuntime) -> Result<(), Fail> {
    let alloc = rt.alloc();
    let bytes = vec![in alloc; 5u8; PUT_SIZE + 1]?;
    let mut sink = MemSink::new(alloc, PUT_SIZE + 1, vec![in alloc; 1]?);
    assert_eq!(rt; put_all(&mut sink, &bytes), Err(Failed::Fault));
    assert_eq!(rt; sink.bytes().len(), PUT_SIZE);
    let mut source = MemSource::new(bytes, PUT_SIZE + 1, vec![in alloc; 1]?);
    assert_eq!(rt;
        read_all(alloc, &mut source, PUT_SIZE).err(),
        Some(ReadAll::Fault)
    );
    assert_eq!(rt; source.left().len(), PUT_SIZE + 1 - READ_SIZE);
    Ok(())
}

#[test]
fn a_reader_is_a_source(rt: HostRuntime) -> Result<(), Fail> {
    let alloc = rt.alloc();
    let mut source = ReaderSource::new(ALL.as_slice());
    assert_eq!(rt;
        read_all(alloc, &mut source, 20)?.as_slice(),
        ALL.as_slice()
    );
    let mut source = ReaderSource::new(Hiccup { calls: 0 });
    assert_eq!(rt;
        read_all(alloc, &mut source, 20).err(),
        Some(ReadAll::Fault)
    );
    assert_eq!(rt;
        read_all(alloc, &mut source, 20)?.as_slice(),
        [3].as_slice()
    );
    Ok(())
}

#[test]
fn a_writer_is_a_sink(rt: HostRuntime) -> Result<(), Fail> {
    let alloc = rt.alloc();
    let mut sink = WriterSink::new(Vec::new(alloc));
    put_all(&mut sink, &ALL)?;
    put_all(&mut sink, &[])?;
    assert_eq!(rt; sink.into_inner().as_slice(), ALL.as_slice());
    let mut room = [0u8; 8];
    let mut sink = WriterSink::new(&mut room[..]);
    assert_eq!(rt;
        put_all(&mut sink, &ALL),
        Err(Failed::Fault),
        "a full writer takes nothing"
    );
    assert_eq!(rt; sink.into_inner().len(), 0);
    Ok(())
}
