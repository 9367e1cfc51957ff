ghost use Rattle.std.specs.Prelude.{◌≡◌, ◌<◌, OnOk, OnErr, IfOk, Err, length};
ghost use Rattle.std.specs.Io.{WritesAtMost};
ghost use Rattle.std.specs.Io.KnownBytes.{WriteAppends};
ghost use Rattle.fal_io.specs.declared.failed.Failed.TheVariants.{Fault};
ghost use Rattle.fal_io.specs.Causes.{HasCause, next_count};

use crate::failed::Failed;
use crate::sink::Sink;
use std::io::Write;

/// A sink over a writer. It counts the writer's errors, and tells the bytes that it holds where the writer does.
#[derive(Debug, Drop)]
pub struct WriterSink<W> {
    writer: W,
    faults: u64,
}

impl<W> WriterSink<W> {
    /// A sink over this writer, with no fault counted. Takes no memory.
    pub fn new(writer: W) -> WriterSink<W>
        ensures writer { result.writer ≡ writer }
        ensures faults { result.faults ≡ 0 }
    {
        WriterSink { writer, faults: 0 }
    }

    /// Hands the writer back. Takes no memory.
    pub fn into_inner(self) -> W
        ensures { result ≡ self.writer }
    {
        let WriterSink { writer, faults: _ } = self;
        writer
    }
}

impl<W: Write> Sink for WriterSink<W> {
    ghost holds = { λ s. W.contents s.writer };

    ghost faults = { λ s. s.faults };

    /// Writes to the writer. Each of its errors is a `Fault` and counted, and so is a write that takes nothing of a piece
    /// that is not empty. There is no other refusal.
    fn put(&mut self, piece: &[u8]) -> Result<usize, Failed>
        ensures bound { WritesAtMost result piece.now }
        ensures some { 0 < length piece.now → IfOk result (λ n. 0 < n) }
        ensures bytes { WriteAppends (W.contents self.old.writer) (W.contents self.new.writer) result piece.now }
        ensures cause { HasCause self.old.faults self.new.faults result }
        ensures ok { OnOk result (self.new.faults ≡ self.old.faults) }
        ensures err { OnErr result (self.new.faults ≡ next_count self.old.faults) }
        ensures fault { OnErr result (result ≡ Err Fault) }
    {
        match self.writer.write(piece) {
            Ok(count) if count > 0 || piece.is_empty() => Ok(count),
            _ => {
                self.faults = self.faults.saturating_add(1);
                Err(Failed::Fault)
            }
        }
    }
}
