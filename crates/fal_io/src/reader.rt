ghost use Rattle.std.specs.Prelude.{◌≡◌, ◌≤◌, ◌<◌, ◌+◌, ◌↔◌, ◌⊎◌, OnOk, OnErr, Ok, Err, IsTrue, IsFalse, length, false};
ghost use Rattle.std.specs.Io.{ReadsAtMost};
ghost use Rattle.std.specs.Io.KnownBytes.{ReadConsumes};
ghost use Rattle.fal_io.specs.declared.failed.Failed.TheVariants.{Fault};
ghost use Rattle.fal_io.specs.Causes.{HasCause, left_until_end, next_count};

use crate::counted::Counted;
use crate::failed::Failed;
use crate::source::Source;
use std::io::Read;

/// A source over a reader. It counts its reads and the reader's errors, and tells the bytes that are left where the reader does. Once
/// the reader gave no bytes to a buffer with room, that was the end: nothing is left, and the reader is asked no more.
#[derive(Debug, Drop)]
pub struct ReaderSource<R> {
    reader: Counted<R>,
    faults: u64,
    ended: bool,
}

impl<R> ReaderSource<R> {
    /// A source over this reader, with no read and no fault counted. Takes no memory.
    pub fn new(reader: R) -> ReaderSource<R>
        ensures reader { result.reader.reader ≡ reader }
        ensures none { (result.reader.reads ≡ 0) × (result.faults ≡ 0) × (result.ended ≡ false) }
    {
        ReaderSource {
            reader: Counted::new(reader),
            faults: 0,
            ended: false,
        }
    }
}

impl<R: Read> Source for ReaderSource<R> {
    ghost left = { λ s. left_until_end s.ended (R.remaining s.reader.reader) };

    ghost faults = { λ s. s.faults };

    ghost reads = { λ s. s.reader.reads };

    /// Reads from the reader, once, and after its end not at all. Each of its errors is a `Fault` and counted, and there is no other
    /// refusal.
    fn take(&mut self, buf: &mut [u8]) -> Result<usize, Failed>
        ensures bound { ReadsAtMost result buf.new }
        ensures bytes { ReadConsumes (left_until_end self.old.ended (R.remaining self.old.reader.reader))
            (left_until_end self.new.ended (R.remaining self.new.reader.reader)) result buf.new }
        ensures cause { HasCause self.old.faults self.new.faults result }
        ensures read { self.new.reader.reads ≤ self.old.reader.reads + 1 }

        ensures once { IsFalse self.old.ended → self.new.reader.reads ≡ next_count self.old.reader.reads }
        ensures no_more { IsTrue self.old.ended → (result ≡ Ok 0) × (self.new ≡ self.old) }
        ensures ended { IsTrue self.new.ended ↔ (IsTrue self.old.ended ⊎ ((result ≡ Ok 0) × (0 < length buf.old))) }

        ensures ok { OnOk result (self.new.faults ≡ self.old.faults) }
        ensures err { OnErr result (self.new.faults ≡ next_count self.old.faults) }
        ensures fault { OnErr result (result ≡ Err Fault) }
    {
        if self.ended {
            return Ok(0);
        }
        match self.reader.read(buf) {
            Ok(count) => {
                self.ended = count == 0 && !buf.is_empty();
                Ok(count)
            }
            Err(_) => {
                self.faults = self.faults.saturating_add(1);
                Err(Failed::Fault)
            }
        }
    }
}
