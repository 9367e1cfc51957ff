ghost use Rattle.std.specs.Prelude.{◌≡◌};
ghost use Rattle.std.specs.Io.{ReadsAtMost};
ghost use Rattle.std.specs.Io.KnownBytes.{ReadConsumes};
ghost use Rattle.fal_io.specs.Causes.{next_count};

use std::io::{Read, Result};

/// A reader that is asked here alone, so that each time is counted.
#[derive(Debug, Drop)]
pub struct Counted<R> {
    reader: R,
    reads: u64,
}

impl<R> Counted<R> {
    pub fn new(reader: R) -> Counted<R>
        ensures { result ≡ record { reader = reader; reads = 0 } }
    {
        Counted { reader, reads: 0 }
    }
}

impl<R: Read> Counted<R> {
    pub fn read(&mut self, buf: &mut [u8]) -> Result<usize>
        ensures bound { ReadsAtMost result buf.new }
        ensures bytes { ReadConsumes (R.remaining self.old.reader) (R.remaining self.new.reader) result buf.new }
        ensures count { self.new.reads ≡ next_count self.old.reads }
    {
        self.reads = self.reads.saturating_add(1);
        self.reader.read(buf)
    }
}
