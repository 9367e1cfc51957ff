ghost use Rattle.std.specs.Prelude.{◌≤◌, ◌+◌, List, ℕ, Option};
ghost use Rattle.std.specs.Io.{ReadsAtMost};
ghost use Rattle.std.specs.Io.KnownBytes.{ReadConsumes};
ghost use Rattle.fal_io.specs.Causes.{HasCause};

use crate::failed::Failed;

/// Something that gives bytes, in pieces.
pub trait Source {
    /// What it has left, where it tells.
    ghost left: { Self → Option (List ℕ) };

    /// How many faults it has counted, a number that never falls.
    ghost faults: { Self → ℕ };

    /// How many reads it has counted. A source that counts none shows 0.
    ghost reads: { Self → ℕ };

    /// Reads bytes into the front of the buffer, and answers how many.
    ///
    /// 0 for a buffer with room means the end of input. Where the source tells what it has left, 0 comes exactly where
    /// nothing was left. A failed read leaves what is left as it was. `Fault` only where the count of faults rose in this call.
    fn take(&mut self, buf: &mut [u8]) -> Result<usize, Failed>
        ensures bound { ReadsAtMost result buf.new }
        ensures bytes { ReadConsumes (left self.old) (left self.new) result buf.new }
        ensures cause { HasCause (faults self.old) (faults self.new) result }
        ensures read { reads self.new ≤ reads self.old + 1 };
}
