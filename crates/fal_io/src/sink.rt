ghost use Rattle.std.specs.Prelude.{◌<◌, List, ℕ, Option, IfOk, length};
ghost use Rattle.std.specs.Io.{WritesAtMost};
ghost use Rattle.std.specs.Io.KnownBytes.{WriteAppends};
ghost use Rattle.fal_io.specs.Causes.{HasCause};

use crate::failed::Failed;

/// Something that takes bytes, in pieces.
pub trait Sink {
    /// What it holds, where it tells.
    ghost holds: { Self → Option (List ℕ) };

    /// How many faults it has counted, a number that never falls.
    ghost faults: { Self → ℕ };

    /// Appends bytes from the front of the piece, and answers how many: at least 1 of a piece that is not empty.
    ///
    /// A failed write leaves what it holds as it was. `Fault` only where the count of faults rose in this call.
    fn put(&mut self, piece: &[u8]) -> Result<usize, Failed>
        ensures bound { WritesAtMost result piece.now }
        ensures some { 0 < length piece.now → IfOk result (λ n. 0 < n) }
        ensures bytes { WriteAppends (holds self.old) (holds self.new) result piece.now }
        ensures cause { HasCause (faults self.old) (faults self.new) result };
}
