ghost use Rattle.std.specs.Prelude.{◌≡◌, ◌<◌, ◌↔◌, [], length, min, Some, Err, IfOk, OnOk, Contains};
ghost use Rattle.std.specs.Io.{WritesAtMost};
ghost use Rattle.std.specs.Io.KnownBytes.{WriteAppends};
ghost use Rattle.fal_io.specs.declared.failed.Failed.TheVariants.{Fault, OutOfMemory};
ghost use Rattle.fal_io.specs.Causes.{HasCause, next_count};

use crate::failed::Failed;
use crate::sink::Sink;
use std::alloc::Global;
use std::marker::Model;

/// What was put, taken in pieces of at most `step` bytes, with faults at chosen calls.
#[derive(Debug, Drop)]
pub struct MemSink {
    bytes: Vec<u8>,
    step: usize,
    failing: Vec<u64>,
    calls: u64,
    faults: u64,
}

impl Model for MemSink {
    ghost use Rattle.std.specs.Prelude.{◌<◌};
    ghost use Rattle.fal_io.specs.Memory.{SinkState};

    ghost Value = { SinkState };

    ghost view = { λ s. record { holds = s.bytes.items; step = s.step; failing = s.failing.items; calls = s.calls; faults = s.faults } };

    ghost invariant = { λ s. 0 < s.step };
}

impl MemSink {
    /// An empty sink that takes pieces of at most `step` bytes. It fails at the calls of `put` whose numbers, counted from
    /// 0, are listed. Takes no memory.
    pub fn new(alloc: Global, step: usize, failing: Vec<u64>) -> MemSink
        requires { 0 < step }
        ensures { result ≡ record { holds = []; step = step; failing = failing.items; calls = 0; faults = 0 } }
    {
        MemSink {
            bytes: Vec::new(alloc),
            step,
            failing,
            calls: 0,
            faults: 0,
        }
    }

    /// What it holds. Takes no memory.
    pub fn bytes(&self) -> &[u8]
        ensures { result.now ≡ self.now.holds }
    {
        &self.bytes
    }
}

impl Sink for MemSink {
    ghost holds = { λ s. Some s.holds };

    ghost faults = { λ s. s.faults };

    /// Takes the lesser of the step and the piece's length. `Fault` exactly at the listed calls; at others it may want memory.
    fn put(&mut self, piece: &[u8]) -> Result<usize, Failed>
        ensures bound { WritesAtMost result piece.now }
        ensures some { 0 < length piece.now → IfOk result (λ n. 0 < n) }
        ensures bytes { WriteAppends (Some self.old.holds) (Some self.new.holds) result piece.now }
        ensures cause { HasCause self.old.faults self.new.faults result }

        ensures count { IfOk result (λ n. n ≡ min self.old.step (length piece.now)) }
        ensures chosen { (result ≡ Err Fault) ↔ Contains self.old.failing self.old.calls }

        ensures ok { OnOk result (self.new.faults ≡ self.old.faults) }
        ensures fault { result ≡ Err Fault → self.new.faults ≡ next_count self.old.faults }
        ensures memory { result ≡ Err OutOfMemory → self.new.faults ≡ self.old.faults }
        ensures calls { self.new.calls ≡ next_count self.old.calls }
        ensures same { (self.new.step ≡ self.old.step) × (self.new.failing ≡ self.old.failing) }
    {
        let call = self.calls;
        self.calls = call.saturating_add(1);
        if self.failing.contains(&call) {
            self.faults = self.faults.saturating_add(1);
            return Err(Failed::Fault);
        }
        let count = self.step.min(piece.len());
        match self.bytes.extend_from_slice(&piece[..count]) {
            Ok(()) => Ok(count),
            Err(_) => Err(Failed::OutOfMemory),
        }
    }
}
