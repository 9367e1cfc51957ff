ghost use Rattle.std.specs.Prelude.{◌≡◌, ◌≤◌, ◌<◌, ◌+◌, ◌-◌, ◌↔◌, length, min, Some, Err, IfOk, OnOk, OnErr, Contains};
ghost use Rattle.std.specs.Io.{ReadsAtMost};
ghost use Rattle.std.specs.Io.KnownBytes.{ReadConsumes};
ghost use Rattle.fal_io.specs.declared.failed.Failed.TheVariants.{Fault};
ghost use Rattle.fal_io.specs.Causes.{HasCause, next_count};

use crate::failed::Failed;
use crate::source::Source;
use std::marker::Model;

/// Bytes in memory, given in pieces of at most `step` bytes, with faults at chosen calls.
#[derive(Debug, Drop)]
pub struct MemSource {
    bytes: Vec<u8>,
    at: usize,
    step: usize,
    failing: Vec<u64>,
    calls: u64,
    faults: u64,
}

impl Model for MemSource {
    ghost use Rattle.std.specs.Prelude.{◌≤◌, ◌<◌, length, drop};
    ghost use Rattle.fal_io.specs.Memory.{SourceState};

    ghost Value = { SourceState };

    ghost view = { λ s. record { left = drop s.at s.bytes.items; step = s.step; failing = s.failing.items; calls = s.calls; faults = s.faults } };

    ghost invariant = { λ s. (s.at ≤ length s.bytes.items) × (0 < s.step) };
}

impl MemSource {
    /// A source of these bytes, in pieces of at most `step` bytes. It fails at the calls of `take` whose numbers, counted
    /// from 0, are listed. Takes no memory.
    pub fn new(bytes: Vec<u8>, step: usize, failing: Vec<u64>) -> MemSource
        requires { 0 < step }
        ensures { result ≡ record { left = bytes.items; step = step; failing = failing.items; calls = 0; faults = 0 } }
    {
        MemSource {
            bytes,
            at: 0,
            step,
            failing,
            calls: 0,
            faults: 0,
        }
    }

    /// What it has left. Takes no memory.
    pub fn left(&self) -> &[u8]
        ensures { result.now ≡ self.now.left }
    {
        &self.bytes[self.at..]
    }
}

impl Source for MemSource {
    ghost left = { λ s. Some s.left };

    ghost faults = { λ s. s.faults };

    ghost reads = { λ s. s.calls };

    /// Gives the least of the step, the buffer's length and what is left. `Fault` exactly at the listed calls, and no other
    /// refusal. Takes no memory.
    fn take(&mut self, buf: &mut [u8]) -> Result<usize, Failed>
        ensures bound { ReadsAtMost result buf.new }
        ensures bytes { ReadConsumes (Some self.old.left) (Some self.new.left) result buf.new }
        ensures cause { HasCause self.old.faults self.new.faults result }
        ensures read { self.new.calls ≤ self.old.calls + 1 }

        ensures count { IfOk result (λ n. n ≡ min (min self.old.step (length buf.old)) (length self.old.left)) }
        ensures chosen { (result ≡ Err Fault) ↔ Contains self.old.failing self.old.calls }
        ensures fault { OnErr result (result ≡ Err Fault) }

        ensures ok { OnOk result (self.new.faults ≡ self.old.faults) }
        ensures err { OnErr result (self.new.faults ≡ next_count self.old.faults) }
        ensures calls { self.new.calls ≡ next_count self.old.calls }
        ensures same { (self.new.step ≡ self.old.step) × (self.new.failing ≡ self.old.failing) }
    {
        let call = self.calls;
        self.calls = call.saturating_add(1);
        if self.failing.contains(&call) {
            self.faults = self.faults.saturating_add(1);
            return Err(Failed::Fault);
        }
        let count = self.step.min(buf.len()).min(self.bytes.len() - self.at);
        buf[..count].copy_from_slice(&self.bytes[self.at..self.at + count]);
        self.at += count;
        Ok(count)
    }
}
