ghost use Rattle.std.specs.Prelude.{◌≡◌, ◌≤◌, OnOk, OnErr, length};
ghost use Rattle.std.specs.Io.KnownBytes.{Appends};
ghost use Rattle.fal_io.specs.Causes.{HasCause, AppendsFront};

use crate::failed::Failed;
use crate::sink::Sink;

/// How many bytes one write offers at most.
pub const PUT_SIZE: usize = 65536;

/// Appends all of the bytes to the sink, in pieces of at most 65,536 bytes.
///
/// After a refusal the sink holds a front of the bytes appended. `Fault` only where the sink's count of faults rose in
/// this call, `OutOfMemory` only from the sink itself.
pub fn put_all<K: Sink>(sink: &mut K, bytes: &[u8]) -> Result<(), Failed>
    ensures ok { OnOk result (Appends (K.holds sink.old) (K.holds sink.new) bytes.now) }
    ensures err { OnErr result (AppendsFront (K.holds sink.old) (K.holds sink.new) bytes.now) }
    ensures cause { HasCause (K.faults sink.old) (K.faults sink.new) result }
{
    let mut start = 0;
    while start < bytes.len() {
        let size = PUT_SIZE.min(bytes.len() - start);
        start += sink.put(&bytes[start..start + size])?;
    }
    Ok(())
}
