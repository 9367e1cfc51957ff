ghost use Rattle.std.specs.Prelude.{◌≡◌, ◌≤◌, ◌<◌, ◌+◌, ◌^◌, List, ℕ, Option, Result, length, vec_len};
ghost use Rattle.fal_io.specs.Causes.{ReadsAll};

use crate::failed::Failed;
use crate::source::Source;
use std::alloc::Global;
use thiserror::Error;

/// How many bytes one read asks for at most.
pub const READ_SIZE: usize = 16384;

/// Why not all was read.
#[derive(Clone, Copy, Debug, PartialEq, Eq, Error)]
pub enum ReadAll {
    /// The source failed, and its count of faults has risen.
    #[error("the source failed")]
    Fault,
    /// More bytes came than the limit allows.
    #[error("more bytes than the limit allows")]
    TooLarge,
    /// Memory was refused.
    #[error("out of memory")]
    OutOfMemory,
}

/// All that the source had left, at most `limit` bytes, in at most `limit + 1` reads.
///
/// `Fault` only where the source's count of faults rose in this call. `TooLarge` exactly where more than `limit` bytes
/// were taken, which ends with the first read that passes the limit. After a refusal the source has lost a front of what
/// it had left and nothing else.
pub fn read_all<S: Source>(alloc: Global, source: &mut S, limit: usize) -> Result<Vec<u8>, ReadAll>
    ensures bytes { ReadsAll limit READ_SIZE (S.left source.old) (S.left source.new) (S.faults source.old)
        (S.faults source.new) result }
    ensures reads { S.reads source.new ≤ S.reads source.old + limit + 1 }
{
    let Ok(mut buffer) = vec![in alloc; 0u8; READ_SIZE] else {
        return Err(ReadAll::OutOfMemory);
    };
    read_through(alloc, source, &mut buffer, limit)
}

/// The same, by reads into this buffer.
fn read_through<S: Source>(
    alloc: Global,
    source: &mut S,
    buffer: &mut [u8],
    limit: usize,
) -> Result<Vec<u8>, ReadAll>
    requires { 0 < length buffer.old }
    ensures bytes { ReadsAll limit (length buffer.old) (S.left source.old) (S.left source.new) (S.faults source.old)
        (S.faults source.new) result }
    ensures reads { S.reads source.new ≤ S.reads source.old + limit + 1 }
{
    let mut bytes = Vec::new(alloc);
    loop {
        let count = match source.take(buffer) {
            Ok(count) => count,
            Err(Failed::Fault) => return Err(ReadAll::Fault),
            Err(Failed::OutOfMemory) => return Err(ReadAll::OutOfMemory),
        };
        if count == 0 {
            return Ok(bytes);
        }
        if count > limit - bytes.len() {
            return Err(ReadAll::TooLarge);
        }
        if bytes.extend_from_slice(&buffer[..count]).is_err() {
            return Err(ReadAll::OutOfMemory);
        }
    }
}
