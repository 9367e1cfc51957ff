//! Records, read as messages.

ghost use Rattle.std.specs.Prelude.{◌≡◌, ◌+◌, length, IsTrue, IfOk, Ok};
ghost use Rattle.fal_base.specs.Unless.{UnlessMemory};
ghost use Rattle.fal_wire.specs.declared.message.Message.{Message};
ghost use Rattle.fal_wire.specs.Gives.{Gives};
ghost use Rattle.fal_wire.specs.Messages.{spelling, Fits, framed, is_kind as is_kind_of, reading};

use crate::fault::{Stop, WireFault};
use crate::message::Message;
use crate::number::past_body;
use crate::reader::read_body;
use byteorder::{BigEndian, ByteOrder};
use std::alloc::Global;

// The length of the body, so many bytes, no fewer and no more, and then the body. `len` counts the record's bytes.
fn read_framed(alloc: Global, kind: u8, len: usize, bytes: &[u8]) -> Result<Message, Stop>
    requires known { IsTrue (is_kind_of kind) }
    requires counted { len ≡ 2 + length bytes.now }
    ensures { Gives (λ m. m) result (framed kind bytes.now) }
{
    if bytes.len() < 4 {
        return Err(Stop::Fault(WireFault::Short { at: len }));
    }
    let body = BigEndian::read_u32(bytes) as usize;
    if bytes.len() < 4 + body {
        return Err(Stop::Fault(WireFault::Short { at: len }));
    }
    if 4 + body < bytes.len() {
        return Err(Stop::Fault(WireFault::Trailing { at: 6 + body }));
    }
    let (_, rest) = bytes.split_at(4);
    let (message, rest) = read_body(alloc, kind, len, rest)?;
    if rest.is_empty() {
        Ok(message)
    } else {
        Err(past_body(len, rest))
    }
}

// Whether there are records of this kind.
fn is_kind(kind: u8) -> bool
    ensures { result ≡ is_kind_of kind }
{
    kind > 0 && kind < 19
}

#[tactic(auto, unfolding(crate::specs::Messages::reading))]
fn read_record(alloc: Global, bytes: &[u8]) -> Result<Message, Stop>
    ensures { Gives (λ m. m) result (reading bytes.now) }
{
    match bytes {
        [] => Err(Stop::Fault(WireFault::Short { at: 0 })),
        [kind] => {
            if is_kind(*kind) {
                Err(Stop::Fault(WireFault::Short { at: 1 }))
            } else {
                Err(Stop::Fault(WireFault::Kind { at: 0 }))
            }
        }
        [kind, version, rest @ ..] => {
            if !is_kind(*kind) {
                return Err(Stop::Fault(WireFault::Kind { at: 0 }));
            }
            if *version != 1 {
                return Err(Stop::Fault(WireFault::Value { at: 1 }));
            }
            let message = read_framed(alloc, *kind, bytes.len(), rest)?;
            Ok(message)
        }
    }
}

fn answer_to(alloc: Global, bytes: &[u8]) -> Result<Message, WireFault>
    ensures { UnlessMemory WireFault.OutOfMemory result (reading bytes.now) }
{
    match read_record(alloc, bytes) {
        Ok(message) => Ok(message),
        Err(Stop::Memory) => Err(WireFault::OutOfMemory),
        Err(Stop::Fault(fault)) => Err(fault),
    }
}

/// The message whose record these bytes are, all of them, or the first fault from the left with its place, or want of memory.
///
/// `Short` where bytes are missing, with the number of those that are there; `Kind` where the first byte is no kind; `Trailing` where
/// bytes follow the body; `Length` where a field reaches past the body or the fields end before it; `Value` where a value is out of its
/// range or out of order. The kind and the version are judged first, then the length, and then the fields.
pub fn decode(alloc: Global, bytes: &[u8]) -> Result<Message, WireFault>
    // Which message or fault it is.
    ensures exact { UnlessMemory WireFault.OutOfMemory result (reading bytes.now) }
    // What is read is spelled so, each byte of it.
    ensures spelled { IfOk result (λ m. (bytes.now ≡ spelling m) × Fits m) }
    // What is spelled so is read, unless memory runs out.
    ensures only { (m : Message) → Fits m → bytes.now ≡ spelling m → UnlessMemory WireFault.OutOfMemory result (Ok m) }
{
    answer_to(alloc, bytes)
}
