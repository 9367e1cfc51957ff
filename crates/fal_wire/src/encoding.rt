//! Messages, written as records.

ghost use Rattle.std.specs.Prelude.{◌≡◌, ◌≤◌, ◌<◌, ◌+◌, ◌-◌, ◌^◌, [], ◌∷◌, ◌++◌, length, take, drop, IfOk, OnOk, OnErr};
ghost use Rattle.fal_wire.specs.Format.{number_spelling};
ghost use Rattle.fal_wire.specs.Messages.{spelling, Fits};
ghost use Rattle.fal_wire.specs.Ops.{call_rec};
ghost use Rattle.fal_wire.specs.declared.message.Message.TheVariants.{Call as CallMessage};

use crate::message::Message;
use crate::op::put_call_of;
use crate::writer::{kind, put_body};
use byteorder::{BigEndian, ByteOrder};
use fal_base::{Call, CallId, OutOfMemory};
use std::alloc::Global;

// The bytes before the body: the kind, the version, and the length of the body.
const HEAD: usize = 6;

// Most records have no more bytes than this.
const RECORD: usize = 102;

// The bytes before the body of a record of this kind. The length of the body is still to be written.
fn begun(alloc: Global, kind: u8) -> Result<Vec<u8>, OutOfMemory>
    ensures { IfOk result (λ bytes. bytes.items ≡ kind ∷ 1 ∷ 0 ∷ 0 ∷ 0 ∷ 0 ∷ []) }
{
    let mut record = Vec::with_capacity(alloc, RECORD)?;
    record.extend_from_slice(&[kind, 1, 0, 0, 0, 0])?;
    Ok(record)
}

// Writes the length of the body, which is all that follows it, into its place.
#[tactic(auto, unfolding(crate::specs::Format::number_spelling))]
fn put_length(bytes: &mut [u8])
    requires begun { 6 ≤ length bytes.old }
    requires short { length bytes.old < 6 + 2 ^ 32 }
    ensures { bytes.new ≡ take 2 bytes.old ++ (number_spelling 4 (length bytes.old - 6) ++ drop 6 bytes.old) }
{
    let body = bytes.len() - HEAD;
    BigEndian::write_u32(&mut bytes[2..], body as u32);
}

/// The bytes of the message: its kind, the version 1, the length of its body, and the body.
pub(crate) fn record_of(alloc: Global, message: &Message) -> Result<Vec<u8>, OutOfMemory>
    requires { Fits message.now }
    ensures { IfOk result (λ bytes. bytes.items ≡ spelling message.now) }
{
    let mut record = begun(alloc, kind(message))?;
    put_body(&mut record, message)?;
    put_length(&mut record);
    Ok(record)
}

/// The bytes of a call as a message, and the call is not copied.
#[tactic(auto, unfolding(crate::specs::Messages::body_spelling, crate::specs::Messages::FieldsFit, crate::specs::Messages::kind_of))]
pub(crate) fn record_of_call(
    alloc: Global,
    id: &CallId,
    version: u32,
    call: &Call,
) -> Result<Vec<u8>, OutOfMemory>
    requires { Fits (CallMessage (call_rec id.now call.now.cred version call.now.op)) }
    ensures { IfOk result (λ bytes. bytes.items ≡ spelling (CallMessage (call_rec id.now call.now.cred version call.now.op))) }
{
    let mut record = begun(alloc, 1)?;
    put_call_of(&mut record, id, &call.cred, version, &call.op)?;
    put_length(&mut record);
    Ok(record)
}

/// Appends the record of the message: one spelling for each message. The message is within the ranges of the format, and so its paths
/// are good. On a refusal, which is want of memory, `into` is unchanged.
pub fn encode(message: &Message, into: &mut Vec<u8>) -> Result<(), OutOfMemory>
    requires { Fits message.now }
    ensures ok { OnOk result (into.new.items ≡ into.old.items ++ spelling message.now) }
    ensures err { OnErr result (into.new.items ≡ into.old.items) }
{
    let record = record_of(*into.allocator(), message)?;
    into.extend_from_slice(&record)?;
    Ok(())
}
