//! Random records and valid ones with a byte or two changed. What reading them answers is compared with the answers of another
//! implementation, which `bench/digests.py` draws the same records for.

ghost use Rattle.std.specs.Prelude.{◌≤◌, ◌<◌};
ghost use Rattle.fal_wire.specs.Messages.{Fits};

use crate::records::{rows_of, written};
use crate::{digests, table};
use fal_base::OutOfMemory;
use fal_wire::{Message, WireFault, decode};
use std::alloc::{AllocError, Global};
use std::test::*;

// The next number of the sequence, below the bound.
fn draw(state: &mut u64, bound: usize) -> usize
    requires { 1 ≤ bound }
    ensures { result < bound }
{
    *state = state
        .wrapping_mul(6364136223846793005)
        .wrapping_add(1442695040888963407);
    (*state >> 33) as usize % bound
}

// A byte that formats are often wrong about, or any.
fn telling_byte(state: &mut u64) -> u8 {
    match draw(state, 6) {
        0 => 0,
        1 => 1,
        2 => 2,
        3 => b'/',
        4 => 255,
        _ => draw(state, 256) as u8,
    }
}

// Cuts the record, or changes, adds or takes out one byte.
fn mutate(record: &mut Vec<u8>, state: &mut u64) -> Result<(), AllocError> {
    if record.is_empty() {
        return Ok(());
    }
    let way = draw(state, 6);
    let at = draw(state, record.len());
    let byte = telling_byte(state);
    match way {
        0 => record.truncate(at),
        1 => record.push(byte)?,
        2 => record[at] ^= 1 << (byte % 8),
        3 => record[at] = byte,
        4 => record.insert(at, byte)?,
        _ => drop(record.remove(at)),
    }
    Ok(())
}

// The sample after one or two mutations.
fn mutated(alloc: Global, sample: &[u8], state: &mut u64) -> Result<Vec<u8>, AllocError> {
    let mut record = Vec::from_slice(alloc, sample)?;
    for _ in 0..draw(state, 2) + 1 {
        mutate(&mut record, state)?;
    }
    Ok(record)
}

// A random body behind a right head.
fn random_record(alloc: Global, state: &mut u64) -> Result<Vec<u8>, AllocError> {
    let mut record = Vec::new(alloc);
    record.push(draw(state, 20) as u8)?;
    record.extend_from_slice(b"\x01\0\0\0\0")?;
    for _ in 0..draw(state, 40) {
        record.push(telling_byte(state))?;
    }
    Ok(record)
}

// The lowest byte of the body's length is put right.
fn put_length_right(record: &mut Vec<u8>) {
    if record.len() >= 6 {
        record[5] = ((record.len() - 6) % 256) as u8;
    }
}

fn drawn(alloc: Global, samples: &[Vec<u8>], state: &mut u64) -> Result<Vec<u8>, AllocError> {
    let mut record = if draw(state, 8) == 0 {
        random_record(alloc, state)?
    } else {
        match samples.get(draw(state, samples.len().max(1))) {
            Some(sample) => mutated(alloc, sample, state)?,
            None => Vec::new(alloc),
        }
    };
    if draw(state, 4) > 0 {
        put_length_right(&mut record);
    }
    Ok(record)
}

// The records of the tables that are read.
fn valid_records(alloc: Global) -> Result<Vec<Vec<u8>>, AllocError> {
    let mut records = rows_of(alloc, table::samples())?;
    for text in table::answered() {
        for row in rows_of(alloc, text)?.as_slice() {
            if let [0, 0, record @ ..] = row.as_slice() {
                records.push(Vec::from_slice(alloc, record)?)?;
            }
        }
    }
    Ok(records)
}

// The FNV-1a digest after these bytes too.
fn folded(digest: u64, bytes: &[u8]) -> u64 {
    let mut digest = digest;
    for byte in bytes {
        digest = (digest ^ u64::from(*byte)).wrapping_mul(1099511628211);
    }
    digest
}

fn message_text(alloc: Global, message: &Message) -> Result<String, OutOfMemory> {
    Ok(format!(in alloc; "Ok({message:?})")?)
}

fn fault_text(alloc: Global, fault: WireFault) -> Result<String, OutOfMemory> {
    Ok(format!(in alloc; "Err({fault:?})")?)
}

// The digest after the message's text, and what it is written as.
fn after_message(alloc: Global, digest: u64, message: &Message) -> Result<u64, OutOfMemory>
    requires { Fits message.now }
{
    let text = message_text(alloc, message)?;
    let bytes = written(alloc, message)?;
    Ok(folded(folded(digest, text.as_bytes()), bytes.as_slice()))
}

fn after_fault(alloc: Global, digest: u64, fault: WireFault) -> Result<u64, OutOfMemory> {
    let text = fault_text(alloc, fault)?;
    Ok(folded(digest, text.as_bytes()))
}

// The digest after the answer.
fn answered(alloc: Global, digest: u64, record: &[u8]) -> Result<u64, OutOfMemory> {
    match decode(alloc, record) {
        Ok(message) => after_message(alloc, digest, &message),
        Err(fault) => after_fault(alloc, digest, fault),
    }
}

// The digest of a hundred answers.
fn hundred(alloc: Global, samples: &[Vec<u8>], state: &mut u64) -> Result<u64, OutOfMemory> {
    let mut digest = 14695981039346656037;
    for _ in 0..100 {
        let record = drawn(alloc, samples, state)?;
        digest = answered(alloc, digest, record.as_slice())?;
    }
    Ok(digest)
}

#[test]
fn drawn_records_are_answered_as_listed(rt: HostRuntime) -> Result<(), Fail> {
    let samples = valid_records(rt.alloc())?;
    let digests = rows_of(rt.alloc(), digests::of_hundreds())?;
    assert_eq!(rt; digests.len(), 200);
    let mut state = 54;
    for (place, due) in digests.as_slice().iter().enumerate() {
        let digest = hundred(rt.alloc(), samples.as_slice(), &mut state)?;
        assert_eq!(rt;
            digest.to_be_bytes().as_slice(),
            due.as_slice(),
            "hundred {place}"
        );
    }
    Ok(())
}
