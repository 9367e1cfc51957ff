//! What no contract says: that the definitions read as the format was meant. The rows of the tables were answered by another
//! implementation, written from the format's text alone.

ghost use Rattle.fal_wire.specs.Messages.{Fits};

use crate::table;
use fal_base::{Key, OutOfMemory};
use fal_wire::{Message, WireFault, decode, encode};
use std::alloc::{AllocError, Global};
use std::process::Abort;
use std::test::*;

fn nibble(digit: u8) -> u8 {
    match digit {
        b'0'..=b'9' => digit - b'0',
        b'a'..=b'f' => digit - b'a' + 10,
        _ => 0,
    }
}

// The rows of a table of hexadecimal digits.
pub fn rows_of(alloc: Global, text: &str) -> Result<Vec<Vec<u8>>, AllocError> {
    let mut rows = Vec::new(alloc);
    let mut row: Vec<u8> = Vec::new(alloc);
    let mut high = None;
    for digit in text.as_bytes() {
        if *digit == b'\n' {
            rows.push(row)?;
            row = Vec::new(alloc);
            continue;
        }
        match high {
            None => high = Some(nibble(*digit)),
            Some(first) => {
                row.push(first.wrapping_mul(16).wrapping_add(nibble(*digit)))?;
                high = None;
            }
        }
    }
    drop(row);
    Ok(rows)
}

// The number of the answer's form, and its place.
fn answer(alloc: Global, bytes: &[u8]) -> (u8, usize) {
    match decode(alloc, bytes) {
        Ok(_) => (0, 0),
        Err(WireFault::Short { at }) => (1, at),
        Err(WireFault::Kind { at }) => (2, at),
        Err(WireFault::Length { at }) => (3, at),
        Err(WireFault::Value { at }) => (4, at),
        Err(WireFault::Trailing { at }) => (5, at),
        Err(WireFault::OutOfMemory) => (6, 0),
    }
}

// What the message is written as.
pub fn written(alloc: Global, message: &Message) -> Result<Vec<u8>, OutOfMemory>
    requires { Fits message.now }
{
    let mut bytes = Vec::new(alloc);
    encode(message, &mut bytes)?;
    Ok(bytes)
}

// Whether bytes that are read are what the message is written as.
fn is_written_again(alloc: Global, bytes: &[u8]) -> Result<bool, OutOfMemory> {
    match decode(alloc, bytes) {
        Ok(message) => {
            let again = written(alloc, &message)?;
            Ok(again.as_slice() == bytes)
        }
        Err(_) => Ok(true),
    }
}

// Each row of the table is answered as it says, and what is read is written again.
fn are_answered(rt: &impl Abort, alloc: Global, text: &str) -> Result<(), AllocError> {
    let rows = rows_of(alloc, text)?;
    for row in rows.as_slice() {
        if let [form, place, bytes @ ..] = row.as_slice() {
            assert_eq!(rt;
                answer(alloc, bytes),
                (*form, usize::from(*place)),
                "{bytes:?}"
            );
            assert!(rt; matches!(is_written_again(alloc, bytes), Ok(true)));
        }
    }
    Ok(())
}

#[test]
fn rows_are_answered_as_listed(rt: HostRuntime) -> Result<(), Fail> {
    for text in table::answered() {
        are_answered(&rt, rt.alloc(), text)?;
    }
    Ok(())
}

// Each front of the record is short, and one byte more is trailing.
fn is_whole(rt: &impl Abort, alloc: Global, record: &[u8]) -> Result<(), AllocError> {
    assert_eq!(rt; answer(alloc, record), (0, 0));
    for cut in 0..record.len() {
        assert_eq!(rt; answer(alloc, &record[..cut]), (1, cut));
    }
    let mut longer = Vec::from_slice(alloc, record)?;
    longer.push(0)?;
    assert_eq!(rt; answer(alloc, longer.as_slice()), (5, record.len()));
    Ok(())
}

#[test]
fn a_front_is_short_and_one_byte_more_is_trailing(rt: HostRuntime) -> Result<(), Fail> {
    let rows = rows_of(rt.alloc(), table::samples())?;
    assert_eq!(rt; rows.len(), 18);
    for row in rows.as_slice() {
        is_whole(&rt, rt.alloc(), row.as_slice())?;
    }
    Ok(())
}

fn is_a(key: &Key) -> bool {
    key.parent == 1 && key.name.bytes() == b"a".as_slice()
}

// A record that was worked out by hand.
#[derive(Clone, Copy)]
enum Worked {
    /// Node 2 is done with operation 7.
    Done,
    /// Node 2 asks for the directory `a` under the root, by its fetch 1.
    Asks,
}

fn is_worked(worked: Worked, message: &Message) -> bool {
    match worked {
        Worked::Done => matches!(message, Message::Done { op: 7, node: 2 }),
        Worked::Asks => match message {
            Message::FetchAsk {
                asker: 2,
                number: 1,
                key,
            } => is_a(key),
            _ => false,
        },
    }
}

fn reads_as(alloc: Global, bytes: &[u8], worked: Worked) -> bool {
    let Ok(message) = decode(alloc, bytes) else {
        return false;
    };
    is_worked(worked, &message)
}

#[test]
fn worked_records_are_read_and_written_again(rt: HostRuntime) -> Result<(), Fail> {
    for (bytes, worked) in [
        (b"\x0e\x01\0\0\0\x05\0\0\0\x07\x02".as_slice(), Worked::Done),
        (
            b"\x07\x01\0\0\0\x13\x02\0\0\0\0\0\0\0\x01\0\0\0\0\0\0\0\x01\x01a".as_slice(),
            Worked::Asks,
        ),
    ] {
        assert!(rt; reads_as(rt.alloc(), bytes, worked));
        assert!(rt; matches!(is_written_again(rt.alloc(), bytes), Ok(true)));
    }
    Ok(())
}

fn push_name(bytes: &mut Vec<u8>, len: u8) -> Result<(), AllocError> {
    bytes.push(len)?;
    for _ in 0..len {
        bytes.push(b'a')?;
    }
    Ok(())
}

// A call of stat with sixteen names in its path, of which the last has so many bytes; `low` is the lowest byte of the body's length.
fn long_path(alloc: Global, low: u8, last: u8) -> Result<Vec<u8>, AllocError> {
    let mut bytes = Vec::new(alloc);
    bytes.extend_from_slice(b"\x01\x01\0\0\x10")?;
    bytes.push(low)?;
    bytes.extend_from_slice(b"\x01\0\0\0\x01\0\0\0\x01\0\0\0\0")?;
    bytes.extend_from_slice(b"\0\0\0\x07\0\0\0\x08\0\0\0\x02\x03\0\x10")?;
    for _ in 0..15 {
        push_name(&mut bytes, 255)?;
    }
    push_name(&mut bytes, last)?;
    Ok(bytes)
}

#[test]
fn a_path_has_at_most_4095_bytes(rt: HostRuntime) -> Result<(), Fail> {
    for (low, last, wanted) in [(27, 254, (0, 0)), (28, 255, (4, 32))] {
        let record = long_path(rt.alloc(), low, last)?;
        assert_eq!(rt; answer(rt.alloc(), record.as_slice()), wanted);
    }
    Ok(())
}
