//! What comes to a coordinator that began no operation.

ghost use Rattle.std.specs.Prelude.{IfOk};
ghost use Rattle.fal_node_tests.specs.Resting.{IsResting, IsHearing};

use crate::effect::Effect;
use fal_base::{Actor, Bytes, Envelope, OutOfMemory, Refuse};
use fal_coord::{Coord, CoordEvent};
use fal_wire::decode;
use std::alloc::{AllocError, Global};
use std::test::Fail;

// A call of rmdir on the path `/a` by client 1.
const RMDIR: &[u8] =
    b"\x01\x01\0\0\0\x1e\x01\0\0\0\x01\0\0\0\x01\0\0\0\0\0\0\0\0\0\0\0\0\0\0\0\0\x09\0\x01\x01a";

// Envelopes by receiver and bytes, whether the bytes are a record, and what they do to the coordinator of three nodes as they come once and once more.
const ROWS: [(Actor, &[u8], bool, [Effect; 2]); 24] = [
    // what was sent to another actor
    (Actor::Client(1), RMDIR, true, [Effect::Refused; 2]),
    (Actor::Node(0), RMDIR, true, [Effect::Refused; 2]),
    // an operation is taken once
    (Actor::Coord, RMDIR, true, [Effect::Change, Effect::Nothing]),
    // a stat, which is none
    (
        Actor::Coord,
        b"\x01\x01\0\0\0\x1c\x01\0\0\0\x01\0\0\0\x01\0\0\0\0\0\0\0\0\0\0\0\0\0\0\0\0\x03\0\0",
        true,
        [Effect::Nothing; 2],
    ),
    // no record
    (Actor::Coord, b"", false, [Effect::Nothing; 2]),
    (
        Actor::Coord,
        b"\x0e\x01\0\0\0\x05\0\0\0\x01\x10",
        false,
        [Effect::Nothing; 2],
    ),
    // the answer to fetch 0: nothing stands under the name `a` in directory 1
    (
        Actor::Coord,
        b"\x08\x01\0\0\0\x13\0\0\0\0\0\0\0\0\0\0\0\0\0\0\0\x01\x01a\0",
        true,
        [Effect::Nothing; 2],
    ),
    // of operation 1: node 0 and then node 9, which is not there, tells that it has shut the key and has no row under it
    (
        Actor::Coord,
        b"\x0a\x01\0\0\0\x11\0\0\0\x01\0\x01\0\0\0\0\0\0\0\x01\x01a\0",
        true,
        [Effect::Nothing; 2],
    ),
    (
        Actor::Coord,
        b"\x0a\x01\0\0\0\x11\0\0\0\x01\x09\x01\0\0\0\0\0\0\0\x01\x01a\0",
        true,
        [Effect::Nothing; 2],
    ),
    // they tell how many entries they have
    (
        Actor::Coord,
        b"\x0c\x01\0\0\0\x0d\0\0\0\x01\0\0\0\0\0\0\0\0\x02",
        true,
        [Effect::Nothing; 2],
    ),
    (
        Actor::Coord,
        b"\x0c\x01\0\0\0\x0d\0\0\0\x01\x09\0\0\0\0\0\0\0\x02",
        true,
        [Effect::Nothing; 2],
    ),
    // they have opened the key
    (
        Actor::Coord,
        b"\x0e\x01\0\0\0\x05\0\0\0\x01\0",
        true,
        [Effect::Nothing; 2],
    ),
    (
        Actor::Coord,
        b"\x0e\x01\0\0\0\x05\0\0\0\x01\x09",
        true,
        [Effect::Nothing; 2],
    ),
    // they have given their rows of a name away, and have taken those that are theirs
    (
        Actor::Coord,
        b"\x10\x01\0\0\0\x09\0\0\0\x01\0\0\0\0\0",
        true,
        [Effect::Nothing; 2],
    ),
    (
        Actor::Coord,
        b"\x10\x01\0\0\0\x09\0\0\0\x01\x09\0\0\0\0",
        true,
        [Effect::Nothing; 2],
    ),
    (
        Actor::Coord,
        b"\x12\x01\0\0\0\x05\0\0\0\x01\0",
        true,
        [Effect::Nothing; 2],
    ),
    (
        Actor::Coord,
        b"\x12\x01\0\0\0\x05\0\0\0\x01\x09",
        true,
        [Effect::Nothing; 2],
    ),
    // records for a node: a Block, an Install, a Lock and a Commit
    (
        Actor::Coord,
        b"\x0f\x01\0\0\0\x06\0\0\0\x01\x01a",
        true,
        [Effect::Nothing; 2],
    ),
    (
        Actor::Coord,
        b"\x11\x01\0\0\0\x0d\0\0\0\x01\0\0\0\x01\0\0\0\0\0",
        true,
        [Effect::Nothing; 2],
    ),
    (
        Actor::Coord,
        b"\x09\x01\0\0\0\x0f\0\0\0\x01\x01\0\0\0\0\0\0\0\x01\x01a",
        true,
        [Effect::Nothing; 2],
    ),
    (
        Actor::Coord,
        b"\x0d\x01\0\0\0\x10\0\0\0\x01\x01\0\0\0\0\0\0\0\x01\x01a\0",
        true,
        [Effect::Nothing; 2],
    ),
    // records of a listing: its directory is opened, a client asks for a part, and node 0 gives its part
    (
        Actor::Coord,
        b"\x04\x01\0\0\0\x15\x01\0\0\0\x01\0\0\0\x01\0\0\0\0\0\0\0\0\0\0\0\x01",
        true,
        [Effect::Nothing; 2],
    ),
    (
        Actor::Coord,
        b"\x05\x01\0\0\0\x19\x01\0\0\0\x01\0\0\0\x01\0\0\0\0\0\0\0\0\0\0\0\0\0\0\0\x01",
        true,
        [Effect::Nothing; 2],
    ),
    (
        Actor::Coord,
        b"\x06\x01\0\0\0\x12\x01\0\0\0\x01\0\0\0\x01\0\0\0\0\0\0\0\0\0",
        true,
        [Effect::Nothing; 2],
    ),
];

// The coordinator of three nodes.
fn new_coord(alloc: Global) -> Coord
    ensures { IsResting result.state }
{
    Coord::new(alloc, 3)
}

// What comes with the bytes.
fn hearing(alloc: Global, to: Actor, bytes: &[u8]) -> Result<CoordEvent, OutOfMemory>
    ensures { IfOk result IsHearing }
{
    Ok(CoordEvent::Hear(Envelope {
        from: Actor::Node(0),
        to,
        sent_at: 0,
        point: 5,
        bytes: Bytes::from_items(Vec::from_slice(alloc, bytes)?),
    }))
}

// The coordinator hears what came. The answer is how many records and notes it makes.
fn hear(coord: &mut Coord, event: &CoordEvent) -> Result<(usize, usize), Refuse>
    requires resting { IsResting coord.old.state }
    requires hearing { IsHearing event.now }
    ensures { IsResting coord.new.state }
{
    let prepared = coord.ready(event)?;
    let sent = prepared.outputs().sent.len();
    let notes = prepared.outputs().notes.len();
    coord.apply(prepared);
    Ok((sent, notes))
}

fn printed(alloc: Global, coord: &Coord) -> Result<String, AllocError> {
    format!(in alloc; "{coord:?}")
}

// What an envelope with these bytes does.
fn effect_of(alloc: Global, coord: &mut Coord, to: Actor, bytes: &[u8]) -> Result<Effect, Fail>
    requires { IsResting coord.old.state }
    ensures { IsResting coord.new.state }
{
    let before = printed(alloc, coord)?;
    let made = match hear(coord, &hearing(alloc, to, bytes)?) {
        Ok(made) => made,
        Err(Refuse::NotEnabled) => return Ok(Effect::Refused),
        Err(Refuse::OutOfMemory) => return Err(Fail::new("out of memory")),
    };
    let after = printed(alloc, coord)?;
    if made == (0, 0) && before == after {
        return Ok(Effect::Nothing);
    }
    Ok(Effect::Change)
}

// What it does to a new coordinator, and what it does as it comes again.
fn effects(alloc: Global, to: Actor, bytes: &[u8]) -> Result<[Effect; 2], Fail> {
    let mut coord = new_coord(alloc);
    let once = effect_of(alloc, &mut coord, to, bytes)?;
    let again = effect_of(alloc, &mut coord, to, bytes)?;
    Ok([once, again])
}

#[test]
fn each_record_has_its_effect(rt: HostRuntime) -> Result<(), Fail> {
    for (to, bytes, is_record, wanted) in ROWS {
        assert_eq!(rt; decode(rt.alloc(), bytes).is_ok(), is_record, "{bytes:?}");
        assert_eq!(rt; effects(rt.alloc(), to, bytes)?, wanted, "{to:?} {bytes:?}");
    }
    Ok(())
}
