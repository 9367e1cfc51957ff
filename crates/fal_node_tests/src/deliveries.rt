//! What comes to a node that took few records.

ghost use Rattle.std.specs.Prelude.{◌+◌, ℕ, IfOk};
ghost use Rattle.fal_node_tests.specs.Young.{IsYoung, IsDelivery};

use crate::effect::Effect;
use fal_base::{Actor, Bytes, Envelope, OutOfMemory, Refuse};
use fal_node::{Node, NodeEvent};
use fal_wire::decode;
use std::alloc::{AllocError, Global};
use std::test::Fail;

// A call of stat on the root path by client 1.
const STAT: &[u8] =
    b"\x01\x01\0\0\0\x1c\x01\0\0\0\x01\0\0\0\x01\0\0\0\0\0\0\0\0\0\0\0\0\0\0\0\0\x03\0\0";

// Envelopes by receiver and bytes, whether the bytes are a record, and what they do to node 1 of three as they come once and once more.
const ROWS: [(Actor, &[u8], bool, [Effect; 2]); 28] = [
    // what was sent to another actor
    (Actor::Client(1), STAT, true, [Effect::Refused; 2]),
    (Actor::Node(0), STAT, true, [Effect::Refused; 2]),
    (Actor::Coord, STAT, true, [Effect::Refused; 2]),
    // a call is taken once
    (
        Actor::Node(1),
        STAT,
        true,
        [Effect::Change, Effect::Nothing],
    ),
    // no record
    (Actor::Node(1), b"", false, [Effect::Nothing; 2]),
    (
        Actor::Node(1),
        b"\x13\x01\0\0\0\0",
        false,
        [Effect::Nothing; 2],
    ),
    // the answer to fetch 7, which is not pending: nothing stands under the name `a` in directory 1
    (
        Actor::Node(1),
        b"\x08\x01\0\0\0\x13\0\0\0\0\0\0\0\x07\0\0\0\0\0\0\0\x01\x01a\0",
        true,
        [Effect::Nothing; 2],
    ),
    // a record for the coordinator: node 0 has done its part of operation 1
    (
        Actor::Node(1),
        b"\x0e\x01\0\0\0\x05\0\0\0\x01\0",
        true,
        [Effect::Nothing; 2],
    ),
    // node 0 tells its rows, and counts
    (
        Actor::Node(1),
        b"\x0a\x01\0\0\0\x11\0\0\0\x01\0\x01\0\0\0\0\0\0\0\x01\x01a\0",
        true,
        [Effect::Nothing; 2],
    ),
    (
        Actor::Node(1),
        b"\x0c\x01\0\0\0\x0d\0\0\0\x01\0\0\0\0\0\0\0\0\x02",
        true,
        [Effect::Nothing; 2],
    ),
    // operation 1 is to shut the name `a` in directory 1: it is taken once
    (
        Actor::Node(1),
        b"\x09\x01\0\0\0\x0f\0\0\0\x01\x01\0\0\0\0\0\0\0\x01\x01a",
        true,
        [Effect::Change, Effect::Nothing],
    ),
    // an operation that has shut no key here asks for a count, and removes the row of that name
    (
        Actor::Node(1),
        b"\x0b\x01\0\0\0\x0c\0\0\0\x01\0\0\0\0\0\0\x01\x01",
        true,
        [Effect::Nothing; 2],
    ),
    (
        Actor::Node(1),
        b"\x0d\x01\0\0\0\x10\0\0\0\x01\x01\0\0\0\0\0\0\0\x01\x01a\0",
        true,
        [Effect::Nothing; 2],
    ),
    // operation 2 is to block the name `a`: it is taken once
    (
        Actor::Node(1),
        b"\x0f\x01\0\0\0\x06\0\0\0\x02\x01a",
        true,
        [Effect::Change, Effect::Nothing],
    ),
    // an operation that has blocked no name here gives it a rule: by hash, and by node 3, which is not there
    (
        Actor::Node(1),
        b"\x11\x01\0\0\0\x0d\0\0\0\x02\0\0\0\x01\0\0\0\0\0",
        true,
        [Effect::Nothing; 2],
    ),
    (
        Actor::Node(1),
        b"\x11\x01\0\0\0\x0f\0\0\0\x02\0\0\0\x01\x02\0\x03\0\0\0\0",
        true,
        [Effect::Nothing; 2],
    ),
    // node 0 has given its rows away, and has taken those that are its
    (
        Actor::Node(1),
        b"\x10\x01\0\0\0\x09\0\0\0\x02\0\0\0\0\0",
        true,
        [Effect::Nothing; 2],
    ),
    (
        Actor::Node(1),
        b"\x12\x01\0\0\0\x05\0\0\0\x02\0",
        true,
        [Effect::Nothing; 2],
    ),
    // a rmdir, which is for the coordinator, and a chmod, which may be for a node
    (
        Actor::Node(1),
        b"\x01\x01\0\0\0\x1e\x01\0\0\0\x01\0\0\0\x01\0\0\0\0\0\0\0\0\0\0\0\0\0\0\0\0\x09\0\x01\x01a",
        true,
        [Effect::Nothing; 2],
    ),
    (
        Actor::Node(1),
        b"\x01\x01\0\0\0\x20\x01\0\0\0\x01\0\0\0\x01\0\0\0\0\0\0\0\0\0\0\0\0\0\0\0\0\x05\0\x01\x01a\x01\xc0",
        true,
        [Effect::Change, Effect::Nothing],
    ),
    // fetch 7 of node 0, of node 2 and of the coordinator, which ask for what stands there; each time it comes is an item
    (
        Actor::Node(1),
        b"\x07\x01\0\0\0\x13\0\0\0\0\0\0\0\0\x07\0\0\0\0\0\0\0\x01\x01a",
        true,
        [Effect::Change; 2],
    ),
    (
        Actor::Node(1),
        b"\x07\x01\0\0\0\x13\x02\0\0\0\0\0\0\0\x07\0\0\0\0\0\0\0\x01\x01a",
        true,
        [Effect::Change; 2],
    ),
    (
        Actor::Node(1),
        b"\x07\x01\0\0\0\x13\xff\0\0\0\0\0\0\0\x07\0\0\0\0\0\0\0\x01\x01a",
        true,
        [Effect::Change; 2],
    ),
    // and of nodes that the cluster has not got
    (
        Actor::Node(1),
        b"\x07\x01\0\0\0\x13\x03\0\0\0\0\0\0\0\x07\0\0\0\0\0\0\0\x01\x01a",
        true,
        [Effect::Nothing; 2],
    ),
    (
        Actor::Node(1),
        b"\x07\x01\0\0\0\x13\x0f\0\0\0\0\0\0\0\x07\0\0\0\0\0\0\0\x01\x01a",
        true,
        [Effect::Nothing; 2],
    ),
    // a client asks for a part of a listing; each time it comes is an item, too
    (
        Actor::Node(1),
        b"\x05\x01\0\0\0\x19\x01\0\0\0\x01\0\0\0\x01\0\0\0\0\0\0\0\0\0\0\0\0\0\0\0\x01",
        true,
        [Effect::Change; 2],
    ),
    // records of a listing for a client: its directory is opened, and the part of node 0
    (
        Actor::Node(1),
        b"\x04\x01\0\0\0\x15\x01\0\0\0\x01\0\0\0\x01\0\0\0\0\0\0\0\0\0\0\0\x01",
        true,
        [Effect::Nothing; 2],
    ),
    (
        Actor::Node(1),
        b"\x06\x01\0\0\0\x12\x01\0\0\0\x01\0\0\0\x01\0\0\0\0\0\0\0\0\0",
        true,
        [Effect::Nothing; 2],
    ),
];

// The second node of three.
fn new_node(alloc: Global) -> Result<Node, OutOfMemory>
    ensures { IfOk result (λ node. IsYoung 0 node.state) }
{
    let node = Node::new(alloc, 1, 3, 4)?;
    Ok(node)
}

// What comes with the bytes.
fn delivery(alloc: Global, to: Actor, bytes: &[u8]) -> Result<NodeEvent, OutOfMemory>
    ensures { IfOk result IsDelivery }
{
    Ok(NodeEvent::Deliver(Envelope {
        from: Actor::Coord,
        to,
        sent_at: 0,
        point: 5,
        bytes: Bytes::from_items(Vec::from_slice(alloc, bytes)?),
    }))
}

// The node takes what came. The answer is how many records and notes it makes.
fn take(node: &mut Node, event: &NodeEvent) -> Result<(usize, usize), Refuse>
    requires young { IsYoung 8 node.old.state }
    requires delivery { IsDelivery event.now }
    ensures { (n : ℕ) → IsYoung n node.old.state → IsYoung (n + 1) node.new.state }
{
    let prepared = node.ready(event)?;
    let sent = prepared.outputs().sent.len();
    let notes = prepared.outputs().notes.len();
    node.apply(prepared);
    Ok((sent, notes))
}

fn printed(alloc: Global, node: &Node) -> Result<String, AllocError> {
    format!(in alloc; "{node:?}")
}

// What an envelope with these bytes does.
fn effect_of(alloc: Global, node: &mut Node, to: Actor, bytes: &[u8]) -> Result<Effect, Fail>
    requires { IsYoung 8 node.old.state }
    ensures { (n : ℕ) → IsYoung n node.old.state → IsYoung (n + 1) node.new.state }
{
    let before = printed(alloc, node)?;
    let made = match take(node, &delivery(alloc, to, bytes)?) {
        Ok(made) => made,
        Err(Refuse::NotEnabled) => return Ok(Effect::Refused),
        Err(Refuse::OutOfMemory) => return Err(Fail::new("out of memory")),
    };
    let after = printed(alloc, node)?;
    if made == (0, 0) && before == after {
        return Ok(Effect::Nothing);
    }
    Ok(Effect::Change)
}

// What it does to a new node, and what it does as it comes again.
fn effects(alloc: Global, to: Actor, bytes: &[u8]) -> Result<[Effect; 2], Fail> {
    let mut node = new_node(alloc)?;
    let once = effect_of(alloc, &mut node, to, bytes)?;
    let again = effect_of(alloc, &mut node, to, bytes)?;
    Ok([once, again])
}

#[test]
fn each_envelope_has_its_effect(rt: HostRuntime) -> Result<(), Fail> {
    for (to, bytes, is_record, wanted) in ROWS {
        assert_eq!(rt; decode(rt.alloc(), bytes).is_ok(), is_record, "{bytes:?}");
        assert_eq!(rt; effects(rt.alloc(), to, bytes)?, wanted, "{to:?} {bytes:?}");
    }
    Ok(())
}
