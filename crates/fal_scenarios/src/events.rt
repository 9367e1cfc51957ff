//! Events, as a line names them.

use crate::broken::Broken;
use crate::envelopes::{due, gone, gone_first, read_wanted};
use crate::words::{is, number, small};
use fal_alone::Cluster;
use fal_base::{Actor, Event};

// The envelope that the words name. `unsent` is one that nobody sent yet.
fn envelope(cluster: &Cluster, again: bool, words: &[&[u8]], to: Actor) -> Result<u64, Broken> {
    let book = cluster.book();
    match words {
        [word] if is(word, b"unsent") => Ok(book.sent().len() as u64),
        [word, words @ ..] if again && is(word, b"first") => {
            gone_first(book, &read_wanted(words, to)?)
        }
        _ if again => gone(book, &read_wanted(words, to)?),
        _ => due(book, &read_wanted(words, to)?),
    }
}

// Whether the event is another of the same kind and node.
fn is_alike(event: &Event, other: &Event) -> bool {
    match (event, other) {
        (Event::Exec { node, .. }, Event::Exec { node: other, .. }) => *node == *other,
        (Event::Release { node, .. }, Event::Release { node: other, .. }) => *node == *other,
        (Event::Serve { node, .. }, Event::Serve { node: other, .. }) => *node == *other,
        _ => false,
    }
}

// The first of a node's events that are due, of this kind.
fn first_due(cluster: &Cluster, like: Event) -> Result<Event, Broken> {
    for event in cluster.fresh()?.as_slice() {
        if is_alike(event, &like) {
            return Ok(*event);
        }
    }
    Err(Broken::NotDue)
}

// An event of a node: what comes to it is named by the words.
fn node_event(
    cluster: &Cluster,
    again: bool,
    node: u8,
    verb: &[u8],
    words: &[&[u8]],
) -> Result<Event, Broken> {
    if is(verb, b"deliver") {
        let env = envelope(cluster, again, words, Actor::Node(node))?;
        return Ok(Event::Deliver { node, env });
    }
    match words {
        [] if is(verb, b"gather") => Ok(Event::Gather { node }),
        [] if is(verb, b"exec") => first_due(cluster, Event::Exec { node, batch: 0 }),
        [] if is(verb, b"release") => first_due(cluster, Event::Release { node, batch: 0 }),
        [] if is(verb, b"serve") => first_due(cluster, Event::Serve { node, item: 0 }),
        [word, batch] if is(verb, b"exec") && is(word, b"batch") => Ok(Event::Exec {
            node,
            batch: number(batch)?,
        }),
        [word, batch] if is(verb, b"release") && is(word, b"batch") => Ok(Event::Release {
            node,
            batch: number(batch)?,
        }),
        [word, item] if is(verb, b"serve") && is(word, b"item") => Ok(Event::Serve {
            node,
            item: number(item)?,
        }),
        _ => Err(Broken::Grammar),
    }
}

// An event of a lane.
fn lane_event(
    cluster: &Cluster,
    again: bool,
    lane: u8,
    verb: &[u8],
    words: &[&[u8]],
) -> Result<Event, Broken> {
    if is(verb, b"get") {
        let env = envelope(cluster, again, words, Actor::Client(lane))?;
        return Ok(Event::Get { lane, env });
    }
    if is(verb, b"send") && words.is_empty() {
        return Ok(Event::Send { lane });
    }
    Err(Broken::Grammar)
}

/// The event that the words name. Again: what comes in it came before.
pub fn event(cluster: &Cluster, again: bool, words: &[&[u8]]) -> Result<Event, Broken> {
    match words {
        [verb] if is(verb, b"start") => Ok(Event::Start),
        [verb, words @ ..] if is(verb, b"hear") => Ok(Event::Hear {
            env: envelope(cluster, again, words, Actor::Coord)?,
        }),
        [verb, word, lane, words @ ..] if is(word, b"lane") => {
            lane_event(cluster, again, small(lane)?, verb, words)
        }
        [verb, word, node, words @ ..] if is(word, b"node") => {
            node_event(cluster, again, small(node)?, verb, words)
        }
        _ => Err(Broken::Grammar),
    }
}
