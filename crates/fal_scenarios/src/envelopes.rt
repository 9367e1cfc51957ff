//! Envelopes, named by kind and receiver.

use crate::broken::Broken;
use crate::words::{actor, is};
use fal_base::{Actor, Envelope, Event};
use fal_story::Book;

// The kinds of records, from 1 on.
const KINDS: [&[u8]; 18] = [
    b"Call",
    b"Reply",
    b"Stale",
    b"Opened",
    b"ListAsk",
    b"ListPart",
    b"FetchAsk",
    b"FetchGot",
    b"Lock",
    b"Locked",
    b"Count",
    b"Counted",
    b"Commit",
    b"Done",
    b"Block",
    b"Blocked",
    b"Install",
    b"Installed",
];

/// Which envelopes are meant: those to this actor, from this one or any, and of this kind or, with 0, of any.
#[derive(Clone, Copy, Drop)]
pub struct Wanted {
    kind: usize,
    from: Option<Actor>,
    to: Actor,
}

impl Wanted {
    /// Whether the envelope is such a one. A record's first byte is its kind.
    pub fn fits(&self, envelope: &Envelope) -> bool {
        let kind = envelope.bytes.as_slice().first().copied().unwrap_or(0);
        envelope.to == self.to
            && envelope.from == self.from.unwrap_or(envelope.from)
            && (self.kind == 0 || self.kind == usize::from(kind))
    }
}

// The kind that stands first, or 0.
fn kind_in<'a>(words: &'a [&'a [u8]]) -> Result<(usize, &'a [&'a [u8]]), Broken> {
    match words {
        [word, rest @ ..] if !is(word, b"from") && !is(word, b"to") => {
            match KINDS.iter().position(|name| is(word, name)) {
                Some(place) => Ok((place.saturating_add(1), rest)),
                None => Err(Broken::Grammar),
            }
        }
        _ => Ok((0, words)),
    }
}

// The actor that stands first, after this word.
fn actor_in<'a>(
    label: &[u8],
    words: &'a [&'a [u8]],
) -> Result<(Option<Actor>, &'a [&'a [u8]]), Broken> {
    match words {
        [word, whole, rest @ ..] if is(word, label) && is(whole, b"coordinator") => {
            Ok((Some(Actor::Coord), rest))
        }
        [word, class, number, rest @ ..] if is(word, label) => {
            Ok((Some(actor(class, number)?), rest))
        }
        _ => Ok((None, words)),
    }
}

/// `[KIND] [from ACTOR] [to ACTOR]`, where envelopes are to this actor if none is named.
pub fn read_wanted(words: &[&[u8]], to: Actor) -> Result<Wanted, Broken> {
    let (kind, rest) = kind_in(words)?;
    let (from, rest) = actor_in(b"from", rest)?;
    let (other, rest) = actor_in(b"to", rest)?;
    if !rest.is_empty() {
        return Err(Broken::Grammar);
    }
    Ok(Wanted {
        kind,
        from,
        to: other.unwrap_or(to),
    })
}

/// The envelope that an event takes.
pub fn taken(event: &Event) -> Option<u64> {
    match event {
        Event::Get { env, .. } | Event::Deliver { env, .. } | Event::Hear { env } => Some(*env),
        _ => None,
    }
}

// Whether the envelope came already.
fn came(events: &[Event], number: u64) -> bool {
    events.iter().any(|event| taken(event) == Some(number))
}

/// The first such envelope that did not come yet.
pub fn due(book: &Book, wanted: &Wanted) -> Result<u64, Broken> {
    for (number, envelope) in book.sent().iter().enumerate() {
        if wanted.fits(envelope) && !came(book.events(), number as u64) {
            return Ok(number as u64);
        }
    }
    Err(Broken::NoEnvelope)
}

/// The last such envelope that came already.
pub fn gone(book: &Book, wanted: &Wanted) -> Result<u64, Broken> {
    let mut found = Err(Broken::NoEnvelope);
    for (number, envelope) in book.sent().iter().enumerate() {
        if wanted.fits(envelope) && came(book.events(), number as u64) {
            found = Ok(number as u64);
        }
    }
    found
}

/// The first such envelope that came already.
pub fn gone_first(book: &Book, wanted: &Wanted) -> Result<u64, Broken> {
    for (number, envelope) in book.sent().iter().enumerate() {
        if wanted.fits(envelope) && came(book.events(), number as u64) {
            return Ok(number as u64);
        }
    }
    Err(Broken::NoEnvelope)
}
