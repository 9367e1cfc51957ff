//! The lines after the header.

use crate::broken::Broken;
use crate::drawn::events;
use crate::envelopes::read_wanted;
use crate::events::event;
use crate::scene::Scene;
use crate::seen::seen;
use crate::words::{is, number};
use fal_base::{Actor, Refuse};

// An event that happens.
fn happens(scene: &mut Scene, again: bool, words: &[&[u8]]) -> Result<(), Broken> {
    let event = event(&scene.cluster, again, words)?;
    scene.cluster.step(event)?;
    Ok(())
}

// An event that may not happen now.
fn refused(scene: &mut Scene, words: &[&[u8]]) -> Result<(), Broken> {
    let event = event(&scene.cluster, false, words)?;
    match scene.cluster.step(event) {
        Err(Refuse::NotEnabled) => Ok(()),
        Err(Refuse::OutOfMemory) => Err(Broken::OutOfMemory),
        Ok(()) => Err(Broken::Enabled),
    }
}

// An event that happens, and changes no actor and sends and notes nothing.
fn changes_nothing(scene: &mut Scene, again: bool, words: &[&[u8]]) -> Result<(), Broken> {
    let event = event(&scene.cluster, again, words)?;
    let before = seen(scene.alloc, &scene.cluster)?;
    scene.cluster.step(event)?;
    if seen(scene.alloc, &scene.cluster)? == before {
        return Ok(());
    }
    Err(Broken::Changes)
}

fn quiet(scene: &Scene) -> Result<(), Broken> {
    if scene.cluster.quiet() {
        return Ok(());
    }
    Err(Broken::Busy)
}

fn busy(scene: &Scene) -> Result<(), Broken> {
    if scene.cluster.quiet() {
        return Err(Broken::Quiet);
    }
    Ok(())
}

// A line of one word.
fn word(scene: &mut Scene, word: &[u8]) -> Result<(), Broken> {
    if is(word, b"drain") {
        return scene.drain();
    }
    if is(word, b"finish") {
        return scene.finish();
    }
    if is(word, b"quiet") {
        return quiet(scene);
    }
    if is(word, b"busy") {
        return busy(scene);
    }
    if is(word, b"expect") {
        return scene.tell_entries();
    }
    if is(word, b"rows") {
        return scene.tell_rows();
    }
    happens(scene, false, &[word])
}

/// Does what a line says.
pub fn command(scene: &mut Scene, words: &[&[u8]]) -> Result<(), Broken> {
    match words {
        [only] => word(scene, only),
        [first, words @ ..] if is(first, b"refused") => refused(scene, words),
        [first, second, words @ ..] if is(first, b"nothing") && is(second, b"again") => {
            changes_nothing(scene, true, words)
        }
        [first, words @ ..] if is(first, b"nothing") => changes_nothing(scene, false, words),
        [first, words @ ..] if is(first, b"again") => happens(scene, true, words),
        [first, words @ ..] if is(first, b"hold") => scene.hold(read_wanted(words, Actor::Coord)?),
        [first, second] if is(first, b"release") && is(second, b"held") => {
            scene.release();
            Ok(())
        }
        [first, count, from, seed] if is(first, b"events") && is(from, b"from") => {
            events(scene, number(count)?, number(seed)?)
        }
        _ => happens(scene, false, words),
    }
}
