use crate::broken::Broken;
use fal_base::Actor;
use fal_script::number_up_to;
use std::alloc::{AllocError, Global};

/// The words of a line, which stand between spaces.
pub fn words_of(alloc: Global, line: &[u8]) -> Result<Vec<&[u8]>, AllocError> {
    line.split(|b| *b == b' ').collect(alloc)
}

/// Whether it is this word.
pub fn is(word: &[u8], name: &[u8]) -> bool {
    word == name
}

/// The number of a lane or a node.
pub fn small(word: &[u8]) -> Result<u8, Broken> {
    match number_up_to(255, word) {
        Some(number) => Ok(number as u8),
        None => Err(Broken::Grammar),
    }
}

/// Any number.
pub fn number(word: &[u8]) -> Result<u64, Broken> {
    number_up_to(u64::MAX, word).ok_or(Broken::Grammar)
}

/// `lane LANE` or `node NODE`.
pub fn actor(class: &[u8], number: &[u8]) -> Result<Actor, Broken> {
    if is(class, b"lane") {
        return Ok(Actor::Client(small(number)?));
    }
    if is(class, b"node") {
        return Ok(Actor::Node(small(number)?));
    }
    Err(Broken::Grammar)
}
