//! Scripts and choices that are made by a seed: the same ones for the same seed, on every machine.
//!
//! Each choice takes one word of a PCG generator on a stream of its own. What a word chooses is a definition of `specs/`.
#![tactic(auto)]

mod chooser;
mod making;
mod names;
mod ops;
mod source;

pub use chooser::{Chooser, Pick};
pub use making::make;
