//! The top call: a script in, a transcript out.
#![tactic(auto)]

mod reading;
mod run;
mod serving;
mod text;

pub use run::{Trace, run_serial};
