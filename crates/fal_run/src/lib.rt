//! The calls of a batch, carried out on rows: what each is answered, which rows change, and which commits are noted.
#![tactic(auto)]

mod call;
mod change;
mod letter;
mod outcome;
mod run;

pub use call::BatchCall;
pub use change::RowChange;
pub use letter::passed_on;
pub use run::{Run, run_calls};
