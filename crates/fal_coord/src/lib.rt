//! The coordinator of a cluster: its state, and the steps that it takes. It carries out chmod and chown of directories, rmdir, rename and
//! place, each alone. For all but a place it walks the paths, has every node shut the last keys, decides by their rows, and tells every node
//! the updates. For a place it has every node give its rows of the name away, and sends each of them to its node by the next table.
//!
//! `ready` makes what a step needs, records and room, and changes nothing else; `apply` then makes the step, without memory. `verdict` and
//! `counted` say what an operation comes to.
#![tactic(auto)]

mod apply;
mod begin;
mod coord;
mod current;
mod decide;
mod draft;
mod event;
mod hear;
mod judged;
mod judging;
mod law;
mod nodes;
mod patch;
mod path_end;
mod paths;
mod paths_walk;
mod place;
mod placing;
mod ready;
mod room;
mod stage;
mod walks;

pub use coord::Coord;
pub use draft::Draft;
pub use event::CoordEvent;
pub use judged::Verdict;
pub use judging::{counted, verdict};
pub use law::records_are_read;
pub use patch::{Next, Patch, Prepared};
pub use paths_walk::PathsWalk;
pub use stage::{Operation, PathWalk, Stage};
