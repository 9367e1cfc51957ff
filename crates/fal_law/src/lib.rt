//! The laws of legal runs. Each is a function without effect, whose contract is the law.
#![tactic(auto)]

mod listing;
mod once;
mod placement;
mod points;
mod replay;
mod stale;

pub use listing::listings;
pub use once::each_once;
pub use placement::places;
pub use points::linear;
pub use replay::replayed;
pub use stale::stale_is_older;
