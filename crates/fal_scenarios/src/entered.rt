//! A run once more, through the lock of a book.

use crate::broken::Broken;
use book_runs::enter_all;
use fal_alone::Cluster;
use fal_base::Duplicate;
use fal_story::may_run;
use std::alloc::Global;
use std::sync::Wait;

/// The same events, entered by their actors through the lock of a book, leave the same transcript.
pub fn entered<R: Wait>(rt: &R, alloc: Global, cluster: &Cluster) -> Result<(), Broken> {
    let book = cluster.book();
    let config = book.config().copy()?;
    if !may_run(&config) {
        return Err(Broken::MayNotRun);
    }
    let other = enter_all(rt, alloc, config, book.events())?;
    if other.transcript()?.as_slice() != book.transcript()?.as_slice() {
        return Err(Broken::Entered);
    }
    Ok(())
}
