//! What there is to see of a cluster.

use crate::broken::Broken;
use fal_alone::Cluster;
use std::alloc::Global;

// What the cluster prints of its actors, between the book and the queues.
fn actors(text: &str) -> &str {
    match text.split_once(" clients: [") {
        None => text,
        Some((_, rest)) => match rest.rsplit_once(" queues: [") {
            None => rest,
            Some((actors, _)) => actors,
        },
    }
}

/// How many records were sent, how many entries made, and what the actors print.
pub fn seen(alloc: Global, cluster: &Cluster) -> Result<(usize, usize, String), Broken> {
    let book = cluster.book();
    let text = format!(in alloc; "{cluster:?}")?;
    let actors = String::from_str(alloc, actors(text.as_str()))?;
    Ok((book.sent().len(), book.transcript()?.len(), actors))
}
