use fal_base::{Config, Event, Items};

/// A run that is over: the cluster, and its events in order.
#[derive(Debug, Drop)]
pub struct Run {
    pub config: Config,
    pub events: Items<Event>,
}
