/// Why an actor does not take an event: it may not happen now, or memory was refused.
#[derive(Clone, Copy, Debug, PartialEq, Eq)]
pub enum Refuse {
    /// The event may not happen now.
    NotEnabled,
    /// Memory was refused, and nothing has changed but room.
    OutOfMemory,
}
