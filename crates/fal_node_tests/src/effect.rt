/// What an envelope does to an actor.
#[derive(Clone, Copy, Debug, PartialEq, Eq)]
pub enum Effect {
    /// It is no event of this actor.
    Refused,
    /// The actor sends and notes nothing, and is as it was.
    Nothing,
    /// Anything else.
    Change,
}
