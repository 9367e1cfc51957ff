/// An actor's number, and what it counts.
#[derive(Clone, Copy, Debug, PartialEq, Eq)]
pub struct Pair {
    pub actor: u8,
    pub number: u64,
}
