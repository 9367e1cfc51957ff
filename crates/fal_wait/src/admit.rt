/// Whether a call was taken.
#[derive(Clone, Copy, Debug, PartialEq, Eq)]
pub enum Admit {
    /// It waits, with this ticket.
    Taken { ticket: u64 },
    /// It is not newer than the last call that was taken of its client.
    Old,
}
