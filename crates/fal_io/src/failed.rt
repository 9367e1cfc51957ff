/// Why a read or a write did nothing.
#[derive(Clone, Copy, Debug, PartialEq, Eq)]
pub enum Failed {
    /// The outside failed, and the count of faults has risen.
    Fault,
    /// Memory was refused.
    OutOfMemory,
}
