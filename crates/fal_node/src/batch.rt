use fal_base::Items;
use fal_run::BatchCall;

/// Calls that are executed together. It keeps its keys, under its number, until it is released.
#[derive(Debug, Drop)]
pub struct Batch {
    pub number: u64,
    pub calls: Items<BatchCall>,
    pub executed: bool,
}
