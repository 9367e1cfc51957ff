use fal_base::Key;
use fal_exec::Change;

/// What becomes of the row under a key.
#[derive(Debug, Drop)]
pub struct RowChange {
    pub key: Key,
    pub change: Change,
}
