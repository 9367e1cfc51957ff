use fal_base::{CallRec, Dentry, Key};

/// A call of a batch: whether its walk was refused, and else the directory of its last name, None for the root path alone, and its last key.
#[derive(Debug, Drop)]
pub struct BatchCall {
    pub call: CallRec,
    pub denied: bool,
    pub parent: Option<Dentry>,
    pub last: Key,
}
