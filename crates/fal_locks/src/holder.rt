use fal_base::{Items, Key};

/// A batch that holds keys. The list may name a key twice.
#[derive(Debug, Drop)]
pub struct Holder {
    pub number: u64,
    pub keys: Items<Key>,
}

/// An operation that has shut keys.
#[derive(Debug, Drop)]
pub struct Shut {
    pub op: u32,
    pub keys: Items<Key>,
}
