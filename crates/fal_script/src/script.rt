use fal_base::{Call, Items};

/// A call of a script, and its lane from 1.
#[derive(Debug, Drop)]
pub struct ScriptCall {
    pub lane: u8,
    pub call: Call,
}

/// The calls of a script, in line order.
pub type LineList = Items<ScriptCall>;

/// A script: how many nodes and lanes it asks for, and its calls in line order.
#[derive(Debug, Drop)]
pub struct Script {
    pub nodes: u8,
    pub lanes: u8,
    pub lines: LineList,
}
