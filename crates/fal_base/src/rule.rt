use crate::memory::{Duplicate, OutOfMemory};
use crate::name::Name;

/// Where the keys with a name live: by the name's hash, by the hash of parent and name, or at one node.
#[derive(Clone, Copy, Debug, PartialEq, Eq)]
pub enum Rule {
    /// By the name's hash, as every name without a rule.
    Hash,
    /// By the hash of the parent's number and the name.
    ByParent,
    /// At the node with this number.
    Node(u16),
}

/// A name's rule, and the version of the placement table from which it stands.
#[derive(Debug, Drop)]
pub struct RuleChange {
    pub name: Name,
    pub rule: Rule,
    pub version: u32,
}

impl Duplicate for RuleChange {
    fn copy(&self) -> Result<Self, OutOfMemory> {
        Ok(RuleChange {
            name: self.name.copy()?,
            rule: self.rule,
            version: self.version,
        })
    }
}
