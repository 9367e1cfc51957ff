ghost use Rattle.std.specs.Prelude.{◌≡◌, ◌≤◌, ◌<◌, ◌-◌, ◌%◌, ◌^◌, ◌↔◌, ◌==◌, length, IsTrue, IfOk, OnOk, OnErr, IsErrOf};
ghost use Rattle.std.specs.List.{list_all};
ghost use Rattle.fal_base.specs.Tree.{key_of};
ghost use Rattle.fal_place.specs.Placement.{rule_of, owner as owner_of, route as route_of, opening_table, with_rule, is_full_for as is_full_for_name, is_within, changes_since, with_changes, IsByVersion, AllWithin, CatchesUp};

use crate::hash::{key_hash, name_hash};
use crate::rules;
use crate::starts::{start_of, starts_of};
use fal_base::{Duplicate, Key, Name, OutOfMemory, Path, Rule, RuleChange};
use std::alloc::Global;
use std::marker::Model;
use thiserror::Error;

// The most rules that `with` makes.
const MAX_RULES: usize = 1024;

/// Why a table has no next version with a rule.
#[derive(Clone, Copy, Debug, PartialEq, Eq, Error)]
pub enum WithFault {
    #[error("the table has 1,024 rules, and none for this name")]
    Full,
    #[error("out of memory")]
    OutOfMemory,
}

/// At which node the keys with a name live: at the node of the name's hash, unless a rule says otherwise.
#[derive(Debug, Drop)]
pub struct Table {
    nodes: u8,
    version: u32,
    rules: Vec<RuleChange>,
    // from which place on a name's rule is looked for
    starts: Vec<u16>,
}

impl Model for Table {
    ghost use Rattle.fal_place.specs.Placement.{Placement, IsSoundTable};
    ghost use Rattle.fal_place.specs.Starts.{AreStarts};

    ghost Value = { Placement };

    ghost view = { λ t. record { nodes = t.nodes; version = t.version; rules = t.rules.items } };

    ghost invariant = { λ t. IsSoundTable t.nodes t.rules.items × AreStarts t.starts.items t.rules.items };
}

impl Table {
    /// The table of version 0, without rules, for 1 to 16 nodes. Takes no memory.
    pub fn new(alloc: Global, nodes: u8) -> Table
        requires some { 1 ≤ nodes }
        requires few { nodes ≤ 16 }
        ensures { result ≡ opening_table nodes }
    {
        Table {
            nodes,
            version: 0,
            rules: Vec::new(alloc),
            starts: Vec::new(alloc),
        }
    }

    /// How many nodes there are, from 0 on. Takes no memory.
    pub fn nodes(&self) -> u8
        ensures { result ≡ self.now.nodes }
    {
        self.nodes
    }

    /// How many placement changes it comes after. Takes no memory.
    pub fn version(&self) -> u32
        ensures { result ≡ self.now.version }
    {
        self.version
    }

    /// How many rules it has. Takes no memory.
    pub fn len(&self) -> usize
        ensures { result ≡ length self.now.rules }
    {
        self.rules.len()
    }

    /// Whether it has no rule. Takes no memory.
    pub fn is_empty(&self) -> bool
        ensures { result ≡ (length self.now.rules == 0) }
    {
        self.rules.is_empty()
    }

    /// A name's rule, which is Hash where none was set. It names no node that is not there. Takes no memory.
    pub fn entry(&self, name: &Name) -> Rule
        ensures rule { result ≡ rule_of self.now name.now }
        ensures within { IsTrue (is_within self.now.nodes result) }
    {
        rules::rule_of(&self.rules[start_of(&self.starts, name)..], name)
    }

    /// Whether the rule names no node, or one that is there. Takes no memory.
    pub fn fits(&self, rule: Rule) -> bool
        ensures { result ≡ is_within self.now.nodes rule }
    {
        match rule {
            Rule::Hash | Rule::ByParent => true,
            Rule::Node(node) => node < u16::from(self.nodes),
        }
    }

    /// Whether each change has a rule that fits, as `take_changes` needs it. Takes no memory.
    pub fn fits_all(&self, changes: &[RuleChange]) -> bool
        ensures { result ≡ list_all (λ change. is_within self.now.nodes change.rule) changes.now }
    {
        changes.iter().all(|change| self.fits(change.rule))
    }

    /// The node at which the key lives: node 0 for the root's key; else by its name's rule the node of the name's hash, the node of the
    /// hash of parent and name, or the one node that is named. Takes no memory.
    pub fn owner(&self, key: &Key) -> u8
        ensures node { result ≡ owner_of self.now key.now }
        ensures there { result < self.now.nodes }
    {
        self.owner_at(key.parent, &key.name)
    }

    /// The node at which the key of this parent and name lives, as `owner` has it. Takes no memory.
    pub fn owner_at(&self, parent: u64, name: &Name) -> u8
        ensures node { result ≡ owner_of self.now (key_of parent name.now) }
        ensures there { result < self.now.nodes }
    {
        let nodes = self.nodes;
        if parent == 0 && name.bytes().is_empty() {
            return 0;
        }
        match self.entry(name) {
            Rule::Hash => node_of(name_hash(name.bytes()), nodes),
            Rule::ByParent => node_of(key_hash(parent, name.bytes()), nodes),
            Rule::Node(node) => node as u8,
        }
    }

    /// The node to which a call on this path is sent: node 0 for the root; else the node that the last name's rule names, or for any
    /// other rule the node of the name's hash, since no parent is known yet. Takes no memory.
    pub fn route(&self, path: &Path) -> u8
        ensures node { result ≡ route_of self.now path.now }
        ensures there { result < self.now.nodes }
    {
        let nodes = self.nodes;
        let Some(name) = path.names().last() else {
            return 0;
        };
        match self.entry(name) {
            Rule::Hash | Rule::ByParent => node_of(name_hash(name.bytes()), nodes),
            Rule::Node(node) => node as u8,
        }
    }

    /// Whether there is no room for a rule of this name: there are 1,024 rules, and none is the name's. Takes no memory.
    pub fn is_full_for(&self, name: &Name) -> bool
        ensures { result ≡ is_full_for_name self.now name.now }
    {
        self.rules.len() >= MAX_RULES && !rules::has_rule(&self.rules, name)
    }

    /// The table of the next version, in which this name has this rule. A Hash rule is kept as a rule.
    ///
    /// Refused with `Full` exactly where there are 1,024 rules and the name has none, and with `OutOfMemory`.
    pub fn with(&self, name: &Name, rule: Rule) -> Result<Table, WithFault>
        requires below { self.now.version < 2 ^ 32 - 1 }
        requires within { IsTrue (is_within self.now.nodes rule) }
        ensures ok { IfOk result (λ table. table ≡ with_rule self.now name.now rule) }
        ensures full { IsErrOf result WithFault.Full ↔ IsTrue (is_full_for_name self.now name.now) }
    {
        if self.is_full_for(name) {
            return Err(WithFault::Full);
        }
        match self.next(name, rule) {
            Ok(table) => Ok(table),
            Err(OutOfMemory) => Err(WithFault::OutOfMemory),
        }
    }

    // The same where there is room for the rule.
    fn next(&self, name: &Name, rule: Rule) -> Result<Table, OutOfMemory>
        requires below { self.now.version < 2 ^ 32 - 1 }
        requires within { IsTrue (is_within self.now.nodes rule) }
        ensures { IfOk result (λ table. table ≡ with_rule self.now name.now rule) }
    {
        let version = self.version + 1;
        let alloc = *self.rules.allocator();
        let mut rules = rules::copied(alloc, &self.rules)?;
        rules.reserve(1)?;
        let change = RuleChange {
            name: name.copy()?,
            rule,
            version,
        };
        rules::put_rule(&mut rules, change);
        Ok(Table {
            nodes: self.nodes,
            version,
            starts: starts_of(alloc, &rules),
            rules,
        })
    }

    /// The rules set after this version, by version, or want of memory.
    pub fn since(&self, version: u32) -> Result<Vec<RuleChange>, OutOfMemory>
        ensures changes { IfOk result (λ late. late.items ≡ changes_since version self.now) }
        ensures order { IfOk result (λ late. IsByVersion late.items) }
    {
        let late = rules::changes_since(&self.rules, version)?;
        Ok(late)
    }

    /// Makes this the table of version `to`, in which each change, in turn, gave its name its rule with its version. A table of some
    /// version that takes what a later one tells since then is that later table.
    ///
    /// Where memory is refused the table is as it was.
    pub fn take_changes(&mut self, to: u32, changes: &[RuleChange]) -> Result<(), OutOfMemory>
        requires { AllWithin self.old.nodes changes.now }
        ensures ok { OnOk result (self.new ≡ with_changes self.old to changes.now) }
        ensures caught_up { OnOk result (CatchesUp self.old to changes.now self.new) }
        ensures err { OnErr result (self.new ≡ self.old) }
    {
        let alloc = *self.rules.allocator();
        let changes = rules::copied(alloc, changes)?;
        self.rules.reserve(changes.len())?;
        rules::put_rules(&mut self.rules, changes);
        self.starts = starts_of(alloc, &self.rules);
        self.version = to;
        Ok(())
    }
}

// One of so many nodes, by a hash.
fn node_of(hash: u64, nodes: u8) -> u8
    requires { 1 ≤ nodes }
    ensures node { result ≡ hash % nodes }
    ensures there { result < nodes }
{
    (hash % u64::from(nodes)) as u8
}

impl Duplicate for Table {
    fn copy(&self) -> Result<Self, OutOfMemory> {
        let alloc = *self.rules.allocator();
        Ok(Table {
            nodes: self.nodes,
            version: self.version,
            rules: rules::copied(alloc, &self.rules)?,
            starts: Vec::from_slice(alloc, &self.starts)?,
        })
    }
}
