//! An Install comes: the name that an operation has blocked gets its rule, and its rows.

ghost use Rattle.std.specs.Prelude.{◌≡◌, IfOk, IsTrue};
ghost use Rattle.std.specs.Option.{option_copied};
ghost use Rattle.fal_inode.specs.Named.{puts as puts_of};
ghost use Rattle.fal_wire.specs.Letters.{letter};
ghost use Rattle.fal_place.specs.Placement.{is_within};
ghost use Rattle.fal_node.specs.Deliver.{one_name as one_name_of, name_blocked as name_blocked_by, table_with as table_with_rule, install as install_of, take_install as take_install_of};
ghost use Rattle.fal_node.specs.Ready.{Does, CanDraft};

use crate::blocking::Blocking;
use crate::deliver::nothing;
use crate::draft::{Draft, letters_of_one, sending_draft};
use crate::node::Node;
use crate::operation::to_coordinator;
use crate::patch::Patch;
use fal_base::{
    Actor, Barred, Duplicate, Key, Name, NamedRow, OutOfMemory, Point, Rule, RuleChange, Update,
};
use fal_place::Table;
use fal_wire::{Letter, Message};
use std::alloc::Global;

// The one name, if it is one.
fn one_name(names: &Barred) -> Option<&Name>
    ensures { option_copied result ≡ one_name_of names.now }
{
    match names {
        Barred::Nothing => None,
        Barred::One(name) => Some(name),
        Barred::All => None,
    }
}

// The name that this operation has blocked.
fn name_blocked(blocked: &Option<Blocking>, operation: u32) -> Option<&Name>
    ensures { option_copied result ≡ name_blocked_by blocked.now operation }
{
    match blocked {
        None => None,
        Some(blocking) => {
            if blocking.operation == operation {
                one_name(&blocking.names)
            } else {
                None
            }
        }
    }
}

// The table of this version, in which the name has the rule.
fn table_with(table: &Table, version: u32, name: &Name, rule: Rule) -> Result<Table, OutOfMemory>
    requires { IsTrue (is_within table.now.nodes rule) }
    ensures { IfOk result (λ made. made ≡ table_with_rule table.now version name.now rule) }
{
    let mut made = table.copy()?;
    let change = RuleChange {
        name: name.copy()?,
        rule,
        version,
    };
    made.take_changes(version, &[change])?;
    Ok(made)
}

// The rows of the name, as the updates that put them under their keys.
fn puts(alloc: Global, name: &Name, rows: &[NamedRow]) -> Result<Vec<Update>, OutOfMemory>
    ensures { IfOk result (λ updates. updates.items ≡ puts_of name.now rows.now) }
{
    let mut updates = Vec::with_capacity(alloc, rows.len())?;
    for row in rows {
        updates.push(Update {
            key: Key {
                parent: row.parent,
                name: name.copy()?,
            },
            row: Some(row.inode),
        })?;
    }
    Ok(updates)
}

// The coordinator is told that this node has the rule and the rows.
fn installed_letter(node: &Node, operation: u32) -> Letter
    ensures { result ≡ letter Actor.Coord (Point.Here 0) (Message.Installed operation node.now.state.number) }
{
    to_coordinator(Message::Installed {
        op: operation,
        node: node.number,
    })
}

// The name gets the rule, and the rows are put under their keys.
fn install(
    node: &Node,
    operation: u32,
    version: u32,
    rule: Rule,
    rows: &[NamedRow],
    name: &Name,
) -> Result<Draft, OutOfMemory>
    requires { IsTrue (is_within node.now.state.table.nodes rule) }
    ensures does { IfOk result (λ draft. Does node.now.state (install_of node.now.state operation version rule rows.now name.now) draft) }
    ensures can { IfOk result (λ draft. CanDraft node.now.state draft.patch) }
{
    let table = table_with(&node.table, version, name, rule)?;
    let updates = puts(node.alloc, name, rows)?;
    let letters = letters_of_one(node.alloc, installed_letter(node, operation))?;
    Ok(sending_draft(node.alloc, Patch::Install { table, updates }, letters))
}

// An Install comes. One whose operation has blocked no name here, or whose rule names a node that is not there, changes nothing.
pub(crate) fn take_install(
    node: &Node,
    operation: u32,
    version: u32,
    rule: Rule,
    rows: &[NamedRow],
) -> Result<Draft, OutOfMemory>
    ensures does { IfOk result (λ draft. Does node.now.state (take_install_of node.now.state operation version rule rows.now) draft) }
    ensures can { IfOk result (λ draft. CanDraft node.now.state draft.patch) }
{
    if !node.table.fits(rule) {
        return Ok(nothing(node));
    }
    match name_blocked(&node.blocked, operation) {
        None => Ok(nothing(node)),
        Some(name) => install(node, operation, version, rule, rows, name),
    }
}
