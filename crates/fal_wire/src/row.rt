//! Inodes, rows, rules and what was found.

ghost use Rattle.std.specs.Prelude.{◌≡◌, ◌++◌, OnOk, None};
ghost use Rattle.std.specs.Option.{option_copied};
ghost use Rattle.fal_wire.specs.Gives.{Gives};
ghost use Rattle.fal_wire.specs.Rows.{kind_field, inode_field, dentry_field, row_field, update_field, is_above, parent_of, next_parent, next_row, rule_field, version_before, next_version, next_change, found_field};

use crate::fault::Stop;
use crate::message::Found;
use crate::name::{put_key, put_name, read_key, read_name};
use crate::number::{
    bad_value, put_u8, put_u16, put_u32, put_u64, read_ino, read_mode, read_size, read_u8,
    read_u16, read_u32, read_u64,
};
use fal_base::{Dentry, Inode, Kind, NamedRow, OutOfMemory, Rule, RuleChange, Update};
use std::alloc::Global;

#[tactic(auto, unfolding(crate::specs::Rows::kind_field))]
fn read_kind(end: usize, bytes: &[u8]) -> Result<(Kind, &[u8]), Stop>
    ensures { Gives (λ x. (x.0, x.1.now)) result (kind_field.read end bytes.now) }
{
    let (tag, rest) = read_u8(end, bytes)?;
    match tag {
        0 => Ok((Kind::File, rest)),
        1 => Ok((Kind::Dir, rest)),
        _ => Err(bad_value(end, bytes)),
    }
}

#[tactic(auto, unfolding(crate::specs::Rows::inode_field))]
pub fn read_inode(end: usize, bytes: &[u8]) -> Result<(Inode, &[u8]), Stop>
    ensures { Gives (λ x. (x.0, x.1.now)) result (inode_field.read end bytes.now) }
{
    let (ino, rest) = read_ino(end, bytes)?;
    let (kind, rest) = read_kind(end, rest)?;
    let (mode, rest) = read_mode(end, rest)?;
    let (uid, rest) = read_u32(end, rest)?;
    let (gid, rest) = read_u32(end, rest)?;
    let (size, rest) = read_size(end, rest)?;
    let inode = Inode {
        ino,
        kind,
        mode,
        uid,
        gid,
        size,
    };
    Ok((inode, rest))
}

#[tactic(auto, unfolding(crate::specs::Rows::dentry_field))]
fn read_dentry(end: usize, bytes: &[u8]) -> Result<(Dentry, &[u8]), Stop>
    ensures { Gives (λ x. (x.0, x.1.now)) result (dentry_field.read end bytes.now) }
{
    let (ino, rest) = read_ino(end, bytes)?;
    let (mode, rest) = read_mode(end, rest)?;
    let (uid, rest) = read_u32(end, rest)?;
    let (gid, rest) = read_u32(end, rest)?;
    let dentry = Dentry {
        ino,
        mode,
        uid,
        gid,
    };
    Ok((dentry, rest))
}

#[tactic(auto, unfolding(crate::specs::Rows::row_field))]
fn read_row(end: usize, bytes: &[u8]) -> Result<(Option<Inode>, &[u8]), Stop>
    ensures { Gives (λ x. (x.0, x.1.now)) result (row_field.read end bytes.now) }
{
    let (tag, rest) = read_u8(end, bytes)?;
    match tag {
        0 => Ok((None, rest)),
        1 => {
            let (inode, rest) = read_inode(end, rest)?;
            Ok((Some(inode), rest))
        }
        _ => Err(bad_value(end, bytes)),
    }
}

#[tactic(auto, unfolding(crate::specs::Rows::update_field))]
pub fn read_update(alloc: Global, end: usize, bytes: &[u8]) -> Result<(Update, &[u8]), Stop>
    ensures { Gives (λ x. (x.0, x.1.now)) result (update_field.read end bytes.now) }
{
    let (key, rest) = read_key(alloc, end, bytes)?;
    let (row, rest) = read_row(end, rest)?;
    Ok((Update { key, row }, rest))
}

// Whether the parent's number is greater than that of the row before it.
fn is_next_parent(last: Option<&NamedRow>, parent: u64) -> bool
    ensures { result ≡ is_above (parent_of (option_copied last.entry)) parent }
{
    match last {
        None => true,
        Some(row) => parent > row.parent,
    }
}

#[tactic(auto, unfolding(crate::specs::Rows::next_parent))]
fn read_next_parent<'a>(
    end: usize,
    last: Option<&NamedRow>,
    bytes: &'a [u8],
) -> Result<(u64, &'a [u8]), Stop>
    ensures { Gives (λ x. (x.0, x.1.now)) result ((next_parent (option_copied last.entry)).read end bytes.now) }
{
    let (parent, rest) = read_u64(end, bytes)?;
    if is_next_parent(last, parent) {
        Ok((parent, rest))
    } else {
        Err(bad_value(end, bytes))
    }
}

#[tactic(auto, unfolding(crate::specs::Rows::next_row))]
pub fn read_next_row<'a>(
    end: usize,
    last: Option<&NamedRow>,
    bytes: &'a [u8],
) -> Result<(NamedRow, &'a [u8]), Stop>
    ensures { Gives (λ x. (x.0, x.1.now)) result ((next_row (option_copied last.entry)).read end bytes.now) }
{
    let (parent, rest) = read_next_parent(end, last, bytes)?;
    let (inode, rest) = read_inode(end, rest)?;
    Ok((NamedRow { parent, inode }, rest))
}

#[tactic(auto, unfolding(crate::specs::Rows::rule_field))]
pub fn read_rule(end: usize, bytes: &[u8]) -> Result<(Rule, &[u8]), Stop>
    ensures { Gives (λ x. (x.0, x.1.now)) result (rule_field.read end bytes.now) }
{
    let (tag, rest) = read_u8(end, bytes)?;
    match tag {
        0 => Ok((Rule::Hash, rest)),
        1 => Ok((Rule::ByParent, rest)),
        2 => {
            let (node, rest) = read_u16(end, rest)?;
            Ok((Rule::Node(node), rest))
        }
        _ => Err(bad_value(end, bytes)),
    }
}

// The version of the change before, or 0 where there is none.
fn last_version(last: Option<&RuleChange>) -> u32
    ensures { result ≡ version_before (option_copied last.entry) }
{
    match last {
        None => 0,
        Some(change) => change.version,
    }
}

#[tactic(auto, unfolding(crate::specs::Rows::next_version))]
fn read_next_version<'a>(
    end: usize,
    last: Option<&RuleChange>,
    bytes: &'a [u8],
) -> Result<(u32, &'a [u8]), Stop>
    ensures { Gives (λ x. (x.0, x.1.now)) result ((next_version (option_copied last.entry)).read end bytes.now) }
{
    let (version, rest) = read_u32(end, bytes)?;
    if version > last_version(last) {
        Ok((version, rest))
    } else {
        Err(bad_value(end, bytes))
    }
}

#[tactic(auto, unfolding(crate::specs::Rows::next_change))]
pub fn read_next_change<'a>(
    alloc: Global,
    end: usize,
    last: Option<&RuleChange>,
    bytes: &'a [u8],
) -> Result<(RuleChange, &'a [u8]), Stop>
    ensures { Gives (λ x. (x.0, x.1.now)) result ((next_change (option_copied last.entry)).read end bytes.now) }
{
    let (name, rest) = read_name(alloc, end, bytes)?;
    let (rule, rest) = read_rule(end, rest)?;
    let (version, rest) = read_next_version(end, last, rest)?;
    let change = RuleChange {
        name,
        rule,
        version,
    };
    Ok((change, rest))
}

#[tactic(auto, unfolding(crate::specs::Rows::found_field))]
pub fn read_found(end: usize, bytes: &[u8]) -> Result<(Found, &[u8]), Stop>
    ensures { Gives (λ x. (x.0, x.1.now)) result (found_field.read end bytes.now) }
{
    let (tag, rest) = read_u8(end, bytes)?;
    match tag {
        0 => Ok((Found::Nothing, rest)),
        1 => Ok((Found::File, rest)),
        2 => {
            let (dentry, rest) = read_dentry(end, rest)?;
            Ok((Found::Dir(dentry), rest))
        }
        _ => Err(bad_value(end, bytes)),
    }
}

#[tactic(auto, unfolding(crate::specs::Rows::kind_field))]
fn put_kind(into: &mut Vec<u8>, kind: Kind) -> Result<(), OutOfMemory>
    ensures { OnOk result (into.new.items ≡ into.old.items ++ kind_field.spell kind) }
{
    match kind {
        Kind::File => put_u8(into, 0)?,
        Kind::Dir => put_u8(into, 1)?,
    }
    Ok(())
}

#[tactic(auto, unfolding(crate::specs::Rows::inode_field, crate::specs::Numbers::ino_field, crate::specs::Numbers::mode_field, crate::specs::Numbers::size_field))]
pub fn put_inode(into: &mut Vec<u8>, inode: &Inode) -> Result<(), OutOfMemory>
    ensures { OnOk result (into.new.items ≡ into.old.items ++ inode_field.spell inode.now) }
{
    put_u64(into, inode.ino)?;
    put_kind(into, inode.kind)?;
    put_u16(into, inode.mode)?;
    put_u32(into, inode.uid)?;
    put_u32(into, inode.gid)?;
    put_u64(into, inode.size)?;
    Ok(())
}

#[tactic(auto, unfolding(crate::specs::Rows::dentry_field, crate::specs::Numbers::ino_field, crate::specs::Numbers::mode_field))]
fn put_dentry(into: &mut Vec<u8>, dentry: &Dentry) -> Result<(), OutOfMemory>
    ensures { OnOk result (into.new.items ≡ into.old.items ++ dentry_field.spell dentry.now) }
{
    put_u64(into, dentry.ino)?;
    put_u16(into, dentry.mode)?;
    put_u32(into, dentry.uid)?;
    put_u32(into, dentry.gid)?;
    Ok(())
}

#[tactic(auto, unfolding(crate::specs::Rows::row_field))]
fn put_row(into: &mut Vec<u8>, row: Option<&Inode>) -> Result<(), OutOfMemory>
    ensures { OnOk result (into.new.items ≡ into.old.items ++ row_field.spell (option_copied row.entry)) }
{
    match row {
        None => put_u8(into, 0)?,
        Some(inode) => {
            put_u8(into, 1)?;
            put_inode(into, inode)?;
        }
    }
    Ok(())
}

#[tactic(auto, unfolding(crate::specs::Rows::update_field))]
pub fn put_update(into: &mut Vec<u8>, update: &Update) -> Result<(), OutOfMemory>
    ensures { OnOk result (into.new.items ≡ into.old.items ++ update_field.spell update.now) }
{
    put_key(into, &update.key)?;
    put_row(into, update.row.as_ref())?;
    Ok(())
}

#[tactic(auto, unfolding(crate::specs::Rows::next_row, crate::specs::Rows::next_parent))]
pub fn put_named_row(into: &mut Vec<u8>, row: &NamedRow) -> Result<(), OutOfMemory>
    ensures { OnOk result (into.new.items ≡ into.old.items ++ (next_row None).spell row.now) }
{
    put_u64(into, row.parent)?;
    put_inode(into, &row.inode)?;
    Ok(())
}

#[tactic(auto, unfolding(crate::specs::Rows::rule_field))]
pub fn put_rule(into: &mut Vec<u8>, rule: Rule) -> Result<(), OutOfMemory>
    ensures { OnOk result (into.new.items ≡ into.old.items ++ rule_field.spell rule) }
{
    match rule {
        Rule::Hash => put_u8(into, 0)?,
        Rule::ByParent => put_u8(into, 1)?,
        Rule::Node(node) => {
            put_u8(into, 2)?;
            put_u16(into, node)?;
        }
    }
    Ok(())
}

#[tactic(auto, unfolding(crate::specs::Rows::next_change, crate::specs::Rows::next_version))]
pub fn put_change(into: &mut Vec<u8>, change: &RuleChange) -> Result<(), OutOfMemory>
    ensures { OnOk result (into.new.items ≡ into.old.items ++ (next_change None).spell change.now) }
{
    put_name(into, &change.name)?;
    put_rule(into, change.rule)?;
    put_u32(into, change.version)?;
    Ok(())
}

#[tactic(auto, unfolding(crate::specs::Rows::found_field))]
pub fn put_found(into: &mut Vec<u8>, found: &Found) -> Result<(), OutOfMemory>
    ensures { OnOk result (into.new.items ≡ into.old.items ++ found_field.spell found.now) }
{
    match found {
        Found::Nothing => put_u8(into, 0)?,
        Found::File => put_u8(into, 1)?,
        Found::Dir(dentry) => {
            put_u8(into, 2)?;
            put_dentry(into, dentry)?;
        }
    }
    Ok(())
}
