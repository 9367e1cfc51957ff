//! Lists of keys, rows and rules.

ghost use Rattle.std.specs.Prelude.{◌≡◌, ◌++◌, OnOk, None};
ghost use Rattle.std.specs.List.{flat_map};
ghost use Rattle.fal_wire.specs.Format.{many_at};
ghost use Rattle.fal_wire.specs.Gives.{Gives};
ghost use Rattle.fal_wire.specs.Names.{key_field};
ghost use Rattle.fal_wire.specs.Rows.{update_field, next_row, next_change, rows_field, keys_field, updates_field, changes_field};

use crate::fault::Stop;
use crate::name::{put_key, read_key};
use crate::number::{
    put_u8, put_u16, put_u32, read_at_most_two, read_one_or_two, read_rule_count, read_u32,
};
use crate::row::{
    put_change, put_named_row, put_update, read_next_change, read_next_row, read_update,
};
use crate::{ChangeList, KeyList, NamedRowList, UpdateList};
use fal_base::{Key, NamedRow, OutOfMemory, RuleChange, Update};
use std::alloc::Global;

fn read_each_key(
    alloc: Global,
    end: usize,
    count: u8,
    bytes: &[u8],
) -> Result<(KeyList, &[u8]), Stop>
    ensures { Gives (λ x. (x.0, x.1.now)) result (many_at (λ _. key_field) None count end bytes.now) }
{
    let mut items = KeyList::new(alloc);
    let mut rest = bytes;
    for _ in 0..count {
        let (item, after) = read_key(alloc, end, rest)?;
        items.push(item)?;
        rest = after;
    }
    Ok((items, rest))
}

#[tactic(auto, unfolding(crate::specs::Rows::keys_field))]
pub fn read_keys(alloc: Global, end: usize, bytes: &[u8]) -> Result<(KeyList, &[u8]), Stop>
    ensures { Gives (λ x. (x.0, x.1.now)) result (keys_field.read end bytes.now) }
{
    let (count, rest) = read_one_or_two(end, bytes)?;
    let (items, rest) = read_each_key(alloc, end, count, rest)?;
    Ok((items, rest))
}

fn put_each_key(into: &mut Vec<u8>, items: &[Key]) -> Result<(), OutOfMemory>
    ensures { OnOk result (into.new.items ≡ into.old.items ++ flat_map key_field.spell items.now) }
{
    for item in items {
        put_key(into, item)?;
    }
    Ok(())
}

#[tactic(auto, unfolding(crate::specs::Rows::keys_field, crate::specs::Numbers::one_or_two))]
pub fn put_keys(into: &mut Vec<u8>, items: &KeyList) -> Result<(), OutOfMemory>
    requires { keys_field.Fits items.now }
    ensures { OnOk result (into.new.items ≡ into.old.items ++ keys_field.spell items.now) }
{
    put_u8(into, items.len() as u8)?;
    put_each_key(into, items.as_slice())?;
    Ok(())
}

fn read_each_update(
    alloc: Global,
    end: usize,
    count: u8,
    bytes: &[u8],
) -> Result<(UpdateList, &[u8]), Stop>
    ensures { Gives (λ x. (x.0, x.1.now)) result (many_at (λ _. update_field) None count end bytes.now) }
{
    let mut items = UpdateList::new(alloc);
    let mut rest = bytes;
    for _ in 0..count {
        let (item, after) = read_update(alloc, end, rest)?;
        items.push(item)?;
        rest = after;
    }
    Ok((items, rest))
}

#[tactic(auto, unfolding(crate::specs::Rows::updates_field))]
pub fn read_updates(alloc: Global, end: usize, bytes: &[u8]) -> Result<(UpdateList, &[u8]), Stop>
    ensures { Gives (λ x. (x.0, x.1.now)) result (updates_field.read end bytes.now) }
{
    let (count, rest) = read_at_most_two(end, bytes)?;
    let (items, rest) = read_each_update(alloc, end, count, rest)?;
    Ok((items, rest))
}

fn put_each_update(into: &mut Vec<u8>, items: &[Update]) -> Result<(), OutOfMemory>
    ensures { OnOk result (into.new.items ≡ into.old.items ++ flat_map update_field.spell items.now) }
{
    for item in items {
        put_update(into, item)?;
    }
    Ok(())
}

#[tactic(auto, unfolding(crate::specs::Rows::updates_field, crate::specs::Numbers::at_most_two))]
pub fn put_updates(into: &mut Vec<u8>, items: &UpdateList) -> Result<(), OutOfMemory>
    requires { updates_field.Fits items.now }
    ensures { OnOk result (into.new.items ≡ into.old.items ++ updates_field.spell items.now) }
{
    put_u8(into, items.len() as u8)?;
    put_each_update(into, items.as_slice())?;
    Ok(())
}

fn read_each_row(
    alloc: Global,
    end: usize,
    count: u32,
    bytes: &[u8],
) -> Result<(NamedRowList, &[u8]), Stop>
    ensures { Gives (λ x. (x.0, x.1.now)) result (many_at next_row None count end bytes.now) }
{
    let mut items = NamedRowList::new(alloc);
    let mut rest = bytes;
    for _ in 0..count {
        let (item, after) = read_next_row(end, items.as_slice().last(), rest)?;
        items.push(item)?;
        rest = after;
    }
    Ok((items, rest))
}

#[tactic(auto, unfolding(crate::specs::Rows::rows_field))]
pub fn read_rows(alloc: Global, end: usize, bytes: &[u8]) -> Result<(NamedRowList, &[u8]), Stop>
    ensures { Gives (λ x. (x.0, x.1.now)) result (rows_field.read end bytes.now) }
{
    let (count, rest) = read_u32(end, bytes)?;
    let (items, rest) = read_each_row(alloc, end, count, rest)?;
    Ok((items, rest))
}

fn put_each_row(into: &mut Vec<u8>, items: &[NamedRow]) -> Result<(), OutOfMemory>
    ensures { OnOk result (into.new.items ≡ into.old.items ++ flat_map (next_row None).spell items.now) }
{
    for item in items {
        put_named_row(into, item)?;
    }
    Ok(())
}

#[tactic(auto, unfolding(crate::specs::Rows::rows_field))]
pub fn put_rows(into: &mut Vec<u8>, items: &NamedRowList) -> Result<(), OutOfMemory>
    requires { rows_field.Fits items.now }
    ensures { OnOk result (into.new.items ≡ into.old.items ++ rows_field.spell items.now) }
{
    put_u32(into, items.len() as u32)?;
    put_each_row(into, items.as_slice())?;
    Ok(())
}

fn read_each_change(
    alloc: Global,
    end: usize,
    count: u16,
    bytes: &[u8],
) -> Result<(ChangeList, &[u8]), Stop>
    ensures { Gives (λ x. (x.0, x.1.now)) result (many_at next_change None count end bytes.now) }
{
    let mut items = ChangeList::new(alloc);
    let mut rest = bytes;
    for _ in 0..count {
        let (item, after) = read_next_change(alloc, end, items.as_slice().last(), rest)?;
        items.push(item)?;
        rest = after;
    }
    Ok((items, rest))
}

#[tactic(auto, unfolding(crate::specs::Rows::changes_field))]
pub fn read_changes(alloc: Global, end: usize, bytes: &[u8]) -> Result<(ChangeList, &[u8]), Stop>
    ensures { Gives (λ x. (x.0, x.1.now)) result (changes_field.read end bytes.now) }
{
    let (count, rest) = read_rule_count(end, bytes)?;
    let (items, rest) = read_each_change(alloc, end, count, rest)?;
    Ok((items, rest))
}

fn put_each_change(into: &mut Vec<u8>, items: &[RuleChange]) -> Result<(), OutOfMemory>
    ensures { OnOk result (into.new.items ≡ into.old.items ++ flat_map (next_change None).spell items.now) }
{
    for item in items {
        put_change(into, item)?;
    }
    Ok(())
}

#[tactic(auto, unfolding(crate::specs::Rows::changes_field, crate::specs::Numbers::rule_count))]
pub fn put_changes(into: &mut Vec<u8>, items: &ChangeList) -> Result<(), OutOfMemory>
    requires { changes_field.Fits items.now }
    ensures { OnOk result (into.new.items ≡ into.old.items ++ changes_field.spell items.now) }
{
    put_u16(into, items.len() as u16)?;
    put_each_change(into, items.as_slice())?;
    Ok(())
}
