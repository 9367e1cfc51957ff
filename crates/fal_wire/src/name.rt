//! Names, keys and paths.

ghost use Rattle.std.specs.Prelude.{◌≡◌, ◌<◌, ◌^◌, ◌++◌, ◌==◌, length, sum_by, nat_le, OnOk, None};
ghost use Rattle.std.specs.List.{flat_map};
ghost use Rattle.std.specs.Option.{option_copied};
ghost use Rattle.fal_wire.specs.Format.{text_at, many_at};
ghost use Rattle.fal_wire.specs.Gives.{Gives};
ghost use Rattle.fal_base.specs.Paths.{path_bytes};
ghost use Rattle.fal_wire.specs.Names.{name_field, key_name_field, key_field, path_names, path_field, path_arg_field, comes_after, next_name, names_field};

use crate::fault::Stop;
use crate::number::{
    bad_value, past_body, put_u8, put_u16, put_u32, put_u64, read_u16, read_u32, read_u64,
};
use fal_base::{Key, Name, NameFault, NameList, OutOfMemory, Path, PathArg};
use std::alloc::Global;

#[tactic(auto, unfolding(crate::specs::Format::text_at))]
fn read_text(end: usize, bytes: &[u8]) -> Result<(&[u8], &[u8]), Stop>
    ensures { Gives (λ x. (x.0.now, x.1.now)) result (text_at end bytes.now) }
{
    match bytes {
        [] => Err(past_body(end, bytes)),
        [count, rest @ ..] => {
            let count = usize::from(*count);
            if rest.len() < count {
                return Err(past_body(end, bytes));
            }
            let (text, rest) = rest.split_at(count);
            Ok((text, rest))
        }
    }
}

#[tactic(auto, unfolding(crate::specs::Names::name_field, fal_base::specs::Names::is_name))]
pub fn read_name(alloc: Global, end: usize, bytes: &[u8]) -> Result<(Name, &[u8]), Stop>
    ensures { Gives (λ x. (x.0, x.1.now)) result (name_field.read end bytes.now) }
{
    let (text, rest) = read_text(end, bytes)?;
    match Name::read(alloc, text) {
        Ok(name) => Ok((name, rest)),
        Err(NameFault::OutOfMemory) => Err(Stop::Memory),
        Err(_) => Err(bad_value(end, bytes)),
    }
}

#[tactic(auto, unfolding(crate::specs::Names::key_name_field, crate::specs::Names::is_key_name, crate::specs::Names::name_field))]
fn read_key_name(
    alloc: Global,
    end: usize,
    parent: u64,
    bytes: &[u8],
) -> Result<(Name, &[u8]), Stop>
    ensures { Gives (λ x. (x.0, x.1.now)) result ((key_name_field parent).read end bytes.now) }
{
    let (text, rest) = read_text(end, bytes)?;
    if text.is_empty() {
        if parent == 0 {
            return Ok((Name::root(alloc), rest));
        }
        return Err(bad_value(end, bytes));
    }
    if parent == 0 {
        return Err(bad_value(end, bytes));
    }
    let (name, rest) = read_name(alloc, end, bytes)?;
    Ok((name, rest))
}

#[tactic(auto, unfolding(crate::specs::Names::key_field))]
pub fn read_key(alloc: Global, end: usize, bytes: &[u8]) -> Result<(Key, &[u8]), Stop>
    ensures { Gives (λ x. (x.0, x.1.now)) result (key_field.read end bytes.now) }
{
    let (parent, rest) = read_u64(end, bytes)?;
    let (name, rest) = read_key_name(alloc, end, parent, rest)?;
    Ok((Key { parent, name }, rest))
}

fn read_all_names(
    alloc: Global,
    end: usize,
    count: u16,
    bytes: &[u8],
) -> Result<(NameList, &[u8]), Stop>
    ensures { Gives (λ x. (x.0, x.1.now)) result (many_at (λ _. name_field) None count end bytes.now) }
{
    let mut items = NameList::new(alloc);
    let mut rest = bytes;
    for _ in 0..count {
        let (item, after) = read_name(alloc, end, rest)?;
        items.push(item)?;
        rest = after;
    }
    Ok((items, rest))
}

#[tactic(auto, unfolding(crate::specs::Names::path_names))]
fn read_path_names(alloc: Global, end: usize, bytes: &[u8]) -> Result<(NameList, &[u8]), Stop>
    ensures { Gives (λ x. (x.0, x.1.now)) result (path_names.read end bytes.now) }
{
    let (count, rest) = read_u16(end, bytes)?;
    let (names, rest) = read_all_names(alloc, end, count, rest)?;
    Ok((names, rest))
}

// Whether the path of these names has at most 4,095 bytes.
fn is_short_path(names: &[Name]) -> bool
    ensures { result ≡ nat_le (path_bytes names.now) 4095 }
{
    let mut bytes = 0;
    for name in names {
        bytes += name.bytes().len() + 1;
        if bytes > 4095 {
            return false;
        }
    }
    true
}

#[tactic(auto, using(crate::proofs::ReadNames::read_are_names), unfolding(crate::specs::Names::path_arg_field, crate::specs::Names::path_field))]
pub fn read_path(alloc: Global, end: usize, bytes: &[u8]) -> Result<(PathArg, &[u8]), Stop>
    ensures { Gives (λ x. (x.0, x.1.now)) result (path_arg_field.read end bytes.now) }
{
    let (names, rest) = read_path_names(alloc, end, bytes)?;
    if is_short_path(names.as_slice()) {
        Ok((PathArg::Good(Path::from_names(names)), rest))
    } else {
        Err(bad_value(end, bytes))
    }
}

// Whether the name comes after the one before it, by bytes.
#[tactic(auto, unfolding(crate::specs::Names::comes_after))]
fn is_next(last: Option<&Name>, name: &Name) -> bool
    ensures { result ≡ comes_after (option_copied last.entry) name.now }
{
    match last {
        None => true,
        Some(before) => before.cmp(name).is_lt(),
    }
}

#[tactic(auto, unfolding(crate::specs::Names::next_name))]
fn read_next_name<'a>(
    alloc: Global,
    end: usize,
    last: Option<&Name>,
    bytes: &'a [u8],
) -> Result<(Name, &'a [u8]), Stop>
    ensures { Gives (λ x. (x.0, x.1.now)) result ((next_name (option_copied last.entry)).read end bytes.now) }
{
    let (name, rest) = read_name(alloc, end, bytes)?;
    if is_next(last, &name) {
        Ok((name, rest))
    } else {
        Err(bad_value(end, bytes))
    }
}

fn read_rising_names(
    alloc: Global,
    end: usize,
    count: u32,
    bytes: &[u8],
) -> Result<(NameList, &[u8]), Stop>
    ensures { Gives (λ x. (x.0, x.1.now)) result (many_at next_name None count end bytes.now) }
{
    let mut items = NameList::new(alloc);
    let mut rest = bytes;
    for _ in 0..count {
        let (item, after) = read_next_name(alloc, end, items.as_slice().last(), rest)?;
        items.push(item)?;
        rest = after;
    }
    Ok((items, rest))
}

#[tactic(auto, unfolding(crate::specs::Names::names_field))]
pub fn read_names(alloc: Global, end: usize, bytes: &[u8]) -> Result<(NameList, &[u8]), Stop>
    ensures { Gives (λ x. (x.0, x.1.now)) result (names_field.read end bytes.now) }
{
    let (count, rest) = read_u32(end, bytes)?;
    let (names, rest) = read_rising_names(alloc, end, count, rest)?;
    Ok((names, rest))
}

#[tactic(auto, unfolding(crate::specs::Names::name_field))]
pub fn put_name(into: &mut Vec<u8>, name: &Name) -> Result<(), OutOfMemory>
    ensures { OnOk result (into.new.items ≡ into.old.items ++ name_field.spell name.now) }
{
    let bytes = name.bytes();
    put_u8(into, bytes.len() as u8)?;
    into.extend_from_slice(bytes)?;
    Ok(())
}

#[tactic(auto, unfolding(crate::specs::Names::key_field, crate::specs::Names::key_name_field, crate::specs::Names::name_field))]
pub fn put_key(into: &mut Vec<u8>, key: &Key) -> Result<(), OutOfMemory>
    ensures { OnOk result (into.new.items ≡ into.old.items ++ key_field.spell key.now) }
{
    put_u64(into, key.parent)?;
    put_name(into, &key.name)?;
    Ok(())
}

fn put_each_name(into: &mut Vec<u8>, names: &[Name]) -> Result<(), OutOfMemory>
    ensures { OnOk result (into.new.items ≡ into.old.items ++ flat_map name_field.spell names.now) }
{
    for name in names {
        put_name(into, name)?;
    }
    Ok(())
}

#[tactic(auto, unfolding(crate::specs::Names::path_field, crate::specs::Names::path_names))]
fn put_path_names(into: &mut Vec<u8>, names: &[Name]) -> Result<(), OutOfMemory>
    requires { path_field.Fits names.now }
    ensures { OnOk result (into.new.items ≡ into.old.items ++ path_field.spell names.now) }
{
    put_u16(into, names.len() as u16)?;
    put_each_name(into, names)?;
    Ok(())
}

#[tactic(auto, unfolding(crate::specs::Names::path_arg_field))]
pub fn put_path(into: &mut Vec<u8>, path: &PathArg) -> Result<(), OutOfMemory>
    requires { path_arg_field.Fits path.now }
    ensures { OnOk result (into.new.items ≡ into.old.items ++ path_arg_field.spell path.now) }
{
    match path {
        PathArg::Good(path) => put_path_names(into, path.names())?,
        PathArg::Bad { .. } => {}
    }
    Ok(())
}

#[tactic(auto, unfolding(crate::specs::Names::names_field, crate::specs::Names::next_name))]
pub fn put_names(into: &mut Vec<u8>, names: &NameList) -> Result<(), OutOfMemory>
    requires { names_field.Fits names.now }
    ensures { OnOk result (into.new.items ≡ into.old.items ++ names_field.spell names.now) }
{
    put_u32(into, names.len() as u32)?;
    put_each_name(into, names.as_slice())?;
    Ok(())
}
