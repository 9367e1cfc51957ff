//! Operations with their arguments, and calls on their way.

ghost use Rattle.std.specs.Prelude.{◌≡◌, ◌++◌, OnOk};
ghost use Rattle.fal_wire.specs.Gives.{Gives};
ghost use Rattle.fal_wire.specs.Ops.{path_and_mode, path_and_want, path_and_owner, path_and_size, two_paths, name_and_rule, op_layout, op_field, call_field, call_rec};
ghost use Rattle.fal_wire.specs.Format.{content_spelling, ContentFits};

use crate::fault::Stop;
use crate::name::{put_name, put_path, read_name, read_path};
use crate::number::{
    bad_value, put_cred, put_id, put_u8, put_u16, put_u32, put_u64, read_cred, read_id, read_mode,
    read_size, read_u8, read_u32, read_want,
};
use crate::row::{put_rule, read_rule};
use fal_base::{CallId, CallRec, Cred, Name, Op, OutOfMemory, PathArg, Rule};
use std::alloc::Global;

#[tactic(auto, unfolding(crate::specs::Ops::path_and_mode))]
fn read_path_and_mode(
    alloc: Global,
    end: usize,
    bytes: &[u8],
) -> Result<((PathArg, u16), &[u8]), Stop>
    ensures { Gives (λ x. (x.0, x.1.now)) result (path_and_mode.read end bytes.now) }
{
    let (path, rest) = read_path(alloc, end, bytes)?;
    let (mode, rest) = read_mode(end, rest)?;
    Ok(((path, mode), rest))
}

#[tactic(auto, unfolding(crate::specs::Ops::path_and_want))]
fn read_path_and_want(
    alloc: Global,
    end: usize,
    bytes: &[u8],
) -> Result<((PathArg, u8), &[u8]), Stop>
    ensures { Gives (λ x. (x.0, x.1.now)) result (path_and_want.read end bytes.now) }
{
    let (path, rest) = read_path(alloc, end, bytes)?;
    let (want, rest) = read_want(end, rest)?;
    Ok(((path, want), rest))
}

#[tactic(auto, unfolding(crate::specs::Ops::path_and_owner))]
fn read_path_and_owner(
    alloc: Global,
    end: usize,
    bytes: &[u8],
) -> Result<((PathArg, (u32, u32)), &[u8]), Stop>
    ensures { Gives (λ x. (x.0, x.1.now)) result (path_and_owner.read end bytes.now) }
{
    let (path, rest) = read_path(alloc, end, bytes)?;
    let (uid, rest) = read_u32(end, rest)?;
    let (gid, rest) = read_u32(end, rest)?;
    Ok(((path, (uid, gid)), rest))
}

#[tactic(auto, unfolding(crate::specs::Ops::path_and_size))]
fn read_path_and_size(
    alloc: Global,
    end: usize,
    bytes: &[u8],
) -> Result<((PathArg, u64), &[u8]), Stop>
    ensures { Gives (λ x. (x.0, x.1.now)) result (path_and_size.read end bytes.now) }
{
    let (path, rest) = read_path(alloc, end, bytes)?;
    let (size, rest) = read_size(end, rest)?;
    Ok(((path, size), rest))
}

#[tactic(auto, unfolding(crate::specs::Ops::two_paths))]
fn read_two_paths(
    alloc: Global,
    end: usize,
    bytes: &[u8],
) -> Result<((PathArg, PathArg), &[u8]), Stop>
    ensures { Gives (λ x. (x.0, x.1.now)) result (two_paths.read end bytes.now) }
{
    let (old, rest) = read_path(alloc, end, bytes)?;
    let (new, rest) = read_path(alloc, end, rest)?;
    Ok(((old, new), rest))
}

#[tactic(auto, unfolding(crate::specs::Ops::name_and_rule))]
fn read_name_and_rule(
    alloc: Global,
    end: usize,
    bytes: &[u8],
) -> Result<((Name, Rule), &[u8]), Stop>
    ensures { Gives (λ x. (x.0, x.1.now)) result (name_and_rule.read end bytes.now) }
{
    let (name, rest) = read_name(alloc, end, bytes)?;
    let (rule, rest) = read_rule(end, rest)?;
    Ok(((name, rule), rest))
}

#[tactic(auto, unfolding(crate::specs::Ops::op_field))]
fn read_op(alloc: Global, end: usize, bytes: &[u8]) -> Result<(Op, &[u8]), Stop>
    ensures { Gives (λ x. (x.0, x.1.now)) result (op_field.read end bytes.now) }
{
    let (tag, rest) = read_u8(end, bytes)?;
    match tag {
        1 => {
            let ((path, mode), rest) = read_path_and_mode(alloc, end, rest)?;
            Ok((Op::Mkdir { path, mode }, rest))
        }
        2 => {
            let ((path, mode), rest) = read_path_and_mode(alloc, end, rest)?;
            Ok((Op::Create { path, mode }, rest))
        }
        3 => {
            let (path, rest) = read_path(alloc, end, rest)?;
            Ok((Op::Stat { path }, rest))
        }
        4 => {
            let ((path, want), rest) = read_path_and_want(alloc, end, rest)?;
            Ok((Op::Access { path, want }, rest))
        }
        5 => {
            let ((path, mode), rest) = read_path_and_mode(alloc, end, rest)?;
            Ok((Op::Chmod { path, mode }, rest))
        }
        6 => {
            let ((path, (uid, gid)), rest) = read_path_and_owner(alloc, end, rest)?;
            Ok((Op::Chown { path, uid, gid }, rest))
        }
        7 => {
            let ((path, size), rest) = read_path_and_size(alloc, end, rest)?;
            Ok((Op::Truncate { path, size }, rest))
        }
        8 => {
            let (path, rest) = read_path(alloc, end, rest)?;
            Ok((Op::Unlink { path }, rest))
        }
        9 => {
            let (path, rest) = read_path(alloc, end, rest)?;
            Ok((Op::Rmdir { path }, rest))
        }
        10 => {
            let ((old, new), rest) = read_two_paths(alloc, end, rest)?;
            Ok((Op::Rename { old, new }, rest))
        }
        11 => {
            let (path, rest) = read_path(alloc, end, rest)?;
            Ok((Op::List { path }, rest))
        }
        12 => {
            let ((name, rule), rest) = read_name_and_rule(alloc, end, rest)?;
            Ok((Op::Place { name, rule }, rest))
        }
        _ => Err(bad_value(end, bytes)),
    }
}

#[tactic(auto, unfolding(crate::specs::Ops::call_field))]
pub fn read_call(alloc: Global, end: usize, bytes: &[u8]) -> Result<(CallRec, &[u8]), Stop>
    ensures { Gives (λ x. (x.0, x.1.now)) result (call_field.read end bytes.now) }
{
    let (id, rest) = read_id(end, bytes)?;
    let (cred, rest) = read_cred(end, rest)?;
    let (version, rest) = read_u32(end, rest)?;
    let (op, rest) = read_op(alloc, end, rest)?;
    let call = CallRec {
        id,
        cred,
        version,
        op,
    };
    Ok((call, rest))
}

#[tactic(auto, unfolding(crate::specs::Ops::path_and_mode, crate::specs::Numbers::mode_field))]
fn put_path_and_mode(into: &mut Vec<u8>, path: &PathArg, mode: u16) -> Result<(), OutOfMemory>
    requires { path_and_mode.Fits (path.now, mode) }
    ensures { OnOk result (into.new.items ≡ into.old.items ++ path_and_mode.spell (path.now, mode)) }
{
    put_path(into, path)?;
    put_u16(into, mode)?;
    Ok(())
}

#[tactic(auto, unfolding(crate::specs::Ops::path_and_want, crate::specs::Numbers::want_field))]
fn put_path_and_want(into: &mut Vec<u8>, path: &PathArg, want: u8) -> Result<(), OutOfMemory>
    requires { path_and_want.Fits (path.now, want) }
    ensures { OnOk result (into.new.items ≡ into.old.items ++ path_and_want.spell (path.now, want)) }
{
    put_path(into, path)?;
    put_u8(into, want)?;
    Ok(())
}

#[tactic(auto, unfolding(crate::specs::Ops::path_and_owner))]
fn put_path_and_owner(
    into: &mut Vec<u8>,
    path: &PathArg,
    uid: u32,
    gid: u32,
) -> Result<(), OutOfMemory>
    requires { path_and_owner.Fits (path.now, (uid, gid)) }
    ensures { OnOk result (into.new.items ≡ into.old.items ++ path_and_owner.spell (path.now, (uid, gid))) }
{
    put_path(into, path)?;
    put_u32(into, uid)?;
    put_u32(into, gid)?;
    Ok(())
}

#[tactic(auto, unfolding(crate::specs::Ops::path_and_size, crate::specs::Numbers::size_field))]
fn put_path_and_size(into: &mut Vec<u8>, path: &PathArg, size: u64) -> Result<(), OutOfMemory>
    requires { path_and_size.Fits (path.now, size) }
    ensures { OnOk result (into.new.items ≡ into.old.items ++ path_and_size.spell (path.now, size)) }
{
    put_path(into, path)?;
    put_u64(into, size)?;
    Ok(())
}

#[tactic(auto, unfolding(crate::specs::Ops::two_paths))]
fn put_two_paths(into: &mut Vec<u8>, old: &PathArg, new: &PathArg) -> Result<(), OutOfMemory>
    requires { two_paths.Fits (old.now, new.now) }
    ensures { OnOk result (into.new.items ≡ into.old.items ++ two_paths.spell (old.now, new.now)) }
{
    put_path(into, old)?;
    put_path(into, new)?;
    Ok(())
}

#[tactic(auto, unfolding(crate::specs::Ops::name_and_rule))]
fn put_name_and_rule(into: &mut Vec<u8>, name: &Name, rule: Rule) -> Result<(), OutOfMemory>
    ensures { OnOk result (into.new.items ≡ into.old.items ++ name_and_rule.spell (name.now, rule)) }
{
    put_name(into, name)?;
    put_rule(into, rule)?;
    Ok(())
}

#[tactic(auto, unfolding(crate::specs::Ops::op_field))]
fn op_tag(op: &Op) -> u8
    ensures { result ≡ (op_layout op.now).tag }
{
    match op {
        Op::Mkdir { .. } => 1,
        Op::Create { .. } => 2,
        Op::Stat { .. } => 3,
        Op::Access { .. } => 4,
        Op::Chmod { .. } => 5,
        Op::Chown { .. } => 6,
        Op::Truncate { .. } => 7,
        Op::Unlink { .. } => 8,
        Op::Rmdir { .. } => 9,
        Op::Rename { .. } => 10,
        Op::List { .. } => 11,
        Op::Place { .. } => 12,
    }
}

fn put_arguments(into: &mut Vec<u8>, op: &Op) -> Result<(), OutOfMemory>
    requires { ContentFits (op_layout op.now) }
    ensures { OnOk result (into.new.items ≡ into.old.items ++ content_spelling (op_layout op.now)) }
{
    match op {
        Op::Mkdir { path, mode } => put_path_and_mode(into, path, *mode)?,
        Op::Create { path, mode } => put_path_and_mode(into, path, *mode)?,
        Op::Stat { path } => put_path(into, path)?,
        Op::Access { path, want } => put_path_and_want(into, path, *want)?,
        Op::Chmod { path, mode } => put_path_and_mode(into, path, *mode)?,
        Op::Chown { path, uid, gid } => put_path_and_owner(into, path, *uid, *gid)?,
        Op::Truncate { path, size } => put_path_and_size(into, path, *size)?,
        Op::Unlink { path } => put_path(into, path)?,
        Op::Rmdir { path } => put_path(into, path)?,
        Op::Rename { old, new } => put_two_paths(into, old, new)?,
        Op::List { path } => put_path(into, path)?,
        Op::Place { name, rule } => put_name_and_rule(into, name, *rule)?,
    }
    Ok(())
}

#[tactic(auto, unfolding(crate::specs::Ops::op_field))]
fn put_op(into: &mut Vec<u8>, op: &Op) -> Result<(), OutOfMemory>
    requires { op_field.Fits op.now }
    ensures { OnOk result (into.new.items ≡ into.old.items ++ op_field.spell op.now) }
{
    put_u8(into, op_tag(op))?;
    put_arguments(into, op)?;
    Ok(())
}

// A call, by its parts.
#[tactic(auto, unfolding(crate::specs::Ops::call_field))]
pub fn put_call_of(
    into: &mut Vec<u8>,
    id: &CallId,
    cred: &Cred,
    version: u32,
    op: &Op,
) -> Result<(), OutOfMemory>
    requires { call_field.Fits (call_rec id.now cred.now version op.now) }
    ensures { OnOk result (into.new.items ≡ into.old.items ++ call_field.spell (call_rec id.now cred.now version op.now)) }
{
    put_id(into, id)?;
    put_cred(into, cred)?;
    put_u32(into, version)?;
    put_op(into, op)?;
    Ok(())
}

pub fn put_call(into: &mut Vec<u8>, call: &CallRec) -> Result<(), OutOfMemory>
    requires { call_field.Fits call.now }
    ensures { OnOk result (into.new.items ≡ into.old.items ++ call_field.spell call.now) }
{
    put_call_of(into, &call.id, &call.cred, call.version, &call.op)?;
    Ok(())
}
