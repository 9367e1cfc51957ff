ghost use Rattle.std.specs.Prelude.{◌≡◌, ◌++◌, OnOk};
ghost use Rattle.fal_report.specs.Calls.{names_text, path_text, path_op, spaced_number, spaced_mode, spaced_path, rule_text, place_op, op_text, call_text};

use crate::bytes::{put, put_each_after, put_escaped, put_number};
use crate::inodes::{put_mode, put_owner};
use fal_base::{Call, Name, Op, OutOfMemory, PathArg, Rule};
use std::io::Write;

fn put_names(out: &mut Vec<u8>, names: &[Name]) -> Result<(), OutOfMemory>
    ensures { OnOk result (out.new.items ≡ out.old.items ++ names_text names.now) }
{
    if names.is_empty() {
        put(out, b"/")?;
        return Ok(());
    }
    put_each_after(out, b'/', names)?;
    Ok(())
}

fn put_path(out: &mut Vec<u8>, path: &PathArg) -> Result<(), OutOfMemory>
    ensures { OnOk result (out.new.items ≡ out.old.items ++ path_text path.now) }
{
    match path {
        PathArg::Good(path) => put_names(out, path.names())?,
        PathArg::Bad { raw, .. } => put_escaped(out, raw.as_slice())?,
    }
    Ok(())
}

#[tactic(auto, unfolding(crate::specs::Calls::path_op))]
fn put_path_op(out: &mut Vec<u8>, word: &[u8], path: &PathArg) -> Result<(), OutOfMemory>
    ensures { OnOk result (out.new.items ≡ out.old.items ++ path_op word.now path.now) }
{
    put(out, word)?;
    put(out, b" ")?;
    put_path(out, path)?;
    Ok(())
}

#[tactic(auto, unfolding(crate::specs::Calls::spaced_number))]
fn put_spaced_number(out: &mut Vec<u8>, n: u64) -> Result<(), OutOfMemory>
    ensures { OnOk result (out.new.items ≡ out.old.items ++ spaced_number n) }
{
    put(out, b" ")?;
    put_number(out, n)
}

#[tactic(auto, unfolding(crate::specs::Calls::spaced_mode))]
fn put_spaced_mode(out: &mut Vec<u8>, mode: u16) -> Result<(), OutOfMemory>
    ensures { OnOk result (out.new.items ≡ out.old.items ++ spaced_mode mode) }
{
    put(out, b" ")?;
    put_mode(out, mode)?;
    Ok(())
}

#[tactic(auto, unfolding(crate::specs::Calls::spaced_path))]
fn put_spaced_path(out: &mut Vec<u8>, path: &PathArg) -> Result<(), OutOfMemory>
    ensures { OnOk result (out.new.items ≡ out.old.items ++ spaced_path path.now) }
{
    put(out, b" ")?;
    put_path(out, path)?;
    Ok(())
}

#[tactic(auto, unfolding(crate::specs::Calls::rule_text))]
fn put_rule(out: &mut Vec<u8>, rule: Rule) -> Result<(), OutOfMemory>
    ensures { OnOk result (out.new.items ≡ out.old.items ++ rule_text rule) }
{
    match rule {
        Rule::Hash => put(out, b"hash"),
        Rule::ByParent => put(out, b"parent"),
        Rule::Node(node) => write!(out, "node:{node}").map_err(|_| OutOfMemory),
    }
}

#[tactic(auto, unfolding(crate::specs::Calls::place_op))]
fn put_place_op(out: &mut Vec<u8>, name: &Name, rule: Rule) -> Result<(), OutOfMemory>
    ensures { OnOk result (out.new.items ≡ out.old.items ++ place_op name.now rule) }
{
    put(out, b"place ")?;
    put_escaped(out, name.bytes())?;
    put(out, b" ")?;
    put_rule(out, rule)?;
    Ok(())
}

fn put_op(out: &mut Vec<u8>, op: &Op) -> Result<(), OutOfMemory>
    ensures { OnOk result (out.new.items ≡ out.old.items ++ op_text op.now) }
{
    match op {
        Op::Mkdir { path, mode } => {
            put_path_op(out, b"mkdir", path)?;
            put_spaced_mode(out, *mode)
        }
        Op::Create { path, mode } => {
            put_path_op(out, b"create", path)?;
            put_spaced_mode(out, *mode)
        }
        Op::Stat { path } => put_path_op(out, b"stat", path),
        Op::Access { path, want } => {
            put_path_op(out, b"access", path)?;
            put_spaced_number(out, u64::from(*want))
        }
        Op::Chmod { path, mode } => {
            put_path_op(out, b"chmod", path)?;
            put_spaced_mode(out, *mode)
        }
        Op::Chown { path, uid, gid } => {
            put_path_op(out, b"chown", path)?;
            put_spaced_number(out, u64::from(*uid))?;
            put_spaced_number(out, u64::from(*gid))
        }
        Op::Truncate { path, size } => {
            put_path_op(out, b"truncate", path)?;
            put_spaced_number(out, *size)
        }
        Op::Unlink { path } => put_path_op(out, b"unlink", path),
        Op::Rmdir { path } => put_path_op(out, b"rmdir", path),
        Op::Rename { old, new } => {
            put_path_op(out, b"rename", old)?;
            put_spaced_path(out, new)
        }
        Op::List { path } => put_path_op(out, b"list", path),
        Op::Place { name, rule } => put_place_op(out, name, *rule),
    }
}

/// Appends a call: `UID:GID OP ARGUMENTS`, one space between words. Modes are three octal digits. A good path is its names, each after a
/// slash, and `/` for the root; a bad path is its bytes as given. In paths and names the bytes 33 to 126 other than `%` stand for
/// themselves, and every other byte is `%` and two upper case hexadecimal digits.
///
/// Refused for want of memory alone. The buffer may then have a part of the call.
pub fn put_call(out: &mut Vec<u8>, call: &Call) -> Result<(), OutOfMemory>
    ensures { OnOk result (out.new.items ≡ out.old.items ++ call_text call.now) }
{
    put_owner(out, call.cred.uid, call.cred.gid)?;
    put(out, b" ")?;
    put_op(out, &call.op)?;
    Ok(())
}
