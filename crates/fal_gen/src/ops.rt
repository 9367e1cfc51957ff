ghost use Rattle.std.specs.Prelude.{◌≡◌, IfOk};
ghost use Rattle.fal_gen.specs.Calls.{rule_by as rule_of, op_by as op_of};

use crate::names::{dir_path, file_name, file_path};
use fal_base::{Op, OutOfMemory, Rule};
use std::alloc::Global;

#[tactic(auto, unfolding(crate::specs::Calls::rule_by))]
fn rule_by(word: u32) -> Rule
    ensures { result ≡ rule_of word }
{
    match word / 16_384 % 3 {
        0 => Rule::Hash,
        1 => Rule::ByParent,
        _ => Rule::Node((word / 65_536 % 4) as u16),
    }
}

/// The operation of a lane that a word chooses.
#[tactic(auto, unfolding(crate::specs::Calls::op_by))]
pub fn op_by(alloc: Global, lane: u8, word: u32) -> Result<Op, OutOfMemory>
    ensures { IfOk result (λ op. op ≡ op_of lane word) }
{
    let dir = word / 16 % 8;
    let file = word / 128 % 16;
    match word % 16 {
        0..=2 => Ok(Op::Mkdir {
            path: dir_path(alloc, lane, dir)?,
            mode: 0o755,
        }),
        3..=6 => Ok(Op::Create {
            path: file_path(alloc, lane, dir, file)?,
            mode: 0o644,
        }),
        7 => Ok(Op::Stat {
            path: file_path(alloc, lane, dir, file)?,
        }),
        8 => Ok(Op::Stat {
            path: dir_path(alloc, lane, dir)?,
        }),
        9 => Ok(Op::List {
            path: dir_path(alloc, lane, dir)?,
        }),
        10 => Ok(Op::Unlink {
            path: file_path(alloc, lane, dir, file)?,
        }),
        11 => Ok(Op::Rmdir {
            path: dir_path(alloc, lane, dir)?,
        }),
        12 => Ok(Op::Rename {
            old: file_path(alloc, lane, dir, file)?,
            new: file_path(alloc, lane, word / 2048 % 8, file)?,
        }),
        13 => Ok(Op::Chmod {
            path: dir_path(alloc, lane, dir)?,
            mode: 0o750,
        }),
        14 => Ok(Op::Truncate {
            path: file_path(alloc, lane, dir, file)?,
            size: u64::from(word / 16_384),
        }),
        _ => Ok(Op::Place {
            name: file_name(alloc, file)?,
            rule: rule_by(word),
        }),
    }
}
