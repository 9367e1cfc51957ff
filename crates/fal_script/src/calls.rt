ghost use Rattle.std.specs.Prelude.{◌≡◌, ◌≤◌, IfOk, map};
ghost use Rattle.fal_script.specs.Arguments.{mode_word as mode_of, number_word as number_of};
ghost use Rattle.fal_script.specs.Calls.{path_words as path_words_of, path_number_words as path_number_of, path_owner_words as owner_of, two_path_words as two_paths_of, name_rule_words as name_rule_of, op_words as op_of, call_words as call_of};
ghost use Rattle.fal_script.specs.ReadAs.{ReadAs, or_rule as or_rule_of};

use crate::arguments::{cred_word, mode_word, name_word, number_word, path_word, rule_word};
use crate::fault::Broken;
use crate::numbers::number_from_one;
use crate::script::ScriptCall;
use crate::verbs::{Verb, verb_word};
use fal_base::{Call, Name, Op, PathArg, Rule};
use std::alloc::Global;

const ID: u64 = 4_294_967_295;

const SIZE: u64 = 9_223_372_036_854_775_807;

#[tactic(auto, unfolding(crate::specs::Calls::path_words))]
fn one_path(alloc: Global, arguments: &[&[u8]]) -> Result<PathArg, Broken>
    ensures { ReadAs result (path_words_of (map (λ w. w.now) arguments.now)) }
{
    match arguments {
        [path] => path_word(alloc, path),
        _ => Err(Broken::Rule(9)),
    }
}

#[tactic(auto, unfolding(crate::specs::Calls::path_number_words))]
fn path_and_mode(alloc: Global, arguments: &[&[u8]]) -> Result<(PathArg, u16), Broken>
    ensures { ReadAs result (path_number_of mode_of (map (λ w. w.now) arguments.now)) }
{
    match arguments {
        [path, mode] => {
            let path = path_word(alloc, path)?;
            let mode = mode_word(mode)?;
            Ok((path, mode))
        }
        _ => Err(Broken::Rule(9)),
    }
}

// A path, and a number that is at most this large.
#[tactic(auto, unfolding(crate::specs::Calls::path_number_words))]
fn path_and_number(alloc: Global, most: u64, arguments: &[&[u8]]) -> Result<(PathArg, u64), Broken>
    ensures value { ReadAs result (path_number_of (number_of most) (map (λ w. w.now) arguments.now)) }
    ensures small { IfOk result (λ pair. pair.1 ≤ most) }
{
    match arguments {
        [path, number] => {
            let path = path_word(alloc, path)?;
            let number = number_word(most, number)?;
            Ok((path, number))
        }
        _ => Err(Broken::Rule(9)),
    }
}

#[tactic(auto, unfolding(crate::specs::Calls::path_owner_words))]
fn path_and_owner(alloc: Global, arguments: &[&[u8]]) -> Result<(PathArg, (u32, u32)), Broken>
    ensures { ReadAs result (owner_of (map (λ w. w.now) arguments.now)) }
{
    match arguments {
        [path, uid, gid] => {
            let path = path_word(alloc, path)?;
            let uid = number_word(ID, uid)?;
            let gid = number_word(ID, gid)?;
            Ok((path, (uid as u32, gid as u32)))
        }
        _ => Err(Broken::Rule(9)),
    }
}

#[tactic(auto, unfolding(crate::specs::Calls::two_path_words))]
fn two_paths(alloc: Global, arguments: &[&[u8]]) -> Result<(PathArg, PathArg), Broken>
    ensures { ReadAs result (two_paths_of (map (λ w. w.now) arguments.now)) }
{
    match arguments {
        [old, new] => {
            let old = path_word(alloc, old)?;
            let new = path_word(alloc, new)?;
            Ok((old, new))
        }
        _ => Err(Broken::Rule(9)),
    }
}

#[tactic(auto, unfolding(crate::specs::Calls::name_rule_words))]
fn name_and_rule(alloc: Global, arguments: &[&[u8]]) -> Result<(Name, Rule), Broken>
    ensures { ReadAs result (name_rule_of (map (λ w. w.now) arguments.now)) }
{
    match arguments {
        [name, rule] => {
            let name = name_word(alloc, name)?;
            let rule = rule_word(alloc, rule)?;
            Ok((name, rule))
        }
        _ => Err(Broken::Rule(9)),
    }
}

/// The operation of a verb and its arguments, or the lowest rule that they break: 9 for their number, 10 for a `%` without two hexadecimal
/// digits after it, 11 for numbers, 12 for a name, 13 for a rule of placement.
pub fn op_words(alloc: Global, verb: Verb, arguments: &[&[u8]]) -> Result<Op, Broken>
    ensures { ReadAs result (op_of verb (map (λ w. w.now) arguments.now)) }
{
    match verb {
        Verb::Mkdir => {
            let (path, mode) = path_and_mode(alloc, arguments)?;
            Ok(Op::Mkdir { path, mode })
        }
        Verb::Create => {
            let (path, mode) = path_and_mode(alloc, arguments)?;
            Ok(Op::Create { path, mode })
        }
        Verb::Stat => {
            let path = one_path(alloc, arguments)?;
            Ok(Op::Stat { path })
        }
        Verb::Access => {
            let (path, want) = path_and_number(alloc, 7, arguments)?;
            let want = want as u8;
            Ok(Op::Access { path, want })
        }
        Verb::Chmod => {
            let (path, mode) = path_and_mode(alloc, arguments)?;
            Ok(Op::Chmod { path, mode })
        }
        Verb::Chown => {
            let (path, (uid, gid)) = path_and_owner(alloc, arguments)?;
            Ok(Op::Chown { path, uid, gid })
        }
        Verb::Truncate => {
            let (path, size) = path_and_number(alloc, SIZE, arguments)?;
            Ok(Op::Truncate { path, size })
        }
        Verb::Unlink => {
            let path = one_path(alloc, arguments)?;
            Ok(Op::Unlink { path })
        }
        Verb::Rmdir => {
            let path = one_path(alloc, arguments)?;
            Ok(Op::Rmdir { path })
        }
        Verb::Rename => {
            let (old, new) = two_paths(alloc, arguments)?;
            Ok(Op::Rename { old, new })
        }
        Verb::List => {
            let path = one_path(alloc, arguments)?;
            Ok(Op::List { path })
        }
        Verb::Place => {
            let (name, rule) = name_and_rule(alloc, arguments)?;
            Ok(Op::Place { name, rule })
        }
    }
}

fn or_rule<X: Drop>(value: Option<X>, rule: u8) -> Result<X, Broken>
    ensures { ReadAs result (or_rule_of rule value) }
{
    match value {
        Some(value) => Ok(value),
        None => Err(Broken::Rule(rule)),
    }
}

/// The call that the words of a line spell, where there are so many lanes, or the lowest rule that they break: 5 for fewer than three words,
/// 6 for the lane, 7 for the caller, 8 for the operation, and 9 to 13 for its arguments.
#[tactic(auto, unfolding(crate::specs::Calls::call_words))]
pub fn call_words(alloc: Global, lanes: u8, words: &[&[u8]]) -> Result<ScriptCall, Broken>
    ensures { ReadAs result (call_of lanes (map (λ w. w.now) words.now)) }
{
    match words {
        [lane, cred, verb, arguments @ ..] => {
            let lane = or_rule(number_from_one(lanes, lane), 6)?;
            let cred = or_rule(cred_word(cred), 7)?;
            let verb = or_rule(verb_word(verb), 8)?;
            let op = op_words(alloc, verb, arguments)?;
            let call = Call { cred, op };
            Ok(ScriptCall { lane, call })
        }
        _ => Err(Broken::Rule(5)),
    }
}
