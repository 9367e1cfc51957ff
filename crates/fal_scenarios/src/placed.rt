//! What a change of placement is answered, by the names that have a rule.

use crate::broken::Broken;
use crate::judge::call_of;
use fal_base::{Call, Config, Cred, Entry, Errno, Name, Op, Reply, Rule};
use std::alloc::Global;

// How many names may have a rule.
const MOST: usize = 1024;

// The name that a call places, with its rule.
fn placement(call: &Call) -> Option<(&Name, Rule)> {
    match &call.op {
        Op::Place { name, rule } => Some((name, *rule)),
        _ => None,
    }
}

// The answer where these names have a rule.
fn answer(config: &Config, names: &[&Name], cred: &Cred, name: &Name, rule: Rule) -> Reply {
    if cred.uid != 0 {
        return Reply::Fail(Errno::Eperm);
    }
    if let Rule::Node(node) = rule
        && node >= u16::from(config.nodes)
    {
        return Reply::Fail(Errno::Einval);
    }
    if names.len() >= MOST && !names.iter().any(|other| **other == *name) {
        return Reply::Fail(Errno::Enospc);
    }
    Reply::Fine
}

// Takes an entry: a name more has a rule, or a change of placement is answered. Answers whether the answer is wrong.
fn is_wrong<'a>(
    config: &'a Config,
    names: &mut Vec<&'a Name>,
    entry: &Entry,
) -> Result<bool, Broken> {
    match entry {
        Entry::Placed { lane, seq, .. } => {
            if let Some(call) = call_of(config, *lane, *seq)
                && let Some((name, _)) = placement(call)
                && !names.iter().any(|other| **other == *name)
            {
                names.push(name)?;
            }
            Ok(false)
        }
        Entry::Answered {
            lane,
            seq,
            reply,
            ..
        } => {
            if let Some(call) = call_of(config, *lane, *seq)
                && let Some((name, rule)) = placement(call)
            {
                return Ok(answer(config, names, &call.cred, name, rule) != *reply);
            }
            Ok(false)
        }
        _ => Ok(false),
    }
}

/// How many answers to changes of placement are not those of the names that had a rule.
pub fn wrong_places(alloc: Global, config: &Config, entries: &[Entry]) -> Result<u32, Broken> {
    let mut names = Vec::new(alloc);
    let mut count = 0u32;
    for entry in entries {
        if is_wrong(config, &mut names, entry)? {
            count = count.saturating_add(1);
        }
    }
    Ok(count)
}
