ghost use Rattle.std.specs.Prelude.{◌≡◌, ◌++◌, OnOk};
ghost use Rattle.std.specs.List.{flat_map};
ghost use Rattle.std.specs.Option.{option_copied};
ghost use Rattle.fal_base.specs.Transcript.{numbered, call_of};
ghost use Rattle.fal_report.specs.Entries.{errno_text, listing_text, reply_text, id_text, sent_text, entry_text};

use crate::bytes::{put, put_each_after, put_number};
use crate::calls::put_call;
use crate::inodes::put_inode;
use fal_base::{Call, Config, Entry, Errno, Items, NameList, OutOfMemory, Reply};
use std::io::Write;

fn errno_name(errno: Errno) -> &'static str
    ensures { result.now ≡ errno_text errno }
{
    match errno {
        Errno::Eacces => "EACCES",
        Errno::Ebusy => "EBUSY",
        Errno::Eexist => "EEXIST",
        Errno::Einval => "EINVAL",
        Errno::Eisdir => "EISDIR",
        Errno::Enametoolong => "ENAMETOOLONG",
        Errno::Enoent => "ENOENT",
        Errno::Enospc => "ENOSPC",
        Errno::Enotdir => "ENOTDIR",
        Errno::Enotempty => "ENOTEMPTY",
        Errno::Eperm => "EPERM",
    }
}

#[tactic(auto, unfolding(crate::specs::Entries::listing_text))]
fn put_listing(out: &mut Vec<u8>, names: &NameList) -> Result<(), OutOfMemory>
    ensures { OnOk result (out.new.items ≡ out.old.items ++ listing_text names.now) }
{
    let count = names.len();
    put(out, b"names ")?;
    put_number(out, count as u64)?;
    put_each_after(out, b' ', names.as_slice())?;
    Ok(())
}

fn put_reply(out: &mut Vec<u8>, reply: &Reply) -> Result<(), OutOfMemory>
    ensures { OnOk result (out.new.items ≡ out.old.items ++ reply_text reply.now) }
{
    match reply {
        Reply::Fine => put(out, b"ok"),
        Reply::Fail(errno) => put(out, errno_name(*errno).as_bytes()),
        Reply::Stat(inode) => {
            put(out, b"stat ")?;
            put_inode(out, inode)
        }
        Reply::Names(names) => put_listing(out, names),
    }
}

#[tactic(auto, unfolding(crate::specs::Entries::id_text))]
fn put_id(out: &mut Vec<u8>, word: &[u8], lane: u8, seq: u32) -> Result<(), OutOfMemory>
    ensures { OnOk result (out.new.items ≡ out.old.items ++ id_text word.now lane seq) }
{
    put(out, word)?;
    put(out, b" ")?;
    put_number(out, u64::from(lane))?;
    put(out, b".")?;
    put_number(out, u64::from(seq))?;
    put(out, b" ")
}

// The item of this number, counted from 1.
fn item_at<T>(items: &Items<T>, number: u32) -> Option<&T>
    ensures { option_copied result ≡ numbered items.now number }
{
    if number == 0 {
        return None;
    }
    items.get((number - 1) as usize)
}

// A lane's call by its number, both counted from 1. None where the config does not have it.
fn call_at(config: &Config, lane: u8, seq: u32) -> Option<&Call>
    ensures { option_copied result ≡ call_of config.now lane seq }
{
    match item_at(&config.lanes, u32::from(lane)) {
        Some(calls) => item_at(calls, seq),
        None => None,
    }
}

fn put_sent(out: &mut Vec<u8>, call: Option<&Call>) -> Result<(), OutOfMemory>
    ensures { OnOk result (out.new.items ≡ out.old.items ++ sent_text (option_copied call.entry)) }
{
    match call {
        Some(call) => put_call(out, call),
        None => Ok(()),
    }
}

fn put_entry(out: &mut Vec<u8>, config: &Config, entry: &Entry) -> Result<(), OutOfMemory>
    ensures { OnOk result (out.new.items ≡ out.old.items ++ entry_text config.now entry.now) }
{
    match entry {
        Entry::Sent { lane, seq } => {
            put_id(out, b"sent", *lane, *seq)?;
            put_sent(out, call_at(config, *lane, *seq))?;
            put(out, b"\n")?;
            Ok(())
        }
        Entry::Commit { lane, seq, ino } => {
            put_id(out, b"commit", *lane, *seq)?;
            put_number(out, *ino)?;
            put(out, b"\n")
        }
        Entry::Opened {
            lane,
            seq,
            ino,
            point,
        } => {
            put_id(out, b"opened", *lane, *seq)?;
            writeln!(out, "{ino} {point}").map_err(|_| OutOfMemory)
        }
        Entry::Placed { lane, seq, version } => {
            put_id(out, b"placed", *lane, *seq)?;
            writeln!(out, "{version}").map_err(|_| OutOfMemory)
        }
        Entry::Stale {
            lane,
            seq,
            old,
            new,
        } => {
            put_id(out, b"stale", *lane, *seq)?;
            writeln!(out, "{old} {new}").map_err(|_| OutOfMemory)
        }
        Entry::Answered {
            lane,
            seq,
            point,
            reply,
        } => {
            put_id(out, b"answered", *lane, *seq)?;
            put_number(out, *point)?;
            put(out, b" ")?;
            put_reply(out, reply)?;
            put(out, b"\n")?;
            Ok(())
        }
    }
}

pub(crate) fn put_entries(
    out: &mut Vec<u8>,
    config: &Config,
    entries: &[Entry],
) -> Result<(), OutOfMemory>
    ensures { OnOk result (out.new.items ≡ out.old.items ++ flat_map (entry_text config.now) entries.now) }
{
    for entry in entries {
        put_entry(out, config, entry)?;
    }
    Ok(())
}
