//! The bodies of records, read.

ghost use Rattle.std.specs.Prelude.{◌≡◌, IsTrue};
ghost use Rattle.fal_wire.specs.Format.{made};
ghost use Rattle.fal_wire.specs.Gives.{Gives};
ghost use Rattle.fal_wire.specs.Messages.{block_body, blocked_body, commit_body, count_body, counted_body, done_body, fetch_ask_body, fetch_got_body, install_body, list_ask_body, list_part_body, lock_body, locked_body, opened_body, reply_body, stale_body, body_at, is_kind};

use crate::answer::read_reply;
use crate::fault::Stop;
use crate::list::{read_changes, read_keys, read_rows, read_updates};
use crate::message::Message;
use crate::name::{read_key, read_name, read_names};
use crate::number::{
    read_asker, read_id, read_node, read_operation, read_u32, read_u64, read_version,
    read_version_above,
};
use crate::op::read_call;
use crate::row::{read_found, read_rule};
use std::alloc::Global;

#[tactic(auto, unfolding(crate::specs::Messages::reply_body))]
fn read_reply_body(end: usize, bytes: &[u8]) -> Result<(Message, &[u8]), Stop>
    ensures { Gives (λ x. (x.0, x.1.now)) result (made (λ f. Message.Reply f.0 f.1) reply_body end bytes.now) }
{
    let (id, rest) = read_id(end, bytes)?;
    let (reply, rest) = read_reply(end, rest)?;
    Ok((Message::Reply { id, reply }, rest))
}

#[tactic(auto, unfolding(crate::specs::Messages::stale_body))]
fn read_stale_body(alloc: Global, end: usize, bytes: &[u8]) -> Result<(Message, &[u8]), Stop>
    ensures { Gives (λ x. (x.0, x.1.now)) result (made (λ f. Message.Stale f.0 f.1.0 f.1.1.0 f.1.1.1) stale_body end bytes.now) }
{
    let (id, rest) = read_id(end, bytes)?;
    let (old, rest) = read_u32(end, rest)?;
    let (new, rest) = read_version_above(end, old, rest)?;
    let (changes, rest) = read_changes(alloc, end, rest)?;
    Ok((
        Message::Stale {
            id,
            old,
            new,
            changes,
        },
        rest,
    ))
}

#[tactic(auto, unfolding(crate::specs::Messages::opened_body))]
fn read_opened_body(end: usize, bytes: &[u8]) -> Result<(Message, &[u8]), Stop>
    ensures { Gives (λ x. (x.0, x.1.now)) result (made (λ f. Message.Opened f.0 f.1) opened_body end bytes.now) }
{
    let (id, rest) = read_id(end, bytes)?;
    let (dir, rest) = read_u64(end, rest)?;
    Ok((Message::Opened { id, dir }, rest))
}

#[tactic(auto, unfolding(crate::specs::Messages::list_ask_body))]
fn read_list_ask_body(end: usize, bytes: &[u8]) -> Result<(Message, &[u8]), Stop>
    ensures { Gives (λ x. (x.0, x.1.now)) result (made (λ f. Message.ListAsk f.0 f.1.0 f.1.1) list_ask_body end bytes.now) }
{
    let (id, rest) = read_id(end, bytes)?;
    let (version, rest) = read_u32(end, rest)?;
    let (dir, rest) = read_u64(end, rest)?;
    Ok((Message::ListAsk { id, version, dir }, rest))
}

#[tactic(auto, unfolding(crate::specs::Messages::list_part_body))]
fn read_list_part_body(alloc: Global, end: usize, bytes: &[u8]) -> Result<(Message, &[u8]), Stop>
    ensures { Gives (λ x. (x.0, x.1.now)) result (made (λ f. Message.ListPart f.0 f.1.0 f.1.1) list_part_body end bytes.now) }
{
    let (id, rest) = read_id(end, bytes)?;
    let (node, rest) = read_node(end, rest)?;
    let (names, rest) = read_names(alloc, end, rest)?;
    Ok((Message::ListPart { id, node, names }, rest))
}

#[tactic(auto, unfolding(crate::specs::Messages::fetch_ask_body))]
fn read_fetch_ask_body(alloc: Global, end: usize, bytes: &[u8]) -> Result<(Message, &[u8]), Stop>
    ensures { Gives (λ x. (x.0, x.1.now)) result (made (λ f. Message.FetchAsk f.0 f.1.0 f.1.1) fetch_ask_body end bytes.now) }
{
    let (asker, rest) = read_asker(end, bytes)?;
    let (number, rest) = read_u64(end, rest)?;
    let (key, rest) = read_key(alloc, end, rest)?;
    Ok((Message::FetchAsk { asker, number, key }, rest))
}

#[tactic(auto, unfolding(crate::specs::Messages::fetch_got_body))]
fn read_fetch_got_body(alloc: Global, end: usize, bytes: &[u8]) -> Result<(Message, &[u8]), Stop>
    ensures { Gives (λ x. (x.0, x.1.now)) result (made (λ f. Message.FetchGot f.0 f.1.0 f.1.1) fetch_got_body end bytes.now) }
{
    let (number, rest) = read_u64(end, bytes)?;
    let (key, rest) = read_key(alloc, end, rest)?;
    let (found, rest) = read_found(end, rest)?;
    Ok((Message::FetchGot { number, key, found }, rest))
}

#[tactic(auto, unfolding(crate::specs::Messages::lock_body))]
fn read_lock_body(alloc: Global, end: usize, bytes: &[u8]) -> Result<(Message, &[u8]), Stop>
    ensures { Gives (λ x. (x.0, x.1.now)) result (made (λ f. Message.Lock f.0 f.1) lock_body end bytes.now) }
{
    let (op, rest) = read_operation(end, bytes)?;
    let (keys, rest) = read_keys(alloc, end, rest)?;
    Ok((Message::Lock { op, keys }, rest))
}

#[tactic(auto, unfolding(crate::specs::Messages::locked_body))]
fn read_locked_body(alloc: Global, end: usize, bytes: &[u8]) -> Result<(Message, &[u8]), Stop>
    ensures { Gives (λ x. (x.0, x.1.now)) result (made (λ f. Message.Locked f.0 f.1.0 f.1.1) locked_body end bytes.now) }
{
    let (op, rest) = read_operation(end, bytes)?;
    let (node, rest) = read_node(end, rest)?;
    let (rows, rest) = read_updates(alloc, end, rest)?;
    Ok((Message::Locked { op, node, rows }, rest))
}

#[tactic(auto, unfolding(crate::specs::Messages::count_body))]
fn read_count_body(end: usize, bytes: &[u8]) -> Result<(Message, &[u8]), Stop>
    ensures { Gives (λ x. (x.0, x.1.now)) result (made (λ f. Message.Count f.0 f.1) count_body end bytes.now) }
{
    let (op, rest) = read_operation(end, bytes)?;
    let (dir, rest) = read_u64(end, rest)?;
    Ok((Message::Count { op, dir }, rest))
}

#[tactic(auto, unfolding(crate::specs::Messages::counted_body))]
fn read_counted_body(end: usize, bytes: &[u8]) -> Result<(Message, &[u8]), Stop>
    ensures { Gives (λ x. (x.0, x.1.now)) result (made (λ f. Message.Counted f.0 f.1.0 f.1.1) counted_body end bytes.now) }
{
    let (op, rest) = read_operation(end, bytes)?;
    let (node, rest) = read_node(end, rest)?;
    let (number, rest) = read_u64(end, rest)?;
    Ok((Message::Counted { op, node, number }, rest))
}

#[tactic(auto, unfolding(crate::specs::Messages::commit_body))]
fn read_commit_body(alloc: Global, end: usize, bytes: &[u8]) -> Result<(Message, &[u8]), Stop>
    ensures { Gives (λ x. (x.0, x.1.now)) result (made (λ f. Message.Commit f.0 f.1) commit_body end bytes.now) }
{
    let (op, rest) = read_operation(end, bytes)?;
    let (updates, rest) = read_updates(alloc, end, rest)?;
    Ok((Message::Commit { op, updates }, rest))
}

#[tactic(auto, unfolding(crate::specs::Messages::done_body))]
fn read_done_body(end: usize, bytes: &[u8]) -> Result<(Message, &[u8]), Stop>
    ensures { Gives (λ x. (x.0, x.1.now)) result (made (λ f. Message.Done f.0 f.1) done_body end bytes.now) }
{
    let (op, rest) = read_operation(end, bytes)?;
    let (node, rest) = read_node(end, rest)?;
    Ok((Message::Done { op, node }, rest))
}

#[tactic(auto, unfolding(crate::specs::Messages::block_body))]
fn read_block_body(alloc: Global, end: usize, bytes: &[u8]) -> Result<(Message, &[u8]), Stop>
    ensures { Gives (λ x. (x.0, x.1.now)) result (made (λ f. Message.Block f.0 f.1) block_body end bytes.now) }
{
    let (op, rest) = read_operation(end, bytes)?;
    let (name, rest) = read_name(alloc, end, rest)?;
    Ok((Message::Block { op, name }, rest))
}

#[tactic(auto, unfolding(crate::specs::Messages::blocked_body))]
fn read_blocked_body(alloc: Global, end: usize, bytes: &[u8]) -> Result<(Message, &[u8]), Stop>
    ensures { Gives (λ x. (x.0, x.1.now)) result (made (λ f. Message.Blocked f.0 f.1.0 f.1.1) blocked_body end bytes.now) }
{
    let (op, rest) = read_operation(end, bytes)?;
    let (node, rest) = read_node(end, rest)?;
    let (rows, rest) = read_rows(alloc, end, rest)?;
    Ok((Message::Blocked { op, node, rows }, rest))
}

#[tactic(auto, unfolding(crate::specs::Messages::install_body))]
fn read_install_body(alloc: Global, end: usize, bytes: &[u8]) -> Result<(Message, &[u8]), Stop>
    ensures { Gives (λ x. (x.0, x.1.now)) result (made (λ f. Message.Install f.0 f.1.0 f.1.1.0 f.1.1.1) install_body end bytes.now) }
{
    let (op, rest) = read_operation(end, bytes)?;
    let (version, rest) = read_version(end, rest)?;
    let (rule, rest) = read_rule(end, rest)?;
    let (rows, rest) = read_rows(alloc, end, rest)?;
    Ok((
        Message::Install {
            op,
            version,
            rule,
            rows,
        },
        rest,
    ))
}

#[tactic(auto, unfolding(crate::specs::Messages::done_body))]
fn read_installed_body(end: usize, bytes: &[u8]) -> Result<(Message, &[u8]), Stop>
    ensures { Gives (λ x. (x.0, x.1.now)) result (made (λ f. Message.Installed f.0 f.1) done_body end bytes.now) }
{
    let (op, rest) = read_operation(end, bytes)?;
    let (node, rest) = read_node(end, rest)?;
    Ok((Message::Installed { op, node }, rest))
}

// The fields of a record of this kind, which is 1 to 18.
#[tactic(auto, unfolding(crate::specs::Messages::body_at))]
pub fn read_body(
    alloc: Global,
    kind: u8,
    end: usize,
    bytes: &[u8],
) -> Result<(Message, &[u8]), Stop>
    requires { IsTrue (is_kind kind) }
    ensures { Gives (λ x. (x.0, x.1.now)) result (body_at kind end bytes.now) }
{
    match kind {
        1 => {
            let (call, rest) = read_call(alloc, end, bytes)?;
            Ok((Message::Call(call), rest))
        }
        2 => read_reply_body(end, bytes),
        3 => read_stale_body(alloc, end, bytes),
        4 => read_opened_body(end, bytes),
        5 => read_list_ask_body(end, bytes),
        6 => read_list_part_body(alloc, end, bytes),
        7 => read_fetch_ask_body(alloc, end, bytes),
        8 => read_fetch_got_body(alloc, end, bytes),
        9 => read_lock_body(alloc, end, bytes),
        10 => read_locked_body(alloc, end, bytes),
        11 => read_count_body(end, bytes),
        12 => read_counted_body(end, bytes),
        13 => read_commit_body(alloc, end, bytes),
        14 => read_done_body(end, bytes),
        15 => read_block_body(alloc, end, bytes),
        16 => read_blocked_body(alloc, end, bytes),
        17 => read_install_body(alloc, end, bytes),
        18 => read_installed_body(end, bytes),
        _ => unreachable!(),
    }
}
