//! The bodies of records, written.

ghost use Rattle.std.specs.Prelude.{◌≡◌, ◌++◌, OnOk};
ghost use Rattle.fal_wire.specs.Messages.{block_body, blocked_body, commit_body, count_body, counted_body, done_body, fetch_ask_body, fetch_got_body, install_body, list_ask_body, list_part_body, lock_body, locked_body, opened_body, reply_body, stale_body, body_spelling, kind_of, FieldsFit};

use crate::answer::put_reply;
use crate::list::{put_changes, put_keys, put_rows, put_updates};
use crate::message::{Found, Message};
use crate::name::{put_key, put_name, put_names};
use crate::number::{put_id, put_u8, put_u32, put_u64};
use crate::op::put_call;
use crate::row::{put_found, put_rule};
use crate::{ChangeList, KeyList, NamedRowList, UpdateList};
use fal_base::{CallId, Key, Name, NameList, OutOfMemory, Reply, Rule};

#[tactic(auto, unfolding(crate::specs::Messages::reply_body))]
fn put_reply_body(into: &mut Vec<u8>, id: &CallId, reply: &Reply) -> Result<(), OutOfMemory>
    requires { reply_body.Fits (id.now, reply.now) }
    ensures { OnOk result (into.new.items ≡ into.old.items ++ reply_body.spell (id.now, reply.now)) }
{
    put_id(into, id)?;
    put_reply(into, reply)?;
    Ok(())
}

#[tactic(auto, unfolding(crate::specs::Messages::stale_body, crate::specs::Numbers::version_above))]
fn put_stale_body(
    into: &mut Vec<u8>,
    id: &CallId,
    old: u32,
    new: u32,
    changes: &ChangeList,
) -> Result<(), OutOfMemory>
    requires { stale_body.Fits (id.now, (old, (new, changes.now))) }
    ensures { OnOk result (into.new.items ≡ into.old.items ++ stale_body.spell (id.now, (old, (new, changes.now)))) }
{
    put_id(into, id)?;
    put_u32(into, old)?;
    put_u32(into, new)?;
    put_changes(into, changes)?;
    Ok(())
}

#[tactic(auto, unfolding(crate::specs::Messages::opened_body))]
fn put_opened_body(into: &mut Vec<u8>, id: &CallId, dir: u64) -> Result<(), OutOfMemory>
    ensures { OnOk result (into.new.items ≡ into.old.items ++ opened_body.spell (id.now, dir)) }
{
    put_id(into, id)?;
    put_u64(into, dir)?;
    Ok(())
}

#[tactic(auto, unfolding(crate::specs::Messages::list_ask_body))]
fn put_list_ask_body(
    into: &mut Vec<u8>,
    id: &CallId,
    version: u32,
    dir: u64,
) -> Result<(), OutOfMemory>
    ensures { OnOk result (into.new.items ≡ into.old.items ++ list_ask_body.spell (id.now, (version, dir))) }
{
    put_id(into, id)?;
    put_u32(into, version)?;
    put_u64(into, dir)?;
    Ok(())
}

#[tactic(auto, unfolding(crate::specs::Messages::list_part_body, crate::specs::Numbers::node_field))]
fn put_list_part_body(
    into: &mut Vec<u8>,
    id: &CallId,
    node: u8,
    names: &NameList,
) -> Result<(), OutOfMemory>
    requires { list_part_body.Fits (id.now, (node, names.now)) }
    ensures { OnOk result (into.new.items ≡ into.old.items ++ list_part_body.spell (id.now, (node, names.now))) }
{
    put_id(into, id)?;
    put_u8(into, node)?;
    put_names(into, names)?;
    Ok(())
}

#[tactic(auto, unfolding(crate::specs::Messages::fetch_ask_body, crate::specs::Numbers::asker_field))]
fn put_fetch_ask_body(
    into: &mut Vec<u8>,
    asker: u8,
    number: u64,
    key: &Key,
) -> Result<(), OutOfMemory>
    ensures { OnOk result (into.new.items ≡ into.old.items ++ fetch_ask_body.spell (asker, (number, key.now))) }
{
    put_u8(into, asker)?;
    put_u64(into, number)?;
    put_key(into, key)?;
    Ok(())
}

#[tactic(auto, unfolding(crate::specs::Messages::fetch_got_body))]
fn put_fetch_got_body(
    into: &mut Vec<u8>,
    number: u64,
    key: &Key,
    found: &Found,
) -> Result<(), OutOfMemory>
    ensures { OnOk result (into.new.items ≡ into.old.items ++ fetch_got_body.spell (number, (key.now, found.now))) }
{
    put_u64(into, number)?;
    put_key(into, key)?;
    put_found(into, found)?;
    Ok(())
}

#[tactic(auto, unfolding(crate::specs::Messages::lock_body, crate::specs::Numbers::operation_field))]
fn put_lock_body(into: &mut Vec<u8>, op: u32, keys: &KeyList) -> Result<(), OutOfMemory>
    requires { lock_body.Fits (op, keys.now) }
    ensures { OnOk result (into.new.items ≡ into.old.items ++ lock_body.spell (op, keys.now)) }
{
    put_u32(into, op)?;
    put_keys(into, keys)?;
    Ok(())
}

#[tactic(auto, unfolding(crate::specs::Messages::locked_body, crate::specs::Numbers::operation_field, crate::specs::Numbers::node_field))]
fn put_locked_body(
    into: &mut Vec<u8>,
    op: u32,
    node: u8,
    rows: &UpdateList,
) -> Result<(), OutOfMemory>
    requires { locked_body.Fits (op, (node, rows.now)) }
    ensures { OnOk result (into.new.items ≡ into.old.items ++ locked_body.spell (op, (node, rows.now))) }
{
    put_u32(into, op)?;
    put_u8(into, node)?;
    put_updates(into, rows)?;
    Ok(())
}

#[tactic(auto, unfolding(crate::specs::Messages::count_body, crate::specs::Numbers::operation_field))]
fn put_count_body(into: &mut Vec<u8>, op: u32, dir: u64) -> Result<(), OutOfMemory>
    ensures { OnOk result (into.new.items ≡ into.old.items ++ count_body.spell (op, dir)) }
{
    put_u32(into, op)?;
    put_u64(into, dir)?;
    Ok(())
}

#[tactic(auto, unfolding(crate::specs::Messages::counted_body, crate::specs::Numbers::operation_field, crate::specs::Numbers::node_field))]
fn put_counted_body(into: &mut Vec<u8>, op: u32, node: u8, number: u64) -> Result<(), OutOfMemory>
    ensures { OnOk result (into.new.items ≡ into.old.items ++ counted_body.spell (op, (node, number))) }
{
    put_u32(into, op)?;
    put_u8(into, node)?;
    put_u64(into, number)?;
    Ok(())
}

#[tactic(auto, unfolding(crate::specs::Messages::commit_body, crate::specs::Numbers::operation_field))]
fn put_commit_body(into: &mut Vec<u8>, op: u32, updates: &UpdateList) -> Result<(), OutOfMemory>
    requires { commit_body.Fits (op, updates.now) }
    ensures { OnOk result (into.new.items ≡ into.old.items ++ commit_body.spell (op, updates.now)) }
{
    put_u32(into, op)?;
    put_updates(into, updates)?;
    Ok(())
}

#[tactic(auto, unfolding(crate::specs::Messages::done_body, crate::specs::Numbers::operation_field, crate::specs::Numbers::node_field))]
fn put_done_body(into: &mut Vec<u8>, op: u32, node: u8) -> Result<(), OutOfMemory>
    ensures { OnOk result (into.new.items ≡ into.old.items ++ done_body.spell (op, node)) }
{
    put_u32(into, op)?;
    put_u8(into, node)?;
    Ok(())
}

#[tactic(auto, unfolding(crate::specs::Messages::block_body, crate::specs::Numbers::operation_field))]
fn put_block_body(into: &mut Vec<u8>, op: u32, name: &Name) -> Result<(), OutOfMemory>
    ensures { OnOk result (into.new.items ≡ into.old.items ++ block_body.spell (op, name.now)) }
{
    put_u32(into, op)?;
    put_name(into, name)?;
    Ok(())
}

#[tactic(auto, unfolding(crate::specs::Messages::blocked_body, crate::specs::Numbers::operation_field, crate::specs::Numbers::node_field))]
fn put_blocked_body(
    into: &mut Vec<u8>,
    op: u32,
    node: u8,
    rows: &NamedRowList,
) -> Result<(), OutOfMemory>
    requires { blocked_body.Fits (op, (node, rows.now)) }
    ensures { OnOk result (into.new.items ≡ into.old.items ++ blocked_body.spell (op, (node, rows.now))) }
{
    put_u32(into, op)?;
    put_u8(into, node)?;
    put_rows(into, rows)?;
    Ok(())
}

#[tactic(auto, unfolding(crate::specs::Messages::install_body, crate::specs::Numbers::operation_field, crate::specs::Numbers::version_field))]
fn put_install_body(
    into: &mut Vec<u8>,
    op: u32,
    version: u32,
    rule: Rule,
    rows: &NamedRowList,
) -> Result<(), OutOfMemory>
    requires { install_body.Fits (op, (version, (rule, rows.now))) }
    ensures { OnOk result (into.new.items ≡ into.old.items ++ install_body.spell (op, (version, (rule, rows.now)))) }
{
    put_u32(into, op)?;
    put_u32(into, version)?;
    put_rule(into, rule)?;
    put_rows(into, rows)?;
    Ok(())
}

// The number of the message's kind.
#[tactic(auto, unfolding(crate::specs::Messages::kind_of))]
pub fn kind(message: &Message) -> u8
    ensures { result ≡ kind_of message.now }
{
    match message {
        Message::Call(_) => 1,
        Message::Reply { .. } => 2,
        Message::Stale { .. } => 3,
        Message::Opened { .. } => 4,
        Message::ListAsk { .. } => 5,
        Message::ListPart { .. } => 6,
        Message::FetchAsk { .. } => 7,
        Message::FetchGot { .. } => 8,
        Message::Lock { .. } => 9,
        Message::Locked { .. } => 10,
        Message::Count { .. } => 11,
        Message::Counted { .. } => 12,
        Message::Commit { .. } => 13,
        Message::Done { .. } => 14,
        Message::Block { .. } => 15,
        Message::Blocked { .. } => 16,
        Message::Install { .. } => 17,
        Message::Installed { .. } => 18,
    }
}

#[tactic(auto, unfolding(crate::specs::Messages::body_spelling, crate::specs::Messages::FieldsFit))]
pub fn put_body(into: &mut Vec<u8>, message: &Message) -> Result<(), OutOfMemory>
    requires { FieldsFit message.now }
    ensures { OnOk result (into.new.items ≡ into.old.items ++ body_spelling message.now) }
{
    match message {
        Message::Call(call) => put_call(into, call)?,
        Message::Reply { id, reply } => put_reply_body(into, id, reply)?,
        Message::Stale {
            id,
            old,
            new,
            changes,
        } => put_stale_body(into, id, *old, *new, changes)?,
        Message::Opened { id, dir } => put_opened_body(into, id, *dir)?,
        Message::ListAsk { id, version, dir } => put_list_ask_body(into, id, *version, *dir)?,
        Message::ListPart { id, node, names } => put_list_part_body(into, id, *node, names)?,
        Message::FetchAsk { asker, number, key } => put_fetch_ask_body(into, *asker, *number, key)?,
        Message::FetchGot { number, key, found } => put_fetch_got_body(into, *number, key, found)?,
        Message::Lock { op, keys } => put_lock_body(into, *op, keys)?,
        Message::Locked { op, node, rows } => put_locked_body(into, *op, *node, rows)?,
        Message::Count { op, dir } => put_count_body(into, *op, *dir)?,
        Message::Counted { op, node, number } => put_counted_body(into, *op, *node, *number)?,
        Message::Commit { op, updates } => put_commit_body(into, *op, updates)?,
        Message::Done { op, node } => put_done_body(into, *op, *node)?,
        Message::Block { op, name } => put_block_body(into, *op, name)?,
        Message::Blocked { op, node, rows } => put_blocked_body(into, *op, *node, rows)?,
        Message::Install {
            op,
            version,
            rule,
            rows,
        } => put_install_body(into, *op, *version, *rule, rows)?,
        Message::Installed { op, node } => put_done_body(into, *op, *node)?,
    }
    Ok(())
}
