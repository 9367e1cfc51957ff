ghost use Rattle.std.specs.Prelude.{◌≡◌, IfOk};
ghost use Rattle.fal_duty.specs.Duties.{owned, rows_of as rows_at_node, locked_of, count_told, blocked_of};

use fal_base::{Duplicate, Key, Name, OutOfMemory, Update};
use fal_inode::Rows;
use fal_place::Table;
use fal_wire::{Message, NamedRowList, UpdateList};
use std::alloc::Global;

// What stands under those of the keys that live at this node, in the order of the keys.
fn rows_of(
    alloc: Global,
    rows: &Rows,
    table: &Table,
    me: u8,
    keys: &[Key],
) -> Result<Vec<Update>, OutOfMemory>
    ensures { IfOk result (λ told. told.items ≡ rows_at_node table.now rows.now.rows me keys.now) }
{
    let mut told = Vec::new(alloc);
    let mut rest = keys;
    while let Some((key, others)) = rest.split_first() {
        if table.owner(key) == me {
            told.push(Update {
                key: key.copy()?,
                row: rows.get(key).copied(),
            })?;
        }
        rest = others;
    }
    Ok(told)
}

/// The answer of node `me` to an operation that has shut the keys here: what stands under each key that lives at this node, a row or
/// nothing. Answers want of memory where there is too little.
pub fn locked(
    alloc: Global,
    rows: &Rows,
    table: &Table,
    me: u8,
    op: u32,
    keys: &[Key],
) -> Result<Message, OutOfMemory>
    ensures { IfOk result (λ message. message ≡ locked_of table.now rows.now.rows me op keys.now) }
{
    let told = rows_of(alloc, rows, table, me, keys)?;
    Ok(Message::Locked {
        op,
        node: me,
        rows: UpdateList::from_items(told),
    })
}

/// The answer of node `me` to an operation that moves the rows of a name: those that this node has, under whatever directories. Answers
/// want of memory where there is too little.
pub fn blocked(
    _alloc: Global,
    rows: &Rows,
    me: u8,
    op: u32,
    name: &Name,
) -> Result<Message, OutOfMemory>
    ensures { IfOk result (λ message. message ≡ blocked_of rows.now.rows me op name.now) }
{
    let named = rows.rows_of(name)?;
    Ok(Message::Blocked {
        op,
        node: me,
        rows: NamedRowList::from_items(named),
    })
}

/// The answer of node `me` to how many rows stand under the directory of this number: those that it has. Takes no memory.
pub fn counted(rows: &Rows, me: u8, op: u32, dir: u64) -> Message
    ensures { result ≡ count_told rows.now.rows me op dir }
{
    Message::Counted {
        op,
        node: me,
        number: rows.children(dir),
    }
}

/// Those of the updates whose keys live at node `me`, in their order: the ones that it lays on its rows. Answers want of memory where
/// there is too little.
pub fn mine(
    alloc: Global,
    table: &Table,
    me: u8,
    updates: &[Update],
) -> Result<Vec<Update>, OutOfMemory>
    ensures { IfOk result (λ mine. mine.items ≡ owned table.now me updates.now) }
{
    let mut mine = Vec::new(alloc);
    let mut rest = updates;
    while let Some((update, others)) = rest.split_first() {
        if table.owner(&update.key) == me {
            mine.push(update.copy()?)?;
        }
        rest = others;
    }
    Ok(mine)
}
