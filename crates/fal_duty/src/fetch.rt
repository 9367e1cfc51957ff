ghost use Rattle.std.specs.Prelude.{◌≡◌, IfOk};
ghost use Rattle.std.specs.Option.{option_copied};
ghost use Rattle.fal_duty.specs.Duties.{found_of, fetched_of};

use fal_base::{Duplicate, Inode, Key, Kind, OutOfMemory};
use fal_inode::Rows;
use fal_wire::{Found, Message};
use std::alloc::Global;

// What a fetch is told of this row.
fn found(row: Option<&Inode>) -> Found
    ensures { result ≡ found_of (option_copied row.entry) }
{
    match row {
        None => Found::Nothing,
        Some(inode) => match inode.kind {
            Kind::Dir => Found::Dir(inode.dentry()),
            Kind::File => Found::File,
        },
    }
}

/// The answer to the fetch of this number: that nothing stands under the key, a file, or the directory that does, with what a replica
/// keeps of it. It is within the ranges of a record where key and row are. Answers want of memory where there is too little.
pub fn fetched(_alloc: Global, rows: &Rows, id: u64, key: &Key) -> Result<Message, OutOfMemory>
    ensures { IfOk result (λ message. message ≡ fetched_of rows.now.rows id key.now) }
{
    Ok(Message::FetchGot {
        number: id,
        key: key.copy()?,
        found: found(rows.get(key)),
    })
}
