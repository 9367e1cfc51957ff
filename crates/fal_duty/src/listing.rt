ghost use Rattle.std.specs.Prelude.{◌≡◌, IfOk};
ghost use Rattle.fal_duty.specs.Duties.{part_of};

use fal_base::{CallId, NameList, OutOfMemory};
use fal_inode::Rows;
use fal_wire::Message;

/// A node's part of a listing: the names of its rows under the directory of this number, ascending by their bytes, with the number of
/// the node and the identity of the call that lists. Answers want of memory where there is too little.
pub fn part(rows: &Rows, me: u8, id: &CallId, dir: u64) -> Result<Message, OutOfMemory>
    ensures { IfOk result (λ message. message ≡ part_of rows.now.rows me id.now dir) }
{
    Ok(Message::ListPart {
        id: *id,
        node: me,
        names: NameList::from_items(rows.names(dir)?),
    })
}
