//! What a call is answered.

ghost use Rattle.std.specs.Prelude.{◌≡◌, ◌++◌, OnOk};
ghost use Rattle.fal_wire.specs.Gives.{Gives};
ghost use Rattle.fal_wire.specs.Rows.{errno_layout, errno_field, reply_field};

use crate::fault::Stop;
use crate::number::{bad_value, put_u8, read_u8};
use crate::row::{put_inode, read_inode};
use fal_base::{Errno, OutOfMemory, Reply};

#[tactic(auto, unfolding(crate::specs::Rows::errno_field))]
fn read_errno(end: usize, bytes: &[u8]) -> Result<(Errno, &[u8]), Stop>
    ensures { Gives (λ x. (x.0, x.1.now)) result (errno_field.read end bytes.now) }
{
    let (tag, rest) = read_u8(end, bytes)?;
    match tag {
        1 => Ok((Errno::Eacces, rest)),
        2 => Ok((Errno::Ebusy, rest)),
        3 => Ok((Errno::Eexist, rest)),
        4 => Ok((Errno::Einval, rest)),
        5 => Ok((Errno::Eisdir, rest)),
        6 => Ok((Errno::Enametoolong, rest)),
        7 => Ok((Errno::Enoent, rest)),
        8 => Ok((Errno::Enospc, rest)),
        9 => Ok((Errno::Enotdir, rest)),
        10 => Ok((Errno::Enotempty, rest)),
        11 => Ok((Errno::Eperm, rest)),
        _ => Err(bad_value(end, bytes)),
    }
}

#[tactic(auto, unfolding(crate::specs::Rows::reply_field))]
pub fn read_reply(end: usize, bytes: &[u8]) -> Result<(Reply, &[u8]), Stop>
    ensures { Gives (λ x. (x.0, x.1.now)) result (reply_field.read end bytes.now) }
{
    let (tag, rest) = read_u8(end, bytes)?;
    match tag {
        0 => Ok((Reply::Fine, rest)),
        1 => {
            let (errno, rest) = read_errno(end, rest)?;
            Ok((Reply::Fail(errno), rest))
        }
        2 => {
            let (inode, rest) = read_inode(end, rest)?;
            Ok((Reply::Stat(inode), rest))
        }
        _ => Err(bad_value(end, bytes)),
    }
}

// An errno's number.
fn errno_tag(errno: Errno) -> u8
    ensures { result ≡ (errno_layout errno).tag }
{
    match errno {
        Errno::Eacces => 1,
        Errno::Ebusy => 2,
        Errno::Eexist => 3,
        Errno::Einval => 4,
        Errno::Eisdir => 5,
        Errno::Enametoolong => 6,
        Errno::Enoent => 7,
        Errno::Enospc => 8,
        Errno::Enotdir => 9,
        Errno::Enotempty => 10,
        Errno::Eperm => 11,
    }
}

fn put_errno(into: &mut Vec<u8>, errno: Errno) -> Result<(), OutOfMemory>
    ensures { OnOk result (into.new.items ≡ into.old.items ++ errno_field.spell errno) }
{
    put_u8(into, errno_tag(errno))?;
    Ok(())
}

#[tactic(auto, unfolding(crate::specs::Rows::reply_field))]
pub fn put_reply(into: &mut Vec<u8>, reply: &Reply) -> Result<(), OutOfMemory>
    ensures { OnOk result (into.new.items ≡ into.old.items ++ reply_field.spell reply.now) }
{
    match reply {
        Reply::Fine => put_u8(into, 0)?,
        Reply::Fail(errno) => {
            put_u8(into, 1)?;
            put_errno(into, *errno)?;
        }
        Reply::Stat(inode) => {
            put_u8(into, 2)?;
            put_inode(into, inode)?;
        }
        // No record holds names: this has no spelling that is read again.
        Reply::Names(_) => put_u8(into, 3)?,
    }
    Ok(())
}
