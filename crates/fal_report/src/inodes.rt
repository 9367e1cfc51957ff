ghost use Rattle.std.specs.Prelude.{◌≡◌, ◌++◌, OnOk};
ghost use Rattle.fal_report.specs.Inodes.{kind_text, mode_text, owner_text, inode_text};

use crate::bytes::{put, put_number};
use fal_base::{Inode, Kind, OutOfMemory};

fn kind_name(kind: Kind) -> &'static str
    ensures { result.now ≡ kind_text kind }
{
    match kind {
        Kind::File => "file",
        Kind::Dir => "dir",
    }
}

pub(crate) fn put_mode(out: &mut Vec<u8>, mode: u16) -> Result<(), OutOfMemory>
    ensures { OnOk result (out.new.items ≡ out.old.items ++ mode_text mode) }
{
    let digits = [
        48 + (mode / 64 % 8) as u8,
        48 + (mode / 8 % 8) as u8,
        48 + (mode % 8) as u8,
    ];
    put(out, &digits)?;
    Ok(())
}

pub(crate) fn put_owner(out: &mut Vec<u8>, uid: u32, gid: u32) -> Result<(), OutOfMemory>
    ensures { OnOk result (out.new.items ≡ out.old.items ++ owner_text uid gid) }
{
    put_number(out, u64::from(uid))?;
    put(out, b":")?;
    put_number(out, u64::from(gid))
}

pub(crate) fn put_inode(out: &mut Vec<u8>, inode: &Inode) -> Result<(), OutOfMemory>
    ensures { OnOk result (out.new.items ≡ out.old.items ++ inode_text inode.now) }
{
    let Inode {
        ino,
        kind,
        mode,
        uid,
        gid,
        size,
    } = *inode;
    put_number(out, ino)?;
    put(out, b" ")?;
    put(out, kind_name(kind).as_bytes())?;
    put(out, b" ")?;
    put_mode(out, mode)?;
    put(out, b" ")?;
    put_owner(out, uid, gid)?;
    put(out, b" ")?;
    put_number(out, size)
}
