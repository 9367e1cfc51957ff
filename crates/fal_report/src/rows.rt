ghost use Rattle.std.specs.Prelude.{◌≡◌, ◌++◌, OnOk};
ghost use Rattle.std.specs.List.{flat_map};
ghost use Rattle.fal_report.specs.Rows.{name_text, row_text, tree_text};

use crate::bytes::{put, put_escaped, put_number};
use crate::counts::put_count;
use crate::inodes::put_inode;
use fal_base::{Name, OutOfMemory, TreeLine};

fn put_name(out: &mut Vec<u8>, name: &Name) -> Result<(), OutOfMemory>
    ensures { OnOk result (out.new.items ≡ out.old.items ++ name_text name.now) }
{
    let bytes = name.bytes();
    if bytes.is_empty() {
        put(out, b"/")?;
        return Ok(());
    }
    put_escaped(out, bytes)?;
    Ok(())
}

fn put_row(out: &mut Vec<u8>, row: &TreeLine) -> Result<(), OutOfMemory>
    ensures { OnOk result (out.new.items ≡ out.old.items ++ row_text row.now) }
{
    let parent = row.key.parent;
    put_number(out, parent)?;
    put(out, b" ")?;
    put_name(out, &row.key.name)?;
    put(out, b" ")?;
    put_inode(out, &row.inode)?;
    put(out, b"\n")?;
    Ok(())
}

fn put_rows(out: &mut Vec<u8>, rows: &[TreeLine]) -> Result<(), OutOfMemory>
    ensures { OnOk result (out.new.items ≡ out.old.items ++ flat_map row_text rows.now) }
{
    for row in rows {
        put_row(out, row)?;
    }
    Ok(())
}

pub(crate) fn put_tree(out: &mut Vec<u8>, rows: &[TreeLine]) -> Result<(), OutOfMemory>
    ensures { OnOk result (out.new.items ≡ out.old.items ++ tree_text rows.now) }
{
    put_count(out, b"tree", rows.len() as u64)?;
    put_rows(out, rows)?;
    Ok(())
}
