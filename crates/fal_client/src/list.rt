//! The names of a listing.

ghost use Rattle.std.specs.Prelude.{◌≡◌, ◌++◌, IfOk};
ghost use Rattle.fal_client.specs.Names.{sorted_names};
ghost use Rattle.fal_client.specs.Parts.{names_of};

use crate::parts::Parts;
use fal_base::{NameList, OutOfMemory};

// The names of the last part and of those that are there, sorted.
pub fn all_names(last: NameList, parts: &Parts) -> Result<NameList, OutOfMemory>
    ensures { IfOk result (λ names. names ≡ sorted_names (last ++ names_of parts.now)) }
{
    let mut names = last.into_items();
    parts.append_names(&mut names)?;
    names.sort()?;
    Ok(NameList::from_items(names))
}
