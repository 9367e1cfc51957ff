ghost use Rattle.std.specs.Prelude.{◌≡◌, ◌≤◌, ◌∷◌, length, IfOk, IsTrue};
ghost use Rattle.std.specs.Fmt.{decimal};
ghost use Rattle.fal_base.specs.Names.{is_name};
ghost use Rattle.fal_gen.specs.Calls.{file_name as file_name_of, lane_path as lane_path_of, dir_path as dir_path_of, file_path as file_path_of};

use fal_base::{Name, NameList, OutOfMemory, Path, PathArg};
use std::alloc::Global;
use std::io::Write;

// The name of a letter and a number.
fn numbered(alloc: Global, letter: u8, number: u32) -> Result<Name, OutOfMemory>
    ensures name { IfOk result (λ name. name ≡ letter ∷ decimal number) }
    ensures good { IfOk result (λ name. IsTrue (is_name name)) }
    ensures short { IfOk result (λ name. length name ≤ 255) }
{
    let mut bytes = Vec::new(alloc);
    bytes.push(letter)?;
    write!(bytes, "{number}").map_err(|_| OutOfMemory)?;
    Name::read(alloc, &bytes).map_err(|_| OutOfMemory)
}

/// The name of a file.
pub fn file_name(alloc: Global, file: u32) -> Result<Name, OutOfMemory>
    ensures { IfOk result (λ name. name ≡ file_name_of file) }
{
    numbered(alloc, b'f', file)
}

/// The directory of a lane.
#[tactic(auto, unfolding(crate::specs::Calls::lane_path))]
pub fn lane_path(alloc: Global, lane: u8) -> Result<PathArg, OutOfMemory>
    ensures { IfOk result (λ path. path ≡ lane_path_of lane) }
{
    let mut names = NameList::new(alloc);
    names.push(numbered(alloc, b'l', u32::from(lane))?)?;
    Ok(PathArg::Good(Path::from_names(names)))
}

/// A directory in that of a lane.
#[tactic(auto, unfolding(crate::specs::Calls::dir_path))]
pub fn dir_path(alloc: Global, lane: u8, dir: u32) -> Result<PathArg, OutOfMemory>
    ensures { IfOk result (λ path. path ≡ dir_path_of lane dir) }
{
    let mut names = NameList::new(alloc);
    names.push(numbered(alloc, b'l', u32::from(lane))?)?;
    names.push(numbered(alloc, b'd', dir)?)?;
    Ok(PathArg::Good(Path::from_names(names)))
}

/// A file in such a directory.
#[tactic(auto, unfolding(crate::specs::Calls::file_path))]
pub fn file_path(alloc: Global, lane: u8, dir: u32, file: u32) -> Result<PathArg, OutOfMemory>
    ensures { IfOk result (λ path. path ≡ file_path_of lane dir file) }
{
    let mut names = NameList::new(alloc);
    names.push(numbered(alloc, b'l', u32::from(lane))?)?;
    names.push(numbered(alloc, b'd', dir)?)?;
    names.push(numbered(alloc, b'f', file)?)?;
    Ok(PathArg::Good(Path::from_names(names)))
}
