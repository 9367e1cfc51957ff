ghost use Rattle.std.specs.Prelude.{◌≡◌, [], ◌∷◌, IfOk};

use crate::patch::Patch;
use fal_base::{Note, OutOfMemory};
use fal_wire::Letter;
use std::alloc::Global;

/// What a step changes, sends and notes, before its messages are spelled.
#[derive(Debug, Drop)]
pub struct Draft {
    pub patch: Patch,
    pub letters: Vec<Letter>,
    pub notes: Vec<Note>,
}

// A draft that sends nothing.
pub(crate) fn quiet_draft(alloc: Global, patch: Patch) -> Draft
    ensures patch { result.patch ≡ patch }
    ensures letters { result.letters.items ≡ [] }
    ensures notes { result.notes.items ≡ [] }
{
    Draft {
        patch,
        letters: Vec::new(alloc),
        notes: Vec::new(alloc),
    }
}

// The letter alone.
pub(crate) fn letters_of_one(alloc: Global, letter: Letter) -> Result<Vec<Letter>, OutOfMemory>
    ensures { IfOk result (λ letters. letters.items ≡ letter ∷ []) }
{
    let mut letters = Vec::new(alloc);
    letters.push(letter)?;
    Ok(letters)
}

// A draft that sends these letters.
pub(crate) fn sending_draft(alloc: Global, patch: Patch, letters: Vec<Letter>) -> Draft
    ensures patch { result.patch ≡ patch }
    ensures letters { result.letters.items ≡ letters.items }
    ensures notes { result.notes.items ≡ [] }
{
    Draft {
        patch,
        letters,
        notes: Vec::new(alloc),
    }
}
