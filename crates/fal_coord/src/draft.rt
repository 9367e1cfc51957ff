ghost use Rattle.std.specs.Prelude.{◌≡◌, []};

use crate::patch::Patch;
use fal_base::Note;
use fal_wire::Letter;
use std::alloc::Global;

/// What a step changes, sends and notes, before its messages are spelled.
#[derive(Debug, Drop)]
pub struct Draft {
    pub patch: Patch,
    pub letters: Vec<Letter>,
    pub notes: Vec<Note>,
}

// A draft that notes nothing.
pub(crate) fn draft_of(alloc: Global, patch: Patch, letters: Vec<Letter>) -> Draft
    ensures patch { result.patch ≡ patch }
    ensures letters { result.letters ≡ letters }
    ensures notes { result.notes.items ≡ [] }
{
    Draft {
        patch,
        letters,
        notes: Vec::new(alloc),
    }
}

// A draft that sends nothing.
pub(crate) fn quiet_draft(alloc: Global, patch: Patch) -> Draft
    ensures patch { result.patch ≡ patch }
    ensures letters { result.letters.items ≡ [] }
    ensures notes { result.notes.items ≡ [] }
{
    draft_of(alloc, patch, Vec::new(alloc))
}
