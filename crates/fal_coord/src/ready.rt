//! A step is made ready.

ghost use Rattle.std.specs.Prelude.{◌≡◌, ◌↔◌, IfOk, OnErr, IsErrOf, IsNone, IsSome, map};
ghost use Rattle.std.specs.List.{All};
ghost use Rattle.fal_base.specs.declared.refuse.Refuse.TheVariants as Refuse;
ghost use Rattle.fal_wire.specs.Messages.{Fits};
ghost use Rattle.fal_wire.specs.Letters.{output_of};
ghost use Rattle.fal_coord.specs.Ready.{DoesOf, HasRoom, IsStepFor};
ghost use Rattle.fal_coord.specs.Sound.{IsSound};
ghost use Rattle.fal_coord.specs.Step.{CanMake, coord_step};

use crate::begin::begin;
use crate::coord::Coord;
use crate::draft::Draft;
use crate::event::CoordEvent;
use crate::hear::hear;
use crate::patch::Prepared;
use fal_base::{Items, OutOfMemory, OutputList, Outputs, Refuse};
use fal_wire::{Letter, spelled};
use std::alloc::Global;

// Lets the draft go.
fn discard_draft(draft: Draft) {
    let _draft = draft;
}

// Lets the letters go.
fn discard_letters(letters: Vec<Letter>) {
    let _letters = letters;
}

// The draft, with its records.
fn prepared_of(alloc: Global, draft: Draft, sent: OutputList) -> Prepared
    ensures patch { result.patch ≡ draft.patch }
    ensures sent { result.outputs.sent ≡ sent }
    ensures notes { result.outputs.notes ≡ draft.notes.items }
{
    let Draft {
        patch,
        letters,
        notes,
    } = draft;
    discard_letters(letters);
    Prepared {
        alloc,
        patch,
        outputs: Outputs {
            sent,
            notes: Items::from_items(notes),
        },
    }
}

impl Coord {
    // What the event does, where it is enabled.
    fn draft(&self, event: &CoordEvent) -> Result<Option<Draft>, OutOfMemory>
        requires { CanMake self.now.state event.now }
        ensures does { IfOk result (λ draft. DoesOf self.now.state (coord_step self.now.state event.now) draft) }
        ensures err { OnErr result (IsSome (coord_step self.now.state event.now)) }
    {
        match event {
            CoordEvent::Hear(envelope) => hear(self, envelope),
            CoordEvent::Start => begin(self),
        }
    }

    // Makes room for the draft, and its records.
    fn records(&mut self, draft: &Draft) -> Result<OutputList, OutOfMemory>
        requires { All (λ letter. Fits letter.message) draft.now.letters.items }
        ensures state { self.new.state ≡ self.old.state }
        ensures room { IfOk result (λ sent. HasRoom self.new.room draft.now.patch) }
        ensures sound { IfOk result (λ sent. IsSound self.new.state.table self.new.state.waiting self.new.state.stage) }
        ensures sent { IfOk result (λ sent. sent ≡ map output_of draft.now.letters.items) }
    {
        self.make_room(&draft.patch)?;
        spelled(self.alloc, &draft.letters)
    }

    // Makes the draft ready.
    fn prepare(&mut self, draft: Draft) -> Result<Prepared, OutOfMemory>
        requires { All (λ letter. Fits letter.message) draft.letters.items }
        ensures state { self.new.state ≡ self.old.state }
        ensures room { IfOk result (λ prepared. HasRoom self.new.room draft.patch) }
        ensures sound { IfOk result (λ prepared. IsSound self.new.state.table self.new.state.waiting self.new.state.stage) }
        ensures patch { IfOk result (λ prepared. prepared.patch ≡ draft.patch) }
        ensures sent { IfOk result (λ prepared. prepared.outputs.sent ≡ map output_of draft.letters.items) }
        ensures notes { IfOk result (λ prepared. prepared.outputs.notes ≡ draft.notes.items) }
    {
        match self.records(&draft) {
            Ok(sent) => Ok(prepared_of(self.alloc, draft, sent)),
            Err(OutOfMemory) => {
                discard_draft(draft);
                Err(OutOfMemory)
            }
        }
    }

    /// Prepares the step of an event: all records and all growths. Nothing of the coordinator changes but its room. What the event makes has
    /// to be within the ranges of records and counters.
    ///
    /// Refused with `NotEnabled` exactly where the event may not happen now: an envelope that was sent to another actor, a Start while an
    /// operation is under way or no call waits; and with `OutOfMemory`.
    #[tactic(auto, using(crate::proofs::Drafts::step_for, crate::proofs::Drafts::enabled, crate::proofs::Drafts::not_enabled, crate::proofs::Drafts::some_enabled))]
    pub fn ready(&mut self, event: &CoordEvent) -> Result<Prepared, Refuse>
        requires { CanMake self.old.state event.now }
        ensures same { self.new.state ≡ self.old.state }
        ensures ok { IfOk result (λ prepared. IsStepFor self.new event.now prepared) }
        ensures refused { IsErrOf result Refuse.NotEnabled ↔ IsNone (coord_step self.old.state event.now) }
    {
        match self.draft(event) {
            Ok(None) => Err(Refuse::NotEnabled),
            Err(OutOfMemory) => Err(Refuse::OutOfMemory),
            Ok(Some(draft)) => match self.prepare(draft) {
                Ok(prepared) => Ok(prepared),
                Err(OutOfMemory) => Err(Refuse::OutOfMemory),
            },
        }
    }
}
