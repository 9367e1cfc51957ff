//! A step is made ready.

ghost use Rattle.std.specs.Prelude.{◌≡◌, ◌↔◌, IfOk, OnErr, IsErrOf, IsNone, IsSome, map};
ghost use Rattle.std.specs.List.{All};
ghost use Rattle.std.specs.Option.{ForSome};
ghost use Rattle.fal_base.specs.declared.refuse.Refuse.TheVariants as Refuse;
ghost use Rattle.fal_wire.specs.Messages.{Fits};
ghost use Rattle.fal_wire.specs.Letters.{output_of};
ghost use Rattle.fal_node.specs.Step.{node_step, StaysWithin};
ghost use Rattle.fal_node.specs.Ready.{DoesOf, CanDraft, HasRoom, IsStepFor};

use crate::deliver::deliver;
use crate::draft::Draft;
use crate::event::NodeEvent;
use crate::exec::execute;
use crate::gather::draft_gather;
use crate::node::Node;
use crate::patch::Prepared;
use crate::serve::{release, serve};
use fal_base::{Items, OutOfMemory, OutputList, Outputs, Refuse};
use fal_wire::{Letter, spelled};
use std::alloc::Global;

// Lets the draft go.
fn discard_draft(draft: Draft) {
    let _draft = draft;
}

// Lets the letters go.
fn discard_letters(letters: Vec<Letter>) {
    let _letters = letters;
}

// The draft, with its records.
fn prepared_of(alloc: Global, draft: Draft, sent: OutputList) -> Prepared
    ensures patch { result.patch ≡ draft.patch }
    ensures sent { result.outputs.sent ≡ sent }
    ensures notes { result.outputs.notes ≡ draft.notes.items }
{
    let Draft {
        patch,
        letters,
        notes,
    } = draft;
    discard_letters(letters);
    Prepared {
        alloc,
        patch,
        outputs: Outputs {
            sent,
            notes: Items::from_items(notes),
        },
    }
}

impl Node {
    // What the event does, where it is enabled.
    #[tactic(auto, unfolding(crate::specs::Step::node_step))]
    fn draft(&self, event: &NodeEvent) -> Result<Option<Draft>, OutOfMemory>
        requires { StaysWithin self.now.state event.now }
        ensures does { IfOk result (λ draft. DoesOf self.now.state (node_step self.now.state event.now) draft) }
        ensures can { IfOk result (λ draft. ForSome draft (λ d. CanDraft self.now.state d.patch)) }
        ensures err { OnErr result (IsSome (node_step self.now.state event.now)) }
    {
        match event {
            NodeEvent::Deliver(envelope) => deliver(self, envelope),
            NodeEvent::Gather => draft_gather(self),
            NodeEvent::Exec(batch) => execute(self, *batch),
            NodeEvent::Release(batch) => Ok(release(self, *batch)),
            NodeEvent::Serve(item) => serve(self, *item),
        }
    }

    // Makes room for the draft, and its records.
    fn records(&mut self, draft: &Draft) -> Result<OutputList, OutOfMemory>
        requires { All (λ letter. Fits letter.message) draft.now.letters.items }
        ensures state { self.new.state ≡ self.old.state }
        ensures room { IfOk result (λ sent. HasRoom self.new.room draft.now.patch) }
        ensures sent { IfOk result (λ sent. sent ≡ map output_of draft.now.letters.items) }
    {
        self.make_room(&draft.patch)?;
        spelled(self.alloc, &draft.letters)
    }

    // Makes the draft ready.
    fn prepare(&mut self, draft: Draft) -> Result<Prepared, OutOfMemory>
        requires { All (λ letter. Fits letter.message) draft.letters.items }
        ensures state { self.new.state ≡ self.old.state }
        ensures room { IfOk result (λ prepared. HasRoom self.new.room draft.patch) }
        ensures patch { IfOk result (λ prepared. prepared.patch ≡ draft.patch) }
        ensures sent { IfOk result (λ prepared. prepared.outputs.sent ≡ map output_of draft.letters.items) }
        ensures notes { IfOk result (λ prepared. prepared.outputs.notes ≡ draft.notes.items) }
    {
        match self.records(&draft) {
            Ok(sent) => Ok(prepared_of(self.alloc, draft, sent)),
            Err(OutOfMemory) => {
                discard_draft(draft);
                Err(OutOfMemory)
            }
        }
    }

    /// Prepares the step of an event: all records and all growths. Nothing of the node changes but its room. What the event makes has to
    /// be within the ranges of records and counters.
    ///
    /// Refused with `NotEnabled` exactly where the event may not happen now: an envelope that was sent to another actor, a Gather where
    /// each free call is skipped, an Exec of a batch that is not there or is executed, a Release of one that is not there or not
    /// executed, a Serve of an item that is not there or whose condition does not hold; and with `OutOfMemory`.
    #[tactic(auto, using(crate::proofs::Drafts::step_for, crate::proofs::Drafts::enabled, crate::proofs::Drafts::not_enabled, crate::proofs::Drafts::some_enabled))]
    pub fn ready(&mut self, event: &NodeEvent) -> Result<Prepared, Refuse>
        requires { StaysWithin self.old.state event.now }
        ensures same { self.new.state ≡ self.old.state }
        ensures ok { IfOk result (λ prepared. IsStepFor self.new event.now prepared) }
        ensures refused { IsErrOf result Refuse.NotEnabled ↔ IsNone (node_step self.old.state event.now) }
    {
        match self.draft(event) {
            Ok(None) => Err(Refuse::NotEnabled),
            Err(OutOfMemory) => Err(Refuse::OutOfMemory),
            Ok(Some(draft)) => match self.prepare(draft) {
                Ok(prepared) => Ok(prepared),
                Err(OutOfMemory) => Err(Refuse::OutOfMemory),
            },
        }
    }
}
