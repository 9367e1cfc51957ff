ghost use Rattle.std.specs.Prelude.{◌≡◌, ◌≤◌, is_some};
ghost use Rattle.fal_coord.specs.declared.event.CoordEvent.TheVariants as CoordEvent;
ghost use Rattle.fal_coord.specs.State.{opening_coord, is_quiet, is_idle as is_idle_stage};
ghost use Rattle.fal_coord.specs.Step.{coord_step};

use crate::current::Current;
use crate::stage::Stage;
use fal_base::{CallRec, Mark};
use fal_dentry::Replica;
use fal_place::Table;
use std::alloc::Global;
use std::marker::Model;

/// The coordinator of a cluster, with room for some more directories and calls than it has. It carries out chmod and chown of directories,
/// rmdir, rename and place, one after the other.
#[derive(Debug, Drop)]
pub struct Coord {
    pub(crate) alloc: Global,
    pub(crate) table: Table,
    pub(crate) replica: Replica,
    pub(crate) waiting: Vec<CallRec>,
    pub(crate) last: Vec<(u8, Mark)>,
    pub(crate) operation: u32,
    pub(crate) asked: u64,
    pub(crate) stage: Current,
}

impl Model for Coord {
    ghost use Rattle.std.specs.Prelude.{◌-◌, vec_len, vec_capacity};
    ghost use Rattle.fal_coord.specs.Patch.{SeenCoord};
    ghost use Rattle.fal_coord.specs.Sound.{IsSound};

    ghost Value = { SeenCoord };

    ghost view = { λ c. record {
      state = record {
        table = c.table;
        replica = c.replica.entries;
        waiting = c.waiting.items;
        last = c.last.items;
        operation = c.operation;
        asked = c.asked;
        stage = c.stage;
      };
      room = record {
        replica = c.replica.spare;
        waiting = vec_capacity c.waiting - vec_len c.waiting;
        last = vec_capacity c.last - vec_len c.last;
      };
    } };

    ghost invariant = { λ c. IsSound c.table c.waiting.items c.stage };
}

// Whether no operation is under way.
fn is_idle(stage: &Stage) -> bool
    ensures { result ≡ is_idle_stage stage.now }
{
    match stage {
        Stage::Idle => true,
        _ => false,
    }
}

impl Coord {
    /// The coordinator of a cluster with 1 to 16 nodes, before its first event. Takes no memory.
    #[tactic(auto, unfolding(crate::specs::State::opening_coord))]
    pub fn new(alloc: Global, nodes: u8) -> Coord
        requires some { 1 ≤ nodes }
        requires few { nodes ≤ 16 }
        ensures { result.state ≡ opening_coord nodes }
    {
        Coord {
            alloc,
            table: Table::new(alloc, nodes),
            replica: Replica::new(alloc),
            waiting: Vec::new(alloc),
            last: Vec::new(alloc),
            operation: 0,
            asked: 0,
            stage: Current::idle(),
        }
    }

    /// Lets the coordinator go. Who keeps one does not see its stage so.
    pub fn discard(self) {
        let Coord {
            alloc: _,
            table: _table,
            replica: _replica,
            waiting: _waiting,
            last: _last,
            operation: _,
            asked: _,
            stage,
        } = self;
        stage.discard();
    }

    /// Where keys live, as the coordinator knows. Takes no memory.
    pub fn table(&self) -> &Table
        ensures { result.now ≡ self.now.state.table }
    {
        &self.table
    }

    /// Whether Start is enabled. Takes no memory.
    #[tactic(auto, unfolding(crate::specs::Step::coord_step))]
    pub fn can_start(&self) -> bool
        ensures { result ≡ is_some (coord_step self.now.state CoordEvent.Start) }
    {
        match self.stage.stage() {
            Stage::Idle => !self.waiting.is_empty(),
            _ => false,
        }
    }

    /// Whether no call waits and no operation is under way. Takes no memory.
    pub fn quiet(&self) -> bool
        ensures { result ≡ is_quiet self.now.state }
    {
        self.waiting.is_empty() && is_idle(self.stage.stage())
    }
}
