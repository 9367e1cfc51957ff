//! A cluster under a scenario.

use crate::broken::Broken;
use crate::envelopes::{Wanted, taken};
use fal_alone::Cluster;
use fal_base::Event;
use std::alloc::Global;

/// No scenario has so many events.
const EVENTS: u32 = 100_000;

/// A record that is held back: what it is like, and its number once it was sent.
#[derive(Drop)]
struct Hold {
    wanted: Wanted,
    env: Option<u64>,
}

/// A cluster, with what is held back, how many entries were told, and what a block has still to say.
#[derive(Drop)]
pub struct Scene {
    pub alloc: Global,
    pub cluster: Cluster,
    holds: Vec<Hold>,
    pub entries: usize,
    pub block: Vec<Vec<u8>>,
    pub place: usize,
}

impl Scene {
    pub fn new(alloc: Global, cluster: Cluster) -> Scene {
        Scene {
            alloc,
            cluster,
            holds: Vec::new(alloc),
            entries: 0,
            block: Vec::new(alloc),
            place: 0,
        }
    }

    /// Lets the cluster go.
    pub fn discard(self) {
        let Scene {
            alloc: _,
            cluster,
            holds: _holds,
            entries: _,
            block: _block,
            place: _,
        } = self;
        let _book = cluster.into_book();
    }

    /// From now on the first such record waits.
    pub fn hold(&mut self, wanted: Wanted) -> Result<(), Broken> {
        self.holds.push(Hold { wanted, env: None })?;
        Ok(())
    }

    /// Nothing waits any longer.
    pub fn release(&mut self) {
        self.holds = Vec::new(self.alloc);
    }

    // Whether the envelope waits. The first one that a hold meets is the one that it holds.
    fn waits(&mut self, env: u64) -> bool {
        let Some(envelope) = self.cluster.book().sent().get(env as usize) else {
            return false;
        };
        for hold in self.holds.as_mut_slice() {
            if hold.env == Some(env) {
                return true;
            }
            if hold.env.is_none() && hold.wanted.fits(envelope) {
                hold.env = Some(env);
                return true;
            }
        }
        false
    }

    // The first fresh event that does not wait.
    fn next(&mut self, sends: bool) -> Result<Option<Event>, Broken> {
        for event in self.cluster.fresh()?.as_slice() {
            let waits = match taken(event) {
                Some(env) => self.waits(env),
                None => !sends && matches!(event, Event::Send { .. }),
            };
            if !waits {
                return Ok(Some(*event));
            }
        }
        Ok(None)
    }

    // All that is fresh happens, but for what waits.
    fn go_on(&mut self, sends: bool) -> Result<(), Broken> {
        for _ in 0..EVENTS {
            let Some(event) = self.next(sends)? else {
                return Ok(());
            };
            self.cluster.step(event)?;
        }
        Err(Broken::Restless)
    }

    /// All that is fresh happens, but for Sends and what waits.
    pub fn drain(&mut self) -> Result<(), Broken> {
        if self.holds.is_empty() {
            self.cluster.drain()?;
            return Ok(());
        }
        self.go_on(false)
    }

    /// All that is fresh happens, Sends too, but for what waits.
    pub fn finish(&mut self) -> Result<(), Broken> {
        self.go_on(true)
    }
}
