//! The lines before the first event: what cluster it is.

use crate::broken::Broken;
use crate::calls::call;
use crate::drawn::{drawn_by, source_of};
use crate::words::{is, number, small};
use fal_alone::Cluster;
use fal_script::{LineList, Script, ScriptCall, config_of};
use fal_story::may_run;
use std::alloc::Global;

/// What the header asks for.
#[derive(Drop)]
pub struct Header {
    script: Script,
    batch: u8,
}

impl Header {
    /// One node, one lane without a call, and batches of one call.
    pub fn new(alloc: Global) -> Header {
        Header {
            script: Script {
                nodes: 1,
                lanes: 1,
                lines: LineList::new(alloc),
            },
            batch: 1,
        }
    }

    /// Takes a line of the header. Answers whether it is one.
    pub fn take(&mut self, alloc: Global, words: &[&[u8]]) -> Result<bool, Broken> {
        match words {
            [word, count] if is(word, b"nodes") => self.script.nodes = small(count)?,
            [word, count] if is(word, b"lanes") => self.script.lanes = small(count)?,
            [word, count] if is(word, b"batch") => self.batch = small(count)?,
            [word, words @ ..] if is(word, b"call") => {
                let call = call(alloc, self.script.lanes, words)?;
                self.script.lines.push(call)?;
            }
            [word, count, from, seed] if is(word, b"calls") && is(from, b"from") => {
                self.draw(alloc, number(count)?, number(seed)?, false)?;
            }
            [word, count, from, seed] if is(word, b"listings") && is(from, b"from") => {
                self.draw(alloc, number(count)?, number(seed)?, true)?;
            }
            _ => return Ok(false),
        }
        Ok(true)
    }

    // So many random calls, on lane after lane, of which half may have to list.
    fn draw(&mut self, alloc: Global, count: u64, seed: u64, lists: bool) -> Result<(), Broken> {
        let mut source = source_of(seed);
        let mut lane = 0;
        for _ in 0..count {
            lane = if lane < self.script.lanes {
                lane + 1
            } else {
                1
            };
            let call = drawn_by(alloc, &mut source, lists)?;
            self.script.lines.push(ScriptCall { lane, call })?;
        }
        Ok(())
    }

    /// The cluster before its first event.
    pub fn cluster(&self, alloc: Global) -> Result<Cluster, Broken> {
        let config = config_of(alloc, &self.script, self.batch)?;
        if !may_run(&config) {
            return Err(Broken::MayNotRun);
        }
        Ok(Cluster::new(alloc, config)?)
    }
}
