//! Scenarios, line by line.

use crate::broken::Broken;
use crate::commands::command;
use crate::entered::entered;
use crate::header::Header;
use crate::judge::judge;
use crate::scene::Scene;
use crate::words::words_of;
use std::alloc::{AllocError, Global};
use std::sync::Wait;
use std::test::Fail;

// A scenario under way: the scene is there from the first line after the header on.
#[derive(Drop)]
struct Reading {
    alloc: Global,
    header: Header,
    scene: Option<Scene>,
}

impl Reading {
    // Opens the scene, if it is not open.
    fn open(&mut self) -> Result<(), Broken> {
        if self.scene.is_none() {
            let cluster = self.header.cluster(self.alloc)?;
            self.scene.insert(Scene::new(self.alloc, cluster));
        }
        Ok(())
    }

    // Takes a line after the header.
    fn act(&mut self, words: &[&[u8]]) -> Result<(), Broken> {
        self.open()?;
        let Some(scene) = &mut self.scene else {
            return Err(Broken::Grammar);
        };
        scene.ends()?;
        command(scene, words)
    }

    // Takes a line of a block.
    fn reads(&mut self, line: &[u8]) -> Result<(), Broken> {
        let Some(scene) = &mut self.scene else {
            return Err(Broken::Grammar);
        };
        scene.reads(line)
    }

    // Takes any line.
    fn take(&mut self, line: &[u8]) -> Result<(), Broken> {
        match line {
            [] | [b'#', ..] => Ok(()),
            [b' ', b' ', line @ ..] => self.reads(line),
            _ => {
                let words = words_of(self.alloc, line)?;
                if self.scene.is_none() && self.header.take(self.alloc, &words)? {
                    return Ok(());
                }
                self.act(&words)
            }
        }
    }

    // Lets the cluster go.
    fn discard(self) {
        let Reading {
            alloc: _,
            header: _header,
            scene,
        } = self;
        if let Some(scene) = scene {
            scene.discard();
        }
    }

    // What holds at the end of every scenario.
    fn close<R: Wait>(&self, rt: &R) -> Result<(), Broken> {
        let Some(scene) = &self.scene else {
            return Err(Broken::Grammar);
        };
        scene.ends()?;
        judge(self.alloc, &scene.cluster)?;
        entered(rt, self.alloc, &scene.cluster)
    }
}

// Where a scenario does not hold, and why.
#[derive(Drop)]
struct Stop<'a> {
    at: usize,
    line: &'a [u8],
    broken: Broken,
}

fn fail(text: &str, stop: Stop<'_>) -> Fail {
    let Stop { at, line, broken } = stop;
    let line = str::from_utf8(line).unwrap_or("?");
    Fail::new(format_args!("{broken:?} at line {at}, `{line}`, of: {text}"))
}

// Takes all lines, and then what holds at the end.
fn read_all<'a, R: Wait>(rt: &R, reading: &mut Reading, text: &'a str) -> Result<(), Stop<'a>> {
    for (at, line) in text.as_bytes().split(|b| *b == b'\n').enumerate() {
        if let Err(broken) = reading.take(line) {
            return Err(Stop { at, line, broken });
        }
    }
    reading.close(rt).map_err(|broken| Stop {
        at: 0,
        line: b"end",
        broken,
    })
}

fn run<'a, R: Wait>(rt: &R, alloc: Global, text: &'a str) -> Result<(), Stop<'a>> {
    let mut reading = Reading {
        alloc,
        header: Header::new(alloc),
        scene: None,
    };
    let ended = read_all(rt, &mut reading, text);
    reading.discard();
    ended
}

/// Why the scenario does not hold, or `Holds`.
pub fn broken_by<R: Wait>(rt: &R, alloc: Global, text: &str) -> Result<String, AllocError> {
    match run(rt, alloc, text) {
        Ok(()) => String::from_str(alloc, "Holds"),
        Err(Stop { broken, .. }) => format!(in alloc; "{broken:?}"),
    }
}

/// Each of these scenarios holds.
pub fn run_all<R: Wait>(rt: &R, alloc: Global, texts: &[&str]) -> Result<(), Fail> {
    for text in texts {
        if let Err(stop) = run(rt, alloc, text) {
            return Err(fail(text, stop));
        }
    }
    Ok(())
}
