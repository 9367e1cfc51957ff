//! What a block of lines has to say.

use crate::broken::Broken;
use crate::scene::Scene;
use fal_report::text_of;
use std::alloc::Global;

// So many lines of a text, after some that are left out.
fn cut(alloc: Global, text: &[u8], skipped: usize, count: usize) -> Result<Vec<Vec<u8>>, Broken> {
    let mut lines = Vec::new(alloc);
    for line in text.split(|b| *b == b'\n').skip(skipped).take(count) {
        lines.push(Vec::from_slice(alloc, line)?)?;
    }
    Ok(lines)
}

impl Scene {
    /// The entries since the last such block.
    pub fn tell_entries(&mut self) -> Result<(), Broken> {
        let book = self.cluster.book();
        let entries = book.transcript()?;
        let text = text_of(self.alloc, book.config(), &entries, &[])?;
        let told = self.entries;
        let count = entries.len().saturating_sub(told);
        self.block = cut(self.alloc, &text, told.saturating_add(3), count)?;
        self.place = 0;
        self.entries = entries.len();
        Ok(())
    }

    /// The rows.
    pub fn tell_rows(&mut self) -> Result<(), Broken> {
        let lines = self.cluster.lines()?;
        let text = text_of(self.alloc, self.cluster.book().config(), &[], &lines)?;
        self.block = cut(self.alloc, &text, 4, lines.len())?;
        self.place = 0;
        Ok(())
    }

    /// The block's next line is this one.
    pub fn reads(&mut self, line: &[u8]) -> Result<(), Broken> {
        let Some(found) = self.block.get(self.place) else {
            return Err(Broken::Ends);
        };
        if found.as_slice() != line {
            return Err(Broken::Reads(String::from_utf8_lossy(self.alloc, found)?));
        }
        self.place = self.place.saturating_add(1);
        Ok(())
    }

    /// The block has no further line.
    pub fn ends(&self) -> Result<(), Broken> {
        match self.block.get(self.place) {
            None => Ok(()),
            Some(found) => Err(Broken::Reads(String::from_utf8_lossy(self.alloc, found)?)),
        }
    }
}
