ghost use Rattle.std.specs.Prelude.{◌≡◌, ◌++◌, Some, IfOk, OnOk, slice_set};
ghost use Rattle.fal_client.specs.Parts.{no_parts, is_missing as is_missing_of, missing_count as missing_count_of, names_at, names_of, greater_point as greater_point_of, greatest_point as greatest_point_of};

use fal_base::{Duplicate, Name, NameList, OutOfMemory};
use std::alloc::Global;
use std::marker::Model;

/// One node's part of a listing: its names, and the point at which it gave them.
#[derive(Debug, Drop)]
pub struct Part {
    pub point: u64,
    pub names: NameList,
}

/// The parts of a listing, one place for each node in node order.
#[derive(Debug, Drop)]
pub struct Parts {
    places: Vec<Option<Part>>,
}

impl Model for Parts {
    ghost use Rattle.std.specs.Prelude.{List, Option};
    ghost use Rattle.fal_client.specs.declared.parts.Part.{Part};

    ghost Value = { List (Option Part) };

    ghost view = { λ p. p.places.items };
}

impl Parts {
    // The places of so many nodes, with no part.
    pub fn none(alloc: Global, nodes: u8) -> Result<Parts, OutOfMemory>
        ensures { IfOk result (λ parts. parts ≡ no_parts nodes) }
    {
        let mut places = Vec::with_capacity(alloc, usize::from(nodes))?;
        for _node in 0..nodes {
            places.push(None)?;
        }
        Ok(Parts { places })
    }

    // Whether there is such a node, and its part is not there.
    pub fn is_missing(&self, node: u8) -> bool
        ensures { result ≡ is_missing_of self.now node }
    {
        match self.places.get(usize::from(node)) {
            Some(None) => true,
            Some(Some(_)) | None => false,
        }
    }

    // How many parts are not there.
    pub fn missing_count(&self) -> usize
        ensures { result ≡ missing_count_of self.now }
    {
        self.places.iter().filter(|place| place.is_none()).count()
    }

    // Puts a node's part in its place. A node that is not there changes nothing.
    pub fn put(&mut self, node: u8, part: Part)
        ensures { self.new ≡ slice_set self.old node (Some part) }
    {
        let at = usize::from(node);
        if at < self.places.len() {
            self.places[at] = Some(part);
        }
    }

    // The greatest of a point and those of the parts that are there.
    pub fn greatest_point(&self, point: u64) -> u64
        ensures { result ≡ greatest_point_of point self.now }
    {
        let mut greatest = point;
        for place in &self.places {
            greatest = greater_point(greatest, place);
        }
        greatest
    }
}

impl Parts {
    // Appends copies of the names of the parts that are there.
    pub fn append_names(&self, names: &mut Vec<Name>) -> Result<(), OutOfMemory>
        ensures { OnOk result (names.new.items ≡ names.old.items ++ names_of self.now) }
    {
        for place in &self.places {
            append_names_at(names, place)?;
        }
        Ok(())
    }
}

fn append_names_at(names: &mut Vec<Name>, place: &Option<Part>) -> Result<(), OutOfMemory>
    ensures { OnOk result (names.new.items ≡ names.old.items ++ names_at place.now) }
{
    match place {
        None => Ok(()),
        Some(part) => {
            append_copies(names, part.names.as_slice())?;
            Ok(())
        }
    }
}

fn append_copies(names: &mut Vec<Name>, more: &[Name]) -> Result<(), OutOfMemory>
    ensures { OnOk result (names.new.items ≡ names.old.items ++ more.now) }
{
    for name in more {
        names.push(name.copy()?)?;
    }
    Ok(())
}

// The greater of a point and that of a part.
fn greater_point(point: u64, place: &Option<Part>) -> u64
    ensures { result ≡ greater_point_of point place.now }
{
    match place {
        None => point,
        Some(part) => point.max(part.point),
    }
}
