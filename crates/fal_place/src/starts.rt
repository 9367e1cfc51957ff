ghost use Rattle.std.specs.Prelude.{◌≡◌, ◌≤◌, ◌<◌, ◌^◌, length, IfOk};
ghost use Rattle.fal_place.specs.Starts.{slot_of as slot, start_of as start, AreStarts};

use crate::hash::name_hash;
use fal_base::{Name, OutOfMemory, RuleChange};
use std::alloc::Global;

// How many slots there are for the hashes of names.
const SLOTS: usize = 1024;

// The slot of a name's hash.
fn slot_of(name: &Name) -> usize
    ensures slot { result ≡ slot name.now }
    ensures there { result < 1024 }
{
    (name_hash(name.bytes()) % 1024) as usize
}

// The place from which on a name's rule is looked for.
pub(crate) fn start_of(starts: &[u16], name: &Name) -> usize
    ensures { result ≡ start starts.now name.now }
{
    if starts.is_empty() {
        return 0;
    }
    match starts.get(slot_of(name)) {
        None => 0,
        Some(place) => usize::from(*place),
    }
}

// For each slot the place of the first rule with a name of this slot, or the end.
fn first_places(alloc: Global, rules: &[RuleChange]) -> Result<Vec<u16>, OutOfMemory>
    requires { length rules.now < 2 ^ 16 }
    ensures { IfOk result (λ starts. AreStarts starts.items rules.now) }
{
    let mut place = rules.len();
    let mut starts = vec![in alloc; place as u16; SLOTS]?;
    while place > 0 {
        place -= 1;
        let slot = slot_of(&rules[place].name);
        starts[slot] = place as u16;
    }
    Ok(starts)
}

// Where the rules of names are looked for. Without memory for that there are none, and every rule is looked at.
pub(crate) fn starts_of(alloc: Global, rules: &[RuleChange]) -> Vec<u16>
    ensures { AreStarts result.items rules.now }
{
    if rules.len() > 65535 {
        return Vec::new(alloc);
    }
    match first_places(alloc, rules) {
        Ok(starts) => starts,
        Err(_) => Vec::new(alloc),
    }
}
