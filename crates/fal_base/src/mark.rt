ghost use Rattle.std.specs.Prelude.{◌≡◌};
ghost use Rattle.std.specs.Ordering.{is_gt};
ghost use Rattle.fal_base.specs.Marks.{mark_cmp, mark_of, is_newer as newer};

use crate::call::CallId;

/// What grows from one call of a client to its next: the call's number, the attempt, and how often it was passed on.
#[derive(Clone, Copy, Debug)]
pub struct Mark {
    pub seq: u32,
    pub attempt: u32,
    pub hop: u32,
}

impl CallId {
    /// The mark of a call with this id.
    pub fn mark(&self) -> Mark
        ensures { result ≡ mark_of self.now }
    {
        Mark {
            seq: self.seq,
            attempt: self.attempt,
            hop: self.hop,
        }
    }
}

// Whether the mark is above the other one: by number, then by attempt, then by hop.
#[tactic(auto, unfolding(crate::specs::Marks::mark_cmp))]
fn is_above(mark: &Mark, other: &Mark) -> bool
    ensures { result ≡ is_gt (mark_cmp mark.now other.now) }
{
    mark.seq
        .cmp(&other.seq)
        .then(mark.attempt.cmp(&other.attempt))
        .then(mark.hop.cmp(&other.hop))
        .is_gt()
}

impl Mark {
    /// Whether the mark is above the last one of its client, by number, then by attempt, then by hop. A client's first mark is.
    pub fn is_newer(&self, last: Option<Mark>) -> bool
        ensures { result ≡ newer self.now last }
    {
        match last {
            None => true,
            Some(last) => is_above(self, &last),
        }
    }
}
