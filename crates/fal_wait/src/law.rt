//! The law of pending fetches.

ghost use Rattle.fal_wait.specs.Waiting.{WaitList, IsNumbered};
ghost use Rattle.fal_wait.specs.Doings.{IsPendingUntilEnded};

/// `settle` gives exactly the waiters that `open_fetch` was given, whatever is done between the two, and None after `cancel_all` or an
/// earlier `settle` of the same number: no number is given twice.
pub fn fetches_settle_as_opened()
    ensures { (list : WaitList) → IsNumbered list → IsPendingUntilEnded list }
{}
