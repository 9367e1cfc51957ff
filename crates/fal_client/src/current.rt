ghost use Rattle.std.specs.Prelude.{◌≡◌};
ghost use Rattle.std.specs.Option.{option_map};
ghost use Rattle.fal_client.specs.Step.{first_try, with_part as with_part_of, joined};
ghost use Rattle.fal_client.specs.Patch.{with_parts as with_parts_of, tried_again, listing_begun};

use crate::parts::{Part, Parts};
use fal_base::Call;

/// A listing under way: the directory's number, the point at which it was opened, and the nodes' parts so far.
#[derive(Debug, Drop)]
pub struct Listing {
    pub dir: u64,
    pub opened: u64,
    pub parts: Parts,
}

/// The call under way, which attempt it is, from 1, and its listing once the directory is known.
#[derive(Debug, Drop)]
pub struct Current {
    pub call: Call,
    pub attempt: u32,
    pub listing: Option<Listing>,
}

// The call, in its first attempt.
pub fn begun(call: Option<Call>) -> Option<Current>
    ensures { result ≡ option_map first_try call }
{
    match call {
        None => None,
        Some(call) => Some(Current {
            call,
            attempt: 1,
            listing: None,
        }),
    }
}

// The listing, with these parts.
fn with_parts(listing: Option<Listing>, parts: Parts) -> Option<Listing>
    ensures { result ≡ option_map (with_parts_of parts) listing }
{
    match listing {
        None => None,
        Some(listing) => {
            let Listing {
                dir,
                opened,
                parts: _,
            } = listing;
            Some(Listing { dir, opened, parts })
        }
    }
}

// The call, in its next attempt.
pub fn again(current: Option<Current>, attempt: u32, parts: Parts) -> Option<Current>
    ensures { result ≡ option_map (tried_again attempt parts) current }
{
    match current {
        None => None,
        Some(current) => {
            let Current {
                call,
                attempt: _,
                listing,
            } = current;
            Some(Current {
                call,
                attempt,
                listing: with_parts(listing, parts),
            })
        }
    }
}

// The call, with its listing under way.
pub fn opened(current: Option<Current>, listing: Listing) -> Option<Current>
    ensures { result ≡ option_map (listing_begun listing) current }
{
    match current {
        None => None,
        Some(current) => {
            let Current {
                call,
                attempt,
                listing: _,
            } = current;
            Some(Current {
                call,
                attempt,
                listing: Some(listing),
            })
        }
    }
}

// The listing, with the node's part.
fn joined_to(listing: Option<Listing>, node: u8, part: Part) -> Option<Listing>
    ensures { result ≡ option_map (λ l. with_part_of l node part) listing }
{
    match listing {
        None => None,
        Some(listing) => {
            let Listing {
                dir,
                opened,
                mut parts,
            } = listing;
            parts.put(node, part);
            Some(Listing { dir, opened, parts })
        }
    }
}

// The call, with the node's part of its listing.
pub fn with_part(current: Option<Current>, node: u8, part: Part) -> Option<Current>
    ensures { result ≡ option_map (joined node part) current }
{
    match current {
        None => None,
        Some(current) => {
            let Current {
                call,
                attempt,
                listing,
            } = current;
            Some(Current {
                call,
                attempt,
                listing: joined_to(listing, node, part),
            })
        }
    }
}
