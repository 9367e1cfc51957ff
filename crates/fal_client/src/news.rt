ghost use Rattle.std.specs.Prelude.{◌≡◌};
ghost use Rattle.fal_client.specs.News.{news_of as news_of_message};

use fal_base::{CallId, NameList, Reply};
use fal_wire::{ChangeList, Message};

// What a client hears.
#[derive(Debug, Drop)]
pub enum News {
    Replied {
        reply: Reply,
    },
    Stale {
        old: u32,
        new: u32,
        changes: ChangeList,
    },
    Opened {
        dir: u64,
    },
    Part {
        node: u8,
        names: NameList,
    },
}

// What the message says to a client, and about which call; none for a kind that a client does not hear.
#[tactic(auto, unfolding(crate::specs::News::news_of))]
pub fn news_of(message: Message) -> Option<(CallId, News)>
    ensures { result ≡ news_of_message message }
{
    match message {
        Message::Reply { id, reply } => Some((id, News::Replied { reply })),
        Message::Stale {
            id,
            old,
            new,
            changes,
        } => Some((id, News::Stale { old, new, changes })),
        Message::Opened { id, dir } => Some((id, News::Opened { dir })),
        Message::ListPart { id, node, names } => Some((id, News::Part { node, names })),
        Message::Call(_) => None,
        Message::ListAsk { .. } => None,
        Message::FetchAsk { .. } => None,
        Message::FetchGot { .. } => None,
        Message::Lock { .. } => None,
        Message::Locked { .. } => None,
        Message::Count { .. } => None,
        Message::Counted { .. } => None,
        Message::Commit { .. } => None,
        Message::Done { .. } => None,
        Message::Block { .. } => None,
        Message::Blocked { .. } => None,
        Message::Install { .. } => None,
        Message::Installed { .. } => None,
    }
}
