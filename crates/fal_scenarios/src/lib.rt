//! Scenarios: texts that say in which order a cluster's events happen, and what it then records. One interpreter reads them all. It
//! stands in a crate of its own, since a crate with tests is proved twice.
//!
//! A line is empty, a comment after `#`, or words with one space between two of them. The first lines say what cluster it is:
//!
//! | Line | Means |
//! |---|---|
//! | `nodes N`, `lanes N`, `batch N` | how many nodes, lanes, and calls in a batch; 1 where there is no such line |
//! | `call LANE UID:GID OPERATION ARGUMENTS` | a lane's next call, as in a script, of any operation |
//! | `calls COUNT from SEED`, `listings COUNT from SEED` | random calls, on lane after lane; of `listings` half list |
//!
//! The first line after these opens the cluster, where that may run, and each line from there on is an event or a word on how things stand:
//!
//! | Line | Means |
//! |---|---|
//! | `send lane L` | the lane sends its next call |
//! | `get lane L [ENVELOPE]`, `deliver node N [ENVELOPE]`, `hear [ENVELOPE]` | an envelope comes |
//! | `gather node N`, `start` | a node gathers; the coordinator starts |
//! | `exec node N [batch B]`, `release node N [batch B]`, `serve node N [item I]` | the first of them that is due, or the one with this number |
//! | `again EVENT` | the envelope came before |
//! | `nothing EVENT`, `nothing again EVENT` | the event happens, and no actor changes, no record is sent and no entry made |
//! | `refused EVENT` | the event may not happen |
//! | `hold ENVELOPE`, `release held` | the next such envelope waits in what follows; nothing waits any longer |
//! | `drain`, `finish` | all that is fresh happens but for what waits, without Sends or with them |
//! | `events COUNT from SEED` | random events, some of them envelopes that came before |
//! | `quiet`, `busy` | nothing is under way, or something is |
//! | `expect`, `rows` | the lines below, after two spaces each, are the transcript's since the last `expect`, or the tree's |
//!
//! ENVELOPE is `[KIND] [from ACTOR] [to ACTOR]`, the first such envelope that did not come yet (with `again`, the last that came, or after
//! `first` the first that came), or `unsent`, one that nobody sent. ACTOR is `lane L`, `node N` or `coordinator`; without `to` it is the event's own.
//!
//! At the end of each scenario every answer has to be that of the plain tree at its point, one with names a listing by the trees between the
//! opening of its directory and its point, the rows those that the commits leave, and the same events, entered through the lock of a book, leave
//! the same transcript.
#![tactic(auto)]

#[cfg(test)]
mod again;
#[cfg(test)]
mod blocks;
#[cfg(test)]
mod broken;
#[cfg(test)]
mod calls;
#[cfg(test)]
mod changing;
#[cfg(test)]
mod commands;
#[cfg(test)]
mod drawn;
#[cfg(test)]
mod entered;
#[cfg(test)]
mod envelopes;
#[cfg(test)]
mod events;
#[cfg(test)]
mod faults;
#[cfg(test)]
mod header;
#[cfg(test)]
mod held;
#[cfg(test)]
mod judge;
#[cfg(test)]
mod listed;
#[cfg(test)]
mod listings;
#[cfg(test)]
mod operations;
#[cfg(test)]
mod orders;
#[cfg(test)]
mod passed;
#[cfg(test)]
mod placed;
#[cfg(test)]
mod placing;
#[cfg(test)]
mod refused;
#[cfg(test)]
mod renames;
#[cfg(test)]
mod running;
#[cfg(test)]
mod scene;
#[cfg(test)]
mod seen;
#[cfg(test)]
mod shutting;
#[cfg(test)]
mod strange;
#[cfg(test)]
mod waiting;
#[cfg(test)]
mod words;
