use crate::stage::PathWalk;
use fal_base::{Errno, Items, Key};

/// How the walks of an operation's paths end: one stops with this errno, one lacks the directory under the key, or each is ready.
#[derive(Debug, Drop)]
pub enum PathsWalk {
    Stopped(Errno),
    Lacking(Key),
    Ready(Items<PathWalk>),
}
