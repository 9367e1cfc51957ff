use fal_base::{Dentry, Errno, Key};

/// Where a walk over a replica ends. `keys` are the keys of the directories found on the way, in order.
#[derive(Debug, Drop)]
pub enum Walk {
    /// The key of the next directory is shut.
    Shut {
        key: Key,
    },
    /// The replica lacks the next directory, which has this key.
    Missing {
        key: Key,
        keys: Vec<Key>,
    },
    /// The last directory found refuses search.
    Stop {
        errno: Errno,
        keys: Vec<Key>,
    },
    /// All directories before the last name were passed, which have the numbers `inos`, and the last of them is `parent`. The root path has no
    /// name, and so no parent.
    Ready {
        parent: Option<Dentry>,
        inos: Vec<u64>,
        keys: Vec<Key>,
    },
}
