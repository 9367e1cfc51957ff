use fal_base::{Key, Name};
use std::alloc::Global;
use std::test::Fail;

/// The key of a parent's digit and a name's letter. Parent 0 is the root's.
pub fn key_of(alloc: Global, word: &[u8]) -> Result<Key, Fail> {
    match word {
        [b'0', ..] => Ok(Key::root(alloc)),
        [parent, name] => Ok(Key {
            parent: u64::from(parent.wrapping_sub(b'0')),
            name: Name::read(alloc, &[*name])?,
        }),
        _ => Err(Fail::from("no key")),
    }
}

/// The keys that a text names, with spaces between.
pub fn keys_of(alloc: Global, text: &[u8]) -> Result<Vec<Key>, Fail> {
    let mut keys = Vec::new(alloc);
    for word in text.split(|byte| *byte == b' ') {
        if !word.is_empty() {
            keys.push(key_of(alloc, word)?)?;
        }
    }
    Ok(keys)
}
