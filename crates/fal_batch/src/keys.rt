ghost use Rattle.std.specs.Prelude.{◌≡◌, OnOk};
ghost use Rattle.fal_dentry.specs.Walk.{is_among as key_among};
ghost use Rattle.fal_batch.specs.Keys.{with_key, with_keys};

use fal_base::{Key, OutOfMemory};

// Whether the key is one of these.
pub(crate) fn is_among(key: &Key, keys: &[Key]) -> bool
    ensures { result ≡ key_among key.now keys.now }
{
    keys.iter().any(|other| other.is_same(key))
}

// Puts the key at the end where it isn't among the keys yet.
fn add_key(keys: &mut Vec<Key>, key: Key) -> Result<(), OutOfMemory>
    ensures { OnOk result (keys.new.items ≡ with_key keys.old.items key) }
{
    if is_among(&key, keys) {
        return Ok(());
    }
    keys.push(key)?;
    Ok(())
}

// Puts each of the others at the end where it isn't among the keys yet.
pub(crate) fn add_keys(keys: &mut Vec<Key>, others: Vec<Key>) -> Result<(), OutOfMemory>
    ensures { OnOk result (keys.new.items ≡ with_keys keys.old.items others.items) }
{
    for key in others {
        add_key(keys, key)?;
    }
    Ok(())
}
