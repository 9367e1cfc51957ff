ghost use Rattle.std.specs.Prelude.{◌≡◌, ◌≤◌, length, vec_len, IfOk};
ghost use Rattle.fal_locks.specs.Locks.{no_locks};

use crate::keys::{key_of, keys_of};
use fal_base::Key;
use fal_locks::{Busy, Locks};
use std::alloc::Global;
use std::process::Abort;
use std::test::Fail;

// Where keys were held the other way, and how many came back.
fn place(busy: &Busy) -> Option<(usize, usize)> {
    Some((busy.at, busy.keys.len()))
}

// At most eight keys of a text.
fn few_keys(alloc: Global, text: &[u8]) -> Result<Vec<Key>, Fail>
    ensures { IfOk result (λ keys. vec_len keys ≤ 8) }
{
    let keys = keys_of(alloc, text)?;
    if keys.len() > 8 {
        return Err(Fail::from("many keys"));
    }
    Ok(keys)
}

// Locks with room for eight.
fn roomy(alloc: Global) -> Result<Locks, Fail>
    ensures { IfOk result (λ locks. (locks.table ≡ no_locks) × (8 ≤ locks.spare)) }
{
    let mut locks = Locks::new(alloc);
    locks.reserve(8)?;
    Ok(locks)
}

// A batch shares the keys, of which so many differ, and releases them. Some key has a name if so told.
fn share(
    rt: &impl Abort,
    alloc: Global,
    text: &[u8],
    count: u64,
    is_named: bool,
) -> Result<(), Fail> {
    let mut locks = roomy(alloc)?;
    assert_eq!(rt; locks.try_share(7, few_keys(alloc, text)?)?, count);
    assert!(rt; locks.held_any() == is_named);
    for key in keys_of(alloc, text)?.as_slice() {
        assert!(rt; locks.held(key) && locks.held_name(&key.name));
    }
    let other = key_of(alloc, b"1c")?;
    assert!(rt; !locks.held(&other) && !locks.held_name(&other.name));
    locks.release(7);
    for key in keys_of(alloc, text)?.as_slice() {
        assert!(rt; !locks.held(key) && !locks.held_any());
    }
    Ok(())
}

#[test]
fn a_key_twice_counts_once_and_the_root_is_no_name(rt: HostRuntime) -> Result<(), Fail> {
    for (text, count, is_named) in [
        (b"1a 2b 1a".as_slice(), 2, true),
        (b"0".as_slice(), 1, false),
        (b"0 1a".as_slice(), 2, true),
    ] {
        share(&rt, rt.alloc(), text, count, is_named)?;
    }
    Ok(())
}

// What shutting some keys answers while a batch holds others. Once the batch is gone they are shut.
fn shut_over(alloc: Global, held: &[u8], wanted: &[u8]) -> Result<Option<(usize, usize)>, Fail> {
    let mut locks = roomy(alloc)?;
    let _ = locks.try_share(1, few_keys(alloc, held)?)?;
    locks.reserve(8)?;
    let Err(busy) = locks.try_shut(5, few_keys(alloc, wanted)?) else {
        return Ok(None);
    };
    let place = place(&busy);
    locks.release(1);
    locks.reserve(8)?;
    locks.try_shut(5, busy.keys)?;
    Ok(place)
}

// What sharing some keys answers while an operation has shut others.
fn share_under(alloc: Global, shut: &[u8], wanted: &[u8]) -> Result<Option<(usize, usize)>, Fail> {
    let mut locks = roomy(alloc)?;
    locks.try_shut(5, few_keys(alloc, shut)?)?;
    locks.reserve(8)?;
    match locks.try_share(2, few_keys(alloc, wanted)?) {
        Ok(_) => Ok(None),
        Err(busy) => Ok(place(&busy)),
    }
}

#[test]
fn busy_names_the_first_key_held_the_other_way(rt: HostRuntime) -> Result<(), Fail> {
    for (held, wanted, place) in [
        (b"1b".as_slice(), b"1a 1b".as_slice(), Some((1, 2))),
        (b"1a 1b".as_slice(), b"2a 1b 1a".as_slice(), Some((1, 3))),
        (b"1b".as_slice(), b"2b 1a".as_slice(), None),
    ] {
        assert_eq!(rt; shut_over(rt.alloc(), held, wanted)?, place);
        assert_eq!(rt; share_under(rt.alloc(), held, wanted)?, place);
    }
    Ok(())
}

#[test]
fn an_operation_opens_its_own_keys_alone(rt: HostRuntime) -> Result<(), Fail> {
    let mut locks = roomy(rt.alloc())?;
    locks.try_shut(5, few_keys(rt.alloc(), b"1a 1b")?)?;
    for (op, left, keys) in [(4, Some(5), 2), (5, None, 0)] {
        locks.reopen(op);
        assert_eq!(rt; locks.shut_op(), left);
        assert_eq!(rt; locks.shut_keys().len(), keys);
    }
    Ok(())
}
