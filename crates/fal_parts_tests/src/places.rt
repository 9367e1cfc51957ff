use fal_base::{Duplicate, Name, Rule};
use fal_place::{Table, WithFault, name_hash};
use std::alloc::Global;
use std::process::Abort;
use std::test::Fail;

fn name(alloc: Global, byte: u8) -> Result<Name, Fail> {
    Ok(Name::read(alloc, &[byte])?)
}

// The table of the next version, where the rule fits.
fn placed(rt: &impl Abort, table: &Table, name: &Name, rule: Rule) -> Result<Table, WithFault> {
    assert!(rt; table.version() < 5000 && table.fits(rule));
    table.with(name, rule)
}

#[test]
fn hashes_are_those_of_fnv_1a(rt: HostRuntime) {
    for (name, hash) in [
        (b"".as_slice(), 0xcbf29ce484222325),
        (b"a".as_slice(), 0xaf63dc4c8601ec8c),
        (b"foobar".as_slice(), 0x85944171f73967e8),
    ] {
        assert_eq!(rt; name_hash(name), hash);
    }
}

#[test]
fn names_live_at_their_hash(rt: HostRuntime) -> Result<(), Fail> {
    let two = Table::new(rt.alloc(), 2);
    let three = Table::new(rt.alloc(), 3);
    for (byte, of_two, of_three) in [(b'a', 0, 1), (b'b', 1, 1), (b'c', 0, 0), (b'x', 1, 2)] {
        let name = name(rt.alloc(), byte)?;
        assert_eq!(rt; two.owner_at(1, &name), of_two);
        assert_eq!(rt; three.owner_at(1, &name), of_three);
    }
    Ok(())
}

fn table_with(rt: &impl Abort, alloc: Global, rules: &[(u8, Rule)]) -> Result<Table, Fail> {
    let mut table = Table::new(alloc, 3);
    for (byte, rule) in rules {
        table = placed(rt, &table, &name(alloc, *byte)?, *rule)?;
    }
    Ok(table)
}

#[test]
fn an_older_table_catches_up(rt: HostRuntime) -> Result<(), Fail> {
    let rules = [
        (b'x', Rule::Node(1)),
        (b'c', Rule::Node(2)),
        (b'x', Rule::Hash),
    ];
    let late = table_with(&rt, rt.alloc(), &rules)?.since(1)?;
    let mut table = table_with(&rt, rt.alloc(), &rules[..1])?.copy()?;
    assert!(rt; table.fits_all(&late));
    table.take_changes(3, &late)?;
    assert_eq!(rt; (table.version(), table.len(), late.len()), (3, 2, 2));
    assert_eq!(rt; table.entry(&name(rt.alloc(), b'x')?), Rule::Hash);
    Ok(())
}

// A table of 1,024 rules.
fn full(rt: &impl Abort, alloc: Global) -> Result<Table, Fail> {
    let mut table = Table::new(alloc, 2);
    for k in 1..=1024 {
        let text = format!(in alloc; "n{k}")?;
        let name = Name::read(alloc, text.as_bytes())?;
        table = placed(rt, &table, &name, Rule::Hash)?;
    }
    Ok(table)
}

#[test]
fn a_full_table_takes_known_names_alone(rt: HostRuntime) -> Result<(), Fail> {
    let table = full(&rt, rt.alloc())?;
    for (text, is_known) in [(b"n1".as_slice(), true), (b"x".as_slice(), false)] {
        let name = Name::read(rt.alloc(), text)?;
        assert!(rt; table.is_full_for(&name) != is_known);
        match placed(&rt, &table, &name, Rule::ByParent) {
            Ok(table) => assert!(rt; is_known && table.version() == 1025),
            Err(fault) => assert!(rt; !is_known && fault == WithFault::Full),
        }
    }
    Ok(())
}
