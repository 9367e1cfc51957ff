use fal_base::{
    Call, CallList, Config, Cred, Duplicate, LaneList, Name, NameFault, NameList, Op, Path,
    PathArg, PathFault, Reply, may,
};
use std::alloc::Global;
use std::process::Abort;
use std::test::Fail;

fn text(alloc: Global, piece: &[u8], times: usize) -> Result<Vec<u8>, Fail> {
    let mut text = Vec::new(alloc);
    for _ in 0..times {
        text.extend_from_slice(piece)?;
    }
    Ok(text)
}

fn path_fault(alloc: Global, bytes: &[u8]) -> Option<PathFault> {
    Path::read(alloc, bytes).err()
}

fn name_fault(alloc: Global, bytes: &[u8]) -> Option<NameFault> {
    Name::read(alloc, bytes).err()
}

#[test]
fn slashes_are_dropped(rt: HostRuntime) -> Result<(), Fail> {
    let path = Path::read(rt.alloc(), b"//a///b/")?;
    assert_eq!(rt; path.names().len(), 2);
    assert_eq!(rt; path.names()[0].bytes(), b"a".as_slice());
    assert_eq!(rt; path.names()[1].bytes(), b"b".as_slice());
    assert!(rt; Path::read(rt.alloc(), b"/")?.names().is_empty());
    Ok(())
}

#[test]
fn the_lowest_rule_is_told(rt: HostRuntime) {
    let table: [(&[u8], Option<PathFault>); 8] = [
        (b"", Some(PathFault::Relative)),
        (b"a/../b\0", Some(PathFault::Relative)),
        (b"/a/./b", Some(PathFault::Dot)),
        (b"/..", Some(PathFault::Dot)),
        (b"/.\0/..", Some(PathFault::Dot)),
        (b"/a\0", Some(PathFault::ZeroByte)),
        (b"/...", None),
        (b"/", None),
    ];
    for (bytes, fault) in table {
        assert_eq!(rt; path_fault(rt.alloc(), bytes), fault, "at {bytes:?}");
    }
}

#[test]
fn long_paths_and_names(rt: HostRuntime) -> Result<(), Fail> {
    let longest = text(rt.alloc(), b"/a", 2047)?;
    assert_eq!(rt; path_fault(rt.alloc(), &longest), None);
    let long = text(rt.alloc(), b"/a", 2048)?;
    assert_eq!(rt; path_fault(rt.alloc(), &long), Some(PathFault::TooLong));
    let mut path = text(rt.alloc(), b"/", 1)?;
    path.extend_from_slice(&text(rt.alloc(), b"n", 255)?)?;
    assert_eq!(rt; path_fault(rt.alloc(), &path), None);
    path.push(b'n')?;
    assert_eq!(rt; path_fault(rt.alloc(), &path), Some(PathFault::NameTooLong));
    Ok(())
}

#[test]
fn the_first_fault_of_a_name_is_told(rt: HostRuntime) -> Result<(), Fail> {
    let table: [(&[u8], Option<NameFault>); 6] = [
        (b"", Some(NameFault::Empty)),
        (b"a/b\0", Some(NameFault::Slash)),
        (b"a\0", Some(NameFault::ZeroByte)),
        (b"..", Some(NameFault::Dot)),
        (b".", Some(NameFault::Dot)),
        (b"a.b", None),
    ];
    for (bytes, fault) in table {
        assert_eq!(rt; name_fault(rt.alloc(), bytes), fault, "at {bytes:?}");
    }
    let long = text(rt.alloc(), b"/", 256)?;
    assert_eq!(rt; name_fault(rt.alloc(), &long), Some(NameFault::TooLong));
    Ok(())
}

#[test]
fn one_class_of_bits_applies(rt: HostRuntime) {
    // uid, gid, mode, owner, group, want, and whether it may be
    let table: [(u32, u32, u16, u32, u32, u8, bool); 12] = [
        (0, 0, 0o000, 1, 1, 7, true),
        (1, 2, 0o077, 1, 2, 4, false),
        (1, 2, 0o400, 1, 2, 4, true),
        (1, 2, 0o200, 1, 2, 2, true),
        (1, 2, 0o100, 1, 2, 1, true),
        (3, 2, 0o707, 1, 2, 1, false),
        (3, 2, 0o040, 1, 2, 4, true),
        (3, 4, 0o770, 1, 2, 1, false),
        (3, 4, 0o002, 1, 2, 2, true),
        (3, 4, 0o006, 1, 2, 7, false),
        (3, 4, 0o000, 1, 2, 0, true),
        (1, 2, 0o600, 1, 2, 6, true),
    ];
    for (uid, gid, mode, owner, group, want, is) in table {
        assert_eq!(rt;
            may(uid, gid, mode, owner, group, want),
            is,
            "{uid} {mode} {want}"
        );
    }
}

fn bad_path(rt: &impl Abort, alloc: Global) -> Result<(), Fail> {
    let PathArg::Bad { fault, raw } = PathArg::read(alloc, b"/a\0")? else {
        return Err(Fail::from("a good path"));
    };
    assert_eq!(rt; fault, PathFault::ZeroByte);
    assert_eq!(rt; raw.as_slice(), b"/a\0".as_slice());
    Ok(())
}

#[test]
fn a_bad_path_keeps_its_bytes(rt: HostRuntime) -> Result<(), Fail> {
    bad_path(&rt, rt.alloc())
}

#[test]
fn copies_are_made(rt: HostRuntime) -> Result<(), Fail> {
    let alloc = rt.alloc();
    let mut names = NameList::new(alloc);
    names.reserve(1)?;
    names.push(Name::read(alloc, b"a")?)?;
    let reply = Reply::Names(names);
    assert_eq!(rt; reply.copy()?, reply);
    let path = PathArg::read(alloc, b"/a")?;
    let cred = Cred { uid: 1, gid: 2 };
    let mut calls = CallList::new(alloc);
    let op = Op::Stat { path };
    calls.push(Call { cred, op })?;
    let mut lanes = LaneList::new(alloc);
    lanes.push(calls)?;
    let config = Config {
        nodes: 1,
        batch: 1,
        lanes,
    };
    assert_eq!(rt; config.copy()?.lanes.len(), 1);
    Ok(())
}
