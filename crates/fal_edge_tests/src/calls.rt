use fal_base::{Call, Cred, Op, PathArg};
use std::alloc::Global;
use std::test::Fail;

// The number that digits below the base spell.
fn number(base: u64, digits: &[u8]) -> u64 {
    let mut number: u64 = 0;
    for digit in digits {
        number = number
            .wrapping_mul(base)
            .wrapping_add(u64::from(digit.wrapping_sub(b'0')));
    }
    number
}

fn id(word: &[u8]) -> u32 {
    (number(10, word) & 0xffff_ffff) as u32
}

fn mode(word: &[u8]) -> u16 {
    (number(8, word) & 0o777) as u16
}

fn want(word: &[u8]) -> u8 {
    (number(8, word) & 7) as u8
}

// What a verb makes of a path alone.
fn plain_op(verb: &[u8], path: PathArg) -> Op {
    match verb {
        b"unlink" => Op::Unlink { path },
        b"rmdir" => Op::Rmdir { path },
        b"list" => Op::List { path },
        _ => Op::Stat { path },
    }
}

// What a verb makes of a path and two words after it.
fn op(verb: &[u8], path: PathArg, word: &[u8], last: &[u8]) -> Op {
    match verb {
        b"mkdir" => Op::Mkdir {
            path,
            mode: mode(word),
        },
        b"create" => Op::Create {
            path,
            mode: mode(word),
        },
        b"chmod" => Op::Chmod {
            path,
            mode: mode(word),
        },
        b"access" => Op::Access {
            path,
            want: want(word),
        },
        b"truncate" => Op::Truncate {
            path,
            size: number(10, word),
        },
        b"chown" => Op::Chown {
            path,
            uid: id(word),
            gid: id(last),
        },
        _ => plain_op(verb, path),
    }
}

/// The call that a line of a table spells: uid, gid, verb, path and what follows it, with bars between.
pub fn call_of(alloc: Global, line: &[u8]) -> Result<Call, Fail> {
    let mut words = line.split(|byte| *byte == b'|');
    let uid = id(words.next().unwrap_or(b""));
    let gid = id(words.next().unwrap_or(b""));
    let verb = words.next().unwrap_or(b"");
    let path = PathArg::read(alloc, words.next().unwrap_or(b""))?;
    let word = words.next().unwrap_or(b"");
    let last = words.next().unwrap_or(b"");
    let op = if verb == b"rename".as_slice() {
        Op::Rename {
            old: path,
            new: PathArg::read(alloc, word)?,
        }
    } else {
        op(verb, path, word, last)
    };
    Ok(Call {
        cred: Cred { uid, gid },
        op,
    })
}
