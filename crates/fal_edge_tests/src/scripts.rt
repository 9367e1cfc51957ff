use fal_base::OutOfMemory;
use fal_script::{Broken, op_words, print, read, verb_word};
use std::alloc::{AllocError, Global};
use std::test::Fail;

// An operation with arguments, and the lowest rule that they break, or 0.
const ARGUMENTS: [(&[u8], u8); 38] = [
    (b"mkdir /a 0777", 0),
    (b"mkdir /a 1000", 11),
    (b"create /a", 9),
    (b"create /% 9", 10),
    (b"stat /%61%2F", 0),
    (b"stat", 9),
    (b"access /a 7", 0),
    (b"access /a 8", 11),
    (b"chmod /a 7", 0),
    (b"chmod /a 8", 11),
    (b"chown /a 4294967295 0", 0),
    (b"chown /a 4294967296 0", 11),
    (b"chown /a 0 -1", 11),
    (b"chown /%zz x y", 10),
    (b"chown /a 1", 9),
    (b"truncate /a 9223372036854775807", 0),
    (b"truncate /a 9223372036854775808", 11),
    (b"truncate /a 100000000000000000000", 11),
    (b"unlink /a /b", 9),
    (b"rmdir /a", 0),
    (b"rmdir %4", 10),
    (b"rename /a /b", 0),
    (b"rename /a /%", 10),
    (b"rename /a", 9),
    (b"list a", 0),
    (b"list /a 1", 9),
    (b"place a hash", 0),
    (b"place a parent", 0),
    (b"place a%20b node:65535", 0),
    (b"place a node:65536", 13),
    (b"place a node:", 13),
    (b"place a node:1:2", 13),
    (b"place a Hash", 13),
    (b"place /a hash", 12),
    (b"place .. bogus", 12),
    (b"place a%2fb hash", 12),
    (b"place a% bogus", 10),
    (b"fly /a", 8),
];

fn words_of(alloc: Global, line: &[u8]) -> Result<Vec<&[u8]>, AllocError> {
    line.split(|b| *b == b' ').collect(alloc)
}

// The rule that an operation and its arguments break, or 0.
fn rule_of(alloc: Global, line: &[u8]) -> Result<u8, Fail> {
    let words = words_of(alloc, line)?;
    let [verb, arguments @ ..] = words.as_slice() else {
        return Ok(5);
    };
    let Some(verb) = verb_word(verb) else {
        return Ok(8);
    };
    match op_words(alloc, verb, arguments) {
        Ok(_) => Ok(0),
        Err(Broken::Rule(rule)) => Ok(rule),
        Err(Broken::OutOfMemory) => Err(OutOfMemory)?,
    }
}

#[test]
fn arguments_break_their_rules(rt: HostRuntime) -> Result<(), Fail> {
    for (line, rule) in ARGUMENTS {
        assert_eq!(rt; rule_of(rt.alloc(), line)?, rule, "{line:?}");
    }
    Ok(())
}

const ODD: &[u8] =
    b"# odd\n\tfalcon-script 1 \nnodes 02\n\nlanes 00003\n3 01:2 mkdir /%61//b/ 0755\n1 0:0 stat %2f\n02 0:0 access a%00%c3 7\n1 0:0 truncate /a%25/~ 010";

const PRINTED: &[u8] =
    b"falcon-script 1\nnodes 2\nlanes 3\n3 1:2 mkdir /a/b 755\n1 0:0 stat /\n2 0:0 access a%00%C3 7\n1 0:0 truncate /a%25/~ 10\n";

// The text of the script that these few bytes are.
fn printed(alloc: Global, bytes: &[u8]) -> Result<Vec<u8>, Fail> {
    if bytes.len() > 1000 {
        return Ok(Vec::new(alloc));
    }
    let script = read(alloc, bytes)?;
    Ok(print(alloc, &script)?)
}

#[test]
fn a_script_is_printed_and_read_back(rt: HostRuntime) -> Result<(), Fail> {
    let text = printed(rt.alloc(), ODD)?;
    assert_eq!(rt; text.as_slice(), PRINTED);
    assert_eq!(rt; printed(rt.alloc(), &text)?.as_slice(), PRINTED);
    Ok(())
}
