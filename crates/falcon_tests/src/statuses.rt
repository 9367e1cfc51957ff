use crate::running::{Ran, run, run_with, whole};
use fal_io::{MemSink, MemSource};
use std::alloc::Global;
use std::io::Write;
use std::test::Fail;

const HEADER: &str = "falcon-script 1\nnodes 1\nlanes 1\n";

const LOOK: &str = "1 0:0 stat /a\n";

const LIST: &str = "1 0:0 list /\n";

const CALL: &str = "falcon-script 1\nnodes 1\nlanes 1\n1 0:0 stat /";

fn with_words(alloc: Global, words: &[&str]) -> Result<Ran, Fail> {
    let sink = MemSink::new(alloc, 65_536, Vec::new(alloc));
    run_with(alloc, words, whole(alloc, HEADER.as_bytes())?, sink)
}

// Words, and the status that they come to.
type Worded = (&'static [&'static str], u8);

const WORDS: [Worded; 41] = [
    (&["serial"], 0),
    // a value is the next word, or follows an equals sign; options stand before or after the mode
    (&["--batch", "1", "serial"], 0),
    (&["serial", "--batch=1"], 0),
    (&["serial", "--batch", "01"], 0),
    (&["--batch=00000000000000000001", "serial"], 0),
    // after two hyphens stands the mode, or nothing
    (&["--", "serial"], 0),
    (&["serial", "--"], 0),
    (&["--batch", "1", "--", "serial"], 0),
    (&[], 2),
    (&["--"], 2),
    (&["--batch=1"], 2),
    (&["serial", "serial"], 2),
    (&["Serial"], 2),
    (&["serial", ""], 2),
    (&["serial", "-"], 2),
    (&["serial", "--", "--"], 2),
    (&["--", "--", "serial"], 2),
    (&["--", "serial", "--batch=1"], 2),
    // a batch takes one call so far, by a number of 1 to 20 digits
    (&["serial", "--batch=0"], 2),
    (&["serial", "--batch=2"], 2),
    (&["serial", "--batch=65"], 2),
    (&["serial", "--batch=000000000000000000001"], 2),
    (&["serial", "--batch="], 2),
    (&["serial", "--batch=+1"], 2),
    (&["serial", "--batch=1=1"], 2),
    (&["serial", "--batch"], 2),
    (&["--batch", "serial"], 2),
    (&["serial", "--batch", "-1"], 2),
    (&["serial", "--batch", "--", "1"], 2),
    (&["serial", "--batch", "1", "--batch=1"], 2),
    // not served yet, or not in this mode
    (&["run"], 2),
    (&["gen"], 2),
    (&["gen-serial", "--seed=1", "--size=5"], 2),
    (&["serial", "--chaos", "--seed", "3"], 2),
    (&["serial", "--verify"], 2),
    (&["serial", "--seed", "1"], 2),
    (&["serial", "--size", "3"], 2),
    // no options of the grammar
    (&["serial", "--chaos=1"], 2),
    (&["serial", "--bat=1"], 2),
    (&["serial", "-b", "1"], 2),
    (&["serial", "--help"], 2),
];

#[test]
fn words_have_their_status(rt: HostRuntime) -> Result<(), Fail> {
    for (words, status) in &WORDS {
        let ran = with_words(rt.alloc(), words)?;
        let text: &[u8] = if *status == 0 {
            b"falcon-transcript 1\n"
        } else {
            b"falcon: usage\n"
        };
        assert_eq!(rt; ran.status, *status);
        assert!(rt; ran.text.starts_with(text));
        assert_eq!(rt; ran.is_traced, *status == 0);
    }
    Ok(())
}

// A script that is refused, with the first line that breaks a rule and the lowest rule that it breaks.
type Faulty = (&'static [u8], u32, u8);

// After a whole header, which has three lines.
const CALLS: [Faulty; 27] = [
    (b"1 0:0\n", 4, 5),
    (b"1\n", 4, 5),
    (b"2 0:0 stat /a\n", 4, 6),
    (b"0 0:0 stat /a\n", 4, 6),
    (b"9 0:0 fly /a\n", 4, 6),
    (b"1 0 stat /a\n", 4, 7),
    (b"1 0:0:0 stat /a\n", 4, 7),
    (b"1 0:4294967296 stat /a\n", 4, 7),
    (b"1 0:0 Stat /a\n", 4, 8),
    (b"1 0:0 fly /a\n", 4, 8),
    (b"1 0:0 stat\n", 4, 9),
    (b"1 0:0 stat /a b\n", 4, 9),
    (b"1 0:0 stat /a%\n", 4, 10),
    (b"1 0:0 stat /%4g\n", 4, 10),
    (b"1 0:0 mkdir /%2 1000\n", 4, 10),
    (b"1 0:0 mkdir /a 1000\n", 4, 11),
    (b"1 0:0 mkdir /a 00007\n", 4, 11),
    (b"1 0:0 create /a 8\n", 4, 11),
    (b"1 0:0 access /a 8\n", 4, 11),
    (b"1 0:0 truncate /a 9223372036854775808\n", 4, 11),
    (b"1 0:0 place  hash\n", 4, 9),
    (b"1 0:0 place .. hash\n", 4, 12),
    (b"1 0:0 place a%2Fb hash\n", 4, 12),
    (b"1 0:0 place a node:65536\n", 4, 13),
    // lines that are skipped count, too
    (b"# none\n\n \t\n1 0:0 stat /a\n1 0:0\n1\n", 8, 5),
    // a line ends with a line feed alone
    (b"1 0:0 mkdir /a 755\r\n", 4, 11),
    // a line that no line feed ends is a line
    (b"1 0:0 stat", 4, 9),
];

const HEADERS: [Faulty; 16] = [
    (b"falcon-script 2\nnodes 1\nlanes 1\n", 1, 2),
    (b"falcon-script 01\nnodes 1\nlanes 1\n", 1, 2),
    (b"falcon-script 1 1\nnodes 1\nlanes 1\n", 1, 2),
    (b"nodes 1\nlanes 1\n", 1, 2),
    (b"falcon-script 1\nlanes 1\nnodes 1\n", 2, 3),
    (b"falcon-script 1\nnodes 0\nlanes 1\n", 2, 3),
    (b"falcon-script 1\nnodes 17\nlanes 1\n", 2, 3),
    (
        b"falcon-script 1\nnodes 000000000000000000001\nlanes 1\n",
        2,
        3,
    ),
    (b"falcon-script 1\n#\nnodes 1\nlanes 0\n", 4, 4),
    (b"falcon-script 1\nnodes 1\nlanes 17\n", 3, 4),
    (b"falcon-script 1\nnodes 1\nlanes\n", 3, 4),
    (b"", 1, 14),
    (b"\n\n", 3, 14),
    (b"falcon-script 1", 2, 14),
    (b"falcon-script 1\nnodes 1\n", 3, 14),
    (b"falcon-script 1\n# nodes 1\nnodes 1", 4, 14),
];

// What is written with status 3.
fn told(alloc: Global, line: u32, rule: u8) -> Result<Vec<u8>, Fail> {
    let mut text = Vec::new(alloc);
    writeln!(text, "falcon: script line {line} rule {rule}")?;
    Ok(text)
}

// Each of these scripts, after this front, is refused with its line and rule.
fn are_told(alloc: Global, front: &[u8], scripts: &[Faulty]) -> Result<bool, Fail> {
    for (script, line, rule) in scripts {
        let mut bytes = Vec::from_slice(alloc, front)?;
        bytes.extend_from_slice(script)?;
        let ran = run(alloc, &bytes)?;
        let text = told(alloc, *line, *rule)?;
        if ran.status != 3 || ran.text.as_slice() != text.as_slice() {
            return Ok(false);
        }
    }
    Ok(true)
}

#[test]
fn a_faulty_call_is_told(rt: HostRuntime) -> Result<(), Fail> {
    assert!(rt; are_told(rt.alloc(), HEADER.as_bytes(), &CALLS)?);
    Ok(())
}

#[test]
fn a_faulty_header_is_told(rt: HostRuntime) -> Result<(), Fail> {
    assert!(rt; are_told(rt.alloc(), b"", &HEADERS)?);
    Ok(())
}

// Comments, empty lines, tabs, leading zeros, escapes of either case, and no line feed at the end.
const ODD: &[u8] =
    b"# odd\n\n\tfalcon-script \t 1 \nnodes 01\n#\nlanes 00001\n \n01 00:0\tmkdir /%61 0755\n 1 0:0 stat %2f%2Fa%2f\n1 0:0 stat /a%00";

const ODD_TEXT: &[u8] = b"falcon-transcript 1
nodes 1
lanes 1
sent 1.1 0:0 mkdir /a 755
commit 1.1 256
answered 1.1 0 ok
sent 1.2 0:0 stat /a
answered 1.2 1 stat 256 dir 755 0:0 0
sent 1.3 0:0 stat /a%00
answered 1.3 1 EINVAL
";

#[test]
fn an_odd_script_is_one(rt: HostRuntime) -> Result<(), Fail> {
    let ran = run(rt.alloc(), ODD)?;
    assert_eq!(rt; ran.status, 0);
    assert!(rt; ran.text.starts_with(ODD_TEXT));
    Ok(())
}

// A script with many equal pieces: how it begins, the piece, how often, how it ends, and the status with how the text begins.
type Long = (
    &'static str,
    &'static str,
    usize,
    &'static str,
    u8,
    &'static str,
);

// A line has at most 16,384 bytes, also one that is skipped, and a script 16,777,216.
const LONG: [Long; 5] = [
    (CALL, "a", 16_372, "\n", 0, "falcon-transcript 1\n"),
    (CALL, "a", 16_373, "\n", 3, "falcon: script line 4 rule 1\n"),
    (HEADER, "#", 16_384, "", 0, "falcon-transcript 1\n"),
    (HEADER, " ", 16_385, "", 3, "falcon: script line 4 rule 1\n"),
    (
        "x",
        "0123456789abcdef",
        1_048_576,
        "",
        7,
        "falcon: too large\n",
    ),
];

// A script has at most 10,000 calls.
const MANY: [Long; 2] = [
    (HEADER, LOOK, 10_000, "", 0, "falcon-transcript 1\n"),
    (HEADER, LOOK, 10_001, "", 7, "falcon: too large\n"),
];

// Its lists times its bytes are at most 134,217,728: of 3,211 lists that is 41,799 bytes.
const LISTED: [Long; 4] = [
    (HEADER, LIST, 3_211, "", 0, "falcon-transcript 1\n"),
    (HEADER, LIST, 3_212, "", 7, "falcon: too large\n"),
    (
        HEADER,
        LIST,
        3_211,
        "# of twenty-four bytes\n\n",
        0,
        "falcon-transcript 1\n",
    ),
    (
        HEADER,
        LIST,
        3_211,
        "# of twenty-five bytes \n\n",
        7,
        "falcon: too large\n",
    ),
];

fn repeated(
    alloc: Global,
    start: &str,
    piece: &str,
    times: usize,
    end: &str,
) -> Result<Vec<u8>, Fail> {
    let mut bytes = Vec::from_slice(alloc, start.as_bytes())?;
    for _ in 0..times {
        bytes.extend_from_slice(piece.as_bytes())?;
    }
    bytes.extend_from_slice(end.as_bytes())?;
    Ok(bytes)
}

// Each of these scripts has its status and text.
fn have_status(alloc: Global, scripts: &[Long]) -> Result<bool, Fail> {
    for (start, piece, times, end, status, text) in scripts {
        let ran = run(alloc, &repeated(alloc, start, piece, *times, end)?)?;
        if ran.status != *status || !ran.text.starts_with(text.as_bytes()) {
            return Ok(false);
        }
    }
    Ok(true)
}

#[test]
fn a_script_may_be_so_long(rt: HostRuntime) -> Result<(), Fail> {
    assert!(rt; have_status(rt.alloc(), &LONG)?);
    Ok(())
}

#[test]
fn a_script_may_have_so_many_calls(rt: HostRuntime) -> Result<(), Fail> {
    assert!(rt; have_status(rt.alloc(), &MANY)?);
    Ok(())
}

#[test]
fn a_script_may_list_so_often(rt: HostRuntime) -> Result<(), Fail> {
    assert!(rt; have_status(rt.alloc(), &LISTED)?);
    Ok(())
}

// A run with a stream that fails: the words, which reads and which writes fail, how many bytes a write takes, and the status with the text.
struct Failing {
    words: &'static [&'static str],
    reads: &'static [u64],
    writes: &'static [u64],
    status: u8,
    text: &'static str,
    is_traced: bool,
}

const FAILING: [Failing; 3] = [
    // the second read fails, where each takes 20 bytes
    Failing {
        words: &["serial"],
        reads: &[1],
        writes: &[],
        status: 4,
        text: "falcon: read fault\n",
        is_traced: false,
    },
    // the third write fails, where each takes 20 bytes
    Failing {
        words: &["serial"],
        reads: &[],
        writes: &[2],
        status: 5,
        text: "falcon-transcript 1\nnodes 1\nlanes 1\ntree",
        is_traced: true,
    },
    // that the words are no usage can't be told, and has its status all the same
    Failing {
        words: &[],
        reads: &[],
        writes: &[0],
        status: 2,
        text: "",
        is_traced: false,
    },
];

// A run of the script without calls.
fn run_failing(alloc: Global, failing: &Failing) -> Result<Ran, Fail> {
    let script = Vec::from_slice(alloc, HEADER.as_bytes())?;
    let source = MemSource::new(script, 20, Vec::from_slice(alloc, failing.reads)?);
    let sink = MemSink::new(alloc, 20, Vec::from_slice(alloc, failing.writes)?);
    run_with(alloc, failing.words, source, sink)
}

#[test]
fn a_stream_that_fails_has_its_status(rt: HostRuntime) -> Result<(), Fail> {
    for failing in &FAILING {
        let ran = run_failing(rt.alloc(), failing)?;
        assert_eq!(rt; ran.status, failing.status);
        assert_eq!(rt; str::from_utf8(&ran.text)?, failing.text);
        assert_eq!(rt; ran.is_traced, failing.is_traced);
    }
    Ok(())
}
