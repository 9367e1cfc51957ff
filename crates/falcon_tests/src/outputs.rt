//! Scripts and their transcripts.

use crate::operations::OPERATIONS;
use crate::running::run;
use std::alloc::Global;
use std::test::Fail;

// Scripts with what the program writes.
const RUNS: [(&str, &str); 5] = [
    (
        "\
falcon-script 1
nodes 1
lanes 1
",
        "\
falcon-transcript 1
nodes 1
lanes 1
tree 1
0 / 1 dir 755 0:0 0
calls 0
ok 0
failed 0
commits 0
directories 1
files 0
",
    ),
    (
        "\
falcon-script 1
nodes 1
lanes 1
1 0:0 mkdir /a 755
1 0:0 stat /a
1 0:0 stat /
",
        "\
falcon-transcript 1
nodes 1
lanes 1
sent 1.1 0:0 mkdir /a 755
commit 1.1 256
answered 1.1 0 ok
sent 1.2 0:0 stat /a
answered 1.2 1 stat 256 dir 755 0:0 0
sent 1.3 0:0 stat /
answered 1.3 1 stat 1 dir 755 0:0 0
tree 2
0 / 1 dir 755 0:0 0
1 a 256 dir 755 0:0 0
calls 3
ok 3
failed 0
commits 1
directories 2
files 0
",
    ),
    // two lanes take turns, and each of the keys lives at a node of its own
    (
        "\
falcon-script 1
nodes 4
lanes 2
1 0:0 mkdir /data 755
2 0:0 create /data/x 644
1 1000:100 truncate /data/x 10
2 1000:100 stat /data/x
1 0:0 unlink /data/x
",
        "\
falcon-transcript 1
nodes 4
lanes 2
sent 1.1 0:0 mkdir /data 755
commit 1.1 257
answered 1.1 0 ok
sent 2.1 0:0 create /data/x 644
commit 2.1 259
answered 2.1 1 ok
sent 1.2 1000:100 truncate /data/x 10
answered 1.2 2 EACCES
sent 2.2 1000:100 stat /data/x
answered 2.2 2 stat 259 file 644 0:0 0
sent 1.3 0:0 unlink /data/x
commit 1.3 0
answered 1.3 2 ok
tree 2
0 / 1 dir 755 0:0 0
1 data 257 dir 755 0:0 0
calls 5
ok 4
failed 1
commits 3
directories 2
files 0
",
    ),
    // the checks of an operation come in their order
    (
        "\
falcon-script 1
nodes 1
lanes 1
1 0:0 mkdir /d 700
1 0:0 create /f 644
1 1000:100 stat /d/none/x
1 1000:100 stat /none/x
1 1000:100 stat /f/x
1 1000:100 mkdir /d 755
1 1000:100 mkdir /e 755
1 1000:100 unlink /d
1 0:0 unlink /d
",
        "\
falcon-transcript 1
nodes 1
lanes 1
sent 1.1 0:0 mkdir /d 700
commit 1.1 256
answered 1.1 0 ok
sent 1.2 0:0 create /f 644
commit 1.2 512
answered 1.2 1 ok
sent 1.3 1000:100 stat /d/none/x
answered 1.3 2 EACCES
sent 1.4 1000:100 stat /none/x
answered 1.4 2 ENOENT
sent 1.5 1000:100 stat /f/x
answered 1.5 2 ENOTDIR
sent 1.6 1000:100 mkdir /d 755
answered 1.6 2 EEXIST
sent 1.7 1000:100 mkdir /e 755
answered 1.7 2 EACCES
sent 1.8 1000:100 unlink /d
answered 1.8 2 EACCES
sent 1.9 0:0 unlink /d
answered 1.9 2 EPERM
tree 3
0 / 1 dir 755 0:0 0
1 d 256 dir 700 0:0 0
1 f 512 file 644 0:0 0
calls 9
ok 2
failed 7
commits 2
directories 2
files 1
",
    ),
    // empty parts of a path are dropped, and dots and relative paths are refused
    (
        "\
falcon-script 1
nodes 1
lanes 1
1 0:0 mkdir /a 755
1 0:0 mkdir /a/b 755
1 0:0 stat //a///b/
1 0:0 stat /a/./b
1 0:0 stat a
",
        "\
falcon-transcript 1
nodes 1
lanes 1
sent 1.1 0:0 mkdir /a 755
commit 1.1 256
answered 1.1 0 ok
sent 1.2 0:0 mkdir /a/b 755
commit 1.2 512
answered 1.2 1 ok
sent 1.3 0:0 stat /a/b
answered 1.3 2 stat 512 dir 755 0:0 0
sent 1.4 0:0 stat /a/./b
answered 1.4 2 EINVAL
sent 1.5 0:0 stat a
answered 1.5 2 EINVAL
tree 3
0 / 1 dir 755 0:0 0
1 a 256 dir 755 0:0 0
256 b 512 dir 755 0:0 0
calls 5
ok 3
failed 2
commits 2
directories 3
files 0
",
    ),
];

// Each of these scripts has its transcript.
fn have_transcripts(alloc: Global, runs: &[(&str, &str)]) -> Result<(), Fail> {
    for (script, wanted) in runs {
        let ran = run(alloc, script.as_bytes())?;
        let text = str::from_utf8(&ran.text)?;
        if ran.status != 0 || text != *wanted || !ran.is_traced {
            return Err(Fail::new(format_args!("{text} of {script}")));
        }
    }
    Ok(())
}

#[test]
fn a_script_has_its_transcript(rt: HostRuntime) -> Result<(), Fail> {
    have_transcripts(rt.alloc(), &RUNS)?;
    have_transcripts(rt.alloc(), &OPERATIONS)
}

// Calls whose path has so many equal pieces, with the answer.
const LONG: [(&str, &str, usize, &str, &str); 4] = [
    ("create /", "n", 255, " 644\n", "answered 1.1 0 ok"),
    (
        "create /",
        "n",
        256,
        " 644\n",
        "answered 1.1 0 ENAMETOOLONG",
    ),
    ("stat ", "/a", 2047, "/\n", "answered 1.1 0 ENOENT"),
    ("stat ", "/a", 2048, "\n", "answered 1.1 0 ENAMETOOLONG"),
];

// A script of one call, whose path has so many equal pieces.
fn long_script(
    alloc: Global,
    verb: &str,
    piece: &str,
    times: usize,
    rest: &str,
) -> Result<Vec<u8>, Fail> {
    let mut script = Vec::from_slice(alloc, b"falcon-script 1\nnodes 1\nlanes 1\n1 0:0 ")?;
    script.extend_from_slice(verb.as_bytes())?;
    for _ in 0..times {
        script.extend_from_slice(piece.as_bytes())?;
    }
    script.extend_from_slice(rest.as_bytes())?;
    Ok(script)
}

// Whether the text has this line.
fn has_line(text: &[u8], line: &[u8]) -> bool {
    text.split(|b| *b == b'\n').any(|other| other == line)
}

#[test]
fn long_names_and_paths(rt: HostRuntime) -> Result<(), Fail> {
    for (verb, piece, times, rest, line) in LONG {
        let ran = run(
            rt.alloc(),
            &long_script(rt.alloc(), verb, piece, times, rest)?,
        )?;
        assert!(rt; has_line(&ran.text, line.as_bytes()), "{line}");
    }
    Ok(())
}
