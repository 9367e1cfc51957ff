/// Calls, and the text of their run over the plain tree. What the program's own operations write stands among its own tests.
pub fn runs() -> [(&'static [u8], &'static [u8]); 3] {
    [no_call(), moves(), verbs()]
}

// No call.
fn no_call() -> (&'static [u8], &'static [u8]) {
    (
        b"",
        b"falcon-transcript 1
nodes 1
lanes 1
tree 1
0 / 1 dir 755 0:0 0
calls 0
ok 0
failed 0
commits 0
directories 1
files 0
",
    )
}

// Moves are refused in their order, and a row moves.
fn moves() -> (&'static [u8], &'static [u8]) {
    (
        b"0|0|mkdir|/a|755
0|0|mkdir|/a/b|755
0|0|create|/f|644
0|0|rename|/a|/a/b/c
0|0|rename|/a/b|/a
0|0|rename|/f|/a
0|0|rename|/a|/f
0|0|rename|/x|/y
0|0|rename|/|/z
0|0|rename|/a|/a
0|0|mkdir|/e|755
0|0|rename|/a/b|/e
",
        b"falcon-transcript 1
nodes 1
lanes 1
sent 1.1 0:0 mkdir /a 755
commit 1.1 256
answered 1.1 0 ok
sent 1.2 0:0 mkdir /a/b 755
commit 1.2 512
answered 1.2 1 ok
sent 1.3 0:0 create /f 644
commit 1.3 768
answered 1.3 2 ok
sent 1.4 0:0 rename /a /a/b/c
answered 1.4 3 EINVAL
sent 1.5 0:0 rename /a/b /a
answered 1.5 3 ENOTEMPTY
sent 1.6 0:0 rename /f /a
answered 1.6 3 EISDIR
sent 1.7 0:0 rename /a /f
answered 1.7 3 ENOTDIR
sent 1.8 0:0 rename /x /y
answered 1.8 3 ENOENT
sent 1.9 0:0 rename / /z
answered 1.9 3 EBUSY
sent 1.10 0:0 rename /a /a
answered 1.10 3 ok
sent 1.11 0:0 mkdir /e 755
commit 1.11 1024
answered 1.11 3 ok
sent 1.12 0:0 rename /a/b /e
commit 1.12 0
answered 1.12 4 ok
tree 4
0 / 1 dir 755 0:0 0
1 a 256 dir 755 0:0 0
1 e 512 dir 755 0:0 0
1 f 768 file 644 0:0 0
calls 12
ok 6
failed 6
commits 5
directories 3
files 1
",
    )
}

// Each verb, and bytes of names that are not plain.
fn verbs() -> (&'static [u8], &'static [u8]) {
    (
        b"0|0|create|//y z%\x7f/|7
0|0|access|/a|6
0|0|chmod|/y z%\x7f|750
0|0|chown|/y z%\x7f|5|70
0|0|truncate|/y z%\x7f|1000
0|0|unlink|a
0|0|rmdir|/
0|0|list|/\xff
0|0|list|/
0|0|rename|/a|/b
0|0|stat|/a\0
0|0|stat|/y z%\x7f
0|0|mkdir|/d|40
0|0|rmdir|/d
",
        b"falcon-transcript 1
nodes 1
lanes 1
sent 1.1 0:0 create /y%20z%25%7F 007
commit 1.1 256
answered 1.1 0 ok
sent 1.2 0:0 access /a 6
answered 1.2 1 ENOENT
sent 1.3 0:0 chmod /y%20z%25%7F 750
commit 1.3 0
answered 1.3 1 ok
sent 1.4 0:0 chown /y%20z%25%7F 5 70
commit 1.4 0
answered 1.4 2 ok
sent 1.5 0:0 truncate /y%20z%25%7F 1000
commit 1.5 0
answered 1.5 3 ok
sent 1.6 0:0 unlink a
answered 1.6 4 EINVAL
sent 1.7 0:0 rmdir /
answered 1.7 4 EBUSY
sent 1.8 0:0 list /%FF
answered 1.8 4 ENOENT
sent 1.9 0:0 list /
answered 1.9 4 names 1 y%20z%25%7F
sent 1.10 0:0 rename /a /b
answered 1.10 4 ENOENT
sent 1.11 0:0 stat /a%00
answered 1.11 4 EINVAL
sent 1.12 0:0 stat /y%20z%25%7F
answered 1.12 4 stat 256 file 750 5:70 1000
sent 1.13 0:0 mkdir /d 040
commit 1.13 512
answered 1.13 4 ok
sent 1.14 0:0 rmdir /d
commit 1.14 0
answered 1.14 5 ok
tree 2
0 / 1 dir 755 0:0 0
1 y%20z%25%7F 256 file 750 5:70 1000
calls 14
ok 8
failed 6
commits 6
directories 1
files 1
",
    )
}

/// The text of entries that no run of the plain tree has.
pub fn other_entries() -> &'static [u8] {
    b"falcon-transcript 1
nodes 1
lanes 1
opened 1.2 257 3
placed 1.3 1
stale 1.4 0 1
answered 1.5 0 ENOSPC
answered 1.6 0 ENAMETOOLONG
tree 0
calls 2
ok 0
failed 2
commits 0
directories 0
files 0
"
}
