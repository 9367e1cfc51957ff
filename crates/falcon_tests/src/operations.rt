//! Scripts of the coordinator's operations, with what the program writes.

/// Each script, and its transcript.
pub const OPERATIONS: [(&str, &str); 2] = [
    // where a rename may not go, what gives way to it, and both its ends at other nodes
    (
        "\
falcon-script 1
nodes 3
lanes 1
1 0:0 mkdir /a 755
1 0:0 mkdir /a/b 755
1 0:0 mkdir /a/b/c 755
1 0:0 create /a/x 644
1 0:0 create /f 600
1 0:0 mkdir /e 755
1 0:0 mkdir /e/g 755
1 0:0 rename /a /a/b
1 0:0 rename /a /a/b/c/d
1 0:0 rename /a/b /a
1 0:0 rename /e /a
1 0:0 rename /e/g /a/b
1 0:0 rename /a/x /a/b
1 0:0 rename /a/b /a/x
1 0:0 rename /a /f/z
1 0:0 rename /none /none
1 0:0 rename /none /a
1 0:0 rename /a /none/z
1 0:0 rename /f /f
1 0:0 rename /a/b/ //a/b
1 0:0 rename / /z
1 0:0 rename /a /
1 0:0 rename / /
1 0:0 rename /a/x /f
1 0:0 rename /a/b/c /e/g
1 0:0 rename /e /a/b
",
        "\
falcon-transcript 1
nodes 3
lanes 1
sent 1.1 0:0 mkdir /a 755
commit 1.1 257
answered 1.1 0 ok
sent 1.2 0:0 mkdir /a/b 755
commit 1.2 513
answered 1.2 1 ok
sent 1.3 0:0 mkdir /a/b/c 755
commit 1.3 256
answered 1.3 2 ok
sent 1.4 0:0 create /a/x 644
commit 1.4 258
answered 1.4 3 ok
sent 1.5 0:0 create /f 600
commit 1.5 512
answered 1.5 4 ok
sent 1.6 0:0 mkdir /e 755
commit 1.6 768
answered 1.6 5 ok
sent 1.7 0:0 mkdir /e/g 755
commit 1.7 514
answered 1.7 6 ok
sent 1.8 0:0 rename /a /a/b
answered 1.8 7 EINVAL
sent 1.9 0:0 rename /a /a/b/c/d
answered 1.9 7 EINVAL
sent 1.10 0:0 rename /a/b /a
answered 1.10 7 ENOTEMPTY
sent 1.11 0:0 rename /e /a
answered 1.11 7 ENOTEMPTY
sent 1.12 0:0 rename /e/g /a/b
answered 1.12 7 ENOTEMPTY
sent 1.13 0:0 rename /a/x /a/b
answered 1.13 7 EISDIR
sent 1.14 0:0 rename /a/b /a/x
answered 1.14 7 ENOTDIR
sent 1.15 0:0 rename /a /f/z
answered 1.15 7 ENOTDIR
sent 1.16 0:0 rename /none /none
answered 1.16 7 ENOENT
sent 1.17 0:0 rename /none /a
answered 1.17 7 ENOENT
sent 1.18 0:0 rename /a /none/z
answered 1.18 7 ENOENT
sent 1.19 0:0 rename /f /f
answered 1.19 7 ok
sent 1.20 0:0 rename /a/b /a/b
answered 1.20 7 ok
sent 1.21 0:0 rename / /z
answered 1.21 7 EBUSY
sent 1.22 0:0 rename /a /
answered 1.22 7 EBUSY
sent 1.23 0:0 rename / /
answered 1.23 7 EBUSY
sent 1.24 0:0 rename /a/x /f
commit 1.24 0
answered 1.24 7 ok
sent 1.25 0:0 rename /a/b/c /e/g
commit 1.25 0
answered 1.25 8 ok
sent 1.26 0:0 rename /e /a/b
commit 1.26 0
answered 1.26 9 ok
tree 5
0 / 1 dir 755 0:0 0
1 a 257 dir 755 0:0 0
1 f 258 file 644 0:0 0
257 b 768 dir 755 0:0 0
768 g 256 dir 755 0:0 0
calls 26
ok 12
failed 14
commits 10
directories 4
files 1
",
    ),
    // one path breaks a rule and the other does not, and the root itself
    (
        "\
falcon-script 1
nodes 2
lanes 1
1 0:0 mkdir /a 755
1 0:0 rename a /b
1 0:0 rename /a b
1 0:0 rename /a/.. /b
1 0:0 rename /none /b/.
1 0:0 rename / a
1 0:0 rename a /
1 0:0 rename /a /b%00
1 0:0 rename /a%2fb /c
1 0:0 rmdir a
1 0:0 rmdir /..
1 0:0 chmod /a/. 700
1 0:0 chown a 1 1
1 0:0 chmod / 711
1 0:0 chown / 1 1
1 0:0 rename /a /b
",
        "\
falcon-transcript 1
nodes 2
lanes 1
sent 1.1 0:0 mkdir /a 755
commit 1.1 256
answered 1.1 0 ok
sent 1.2 0:0 rename a /b
answered 1.2 1 EINVAL
sent 1.3 0:0 rename /a b
answered 1.3 1 EINVAL
sent 1.4 0:0 rename /a/.. /b
answered 1.4 1 EINVAL
sent 1.5 0:0 rename /none /b/.
answered 1.5 1 EINVAL
sent 1.6 0:0 rename / a
answered 1.6 1 EINVAL
sent 1.7 0:0 rename a /
answered 1.7 1 EINVAL
sent 1.8 0:0 rename /a /b%00
answered 1.8 1 EINVAL
sent 1.9 0:0 rename /a/b /c
answered 1.9 1 ENOENT
sent 1.10 0:0 rmdir a
answered 1.10 1 EINVAL
sent 1.11 0:0 rmdir /..
answered 1.11 1 EINVAL
sent 1.12 0:0 chmod /a/. 700
answered 1.12 1 EINVAL
sent 1.13 0:0 chown a 1 1
answered 1.13 1 EINVAL
sent 1.14 0:0 chmod / 711
commit 1.14 0
answered 1.14 1 ok
sent 1.15 0:0 chown / 1 1
commit 1.15 0
answered 1.15 2 ok
sent 1.16 0:0 rename /a /b
commit 1.16 0
answered 1.16 3 ok
tree 2
0 / 1 dir 711 1:1 0
1 b 256 dir 755 0:0 0
calls 16
ok 4
failed 12
commits 4
directories 2
files 0
",
    ),
];
