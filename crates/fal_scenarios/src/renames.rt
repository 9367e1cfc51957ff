//! Where a rename may not go, and paths that break a rule.

use crate::running::run_all;
use std::test::Fail;

const TEXTS: [&str; 3] = [
    "\
# Where a directory, or a file, may not go, and what gives way to it. The nodes of both ends differ.
nodes 3
lanes 1
call 1 0:0 mkdir /a 755
call 1 0:0 mkdir /a/b 755
call 1 0:0 mkdir /a/b/c 755
call 1 0:0 create /a/x 644
call 1 0:0 create /f 600
call 1 0:0 mkdir /e 755
call 1 0:0 mkdir /e/g 755
call 1 0:0 rename /a /a/b
call 1 0:0 rename /a /a/b/c/d
call 1 0:0 rename /a/b /a
call 1 0:0 rename /e /a
call 1 0:0 rename /e/g /a/b
call 1 0:0 rename /a/x /a/b
call 1 0:0 rename /a/b /a/x
call 1 0:0 rename /a /f/z
call 1 0:0 rename /none /none
call 1 0:0 rename /none /a
call 1 0:0 rename /a /none/z
call 1 0:0 rename /f /f
call 1 0:0 rename /a/b/ //a/b
call 1 0:0 rename / /z
call 1 0:0 rename /a /
call 1 0:0 rename / /
call 1 0:0 rename /a/x /f
call 1 0:0 rename /a/b/c /e/g
call 1 0:0 rename /e /a/b
finish
quiet
expect
  sent 1.1 0:0 mkdir /a 755
  commit 1.1 257
  answered 1.1 0 ok
  sent 1.2 0:0 mkdir /a/b 755
  commit 1.2 513
  answered 1.2 1 ok
  sent 1.3 0:0 mkdir /a/b/c 755
  commit 1.3 256
  answered 1.3 2 ok
  sent 1.4 0:0 create /a/x 644
  commit 1.4 258
  answered 1.4 3 ok
  sent 1.5 0:0 create /f 600
  commit 1.5 512
  answered 1.5 4 ok
  sent 1.6 0:0 mkdir /e 755
  commit 1.6 768
  answered 1.6 5 ok
  sent 1.7 0:0 mkdir /e/g 755
  commit 1.7 514
  answered 1.7 6 ok
  sent 1.8 0:0 rename /a /a/b
  answered 1.8 7 EINVAL
  sent 1.9 0:0 rename /a /a/b/c/d
  answered 1.9 7 EINVAL
  sent 1.10 0:0 rename /a/b /a
  answered 1.10 7 ENOTEMPTY
  sent 1.11 0:0 rename /e /a
  answered 1.11 7 ENOTEMPTY
  sent 1.12 0:0 rename /e/g /a/b
  answered 1.12 7 ENOTEMPTY
  sent 1.13 0:0 rename /a/x /a/b
  answered 1.13 7 EISDIR
  sent 1.14 0:0 rename /a/b /a/x
  answered 1.14 7 ENOTDIR
  sent 1.15 0:0 rename /a /f/z
  answered 1.15 7 ENOTDIR
  sent 1.16 0:0 rename /none /none
  answered 1.16 7 ENOENT
  sent 1.17 0:0 rename /none /a
  answered 1.17 7 ENOENT
  sent 1.18 0:0 rename /a /none/z
  answered 1.18 7 ENOENT
  sent 1.19 0:0 rename /f /f
  answered 1.19 7 ok
  sent 1.20 0:0 rename /a/b /a/b
  answered 1.20 7 ok
  sent 1.21 0:0 rename / /z
  answered 1.21 7 EBUSY
  sent 1.22 0:0 rename /a /
  answered 1.22 7 EBUSY
  sent 1.23 0:0 rename / /
  answered 1.23 7 EBUSY
  sent 1.24 0:0 rename /a/x /f
  commit 1.24 0
  answered 1.24 7 ok
  sent 1.25 0:0 rename /a/b/c /e/g
  commit 1.25 0
  answered 1.25 8 ok
  sent 1.26 0:0 rename /e /a/b
  commit 1.26 0
  answered 1.26 9 ok
rows
  0 / 1 dir 755 0:0 0
  1 a 257 dir 755 0:0 0
  1 f 258 file 644 0:0 0
  257 b 768 dir 755 0:0 0
  768 g 256 dir 755 0:0 0
",
    "\
# What another user than root may rename and remove.
nodes 3
lanes 1
call 1 0:0 mkdir /a 755
call 1 0:0 mkdir /a/b 777
call 1 0:0 create /a/b/x 600
call 1 0:0 mkdir /p 700
call 1 0:0 create /p/y 644
call 1 1000:100 rename /a /z
call 1 1000:100 rename /a/b /z
call 1 1000:100 rename /a/none /z
call 1 1000:100 rename /a /a
call 1 1000:100 rename /p/y /a/b/y
call 1 1000:100 rename /a/b/x /p/x
call 1 1000:100 rename /a/b/none /p/x
call 1 1000:100 rename /p/none /none/x
call 1 1000:100 rename /none/x /p/none
call 1 1000:100 rename /a/b/x /a/b/z
call 1 1000:100 rmdir /a/b
call 1 1000:100 rmdir /none
call 1 1000:100 rmdir /p/y
call 1 1000:100 rmdir /
call 1 1000:100 rmdir /a/b/z
finish
quiet
expect
  sent 1.1 0:0 mkdir /a 755
  commit 1.1 257
  answered 1.1 0 ok
  sent 1.2 0:0 mkdir /a/b 777
  commit 1.2 513
  answered 1.2 1 ok
  sent 1.3 0:0 create /a/b/x 600
  commit 1.3 258
  answered 1.3 2 ok
  sent 1.4 0:0 mkdir /p 700
  commit 1.4 256
  answered 1.4 3 ok
  sent 1.5 0:0 create /p/y 644
  commit 1.5 769
  answered 1.5 4 ok
  sent 1.6 1000:100 rename /a /z
  answered 1.6 5 EACCES
  sent 1.7 1000:100 rename /a/b /z
  answered 1.7 5 EACCES
  sent 1.8 1000:100 rename /a/none /z
  answered 1.8 5 ENOENT
  sent 1.9 1000:100 rename /a /a
  answered 1.9 5 ok
  sent 1.10 1000:100 rename /p/y /a/b/y
  answered 1.10 5 EACCES
  sent 1.11 1000:100 rename /a/b/x /p/x
  answered 1.11 5 EACCES
  sent 1.12 1000:100 rename /a/b/none /p/x
  answered 1.12 5 EACCES
  sent 1.13 1000:100 rename /p/none /none/x
  answered 1.13 5 EACCES
  sent 1.14 1000:100 rename /none/x /p/none
  answered 1.14 5 ENOENT
  sent 1.15 1000:100 rename /a/b/x /a/b/z
  commit 1.15 0
  answered 1.15 5 ok
  sent 1.16 1000:100 rmdir /a/b
  answered 1.16 6 EACCES
  sent 1.17 1000:100 rmdir /none
  answered 1.17 6 ENOENT
  sent 1.18 1000:100 rmdir /p/y
  answered 1.18 6 EACCES
  sent 1.19 1000:100 rmdir /
  answered 1.19 6 EBUSY
  sent 1.20 1000:100 rmdir /a/b/z
  answered 1.20 6 ENOTDIR
rows
  0 / 1 dir 755 0:0 0
  1 a 257 dir 755 0:0 0
  1 p 256 dir 700 0:0 0
  256 y 769 file 644 0:0 0
  257 b 513 dir 777 0:0 0
  513 z 258 file 600 0:0 0
",
    "\
# Paths that break a rule, each beside a good one in both orders, and both at once.
lanes 1
call 1 0:0 mkdir /a 755
call 1 0:0 rename a /b
call 1 0:0 rename /a b
call 1 0:0 rename /a/.. /b
call 1 0:0 rename /none /b/.
call 1 0:0 rename a /nnnnnnnnnnnnnnnnnnnnnnnnnnnnnnnnnnnnnnnnnnnnnnnnnnnnnnnnnnnnnnnnnnnnnnnnnnnnnnnnnnnnnnnnnnnnnnnnnnnnnnnnnnnnnnnnnnnnnnnnnnnnnnnnnnnnnnnnnnnnnnnnnnnnnnnnnnnnnnnnnnnnnnnnnnnnnnnnnnnnnnnnnnnnnnnnnnnnnnnnnnnnnnnnnnnnnnnnnnnnnnnnnnnnnnnnnnnnnnnnnnnnnnnnnnnnnnnn
call 1 0:0 rename /nnnnnnnnnnnnnnnnnnnnnnnnnnnnnnnnnnnnnnnnnnnnnnnnnnnnnnnnnnnnnnnnnnnnnnnnnnnnnnnnnnnnnnnnnnnnnnnnnnnnnnnnnnnnnnnnnnnnnnnnnnnnnnnnnnnnnnnnnnnnnnnnnnnnnnnnnnnnnnnnnnnnnnnnnnnnnnnnnnnnnnnnnnnnnnnnnnnnnnnnnnnnnnnnnnnnnnnnnnnnnnnnnnnnnnnnnnnnnnnnnnnnnnnnnnnnnnnn a
call 1 0:0 rename a /
call 1 0:0 rename / a
call 1 0:0 rmdir a
call 1 0:0 chmod /a/./ 700
call 1 0:0 chown a 1 1
finish
quiet
expect
  sent 1.1 0:0 mkdir /a 755
  commit 1.1 256
  answered 1.1 0 ok
  sent 1.2 0:0 rename a /b
  answered 1.2 1 EINVAL
  sent 1.3 0:0 rename /a b
  answered 1.3 1 EINVAL
  sent 1.4 0:0 rename /a/.. /b
  answered 1.4 1 EINVAL
  sent 1.5 0:0 rename /none /b/.
  answered 1.5 1 EINVAL
  sent 1.6 0:0 rename a /nnnnnnnnnnnnnnnnnnnnnnnnnnnnnnnnnnnnnnnnnnnnnnnnnnnnnnnnnnnnnnnnnnnnnnnnnnnnnnnnnnnnnnnnnnnnnnnnnnnnnnnnnnnnnnnnnnnnnnnnnnnnnnnnnnnnnnnnnnnnnnnnnnnnnnnnnnnnnnnnnnnnnnnnnnnnnnnnnnnnnnnnnnnnnnnnnnnnnnnnnnnnnnnnnnnnnnnnnnnnnnnnnnnnnnnnnnnnnnnnnnnnnnnnnnnnnnnn
  answered 1.6 1 EINVAL
  sent 1.7 0:0 rename /nnnnnnnnnnnnnnnnnnnnnnnnnnnnnnnnnnnnnnnnnnnnnnnnnnnnnnnnnnnnnnnnnnnnnnnnnnnnnnnnnnnnnnnnnnnnnnnnnnnnnnnnnnnnnnnnnnnnnnnnnnnnnnnnnnnnnnnnnnnnnnnnnnnnnnnnnnnnnnnnnnnnnnnnnnnnnnnnnnnnnnnnnnnnnnnnnnnnnnnnnnnnnnnnnnnnnnnnnnnnnnnnnnnnnnnnnnnnnnnnnnnnnnnnnnnnnnnn a
  answered 1.7 1 ENAMETOOLONG
  sent 1.8 0:0 rename a /
  answered 1.8 1 EINVAL
  sent 1.9 0:0 rename / a
  answered 1.9 1 EINVAL
  sent 1.10 0:0 rmdir a
  answered 1.10 1 EINVAL
  sent 1.11 0:0 chmod /a/./ 700
  answered 1.11 1 EINVAL
  sent 1.12 0:0 chown a 1 1
  answered 1.12 1 EINVAL
rows
  0 / 1 dir 755 0:0 0
  1 a 256 dir 755 0:0 0
",
];

#[test]
fn what_may_not_be_renamed_or_removed(rt: HostRuntime) -> Result<(), Fail> {
    run_all(&rt, rt.alloc(), &TEXTS)
}
