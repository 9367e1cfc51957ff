//! What the coordinator's operations answer, one after the other.

use crate::running::run_all;
use std::test::Fail;

const TEXTS: [&str; 5] = [
    "\
# A directory with an entry stays. The entry lives at node 2, its directory at node 1.
nodes 3
lanes 1
call 1 0:0 mkdir /a 755
call 1 0:0 create /a/x 644
call 1 0:0 rmdir /a
call 1 0:0 unlink /a/x
call 1 0:0 rmdir /a
finish
quiet
expect
  sent 1.1 0:0 mkdir /a 755
  commit 1.1 257
  answered 1.1 0 ok
  sent 1.2 0:0 create /a/x 644
  commit 1.2 258
  answered 1.2 1 ok
  sent 1.3 0:0 rmdir /a
  answered 1.3 2 ENOTEMPTY
  sent 1.4 0:0 unlink /a/x
  commit 1.4 0
  answered 1.4 2 ok
  sent 1.5 0:0 rmdir /a
  commit 1.5 0
  answered 1.5 3 ok
rows
  0 / 1 dir 755 0:0 0
",
    "\
# A directory is renamed into itself, over one with an entry, onto itself, over a file, to the root, and then away.
lanes 1
call 1 0:0 mkdir /a 755
call 1 0:0 mkdir /a/b 755
call 1 0:0 create /f 644
call 1 0:0 rename /a /a/b/c
call 1 0:0 rename /a/b /a
call 1 0:0 rename /a /a
call 1 0:0 rename /f /a
call 1 0:0 rename /a /f
call 1 0:0 rename /x /y
call 1 0:0 rename / /z
call 1 0:0 mkdir /e 755
call 1 0:0 rename /a/b /e
finish
quiet
expect
  sent 1.1 0:0 mkdir /a 755
  commit 1.1 256
  answered 1.1 0 ok
  sent 1.2 0:0 mkdir /a/b 755
  commit 1.2 512
  answered 1.2 1 ok
  sent 1.3 0:0 create /f 644
  commit 1.3 768
  answered 1.3 2 ok
  sent 1.4 0:0 rename /a /a/b/c
  answered 1.4 3 EINVAL
  sent 1.5 0:0 rename /a/b /a
  answered 1.5 3 ENOTEMPTY
  sent 1.6 0:0 rename /a /a
  answered 1.6 3 ok
  sent 1.7 0:0 rename /f /a
  answered 1.7 3 EISDIR
  sent 1.8 0:0 rename /a /f
  answered 1.8 3 ENOTDIR
  sent 1.9 0:0 rename /x /y
  answered 1.9 3 ENOENT
  sent 1.10 0:0 rename / /z
  answered 1.10 3 EBUSY
  sent 1.11 0:0 mkdir /e 755
  commit 1.11 1024
  answered 1.11 3 ok
  sent 1.12 0:0 rename /a/b /e
  commit 1.12 0
  answered 1.12 4 ok
rows
  0 / 1 dir 755 0:0 0
  1 a 256 dir 755 0:0 0
  1 e 512 dir 755 0:0 0
  1 f 768 file 644 0:0 0
",
    "\
# Owners and modes of a file in a directory of all users.
lanes 1
call 1 0:0 mkdir /h 777
call 1 1000:100 create /h/f 640
call 1 1000:200 access /h/f 6
call 1 1001:100 access /h/f 4
call 1 1001:100 access /h/f 2
call 1 1001:200 access /h/f 4
call 1 1001:200 access /h/f 0
call 1 1001:100 chmod /h/f 600
call 1 1000:100 chmod /h/f 040
call 1 1000:100 access /h/f 4
call 1 1000:100 chown /h/f 5 5
call 1 0:0 chown /h/f 5 5
call 1 0:0 truncate /h/f 10
call 1 0:0 truncate /h 1
call 1 0:0 stat /h/f
finish
quiet
expect
  sent 1.1 0:0 mkdir /h 777
  commit 1.1 256
  answered 1.1 0 ok
  sent 1.2 1000:100 create /h/f 640
  commit 1.2 512
  answered 1.2 1 ok
  sent 1.3 1000:200 access /h/f 6
  answered 1.3 2 ok
  sent 1.4 1001:100 access /h/f 4
  answered 1.4 2 ok
  sent 1.5 1001:100 access /h/f 2
  answered 1.5 2 EACCES
  sent 1.6 1001:200 access /h/f 4
  answered 1.6 2 EACCES
  sent 1.7 1001:200 access /h/f 0
  answered 1.7 2 ok
  sent 1.8 1001:100 chmod /h/f 600
  answered 1.8 2 EPERM
  sent 1.9 1000:100 chmod /h/f 040
  commit 1.9 0
  answered 1.9 2 ok
  sent 1.10 1000:100 access /h/f 4
  answered 1.10 3 EACCES
  sent 1.11 1000:100 chown /h/f 5 5
  answered 1.11 3 EPERM
  sent 1.12 0:0 chown /h/f 5 5
  commit 1.12 0
  answered 1.12 3 ok
  sent 1.13 0:0 truncate /h/f 10
  commit 1.13 0
  answered 1.13 4 ok
  sent 1.14 0:0 truncate /h 1
  answered 1.14 5 EISDIR
  sent 1.15 0:0 stat /h/f
  answered 1.15 5 stat 512 file 040 5:5 10
rows
  0 / 1 dir 755 0:0 0
  1 h 256 dir 777 0:0 0
  256 f 512 file 040 5:5 10
",
    "\
# Owners and modes of a directory: who may change them, and who may go through it before and after.
nodes 3
lanes 2
call 1 0:0 mkdir /a 755
call 1 0:0 create /a/x 644
call 2 1000:100 stat /a/x
call 1 1000:100 chmod /a 777
call 1 1000:100 chown /a 1000 100
call 1 0:0 chown /a 1000 100
call 1 1000:100 chmod /a 070
call 2 1000:100 stat /a/x
call 2 1001:100 stat /a/x
call 1 0:0 chmod / 700
call 2 1001:100 stat /a/x
call 1 0:0 chmod / 755
call 2 0:0 stat /a
send lane 1
drain
send lane 1
drain
send lane 2
drain
send lane 1
drain
send lane 1
drain
send lane 1
drain
send lane 1
drain
send lane 2
drain
send lane 2
drain
send lane 1
drain
send lane 2
drain
send lane 1
drain
send lane 2
drain
quiet
expect
  sent 1.1 0:0 mkdir /a 755
  commit 1.1 257
  answered 1.1 0 ok
  sent 1.2 0:0 create /a/x 644
  commit 1.2 258
  answered 1.2 1 ok
  sent 2.1 1000:100 stat /a/x
  answered 2.1 2 stat 258 file 644 0:0 0
  sent 1.3 1000:100 chmod /a 777
  answered 1.3 2 EPERM
  sent 1.4 1000:100 chown /a 1000 100
  answered 1.4 2 EPERM
  sent 1.5 0:0 chown /a 1000 100
  commit 1.5 0
  answered 1.5 2 ok
  sent 1.6 1000:100 chmod /a 070
  commit 1.6 0
  answered 1.6 3 ok
  sent 2.2 1000:100 stat /a/x
  answered 2.2 4 EACCES
  sent 2.3 1001:100 stat /a/x
  answered 2.3 4 stat 258 file 644 0:0 0
  sent 1.7 0:0 chmod / 700
  commit 1.7 0
  answered 1.7 4 ok
  sent 2.4 1001:100 stat /a/x
  answered 2.4 5 EACCES
  sent 1.8 0:0 chmod / 755
  commit 1.8 0
  answered 1.8 5 ok
  sent 2.5 0:0 stat /a
  answered 2.5 6 stat 257 dir 070 1000:100 0
rows
  0 / 1 dir 755 0:0 0
  1 a 257 dir 070 1000:100 0
  257 x 258 file 644 0:0 0
",
    "\
# A directory moves with all that is below it, twice, and then takes the place of an empty one.
nodes 4
lanes 2
call 1 0:0 mkdir /a 755
call 1 0:0 mkdir /a/b 755
call 1 0:0 mkdir /a/b/c 755
call 1 0:0 create /a/b/c/x 644
call 1 0:0 rename /a /d
call 1 0:0 rename /d/b /e
call 1 0:0 mkdir /g 755
call 1 0:0 rename /e /g
call 2 0:0 stat /a/b/c/x
call 2 0:0 stat /a/b/c/x
call 2 0:0 stat /d/b/c/x
call 2 0:0 stat /d/b/c/x
call 2 0:0 stat /e/c/x
call 2 0:0 stat /e/c/x
call 2 0:0 stat /g/c/x
send lane 1
drain
send lane 1
drain
send lane 1
drain
send lane 1
drain
send lane 2
drain
send lane 1
drain
send lane 2
drain
send lane 2
drain
send lane 1
drain
send lane 2
drain
send lane 2
drain
send lane 1
drain
send lane 1
drain
send lane 2
drain
send lane 2
drain
quiet
expect
  sent 1.1 0:0 mkdir /a 755
  commit 1.1 256
  answered 1.1 0 ok
  sent 1.2 0:0 mkdir /a/b 755
  commit 1.2 257
  answered 1.2 1 ok
  sent 1.3 0:0 mkdir /a/b/c 755
  commit 1.3 258
  answered 1.3 2 ok
  sent 1.4 0:0 create /a/b/c/x 644
  commit 1.4 259
  answered 1.4 3 ok
  sent 2.1 0:0 stat /a/b/c/x
  answered 2.1 4 stat 259 file 644 0:0 0
  sent 1.5 0:0 rename /a /d
  commit 1.5 0
  answered 1.5 4 ok
  sent 2.2 0:0 stat /a/b/c/x
  answered 2.2 5 ENOENT
  sent 2.3 0:0 stat /d/b/c/x
  answered 2.3 5 stat 259 file 644 0:0 0
  sent 1.6 0:0 rename /d/b /e
  commit 1.6 0
  answered 1.6 5 ok
  sent 2.4 0:0 stat /d/b/c/x
  answered 2.4 6 ENOENT
  sent 2.5 0:0 stat /e/c/x
  answered 2.5 6 stat 259 file 644 0:0 0
  sent 1.7 0:0 mkdir /g 755
  commit 1.7 514
  answered 1.7 6 ok
  sent 1.8 0:0 rename /e /g
  commit 1.8 0
  answered 1.8 7 ok
  sent 2.6 0:0 stat /e/c/x
  answered 2.6 8 ENOENT
  sent 2.7 0:0 stat /g/c/x
  answered 2.7 8 stat 259 file 644 0:0 0
rows
  0 / 1 dir 755 0:0 0
  1 d 256 dir 755 0:0 0
  1 g 257 dir 755 0:0 0
  257 c 258 dir 755 0:0 0
  258 x 259 file 644 0:0 0
",
];

#[test]
fn operations_of_the_coordinator(rt: HostRuntime) -> Result<(), Fail> {
    run_all(&rt, rt.alloc(), &TEXTS)
}
