//! Records that come late.

use crate::running::run_all;
use std::test::Fail;

const TEXTS: [&str; 5] = [
    "\
# What node 1 answers to node 2 is that there is no directory `a`. It comes after both calls of lane 2.
nodes 3
lanes 2
call 1 0:0 stat /a/x
call 2 0:0 mkdir /a 755
call 2 0:0 create /a/x 644
send lane 1
hold FetchGot from node 1 to node 2
drain
busy
send lane 2
drain
send lane 2
drain
expect
  sent 1.1 0:0 stat /a/x
  sent 2.1 0:0 mkdir /a 755
  commit 2.1 257
  answered 2.1 0 ok
  sent 2.2 0:0 create /a/x 644
  commit 2.2 258
  answered 2.2 1 ok
busy
release held
drain
expect
  answered 1.1 0 ENOENT
quiet
rows
  0 / 1 dir 755 0:0 0
  1 a 257 dir 755 0:0 0
  257 x 258 file 644 0:0 0
",
    "\
# A call that is sent first comes last, and another user has no right to it by then.
nodes 3
lanes 2
call 1 1000:100 mkdir /a 755
call 2 0:0 mkdir /a 700
call 2 0:0 stat /a
hold Call to node 1
send lane 1
send lane 2
drain
finish
busy
expect
  sent 1.1 1000:100 mkdir /a 755
  sent 2.1 0:0 mkdir /a 700
  commit 2.1 257
  answered 2.1 0 ok
  sent 2.2 0:0 stat /a
  answered 2.2 1 stat 257 dir 700 0:0 0
deliver node 1 Call
finish
expect
  answered 1.1 1 EEXIST
quiet
",
    "\
# What node 1 answers to node 2 is that any user may search `a`. It comes after the mode was changed.
nodes 3
lanes 2
call 1 1000:100 stat /a/x
call 2 0:0 mkdir /a 755
call 2 0:0 chmod /a 700
send lane 2
drain
hold FetchGot from node 1 to node 2
send lane 1
drain
hold Commit to node 2
send lane 2
drain
expect
  sent 2.1 0:0 mkdir /a 755
  commit 2.1 257
  answered 2.1 0 ok
  sent 1.1 1000:100 stat /a/x
  sent 2.2 0:0 chmod /a 700
  commit 2.2 0
  answered 2.2 1 ok
nothing deliver node 2 FetchGot
refused gather node 2
expect
release held
drain
expect
  answered 1.1 2 EACCES
quiet
",
    "\
# A fetch is under way for a name that leaves, and then for one whose directory is removed.
nodes 3
lanes 2
call 1 0:0 stat /a/x
call 1 0:0 stat /b/x
call 2 0:0 mkdir /a 755
call 2 0:0 rename /a /b
call 2 0:0 rmdir /b
send lane 2
drain
hold FetchGot from node 1 to node 2
send lane 1
drain
send lane 2
drain
busy
release held
drain
expect
  sent 2.1 0:0 mkdir /a 755
  commit 2.1 257
  answered 2.1 0 ok
  sent 1.1 0:0 stat /a/x
  sent 2.2 0:0 rename /a /b
  commit 2.2 0
  answered 2.2 1 ok
  answered 1.1 2 ENOENT
hold FetchGot from node 1 to node 2
send lane 1
drain
send lane 2
drain
busy
nothing deliver node 2 FetchGot from node 1
nothing again deliver node 2 FetchGot from node 1
drain
expect
  sent 1.2 0:0 stat /b/x
  sent 2.3 0:0 rmdir /b
  commit 2.3 0
  answered 2.3 2 ok
  answered 1.2 3 ENOENT
quiet
",
    "\
# What node 1 answers to the coordinator is that there is no directory `a`. It comes after one was made, with the file in it.
nodes 3
lanes 2
call 1 0:0 rename /a/x /b
call 2 0:0 mkdir /a 755
call 2 0:0 create /a/x 644
send lane 1
hold FetchGot from node 1 to coordinator
drain
busy
send lane 2
drain
send lane 2
drain
refused start
expect
  sent 1.1 0:0 rename /a/x /b
  sent 2.1 0:0 mkdir /a 755
  commit 2.1 257
  answered 2.1 0 ok
  sent 2.2 0:0 create /a/x 644
  commit 2.2 258
  answered 2.2 1 ok
release held
hear FetchGot
nothing again hear FetchGot
drain
expect
  answered 1.1 0 ENOENT
quiet
rows
  0 / 1 dir 755 0:0 0
  1 a 257 dir 755 0:0 0
  257 x 258 file 644 0:0 0
",
];

#[test]
fn records_that_come_late(rt: HostRuntime) -> Result<(), Fail> {
    run_all(&rt, rt.alloc(), &TEXTS)
}
