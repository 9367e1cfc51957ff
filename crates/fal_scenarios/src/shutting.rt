//! Calls beside an operation of the coordinator, and operations beside each other.

use crate::running::run_all;
use std::test::Fail;

const TEXTS: [&str; 6] = [
    "\
# A call goes through a directory that is renamed away. Its batch was gathered first, and the Lock waits for it.
nodes 3
lanes 2
call 1 0:0 mkdir /a 755
call 1 0:0 create /a/x 644
call 1 0:0 stat /a/x
call 2 0:0 rename /a /b
send lane 1
drain
send lane 1
drain
expect
  sent 1.1 0:0 mkdir /a 755
  commit 1.1 257
  answered 1.1 0 ok
  sent 1.2 0:0 create /a/x 644
  commit 1.2 258
  answered 1.2 1 ok
send lane 1
deliver node 2 Call
gather node 2
send lane 2
hear Call
start
deliver node 0 FetchAsk
serve node 0
hear FetchGot
deliver node 2 Lock
refused serve node 2 item 0
exec node 2
refused serve node 2 item 0
release node 2
serve node 2
drain
expect
  sent 1.3 0:0 stat /a/x
  sent 2.1 0:0 rename /a /b
  answered 1.3 2 stat 258 file 644 0:0 0
  commit 2.1 0
  answered 2.1 2 ok
quiet
rows
  0 / 1 dir 755 0:0 0
  1 b 257 dir 755 0:0 0
  257 x 258 file 644 0:0 0
",
    "\
# The Lock comes first, and the call waits for the Commit.
nodes 3
lanes 2
call 1 0:0 mkdir /a 755
call 1 0:0 create /a/x 644
call 1 0:0 stat /a/x
call 2 0:0 rename /a /b
send lane 1
drain
send lane 1
drain
expect
  sent 1.1 0:0 mkdir /a 755
  commit 1.1 257
  answered 1.1 0 ok
  sent 1.2 0:0 create /a/x 644
  commit 1.2 258
  answered 1.2 1 ok
send lane 2
hear Call
start
deliver node 0 FetchAsk
serve node 0
hear FetchGot
deliver node 2 Lock
serve node 2
send lane 1
deliver node 2 Call
refused gather node 2
deliver node 0 Lock
serve node 0
deliver node 1 Lock
serve node 1
hear Locked
hear Locked
hear Locked
refused gather node 2
deliver node 2 Commit
gather node 2
drain
expect
  sent 2.1 0:0 rename /a /b
  sent 1.3 0:0 stat /a/x
  commit 2.1 0
  answered 2.1 2 ok
  answered 1.3 3 ENOENT
quiet
rows
  0 / 1 dir 755 0:0 0
  1 b 257 dir 755 0:0 0
  257 x 258 file 644 0:0 0
",
    "\
# A batch is gathered while the nodes that come first have the keys shut: it is carried out, and the operation finds what it made.
nodes 3
lanes 2
call 1 0:0 mkdir /a 755
call 1 0:0 stat /a/x
call 1 0:0 create /a/x 644
call 2 0:0 rmdir /a
send lane 1
drain
send lane 1
drain
expect
  sent 1.1 0:0 mkdir /a 755
  commit 1.1 257
  answered 1.1 0 ok
  sent 1.2 0:0 stat /a/x
  answered 1.2 1 ENOENT
send lane 1
send lane 2
hear Call
start
deliver node 0 FetchAsk
serve node 0
hear FetchGot
deliver node 0 Lock
serve node 0
deliver node 1 Lock
serve node 1
hear Locked
hear Locked
deliver node 2 Call
gather node 2
deliver node 2 Lock
refused serve node 2 item 0
drain
expect
  sent 1.3 0:0 create /a/x 644
  sent 2.1 0:0 rmdir /a
  commit 1.3 258
  answered 1.3 1 ok
  answered 2.1 2 ENOTEMPTY
quiet
",
    "\
# Two operations on one directory: the one that is heard first is carried out, and the other waits for its end.
nodes 3
lanes 2
call 1 0:0 mkdir /a 755
call 1 0:0 rename /a /b
call 2 0:0 rename /a /c
send lane 1
drain
send lane 1
send lane 2
hear Call from lane 2
hear Call from lane 1
start
refused start
hold Done from node 2
drain
refused start
expect
  sent 1.1 0:0 mkdir /a 755
  commit 1.1 257
  answered 1.1 0 ok
  sent 1.2 0:0 rename /a /b
  sent 2.1 0:0 rename /a /c
  commit 2.1 0
  answered 2.1 1 ok
release held
hear Done from node 2
start
drain
expect
  answered 1.2 2 ENOENT
quiet
rows
  0 / 1 dir 755 0:0 0
  1 c 257 dir 755 0:0 0
",
    "\
# Each of two directories is to move into the other at once. The one that is heard first moves.
nodes 3
lanes 2
call 1 0:0 mkdir /a 755
call 1 0:0 mkdir /b 755
call 1 0:0 rename /a /b/c
call 2 0:0 rename /b /a/c
send lane 1
drain
send lane 1
drain
send lane 1
send lane 2
finish
expect
  sent 1.1 0:0 mkdir /a 755
  commit 1.1 257
  answered 1.1 0 ok
  sent 1.2 0:0 mkdir /b 755
  commit 1.2 513
  answered 1.2 1 ok
  sent 1.3 0:0 rename /a /b/c
  sent 2.1 0:0 rename /b /a/c
  commit 1.3 0
  answered 1.3 2 ok
  answered 2.1 3 ENOENT
quiet
rows
  0 / 1 dir 755 0:0 0
  1 b 513 dir 755 0:0 0
  513 c 257 dir 755 0:0 0
",
    "\
# An answer that was found before a decision is heard after it, and keeps its point.
nodes 3
lanes 2
call 1 0:0 stat /a/x
call 2 0:0 mkdir /a 755
call 2 0:0 create /a/x 644
call 2 0:0 chmod /a 700
call 2 0:0 rename /a /c
hold Reply to lane 1
send lane 2
drain
send lane 2
drain
send lane 1
drain
send lane 2
drain
send lane 2
drain
busy
release held
drain
expect
  sent 2.1 0:0 mkdir /a 755
  commit 2.1 257
  answered 2.1 0 ok
  sent 2.2 0:0 create /a/x 644
  commit 2.2 258
  answered 2.2 1 ok
  sent 1.1 0:0 stat /a/x
  sent 2.3 0:0 chmod /a 700
  commit 2.3 0
  answered 2.3 2 ok
  sent 2.4 0:0 rename /a /c
  commit 2.4 0
  answered 2.4 3 ok
  answered 1.1 2 stat 258 file 644 0:0 0
quiet
rows
  0 / 1 dir 755 0:0 0
  1 c 257 dir 700 0:0 0
  257 x 258 file 644 0:0 0
",
];

#[test]
fn calls_beside_an_operation(rt: HostRuntime) -> Result<(), Fail> {
    run_all(&rt, rt.alloc(), &TEXTS)
}
