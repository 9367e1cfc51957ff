//! Calls and questions that wait until an operation has opened its keys.

use crate::running::run_all;
use std::test::Fail;

const TEXTS: [&str; 3] = [
    "\
# A rename has both its keys shut. A call on each of them waits, and so does a question about the old one, which is then told to nobody.
nodes 3
lanes 4
call 1 0:0 mkdir /a 755
call 1 0:0 rename /a /c
call 2 0:0 stat /a
call 3 0:0 create /c 644
call 4 0:0 stat /a/x
send lane 1
drain
expect
  sent 1.1 0:0 mkdir /a 755
  commit 1.1 257
  answered 1.1 0 ok
send lane 1
hear Call
start
deliver node 0 FetchAsk
serve node 0
hear FetchGot
deliver node 0 Lock
serve node 0
deliver node 1 Lock
serve node 1
send lane 2
deliver node 1 Call
refused gather node 1
send lane 3
deliver node 0 Call
gather node 0
deliver node 0 FetchAsk
serve node 0
deliver node 0 FetchGot
refused gather node 0
send lane 4
deliver node 2 Call
gather node 2
deliver node 0 FetchAsk
serve node 0
deliver node 2 FetchGot
gather node 2
deliver node 1 FetchAsk
refused serve node 1 item 1
deliver node 2 Lock
serve node 2
refused gather node 2
hear Locked
hear Locked
hear Locked
get lane 1 Reply
refused gather node 0
refused gather node 1
refused gather node 2
refused serve node 1 item 1
deliver node 1 Commit
serve node 1
nothing deliver node 2 FetchGot
drain
expect
  sent 1.2 0:0 rename /a /c
  sent 2.1 0:0 stat /a
  sent 3.1 0:0 create /c 644
  sent 4.1 0:0 stat /a/x
  commit 1.2 0
  answered 1.2 1 ok
  answered 3.1 2 EEXIST
  answered 2.1 2 ENOENT
  answered 4.1 2 ENOENT
quiet
rows
  0 / 1 dir 755 0:0 0
  1 c 257 dir 755 0:0 0
",
    "\
# Of two calls at a node, the one through the shut key waits, and the other goes on.
nodes 3
lanes 3
batch 4
call 1 0:0 mkdir /a 755
call 1 0:0 create /x 644
call 1 0:0 rename /a /b
call 2 0:0 stat /a/x
call 3 0:0 stat /x
send lane 1
drain
send lane 1
drain
expect
  sent 1.1 0:0 mkdir /a 755
  commit 1.1 257
  answered 1.1 0 ok
  sent 1.2 0:0 create /x 644
  commit 1.2 258
  answered 1.2 1 ok
send lane 1
hear Call
start
deliver node 0 FetchAsk
serve node 0
hear FetchGot
deliver node 2 Lock
serve node 2
send lane 2
send lane 3
deliver node 2 Call
deliver node 2 Call
gather node 2
refused gather node 2
exec node 2
release node 2
get lane 3 Reply
refused gather node 2
drain
expect
  sent 1.3 0:0 rename /a /b
  sent 2.1 0:0 stat /a/x
  sent 3.1 0:0 stat /x
  answered 3.1 2 stat 258 file 644 0:0 0
  commit 1.3 0
  answered 1.3 2 ok
  answered 2.1 3 ENOENT
quiet
",
    "\
# A batch holds one key of a rename at the one node and another at the other. Each Lock waits for its own.
nodes 3
lanes 3
call 1 0:0 mkdir /a 755
call 1 0:0 rename /a /c
call 2 0:0 stat /a
call 3 0:0 create /c 644
send lane 1
drain
send lane 2
deliver node 1 Call
gather node 1
send lane 3
deliver node 0 Call
gather node 0
deliver node 0 FetchAsk
serve node 0
deliver node 0 FetchGot
gather node 0
send lane 1
hear Call
start
deliver node 0 FetchAsk
serve node 0
hear FetchGot
deliver node 0 Lock
deliver node 1 Lock
deliver node 2 Lock
serve node 2
refused serve node 0 item 3
refused serve node 1 item 0
exec node 0
release node 0
serve node 0
refused serve node 1 item 0
exec node 1
release node 1
serve node 1
drain
expect
  sent 1.1 0:0 mkdir /a 755
  commit 1.1 257
  answered 1.1 0 ok
  sent 2.1 0:0 stat /a
  sent 3.1 0:0 create /c 644
  sent 1.2 0:0 rename /a /c
  commit 3.1 256
  answered 2.1 2 stat 257 dir 755 0:0 0
  answered 3.1 1 ok
  answered 1.2 2 ENOTDIR
quiet
",
];

#[test]
fn what_waits_for_an_operation(rt: HostRuntime) -> Result<(), Fail> {
    run_all(&rt, rt.alloc(), &TEXTS)
}
