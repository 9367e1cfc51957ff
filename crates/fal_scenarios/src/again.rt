//! Records that come twice.

use crate::running::run_all;
use std::test::Fail;

const TEXTS: [&str; 5] = [
    "\
# A call comes again after it was answered.
nodes 3
lanes 2
call 1 0:0 mkdir /a 755
call 2 0:0 create /a/x 644
send lane 1
drain
expect
  sent 1.1 0:0 mkdir /a 755
  commit 1.1 257
  answered 1.1 0 ok
quiet
nothing again deliver node 1 Call
expect
quiet
send lane 2
",
    "\
# A reply comes again.
nodes 3
lanes 2
call 1 0:0 mkdir /a 755
call 2 0:0 create /a/x 644
send lane 1
drain
expect
  sent 1.1 0:0 mkdir /a 755
  commit 1.1 257
  answered 1.1 0 ok
nothing again get lane 1 Reply
expect
quiet
",
    "\
# Each record on the way of a call comes twice, while it waits and after.
nodes 3
lanes 1
call 1 0:0 mkdir /a 755
call 1 0:0 create /a/x 644
send lane 1
drain
send lane 1
nothing again get lane 1 Reply
deliver node 2 Call
nothing again deliver node 2 Call
gather node 2
nothing again deliver node 2 Call
refused gather node 2
deliver node 0 FetchAsk
again deliver node 0 FetchAsk
serve node 0
serve node 0
deliver node 2 FetchGot
deliver node 2 FetchGot
nothing again deliver node 2 FetchGot
gather node 2
deliver node 1 FetchAsk
serve node 1
again deliver node 1 FetchAsk
serve node 1
deliver node 2 FetchGot
deliver node 2 FetchGot
gather node 2
nothing again deliver node 2 Call
exec node 2
nothing again deliver node 2 Call
release node 2
nothing again deliver node 2 Call
get lane 1 Reply
nothing again get lane 1 Reply
quiet
expect
  sent 1.1 0:0 mkdir /a 755
  commit 1.1 257
  answered 1.1 0 ok
  sent 1.2 0:0 create /a/x 644
  commit 1.2 258
  answered 1.2 1 ok
",
    "\
# Each Call, Lock and Commit comes three times, and in between what came before.
nodes 2
lanes 1
call 1 0:0 mkdir /a 755
call 1 0:0 rmdir /a
send lane 1
deliver node 0 Call
nothing again deliver node 0 Call
nothing again deliver node 0 Call
drain
send lane 1
hear Call
nothing again hear Call
nothing again hear Call
start
refused start
deliver node 0 FetchAsk
serve node 0
hear FetchGot
nothing again hear FetchGot
deliver node 0 Lock
nothing again deliver node 0 Lock
serve node 0
nothing again deliver node 0 Lock
deliver node 1 Lock
nothing again deliver node 1 Lock
nothing again deliver node 1 Lock
serve node 1
hear Locked from node 1
nothing again hear Locked from node 1
hear Locked from node 0
nothing again hear Locked from node 0
deliver node 0 Count
again deliver node 0 Count
deliver node 1 Count
nothing again deliver node 0 Lock
hear Counted from node 0
nothing hear Counted from node 0
nothing again hear Counted from node 0
hear Counted from node 1
nothing again hear Counted from node 1
deliver node 0 Commit
nothing again deliver node 0 Commit
nothing again deliver node 0 Commit
nothing again deliver node 0 Count
nothing again deliver node 0 Lock
hear Done from node 0
nothing again hear Done from node 0
busy
deliver node 1 Commit
nothing again deliver node 1 Commit
nothing again deliver node 1 Commit
nothing again hear Locked from node 1
nothing again hear Counted from node 1
hear Done from node 1
nothing again hear Done from node 1
nothing again hear Call
refused start
get lane 1 Reply
nothing again get lane 1 Reply
quiet
expect
  sent 1.1 0:0 mkdir /a 755
  commit 1.1 256
  answered 1.1 0 ok
  sent 1.2 0:0 rmdir /a
  commit 1.2 0
  answered 1.2 1 ok
rows
  0 / 1 dir 755 0:0 0
",
    "\
# What was sent for an operation that is over comes again while the next one is at each of its stages.
nodes 2
lanes 1
call 1 0:0 mkdir /a 755
call 1 0:0 rmdir /a
call 1 0:0 mkdir /a 700
call 1 0:0 rmdir /a
send lane 1
drain
send lane 1
drain
send lane 1
drain
send lane 1
nothing again hear Call
nothing again hear FetchGot
nothing again hear Locked from node 0
nothing again hear Counted from node 0
nothing again hear Done from node 0
hear Call
start
nothing again hear Locked from node 1
nothing again hear Counted from node 1
nothing again hear Done from node 1
nothing again deliver node 0 Lock
nothing again deliver node 0 Count
nothing again deliver node 0 Commit
deliver node 0 Lock
serve node 0
nothing again deliver node 1 Lock
nothing again deliver node 1 Count
nothing again deliver node 1 Commit
deliver node 1 Lock
serve node 1
nothing again deliver node 0 Commit
nothing again deliver node 1 Commit
hear Locked from node 0
nothing again hear Counted from node 1
nothing again hear Done from node 1
hear Locked from node 1
nothing again hear Done from node 0
nothing again hear Done from node 1
drain
expect
  sent 1.1 0:0 mkdir /a 755
  commit 1.1 256
  answered 1.1 0 ok
  sent 1.2 0:0 rmdir /a
  commit 1.2 0
  answered 1.2 1 ok
  sent 1.3 0:0 mkdir /a 700
  commit 1.3 512
  answered 1.3 2 ok
  sent 1.4 0:0 rmdir /a
  commit 1.4 0
  answered 1.4 3 ok
quiet
rows
  0 / 1 dir 755 0:0 0
",
];

#[test]
fn records_that_come_twice(rt: HostRuntime) -> Result<(), Fail> {
    run_all(&rt, rt.alloc(), &TEXTS)
}
