//! Records of an operation that come twice, out of their stage, or when another operation is under way.

use crate::running::run_all;
use std::test::Fail;

const TEXTS: [&str; 2] = [
    "\
# What comes to the coordinator of the operation before, twice or out of its stage, while it rests,
nodes 2
lanes 1
call 1 0:0 mkdir /a 755
call 1 0:0 rmdir /a
call 1 0:0 mkdir /b 755
call 1 0:0 mkdir /b/a 755
call 1 0:0 rmdir /b/a
send lane 1
drain
send lane 1
drain
send lane 1
drain
send lane 1
drain
expect
  sent 1.1 0:0 mkdir /a 755
  commit 1.1 256
  answered 1.1 0 ok
  sent 1.2 0:0 rmdir /a
  commit 1.2 0
  answered 1.2 1 ok
  sent 1.3 0:0 mkdir /b 755
  commit 1.3 257
  answered 1.3 2 ok
  sent 1.4 0:0 mkdir /b/a 755
  commit 1.4 512
  answered 1.4 3 ok
nothing again hear Call
nothing again hear FetchGot
nothing again hear Locked from node 0
nothing again hear Counted from node 0
nothing again hear Done from node 0
refused start
# walks,
send lane 1
hear Call
nothing again hear Call
start
refused start
nothing again hear Call
nothing again hear FetchGot
nothing again hear Locked from node 0
nothing again hear Counted from node 1
nothing again hear Done from node 0
deliver node 1 FetchAsk
serve node 1
hear FetchGot
# waits for the nodes to shut the keys,
nothing again hear Call
nothing again hear FetchGot
nothing again hear Locked from node 0
nothing again hear Counted from node 0
nothing again hear Done from node 1
deliver node 0 Lock
serve node 0
hear Locked from node 0
nothing again hear Locked from node 0
nothing again hear Locked from node 1
deliver node 1 Lock
serve node 1
hear Locked from node 1
# counts,
refused start
nothing again hear Call
nothing again hear FetchGot
nothing again hear Locked from node 0
nothing again hear first Locked from node 0
nothing again hear Counted from node 0
nothing again hear Done from node 0
deliver node 0 Count
hear Counted from node 0
nothing again hear Counted from node 0
nothing again hear Counted from node 1
again deliver node 0 Count
nothing hear Counted from node 0
deliver node 1 Count
hear Counted from node 1
# waits for the nodes to open the keys,
refused start
nothing again hear Call
nothing again hear FetchGot
nothing again hear Locked from node 1
nothing again hear Counted from node 1
nothing again hear first Counted from node 1
nothing again hear Done from node 0
nothing again hear Done from node 1
deliver node 0 Commit
hear Done from node 0
nothing again hear Done from node 0
nothing again hear Done from node 1
busy
deliver node 1 Commit
hear Done from node 1
# and rests again.
nothing again hear Call
nothing again hear FetchGot
nothing again hear Locked from node 0
nothing again hear Counted from node 0
nothing again hear Done from node 0
nothing again hear Done from node 1
refused start
get lane 1 Reply
nothing again get lane 1 Reply
expect
  sent 1.5 0:0 rmdir /b/a
  commit 1.5 0
  answered 1.5 4 ok
quiet
rows
  0 / 1 dir 755 0:0 0
  1 b 257 dir 755 0:0 0
",
    "\
# What comes to a node of the operation before, twice or out of its stage, while it does not know of the next one,
nodes 2
lanes 1
call 1 0:0 mkdir /a 755
call 1 0:0 rmdir /a
call 1 0:0 mkdir /b 755
call 1 0:0 mkdir /b/a 755
call 1 0:0 rmdir /b/a
send lane 1
drain
send lane 1
drain
send lane 1
drain
send lane 1
drain
expect
  sent 1.1 0:0 mkdir /a 755
  commit 1.1 256
  answered 1.1 0 ok
  sent 1.2 0:0 rmdir /a
  commit 1.2 0
  answered 1.2 1 ok
  sent 1.3 0:0 mkdir /b 755
  commit 1.3 257
  answered 1.3 2 ok
  sent 1.4 0:0 mkdir /b/a 755
  commit 1.4 512
  answered 1.4 3 ok
nothing again deliver node 0 Lock
nothing again deliver node 0 Count
nothing again deliver node 0 Commit
send lane 1
hear Call
start
deliver node 1 FetchAsk
serve node 1
hear FetchGot
nothing again deliver node 0 Lock
nothing again deliver node 0 Count
nothing again deliver node 0 Commit
# is yet to shut its keys,
deliver node 0 Lock
nothing again deliver node 0 Lock
nothing again deliver node 0 first Lock
nothing again deliver node 0 Count
nothing again deliver node 0 Commit
# has them shut,
serve node 0
nothing again deliver node 0 Lock
nothing again deliver node 0 first Lock
nothing again deliver node 0 Count
nothing again deliver node 0 Commit
hear Locked from node 0
deliver node 1 Lock
serve node 1
hear Locked from node 1
# has counted,
deliver node 0 Count
nothing again deliver node 0 Lock
nothing again deliver node 0 first Count
nothing again deliver node 0 Commit
hear Counted from node 0
deliver node 1 Count
hear Counted from node 1
nothing again deliver node 0 Commit
# and has opened them again, with the operation at its end or not.
deliver node 0 Commit
nothing again deliver node 0 Lock
nothing again deliver node 0 first Lock
nothing again deliver node 0 Count
nothing again deliver node 0 first Count
nothing again deliver node 0 Commit
nothing again deliver node 0 first Commit
hear Done from node 0
deliver node 1 Commit
hear Done from node 1
nothing again deliver node 0 Lock
nothing again deliver node 0 Count
nothing again deliver node 0 Commit
nothing again deliver node 1 Lock
nothing again deliver node 1 Count
nothing again deliver node 1 Commit
get lane 1 Reply
expect
  sent 1.5 0:0 rmdir /b/a
  commit 1.5 0
  answered 1.5 4 ok
quiet
rows
  0 / 1 dir 755 0:0 0
  1 b 257 dir 755 0:0 0
",
];

#[test]
fn records_out_of_place_change_nothing(rt: HostRuntime) -> Result<(), Fail> {
    run_all(&rt, rt.alloc(), &TEXTS)
}
