//! Calls that a node passes on to the coordinator.

use crate::running::run_all;
use std::test::Fail;

const TEXTS: [&str; 3] = [
    "\
# A chmod of a directory, event by event. The batch that passed it on holds the key, and the Lock waits for it.
nodes 2
lanes 1
call 1 0:0 mkdir /a 755
call 1 0:0 chmod /a 700
send lane 1
drain
send lane 1
deliver node 0 Call
gather node 0
exec node 0
nothing again deliver node 0 Call
refused start
hear Call
nothing again hear Call
start
nothing again hear Call
deliver node 0 FetchAsk
serve node 0
hear FetchGot
deliver node 0 Lock
refused serve node 0 item 2
release node 0
serve node 0
hear Locked
nothing again hear Locked
deliver node 1 Lock
serve node 1
hear Locked
nothing again hear Locked from node 0
nothing again hear Locked from node 1
get lane 1 Reply
expect
  sent 1.1 0:0 mkdir /a 755
  commit 1.1 256
  answered 1.1 0 ok
  sent 1.2 0:0 chmod /a 700
  commit 1.2 0
  answered 1.2 1 ok
nothing again deliver node 1 Lock
deliver node 1 Commit
nothing again deliver node 1 Lock
nothing again deliver node 1 Commit
hear Done
nothing again hear Done
rows
  0 / 1 dir 755 0:0 0
  1 a 256 dir 755 0:0 0
deliver node 0 Commit
hear Done
nothing again hear Done from node 1
quiet
rows
  0 / 1 dir 755 0:0 0
  1 a 256 dir 700 0:0 0
",
    "\
# The directory is removed while a chmod of it is on its way to the coordinator.
nodes 3
lanes 2
call 1 0:0 mkdir /a 755
call 1 0:0 chmod /a 700
call 2 0:0 rmdir /a
hold Call from node 1
send lane 1
drain
send lane 1
drain
send lane 2
drain
expect
  sent 1.1 0:0 mkdir /a 755
  commit 1.1 257
  answered 1.1 0 ok
  sent 1.2 0:0 chmod /a 700
  sent 2.1 0:0 rmdir /a
  commit 2.1 0
  answered 2.1 1 ok
release held
drain
expect
  answered 1.2 2 ENOENT
quiet
",
    "\
# A file has taken the directory's place by then, and gets the owner.
nodes 3
lanes 2
call 1 0:0 mkdir /a 755
call 1 0:0 chown /a 7 8
call 2 0:0 rmdir /a
call 2 0:0 create /a 644
hold Call from node 1
send lane 1
drain
send lane 1
drain
send lane 2
drain
send lane 2
drain
busy
release held
drain
expect
  sent 1.1 0:0 mkdir /a 755
  commit 1.1 257
  answered 1.1 0 ok
  sent 1.2 0:0 chown /a 7 8
  sent 2.1 0:0 rmdir /a
  commit 2.1 0
  answered 2.1 1 ok
  sent 2.2 0:0 create /a 644
  commit 2.2 513
  answered 2.2 2 ok
  commit 1.2 0
  answered 1.2 3 ok
quiet
rows
  0 / 1 dir 755 0:0 0
  1 a 513 file 644 7:8 0
",
];

#[test]
fn calls_that_are_passed_on(rt: HostRuntime) -> Result<(), Fail> {
    run_all(&rt, rt.alloc(), &TEXTS)
}
