//! Names that are placed, and calls beside that.

use crate::running::run_all;
use std::test::Fail;

const TEXTS: [&str; 7] = [
    "\
# A client with an older table is told, and tries again. By parent the call is passed on, and nobody is told.
nodes 3
lanes 2
call 1 0:0 mkdir /a 755
call 1 0:0 create /a/x 644
call 1 0:0 place x node:1
call 2 0:0 stat /a/x
call 1 0:0 place x parent
call 2 0:0 stat /a/x
send lane 1
drain
send lane 1
drain
send lane 1
drain
send lane 2
drain
send lane 1
drain
send lane 2
drain
quiet
expect
  sent 1.1 0:0 mkdir /a 755
  commit 1.1 257
  answered 1.1 0 ok
  sent 1.2 0:0 create /a/x 644
  commit 1.2 258
  answered 1.2 1 ok
  sent 1.3 0:0 place x node:1
  placed 1.3 1
  answered 1.3 2 ok
  sent 2.1 0:0 stat /a/x
  stale 2.1 0 1
  answered 2.1 2 stat 258 file 644 0:0 0
  sent 1.4 0:0 place x parent
  placed 1.4 2
  answered 1.4 2 ok
  sent 2.2 0:0 stat /a/x
  answered 2.2 2 stat 258 file 644 0:0 0
rows
  0 / 1 dir 755 0:0 0
  1 a 257 dir 755 0:0 0
  257 x 258 file 644 0:0 0
",
    "\
# A name is created at its old owner after the node has given its rows away, and at its new owner before it has got them.
nodes 3
lanes 3
call 1 0:0 mkdir /a 755
call 1 0:0 place x node:1
call 2 0:0 create /a/x 644
call 3 0:0 create /a/x 600
send lane 1
drain
expect
  sent 1.1 0:0 mkdir /a 755
  commit 1.1 257
  answered 1.1 0 ok
send lane 1
hear Call
start
deliver node 2 Block
serve node 2
send lane 2
deliver node 2 Call
refused gather node 2
hear Blocked from node 2
deliver node 0 Block
serve node 0
hear Blocked from node 0
expect
  sent 1.2 0:0 place x node:1
  sent 2.1 0:0 create /a/x 644
deliver node 1 Block
serve node 1
hear Blocked from node 1
expect
  placed 1.2 1
refused gather node 2
deliver node 2 Install
gather node 2
get lane 2 Stale
nothing again get lane 2 Stale
deliver node 1 Call from lane 2
refused gather node 1
deliver node 1 Install
gather node 1
send lane 3
drain
expect
  stale 2.1 0 1
  sent 3.1 0:0 create /a/x 600
  answered 1.2 1 ok
  commit 2.1 513
  answered 2.1 1 ok
  stale 3.1 0 1
  answered 3.1 2 EEXIST
quiet
rows
  0 / 1 dir 755 0:0 0
  1 a 257 dir 755 0:0 0
  257 x 513 file 644 0:0 0
",
    "\
# Rows of two directories move, by their parents to two nodes, and then back to one.
nodes 4
lanes 2
call 1 0:0 mkdir /a 755
call 1 0:0 mkdir /b 755
call 1 0:0 create /a/x 644
call 1 0:0 mkdir /b/x 755
call 1 0:0 create /b/x/x 600
call 1 0:0 place x parent
call 2 0:0 stat /a/x
call 2 0:0 stat /b/x
call 2 0:0 stat /b/x/x
call 1 0:0 place x node:3
call 2 0:0 unlink /b/x/x
call 2 0:0 rmdir /b/x
call 2 0:0 stat /a/x
send lane 1
drain
send lane 1
drain
send lane 1
drain
send lane 1
drain
send lane 1
drain
send lane 1
drain
send lane 2
drain
send lane 2
drain
send lane 2
drain
send lane 1
drain
send lane 2
drain
send lane 2
drain
send lane 2
drain
quiet
expect
  sent 1.1 0:0 mkdir /a 755
  commit 1.1 256
  answered 1.1 0 ok
  sent 1.2 0:0 mkdir /b 755
  commit 1.2 257
  answered 1.2 1 ok
  sent 1.3 0:0 create /a/x 644
  commit 1.3 259
  answered 1.3 2 ok
  sent 1.4 0:0 mkdir /b/x 755
  commit 1.4 515
  answered 1.4 3 ok
  sent 1.5 0:0 create /b/x/x 600
  commit 1.5 771
  answered 1.5 4 ok
  sent 1.6 0:0 place x parent
  placed 1.6 1
  answered 1.6 5 ok
  sent 2.1 0:0 stat /a/x
  answered 2.1 5 stat 259 file 644 0:0 0
  sent 2.2 0:0 stat /b/x
  answered 2.2 5 stat 515 dir 755 0:0 0
  sent 2.3 0:0 stat /b/x/x
  answered 2.3 5 stat 771 file 600 0:0 0
  sent 1.7 0:0 place x node:3
  placed 1.7 2
  answered 1.7 5 ok
  sent 2.4 0:0 unlink /b/x/x
  commit 2.4 0
  answered 2.4 5 ok
  sent 2.5 0:0 rmdir /b/x
  commit 2.5 0
  answered 2.5 6 ok
  sent 2.6 0:0 stat /a/x
  answered 2.6 7 stat 259 file 644 0:0 0
rows
  0 / 1 dir 755 0:0 0
  1 a 256 dir 755 0:0 0
  1 b 257 dir 755 0:0 0
  256 x 259 file 644 0:0 0
",
    "\
# A client's table is two versions old. It is told of both changes at once.
nodes 3
lanes 2
call 1 0:0 mkdir /x 755
call 1 0:0 place x node:1
call 1 0:0 place x node:0
call 2 0:0 stat /x
call 2 0:0 stat /x
send lane 1
drain
send lane 1
drain
send lane 1
drain
send lane 2
drain
send lane 2
drain
quiet
expect
  sent 1.1 0:0 mkdir /x 755
  commit 1.1 258
  answered 1.1 0 ok
  sent 1.2 0:0 place x node:1
  placed 1.2 1
  answered 1.2 1 ok
  sent 1.3 0:0 place x node:0
  placed 1.3 2
  answered 1.3 1 ok
  sent 2.1 0:0 stat /x
  stale 2.1 0 2
  answered 2.1 1 stat 258 dir 755 0:0 0
  sent 2.2 0:0 stat /x
  answered 2.2 1 stat 258 dir 755 0:0 0
rows
  0 / 1 dir 755 0:0 0
  1 x 258 dir 755 0:0 0
",
    "\
# A question for a name that moves waits at its old owner, which passes it on, and then at the new one.
nodes 3
lanes 2
call 1 0:0 mkdir /x 755
call 2 0:0 create /x/y 644
call 1 0:0 place x node:0
send lane 1
drain
expect
  sent 1.1 0:0 mkdir /x 755
  commit 1.1 258
  answered 1.1 0 ok
send lane 1
hear Call
start
deliver node 2 Block
serve node 2
send lane 2
deliver node 1 Call
gather node 1
deliver node 0 FetchAsk
serve node 0
deliver node 1 FetchGot
gather node 1
deliver node 2 FetchAsk
refused serve node 2 item 1
deliver node 0 Block
serve node 0
deliver node 1 Block
serve node 1
hear Blocked
hear Blocked
hear Blocked
refused serve node 2 item 1
deliver node 2 Install
serve node 2
deliver node 0 FetchAsk from node 2
refused serve node 0 item 2
deliver node 0 Install
serve node 0
drain
expect
  sent 1.2 0:0 place x node:0
  sent 2.1 0:0 create /x/y 644
  placed 1.2 1
  answered 1.2 1 ok
  commit 2.1 257
  answered 2.1 1 ok
quiet
rows
  0 / 1 dir 755 0:0 0
  1 x 258 dir 755 0:0 0
  258 y 257 file 644 0:0 0
",
    "\
# Two names and one name twice are placed one after the other, and a file is renamed while its name is being placed.
nodes 3
lanes 4
call 1 0:0 create /x 644
call 1 0:0 place x node:1
call 2 0:0 place x node:0
call 3 0:0 rename /x /y
call 4 0:0 place y parent
send lane 1
drain
expect
  sent 1.1 0:0 create /x 644
  commit 1.1 258
  answered 1.1 0 ok
send lane 1
send lane 2
send lane 3
send lane 4
hear Call from lane 1
start
hear Call from lane 2
hear Call from lane 3
hear Call from lane 4
refused start
deliver node 0 Block
serve node 0
hear Blocked from node 0
nothing again hear Blocked from node 0
refused start
drain
nothing again hear Blocked from node 0
nothing again hear Installed from node 1
nothing again deliver node 0 Block
nothing again deliver node 2 Install
nothing again hear Call
expect
  sent 1.2 0:0 place x node:1
  sent 2.1 0:0 place x node:0
  sent 3.1 0:0 rename /x /y
  sent 4.1 0:0 place y parent
  placed 1.2 1
  answered 1.2 1 ok
  placed 2.1 2
  answered 2.1 1 ok
  commit 3.1 0
  answered 3.1 1 ok
  placed 4.1 3
  answered 4.1 2 ok
quiet
rows
  0 / 1 dir 755 0:0 0
  1 y 258 file 644 0:0 0
",
    "\
# Who may place a name: root alone, and at a node that is there.
nodes 2
lanes 1
call 1 1000:100 place x hash
call 1 1000:100 place x node:2
call 1 0:0 place x node:2
call 1 0:0 place x node:65535
call 1 0:0 place x node:1
call 1 0:0 place x hash
finish
quiet
expect
  sent 1.1 1000:100 place x hash
  answered 1.1 0 EPERM
  sent 1.2 1000:100 place x node:2
  answered 1.2 0 EPERM
  sent 1.3 0:0 place x node:2
  answered 1.3 0 EINVAL
  sent 1.4 0:0 place x node:65535
  answered 1.4 0 EINVAL
  sent 1.5 0:0 place x node:1
  placed 1.5 1
  answered 1.5 0 ok
  sent 1.6 0:0 place x hash
  placed 1.6 2
  answered 1.6 0 ok
",
];

#[test]
fn a_name_is_placed(rt: HostRuntime) -> Result<(), Fail> {
    run_all(&rt, rt.alloc(), &TEXTS)
}
