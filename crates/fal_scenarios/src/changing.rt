//! Directories that change while they are listed.

use crate::running::run_all;
use std::test::Fail;

const TEXTS: [&str; 4] = [
    "\
# A directory is emptied and removed while it is listed.
nodes 3
lanes 2
call 1 0:0 mkdir /a 755
call 1 0:0 create /a/x 644
call 1 0:0 unlink /a/x
call 1 0:0 rmdir /a
call 2 0:0 list /a
call 2 0:0 list /a
send lane 1
drain
send lane 1
drain
send lane 2
deliver node 1 Call from lane 2
gather node 1
exec node 1
release node 1
get lane 2 Opened
deliver node 2 ListAsk
serve node 2
hold ListAsk to node 0
hold ListAsk to node 1
expect
  sent 1.1 0:0 mkdir /a 755
  commit 1.1 257
  answered 1.1 0 ok
  sent 1.2 0:0 create /a/x 644
  commit 1.2 258
  answered 1.2 1 ok
  sent 2.1 0:0 list /a
  opened 2.1 257 2
send lane 1
drain
send lane 1
drain
release held
drain
send lane 2
drain
expect
  sent 1.3 0:0 unlink /a/x
  commit 1.3 0
  answered 1.3 2 ok
  sent 1.4 0:0 rmdir /a
  commit 1.4 0
  answered 1.4 3 ok
  answered 2.1 4 names 1 x
  sent 2.2 0:0 list /a
  answered 2.2 4 ENOENT
quiet
",
    "\
# A directory gets another name and one file more while it is listed.
nodes 3
lanes 2
call 1 0:0 mkdir /a 755
call 1 0:0 create /a/x 644
call 1 0:0 rename /a /b
call 1 0:0 create /b/c 644
call 2 0:0 list /a
send lane 1
drain
send lane 1
drain
send lane 2
deliver node 1 Call from lane 2
gather node 1
exec node 1
release node 1
get lane 2 Opened
deliver node 2 ListAsk
serve node 2
hold ListAsk to node 0
hold ListAsk to node 1
expect
  sent 1.1 0:0 mkdir /a 755
  commit 1.1 257
  answered 1.1 0 ok
  sent 1.2 0:0 create /a/x 644
  commit 1.2 258
  answered 1.2 1 ok
  sent 2.1 0:0 list /a
  opened 2.1 257 2
send lane 1
drain
send lane 1
drain
release held
drain
expect
  sent 1.3 0:0 rename /a /b
  commit 1.3 0
  answered 1.3 2 ok
  sent 1.4 0:0 create /b/c 644
  commit 1.4 256
  answered 1.4 3 ok
  answered 2.1 4 names 2 c x
quiet
",
    "\
# A file that moves from node 2 to node 0 while its directory is listed is found under both its names where node 2 answers first,
nodes 3
lanes 2
call 1 0:0 mkdir /a 755
call 1 0:0 create /a/x 644
call 1 0:0 rename /a/x /a/c
call 2 0:0 list /a
send lane 1
drain
send lane 1
drain
send lane 2
deliver node 1 Call from lane 2
gather node 1
exec node 1
release node 1
get lane 2 Opened
deliver node 2 ListAsk
serve node 2
hold ListAsk to node 0
expect
  sent 1.1 0:0 mkdir /a 755
  commit 1.1 257
  answered 1.1 0 ok
  sent 1.2 0:0 create /a/x 644
  commit 1.2 258
  answered 1.2 1 ok
  sent 2.1 0:0 list /a
  opened 2.1 257 2
send lane 1
drain
release held
drain
expect
  sent 1.3 0:0 rename /a/x /a/c
  commit 1.3 0
  answered 1.3 2 ok
  answered 2.1 3 names 2 c x
quiet
",
    "\
# and under none of them where node 0 does: neither stood there throughout.
nodes 3
lanes 2
call 1 0:0 mkdir /a 755
call 1 0:0 create /a/x 644
call 1 0:0 rename /a/x /a/c
call 2 0:0 list /a
send lane 1
drain
send lane 1
drain
send lane 2
deliver node 1 Call from lane 2
gather node 1
exec node 1
release node 1
get lane 2 Opened
deliver node 0 ListAsk
serve node 0
hold ListAsk to node 2
expect
  sent 1.1 0:0 mkdir /a 755
  commit 1.1 257
  answered 1.1 0 ok
  sent 1.2 0:0 create /a/x 644
  commit 1.2 258
  answered 1.2 1 ok
  sent 2.1 0:0 list /a
  opened 2.1 257 2
send lane 1
drain
release held
drain
expect
  sent 1.3 0:0 rename /a/x /a/c
  commit 1.3 0
  answered 1.3 2 ok
  answered 2.1 3 names 0
quiet
",
];

#[test]
fn directories_change_while_listed(rt: HostRuntime) -> Result<(), Fail> {
    run_all(&rt, rt.alloc(), &TEXTS)
}
