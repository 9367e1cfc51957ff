//! Orders of events.

use crate::running::run_all;
use std::test::Fail;

const TEXTS: [&str; 6] = [
    "\
# One call, event by event.
nodes 3
lanes 1
call 1 0:0 mkdir /a 755
send lane 1
deliver node 1 Call
gather node 1
deliver node 0 FetchAsk
serve node 0
deliver node 1 FetchGot
gather node 1
exec node 1
release node 1
get lane 1 Reply
quiet
expect
  sent 1.1 0:0 mkdir /a 755
  commit 1.1 257
  answered 1.1 0 ok
",
    "\
# Two creates of one name: the one that comes first is made.
nodes 3
lanes 2
batch 4
call 1 0:0 create /a 600
call 2 0:0 create /a 644
send lane 1
send lane 2
deliver node 1 Call
deliver node 1 Call
finish
expect
  sent 1.1 0:0 create /a 600
  sent 2.1 0:0 create /a 644
  commit 1.1 257
  answered 1.1 0 ok
  answered 2.1 1 EEXIST
",
    "\
# Random events, and after them all calls that are left.
nodes 3
lanes 2
batch 4
calls 60 from 11
events 300 from 12
finish
quiet
",
    "\
# All operations on more nodes and lanes.
nodes 4
lanes 4
batch 4
calls 240 from 21
events 1000 from 22
finish
quiet
",
    "\
# The same of single calls, with a rest in between.
nodes 4
lanes 4
calls 160 from 24
events 600 from 25
drain
quiet
events 400 from 26
finish
quiet
",
    "\
# The same of single calls on two nodes.
nodes 2
lanes 4
calls 120 from 31
events 1000 from 32
finish
quiet
",
];

#[test]
fn orders_of_events(rt: HostRuntime) -> Result<(), Fail> {
    run_all(&rt, rt.alloc(), &TEXTS)
}
