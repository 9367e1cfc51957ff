//! Directories that are listed, and calls beside that.

use crate::running::run_all;
use std::test::Fail;

const TEXTS: [&str; 4] = [
    "\
# A listing, event by event. Parts come in any order, and once; the names rise. Records of it that come after its answer change nothing.
nodes 3
lanes 2
call 1 0:0 mkdir /a 755
call 1 0:0 create /a/x 644
call 1 0:0 create /a/c 644
call 1 0:0 create /a/b 644
call 2 0:0 list /a
call 2 0:0 list /
send lane 1
drain
send lane 1
drain
send lane 1
drain
send lane 1
drain
expect
  sent 1.1 0:0 mkdir /a 755
  commit 1.1 257
  answered 1.1 0 ok
  sent 1.2 0:0 create /a/x 644
  commit 1.2 258
  answered 1.2 1 ok
  sent 1.3 0:0 create /a/c 644
  commit 1.3 256
  answered 1.3 2 ok
  sent 1.4 0:0 create /a/b 644
  commit 1.4 513
  answered 1.4 3 ok
send lane 2
deliver node 1 Call from lane 2
gather node 1
exec node 1
release node 1
get lane 2 Opened
nothing again get lane 2 Opened
expect
  sent 2.1 0:0 list /a
  opened 2.1 257 4
deliver node 2 ListAsk
serve node 2
get lane 2 ListPart from node 2
nothing again get lane 2 ListPart from node 2
deliver node 0 ListAsk
serve node 0
get lane 2 ListPart from node 0
nothing again get lane 2 ListPart from node 2
nothing again get lane 2 ListPart from node 0
deliver node 1 ListAsk
serve node 1
get lane 2 ListPart from node 1
expect
  answered 2.1 4 names 3 b c x
nothing again get lane 2 ListPart from node 1
nothing again get lane 2 Opened
# a node answers a question that comes again, which its client does not take
again deliver node 0 ListAsk
serve node 0
nothing get lane 2 ListPart from node 0
quiet
# the same while the next call is under way
send lane 2
nothing again get lane 2 Opened
nothing again get lane 2 ListPart from node 1
deliver node 0 Call from lane 2
gather node 0
exec node 0
release node 0
get lane 2 Opened
nothing again get lane 2 first Opened
nothing again get lane 2 first ListPart from node 1
again deliver node 1 ListAsk
serve node 1
nothing get lane 2 ListPart from node 1
drain
expect
  sent 2.2 0:0 list /
  opened 2.2 1 4
  answered 2.2 4 names 1 a
quiet
",
    "\
# What is no directory, or one that the caller may not read, is not listed. The root is, and a directory with nothing in it.
nodes 3
lanes 1
call 1 0:0 mkdir /a 711
call 1 0:0 mkdir /b 744
call 1 0:0 create /a/x 644
call 1 0:0 list /a/x
call 1 0:0 list /a/x/y
call 1 0:0 list /a/none
call 1 0:0 list /none/a
call 1 0:0 list a
call 1 1000:100 list /a
call 1 0:0 list /a
call 1 1000:100 list /b
call 1 1000:100 list /b/none
call 1 1000:100 list /
finish
quiet
expect
  sent 1.1 0:0 mkdir /a 711
  commit 1.1 257
  answered 1.1 0 ok
  sent 1.2 0:0 mkdir /b 744
  commit 1.2 513
  answered 1.2 1 ok
  sent 1.3 0:0 create /a/x 644
  commit 1.3 258
  answered 1.3 2 ok
  sent 1.4 0:0 list /a/x
  answered 1.4 3 ENOTDIR
  sent 1.5 0:0 list /a/x/y
  answered 1.5 3 ENOTDIR
  sent 1.6 0:0 list /a/none
  answered 1.6 3 ENOENT
  sent 1.7 0:0 list /none/a
  answered 1.7 3 ENOENT
  sent 1.8 0:0 list a
  answered 1.8 3 EINVAL
  sent 1.9 1000:100 list /a
  answered 1.9 3 EACCES
  sent 1.10 0:0 list /a
  opened 1.10 257 3
  answered 1.10 3 names 1 x
  sent 1.11 1000:100 list /b
  opened 1.11 513 3
  answered 1.11 3 names 0
  sent 1.12 1000:100 list /b/none
  answered 1.12 3 EACCES
  sent 1.13 1000:100 list /
  opened 1.13 1 3
  answered 1.13 3 names 2 a b
",
    "\
# A name is placed while its directory is listed. A node with the newer table tells the client, which drops its parts and asks all nodes again.
nodes 3
lanes 3
call 3 0:0 mkdir /a 755
call 3 0:0 create /a/x 644
call 1 0:0 list /a
call 2 0:0 place x node:0
send lane 3
drain
send lane 3
drain
send lane 1
deliver node 1 Call from lane 1
gather node 1
exec node 1
release node 1
get lane 1 Opened
expect
  sent 3.1 0:0 mkdir /a 755
  commit 3.1 257
  answered 3.1 0 ok
  sent 3.2 0:0 create /a/x 644
  commit 3.2 258
  answered 3.2 1 ok
  sent 1.1 0:0 list /a
  opened 1.1 257 2
deliver node 0 ListAsk
serve node 0
get lane 1 ListPart from node 0
# the part of node 1 is on its way for long
deliver node 1 ListAsk
serve node 1
hold ListPart from node 1 to lane 1
hold ListAsk to node 2
send lane 2
drain
expect
  sent 2.1 0:0 place x node:0
  placed 2.1 1
  answered 2.1 2 ok
deliver node 2 ListAsk
serve node 2
get lane 1 Stale
nothing again get lane 1 Stale
nothing again get lane 1 Opened
nothing again get lane 1 ListPart from node 0
nothing get lane 1 ListPart from node 1
release held
drain
expect
  stale 1.1 0 1
  answered 1.1 2 names 1 x
quiet
",
    "\
# While nodes have the keys of a rename shut, none gives its part of a listing.
nodes 3
lanes 2
call 1 0:0 mkdir /a 755
call 1 0:0 create /a/x 644
call 1 0:0 rename /a/x /a/b
call 2 0:0 list /a
send lane 1
drain
send lane 1
drain
expect
  sent 1.1 0:0 mkdir /a 755
  commit 1.1 257
  answered 1.1 0 ok
  sent 1.2 0:0 create /a/x 644
  commit 1.2 258
  answered 1.2 1 ok
hold Commit to node 0
hold Commit to node 1
hold Commit to node 2
send lane 1
drain
send lane 2
drain
expect
  sent 1.3 0:0 rename /a/x /a/b
  commit 1.3 0
  answered 1.3 2 ok
  sent 2.1 0:0 list /a
  opened 2.1 257 3
busy
refused serve node 0 item 4
refused serve node 1 item 3
refused serve node 2 item 1
deliver node 2 Commit
serve node 2 item 1
refused serve node 0 item 4
refused serve node 1 item 3
deliver node 1 Commit
serve node 1 item 3
refused serve node 0 item 4
deliver node 0 Commit
serve node 0 item 4
release held
drain
expect
  answered 2.1 3 names 1 b
quiet
",
];

#[test]
fn directories_are_listed(rt: HostRuntime) -> Result<(), Fail> {
    run_all(&rt, rt.alloc(), &TEXTS)
}

// Random runs of three nodes and three lanes, in which half of the calls list.
#[test]
fn random_listings(rt: HostRuntime) -> Result<(), Fail> {
    for seed in 0..500 {
        let text = format!(in rt.alloc();
            "nodes 3\nlanes 3\nlistings 18 from {seed}\nevents 120 from {seed}\nfinish\nquiet\n"
        )?;
        run_all(&rt, rt.alloc(), &[text.as_str()])?;
    }
    Ok(())
}
