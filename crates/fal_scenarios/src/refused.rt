//! Events that may not happen.

use crate::running::{broken_by, run_all};
use std::test::Fail;

const TEXTS: [&str; 1] = [
    "\
# Lane 1 makes a directory, which lives at node 1.
nodes 3
lanes 2
call 1 0:0 mkdir /a 755
call 2 0:0 create /a/x 644
send lane 1
# an envelope that was sent to another actor
refused deliver node 0 Call to node 1
refused get lane 1 Call to node 1
refused hear Call to node 1
# an envelope that was never sent
refused deliver node 1 unsent
refused get lane 1 unsent
refused hear unsent
# no such lane, node, batch or item
refused send lane 0
refused send lane 3
refused gather node 3
refused exec node 1 batch 0
refused release node 1 batch 0
refused serve node 1 item 0
# a call is under way, and nothing waits
refused send lane 1
refused gather node 1
refused start
expect
  sent 1.1 0:0 mkdir /a 755
deliver node 1 Call
",
];

#[test]
fn what_may_not_happen_is_refused(rt: HostRuntime) -> Result<(), Fail> {
    run_all(&rt, rt.alloc(), &TEXTS)
}

// Scenarios that do not hold, with the reason.
const WRONG: [(&str, &str); 12] = [
    ("nodes 17\ncall 1 0:0 stat /a\nfinish\n", "MayNotRun"),
    ("call 1 0:0 fly /a\nfinish\n", "Grammar"),
    (
        "call 1 0:0 stat /a\nsend lane 1\nget lane 1\n",
        "NoEnvelope",
    ),
    (
        "call 1 0:0 stat /a\nsend lane 1\nagain deliver node 0\n",
        "NoEnvelope",
    ),
    ("call 1 0:0 stat /a\nsend lane 1\nexec node 0\n", "NotDue"),
    (
        "call 1 0:0 stat /a\nsend lane 1\nsend lane 1\n",
        "NotEnabled",
    ),
    ("call 1 0:0 stat /a\nrefused send lane 1\n", "Enabled"),
    ("call 1 0:0 stat /a\nnothing send lane 1\n", "Changes"),
    (
        "call 1 0:0 stat /a\nsend lane 1\nnothing deliver node 0\n",
        "Changes",
    ),
    (
        "call 1 0:0 rmdir /a\nsend lane 1\nnothing hear Call\n",
        "Changes",
    ),
    ("call 1 0:0 stat /a\nsend lane 1\nquiet\n", "Busy"),
    ("call 1 0:0 stat /a\nbusy\n", "Quiet"),
];

#[test]
fn a_scenario_that_does_not_hold_tells_why(rt: HostRuntime) -> Result<(), Fail> {
    for (text, why) in WRONG {
        let found = broken_by(&rt, rt.alloc(), text)?;
        assert_eq!(rt; found.as_str(), why, "{text}");
    }
    Ok(())
}
