use fal_gen::{Chooser, Pick, make};
use fal_script::print;
use std::test::Fail;

const OPENING: &[u8] = b"falcon-script 1
nodes 4
lanes 4
1 0:0 mkdir /l1 755
2 0:0 mkdir /l2 755
3 0:0 mkdir /l3 755
4 0:0 mkdir /l4 755
";

const TWENTY: &[u8] = b"
1 0:0 list /l1/d2
2 0:0 stat /l2/d4
3 0:0 place f1 hash
4 0:0 create /l4/d5/f7 644
1 0:0 mkdir /l1/d7 755
2 0:0 create /l2/d6/f11 644
3 0:0 mkdir /l3/d3 755
4 0:0 list /l4/d7
1 0:0 create /l1/d3/f15 644
2 0:0 list /l2/d7
3 0:0 stat /l3/d3
4 0:0 rename /l4/d7/f9 /l4/d7/f9
1 0:0 rename /l1/d6/f1 /l1/d2/f1
2 0:0 rename /l2/d1/f8 /l2/d1/f8
3 0:0 unlink /l3/d5/f3
4 0:0 unlink /l4/d5/f14
1 0:0 chmod /l1/d5 750
2 0:0 create /l2/d6/f1 644
3 0:0 create /l3/d5/f0 644
4 0:0 create /l4/d6/f14 644
";

// A seed, a size, and how another implementation of the generator ends the script that they make.
const ENDS: [(u64, u32, &[u8]); 9] = [
    (1, 20, TWENTY),
    (0, 1, b"\n1 0:0 create /l1/d1/f7 644\n"),
    (0, 3, b"\n3 0:0 truncate /l3/d1/f6 128247\n"),
    (0, 5, b"\n1 0:0 rmdir /l1/d5\n"),
    (0, 9, b"\n1 0:0 stat /l1/d0/f9\n"),
    (0, 23, b"\n3 0:0 place f14 parent\n"),
    (0, 9996, b"\n4 0:0 place f6 node:3\n"),
    (u64::MAX, 1, b"\n1 0:0 stat /l1/d7/f4\n"),
    (u64::MAX, 9996, b"\n4 0:0 create /l4/d1/f3 644\n"),
];

#[test]
fn scripts_are_made(rt: HostRuntime) -> Result<(), Fail> {
    for (seed, size, end) in ENDS {
        let script = make(rt.alloc(), seed, size)?;
        assert_eq!(rt; script.lines.len(), size as usize + 4, "{seed} {size}");
        let text = print(rt.alloc(), &script)?;
        assert!(rt; text.starts_with(OPENING), "{seed} {size}");
        assert!(rt; text.ends_with(end), "{seed} {size}");
    }
    Ok(())
}

// How many events are fresh, how many envelopes were sent, and what is picked, one after another by the seed 3.
const PICKS: [(usize, u64, Pick); 13] = [
    (5, 3, Pick::Fresh(1)),
    (5, 3, Pick::Again(1)),
    (5, 3, Pick::Fresh(0)),
    (5, 3, Pick::Fresh(4)),
    (5, 3, Pick::Again(1)),
    (5, 3, Pick::Fresh(0)),
    (0, 3, Pick::Again(0)),
    (0, 3, Pick::Again(0)),
    (0, 3, Pick::Nothing),
    (5, 0, Pick::Fresh(1)),
    (5, 0, Pick::Fresh(4)),
    (5, 0, Pick::Fresh(4)),
    (0, 0, Pick::Nothing),
];

#[test]
fn events_are_picked(rt: HostRuntime) {
    let mut chooser = Chooser::new(3);
    for (fresh, sent, pick) in PICKS {
        assert_eq!(rt; chooser.pick(fresh, sent), pick, "{fresh} {sent}");
    }
}
