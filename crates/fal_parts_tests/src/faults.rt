use fal_io::ReadAll;
use fal_place::WithFault;
use fal_tree::ApplyFault;
use fal_wire::WireFault;
use std::alloc::Global;
use std::fmt::Display;
use std::process::Abort;
use std::test::Fail;

// Each fault is told by its text.
fn are_told<F: Display>(rt: &impl Abort, alloc: Global, table: &[(F, &str)]) -> Result<(), Fail> {
    for (fault, wanted) in table {
        let text = format!(in alloc; "{fault}")?;
        assert!(rt; text.as_bytes() == wanted.as_bytes(), "{wanted}");
    }
    Ok(())
}

fn places() -> [(WireFault, &'static str); 6] {
    [
        (
            WireFault::Short { at: 7 },
            "the record is cut short at byte 7",
        ),
        (WireFault::Kind { at: 0 }, "byte 0 is no kind of record"),
        (
            WireFault::Length { at: 12 },
            "the field at byte 12 does not end with the body",
        ),
        (
            WireFault::Value { at: 31 },
            "the value of the field at byte 31 is not allowed",
        ),
        (
            WireFault::Trailing { at: 11 },
            "bytes follow the record from byte 11 on",
        ),
        (WireFault::OutOfMemory, "out of memory"),
    ]
}

#[test]
fn faults_are_told(rt: HostRuntime) -> Result<(), Fail> {
    are_told(&rt, rt.alloc(), &places())?;
    let trees = [
        (ApplyFault::NoCommit, "the call makes no commit"),
        (ApplyFault::NotFresh, "the number is not fresh"),
        (ApplyFault::OutOfMemory, "out of memory"),
    ];
    are_told(&rt, rt.alloc(), &trees)?;
    let reads = [
        (ReadAll::Fault, "the source failed"),
        (ReadAll::TooLarge, "more bytes than the limit allows"),
        (ReadAll::OutOfMemory, "out of memory"),
    ];
    are_told(&rt, rt.alloc(), &reads)?;
    let tables = [
        (
            WithFault::Full,
            "the table has 1,024 rules, and none for this name",
        ),
        (WithFault::OutOfMemory, "out of memory"),
    ];
    are_told(&rt, rt.alloc(), &tables)
}
