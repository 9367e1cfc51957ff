//! As many rules of placement as a table has, and those after them.

use crate::running::run;
use std::alloc::{AllocError, Global};
use std::fmt::Write;
use std::test::Fail;

// The calls after the 1,024th: a new name finds no room, a name with a rule gets another one, and the two other refusals come first.
const REST: &str = "\
1 0:0 place extra hash
1 0:0 place n1 parent
1 0:0 place n2 node:2
1 1000:100 place n1 hash
";

const END: &str = "
answered 1.1024 0 ok
sent 1.1025 0:0 place extra hash
answered 1.1025 0 ENOSPC
sent 1.1026 0:0 place n1 parent
placed 1.1026 1025
answered 1.1026 0 ok
sent 1.1027 0:0 place n2 node:2
answered 1.1027 0 EINVAL
sent 1.1028 1000:100 place n1 hash
answered 1.1028 0 EPERM
tree 1
0 / 1 dir 755 0:0 0
calls 1028
ok 1025
failed 3
commits 0
directories 1
files 0
";

// Places 1,024 names, and then come the other calls.
fn script(alloc: Global) -> Result<String, AllocError> {
    let mut text = String::from_str(alloc, "falcon-script 1\nnodes 2\nlanes 1\n")?;
    for name in 1..1025u32 {
        text.push_str("1 0:0 place n")?;
        text.push_str(&name.to_string(alloc)?)?;
        text.push_str(" hash\n")?;
    }
    text.push_str(REST)?;
    Ok(text)
}

#[test]
fn a_table_has_1024_rules(rt: HostRuntime) -> Result<(), Fail> {
    let script = script(rt.alloc())?;
    let ran = run(rt.alloc(), script.as_bytes())?;
    assert_eq!(rt; ran.status, 0);
    assert!(rt;
        ran.text.as_slice().ends_with(END.as_bytes()),
        "{}",
        str::from_utf8(&ran.text).unwrap_or("?")
    );
    Ok(())
}
