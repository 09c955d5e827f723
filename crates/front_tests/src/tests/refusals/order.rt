//! Which refusal comes first.

use super::{refusal, wrong_bodies};
use front_end::Refusal;
use std::test::Fail;

#[test]
fn the_least_token_and_there_the_least_rule(rt: HostRuntime) -> Result<(), Fail> {
    let bodies = [
        // two rules on one token
        ("if (\nv()) { }", 12, 3),
        ("int\nsync = 1, sync;", 3, 3),
        // the operator stands before the operand that is broken
        ("x = p\n*\nz;", 9, 3),
        ("x =\nz\n+ q;", 2, 3),
        ("x\n= p +\nz;", 2, 4),
        ("y = 1;\nz = 1;", 2, 2),
        ("while (1) { x\n= p; }\nbreak;", 15, 3),
    ];
    assert_eq!(rt; wrong_bodies(&rt, &bodies)?.as_str(), "");
    Ok(())
}

#[test]
fn each_part_refuses_what_those_before_it_accept(rt: HostRuntime) -> Result<(), Fail> {
    let table = [
        ("", Refusal::Syntax { seen: 1 }),
        ("int x $ 08", Refusal::BadByte { at: 6 }),
        (
            "/* int x; splitc_main() { }",
            Refusal::OpenComment { at: 0 },
        ),
        (
            "splitc_main() { x = 9223372036854775808; }",
            Refusal::WideNumber { at: 20 },
        ),
        ("int y[0];\n#define y 08", Refusal::BadDirective { line: 2 }),
        ("splitc_main() { 1 + ; }", Refusal::Syntax { seen: 7 }),
        (
            "int y[0]; splitc_main() { x = 1 }",
            Refusal::Syntax { seen: 14 },
        ),
        (
            "int y[2];\nint z[0]; splitc_main() { q = 1; }",
            Refusal::BadBound { line: 2 },
        ),
        (
            "int y[65536], z; splitc_main() { q = 1; }",
            Refusal::TooManyCells { cells: 65537 },
        ),
        (
            "int y[2];\nsplitc_main() {\nq = 1; }",
            Refusal::Rule { number: 2, line: 3 },
        ),
    ];
    for (source, want) in table {
        let found = refusal(&rt, source)?;
        assert_eq!(rt; found, Some(want), "{source}");
    }
    let found = refusal(&rt, "int y[PROCS * 2]::; splitc_main() { y[1] = y[0]; }")?;
    assert_eq!(rt; found, None);
    Ok(())
}
