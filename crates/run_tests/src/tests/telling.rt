//! The report and the history of a small source, by hand.

ghost use Rattle.std.specs.Prelude.{IfOk};
ghost use Rattle.splitc_compile.specs.Compiled.{AreParts, parts_of};

use run_report::Status;
use run_texts::{explanation, run_report};
use splitc_compile::{Compiled, compile};
use std::alloc::{AllocError, Global};
use std::process::Abort;
use std::test::Fail;

fn text_is(rt: &impl Abort, told: &[u8], wanted: &str, about: &str) {
    assert_eq!(rt; told, wanted.as_bytes(), "of {about}");
}

/// The source, which is a right one, compiled for two nodes.
pub fn compiled(alloc: Global, source: &str) -> Result<Compiled, Fail>
    ensures { IfOk result (λ c. AreParts (parts_of c)) }
{
    let bytes = source.as_bytes();
    if bytes.len() > 262144 {
        return Err(Fail::from(AllocError));
    }
    match compile(alloc, bytes, 2) {
        Ok(compiled) => Ok(compiled),
        Err(_) => Err(Fail::from(AllocError)),
    }
}

#[test]
fn what_a_seed_shows(rt: HostRuntime) -> Result<(), Fail> {
    let alloc = rt.alloc();
    let compiled = compiled(
        alloc,
        "int x; splitc_main() { x = MYPROC + 7; 1 / MYPROC; }",
    )?;
    let report = run_report(alloc, &compiled, 1, 0, true)?;
    assert_eq!(rt; report.status, Status::Fault);
    let wanted =
        "== node 0 ==\n-- fault Divide line 1 --\n== node 1 ==\n-- ended --\n== memory ==\nx@0 = 7\nx@1 = 8\n";
    text_is(&rt, report.text.as_slice(), wanted, "the report");
    for seed in 0..20 {
        let text = explanation(alloc, &compiled, seed, 0)?;
        let lines = text.as_slice();
        assert_eq!(rt;
            lines.iter().filter(|byte| **byte == b'\n').count(),
            4,
            "of seed {seed}"
        );
    }
    Ok(())
}
