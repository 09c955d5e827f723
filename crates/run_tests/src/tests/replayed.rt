//! Runs of sources, replayed in their source order.

ghost use Rattle.splitc_compile.specs.Compiled.{AreParts, parts_of};

use super::telling::compiled;
use compiled_order::order;
use history_replay::replay;
use run_sim::{ListPicks, run_picks};
use sc_meaning::SourceHistory;
use splitc_compile::Compiled;
use std::alloc::Global;
use std::test::Fail;

const BUDGET: u64 = 100_000;

/// The source order of the run by these picks.
fn ordered(alloc: Global, compiled: &Compiled, picks: &[u32]) -> Result<SourceHistory, Fail>
    requires { AreParts (parts_of compiled.now) }
{
    let mut picks = ListPicks::new(Vec::from_slice(alloc, picks)?);
    let run = run_picks(alloc, compiled, BUDGET, &mut picks)?;
    let history = order(alloc, compiled, BUDGET, &run)?;
    Ok(history)
}

/// Each node reads its own flag before the other's put into it has come, and the order of the run is a history of the source.
#[test]
fn a_run_of_late_puts_is_replayed(rt: HostRuntime) -> Result<(), Fail> {
    let alloc = rt.alloc();
    let compiled = compiled(
        alloc,
        "int F[2]::; splitc_main() { int r; if (MYPROC == 0) { F[1] := 1; r = F[0]; } \
        else { F[0] := 1; r = F[1]; } sync(); printf(\"%d\\n\", r); }",
    )?;
    let history = ordered(alloc, &compiled, &[])?;
    let told = replay(alloc, &compiled.typed, &compiled.layout, BUDGET, &history)?;
    let told = told.ok_or("no history")?;
    for node in 0..2usize {
        let text = told.printed.as_slice().get(node).ok_or("no text")?;
        assert_eq!(rt; text.as_slice(), b"0\n".as_slice(), "on node {node}");
    }
    Ok(())
}
