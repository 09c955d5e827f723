//! Runs by picks of whole sources.

use run_sim::{ListPicks, Picks, SeedPicks, run_picks};
use sc_base::{End, LIMITS};
use splitc_compile::{CompileError, Compiled, compile};
use std::alloc::AllocError;
use std::test::Fail;

/// A source for two nodes; the budget of each; the picks; and what each node printed, with how it ended on a line.
type Row<'a> = (&'a str, u64, &'a [u32], &'a str);

fn word_of(end: End) -> &'static str {
    match end {
        End::Ended => "ended\n",
        End::Fault { .. } => "fault\n",
        End::Cut => "cut\n",
        End::Waiting => "waiting\n",
    }
}

/// What the nodes of a run by the picks printed, each with how it ended, or nothing where the source has no code.
fn shown<P: Picks>(
    rt: &HostRuntime,
    source: &str,
    budget: u64,
    picks: &mut P,
) -> Result<Vec<u8>, Fail> {
    let mut text = Vec::new(rt.alloc());
    let bytes = source.as_bytes();
    if bytes.len() > LIMITS.source as usize {
        return Ok(text);
    }
    let compiled = match compile(rt.alloc(), bytes, 2) {
        Ok(compiled) => compiled,
        Err(CompileError::Refused(_)) => return Ok(text),
        Err(CompileError::OutOfMemory) => return Err(Fail::from(AllocError)),
    };
    let Ok(run) = run_picks(rt.alloc(), &compiled, budget, picks) else {
        return Err(Fail::from(AllocError));
    };
    for node in run.nodes.as_slice() {
        text.extend_from_slice(node.printed.as_slice())?;
        text.extend_from_slice(word_of(node.end).as_bytes())?;
    }
    Ok(text)
}

#[test]
fn sources_by_lists_of_picks(rt: HostRuntime) -> Result<(), Fail> {
    let late_writes =
        "int F[2]::; splitc_main() { int r; if (MYPROC == 0) { F[1] := 1; r = F[0]; } \
        else { F[0] := 1; r = F[1]; } sync(); printf(\"%d\\n\", r); }";
    let late_past_a_barrier =
        "int A[2]::; splitc_main() { int r; if (MYPROC == 0) A[1] := 7; barrier(); \
        if (MYPROC == 1) { r = A[1]; printf(\"%d\\n\", r); } }";
    let left_behind = "splitc_main() { if (MYPROC == 1) barrier(); }";
    let one_turn =
        "splitc_main() { int i; if (MYPROC == 0) { while (1) ; } while (i < 1) i = i + 1; }";
    let table: [Row<'_>; 6] = [
        (late_writes, 100000, &[], "0\nended\n0\nended\n"),
        (late_past_a_barrier, 100000, &[], "ended\n0\nended\n"),
        (late_past_a_barrier, 100000, &[0, 2], "ended\n7\nended\n"),
        (left_behind, 100000, &[], "ended\nwaiting\n"),
        (one_turn, 1, &[], "cut\nended\n"),
        (one_turn, 0, &[], "cut\ncut\n"),
    ];
    for (source, budget, list, wanted) in table {
        let mut picks = ListPicks::new(Vec::from_slice(rt.alloc(), list)?);
        let text = shown(&rt, source, budget, &mut picks)?;
        assert_eq!(rt;
            text.as_slice(),
            wanted.as_bytes(),
            "of {source} by {list:?}"
        );
    }
    Ok(())
}

#[test]
fn a_source_by_seeds(rt: HostRuntime) -> Result<(), Fail> {
    let ring = "int A[PROCS]::; splitc_main() { A[(MYPROC + 1) % PROCS] = MYPROC; barrier(); \
        printf(\"%d\\n\", A[MYPROC]); }";
    for seed in [1, 2, u64::MAX] {
        let mut picks = SeedPicks::new(seed);
        let text = shown(&rt, ring, 100000, &mut picks)?;
        assert_eq!(rt;
            text.as_slice(),
            b"1\nended\n0\nended\n".as_slice(),
            "of seed {seed}"
        );
    }
    Ok(())
}
