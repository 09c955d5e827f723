//! Whole runs of sources that use the whole language, and their histories. Expected texts are found by hand.

use super::commands::{DEKKER, LOOP, NEIGHBOUR, rows_hold};
use super::{Row, run_program, text_is};
use std::test::Fail;

/// Each cell gets its left neighbour's old value added, 20 times over: cell k then holds how many sets of k there are of 20.
const STENCIL: &str = r#"#include <split-c/split-c.h>
#include <stdio.h>
#define STEPS 20
#define BLOCKS 64
#define B 16

/* cell k gets its left neighbour's old value added, STEPS times */
int X[BLOCKS]::[B];
int ghost[BLOCKS];

splitc_main()
{
  int i, j, t, s;
  if (MYPROC == 0) X[0][0] = 1;
  barrier();
  for (t = 0; t < STEPS; t++) {
    for_my_1d(i, BLOCKS) {
      if (i > 0) bulk_get(&ghost[i / PROCS], X[i - 1] + (B - 1), sizeof(int));
    }
    sync();
    barrier();
    for_my_1d(i, BLOCKS) {
      for (j = B - 1; j > 0; j--) X[i][j] += X[i][j - 1];
      if (i > 0) X[i][0] += ghost[i / PROCS];
    }
    barrier();
  }
  if (MYPROC == 0) {
    s = 0;
    for (i = 0; i < BLOCKS; i++)
      for (j = 0; j < B; j++) s += X[i][j];
    printf("%d %d\n", s, X[0][10]);
  }
}
"#;

#[test]
fn barriers_and_split_accesses(rt: HostRuntime) -> Result<(), Fail> {
    let rows = [
        Row {
            words: "run -n 3",
            source: NEIGHBOUR,
            status: 0,
            out: "== node 0 ==\n2\n-- ended --\n== node 1 ==\n0\n-- ended --\n== node 2 ==\n1\n-- ended --\n",
            err: "",
        },
        // a barrier that the other node never reaches
        Row {
            words: "run -n 2",
            source: "splitc_main() { if (MYPROC == 1) barrier(); }",
            status: 11,
            out: "== node 0 ==\n-- ended --\n== node 1 ==\n-- waiting --\n",
            err: "",
        },
        // the value of a get is used before the `sync`
        Row {
            words: "run -n 2",
            source: "int A[2]::; splitc_main() { int x; x := A[0]; printf(\"%d\\n\", x); sync(); }",
            status: 10,
            out: "== node 0 ==\n-- fault PendingUse line 1 --\n== node 1 ==\n-- fault PendingUse line 1 --\n",
            err: "",
        },
        Row {
            words: "run -n 4",
            source: STENCIL,
            status: 0,
            out: "== node 0 ==\n1048576 184756\n-- ended --\n== node 1 ==\n-- ended --\n== node 2 ==\n-- ended --\n== node 3 ==\n-- ended --\n",
            err: "",
        },
    ];
    rows_hold(&rt, rt.alloc(), &rows)
}

#[test]
fn budgets_and_frames(rt: HostRuntime) -> Result<(), Fail> {
    let rows = [
        (
            "run -n 1 -b 1",
            "splitc_main() { while (1) ; }",
            12,
            "-- cut --",
        ),
        (
            "run -n 1 -b 1",
            "splitc_main() { int i; while (i < 1) i = i + 1; }",
            0,
            "-- ended --",
        ),
        (
            "run -n 1 -b 0",
            "splitc_main() { int i; while (i < 1) i = i + 1; }",
            12,
            "-- cut --",
        ),
        // the frame of `splitc_main` and those of 255 calls are as many as may stand
        (
            "run -n 1",
            "f() { f(); } splitc_main() { f(); }",
            10,
            "-- fault Depth line 1 --",
        ),
        (
            "run -n 1 -b 255",
            "f() { f(); } splitc_main() { f(); }",
            12,
            "-- cut --",
        ),
        (
            "run -n 1 -b 256",
            "f() { f(); } splitc_main() { f(); }",
            10,
            "-- fault Depth line 1 --",
        ),
    ];
    for (words, source, status, end) in rows {
        let told = run_program(rt.alloc(), words, source)?;
        assert_eq!(rt; told.status, status, "of {words} and {source}");
        let wanted = format!(in rt.alloc(); "== node 0 ==\n{end}\n")?;
        text_is(&rt, told.out.as_slice(), wanted.as_str(), source);
    }
    Ok(())
}

/// Three cells of node 1 are got by each node, or as many as the row says.
#[test]
fn bulk_transfers(rt: HostRuntime) -> Result<(), Fail> {
    let zeros = "== memory ==\nX = 0 0 0 0 0 0\ng@0 = 0 0 0 0\ng@1 = 0 0 0 0\n";
    let moved = "== memory ==\nX = 0 0 0 5 6 7\ng@0 = 5 6 7 0\ng@1 = 5 6 7 0\n";
    let rows = [
        ("bulk_get(g, X[1], 0);", 0, "-- ended --", zeros),
        (
            "bulk_get(g, X[1], 12);",
            10,
            "-- fault BadSize line 1 --",
            zeros,
        ),
        (
            "bulk_get(g, X[1], -8);",
            10,
            "-- fault BadSize line 1 --",
            zeros,
        ),
        (
            "bulk_get(g, X[1], 32);",
            10,
            "-- fault Index line 1 --",
            zeros,
        ),
        (
            "if (MYPROC == 1) { X[1][0] = 5; X[1][1] = 6; X[1][2] = 7; } barrier(); bulk_get(g, X[1], 24); bulk_get(g, X[1], 24);",
            0,
            "-- ended --",
            moved,
        ),
    ];
    for (calls, status, end, memory) in rows {
        let source = format!(in rt.alloc();
            "int X[2]::[3]; int g[4]; splitc_main() {{ {calls} sync(); }}"
        )?;
        let told = run_program(rt.alloc(), "run -n 2 -m", source.as_str())?;
        assert_eq!(rt; told.status, status, "of {calls}");
        let wanted = format!(in rt.alloc(); "== node 0 ==\n{end}\n== node 1 ==\n{end}\n{memory}")?;
        text_is(&rt, told.out.as_slice(), wanted.as_str(), calls);
    }
    Ok(())
}

/// A blocking write is over before the node's next access, under every seed.
#[test]
fn blocking_accesses_under_every_seed(rt: HostRuntime) -> Result<(), Fail> {
    let both_zero = "== node 0 ==\n0\n-- ended --\n== node 1 ==\n0\n-- ended --\n";
    let last = "== node 0 ==\n-- ended --\n== node 1 ==\n-- ended --\n== memory ==\nA = 0 5\n";
    for seed in 0..100 {
        let words = format!(in rt.alloc(); "run -n 2 -s {seed}")?;
        let told = run_program(rt.alloc(), words.as_str(), DEKKER)?;
        assert_eq!(rt; told.status, 0, "of {words}");
        assert!(rt; told.out.as_slice() != both_zero.as_bytes(), "of {words}");
        let words = format!(in rt.alloc(); "run -n 2 -m -s {seed}")?;
        let told = run_program(rt.alloc(), words.as_str(), LOOP)?;
        text_is(&rt, told.out.as_slice(), last, words.as_str());
    }
    Ok(())
}

#[test]
fn histories(rt: HostRuntime) -> Result<(), Fail> {
    let rows = [
        Row {
            words: "explain -n 1",
            source: "int x; splitc_main() { x = 7; }",
            status: 0,
            out: "do 0 0 write x@0+0 = 7\nend 0 ended\n",
            err: "",
        },
        // the status is that of a text, whatever the nodes' ends are
        Row {
            words: "explain -n 1",
            source: "splitc_main() { 1 / 0; }",
            status: 0,
            out: "end 0 fault Divide line 1\n",
            err: "",
        },
        Row {
            words: "explain -n 1 -b 0",
            source: "splitc_main() { while (1) ; }",
            status: 0,
            out: "end 0 cut\n",
            err: "",
        },
        Row {
            words: "explain -n 1",
            source: "int A[1]::; splitc_main() { A[0] := 7; sync(); barrier(); }",
            status: 0,
            out: "issue 0 0\neffect 0 0 0 write A@0+0 = 7\nsync 0 1\narrive 0 2\nrelease 1\nend 0 ended\n",
            err: "",
        },
    ];
    rows_hold(&rt, rt.alloc(), &rows)
}
