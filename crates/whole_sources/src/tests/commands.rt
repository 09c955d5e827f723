//! The commands that look at code: their words, their texts, and what they refuse. Expected texts are found by hand.

use super::{Row, run_program, text_is};
use std::alloc::Global;
use std::process::Abort;
use std::test::Fail;

/// Each of two nodes writes the other's flag and then reads its own.
pub const DEKKER: &str =
    "int F[2]::; splitc_main() { int r; if (MYPROC == 0) { F[1] = 1; r = F[0]; } else { F[0] = 1; r = F[1]; } printf(\"%d\\n\", r); }";

/// The same, with writes that are over at the `sync`.
pub const SPLIT: &str =
    "int F[2]::; splitc_main() { int r; if (MYPROC == 0) { F[1] := 1; r = F[0]; } else { F[0] := 1; r = F[1]; } sync(); printf(\"%d\\n\", r); }";

/// Each node writes its neighbour's cell, and reads its own behind a barrier.
pub const NEIGHBOUR: &str =
    "int A[PROCS]::; splitc_main() { A[(MYPROC + 1) % PROCS] = MYPROC; barrier(); printf(\"%d\\n\", A[MYPROC]); }";

/// Node 0 writes both cells of its neighbour in a loop, the same one each time round.
pub const LOOP: &str =
    "int A[2]::; splitc_main() { int i; if (MYPROC == 0) for (i = 0; i < 2; i++) A[(MYPROC + 1) % PROCS] = i + 4; }";

/// A loop, a call and a text that is printed.
const SHOWN: &str =
    "int A[4]::; void show(int n) { printf(\"%d\\n\", n); } splitc_main() { int i; for (i = 0; i < 4; i++) A[i] = i; show(A[MYPROC]); }";

const LINES: &str = "function splitc_main\n0 push 0\n1 ret\n";

pub fn rows_hold(rt: &impl Abort, alloc: Global, rows: &[Row]) -> Result<(), Fail> {
    for row in rows {
        let told = run_program(alloc, row.words, row.source)?;
        assert_eq!(rt;
            told.status,
            row.status,
            "of {} and {}",
            row.words, row.source
        );
        text_is(rt, told.out.as_slice(), row.out, row.source);
        text_is(rt, told.err.as_slice(), row.err, row.source);
    }
    Ok(())
}

#[test]
fn listings(rt: HostRuntime) -> Result<(), Fail> {
    let rows = [
        Row {
            words: "compile -n 1",
            source: "splitc_main() { }",
            status: 0,
            out: LINES,
            err: "",
        },
        // a wait directly behind each read
        Row {
            words: "compile",
            source: "int x; int y; splitc_main() { int i; i = x + y; }",
            status: 0,
            out: "function splitc_main\n0 clear 0\n1 elem 0 0\n2 glob\n3 read 1\n4 wait 1\n5 elem 1 0\n6 glob\n7 read 2\n8 wait 2\n9 bin 0\n10 set 0\n11 drop\n12 push 0\n13 ret\n",
            err: "",
        },
        Row {
            words: "compile -n 3",
            source: NEIGHBOUR,
            status: 0,
            out: "function splitc_main\n0 mine\n1 push 1\n2 bin 0\n3 procs\n4 bin 4\n5 elem 0 1\n6 mine\n7 write 1\n8 wait 1\n9 drop\n10 barrier\n11 mine\n12 elem 0 1\n13 read 2\n14 wait 2\n15 print 0 1\n16 push 0\n17 ret\n",
            err: "",
        },
        Row {
            words: "compile -n 4",
            source: SHOWN,
            status: 0,
            out: "function show\n0 load 0\n1 print 0 1\n2 push 0\n3 ret\nfunction splitc_main\n4 clear 0\n5 push 0\n6 set 0\n7 drop\n8 load 0\n9 push 4\n10 bin 12\n11 zero 13\n12 jump 14\n13 jump 29\n14 turn\n15 load 0\n16 elem 0 1\n17 load 0\n18 write 1\n19 wait 1\n20 drop\n21 load 0\n22 push 1\n23 bin 0\n24 set 0\n25 push 1\n26 bin 1\n27 drop\n28 jump 8\n29 mine\n30 elem 0 1\n31 read 2\n32 wait 2\n33 call 0\n34 drop\n35 push 0\n36 ret\n",
            err: "",
        },
        Row {
            words: "compile -n 2",
            source: "splitc_main() { x = 1; }",
            status: 3,
            out: "",
            err: "splitc: rule 2 on line 1\n",
        },
    ];
    rows_hold(&rt, rt.alloc(), &rows)
}

#[test]
fn pairs_that_must_not_overlap(rt: HostRuntime) -> Result<(), Fail> {
    let rows = [
        Row {
            words: "delays -n 2",
            source: DEKKER,
            status: 0,
            out: "delay 1 2\ndelay 3 4\n",
            err: "",
        },
        // no two nodes conflict
        Row {
            words: "delays -n 1",
            source: DEKKER,
            status: 0,
            out: "",
            err: "",
        },
        Row {
            words: "delays -n 2",
            source: SPLIT,
            status: 0,
            out: "",
            err: "",
        },
        // a barrier stands between the write and the read
        Row {
            words: "delays -n 3",
            source: NEIGHBOUR,
            status: 0,
            out: "",
            err: "",
        },
        Row {
            words: "delays -n 2",
            source: LOOP,
            status: 0,
            out: "delay 1 1\n",
            err: "",
        },
    ];
    rows_hold(&rt, rt.alloc(), &rows)
}

#[test]
fn words_of_commands(rt: HostRuntime) -> Result<(), Fail> {
    let outside = [
        "compile -s 1",
        "compile -b 1",
        "compile -m",
        "compile -n 17",
        "delays -m",
        "delays -n 2 -n 2",
        "delays -s 1",
        "explain -m",
        "explain -k 1",
        "threads",
        "listing",
    ];
    for words in outside {
        let told = run_program(rt.alloc(), words, "splitc_main() { }")?;
        assert_eq!(rt; told.status, 2, "of {words}");
        text_is(&rt, told.err.as_slice(), "splitc: words\n", words);
    }
    let within = ["compile", "compile -n 16", "compile -n 02"];
    for words in within {
        let told = run_program(rt.alloc(), words, "splitc_main() { }")?;
        assert_eq!(rt; told.status, 0, "of {words}");
        text_is(&rt, told.out.as_slice(), LINES, words);
    }
    Ok(())
}
