//! The code of sources, listed, under the plans that are made for their flows.

use super::emitted::listed_under;
use site_graph::Plan;
use splitc_compile::{CompileError, Compiled, compile};
use std::alloc::AllocError;
use std::test::Fail;
use sync_place::{place, place_early};

/// Which plan: the one that waits directly behind each access, or one that waits where accesses are first demanded, in
/// which no write goes one-way, or those that only barriers demand.
#[derive(Clone, Copy, Debug)]
enum Waits {
    Behind,
    Demanded,
    OneWay,
}

/// The source, compiled for two nodes, or None where it is refused.
fn compiled(rt: &HostRuntime, source: &str) -> Result<Option<Compiled>, Fail> {
    let bytes = source.as_bytes();
    if bytes.len() > 262144 {
        return Ok(None);
    }
    match compile(rt.alloc(), bytes, 2) {
        Ok(compiled) => Ok(Some(compiled)),
        Err(CompileError::Refused(_)) => Ok(None),
        Err(CompileError::OutOfMemory) => Err(Fail::from(AllocError)),
    }
}

/// The plan for the source, on two nodes whose accesses may meet wherever they are.
fn plan_for(rt: &HostRuntime, source: &str, waits: Waits) -> Result<Option<Plan>, Fail> {
    let Some(
        Compiled {
            flow,
            delays,
            plan,
            ..
        },
    ) = compiled(rt, source)?
    else {
        return Ok(None);
    };
    let size = flow.sites.as_slice().len() as u32 + 1;
    if delays.rows() != size || delays.columns() != size {
        return Ok(None);
    }
    match waits {
        Waits::Behind => Ok(Some(plan)),
        Waits::Demanded => Ok(place_early(rt.alloc(), &flow, &delays).ok()),
        Waits::OneWay => Ok(place(rt.alloc(), &flow, &delays).ok()),
    }
}

/// The sources whose code is another.
fn wrong(rt: &HostRuntime, table: &[(&str, Waits, &str)]) -> Result<String, Fail> {
    let mut wrong = format!(in rt.alloc(); "")?;
    for (source, waits, want) in table {
        let text = match plan_for(rt, source, *waits)? {
            Some(plan) => listed_under(rt, source, &plan)?,
            None => Vec::new(rt.alloc()),
        };
        if text.as_slice() != want.as_bytes() {
            wrong = format!(in rt.alloc(); "{wrong}{waits:?}: {source}\n")?;
        }
    }
    Ok(wrong)
}

#[test]
fn reads_are_waited_for_where_they_are_used(rt: HostRuntime) -> Result<(), Fail> {
    let table = [
        // directly behind them, and both where the first of them is used
        (
            "int x; int y; splitc_main() { printf(\"%d %d\", x, y); }",
            Waits::Behind,
            "function splitc_main\n\
             0 elem 0 0\n1 glob\n2 read 1\n3 wait 1\n4 elem 1 0\n5 glob\n6 read 2\n7 wait 2\n8 print 0 2\n\
             9 push 0\n10 ret\n",
        ),
        (
            "int x; int y; splitc_main() { printf(\"%d %d\", x, y); }",
            Waits::Demanded,
            "function splitc_main\n\
             0 elem 0 0\n1 glob\n2 read 1\n3 elem 1 0\n4 glob\n5 read 2\n6 wait 1\n7 wait 2\n8 print 0 2\n\
             9 push 0\n10 ret\n",
        ),
        // a local that is filled: at its next use, where it is assigned, and where its function returns
        (
            "int x; splitc_main() { int i; i = x; printf(\"%d\", i); }",
            Waits::Demanded,
            "function splitc_main\n\
             0 clear 0\n1 elem 0 0\n2 glob\n3 fill 1 0\n4 wait 1\n5 load 0\n6 print 0 1\n7 push 0\n8 ret\n",
        ),
        (
            "int x; splitc_main() { int i; i = x; i = 1; }",
            Waits::Demanded,
            "function splitc_main\n\
             0 clear 0\n1 elem 0 0\n2 glob\n3 fill 1 0\n4 push 1\n5 wait 1\n6 set 0\n7 drop\n8 push 0\n9 ret\n",
        ),
        (
            "int x; splitc_main() { int i; i = x; }",
            Waits::Demanded,
            "function splitc_main\n\
             0 clear 0\n1 elem 0 0\n2 glob\n3 fill 1 0\n4 push 0\n5 wait 1\n6 ret\n",
        ),
        // a value that is dropped
        (
            "int x; splitc_main() { x; }",
            Waits::Demanded,
            "function splitc_main\n0 elem 0 0\n1 glob\n2 read 1\n3 wait 1\n4 drop\n5 push 0\n6 ret\n",
        ),
        // a function that reads, calls itself, and waits only then: the reads of all its frames may be on their way
        (
            "int x; int f(int n) { return x + (n ? f(n - 1) : 0); } splitc_main() { f(1); }",
            Waits::Demanded,
            "function f\n\
             0 elem 0 0\n1 glob\n2 read 1\n3 load 0\n4 zero 10\n5 load 0\n6 push 1\n7 bin 1\n8 call 0\n9 jump 11\n\
             10 push 0\n11 wait 1\n12 bin 0\n13 ret\n14 push 0\n15 ret\n\
             function splitc_main\n16 push 1\n17 call 0\n18 drop\n19 push 0\n20 ret\n",
        ),
    ];
    assert_eq!(rt; wrong(&rt, &table)?.as_str(), "");
    Ok(())
}

#[test]
fn writes_that_only_barriers_demand_go_one_way(rt: HostRuntime) -> Result<(), Fail> {
    let table = [
        (
            "int A[PROCS]::; splitc_main() { A[(MYPROC + 1) % PROCS] = MYPROC; barrier(); printf(\"%d\", A[MYPROC]); }",
            Waits::OneWay,
            "function splitc_main\n\
             0 mine\n1 push 1\n2 bin 0\n3 procs\n4 bin 4\n5 elem 0 1\n6 mine\n7 store 1\n8 drop\n9 barrier\n\
             10 mine\n11 elem 0 1\n12 read 2\n13 wait 2\n14 print 0 1\n15 push 0\n16 ret\n",
        ),
        (
            "int A[PROCS]::; splitc_main() { A[(MYPROC + 1) % PROCS] = MYPROC; barrier(); printf(\"%d\", A[MYPROC]); }",
            Waits::Demanded,
            "function splitc_main\n\
             0 mine\n1 push 1\n2 bin 0\n3 procs\n4 bin 4\n5 elem 0 1\n6 mine\n7 write 1\n8 drop\n9 wait 1\n10 barrier\n\
             11 mine\n12 elem 0 1\n13 read 2\n14 wait 2\n15 print 0 1\n16 push 0\n17 ret\n",
        ),
        // a write that nothing demands
        (
            "int x; splitc_main() { x = 1; }",
            Waits::OneWay,
            "function splitc_main\n0 elem 0 0\n1 glob\n2 push 1\n3 store 1\n4 drop\n5 push 0\n6 ret\n",
        ),
        (
            "int x; splitc_main() { x = 1; }",
            Waits::Demanded,
            "function splitc_main\n0 elem 0 0\n1 glob\n2 push 1\n3 write 1\n4 drop\n5 push 0\n6 ret\n",
        ),
        // a blocking transfer, which goes as itself whatever demands it
        (
            "int B[4]; int A[2]::[4]; splitc_main() { bulk_read(B, A[1], 24); }",
            Waits::Behind,
            "function splitc_main\n\
             0 elem 0 0\n1 glob\n2 push 1\n3 elem 1 1\n4 push 24\n5 copy 1\n6 push 0\n7 wait 1\n8 ret\n",
        ),
        (
            "int B[4]; int A[2]::[4]; splitc_main() { bulk_read(B, A[1], 24); barrier(); }",
            Waits::OneWay,
            "function splitc_main\n\
             0 elem 0 0\n1 glob\n2 push 1\n3 elem 1 1\n4 push 24\n5 copy 1\n6 wait 1\n7 barrier\n8 push 0\n9 ret\n",
        ),
        // a write in a loop, which may meet itself in the next turn
        (
            "int A[2]::; splitc_main() { int i; if (MYPROC == 0) \
             for (i = 0; i < 2; i++) A[(MYPROC + 1) % PROCS] = i + 4; }",
            Waits::OneWay,
            "function splitc_main\n\
             0 clear 0\n1 mine\n2 push 0\n3 bin 10\n4 zero 36\n5 push 0\n6 set 0\n7 drop\n\
             8 load 0\n9 push 2\n10 bin 12\n11 zero 13\n12 jump 14\n13 jump 35\n14 turn\n\
             15 mine\n16 push 1\n17 bin 0\n18 procs\n19 bin 4\n20 elem 0 1\n21 load 0\n22 push 4\n23 bin 0\n\
             24 wait 1\n25 write 1\n26 drop\n\
             27 load 0\n28 push 1\n29 bin 0\n30 set 0\n31 push 1\n32 bin 1\n33 drop\n34 jump 8\n\
             35 jump 36\n36 push 0\n37 ret\n",
        ),
        // Dekker's: each node's write is over before its read, and the reads before the value is used
        (
            "int F[2]::; splitc_main() { int r; if (MYPROC == 0) { F[1] = 1; r = F[0]; } \
             else { F[0] = 1; r = F[1]; } printf(\"%d\", r); }",
            Waits::OneWay,
            "function splitc_main\n\
             0 clear 0\n1 mine\n2 push 0\n3 bin 10\n4 zero 15\n\
             5 push 1\n6 elem 0 1\n7 push 1\n8 write 1\n9 drop\n10 push 0\n11 elem 0 1\n12 wait 1\n\
             13 fill 2 0\n14 jump 24\n15 push 0\n16 elem 0 1\n17 push 1\n18 write 3\n19 drop\n20 push 1\n\
             21 elem 0 1\n22 wait 3\n23 fill 4 0\n24 wait 2\n25 wait 4\n26 load 0\n27 print 0 1\n28 push 0\n29 ret\n",
        ),
    ];
    assert_eq!(rt; wrong(&rt, &table)?.as_str(), "");
    Ok(())
}
