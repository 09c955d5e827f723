//! The code of sources, listed, under plans of waits.

use super::lowered::core_of;
use node_emit::{EmitError, emit};
use sc_base::{CopyMode, OutOfMemory};
use sc_isa::{Op, listing};
use site_graph::Plan;
use sqlite_items::Items;
use std::alloc::AllocError;
use std::test::Fail;

/// A source; where its code waits, each pair a point and a site; the sites whose writes are sent one-way; and its code.
type Row<'a> = (&'a str, &'a [(u32, u32)], &'a [u32], &'a str);

/// The plan of these waits, whose points are below 64.
fn plan_of(rt: &HostRuntime, waits: &[(u32, u32)], oneway: &[u32]) -> Result<Plan, Fail> {
    let mut rows = Vec::new(rt.alloc());
    for point in 0..64u32 {
        let mut row = Vec::new(rt.alloc());
        for (at, site) in waits {
            if *at == point {
                row.push(*site)?;
            }
        }
        rows.push(Items::from_vec(row))?;
    }
    Ok(Plan {
        waits: Items::from_vec(rows),
        oneway: Items::from_slice(rt.alloc(), oneway)?,
    })
}

/// The listing of the source's code under the plan, or nothing where it has none.
pub fn listed_under(rt: &HostRuntime, source: &str, plan: &Plan) -> Result<Vec<u8>, Fail> {
    let Some(core) = core_of(rt, source)? else {
        return Ok(Vec::new(rt.alloc()));
    };
    match emit(rt.alloc(), &core, plan) {
        Ok(code) => {
            if code.functions.as_slice().len() > code.texts.as_slice().len() {
                return Ok(Vec::new(rt.alloc()));
            }
            match listing(rt.alloc(), &code) {
                Ok(text) => Ok(text),
                Err(OutOfMemory) => Err(Fail::from(AllocError)),
            }
        }
        Err(EmitError::OutOfMemory) => Err(Fail::from(AllocError)),
        Err(EmitError::TooManyLocals { .. }) => Ok(Vec::new(rt.alloc())),
    }
}

/// The listing of the row's code, or nothing where it has none.
fn listed(rt: &HostRuntime, row: &Row<'_>) -> Result<Vec<u8>, Fail> {
    let (source, waits, oneway, _) = row;
    let plan = plan_of(rt, waits, oneway)?;
    listed_under(rt, source, &plan)
}

/// The sources whose code is another.
fn wrong(rt: &HostRuntime, table: &[Row<'_>]) -> Result<String, Fail> {
    let mut wrong = format!(in rt.alloc(); "")?;
    for row in table {
        let text = listed(rt, row)?;
        if text.as_slice() != row.3.as_bytes() {
            let source = row.0;
            wrong = format!(in rt.alloc(); "{wrong}{source}\n")?;
        }
    }
    Ok(wrong)
}

#[test]
fn constructs(rt: HostRuntime) -> Result<(), Fail> {
    let table: [Row<'_>; 12] = [
        // a write, plain, waited for at the next point, and sent one-way
        (
            "int x; splitc_main() { x = 1; }",
            &[],
            &[],
            "function splitc_main\n0 elem 0 0\n1 glob\n2 push 1\n3 write 1\n4 drop\n5 push 0\n6 ret\n",
        ),
        (
            "int x; splitc_main() { x = 1; }",
            &[(5, 1)],
            &[],
            "function splitc_main\n0 elem 0 0\n1 glob\n2 push 1\n3 write 1\n4 wait 1\n5 drop\n6 push 0\n7 ret\n",
        ),
        (
            "int x; splitc_main() { x = 1; }",
            &[],
            &[1],
            "function splitc_main\n0 elem 0 0\n1 glob\n2 push 1\n3 store 1\n4 drop\n5 push 0\n6 ret\n",
        ),
        // two reads before their use, which waits for both
        (
            "int x; int y; splitc_main() { int i; i = x + y; }",
            &[(9, 1), (9, 2)],
            &[],
            "function splitc_main\n0 clear 0\n1 elem 0 0\n2 glob\n3 read 1\n4 elem 1 0\n5 glob\n6 read 2\n7 wait 1\n8 wait 2\n9 bin 0\n10 set 0\n11 drop\n12 push 0\n13 ret\n",
        ),
        // a fill, waited for at the return
        (
            "int x; splitc_main() { int i; i = x; return i; }",
            &[(7, 1)],
            &[],
            "function splitc_main\n0 clear 0\n1 elem 0 0\n2 glob\n3 fill 1 0\n4 load 0\n5 wait 1\n6 ret\n7 push 0\n8 ret\n",
        ),
        // a run of two instructions behind its wait
        (
            "int *p; splitc_main() { int i; i = !p; }",
            &[(6, 1)],
            &[],
            "function splitc_main\n0 clear 0\n1 elem 0 0\n2 glob\n3 read 1\n4 wait 1\n5 truth\n6 un 1\n7 set 0\n8 drop\n9 push 0\n10 ret\n",
        ),
        // an update, whose old value is wanted
        (
            "int x; splitc_main() { int i; i = x++; }",
            &[(6, 1), (8, 2)],
            &[],
            "function splitc_main\n0 clear 0\n1 elem 0 0\n2 glob\n3 dup\n4 read 1\n5 push 1\n6 wait 1\n7 bin 0\n8 write 2\n9 push 1\n10 wait 2\n11 bin 1\n12 set 0\n13 drop\n14 push 0\n15 ret\n",
        ),
        // choices of values
        (
            "splitc_main() { int i; i = i && 2 || 3; }",
            &[],
            &[],
            "function splitc_main\n0 clear 0\n1 load 0\n2 zero 9\n3 push 2\n4 zero 7\n5 push 1\n6 jump 8\n7 push 0\n8 jump 10\n9 push 0\n10 zero 13\n11 push 1\n12 jump 18\n13 push 3\n14 zero 17\n15 push 1\n16 jump 18\n17 push 0\n18 set 0\n19 drop\n20 push 0\n21 ret\n",
        ),
        (
            "splitc_main() { int i; i = i ? 4 : 5; }",
            &[(3, 1)],
            &[],
            "function splitc_main\n0 clear 0\n1 wait 1\n2 load 0\n3 zero 6\n4 push 4\n5 jump 7\n6 push 5\n7 set 0\n8 drop\n9 push 0\n10 ret\n",
        ),
        // `if`, with an `else if` and an `else`; the second test waits before it
        (
            "splitc_main() { int i; if (i) i = 1; else if (!i) i = 2; else i = 3; }",
            &[(7, 1)],
            &[],
            "function splitc_main\n0 clear 0\n1 load 0\n2 zero 7\n3 push 1\n4 set 0\n5 drop\n6 jump 18\n7 wait 1\n8 load 0\n9 un 1\n10 zero 15\n11 push 2\n12 set 0\n13 drop\n14 jump 18\n15 push 3\n16 set 0\n17 drop\n18 push 0\n19 ret\n",
        ),
        // a loop that is left and gone on with
        (
            "splitc_main() { int i; while (i < 3) { if (i) break; continue; } }",
            &[],
            &[],
            "function splitc_main\n0 clear 0\n1 load 0\n2 push 3\n3 bin 12\n4 zero 6\n5 jump 7\n6 jump 14\n7 turn\n8 load 0\n9 zero 12\n10 jump 14\n11 jump 12\n12 jump 13\n13 jump 1\n14 push 0\n15 ret\n",
        ),
        // a call, a return, a sync and a barrier
        (
            "int f(int a) { return a; } splitc_main() { f(1); sync(); barrier(); }",
            &[],
            &[],
            "function f\n0 load 0\n1 ret\n2 push 0\n3 ret\nfunction splitc_main\n4 push 1\n5 call 0\n6 drop\n7 wait 0\n8 barrier\n9 push 0\n10 ret\n",
        ),
    ];
    assert_eq!(rt; wrong(&rt, &table)?.as_str(), "");
    Ok(())
}

/// The sources whose code is another, where it waits for nothing and sends no write one-way.
fn wrong_bare(rt: &HostRuntime, table: &[(&str, &str)]) -> Result<String, Fail> {
    let mut rows = Vec::new(rt.alloc());
    for (source, want) in table {
        let row: Row<'_> = (*source, &[], &[], *want);
        rows.push(row)?;
    }
    wrong(rt, rows.as_slice())
}

#[test]
fn split_and_one_way_accesses(rt: HostRuntime) -> Result<(), Fail> {
    let table = [
        // a get into a local, a put and a store: none leaves an operand
        (
            "int A[4]::; splitc_main() { int i; i := A[1]; sync(); return i; }",
            "function splitc_main\n\
             0 clear 0\n1 push 1\n2 elem 0 1\n3 get 1 0\n4 wait 0\n5 load 0\n6 ret\n7 push 0\n8 ret\n",
        ),
        (
            "int A[4]::; splitc_main() { A[1] := 5; }",
            "function splitc_main\n0 push 1\n1 elem 0 1\n2 push 5\n3 put 1\n4 push 0\n5 ret\n",
        ),
        (
            "int A[4]::; splitc_main() { A[1] :- 5; all_store_sync(); }",
            "function splitc_main\n0 push 1\n1 elem 0 1\n2 push 5\n3 send 1\n4 allsync\n5 push 0\n6 ret\n",
        ),
        // a copy of one cell, which is 8 bytes
        (
            "int x; int A[4]::; splitc_main() { x := A[1]; }",
            "function splitc_main\n\
             0 elem 0 0\n1 glob\n2 push 1\n3 elem 1 1\n4 push 8\n5 copy 1\n6 push 0\n7 ret\n",
        ),
    ];
    assert_eq!(rt; wrong_bare(&rt, &table)?.as_str(), "");
    Ok(())
}

#[test]
fn bulk_transfers(rt: HostRuntime) -> Result<(), Fail> {
    let table = [
        // into the node's own cells, and out of them
        (
            "int B[4]; int A[2]::[4]; splitc_main() { bulk_read(B, A[1], 24); }",
            "function splitc_main\n\
             0 elem 0 0\n1 glob\n2 push 1\n3 elem 1 1\n4 push 24\n5 copy 1\n6 push 0\n7 ret\n",
        ),
        (
            "int B[4]; int A[2]::[4]; splitc_main() { bulk_get(B, A[1], 24); }",
            "function splitc_main\n\
             0 elem 0 0\n1 glob\n2 push 1\n3 elem 1 1\n4 push 24\n5 copy 1\n6 push 0\n7 ret\n",
        ),
        (
            "int B[4]; int A[2]::[4]; splitc_main() { bulk_write(A[1], B, 24); }",
            "function splitc_main\n\
             0 push 1\n1 elem 1 1\n2 elem 0 0\n3 glob\n4 push 24\n5 copy 1\n6 push 0\n7 ret\n",
        ),
        (
            "int B[4]; int A[2]::[4]; splitc_main() { bulk_put(A[1], B, 24); }",
            "function splitc_main\n\
             0 push 1\n1 elem 1 1\n2 elem 0 0\n3 glob\n4 push 24\n5 copy 1\n6 push 0\n7 ret\n",
        ),
        (
            "int B[4]; int A[2]::[4]; splitc_main() { bulk_store(A[1], B, 24); }",
            "function splitc_main\n\
             0 push 1\n1 elem 1 1\n2 elem 0 0\n3 glob\n4 push 24\n5 copy 1\n6 push 0\n7 ret\n",
        ),
        // a local pointer where a global one is wanted
        (
            "int B[4]; splitc_main() { bulk_read(B, B, 8); }",
            "function splitc_main\n\
             0 elem 0 0\n1 glob\n2 elem 0 0\n3 glob\n4 push 8\n5 copy 1\n6 push 0\n7 ret\n",
        ),
    ];
    assert_eq!(rt; wrong_bare(&rt, &table)?.as_str(), "");
    Ok(())
}

/// How the copies of the source's code are waited for, which its listing does not tell.
fn modes_of(rt: &HostRuntime, source: &str) -> Result<Vec<CopyMode>, Fail> {
    let mut modes = Vec::new(rt.alloc());
    let plan = plan_of(rt, &[], &[])?;
    let Some(core) = core_of(rt, source)? else {
        return Ok(modes);
    };
    if let Ok(code) = emit(rt.alloc(), &core, &plan) {
        for instr in code.instrs.as_slice() {
            if let Op::Copy { mode, .. } = instr.op {
                modes.push(mode)?;
            }
        }
    }
    Ok(modes)
}

#[test]
fn modes_of_copies(rt: HostRuntime) -> Result<(), Fail> {
    let source =
        "int B[4]; int A[2]::[4]; splitc_main() { bulk_read(B, A[1], 8); bulk_write(A[1], B, 8); \
         bulk_get(B, A[1], 8); bulk_put(A[1], B, 8); bulk_store(A[1], B, 8); B[0] := A[1][0]; }";
    let wanted = [
        CopyMode::Blocking,
        CopyMode::Blocking,
        CopyMode::Split,
        CopyMode::Split,
        CopyMode::OneWay,
        CopyMode::Split,
    ];
    assert_eq!(rt; modes_of(&rt, source)?.as_slice(), wanted.as_slice());
    Ok(())
}

#[test]
fn loops(rt: HostRuntime) -> Result<(), Fail> {
    let table = [
        // a turn begins behind the test, and without one before the body
        (
            "splitc_main() { int i; do i = i + 1; while (i < 3); }",
            "function splitc_main\n\
             0 clear 0\n1 turn\n2 load 0\n3 push 1\n4 bin 0\n5 set 0\n6 drop\n\
             7 load 0\n8 push 3\n9 bin 12\n10 zero 12\n11 jump 13\n12 jump 14\n13 jump 1\n14 push 0\n15 ret\n",
        ),
        (
            "splitc_main() { int i; for (i = 0; i < 3; i++) ; }",
            "function splitc_main\n\
             0 clear 0\n1 push 0\n2 set 0\n3 drop\n\
             4 load 0\n5 push 3\n6 bin 12\n7 zero 9\n8 jump 10\n9 jump 19\n10 turn\n\
             11 load 0\n12 push 1\n13 bin 0\n14 set 0\n15 push 1\n16 bin 1\n17 drop\n18 jump 4\n19 push 0\n20 ret\n",
        ),
        // `continue` goes on with the third part
        (
            "splitc_main() { int i; for (; ; i++) { if (i) continue; break; } }",
            "function splitc_main\n\
             0 clear 0\n1 turn\n2 load 0\n3 zero 6\n4 jump 7\n5 jump 6\n6 jump 15\n\
             7 load 0\n8 push 1\n9 bin 0\n10 set 0\n11 push 1\n12 bin 1\n13 drop\n14 jump 1\n15 push 0\n16 ret\n",
        ),
        (
            "splitc_main() { int i; for_my_1d(i, 5) ; }",
            "function splitc_main\n\
             0 clear 0\n1 mine\n2 set 0\n3 drop\n\
             4 load 0\n5 push 5\n6 bin 12\n7 zero 9\n8 jump 10\n9 jump 17\n10 turn\n\
             11 load 0\n12 procs\n13 bin 0\n14 set 0\n15 drop\n16 jump 4\n17 push 0\n18 ret\n",
        ),
    ];
    assert_eq!(rt; wrong_bare(&rt, &table)?.as_str(), "");
    Ok(())
}

#[test]
fn updates_and_locals(rt: HostRuntime) -> Result<(), Fail> {
    let table = [
        // a place that is read and written is evaluated once, and its pointer doubled
        (
            "int x; splitc_main() { x += 2; ++x; x--; }",
            "function splitc_main\n\
             0 elem 0 0\n1 glob\n2 dup\n3 read 1\n4 push 2\n5 bin 0\n6 write 2\n7 drop\n\
             8 elem 0 0\n9 glob\n10 dup\n11 read 3\n12 push 1\n13 bin 0\n14 write 4\n15 drop\n\
             16 elem 0 0\n17 glob\n18 dup\n19 read 5\n20 push 1\n21 bin 1\n22 write 6\n\
             23 push 1\n24 bin 0\n25 drop\n26 push 0\n27 ret\n",
        ),
        // a local is no memory
        (
            "splitc_main() { int i; i -= 3; ++i; }",
            "function splitc_main\n\
             0 clear 0\n1 load 0\n2 push 3\n3 bin 1\n4 set 0\n5 drop\n\
             6 load 0\n7 push 1\n8 bin 0\n9 set 0\n10 drop\n11 push 0\n12 ret\n",
        ),
        // an initialiser sets its local and leaves nothing
        (
            "int x; splitc_main() { int i = 1; int j = x; int *p = NULL; i = -j; i = ~i; }",
            "function splitc_main\n\
             0 push 1\n1 set 0\n2 drop\n3 elem 0 0\n4 glob\n5 fill 1 1\n6 null\n7 set 2\n8 drop\n\
             9 load 1\n10 un 0\n11 set 0\n12 drop\n13 load 0\n14 un 2\n15 set 0\n16 drop\n17 push 0\n18 ret\n",
        ),
        // a void call is dropped too; a body's end gives 0 or null
        (
            "int *f(int *q) { } void v() { return; } splitc_main() { v(); f(NULL); }",
            "function f\n0 null\n1 ret\nfunction v\n2 push 0\n3 ret\n4 push 0\n5 ret\n\
             function splitc_main\n6 call 1\n7 drop\n8 null\n9 call 0\n10 drop\n11 push 0\n12 ret\n",
        ),
        // what is printed, by the formats in their order
        (
            "splitc_main() { printf(\"x\"); printf(\"y %d %d\", 7, MYPROC); }",
            "function splitc_main\n0 print 0 0\n1 push 7\n2 mine\n3 print 1 2\n4 push 0\n5 ret\n",
        ),
    ];
    assert_eq!(rt; wrong_bare(&rt, &table)?.as_str(), "");
    Ok(())
}

#[test]
fn pointers(rt: HostRuntime) -> Result<(), Fail> {
    let table = [
        // steps over each kind of pointer; a subtraction negates its number first
        (
            "int *p; splitc_main() { p = p + 1; }",
            "function splitc_main\n\
             0 elem 0 0\n1 glob\n2 elem 0 0\n3 glob\n4 read 1\n5 push 1\n6 step local\n7 write 2\n8 drop\n\
             9 push 0\n10 ret\n",
        ),
        (
            "int *global g; int *spread s; splitc_main() { g = g - 2; s = s + 1; g = s; }",
            "function splitc_main\n\
             0 elem 0 0\n1 glob\n2 elem 0 0\n3 glob\n4 read 1\n5 push 2\n6 un 0\n7 step global\n8 write 2\n9 drop\n\
             10 elem 1 0\n11 glob\n12 elem 1 0\n13 glob\n14 read 3\n15 push 1\n16 step spread\n17 write 4\n18 drop\n\
             19 elem 0 0\n20 glob\n21 elem 1 0\n22 glob\n23 read 5\n24 write 6\n25 drop\n26 push 0\n27 ret\n",
        ),
        // from one kind to another
        (
            "int *p; int *global g; splitc_main() { g = p; p = tolocal(g); toproc(g); g = toglobal(1, p); }",
            "function splitc_main\n\
             0 elem 1 0\n1 glob\n2 elem 0 0\n3 glob\n4 read 1\n5 glob\n6 write 2\n7 drop\n\
             8 elem 0 0\n9 glob\n10 elem 1 0\n11 glob\n12 read 3\n13 tolocal\n14 write 4\n15 drop\n\
             16 elem 1 0\n17 glob\n18 read 5\n19 toproc\n20 drop\n\
             21 elem 1 0\n22 glob\n23 push 1\n24 elem 0 0\n25 glob\n26 read 6\n27 toglobal\n28 write 7\n29 drop\n\
             30 push 0\n31 ret\n",
        ),
        // what is told of them
        (
            "int *p; splitc_main() { p == NULL; p != p; if (p) ; }",
            "function splitc_main\n\
             0 elem 0 0\n1 glob\n2 read 1\n3 null\n4 same\n5 drop\n\
             6 elem 0 0\n7 glob\n8 read 2\n9 elem 0 0\n10 glob\n11 read 3\n12 same\n13 un 1\n14 drop\n\
             15 elem 0 0\n16 glob\n17 read 4\n18 truth\n19 zero 21\n20 jump 21\n21 push 0\n22 ret\n",
        ),
        // addresses, which have no node of their own, and the cells behind pointers, which have
        (
            "int M[2][3]; int *p; splitc_main() { p = &M[1][2]; p = M[1]; *p = p[1]; }",
            "function splitc_main\n\
             0 elem 1 0\n1 glob\n2 push 1\n3 push 2\n4 elem 0 2\n5 write 1\n6 drop\n\
             7 elem 1 0\n8 glob\n9 push 1\n10 elem 0 1\n11 write 2\n12 drop\n\
             13 elem 1 0\n14 glob\n15 read 3\n16 glob\n17 elem 1 0\n18 glob\n19 read 4\n20 push 1\n21 step local\n\
             22 glob\n23 read 5\n24 write 6\n25 drop\n26 push 0\n27 ret\n",
        ),
    ];
    assert_eq!(rt; wrong_bare(&rt, &table)?.as_str(), "");
    Ok(())
}

/// Why a function with one parameter and so many other locals is refused: how many locals it has.
fn refused_locals(rt: &HostRuntime, others: u32) -> Result<Option<u32>, Fail> {
    let mut source = format!(in rt.alloc(); "int f(int a) {{ ")?;
    for local in 0..others {
        source = format!(in rt.alloc(); "{source}int b{local}; ")?;
    }
    source = format!(in rt.alloc(); "{source}return a; }} splitc_main() {{ f(1); }}")?;
    let plan = plan_of(rt, &[], &[])?;
    let Some(core) = core_of(rt, source.as_str())? else {
        return Ok(Some(0));
    };
    match emit(rt.alloc(), &core, &plan) {
        Ok(_) => Ok(None),
        Err(EmitError::TooManyLocals { count }) => Ok(Some(count)),
        Err(EmitError::OutOfMemory) => Err(Fail::from(AllocError)),
    }
}

#[test]
fn locals(rt: HostRuntime) -> Result<(), Fail> {
    assert_eq!(rt; refused_locals(&rt, 63)?, None);
    assert_eq!(rt; refused_locals(&rt, 64)?, Some(65));
    Ok(())
}
