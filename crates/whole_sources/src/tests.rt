//! The program on whole sources. Expected texts are counted by hand.

mod causes;
mod commands;
mod evaluation;
mod examples;
mod limits;
mod words;
mod worked;

use run_report::Status;
use sc_io::{MemorySink, MemorySource, Sink, Source, SteadySink, SteadySource};
use splitc_top::top::top_still;
use std::alloc::{AllocError, Global};
use std::process::Abort;
use std::test::Fail;

fn words_of(alloc: Global, line: &str) -> Result<Vec<String>, AllocError> {
    let mut words = Vec::new(alloc);
    for word in line.split(' ') {
        if !word.is_empty() {
            words.push(word.to_string(alloc)?)?;
        }
    }
    Ok(words)
}

/// How the program ends over these streams, and how many accesses the source has that it compiled, if it compiled one.
#[derive(Drop)]
struct Ended {
    status: Status,
    sites: Option<u32>,
}

/// Runs the program. What it made is given up here, where nothing can fail.
fn run_over<S: Source, K: Sink, E: Sink>(
    alloc: Global,
    words: &[String],
    source: &mut S,
    out: &mut K,
    err: &mut E,
) -> Ended {
    let mut made = None;
    let status = top_still(alloc, words, source, out, err, &mut made);
    let sites = match &made {
        Some(compiled) => Some(compiled.code.sites),
        None => None,
    };
    Ended { status, sites }
}

/// What the program answers and writes.
#[derive(Drop)]
struct Told {
    status: u8,
    out: Vec<u8>,
    err: Vec<u8>,
}

fn run_program(alloc: Global, line: &str, text: &str) -> Result<Told, Fail> {
    let words = words_of(alloc, line)?;
    let mut source = SteadySource::new(text.as_bytes().to_vec(alloc)?);
    let mut out = SteadySink::new(alloc, 4096)?;
    let mut err = SteadySink::new(alloc, 4096)?;
    let ended = run_over(alloc, words.as_slice(), &mut source, &mut out, &mut err);
    Ok(Told {
        status: ended.status.code(),
        out: out.bytes().to_vec(alloc)?,
        err: err.bytes().to_vec(alloc)?,
    })
}

fn text_is(rt: &impl Abort, told: &[u8], wanted: &str, about: &str) {
    assert_eq!(rt; told, wanted.as_bytes(), "of {about}");
}

/// The program answers so, on a source of one line.
#[derive(Drop)]
struct Row {
    words: &'static str,
    source: &'static str,
    status: u8,
    out: &'static str,
    err: &'static str,
}

#[test]
fn sources_and_their_reports(rt: HostRuntime) -> Result<(), Fail> {
    let rows = [
        Row {
            words: "run -n 2",
            source: "splitc_main() { printf(\"%d\\n\", MYPROC); }",
            status: 0,
            out: "== node 0 ==\n0\n-- ended --\n== node 1 ==\n1\n-- ended --\n",
            err: "",
        },
        Row {
            words: "run -n 1",
            source: "splitc_main() { int x; x = 9223372036854775807 + 1; printf(\"%d\", x); }",
            status: 10,
            out: "== node 0 ==\n-- fault Overflow line 1 --\n",
            err: "",
        },
        Row {
            words: "run -n 1",
            source: "splitc_main() { printf(\"%d%%%d\", PROCS, 7); }",
            status: 0,
            out: "== node 0 ==\n1%7\n-- ended --\n",
            err: "",
        },
        Row {
            words: "run -n 1",
            source: "int A[2]::; splitc_main() { A[2] = 1; }",
            status: 10,
            out: "== node 0 ==\n-- fault Index line 1 --\n",
            err: "",
        },
        Row {
            words: "run -n 2 -m",
            source: "int A[2]::;\nsplitc_main() { int z;\nA[1] = 5; z = 1 / MYPROC; }",
            status: 10,
            out: "== node 0 ==\n-- fault Divide line 3 --\n== node 1 ==\n-- ended --\n== memory ==\nA = 0 5\n",
            err: "",
        },
        Row {
            words: "run -n 16 -m",
            source: "int A[4]::; splitc_main() { int x; x = MYPROC % 4; A[x] = x; }",
            status: 0,
            out: "== node 0 ==\n-- ended --\n== node 1 ==\n-- ended --\n== node 2 ==\n-- ended --\n== node 3 ==\n-- ended --\n== node 4 ==\n-- ended --\n== node 5 ==\n-- ended --\n== node 6 ==\n-- ended --\n== node 7 ==\n-- ended --\n== node 8 ==\n-- ended --\n== node 9 ==\n-- ended --\n== node 10 ==\n-- ended --\n== node 11 ==\n-- ended --\n== node 12 ==\n-- ended --\n== node 13 ==\n-- ended --\n== node 14 ==\n-- ended --\n== node 15 ==\n-- ended --\n== memory ==\nA = 0 1 2 3\n",
            err: "",
        },
        Row {
            words: "run -n 1 -b 0",
            source: "splitc_main() { int i; while (i < 1) { i = i + 1; } }",
            status: 12,
            out: "== node 0 ==\n-- cut --\n",
            err: "",
        },
        Row {
            words: "run -n 1 -b 1",
            source: "splitc_main() { int i; while (i < 1) { i = i + 1; } }",
            status: 0,
            out: "== node 0 ==\n-- ended --\n",
            err: "",
        },
        Row {
            words: "run -n 1 -b 1000000",
            source: "splitc_main() { while (0 < 1) { } }",
            status: 12,
            out: "== node 0 ==\n-- cut --\n",
            err: "",
        },
        Row {
            words: "run -n 2",
            source: "int A[3]::; splitc_main() { int i; int s; int x; A[0] = 3; A[1] = 4; A[2] = 5; while (i < 3) { x = A[i]; s = s + x; i = i + 1; } printf(\"%d\", s); }",
            status: 0,
            out: "== node 0 ==\n12\n-- ended --\n== node 1 ==\n12\n-- ended --\n",
            err: "",
        },
        Row {
            words: "run -n 1 -b 5",
            source: "splitc_main() { int i; int j; while (i < 2) { j = 0; while (j < 2) { j = j + 1; printf(\"x\"); } i = i + 1; } }",
            status: 12,
            out: "== node 0 ==\nxxx\n-- cut --\n",
            err: "",
        },
        Row {
            words: "run -n 2 -b 3",
            source: "splitc_main() { int x; x = 1 / MYPROC; while (0 < 1) { } }",
            status: 10,
            out: "== node 0 ==\n-- fault Divide line 1 --\n== node 1 ==\n-- cut --\n",
            err: "",
        },
        Row {
            words: "run -n 2",
            source: "int A[6]::; splitc_main() { int *spread s = &A[1]; s = s + 3; printf(\"%d %d\\n\", toproc(s), toproc((int *global)&A[1] + 1)); }",
            status: 0,
            out: "== node 0 ==\n0 1\n-- ended --\n== node 1 ==\n0 1\n-- ended --\n",
            err: "",
        },
        Row {
            words: "run -n 2 -m",
            source: "int A[2]::;\nsplitc_main() { int z = 0;\nif (MYPROC == 0) { A[1] = 5; z = 1 / z; } }",
            status: 10,
            out: "== node 0 ==\n-- fault Divide line 3 --\n== node 1 ==\n-- ended --\n== memory ==\nA = 0 5\n",
            err: "",
        },
        Row {
            words: "run -n 2 -m",
            source: "#define K 0x2\nint A[K]::; splitc_main() { A[1] = K; }",
            status: 0,
            out: "== node 0 ==\n-- ended --\n== node 1 ==\n-- ended --\n== memory ==\nA = 0 2\n",
            err: "",
        },
        Row {
            words: "run -n 2 -m",
            source: "int A[4]::[2]; splitc_main() { if (MYPROC == 1) A[3][1] = 9; }",
            status: 0,
            out: "== node 0 ==\n-- ended --\n== node 1 ==\n-- ended --\n== memory ==\nA = 0 0 0 0 0 0 0 9\n",
            err: "",
        },
        Row {
            words: "run -n 1",
            source: "splitc_main() { int *p; printf(\"%d\", *p); }",
            status: 10,
            out: "== node 0 ==\n-- fault NullUse line 1 --\n",
            err: "",
        },
        Row {
            words: "run -n 2",
            source: "int x; splitc_main() { int *global g = toglobal(2, &x); }",
            status: 10,
            out: "== node 0 ==\n-- fault BadNode line 1 --\n== node 1 ==\n-- fault BadNode line 1 --\n",
            err: "",
        },
        Row {
            words: "run -n 2 -m",
            source: "int x; int *p; int *global g; int *q; splitc_main() { x = MYPROC + 3; p = &x; g = &x; }",
            status: 0,
            out: "== node 0 ==\n-- ended --\n== node 1 ==\n-- ended --\n== memory ==\nx@0 = 3\nx@1 = 4\np@0 = x@0+0\np@1 = x@0+0\ng@0 = x@0+0\ng@1 = x@1+0\nq@0 = null\nq@1 = null\n",
            err: "",
        },
        Row {
            words: "run -n 1",
            source: "int A[65536]; splitc_main() { }",
            status: 0,
            out: "== node 0 ==\n-- ended --\n",
            err: "",
        },
        Row {
            words: "run -n 17",
            source: "splitc_main() { }",
            status: 2,
            out: "",
            err: "splitc: words\n",
        },
        Row {
            words: "",
            source: "splitc_main() { }",
            status: 2,
            out: "",
            err: "splitc: words\n",
        },
    ];
    for row in &rows {
        let told = run_program(rt.alloc(), row.words, row.source)?;
        assert_eq!(rt; told.status, row.status, "of {}", row.source);
        text_is(&rt, told.out.as_slice(), row.out, row.source);
        text_is(&rt, told.err.as_slice(), row.err, row.source);
    }
    Ok(())
}

/// The source is refused with this line, without its newline.
fn check_refused(rt: &impl Abort, alloc: Global, source: &str, line: &str) -> Result<(), Fail> {
    let told = run_program(alloc, "run -n 2", source)?;
    assert_eq!(rt; told.status, 3, "of {line}");
    text_is(rt, told.out.as_slice(), "", line);
    let wanted = format!(in alloc; "{line}\n")?;
    text_is(rt, told.err.as_slice(), wanted.as_str(), line);
    Ok(())
}

#[test]
fn refused_sources_and_their_lines(rt: HostRuntime) -> Result<(), Fail> {
    let rows = [
        ("splitc_main() { 08; }", "splitc: bad byte at 17"),
        ("/* a", "splitc: open comment at 0"),
        (
            "splitc_main() { return 9223372036854775808; }",
            "splitc: wide number at 23",
        ),
        ("\n#undef K", "splitc: bad directive on line 2"),
        ("", "splitc: syntax at token 1"),
        ("splitc_main() { 1 + ; }", "splitc: syntax at token 7"),
        ("int A[0]; splitc_main() { }", "splitc: bad bound on line 1"),
        (
            "int A[65537]; splitc_main() { }",
            "splitc: too many cells: 65537",
        ),
        ("splitc_main() { x = 1; }", "splitc: rule 2 on line 1"),
    ];
    for (source, line) in rows {
        check_refused(&rt, rt.alloc(), source, line)?;
    }
    Ok(())
}

/// So many times the text, between two others.
fn repeated(
    alloc: Global,
    head: &str,
    text: &str,
    count: u32,
    tail: &str,
) -> Result<String, AllocError> {
    let mut all = head.to_string(alloc)?;
    for _ in 0..count {
        all.push_str(text)?;
    }
    all.push_str(tail)?;
    Ok(all)
}

#[test]
fn sources_past_a_limit(rt: HostRuntime) -> Result<(), Fail> {
    let alloc = rt.alloc();
    let deep = repeated(alloc, "splitc_main() { return", "(", 70, "")?;
    check_refused(&rt, alloc, deep.as_str(), "splitc: too deep at token 69")?;
    let tokens = repeated(alloc, "", ";", 65537, "")?;
    check_refused(&rt, alloc, tokens.as_str(), "splitc: too many tokens")?;
    let mut objects = String::new(alloc);
    for number in 0..257 {
        objects.push_str(format!(in alloc; "int x{number}; ")?.as_str())?;
    }
    objects.push_str("splitc_main() { }")?;
    check_refused(
        &rt,
        alloc,
        objects.as_str(),
        "splitc: too many objects: 257",
    )
}

#[test]
fn the_longest_source(rt: HostRuntime) -> Result<(), Fail> {
    let alloc = rt.alloc();
    let count = 262144 - PRINTS_ITS_NODE.len() as u32 - 2;
    let head = format!(in alloc; "{PRINTS_ITS_NODE}//")?;
    let longest = repeated(alloc, head.as_str(), "x", count, "")?;
    let told = run_program(alloc, "run -n 2", longest.as_str())?;
    text_is(
        &rt,
        told.out.as_slice(),
        "== node 0 ==\n0\n-- ended --\n== node 1 ==\n1\n-- ended --\n",
        "the longest source",
    );
    assert_eq!(rt; told.status, 0);
    let longer = repeated(alloc, longest.as_str(), "x", 1, "")?;
    check_refused(&rt, alloc, longer.as_str(), "splitc: source too long")
}

fn seeded(alloc: Global, seed: u32, source: &str) -> Result<Told, Fail> {
    let words = format!(in alloc; "run -n 2 -m -s {seed}")?;
    run_program(alloc, words.as_str(), source)
}

#[test]
fn two_remote_writes_under_every_seed(rt: HostRuntime) -> Result<(), Fail> {
    let source =
        "int A[3]::; splitc_main() { int i; int x; i = MYPROC + 1; A[i] = MYPROC; x = A[i]; printf(\"%d\\n\", x); }";
    for seed in 0..100 {
        let told = seeded(rt.alloc(), seed, source)?;
        text_is(
            &rt,
            told.out.as_slice(),
            "== node 0 ==\n0\n-- ended --\n== node 1 ==\n1\n-- ended --\n== memory ==\nA = 0 0 1\n",
            source,
        );
    }
    Ok(())
}

#[test]
fn a_race_has_both_outcomes(rt: HostRuntime) -> Result<(), Fail> {
    let source = "int A[1]::; splitc_main() { A[0] = MYPROC + 1; }";
    let mut first = false;
    let mut second = false;
    for seed in 0..100 {
        let told = seeded(rt.alloc(), seed, source)?;
        if told.out.as_slice().ends_with(b"A = 1\n") {
            first = true;
        } else {
            assert!(rt; told.out.as_slice().ends_with(b"A = 2\n"));
            second = true;
        }
    }
    assert!(rt; first && second);
    Ok(())
}

const PRINTS_ITS_NODE: &str = "splitc_main() { printf(\"%d\\n\", MYPROC); }";

#[test]
fn a_failing_source_is_a_read_fault(rt: HostRuntime) -> Result<(), Fail> {
    let alloc = rt.alloc();
    let words = words_of(alloc, "run -n 2")?;
    let failing = vec![in alloc; 0u64]?;
    let mut source = MemorySource::new(PRINTS_ITS_NODE.as_bytes().to_vec(alloc)?, failing, 8);
    let mut out = SteadySink::new(alloc, 4096)?;
    let mut err = SteadySink::new(alloc, 4096)?;
    let ended = run_over(alloc, words.as_slice(), &mut source, &mut out, &mut err);
    assert_eq!(rt; ended.status, Status::Read);
    text_is(&rt, out.bytes(), "", "a failing source");
    text_is(&rt, err.bytes(), "splitc: read fault\n", "a failing source");
    Ok(())
}

#[test]
fn a_failing_sink_keeps_a_prefix(rt: HostRuntime) -> Result<(), Fail> {
    let alloc = rt.alloc();
    let words = words_of(alloc, "run -n 2")?;
    let mut source = SteadySource::new(PRINTS_ITS_NODE.as_bytes().to_vec(alloc)?);
    let mut out = MemorySink::new(alloc, 4096, vec![in alloc; 1u64]?, 8)?;
    let mut err = SteadySink::new(alloc, 4096)?;
    let ended = run_over(alloc, words.as_slice(), &mut source, &mut out, &mut err);
    assert_eq!(rt; ended.status, Status::Write);
    text_is(&rt, out.bytes(), "== node ", "a failing sink");
    text_is(&rt, err.bytes(), "", "a failing sink");
    Ok(())
}
