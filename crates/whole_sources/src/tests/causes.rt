//! Why each status comes, for each command, and what was made: over streams of which some calls fail. Expected texts are
//! found by hand.

use super::commands::{DEKKER, LOOP};
use super::{run_over, text_is, words_of};
use sc_io::{MemorySink, MemorySource, SteadySink, SteadySource};
use splitc_compile::Compiled;
use splitc_top::top::top_still;
use std::alloc::{AllocError, Global};
use std::process::Abort;
use std::test::Fail;

/// The calls of the source, of `out` and of `err` that fail, if there are any; 8 bytes are moved by a call.
#[derive(Clone, Copy)]
struct Failing {
    source: Option<u64>,
    out: Option<u64>,
    err: Option<u64>,
}

const NONE: Failing = Failing {
    source: None,
    out: None,
    err: None,
};

/// What the program answers over such streams.
#[derive(Clone, Copy)]
struct Cause {
    words: &'static str,
    source: &'static str,
    failing: Failing,
    status: u8,
    out: &'static str,
    err: &'static str,
    made: bool,
}

/// The empty list, or that of one call.
fn calls(alloc: Global, call: Option<u64>) -> Result<Vec<u64>, AllocError> {
    let mut calls = Vec::new(alloc);
    if let Some(call) = call {
        calls.push(call)?;
    }
    Ok(calls)
}

fn check(rt: &impl Abort, alloc: Global, cause: &Cause) -> Result<(), Fail> {
    let words = words_of(alloc, cause.words)?;
    let bytes = cause.source.as_bytes().to_vec(alloc)?;
    let mut source = MemorySource::new(bytes, calls(alloc, cause.failing.source)?, 8);
    let mut out = MemorySink::new(alloc, 4096, calls(alloc, cause.failing.out)?, 8)?;
    let mut err = MemorySink::new(alloc, 4096, calls(alloc, cause.failing.err)?, 8)?;
    let ended = run_over(alloc, words.as_slice(), &mut source, &mut out, &mut err);
    assert_eq!(rt;
        ended.status.code(),
        cause.status,
        "of {} and {}",
        cause.words,
        cause.source
    );
    text_is(rt, out.bytes(), cause.out, cause.words);
    text_is(rt, err.bytes(), cause.err, cause.words);
    assert_eq!(rt;
        ended.sites.is_some(),
        cause.made,
        "of {} and {}",
        cause.words,
        cause.source
    );
    Ok(())
}

/// A cause at which nothing is written or made, but for the beginning of a text on `err`.
fn refused(words: &'static str, source: &'static str, status: u8, err: &'static str) -> Cause {
    Cause {
        words,
        source,
        failing: NONE,
        status,
        out: "",
        err,
        made: false,
    }
}

const EMPTY: &str = "splitc_main() { }";

#[test]
fn texts_are_written(rt: HostRuntime) -> Result<(), Fail> {
    let listing = "function splitc_main\n0 push 0\n1 ret\n";
    let report = "== node 0 ==\n-- ended --\n";
    let none = refused("compile -n 1", EMPTY, 0, "");
    let rows = [
        Cause {
            out: listing,
            made: true,
            ..none
        },
        Cause {
            words: "delays -n 2",
            source: DEKKER,
            out: "delay 1 2\ndelay 3 4\n",
            made: true,
            ..none
        },
        // a text without a byte
        Cause {
            words: "delays -n 1",
            made: true,
            ..none
        },
        Cause {
            words: "run -n 1",
            out: report,
            made: true,
            ..none
        },
        Cause {
            words: "explain -n 1",
            out: "end 0 ended\n",
            made: true,
            ..none
        },
        // a run in which some node is at fault
        Cause {
            words: "run -n 1",
            source: "splitc_main() { 1 / 0; }",
            status: 10,
            out: "== node 0 ==\n-- fault Divide line 1 --\n",
            made: true,
            ..none
        },
    ];
    for row in &rows {
        check(&rt, rt.alloc(), row)?;
    }
    Ok(())
}

#[test]
fn refusals_have_their_lines(rt: HostRuntime) -> Result<(), Fail> {
    let failing = Failing {
        source: Some(1),
        ..NONE
    };
    for words in ["compile -n 1", "delays -n 1", "run -n 1", "explain -n 1"] {
        let read = Cause {
            failing,
            ..refused(words, EMPTY, 4, "splitc: read fault\n")
        };
        check(&rt, rt.alloc(), &read)?;
        check(
            &rt,
            rt.alloc(),
            &refused(words, "", 3, "splitc: syntax at token 1\n"),
        )?;
    }
    // the words are looked at before the source, which fails at once
    let first = Failing {
        source: Some(0),
        ..NONE
    };
    for words in ["compile -n 0", "delays -m", "run -n 17", "explain -m"] {
        let outside = Cause {
            failing: first,
            ..refused(words, EMPTY, 2, "splitc: words\n")
        };
        check(&rt, rt.alloc(), &outside)?;
    }
    Ok(())
}

/// The first 8 bytes come through, and then no more.
#[test]
fn a_sink_that_fails_keeps_a_beginning(rt: HostRuntime) -> Result<(), Fail> {
    let failing = Failing {
        out: Some(1),
        err: Some(1),
        ..NONE
    };
    let none = Cause {
        failing,
        ..refused("compile -n 2", EMPTY, 5, "")
    };
    let rows = [
        Cause {
            out: "function",
            made: true,
            ..none
        },
        Cause {
            words: "delays -n 2",
            source: DEKKER,
            out: "delay 1 ",
            made: true,
            ..none
        },
        Cause {
            words: "run -n 2",
            out: "== node ",
            made: true,
            ..none
        },
        Cause {
            words: "explain -n 2",
            out: "end 0 en",
            made: true,
            ..none
        },
        Cause {
            source: "",
            err: "splitc: ",
            ..none
        },
        Cause {
            words: "delays -n 2",
            source: "splitc_main() { x = 1; }",
            err: "splitc: ",
            ..none
        },
        Cause {
            words: "compile -m",
            err: "splitc: ",
            ..none
        },
    ];
    for row in &rows {
        check(&rt, rt.alloc(), row)?;
    }
    Ok(())
}

/// The words and the streams of one call.
#[derive(Drop)]
struct Call {
    words: Vec<String>,
    source: SteadySource,
    out: SteadySink,
    err: SteadySink,
}

impl Call {
    fn new(alloc: Global, line: &str, text: &str) -> Result<Call, Fail> {
        Ok(Call {
            words: words_of(alloc, line)?,
            source: SteadySource::new(text.as_bytes().to_vec(alloc)?),
            out: SteadySink::new(alloc, 4096)?,
            err: SteadySink::new(alloc, 4096)?,
        })
    }

    fn run(&mut self, alloc: Global, made: &mut Option<Compiled>) {
        top_still(
            alloc,
            self.words.as_slice(),
            &mut self.source,
            &mut self.out,
            &mut self.err,
            made,
        );
    }
}

/// How many accesses the source has that the last of the two calls made, if it made one.
fn sites_after(alloc: Global, first: &mut Call, second: &mut Call) -> Option<u32> {
    let mut made = None;
    first.run(alloc, &mut made);
    second.run(alloc, &mut made);
    match &made {
        Some(compiled) => Some(compiled.code.sites),
        None => None,
    }
}

/// What an earlier call made does not stay.
#[test]
fn what_was_made_is_of_this_call(rt: HostRuntime) -> Result<(), Fail> {
    let alloc = rt.alloc();
    let rows = [
        ("compile -n 2", DEKKER, Some(4)),
        ("delays -n 2", EMPTY, Some(0)),
        ("compile -n 2", "splitc_main() { x = 1; }", None),
        ("run -n 2", EMPTY, Some(0)),
        ("run -m", "splitc_main() { x = 1; }", None),
        ("explain -n 2", DEKKER, Some(4)),
        ("compile -m", EMPTY, None),
    ];
    for (line, text, sites) in rows {
        let mut first = Call::new(alloc, "compile -n 2", LOOP)?;
        let mut second = Call::new(alloc, line, text)?;
        let found = sites_after(alloc, &mut first, &mut second);
        assert_eq!(rt; found, sites, "of {line} and {text}");
    }
    Ok(())
}
