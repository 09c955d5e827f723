//! Which refusal is told: the first of the order, for each command. Expected lines are found by hand.

use super::{run_program, text_is};
use std::alloc::Global;
use std::process::Abort;
use std::test::Fail;

/// A source that is right up to what is said of it here.
#[derive(Clone, Copy)]
struct Crowded<'a> {
    /// What stands before all.
    head: &'a str,
    /// How often a cell is read and written.
    pairs: u32,
    /// How many locals there are.
    locals: u32,
    /// The last statements.
    last: &'a str,
}

impl Crowded<'_> {
    fn text(&self, alloc: Global) -> Result<String, Fail> {
        let mut source = format!(in alloc; "{} int x; splitc_main() {{", self.head)?;
        for local in 0..self.locals {
            let line = format!(in alloc; " int i{local};")?;
            source.push_str(line.as_str())?;
        }
        for _ in 0..self.pairs {
            source.push_str(" x = x;")?;
        }
        source.push_str(self.last)?;
        source.push_str(" }")?;
        Ok(source)
    }
}

/// The source is refused by each command with this line, without its newline.
fn check_refused(rt: &impl Abort, alloc: Global, source: &str, line: &str) -> Result<(), Fail> {
    let wanted = format!(in alloc; "{line}\n")?;
    for words in ["run -n 2", "explain -n 2", "compile -n 2", "delays -n 2"] {
        let told = run_program(alloc, words, source)?;
        assert_eq!(rt; told.status, 3, "of {line}");
        text_is(rt, told.out.as_slice(), "", line);
        text_is(rt, told.err.as_slice(), wanted.as_str(), line);
    }
    Ok(())
}

/// Each source has all that the ones behind it have.
#[test]
fn the_first_refusal_is_told(rt: HostRuntime) -> Result<(), Fail> {
    let rows = [
        ("08; 1; int A[0];", 512, " y = 1;", "splitc: bad byte at 1"),
        ("1; int A[0];", 512, " y = 1;", "splitc: syntax at token 1"),
        ("int A[0];", 512, " y = 1;", "splitc: bad bound on line 1"),
        ("int A[1];", 512, " y = 1;", "splitc: rule 2 on line 1"),
        ("int A[1];", 512, " x = 1;", "splitc: too many sites: 1025"),
        ("int A[1];", 511, " x = 1;", "splitc: too many locals: 65"),
    ];
    for (head, pairs, last, line) in rows {
        let crowded = Crowded {
            head,
            pairs,
            locals: 65,
            last,
        };
        let source = crowded.text(rt.alloc())?;
        check_refused(&rt, rt.alloc(), source.as_str(), line)?;
    }
    Ok(())
}

/// Before all of these stands the limit on bytes.
#[test]
fn a_source_that_is_too_long_is_not_looked_at(rt: HostRuntime) -> Result<(), Fail> {
    let mut source = "08; //".to_string(rt.alloc())?;
    for _ in 0..262_144 / 64 {
        source.push_str("xxxxxxxxxxxxxxxxxxxxxxxxxxxxxxxxxxxxxxxxxxxxxxxxxxxxxxxxxxxxxxxx")?;
    }
    check_refused(&rt, rt.alloc(), source.as_str(), "splitc: source too long")
}

/// The locals of the first function that has too many are counted, its parameters among them.
#[test]
fn locals_of_a_function(rt: HostRuntime) -> Result<(), Fail> {
    let alloc = rt.alloc();
    let full = Crowded {
        head: "",
        pairs: 0,
        locals: 64,
        last: "",
    };
    let told = run_program(alloc, "delays -n 2", full.text(alloc)?.as_str())?;
    assert_eq!(rt; told.status, 0);
    let more = Crowded {
        head: "void f(int a, int b) { }",
        locals: 66,
        ..full
    };
    check_refused(
        &rt,
        alloc,
        more.text(alloc)?.as_str(),
        "splitc: too many locals: 66",
    )
}

/// As many accesses as a source may have.
#[test]
fn the_most_accesses(rt: HostRuntime) -> Result<(), Fail> {
    let alloc = rt.alloc();
    let full = Crowded {
        head: "",
        pairs: 512,
        locals: 0,
        last: "",
    };
    let told = run_program(alloc, "delays -n 1", full.text(alloc)?.as_str())?;
    assert_eq!(rt; told.status, 0);
    text_is(&rt, told.err.as_slice(), "", "the most accesses");
    Ok(())
}
