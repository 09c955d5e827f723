//! Sources, and what they are refused for.

mod calls;
mod declarations;
mod expressions;
mod order;
mod places;
mod statements;

use front_end::{CompileError, Refusal, accept};
use std::test::Fail;

/// Why the source is refused on two nodes. No test has more bytes than a source may have.
fn refusal(rt: &HostRuntime, source: &str) -> Result<Option<Refusal>, Fail> {
    let bytes = source.as_bytes();
    if bytes.len() > 262144 {
        return Ok(Some(Refusal::TooManyTokens));
    }
    match accept(rt.alloc(), bytes, 2) {
        Ok(_) => Ok(None),
        Err(CompileError::Refused(refusal)) => Ok(Some(refusal)),
        Err(CompileError::OutOfMemory) => Err(Fail::from(std::alloc::AllocError)),
    }
}

/// Objects of every kind and two functions, on the first line.
const DECLARED: &str =
    "int x; int B[4]; int M[2][3]; int A[4]::; int C[4]::[2]; int D[2][2]::; int *p; int *global g; int *spread s; int **pp; int f(int a, int *q) { return a; } void v() { } splitc_main() {";

fn rule(number: u32, line: u32) -> Option<Refusal> {
    Some(Refusal::Rule { number, line })
}

/// The texts that are not refused for their rule and line as the body of `splitc_main`, which begins on line 2.
fn wrong_bodies(rt: &HostRuntime, table: &[(&str, u32, u32)]) -> Result<String, Fail> {
    let mut wrong = format!(in rt.alloc(); "")?;
    for (body, number, line) in table {
        let source = format!(in rt.alloc(); "{DECLARED}\n{body}\n}}")?;
        if refusal(rt, source.as_str())? != rule(*number, *line) {
            wrong = format!(in rt.alloc(); "{wrong}{body}\n")?;
        }
    }
    Ok(wrong)
}

/// The texts that are not accepted as the body of `splitc_main`.
fn refused_bodies(rt: &HostRuntime, table: &[&str]) -> Result<String, Fail> {
    let mut wrong = format!(in rt.alloc(); "")?;
    for body in table {
        let source = format!(in rt.alloc(); "{DECLARED}\n{body}\n}}")?;
        if refusal(rt, source.as_str())?.is_some() {
            wrong = format!(in rt.alloc(); "{wrong}{body}\n")?;
        }
    }
    Ok(wrong)
}

/// The whole sources that are not refused for their rule and line.
fn wrong_sources(rt: &HostRuntime, table: &[(&str, u32, u32)]) -> Result<String, Fail> {
    let mut wrong = format!(in rt.alloc(); "")?;
    for (source, number, line) in table {
        if refusal(rt, source)? != rule(*number, *line) {
            wrong = format!(in rt.alloc(); "{wrong}{source}\n")?;
        }
    }
    Ok(wrong)
}

/// The whole sources that are not accepted.
fn refused_sources(rt: &HostRuntime, table: &[&str]) -> Result<String, Fail> {
    let mut wrong = format!(in rt.alloc(); "")?;
    for source in table {
        if refusal(rt, source)?.is_some() {
            wrong = format!(in rt.alloc(); "{wrong}{source}\n")?;
        }
    }
    Ok(wrong)
}
