//! Why there is no text, and the line that tells it.

ghost use Rattle.std.specs.Prelude.{◌≡◌, IfOk, string_bytes};
ghost use Rattle.splitc_top.specs.Reasons.{refusal_line, status_of_reason};

use run_report::Status;
use splitc_compile::Refusal;
use std::alloc::{AllocError, Global};

/// Why there is no text: the words are outside the written form; the source has more bytes than the limit, is refused,
/// or failed; or memory was wanting.
#[derive(Clone, Copy, Debug, PartialEq, Eq)]
pub enum Reason {
    Words,
    TooLong,
    Refused(Refusal),
    Read,
    Memory,
}

/// The line of a rule that is broken, with its newline.
fn rule_line(alloc: Global, number: u32, line: u32) -> Result<String, AllocError>
    ensures { IfOk result (λ text. string_bytes text ≡ refusal_line (Refusal.Rule number line)) }
{
    let mut text = format!(in alloc; "splitc: rule {number}")?;
    let place = format!(in alloc; " on line {line}\n")?;
    text.push_str(place.as_str())?;
    Ok(text)
}

/// The line of a refusal, with its newline.
pub fn refusal_line(alloc: Global, refusal: Refusal) -> Result<String, AllocError>
    ensures { IfOk result (λ text. string_bytes text ≡ refusal_line refusal) }
{
    match refusal {
        Refusal::BadByte { at } => format!(in alloc; "splitc: bad byte at {at}\n"),
        Refusal::OpenComment { at } => format!(in alloc; "splitc: open comment at {at}\n"),
        Refusal::WideNumber { at } => format!(in alloc; "splitc: wide number at {at}\n"),
        Refusal::BadDirective { line } => {
            format!(in alloc; "splitc: bad directive on line {line}\n")
        }
        Refusal::TooManyTokens => format!(in alloc; "splitc: too many tokens\n"),
        Refusal::Syntax { seen } => format!(in alloc; "splitc: syntax at token {seen}\n"),
        Refusal::TooDeep { seen } => format!(in alloc; "splitc: too deep at token {seen}\n"),
        Refusal::TooManyObjects { count } => {
            format!(in alloc; "splitc: too many objects: {count}\n")
        }
        Refusal::BadBound { line } => format!(in alloc; "splitc: bad bound on line {line}\n"),
        Refusal::TooManyCells { cells } => format!(in alloc; "splitc: too many cells: {cells}\n"),
        Refusal::Rule { number, line } => rule_line(alloc, number, line),
        Refusal::TooManySites { count } => format!(in alloc; "splitc: too many sites: {count}\n"),
        Refusal::TooManyLocals { count } => format!(in alloc; "splitc: too many locals: {count}\n"),
    }
}

/// The status of a reason whose line was written.
pub fn status_of_reason(reason: Reason) -> Status
    ensures { result ≡ status_of_reason reason }
{
    match reason {
        Reason::Words => Status::Words,
        Reason::TooLong | Reason::Refused(_) => Status::Refused,
        Reason::Read => Status::Read,
        Reason::Memory => Status::Memory,
    }
}
