//! The lines that are written where there is no text.

ghost use Rattle.std.specs.Prelude.{◌≡◌, ◌⊎◌};
ghost use Rattle.splitc_top.specs.Line.{bytes_of};
ghost use Rattle.splitc_top.specs.Reasons.{reason_line};

use crate::reason::{Reason, refusal_line};
use std::alloc::Global;

/// The bytes of a line: a line with numbers in it is made, and takes memory.
#[derive(Drop)]
pub enum LineText {
    Constant(&'static [u8]),
    Made(String),
}

impl LineText {
    /// The bytes of the line, its newline among them.
    pub fn as_bytes(&self) -> &[u8]
        ensures { result.now ≡ bytes_of self.now }
    {
        match self {
            LineText::Constant(line) => line,
            LineText::Made(line) => line.as_bytes(),
        }
    }
}

/// A line with its newline, and the reason that it tells.
#[derive(Drop)]
pub struct Line {
    pub reason: Reason,
    pub text: LineText,
}

fn constant(reason: Reason, line: &'static [u8]) -> Line
    ensures reason { result.reason ≡ reason }
    ensures text { bytes_of result.text ≡ line.now }
{
    Line {
        reason,
        text: LineText::Constant(line),
    }
}

/// The line of the reason. Where memory is wanting for it, that is the reason told.
pub fn line_of(alloc: Global, reason: Reason) -> Line
    ensures told { (result.reason ≡ reason) ⊎ (result.reason ≡ Reason.Memory) }
    ensures text { bytes_of result.text ≡ reason_line result.reason }
{
    match reason {
        Reason::Words => constant(reason, b"splitc: words\n"),
        Reason::TooLong => constant(reason, b"splitc: source too long\n"),
        Reason::Refused(refusal) => match refusal_line(alloc, refusal) {
            Ok(line) => Line {
                reason,
                text: LineText::Made(line),
            },
            Err(_) => constant(Reason::Memory, b"splitc: no memory\n"),
        },
        Reason::Read => constant(reason, b"splitc: read fault\n"),
        Reason::Memory => constant(reason, b"splitc: no memory\n"),
    }
}
