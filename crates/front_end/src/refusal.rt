//! Why a source is refused.

ghost use Rattle.std.specs.Prelude.{◌≡◌};
ghost use Rattle.front_end.specs.Refusals as refusals;

use sc_base::OutOfMemory;
use sc_check::CheckError;
use sc_layout::LayoutError;
use sc_lexer::LexError;
use sc_parser::ParseError;
use std::alloc::AllocError;

/// The first refusal of a source, with its place or number. Bytes are counted from 0, tokens and lines from 1. The last
/// two are of accepted sources, which have no code: `count` is how many accesses the source has, or how many locals the
/// first function that has too many.
#[derive(Clone, Copy, Debug, PartialEq, Eq)]
pub enum Refusal {
    BadByte { at: u32 },
    OpenComment { at: u32 },
    WideNumber { at: u32 },
    BadDirective { line: u32 },
    TooManyTokens,
    Syntax { seen: u32 },
    TooDeep { seen: u32 },
    TooManyObjects { count: u32 },
    BadBound { line: u32 },
    TooManyCells { cells: u64 },
    Rule { number: u32, line: u32 },
    TooManySites { count: u32 },
    TooManyLocals { count: u32 },
}

/// A source is refused, or memory ran out.
#[derive(Clone, Copy, Debug, PartialEq, Eq)]
pub enum CompileError {
    Refused(Refusal),
    OutOfMemory,
}

impl From<AllocError> for CompileError {
    ghost use Rattle.std.specs.Prelude.{◌≡◌};
    ghost use Rattle.front_end.specs.declared.refusal.CompileError.TheVariants.{OutOfMemory};

    ghost from_gives = { λ _ e. e ≡ OutOfMemory };

    fn from(_e: AllocError) -> CompileError {
        CompileError::OutOfMemory
    }
}

impl From<OutOfMemory> for CompileError {
    ghost use Rattle.std.specs.Prelude.{◌≡◌};
    ghost use Rattle.front_end.specs.declared.refusal.CompileError.TheVariants.{OutOfMemory};

    ghost from_gives = { λ _ e. e ≡ OutOfMemory };

    fn from(_e: OutOfMemory) -> CompileError {
        CompileError::OutOfMemory
    }
}

/// Why the bytes of a source are no tokens, as the answer for the source.
pub fn of_lexing(e: LexError) -> CompileError
    ensures { result ≡ refusals.of_lexing e }
{
    match e {
        LexError::BadByte { at } => CompileError::Refused(Refusal::BadByte { at }),
        LexError::OpenComment { at } => CompileError::Refused(Refusal::OpenComment { at }),
        LexError::WideNumber { at } => CompileError::Refused(Refusal::WideNumber { at }),
        LexError::BadDirective { line } => CompileError::Refused(Refusal::BadDirective { line }),
        LexError::TooManyTokens => CompileError::Refused(Refusal::TooManyTokens),
        LexError::OutOfMemory => CompileError::OutOfMemory,
    }
}

/// Why the tokens of a source are no sentence, as the answer for the source.
pub fn of_parsing(e: ParseError) -> CompileError
    ensures { result ≡ refusals.of_parsing e }
{
    match e {
        ParseError::Syntax { seen } => CompileError::Refused(Refusal::Syntax { seen }),
        ParseError::TooDeep { seen } => CompileError::Refused(Refusal::TooDeep { seen }),
        ParseError::OutOfMemory => CompileError::OutOfMemory,
    }
}

/// Why the objects of a source have no layout, as the answer for the source.
pub fn of_layout(e: LayoutError) -> CompileError
    ensures { result ≡ refusals.of_layout e }
{
    match e {
        LayoutError::TooManyObjects { count } => {
            CompileError::Refused(Refusal::TooManyObjects { count })
        }
        LayoutError::BadBound { line } => CompileError::Refused(Refusal::BadBound { line }),
        LayoutError::TooManyCells { cells } => {
            CompileError::Refused(Refusal::TooManyCells { cells })
        }
        LayoutError::OutOfMemory => CompileError::OutOfMemory,
    }
}

/// Which typing rule a source breaks, as the answer for the source.
pub fn of_check(e: CheckError) -> CompileError
    ensures { result ≡ refusals.of_check e }
{
    match e {
        CheckError::Rule { number, line } => CompileError::Refused(Refusal::Rule { number, line }),
        CheckError::OutOfMemory => CompileError::OutOfMemory,
    }
}
