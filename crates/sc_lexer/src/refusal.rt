//! Why a text is refused.

use sc_base::OutOfMemory;

/// Why the text has no whole element at a place.
#[derive(Clone, Copy, Debug, PartialEq, Eq)]
pub enum Refused {
    /// No element begins with the byte at the place.
    BadByte,
    /// A token begins at the place, and the byte so far behind its first fits no such token.
    BadToken(usize),
    OpenComment,
    WideNumber,
    BadDirective,
}

/// The first bad place of a source. `at` is the place of a byte, counted from 0, and `line` a line, counted
/// from 1. `TooManyTokens` names no place: all before the token number 65,537 is good, and that token begins.
#[derive(Clone, Copy, Debug, PartialEq, Eq)]
pub enum LexError {
    BadByte { at: u32 },
    OpenComment { at: u32 },
    WideNumber { at: u32 },
    BadDirective { line: u32 },
    TooManyTokens,
    OutOfMemory,
}

impl From<OutOfMemory> for LexError {
    ghost use Rattle.std.specs.Prelude.{◌≡◌};
    ghost use Rattle.sc_lexer.specs.declared.refusal.LexError.TheVariants as errors;

    ghost from_gives = { λ _ e. e ≡ errors.OutOfMemory };

    fn from(_: OutOfMemory) -> LexError {
        LexError::OutOfMemory
    }
}
