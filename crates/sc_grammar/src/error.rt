//! Why tokens are refused.

use std::alloc::{AllocError, AllocFailed};

/// Why a list of tokens has no tree. Tokens are counted from 1.
///
/// `Syntax`: `seen` is the least number such that no sentence of the grammar begins with so many of the tokens, or
/// one more than there are tokens where they only end too early. `TooDeep`: `seen` is the number of the first token
/// that is deeper than the limit, and a sentence begins with the tokens up to it.
#[derive(Clone, Copy, Debug, PartialEq, Eq)]
pub enum ParseError {
    Syntax { seen: u32 },
    TooDeep { seen: u32 },
    OutOfMemory,
}

/// Why nothing is read, with the number of the token from 0.
#[derive(Debug, Drop)]
pub enum Refused {
    Memory,
    Syntax(usize),
    Deep(usize),
}

impl From<AllocError> for Refused {
    ghost use Rattle.std.specs.Prelude.{◌≡◌};
    ghost use Rattle.sc_grammar.specs.declared.error.Refused.TheVariants.{Memory};

    ghost from_gives = { λ _ e. e ≡ Memory };

    fn from(_e: AllocError) -> Refused {
        Refused::Memory
    }
}

impl<T: Drop> From<AllocFailed<T>> for Refused {
    ghost use Rattle.std.specs.Prelude.{◌≡◌};
    ghost use Rattle.sc_grammar.specs.declared.error.Refused.TheVariants.{Memory};

    ghost from_gives = { λ _ e. e ≡ Memory };

    fn from(_e: AllocFailed<T>) -> Refused {
        Refused::Memory
    }
}
