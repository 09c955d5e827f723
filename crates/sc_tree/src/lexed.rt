//! The tokens of a source with what they name.

ghost use Rattle.std.specs.Prelude.{◌≡◌, [], ◌∷◌, ◌++◌, IfOk, OnOk};

use crate::names::Names;
use crate::token::Token;
use sc_base::{Bytes, OutOfMemory};
use std::alloc::Global;
use std::marker::Model;

/// The tokens of a source, seen as a list.
#[derive(Debug, Drop)]
pub struct Tokens {
    tokens: Vec<Token>,
}

impl Model for Tokens {
    ghost use Rattle.std.specs.Prelude.{List};
    ghost use Rattle.sc_tree.specs.declared.token.Token.{Token};

    ghost Value = { List Token };

    ghost view = { λ t. t.tokens.items };
}

impl Tokens {
    /// The tokens of the vector, in its order.
    pub fn from_vec(tokens: Vec<Token>) -> Tokens
        ensures { result ≡ tokens.items }
    {
        Tokens { tokens }
    }

    /// The tokens in the order of the source.
    pub fn as_slice(&self) -> &[Token]
        ensures { result.now ≡ self.now }
    {
        self.tokens.as_slice()
    }
}

/// The distinct formats of a source in order of first appearance, each with its escapes replaced by their
/// bytes. Seen as a list of byte lists.
#[derive(Debug, Drop)]
pub struct Texts {
    texts: Vec<Bytes>,
}

impl Model for Texts {
    ghost use Rattle.std.specs.Prelude.{ℕ, List};

    ghost Value = { List (List ℕ) };

    ghost view = { λ t. t.texts.items };
}

impl Texts {
    /// The texts of the vector, in its order.
    pub fn from_vec(texts: Vec<Bytes>) -> Texts
        ensures { result ≡ texts.items }
    {
        Texts { texts }
    }

    /// The texts in the order of their numbers.
    pub fn as_slice(&self) -> &[Bytes]
        ensures { result.now ≡ self.now }
    {
        self.texts.as_slice()
    }

    /// The texts that were kept as names.
    #[tactic(auto, using(crate::proofs::Views::takes))]
    pub fn from_names(alloc: Global, names: &Names) -> Result<Texts, OutOfMemory>
        ensures { IfOk result (λ texts. texts ≡ names.now) }
    {
        let mut texts = Vec::new(alloc);
        for number in 0..u32::MAX {
            let Some(text) = names.text(number) else {
                return Ok(Texts { texts });
            };
            push_copy(alloc, &mut texts, text)?;
        }
        Err(OutOfMemory)
    }
}

/// The tokens of a source, and the names and formats that they number.
#[derive(Debug, Drop)]
pub struct Lexed {
    pub tokens: Tokens,
    pub names: Names,
    pub texts: Texts,
}

/// Adds a copy of the text.
fn push_copy(alloc: Global, texts: &mut Vec<Bytes>, text: &[u8]) -> Result<(), OutOfMemory>
    ensures { OnOk result (texts.new.items ≡ texts.old.items ++ text.now ∷ []) }
{
    let Ok(copy) = Vec::from_slice(alloc, text) else {
        return Err(OutOfMemory);
    };
    match texts.push(Bytes::from_vec(copy)) {
        Ok(()) => Ok(()),
        Err(_) => Err(OutOfMemory),
    }
}
