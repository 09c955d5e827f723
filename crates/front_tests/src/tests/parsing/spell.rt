//! Tokens of a text whose names are letters.

use sc_base::LIMITS;
use sc_lexer::{LexError, lex};
use sc_tree::{Lexed, Token, TokenKind};
use std::alloc::Global;

/// The tokens of the text, in which a name's letter is its number, `a` being 0. No text of these tests is longer than
/// a source may be.
pub fn spell(alloc: Global, text: &str) -> Result<Vec<Token>, LexError> {
    if text.len() as u64 > LIMITS.source {
        return Err(LexError::OutOfMemory);
    }
    let lexed = lex(alloc, text.as_bytes())?;
    let mut tokens = Vec::new(alloc);
    for token in lexed.tokens.as_slice() {
        let kind = match token.kind {
            TokenKind::Name(name) => TokenKind::Name(letter(&lexed, name)),
            kind => kind,
        };
        let Ok(()) = tokens.push(Token { kind, ..*token }) else {
            return Err(LexError::OutOfMemory);
        };
    }
    Ok(tokens)
}

fn letter(lexed: &Lexed, name: u32) -> u32 {
    match lexed.names.text(name) {
        Some([letter @ b'a'..=b'z']) => u32::from(*letter - b'a'),
        _ => 26,
    }
}
