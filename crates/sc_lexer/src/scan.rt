//! A place in a text, with what stands before it.

ghost use Rattle.std.specs.Prelude.{◌≡◌, ◌+◌, ◌^◌, ◌<◌, [], ◌∷◌, ◌++◌, length, OnOk, IfOk, None, false};
ghost use Rattle.sc_lexer.specs.Element.{element_at};
ghost use Rattle.sc_lexer.specs.Format.{unescaped};
ghost use Rattle.sc_lexer.specs.Defined.{defined_value};
ghost use Rattle.sc_lexer.specs.Text.{start, with_token, with_named, with_format, taken, is_fresh_after, moved, is_token, named_at, begins_token, counted, lexed_of, IsTakeable, IsNear};

use crate::class::{is_blank, newlines};
use crate::defined::Defined;
use crate::element::{Element, Found, element_at};
use crate::format::unescaped;
use crate::refusal::{LexError, Refused};
use sc_base::{LIMITS, OutOfMemory};
use sc_tree::{Lexed, Names, Texts, Token, TokenKind, Tokens};
use std::alloc::Global;
use std::marker::Model;

/// A place in a text with its line, whether only blanks stand before it on that line, the names that directives
/// defined, the tokens before it, and their names and formats.
#[derive(Debug, Drop)]
pub struct Scan {
    alloc: Global,
    at: u32,
    line: u32,
    fresh: bool,
    defined: Defined,
    tokens: Vec<Token>,
    names: Names,
    formats: Names,
}

impl Model for Scan {
    ghost use Rattle.sc_lexer.specs.Text.{State};

    ghost Value = { State };

    ghost view = { λ s. record { at = s.at; line = s.line; fresh = s.fresh; defined = s.defined; tokens = s.tokens.items; names = s.names; texts = s.formats } };
}

impl Scan {
    /// The first place.
    pub fn new(alloc: Global) -> Scan
        ensures { result ≡ start }
    {
        Scan {
            alloc,
            at: 0,
            line: 1,
            fresh: true,
            defined: Defined::new(alloc),
            tokens: Vec::new(alloc),
            names: Names::new(alloc),
            formats: Names::new(alloc),
        }
    }

    /// The place, counted in bytes from the first.
    pub fn at(&self) -> usize
        ensures { result ≡ self.now.at }
    {
        self.at as usize
    }

    fn push(&mut self, kind: TokenKind) -> Result<(), OutOfMemory>
        ensures { OnOk result (self.new ≡ with_token self.old kind) }
    {
        let token = Token {
            kind,
            at: self.at,
            line: self.line,
        };
        match self.tokens.push(token) {
            Ok(()) => Ok(()),
            Err(_) => Err(OutOfMemory),
        }
    }

    fn push_name(&mut self, name: &[u8]) -> Result<(), OutOfMemory>
        ensures { OnOk result (self.new ≡ with_named self.old name.now (defined_value name.now self.old.defined)) }
    {
        if let Some(value) = self.defined.value(name) {
            return self.push(TokenKind::Number(value));
        }
        let number = self.names.add(name)?;
        self.push(TokenKind::Name(number))
    }

    fn push_format(&mut self, coded: &[u8]) -> Result<(), OutOfMemory>
        ensures { OnOk result (self.new ≡ with_format self.old (unescaped false coded.now)) }
    {
        let text = unescaped(self.alloc, coded)?;
        let number = self.formats.add(text.as_slice())?;
        self.push(TokenKind::Format(number))
    }

    /// Adds what the element with these bytes adds.
    pub fn take(&mut self, piece: &[u8], found: Found) -> Result<(), OutOfMemory>
        requires { IsTakeable self.old.defined piece.now found }
        ensures { OnOk result (self.new ≡ taken self.old piece.now found) }
    {
        match found {
            Found::Gap => Ok(()),
            Found::Include => Ok(()),
            Found::Define { from, size, value } => self.define(&piece[from..from + size], value),
            Found::Number(value) => self.push(TokenKind::Number(value)),
            Found::Name => self.push_name(piece),
            Found::Format => self.push_format(&piece[1..piece.len() - 1]),
            Found::Word(word) => self.push(TokenKind::Word(word)),
            Found::Mark(mark) => self.push(TokenKind::Mark(mark)),
        }
    }

    fn define(&mut self, name: &[u8], value: i64) -> Result<(), OutOfMemory>
        requires { defined_value name.now self.old.defined ≡ None }
        ensures { OnOk result (self.new ≡ record self.old { defined = self.old.defined ++ (name.now, value) ∷ [] }) }
    {
        self.defined.add(name, value)
    }

    /// Goes past these bytes.
    pub fn pass(&mut self, piece: &[u8])
        requires at { self.old.at + length piece.now < 2 ^ 32 }
        requires line { self.old.line + length piece.now < 2 ^ 32 }
        ensures { self.new ≡ moved self.old piece.now }
    {
        self.fresh = is_fresh_after(self.fresh, piece);
        self.line += newlines(piece) as u32;
        self.at += piece.len() as u32;
    }

    /// The element at this place, unless it is one token too many; or the refusal.
    pub fn element(&self, rest: &[u8]) -> Result<Element, LexError>
        requires some { 0 < length rest.now }
        requires near { self.now.at + length rest.now < 2 ^ 32 }
        ensures { result ≡ counted self.now (element_at self.now.fresh self.now.defined rest.now) }
    {
        let full = self.tokens.len() as u64 >= LIMITS.tokens;
        match element_at(rest, self.fresh, &self.defined) {
            Ok(element) => {
                if is_token(element.found) && full {
                    return Err(LexError::TooManyTokens);
                }
                Ok(element)
            }
            Err(refused) => {
                if begins_token(refused) && full {
                    return Err(LexError::TooManyTokens);
                }
                Err(self.named(refused))
            }
        }
    }

    /// The name of the bad place.
    fn named(&self, refused: Refused) -> LexError
        requires { IsNear self.now refused }
        ensures { result ≡ named_at self.now refused }
    {
        match refused {
            Refused::BadByte => LexError::BadByte { at: self.at },
            Refused::BadToken(offset) => LexError::BadByte {
                at: self.at + offset as u32,
            },
            Refused::OpenComment => LexError::OpenComment { at: self.at },
            Refused::WideNumber => LexError::WideNumber { at: self.at },
            Refused::BadDirective => LexError::BadDirective { line: self.line },
        }
    }

    /// The tokens, names and formats so far.
    pub fn finish(self) -> Result<Lexed, OutOfMemory>
        ensures { IfOk result (λ lexed. lexed ≡ lexed_of self) }
    {
        let Scan {
            alloc,
            at: _,
            line: _,
            fresh: _,
            defined: _,
            tokens,
            names,
            formats,
        } = self;
        let texts = Texts::from_names(alloc, &formats)?;
        Ok(Lexed {
            tokens: Tokens::from_vec(tokens),
            names,
            texts,
        })
    }
}

/// Whether only blanks stand on the line before what follows these bytes.
fn is_fresh_after(fresh: bool, piece: &[u8]) -> bool
    ensures { result ≡ is_fresh_after fresh piece.now }
{
    let mut only_blanks = fresh;
    for byte in piece {
        only_blanks = *byte == b'\n' || (only_blanks && is_blank(*byte));
    }
    only_blanks
}

/// Whether the element is a token.
fn is_token(found: Found) -> bool
    ensures { result ≡ is_token found }
{
    match found {
        Found::Gap | Found::Include | Found::Define { .. } => false,
        Found::Number(_) | Found::Name | Found::Format | Found::Word(_) | Found::Mark(_) => true,
    }
}

/// Whether a token begins at the place and is not whole. A wide number is no token.
fn begins_token(refused: Refused) -> bool
    ensures { result ≡ begins_token refused }
{
    match refused {
        Refused::BadToken(_) => true,
        Refused::BadByte | Refused::OpenComment | Refused::WideNumber | Refused::BadDirective =>
            false,
    }
}
