//! What a check answers: the first of the broken pairs with its line, and the parts of the typed tree that stand as
//! they are.

ghost use Rattle.std.specs.Prelude.{◌≡◌, ◌++◌, ◌∷◌, [], map, Some, None, IfOk, slice_get};
ghost use Rattle.std.specs.Option.{option_map};
ghost use Rattle.sc_tree.specs.ViewTree.{plain_tree};
ghost use Rattle.sc_typing.specs.Answer as answer;
ghost use Rattle.sc_typing.specs.Program as program;

use crate::file::Definition;
use crate::notes::Breach;
use sc_base::Bytes;
use sc_tree::{Lexed, Names, Texts, Tree};
use std::alloc::{AllocError, Global};

/// Why a tree is refused: it breaks a typing rule, or memory ran out.
#[derive(Debug, Drop)]
pub enum CheckError {
    /// The broken rule of the least token, and there of the least number, with that token's line.
    Rule { number: u32, line: u32 },
    OutOfMemory,
}

impl From<AllocError> for CheckError {
    ghost use Rattle.std.specs.Prelude.{◌≡◌};
    ghost use Rattle.sc_typing.specs.declared.answer.CheckError.TheVariants.{OutOfMemory};

    ghost from_gives = { λ _ e. e ≡ OutOfMemory };

    fn from(_e: AllocError) -> CheckError {
        CheckError::OutOfMemory
    }
}

/// Whether the first pair has the lesser token, or there the rule with the lesser number.
pub fn comes_first(a: Breach, b: Breach) -> bool
    ensures { result ≡ answer.comes_first a b }
{
    a.at < b.at || (a.at == b.at && a.rule.number() < b.rule.number())
}

/// The noted pair of the least token, and there of the least rule.
pub fn first_noted(all: &[Breach]) -> Option<Breach>
    ensures { result ≡ answer.first_noted all.now }
{
    let [first, more @ ..] = all else {
        return None;
    };
    let mut least = *first;
    for breach in more {
        if comes_first(*breach, least) {
            least = *breach;
        }
    }
    Some(least)
}

/// The line of the token.
pub fn line_of(tree: &Tree, at: u32) -> u32
    ensures { result ≡ program.line_of (plain_tree tree.now) at }
{
    let index = at.saturating_sub(1);
    match tree.lines.as_slice().get(index as usize) {
        Some(line) => *line,
        None => tree.last,
    }
}

/// Adds a copy of the text behind the others. The error is want of memory.
pub fn push_copy(alloc: Global, texts: &mut Vec<Bytes>, text: &[u8]) -> Result<(), AllocError>
    ensures { IfOk result (λ _. texts.new.items ≡ texts.old.items ++ text.now ∷ []) }
{
    let copy = Vec::from_slice(alloc, text)?;
    texts.push(Bytes::from_vec(copy))?;
    Ok(())
}

/// Adds copies of the texts behind the others. The error is want of memory.
pub fn push_copies(alloc: Global, texts: &mut Vec<Bytes>, more: &[Bytes]) -> Result<(), AllocError>
    ensures { IfOk result (λ _. texts.new.items ≡ texts.old.items ++ more.now) }
{
    for text in more {
        push_copy(alloc, texts, text.as_slice())?;
    }
    Ok(())
}

/// Adds the names of the definitions behind the others. The error is want of memory.
pub fn push_names(
    alloc: Global,
    texts: &mut Vec<Bytes>,
    names: &Names,
    definitions: &[Definition],
) -> Result<(), AllocError>
    ensures { IfOk result (λ _. texts.new.items ≡ texts.old.items ++ map (λ d. program.name_text names.now d.name) definitions.now) }
{
    for definition in definitions {
        push_copy(alloc, texts, name_text(names, definition.name))?;
    }
    Ok(())
}

/// The text of the name, which is empty where there is no name of this number.
pub fn name_text(names: &Names, name: u32) -> &[u8]
    ensures { result.now ≡ program.name_text names.now name }
{
    match names.text(name) {
        Some(text) => text,
        None => &[],
    }
}

/// The formats of the source, and behind them the names of its function definitions.
pub fn texts_of(
    alloc: Global,
    lexed: &Lexed,
    definitions: &[Definition],
) -> Result<Texts, AllocError>
    ensures { IfOk result (λ texts. texts ≡ lexed.now.texts ++ map (λ d. program.name_text lexed.now.names d.name) definitions.now) }
{
    let mut texts = Vec::new(alloc);
    push_copies(alloc, &mut texts, lexed.texts.as_slice())?;
    push_names(alloc, &mut texts, &lexed.names, definitions)?;
    Ok(Texts::from_vec(texts))
}
