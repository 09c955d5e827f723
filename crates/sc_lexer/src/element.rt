//! The elements of a text: blanks, comments, directives and tokens.

ghost use Rattle.std.specs.Prelude.{◌≡◌, ◌<◌, ◌≤◌, length};
ghost use Rattle.sc_lexer.specs.Element.{element_at, solid_at, name_at, mark_at, format_at, numeral_at, directive_at, definition_at, can_define, defined_as};

use crate::class::{begins_name, begins_number, blanks, line_bytes, name_bytes};
use crate::defined::Defined;
use crate::format::format_size;
use crate::gap::{gap_at, only_gaps};
use crate::number::number_at;
use crate::refusal::Refused;
use crate::spelling::{mark_of, mark_text, word_of};
use sc_tree::{Mark, Word};

/// What an element is. The name that a directive defines stands `from` bytes behind the element's first and
/// has `size` bytes.
#[derive(Clone, Copy, Debug, PartialEq, Eq)]
pub enum Found {
    /// A blank or a comment.
    Gap,
    /// A directive that is skipped.
    Include,
    Define {
        from: usize,
        size: usize,
        value: i64,
    },
    Number(i64),
    Name,
    Format,
    Word(Word),
    Mark(Mark),
}

/// An element: how many bytes it takes, and what it is.
#[derive(Clone, Copy, Debug, PartialEq, Eq)]
pub struct Element {
    pub size: usize,
    pub found: Found,
}

/// The element at the front of the bytes. `fresh` tells whether only blanks stand before them on their line.
#[tactic(auto, unfolding(crate::specs::Element::element_at))]
pub fn element_at(bytes: &[u8], fresh: bool, defined: &Defined) -> Result<Element, Refused>
    requires { 0 < length bytes.now }
    ensures { result ≡ element_at fresh defined.now bytes.now }
{
    match gap_at(bytes) {
        None => Err(Refused::OpenComment),
        Some(0) => solid_at(bytes, fresh, defined),
        Some(size) => Ok(Element {
            size,
            found: Found::Gap,
        }),
    }
}

/// The directive or token at the front of the bytes.
#[tactic(auto, unfolding(crate::specs::Element::solid_at))]
fn solid_at(bytes: &[u8], fresh: bool, defined: &Defined) -> Result<Element, Refused>
    requires { 0 < length bytes.now }
    ensures { result ≡ solid_at fresh defined.now bytes.now }
{
    let first = bytes[0];
    if first == b'#' {
        if fresh {
            directive_at(&bytes[..line_bytes(bytes)], defined)
        } else {
            Err(Refused::BadByte)
        }
    } else if begins_name(bytes) {
        Ok(name_at(bytes))
    } else if begins_number(bytes) {
        numeral_at(bytes)
    } else if first == b'"' {
        format_at(bytes)
    } else {
        mark_at(bytes)
    }
}

/// The name or reserved word at the front of the bytes.
#[tactic(auto, unfolding(crate::specs::Element::name_at))]
fn name_at(bytes: &[u8]) -> Element
    ensures { result ≡ name_at bytes.now }
{
    let size = name_bytes(bytes);
    let found = match word_of(&bytes[..size]) {
        Some(word) => Found::Word(word),
        None => Found::Name,
    };
    Element { size, found }
}

/// The number at the front of the bytes.
#[tactic(auto, unfolding(crate::specs::Element::numeral_at))]
fn numeral_at(bytes: &[u8]) -> Result<Element, Refused>
    ensures { result ≡ numeral_at bytes.now }
{
    match number_at(bytes) {
        Ok(numeral) => Ok(Element {
            size: numeral.size,
            found: Found::Number(numeral.value),
        }),
        Err(refused) => Err(refused),
    }
}

/// The format at the front of the bytes.
#[tactic(auto, unfolding(crate::specs::Element::format_at))]
fn format_at(bytes: &[u8]) -> Result<Element, Refused>
    requires { 0 < length bytes.now }
    ensures { result ≡ format_at bytes.now }
{
    match format_size(bytes) {
        Ok(size) => Ok(Element {
            size,
            found: Found::Format,
        }),
        Err(refused) => Err(refused),
    }
}

/// The longest mark at the front of the bytes.
#[tactic(auto, unfolding(crate::specs::Element::mark_at))]
fn mark_at(bytes: &[u8]) -> Result<Element, Refused>
    ensures { result ≡ mark_at bytes.now }
{
    match mark_of(bytes) {
        Some(mark) => Ok(Element {
            size: mark_text(mark).len(),
            found: Found::Mark(mark),
        }),
        None => Err(Refused::BadByte),
    }
}

/// The directive on the line, which begins with `#`.
#[tactic(auto, unfolding(crate::specs::Element::directive_at))]
fn directive_at(line: &[u8], defined: &Defined) -> Result<Element, Refused>
    requires { 0 < length line.now }
    ensures { result ≡ directive_at defined.now line.now }
{
    let place = 1 + blanks(&line[1..]);
    let (_, word) = line.split_at(place);
    if word.starts_with(b"include") {
        Ok(Element {
            size: line.len(),
            found: Found::Include,
        })
    } else if word.starts_with(b"define") {
        definition_at(line, place + 6, defined)
    } else {
        Err(Refused::BadDirective)
    }
}

/// The definition on the line, where `place` is the place after the word `define`.
#[tactic(auto, unfolding(crate::specs::Element::definition_at))]
fn definition_at(line: &[u8], place: usize, defined: &Defined) -> Result<Element, Refused>
    requires { place ≤ length line.now }
    ensures { result ≡ definition_at defined.now line.now place }
{
    let from = place + blanks(&line[place..]);
    let (_, after) = line.split_at(from);
    let size = name_bytes(after);
    let (name, rest) = after.split_at(size);
    if from == place || !can_define(name, defined) {
        return Err(Refused::BadDirective);
    }
    let (_, number) = rest.split_at(blanks(rest));
    defined_as(line.len(), from, size, number)
}

/// Whether a directive may define the name: it is one, no reserved word, and not defined yet.
#[tactic(auto, unfolding(crate::specs::Element::can_define))]
fn can_define(name: &[u8], defined: &Defined) -> bool
    ensures { result ≡ can_define defined.now name.now }
{
    begins_name(name) && word_of(name).is_none() && defined.value(name).is_none()
}

/// The definition by the number at the front of the bytes, which nothing but blanks and comments follows.
#[tactic(auto, unfolding(crate::specs::Element::defined_as))]
fn defined_as(line: usize, from: usize, size: usize, number: &[u8]) -> Result<Element, Refused>
    ensures { result ≡ defined_as line from size number.now }
{
    if !begins_number(number) {
        return Err(Refused::BadDirective);
    }
    let Ok(numeral) = number_at(number) else {
        return Err(Refused::BadDirective);
    };
    if !only_gaps(&number[numeral.size..]) {
        return Err(Refused::BadDirective);
    }
    Ok(Element {
        size: line,
        found: Found::Define {
            from,
            size,
            value: numeral.value,
        },
    })
}
