//! The tree of a source.
//!
//! Tokens are counted from 1, and a line is that of a token. A name is its number among the names of the
//! source, counted from 0.

use crate::stmt::Block;
use sc_base::{Shape, Ty};
use sqlite_items::Items;

/// The declared objects, seen as a list.
pub type Shapes = Items<Shape>;

/// Functions and prototypes, seen as a list.
pub type Functions = Items<Function>;

/// The parameters of a function, seen as a list.
pub type Params = Items<Param>;

/// The lines of tokens, seen as a list.
pub type Lines = Items<u32>;

/// A parameter. `at` is the token of its type word. Its name, where it has one, is the token behind its type
/// word and stars.
#[derive(Drop)]
pub struct Param {
    pub name: Option<u32>,
    pub ty: Ty,
    pub at: u32,
}

/// A function, or a prototype where there is no body. A result that the text leaves out is int. `at` is the
/// token of its name and `line` its line.
#[derive(Drop)]
pub struct Function {
    pub name: u32,
    pub result: Ty,
    pub params: Params,
    pub body: Option<Block>,
    pub at: u32,
    pub line: u32,
}

/// A whole source: its objects and its functions, each in the order of the text. `lines` has the line of each
/// token in their order, and `last` is the line of the last one.
#[derive(Drop)]
pub struct Tree {
    pub objects: Shapes,
    pub functions: Functions,
    pub lines: Lines,
    pub last: u32,
}
