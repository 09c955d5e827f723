//! Typed statements, functions and whole sources.
//!
//! Tokens are counted from 1, and a line is that of a token. The name of a local, a parameter or a function is
//! its number among the names of the source, counted from 0.

use crate::lexed::Texts;
use crate::tree::{Lines, Shapes};
use crate::typed::{Named, TypedExpr};
use sc_base::Ty;
use sqlite_items::{Boxed, Items};

/// Typed statements one after another, seen as a list.
pub type TypedBlock = Items<TypedStmt>;

/// Typed locals that one declaration declares, seen as a list.
pub type TypedLocals = Items<TypedLocal>;

/// The tests of a typed `if` with what each guards, seen as a list.
pub type TypedArms = Items<TypedArm>;

/// The parameters of a typed function, seen as a list.
pub type TypedParams = Items<TypedParam>;

/// Typed functions and prototypes, seen as a list.
pub type TypedFunctions = Items<TypedFunction>;

/// A typed statement.
#[cycle(typed_stmt)]
#[derive(Drop)]
pub enum TypedStmt {
    Block(TypedBlock),
    /// `;`
    Empty,
    Declare {
        locals: TypedLocals,
    },
    /// An expression whose value is dropped.
    Simple(TypedExpr),
    /// `left := right`, or `left :- right` where `oneway` is true. `at` is the token of that mark and `line` its
    /// line.
    Split {
        left: TypedExpr,
        right: TypedExpr,
        oneway: bool,
        at: u32,
        line: u32,
    },
    /// `if` with an `else if` for each further arm, and with `rest` behind the last `else`.
    If {
        arms: TypedArms,
        rest: Option<Boxed<TypedStmt>>,
    },
    While {
        test: TypedExpr,
        body: Boxed<TypedStmt>,
    },
    DoWhile {
        body: Boxed<TypedStmt>,
        test: TypedExpr,
    },
    For {
        first: Option<TypedExpr>,
        test: Option<TypedExpr>,
        next: Option<TypedExpr>,
        body: Boxed<TypedStmt>,
    },
    /// `for_my_1d(name, bound) body`. `at` is the token of the name and `line` its line.
    ForMine {
        name: Named,
        bound: TypedExpr,
        body: Boxed<TypedStmt>,
        at: u32,
        line: u32,
    },
    /// `at` is the token of the `return` and `line` its line.
    Return {
        value: Option<TypedExpr>,
        at: u32,
        line: u32,
    },
    /// `at` is the token of the `break`.
    Break {
        at: u32,
    },
    /// `at` is the token of the `continue`.
    Continue {
        at: u32,
    },
}

/// A local that is declared, with the typed value that it begins with. `at` is the token of its name and `line`
/// its line.
#[derive(Drop)]
pub struct TypedLocal {
    pub name: u32,
    pub ty: Ty,
    pub init: Option<TypedExpr>,
    pub at: u32,
    pub line: u32,
}

/// A test of a typed `if`, and the statement that it guards.
#[cycle(typed_stmt)]
#[derive(Drop)]
pub struct TypedArm {
    pub test: TypedExpr,
    pub body: TypedStmt,
}

/// A parameter. `at` is the token of its type word. Its name, where it has one, is the token behind its type
/// word and stars.
#[derive(Drop)]
pub struct TypedParam {
    pub name: Option<u32>,
    pub ty: Ty,
    pub at: u32,
}

/// A typed function, or a prototype where there is no body. `at` is the token of its name and `line` its line.
#[derive(Drop)]
pub struct TypedFunction {
    pub name: u32,
    pub result: Ty,
    pub params: TypedParams,
    pub body: Option<TypedBlock>,
    pub at: u32,
    pub line: u32,
}

/// A whole typed source: its objects and its functions, each in the order of the text. `lines` has the line of
/// each token in their order, and `last` is the line of the last one. `texts` has the formats of the source, and
/// after them the names of the function definitions in the order of the text.
#[derive(Drop)]
pub struct Typed {
    pub objects: Shapes,
    pub functions: TypedFunctions,
    pub lines: Lines,
    pub last: u32,
    pub texts: Texts,
}
