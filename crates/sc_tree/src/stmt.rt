//! Statements.
//!
//! Tokens are counted from 1, and a line is that of a token. A name is its number among the names of the
//! source, counted from 0.

use crate::expr::Expr;
use sc_base::Ty;
use sqlite_items::{Boxed, Items};

/// Statements one after another, seen as a list.
pub type Block = Items<Stmt>;

/// Locals that one declaration declares, seen as a list.
pub type Locals = Items<Local>;

/// The tests of an `if` with what each guards, seen as a list.
pub type Arms = Items<Arm>;

/// A statement.
#[cycle(stmt)]
#[derive(Drop)]
pub enum Stmt {
    Block(Block),
    /// `;`
    Empty,
    Declare {
        locals: Locals,
    },
    /// An expression whose value is dropped.
    Simple(Expr),
    /// `left := right`, or `left :- right` where `oneway` is true. `at` is the token of that mark and `line` its
    /// line.
    Split {
        left: Expr,
        right: Expr,
        oneway: bool,
        at: u32,
        line: u32,
    },
    /// `if` with an `else if` for each further arm, and with `rest` behind the last `else`.
    If {
        arms: Arms,
        rest: Option<Boxed<Stmt>>,
    },
    While {
        test: Expr,
        body: Boxed<Stmt>,
    },
    DoWhile {
        body: Boxed<Stmt>,
        test: Expr,
    },
    For {
        first: Option<Expr>,
        test: Option<Expr>,
        next: Option<Expr>,
        body: Boxed<Stmt>,
    },
    /// `for_my_1d(name, bound) body`. `at` is the token of the name and `line` its line.
    ForMine {
        name: u32,
        bound: Expr,
        body: Boxed<Stmt>,
        at: u32,
        line: u32,
    },
    /// `at` is the token of the `return` and `line` its line.
    Return {
        value: Option<Expr>,
        at: u32,
        line: u32,
    },
    /// `at` is the token of the `break`.
    Break {
        at: u32,
    },
    /// `at` is the token of the `continue`.
    Continue {
        at: u32,
    },
}

/// A local that is declared, with the value that it begins with. `at` is the token of its name and `line` its
/// line.
#[derive(Drop)]
pub struct Local {
    pub name: u32,
    pub ty: Ty,
    pub init: Option<Expr>,
    pub at: u32,
    pub line: u32,
}

/// A test of an `if`, and the statement that it guards.
#[cycle(stmt)]
#[derive(Drop)]
pub struct Arm {
    pub test: Expr,
    pub body: Stmt,
}
