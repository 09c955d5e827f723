//! Core statements, functions and sources, as they are kept.

use crate::expression::{CoreExpr, CoreExprs};
use crate::operation::Action;
use sc_base::Ty;
use sc_tree::Texts;
use sqlite_items::{Boxed, Items};

/// Core statements, seen as a list.
pub type CoreStmts = Items<CoreStmt>;

/// The arms of an `if`, seen as a list.
pub type CoreArms = Items<CoreArm>;

/// What a function does.
#[cycle(core_stmt)]
#[derive(Drop)]
pub enum CoreStmt {
    Nothing,
    Break,
    Continue,
    /// Statements one after another.
    Block(CoreStmts),
    /// A step without a value, whose arguments are evaluated from left to right.
    Act {
        action: Action,
        arguments: CoreExprs,
        line: u32,
    },
    /// The first arm whose test is true, or else the rest.
    Choose {
        arms: CoreArms,
        rest: Boxed<CoreStmt>,
    },
    /// What is done before a turn is counted, the body, and what is done after it. `mine` is the local of a
    /// `for_my_1d`.
    Loop {
        mine: Option<u32>,
        before: Boxed<CoreStmt>,
        body: Boxed<CoreStmt>,
        after: Boxed<CoreStmt>,
    },
    Return {
        value: CoreExpr,
        line: u32,
    },
}

/// A test, whether it is of a pointer, and what is done where it is true.
#[cycle(core_stmt)]
#[derive(Drop)]
pub struct CoreArm {
    pub of_pointer: bool,
    pub test: CoreExpr,
    pub body: CoreStmt,
}

/// The types of locals, seen as a list.
pub type Types = Items<Ty>;

/// A function: the types of its parameters and of its other locals, in the order of their numbers, the type of
/// its result, what it does, and the line of its name.
#[derive(Drop)]
pub struct CoreFunction {
    pub params: Types,
    pub others: Types,
    pub result: Ty,
    pub body: CoreStmt,
    pub line: u32,
}

/// Functions, seen as a list.
pub type CoreFunctions = Items<CoreFunction>;

/// A source: its functions in the order of the text, the number of the one that is named `splitc_main`, and its
/// texts: the formats, and then the names of the functions.
#[derive(Drop)]
pub struct CoreProgram {
    pub functions: CoreFunctions,
    pub main: u32,
    pub texts: Texts,
}
