//! Core expressions, as they are kept: what comes first, and what is done with its value in turn.
//!
//! A chain of operators, indices or conversions is one list of links, so that no expression is deeper than the
//! brackets of its source.

use crate::operation::{Constant, Operation};
use sqlite_items::{Boxed, Items};

/// Core expressions, seen as a list.
pub type CoreExprs = Items<CoreExpr>;

/// What is done with a value in turn, seen as a list.
pub type CoreLinks = Items<CoreLink>;

/// The operands of `&&` or `||`, seen as a list.
pub type CoreTests = Items<CoreTest>;

/// An expression: the value that comes first, and the steps of which each takes the value so far as its first
/// argument.
#[cycle(core)]
#[derive(Drop)]
pub struct CoreExpr {
    pub first: CoreFirst,
    pub links: CoreLinks,
}

/// What an expression begins with.
#[cycle(core)]
#[derive(Drop)]
pub enum CoreFirst {
    Constant(Constant),
    /// A step whose arguments are evaluated from left to right.
    Step {
        operation: Operation,
        arguments: CoreExprs,
        line: u32,
    },
    /// Operands joined by `&&`.
    Every(CoreTests),
    /// Operands joined by `||`.
    Any(CoreTests),
    /// `test ? yes : no`, where `of_pointer` tells that the test is of a pointer.
    Choice {
        of_pointer: bool,
        test: Boxed<CoreExpr>,
        yes: Boxed<CoreExpr>,
        no: Boxed<CoreExpr>,
    },
    /// A compound assignment to the cell behind a pointer, which is evaluated once.
    Update {
        pointer: Boxed<CoreExpr>,
        operation: Operation,
        right: Boxed<CoreExpr>,
        taken_back: Option<Operation>,
        line: u32,
    },
}

/// A step that takes the value so far and, behind it, more arguments.
#[cycle(core)]
#[derive(Drop)]
pub struct CoreLink {
    pub operation: Operation,
    pub more: CoreExprs,
    pub line: u32,
}

/// An operand that is tested, and whether it is a pointer.
#[cycle(core)]
#[derive(Drop)]
pub struct CoreTest {
    pub of_pointer: bool,
    pub e: CoreExpr,
}
