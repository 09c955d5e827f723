//! Expressions.
//!
//! Tokens are counted from 1, and a line is that of a token. A name is its number among the names of the
//! source, and a format its number among the formats, both counted from 0.

use sc_base::{Binary, Stars, Unary};
use sqlite_items::{Boxed, Items};

/// Expressions, seen as a list.
pub type Exprs = Items<Expr>;

/// The links of a chain, seen as a list.
pub type Links = Items<Link>;

/// What stands behind the first part of a postfix expression, seen as a list.
pub type Tails = Items<Tail>;

/// An expression. `start` is the first token of its text, parentheses around it included. `at` is the token of
/// its prefix or assignment operator, its `?`, the `(` of its cast, the name that it calls, its `sizeof` or its
/// one token, and for `Chain`, `And`, `Or` and `Postfix` it is `start`. `line` is the line of `at`.
#[cycle(expr)]
#[derive(Drop)]
pub struct Expr {
    pub kind: ExprKind,
    pub start: u32,
    pub at: u32,
    pub line: u32,
}

/// What an expression is.
#[cycle(expr)]
#[derive(Drop)]
pub enum ExprKind {
    Number(i64),
    /// `NULL`
    Null,
    /// `MYPROC`
    MyProc,
    /// `PROCS`
    Procs,
    /// `sizeof(int)`
    SizeInt,
    Name(u32),
    Format(u32),
    /// Operands of one level, joined from the left by the operators of that level.
    Chain {
        first: Boxed<Expr>,
        rest: Links,
    },
    /// Operands joined by `&&`.
    And(Exprs),
    /// Operands joined by `||`.
    Or(Exprs),
    /// `test ? yes : no`
    Cond {
        test: Boxed<Expr>,
        yes: Boxed<Expr>,
        no: Boxed<Expr>,
    },
    /// `left = right`, or with an operator as in `left += right`.
    Assign {
        op: Option<Binary>,
        left: Boxed<Expr>,
        right: Boxed<Expr>,
    },
    /// `++` in front of a place where `up` is true, and else `--`.
    Step {
        up: bool,
        place: Boxed<Expr>,
    },
    /// `+` in front of an operand.
    Plus(Boxed<Expr>),
    /// `-`, `!` or `~` in front of an operand.
    Prefix {
        op: Unary,
        e: Boxed<Expr>,
    },
    /// `*` in front of a pointer.
    Deref(Boxed<Expr>),
    /// `&` in front of a place.
    Address(Boxed<Expr>),
    /// A cast to int with these stars.
    Cast {
        stars: Stars,
        e: Boxed<Expr>,
    },
    /// An expression with indices, `++` and `--` behind it, from left to right.
    Postfix {
        first: Boxed<Expr>,
        tails: Tails,
    },
    /// A call of the name with arguments.
    Call {
        name: u32,
        args: Exprs,
    },
}

/// An operator and the operand behind it. `at` is the operator's token and `line` its line.
#[cycle(expr)]
#[derive(Drop)]
pub struct Link {
    pub op: Binary,
    pub e: Expr,
    pub at: u32,
    pub line: u32,
}

/// An index, `++` or `--` behind a place. `at` is the token of the `[` or of the operator, and `line` its line.
#[cycle(expr)]
#[derive(Drop)]
pub enum Tail {
    Index { index: Expr, at: u32, line: u32 },
    /// `++`
    Up { at: u32, line: u32 },
    /// `--`
    Down { at: u32, line: u32 },
}
