//! Expressions in which each name is resolved and each part has its type.
//!
//! Tokens are counted from 1, and a line is that of a token. A format is its number among the formats of the
//! source, counted from 0.

use sc_base::{Binary, Stars, Ty, Unary};
use sqlite_items::{Boxed, Items};

/// Typed expressions, seen as a list.
pub type TypedExprs = Items<TypedExpr>;

/// The links of a typed chain, seen as a list.
pub type TypedLinks = Items<TypedLink>;

/// What stands behind the first part of a typed postfix expression, seen as a list.
pub type TypedTails = Items<TypedTail>;

/// What a name means. A local has its number in its function, the parameters first and then the locals in the
/// order of the text. An object has its place among the declared objects, and a function the number of its
/// definition in the order of the text. All are counted from 0.
#[derive(Clone, Copy, Debug, PartialEq, Eq)]
pub enum Named {
    Local(u32),
    Object(u32),
    Function(u32),
}

/// An expression with its type. `start` is the first token of its text, parentheses around it included. `at` is
/// the token of its prefix or assignment operator, its `?`, the `(` of its cast, the name that it calls, its
/// `sizeof` or its one token, and for `Chain`, `And`, `Or` and `Postfix` it is `start`. `line` is the line of
/// `at`.
#[cycle(typed)]
#[derive(Drop)]
pub struct TypedExpr {
    pub kind: TypedKind,
    pub ty: Ty,
    pub start: u32,
    pub at: u32,
    pub line: u32,
}

/// What a typed expression is.
#[cycle(typed)]
#[derive(Drop)]
pub enum TypedKind {
    Number(i64),
    /// `NULL`
    Null,
    /// `MYPROC`
    MyProc,
    /// `PROCS`
    Procs,
    /// `sizeof(int)`
    SizeInt,
    Name(Named),
    Format(u32),
    /// Operands of one level, joined from the left by the operators of that level.
    Chain {
        first: Boxed<TypedExpr>,
        rest: TypedLinks,
    },
    /// Operands joined by `&&`.
    And(TypedExprs),
    /// Operands joined by `||`.
    Or(TypedExprs),
    /// `test ? yes : no`
    Cond {
        test: Boxed<TypedExpr>,
        yes: Boxed<TypedExpr>,
        no: Boxed<TypedExpr>,
    },
    /// `left = right`, or with an operator as in `left += right`.
    Assign {
        op: Option<Binary>,
        left: Boxed<TypedExpr>,
        right: Boxed<TypedExpr>,
    },
    /// `++` in front of a place where `up` is true, and else `--`.
    Step {
        up: bool,
        place: Boxed<TypedExpr>,
    },
    /// `+` in front of an operand.
    Plus(Boxed<TypedExpr>),
    /// `-`, `!` or `~` in front of an operand.
    Prefix {
        op: Unary,
        e: Boxed<TypedExpr>,
    },
    /// `*` in front of a pointer.
    Deref(Boxed<TypedExpr>),
    /// `&` in front of a place.
    Address(Boxed<TypedExpr>),
    /// A cast to int with these stars.
    Cast {
        stars: Stars,
        e: Boxed<TypedExpr>,
    },
    /// An expression with indices, `++` and `--` behind it, from left to right.
    Postfix {
        first: Boxed<TypedExpr>,
        tails: TypedTails,
    },
    /// A call of a function with arguments.
    Call {
        name: Named,
        args: TypedExprs,
    },
    /// A value that becomes one of another type where it is used.
    Convert {
        ty: Ty,
        e: Boxed<TypedExpr>,
    },
    /// `printf(format, args)`
    Printf {
        format: u32,
        args: TypedExprs,
    },
    /// `sync()`
    Sync,
    /// `barrier()`
    Barrier,
    /// `all_store_sync()`
    AllStoreSync,
    /// `toglobal(node, e)`
    ToGlobal {
        node: Boxed<TypedExpr>,
        e: Boxed<TypedExpr>,
    },
    /// `toproc` of a pointer.
    ToProc(Boxed<TypedExpr>),
    /// `tolocal` of a pointer.
    ToLocal(Boxed<TypedExpr>),
    /// `bulk_read(to, from, bytes)`
    BulkRead {
        to: Boxed<TypedExpr>,
        from: Boxed<TypedExpr>,
        bytes: Boxed<TypedExpr>,
    },
    /// `bulk_write(to, from, bytes)`
    BulkWrite {
        to: Boxed<TypedExpr>,
        from: Boxed<TypedExpr>,
        bytes: Boxed<TypedExpr>,
    },
    /// `bulk_get(to, from, bytes)`
    BulkGet {
        to: Boxed<TypedExpr>,
        from: Boxed<TypedExpr>,
        bytes: Boxed<TypedExpr>,
    },
    /// `bulk_put(to, from, bytes)`
    BulkPut {
        to: Boxed<TypedExpr>,
        from: Boxed<TypedExpr>,
        bytes: Boxed<TypedExpr>,
    },
    /// `bulk_store(to, from, bytes)`
    BulkStore {
        to: Boxed<TypedExpr>,
        from: Boxed<TypedExpr>,
        bytes: Boxed<TypedExpr>,
    },
}

/// An operator and the typed operand behind it. `at` is the operator's token and `line` its line.
#[cycle(typed)]
#[derive(Drop)]
pub struct TypedLink {
    pub op: Binary,
    pub e: TypedExpr,
    pub at: u32,
    pub line: u32,
}

/// An index, `++` or `--` behind a place. `at` is the token of the `[` or of the operator, and `line` its line.
#[cycle(typed)]
#[derive(Drop)]
pub enum TypedTail {
    Index {
        index: TypedExpr,
        at: u32,
        line: u32,
    },
    /// `++`
    Up {
        at: u32,
        line: u32,
    },
    /// `--`
    Down {
        at: u32,
        line: u32,
    },
}
