//! What the front end hands from step to step: the tokens of a source with its names and formats, its syntax
//! tree, and that tree with types.
#![tactic(auto)]

pub mod expr;
pub mod lexed;
pub mod names;
pub mod stmt;
pub mod token;
pub mod tree;
pub mod typed;
pub mod typed_stmt;

pub use expr::{Expr, ExprKind, Exprs, Link, Links, Tail, Tails};
pub use lexed::{Lexed, Texts, Tokens};
pub use names::Names;
pub use stmt::{Arm, Arms, Block, Local, Locals, Stmt};
pub use token::{Mark, Token, TokenKind, Word};
pub use tree::{Function, Functions, Lines, Param, Params, Shapes, Tree};
pub use typed::{
    Named, TypedExpr, TypedExprs, TypedKind, TypedLink, TypedLinks, TypedTail, TypedTails,
};
pub use typed_stmt::{
    Typed, TypedArm, TypedArms, TypedBlock, TypedFunction, TypedFunctions, TypedLocal, TypedLocals,
    TypedParam, TypedParams, TypedStmt,
};
