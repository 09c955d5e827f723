//! The core tree: a typed source in few forms, in which every choice that its types decide is made.
#![tactic(auto)]

pub mod expression;
pub mod operation;
pub mod statement;

pub use expression::{CoreExpr, CoreExprs, CoreFirst, CoreLink, CoreLinks, CoreTest, CoreTests};
pub use operation::{Action, Constant, Operation};
pub use statement::{
    CoreArm, CoreArms, CoreFunction, CoreFunctions, CoreProgram, CoreStmt, CoreStmts, Types,
};
