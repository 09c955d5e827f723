//! What a node has left to do.

use crate::step::Halt;
use sc_base::{Place, Value};
use sc_core::{
    Action, Constant, CoreArm, CoreExpr, CoreFirst, CoreLink, CoreStmt, CoreTest, Operation,
};
use sc_meaning::Request;

/// The parts of a loop: what is done before a turn, the body, and what is done after it.
#[derive(Clone, Copy, Drop)]
pub(crate) struct Loop<'a> {
    pub(crate) before: &'a CoreStmt,
    pub(crate) body: &'a CoreStmt,
    pub(crate) after: &'a CoreStmt,
}

/// A piece of pending work.
#[derive(Clone, Copy, Drop)]
pub(crate) enum Task<'a> {
    Evaluate(&'a CoreExpr),
    First(&'a CoreFirst),
    Arguments(&'a [CoreExpr]),
    Links(&'a [CoreLink]),
    Constant(Constant),
    Every(&'a [CoreTest]),
    Any(&'a [CoreTest]),
    /// The test of the operand before these, all of which are joined by `&&`.
    DecideEvery {
        of_pointer: bool,
        more: &'a [CoreTest],
    },
    /// The test of the operand before these, all of which are joined by `||`.
    DecideAny {
        of_pointer: bool,
        more: &'a [CoreTest],
    },
    Decide {
        of_pointer: bool,
        yes: &'a CoreExpr,
        no: &'a CoreExpr,
    },
    Perform {
        operation: Operation,
        count: usize,
        line: u32,
    },
    /// The last value once more.
    Double,
    Gain(Value),
    Do(&'a CoreStmt),
    Block(&'a [CoreStmt]),
    Choose {
        arms: &'a [CoreArm],
        rest: &'a CoreStmt,
    },
    /// The test of an arm with this body, and the arms behind it.
    DecideArm {
        of_pointer: bool,
        body: &'a CoreStmt,
        arms: &'a [CoreArm],
        rest: &'a CoreStmt,
    },
    Enact {
        action: Action,
        count: usize,
        line: u32,
    },
    Rounds(Loop<'a>),
    Turn(Loop<'a>),
    After(Loop<'a>),
    Return {
        line: u32,
    },
    /// Where a function is left, which gives the constant where no `return` comes.
    Close {
        zero: Constant,
        line: u32,
    },
    Read {
        place: Place,
        line: u32,
    },
    Fill {
        local: u32,
        place: Place,
        line: u32,
    },
    Sync {
        line: u32,
    },
    Meet {
        stores: bool,
        line: u32,
    },
    Request(Request),
    Halt(Halt),
}
