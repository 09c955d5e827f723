//! Small cores by hand: what they request, print and end with.

use super::cells::{numbers, on_two_nodes, ordinary};
use core_run::runner::Runner;
use core_run::step::{Answer, Halt, Step};
use sc_base::{
    Binary, Bound, BoundStep, BoundSteps, Bounds, Bytes, End, FaultKind, Shape, Stars, Ty, Value,
};
use sc_core::{
    Action, Constant, CoreArm, CoreExpr, CoreFirst, CoreFunction, CoreProgram, CoreStmt, Operation,
};
use sc_layout::{Layout, layout};
use sc_meaning::Request;
use sc_tree::Texts;
use sqlite_items::{Boxed, Items};
use std::alloc::{AllocError, Global};
use std::process::Abort;
use std::test::Fail;

/// `int A[3];` on two nodes.
fn three_cells(alloc: Global) -> Result<Option<Layout>, AllocError> {
    let bounds = numbers(alloc, &[3])?;
    on_two_nodes(alloc, ordinary(alloc, bounds)?)
}

fn int(alloc: Global) -> Ty {
    Ty {
        void: false,
        stars: Stars::from_vec(Vec::new(alloc)),
    }
}

fn expr(alloc: Global, first: CoreFirst) -> CoreExpr {
    CoreExpr {
        first,
        links: Items::new(alloc),
    }
}

fn num(alloc: Global, n: i64) -> CoreExpr {
    expr(alloc, CoreFirst::Constant(Constant::Number(n)))
}

fn step0(alloc: Global, operation: Operation) -> CoreExpr {
    expr(
        alloc,
        CoreFirst::Step {
            operation,
            arguments: Items::new(alloc),
            line: 5,
        },
    )
}

fn step1(alloc: Global, operation: Operation, a: CoreExpr) -> Result<CoreExpr, AllocError> {
    let mut arguments = Items::new(alloc);
    arguments.push(a)?;
    Ok(expr(
        alloc,
        CoreFirst::Step {
            operation,
            arguments,
            line: 5,
        },
    ))
}

fn step2(
    alloc: Global,
    operation: Operation,
    a: CoreExpr,
    b: CoreExpr,
) -> Result<CoreExpr, AllocError> {
    let mut arguments = Items::new(alloc);
    arguments.push(a)?;
    arguments.push(b)?;
    Ok(expr(
        alloc,
        CoreFirst::Step {
            operation,
            arguments,
            line: 5,
        },
    ))
}

fn act(alloc: Global, action: Action, all: Items<CoreExpr>) -> CoreStmt {
    CoreStmt::Act {
        action,
        arguments: all,
        line: 6,
    }
}

fn act1(alloc: Global, action: Action, a: CoreExpr) -> Result<CoreStmt, AllocError> {
    let mut all = Items::new(alloc);
    all.push(a)?;
    Ok(act(alloc, action, all))
}

fn block(alloc: Global, a: CoreStmt, b: CoreStmt) -> Result<CoreStmt, AllocError> {
    let mut all = Items::new(alloc);
    all.push(a)?;
    all.push(b)?;
    Ok(CoreStmt::Block(all))
}

fn program(alloc: Global, others: usize, body: CoreStmt) -> Result<CoreProgram, AllocError> {
    let mut locals = Items::new(alloc);
    for _ in 0..others {
        locals.push(int(alloc))?;
    }
    let mut functions = Items::new(alloc);
    functions.push(CoreFunction {
        params: Items::new(alloc),
        others: locals,
        result: int(alloc),
        body,
        line: 4,
    })?;
    let mut texts = Vec::new(alloc);
    texts.push(Bytes::from_vec(Vec::from_slice(alloc, b"%d;")?))?;
    Ok(CoreProgram {
        functions,
        main: 0,
        texts: Texts::from_vec(texts),
    })
}

/// `if (x < n) ; else break;`
fn while_below(alloc: Global, n: i64) -> Result<CoreStmt, AllocError> {
    let test = step2(
        alloc,
        Operation::Binary(Binary::Lt),
        step0(alloc, Operation::Use(0)),
        num(alloc, n),
    )?;
    let mut arms = Items::new(alloc);
    arms.push(CoreArm {
        of_pointer: false,
        test,
        body: CoreStmt::Nothing,
    })?;
    Ok(CoreStmt::Choose {
        arms,
        rest: Boxed::new(alloc, CoreStmt::Break)?,
    })
}

/// `x = x + 1;`
fn one_more(alloc: Global) -> Result<CoreStmt, AllocError> {
    let sum = step2(
        alloc,
        Operation::Binary(Binary::Add),
        step0(alloc, Operation::Use(0)),
        num(alloc, 1),
    )?;
    act1(alloc, Action::Drop, step1(alloc, Operation::Set(0), sum)?)
}

/// `while (x < n) { body; x = x + 1; }`
fn loop_below(alloc: Global, n: i64, body: CoreStmt) -> Result<CoreStmt, AllocError> {
    Ok(CoreStmt::Loop {
        mine: None,
        before: Boxed::new(alloc, while_below(alloc, n)?)?,
        body: Boxed::new(alloc, body)?,
        after: Boxed::new(alloc, one_more(alloc)?)?,
    })
}

fn print(alloc: Global, e: CoreExpr) -> Result<CoreStmt, AllocError> {
    act1(alloc, Action::Print { text: 0, count: 1 }, e)
}

fn cell(alloc: Global, index: i64) -> Result<CoreExpr, AllocError> {
    let element = step1(
        alloc,
        Operation::Element {
            object: 0,
            count: 1,
            plain: true,
        },
        num(alloc, index),
    )?;
    step1(alloc, Operation::Own, element)
}

/// How node 1 goes, where each read is shown 7, and each get lands 8: how often it requests, and how it stops.
fn gone(
    rt: &impl Abort,
    alloc: Global,
    budget: u64,
    core: &CoreProgram,
    text: &[u8],
    requests: u32,
    end: Halt,
) -> Result<(), Fail> {
    let placed = three_cells(alloc)?.ok_or("no layout")?;
    let mut runner = Runner::new(alloc, core, &placed, 1, budget).map_err(|_| "memory")?;
    let mut made = 0u32;
    for _ in 0..1000u32 {
        match runner.next().map_err(|_| "memory")? {
            Step::Stops(halt) => {
                assert_eq!(rt; halt, end);
                assert_eq!(rt; made, requests);
                assert_eq!(rt; runner.printed(), text);
                return Ok(());
            }
            Step::Makes(_) => runner.pass(),
            Step::Asks(Request::Read { .. }) => {
                let _ = runner
                    .answer(Answer::Shown(Value::Int(7)))
                    .map_err(|_| "memory")?;
            }
            Step::Asks(Request::Sync { .. }) => {
                let values = [Value::Int(8)];
                let _ = runner
                    .answer(Answer::Landed(&values))
                    .map_err(|_| "memory")?;
            }
            Step::Asks(_) => {
                let _ = runner.answer(Answer::Passed).map_err(|_| "memory")?;
            }
        }
        made = made.saturating_add(1);
    }
    Err("no end".into())
}

const ENDED: Halt = Halt::Finishes(End::Ended);

#[test]
fn a_loop_prints_its_turns(rt: HostRuntime) -> Result<(), Fail> {
    let alloc = rt.alloc();
    let body = print(alloc, step0(alloc, Operation::Use(0)))?;
    let core = program(alloc, 1, loop_below(alloc, 3, body)?)?;
    gone(&rt, alloc, 3, &core, b"0;1;2;", 0, ENDED)?;
    gone(&rt, alloc, 2, &core, b"0;1;", 0, Halt::Finishes(End::Cut))
}

#[test]
fn a_read_shows_its_value(rt: HostRuntime) -> Result<(), Fail> {
    let alloc = rt.alloc();
    let read = step1(alloc, Operation::Read, cell(alloc, 2)?)?;
    let sum = step2(alloc, Operation::Binary(Binary::Add), num(alloc, 5), read)?;
    let core = program(alloc, 0, print(alloc, sum)?)?;
    gone(&rt, alloc, 0, &core, b"12;", 1, ENDED)?;
    let past = step1(alloc, Operation::Read, cell(alloc, 3)?)?;
    let core = program(alloc, 0, print(alloc, past)?)?;
    let index = Halt::Finishes(End::Fault {
        kind: FaultKind::Index,
        line: 5,
    });
    gone(&rt, alloc, 0, &core, b"", 0, index)
}

#[test]
fn a_get_lands_at_the_sync(rt: HostRuntime) -> Result<(), Fail> {
    let alloc = rt.alloc();
    let get = act1(alloc, Action::Get(0), cell(alloc, 0)?)?;
    let sync = act(alloc, Action::Sync, Items::new(alloc));
    let shown = print(alloc, step0(alloc, Operation::Use(0)))?;
    let core = program(alloc, 1, block(alloc, get, block(alloc, sync, shown)?)?)?;
    gone(&rt, alloc, 0, &core, b"8;", 2, ENDED)?;
    let get = act1(alloc, Action::Get(0), cell(alloc, 0)?)?;
    let shown = print(alloc, step0(alloc, Operation::Use(0)))?;
    let core = program(alloc, 1, block(alloc, get, shown)?)?;
    let pending = Halt::Finishes(End::Fault {
        kind: FaultKind::PendingUse,
        line: 5,
    });
    gone(&rt, alloc, 0, &core, b"", 1, pending)
}

#[test]
fn calls_go_as_deep_as_frames_may(rt: HostRuntime) -> Result<(), Fail> {
    let alloc = rt.alloc();
    let call = step0(
        alloc,
        Operation::Call {
            function: 0,
            count: 0,
        },
    );
    let core = program(alloc, 0, act1(alloc, Action::Drop, call)?)?;
    let depth = Halt::Finishes(End::Fault {
        kind: FaultKind::Depth,
        line: 5,
    });
    gone(&rt, alloc, 256, &core, b"", 0, depth)?;
    gone(&rt, alloc, 255, &core, b"", 0, Halt::Finishes(End::Cut))
}

#[test]
fn a_change_reads_and_writes_once(rt: HostRuntime) -> Result<(), Fail> {
    let alloc = rt.alloc();
    let change = expr(
        alloc,
        CoreFirst::Update {
            pointer: Boxed::new(alloc, cell(alloc, 1)?)?,
            operation: Operation::Binary(Binary::Add),
            right: Boxed::new(alloc, num(alloc, 1))?,
            taken_back: Some(Operation::Binary(Binary::Sub)),
            line: 5,
        },
    );
    let core = program(alloc, 0, print(alloc, change)?)?;
    gone(&rt, alloc, 0, &core, b"7;", 2, ENDED)
}
