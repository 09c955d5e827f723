//! Small sources by hand, over `int s[4]::`. Their lines are all 1.

ghost use Rattle.std.specs.Prelude.{◌≡◌, ◌<◌, IfOk, false, length};
ghost use Rattle.std.specs.List.{All};
ghost use Rattle.sc_layout.specs.Bound.{IsWhole};
ghost use Rattle.sc_layout.specs.Layout.{IsLawful};

use sc_base::{Bound, BoundStep, BoundSteps, Bounds, Bytes, CopyMode, Shape, Stars, Ty};
use sc_core::{
    Action, Constant, CoreArm, CoreExpr, CoreFirst, CoreFunction, CoreProgram, CoreStmt, Operation,
};
use sc_layout::{Layout, layout};
use sc_tree::Texts;
use sqlite_items::{Boxed, Items};
use std::alloc::{AllocError, Global};

/// A statement of a small source. Cells are numbered within `s`, locals from 0.
#[derive(Clone, Copy)]
pub enum Act {
    Read(i64),
    Write(i64, i64),
    WriteNull(i64),
    Put(i64, i64),
    PutNull(i64),
    Store(i64, i64),
    Get(u32, i64),
    /// So many bytes to the first cell from the second.
    Copy(CopyMode, i64, i64, i64),
    Sync,
    Barrier,
    AllStoreSync,
    PrintLocals,
    PrintCell(i64),
    /// An endless loop that does nothing.
    Forever,
}

/// What node 0 does, and what every other node does.
#[derive(Clone, Copy)]
pub struct Source {
    pub zero: &'static [Act],
    pub others: &'static [Act],
}

/// Node 0 puts, gets and syncs, and then reads behind a barrier what node 1 stored before it.
pub const EXCHANGE: Source = Source {
    zero: &[
        Act::Put(1, 5),
        Act::Get(0, 3),
        Act::Get(1, 1),
        Act::Sync,
        Act::PrintLocals,
        Act::Barrier,
        Act::Read(2),
    ],
    others: &[Act::Store(2, 7), Act::AllStoreSync, Act::Write(0, 4)],
};

/// Node 0 copies cells to node 1 in each way, while node 1 does nothing but end.
pub const COPYING: Source = Source {
    zero: &[
        Act::Write(0, 3),
        Act::Copy(CopyMode::Blocking, 16, 1, 0),
        Act::Copy(CopyMode::Split, 8, 2, 1),
        Act::Sync,
        Act::Copy(CopyMode::OneWay, 8, 3, 0),
        Act::AllStoreSync,
    ],
    others: &[Act::AllStoreSync],
};

/// A store that no barrier waits for.
pub const LATE_STORE: Source = Source {
    zero: &[Act::Store(1, 9), Act::Barrier],
    others: &[Act::Barrier],
};

/// Node 0 meets a barrier that node 1 never reaches, which puts and does not sync.
pub const FORSAKING: Source = Source {
    zero: &[Act::Barrier],
    others: &[Act::Put(0, 6)],
};

/// Both nodes meet two barriers.
pub const MEETING: Source = Source {
    zero: &[Act::Barrier, Act::Barrier],
    others: &[Act::Barrier, Act::Barrier],
};

/// Node 0 writes null to a cell of whole numbers, and reads it.
pub const MISFITTING: Source = Source {
    zero: &[Act::WriteNull(0), Act::Read(0)],
    others: &[],
};

/// Node 0 puts null into a cell of whole numbers, gets it and syncs.
pub const MISLANDING: Source = Source {
    zero: &[Act::PutNull(0), Act::Sync, Act::Get(0, 0), Act::Sync],
    others: &[],
};

/// A write, and its value printed.
pub const PRINTING: Source = Source {
    zero: &[Act::Write(0, 7), Act::PrintCell(0)],
    others: &[],
};

/// Node 0 reads a cell that `s` does not have, while node 1 stores.
pub const FAULTING: Source = Source {
    zero: &[Act::Write(0, 7), Act::Read(4), Act::Write(0, 8)],
    others: &[Act::Store(2, 3)],
};

/// Node 0 writes and then turns for ever, and node 1 reads.
pub const TURNING: Source = Source {
    zero: &[Act::Write(0, 7), Act::Forever],
    others: &[Act::Read(0)],
};

/// Node 0 gets a cell before each of two syncs, and prints both.
pub const SYNCING_TWICE: Source = Source {
    zero: &[
        Act::Put(1, 5),
        Act::Get(0, 3),
        Act::Sync,
        Act::Get(1, 1),
        Act::Sync,
        Act::PrintLocals,
    ],
    others: &[],
};

/// Node 0 copies two cells to node 1 and does not sync.
pub const COPYING_AT_THE_END: Source = Source {
    zero: &[Act::Write(0, 3), Act::Copy(CopyMode::Split, 16, 1, 0)],
    others: &[],
};

fn int(alloc: Global) -> Ty
    ensures { result.void ≡ false }
{
    Ty {
        void: false,
        stars: Stars::from_vec(Vec::new(alloc)),
    }
}

fn four(alloc: Global) -> Result<Bound, AllocError>
    ensures { IfOk result (λ b. IsWhole b.steps) }
{
    let mut steps = Vec::new(alloc);
    steps.push(BoundStep::Number(4))?;
    Ok(Bound {
        steps: BoundSteps::from_vec(steps),
        line: 1,
    })
}

fn bounds(alloc: Global) -> Result<Bounds, AllocError>
    ensures whole { IfOk result (λ bs. All (λ b. IsWhole b.steps) bs) }
    ensures some { IfOk result (λ bs. 0 < length bs) }
{
    let mut all = Vec::new(alloc);
    all.push(four(alloc)?)?;
    Ok(Bounds::from_vec(all))
}

fn spread(alloc: Global) -> Result<Shape, AllocError>
    ensures { IfOk result IsLawful }
{
    Ok(Shape {
        name: 0,
        ty: int(alloc),
        spread: true,
        left: bounds(alloc)?,
        right: Bounds::from_vec(Vec::new(alloc)),
        at: 1,
        line: 1,
    })
}

/// `int s[4]::` on one node or two.
pub fn four_cells(alloc: Global, two: bool) -> Result<Option<Layout>, AllocError> {
    let mut shapes = Vec::new(alloc);
    shapes.push(spread(alloc)?)?;
    let nodes = if two { 2 } else { 1 };
    Ok(layout(alloc, shapes.as_slice(), nodes).ok())
}

fn expr(alloc: Global, first: CoreFirst) -> CoreExpr {
    CoreExpr {
        first,
        links: Items::new(alloc),
    }
}

fn constant(alloc: Global, value: Constant) -> CoreExpr {
    expr(alloc, CoreFirst::Constant(value))
}

fn num(alloc: Global, n: i64) -> CoreExpr {
    constant(alloc, Constant::Number(n))
}

fn step(alloc: Global, operation: Operation, arguments: Items<CoreExpr>) -> CoreExpr {
    expr(
        alloc,
        CoreFirst::Step {
            operation,
            arguments,
            line: 1,
        },
    )
}

fn one(alloc: Global, e: CoreExpr) -> Result<Items<CoreExpr>, AllocError> {
    let mut all = Items::new(alloc);
    all.push(e)?;
    Ok(all)
}

fn two(alloc: Global, a: CoreExpr, b: CoreExpr) -> Result<Items<CoreExpr>, AllocError> {
    let mut all = one(alloc, a)?;
    all.push(b)?;
    Ok(all)
}

/// The cell `s[i]`.
fn cell(alloc: Global, i: i64) -> Result<CoreExpr, AllocError> {
    let element = Operation::Element {
        object: 0,
        count: 1,
        plain: true,
    };
    Ok(step(alloc, element, one(alloc, num(alloc, i))?))
}

fn read(alloc: Global, i: i64) -> Result<CoreExpr, AllocError> {
    Ok(step(alloc, Operation::Read, one(alloc, cell(alloc, i)?)?))
}

fn write(alloc: Global, i: i64, value: Constant) -> Result<Items<CoreExpr>, AllocError> {
    let arguments = two(alloc, cell(alloc, i)?, constant(alloc, value))?;
    one(alloc, step(alloc, Operation::Write, arguments))
}

/// To the cell the value.
fn cell_and(alloc: Global, i: i64, value: Constant) -> Result<Items<CoreExpr>, AllocError> {
    two(alloc, cell(alloc, i)?, constant(alloc, value))
}

fn copied(alloc: Global, bytes: i64, to: i64, from: i64) -> Result<Items<CoreExpr>, AllocError> {
    let mut all = two(alloc, cell(alloc, to)?, cell(alloc, from)?)?;
    all.push(num(alloc, bytes))?;
    Ok(all)
}

fn both_locals(alloc: Global) -> Result<Items<CoreExpr>, AllocError> {
    let a = step(alloc, Operation::Use(0), Items::new(alloc));
    let b = step(alloc, Operation::Use(1), Items::new(alloc));
    two(alloc, a, b)
}

/// What the statement takes.
fn arguments(alloc: Global, what: Act) -> Result<Items<CoreExpr>, AllocError> {
    match what {
        Act::Read(i) => one(alloc, read(alloc, i)?),
        Act::PrintCell(i) => one(alloc, read(alloc, i)?),
        Act::Write(i, n) => write(alloc, i, Constant::Number(n)),
        Act::WriteNull(i) => write(alloc, i, Constant::Null),
        Act::Put(i, n) => cell_and(alloc, i, Constant::Number(n)),
        Act::Store(i, n) => cell_and(alloc, i, Constant::Number(n)),
        Act::PutNull(i) => cell_and(alloc, i, Constant::Null),
        Act::Get(_, i) => one(alloc, cell(alloc, i)?),
        Act::Copy(_, bytes, to, from) => copied(alloc, bytes, to, from),
        Act::PrintLocals => both_locals(alloc),
        _ => Ok(Items::new(alloc)),
    }
}

fn action(what: Act) -> Action {
    match what {
        Act::Read(_) | Act::Write(_, _) | Act::WriteNull(_) => Action::Drop,
        Act::Put(_, _) | Act::PutNull(_) => Action::Put,
        Act::Store(_, _) => Action::Send,
        Act::Get(local, _) => Action::Get(local),
        Act::Copy(mode, _, _, _) => Action::Copy(mode),
        Act::Sync => Action::Sync,
        Act::Barrier => Action::Barrier,
        Act::AllStoreSync => Action::AllStoreSync,
        Act::PrintLocals => Action::Print { text: 0, count: 2 },
        Act::PrintCell(_) => Action::Print { text: 1, count: 1 },
        Act::Forever => Action::Drop,
    }
}

fn endless(alloc: Global) -> Result<CoreStmt, AllocError> {
    let before = Boxed::new(alloc, CoreStmt::Nothing)?;
    let body = Boxed::new(alloc, CoreStmt::Nothing)?;
    let after = Boxed::new(alloc, CoreStmt::Nothing)?;
    Ok(CoreStmt::Loop {
        mine: None,
        before,
        body,
        after,
    })
}

fn statement(alloc: Global, what: Act) -> Result<CoreStmt, AllocError> {
    match what {
        Act::Forever => endless(alloc),
        _ => Ok(CoreStmt::Act {
            action: action(what),
            arguments: arguments(alloc, what)?,
            line: 1,
        }),
    }
}

fn block(alloc: Global, acts: &[Act]) -> Result<CoreStmt, AllocError> {
    let mut all = Items::new(alloc);
    for what in acts {
        all.push(statement(alloc, *what)?)?;
    }
    Ok(CoreStmt::Block(all))
}

fn body(alloc: Global, source: &Source) -> Result<CoreStmt, AllocError> {
    let mut arms = Items::new(alloc);
    arms.push(CoreArm {
        of_pointer: false,
        test: constant(alloc, Constant::Mine),
        body: block(alloc, source.others)?,
    })?;
    let zero = block(alloc, source.zero)?;
    Ok(CoreStmt::Choose {
        arms,
        rest: Boxed::new(alloc, zero)?,
    })
}

fn texts(alloc: Global) -> Result<Texts, AllocError> {
    let mut texts = Vec::new(alloc);
    texts.push(Bytes::from_vec(Vec::from_slice(alloc, b"%d%d")?))?;
    texts.push(Bytes::from_vec(Vec::from_slice(alloc, b"%d\n")?))?;
    Ok(Texts::from_vec(texts))
}

/// The source as a core tree, whose one function has two locals.
pub fn program(alloc: Global, source: &Source) -> Result<CoreProgram, AllocError> {
    let mut locals = Items::new(alloc);
    locals.push(int(alloc))?;
    locals.push(int(alloc))?;
    let mut functions = Items::new(alloc);
    functions.push(CoreFunction {
        params: Items::new(alloc),
        others: locals,
        result: int(alloc),
        body: body(alloc, source)?,
        line: 1,
    })?;
    Ok(CoreProgram {
        functions,
        main: 0,
        texts: texts(alloc)?,
    })
}
