//! The replay of a history by rounds, whose size is given in words: `ROUNDS NODES`. In a round each node puts a value to
//! its cell of a spread array, syncs, reads the cell and passes a barrier. It prints how many nodes ended.
#![tactic(auto)]

ghost use Rattle.std.specs.Prelude.{◌≡◌, ◌<◌, false, length, IfOk};
ghost use Rattle.std.specs.List.{All};
ghost use Rattle.sc_layout.specs.Bound.{IsWhole};
ghost use Rattle.sc_layout.specs.Layout.{IsLawful};

use history_replay::replay_core;
use sc_base::{Binary, Bound, BoundStep, BoundSteps, Bounds, End, Place, Shape, Stars, Ty, Value};
use sc_core::{
    Action, Constant, CoreArm, CoreExpr, CoreFirst, CoreFunction, CoreProgram, CoreStmt, Operation,
};
use sc_layout::{Layout, layout};
use sc_meaning::{SourceEvent, SourceHistory};
use sc_tree::Texts;
use sqlite_items::{Boxed, Items};
use std::alloc::{AllocError, Global};
use std::env;
use std::process::ExitCode;

/// What is asked: how many rounds, and of how many nodes.
#[derive(Clone, Copy, Debug)]
struct Asked {
    rounds: u32,
    nodes: u32,
}

/// The words, of which each that is wanting is that of a short run.
fn read_words(rt: &HostRuntime) -> Asked {
    let short = Asked {
        rounds: 3,
        nodes: 4,
    };
    let Ok(words) = env::args(rt) else {
        return short;
    };
    let mut numbers = words.skip(1).map(|word| word.parse::<u32>().ok());
    let mut next = |or: u32| numbers.next().flatten().unwrap_or(or);
    Asked {
        rounds: next(short.rounds),
        nodes: next(short.nodes),
    }
}

fn cells(alloc: Global, count: u32) -> Result<Bound, AllocError>
    ensures { IfOk result (λ b. IsWhole b.steps) }
{
    let mut steps = Vec::new(alloc);
    steps.push(BoundStep::Number(i64::from(count)))?;
    Ok(Bound {
        steps: BoundSteps::from_vec(steps),
        line: 1,
    })
}

fn bounds(alloc: Global, count: u32) -> Result<Bounds, AllocError>
    ensures whole { IfOk result (λ bs. All (λ b. IsWhole b.steps) bs) }
    ensures some { IfOk result (λ bs. 0 < length bs) }
{
    let mut all = Vec::new(alloc);
    all.push(cells(alloc, count)?)?;
    Ok(Bounds::from_vec(all))
}

fn int(alloc: Global) -> Ty
    ensures { result.void ≡ false }
{
    Ty {
        void: false,
        stars: Stars::from_vec(Vec::new(alloc)),
    }
}

fn spread(alloc: Global, count: u32) -> Result<Shape, AllocError>
    ensures { IfOk result IsLawful }
{
    Ok(Shape {
        name: 0,
        ty: int(alloc),
        spread: true,
        left: bounds(alloc, count)?,
        right: Bounds::from_vec(Vec::new(alloc)),
        at: 1,
        line: 1,
    })
}

/// A spread array with a cell on each of so many nodes.
fn arrays(alloc: Global, nodes: u32) -> Result<Option<Layout>, AllocError>
    requires { 0 < nodes }
{
    let mut shapes = Vec::new(alloc);
    shapes.push(spread(alloc, nodes)?)?;
    Ok(layout(alloc, shapes.as_slice(), nodes).ok())
}

fn expr(alloc: Global, first: CoreFirst) -> CoreExpr {
    CoreExpr {
        first,
        links: Items::new(alloc),
    }
}

fn constant(alloc: Global, value: Constant) -> CoreExpr {
    expr(alloc, CoreFirst::Constant(value))
}

fn step(alloc: Global, operation: Operation, arguments: Items<CoreExpr>) -> CoreExpr {
    expr(
        alloc,
        CoreFirst::Step {
            operation,
            arguments,
            line: 1,
        },
    )
}

fn one(alloc: Global, e: CoreExpr) -> Result<Items<CoreExpr>, AllocError> {
    let mut all = Items::new(alloc);
    all.push(e)?;
    Ok(all)
}

fn two(alloc: Global, a: CoreExpr, b: CoreExpr) -> Result<Items<CoreExpr>, AllocError> {
    let mut all = one(alloc, a)?;
    all.push(b)?;
    Ok(all)
}

/// The number of the round.
fn round(alloc: Global) -> CoreExpr {
    step(alloc, Operation::Use(0), Items::new(alloc))
}

/// The node's own cell.
fn cell(alloc: Global) -> Result<CoreExpr, AllocError> {
    let element = Operation::Element {
        object: 0,
        count: 1,
        plain: true,
    };
    Ok(step(alloc, element, one(alloc, constant(alloc, Constant::Mine))?))
}

fn act(action: Action, arguments: Items<CoreExpr>) -> CoreStmt {
    CoreStmt::Act {
        action,
        arguments,
        line: 1,
    }
}

/// `s[MYPROC] := x; sync(); s[MYPROC]; barrier();`
fn body(alloc: Global) -> Result<CoreStmt, AllocError> {
    let mut all = Items::new(alloc);
    let put = two(alloc, cell(alloc)?, round(alloc))?;
    all.push(act(Action::Put, put))?;
    all.push(act(Action::Sync, Items::new(alloc)))?;
    let read = step(alloc, Operation::Read, one(alloc, cell(alloc)?)?);
    all.push(act(Action::Drop, one(alloc, read)?))?;
    all.push(act(Action::Barrier, Items::new(alloc)))?;
    Ok(CoreStmt::Block(all))
}

/// `if (x < rounds) ; else break;`
fn while_left(alloc: Global, rounds: u32) -> Result<CoreStmt, AllocError> {
    let bound = constant(alloc, Constant::Number(i64::from(rounds)));
    let below = two(alloc, round(alloc), bound)?;
    let mut arms = Items::new(alloc);
    arms.push(CoreArm {
        of_pointer: false,
        test: step(alloc, Operation::Binary(Binary::Lt), below),
        body: CoreStmt::Nothing,
    })?;
    Ok(CoreStmt::Choose {
        arms,
        rest: Boxed::new(alloc, CoreStmt::Break)?,
    })
}

/// `x = x + 1;`
fn one_more(alloc: Global) -> Result<CoreStmt, AllocError> {
    let terms = two(alloc, round(alloc), constant(alloc, Constant::Number(1)))?;
    let sum = step(alloc, Operation::Binary(Binary::Add), terms);
    let set = step(alloc, Operation::Set(0), one(alloc, sum)?);
    Ok(act(Action::Drop, one(alloc, set)?))
}

/// `splitc_main`, with a loop of so many rounds.
fn function(alloc: Global, rounds: u32) -> Result<CoreFunction, AllocError> {
    let mut others = Items::new(alloc);
    others.push(int(alloc))?;
    let before = while_left(alloc, rounds)?;
    let inner = body(alloc)?;
    let after = one_more(alloc)?;
    Ok(CoreFunction {
        params: Items::new(alloc),
        others,
        result: int(alloc),
        body: CoreStmt::Loop {
            mine: None,
            before: Boxed::new(alloc, before)?,
            body: Boxed::new(alloc, inner)?,
            after: Boxed::new(alloc, after)?,
        },
        line: 1,
    })
}

fn program(alloc: Global, rounds: u32) -> Result<CoreProgram, AllocError> {
    let mut functions = Items::new(alloc);
    functions.push(function(alloc, rounds)?)?;
    Ok(CoreProgram {
        functions,
        main: 0,
        texts: Texts::from_vec(Vec::new(alloc)),
    })
}

/// What one node does in a round up to its barrier, whose four requests have these numbers and those behind them.
fn add_node(events: &mut Vec<SourceEvent>, round: u32, node: u32) -> Result<(), AllocError> {
    let request = u64::from(round) * 4;
    let value = Value::Int(i64::from(round));
    let place = Place {
        object: 0,
        node,
        offset: 0,
    };
    events.push(SourceEvent::Issue { node, request })?;
    events.push(SourceEvent::Effect {
        node,
        request,
        cell: 0,
        wrote: true,
        place,
        value,
    })?;
    events.push(SourceEvent::Sync {
        node,
        request: request + 1,
    })?;
    events.push(SourceEvent::Do {
        node,
        request: request + 2,
        wrote: false,
        place,
        value,
    })?;
    events.push(SourceEvent::Arrive {
        node,
        request: request + 3,
        stores: false,
    })?;
    Ok(())
}

fn add_round(events: &mut Vec<SourceEvent>, round: u32, nodes: u32) -> Result<(), AllocError> {
    for node in 0..nodes {
        add_node(events, round, node)?;
    }
    events.push(SourceEvent::Release {
        number: u64::from(round) + 1,
    })?;
    Ok(())
}

fn history(alloc: Global, asked: Asked) -> Result<Vec<SourceEvent>, AllocError> {
    let mut events = Vec::new(alloc);
    for round in 0..asked.rounds {
        add_round(&mut events, round, asked.nodes)?;
    }
    for node in 0..asked.nodes {
        events.push(SourceEvent::End {
            node,
            end: End::Ended,
        })?;
    }
    Ok(events)
}

/// How many nodes ended in the history; None where something is wanting.
fn replayed(alloc: Global, asked: Asked) -> Option<usize> {
    if asked.nodes == 0 {
        return None;
    }
    let layout = arrays(alloc, asked.nodes).ok()??;
    let core = program(alloc, asked.rounds).ok()?;
    let events = SourceHistory::from_vec(history(alloc, asked).ok()?);
    let budget = u64::from(asked.rounds);
    let outcome = replay_core(alloc, &core, &layout, budget, &events).ok()??;
    Some(outcome.ends.as_slice().len())
}

fn main(rt: HostRuntime) -> ExitCode {
    match replayed(rt.alloc(), read_words(&rt)) {
        Some(count) => {
            let _ = println!(rt; "{count}");
            ExitCode::SUCCESS
        }
        None => ExitCode::FAILURE,
    }
}
