//! The source order of a journal of a run by rounds, whose size is given in words: `ROUNDS NODES`. In a round each node puts a
//! value to the next node and reads a cell of it, waits for both, and passes a barrier. It prints how many events are in the
//! order.
#![tactic(auto)]

ghost use Rattle.std.specs.Prelude.{◌<◌, IfOk};
ghost use Rattle.sc_layout.specs.Bound.{IsWhole};
ghost use Rattle.sc_layout.specs.Layout.{IsLawful};

use journal_effects::are_numbered;
use run_order::{are_on, order_by_edges};
use sc_base::{Bound, BoundStep, BoundSteps, Bounds, End, Place, Shape, Stars, Ty, Value};
use sc_isa::{Access, Entry, Track};
use sc_layout::{Layout, layout};
use std::alloc::{AllocError, Global};
use std::env;
use std::process::ExitCode;

/// How many cells each node has.
const CELLS: u32 = 64;

/// What is asked: how many rounds, and of how many nodes.
#[derive(Clone, Copy, Debug)]
struct Asked {
    rounds: u32,
    nodes: u32,
}

/// The words, of which each that is wanting is that of a short run.
fn read_words(rt: &HostRuntime) -> Asked {
    let short = Asked {
        rounds: 3,
        nodes: 4,
    };
    let Ok(words) = env::args(rt) else {
        return short;
    };
    let mut numbers = words.skip(1).map(|word| word.parse::<u32>().ok());
    let mut next = |or: u32| numbers.next().flatten().unwrap_or(or);
    Asked {
        rounds: next(short.rounds),
        nodes: next(short.nodes),
    }
}

fn cells(alloc: Global) -> Result<Bound, AllocError>
    ensures { IfOk result (λ b. IsWhole b.steps) }
{
    let mut steps = Vec::new(alloc);
    steps.push(BoundStep::Number(i64::from(CELLS)))?;
    Ok(Bound {
        steps: BoundSteps::from_vec(steps),
        line: 1,
    })
}

fn array(alloc: Global) -> Result<Shape, AllocError>
    ensures { IfOk result IsLawful }
{
    let mut bounds = Vec::new(alloc);
    bounds.push(cells(alloc)?)?;
    Ok(Shape {
        name: 0,
        ty: Ty {
            void: false,
            stars: Stars::from_vec(Vec::new(alloc)),
        },
        spread: false,
        left: Bounds::from_vec(bounds),
        right: Bounds::from_vec(Vec::new(alloc)),
        at: 1,
        line: 1,
    })
}

/// One array on each of so many nodes.
fn arrays(alloc: Global, nodes: u32) -> Result<Option<Layout>, AllocError>
    requires { 0 < nodes }
{
    let mut shapes = Vec::new(alloc);
    shapes.push(array(alloc)?)?;
    Ok(layout(alloc, shapes.as_slice(), nodes).ok())
}

/// The node after this one.
fn next_to(node: u32, nodes: u32) -> u32 {
    let next = node.saturating_add(1);
    if next < nodes { next } else { 0 }
}

fn issued(node: u32, number: u64, access: Access) -> Entry {
    Entry::Issued {
        node,
        number,
        access,
    }
}

fn delivered(node: u32, number: u64) -> Entry {
    Entry::Delivered {
        node,
        number,
        cell: 0,
        value: Value::Int(0),
    }
}

/// Each node puts a value into a cell of the next one and reads another.
fn add_issues(journal: &mut Vec<Entry>, round: u32, nodes: u32) -> Result<(), AllocError> {
    let first = u64::from(round) * 2;
    for node in 0..nodes {
        let place = |offset: u32| Place {
            object: 0,
            node: next_to(node, nodes),
            offset,
        };
        let put = Access::Write {
            place: place(round % CELLS),
            value: Value::Int(i64::from(round)),
            track: Track::Counter(0),
        };
        journal.push(issued(node, first, put))?;
        let read = Access::Read {
            place: place(round / 2 % CELLS),
            track: Track::Counter(1),
        };
        journal.push(issued(node, first + 1, read))?;
    }
    Ok(())
}

/// What was issued in the round is delivered, the last node's first, and waited for.
fn add_waits(journal: &mut Vec<Entry>, round: u32, nodes: u32) -> Result<(), AllocError> {
    let first = u64::from(round) * 2;
    for turn in 0..nodes {
        let node = nodes - 1 - turn;
        journal.push(delivered(node, first + 1))?;
        journal.push(Entry::Waited { node, counter: 1 })?;
        journal.push(delivered(node, first))?;
        journal.push(Entry::Waited { node, counter: 0 })?;
    }
    Ok(())
}

fn add_barrier(journal: &mut Vec<Entry>, nodes: u32) -> Result<(), AllocError> {
    for node in 0..nodes {
        journal.push(Entry::Arrived {
            node,
            stores: false,
        })?;
    }
    for node in 0..nodes {
        journal.push(Entry::Passed { node })?;
    }
    Ok(())
}

fn journal(alloc: Global, asked: Asked) -> Result<Vec<Entry>, AllocError> {
    let mut journal = Vec::new(alloc);
    for round in 0..asked.rounds {
        add_issues(&mut journal, round, asked.nodes)?;
        add_waits(&mut journal, round, asked.nodes)?;
        add_barrier(&mut journal, asked.nodes)?;
    }
    for node in 0..asked.nodes {
        journal.push(Entry::Finished {
            node,
            end: End::Ended,
        })?;
    }
    Ok(journal)
}

/// How many events are in the order; None where something is wanting.
fn ordered(alloc: Global, asked: Asked) -> Option<usize> {
    if asked.nodes == 0 {
        return None;
    }
    let layout = arrays(alloc, asked.nodes).ok()??;
    let journal = journal(alloc, asked).ok()?;
    if !are_numbered(journal.as_slice()) || !are_on(journal.as_slice(), layout.nodes()) {
        return None;
    }
    let history = order_by_edges(alloc, &layout, journal.as_slice()).ok()??;
    Some(history.as_slice().len())
}

fn main(rt: HostRuntime) -> ExitCode {
    match ordered(rt.alloc(), read_words(&rt)) {
        Some(count) => {
            let _ = println!(rt; "{count}");
            ExitCode::SUCCESS
        }
        None => ExitCode::FAILURE,
    }
}
