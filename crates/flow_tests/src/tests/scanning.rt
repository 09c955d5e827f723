//! Counts, lists and refusals, by hand.

use super::programs::program_of;
use flow_form::error::FlowError;
use flow_form::gather::Wanted;
use flow_form::scan::scan_source;
use flow_form::sorted::{rising_edges, rising_numbers};
use sc_base::{Stars, Ty};
use sc_core::{
    Action, CoreExpr, CoreExprs, CoreFirst, CoreFunction, CoreProgram, CoreStmt, Operation,
};
use sc_tree::Texts;
use site_graph::Edge;
use sqlite_items::Items;
use std::alloc::{AllocError, Global};
use std::test::Fail;

/// A source of one function that does all this.
fn one_function(alloc: Global, all: Vec<CoreStmt>) -> Result<CoreProgram, AllocError> {
    let mut bodies = Vec::new(alloc);
    bodies.push(CoreStmt::Block(Items::from_vec(all)))?;
    program_of(alloc, bodies)
}

fn acting(alloc: Global, action: Action) -> CoreStmt {
    CoreStmt::Act {
        action,
        arguments: Items::new(alloc),
        line: 1,
    }
}

/// `int` local 3 becomes the address of object 5, and local 1 begins.
fn writes_and_exposes(alloc: Global) -> Result<Vec<CoreStmt>, AllocError> {
    let address = CoreExpr {
        first: CoreFirst::Step {
            operation: Operation::Address {
                object: 5,
                count: 0,
            },
            arguments: Items::new(alloc),
            line: 1,
        },
        links: Items::new(alloc),
    };
    let mut operand: CoreExprs = Items::new(alloc);
    operand.push(address)?;
    let set = CoreExpr {
        first: CoreFirst::Step {
            operation: Operation::Set(3),
            arguments: operand,
            line: 1,
        },
        links: Items::new(alloc),
    };
    let mut arguments: CoreExprs = Items::new(alloc);
    arguments.push(set)?;
    let mut all = Vec::new(alloc);
    all.push(CoreStmt::Act {
        action: Action::Drop,
        arguments,
        line: 1,
    })?;
    all.push(acting(alloc, Action::Begin(1)))?;
    Ok(all)
}

#[test]
fn sites_up_to_the_limit_are_accepted(rt: HostRuntime) -> Result<(), Fail> {
    let alloc = rt.alloc();
    let rows = [
        (0, None),
        (1024, None),
        (1025, Some(FlowError::TooManySites { count: 1025 })),
    ];
    for (count, refused) in rows {
        let mut all = Vec::new(alloc);
        for _ in 0..count {
            all.push(acting(alloc, Action::Put))?;
        }
        let program = one_function(alloc, all)?;
        match scan_source(alloc, &program) {
            Ok(whole) => {
                assert_eq!(rt; refused, None);
                assert_eq!(rt; whole.count.sites, count);
                assert_eq!(rt; whole.count.points, count + 3);
            }
            Err(error) => assert_eq!(rt; refused, Some(error)),
        }
    }
    Ok(())
}

#[test]
fn a_function_returns_at_its_end(rt: HostRuntime) -> Result<(), Fail> {
    let alloc = rt.alloc();
    let program = one_function(alloc, writes_and_exposes(alloc)?)?;
    match scan_source(alloc, &program) {
        Ok(whole) => {
            assert_eq!(rt; whole.entries.as_slice().len(), 1);
            for entry in whole.entries.as_slice() {
                assert_eq!(rt; entry.first, 1);
                assert_eq!(rt; entry.returns.as_slice(), [6].as_slice());
            }
        }
        Err(error) => assert_eq!(rt; Some(error), None),
    }
    Ok(())
}

#[test]
fn what_a_source_exposes_and_writes(rt: HostRuntime) -> Result<(), Fail> {
    let alloc = rt.alloc();
    let program = one_function(alloc, writes_and_exposes(alloc)?)?;
    let rows = [
        (Wanted::Exposed, [5].as_slice()),
        (Wanted::Written, [3, 1].as_slice()),
    ];
    for (wanted, numbers) in rows {
        let mut found = Items::new(alloc);
        wanted.functions(&mut found, program.functions.as_slice())?;
        assert_eq!(rt; found.as_slice(), numbers);
    }
    Ok(())
}

#[test]
fn lists_rise_without_repeats(rt: HostRuntime) -> Result<(), Fail> {
    let alloc = rt.alloc();
    let numbers = rising_numbers(Vec::from_slice(alloc, &[3, 1, 3, 2])?);
    assert_eq!(rt; numbers.as_slice(), [1, 2, 3].as_slice());
    let (a, b, c) = (
        Edge { from: 0, to: 7 },
        Edge { from: 1, to: 2 },
        Edge { from: 1, to: 3 },
    );
    let edges = rising_edges(Vec::from_slice(alloc, &[c, a, b, c])?);
    assert_eq!(rt; edges.as_slice(), [a, b, c].as_slice());
    Ok(())
}
