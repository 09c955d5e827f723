//! Where the turn of a loop is begun again, by hand.

use crate::leaving::again_from;
use flow_form::Count;
use sc_core::{Action, Constant, CoreArm, CoreExpr, CoreFirst, CoreStmt, CoreStmts, Operation};
use sqlite_items::{Boxed, Items};
use std::alloc::{AllocError, Global};
use std::test::Fail;

/// One point: the value of local 0.
fn local(alloc: Global) -> CoreExpr {
    CoreExpr {
        first: CoreFirst::Step {
            operation: Operation::Use(0),
            arguments: Items::new(alloc),
            line: 1,
        },
        links: Items::new(alloc),
    }
}

/// One point.
fn sync(alloc: Global) -> CoreStmt {
    CoreStmt::Act {
        action: Action::Sync,
        arguments: Items::new(alloc),
        line: 1,
    }
}

/// Two points and what is chosen.
fn choice(alloc: Global, yes: CoreStmt, no: CoreStmt) -> Result<CoreStmt, AllocError> {
    let mut arms = Items::new(alloc);
    arms.push(CoreArm {
        of_pointer: false,
        test: local(alloc),
        body: yes,
    })?;
    Ok(CoreStmt::Choose {
        arms,
        rest: Boxed::new(alloc, no)?,
    })
}

/// A point more than its body.
fn forever(alloc: Global, body: CoreStmt) -> Result<CoreStmt, AllocError> {
    Ok(CoreStmt::Loop {
        mine: None,
        before: Boxed::new(alloc, CoreStmt::Nothing)?,
        body: Boxed::new(alloc, body)?,
        after: Boxed::new(alloc, CoreStmt::Nothing)?,
    })
}

fn two(alloc: Global, first: CoreStmt, second: CoreStmt) -> Result<CoreStmt, AllocError> {
    let mut all: CoreStmts = Items::new(alloc);
    all.push(first)?;
    all.push(second)?;
    Ok(CoreStmt::Block(all))
}

/// The answer for a loop `for (; local 0; after) body` whose first point is 10, and whose body begins at 13.
fn begun_again(alloc: Global, body: CoreStmt, after: CoreStmt) -> Result<Items<u32>, AllocError> {
    let before = choice(alloc, CoreStmt::Nothing, CoreStmt::Break)?;
    let count = Count {
        points: 10,
        sites: 0,
    };
    again_from(alloc, count, &before, &body, &after)
}

#[test]
fn a_turn_is_begun_again_from_the_end_of_the_body(rt: HostRuntime) -> Result<(), Fail> {
    let alloc = rt.alloc();
    let nothing = CoreStmt::Nothing;
    let again = begun_again(alloc, sync(alloc), nothing)?;
    assert_eq!(rt; again.as_slice(), [13].as_slice());
    let stops = two(alloc, CoreStmt::Break, CoreStmt::Nothing)?;
    let again = begun_again(alloc, stops, CoreStmt::Nothing)?;
    assert!(rt; again.is_empty());
    Ok(())
}

#[test]
fn a_continue_leads_to_the_third_part(rt: HostRuntime) -> Result<(), Fail> {
    let alloc = rt.alloc();
    let body = choice(alloc, CoreStmt::Continue, sync(alloc))?;
    let again = begun_again(alloc, body, CoreStmt::Nothing)?;
    assert_eq!(rt; again.as_slice(), [15, 14].as_slice());
    let body = choice(alloc, CoreStmt::Continue, sync(alloc))?;
    let again = begun_again(alloc, body, sync(alloc))?;
    assert_eq!(rt; again.as_slice(), [16].as_slice());
    Ok(())
}

#[test]
fn a_break_leaves_the_innermost_loop_alone(rt: HostRuntime) -> Result<(), Fail> {
    let alloc = rt.alloc();
    let inner = forever(alloc, choice(alloc, CoreStmt::Break, CoreStmt::Continue)?)?;
    let again = begun_again(alloc, inner, CoreStmt::Nothing)?;
    assert_eq!(rt; again.as_slice(), [15].as_slice());
    Ok(())
}

#[test]
fn a_return_leads_nowhere(rt: HostRuntime) -> Result<(), Fail> {
    let alloc = rt.alloc();
    let zero = CoreExpr {
        first: CoreFirst::Constant(Constant::Number(0)),
        links: Items::new(alloc),
    };
    let returns = CoreStmt::Return {
        value: zero,
        line: 1,
    };
    let body = choice(alloc, returns, sync(alloc))?;
    let again = begun_again(alloc, body, CoreStmt::Nothing)?;
    assert_eq!(rt; again.as_slice(), [16].as_slice());
    Ok(())
}
