//! Flows of small sources, by hand.

mod accesses;
mod statements;

use super::programs::program_of;
use flow_form::FlowError;
use flow_walk::source::flow;
use sc_base::{Stars, Ty};
use sc_core::{
    Action, Constant, CoreArm, CoreExpr, CoreExprs, CoreFirst, CoreFunction, CoreProgram, CoreStmt,
    CoreStmts, Operation,
};
use sc_tree::Texts;
use site_graph::{Form, IndexForm, PointKind};
use sqlite_items::{Boxed, Items};
use std::alloc::{AllocError, Global};
use std::test::Fail;

fn step(alloc: Global, operation: Operation, arguments: CoreExprs) -> CoreExpr {
    CoreExpr {
        first: CoreFirst::Step {
            operation,
            arguments,
            line: 1,
        },
        links: Items::new(alloc),
    }
}

fn constant(alloc: Global, constant: Constant) -> CoreExpr {
    CoreExpr {
        first: CoreFirst::Constant(constant),
        links: Items::new(alloc),
    }
}

fn zero(alloc: Global) -> CoreExpr {
    constant(alloc, Constant::Number(0))
}

/// One point: the value of local 0.
fn local(alloc: Global) -> CoreExpr {
    step(alloc, Operation::Use(0), Items::new(alloc))
}

fn act(alloc: Global, action: Action) -> CoreStmt {
    CoreStmt::Act {
        action,
        arguments: Items::new(alloc),
        line: 1,
    }
}

fn act_on(alloc: Global, action: Action, e: CoreExpr) -> Result<CoreStmt, AllocError> {
    let mut arguments: CoreExprs = Items::new(alloc);
    arguments.push(e)?;
    Ok(CoreStmt::Act {
        action,
        arguments,
        line: 1,
    })
}

/// Two points: the call, and that its value is dropped.
fn call(alloc: Global, function: u32) -> Result<CoreStmt, AllocError> {
    let called = step(
        alloc,
        Operation::Call { function, count: 0 },
        Items::new(alloc),
    );
    act_on(alloc, Action::Drop, called)
}

fn two(alloc: Global, first: CoreStmt, second: CoreStmt) -> Result<CoreStmt, AllocError> {
    let mut all: CoreStmts = Items::new(alloc);
    all.push(first)?;
    all.push(second)?;
    Ok(CoreStmt::Block(all))
}

/// `if` with this test: what is chosen where it is true, and where it is false.
fn tested(
    alloc: Global,
    test: CoreExpr,
    yes: CoreStmt,
    no: CoreStmt,
) -> Result<CoreStmt, AllocError> {
    let mut arms = Items::new(alloc);
    arms.push(CoreArm {
        of_pointer: false,
        test,
        body: yes,
    })?;
    Ok(CoreStmt::Choose {
        arms,
        rest: Boxed::new(alloc, no)?,
    })
}

/// Whether local 0 is not 0: two points, and what is chosen.
fn choice(alloc: Global, yes: CoreStmt, no: CoreStmt) -> Result<CoreStmt, AllocError> {
    tested(alloc, local(alloc), yes, no)
}

fn repeated(
    alloc: Global,
    mine: Option<u32>,
    before: CoreStmt,
    body: CoreStmt,
    after: CoreStmt,
) -> Result<CoreStmt, AllocError> {
    let before = Boxed::new(alloc, before)?;
    let body = Boxed::new(alloc, body)?;
    let after = Boxed::new(alloc, after)?;
    Ok(CoreStmt::Loop {
        mine,
        before,
        body,
        after,
    })
}

/// `for (;;)` with this body.
fn forever(alloc: Global, body: CoreStmt) -> Result<CoreStmt, AllocError> {
    repeated(alloc, None, CoreStmt::Nothing, body, CoreStmt::Nothing)
}

/// The edges of a source, as pairs.
fn edges_of(alloc: Global, bodies: Vec<CoreStmt>) -> Result<Vec<(u32, u32)>, AllocError> {
    let program = program_of(alloc, bodies)?;
    let mut pairs = Vec::new(alloc);
    if let Ok(flow) = flow(alloc, &program, 4) {
        for edge in flow.edges.as_slice() {
            pairs.push((edge.from, edge.to))?;
        }
    }
    Ok(pairs)
}

fn one(alloc: Global, body: CoreStmt) -> Result<Vec<(u32, u32)>, AllocError> {
    let mut bodies = Vec::new(alloc);
    bodies.push(body)?;
    edges_of(alloc, bodies)
}

#[test]
fn an_if_joins_its_arms(rt: HostRuntime) -> Result<(), Fail> {
    let alloc = rt.alloc();
    let rest = choice(alloc, act(alloc, Action::Barrier), CoreStmt::Nothing)?;
    let edges = one(alloc, choice(alloc, act(alloc, Action::Sync), rest)?)?;
    let wanted = [
        (0, 1),
        (1, 2),
        (2, 3),
        (3, 4),
        (3, 5),
        (4, 8),
        (5, 6),
        (6, 7),
        (6, 8),
        (7, 8),
    ];
    assert_eq!(rt; edges.as_slice(), wanted.as_slice());
    Ok(())
}

/// `for (; local 0; barrier()) if (local 0) continue; else sync();`
#[test]
fn a_continue_leads_to_the_third_part(rt: HostRuntime) -> Result<(), Fail> {
    let alloc = rt.alloc();
    let before = choice(alloc, CoreStmt::Nothing, CoreStmt::Break)?;
    let body = choice(alloc, CoreStmt::Continue, act(alloc, Action::Sync))?;
    let edges = one(
        alloc,
        repeated(alloc, None, before, body, act(alloc, Action::Barrier))?,
    )?;
    let wanted = [
        (0, 1),
        (1, 2),
        (2, 3),
        (3, 4),
        (3, 9),
        (4, 5),
        (5, 6),
        (6, 7),
        (6, 8),
        (7, 8),
        (8, 2),
    ];
    assert_eq!(rt; edges.as_slice(), wanted.as_slice());
    Ok(())
}

/// `for (;;) sync(); barrier();` and `for (;;) { if (local 0) break; } barrier();`
#[test]
fn behind_a_loop_without_test_only_a_break_leads_on(rt: HostRuntime) -> Result<(), Fail> {
    let alloc = rt.alloc();
    let first = forever(alloc, act(alloc, Action::Sync))?;
    let edges = one(alloc, two(alloc, first, act(alloc, Action::Barrier))?)?;
    let wanted = [(0, 1), (1, 2), (2, 3), (3, 2), (4, 5)];
    assert_eq!(rt; edges.as_slice(), wanted.as_slice());
    let left = choice(alloc, CoreStmt::Break, CoreStmt::Nothing)?;
    let first = forever(alloc, left)?;
    let edges = one(alloc, two(alloc, first, act(alloc, Action::Barrier))?)?;
    let wanted = [(0, 1), (1, 2), (2, 3), (3, 4), (4, 2), (4, 5), (5, 6)];
    assert_eq!(rt; edges.as_slice(), wanted.as_slice());
    Ok(())
}

/// `{ return 0; sync(); }`
#[test]
fn behind_a_return_nothing_is_reached(rt: HostRuntime) -> Result<(), Fail> {
    let alloc = rt.alloc();
    let returns = CoreStmt::Return {
        value: zero(alloc),
        line: 1,
    };
    let edges = one(alloc, two(alloc, returns, act(alloc, Action::Sync))?)?;
    let wanted = [(0, 1), (1, 2), (3, 4)];
    assert_eq!(rt; edges.as_slice(), wanted.as_slice());
    Ok(())
}

/// `splitc_main() { f(); f(); } f() { return 0; }`
#[test]
fn each_return_leads_behind_each_call(rt: HostRuntime) -> Result<(), Fail> {
    let alloc = rt.alloc();
    let mut bodies = Vec::new(alloc);
    bodies.push(two(alloc, call(alloc, 1)?, call(alloc, 1)?)?)?;
    bodies.push(CoreStmt::Return {
        value: zero(alloc),
        line: 1,
    })?;
    let edges = edges_of(alloc, bodies)?;
    let wanted = [
        (0, 1),
        (1, 2),
        (2, 7),
        (3, 4),
        (4, 7),
        (5, 6),
        (7, 8),
        (8, 3),
        (8, 5),
        (9, 3),
        (9, 5),
    ];
    assert_eq!(rt; edges.as_slice(), wanted.as_slice());
    Ok(())
}

#[test]
fn a_function_may_call_itself(rt: HostRuntime) -> Result<(), Fail> {
    let alloc = rt.alloc();
    let edges = one(alloc, call(alloc, 0)?)?;
    let wanted = [(0, 1), (1, 2), (2, 1), (3, 4), (4, 3)];
    assert_eq!(rt; edges.as_slice(), wanted.as_slice());
    Ok(())
}

#[test]
fn actions_have_their_kinds(rt: HostRuntime) -> Result<(), Fail> {
    let alloc = rt.alloc();
    let rows = [
        (Action::Sync, PointKind::Sync, 0),
        (Action::Barrier, PointKind::Barrier, 0),
        (Action::AllStoreSync, PointKind::StoreSync, 0),
        (Action::Begin(3), PointKind::Plain, 0),
        (Action::Get(3), PointKind::Access(1), 1),
        (Action::Put, PointKind::Access(1), 1),
    ];
    for (action, kind, sites) in rows {
        let mut bodies = Vec::new(alloc);
        bodies.push(act(alloc, action))?;
        let program = program_of(alloc, bodies)?;
        match flow(alloc, &program, 4) {
            Ok(flow) => {
                assert_eq!(rt; flow.sites.len(), sites);
                for point in flow.points.get(2) {
                    assert_eq!(rt; point.kind, kind);
                }
            }
            Err(error) => assert_eq!(rt; Some(error), None),
        }
    }
    Ok(())
}

/// A `for_my_1d` over local 0, in whose body local 1 gets element local 0 of object 0, and local 0 or 2 begins.
#[test]
fn a_local_that_is_written_is_not_the_node_s(rt: HostRuntime) -> Result<(), Fail> {
    let alloc = rt.alloc();
    let rows = [(0, IndexForm::Any), (2, IndexForm::Mine { c: 0 })];
    for (begun, index) in rows {
        let mut indices: CoreExprs = Items::new(alloc);
        indices.push(local(alloc))?;
        let element = Operation::Element {
            object: 0,
            count: 1,
            plain: true,
        };
        let gets = act_on(alloc, Action::Get(1), step(alloc, element, indices))?;
        let body = two(alloc, gets, act(alloc, Action::Begin(begun)))?;
        let nothing = CoreStmt::Nothing;
        let mut bodies = Vec::new(alloc);
        bodies.push(repeated(alloc, Some(0), nothing, body, CoreStmt::Nothing)?)?;
        let program = program_of(alloc, bodies)?;
        match flow(alloc, &program, 4) {
            Ok(flow) => {
                assert_eq!(rt; flow.sites.len(), 1);
                for site in flow.sites.as_slice() {
                    assert_eq!(rt; site.reads, Some(Form::Element { object: 0, index }));
                }
            }
            Err(error) => assert_eq!(rt; Some(error), None),
        }
    }
    Ok(())
}

#[test]
fn a_source_with_too_many_sites_is_refused(rt: HostRuntime) -> Result<(), Fail> {
    let alloc = rt.alloc();
    let rows = [
        (1024, None),
        (1025, Some(FlowError::TooManySites { count: 1025 })),
    ];
    for (count, refused) in rows {
        let mut all: CoreStmts = Items::new(alloc);
        for _ in 0..count {
            all.push(act(alloc, Action::Put))?;
        }
        let mut bodies = Vec::new(alloc);
        bodies.push(CoreStmt::Block(all))?;
        let program = program_of(alloc, bodies)?;
        match flow(alloc, &program, 4) {
            Ok(flow) => {
                assert_eq!(rt; refused, None);
                assert_eq!(rt; flow.sites.len(), count);
            }
            Err(error) => assert_eq!(rt; refused, Some(error)),
        }
    }
    Ok(())
}
