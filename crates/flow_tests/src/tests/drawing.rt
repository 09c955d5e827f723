//! Expressions that are drawn, by hand.

use flow_draw::around::Around;
use flow_draw::drawing::Drawing;
use flow_draw::locals::Locals;
use flow_form::Entry;
use sc_base::Binary;
use sc_core::{Constant, CoreExpr, CoreFirst, CoreLink, CoreTest, Operation};
use site_graph::{Edge, NODE_MARK, PointKind};
use sqlite_items::{Boxed, Items};
use std::alloc::{AllocError, Global};
use std::test::Fail;

/// An expression over parameter 0 and local 1.
#[derive(Clone, Copy, Debug)]
enum Case {
    /// `a + b`
    Sum,
    /// A call of function 1 with local 1.
    Called,
    /// `b ? MYPROC : b`
    Chosen,
    /// `b && b`
    Both,
    /// `b || b`
    Either,
    /// `b = MYPROC`
    Assigned,
    /// `*b`
    Fetched,
    /// `**b += 1`
    Changed,
}

/// The value of a step without arguments.
fn alone(alloc: Global, operation: Operation) -> CoreExpr {
    CoreExpr {
        first: CoreFirst::Step {
            operation,
            arguments: Items::new(alloc),
            line: 1,
        },
        links: Items::new(alloc),
    }
}

fn constant(alloc: Global, value: Constant) -> CoreExpr {
    CoreExpr {
        first: CoreFirst::Constant(value),
        links: Items::new(alloc),
    }
}

/// The step with this argument.
fn with_one(
    alloc: Global,
    operation: Operation,
    argument: CoreExpr,
) -> Result<CoreExpr, AllocError> {
    let mut arguments = Items::new(alloc);
    arguments.push(argument)?;
    Ok(CoreExpr {
        first: CoreFirst::Step {
            operation,
            arguments,
            line: 1,
        },
        links: Items::new(alloc),
    })
}

/// The chain of the first and then the second.
fn sum(alloc: Global, first: u32, second: u32) -> Result<CoreExpr, AllocError> {
    let mut more = Items::new(alloc);
    more.push(alone(alloc, Operation::Use(second)))?;
    let mut links = Items::new(alloc);
    links.push(CoreLink {
        operation: Operation::Binary(Binary::Add),
        more,
        line: 1,
    })?;
    let CoreExpr { first, .. } = alone(alloc, Operation::Use(first));
    Ok(CoreExpr { first, links })
}

/// The value of the cell behind the local.
fn fetched(alloc: Global, local: u32) -> Result<CoreExpr, AllocError> {
    let mut links = Items::new(alloc);
    links.push(CoreLink {
        operation: Operation::Read,
        more: Items::new(alloc),
        line: 1,
    })?;
    let CoreExpr { first, .. } = alone(alloc, Operation::Use(local));
    Ok(CoreExpr { first, links })
}

fn changed(alloc: Global, local: u32) -> Result<CoreFirst, AllocError> {
    let pointer = fetched(alloc, local)?;
    let pointer = Boxed::new(alloc, pointer)?;
    let right = Boxed::new(alloc, constant(alloc, Constant::Number(1)))?;
    Ok(CoreFirst::Update {
        pointer,
        operation: Operation::Binary(Binary::Add),
        right,
        taken_back: None,
        line: 1,
    })
}

/// The local twice.
fn operands(alloc: Global, local: u32) -> Result<Items<CoreTest>, AllocError> {
    let mut tests = Items::new(alloc);
    for _ in 0..2 {
        tests.push(CoreTest {
            of_pointer: false,
            e: alone(alloc, Operation::Use(local)),
        })?;
    }
    Ok(tests)
}

fn chosen(alloc: Global, local: u32) -> Result<CoreFirst, AllocError> {
    let test = Boxed::new(alloc, alone(alloc, Operation::Use(local)))?;
    let yes = Boxed::new(alloc, constant(alloc, Constant::Mine))?;
    let no = Boxed::new(alloc, alone(alloc, Operation::Use(local)))?;
    Ok(CoreFirst::Choice {
        of_pointer: false,
        test,
        yes,
        no,
    })
}

fn of_first(alloc: Global, first: CoreFirst) -> CoreExpr {
    CoreExpr {
        first,
        links: Items::new(alloc),
    }
}

fn expression_of(alloc: Global, case: Case) -> Result<CoreExpr, AllocError> {
    match case {
        Case::Sum => sum(alloc, 0, 1),
        Case::Called => {
            let call = Operation::Call {
                function: 1,
                count: 1,
            };
            with_one(alloc, call, alone(alloc, Operation::Use(1)))
        }
        Case::Chosen => {
            let first = chosen(alloc, 1)?;
            Ok(of_first(alloc, first))
        }
        Case::Both => {
            let tests = operands(alloc, 1)?;
            Ok(of_first(alloc, CoreFirst::Every(tests)))
        }
        Case::Either => {
            let tests = operands(alloc, 1)?;
            Ok(of_first(alloc, CoreFirst::Any(tests)))
        }
        Case::Assigned => with_one(alloc, Operation::Set(1), constant(alloc, Constant::Mine)),
        Case::Fetched => fetched(alloc, 1),
        Case::Changed => {
            let first = changed(alloc, 1)?;
            Ok(of_first(alloc, first))
        }
    }
}

/// Two functions: one that begins at point 1 and returns at 4, and one that begins at 5 and returns at 7 and 9.
fn entries(alloc: Global) -> Result<Items<Entry>, AllocError> {
    let mut entries = Items::new(alloc);
    entries.push(Entry {
        first: 1,
        returns: Items::from_slice(alloc, &[4])?,
    })?;
    entries.push(Entry {
        first: 5,
        returns: Items::from_slice(alloc, &[7, 9])?,
    })?;
    Ok(entries)
}

/// The expression behind Start.
fn drawn(alloc: Global, case: Case) -> Result<Drawing, AllocError> {
    let entries = entries(alloc)?;
    let around = Around {
        alloc,
        nodes: 4,
        entries: entries.as_slice(),
        function: 0,
        params: 1,
        mines: &[],
    };
    let mut drawing = Drawing {
        points: Items::new(alloc),
        edges: Items::new(alloc),
        sites: Items::new(alloc),
        froms: Items::new(alloc),
        takes: Items::new(alloc),
        occurs: Locals::new(alloc),
    };
    drawing.pass(&around, PointKind::Start, None)?;
    let e = expression_of(alloc, case)?;
    drawing.expression(&around, &e)?;
    Ok(drawing)
}

/// What the last point reads.
fn last_reads(drawing: &Drawing) -> &[u32] {
    match drawing.points.as_slice().last() {
        Some(point) => point.reads.as_slice(),
        None => &[],
    }
}

/// What the last point takes.
fn last_takes(drawing: &Drawing) -> &[u32] {
    match drawing.points.as_slice().last() {
        Some(point) => point.takes.as_slice(),
        None => &[],
    }
}

fn edge(from: u32, to: u32) -> Edge {
    Edge { from, to }
}

#[test]
fn edges_exits_and_reads(rt: HostRuntime) -> Result<(), Fail> {
    let alloc = rt.alloc();
    let way = [edge(0, 1), edge(1, 2), edge(2, 3), edge(3, 4)];
    let into_call = [edge(0, 1), edge(1, 2), edge(2, 5)];
    let all_three = [0, 1, NODE_MARK];
    let marked = [1, NODE_MARK];
    let rows = [
        (Case::Sum, &way[..3], [3].as_slice(), all_three.as_slice()),
        (Case::Called, &into_call[..], &[7, 9], &marked),
        (Case::Chosen, &way[..3], &[2, 3], &[1]),
        (Case::Both, &way[..], &[4, 4, 2], &[1]),
        (Case::Either, &way[..], &[2, 4, 4], &[1]),
        (Case::Assigned, &way[..1], &[1], &marked),
    ];
    for (case, edges, froms, reads) in rows {
        let drawing = drawn(alloc, case)?;
        assert_eq!(rt; drawing.edges.as_slice(), edges, "edges of {case:?}");
        assert_eq!(rt; drawing.froms.as_slice(), froms, "exits of {case:?}");
        assert_eq!(rt; last_reads(&drawing), reads, "reads of {case:?}");
    }
    Ok(())
}

#[test]
fn a_write_takes_what_its_place_takes(rt: HostRuntime) -> Result<(), Fail> {
    let alloc = rt.alloc();
    let rows = [
        (Case::Assigned, 0, [].as_slice(), [].as_slice()),
        (Case::Fetched, 1, &[], &[1]),
        (Case::Changed, 3, &[1], &[]),
    ];
    for (case, sites, takes, given) in rows {
        let drawing = drawn(alloc, case)?;
        assert_eq!(rt; drawing.sites.len(), sites, "sites of {case:?}");
        assert_eq!(rt;
            last_takes(&drawing),
            takes,
            "taken by the last of {case:?}"
        );
        assert_eq!(rt; drawing.takes.as_slice(), given, "given by {case:?}");
    }
    Ok(())
}
