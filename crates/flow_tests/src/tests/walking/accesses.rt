//! The accesses of actions, and what points take, read and write, by hand.

use super::{act_on, constant, local, program_of, step, two};
use flow_walk::source::flow;
use sc_base::{Binary, CopyMode};
use sc_core::{Action, Constant, CoreExpr, CoreExprs, CoreFirst, CoreStmt, Operation};
use site_graph::{Flow, Form, IndexForm, NODE_MARK, Point, Site, SiteKind};
use sqlite_items::{Boxed, Items};
use std::alloc::{AllocError, Global};
use std::test::Fail;

/// Element local 0 of object 3, an element that the node's number names, the node's own cell of object 0, what local 0
/// points to on the node, or what it points to anywhere.
#[derive(Clone, Copy)]
enum Cell {
    Indexed,
    Mine,
    Own,
    Behind,
    Anywhere,
}

const ELEMENT: Operation = Operation::Element {
    object: 3,
    count: 1,
    plain: true,
};

const OBJECT: Operation = Operation::Element {
    object: 0,
    count: 0,
    plain: true,
};

/// The step with this argument.
fn step_on(alloc: Global, operation: Operation, e: CoreExpr) -> Result<CoreExpr, AllocError> {
    let mut arguments: CoreExprs = Items::new(alloc);
    arguments.push(e)?;
    Ok(step(alloc, operation, arguments))
}

/// The place of the cell.
fn place_of(alloc: Global, cell: Cell) -> Result<CoreExpr, AllocError> {
    match cell {
        Cell::Indexed => step_on(alloc, ELEMENT, local(alloc)),
        Cell::Mine => step_on(alloc, ELEMENT, constant(alloc, Constant::Mine)),
        Cell::Own => step_on(
            alloc,
            Operation::Own,
            step(alloc, OBJECT, Items::new(alloc)),
        ),
        Cell::Behind => step_on(alloc, Operation::Own, local(alloc)),
        Cell::Anywhere => Ok(local(alloc)),
    }
}

/// The action on these places.
fn act_at(alloc: Global, action: Action, cells: &[Cell]) -> Result<CoreStmt, AllocError> {
    let mut arguments: CoreExprs = Items::new(alloc);
    for cell in cells {
        let place = place_of(alloc, *cell)?;
        arguments.push(place)?;
    }
    Ok(CoreStmt::Act {
        action,
        arguments,
        line: 1,
    })
}

/// The flow of a source that does this, or None where it has too many sites.
fn flow_of(alloc: Global, body: CoreStmt) -> Result<Option<Flow>, AllocError> {
    let mut bodies = Vec::new(alloc);
    bodies.push(body)?;
    let program = program_of(alloc, bodies)?;
    Ok(flow(alloc, &program, 4).ok())
}

/// The only site of a source that does this, or None where there is not one.
fn only_site(alloc: Global, body: CoreStmt) -> Result<Option<Site>, AllocError> {
    let Some(flow) = flow_of(alloc, body)? else {
        return Ok(None);
    };
    if flow.sites.len() != 1 {
        return Ok(None);
    }
    Ok(flow.sites.get(0).copied())
}

/// A site on line 1.
fn site(
    kind: SiteKind,
    reads: Option<Form>,
    writes: Option<Form>,
    fills: Option<u32>,
) -> Option<Site> {
    Some(Site {
        kind,
        line: 1,
        reads,
        writes,
        fills,
    })
}

#[test]
fn actions_access_their_places(rt: HostRuntime) -> Result<(), Fail> {
    let alloc = rt.alloc();
    let any = Some(Form::Element {
        object: 3,
        index: IndexForm::Any,
    });
    let mine = Some(Form::Element {
        object: 3,
        index: IndexForm::Linear { k: 1, c: 0 },
    });
    let own = Some(Form::Own { object: 0 });
    let rows: [(Action, &[Cell], Option<Site>); 7] = [
        (
            Action::Fill(2),
            &[Cell::Mine],
            site(SiteKind::Read, mine, None, Some(2)),
        ),
        (
            Action::Get(2),
            &[Cell::Indexed],
            site(SiteKind::Get, any, None, None),
        ),
        (
            Action::Put,
            &[Cell::Own, Cell::Anywhere],
            site(SiteKind::Put, None, own, None),
        ),
        (
            Action::Send,
            &[Cell::Anywhere, Cell::Anywhere],
            site(SiteKind::Store, None, Some(Form::Exposed), None),
        ),
        (
            Action::Copy(CopyMode::Blocking),
            &[Cell::Behind, Cell::Mine, Cell::Anywhere],
            site(
                SiteKind::Copy(CopyMode::Blocking),
                mine,
                Some(Form::OwnExposed),
                None,
            ),
        ),
        (
            Action::Copy(CopyMode::Split),
            &[Cell::Own, Cell::Anywhere, Cell::Anywhere],
            site(
                SiteKind::Copy(CopyMode::Split),
                Some(Form::Exposed),
                own,
                None,
            ),
        ),
        (
            Action::Copy(CopyMode::OneWay),
            &[Cell::Indexed, Cell::Own, Cell::Anywhere],
            site(SiteKind::Copy(CopyMode::OneWay), own, any, None),
        ),
    ];
    for (action, cells, wanted) in rows {
        let found = only_site(alloc, act_at(alloc, action, cells)?)?;
        assert_eq!(rt; found, wanted, "{action:?}");
    }
    Ok(())
}

/// What is read from element local 0 of object 3.
fn fetched(alloc: Global) -> Result<CoreExpr, AllocError> {
    let place = place_of(alloc, Cell::Indexed)?;
    step_on(alloc, Operation::Read, place)
}

/// `A[i] += 2`
fn changed(alloc: Global) -> Result<CoreExpr, AllocError> {
    let place = place_of(alloc, Cell::Indexed)?;
    let pointer = Boxed::new(alloc, place)?;
    let right = Boxed::new(alloc, constant(alloc, Constant::Number(2)))?;
    Ok(CoreExpr {
        first: CoreFirst::Update {
            pointer,
            operation: Operation::Binary(Binary::Add),
            right,
            taken_back: None,
            line: 1,
        },
        links: Items::new(alloc),
    })
}

/// The operation on the value and 1.
fn by_one(alloc: Global, operator: Binary, e: CoreExpr) -> Result<CoreExpr, AllocError> {
    let mut arguments: CoreExprs = Items::new(alloc);
    arguments.push(e)?;
    arguments.push(constant(alloc, Constant::Number(1)))?;
    Ok(step(alloc, Operation::Binary(operator), arguments))
}

/// `i++`
fn counted(alloc: Global) -> Result<CoreExpr, AllocError> {
    let sum = by_one(alloc, Binary::Add, local(alloc))?;
    let set = step_on(alloc, Operation::Set(0), sum)?;
    by_one(alloc, Binary::Sub, set)
}

/// `printf` of what is fetched, twice.
fn printed(alloc: Global) -> Result<CoreStmt, AllocError> {
    let mut arguments: CoreExprs = Items::new(alloc);
    for _ in 0..2 {
        let e = fetched(alloc)?;
        arguments.push(e)?;
    }
    Ok(CoreStmt::Act {
        action: Action::Print { text: 0, count: 2 },
        arguments,
        line: 1,
    })
}

/// What a point takes, which locals it reads, and which it writes.
type Seen<'a> = (&'a [u32], &'a [u32], Option<u32>);

/// Whether the points from the third on, but the last, take, read and write this.
fn has_points(alloc: Global, body: CoreStmt, wanted: &[Seen<'_>]) -> Result<bool, AllocError> {
    let Some(flow) = flow_of(alloc, body)? else {
        return Ok(false);
    };
    let points = flow.points.as_slice();
    if points.len() != wanted.len() + 3 {
        return Ok(false);
    }
    for (point, seen) in points[2..].iter().zip(wanted) {
        if !is_seen(point, seen) {
            return Ok(false);
        }
    }
    Ok(true)
}

fn is_seen(point: &Point, seen: &Seen<'_>) -> bool {
    let (takes, reads, writes) = seen;
    point.takes.as_slice() == *takes && point.reads.as_slice() == *reads && point.writes == *writes
}

#[test]
fn what_points_take_read_and_write(rt: HostRuntime) -> Result<(), Fail> {
    let alloc = rt.alloc();
    let index: Seen<'_> = (&[], &[0], None);
    let marked: [u32; 2] = [0, NODE_MARK];
    let memory: Seen<'_> = (&[], &marked, None);
    // the index, its place, the read, the sum, which takes what was read, the write, and that its value is dropped
    let stmt = act_on(alloc, Action::Drop, changed(alloc)?)?;
    let wanted = [index, index, memory, (&[1], &marked, None), memory, memory];
    assert!(rt; has_points(alloc, stmt, &wanted)?, "A[i] += 2;");
    let stmt = act_on(alloc, Action::Drop, fetched(alloc)?)?;
    let wanted = [index, index, memory, (&[1], &marked, None)];
    assert!(rt; has_points(alloc, stmt, &wanted)?, "A[i];");
    let wanted = [
        index,
        index,
        memory,
        index,
        index,
        memory,
        (&[1, 2], &marked, None),
    ];
    assert!(rt; has_points(alloc, printed(alloc)?, &wanted)?, "printf");
    let stmt = act_at(alloc, Action::Fill(2), &[Cell::Indexed])?;
    let wanted = [index, index, (&[], &marked, Some(2))];
    assert!(rt; has_points(alloc, stmt, &wanted)?, "j = A[i];");
    // a local's use, the sum, what sets it, what takes 1 back, and that the old value is dropped
    let stmt = act_on(alloc, Action::Drop, counted(alloc)?)?;
    let wanted = [index, index, (&[], &[0], Some(0)), index, index];
    assert!(rt; has_points(alloc, stmt, &wanted)?, "i++;");
    Ok(())
}

/// The value is dropped.
fn dropped(alloc: Global, object: u32) -> Result<CoreStmt, AllocError> {
    let address = Operation::Address { object, count: 0 };
    act_on(alloc, Action::Drop, step(alloc, address, Items::new(alloc)))
}

#[test]
fn exposed_objects_rise_without_repeats(rt: HostRuntime) -> Result<(), Fail> {
    let alloc = rt.alloc();
    let first = two(alloc, dropped(alloc, 5)?, dropped(alloc, 2)?)?;
    let body = two(alloc, first, dropped(alloc, 5)?)?;
    match flow_of(alloc, body)? {
        Some(flow) => assert_eq!(rt; flow.exposed.as_slice(), [2, 5].as_slice()),
        None => assert!(rt; false, "no flow"),
    }
    Ok(())
}
