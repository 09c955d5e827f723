//! Bit rows and small flows by hand.

use site_graph::{BitRows, Edge, Flow, Point, PointKind, reach};
use sqlite_items::Items;
use std::alloc::{AllocError, Global};
use std::test::Fail;

#[test]
fn bits_of_two_words(rt: HostRuntime) -> Result<(), Fail> {
    let Ok(mut rows) = BitRows::new(rt.alloc(), 3, 65) else {
        assert!(rt; false, "no memory");
        return Ok(());
    };
    rows.set(0, 63);
    rows.set(0, 64);
    rows.set(2, 0);
    for row in 0..3 {
        for column in 0..65 {
            let wanted = (row == 0 && column >= 63) || (row == 2 && column == 0);
            assert_eq!(rt; rows.get(row, column), wanted, "at {row} and {column}");
        }
    }
    assert!(rt; rows.join(2, 0));
    assert!(rt; !rows.join(2, 0));
    for column in 0..65 {
        assert_eq!(rt;
            rows.get(2, column),
            column == 0 || column >= 63,
            "at {column}"
        );
        assert!(rt; !rows.get(1, column));
    }
    Ok(())
}

fn point(alloc: Global, kind: PointKind) -> Point {
    Point {
        kind,
        function: 0,
        takes: Items::new(alloc),
        reads: Items::new(alloc),
        writes: None,
    }
}

/// Start, and a loop of the points 1 and 2 that leads to 3.
fn looping(alloc: Global) -> Result<Option<Flow>, AllocError> {
    let mut points = Items::new(alloc);
    points.push(point(alloc, PointKind::Start))?;
    points.push(point(alloc, PointKind::Plain))?;
    points.push(point(alloc, PointKind::Barrier))?;
    points.push(point(alloc, PointKind::Return))?;
    let edges = [
        Edge { from: 0, to: 1 },
        Edge { from: 1, to: 2 },
        Edge { from: 2, to: 1 },
        Edge { from: 2, to: 3 },
    ];
    let edges = Items::from_slice(alloc, &edges)?;
    Ok(Flow::new(points, edges, Items::new(alloc), Items::new(alloc)))
}

fn reached(alloc: Global, flow: &Flow, stops: &[bool]) -> Option<BitRows> {
    if stops.len() != flow.points.as_slice().len() {
        return None;
    }
    reach(alloc, flow, stops).ok()
}

fn is_set(rows: &BitRows, row: u32, column: u32) -> bool {
    row < rows.rows() && column < rows.columns() && rows.get(row, column)
}

#[test]
fn loop_reaches_itself_unless_stopped(rt: HostRuntime) -> Result<(), Fail> {
    let Some(flow) = looping(rt.alloc())? else {
        assert!(rt; false, "no flow");
        return Ok(());
    };
    let free = [
        [false, true, true, true],
        [false, true, true, true],
        [false, true, true, true],
        [false; 4],
    ];
    let stopped = [
        [false, true, true, false],
        [false, false, true, false],
        [false, true, true, true],
        [false; 4],
    ];
    for (stop, wanted) in [(false, free), (true, stopped)] {
        let Some(rows) = reached(rt.alloc(), &flow, &[false, false, stop, false]) else {
            assert!(rt; false, "no rows");
            return Ok(());
        };
        for a in 0..4u32 {
            for t in 0..4u32 {
                assert_eq!(rt;
                    is_set(&rows, a, t),
                    wanted[a as usize][t as usize],
                    "from {a} to {t}, {stop}"
                );
            }
        }
    }
    Ok(())
}
