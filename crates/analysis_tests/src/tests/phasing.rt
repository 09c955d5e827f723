//! Phases of small flows by hand.

use super::flows::{edges_of, is_set, sites_of};
use phase_map::{phases, phases_early};
use site_graph::{Flow, NODE_MARK, Phases, Point, PointKind, SiteKind};
use sqlite_items::Items;
use std::alloc::{AllocError, Global};
use std::test::Fail;

/// A point: what it does, the function it is of, and which locals it reads and writes.
#[derive(Clone, Copy)]
struct Step<'a> {
    kind: PointKind,
    function: u32,
    reads: &'a [u32],
    writes: Option<u32>,
}

fn doing<'a>(kind: PointKind) -> Step<'a> {
    Step {
        kind,
        function: 0,
        reads: &[],
        writes: None,
    }
}

/// A plain point that reads these locals.
fn reading(reads: &[u32]) -> Step {
    Step {
        kind: PointKind::Plain,
        function: 0,
        reads,
        writes: None,
    }
}

/// A plain point that sets local 0 to a value by these.
fn setting(reads: &[u32]) -> Step {
    Step {
        kind: PointKind::Plain,
        function: 0,
        reads,
        writes: Some(0),
    }
}

fn flow(
    alloc: Global,
    steps: &[Step],
    edges: &[(u32, u32)],
    kinds: &[SiteKind],
) -> Result<Option<Flow>, AllocError> {
    let mut points = Items::new(alloc);
    for step in steps {
        points.push(Point {
            kind: step.kind,
            function: step.function,
            takes: Items::new(alloc),
            reads: Items::from_slice(alloc, step.reads)?,
            writes: step.writes,
        })?;
    }
    let sites = sites_of(alloc, kinds)?;
    let list = edges_of(alloc, edges)?;
    Ok(Flow::new(points, list, sites, Items::new(alloc)))
}

/// Whether these pairs of so many sites are all that do not meet.
fn all_but(phases: &Phases, sites: u32, apart: &[(u32, u32)]) -> bool {
    for row in 0..4u32 {
        for column in 0..4u32 {
            let are = row != 0 && column != 0 && row <= sites && column <= sites;
            let wanted = are && !apart.contains(&(row, column));
            if is_set(&phases.meets, row, column) != wanted {
                return false;
            }
        }
    }
    true
}

const START: PointKind = PointKind::Start;

const PLAIN: PointKind = PointKind::Plain;

const BARRIER: PointKind = PointKind::Barrier;

const RETURN: PointKind = PointKind::Return;

#[test]
fn sites_of_two_phases_do_not_meet(rt: HostRuntime) -> Result<(), Fail> {
    let steps = [
        doing(START),
        doing(PointKind::Access(1)),
        doing(BARRIER),
        doing(PointKind::Access(2)),
        doing(RETURN),
    ];
    let edges = [(0, 1), (1, 2), (2, 3), (3, 4)];
    let back = [(0, 1), (1, 2), (2, 3), (3, 1), (3, 4)];
    let read = SiteKind::Read;
    let cases: [(&str, &[(u32, u32)], [SiteKind; 2], &[(u32, u32)]); 3] = [
        (
            "a barrier between",
            &edges,
            [SiteKind::Write, read],
            &[(1, 2), (2, 1)],
        ),
        (
            "a split access",
            &edges,
            [SiteKind::Write, SiteKind::Get],
            &[],
        ),
        ("a loop", &back, [SiteKind::Write, read], &[]),
    ];
    for (case, edges, kinds, apart) in cases {
        let Some(flow) = flow(rt.alloc(), &steps, edges, &kinds)? else {
            assert!(rt; false, "no flow: {case}");
            return Ok(());
        };
        let Ok(whole) = phases(rt.alloc(), &flow) else {
            assert!(rt; false, "no memory");
            return Ok(());
        };
        assert!(rt; whole.aligned, "{case}");
        assert!(rt; all_but(&whole, 2, apart), "{case}");
        let Ok(early) = phases_early(rt.alloc(), &flow) else {
            assert!(rt; false, "no memory");
            return Ok(());
        };
        assert!(rt; !early.aligned && all_but(&early, 2, &[]), "{case}");
    }
    Ok(())
}

/// Start, then one step or two, then a point that branches to two barriers, behind which the sites stand.
fn is_aligned(
    rt: &HostRuntime,
    before: [Step; 2],
    branch: Step,
    edges: &[(u32, u32)],
) -> Result<Option<bool>, AllocError> {
    let steps = [
        doing(START),
        before[0],
        before[1],
        branch,
        doing(BARRIER),
        doing(BARRIER),
        doing(PointKind::Access(1)),
        doing(PointKind::Access(2)),
        doing(RETURN),
    ];
    let write = SiteKind::Write;
    let Some(flow) = flow(rt.alloc(), &steps, edges, &[write, write])? else {
        return Ok(None);
    };
    let Ok(phases) = phases(rt.alloc(), &flow) else {
        return Ok(None);
    };
    let apart: &[(u32, u32)] = if phases.aligned {
        &[(1, 2), (2, 1)]
    } else {
        &[]
    };
    if all_but(&phases, 2, apart) {
        Ok(Some(phases.aligned))
    } else {
        Ok(None)
    }
}

#[test]
fn uneven_points_rule_by_rule(rt: HostRuntime) -> Result<(), Fail> {
    let line = [
        (0, 1),
        (1, 2),
        (2, 3),
        (3, 4),
        (3, 5),
        (4, 6),
        (5, 7),
        (6, 8),
        (7, 8),
    ];
    let fork = [
        (0, 1),
        (1, 2),
        (1, 3),
        (2, 3),
        (3, 4),
        (3, 5),
        (4, 6),
        (5, 7),
        (6, 8),
        (7, 8),
    ];
    let called = [
        (0, 3),
        (1, 3),
        (2, 3),
        (3, 4),
        (3, 5),
        (4, 6),
        (5, 7),
        (6, 8),
        (7, 8),
    ];
    let mark = [NODE_MARK];
    let plain = doing(PLAIN);
    let own = reading(&[0]);
    let other = Step { function: 1, ..own };
    let sets_one = Step {
        writes: Some(1),
        ..reading(&mark)
    };
    let rows: [(&str, [Step; 2], Step, &[(u32, u32)], bool); 10] = [
        ("nothing is read", [plain, plain], plain, &line, true),
        ("an even local", [plain, plain], own, &line, true),
        (
            "the node's number",
            [plain, plain],
            reading(&mark),
            &line,
            false,
        ),
        ("a return", [plain, plain], doing(RETURN), &line, false),
        (
            "a local of a called function",
            [plain, plain],
            other,
            &line,
            false,
        ),
        (
            "main is called",
            [doing(PointKind::Call), plain],
            own,
            &called,
            false,
        ),
        (
            "set to the node's number",
            [plain, setting(&mark)],
            own,
            &line,
            false,
        ),
        (
            "set by an uneven local",
            [sets_one, setting(&[1])],
            own,
            &line,
            false,
        ),
        (
            "set behind an uneven point",
            [reading(&mark), setting(&[])],
            own,
            &fork,
            false,
        ),
        (
            "set to an even value",
            [plain, setting(&[1])],
            own,
            &fork,
            true,
        ),
    ];
    for (case, before, branch, edges, wanted) in rows {
        assert_eq!(rt;
            is_aligned(&rt, before, branch, edges)?,
            Some(wanted),
            "{case}"
        );
    }
    Ok(())
}

#[test]
fn one_barrier_behind_an_uneven_point_is_aligned(rt: HostRuntime) -> Result<(), Fail> {
    let steps = [
        doing(START),
        reading(&[NODE_MARK]),
        doing(PLAIN),
        doing(BARRIER),
        setting(&[]),
        reading(&[0]),
        doing(BARRIER),
        doing(BARRIER),
        doing(RETURN),
    ];
    let edges = [
        (0, 1),
        (1, 2),
        (1, 3),
        (2, 3),
        (3, 4),
        (4, 5),
        (5, 6),
        (5, 7),
        (6, 8),
        (7, 8),
    ];
    let Some(flow) = flow(rt.alloc(), &steps, &edges, &[])? else {
        assert!(rt; false, "no flow");
        return Ok(());
    };
    let Ok(phases) = phases(rt.alloc(), &flow) else {
        assert!(rt; false, "no memory");
        return Ok(());
    };
    assert!(rt; phases.aligned);
    Ok(())
}
