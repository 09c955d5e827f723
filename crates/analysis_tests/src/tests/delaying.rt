//! Delays of small flows by hand.

use super::flows::{edges_of, is_set, sites_of};
use delay_sets::delays;
use site_graph::{BitRows, Conflicts, Flow, Point, PointKind, SiteKind};
use sqlite_items::Items;
use std::alloc::{AllocError, Global};
use std::test::Fail;

/// A flow of one function, the pairs that conflict from two nodes and those from one, each also the other way round, and
/// the pairs of which the first has to be over before the second.
#[derive(Clone, Copy)]
struct Case<'a> {
    name: &'a str,
    points: &'a [PointKind],
    edges: &'a [(u32, u32)],
    sites: &'a [SiteKind],
    cross: &'a [(u32, u32)],
    own: &'a [(u32, u32)],
    delays: &'a [(u32, u32)],
}

fn flow(alloc: Global, case: &Case) -> Result<Option<Flow>, AllocError> {
    let mut points = Items::new(alloc);
    for kind in case.points {
        points.push(Point {
            kind: *kind,
            function: 0,
            takes: Items::new(alloc),
            reads: Items::new(alloc),
            writes: None,
        })?;
    }
    let sites = sites_of(alloc, case.sites)?;
    let edges = edges_of(alloc, case.edges)?;
    Ok(Flow::new(points, edges, sites, Items::new(alloc)))
}

/// The pairs and their reverses, where there are so many sites.
fn both_ways(alloc: Global, size: u32, pairs: &[(u32, u32)]) -> Option<BitRows> {
    let mut rows = BitRows::new(alloc, size, size).ok()?;
    for (a, b) in pairs {
        if *a >= rows.rows() || *b >= rows.columns() || *b >= rows.rows() || *a >= rows.columns() {
            return None;
        }
        rows.set(*a, *b);
        rows.set(*b, *a);
    }
    Some(rows)
}

fn found(alloc: Global, case: &Case) -> Result<Option<BitRows>, AllocError> {
    let Some(flow) = flow(alloc, case)? else {
        return Ok(None);
    };
    let size = flow.sites.as_slice().len() as u32 + 1;
    let Some(cross) = both_ways(alloc, size, case.cross) else {
        return Ok(None);
    };
    let Some(own) = both_ways(alloc, size, case.own) else {
        return Ok(None);
    };
    if cross.rows() != size
        || cross.columns() != size
        || own.rows() != size
        || own.columns() != size
    {
        return Ok(None);
    }
    Ok(delays(alloc, &flow, &Conflicts { cross, own }).ok())
}

/// Whether these delays are found, and no others.
fn is_right(alloc: Global, case: &Case) -> Result<bool, AllocError> {
    let Some(rows) = found(alloc, case)? else {
        return Ok(false);
    };
    for a in 0..7u32 {
        for b in 0..7u32 {
            if is_set(&rows, a, b) != case.delays.contains(&(a, b)) {
                return Ok(false);
            }
        }
    }
    Ok(true)
}

const START: PointKind = PointKind::Start;

const ONE: PointKind = PointKind::Access(1);

const TWO: PointKind = PointKind::Access(2);

const THREE: PointKind = PointKind::Access(3);

const FOUR: PointKind = PointKind::Access(4);

const PLAIN: PointKind = PointKind::Plain;

const SYNC: PointKind = PointKind::Sync;

const BARRIER: PointKind = PointKind::Barrier;

const RETURN: PointKind = PointKind::Return;

const READ: SiteKind = SiteKind::Read;

const WRITE: SiteKind = SiteKind::Write;

const GET: SiteKind = SiteKind::Get;

/// Two arms of three points, and what they lead to.
const ARMS: [(u32, u32); 8] = [
    (0, 1),
    (1, 2),
    (1, 5),
    (2, 3),
    (3, 4),
    (4, 8),
    (5, 6),
    (6, 7),
];

#[test]
fn pairs_of_two_nodes(rt: HostRuntime) -> Result<(), Fail> {
    let arms = [START, PLAIN, ONE, PLAIN, TWO, THREE, PLAIN, FOUR, RETURN];
    let synced = [START, PLAIN, ONE, SYNC, TWO, THREE, PLAIN, FOUR, RETURN];
    let barrier = [START, PLAIN, ONE, BARRIER, TWO, THREE, PLAIN, FOUR, RETURN];
    let dekker = Case {
        name: "each writes one and reads the other",
        points: &arms,
        edges: &ARMS,
        sites: &[WRITE, READ, WRITE, READ],
        cross: &[(1, 4), (2, 3)],
        own: &[],
        delays: &[(1, 2), (3, 4)],
    };
    let cases = [
        dekker,
        Case {
            name: "no two nodes meet",
            cross: &[],
            delays: &[],
            ..dekker
        },
        Case {
            name: "one cell alone",
            cross: &[(1, 4)],
            delays: &[],
            ..dekker
        },
        Case {
            name: "a barrier in one arm",
            points: &barrier,
            delays: &[],
            ..dekker
        },
        Case {
            name: "a get without a sync",
            sites: &[GET, WRITE, READ, WRITE],
            delays: &[],
            ..dekker
        },
        Case {
            name: "a get that a sync ends",
            points: &synced,
            sites: &[GET, WRITE, READ, WRITE],
            delays: &[(3, 4)],
            ..dekker
        },
        Case {
            name: "a store, from which nothing follows",
            sites: &[SiteKind::Store, READ, WRITE, READ],
            delays: &[],
            ..dekker
        },
        Case {
            name: "a back-path of three links",
            cross: &[(2, 3), (3, 4), (4, 1)],
            delays: &[(1, 2), (3, 4)],
            ..dekker
        },
    ];
    for case in &cases {
        assert!(rt; is_right(rt.alloc(), case)?, "{}", case.name);
    }
    Ok(())
}

#[test]
fn a_barrier_on_one_of_two_ways(rt: HostRuntime) -> Result<(), Fail> {
    let case = Case {
        name: "the other way is clear",
        points: &[START, ONE, PLAIN, BARRIER, TWO, RETURN],
        edges: &[(0, 1), (1, 2), (2, 3), (2, 4), (3, 4), (4, 5)],
        sites: &[WRITE, READ],
        cross: &[],
        own: &[(1, 2)],
        delays: &[(1, 2)],
    };
    assert!(rt; is_right(rt.alloc(), &case)?, "{}", case.name);
    Ok(())
}

#[test]
fn a_site_and_itself(rt: HostRuntime) -> Result<(), Fail> {
    let looping = Case {
        name: "a write to one cell in a loop",
        points: &[START, PLAIN, ONE, RETURN],
        edges: &[(0, 1), (1, 2), (2, 1), (2, 3)],
        sites: &[WRITE],
        cross: &[],
        own: &[(1, 1)],
        delays: &[(1, 1)],
    };
    let cases = [
        looping,
        Case {
            name: "and from two nodes alone",
            cross: &[(1, 1)],
            own: &[],
            ..looping
        },
        Case {
            name: "but once",
            edges: &[(0, 1), (1, 2), (2, 3)],
            delays: &[],
            ..looping
        },
        Case {
            name: "with a barrier between",
            points: &[START, BARRIER, ONE, RETURN],
            delays: &[],
            ..looping
        },
        Case {
            name: "by a put",
            sites: &[SiteKind::Put],
            delays: &[],
            ..looping
        },
    ];
    for case in &cases {
        assert!(rt; is_right(rt.alloc(), case)?, "{}", case.name);
    }
    Ok(())
}

#[test]
fn two_writes_in_a_loop(rt: HostRuntime) -> Result<(), Fail> {
    let case = Case {
        name: "each to the same cell of another node",
        points: &[START, ONE, TWO, RETURN],
        edges: &[(0, 1), (1, 2), (2, 1), (2, 3)],
        sites: &[WRITE, WRITE],
        cross: &[],
        own: &[(1, 1), (1, 2), (2, 2)],
        delays: &[(1, 1), (1, 2), (2, 1), (2, 2)],
    };
    assert!(rt; is_right(rt.alloc(), &case)?, "{}", case.name);
    Ok(())
}

#[test]
fn ways_over_other_accesses(rt: HostRuntime) -> Result<(), Fail> {
    let case = Case {
        name: "an access between, and a barrier on one of two ways",
        points: &[START, ONE, TWO, BARRIER, THREE, RETURN],
        edges: &[(0, 1), (1, 2), (2, 3), (2, 4), (3, 4), (4, 5)],
        sites: &[WRITE, GET, READ],
        cross: &[],
        own: &[(1, 2), (1, 3), (2, 3)],
        delays: &[(1, 2), (1, 3)],
    };
    assert!(rt; is_right(rt.alloc(), &case)?, "{}", case.name);
    Ok(())
}
