//! Plans of small flows by hand.

use site_graph::{BitRows, Edge, Flow, Plan, Point, PointKind, Site, SiteKind};
use sqlite_items::Items;
use std::alloc::{AllocError, Global};
use std::test::Fail;
use sync_place::{place, place_early};

/// A flow with these points in `splitc_main`, of which some take sites and read or write a local, each pair a point and a
/// site or local; and its plan by these delays.
#[derive(Clone, Copy)]
struct Case<'a> {
    kinds: &'a [PointKind],
    takes: &'a [(u32, u32)],
    reads: &'a [(u32, u32)],
    writes: &'a [(u32, u32)],
    edges: &'a [Edge],
    sites: &'a [(SiteKind, Option<u32>)],
    delays: &'a [(u32, u32)],
}

/// What stands beside the number in the pairs.
fn seconds(alloc: Global, pairs: &[(u32, u32)], number: usize) -> Result<Vec<u32>, AllocError> {
    let mut found = Vec::new(alloc);
    for (first, second) in pairs {
        if *first as usize == number {
            found.push(*second)?;
        }
    }
    Ok(found)
}

impl<'a> Case<'a> {
    fn flow(&self, alloc: Global) -> Result<Option<Flow>, AllocError> {
        let mut points = Items::new(alloc);
        for (at, kind) in self.kinds.iter().enumerate() {
            points.push(Point {
                kind: *kind,
                function: 0,
                takes: Items::from_vec(seconds(alloc, self.takes, at)?),
                reads: Items::from_vec(seconds(alloc, self.reads, at)?),
                writes: seconds(alloc, self.writes, at)?.first().copied(),
            })?;
        }
        let mut sites = Items::new(alloc);
        for (kind, fills) in self.sites {
            sites.push(Site {
                kind: *kind,
                line: 1,
                reads: None,
                writes: None,
                fills: *fills,
            })?;
        }
        let edges = Items::from_slice(alloc, self.edges)?;
        Ok(Flow::new(points, edges, sites, Items::new(alloc)))
    }

    fn plan(&self, alloc: Global, early: bool) -> Result<Option<Plan>, AllocError> {
        let Some(flow) = self.flow(alloc)? else {
            return Ok(None);
        };
        let size = flow.sites.as_slice().len() as u32 + 1;
        let Ok(mut delays) = BitRows::new(alloc, size, size) else {
            return Ok(None);
        };
        for (a, b) in self.delays {
            if *a < delays.rows() && *b < delays.columns() {
                delays.set(*a, *b);
            }
        }
        if delays.rows() != size || delays.columns() != size {
            return Ok(None);
        }
        let plan = if early {
            place_early(alloc, &flow, &delays)
        } else {
            place(alloc, &flow, &delays)
        };
        Ok(plan.ok())
    }
}

fn edge(from: u32, to: u32) -> Edge {
    Edge { from, to }
}

/// Whether the case has this plan.
fn has_plan(
    alloc: Global,
    case: &Case,
    early: bool,
    waits: &[&[u32]],
    oneway: &[u32],
) -> Result<bool, AllocError> {
    let Some(plan) = case.plan(alloc, early)? else {
        return Ok(false);
    };
    let rows = plan.waits.as_slice();
    if rows.len() != waits.len() || plan.oneway.as_slice() != oneway {
        return Ok(false);
    }
    for (row, wanted) in rows.iter().zip(waits) {
        if row.as_slice() != *wanted {
            return Ok(false);
        }
    }
    Ok(true)
}

const LINE: [Edge; 4] = [
    Edge { from: 0, to: 1 },
    Edge { from: 1, to: 2 },
    Edge { from: 2, to: 3 },
    Edge { from: 3, to: 4 },
];

#[test]
fn writes_before_barriers_and_delayed_reads(rt: HostRuntime) -> Result<(), Fail> {
    let barrier = Case {
        kinds: &[
            PointKind::Start,
            PointKind::Access(1),
            PointKind::Barrier,
            PointKind::Access(2),
            PointKind::Return,
        ],
        takes: &[],
        reads: &[],
        writes: &[],
        edges: &LINE,
        sites: &[(SiteKind::Write, None), (SiteKind::Write, None)],
        delays: &[],
    };
    assert!(rt;
        has_plan(
            rt.alloc(),
            &barrier,
            false,
            &[&[], &[], &[], &[], &[]],
            &[1, 2]
        )?
    );
    assert!(rt; has_plan(rt.alloc(), &barrier, true, &[&[], &[], &[1], &[], &[]], &[])?);
    let mixed = Case {
        kinds: &[
            PointKind::Start,
            PointKind::Access(1),
            PointKind::Barrier,
            PointKind::Access(2),
            PointKind::Return,
        ],
        takes: &[],
        reads: &[],
        writes: &[],
        edges: &[edge(0, 1), edge(1, 2), edge(1, 3), edge(2, 4), edge(3, 4)],
        sites: &[(SiteKind::Write, None), (SiteKind::Read, None)],
        delays: &[(1, 2)],
    };
    assert!(rt; has_plan(rt.alloc(), &mixed, false, &[&[], &[], &[1], &[1], &[]], &[])?);
    Ok(())
}

#[test]
fn reads_are_waited_for_where_they_are_used(rt: HostRuntime) -> Result<(), Fail> {
    let two = Case {
        kinds: &[
            PointKind::Start,
            PointKind::Access(1),
            PointKind::Access(2),
            PointKind::Plain,
            PointKind::Return,
        ],
        takes: &[(3, 1), (3, 2)],
        reads: &[],
        writes: &[],
        edges: &LINE,
        sites: &[(SiteKind::Read, None), (SiteKind::Read, None)],
        delays: &[],
    };
    assert!(rt; has_plan(rt.alloc(), &two, false, &[&[], &[], &[], &[1, 2], &[]], &[])?);
    let filled = Case {
        kinds: &[PointKind::Start, PointKind::Access(1), PointKind::Return],
        takes: &[],
        reads: &[],
        writes: &[(1, 0)],
        edges: &[edge(0, 1), edge(1, 2)],
        sites: &[(SiteKind::Read, Some(0))],
        delays: &[],
    };
    assert!(rt; has_plan(rt.alloc(), &filled, false, &[&[], &[], &[1]], &[])?);
    let looping = Case {
        kinds: &[
            PointKind::Start,
            PointKind::Plain,
            PointKind::Access(1),
            PointKind::Return,
        ],
        takes: &[(1, 1)],
        reads: &[],
        writes: &[],
        edges: &[edge(0, 1), edge(1, 2), edge(2, 1), edge(2, 3)],
        sites: &[(SiteKind::Read, None)],
        delays: &[],
    };
    assert!(rt; has_plan(rt.alloc(), &looping, false, &[&[], &[1], &[], &[]], &[])?);
    Ok(())
}

#[test]
fn a_local_that_is_filled_anew_is_waited_for(rt: HostRuntime) -> Result<(), Fail> {
    // by another read
    let two = Case {
        kinds: &[
            PointKind::Start,
            PointKind::Access(1),
            PointKind::Access(2),
            PointKind::Return,
        ],
        takes: &[],
        reads: &[],
        writes: &[(1, 0), (2, 0)],
        edges: &LINE[..3],
        sites: &[(SiteKind::Read, Some(0)), (SiteKind::Read, Some(0))],
        delays: &[],
    };
    assert!(rt; has_plan(rt.alloc(), &two, false, &[&[], &[], &[1], &[2]], &[])?);
    // by the same read, in a loop
    let again = Case {
        kinds: &[PointKind::Start, PointKind::Access(1), PointKind::Return],
        takes: &[],
        reads: &[],
        writes: &[(1, 0)],
        edges: &[edge(0, 1), edge(1, 1), edge(1, 2)],
        sites: &[(SiteKind::Read, Some(0))],
        delays: &[],
    };
    assert!(rt; has_plan(rt.alloc(), &again, false, &[&[], &[1], &[1]], &[])?);
    // the local is used in the next turn and behind the loop, and not between
    let both = Case {
        kinds: &[
            PointKind::Start,
            PointKind::Plain,
            PointKind::Access(1),
            PointKind::Plain,
            PointKind::Plain,
            PointKind::Return,
        ],
        takes: &[],
        reads: &[(1, 0), (3, 1), (4, 0)],
        writes: &[(2, 0)],
        edges: &[
            edge(0, 1),
            edge(1, 2),
            edge(2, 3),
            edge(3, 1),
            edge(3, 4),
            edge(4, 5),
        ],
        sites: &[(SiteKind::Read, Some(0))],
        delays: &[],
    };
    let waits: [&[u32]; 6] = [&[], &[1], &[], &[], &[1], &[]];
    assert!(rt; has_plan(rt.alloc(), &both, false, &waits, &[])?);
    Ok(())
}

#[test]
fn values_that_are_dropped_and_delays_on_both_branches(rt: HostRuntime) -> Result<(), Fail> {
    // a value that is dropped is waited for there, and a barrier before waits for it first
    let dropped = Case {
        kinds: &[
            PointKind::Start,
            PointKind::Access(1),
            PointKind::Plain,
            PointKind::Return,
        ],
        takes: &[(2, 1)],
        reads: &[],
        writes: &[],
        edges: &LINE[..3],
        sites: &[(SiteKind::Read, None)],
        delays: &[],
    };
    assert!(rt; has_plan(rt.alloc(), &dropped, false, &[&[], &[], &[1], &[]], &[])?);
    let before = Case {
        kinds: &[
            PointKind::Start,
            PointKind::Access(1),
            PointKind::Barrier,
            PointKind::Plain,
            PointKind::Return,
        ],
        takes: &[(3, 1)],
        edges: &LINE,
        ..dropped
    };
    assert!(rt; has_plan(rt.alloc(), &before, false, &[&[], &[], &[1], &[], &[]], &[])?);
    // a branch of two puts each way, of which the second must follow the write before the branch
    let branches = Case {
        kinds: &[
            PointKind::Start,
            PointKind::Access(1),
            PointKind::Access(2),
            PointKind::Access(3),
            PointKind::Access(4),
            PointKind::Access(5),
            PointKind::Return,
        ],
        takes: &[],
        reads: &[],
        writes: &[],
        edges: &[
            edge(0, 1),
            edge(1, 2),
            edge(1, 4),
            edge(2, 3),
            edge(3, 6),
            edge(4, 5),
            edge(5, 6),
        ],
        sites: &[
            (SiteKind::Write, None),
            (SiteKind::Put, None),
            (SiteKind::Put, None),
            (SiteKind::Put, None),
            (SiteKind::Put, None),
        ],
        delays: &[(1, 3), (1, 5)],
    };
    let waits: [&[u32]; 7] = [&[], &[], &[], &[1], &[], &[1], &[]];
    assert!(rt; has_plan(rt.alloc(), &branches, false, &waits, &[])?);
    assert!(rt; has_plan(rt.alloc(), &branches, true, &waits, &[])?);
    Ok(())
}

#[test]
fn a_write_that_nothing_demands_goes_one_way(rt: HostRuntime) -> Result<(), Fail> {
    let alone = Case {
        kinds: &[PointKind::Start, PointKind::Access(1), PointKind::Return],
        takes: &[],
        reads: &[],
        writes: &[],
        edges: &[edge(0, 1), edge(1, 2)],
        sites: &[(SiteKind::Write, None)],
        delays: &[],
    };
    assert!(rt; has_plan(rt.alloc(), &alone, false, &[&[], &[], &[]], &[1])?);
    assert!(rt; has_plan(rt.alloc(), &alone, true, &[&[], &[], &[]], &[])?);
    Ok(())
}
