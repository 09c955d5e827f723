//! The flow that is analysed: one long body with loops, branches and calls to wait, in which sites of all forms are spread.

use crate::shapes::OBJECTS;
use site_graph::{Edge, Flow, Form, IndexForm, NODE_MARK, Point, PointKind, Site, SiteKind};
use sqlite_items::Items;
use std::alloc::{AllocError, Global};

/// How large the flow is: so many points and sites, and a barrier at every so many points.
#[derive(Clone, Copy, Debug)]
pub struct Size {
    pub points: u32,
    pub sites: u32,
    pub between: u32,
}

/// The flow of this size; None where its parts do not make one.
pub fn large_flow(alloc: Global, size: Size) -> Result<Option<Flow>, AllocError> {
    let mut points = Items::new(alloc);
    let mut edges = Items::new(alloc);
    for at in 0..size.points {
        points.push(point(alloc, size, at)?)?;
        for to in targets(size, at).into_iter().flatten() {
            edges.push(Edge { from: at, to })?;
        }
    }
    let mut sites = Items::new(alloc);
    for number in 0..size.sites {
        sites.push(site(number))?;
    }
    let exposed = Items::from_slice(alloc, &[0, 2, 4, 6])?;
    Ok(Flow::new(points, edges, sites, exposed))
}

/// Where the point leads, in rising order: some go back over 900 points, and some branch over 20.
fn targets(size: Size, at: u32) -> [Option<u32>; 3] {
    let back = if at % 1_000 == 950 {
        at.checked_sub(900)
    } else {
        None
    };
    let over = if at % 50 == 7 {
        within(size, at.saturating_add(20))
    } else {
        None
    };
    [back, within(size, at.saturating_add(1)), over]
}

fn within(size: Size, to: u32) -> Option<u32> {
    if to < size.points { Some(to) } else { None }
}

/// A point takes what the access directly before it fetched.
fn point(alloc: Global, size: Size, at: u32) -> Result<Point, AllocError> {
    let mut takes = Items::new(alloc);
    if let Some(site) = site_before(size, at) {
        takes.push(site)?;
    }
    let mut reads = Items::new(alloc);
    if at % 3_000 == 57 {
        reads.push(NODE_MARK)?;
    } else if at % 50 == 7 {
        reads.push(at % 10)?;
    }
    Ok(Point {
        kind: kind(size, at),
        function: 0,
        takes,
        reads,
        writes: if at % 500 == 9 { Some(at % 10) } else { None },
    })
}

fn site_before(size: Size, at: u32) -> Option<u32> {
    site_at(size, at.checked_sub(1)?)
}

/// The number of the site whose access the point is: they are spread evenly.
fn site_at(size: Size, at: u32) -> Option<u32> {
    let gap = size.points.checked_div(size.sites.saturating_add(1))?;
    let before = at.checked_div(gap)?;
    if at.checked_rem(gap) == Some(1) && before < size.sites {
        Some(before.saturating_add(1))
    } else {
        None
    }
}

fn kind(size: Size, at: u32) -> PointKind {
    if at == 0 {
        return PointKind::Start;
    }
    if let Some(site) = site_at(size, at) {
        return PointKind::Access(site);
    }
    if at.checked_rem(size.between) == Some(0) {
        return PointKind::Barrier;
    }
    if at % 97 == 5 {
        return PointKind::Sync;
    }
    PointKind::Plain
}

/// The site before which so many others are numbered.
fn site(before: u32) -> Site {
    let form = form(before);
    let (kind, reads) = match before % 8 {
        0..=2 => (SiteKind::Read, true),
        3..=5 => (SiteKind::Write, false),
        6 => (SiteKind::Get, true),
        _ => (SiteKind::Put, false),
    };
    Site {
        kind,
        line: 1,
        reads: if reads { Some(form) } else { None },
        writes: if reads { None } else { Some(form) },
        fills: None,
    }
}

/// One of each kind of form after another.
fn form(before: u32) -> Form {
    let spread = before / 8 % 4;
    let c = i64::from(before);
    let index = match before % 8 {
        0 => IndexForm::Linear { k: 1, c },
        1 => IndexForm::Linear { k: 0, c },
        2 => IndexForm::Wrapped { k: 1, c },
        3 => IndexForm::Mine { c },
        4 => IndexForm::Any,
        5 => return Form::Own {
            object: OBJECTS / 2 + spread,
        },
        6 => return Form::OwnExposed,
        _ => return Form::Exposed,
    };
    Form::Element {
        object: spread,
        index,
    }
}
