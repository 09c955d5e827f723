//! Journals by hand, and their source orders by the three rules, whose first that applies says what comes next: the next
//! own step, but for a blocking read or write, of the least node for which the source allows it; the next release where
//! it is allowed; the first effect that is allowed and before which no conflicting one is left.

ghost use Rattle.std.specs.Prelude.{IfOk};
ghost use Rattle.sc_layout.specs.Bound.{IsWhole};
ghost use Rattle.sc_layout.specs.Layout.{IsLawful};

use crate::of_nodes::are_on;
use crate::ordering::order_by_edges;
use journal_effects::are_numbered;
use sc_base::{
    Bound, BoundStep, BoundSteps, Bounds, End, FaultKind, Place, Shape, Stars, Ty, Value,
};
use sc_isa::{Access, Entry, Track};
use sc_layout::{Layout, layout};
use sc_meaning::SourceEvent;
use std::alloc::{AllocError, Global};
use std::test::Fail;

const EXPLICIT: Track = Track::Counter(0);

/// The counter of a site, for which code waits directly or later.
const BLOCKING: Track = Track::Counter(1);

fn two(alloc: Global) -> Result<Bound, AllocError>
    ensures { IfOk result (λ b. IsWhole b.steps) }
{
    let mut steps = Vec::new(alloc);
    steps.push(BoundStep::Number(2))?;
    Ok(Bound {
        steps: BoundSteps::from_vec(steps),
        line: 1,
    })
}

fn pair(alloc: Global) -> Result<Shape, AllocError>
    ensures { IfOk result IsLawful }
{
    let mut bounds = Vec::new(alloc);
    bounds.push(two(alloc)?)?;
    Ok(Shape {
        name: 0,
        ty: Ty {
            void: false,
            stars: Stars::from_vec(Vec::new(alloc)),
        },
        spread: false,
        left: Bounds::from_vec(bounds),
        right: Bounds::from_vec(Vec::new(alloc)),
        at: 1,
        line: 1,
    })
}

/// `int x[2];` on each of two nodes.
fn two_pairs(alloc: Global) -> Result<Option<Layout>, AllocError> {
    let mut shapes = Vec::new(alloc);
    shapes.push(pair(alloc)?)?;
    Ok(layout(alloc, shapes.as_slice(), 2).ok())
}

fn cell(node: u32, offset: u32) -> Place {
    Place {
        object: 0,
        node,
        offset,
    }
}

fn issued(node: u32, number: u64, access: Access) -> Entry {
    Entry::Issued {
        node,
        number,
        access,
    }
}

/// A delivery to node 0's access with this number; its value is not looked at.
fn delivered(number: u64, cell: u32) -> Entry {
    Entry::Delivered {
        node: 0,
        number,
        cell,
        value: Value::Null,
    }
}

fn waited(node: u32, counter: u32) -> Entry {
    Entry::Waited { node, counter }
}

fn arrived(node: u32, stores: bool) -> Entry {
    Entry::Arrived { node, stores }
}

fn finished(node: u32, end: End) -> Entry {
    Entry::Finished { node, end }
}

fn read(place: Place, track: Track) -> Access {
    Access::Read { place, track }
}

fn write(place: Place, value: i64, track: Track) -> Access {
    Access::Write {
        place,
        value: Value::Int(value),
        track,
    }
}

fn done(node: u32, request: u64, wrote: bool, place: Place, value: i64) -> SourceEvent {
    SourceEvent::Do {
        node,
        request,
        wrote,
        place,
        value: Value::Int(value),
    }
}

/// A part of node 0's request with this number.
fn part(request: u64, cell: u32, wrote: bool, place: Place, value: i64) -> SourceEvent {
    SourceEvent::Effect {
        node: 0,
        request,
        cell,
        wrote,
        place,
        value: Value::Int(value),
    }
}

fn issue(node: u32, request: u64) -> SourceEvent {
    SourceEvent::Issue { node, request }
}

fn sync(node: u32, request: u64) -> SourceEvent {
    SourceEvent::Sync { node, request }
}

fn arrive(node: u32, request: u64, stores: bool) -> SourceEvent {
    SourceEvent::Arrive {
        node,
        request,
        stores,
    }
}

fn over(node: u32, end: End) -> SourceEvent {
    SourceEvent::End { node, end }
}

const RELEASE: SourceEvent = SourceEvent::Release { number: 1 };

/// Whether the journal of two nodes has this source order.
fn gives(alloc: Global, journal: &[Entry], events: &[SourceEvent]) -> Result<bool, Fail> {
    let layout = two_pairs(alloc)?.ok_or("no layout")?;
    if !are_numbered(journal) || !are_on(journal, layout.nodes()) {
        return Ok(false);
    }
    match order_by_edges(alloc, &layout, journal)? {
        Some(history) => Ok(history.as_slice() == events),
        None => Ok(false),
    }
}

/// Node 0 writes and puts, and the put is seen before the write is over, which another node has not seen.
#[test]
fn a_write_comes_before_the_put_behind_it(rt: HostRuntime) -> Result<(), Fail> {
    let journal = [
        issued(0, 0, write(cell(1, 0), 1, BLOCKING)),
        issued(0, 1, write(cell(1, 1), 2, EXPLICIT)),
        issued(1, 0, read(cell(1, 0), BLOCKING)),
        waited(1, 1),
        delivered(1, 0),
        issued(1, 1, read(cell(1, 1), BLOCKING)),
        waited(1, 1),
        finished(1, End::Ended),
        delivered(0, 0),
        waited(0, 1),
        waited(0, 0),
        finished(0, End::Ended),
    ];
    let events = [
        done(1, 0, false, cell(1, 0), 0),
        done(0, 0, true, cell(1, 0), 1),
        issue(0, 1),
        part(1, 0, true, cell(1, 1), 2),
        sync(0, 2),
        over(0, End::Ended),
        done(1, 1, false, cell(1, 1), 2),
        over(1, End::Ended),
    ];
    assert!(rt; gives(rt.alloc(), &journal, &events)?);
    Ok(())
}

#[test]
fn a_put_lands_after_a_barrier(rt: HostRuntime) -> Result<(), Fail> {
    let journal = [
        issued(0, 0, write(cell(1, 0), 7, EXPLICIT)),
        arrived(1, false),
        arrived(0, false),
        Entry::Passed { node: 1 },
        issued(1, 0, read(cell(1, 0), BLOCKING)),
        waited(1, 1),
        Entry::Passed { node: 0 },
        finished(1, End::Ended),
        finished(0, End::Ended),
        delivered(0, 0),
    ];
    let events = [
        issue(0, 0),
        arrive(0, 1, false),
        arrive(1, 0, false),
        RELEASE,
        over(0, End::Ended),
        done(1, 1, false, cell(1, 0), 0),
        over(1, End::Ended),
        part(0, 0, true, cell(1, 0), 7),
    ];
    assert!(rt; gives(rt.alloc(), &journal, &events)?);
    Ok(())
}

/// One node's wait for all stores is enough.
#[test]
fn a_release_waits_for_stores(rt: HostRuntime) -> Result<(), Fail> {
    let journal = [
        issued(0, 0, write(cell(1, 0), 7, Track::Store)),
        arrived(1, true),
        arrived(0, false),
        delivered(0, 0),
        Entry::Passed { node: 0 },
        finished(0, End::Ended),
        Entry::Passed { node: 1 },
        issued(1, 0, read(cell(1, 0), BLOCKING)),
        waited(1, 1),
        finished(1, End::Ended),
    ];
    let events = [
        issue(0, 0),
        arrive(0, 1, false),
        arrive(1, 0, true),
        part(0, 0, true, cell(1, 0), 7),
        RELEASE,
        over(0, End::Ended),
        done(1, 1, false, cell(1, 0), 7),
        over(1, End::Ended),
    ];
    assert!(rt; gives(rt.alloc(), &journal, &events)?);
    Ok(())
}

/// Its cells move in any order, and its node goes on when all have moved.
#[test]
fn a_blocking_copy(rt: HostRuntime) -> Result<(), Fail> {
    let copy = Access::Copy {
        from: cell(1, 0),
        to: cell(0, 0),
        cells: 2,
        track: BLOCKING,
    };
    let journal = [
        issued(0, 0, copy),
        issued(1, 0, write(cell(1, 1), 6, BLOCKING)),
        waited(1, 1),
        delivered(0, 1),
        issued(1, 1, write(cell(1, 0), 5, BLOCKING)),
        waited(1, 1),
        delivered(0, 0),
        delivered(0, 1),
        delivered(0, 0),
        waited(0, 1),
        finished(0, End::Ended),
        finished(1, End::Ended),
    ];
    let events = [
        issue(0, 0),
        done(1, 0, true, cell(1, 1), 6),
        part(0, 1, false, cell(1, 1), 6),
        done(1, 1, true, cell(1, 0), 5),
        over(1, End::Ended),
        part(0, 0, false, cell(1, 0), 5),
        part(0, 1, true, cell(0, 1), 6),
        part(0, 0, true, cell(0, 0), 5),
        over(0, End::Ended),
    ];
    assert!(rt; gives(rt.alloc(), &journal, &events)?);
    Ok(())
}

#[test]
fn a_node_is_forsaken_at_a_barrier(rt: HostRuntime) -> Result<(), Fail> {
    let journal = [
        issued(0, 0, write(cell(1, 0), 3, BLOCKING)),
        delivered(0, 0),
        waited(0, 1),
        arrived(0, false),
        finished(1, End::Ended),
        finished(0, End::Waiting),
    ];
    let events = [
        over(1, End::Ended),
        done(0, 0, true, cell(1, 0), 3),
        arrive(0, 1, false),
        over(0, End::Waiting),
    ];
    assert!(rt; gives(rt.alloc(), &journal, &events)?);
    Ok(())
}

/// A blocking read that fills a local comes before the fault even where it lands after it, and a get need not.
#[test]
fn a_fault_behind_an_unwaited_fill(rt: HostRuntime) -> Result<(), Fail> {
    let divide = End::Fault {
        kind: FaultKind::Divide,
        line: 3,
    };
    let pending = End::Fault {
        kind: FaultKind::PendingUse,
        line: 1,
    };
    let journal = [
        issued(0, 0, read(cell(1, 0), EXPLICIT)),
        issued(0, 1, read(cell(1, 1), BLOCKING)),
        finished(0, divide),
        issued(1, 0, read(cell(1, 1), EXPLICIT)),
        finished(1, pending),
        delivered(1, 0),
        delivered(0, 0),
    ];
    let filled = SourceEvent::Effect {
        node: 1,
        request: 0,
        cell: 0,
        wrote: false,
        place: cell(1, 1),
        value: Value::Int(0),
    };
    let events = [
        issue(0, 0),
        issue(1, 0),
        over(1, pending),
        filled,
        done(0, 1, false, cell(1, 1), 0),
        over(0, divide),
        part(0, 0, false, cell(1, 0), 0),
    ];
    assert!(rt; gives(rt.alloc(), &journal, &events)?);
    Ok(())
}

/// Whether the journal has an order by its edges.
fn has_order(alloc: Global, layout: &Layout, journal: &[Entry]) -> Result<bool, Fail> {
    if !are_numbered(journal) || !are_on(journal, layout.nodes()) {
        return Err("not a journal of these nodes".into());
    }
    Ok(order_by_edges(alloc, layout, journal)?.is_some())
}

/// Each node reads the other's flag before its own write is over: no order of the source gives both what they read.
#[test]
fn a_cycle_has_no_order(rt: HostRuntime) -> Result<(), Fail> {
    let layout = two_pairs(rt.alloc())?.ok_or("no layout")?;
    let journal = [
        issued(0, 0, write(cell(1, 0), 1, BLOCKING)),
        issued(1, 0, write(cell(0, 0), 1, BLOCKING)),
        issued(0, 1, read(cell(0, 0), BLOCKING)),
        issued(1, 1, read(cell(1, 0), BLOCKING)),
        delivered(0, 0),
        Entry::Delivered {
            node: 1,
            number: 0,
            cell: 0,
            value: Value::Null,
        },
    ];
    assert!(rt; !has_order(rt.alloc(), &layout, &journal)?);
    Ok(())
}
