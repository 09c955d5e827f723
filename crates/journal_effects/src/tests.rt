//! Effects by hand.

ghost use Rattle.std.specs.Prelude.{◌≡◌, ◌<◌, IfOk};
ghost use Rattle.std.specs.List.{All};
ghost use Rattle.sc_layout.specs.Layout.{IsLawful};

use crate::numbered::are_numbered;
use crate::shown::effects;
use sc_base::{Bounds, Place, Shape, Stars, Ty, Value};
use sc_isa::{Access, Entry, Track};
use sc_layout::{Layout, layout};
use sc_meaning::SourceEvent;
use std::alloc::{AllocError, Global};
use std::test::Fail;

const EXPLICIT: Track = Track::Counter(0);

/// A file-scope int.
fn variable(alloc: Global) -> Result<Shape, AllocError>
    ensures { IfOk result IsLawful }
{
    Ok(Shape {
        name: 0,
        ty: Ty {
            void: false,
            stars: Stars::from_vec(Vec::new(alloc)),
        },
        spread: false,
        left: Bounds::from_vec(Vec::new(alloc)),
        right: Bounds::from_vec(Vec::new(alloc)),
        at: 1,
        line: 1,
    })
}

/// An int on each of two nodes.
fn one_int(alloc: Global) -> Result<Option<Layout>, AllocError> {
    let mut shapes = Vec::new(alloc);
    shapes.push(variable(alloc)?)?;
    Ok(layout(alloc, shapes.as_slice(), 2).ok())
}

fn cell(node: u32, offset: u32) -> Place {
    Place {
        object: 0,
        node,
        offset,
    }
}

fn issued(node: u32, number: u64, access: Access) -> Entry {
    Entry::Issued {
        node,
        number,
        access,
    }
}

/// A delivery to node 0's access with this number; its value is not looked at.
fn delivered(number: u64, cell: u32) -> Entry {
    Entry::Delivered {
        node: 0,
        number,
        cell,
        value: Value::Null,
    }
}

fn read(place: Place, track: Track) -> Access {
    Access::Read { place, track }
}

fn write(place: Place, value: i64, track: Track) -> Access {
    Access::Write {
        place,
        value: Value::Int(value),
        track,
    }
}

fn copy(from: Place, to: Place) -> Access {
    Access::Copy {
        from,
        to,
        cells: 2,
        track: EXPLICIT,
    }
}

/// A part of node 0's request with this number.
fn part(request: u64, cell: u32, wrote: bool, place: Place, value: i64) -> SourceEvent {
    SourceEvent::Effect {
        node: 0,
        request,
        cell,
        wrote,
        place,
        value: Value::Int(value),
    }
}

fn done(node: u32, request: u64, wrote: bool, place: Place, value: i64) -> SourceEvent {
    SourceEvent::Do {
        node,
        request,
        wrote,
        place,
        value: Value::Int(value),
    }
}

/// Whether these are the effects of the journal.
fn gives(alloc: Global, journal: &[Entry], events: &[SourceEvent]) -> Result<bool, Fail> {
    let layout = one_int(alloc)?.ok_or("no layout")?;
    if !are_numbered(journal) {
        return Ok(false);
    }
    let found = effects(alloc, journal, &layout)?;
    Ok(found.as_slice() == events)
}

#[test]
fn a_put_lands_later(rt: HostRuntime) -> Result<(), Fail> {
    let journal = [
        issued(0, 0, write(cell(1, 0), 5, EXPLICIT)),
        issued(1, 0, read(cell(1, 0), Track::Counter(3))),
        Entry::Waited {
            node: 0,
            counter: 3,
        },
        delivered(0, 0),
        Entry::Waited {
            node: 0,
            counter: 0,
        },
        issued(0, 1, read(cell(1, 0), Track::Counter(3))),
        delivered(1, 0),
    ];
    let events = [
        done(1, 0, false, cell(1, 0), 0),
        part(0, 0, true, cell(1, 0), 5),
        done(0, 2, false, cell(1, 0), 5),
    ];
    assert!(rt; gives(rt.alloc(), &journal, &events)?);
    Ok(())
}

#[test]
fn local_accesses_and_a_store(rt: HostRuntime) -> Result<(), Fail> {
    let journal = [
        issued(0, 0, write(cell(0, 0), 4, Track::Covered)),
        issued(0, 1, read(cell(0, 0), EXPLICIT)),
        Entry::Arrived {
            node: 0,
            stores: true,
        },
        issued(0, 2, write(cell(1, 0), 6, Track::Store)),
        issued(0, 3, read(cell(0, 1), EXPLICIT)),
        delivered(2, 0),
    ];
    let events = [
        done(0, 0, true, cell(0, 0), 4),
        part(1, 0, false, cell(0, 0), 4),
        part(4, 0, false, cell(0, 1), 0),
        part(3, 0, true, cell(1, 0), 6),
    ];
    assert!(rt; gives(rt.alloc(), &journal, &events)?);
    Ok(())
}

#[test]
fn a_copy_on_the_node(rt: HostRuntime) -> Result<(), Fail> {
    let journal = [
        issued(0, 0, write(cell(0, 0), 7, EXPLICIT)),
        issued(0, 1, copy(cell(0, 0), cell(0, 1))),
    ];
    // Each cell's write follows its read, so the first value goes on.
    let events = [
        part(0, 0, true, cell(0, 0), 7),
        part(1, 0, false, cell(0, 0), 7),
        part(1, 0, true, cell(0, 1), 7),
        part(1, 1, false, cell(0, 1), 7),
        part(1, 1, true, cell(0, 2), 7),
    ];
    assert!(rt; gives(rt.alloc(), &journal, &events)?);
    Ok(())
}

#[test]
fn a_copy_from_the_node_is_read_at_its_issue(rt: HostRuntime) -> Result<(), Fail> {
    let journal = [
        issued(0, 0, copy(cell(0, 0), cell(1, 0))),
        issued(0, 1, write(cell(0, 0), 7, EXPLICIT)),
        delivered(0, 1),
        delivered(0, 0),
    ];
    let events = [
        part(0, 0, false, cell(0, 0), 0),
        part(0, 1, false, cell(0, 1), 0),
        part(1, 0, true, cell(0, 0), 7),
        part(0, 1, true, cell(1, 1), 0),
        part(0, 0, true, cell(1, 0), 0),
    ];
    assert!(rt; gives(rt.alloc(), &journal, &events)?);
    Ok(())
}

#[test]
fn a_copy_from_elsewhere_is_read_and_written_by_deliveries(rt: HostRuntime) -> Result<(), Fail> {
    // To the node itself, and to another.
    for to in [0u32, 1] {
        let journal = [
            issued(0, 0, copy(cell(1, 0), cell(to, 8))),
            issued(1, 0, write(cell(1, 0), 7, EXPLICIT)),
            delivered(0, 0),
            delivered(0, 1),
            issued(1, 1, write(cell(1, 0), 8, EXPLICIT)),
            delivered(0, 1),
            delivered(0, 0),
        ];
        let first = SourceEvent::Effect {
            node: 1,
            request: 0,
            cell: 0,
            wrote: true,
            place: cell(1, 0),
            value: Value::Int(7),
        };
        let second = SourceEvent::Effect {
            node: 1,
            request: 1,
            cell: 0,
            wrote: true,
            place: cell(1, 0),
            value: Value::Int(8),
        };
        let events = [
            first,
            part(0, 0, false, cell(1, 0), 7),
            part(0, 1, false, cell(1, 1), 0),
            second,
            part(0, 1, true, cell(to, 9), 0),
            part(0, 0, true, cell(to, 8), 7),
        ];
        assert!(rt; gives(rt.alloc(), &journal, &events)?, "to node {to}");
    }
    Ok(())
}

#[test]
fn a_copy_past_the_last_number_is_told(rt: HostRuntime) -> Result<(), Fail> {
    let journal = [issued(0, 0, copy(cell(0, 0), cell(0, u32::MAX)))];
    assert!(rt; !are_numbered(&journal));
    let journal = [issued(0, 0, copy(cell(0, 0), cell(0, u32::MAX - 1)))];
    assert!(rt; are_numbered(&journal));
    Ok(())
}
