//! The lines of each kind of event, by hand.

ghost use Rattle.std.specs.Prelude.{IfOk};
ghost use Rattle.std.specs.List.{All};
ghost use Rattle.sc_layout.specs.Layout.{IsLawful};

use crate::text::history_text;
use sc_base::{Bounds, End, FaultKind, OutOfMemory, Place, Shape, Star, Stars, Ty, Value};
use sc_layout::{Layout, LayoutError, layout};
use sc_meaning::{SourceEvent, SourceHistory};
use sc_tree::Names;
use std::alloc::{AllocError, Global};
use std::test::Fail;

fn one_cell(alloc: Global, name: u32, stars: &[Star]) -> Result<Shape, AllocError>
    ensures { IfOk result IsLawful }
{
    Ok(Shape {
        name,
        ty: Ty {
            void: false,
            stars: Stars::from_vec(Vec::from_slice(alloc, stars)?),
        },
        spread: false,
        left: Bounds::from_vec(Vec::new(alloc)),
        right: Bounds::from_vec(Vec::new(alloc)),
        at: 1,
        line: 1,
    })
}

fn and_one(mut shapes: Vec<Shape>, shape: Shape) -> Result<Vec<Shape>, AllocError>
    requires lawful { All IsLawful shapes.items }
    requires one { IsLawful shape }
    ensures { IfOk result (λ all. All IsLawful all.items) }
{
    shapes.push(shape)?;
    Ok(shapes)
}

/// `int x; int *global p;` on two nodes, where p has the name 0 and x the name 1.
fn two_objects(alloc: Global) -> Result<Layout, LayoutError> {
    let mut shapes = Vec::new(alloc);
    shapes = and_one(shapes, one_cell(alloc, 1, &[])?)?;
    shapes = and_one(shapes, one_cell(alloc, 0, &[Star::Global])?)?;
    layout(alloc, shapes.as_slice(), 2)
}

fn their_names(alloc: Global) -> Result<Names, OutOfMemory> {
    let mut names = Names::new(alloc);
    names.add(b"p")?;
    names.add(b"x")?;
    Ok(names)
}

/// The lines of these events.
fn lines_of(alloc: Global, events: &[SourceEvent]) -> Result<Vec<u8>, LayoutError> {
    let layout = two_objects(alloc)?;
    let history = SourceHistory::from_vec(Vec::from_slice(alloc, events)?);
    let Ok(names) = their_names(alloc) else {
        return Err(LayoutError::OutOfMemory);
    };
    match history_text(alloc, &names, &layout, &history) {
        Ok(text) => Ok(text),
        Err(_) => Err(LayoutError::OutOfMemory),
    }
}

#[test]
fn one_write_and_the_end(rt: HostRuntime) -> Result<(), Fail> {
    let place = Place {
        object: 0,
        node: 0,
        offset: 0,
    };
    let events = [
        SourceEvent::Do {
            node: 0,
            request: 0,
            wrote: true,
            place,
            value: Value::Int(7),
        },
        SourceEvent::End {
            node: 0,
            end: End::Ended,
        },
    ];
    let text = lines_of(rt.alloc(), &events)?;
    assert_eq!(rt;
        text.as_slice(),
        b"do 0 0 write x@0+0 = 7\nend 0 ended\n".as_slice()
    );
    Ok(())
}

#[test]
fn parts_of_a_split_access(rt: HostRuntime) -> Result<(), Fail> {
    let place = Place {
        object: 1,
        node: 1,
        offset: 0,
    };
    let value = Value::Ptr {
        object: 0,
        node: 1,
        offset: 0,
    };
    let events = [
        SourceEvent::Issue {
            node: 1,
            request: 12,
        },
        SourceEvent::Effect {
            node: 1,
            request: 12,
            cell: 3,
            wrote: false,
            place,
            value,
        },
        SourceEvent::Effect {
            node: 1,
            request: 12,
            cell: 3,
            wrote: true,
            place,
            value: Value::Null,
        },
        SourceEvent::Sync {
            node: 1,
            request: 13,
        },
    ];
    let lines =
        "issue 1 12\neffect 1 12 3 read p@1+0 = x@1+0\neffect 1 12 3 write p@1+0 = null\nsync 1 13\n";
    let text = lines_of(rt.alloc(), &events)?;
    assert_eq!(rt; text.as_slice(), lines.as_bytes());
    Ok(())
}

#[test]
fn a_barrier_and_each_kind_of_end(rt: HostRuntime) -> Result<(), Fail> {
    let kind = FaultKind::NullUse;
    let events = [
        SourceEvent::Arrive {
            node: 0,
            request: 4,
            stores: true,
        },
        SourceEvent::Release { number: 1 },
        SourceEvent::End {
            node: 0,
            end: End::Fault { kind, line: 9 },
        },
        SourceEvent::End {
            node: 1,
            end: End::Cut,
        },
        SourceEvent::End {
            node: 2,
            end: End::Waiting,
        },
    ];
    let lines = "arrive 0 4\nrelease 1\nend 0 fault NullUse line 9\nend 1 cut\nend 2 waiting\n";
    let text = lines_of(rt.alloc(), &events)?;
    assert_eq!(rt; text.as_slice(), lines.as_bytes());
    let none = lines_of(rt.alloc(), &[])?;
    assert!(rt; none.as_slice().is_empty());
    Ok(())
}
