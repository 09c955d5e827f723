//! Cells by hand.

ghost use Rattle.std.specs.Prelude.{◌≡◌, ◌<◌, IfOk, length};
ghost use Rattle.std.specs.List.{All};
ghost use Rattle.sc_layout.specs.Layout.{IsLawful};

use crate::memory::NodeMemory;
use sc_base::{Bounds, Place, Shape, Star, Stars, Ty, Value};
use sc_layout::{Layout, layout};
use std::alloc::{AllocError, Global};
use std::test::Fail;

/// A file-scope variable of a type with these stars.
fn variable(alloc: Global, stars: &[Star]) -> Result<Shape, AllocError>
    ensures { IfOk result IsLawful }
{
    Ok(Shape {
        name: 0,
        ty: Ty {
            void: false,
            stars: Stars::from_vec(Vec::from_slice(alloc, stars)?),
        },
        spread: false,
        left: Bounds::from_vec(Vec::new(alloc)),
        right: Bounds::from_vec(Vec::new(alloc)),
        at: 1,
        line: 1,
    })
}

/// A layout of an int and of a pointer on two nodes.
fn int_and_pointer(alloc: Global) -> Result<Option<Layout>, AllocError> {
    let mut shapes = Vec::new(alloc);
    shapes.push(variable(alloc, &[])?)?;
    shapes.push(variable(alloc, &[Star::Global])?)?;
    Ok(layout(alloc, shapes.as_slice(), 2).ok())
}

/// Writes the value to the cell, where it may stand there.
fn write(memory: &mut NodeMemory, place: Place, value: Value) -> bool {
    let layout = memory.layout();
    if place.object >= layout.count() || place.node >= layout.nodes() {
        return false;
    }
    if place.offset >= layout.extent(place.node, place.object) || !layout.fits(place, value) {
        return false;
    }
    memory.write(place, value);
    true
}

fn read(memory: &NodeMemory, place: Place) -> Option<Value> {
    let layout = memory.layout();
    if place.object >= layout.count() || place.node >= layout.nodes() {
        return None;
    }
    if place.offset >= layout.extent(place.node, place.object) {
        return None;
    }
    Some(memory.read(place))
}

fn at(object: u32, node: u32) -> Place {
    Place {
        object,
        node,
        offset: 0,
    }
}

#[test]
fn each_node_has_its_own_cell(rt: HostRuntime) -> Result<(), Fail> {
    let Some(layout) = int_and_pointer(rt.alloc())? else {
        panic!(rt; "no layout");
    };
    let Ok(mut memory) = NodeMemory::new(rt.alloc(), &layout) else {
        panic!(rt; "no memory");
    };
    let pointer = Value::Ptr {
        object: 0,
        node: 1,
        offset: 3,
    };
    assert!(rt; write(&mut memory, at(0, 1), Value::Int(7)));
    assert!(rt; write(&mut memory, at(1, 0), pointer));
    let rows = [
        (at(0, 0), Some(Value::Int(0))),
        (at(0, 1), Some(Value::Int(7))),
        (at(1, 0), Some(pointer)),
        (at(1, 1), Some(Value::Null)),
        (at(2, 0), None),
    ];
    for (place, value) in rows {
        assert!(rt; read(&memory, place) == value, "at {place:?}");
    }
    Ok(())
}
