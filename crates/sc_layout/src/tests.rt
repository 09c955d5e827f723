//! Values from outside: where cells lie, and what is refused, by hand.

ghost use Rattle.std.specs.Prelude.{◌≡◌, ◌<◌, ◌↔◌, IfOk, IsTrue, false, length};
ghost use Rattle.std.specs.List.{All};
ghost use Rattle.sc_layout.specs.Bound.{IsWhole};
ghost use Rattle.sc_layout.specs.Layout.{IsLawful};
ghost use Rattle.sc_layout.specs.Pointer.{IsPointer};

use crate::error::LayoutError;
use crate::layouts::Layout;
use crate::making::layout;
use sc_base::{
    Binary, Bound, BoundStep, BoundSteps, Bounds, FaultKind, Place, Shape, Star, Stars, Ty, Value,
};
use std::alloc::{AllocError, Global};
use std::test::Fail;

fn number(alloc: Global, value: i64) -> Result<Bound, AllocError>
    ensures { IfOk result (λ b. IsWhole b.steps) }
{
    let mut steps = Vec::new(alloc);
    steps.push(BoundStep::Number(value))?;
    Ok(Bound {
        steps: BoundSteps::from_vec(steps),
        line: 7,
    })
}

/// The bound `PROCS op value`.
fn of_procs(alloc: Global, op: Binary, value: i64) -> Result<Bound, AllocError>
    ensures { IfOk result (λ b. IsWhole b.steps) }
{
    let mut steps = Vec::new(alloc);
    steps.push(BoundStep::Procs)?;
    steps.push(BoundStep::Number(value))?;
    steps.push(BoundStep::Op(op))?;
    Ok(Bound {
        steps: BoundSteps::from_vec(steps),
        line: 9,
    })
}

fn numbers(alloc: Global, values: &[i64]) -> Result<Bounds, AllocError>
    ensures whole { IfOk result (λ bs. All (λ b. IsWhole b.steps) bs) }
    ensures count { IfOk result (λ bs. length bs ≡ length values.now) }
{
    let mut bounds = Vec::new(alloc);
    for value in values {
        let bound = number(alloc, *value)?;
        bounds.push(bound)?;
    }
    Ok(Bounds::from_vec(bounds))
}

fn int_type(alloc: Global, stars: &[Star]) -> Result<Ty, AllocError>
    ensures { IfOk result (λ ty. ty.void ≡ false) }
{
    Ok(Ty {
        void: false,
        stars: Stars::from_vec(Vec::from_slice(alloc, stars)?),
    })
}

fn ordinary(alloc: Global, stars: &[Star], bounds: Bounds) -> Result<Shape, AllocError>
    requires { All (λ b. IsWhole b.steps) bounds }
    ensures { IfOk result IsLawful }
{
    Ok(Shape {
        name: 0,
        ty: int_type(alloc, stars)?,
        spread: false,
        left: bounds,
        right: Bounds::from_vec(Vec::new(alloc)),
        at: 1,
        line: 1,
    })
}

fn spread(alloc: Global, left: &[i64], right: &[i64]) -> Result<Shape, AllocError>
    requires { 0 < length left.now }
    ensures { IfOk result IsLawful }
{
    Ok(Shape {
        name: 0,
        ty: int_type(alloc, &[])?,
        spread: true,
        left: numbers(alloc, left)?,
        right: numbers(alloc, right)?,
        at: 1,
        line: 1,
    })
}

fn one(alloc: Global, shape: Shape, nodes: u32) -> Result<Layout, LayoutError>
    requires some { 0 < nodes }
    requires lawful { IsLawful shape }
{
    let mut shapes = Vec::new(alloc);
    shapes.push(shape)?;
    layout(alloc, shapes.as_slice(), nodes)
}

fn extent(layout: &Layout, node: u32, object: u32) -> Option<u32> {
    if node < layout.nodes() && object < layout.count() {
        Some(layout.extent(node, object))
    } else {
        None
    }
}

/// Node and offset of the cell with this index.
fn cell(layout: &Layout, node: u32, object: u32, index: u64) -> Option<(u32, u32)> {
    if node < layout.nodes() && object < layout.count() {
        let place = layout.place_of(node, object, index)?;
        Some((place.node, place.offset))
    } else {
        None
    }
}

fn is_pointer(layout: &Layout, pointer: Value) -> bool
    ensures { IsTrue result ↔ IsPointer layout.now pointer }
{
    match pointer {
        Value::Int(_) => false,
        Value::Null => true,
        Value::Ptr { object, node, .. } => object < layout.count() && node < layout.nodes(),
    }
}

/// The one bound `PROCS op value`.
fn procs_alone(alloc: Global, op: Binary, value: i64) -> Result<Bounds, AllocError>
    ensures { IfOk result (λ bs. All (λ b. IsWhole b.steps) bs) }
{
    let bound = of_procs(alloc, op, value)?;
    let mut bounds = Vec::new(alloc);
    bounds.push(bound)?;
    Ok(Bounds::from_vec(bounds))
}

fn and_one(mut shapes: Vec<Shape>, shape: Shape) -> Result<Vec<Shape>, AllocError>
    requires lawful { All IsLawful shapes.items }
    requires one { IsLawful shape }
    ensures { IfOk result (λ all. All IsLawful all.items) }
{
    shapes.push(shape)?;
    Ok(shapes)
}

fn alike(alloc: Global, count: usize, bound: i64) -> Result<Vec<Shape>, AllocError>
    ensures { IfOk result (λ shapes. All IsLawful shapes.items) }
{
    let mut shapes = Vec::new(alloc);
    for _ in 0..count {
        let shape = ordinary(alloc, &[], numbers(alloc, &[bound])?)?;
        shapes = and_one(shapes, shape)?;
    }
    Ok(shapes)
}

#[derive(Clone, Copy, Debug, PartialEq, Eq)]
enum Outcome {
    Made,
    Objects(u32),
    Bound(u32),
    Cells(u64),
    Memory,
}

fn outcome_of(made: Result<Layout, LayoutError>) -> Outcome {
    match made {
        Ok(_) => Outcome::Made,
        Err(LayoutError::TooManyObjects { count }) => Outcome::Objects(count),
        Err(LayoutError::BadBound { line }) => Outcome::Bound(line),
        Err(LayoutError::TooManyCells { cells }) => Outcome::Cells(cells),
        Err(LayoutError::OutOfMemory) => Outcome::Memory,
    }
}

fn bound(layout: &Layout, object: u32, dimension: u32) -> Option<u64> {
    if object < layout.count() {
        layout.bound(object, dimension)
    } else {
        None
    }
}

fn fits(layout: &Layout, object: u32, value: Value) -> Option<bool> {
    if object < layout.count() && 0 < layout.nodes() && 0 < layout.extent(0, object) {
        Some(layout.fits(
            Place {
                object,
                node: 0,
                offset: 0,
            },
            value,
        ))
    } else {
        None
    }
}

fn used(layout: &Layout, pointer: Value) -> Option<Result<Place, FaultKind>> {
    if is_pointer(layout, pointer) {
        Some(layout.place_at(pointer))
    } else {
        None
    }
}

fn step_spread(layout: &Layout, pointer: Value, by: i64) -> Option<Result<Value, FaultKind>> {
    if is_pointer(layout, pointer) {
        Some(layout.step_spread(pointer, by))
    } else {
        None
    }
}

fn step_global(layout: &Layout, pointer: Value, by: i64) -> Option<Result<Value, FaultKind>> {
    if is_pointer(layout, pointer) {
        Some(layout.step_global(pointer, by))
    } else {
        None
    }
}

fn toglobal(layout: &Layout, node: i64, pointer: Value) -> Option<Result<Value, FaultKind>> {
    if is_pointer(layout, pointer) {
        Some(layout.toglobal(node, pointer))
    } else {
        None
    }
}

/// What `tolocal` and then `toproc` answer.
fn local(layout: &Layout, pointer: Value) -> Option<(Value, Result<i64, FaultKind>)> {
    if is_pointer(layout, pointer) {
        Some((layout.tolocal(pointer), layout.toproc(pointer)))
    } else {
        None
    }
}

fn to(node: u32, offset: u32) -> Value {
    Value::Ptr {
        object: 0,
        node,
        offset,
    }
}

#[test]
fn spread_elements_go_over_the_nodes_in_turn(rt: HostRuntime) -> Result<(), Fail> {
    let layout = one(rt.alloc(), spread(rt.alloc(), &[5], &[])?, 2)?;
    assert_eq!(rt; extent(&layout, 0, 0), Some(3));
    assert_eq!(rt; extent(&layout, 1, 0), Some(2));
    for (index, node, offset) in [(0, 0, 0), (1, 1, 0), (2, 0, 1), (3, 1, 1), (4, 0, 2)] {
        assert_eq!(rt;
            cell(&layout, 0, 0, index),
            Some((node, offset)),
            "at {index}"
        );
    }
    assert_eq!(rt; cell(&layout, 0, 0, 5), None);
    Ok(())
}

#[test]
fn a_block_stays_together(rt: HostRuntime) -> Result<(), Fail> {
    let layout = one(rt.alloc(), spread(rt.alloc(), &[4], &[2])?, 2)?;
    assert_eq!(rt; extent(&layout, 0, 0), Some(4));
    assert_eq!(rt; extent(&layout, 1, 0), Some(4));
    for (index, node, offset) in [(1, 0, 1), (2, 1, 0), (3, 1, 1), (5, 0, 3), (7, 1, 3)] {
        assert_eq!(rt;
            cell(&layout, 1, 0, index),
            Some((node, offset)),
            "at {index}"
        );
    }
    assert_eq!(rt; cell(&layout, 1, 0, 8), None);
    Ok(())
}

#[test]
fn two_left_dimensions_count_blocks_row_by_row(rt: HostRuntime) -> Result<(), Fail> {
    let layout = one(rt.alloc(), spread(rt.alloc(), &[2, 3], &[])?, 4)?;
    for (node, cells) in [(0, 2), (1, 2), (2, 1), (3, 1)] {
        assert_eq!(rt; extent(&layout, node, 0), Some(cells), "on node {node}");
    }
    assert_eq!(rt; cell(&layout, 0, 0, 5), Some((1, 1)));
    assert_eq!(rt; bound(&layout, 0, 0), Some(2));
    assert_eq!(rt; bound(&layout, 0, 1), Some(3));
    assert_eq!(rt; bound(&layout, 0, 2), None);
    Ok(())
}

#[test]
fn an_ordinary_object_is_whole_on_each_node(rt: HostRuntime) -> Result<(), Fail> {
    let shape = ordinary(rt.alloc(), &[], numbers(rt.alloc(), &[2, 3])?)?;
    let layout = one(rt.alloc(), shape, 3)?;
    assert_eq!(rt; extent(&layout, 2, 0), Some(6));
    assert_eq!(rt; cell(&layout, 2, 0, 4), Some((2, 4)));
    assert_eq!(rt; cell(&layout, 2, 0, 6), None);
    let declared = layout.count() == 1 && layout.shape(0).left.as_slice().len() == 2;
    assert!(rt; declared);
    Ok(())
}

#[test]
fn bad_bounds_are_named_by_their_line(rt: HostRuntime) -> Result<(), Fail> {
    let alloc = rt.alloc();
    let zero = ordinary(alloc, &[], numbers(alloc, &[3, 0])?)?;
    assert_eq!(rt; outcome_of(one(alloc, zero, 1)), Outcome::Bound(7));
    for (op, value, nodes, want) in [
        (Binary::Sub, 4, 4, Outcome::Bound(9)),
        (Binary::Sub, 4, 3, Outcome::Bound(9)),
        (Binary::Sub, 4, 5, Outcome::Made),
        (Binary::Add, i64::MAX, 1, Outcome::Bound(9)),
        (Binary::Div, 0, 1, Outcome::Bound(9)),
        (Binary::Mul, 16384, 4, Outcome::Made),
        (Binary::Mul, 16385, 4, Outcome::Cells(65540)),
    ] {
        let shape = ordinary(alloc, &[], procs_alone(alloc, op, value)?)?;
        assert_eq!(rt;
            outcome_of(one(alloc, shape, nodes)),
            want,
            "PROCS and {value} on {nodes}"
        );
    }
    Ok(())
}

#[test]
fn too_many_cells_are_counted_on_the_fullest_node(rt: HostRuntime) -> Result<(), Fail> {
    let alloc = rt.alloc();
    let row = 1i64 << 62;
    for (left, right, nodes, want) in [
        (65536, 1, 1, Outcome::Made),
        (65537, 1, 1, Outcome::Cells(65537)),
        (131072, 1, 2, Outcome::Made),
        (131073, 1, 2, Outcome::Cells(65537)),
        (3, 32769, 2, Outcome::Cells(65538)),
        (row, 32, 16, Outcome::Cells(1 << 63)),
        (row, row, 16, Outcome::Cells(u64::MAX)),
    ] {
        let shape = spread(alloc, &[left], &[right])?;
        assert_eq!(rt;
            outcome_of(one(alloc, shape, nodes)),
            want,
            "{left} and {right} on {nodes}"
        );
    }
    let wide = spread(alloc, &[1 << 33, 1 << 33], &[])?;
    assert_eq!(rt; outcome_of(one(alloc, wide, 16)), Outcome::Cells(1 << 62));
    Ok(())
}

#[test]
fn objects_are_refused_before_bounds_and_bounds_before_cells(rt: HostRuntime) -> Result<(), Fail> {
    let alloc = rt.alloc();
    for (count, bound, want) in [
        (257, 0, Outcome::Objects(257)),
        (256, 0, Outcome::Bound(7)),
        (256, 256, Outcome::Made),
        (256, 257, Outcome::Cells(65792)),
    ] {
        let shapes = alike(alloc, count, bound)?;
        assert_eq!(rt;
            outcome_of(layout(alloc, shapes.as_slice(), 1)),
            want,
            "{count} of {bound}"
        );
    }
    let bad = ordinary(alloc, &[], numbers(alloc, &[0])?)?;
    let shapes = and_one(alike(alloc, 1, 65537)?, bad)?;
    assert_eq!(rt;
        outcome_of(layout(alloc, shapes.as_slice(), 1)),
        Outcome::Bound(7)
    );
    Ok(())
}

#[test]
fn a_pointer_past_the_end_is_formed_and_not_used(rt: HostRuntime) -> Result<(), Fail> {
    let layout = one(rt.alloc(), spread(rt.alloc(), &[5], &[])?, 2)?;
    let last = Place {
        object: 0,
        node: 0,
        offset: 2,
    };
    for (pointer, want) in [
        (to(0, 2), Ok(last)),
        (to(1, 2), Err(FaultKind::Index)),
        (to(0, 3), Err(FaultKind::Index)),
        (Value::Null, Err(FaultKind::NullUse)),
    ] {
        assert_eq!(rt; used(&layout, pointer), Some(want), "{pointer:?}");
    }
    Ok(())
}

#[test]
fn spread_steps_go_over_the_nodes(rt: HostRuntime) -> Result<(), Fail> {
    let layout = one(rt.alloc(), spread(rt.alloc(), &[5], &[])?, 2)?;
    for (pointer, by, want) in [
        (to(0, 2), 1, Ok(to(1, 2))),
        (to(1, 2), -5, Ok(to(0, 0))),
        (to(1, 2), -6, Err(FaultKind::Index)),
        (to(1, 0), 3, Ok(to(0, 2))),
        (to(0, 0), i64::MAX, Err(FaultKind::Index)),
        (to(0, 0), 131073, Ok(to(1, 65536))),
        (to(0, 0), 131074, Err(FaultKind::Index)),
        (Value::Null, 0, Err(FaultKind::NullUse)),
    ] {
        assert_eq!(rt;
            step_spread(&layout, pointer, by),
            Some(want),
            "{pointer:?} by {by}"
        );
    }
    Ok(())
}

#[test]
fn global_steps_stay_on_their_node(rt: HostRuntime) -> Result<(), Fail> {
    let layout = one(rt.alloc(), spread(rt.alloc(), &[5], &[])?, 2)?;
    for (pointer, by, want) in [
        (to(1, 1), 1, Ok(to(1, 2))),
        (to(1, 1), -1, Ok(to(1, 0))),
        (to(1, 1), -2, Err(FaultKind::Index)),
        (to(1, 0), 65536, Ok(to(1, 65536))),
        (to(1, 0), 65537, Err(FaultKind::Index)),
        (Value::Null, 0, Err(FaultKind::NullUse)),
    ] {
        assert_eq!(rt;
            step_global(&layout, pointer, by),
            Some(want),
            "{pointer:?} by {by}"
        );
    }
    Ok(())
}

#[test]
fn nodes_of_pointers_and_null(rt: HostRuntime) -> Result<(), Fail> {
    let layout = one(rt.alloc(), spread(rt.alloc(), &[5], &[])?, 2)?;
    for (node, pointer, want) in [
        (1, to(0, 2), Ok(to(1, 2))),
        (2, to(0, 2), Err(FaultKind::BadNode)),
        (-1, Value::Null, Err(FaultKind::BadNode)),
        (1, Value::Null, Ok(Value::Null)),
    ] {
        assert_eq!(rt;
            toglobal(&layout, node, pointer),
            Some(want),
            "{pointer:?} to {node}"
        );
    }
    for (pointer, home, node) in [
        (to(1, 2), to(0, 2), Ok(1)),
        (Value::Null, Value::Null, Err(FaultKind::NullUse)),
    ] {
        assert_eq!(rt; local(&layout, pointer), Some((home, node)), "{pointer:?}");
    }
    Ok(())
}

#[test]
fn a_cell_takes_values_of_its_type(rt: HostRuntime) -> Result<(), Fail> {
    let alloc = rt.alloc();
    let pointer = ordinary(alloc, &[Star::Global], numbers(alloc, &[])?)?;
    let shapes = and_one(alike(alloc, 1, 2)?, pointer)?;
    let layout = layout(alloc, shapes.as_slice(), 2)?;
    let cell = Value::Ptr {
        object: 0,
        node: 1,
        offset: 70000,
    };
    let other = Value::Ptr {
        object: 1,
        node: 1,
        offset: 0,
    };
    let nowhere = Value::Ptr {
        object: 0,
        node: 2,
        offset: 0,
    };
    for (value, number, pointer) in [
        (Value::Int(-3), true, false),
        (Value::Null, false, true),
        (cell, false, true),
        (other, false, false),
        (nowhere, false, false),
        (
            Value::Ptr {
                object: 2,
                node: 0,
                offset: 0,
            },
            false,
            false,
        ),
    ] {
        assert_eq!(rt;
            fits(&layout, 0, value),
            Some(number),
            "{value:?} as a number"
        );
        assert_eq!(rt;
            fits(&layout, 1, value),
            Some(pointer),
            "{value:?} as a pointer"
        );
    }
    Ok(())
}
