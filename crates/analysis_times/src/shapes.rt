//! The objects of the program that is analysed.

ghost use Rattle.std.specs.Prelude.{◌≡◌, ◌<◌, IfOk, false, length};
ghost use Rattle.std.specs.List.{All};
ghost use Rattle.sc_layout.specs.Bound.{IsWhole};
ghost use Rattle.sc_layout.specs.Layout.{IsLawful};

use sc_base::{Bound, BoundStep, BoundSteps, Bounds, Shape, Stars, Ty};
use sc_layout::{Layout, LayoutError, layout};
use std::alloc::{AllocError, Global};

/// How many objects `objects` has.
pub const OBJECTS: u32 = 8;

/// Four spread objects of 1,000 blocks of 4 cells, and four of 100 cells on each node.
pub fn objects(alloc: Global, nodes: u32) -> Result<Layout, LayoutError>
    requires { 0 < nodes }
{
    let mut shapes = Vec::new(alloc);
    for _ in 0..4 {
        shapes = and_one(shapes, spread(alloc, &[1_000], &[4])?)?;
    }
    for _ in 4..OBJECTS {
        shapes = and_one(shapes, ordinary(alloc, numbers(alloc, &[100])?))?;
    }
    layout(alloc, shapes.as_slice(), nodes)
}

fn number(alloc: Global, value: i64) -> Result<Bound, AllocError>
    ensures { IfOk result (λ b. IsWhole b.steps) }
{
    let mut steps = Vec::new(alloc);
    steps.push(BoundStep::Number(value))?;
    Ok(Bound {
        steps: BoundSteps::from_vec(steps),
        line: 1,
    })
}

fn numbers(alloc: Global, values: &[i64]) -> Result<Bounds, AllocError>
    ensures whole { IfOk result (λ bs. All (λ b. IsWhole b.steps) bs) }
    ensures count { IfOk result (λ bs. length bs ≡ length values.now) }
{
    let mut bounds = Vec::new(alloc);
    for value in values {
        let bound = number(alloc, *value)?;
        bounds.push(bound)?;
    }
    Ok(Bounds::from_vec(bounds))
}

fn int_type(alloc: Global) -> Ty
    ensures { result.void ≡ false }
{
    Ty {
        void: false,
        stars: Stars::from_vec(Vec::new(alloc)),
    }
}

fn ordinary(alloc: Global, bounds: Bounds) -> Shape
    requires { All (λ b. IsWhole b.steps) bounds }
    ensures { IsLawful result }
{
    Shape {
        name: 0,
        ty: int_type(alloc),
        spread: false,
        left: bounds,
        right: Bounds::from_vec(Vec::new(alloc)),
        at: 1,
        line: 1,
    }
}

fn spread(alloc: Global, left: &[i64], right: &[i64]) -> Result<Shape, AllocError>
    requires { 0 < length left.now }
    ensures { IfOk result IsLawful }
{
    Ok(Shape {
        name: 0,
        ty: int_type(alloc),
        spread: true,
        left: numbers(alloc, left)?,
        right: numbers(alloc, right)?,
        at: 1,
        line: 1,
    })
}

fn and_one(mut shapes: Vec<Shape>, shape: Shape) -> Result<Vec<Shape>, AllocError>
    requires lawful { All IsLawful shapes.items }
    requires one { IsLawful shape }
    ensures { IfOk result (λ all. All IsLawful all.items) }
{
    shapes.push(shape)?;
    Ok(shapes)
}
