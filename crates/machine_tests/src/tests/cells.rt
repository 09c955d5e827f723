//! Objects and their layouts.

ghost use Rattle.std.specs.Prelude.{IfOk};
ghost use Rattle.std.specs.List.{All};
ghost use Rattle.sc_layout.specs.Bound.{IsWhole};
ghost use Rattle.sc_layout.specs.Layout.{IsLawful};

use sc_base::{Bound, BoundStep, BoundSteps, Bounds, Shape, Stars, Ty};
use sc_layout::{Layout, layout};
use std::alloc::{AllocError, Global};

fn number(alloc: Global, value: i64) -> Result<Bound, AllocError>
    ensures { IfOk result (λ b. IsWhole b.steps) }
{
    let mut steps = Vec::new(alloc);
    steps.push(BoundStep::Number(value))?;
    Ok(Bound {
        steps: BoundSteps::from_vec(steps),
        line: 7,
    })
}

pub fn numbers(alloc: Global, values: &[i64]) -> Result<Bounds, AllocError>
    ensures { IfOk result (λ bs. All (λ b. IsWhole b.steps) bs) }
{
    let mut bounds = Vec::new(alloc);
    for value in values {
        let bound = number(alloc, *value)?;
        bounds.push(bound)?;
    }
    Ok(Bounds::from_vec(bounds))
}

/// An ordinary object of whole numbers.
pub fn ordinary(alloc: Global, bounds: Bounds) -> Result<Shape, AllocError>
    requires { All (λ b. IsWhole b.steps) bounds }
    ensures { IfOk result IsLawful }
{
    Ok(Shape {
        name: 0,
        ty: Ty {
            void: false,
            stars: Stars::from_vec(Vec::new(alloc)),
        },
        spread: false,
        left: bounds,
        right: Bounds::from_vec(Vec::new(alloc)),
        at: 1,
        line: 1,
    })
}

/// The one object on two nodes.
pub fn on_two_nodes(alloc: Global, shape: Shape) -> Result<Option<Layout>, AllocError>
    requires { IsLawful shape }
{
    let mut shapes = Vec::new(alloc);
    shapes.push(shape)?;
    Ok(layout(alloc, shapes.as_slice(), 2).ok())
}
