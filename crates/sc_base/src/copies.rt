//! Copies of types and shapes, for those that keep a source's declarations as their own.

ghost use Rattle.std.specs.Prelude.{◌≡◌, IfOk};

use crate::shape::{Bound, BoundSteps, Bounds, Shape, Stars, Ty};
use std::alloc::{AllocError, Global};

/// A type equal to this one, in memory of its own. The error is want of memory.
pub fn copy_of_type(alloc: Global, ty: &Ty) -> Result<Ty, AllocError>
    ensures { IfOk result (λ copy. copy ≡ ty.now) }
{
    let stars = Vec::from_slice(alloc, ty.stars.as_slice())?;
    Ok(Ty {
        void: ty.void,
        stars: Stars::from_vec(stars),
    })
}

/// A shape equal to this one, in memory of its own. The error is want of memory.
pub fn copy_of_shape(alloc: Global, shape: &Shape) -> Result<Shape, AllocError>
    ensures { IfOk result (λ copy. copy ≡ shape.now) }
{
    Ok(Shape {
        name: shape.name,
        ty: copy_of_type(alloc, &shape.ty)?,
        spread: shape.spread,
        left: copy_of_bounds(alloc, &shape.left)?,
        right: copy_of_bounds(alloc, &shape.right)?,
        at: shape.at,
        line: shape.line,
    })
}

/// The shapes in their order, each copied. The error is want of memory.
pub fn copy_of_shapes(alloc: Global, shapes: &[Shape]) -> Result<Vec<Shape>, AllocError>
    ensures { IfOk result (λ copies. copies.items ≡ shapes.now) }
{
    let mut copies = Vec::new(alloc);
    for shape in shapes {
        copies.push(copy_of_shape(alloc, shape)?)?;
    }
    Ok(copies)
}

fn copy_of_bounds(alloc: Global, bounds: &Bounds) -> Result<Bounds, AllocError>
    ensures { IfOk result (λ copy. copy ≡ bounds.now) }
{
    let mut copies = Vec::new(alloc);
    for bound in bounds.as_slice() {
        copies.push(copy_of_bound(alloc, bound)?)?;
    }
    Ok(Bounds::from_vec(copies))
}

fn copy_of_bound(alloc: Global, bound: &Bound) -> Result<Bound, AllocError>
    ensures { IfOk result (λ copy. copy ≡ bound.now) }
{
    let steps = Vec::from_slice(alloc, bound.steps.as_slice())?;
    Ok(Bound {
        steps: BoundSteps::from_vec(steps),
        line: bound.line,
    })
}
