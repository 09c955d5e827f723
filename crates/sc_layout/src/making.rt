//! The making of a layout.

ghost use Rattle.std.specs.Prelude.{◌≡◌, ◌<◌, ◌-◌, ◌^◌, Ok, MatchResult, min};
ghost use Rattle.std.specs.List.{All, sum_by};
ghost use Rattle.sc_layout.specs.Layout.{IsLawful, IsCause, layout_of, each_of, object_of, cells_of};

use crate::error::LayoutError;
use crate::layouts::Layout;
use crate::objects::Object;
use sc_base::{LIMITS, Shape};
use std::alloc::Global;

#[tactic(auto, unfolding(crate::specs::Layout::layout_of))]
/// The layout of the declared objects on the nodes, or the first refusal, in the order in which `LayoutError` has
/// them.
pub fn layout(alloc: Global, shapes: &[Shape], nodes: u32) -> Result<Layout, LayoutError>
    requires some_node { 0 < nodes }
    requires lawful { All IsLawful shapes.now }
    ensures { let answer = layout_of shapes.now nodes in MatchResult result (λ l. answer ≡ Ok l) (λ e. IsCause e answer) }
{
    if shapes.len() as u64 > LIMITS.objects {
        return Err(LayoutError::TooManyObjects {
            count: narrowed(shapes.len()),
        });
    }
    let objects = objects_of(alloc, shapes, nodes)?;
    let cells = cells_on_fullest(objects.as_slice(), nodes);
    if cells > LIMITS.cells {
        return Err(LayoutError::TooManyCells { cells });
    }
    Ok(Layout::of(nodes, objects))
}

fn narrowed(count: usize) -> u32
    ensures { result ≡ min count (2 ^ 32 - 1) }
{
    u32::try_from(count).unwrap_or(u32::MAX)
}

fn objects_of(alloc: Global, shapes: &[Shape], nodes: u32) -> Result<Vec<Object>, LayoutError>
    ensures { let answer = each_of (object_of nodes) shapes.now in MatchResult result (λ v. answer ≡ Ok v.items) (λ e. IsCause e answer) }
{
    let mut objects = Vec::new(alloc);
    for shape in shapes {
        let object = Object::of(alloc, shape, nodes)?;
        objects.push(object)?;
    }
    Ok(objects)
}

/// The cells on node 0, which has the most, or `2^64 - 1` where there are more.
fn cells_on_fullest(objects: &[Object], nodes: u32) -> u64
    requires { 0 < nodes }
    ensures { result ≡ min (sum_by (λ o. cells_of nodes o 0) objects.now) (2 ^ 64 - 1) }
{
    let mut cells = 0u64;
    for object in objects {
        cells = cells.saturating_add(object.first_cells(nodes));
    }
    cells
}
