//! The cell of an object at its indices.

ghost use Rattle.std.specs.Prelude.{◌≡◌, ℕ, ◌+◌, ◌<◌, ◌^◌, map, length};
ghost use Rattle.sc_layout.specs.Place.{bound_at};
ghost use Rattle.node_values.specs.Elements.{plain_flat, bounds_of, next_flat, last_flat, short_flat, element_of};
ghost use Rattle.node_values.specs.Operands.{int_in};
ghost use Rattle.node_values.specs.Plain.{plain};

use crate::computing::Outcome;
use crate::printing::are_ints;
use sc_base::{FaultKind, Value};
use sc_isa::Operand;
use sc_layout::Layout;

/// A flat index, as far as it fits a word; or that an index is past its bound, or that there are too few or too many.
#[derive(Clone, Copy, Debug)]
pub enum Flat {
    Within(u64),
    Outside,
    Amiss,
}

/// By one more index.
fn add_index(layout: &Layout, object: u32, dimension: u32, operand: Operand, flat: u64) -> Flat
    requires { object < length layout.now.objects }
    ensures { plain_flat result ≡ next_flat (bound_at layout.now object dimension) (int_in operand) flat }
{
    let Some(bound) = layout.bound(object, dimension) else {
        return Flat::Amiss;
    };
    let number = match operand {
        Operand::Here(Value::Int(number)) => number,
        _ => 0,
    };
    match u64::try_from(number) {
        Ok(index) if index < bound => {
            Flat::Within(flat.saturating_mul(bound).saturating_add(index))
        }
        _ => Flat::Outside,
    }
}

/// After all indices; a missing last one is 0.
fn end_indices(layout: &Layout, object: u32, dimension: u32, flat: u64) -> Flat
    requires object { object < length layout.now.objects }
    requires few { dimension + 1 < 2 ^ 32 }
    ensures { plain_flat result ≡ last_flat (bound_at layout.now object dimension)
        (bound_at layout.now object (dimension + 1)) flat }
{
    let Some(bound) = layout.bound(object, dimension) else {
        return Flat::Within(flat);
    };
    match layout.bound(object, dimension + 1) {
        None => Flat::Within(flat.saturating_mul(bound)),
        Some(_) => Flat::Amiss,
    }
}

/// The flat index by Horner's rule, each index tested against its own bound in their order.
fn flat_index(layout: &Layout, object: u32, operands: &[Operand]) -> Flat
    requires object { object < length layout.now.objects }
    requires few { length operands.now + 1 < 2 ^ 32 }
    ensures { plain_flat result ≡ short_flat (bounds_of layout.now object) (map int_in operands.now) 0 }
{
    let mut flat: u64 = 0;
    for (dimension, operand) in operands.iter().enumerate() {
        match add_index(layout, object, dimension as u32, *operand, flat) {
            Flat::Within(next) => flat = next,
            Flat::Outside => return Flat::Outside,
            Flat::Amiss => return Flat::Amiss,
        }
    }
    end_indices(layout, object, operands.len() as u32, flat)
}

/// A pointer to the object's cell at these indices, each tested against its own bound; a missing last index is 0. Of
/// an ordinary object it is a local pointer, whose node is 0.
pub fn element(layout: &Layout, object: u32, operands: &[Operand]) -> Outcome
    requires { length operands.now + 1 < 2 ^ 32 }
    ensures { plain result ≡ element_of layout.now object operands.now }
{
    let _nodes = layout.nodes();
    if object >= layout.count() || !are_ints(operands) {
        return Outcome::Wrong;
    }
    match flat_index(layout, object, operands) {
        Flat::Within(flat) => match layout.place_of(0, object, flat) {
            Some(place) => Outcome::Gives(Value::Ptr {
                object: place.object,
                node: place.node,
                offset: place.offset,
            }),
            None => Outcome::Fails(FaultKind::Index),
        },
        Flat::Outside => Outcome::Fails(FaultKind::Index),
        Flat::Amiss => Outcome::Wrong,
    }
}
