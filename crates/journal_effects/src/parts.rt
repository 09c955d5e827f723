//! The part of an access that comes next.

ghost use Rattle.std.specs.Prelude.{◌≡◌, ◌+◌, ◌≤◌, ◌^◌, Some, None, true, false, nat_lt, if◌then◌else◌};
ghost use Rattle.std.specs.Option.{option_map};
ghost use Rattle.effect_order.specs.Transfer.{further, part_place, part_value, written};
ghost use Rattle.sc_layout.specs.Start.{start};
ghost use Rattle.fabric.specs.Access.{transfer_of};
ghost use Rattle.fabric.specs.Effects.{reading, writing, unless_occurred, due};
ghost use Rattle.journal_effects.specs.Numbered.{HasNumberedCells};
ghost use Rattle.journal_effects.specs.Occurred.{effect_of};

use crate::effect::CellEffect;
use crate::occurred::Occurred;
use sc_base::{Place, Value};
use sc_isa::Access;
use sc_layout::Layout;

/// The cell so many cells further on, if it is one of the first so many.
fn cell_of(first: Place, cells: u32, cell: u32) -> Option<Place>
    requires { first.offset + cells ≤ 2 ^ 32 }
    ensures { result ≡ (if nat_lt cell cells then Some (further cell first) else None) }
{
    if cell < cells {
        Some(Place {
            object: first.object,
            node: first.node,
            offset: first.offset + cell,
        })
    } else {
        None
    }
}

/// Where the access reads the cell, if it does.
fn place_read(access: Access, cell: u32) -> Option<Place>
    requires { HasNumberedCells access }
    ensures { result ≡ part_place (transfer_of access) cell false }
{
    match access {
        Access::Read { place, .. } => cell_of(place, 1, cell),
        Access::Write { .. } => None,
        Access::Copy { from, cells, .. } => cell_of(from, cells, cell),
    }
}

/// Where the access writes the cell, if it does.
fn place_written(access: Access, cell: u32) -> Option<Place>
    requires { HasNumberedCells access }
    ensures { result ≡ part_place (transfer_of access) cell true }
{
    match access {
        Access::Read { .. } => None,
        Access::Write { place, .. } => cell_of(place, 1, cell),
        Access::Copy { to, cells, .. } => cell_of(to, cells, cell),
    }
}

/// What the access writes to the cell, if that is known: its value, or what the cell was read as.
fn value_written(
    occurred: &Occurred,
    access: Access,
    node: u32,
    number: u64,
    cell: u32,
) -> Option<Value>
    ensures { result ≡ written (transfer_of access) node number cell occurred.now }
{
    match access {
        Access::Write { value, .. } => Some(value),
        Access::Read { .. } => occurred.part_value(node, number, cell, false),
        Access::Copy { .. } => occurred.part_value(node, number, cell, false),
    }
}

/// The part that reads the cell at the place, if there is one, as the effect that it has now.
fn reading(
    occurred: &Occurred,
    layout: &Layout,
    place: Option<Place>,
    node: u32,
    number: u64,
    cell: u32,
) -> Option<CellEffect>
    ensures { option_map effect_of result ≡ reading (start layout.now) node number cell occurred.now place }
{
    match place {
        Some(place) => Some(CellEffect {
            node,
            number,
            cell,
            wrote: false,
            place,
            value: occurred.held(layout, place),
        }),
        None => None,
    }
}

/// The part that writes the value to the cell at the place, if both are there.
fn writing(
    place: Option<Place>,
    value: Option<Value>,
    node: u32,
    number: u64,
    cell: u32,
) -> Option<CellEffect>
    ensures { option_map effect_of result ≡ writing node number cell place value }
{
    match (place, value) {
        (Some(place), Some(value)) => Some(CellEffect {
            node,
            number,
            cell,
            wrote: true,
            place,
            value,
        }),
        _ => None,
    }
}

/// The reading part of the cell, unless it has occurred.
fn reading_due(
    occurred: &Occurred,
    layout: &Layout,
    access: Access,
    node: u32,
    number: u64,
    cell: u32,
) -> Option<CellEffect>
    requires { HasNumberedCells access }
    ensures { option_map effect_of result ≡ unless_occurred (part_value node number cell false occurred.now)
        (reading (start layout.now) node number cell occurred.now (part_place (transfer_of access) cell false)) }
{
    match occurred.part_value(node, number, cell, false) {
        Some(_) => None,
        None => {
            let place = place_read(access, cell);
            reading(occurred, layout, place, node, number, cell)
        }
    }
}

/// The writing part of the cell, unless it has occurred, where it is known what it writes.
fn writing_due(
    occurred: &Occurred,
    access: Access,
    node: u32,
    number: u64,
    cell: u32,
) -> Option<CellEffect>
    requires { HasNumberedCells access }
    ensures { option_map effect_of result ≡ unless_occurred (part_value node number cell true occurred.now)
        (writing node number cell (part_place (transfer_of access) cell true) (written (transfer_of access) node number cell occurred.now)) }
{
    match occurred.part_value(node, number, cell, true) {
        Some(_) => None,
        None => {
            let place = place_written(access, cell);
            let value = value_written(occurred, access, node, number, cell);
            writing(place, value, node, number, cell)
        }
    }
}

/// The part of the cell that comes next: its reading part, and then its writing part.
pub fn due(
    occurred: &Occurred,
    layout: &Layout,
    access: Access,
    node: u32,
    number: u64,
    cell: u32,
) -> Option<CellEffect>
    requires { HasNumberedCells access }
    ensures { option_map effect_of result ≡ due (start layout.now) (transfer_of access) node number cell occurred.now }
{
    match reading_due(occurred, layout, access, node, number, cell) {
        Some(effect) => Some(effect),
        None => writing_due(occurred, access, node, number, cell),
    }
}
