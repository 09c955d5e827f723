//! The tests of a bulk transfer.

ghost use Rattle.std.specs.Prelude.{◌≡◌, ◌^◌, ◌<◌, [], ◌∷◌, IsTrue};
ghost use Rattle.sc_isa.specs.Deeds.{copy, done, copied, spanned};
ghost use Rattle.sc_isa.specs.Pure.{is_pointer};
ghost use Rattle.node_values.specs.Plain.{plain_copy};

use crate::computing::is_pointer;
use crate::places::span;
use sc_base::{FaultKind, Place, Value};
use sc_layout::Layout;

/// What a bulk transfer comes to: nothing, where it has no bytes; a copy; a fault; or that the operands are of a wrong
/// kind.
#[derive(Clone, Copy, Debug, PartialEq, Eq)]
pub enum Copying {
    Nothing,
    Copies { from: Place, to: Place, cells: u32 },
    Fails(FaultKind),
    Wrong,
}

/// The tests of a transfer of so many bytes: of the bytes, then of the destination wholly, then of the source.
pub fn bulk(layout: &Layout, to: Value, from: Value, bytes: Value) -> Copying
    ensures { plain_copy result ≡ done layout.now copy (to ∷ from ∷ bytes ∷ []) }
{
    let Value::Int(bytes) = bytes else {
        return Copying::Wrong;
    };
    if !is_pointer(layout, to) {
        return Copying::Wrong;
    }
    if !is_pointer(layout, from) {
        return Copying::Wrong;
    }
    match u64::try_from(bytes) {
        Err(_) => Copying::Fails(FaultKind::BadSize),
        Ok(0) => Copying::Nothing,
        Ok(bytes) if bytes % 8 != 0 => Copying::Fails(FaultKind::BadSize),
        Ok(bytes) => spans(layout, to, from, bytes / 8),
    }
}

/// The tests of both places, for so many cells.
fn spans(layout: &Layout, to: Value, from: Value, cells: u64) -> Copying
    requires few { cells < 2 ^ 63 }
    requires to { IsTrue (is_pointer layout.now to) }
    requires from { IsTrue (is_pointer layout.now from) }
    ensures { plain_copy result ≡ copied layout.now cells (spanned layout.now cells to) from }
{
    match span(layout, cells, to) {
        Err(kind) => Copying::Fails(kind),
        Ok(to) => match span(layout, cells, from) {
            Err(kind) => Copying::Fails(kind),
            Ok(from) => Copying::Copies {
                from,
                to,
                cells: cells as u32,
            },
        },
    }
}
