//! The places that pointers are used at.

ghost use Rattle.std.specs.Prelude.{◌≡◌, ◌<◌, ◌^◌, IsTrue, OnOk};
ghost use Rattle.sc_isa.specs.Deeds.{spotted, spanned};
ghost use Rattle.sc_isa.specs.Pure.{is_pointer};
ghost use Rattle.node_values.specs.Plain.{plain_spot};

use crate::computing::is_pointer;
use sc_base::{FaultKind, Place, Value};
use sc_layout::Layout;

/// A place, a fault, or that the operand is no pointer.
#[derive(Clone, Copy, Debug, PartialEq, Eq)]
pub enum Spotted {
    Found(Place),
    Missing(FaultKind),
    Nowhere,
}

/// The place that the pointer is used at.
pub fn spot(layout: &Layout, pointer: Value) -> Spotted
    ensures { plain_spot result ≡ spotted layout.now pointer }
{
    if !is_pointer(layout, pointer) {
        return Spotted::Nowhere;
    }
    match layout.place_at(pointer) {
        Ok(place) => Spotted::Found(place),
        Err(kind) => Spotted::Missing(kind),
    }
}

/// The place from which the pointer is used for so many cells: NullUse for null, and Index where one of them is past
/// the object's extent on the pointer's node.
pub fn span(layout: &Layout, cells: u64, pointer: Value) -> Result<Place, FaultKind>
    requires few { cells < 2 ^ 63 }
    requires pointer { IsTrue (is_pointer layout.now pointer) }
    ensures place { result ≡ spanned layout.now cells pointer }
    ensures few { OnOk result (cells < 2 ^ 32) }
{
    match pointer {
        Value::Ptr {
            object,
            node,
            offset,
        } => {
            if u64::from(offset) + cells <= u64::from(layout.extent(node, object)) {
                Ok(Place {
                    object,
                    node,
                    offset,
                })
            } else {
                Err(FaultKind::Index)
            }
        }
        _ => Err(FaultKind::NullUse),
    }
}
