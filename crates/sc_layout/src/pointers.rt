//! The arithmetic of pointers.

ghost use Rattle.std.specs.Prelude.{◌≡◌};
ghost use Rattle.sc_layout.specs.Pointer.{IsPointer, used_place, global_step, spread_step, pointer_at, with_node, global_of, node_of};

use crate::layouts::Layout;
use sc_base::{FaultKind, LIMITS, Place, Value};

impl Layout {
    /// The place that the pointer is used at: NullUse for null, and Index at or past the object's extent on the
    /// pointer's node.
    pub fn place_at(&self, pointer: Value) -> Result<Place, FaultKind>
        requires { IsPointer self.now pointer }
        ensures { result ≡ used_place self.now pointer }
    {
        match pointer {
            Value::Ptr {
                object,
                node,
                offset,
            } if offset < self.extent(node, object) => Ok(Place {
                object,
                node,
                offset,
            }),
            Value::Ptr { .. } => Err(FaultKind::Index),
            _ => Err(FaultKind::NullUse),
        }
    }

    /// The pointer `by` cells on, on its node: NullUse for null, and Index for an offset below 0 or above the
    /// limit on cells.
    pub fn step_global(&self, pointer: Value, by: i64) -> Result<Value, FaultKind>
        requires { IsPointer self.now pointer }
        ensures { result ≡ global_step pointer by }
    {
        match pointer {
            Value::Ptr {
                object,
                node,
                offset,
            } => match u64::from(offset).checked_add_signed(by) {
                Some(moved) => checked_pointer(object, node, moved),
                None => Err(FaultKind::Index),
            },
            _ => Err(FaultKind::NullUse),
        }
    }

    /// The pointer `by` cells on in cyclic order over the nodes: NullUse for null, and Index where that is
    /// before the first cell of node 0 or at an offset above the limit on cells.
    pub fn step_spread(&self, pointer: Value, by: i64) -> Result<Value, FaultKind>
        requires { IsPointer self.now pointer }
        ensures { result ≡ spread_step self.now.nodes pointer by }
    {
        let nodes = u64::from(self.nodes());
        match pointer {
            Value::Ptr {
                object,
                node,
                offset,
            } => {
                let from = u64::from(offset) * nodes + u64::from(node);
                match from.checked_add_signed(by) {
                    Some(moved) => checked_pointer(object, (moved % nodes) as u32, moved / nodes),
                    None => Err(FaultKind::Index),
                }
            }
            _ => Err(FaultKind::NullUse),
        }
    }

    /// The pointer with this node, null where it is null, and BadNode where there is no such node.
    pub fn toglobal(&self, node: i64, pointer: Value) -> Result<Value, FaultKind>
        requires { IsPointer self.now pointer }
        ensures { result ≡ global_of self.now.nodes node pointer }
    {
        if node < 0 || node >= i64::from(self.nodes()) {
            return Err(FaultKind::BadNode);
        }
        Ok(on_node(pointer, node as u32))
    }

    /// The pointer with the node 0, and null where it is null.
    pub fn tolocal(&self, pointer: Value) -> Value
        requires { IsPointer self.now pointer }
        ensures { result ≡ with_node 0 pointer }
    {
        on_node(pointer, 0)
    }

    /// The pointer's node, and NullUse for null.
    pub fn toproc(&self, pointer: Value) -> Result<i64, FaultKind>
        requires { IsPointer self.now pointer }
        ensures { result ≡ node_of pointer }
    {
        match pointer {
            Value::Ptr { node, .. } => Ok(i64::from(node)),
            _ => Err(FaultKind::NullUse),
        }
    }
}

fn on_node(pointer: Value, node: u32) -> Value
    ensures { result ≡ with_node node pointer }
{
    match pointer {
        Value::Ptr { object, offset, .. } => Value::Ptr {
            object,
            node,
            offset,
        },
        other => other,
    }
}

fn checked_pointer(object: u32, node: u32, offset: u64) -> Result<Value, FaultKind>
    ensures { result ≡ pointer_at object node offset }
{
    if offset <= LIMITS.cells {
        Ok(Value::Ptr {
            object,
            node,
            offset: offset as u32,
        })
    } else {
        Err(FaultKind::Index)
    }
}
