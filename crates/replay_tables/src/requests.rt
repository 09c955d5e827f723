//! What a request moves, and how it is waited for.

ghost use Rattle.std.specs.Prelude.{◌≡◌};
ghost use Rattle.effect_order.specs.Transfer.{side, part_place, further};
ghost use Rattle.effect_order.specs.Effect.{same_value, same_place};
ghost use Rattle.sc_meaning.specs.Parts.{transfer_of, is_issued, is_get, is_blocking_copy, is_split, is_one_way};
ghost use Rattle.sc_meaning.specs.Test.{holds_place, is_read_of, is_write_of, is_sync, is_barrier};
ghost use Rattle.replay_books.specs.Entry.{parts_of};
ghost use Rattle.replay_books.specs.Row.{is_of};

use sc_base::{CopyMode, Place, Value};
use sc_meaning::Request;

/// Whether the two are one value.
pub fn same_value(a: Value, b: Value) -> bool
    ensures { result ≡ same_value a b }
{
    match a {
        Value::Int(n) => matches!(b, Value::Int(m) if n == m),
        Value::Null => matches!(b, Value::Null),
        Value::Ptr {
            object,
            node,
            offset,
        } => match b {
            Value::Ptr {
                object: other_object,
                node: other_node,
                offset: other_offset,
            } => object == other_object && node == other_node && offset == other_offset,
            _ => false,
        },
    }
}

/// Whether the two are one cell.
pub fn same_place(a: Place, b: Place) -> bool
    ensures { result ≡ same_place a b }
{
    a.object == b.object && a.node == b.node && a.offset == b.offset
}

/// Whether the request is one that is waited for in this way.
pub fn is_of(mode: CopyMode, request: Request) -> bool
    ensures { result ≡ is_of mode request }
{
    match mode {
        CopyMode::Blocking => is_blocking_copy(request),
        CopyMode::Split => is_split(request),
        CopyMode::OneWay => is_one_way(request),
    }
}

/// Whether the request is a blocking copy.
fn is_blocking_copy(request: Request) -> bool
    ensures { result ≡ is_blocking_copy request }
{
    match request {
        Request::Copy { mode, .. } => matches!(mode, CopyMode::Blocking),
        _ => false,
    }
}

/// Whether the next sync waits for the request.
fn is_split(request: Request) -> bool
    ensures { result ≡ is_split request }
{
    match request {
        Request::Get { .. } | Request::Put { .. } => true,
        Request::Copy { mode, .. } => matches!(mode, CopyMode::Split),
        _ => false,
    }
}

/// Whether a barrier with stores waits for the request.
fn is_one_way(request: Request) -> bool
    ensures { result ≡ is_one_way request }
{
    match request {
        Request::Store { .. } => true,
        Request::Copy { mode, .. } => matches!(mode, CopyMode::OneWay),
        _ => false,
    }
}

/// Whether the request is issued, and has its effects as events of their own.
pub fn is_issued(request: Request) -> bool
    ensures { result ≡ is_issued request }
{
    match request {
        Request::Get { .. } | Request::Put { .. } | Request::Store { .. } | Request::Copy { .. } =>
            true,
        _ => false,
    }
}

/// Whether the request is a get.
pub fn is_get(request: Request) -> bool
    ensures { result ≡ is_get request }
{
    matches!(request, Request::Get { .. })
}

/// Whether the request is a read of the place.
pub fn is_read_of(request: Request, place: Place) -> bool
    ensures { result ≡ is_read_of place request }
{
    match request {
        Request::Read { place: other, .. } => same_place(place, other),
        _ => false,
    }
}

/// Whether the request is a write of the value to the place.
pub fn is_write_of(request: Request, place: Place, value: Value) -> bool
    ensures { result ≡ is_write_of place value request }
{
    match request {
        Request::Write {
            place: other,
            value: v,
            ..
        } => same_place(place, other) && same_value(value, v),
        _ => false,
    }
}

/// Whether the request is a sync.
pub fn is_sync(request: Request) -> bool
    ensures { result ≡ is_sync request }
{
    matches!(request, Request::Sync { .. })
}

/// Whether the request is a barrier, and waits for stores or not as it is said.
pub fn is_barrier(request: Request, stores: bool) -> bool
    ensures { result ≡ is_barrier stores request }
{
    match request {
        Request::AllStoreSync { .. } => stores,
        Request::Barrier { .. } => !stores,
        _ => false,
    }
}

/// How many parts of an issued request read, or write; none of any other request.
pub fn parts_of(request: Request, wrote: bool) -> u32
    ensures { result ≡ parts_of request wrote }
{
    match request {
        Request::Get { .. } => u32::from(!wrote),
        Request::Put { .. } | Request::Store { .. } => u32::from(wrote),
        Request::Copy { cells, .. } => cells,
        _ => 0,
    }
}

/// How many cells the request moves.
fn cells_of(request: Request) -> u32
    ensures { result ≡ (transfer_of request).cells }
{
    match request {
        Request::Read { .. }
        | Request::Write { .. }
        | Request::Get { .. }
        | Request::Put { .. }
        | Request::Store { .. } => 1,
        Request::Copy { cells, .. } => cells,
        _ => 0,
    }
}

/// The first cell that the request reads, or writes.
fn base_of(request: Request, wrote: bool) -> Option<Place>
    ensures { result ≡ side (transfer_of request) wrote }
{
    match request {
        Request::Read { place, .. } | Request::Get { place, .. } => {
            if wrote { None } else { Some(place) }
        }
        Request::Write { place, .. } | Request::Put { place, .. } | Request::Store { place, .. } =>
            { if wrote { Some(place) } else { None } }
        Request::Copy { from, to, .. } => { if wrote { Some(to) } else { Some(from) } }
        _ => None,
    }
}

/// The value that the request writes, if it is not one that is read.
pub fn given_value(request: Request) -> Option<Value>
    ensures { result ≡ (transfer_of request).value }
{
    match request {
        Request::Write { value, .. } | Request::Put { value, .. } | Request::Store { value, .. } =>
            Some(value),
        _ => None,
    }
}

/// Whether the place is that of the request's part for this cell, which reads or writes.
pub fn is_part_place(request: Request, cell: u32, wrote: bool, place: Place) -> bool
    ensures { result ≡ holds_place place (part_place (transfer_of request) cell wrote) }
{
    if cell >= cells_of(request) {
        return false;
    }
    match base_of(request, wrote) {
        Some(base) => is_further(base, cell, place),
        None => false,
    }
}

/// Whether the place is so many cells further on than the base.
fn is_further(base: Place, cells: u32, place: Place) -> bool
    ensures { result ≡ same_place place (further cells base) }
{
    place.object == base.object
        && place.node == base.node
        && u64::from(place.offset) == u64::from(base.offset) + u64::from(cells)
}
