//! Items in the least order that edges allow.

ghost use Rattle.std.specs.Prelude.{◌≡◌, ◌<◌, All, IfOk, length, map};
ghost use Rattle.least_order.specs.Least.{IsWithin};
ghost use Rattle.journal_order.specs.Ordering.{item_at, arranged};

use least_order::{Edge, least_order};
use sc_base::OutOfMemory;
use sc_meaning::{SourceEvent, SourceHistory};
use std::alloc::{AllocError, Global};

/// The items with these numbers.
fn with_numbers(
    alloc: Global,
    items: &[SourceEvent],
    numbers: &[usize],
) -> Result<Vec<SourceEvent>, AllocError>
    requires { All (λ number. number < length items.now) numbers.now }
    ensures { IfOk result (λ events. events.items ≡ map (item_at items.now) numbers.now) }
{
    let mut events = Vec::with_capacity(alloc, numbers.len())?;
    for number in numbers {
        events.push(items[*number])?;
    }
    Ok(events)
}

/// The items in their least order by these edges between their places in the list: again and again the first item before
/// which no item that is left has to come. None where a cycle holds some back.
pub fn arrange(
    alloc: Global,
    items: &[SourceEvent],
    edges: &[Edge],
) -> Result<Option<SourceHistory>, OutOfMemory>
    requires { All (IsWithin (length items.now)) edges.now }
    ensures { IfOk result (λ found. found ≡ arranged items.now edges.now) }
{
    let Some(numbers) = least_order(alloc, items.len(), edges)? else {
        return Ok(None);
    };
    match with_numbers(alloc, items, numbers.as_slice()) {
        Ok(events) => Ok(Some(SourceHistory::from_vec(events))),
        Err(_) => Err(OutOfMemory),
    }
}
