//! The next of the numbers under which a table has something.

ghost use Rattle.std.specs.Prelude.{◌≡◌, IfOk, length};
ghost use Rattle.order_edges.specs.Lines.{look, or_else, next_from, Tells};

use std::alloc::{AllocError, Global};

fn or_else(found: Option<usize>, other: Option<usize>) -> Option<usize>
    ensures { result ≡ or_else found other }
{
    match found {
        Some(place) => Some(place),
        None => other,
    }
}

/// For each number what the table has under it or, where that is nothing, under the next number with something.
pub fn nexts(alloc: Global, table: &[Option<usize>]) -> Result<Vec<Option<usize>>, AllocError>
    ensures { IfOk result (λ nexts. let count = length table.now in
        Tells nexts.items count (next_from (look table.now) count)) }
{
    let mut nexts = vec![in alloc; None; table.len()]?;
    let mut next = None;
    for turn in 0..table.len() {
        let number = table.len() - 1 - turn;
        next = or_else(table[number], next);
        nexts[number] = next;
    }
    Ok(nexts)
}
