//! The releases of a run.

ghost use Rattle.std.specs.Prelude.{◌≡◌, All, IfOk, reverse};
ghost use Rattle.fabric.specs.Barriers.{released};
ghost use Rattle.journal_order.specs.Listed.{IsOn};

use sc_isa::Entry;
use std::alloc::{AllocError, Global};

/// How many barriers some node has passed in the journal of so many nodes.
pub fn releases(alloc: Global, journal: &[Entry], nodes: u32) -> Result<u64, AllocError>
    requires { All (IsOn nodes) journal.now }
    ensures { IfOk result (λ count. count ≡ released (reverse journal.now)) }
{
    let mut passes = vec![in alloc; 0u64; nodes as usize]?;
    let mut most = 0;
    for entry in journal {
        if let Entry::Passed { node } = *entry {
            let count = passes[node as usize] + 1;
            passes[node as usize] = count;
            most = count.max(most);
        }
    }
    Ok(most)
}
