//! Whether each entry of a journal is of a node of its machine.

ghost use Rattle.std.specs.Prelude.{◌↔◌, All, IsTrue};
ghost use Rattle.journal_order.specs.Listed.{IsOn};

use sc_isa::Entry;

fn is_on(nodes: u32, entry: Entry) -> bool
    ensures { IsTrue result ↔ IsOn nodes entry }
{
    match entry {
        Entry::Issued { node, .. } => node < nodes,
        Entry::Delivered { node, .. } => node < nodes,
        Entry::Waited { node, .. } => node < nodes,
        Entry::Arrived { node, .. } => node < nodes,
        Entry::Passed { node } => node < nodes,
        Entry::Finished { node, .. } => node < nodes,
    }
}

/// Whether each entry of the journal is of one of so many nodes, as it is in each legal journal of them.
pub fn are_on(journal: &[Entry], nodes: u32) -> bool
    ensures { IsTrue result ↔ All (IsOn nodes) journal.now }
{
    for entry in journal {
        if !is_on(nodes, *entry) {
            return false;
        }
    }
    true
}
