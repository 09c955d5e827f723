//! Whether each cell of a journal has a number.

ghost use Rattle.std.specs.Prelude.{◌↔◌, IsTrue};
ghost use Rattle.journal_effects.specs.Numbered.{HasNumberedCells, IsNumbered, AreNumbered};

use sc_isa::{Access, Entry};

/// How many cells an object can have on a node.
const CELLS: u64 = 1 << 32;

fn has_numbered_cells(access: Access) -> bool
    ensures { IsTrue result ↔ HasNumberedCells access }
{
    match access {
        Access::Read { .. } => true,
        Access::Write { .. } => true,
        Access::Copy {
            from,
            to,
            cells,
            ..
        } => {
            u64::from(from.offset) + u64::from(cells) <= CELLS
                && u64::from(to.offset) + u64::from(cells) <= CELLS
        }
    }
}

fn is_numbered(entry: Entry) -> bool
    ensures { IsTrue result ↔ IsNumbered entry }
{
    match entry {
        Entry::Issued { access, .. } => has_numbered_cells(access),
        _ => true,
    }
}

/// Whether each cell of each access of the journal has a number below 2 to the 32, as it has where it lies in a layout.
pub fn are_numbered(journal: &[Entry]) -> bool
    ensures { IsTrue result ↔ AreNumbered journal.now }
{
    for entry in journal {
        if !is_numbered(*entry) {
            return false;
        }
    }
    true
}
