//! What the journals of code are.

ghost use Rattle.journal_effects.specs.Laws.{PlacedAreNumbered};

/// In a legal journal whose accesses lie in a layout each cell of each access has a number, so its effects can be made.
pub fn placed_are_numbered()
    ensures { PlacedAreNumbered }
{}
