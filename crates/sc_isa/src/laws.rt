//! Laws of the code's run: each function's clause is the law.

ghost use Rattle.sc_isa.specs.Laws.{MoreChangesNothing, SoundCodeSettles, SoundCodeRunsSoundly, AsksForItsCounters, FitsIsExact};

/// A run that has not used up its instructions does the same with more of them.
pub fn more_changes_nothing()
    ensures { MoreChangesNothing }
{}

/// For sound code there is a number of instructions from which nothing changes, whatever is answered.
pub fn sound_code_settles()
    ensures { SoundCodeSettles }
{}

/// A run of sound code is never stuck, and each access that it asks lies in the layout, with a value that fits.
pub fn sound_code_runs_soundly()
    ensures { SoundCodeRunsSoundly }
{}

/// No run asks for a counter that its code does not have.
pub fn asks_for_its_counters()
    ensures { AsksForItsCounters }
{}

/// The test whether a value may stand in a cell is exact.
pub fn fits_is_exact()
    ensures { FitsIsExact }
{}
