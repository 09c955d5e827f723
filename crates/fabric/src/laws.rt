//! Laws of the journals of runs.

ghost use Rattle.fabric.specs.Laws.{TestIsExact, OpenCellsFly, DoneIsNoneOpen};

/// The test of what the fabric keeps in a journal holds exactly where the fabric keeps it.
pub fn wired_test_is_exact()
    ensures { TestIsExact }
{}

/// As many cells have a part still to occur as messages are in flight.
pub fn open_cells_fly()
    ensures { OpenCellsFly }
{}

/// No cell is outstanding exactly where all parts have occurred.
pub fn done_is_none_open()
    ensures { DoneIsNoneOpen }
{}
