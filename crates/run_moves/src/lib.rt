//! The moves of a run, and the runs that lists of picks make, over any machine. Each law is the contract of a public
//! function with an empty body; nothing of it runs.
#![tactic(auto)]

ghost use Rattle.run_moves.specs.Laws.{MovesAreAllowed, PicksDetermineTheRun, SimulatedRunsAreComplete, CodeIsOrderly};

/// The moves after a legal journal are exactly the entries that are allowed next: what the nodes ask for and the fabric
/// allows, and the deliveries of the messages in flight.
pub fn moves_are_allowed()
    ensures { MovesAreAllowed }
{}

/// The picks determine the journal of the run that they make.
pub fn picks_determine_the_run()
    ensures { PicksDetermineTheRun }
{}

/// A run by picks of orderly nodes is legal, and complete when no move is left, where it is known of each node what it does
/// next.
pub fn simulated_runs_are_complete()
    ensures { SimulatedRunsAreComplete }
{}

/// The code of a node asks to pass exactly where it has arrived, and ends as waiting exactly where its barrier is broken.
pub fn code_is_orderly()
    ensures { CodeIsOrderly }
{}
