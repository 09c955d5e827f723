//! Laws of the runs of code.

ghost use Rattle.run_laws.specs.Laws.{CodeRunsAreWhole, PicksDetermineTheCodeRun, PlainCodeRunsHaveNoCycle, PlainCodeRunsPlainly, PlainRunsAreOrdered, SimulatedRunsAreOrdered, SimulationsSettle};

/// With enough instructions each journal that picks make of sound code is legal and complete, whatever the picks are.
pub fn code_runs_are_whole()
    ensures { CodeRunsAreWhole }
{}

/// With more instructions the journals that picks make of sound code are the same.
pub fn simulations_settle()
    ensures { SimulationsSettle }
{}

/// The picks determine the journal of the code's run.
pub fn picks_determine_the_code_run()
    ensures { PicksDetermineTheCodeRun }
{}

/// Code that waits directly behind each access: in each legal journal of it the blocking accesses of a node are over
/// before the node's next request.
pub fn plain_code_runs_plainly()
    ensures { PlainCodeRunsPlainly }
{}

/// So what has to come before what has no cycle in its whole runs.
pub fn plain_code_runs_have_no_cycle()
    ensures { PlainCodeRunsHaveNoCycle }
{}

/// Each whole run of such code has its source order: every step, effect and release once, one whole history of the
/// source, with the run's ends, texts and memory.
pub fn plain_runs_are_ordered()
    ensures { PlainRunsAreOrdered }
{}

/// And so has each run that picks make.
pub fn simulated_runs_are_ordered()
    ensures { SimulatedRunsAreOrdered }
{}
