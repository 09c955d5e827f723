//! Laws of the runs of compiled sources. Each law is the contract of a public function with an empty body; nothing of it
//! runs.
#![tactic(auto)]

ghost use Rattle.compiled_runs.specs.Laws.{CompiledRunsAreOrdered, CompiledSimulationsAreOrdered};

/// Each whole run of the code of a compiled source has its source order: every step, effect and release once, one whole
/// history of the source, with the run's ends, texts and memory.
pub fn compiled_runs_are_ordered()
    ensures { CompiledRunsAreOrdered }
{}

/// And so has each run that picks make.
pub fn compiled_simulations_are_ordered()
    ensures { CompiledSimulationsAreOrdered }
{}
