//! A run of a compiled source by picks.

ghost use Rattle.std.specs.Prelude.{◌≡◌, ◌+◌, ℕ, length, IfOk};
ghost use Rattle.splitc_compile.specs.Compiled.{AreParts, parts_of};
ghost use Rattle.run_sim.specs.Runs.{IsRunOf};

use code_sim::{Picks, run_code};
use fabric::Run;
use sc_base::OutOfMemory;
use splitc_compile::Compiled;
use std::alloc::Global;

/// The run of the compiled source by the picks, each node under this budget of loop turns and calls. The moves at a
/// moment are, by number, the nodes that can go on, and after them the messages in flight in the order of their pool. A
/// node can go on with an access, an arrival or its end, with a wait where nothing of the counter is outstanding, and at
/// its barrier where all nodes have arrived, or where one never will. Each move takes one pick, modulo the number of
/// moves, and the run ends when no move is left; the picks then stand behind those that were taken. The one error is want of
/// memory.
pub fn run_picks<P: Picks>(
    alloc: Global,
    compiled: &Compiled,
    budget: u64,
    picks: &mut P,
) -> Result<Run, OutOfMemory>
    requires compiled { AreParts (parts_of compiled.now) }
    ensures run { IfOk result (λ run. IsRunOf (parts_of compiled.now) budget (P.words picks.old) run) }
    ensures rest { IfOk result (λ run. (k : ℕ) → P.words picks.new k ≡ P.words picks.old (length run.journal + k)) }
{
    run_code(alloc, &compiled.code, &compiled.layout, budget, picks)
}
