//! From a run of the code of a compiled source to its source order.

ghost use Rattle.std.specs.Prelude.{IfOk};
ghost use Rattle.splitc_compile.specs.Compiled.{parts_of, AreParts};
ghost use Rattle.compiled_order.specs.Order.{IsRunOfCode, IsOrderOf};

use fabric::Run;
use sc_base::OutOfMemory;
use sc_meaning::SourceHistory;
use splitc_compile::Compiled;
use std::alloc::Global;

/// The source order of a whole run of the code of a compiled source under the budget: every own step, effect and release
/// of the run once, as one legal and complete history of the source, with the run's ends, texts and memory. The one error is
/// want of memory.
pub fn order(
    alloc: Global,
    compiled: &Compiled,
    budget: u64,
    run: &Run,
) -> Result<SourceHistory, OutOfMemory>
    requires compiled { AreParts (parts_of compiled.now) }
    requires run { IsRunOfCode (parts_of compiled.now) budget run.now.journal }
    ensures { IfOk result (IsOrderOf (parts_of compiled.now) budget run.now.journal) }
{
    let history = run_order::order(alloc, &compiled.layout, run.journal.as_slice())?;
    Ok(history)
}
