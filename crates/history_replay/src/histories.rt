//! Replay of a list of events.

ghost use Rattle.std.specs.Prelude.{IfOk};
ghost use Rattle.sc_core.specs.Lowering.{core_of};
ghost use Rattle.sc_core.specs.ViewStatements.{plain_program};
ghost use Rattle.sc_replay.specs.Judging.{Judges};
ghost use Rattle.sc_tree.specs.ViewTypedTree.{plain_typed_tree};

use crate::judge::Judge;
use core_lower::lower;
use sc_base::OutOfMemory;
use sc_core::CoreProgram;
use sc_layout::Layout;
use sc_meaning::{Outcome, SourceHistory};
use sc_tree::Typed;
use std::alloc::Global;

/// Whether the history is a legal and complete one of the source on the layout's nodes, each with the budget of loop
/// turns and calls: Some with what it shows in the end exactly for such a history. Any list of events may be asked.
pub fn replay(
    alloc: Global,
    typed: &Typed,
    layout: &Layout,
    budget: u64,
    history: &SourceHistory,
) -> Result<Option<Outcome>, OutOfMemory>
    ensures { IfOk result (Judges layout.now (core_of (plain_typed_tree typed.now)) budget history.now) }
{
    let program = lower(alloc, typed)?;
    let told = replay_core(alloc, &program, layout, budget, history)?;
    Ok(told)
}

/// The same of a core tree, whatever its types.
pub fn replay_core(
    alloc: Global,
    program: &CoreProgram,
    layout: &Layout,
    budget: u64,
    history: &SourceHistory,
) -> Result<Option<Outcome>, OutOfMemory>
    ensures { IfOk result (Judges layout.now (plain_program program.now) budget history.now) }
{
    let mut judge = Judge::new(alloc, program, layout, budget)?;
    for event in history.as_slice() {
        if !judge.take(*event)? {
            return Ok(None);
        }
    }
    if !judge.is_complete() {
        return Ok(None);
    }
    let outcome = judge.outcome()?;
    Ok(Some(outcome))
}
