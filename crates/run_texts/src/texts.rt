//! The texts of a run and of a history of a compiled source.

ghost use Rattle.std.specs.Prelude.{◌≡◌, length, IfOk};
ghost use Rattle.run_report.specs.Memory.{held_in};
ghost use Rattle.run_report.specs.Report.{report, ends_in, texts_in};
ghost use Rattle.history_report.specs.History as lines;

use fabric::Run;
use sc_base::OutOfMemory;
use sc_meaning::SourceHistory;
use splitc_compile::Compiled;
use std::alloc::Global;

/// The report of a run of the compiled source: what each node printed and how it ended, by number, and what the memory
/// holds where `memory` asks for it. The run is one over the layout of the source. The one error is want of memory.
pub fn report_text(
    alloc: Global,
    compiled: &Compiled,
    run: &Run,
    memory: bool,
) -> Result<Vec<u8>, OutOfMemory>
    requires nodes { compiled.now.layout.nodes ≡ length run.now.nodes }
    requires laid { run.now.memory.layout ≡ compiled.now.layout }
    ensures { IfOk result (λ text. text.items ≡ report compiled.now.names compiled.now.layout
        (ends_in run.now.nodes) (texts_in run.now.nodes) (held_in run.now.memory) memory) }
{
    let text = run_report::report_text(
        alloc,
        &compiled.names,
        &compiled.layout,
        run.nodes.as_slice(),
        &run.memory,
        memory,
    )?;
    Ok(text)
}

/// The lines of a history of the compiled source, one for each event in their order. The objects that its places and
/// values name are in the layout of the source. The one error is want of memory.
pub fn history_text(
    alloc: Global,
    compiled: &Compiled,
    history: &SourceHistory,
) -> Result<Vec<u8>, OutOfMemory>
    ensures { IfOk result (λ text. text.items
        ≡ lines.history_text compiled.now.names compiled.now.layout history.now) }
{
    let text = history_report::history_text(alloc, &compiled.names, &compiled.layout, history)?;
    Ok(text)
}
