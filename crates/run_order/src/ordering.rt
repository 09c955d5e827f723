//! From a journal to its source order.

ghost use Rattle.std.specs.Prelude.{All, IfOk};
ghost use Rattle.sc_layout.specs.Start.{start};
ghost use Rattle.journal_effects.specs.Numbered.{AreNumbered};
ghost use Rattle.journal_order.specs.Listed.{IsOn};
ghost use Rattle.journal_order.specs.Ordering.{IsSourceOrder};
ghost use Rattle.run_order.specs.Orderable.{IsOrderable, IsOrderIfAny};

use journal_effects::effects;
use journal_order::{arrange, list_items};
use order_edges::edges;
use sc_base::OutOfMemory;
use sc_isa::Entry;
use sc_layout::Layout;
use sc_meaning::SourceHistory;
use std::alloc::Global;

/// The own steps, releases and effects of a journal on the layout's nodes, in the least order by what has to come before
/// what: the source order of each journal that has one. None where a cycle holds some back.
pub fn order_by_edges(
    alloc: Global,
    layout: &Layout,
    journal: &[Entry],
) -> Result<Option<SourceHistory>, OutOfMemory>
    requires on { All (IsOn layout.now.nodes) journal.now }
    requires numbered { AreNumbered journal.now }
    ensures { IfOk result (IsOrderIfAny (start layout.now) layout.now.nodes journal.now) }
{
    let effects = effects(alloc, journal, layout)?;
    let items = list_items(alloc, journal, layout.nodes(), effects.as_slice())?;
    let edges = edges(alloc, journal, layout.nodes(), items.as_slice())?;
    let found = arrange(alloc, items.as_slice(), edges.as_slice())?;
    Ok(found)
}

/// The source order of a whole run of code on the layout's nodes: its own steps, releases and effects as the events of one
/// history of its source. The one error is want of memory.
pub fn order(
    alloc: Global,
    layout: &Layout,
    journal: &[Entry],
) -> Result<SourceHistory, OutOfMemory>
    requires on { All (IsOn layout.now.nodes) journal.now }
    requires numbered { AreNumbered journal.now }
    requires orderable { IsOrderable (start layout.now) layout.now.nodes journal.now }
    ensures { IfOk result (IsSourceOrder (start layout.now) layout.now.nodes journal.now) }
{
    let Some(history) = order_by_edges(alloc, layout, journal)? else {
        unreachable!()
    };
    Ok(history)
}
