//! What the order of a run's items is made by.

ghost use Rattle.journal_order.specs.Ordering.{OrderIsByEdges};

/// The source order of a run that can be ordered is the least order of its items by any edges that say together what has to
/// come before what, and it takes every item.
pub fn order_is_by_edges()
    ensures { OrderIsByEdges }
{}
