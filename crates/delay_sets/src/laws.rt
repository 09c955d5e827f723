//! Laws of delays.

ghost use Rattle.delay_sets.specs.OfOrder.{DelaysOfSitesAreOfOrder};

/// Delays are those that the laws of the order speak of, where two nodes conflict at sites that conflict and meet.
pub fn delays_are_of_order()
    ensures { DelaysOfSitesAreOfOrder }
{}
