//! Laws of placed and early plans, whatever the delays are.

ghost use Rattle.sync_place.specs.Laws.{PlansWaitInTime, PlansArePlans, PlansAreOfOrder};

/// Code that waits at first demands waits in time for what it fetches.
pub fn plans_wait_in_time()
    ensures { PlansWaitInTime }
{}

/// Placed and early plans are plans of their flow, whose functions' first points do nothing.
pub fn plans_are_plans()
    ensures { PlansArePlans }
{}

/// Demands, first demands and one-way sites are those that the laws of the order speak of.
pub fn plans_are_of_order()
    ensures { PlansAreOfOrder }
{}
