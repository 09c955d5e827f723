//! Laws of flows and plans.

ghost use Rattle.site_graph.specs.Order.{WaysAreOfOrder};
ghost use Rattle.site_graph.specs.Plans.{PlainPlansWaitInTime};

/// A flow's paths, its clear ways and which access is over before another are those that the laws of the order speak of.
pub fn ways_are_of_order()
    ensures { WaysAreOfOrder }
{}

/// Where each point waits for the blocking accesses from whose points an edge leads to it, code waits in time.
pub fn plain_plans_wait_in_time()
    ensures { PlainPlansWaitInTime }
{}
