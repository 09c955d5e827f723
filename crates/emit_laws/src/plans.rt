//! Plans that wait in time.

ghost use Rattle.site_graph.specs.Plans.{PlainPlansWaitInTime};

/// A plan that waits directly behind each blocking access waits in time.
pub fn plain_plans_wait_in_time()
    ensures { PlainPlansWaitInTime }
{}
