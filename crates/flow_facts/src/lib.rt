//! Facts of the flows of sources that plans and the analysis need. Each is the contract of a public function with an empty
//! body; nothing of it runs.
#![tactic(auto)]

ghost use Rattle.flow_facts.specs.Laws.{FlowsNameLaidObjects, FirstsAreIdle, FirstsAreCalled, PlacedPlansAreTimely, PlainPlansAreTimely};

/// The flow of a laid source names objects of its layout only.
pub fn flows_name_laid_objects()
    ensures { FlowsNameLaidObjects }
{}

/// Start and the first points of the functions of a source access, take, read and write nothing.
pub fn firsts_are_idle()
    ensures { FirstsAreIdle }
{}

/// No edge leads from an access to Start or to the first point of a function.
pub fn firsts_are_called()
    ensures { FirstsAreCalled }
{}

/// Placed and early plans of the flow of a source are plans of it, and wait in time.
pub fn placed_plans_are_timely()
    ensures { PlacedPlansAreTimely }
{}

/// Plain plans of the flow of a source are plans of it, and wait in time.
pub fn plain_plans_are_timely()
    ensures { PlainPlansAreTimely }
{}
