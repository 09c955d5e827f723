//! Laws of the flow of a source. Each is the contract of a function with an empty body; nothing of it runs.

ghost use Rattle.flow_form.specs.Laws.{FlowsAreKept, PointsStandInOrder, SitesAreTheAccesses};

/// Each point of a flow stands at its number.
pub fn points_stand_in_order()
    ensures { PointsStandInOrder }
{}

/// A flow has as many sites as its source has accesses.
pub fn sites_are_the_accesses()
    ensures { SitesAreTheAccesses }
{}

/// The flow of a source keeps what every flow keeps, where its points and sites are few enough to be counted.
pub fn flows_are_kept()
    ensures { FlowsAreKept }
{}
