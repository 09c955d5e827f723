//! Laws of the flow of a source beside what the source means. Each is the contract of a function with an empty body;
//! nothing of it runs.
#![tactic(auto)]

ghost use Rattle.flow_form.specs.Laws.{FlowsNameObjects, PointsAreAWalk, RequestsAreOfTheirPoints};

/// Under any budget, the points that a source makes a node pass are a walk along the edges of its flow from Start.
pub fn points_are_a_walk()
    ensures { PointsAreAWalk }
{}

/// Each request that a source makes a node do is one that the last point passed makes.
pub fn requests_are_of_their_points()
    ensures { RequestsAreOfTheirPoints }
{}

/// The flow of a source that is typed over the objects of a layout names only these.
pub fn flows_name_objects()
    ensures { FlowsNameObjects }
{}
