//! What legal histories show of a source's nodes.

ghost use Rattle.meaning_laws.specs.Fronts.{EventsAreAFront, EndIsOfTheRun, EventsExtend, EventsAreNumbered};

/// In a legal history a node's own events are, in order and by number, the first requests of its run under the answers
/// that the history shows to it; an end comes at most once, behind all of these requests, and is that run's end.
pub fn events_are_a_front()
    ensures { EventsAreAFront }
{}

/// A node that has ended in a legal history has made all requests of its run, and ended as that run does.
pub fn end_is_of_the_run()
    ensures { EndIsOfTheRun }
{}

/// Further events of a list only extend what a node requests and prints under the answers that the list shows.
pub fn events_extend()
    ensures { EventsExtend }
{}

/// Each event of a legal history but a release is one of the source's nodes', and its releases count from 1.
pub fn events_are_numbered()
    ensures { EventsAreNumbered }
{}
