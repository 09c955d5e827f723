//! The order theorem, for the journals of any machine whose nodes make the requests of some processes.

ghost use Rattle.effect_order.specs.Flow.{Flow};
ghost use Rattle.sc_meaning.specs.declared.event.SourceEvent.{SourceEvent};
ghost use Rattle.source_order.specs.Law.{OrderHolds, PlainRunsHaveNoCycle};
ghost use Rattle.source_order.specs.Story.{ItemsAreOrderable, IsThatOrder};
ghost use Rattle.source_order.specs.ByRules.{OrderIsByRules};

/// Where what has to come before what has no cycle, the source order of a whole run takes every item once, is a legal and
/// complete history of the processes, and has the ends, the texts and the memory of the run.
pub fn order_holds()
    ensures { OrderHolds }
{}

/// The source order is exactly what the three rules give: the next own step, but for blocking reads and writes, of the least
/// node for which it is allowed; else the next release; else the first effect that is allowed and before which, in the run,
/// no conflicting one is left.
pub fn order_is_by_rules()
    ensures { OrderIsByRules }
{}

/// By time alone there is no cycle where each blocking access of a node is over before the node's next request.
pub fn plain_runs_have_no_cycle()
    ensures { PlainRunsHaveNoCycle }
{}

/// The items of such a run can be ordered: the source allows exactly those that have all that they need, and show what
/// their places hold.
pub fn items_are_orderable()
    ensures { ItemsAreOrderable }
{}

/// The points of a code, and the point at which each item of a run stands.
pub trait Placing {
    ghost Point: { Type 0 };

    ghost flow: { Flow Point };

    ghost point: { SourceEvent → Point };
}

/// The source order is that of which the laws on effects and their order speak, over whatever points of a code.
pub fn order_of_the_laws<T: Placing>()
    ensures { IsThatOrder T.flow T.point }
{}
