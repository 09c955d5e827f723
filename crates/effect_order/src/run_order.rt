//! Laws on what must come before what among the items of a run.

ghost use Rattle.std.specs.Prelude.{Bool};
ghost use Rattle.effect_order.specs.Order.{Story, Facts, Acyclic};
ghost use Rattle.effect_order.specs.Run.{Run, story};
ghost use Rattle.effect_order.specs.RunFacts.{Timed, Analysed, RunFacts};
ghost use Rattle.effect_order.specs.Plan.{CodeFacts};
ghost use Rattle.effect_order.specs.MustPrecede.{EffectsHaveNoCycle};
ghost use Rattle.effect_order.specs.Directly.{WaitsDirectly, GoesForward};

use crate::barriers::Coded;

/// The items of a run, with what must come before what among them.
pub trait Storied {
    ghost Item: { Type 0 };

    ghost Site: { Type 0 };

    ghost story: { Story Item Site };
}

/// A run of compiled code.
pub trait Running {
    ghost Item: { Type 0 };

    ghost Site: { Type 0 };

    ghost run: { Run Item Site };
}

/// From the facts about a story, what must come before what in it has no cycle.
pub fn no_cycle<T: Storied>()
    ensures { Facts T.story → Acyclic T.story }
{}

/// What a run supplies gives the facts about its story.
pub fn run_gives_facts<T: Running>()
    ensures { RunFacts T.run → Facts (story T.run) }
{}

/// From what a compiler and a run supply, what must come before what in the run has no cycle.
pub fn code_has_no_cycle<T: Coded>()
    ensures { Timed T.run → Analysed T.run → CodeFacts T.run T.code → Acyclic (story T.run) }
{}

/// From what a compiler and a run supply: that effects must precede others, that a copy reads a cell before it writes it,
/// and the order of conflicting effects in the run have together no cycle.
pub fn effects_have_no_cycle<T: Coded>()
    ensures { Timed T.run → Analysed T.run → CodeFacts T.run T.code → EffectsHaveNoCycle T.run T.code }
{}

/// Where each blocking access is over before its node's next own step begins, what must come before an item was sooner in
/// the run, and so there is no cycle, whatever an analysis says of conflicts.
pub fn waiting_directly_has_no_cycle<T: Running>()
    ensures forward { Timed T.run → (is_end : T.Item → Bool) → WaitsDirectly T.run is_end → GoesForward T.run is_end }
    ensures no_cycle { Timed T.run → (is_end : T.Item → Bool) → WaitsDirectly T.run is_end → Acyclic (story T.run) }
{}
