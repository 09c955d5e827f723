//! Laws on the source order: a run's items taken one by one, the first that is allowed and before which no conflicting
//! earlier item is left.

ghost use Rattle.std.specs.Prelude.{◌≡◌, ◌↔◌, ℕ, List, [], Bool, true, filter};
ghost use Rattle.sc_base.specs.declared.value.Place.{Place};
ghost use Rattle.sc_base.specs.declared.value.Value.{Value};
ghost use Rattle.effect_order.specs.Effect.{Effect};
ghost use Rattle.effect_order.specs.Lists.{In, Each, Pairs, IsDistinct};
ghost use Rattle.effect_order.specs.Items.{Shows, memory_after, items_conflict};
ghost use Rattle.effect_order.specs.Greedy.{ordered, comes_before, IsAllowed, Reorder, Lawful, Closed, Orderable, IsSourced};
ghost use Rattle.effect_order.specs.Rules.{Sorted, Follows, IsByRules, listed};
ghost use Rattle.effect_order.specs.Prefix.{OwnSteps, first_steps};
ghost use Rattle.effect_order.specs.RunFacts.{Timed, Analysed, RunFacts};
ghost use Rattle.effect_order.specs.Plan.{CodeFacts};
ghost use Rattle.effect_order.specs.Directly.{WaitsDirectly};
ghost use Rattle.effect_order.specs.Sourced.{sooner, source_order, Tied};

use crate::barriers::Coded;
use crate::run_order::Running;

/// An order that keeps that of conflicting items shows the same values and leaves the same memory.
pub fn conflicting_order_keeps_values<X>()
    ensures { (does : X → List Effect) (start : Place → Value) (before : X → X → Bool) (all out : List X) →
        Pairs (λ a b. items_conflict does a b ≡ true → before a b ≡ true) all → Reorder before all out →
        Shows does start all → Shows does start out × (memory_after does start out ≡ memory_after does start all) }
{}

/// The source order takes every item once, when none of those left has to come before it.
pub fn takes_everything<X>()
    ensures { (does : X → List Effect) (start : Place → Value) (earlier needs : X → X → Bool)
        (allowed : List X → X → Bool) (all : List X) → Orderable does start earlier needs allowed all →
        Reorder (comes_before does earlier needs) all (ordered does earlier allowed all) }
{}

/// In the source order each item comes after all that it needs, and after each earlier item that it conflicts with.
pub fn each_after_what_it_needs<X>()
    ensures { (does : X → List Effect) (start : Place → Value) (earlier needs : X → X → Bool)
        (allowed : List X → X → Bool) (all : List X) → Orderable does start earlier needs allowed all →
        Lawful (comes_before does earlier needs) all [] (ordered does earlier allowed all) }
{}

/// In the source order each read shows the last write before it.
pub fn reads_show_last_write<X>()
    ensures { (does : X → List Effect) (start : Place → Value) (earlier needs : X → X → Bool)
        (allowed : List X → X → Bool) (all : List X) → Orderable does start earlier needs allowed all →
        Shows does start (ordered does earlier allowed all) }
{}

/// After the source order the places hold what they hold after the run.
pub fn memory_stays<X>()
    ensures { (does : X → List Effect) (start : Place → Value) (earlier needs : X → X → Bool)
        (allowed : List X → X → Bool) (all : List X) → Orderable does start earlier needs allowed all →
        memory_after does start (ordered does earlier allowed all) ≡ memory_after does start all }
{}

/// Whatever the items are, each item of the source order is allowed after those before it.
pub fn legal_by_construction<X>()
    ensures { (does : X → List Effect) (earlier : X → X → Bool) (allowed : List X → X → Bool) (all : List X) →
        IsAllowed allowed [] (ordered does earlier allowed all) }
{}

/// The source order over own steps by node, releases by number and effects in the order of the run is exactly the order by
/// the three rules: the next own step of the least node for which it is allowed, else the next release, else the first
/// effect that is allowed and before which no conflicting one is left.
pub fn source_order_is_by_rules<X>()
    ensures { (does : X → List Effect) (earlier : X → X → Bool) (allowed follows : List X → X → Bool) (sorted : Sorted X) →
        Follows does earlier allowed follows sorted → (out : List X) →
        IsByRules does allowed sorted [] out ↔ (out ≡ ordered does earlier follows (listed sorted)) }
{}

/// Where each item was taken after what it needs, a node's own steps among those taken are its first ones.
pub fn own_steps_first<X>()
    ensures { (is_own : ℕ → X → Bool) (step : X → ℕ) (own : ℕ → ℕ → X) (needs : X → X → Bool) (all past : List X) →
        OwnSteps is_own step own needs all → Each (λ x. In x all) past → IsDistinct past → Closed needs all past →
        (p : ℕ) → (n : ℕ) × (filter (is_own p) past ≡ first_steps own p n) }
{}

/// From the facts of a run alone, the source order by a law of histories that is tied to the run takes every item, each after
/// what it needs, with the values and the memory of the run.
pub fn run_is_sourced<T: Running>()
    ensures { RunFacts T.run →
        (start : Place → Value) (needs : T.Item → T.Item → Bool) (allowed : List T.Item → T.Item → Bool)
        (all : List T.Item) → Tied T.run start needs allowed all →
        IsSourced T.run.does start (comes_before T.run.does (sooner T.run) needs) all (source_order T.run allowed all) }
{}

/// From what a compiler and a run supply, the source order by a law of histories that is tied to the run takes every item,
/// each after what it needs, with the values and the memory of the run.
pub fn code_is_sourced<T: Coded>()
    ensures { Timed T.run → Analysed T.run → CodeFacts T.run T.code →
        (start : Place → Value) (needs : T.Item → T.Item → Bool) (allowed : List T.Item → T.Item → Bool)
        (all : List T.Item) → Tied T.run start needs allowed all →
        IsSourced T.run.does start (comes_before T.run.does (sooner T.run) needs) all (source_order T.run allowed all) }
{}

/// Where each blocking access of a run is over before its node's next own step begins, the source order by a law of histories
/// that is tied to the run takes every item, each after what it needs, with the values and the memory of the run.
pub fn waiting_directly_is_sourced<T: Running>()
    ensures { Timed T.run → (is_end : T.Item → Bool) → WaitsDirectly T.run is_end →
        (start : Place → Value) (needs : T.Item → T.Item → Bool) (allowed : List T.Item → T.Item → Bool)
        (all : List T.Item) → Tied T.run start needs allowed all →
        IsSourced T.run.does start (comes_before T.run.does (sooner T.run) needs) all (source_order T.run allowed all) }
{}
