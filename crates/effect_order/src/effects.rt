//! Laws on effects: the definitions that histories, journals and orders share.

ghost use Rattle.std.specs.Prelude.{◌≡◌, ◌↔◌, List, true};
ghost use Rattle.sc_base.specs.declared.value.Place.{Place};
ghost use Rattle.sc_base.specs.declared.value.Value.{Value};
ghost use Rattle.effect_order.specs.Effect.{Effect, same_place, same_value, held, conflicts};
ghost use Rattle.effect_order.specs.Items.{effects_of, memory_of};

/// Two places are the same exactly where they are equal.
pub fn same_place_is_equality()
    ensures { (p q : Place) → (same_place p q ≡ true) ↔ (p ≡ q) }
{}

/// Two values are the same exactly where they are equal.
pub fn same_value_is_equality()
    ensures { (v w : Value) → (same_value v w ≡ true) ↔ (v ≡ w) }
{}

/// An effect conflicts with another where the other conflicts with it.
pub fn conflict_is_mutual()
    ensures { (a b : Effect) → conflicts a b ≡ true → conflicts b a ≡ true }
{}

/// What the items of a history leave at a place is what all their effects leave there.
pub fn items_leave_what_effects_leave<X>()
    ensures { (does : X → List Effect) (start : Place → Value) (place : Place) (past : List X) →
        memory_of does start past place ≡ held start place (effects_of does past) }
{}
