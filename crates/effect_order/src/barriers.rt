//! Laws on levels, barriers and waits: how the counts of a run and the waits of its code give what the order of its
//! items rests on.

ghost use Rattle.std.specs.Prelude.{◌≡◌, ℕ, ◌<◌, ◌≤◌, Bool, true};
ghost use Rattle.effect_order.specs.Levels.{level_at};
ghost use Rattle.effect_order.specs.Run.{Run};
ghost use Rattle.effect_order.specs.RunFacts.{Timed, Kept};
ghost use Rattle.effect_order.specs.Plan.{Code, Walked, Counted, CodeFacts, ReleaseAfterArrival, ArrivalBeforeRelease};

/// A run of compiled code, with the walks of its nodes, the waits of the code and the passing of barriers.
pub trait Coded {
    ghost Item: { Type 0 };

    ghost Site: { Type 0 };

    ghost run: { Run Item Site };

    ghost code: { Code run };
}

/// The level of moments never falls.
pub fn level_never_falls()
    ensures { (is_release : ℕ → Bool) (a b : ℕ) → a ≤ b → level_at is_release a ≤ level_at is_release b }
{}

/// The level rises into a release and out of it.
pub fn level_rises_at_release()
    ensures into { (is_release : ℕ → Bool) (a m : ℕ) → is_release m ≡ true → a < m → level_at is_release a < level_at is_release m }
    ensures out { (is_release : ℕ → Bool) (m b : ℕ) → is_release m ≡ true → m < b → level_at is_release m < level_at is_release b }
{}

/// Where the level rises, a release lies between.
pub fn rise_shows_release()
    ensures { (is_release : ℕ → Bool) (a b : ℕ) → level_at is_release a < level_at is_release b →
        (m : ℕ) × (is_release m ≡ true) × (a ≤ m) × (m ≤ b) }
{}

/// Between a node's arrival at a barrier and its next steps lies a release.
pub fn release_after_arrival<T: Coded>()
    ensures { Timed T.run → Walked T.run T.code → Counted T.run T.code → ReleaseAfterArrival T.run T.code }
{}

/// Between the own step of an effect and a later release lies an arrival of its node.
pub fn arrival_before_release<T: Coded>()
    ensures { Timed T.run → Walked T.run T.code → Counted T.run T.code → ArrivalBeforeRelease T.run T.code }
{}

/// From the walks, waits and counts: a blocking effect takes place in the level of its issue, each delay within one
/// level is waited for, and no barrier lies between two steps of one level.
pub fn code_keeps<T: Coded>()
    ensures { Timed T.run → CodeFacts T.run T.code → Kept T.run }
{}
