//! The smallest instances of the laws: nodes whose accesses are each over before the next one begins, and two nodes that
//! meet at a barrier with a split copy, a store and a one-way write.

ghost use Rattle.std.specs.Prelude.{ℕ, List, false};
ghost use Rattle.sc_base.specs.declared.value.Place.{Place};
ghost use Rattle.sc_base.specs.declared.value.Value.{Value};
ghost use Rattle.effect_order.specs.Effect.{Effect};
ghost use Rattle.effect_order.specs.RunFacts.{Timed, Analysed};
ghost use Rattle.effect_order.specs.Plan.{CodeFacts};
ghost use Rattle.effect_order.specs.Sourced.{sooner, Tied};
ghost use Rattle.effect_order.specs.Smallest.{OneByOne, small_run, small_code, is_next, is_allowed};
ghost use Rattle.effect_order.specs.Directly.{WaitsDirectly};
ghost use Rattle.effect_order.specs.MustPrecede.{MustPrecede};
ghost use Rattle.effect_order.specs.Rules.{Follows};
ghost use Rattle.effect_order.specs.Meeting.{rows, at_start, meeting, line_code};
ghost use Rattle.effect_order.specs.Needed.{needs, may_follow, row_at, sorted};

/// Accesses that are done one by one on each node meet all that the laws ask of a run, its code and a law of histories.
pub fn one_by_one_meets_premises()
    ensures timed { (nodes : ℕ) (start : Place → Value) (time : Effect → ℕ) (own : ℕ → ℕ → Effect)
        (all : List Effect) → OneByOne nodes start time own all → Timed (small_run time all) }
    ensures analysed { (nodes : ℕ) (start : Place → Value) (time : Effect → ℕ) (own : ℕ → ℕ → Effect)
        (all : List Effect) → OneByOne nodes start time own all → Analysed (small_run time all) }
    ensures code { (nodes : ℕ) (start : Place → Value) (time : Effect → ℕ) (own : ℕ → ℕ → Effect)
        (all : List Effect) → OneByOne nodes start time own all → CodeFacts (small_run time all) (small_code nodes time own all) }
    ensures tied { (nodes : ℕ) (start : Place → Value) (time : Effect → ℕ) (own : ℕ → ℕ → Effect)
        (all : List Effect) → OneByOne nodes start time own all → Tied (small_run time all) start is_next (is_allowed start) all }
    ensures direct { (nodes : ℕ) (start : Place → Value) (time : Effect → ℕ) (own : ℕ → ℕ → Effect)
        (all : List Effect) → OneByOne nodes start time own all → WaitsDirectly (small_run time all) (λ e. false) }
{}

/// A run of two nodes with a split copy and its sync, a store and the barrier that awaits it, a write that the plan sends
/// one-way, and a delay between two reads meets all that the laws ask. In it a store must precede what another node reads
/// behind the barrier, and so must a copy's write and the one-way write.
pub fn meeting_meets_premises()
    ensures timed { Timed meeting }
    ensures analysed { Analysed meeting }
    ensures code { CodeFacts meeting line_code }
    ensures tied { Tied meeting at_start needs may_follow rows }
    ensures follows { Follows meeting.does (sooner meeting) may_follow may_follow sorted }
    ensures store_precedes { MustPrecede meeting line_code (row_at rows 15) (row_at rows 18) }
    ensures copy_precedes { MustPrecede meeting line_code (row_at rows 6) (row_at rows 20) }
    ensures write_precedes { MustPrecede meeting line_code (row_at rows 12) (row_at rows 17) }
{}
