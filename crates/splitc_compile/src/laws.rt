//! Laws of compiled sources, as contracts of functions that do nothing: each source has exactly one answer, and its code does
//! what it says.

ghost use Rattle.std.specs.Prelude.{◌≡◌, ◌⊎◌, ℕ, List};
ghost use Rattle.front_end.specs.declared.refusal.Refusal.{Refusal};
ghost use Rattle.node_emit.specs.Law.{IsEmitted};
ghost use Rattle.splitc_compile.specs.Answers.{IsCompilable, Says};
ghost use Rattle.splitc_compile.specs.Compiled.{Parts, AreParts};

/// A source that has code has no refusal.
pub fn compilable_is_not_refused()
    ensures { (source : List ℕ) (nodes : ℕ) (r : Refusal) → IsCompilable source nodes → Says source nodes r → ⊥ }
{}

/// A source has at most one refusal.
pub fn at_most_one_refusal()
    ensures { (source : List ℕ) (nodes : ℕ) (r s : Refusal) → Says source nodes r → Says source nodes s → r ≡ s }
{}

/// A source has code or has a refusal.
pub fn compilable_or_refused()
    ensures { (source : List ℕ) (nodes : ℕ) → IsCompilable source nodes ⊎ ((r : Refusal) × Says source nodes r) }
{}

/// The code of a compiled source is sound, carries the source's flow and its plan, and shows on each node what the source
/// shows.
pub fn compiled_is_emitted()
    ensures { (p : Parts) → AreParts p → IsEmitted p.layout p.core p.plan p.code }
{}
