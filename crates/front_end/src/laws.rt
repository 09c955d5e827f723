//! Each source has exactly one answer: laws of the definitions, as contracts of functions that do nothing.

ghost use Rattle.std.specs.Prelude.{◌≡◌, ◌⊎◌, ℕ, List};
ghost use Rattle.sc_layout.specs.Layout.{Arrangement};
ghost use Rattle.sc_tree.specs.Names.{Text};
ghost use Rattle.sc_tree.specs.PlainTypedTree.{PlainTypedTree};
ghost use Rattle.front_end.specs.Accepted.{IsAccepted, Says};
ghost use Rattle.front_end.specs.declared.refusal.Refusal.{Refusal};

/// A source is accepted with one list of names, one typed tree and one layout.
pub fn at_most_one_acceptance()
    ensures { (source : List ℕ) (nodes : ℕ) (names other_names : List Text) (typed other_typed : PlainTypedTree)
        (layout other_layout : Arrangement) → IsAccepted source nodes names typed layout →
        IsAccepted source nodes other_names other_typed other_layout →
        (names ≡ other_names) × (typed ≡ other_typed) × (layout ≡ other_layout) }
{}

/// A source that is accepted has no refusal.
pub fn accepted_is_not_refused()
    ensures { (source : List ℕ) (nodes : ℕ) (names : List Text) (typed : PlainTypedTree) (layout : Arrangement) →
        IsAccepted source nodes names typed layout → (r : Refusal) → Says source nodes r → ⊥ }
{}

/// A source has at most one refusal.
pub fn at_most_one_refusal()
    ensures { (source : List ℕ) (nodes : ℕ) (r s : Refusal) → Says source nodes r → Says source nodes s → r ≡ s }
{}

/// A source is accepted or has a refusal.
pub fn accepted_or_refused()
    ensures { (source : List ℕ) (nodes : ℕ) →
        ((names : List Text) × (typed : PlainTypedTree) × (layout : Arrangement) ×
        IsAccepted source nodes names typed layout) ⊎ ((r : Refusal) × Says source nodes r) }
{}
