//! Laws of what a refusal says of tokens, as contracts of functions that do nothing.

ghost use Rattle.std.specs.Prelude.{◌≡◌, ◌+◌, ◌⊎◌, ℕ, List, length};
ghost use Rattle.sc_tree.specs.declared.token.Token.{Token};
ghost use Rattle.sc_tree.specs.PlainTree.{PlainTree};
ghost use Rattle.sc_grammar.specs.Sentence.{Sentence, Shallow, IsSyntax, IsTooDeep};

/// Tokens are refused in at most one place, and for one reason there.
pub fn at_most_one_refusal()
    ensures syntax { (limit : ℕ) (ts : List Token) (j k : ℕ) → IsSyntax limit ts j → IsSyntax limit ts k → j ≡ k }
    ensures deep { (limit : ℕ) (ts : List Token) (j k : ℕ) → IsTooDeep limit ts j → IsTooDeep limit ts k → j ≡ k }
    ensures not_both { (limit : ℕ) (ts : List Token) (j k : ℕ) → IsSyntax limit ts j → IsTooDeep limit ts k → ⊥ }
{}

/// A sentence with no token too deep has no refusal.
pub fn sentences_are_not_refused()
    ensures syntax { (limit : ℕ) (ts : List Token) (tree : PlainTree) (k : ℕ) → Sentence ts tree →
        IsSyntax limit ts k → ⊥ }
    ensures deep { (limit : ℕ) (ts : List Token) (tree : PlainTree) (k : ℕ) → Sentence ts tree →
        Shallow limit ts (length ts + 1) → IsTooDeep limit ts k → ⊥ }
{}

/// Tokens are a sentence with no token too deep, or are refused.
pub fn sentence_or_refusal()
    ensures { (limit : ℕ) (ts : List Token) →
        ((tree : PlainTree) × Sentence ts tree × Shallow limit ts (length ts + 1)) ⊎
        (((k : ℕ) × IsSyntax limit ts k) ⊎ ((k : ℕ) × IsTooDeep limit ts k)) }
{}
