//! Laws of the answer and of types, as contracts of functions that do nothing.

ghost use Rattle.std.specs.Prelude.{◌≡◌, ◌⊎◌, ℕ, List, true, is_some};
ghost use Rattle.sc_tree.specs.Names.{Text};
ghost use Rattle.sc_tree.specs.Plain.{Expression, Kind, expression};
ghost use Rattle.sc_tree.specs.PlainTree.{PlainTree};
ghost use Rattle.sc_typing.specs.Answer.{IsWellTyped, IsFirstBroken};
ghost use Rattle.sc_typing.specs.BrokenExpressions.{BrokenIn};
ghost use Rattle.sc_typing.specs.ExpressionParts.{IsOperand};
ghost use Rattle.sc_typing.specs.Occurs.{OccursIn};
ghost use Rattle.sc_typing.specs.Program.{source_of_tree};
ghost use Rattle.sc_typing.specs.Scope.{Scope};
ghost use Rattle.sc_typing.specs.Source.{Source};
ghost use Rattle.sc_typing.specs.Typing.{judge};
ghost use Rattle.sc_typing.specs.declared.notes.Breach.{Breach};
ghost use Rattle.sc_typing.specs.declared.scope.InScope.{InScope};

/// A tree has at most one first broken rule with its line, and none where it is well-typed.
pub fn at_most_one_answer()
    ensures rule { (tree : PlainTree) (names texts : List Text) (rule line other_rule other_line : ℕ) →
        IsFirstBroken tree names texts rule line → IsFirstBroken tree names texts other_rule other_line →
        rule ≡ other_rule }
    ensures line { (tree : PlainTree) (names texts : List Text) (rule line other_rule other_line : ℕ) →
        IsFirstBroken tree names texts rule line → IsFirstBroken tree names texts other_rule other_line →
        line ≡ other_line }
    ensures not_both { (tree : PlainTree) (names texts : List Text) (rule line : ℕ) →
        IsFirstBroken tree names texts rule line → IsWellTyped tree names texts → ⊥ }
{}

/// A tree is well-typed, or has a first broken rule with its line.
pub fn some_answer()
    ensures { (tree : PlainTree) (names texts : List Text) →
        IsWellTyped tree names texts ⊎ ((rule : ℕ) × (line : ℕ) × IsFirstBroken tree names texts rule line) }
{}

/// An expression has a type exactly where nothing in it is broken; and so have its operands.
pub fn typed_where_unbroken()
    ensures typed { (c : Source) (locals : List InScope) (indices : ℕ) (e : Expression) →
        ((b : Breach) → BrokenIn c locals b indices e → ⊥) → is_some (judge c locals indices e).known ≡ true }
    ensures unbroken { (c : Source) (locals : List InScope) (indices : ℕ) (e : Expression) →
        is_some (judge c locals indices e).known ≡ true → (b : Breach) → BrokenIn c locals b indices e → ⊥ }
    ensures operands { (c : Source) (locals : List InScope) (indices taken start at line : ℕ) (kind : Kind)
        (e : Expression) → is_some (judge c locals indices (expression kind start at line)).known ≡ true →
        IsOperand c locals kind taken e → is_some (judge c locals taken e).known ≡ true }
{}

/// In a well-typed source each expression that the body of a function evaluates has a type.
pub fn well_typed_has_types()
    ensures { (tree : PlainTree) (names texts : List Text) → IsWellTyped tree names texts → (there : Scope)
        (e : Expression) → OccursIn tree there e →
        is_some (judge (source_of_tree tree names texts) there.locals 0 e).known ≡ true }
{}
