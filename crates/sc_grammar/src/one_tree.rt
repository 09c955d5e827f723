//! A law of the grammar, stated as a contract.

ghost use Rattle.std.specs.Prelude.{◌≡◌};
ghost use Rattle.sc_tree.specs.PlainTree.{PlainTree};
ghost use Rattle.sc_grammar.specs.Sentence.{Sentence};

use sc_tree::Token;

/// Tokens have at most one tree.
pub fn at_most_one_tree(tokens: &[Token])
    ensures { (t u : PlainTree) → Sentence tokens.now t → Sentence tokens.now u → t ≡ u }
{}
