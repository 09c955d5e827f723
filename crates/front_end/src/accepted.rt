//! The acceptance of a source.

ghost use Rattle.std.specs.Prelude.{ℕ, ◌≡◌, ◌≤◌, ◌<◌, List, IfOk, IfErr, length};
ghost use Rattle.std.specs.List.{All};
ghost use Rattle.sc_base.specs.declared.limits.TheConstants.{LIMITS};
ghost use Rattle.sc_layout.specs.Layout.{IsLawful};
ghost use Rattle.sc_lexer.specs.Text.{IsLexed};
ghost use Rattle.sc_typing.specs.Answer.{IsWellTyped};
ghost use Rattle.sc_typing.specs.Program as program;
ghost use Rattle.sc_tree.specs.declared.lexed.Lexed.{Lexed as LexedText};
ghost use Rattle.sc_tree.specs.ViewTree.{plain_tree};
ghost use Rattle.sc_tree.specs.ViewTypedTree.{plain_typed_tree};
ghost use Rattle.front_end.specs.Accepted as accepting;

use crate::refusal::{CompileError, of_check, of_layout, of_lexing, of_parsing};
use sc_check::check;
use sc_layout::{Layout, layout};
use sc_lexer::lex;
use sc_parser::parse;
use sc_tree::{Lexed, Names, Tree, Typed};
use std::alloc::Global;

/// A source that is accepted: its names, its tree with types, and the layout of its objects.
#[derive(Drop)]
pub struct Accepted {
    pub names: Names,
    pub typed: Typed,
    pub layout: Layout,
}

/// The typed tree and the layout of the source for so many nodes, or the first refusal. A source has at most
/// `LIMITS.source` bytes, and there is at least one node.
pub fn accept(alloc: Global, source: &[u8], nodes: u32) -> Result<Accepted, CompileError>
    requires short { length source.now ≤ LIMITS.source }
    requires some_node { 0 < nodes }
    ensures { accepting.IsAnswer source.now nodes result }
{
    let lexed = match lexed_of(alloc, source) {
        Ok(lexed) => lexed,
        Err(e) => return Err(e),
    };
    let tree = match tree_of(alloc, &lexed) {
        Ok(tree) => tree,
        Err(e) => return Err(e),
    };
    let layout = match layout_of(alloc, &tree, nodes) {
        Ok(layout) => layout,
        Err(e) => return Err(e),
    };
    let typed = match typed_of(alloc, &tree, &lexed, &layout, nodes) {
        Ok(typed) => typed,
        Err(e) => return Err(e),
    };
    Ok(Accepted {
        names: lexed.names,
        typed,
        layout,
    })
}

/// The tokens of the source.
fn lexed_of(alloc: Global, source: &[u8]) -> Result<Lexed, CompileError>
    requires { length source.now ≤ LIMITS.source }
    ensures lexed { IfOk result (λ lexed. IsLexed source.now lexed) }
    ensures tokens { IfOk result (λ lexed. length lexed.tokens ≤ LIMITS.tokens) }
    ensures refused { IfErr result (λ e. (nodes : ℕ) → accepting.Excuses source.now nodes e) }
{
    match lex(alloc, source) {
        Ok(lexed) => Ok(lexed),
        Err(e) => Err(of_lexing(e)),
    }
}

/// The tree of the tokens.
fn tree_of(alloc: Global, lexed: &Lexed) -> Result<Tree, CompileError>
    requires { length lexed.now.tokens ≤ LIMITS.tokens }
    ensures read { IfOk result (λ tree. (source : List ℕ) → IsLexed source lexed.now → accepting.IsRead source lexed.now (plain_tree tree)) }
    ensures refused { IfErr result (λ e. (source : List ℕ) (nodes : ℕ) → IsLexed source lexed.now → accepting.Excuses source nodes e) }
{
    match parse(alloc, lexed.tokens.as_slice()) {
        Ok(tree) => Ok(tree),
        Err(e) => Err(of_parsing(e)),
    }
}

/// The layout of the tree's objects.
fn layout_of(alloc: Global, tree: &Tree, nodes: u32) -> Result<Layout, CompileError>
    requires lawful { All IsLawful (plain_tree tree.now).objects }
    requires some_node { 0 < nodes }
    ensures laid { IfOk result (λ l. (source : List ℕ) (lexed : LexedText) → accepting.IsRead source lexed (plain_tree tree.now) → accepting.IsLaid source nodes lexed (plain_tree tree.now) l) }
    ensures refused { IfErr result (λ e. (source : List ℕ) (lexed : LexedText) → accepting.IsRead source lexed (plain_tree tree.now) → accepting.Excuses source nodes e) }
{
    match layout(alloc, tree.objects.as_slice(), nodes) {
        Ok(layout) => Ok(layout),
        Err(e) => Err(of_layout(e)),
    }
}

/// The tree with types.
fn typed_of(
    alloc: Global,
    tree: &Tree,
    lexed: &Lexed,
    layout: &Layout,
    nodes: u32,
) -> Result<Typed, CompileError>
    ensures typed { IfOk result (λ typed. (plain_typed_tree typed ≡ program.typed_of (plain_tree tree.now) lexed.now.names lexed.now.texts) × IsWellTyped (plain_tree tree.now) lexed.now.names lexed.now.texts) }
    ensures refused { IfErr result (λ e. (source : List ℕ) → accepting.IsLaid source nodes lexed.now (plain_tree tree.now) layout.now → accepting.Excuses source nodes e) }
{
    match check(alloc, tree, lexed, layout) {
        Ok(typed) => Ok(typed),
        Err(e) => Err(of_check(e)),
    }
}
