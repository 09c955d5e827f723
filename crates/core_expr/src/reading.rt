//! What the lowering reads off typed expressions.

ghost use Rattle.std.specs.Prelude.{◌≡◌, map};
ghost use Rattle.sc_tree.specs.ViewTyped.{plain_typed, plain_typed_kind, plain_typed_link, plain_typed_tail, typed_links_of};
ghost use Rattle.sc_core.specs.Expressions as expressions;

use crate::places::{last_of, without_last};
use sc_base::Star;
use sc_tree::{Named, TypedExpr, TypedKind, TypedLink, TypedTail};

/// The last star of the expression's type.
#[tactic(auto, using(sc_tree::proofs::ViewTypedLaws::typed_expression_views))]
pub fn star_of(e: &TypedExpr) -> Option<Star>
    ensures { result ≡ expressions.star_of (plain_typed e.now) }
{
    last_of(e.ty.stars.as_slice())
}

#[tactic(auto, using(sc_tree::proofs::ViewTypedLaws::typed_expression_views))]
pub fn stars_of(e: &TypedExpr) -> &[Star]
    ensures { result.now ≡ (expressions.type_of (plain_typed e.now)).stars }
{
    e.ty.stars.as_slice()
}

#[tactic(auto, using(sc_tree::proofs::ViewTypedLaws::typed_expression_views))]
pub fn line_of(e: &TypedExpr) -> u32
    ensures { result ≡ expressions.line_of (plain_typed e.now) }
{
    e.line
}

/// The object that the expression is the name of.
#[tactic(auto, using(sc_tree::proofs::ViewTypedLaws::typed_expression_views))]
pub fn object_named(e: &TypedExpr) -> Option<u32>
    ensures { result ≡ expressions.object_named (plain_typed e.now) }
{
    match &e.kind {
        TypedKind::Name(Named::Object(object)) => Some(*object),
        _ => None,
    }
}

/// The stars of the type that stands before the tail, as they are with it.
#[tactic(auto, using(sc_tree::proofs::ViewTypedLaws::typed_expression_views))]
pub fn stars_behind<'a>(stars: &'a [Star], tail: &TypedTail) -> &'a [Star]
    ensures { result.now ≡ expressions.stars_behind stars.now (plain_typed_tail tail.now) }
{
    match tail {
        TypedTail::Index { .. } => without_last(stars),
        TypedTail::Up { .. } => stars,
        TypedTail::Down { .. } => stars,
    }
}

/// Whether the index is written with numbers, `MYPROC`, `PROCS`, locals and operators of two alone.
#[cycle(plain)]
#[tactic(auto, using(sc_tree::proofs::ViewTypedLaws::typed_expression_views))]
pub fn is_plain(e: &TypedExpr) -> bool
    ensures { result ≡ expressions.is_plain (plain_typed e.now) }
{
    is_plain_form(&e.kind)
}

#[cycle(plain)]
#[tactic(auto, using(sc_tree::proofs::ViewTypedLaws::typed_expression_views))]
fn is_plain_form(kind: &TypedKind) -> bool
    ensures { result ≡ expressions.is_plain_form (plain_typed_kind kind.now) }
{
    match kind {
        TypedKind::Number(_) => true,
        TypedKind::MyProc => true,
        TypedKind::Procs => true,
        TypedKind::Name(Named::Local(_)) => true,
        TypedKind::Chain { first, rest } => is_plain(first.get()) && are_plain(rest.as_slice()),
        _ => false,
    }
}

#[cycle(plain)]
#[tactic(auto, using(std::proofs::lemmas::Grind::common_steps, sc_tree::proofs::ViewTypedLaws::typed_expression_views))]
fn are_plain(all: &[TypedLink]) -> bool
    ensures { result ≡ expressions.are_plain (typed_links_of (map plain_typed_link all.now)) }
{
    for link in all {
        if !is_plain(&link.e) {
            return false;
        }
    }
    true
}
