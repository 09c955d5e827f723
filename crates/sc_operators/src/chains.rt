//! Chains of operands, from judged operands.

ghost use Rattle.std.specs.Prelude.{◌≡◌, ◌∷◌, ◌++◌, [], map, IfOk};
ghost use Rattle.std.specs.Option.{option_map};
ghost use Rattle.std.specs.Result.{OnOk};
ghost use Rattle.sc_tree.specs.PlainTyped.{link};
ghost use Rattle.sc_tree.specs.ViewTyped.{plain_typed, plain_typed_link};
ghost use Rattle.sc_typing.specs.Operators as operators;
ghost use Rattle.sc_typing.specs.Chains as chains;
ghost use Rattle.sc_typing.specs.Rules as kept;
ghost use Rattle.sc_typing.specs.Types as types;
ghost use Rattle.sc_typing.proofs.ExpressionNotes as notes_of;
ghost use Rattle.sc_typing.specs.Typing as typing;
ghost use Rattle.sc_typing.specs.ViewKnown.{seen, seen_judged};
ghost use Rattle.sc_operators.specs.ViewChains.{seen_linked, seen_gathered};

use crate::noting::note_one;
use sc_base::{Binary, Ty, copy_of_type};
use sc_tree::{TypedExpr, TypedKind, TypedLink};
use sc_typing::chains::{Level, level_of, link_rule};
use sc_typing::known::{Judged, Known, Spot, common, fits, int_value, judgement, valued};
use sc_typing::notes::Notes;
use sc_typing::places::PlaceKind;
use sc_typing::rules::{are_int, are_scalar};
use sc_typing::types::{int, is_int, is_pointer};
use sqlite_items::{Boxed, Items};
use std::alloc::{AllocError, Global};

/// A chain from the left so far: its first operand and links, the type of its value, and whether that is `NULL` or 0.
#[derive(Drop)]
pub struct Linked {
    pub first: Known,
    pub rest: Vec<TypedLink>,
    pub ty: Ty,
    pub is_null: bool,
}

/// The operands of `&&` or `||` so far, and whether each has a type.
#[derive(Drop)]
pub struct Gathered {
    pub all: Vec<TypedExpr>,
    pub whole: bool,
}

/// A chain of its first operand alone, where that has a type and is not void. The error is want of memory.
#[tactic(auto, unfolding(sc_typing::specs::Chains::begin_chain))]
pub fn begin_chain(alloc: Global, operand: Judged) -> Result<Option<Linked>, AllocError>
    ensures { IfOk result (λ made. option_map seen_linked made ≡ chains.begin_chain (seen_judged operand)) }
{
    let Some(first) = operand.used() else {
        return Ok(None);
    };
    let made = first_link(alloc, first)?;
    Ok(Some(made))
}

fn first_link(alloc: Global, first: Known) -> Result<Linked, AllocError>
    ensures { IfOk result (λ made. seen_linked made ≡ chains.first_link (seen first)) }
{
    let ty = copy_of_type(alloc, &first.ty)?;
    let is_null = first.is_null;
    Ok(Linked {
        first,
        rest: Vec::new(alloc),
        ty,
        is_null,
    })
}

/// The rules on the link with this operator and operand.
#[tactic(auto, unfolding(sc_typing::proofs::ExpressionNotes::note_join))]
pub fn note_join(
    notes: &mut Notes,
    left: &Option<Linked>,
    op: Binary,
    right: &Judged,
    at: u32,
) -> Result<(), AllocError>
    ensures { IfOk result (λ _. notes.new ≡ notes_of.note_join (option_map seen_linked left.now) op (seen_judged right.now) at notes.old) }
{
    let kept = join_kept(left, op, right);
    note_one(notes, right, kept, at, link_rule(level_of(op)))?;
    Ok(())
}

/// Whether the rule on the link's operands is kept.
fn join_kept(left: &Option<Linked>, op: Binary, right: &Judged) -> bool
    ensures { result ≡ chains.join_kept (option_map seen_linked left.now) op (seen_judged right.now) }
{
    match level_of(op) {
        Level::Sums => left_scalar(left) && are_int(&right.known),
        Level::Equalities => left_comparable(left, &right.known),
        Level::Others => left_int(left) && are_int(&right.known),
    }
}

fn left_scalar(left: &Option<Linked>) -> bool
    ensures { result ≡ kept.are_scalar (option_map chains.left_operand (option_map seen_linked left.now)) }
{
    match left {
        None => true,
        Some(l) => !l.ty.void,
    }
}

fn left_int(left: &Option<Linked>) -> bool
    ensures { result ≡ kept.are_int (option_map chains.left_operand (option_map seen_linked left.now)) }
{
    match left {
        None => true,
        Some(l) => is_int(&l.ty),
    }
}

fn left_comparable(left: &Option<Linked>, right: &Option<Known>) -> bool
    ensures { result ≡ kept.comparison_kept (option_map chains.left_operand (option_map seen_linked left.now)) (option_map seen right.now) }
{
    let Some(a) = left else {
        return true;
    };
    let Some(b) = right else {
        return true;
    };
    comparable(a, b)
}

fn comparable(left: &Linked, right: &Known) -> bool
    ensures { result ≡ kept.comparable (chains.left_operand (seen_linked left.now)) (seen right.now) }
{
    (is_int(&left.ty) && is_int(&right.ty))
        || (is_pointer(&right.ty) && fits(&left.ty, left.is_null, &right.ty))
        || (is_pointer(&left.ty) && fits(&right.ty, right.is_null, &left.ty))
}

/// The chain with one more link.
#[tactic(auto, unfolding(sc_typing::specs::Chains::join))]
pub fn join(
    alloc: Global,
    left: Option<Linked>,
    op: Binary,
    right: Judged,
    at: u32,
    line: u32,
) -> Result<Option<Linked>, AllocError>
    ensures { IfOk result (λ made. option_map seen_linked made ≡ chains.join (option_map seen_linked left) op (seen_judged right) at line) }
{
    let kept = join_kept(&left, op, &right);
    let Some(l) = left else {
        return Ok(None);
    };
    let Some(v) = right.only(kept) else {
        return Ok(None);
    };
    let made = with_link(alloc, l, op, v, at, line)?;
    Ok(Some(made))
}

/// The link behind the chain.
fn with_link(
    alloc: Global,
    chain: Linked,
    op: Binary,
    known: Known,
    at: u32,
    line: u32,
) -> Result<Linked, AllocError>
    ensures { IfOk result (λ made. seen_linked made ≡ chains.with_link (chains.row_of op) (seen_linked chain) op at line (seen known)) }
{
    match level_of(op) {
        Level::Sums => pushed(chain, op, known.e, at, line),
        Level::Equalities => equality(alloc, chain, op, known, at, line),
        Level::Others => pushed_int(alloc, chain, op, known.e, at, line),
    }
}

fn pushed(
    chain: Linked,
    op: Binary,
    expression: Boxed<TypedExpr>,
    at: u32,
    line: u32,
) -> Result<Linked, AllocError>
    ensures { IfOk result (λ made. seen_linked made ≡ chains.pushed (record { left = seen_linked chain; right = plain_typed expression }) op chain.ty at line) }
{
    let mut rest = chain.rest;
    push_link(&mut rest, op, expression, at, line)?;
    Ok(Linked {
        first: chain.first,
        rest,
        ty: chain.ty,
        is_null: false,
    })
}

fn pushed_int(
    alloc: Global,
    chain: Linked,
    op: Binary,
    expression: Boxed<TypedExpr>,
    at: u32,
    line: u32,
) -> Result<Linked, AllocError>
    ensures { IfOk result (λ made. seen_linked made ≡ chains.pushed (record { left = seen_linked chain; right = plain_typed expression }) op types.int at line) }
{
    let mut rest = chain.rest;
    push_link(&mut rest, op, expression, at, line)?;
    Ok(Linked {
        first: chain.first,
        rest,
        ty: int(alloc),
        is_null: false,
    })
}

fn push_link(
    rest: &mut Vec<TypedLink>,
    op: Binary,
    expression: Boxed<TypedExpr>,
    at: u32,
    line: u32,
) -> Result<(), AllocError>
    ensures { OnOk result (map plain_typed_link rest.new.items ≡ map plain_typed_link rest.old.items ++ link op (plain_typed expression) at line ∷ []) }
{
    rest.push(TypedLink {
        op,
        e: expression.into_inner(),
        at,
        line,
    })?;
    Ok(())
}

/// The link of operands that are compared, which become of one type.
fn equality(
    alloc: Global,
    chain: Linked,
    op: Binary,
    known: Known,
    at: u32,
    line: u32,
) -> Result<Linked, AllocError>
    ensures { IfOk result (λ made. seen_linked made ≡ chains.pushed (chains.of_one_type (seen_linked chain) (seen known)) op types.int at line) }
{
    let ty = common(alloc, &chain.ty, chain.is_null, &known.ty)?;
    let chain = with_first(alloc, chain, &ty)?;
    let known = known.meets(alloc, &ty)?;
    let made = pushed_int(alloc, chain, op, known.e, at, line)?;
    Ok(made)
}

/// The chain whose first operand becomes of the type, unless it has links already.
fn with_first(alloc: Global, chain: Linked, ty: &Ty) -> Result<Linked, AllocError>
    ensures { IfOk result (λ made. seen_linked made ≡ chains.with_first (seen_linked chain) ty.now) }
{
    if has_links(chain.rest.as_slice()) {
        return Ok(chain);
    }
    let first = chain.first.meets(alloc, ty)?;
    Ok(Linked {
        first,
        rest: chain.rest,
        ty: chain.ty,
        is_null: chain.is_null,
    })
}

fn has_links(rest: &[TypedLink]) -> bool
    ensures { result ≡ chains.has_links (map plain_typed_link rest.now) }
{
    match rest {
        [] => false,
        [_, ..] => true,
    }
}

/// The whole chain.
pub fn chained(alloc: Global, spot: Spot, all: Option<Linked>) -> Result<Judged, AllocError>
    ensures { IfOk result (λ made. seen_judged made ≡ typing.chained spot (option_map seen_linked all)) }
{
    let Some(l) = all else {
        return Ok(judgement(spot, PlaceKind::NoPlace, None));
    };
    let v = chain_value(alloc, spot, l)?;
    Ok(judgement(spot, PlaceKind::NoPlace, Some(v)))
}

fn chain_value(alloc: Global, spot: Spot, chain: Linked) -> Result<Known, AllocError>
    ensures { IfOk result (λ made. seen made ≡ chains.chain_value spot (seen_linked chain)) }
{
    let own = copy_of_type(alloc, &chain.ty)?;
    let first = chain.first;
    let kind = TypedKind::Chain {
        first: first.e,
        rest: Items::from_vec(chain.rest),
    };
    let made = valued(alloc, kind, own, chain.ty, false, spot)?;
    Ok(made)
}

/// No operand so far.
pub fn nothing_gathered(alloc: Global) -> Gathered
    ensures { seen_gathered result ≡ typing.nothing_gathered }
{
    Gathered {
        all: Vec::new(alloc),
        whole: true,
    }
}

/// The operands with one more.
#[tactic(auto, unfolding(sc_typing::specs::Operators::gather))]
pub fn gather(gathered: Gathered, operand: Judged) -> Result<Gathered, AllocError>
    ensures { IfOk result (λ made. seen_gathered made ≡ operators.gather (seen_gathered gathered) (seen_judged operand)) }
{
    let kept = are_scalar(&operand.known);
    let mut all = gathered.all;
    let Some(v) = operand.only(kept) else {
        return Ok(Gathered { all, whole: false });
    };
    push_operand(&mut all, v.e)?;
    Ok(Gathered {
        all,
        whole: gathered.whole,
    })
}

/// Adds the expression behind the others. The error is want of memory.
pub fn push_operand(
    all: &mut Vec<TypedExpr>,
    expression: Boxed<TypedExpr>,
) -> Result<(), AllocError>
    ensures { OnOk result (map plain_typed all.new.items ≡ map plain_typed all.old.items ++ plain_typed expression ∷ []) }
{
    all.push(expression.into_inner())?;
    Ok(())
}

/// The operands joined by `&&`.
pub fn both_of(alloc: Global, spot: Spot, gathered: Gathered) -> Result<Judged, AllocError>
    ensures { IfOk result (λ made. seen_judged made ≡ typing.gathered_value typing.both_form spot (seen_gathered gathered)) }
{
    if !gathered.whole {
        return Ok(judgement(spot, PlaceKind::NoPlace, None));
    }
    let kind = TypedKind::And(Items::from_vec(gathered.all));
    let v = int_value(alloc, kind, spot)?;
    Ok(judgement(spot, PlaceKind::NoPlace, Some(v)))
}

/// The operands joined by `||`.
pub fn either_of(alloc: Global, spot: Spot, gathered: Gathered) -> Result<Judged, AllocError>
    ensures { IfOk result (λ made. seen_judged made ≡ typing.gathered_value typing.either_form spot (seen_gathered gathered)) }
{
    if !gathered.whole {
        return Ok(judgement(spot, PlaceKind::NoPlace, None));
    }
    let kind = TypedKind::Or(Items::from_vec(gathered.all));
    let v = int_value(alloc, kind, spot)?;
    Ok(judgement(spot, PlaceKind::NoPlace, Some(v)))
}
