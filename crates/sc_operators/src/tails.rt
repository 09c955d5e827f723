//! Postfix expressions: indices, `++` and `--` behind judged expressions.

ghost use Rattle.std.specs.Prelude.{◌≡◌, ◌∷◌, ◌++◌, [], map, None, true, false, IfOk};
ghost use Rattle.std.specs.Option.{option_map};
ghost use Rattle.std.specs.Result.{OnOk};
ghost use Rattle.sc_tree.specs.PlainTyped.{index};
ghost use Rattle.sc_tree.specs.ViewTyped.{plain_typed, plain_typed_tail};
ghost use Rattle.sc_typing.specs.Tails as tails;
ghost use Rattle.sc_typing.proofs.ExpressionNotes as notes_of;
ghost use Rattle.sc_typing.specs.Typing as typing;
ghost use Rattle.sc_typing.specs.Places as places;
ghost use Rattle.sc_typing.specs.ViewKnown.{seen, seen_judged};
ghost use Rattle.sc_operators.specs.ViewTails.{seen_tailed, seen_tailing};

use crate::noting::note_one;
use sc_base::{Ty, copy_of_type};
use sc_tree::{TypedExpr, TypedKind, TypedTail};
use sc_typing::Rule;
use sc_typing::known::{Judged, Known, Spot, judgement, valued};
use sc_typing::notes::Notes;
use sc_typing::places::{PlaceKind, may_be_set};
use sc_typing::rules::are_int;
use sc_typing::types::{element, is_int, is_pointer, last_star};
use sqlite_items::{Boxed, Items};
use std::alloc::{AllocError, Global};

/// A postfix expression so far: its first part and what stands behind it, its type, and whether it is `NULL` or 0.
#[derive(Drop)]
pub struct Tailed {
    pub first: Boxed<TypedExpr>,
    pub rest: Vec<TypedTail>,
    pub ty: Ty,
    pub is_null: bool,
}

/// It, where it has a type, with which place it is, and how many of the next indices belong to its object.
#[derive(Drop)]
pub struct Tailing {
    pub place: PlaceKind,
    pub skip: usize,
    pub tailed: Option<Tailed>,
}

/// A postfix expression of its first part alone, where that has a type and is not void. The error is want of memory.
#[tactic(auto, unfolding(sc_typing::specs::Tails::begin_tails))]
pub fn begin_tails(alloc: Global, operand: Judged) -> Result<Tailing, AllocError>
    ensures { IfOk result (λ made. seen_tailing made ≡ tails.begin_tails (seen_judged operand)) }
{
    let place = operand.place;
    let skip = operand.taken;
    let tailed = match operand.used() {
        None => None,
        Some(v) => Some(first_tail(alloc, v)),
    };
    Ok(Tailing {
        place,
        skip,
        tailed,
    })
}

fn first_tail(alloc: Global, known: Known) -> Tailed
    ensures { seen_tailed result ≡ tails.first_tail (seen known) }
{
    Tailed {
        first: known.e,
        rest: Vec::new(alloc),
        ty: known.ty,
        is_null: known.is_null,
    }
}

/// The rules on an index behind the expression.
#[tactic(auto, unfolding(sc_typing::proofs::ExpressionNotes::note_index))]
pub fn note_index(
    notes: &mut Notes,
    tailing: &Tailing,
    index: &Judged,
    at: u32,
) -> Result<(), AllocError>
    ensures { IfOk result (λ _. notes.new ≡ notes_of.note_index (seen_tailing tailing.now) (seen_judged index.now) at notes.old) }
{
    note_one(notes, index, are_int(&index.known), at, Rule::Index)?;
    if 0 < tailing.skip {
        return Ok(());
    }
    notes.demand(pointed(tailing), at, Rule::Pointer)?;
    Ok(())
}

/// Whether what stands before an index that is not the object's own is a pointer.
fn pointed(tailing: &Tailing) -> bool
    ensures { result ≡ tails.pointed (seen_tailing tailing.now) }
{
    match &tailing.tailed {
        None => true,
        Some(tailed) => is_pointer(&tailed.ty),
    }
}

/// The expression with one more index.
#[tactic(auto, unfolding(sc_typing::specs::Tails::index_tail))]
pub fn index_tail(
    alloc: Global,
    tailing: Tailing,
    index: Judged,
    at: u32,
    line: u32,
) -> Result<Tailing, AllocError>
    ensures { IfOk result (λ made. seen_tailing made ≡ tails.index_tail (seen_tailing tailing) (seen_judged index) at line) }
{
    if 0 < tailing.skip {
        return own_index(tailing, index, at, line);
    }
    pointer_index(alloc, tailing, index, at, line)
}

/// With one more of the object's own indices.
#[tactic(auto, unfolding(sc_typing::specs::Tails::own_index))]
fn own_index(tailing: Tailing, index: Judged, at: u32, line: u32) -> Result<Tailing, AllocError>
    ensures { IfOk result (λ made. seen_tailing made ≡ tails.own_index (seen_tailing tailing) (seen_judged index) at line) }
{
    let skip = tailing.skip.saturating_sub(1);
    let place = tailing.place;
    let kept = are_int(&index.known);
    let Some(tailed) = tailing.tailed else {
        return Ok(without_type(place, skip));
    };
    let Some(v) = index.only(kept) else {
        return Ok(without_type(place, skip));
    };
    let tailed = with_own_index(tailed, v, at, line)?;
    Ok(Tailing {
        place,
        skip,
        tailed: Some(tailed),
    })
}

/// With an index of a pointer.
#[tactic(auto, unfolding(sc_typing::specs::Tails::pointer_index))]
fn pointer_index(
    alloc: Global,
    tailing: Tailing,
    index: Judged,
    at: u32,
    line: u32,
) -> Result<Tailing, AllocError>
    ensures { IfOk result (λ made. seen_tailing made ≡ tails.pointer_index (seen_tailing tailing) (seen_judged index) at line) }
{
    let place = reached(&tailing.tailed);
    let kept = are_int(&index.known) && pointed(&tailing);
    let Some(tailed) = tailing.tailed else {
        return Ok(without_type(place, 0));
    };
    let Some(v) = index.only(kept) else {
        return Ok(without_type(place, 0));
    };
    let tailed = with_index(alloc, tailed, v, at, line)?;
    Ok(Tailing {
        place,
        skip: 0,
        tailed: Some(tailed),
    })
}

/// An indexed expression in which a rule is broken.
fn without_type(place: PlaceKind, skip: usize) -> Tailing
    ensures { seen_tailing result ≡ record { place = place; skip = skip; tailed = None } }
{
    Tailing {
        place,
        skip,
        tailed: None,
    }
}

/// An index of the object itself leaves the type that the object has with all of them.
fn with_own_index(tailed: Tailed, known: Known, at: u32, line: u32) -> Result<Tailed, AllocError>
    ensures { IfOk result (λ made. seen_tailed made ≡ tails.with_own_index at line (seen_tailed tailed) (seen known)) }
{
    let mut rest = tailed.rest;
    push_index(&mut rest, known.e, at, line)?;
    Ok(Tailed {
        first: tailed.first,
        rest,
        ty: tailed.ty,
        is_null: false,
    })
}

/// The memory place that what stands before an index reaches.
fn reached(tailed: &Option<Tailed>) -> PlaceKind
    ensures { result ≡ places.reached_by (option_map tails.value_so_far (option_map seen_tailed tailed.now)) }
{
    match tailed {
        None => PlaceKind::Memory(None),
        Some(tailed) => PlaceKind::Memory(last_star(&tailed.ty)),
    }
}

fn with_index(
    alloc: Global,
    tailed: Tailed,
    known: Known,
    at: u32,
    line: u32,
) -> Result<Tailed, AllocError>
    ensures { IfOk result (λ made. seen_tailed made ≡ tails.with_index at line (seen_tailed tailed) (seen known)) }
{
    let ty = element(alloc, &tailed.ty)?;
    let mut rest = tailed.rest;
    push_index(&mut rest, known.e, at, line)?;
    Ok(Tailed {
        first: tailed.first,
        rest,
        ty,
        is_null: false,
    })
}

fn push_index(
    rest: &mut Vec<TypedTail>,
    expression: Boxed<TypedExpr>,
    at: u32,
    line: u32,
) -> Result<(), AllocError>
    ensures { OnOk result (map plain_typed_tail rest.new.items ≡ map plain_typed_tail rest.old.items ++ index (plain_typed expression) at line ∷ []) }
{
    rest.push(TypedTail::Index {
        index: expression.into_inner(),
        at,
        line,
    })?;
    Ok(())
}

/// The rules on `++` or `--` behind the expression.
#[tactic(auto, unfolding(sc_typing::proofs::ExpressionNotes::note_step))]
pub fn note_step(notes: &mut Notes, tailing: &Tailing, at: u32) -> Result<(), AllocError>
    ensures { IfOk result (λ _. notes.new ≡ notes_of.note_step (seen_tailing tailing.now) at notes.old) }
{
    notes.demand(stepped(tailing), at, Rule::Update)?;
    Ok(())
}

/// Whether what stands before `++` or `--` can be stepped.
fn stepped(tailing: &Tailing) -> bool
    ensures { result ≡ tails.stepped (seen_tailing tailing.now) }
{
    if !may_be_set(tailing.place) {
        return false;
    }
    match &tailing.tailed {
        None => true,
        Some(tailed) => { is_int(&tailed.ty) || is_pointer(&tailed.ty) }
    }
}

/// The expression with `++` or `--` behind it.
#[tactic(auto, unfolding(sc_typing::specs::Tails::step_tail))]
pub fn step_tail(tailing: Tailing, up: bool, at: u32, line: u32) -> Result<Tailing, AllocError>
    ensures { IfOk result (λ made. seen_tailing made ≡ tails.step_tail (seen_tailing tailing) up at line) }
{
    let kept = stepped(&tailing);
    let Some(tailed) = kept_tail(kept, tailing.tailed) else {
        return Ok(Tailing {
            place: PlaceKind::NoPlace,
            skip: 0,
            tailed: None,
        });
    };
    let tailed = with_step(tailed, up, at, line)?;
    Ok(Tailing {
        place: PlaceKind::NoPlace,
        skip: 0,
        tailed: Some(tailed),
    })
}

fn kept_tail(kept: bool, tailed: Option<Tailed>) -> Option<Tailed>
    ensures { option_map seen_tailed result ≡ tails.kept_tail kept (option_map seen_tailed tailed) }
{
    if kept { tailed } else { None }
}

fn with_step(tailed: Tailed, up: bool, at: u32, line: u32) -> Result<Tailed, AllocError>
    ensures { IfOk result (λ made. seen_tailed made ≡ tails.with_step (tails.step_of_tail up at line) (seen_tailed tailed)) }
{
    let mut rest = tailed.rest;
    push_step(&mut rest, up, at, line)?;
    Ok(Tailed {
        first: tailed.first,
        rest,
        ty: tailed.ty,
        is_null: false,
    })
}

fn push_step(rest: &mut Vec<TypedTail>, up: bool, at: u32, line: u32) -> Result<(), AllocError>
    ensures { OnOk result (map plain_typed_tail rest.new.items ≡ map plain_typed_tail rest.old.items ++ tails.step_of_tail up at line ∷ []) }
{
    if up {
        rest.push(TypedTail::Up { at, line })?;
        return Ok(());
    }
    rest.push(TypedTail::Down { at, line })?;
    Ok(())
}

/// The whole postfix expression.
pub fn finish(alloc: Global, spot: Spot, all: Tailing) -> Result<Judged, AllocError>
    ensures { IfOk result (λ made. seen_judged made ≡ typing.tailed spot (seen_tailing all)) }
{
    let place = all.place;
    let Some(t) = all.tailed else {
        return Ok(judgement(spot, place, None));
    };
    let v = postfix_value(alloc, spot, t)?;
    Ok(judgement(spot, place, Some(v)))
}

fn postfix_value(alloc: Global, spot: Spot, tailed: Tailed) -> Result<Known, AllocError>
    ensures { IfOk result (λ made. seen made ≡ tails.postfix_value spot (seen_tailed tailed)) }
{
    let own = copy_of_type(alloc, &tailed.ty)?;
    let kind = TypedKind::Postfix {
        first: tailed.first,
        tails: Items::from_vec(tailed.rest),
    };
    let made = valued(alloc, kind, own, tailed.ty, tailed.is_null, spot)?;
    Ok(made)
}
