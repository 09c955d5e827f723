//! Typed expressions of operators and constants, from judged operands.

ghost use Rattle.std.specs.Prelude.{◌≡◌, Some, pos, IfOk};
ghost use Rattle.std.specs.Option.{option_map};
ghost use Rattle.std.specs.Ordering.{int_eq};
ghost use Rattle.sc_typing.specs.Operators as operators;
ghost use Rattle.sc_typing.specs.Naming as naming;
ghost use Rattle.sc_typing.specs.ViewKnown.{seen, seen_judged};
ghost use Rattle.sc_tree.specs.PlainTyped as typed;
ghost use Rattle.sc_tree.specs.ViewTyped.{plain_typed, plain_typed_kind};

use sc_base::{Binary, Star, Stars, Ty, Unary, copy_of_type};
use sc_tree::{TypedExpr, TypedKind};
use sc_typing::known::{Judged, Known, Spot, common, int_value, judgement, valued};
use sc_typing::places::{PlaceKind, reached_by};
use sc_typing::rules;
use sc_typing::types::{element, int, pointer};
use sqlite_items::Boxed;
use std::alloc::{AllocError, Global};

fn is_zero(number: i64) -> bool
    ensures { result ≡ int_eq number (pos 0) }
{
    number == 0
}

/// A number, which becomes null where a pointer is wanted and it is 0.
#[tactic(auto, unfolding(sc_typing::specs::Operators::number_of))]
pub fn number_of(alloc: Global, number: i64, spot: Spot) -> Result<Judged, AllocError>
    ensures { IfOk result (λ made. seen_judged made ≡ operators.number_of number spot) }
{
    let kind = TypedKind::Number(number);
    let made = valued(alloc, kind, int(alloc), int(alloc), is_zero(number), spot)?;
    Ok(judgement(spot, PlaceKind::NoPlace, Some(made)))
}

/// `NULL`
pub fn null_constant(alloc: Global, spot: Spot) -> Result<Judged, AllocError>
    ensures { IfOk result (λ made. seen_judged made ≡ naming.null_constant spot) }
{
    let own = pointer(alloc, &int(alloc), Star::Local)?;
    let ty = pointer(alloc, &int(alloc), Star::Local)?;
    let made = valued(alloc, TypedKind::Null, own, ty, true, spot)?;
    Ok(judgement(spot, PlaceKind::NoPlace, Some(made)))
}

/// An int that is no place.
pub fn constant(alloc: Global, kind: TypedKind, spot: Spot) -> Result<Judged, AllocError>
    ensures { IfOk result (λ made. seen_judged made ≡ naming.constant (plain_typed_kind kind) spot) }
{
    let made = int_value(alloc, kind, spot)?;
    Ok(judgement(spot, PlaceKind::NoPlace, Some(made)))
}

fn plus_value(alloc: Global, known: Known, spot: Spot) -> Result<Known, AllocError>
    ensures { IfOk result (λ made. seen made ≡ operators.int_of typed.plus spot (seen known)) }
{
    let made = int_value(alloc, TypedKind::Plus(known.e), spot)?;
    Ok(made)
}

/// `+` before an int.
#[tactic(auto, unfolding(sc_typing::specs::Operators::plus_of))]
pub fn plus_of(alloc: Global, operand: Judged, spot: Spot) -> Result<Judged, AllocError>
    ensures { IfOk result (λ made. seen_judged made ≡ operators.plus_of (seen_judged operand) spot) }
{
    let kept = rules::are_int(&operand.known);
    let Some(v) = operand.only(kept) else {
        return Ok(judgement(spot, PlaceKind::NoPlace, None));
    };
    let made = plus_value(alloc, v, spot)?;
    Ok(judgement(spot, PlaceKind::NoPlace, Some(made)))
}

fn prefix_kept(op: Unary, known: &Option<Known>) -> bool
    ensures { result ≡ operators.prefix_kept op (option_map seen known.now) }
{
    match op {
        Unary::Not => rules::are_scalar(known),
        Unary::Minus | Unary::Invert => rules::are_int(known),
    }
}

fn prefix_value(alloc: Global, op: Unary, known: Known, spot: Spot) -> Result<Known, AllocError>
    ensures { IfOk result (λ made. seen made ≡ operators.int_of (typed.prefix op) spot (seen known)) }
{
    let made = int_value(alloc, TypedKind::Prefix { op, e: known.e }, spot)?;
    Ok(made)
}

/// `!`, `-` or `~` before its operand.
#[tactic(auto, unfolding(sc_typing::specs::Operators::prefix_of))]
pub fn prefix_of(
    alloc: Global,
    op: Unary,
    operand: Judged,
    spot: Spot,
) -> Result<Judged, AllocError>
    ensures { IfOk result (λ made. seen_judged made ≡ operators.prefix_of op (seen_judged operand) spot) }
{
    let kept = prefix_kept(op, &operand.known);
    let Some(v) = operand.only(kept) else {
        return Ok(judgement(spot, PlaceKind::NoPlace, None));
    };
    let made = prefix_value(alloc, op, v, spot)?;
    Ok(judgement(spot, PlaceKind::NoPlace, Some(made)))
}

fn deref_value(alloc: Global, known: Known, spot: Spot) -> Result<Known, AllocError>
    ensures { IfOk result (λ made. seen made ≡ operators.deref_value spot (seen known)) }
{
    let own = element(alloc, &known.ty)?;
    let ty = element(alloc, &known.ty)?;
    let made = valued(alloc, TypedKind::Deref(known.e), own, ty, false, spot)?;
    Ok(made)
}

/// `*` before a pointer.
#[tactic(auto, unfolding(sc_typing::specs::Operators::deref_of))]
pub fn deref_of(alloc: Global, operand: Judged, spot: Spot) -> Result<Judged, AllocError>
    ensures { IfOk result (λ made. seen_judged made ≡ operators.deref_of (seen_judged operand) spot) }
{
    let place = reached_by(&operand.known);
    let kept = rules::are_pointers(&operand.known);
    let Some(v) = operand.only(kept) else {
        return Ok(judgement(spot, place, None));
    };
    let made = deref_value(alloc, v, spot)?;
    Ok(judgement(spot, place, Some(made)))
}

/// The type of a pointer to the place.
fn address_type(alloc: Global, ty: &Ty, place: PlaceKind) -> Result<Ty, AllocError>
    ensures { IfOk result (λ made. made ≡ operators.address_type ty.now place) }
{
    if let PlaceKind::Memory(Some(star)) = place {
        let made = pointer(alloc, ty, star)?;
        return Ok(made);
    }
    let made = copy_of_type(alloc, ty)?;
    Ok(made)
}

fn address_value(
    alloc: Global,
    place: PlaceKind,
    known: Known,
    spot: Spot,
) -> Result<Known, AllocError>
    ensures { IfOk result (λ made. seen made ≡ operators.address_value spot place (seen known)) }
{
    let own = address_type(alloc, &known.ty, place)?;
    let ty = address_type(alloc, &known.ty, place)?;
    let kind = TypedKind::Address(known.e);
    let made = valued(alloc, kind, own, ty, false, spot)?;
    Ok(made)
}

/// `&` before a memory place.
#[tactic(auto, unfolding(sc_typing::specs::Operators::address_of))]
pub fn address_of(alloc: Global, operand: Judged, spot: Spot) -> Result<Judged, AllocError>
    ensures { IfOk result (λ made. seen_judged made ≡ operators.address_of (seen_judged operand) spot) }
{
    let place = operand.place;
    let kept = rules::address_kept(&operand);
    let Some(v) = operand.only(kept) else {
        return Ok(judgement(spot, PlaceKind::NoPlace, None));
    };
    let made = address_value(alloc, place, v, spot)?;
    Ok(judgement(spot, PlaceKind::NoPlace, Some(made)))
}

fn copied(alloc: Global, stars: &Stars) -> Result<Stars, AllocError>
    ensures { IfOk result (λ copy. copy ≡ stars.now) }
{
    let copy = Vec::from_slice(alloc, stars.as_slice())?;
    Ok(Stars::from_vec(copy))
}

fn cast_type(alloc: Global, stars: &Stars) -> Result<Ty, AllocError>
    ensures { IfOk result (λ ty. ty ≡ operators.cast_type stars.now) }
{
    let stars = copied(alloc, stars)?;
    Ok(Ty { void: false, stars })
}

fn cast_value(alloc: Global, stars: &Stars, known: Known, spot: Spot) -> Result<Known, AllocError>
    ensures { IfOk result (λ made. seen made ≡ operators.cast_value stars.now spot (seen known)) }
{
    let own = cast_type(alloc, stars)?;
    let ty = cast_type(alloc, stars)?;
    let stars = copied(alloc, stars)?;
    let kind = TypedKind::Cast { stars, e: known.e };
    let made = valued(alloc, kind, own, ty, false, spot)?;
    Ok(made)
}

/// The operand as a value of int with these stars.
#[tactic(auto, unfolding(sc_typing::specs::Operators::cast_of))]
pub fn cast_of(
    alloc: Global,
    stars: &Stars,
    operand: Judged,
    spot: Spot,
) -> Result<Judged, AllocError>
    ensures { IfOk result (λ made. seen_judged made ≡ operators.cast_of stars.now (seen_judged operand) spot) }
{
    let to = cast_type(alloc, stars)?;
    let kept = rules::cast_kept(&to, &operand.known);
    let Some(v) = operand.only(kept) else {
        return Ok(judgement(spot, PlaceKind::NoPlace, None));
    };
    let made = cast_value(alloc, stars, v, spot)?;
    Ok(judgement(spot, PlaceKind::NoPlace, Some(made)))
}

fn step_value(alloc: Global, up: bool, known: Known, spot: Spot) -> Result<Known, AllocError>
    ensures { IfOk result (λ made. seen made ≡ operators.step_value up spot (seen known)) }
{
    let own = copy_of_type(alloc, &known.ty)?;
    let kind = TypedKind::Step { up, place: known.e };
    let made = valued(alloc, kind, own, known.ty, false, spot)?;
    Ok(made)
}

/// `++` or `--` before a place.
#[tactic(auto, unfolding(sc_typing::specs::Operators::step_of))]
pub fn step_of(alloc: Global, up: bool, operand: Judged, spot: Spot) -> Result<Judged, AllocError>
    ensures { IfOk result (λ made. seen_judged made ≡ operators.step_of up (seen_judged operand) spot) }
{
    let kept = rules::place_kept(true, operand.place, &operand.known);
    let Some(v) = operand.only(kept) else {
        return Ok(judgement(spot, PlaceKind::NoPlace, None));
    };
    let made = step_value(alloc, up, v, spot)?;
    Ok(judgement(spot, PlaceKind::NoPlace, Some(made)))
}

fn set_value(
    alloc: Global,
    op: Option<Binary>,
    target: Known,
    value: Known,
    spot: Spot,
) -> Result<Known, AllocError>
    ensures { IfOk result (λ made. seen made ≡ operators.set_value op spot (seen target) (seen value)) }
{
    let own = copy_of_type(alloc, &target.ty)?;
    let kind = TypedKind::Assign {
        op,
        left: target.e,
        right: value.e,
    };
    let made = valued(alloc, kind, own, target.ty, false, spot)?;
    Ok(made)
}

/// The assignment, where both sides have a type.
fn assigned(
    alloc: Global,
    left: Option<Known>,
    right: Option<Known>,
    spot: Spot,
) -> Result<Option<Known>, AllocError>
    ensures { IfOk result (λ made. option_map seen made ≡ operators.both_of (operators.assigned_value spot) (option_map seen left) (option_map seen right)) }
{
    let Some(a) = left else {
        return Ok(None);
    };
    let Some(b) = right else {
        return Ok(None);
    };
    let b = b.meets(alloc, &a.ty)?;
    let made = set_value(alloc, None, a, b, spot)?;
    Ok(Some(made))
}

/// The compound assignment, where both sides have a type.
fn compounded(
    alloc: Global,
    op: Binary,
    left: Option<Known>,
    right: Option<Known>,
    spot: Spot,
) -> Result<Option<Known>, AllocError>
    ensures { IfOk result (λ made. option_map seen made ≡ operators.both_of (operators.set_value (Some op) spot) (option_map seen left) (option_map seen right)) }
{
    let Some(a) = left else {
        return Ok(None);
    };
    let Some(b) = right else {
        return Ok(None);
    };
    let made = set_value(alloc, Some(op), a, b, spot)?;
    Ok(Some(made))
}

#[tactic(auto, unfolding(sc_typing::specs::Operators::assign_of))]
fn assign_of(alloc: Global, left: Judged, right: Judged, spot: Spot) -> Result<Judged, AllocError>
    ensures { IfOk result (λ made. seen_judged made ≡ operators.assign_of (seen_judged left) (seen_judged right) spot) }
{
    let kept = rules::assignment_kept(&left, &right);
    let made = assigned(alloc, left.only(kept), right.used(), spot)?;
    Ok(judgement(spot, PlaceKind::NoPlace, made))
}

#[tactic(auto, unfolding(sc_typing::specs::Operators::compound_of))]
fn compound_of(
    alloc: Global,
    op: Binary,
    left: Judged,
    right: Judged,
    spot: Spot,
) -> Result<Judged, AllocError>
    ensures { IfOk result (λ made. seen_judged made ≡ operators.compound_of op (seen_judged left) (seen_judged right) spot) }
{
    let kept = rules::update_kept(op, &left, &right);
    let made = compounded(alloc, op, left.only(kept), right.used(), spot)?;
    Ok(judgement(spot, PlaceKind::NoPlace, made))
}

/// `=`, or a compound assignment where there is an operator.
pub fn set_of(
    alloc: Global,
    op: Option<Binary>,
    left: Judged,
    right: Judged,
    spot: Spot,
) -> Result<Judged, AllocError>
    ensures { IfOk result (λ made. seen_judged made ≡ operators.set_of op (seen_judged left) (seen_judged right) spot) }
{
    if let Some(op) = op {
        let made = compound_of(alloc, op, left, right, spot)?;
        return Ok(made);
    }
    let made = assign_of(alloc, left, right, spot)?;
    Ok(made)
}

/// The choice between two values that become of the type.
fn choice_value(
    alloc: Global,
    test: Boxed<TypedExpr>,
    ty: Ty,
    on: Known,
    off: Known,
    spot: Spot,
) -> Result<Known, AllocError>
    ensures { IfOk result (λ made. seen made ≡ operators.choice_value (plain_typed test) spot ty (seen on) (seen off)) }
{
    let on = on.meets(alloc, &ty)?;
    let off = off.meets(alloc, &ty)?;
    let own = copy_of_type(alloc, &ty)?;
    let kind = TypedKind::Cond {
        test,
        yes: on.e,
        no: off.e,
    };
    let made = valued(alloc, kind, own, ty, false, spot)?;
    Ok(made)
}

fn chosen_value(
    alloc: Global,
    test: Known,
    on: Known,
    off: Known,
    spot: Spot,
) -> Result<Known, AllocError>
    ensures { IfOk result (λ made. seen made ≡ operators.chosen_value spot (seen test) (seen on) (seen off)) }
{
    let ty = common(alloc, &on.ty, on.is_null, &off.ty)?;
    let made = choice_value(alloc, test.e, ty, on, off, spot)?;
    Ok(made)
}

/// The choice, where all its parts have a type.
fn chosen(
    alloc: Global,
    test: Option<Known>,
    on: Option<Known>,
    off: Option<Known>,
    spot: Spot,
) -> Result<Option<Known>, AllocError>
    ensures { IfOk result (λ made. option_map seen made ≡ operators.all_of (operators.chosen_value spot) (option_map seen test) (option_map seen on) (option_map seen off)) }
{
    let Some(t) = test else {
        return Ok(None);
    };
    let Some(a) = on else {
        return Ok(None);
    };
    let Some(b) = off else {
        return Ok(None);
    };
    let made = chosen_value(alloc, t, a, b, spot)?;
    Ok(Some(made))
}

/// `test ? on : off`
#[tactic(auto, unfolding(sc_typing::specs::Operators::choice_of))]
pub fn choice_of(
    alloc: Global,
    test: Judged,
    on: Judged,
    off: Judged,
    spot: Spot,
) -> Result<Judged, AllocError>
    ensures { IfOk result (λ made. seen_judged made ≡ operators.choice_of (seen_judged test) (seen_judged on) (seen_judged off) spot) }
{
    let kept = rules::are_scalar(&test.known) && rules::arms_kept(&on.known, &off.known);
    let made = chosen(alloc, test.only(kept), on.used(), off.used(), spot)?;
    Ok(judgement(spot, PlaceKind::NoPlace, made))
}
