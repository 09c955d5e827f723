//! The typing rules that speak of values. Each function says whether its rule is kept.

ghost use Rattle.std.specs.Prelude.{◌≡◌};
ghost use Rattle.std.specs.Option.{option_map};
ghost use Rattle.sc_typing.specs.Rules as rules;
ghost use Rattle.sc_typing.specs.ViewKnown.{seen, seen_judged};

use crate::known::{Judged, Known, fits};
use crate::places::{
    PlaceKind, may_be_global, may_be_local, may_be_memory, may_be_other, may_be_set,
};
use crate::types::{is_int, is_pointer, is_wide, last_star, same_element, same_type};
use sc_base::{Binary, Ty};

/// An int, where it has a type.
pub fn are_int(known: &Option<Known>) -> bool
    ensures { result ≡ rules.are_int (option_map seen known.now) }
{
    match known {
        None => true,
        Some(v) => is_int(&v.ty),
    }
}

/// An int or a pointer, where it has a type.
pub fn are_scalar(known: &Option<Known>) -> bool
    ensures { result ≡ rules.are_scalar (option_map seen known.now) }
{
    match known {
        None => true,
        Some(v) => !v.ty.void,
    }
}

/// A pointer, where it has a type.
pub fn are_pointers(known: &Option<Known>) -> bool
    ensures { result ≡ rules.are_pointers (option_map seen known.now) }
{
    match known {
        None => true,
        Some(v) => is_pointer(&v.ty),
    }
}

/// Fits the type, where it has one itself.
pub fn fit(known: &Option<Known>, ty: &Ty) -> bool
    ensures { result ≡ rules.fit (option_map seen known.now) ty.now }
{
    match known {
        None => true,
        Some(v) => fits(&v.ty, v.is_null, ty),
    }
}

/// The operand of `&` is a memory place.
pub fn address_kept(operand: &Judged) -> bool
    ensures { result ≡ rules.address_kept (seen_judged operand.now) }
{
    may_be_memory(operand.place)
}

/// The right side fits the type of the left one.
fn fit_left(left: &Judged, right: &Judged) -> bool
    ensures { result ≡ rules.fit_left (seen_judged left.now) (seen_judged right.now) }
{
    match &left.known {
        None => true,
        Some(known) => fit(&right.known, &known.ty),
    }
}

/// The left side of `=` is a local or a memory place, and the right side fits its type.
pub fn assignment_kept(left: &Judged, right: &Judged) -> bool
    ensures { result ≡ rules.assignment_kept (seen_judged left.now) (seen_judged right.now) }
{
    may_be_set(left.place) && fit_left(left, right)
}

/// What `++`, `--` or a compound assignment sets is a place of type int, or of a pointer type where `moves` says that it
/// may be one.
pub fn place_kept(moves: bool, place: PlaceKind, known: &Option<Known>) -> bool
    ensures { result ≡ rules.place_kept moves place (option_map seen known.now) }
{
    if !may_be_set(place) {
        return false;
    }
    match known {
        None => true,
        Some(known) => is_int(&known.ty) || (moves && is_pointer(&known.ty)),
    }
}

fn moves(op: Binary) -> bool
    ensures { result ≡ rules.moves op }
{
    matches!(op, Binary::Add | Binary::Sub)
}

/// The left side of a compound assignment is a place that it may set, and the right side an int.
pub fn update_kept(op: Binary, left: &Judged, right: &Judged) -> bool
    ensures { result ≡ rules.update_kept op (seen_judged left.now) (seen_judged right.now) }
{
    place_kept(moves(op), left.place, &left.known) && are_int(&right.known)
}

/// The two sides have one type.
fn same_types(left: &Judged, right: &Judged) -> bool
    ensures { result ≡ rules.same_types (seen_judged left.now) (seen_judged right.now) }
{
    let Some(to) = &left.known else {
        return true;
    };
    let Some(from) = &right.known else {
        return true;
    };
    same_type(&from.ty, &to.ty)
}

fn puts(left: &Judged, right: &Judged) -> bool
    ensures { result ≡ rules.puts (seen_judged left.now) (seen_judged right.now) }
{
    may_be_global(left.place) && fit_left(left, right)
}

fn gets(left: &Judged, right: &Judged) -> bool
    ensures { result ≡ rules.gets (seen_judged left.now) (seen_judged right.now) }
{
    may_be_other(left.place) && may_be_global(right.place) && same_types(left, right)
}

/// `:=` puts a value that fits into a global place, or gets that of a global place into another place of its type.
pub fn split_assignment_kept(left: &Judged, right: &Judged) -> bool
    ensures { result ≡ rules.split_assignment_kept (seen_judged left.now) (seen_judged right.now) }
{
    puts(left, right) || gets(left, right)
}

/// `:-` puts a value that fits into a global place.
pub fn store_kept(left: &Judged, right: &Judged) -> bool
    ensures { result ≡ rules.store_kept (seen_judged left.now) (seen_judged right.now) }
{
    puts(left, right)
}

/// `return` has a value that fits exactly where the result is not void; of an int result it may have none.
pub fn return_kept(result_type: &Ty, value: &Option<Judged>) -> bool
    ensures { result ≡ rules.return_kept result_type.now (option_map seen_judged value.now) }
{
    match value {
        None => result_type.void || is_int(result_type),
        Some(value) => !result_type.void && fit(&value.known, result_type),
    }
}

/// One arm of a `?:` fits the type of the other.
pub fn arms_kept(on: &Option<Known>, off: &Option<Known>) -> bool
    ensures { result ≡ rules.arms_kept (option_map seen on.now) (option_map seen off.now) }
{
    let Some(a) = on else {
        return true;
    };
    let Some(b) = off else {
        return true;
    };
    fits(&a.ty, a.is_null, &b.ty) || fits(&b.ty, b.is_null, &a.ty)
}

/// A cast has no star and an int operand, or ends in `*global` or `*spread` and has a pointer to the same type.
pub fn cast_kept(to: &Ty, operand: &Option<Known>) -> bool
    ensures { result ≡ rules.cast_kept to.now (option_map seen operand.now) }
{
    if !is_pointer(to) {
        return are_int(operand);
    }
    if !is_wide(last_star(to)) {
        return false;
    }
    match operand {
        None => true,
        Some(v) => is_pointer(&v.ty) && same_element(&v.ty, to),
    }
}

/// The name of `for_my_1d` is an int local.
pub fn turns_kept(name: &Judged) -> bool
    ensures { result ≡ rules.turns_kept (seen_judged name.now) }
{
    may_be_local(name.place) && are_int(&name.known)
}
