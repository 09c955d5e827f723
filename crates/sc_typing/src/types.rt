//! What the typing rules ask of types.

ghost use Rattle.std.specs.Prelude.{◌≡◌, ◌-◌, length, take, IfOk};
ghost use Rattle.std.specs.Cmp.Lexicographic.{pointwise};
ghost use Rattle.sc_typing.specs.Types as types;

use sc_base::{Star, Stars, Ty};
use std::alloc::{AllocError, Global};

/// The type int.
pub fn int(alloc: Global) -> Ty
    ensures { result ≡ types.int }
{
    Ty {
        void: false,
        stars: Stars::from_vec(Vec::new(alloc)),
    }
}

/// The type of a call that gives no value.
pub fn nothing(alloc: Global) -> Ty
    ensures { result ≡ types.nothing }
{
    Ty {
        void: true,
        stars: Stars::from_vec(Vec::new(alloc)),
    }
}

/// The type of a pointer with this star to a value of the type.
pub fn pointer(alloc: Global, ty: &Ty, star: Star) -> Result<Ty, AllocError>
    ensures { IfOk result (λ made. made ≡ types.pointer ty.now star) }
{
    let mut stars = Vec::from_slice(alloc, ty.stars.as_slice())?;
    stars.push(star)?;
    Ok(Ty {
        void: ty.void,
        stars: Stars::from_vec(stars),
    })
}

/// The type of what the pointer reaches.
pub fn element(alloc: Global, ty: &Ty) -> Result<Ty, AllocError>
    ensures { IfOk result (λ made. made ≡ types.element ty.now) }
{
    let mut stars = Vec::from_slice(alloc, ty.stars.as_slice())?;
    let _last = stars.pop();
    Ok(Ty {
        void: ty.void,
        stars: Stars::from_vec(stars),
    })
}

/// The last star of the type, which says what a pointer of the type reaches.
pub fn last_star(ty: &Ty) -> Option<Star>
    ensures { result ≡ types.last_star ty.now }
{
    ty.stars.as_slice().last().copied()
}

fn same_star(a: Star, b: Star) -> bool
    ensures { result ≡ types.same_star a b }
{
    match a {
        Star::Local => matches!(b, Star::Local),
        Star::Global => matches!(b, Star::Global),
        Star::Spread => matches!(b, Star::Spread),
    }
}

fn same_stars(a: &[Star], b: &[Star]) -> bool
    ensures { result ≡ pointwise types.same_star a.now b.now }
{
    a == b
}

/// Whether the two types are equal.
pub fn same_type(a: &Ty, b: &Ty) -> bool
    ensures { result ≡ types.same_type a.now b.now }
{
    a.void == b.void && same_stars(a.stars.as_slice(), b.stars.as_slice())
}

fn has_stars(stars: &[Star]) -> bool
    ensures { result ≡ types.has_stars stars.now }
{
    match stars {
        [] => false,
        [_, ..] => true,
    }
}

/// Whether it is the type of pointers.
pub fn is_pointer(ty: &Ty) -> bool
    ensures { result ≡ types.is_pointer ty.now }
{
    has_stars(ty.stars.as_slice())
}

/// Whether it is the type int.
pub fn is_int(ty: &Ty) -> bool
    ensures { result ≡ types.is_int ty.now }
{
    if ty.void {
        return false;
    }
    !has_stars(ty.stars.as_slice())
}

fn is_star(star: Star, last: Option<Star>) -> bool
    ensures { result ≡ types.is_star star last }
{
    match last {
        None => false,
        Some(other) => same_star(star, other),
    }
}

/// Whether a pointer with this last star has a node as part of it.
pub fn is_wide(last: Option<Star>) -> bool
    ensures { result ≡ types.is_wide last }
{
    match last {
        None | Some(Star::Local) => false,
        Some(Star::Global | Star::Spread) => true,
    }
}

/// Whether pointers of the two types reach one type.
pub fn same_element(a: &Ty, b: &Ty) -> bool
    ensures { result ≡ types.same_type (types.element a.now) (types.element b.now) }
{
    a.void == b.void && same_stars(front(a.stars.as_slice()), front(b.stars.as_slice()))
}

fn front(stars: &[Star]) -> &[Star]
    ensures { result.now ≡ take (length stars.now - 1) stars.now }
{
    if stars.is_empty() {
        return stars;
    }
    &stars[..stars.len() - 1]
}

/// Whether the one is the type of local or spread pointers and the other that of global ones to the same type.
pub fn widens(from: &Ty, to: &Ty) -> bool
    ensures { result ≡ types.widens from.now to.now }
{
    is_pointer(from) && is_star(Star::Global, last_star(to)) && same_element(from, to)
}
