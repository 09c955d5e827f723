//! Which place an expression is, as its form and the declarations tell, whatever types are missing.

ghost use Rattle.std.specs.Prelude.{◌≡◌, IfOk};
ghost use Rattle.std.specs.Option.{option_map};
ghost use Rattle.sc_typing.specs.Places as places;
ghost use Rattle.sc_typing.specs.ViewKnown.{seen};

use crate::file::{dimensions, has_its_indices, object_star};
use crate::known::Known;
use crate::types::{is_wide, last_star};
use sc_base::{Shape, Star};
use std::alloc::AllocError;

/// Which place an expression is.
#[derive(Clone, Copy, Debug, PartialEq, Eq)]
pub enum PlaceKind {
    /// No place.
    NoPlace,
    /// A local.
    Local,
    /// A memory place, with the last star of a pointer to it, where that is known.
    Memory(Option<Star>),
    /// Left open by the form: a name that means nothing or a function, or an object without indices that it needs.
    Unknown,
}

/// Which place the object is with so many of its indices. The error is want of memory.
#[tactic(auto, unfolding(crate::specs::Places::object_place))]
pub fn object_place(object: &Shape, taken: usize) -> Result<PlaceKind, AllocError>
    ensures { IfOk result (λ place. place ≡ places.object_place object.now taken) }
{
    if taken == dimensions(object)? {
        return Ok(PlaceKind::Memory(Some(object_star(object))));
    }
    if has_its_indices(object, taken)? {
        Ok(PlaceKind::NoPlace)
    } else {
        Ok(PlaceKind::Unknown)
    }
}

/// The memory place that the pointer reaches.
pub fn reached_by(pointer: &Option<Known>) -> PlaceKind
    ensures { result ≡ places.reached_by (option_map seen pointer.now) }
{
    match pointer {
        None => PlaceKind::Memory(None),
        Some(known) => PlaceKind::Memory(last_star(&known.ty)),
    }
}

/// Whether it is a memory place, or may be one.
pub fn may_be_memory(place: PlaceKind) -> bool
    ensures { result ≡ places.may_be_memory place }
{
    matches!(place, PlaceKind::Memory(_) | PlaceKind::Unknown)
}

/// Whether it is a local, or may be one.
pub fn may_be_local(place: PlaceKind) -> bool
    ensures { result ≡ places.may_be_local place }
{
    matches!(place, PlaceKind::Local | PlaceKind::Unknown)
}

/// Whether it is a local or a memory place, or may be one.
pub fn may_be_set(place: PlaceKind) -> bool
    ensures { result ≡ places.may_be_set place }
{
    !matches!(place, PlaceKind::NoPlace)
}

/// Whether it is a memory place that a global or spread pointer reaches, or may be one.
pub fn may_be_global(place: PlaceKind) -> bool
    ensures { result ≡ places.may_be_global place }
{
    match place {
        PlaceKind::NoPlace | PlaceKind::Local => false,
        PlaceKind::Memory(None) | PlaceKind::Unknown => true,
        PlaceKind::Memory(Some(star)) => is_wide(Some(star)),
    }
}

/// Whether it is a local or a memory place that a local pointer reaches, or may be one.
pub fn may_be_other(place: PlaceKind) -> bool
    ensures { result ≡ places.may_be_other place }
{
    match place {
        PlaceKind::NoPlace => false,
        PlaceKind::Local | PlaceKind::Memory(None) | PlaceKind::Unknown => true,
        PlaceKind::Memory(Some(star)) => !is_wide(Some(star)),
    }
}
