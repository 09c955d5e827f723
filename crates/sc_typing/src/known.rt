//! What is known of an expression.

ghost use Rattle.std.specs.Prelude.{◌≡◌, None, true, false, IfOk};
ghost use Rattle.std.specs.Option.{option_map};
ghost use Rattle.sc_typing.specs.Types as types;
ghost use Rattle.sc_typing.specs.Known as facts;
ghost use Rattle.sc_typing.specs.ViewKnown.{seen, seen_judged};
ghost use Rattle.sc_tree.specs.PlainTyped.{typed_expression, null, convert};
ghost use Rattle.sc_tree.specs.ViewTyped.{plain_typed, plain_typed_kind};

use crate::places::PlaceKind;
use crate::types::{int, is_pointer, same_type, widens};
use sc_base::{Ty, copy_of_type};
use sc_tree::{TypedExpr, TypedKind};
use sqlite_items::Boxed;
use std::alloc::{AllocError, Global};

/// Where an expression stands: its first token, its own token, and the line of that.
#[derive(Clone, Copy, Debug, PartialEq, Eq)]
pub struct Spot {
    pub start: u32,
    pub at: u32,
    pub line: u32,
}

/// An expression that has a type.
#[derive(Drop)]
pub struct Known {
    pub e: Boxed<TypedExpr>,
    pub ty: Ty,
    /// Whether it is `NULL` or the number 0, which become null where a pointer is wanted.
    pub is_null: bool,
    pub spot: Spot,
}

/// The expression of this kind, whose type is given twice since a tree owns one.
pub fn valued(
    alloc: Global,
    kind: TypedKind,
    own: Ty,
    ty: Ty,
    is_null: bool,
    spot: Spot,
) -> Result<Known, AllocError>
    ensures { IfOk result (λ made. seen made ≡ record { expression = typed_expression (plain_typed_kind kind) own spot.start spot.at spot.line; ty = ty; is_null = is_null; spot = spot }) }
{
    let e = TypedExpr {
        kind,
        ty: own,
        start: spot.start,
        at: spot.at,
        line: spot.line,
    };
    let e = Boxed::new(alloc, e)?;
    Ok(Known {
        e,
        ty,
        is_null,
        spot,
    })
}

impl Known {
    /// The typed expression.
    pub fn into_expr(self) -> TypedExpr
        ensures { plain_typed result ≡ facts.expression_of (seen self) }
    {
        self.e.into_inner()
    }

    /// The value as one of the type that it fits.
    pub fn meets(self, alloc: Global, ty: &Ty) -> Result<Known, AllocError>
        ensures { IfOk result (λ met. seen met ≡ facts.meets (seen self) ty.now) }
    {
        if same_type(&self.ty, ty) {
            return Ok(self);
        }
        if self.is_null {
            return null_of(alloc, ty, self.spot);
        }
        converted(alloc, self.e, ty, self.spot)
    }
}

/// Null as a value of the type.
fn null_of(alloc: Global, ty: &Ty, spot: Spot) -> Result<Known, AllocError>
    ensures { IfOk result (λ made. seen made ≡ facts.valued null ty.now true spot) }
{
    let own = copy_of_type(alloc, ty)?;
    let ty = copy_of_type(alloc, ty)?;
    let made = valued(alloc, TypedKind::Null, own, ty, true, spot)?;
    Ok(made)
}

/// The value converted to the type.
fn converted(alloc: Global, e: Boxed<TypedExpr>, ty: &Ty, spot: Spot) -> Result<Known, AllocError>
    ensures { IfOk result (λ made. seen made ≡ facts.valued (convert ty.now (plain_typed e)) ty.now false spot) }
{
    let to = copy_of_type(alloc, ty)?;
    let own = copy_of_type(alloc, ty)?;
    let ty = copy_of_type(alloc, ty)?;
    let kind = TypedKind::Convert { ty: to, e };
    let made = valued(alloc, kind, own, ty, false, spot)?;
    Ok(made)
}

/// Whether a value of the type, which may be `NULL` or the number 0, fits the other type.
pub fn fits(from: &Ty, is_null: bool, to: &Ty) -> bool
    ensures { result ≡ facts.fits from.now is_null to.now }
{
    same_type(from, to) || (is_null && is_pointer(to)) || widens(from, to)
}

/// A type to which two values fit, where one fits the other's.
pub fn common(alloc: Global, left: &Ty, is_null: bool, right: &Ty) -> Result<Ty, AllocError>
    ensures { IfOk result (λ ty. ty ≡ facts.common left.now is_null right.now) }
{
    if fits(left, is_null, right) {
        return copy_of_type(alloc, right);
    }
    copy_of_type(alloc, left)
}

/// What a rule sees of an expression.
#[derive(Drop)]
pub struct Judged {
    /// Its first token.
    pub start: u32,
    /// Which place it is, as its form and the declarations tell, whatever types are missing.
    pub place: PlaceKind,
    /// How many of the indices behind it belong to it.
    pub taken: usize,
    /// The expression, where it has a type.
    pub known: Option<Known>,
}

/// What is judged of an expression that has no indices of its own.
pub fn judgement(spot: Spot, place: PlaceKind, known: Option<Known>) -> Judged
    ensures { seen_judged result ≡ facts.judged spot place (option_map seen known) }
{
    Judged {
        start: spot.start,
        place,
        taken: 0,
        known,
    }
}

impl Judged {
    /// The value of an operand, where it is no void value and the rule on it is kept.
    pub fn only(self, kept: bool) -> Option<Known>
        ensures { option_map seen result ≡ facts.only kept (seen_judged self).known }
    {
        match self.known {
            None => None,
            Some(known) => {
                if known.ty.void || !kept {
                    None
                } else {
                    Some(known)
                }
            }
        }
    }

    /// The value of an operand, where it is no void value.
    pub fn used(self) -> Option<Known>
        ensures { option_map seen result ≡ facts.used (seen_judged self) }
    {
        self.only(true)
    }

    /// Whether it has a value that is not void.
    pub fn is_used(&self) -> bool
        ensures { result ≡ facts.is_used (seen_judged self.now) }
    {
        match &self.known {
            None => false,
            Some(known) => !known.ty.void,
        }
    }

    /// What stands in the tree for its value as one of the type. The error is want of memory.
    pub fn met(self, alloc: Global, ty: &Ty) -> Result<Boxed<TypedExpr>, AllocError>
        ensures { IfOk result (λ e. plain_typed e ≡ facts.met_expression (seen_judged self) ty.now) }
    {
        let Some(known) = self.known else {
            let e = missing(alloc, self.start)?;
            return Ok(e);
        };
        let known = known.meets(alloc, ty)?;
        Ok(known.e)
    }

    /// What stands for it in the tree.
    pub fn into_expr(self, alloc: Global) -> Result<Boxed<TypedExpr>, AllocError>
        ensures { IfOk result (λ e. plain_typed e ≡ facts.expression_for (seen_judged self)) }
    {
        match self.known {
            Some(known) => Ok(known.e),
            None => missing(alloc, self.start),
        }
    }
}

/// Stands in the tree for an expression that has no type.
pub fn missing(alloc: Global, start: u32) -> Result<Boxed<TypedExpr>, AllocError>
    ensures { IfOk result (λ e. plain_typed e ≡ facts.standing_in start None) }
{
    let e = TypedExpr {
        kind: TypedKind::Null,
        ty: int(alloc),
        start,
        at: start,
        line: 0,
    };
    let e = Boxed::new(alloc, e)?;
    Ok(e)
}

/// An int value.
pub fn int_value(alloc: Global, kind: TypedKind, spot: Spot) -> Result<Known, AllocError>
    ensures { IfOk result (λ made. seen made ≡ facts.valued (plain_typed_kind kind) types.int false spot) }
{
    let made = valued(alloc, kind, int(alloc), int(alloc), false, spot)?;
    Ok(made)
}
