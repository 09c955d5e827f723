//! What a typed expression comes to before it is used, and how it is then read, written and changed.

ghost use Rattle.std.specs.Prelude.{◌≡◌, IfOk, map, [], ◌∷◌, length};
ghost use Rattle.sc_core.specs.Places as places;
ghost use Rattle.core_expr.specs.Exposed.{exposed_operation};
ghost use Rattle.sc_core.specs.View.{plain_core, arguments_of};
ghost use Rattle.core_expr.specs.ViewFound.{seen_found};
ghost use Rattle.sc_core.specs.ViewParts.{plain_core_first, plain_core_link};

use crate::steps::{constant, step, update, used, with_one, with_two};
use sc_base::{Binary, Shape, Star};
use sc_core::{Constant, CoreExpr, CoreFirst, CoreLink, Operation};
use std::alloc::{AllocError, Global};

/// A value; a local, with the line of its name; or the cell behind a pointer, which is one of the executing node's
/// own memory where `own` says so, and `line` is that at which a plain read of the cell is told.
#[derive(Drop)]
pub enum Found {
    Value(CoreExpr),
    Local {
        number: u32,
        line: u32,
    },
    Cell {
        pointer: CoreExpr,
        own: bool,
        line: u32,
    },
}

/// The last star of a pointer's type; an int has none.
#[tactic(auto, using(crate::proofs::Stars::stars))]
pub fn last_of(stars: &[Star]) -> Option<Star>
    ensures { result ≡ places.last_of stars.now }
{
    stars.last().copied()
}

/// The stars of what a pointer leads to.
#[tactic(auto, using(crate::proofs::Stars::stars))]
pub fn without_last(stars: &[Star]) -> &[Star]
    ensures { result.now ≡ places.without_last stars.now }
{
    &stars[..stars.len().saturating_sub(1)]
}

/// Whether the last star is that of a pointer of the executing node's own memory.
pub fn is_own(star: Option<Star>) -> bool
    ensures { result ≡ places.is_own star }
{
    matches!(star, Some(Star::Local))
}

/// Whether the last star is that of a pointer that names a node.
fn is_wide(star: Option<Star>) -> bool
    ensures { result ≡ places.is_wide star }
{
    matches!(star, Some(Star::Global | Star::Spread))
}

pub fn is_pointer(star: Option<Star>) -> bool
    ensures { result ≡ places.is_pointer star }
{
    star.is_some()
}

/// What an operator does, by the last star of its left operand's type.
pub fn operation_on(left: Option<Star>, operator: Binary) -> Operation
    ensures { result ≡ places.operation_on left operator }
{
    let Some(star) = left else {
        return Operation::Binary(operator);
    };
    match operator {
        Binary::Add => Operation::Forward(star),
        Binary::Sub => Operation::Back(star),
        Binary::Eq => Operation::Same,
        Binary::Ne => Operation::Differ,
        _ => Operation::Binary(operator),
    }
}

/// The last star of the type of what the operator gives.
pub fn star_after(operator: Binary, left: Option<Star>) -> Option<Star>
    ensures { result ≡ places.star_after operator left }
{
    match operator {
        Binary::Add => left,
        Binary::Sub => left,
        _ => None,
    }
}

pub fn step_operator(up: bool) -> Binary
    ensures { result ≡ places.step_operator up }
{
    if up { Binary::Add } else { Binary::Sub }
}

/// What takes back a step up or down.
pub fn taken_back(up: bool) -> Binary
    ensures { result ≡ places.taken_back up }
{
    if up { Binary::Sub } else { Binary::Add }
}

/// The value, as a local pointer becomes a global or spread one.
pub fn converted(
    alloc: Global,
    from: Option<Star>,
    to: Option<Star>,
    e: CoreExpr,
    line: u32,
) -> Result<CoreExpr, AllocError>
    ensures { IfOk result (λ made. plain_core made ≡ places.converted from to (plain_core e) line) }
{
    if is_own(from) && is_wide(to) {
        return with_one(alloc, Operation::Convert, e, line);
    }
    Ok(e)
}

/// The pointer as the place of an access or an argument of a bulk transfer.
pub fn reaching(
    alloc: Global,
    own: bool,
    pointer: CoreExpr,
    line: u32,
) -> Result<CoreExpr, AllocError>
    ensures { IfOk result (λ made. plain_core made ≡ places.reaching own (plain_core pointer) line) }
{
    if own {
        return with_one(alloc, Operation::Own, pointer, line);
    }
    Ok(pointer)
}

fn number_one(alloc: Global) -> CoreExpr
    ensures { plain_core result ≡ places.number_one }
{
    constant(alloc, Constant::Number(1))
}

/// The value of what was found.
pub fn fetched(alloc: Global, found: Found) -> Result<CoreExpr, AllocError>
    ensures { IfOk result (λ made. plain_core made ≡ places.fetched (seen_found found)) }
{
    match found {
        Found::Value(e) => Ok(e),
        Found::Local { number, line } => Ok(used(alloc, number, line)),
        Found::Cell { pointer, own, line } => read_of(alloc, pointer, own, line),
    }
}

fn read_of(alloc: Global, pointer: CoreExpr, own: bool, line: u32) -> Result<CoreExpr, AllocError>
    ensures { IfOk result (λ made. plain_core made ≡ places.fetched (places.cell (plain_core pointer) own line)) }
{
    let place = reaching(alloc, own, pointer, line)?;
    let made = with_one(alloc, Operation::Read, place, line)?;
    Ok(made)
}

/// A plain assignment of the value, told at this line.
pub fn assigned(
    alloc: Global,
    place: Found,
    right: CoreExpr,
    line: u32,
) -> Result<CoreExpr, AllocError>
    ensures { IfOk result (λ made. plain_core made ≡ places.assigned (seen_found place) (plain_core right) line) }
{
    match place {
        Found::Value(_) => Ok(right),
        Found::Local { number, .. } => with_one(alloc, Operation::Set(number), right, line),
        Found::Cell {
            pointer,
            own,
            line: at,
        } => written(alloc, pointer, own, at, right, line),
    }
}

fn written(
    alloc: Global,
    pointer: CoreExpr,
    own: bool,
    at: u32,
    right: CoreExpr,
    line: u32,
) -> Result<CoreExpr, AllocError>
    ensures { IfOk result (λ made. plain_core made
        ≡ places.assigned (places.cell (plain_core pointer) own at) (plain_core right) line) }
{
    let place = reaching(alloc, own, pointer, at)?;
    let made = with_two(alloc, Operation::Write, place, right, line)?;
    Ok(made)
}

/// A compound assignment, told at this line.
pub fn changed(
    alloc: Global,
    place: Found,
    operation: Operation,
    right: CoreExpr,
    line: u32,
) -> Result<CoreExpr, AllocError>
    ensures { IfOk result (λ made. plain_core made
        ≡ places.changed (seen_found place) operation (plain_core right) line) }
{
    match place {
        Found::Value(e) => Ok(e),
        Found::Local { number, .. } => changed_local(alloc, number, operation, right, line),
        Found::Cell {
            pointer,
            own,
            line: at,
        } => {
            let pointer = reaching(alloc, own, pointer, at)?;
            let made = update(alloc, pointer, operation, right, None, line)?;
            Ok(made)
        }
    }
}

fn changed_local(
    alloc: Global,
    number: u32,
    operation: Operation,
    right: CoreExpr,
    line: u32,
) -> Result<CoreExpr, AllocError>
    ensures { IfOk result (λ made. plain_core made
        ≡ places.changed (places.local number line) operation (plain_core right) line) }
{
    let old = used(alloc, number, line);
    let new = with_two(alloc, operation, old, right, line)?;
    let made = with_one(alloc, Operation::Set(number), new, line)?;
    Ok(made)
}

/// `++` or `--` behind a place, whose value is the old one.
pub fn changed_after(
    alloc: Global,
    place: Found,
    operation: Operation,
    back: Operation,
    line: u32,
) -> Result<CoreExpr, AllocError>
    ensures { IfOk result (λ made. plain_core made ≡ places.changed_after (seen_found place) operation back line) }
{
    match place {
        Found::Value(e) => Ok(e),
        Found::Local { number, .. } => {
            let new = changed_local(alloc, number, operation, number_one(alloc), line)?;
            let made = with_two(alloc, back, new, number_one(alloc), line)?;
            Ok(made)
        }
        Found::Cell {
            pointer,
            own,
            line: at,
        } => {
            let pointer = reaching(alloc, own, pointer, at)?;
            let made = update(
                alloc,
                pointer,
                operation,
                number_one(alloc),
                Some(back),
                line,
            )?;
            Ok(made)
        }
    }
}

fn exposed_of(operation: Operation) -> Operation
    ensures { result ≡ exposed_operation operation }
{
    match operation {
        Operation::Element { object, count, .. } => Operation::Address { object, count },
        _ => operation,
    }
}

#[tactic(auto, using(sc_core::proofs::ViewCoreLaws::core_views, crate::proofs::Exposed::exposures))]
fn exposed_first(first: CoreFirst) -> CoreFirst
    ensures { plain_core_first result ≡ places.exposed (plain_core_first first) }
{
    match first {
        CoreFirst::Step {
            operation,
            arguments,
            line,
        } => CoreFirst::Step {
            operation: exposed_of(operation),
            arguments,
            line,
        },
        CoreFirst::Constant(value) => CoreFirst::Constant(value),
        CoreFirst::Every(all) => CoreFirst::Every(all),
        CoreFirst::Any(all) => CoreFirst::Any(all),
        CoreFirst::Choice {
            of_pointer,
            test,
            yes,
            no,
        } => CoreFirst::Choice {
            of_pointer,
            test,
            yes,
            no,
        },
        CoreFirst::Update {
            pointer,
            operation,
            right,
            taken_back,
            line,
        } => CoreFirst::Update {
            pointer,
            operation,
            right,
            taken_back,
            line,
        },
    }
}

#[tactic(auto, using(sc_core::proofs::ViewCoreLaws::core_views))]
fn exposed_link(link: CoreLink) -> CoreLink
    ensures { plain_core_link result ≡ record {
      operation = exposed_operation (plain_core_link link).operation;
      more = (plain_core_link link).more;
      line = (plain_core_link link).line;
    } }
{
    CoreLink {
        operation: exposed_of(link.operation),
        more: link.more,
        line: link.line,
    }
}

/// An object's cell as a pointer to it.
#[tactic(auto, using(sc_core::proofs::ViewCoreLaws::core_views, crate::proofs::Exposed::exposures))]
fn exposed(pointer: CoreExpr) -> Result<CoreExpr, AllocError>
    ensures { IfOk result (λ made. plain_core made ≡ places.exposed (plain_core pointer)) }
{
    let CoreExpr { first, links } = pointer;
    let mut links = links;
    let Some(last) = links.pop() else {
        return Ok(CoreExpr {
            first: exposed_first(first),
            links,
        });
    };
    links.push(exposed_link(last))?;
    Ok(CoreExpr { first, links })
}

/// What `&` gives.
pub fn address_of(alloc: Global, found: Found) -> Result<CoreExpr, AllocError>
    ensures { IfOk result (λ made. plain_core made ≡ places.address_of (seen_found found)) }
{
    match found {
        Found::Value(e) => Ok(e),
        Found::Local { number, line } => Ok(used(alloc, number, line)),
        Found::Cell { pointer, .. } => exposed(pointer),
    }
}

/// The cell that a pointer with this last star leads to.
pub fn behind(star: Option<Star>, pointer: CoreExpr, line: u32) -> Found
    ensures { seen_found result ≡ places.behind star (plain_core pointer) line }
{
    Found::Cell {
        pointer,
        own: is_own(star),
        line,
    }
}

/// How many dimensions the object has.
pub fn dimensions_of(objects: &[Shape], object: u32) -> usize
    ensures { result ≡ places.dimensions_of objects.now object }
{
    match objects.get(object as usize) {
        Some(shape) => shape.left.as_slice().len() + shape.right.as_slice().len(),
        None => 0,
    }
}

/// Whether the object's cells are spread over the nodes.
fn is_spread(objects: &[Shape], object: u32) -> bool
    ensures { result ≡ places.is_spread objects.now object }
{
    match objects.get(object as usize) {
        Some(shape) => shape.spread,
        None => false,
    }
}

/// The number in 32 bits. One that has more counts as want of memory.
pub fn narrowed(count: usize) -> Result<u32, AllocError>
    ensures { IfOk result (λ n. n ≡ count) }
{
    match u32::try_from(count) {
        Ok(n) => Ok(n),
        Err(_) => Err(AllocError),
    }
}

/// The object with these indices: a cell where it has them all, and else the pointer to the first that remains.
pub fn object_with(
    alloc: Global,
    objects: &[Shape],
    object: u32,
    plain: bool,
    indices: Vec<CoreExpr>,
    line: u32,
) -> Result<Found, AllocError>
    ensures { IfOk result (λ made. seen_found made ≡ places.object_with objects.now object (length indices.items)
        plain (arguments_of (map plain_core indices.items)) line) }
{
    let dimensions = dimensions_of(objects, object);
    let whole = indices.len() == dimensions;
    let count = narrowed(indices.len())?;
    if whole {
        let operation = Operation::Element {
            object,
            count,
            plain,
        };
        return Ok(Found::Cell {
            pointer: step(alloc, operation, indices, line),
            own: !is_spread(objects, object),
            line,
        });
    }
    let operation = Operation::Address { object, count };
    Ok(Found::Value(step(alloc, operation, indices, line)))
}
