//! The forms of places and of the indices in them.

ghost use Rattle.std.specs.Prelude.{◌≡◌, ◌==◌, IfOk, map};
ghost use Rattle.std.specs.List.{list_any};
ghost use Rattle.std.specs.Option.{option_map};
ghost use Rattle.sc_core.specs.Forms as places;
ghost use Rattle.sc_core.specs.View.{plain_core, linked};
ghost use Rattle.sc_core.specs.ViewParts.{plain_core_first, plain_core_link};
ghost use Rattle.flow_form.specs.Forms as forms;
ghost use Rattle.index_form.specs.Readers.{within_of};
ghost use Rattle.index_form.specs.Outermost.{one_in};
ghost use Rattle.index_form.specs.Chains.{chain_core, stepped, seen_two};
ghost use Rattle.index_form.specs.Seen.{affine_seen};
ghost use Rattle.index_form.specs.Placing.{narrow_of, linear_known, wrapped_known, remainder_in, procs_in, indexed, index_by, object_by, object_in, own_by, placed};

use crate::affine::{Affine, Sight};
use crate::chain::{Chain, Outer, Two};
use crate::offset::{Kind, Offset, kind_of, offset_of};
use sc_core::{Constant, CoreExpr, CoreFirst, CoreLink};
use site_graph::{Form, IndexForm};
use std::alloc::{AllocError, Global};

/// `k * MYPROC + c`, where both have 64 bits.
#[derive(Clone, Copy, Debug, PartialEq, Eq)]
struct Narrow {
    k: i64,
    c: i64,
}

#[tactic(auto, using(crate::proofs::Placed::narrow_reads), unfolding(crate::specs::Seen::affine_seen))]
fn narrowed(a: &Option<Affine>) -> Option<Narrow>
    ensures { result ≡ narrow_of (option_map affine_seen a.now) }
{
    match a {
        None => None,
        Some(a) => match a.k.to_i64() {
            None => None,
            Some(k) => match a.c.to_i64() {
                None => None,
                Some(c) => Some(Narrow { k, c }),
            },
        },
    }
}

/// The affine form of a value, if 64 bits hold it.
#[tactic(auto, unfolding(crate::specs::Seen::seen, crate::specs::Seen::seen_in))]
fn linear(sight: Sight, e: &Chain) -> Result<Option<Narrow>, AllocError>
    ensures { IfOk result (λ a. a ≡ narrow_of (forms.affine_of sight.nodes (chain_core e.now))) }
{
    let known = sight.chain(e)?;
    Ok(narrowed(&known.affine))
}

#[tactic(auto, unfolding(crate::specs::Placing::linear_known))]
fn linear_form(a: Option<Narrow>) -> IndexForm
    ensures { result ≡ linear_known a }
{
    match a {
        None => IndexForm::Any,
        Some(a) => IndexForm::Linear { k: a.k, c: a.c },
    }
}

#[tactic(auto, unfolding(crate::specs::Placing::wrapped_known))]
fn wrapped_form(a: Option<Narrow>) -> Option<IndexForm>
    ensures { result ≡ wrapped_known a }
{
    match a {
        None => None,
        Some(a) => Some(IndexForm::Wrapped { k: a.k, c: a.c }),
    }
}

/// The two sides of a remainder.
#[tactic(auto, using(crate::proofs::Placed::remainder_reads), unfolding(crate::specs::Chains::stepped, crate::specs::Placing::remainder_in))]
fn remainder<'a>(step: &Outer<'a>) -> Option<Two<'a>>
    ensures { option_map seen_two result ≡ remainder_in (stepped step.now) }
{
    match kind_of(step.operation) {
        Kind::Remainder => step.two(),
        Kind::Local(_) => None,
        Kind::Sum => None,
        Kind::Difference => None,
        Kind::Own => None,
        Kind::Element { .. } => None,
        Kind::Other => None,
    }
}

#[tactic(auto, using(crate::proofs::Placed::part_reads))]
fn is_procs(e: &Chain) -> bool
    ensures { result ≡ procs_in (chain_core e.now) }
{
    match e.constant() {
        None => false,
        Some(Constant::Procs) => true,
        Some(Constant::Number(_)) => false,
        Some(Constant::Null) => false,
        Some(Constant::Mine) => false,
    }
}

/// The form of an affine expression `% PROCS`.
#[tactic(auto, using(crate::proofs::Placed::wrapped_reads))]
fn wrapped(sight: Sight, e: &Chain) -> Result<Option<IndexForm>, AllocError>
    ensures { IfOk result (λ form. form ≡ forms.wrapped sight.nodes (chain_core e.now)) }
{
    let Some(step) = e.outer() else {
        return Ok(None);
    };
    let Some(two) = remainder(&step) else {
        return Ok(None);
    };
    if is_procs(&two.right) {
        let form = linear(sight, &two.left)?;
        return Ok(wrapped_form(form));
    }
    Ok(None)
}

fn is_mine(mines: &[u32], local: u32) -> bool
    ensures { result ≡ list_any (λ mine. local == mine) mines.now }
{
    mines.iter().any(|mine| local == *mine)
}

fn mine_by(mines: &[u32], offset: Offset) -> Option<IndexForm>
    ensures { result ≡ forms.mine_by mines.now offset.local offset.plus }
{
    if is_mine(mines, offset.local) {
        Some(IndexForm::Mine { c: offset.plus })
    } else {
        None
    }
}

/// The form of the local of a `for_my_1d` plus or minus a number.
#[tactic(auto, using(crate::proofs::Offsetting::mine_reads))]
fn mine(mines: &[u32], e: &Chain) -> Result<Option<IndexForm>, AllocError>
    ensures { IfOk result (λ form. form ≡ forms.mine mines.now (chain_core e.now)) }
{
    let offset = offset_of(e)?;
    match offset {
        None => Ok(None),
        Some(offset) => Ok(mine_by(mines, offset)),
    }
}

/// The form of an index that is written plainly.
#[tactic(auto, using(crate::proofs::Placed::index_reads))]
fn index_of(sight: Sight, mines: &[u32], e: &Chain) -> Result<IndexForm, AllocError>
    ensures { IfOk result (λ form. form ≡ indexed sight.nodes mines.now (chain_core e.now)) }
{
    let form = mine(mines, e)?;
    if let Some(form) = form {
        return Ok(form);
    }
    let form = wrapped(sight, e)?;
    if let Some(form) = form {
        return Ok(form);
    }
    let form = linear(sight, e)?;
    Ok(linear_form(form))
}

/// The form of the indices of an element, which are written plainly or not.
#[tactic(auto, using(crate::proofs::Placed::element_reads))]
fn index_in(sight: Sight, mines: &[u32], plain: bool, step: &Outer) -> Result<IndexForm, AllocError>
    ensures { IfOk result (λ form. form ≡ index_by sight.nodes mines.now plain (one_in (stepped step.now).arguments)) }
{
    let Some(e) = step.one() else {
        return Ok(IndexForm::Any);
    };
    if !plain {
        return Ok(IndexForm::Any);
    }
    let form = index_of(sight, mines, &e)?;
    Ok(form)
}

#[tactic(auto, unfolding(crate::specs::Placing::object_by))]
fn object_of(kind: Kind) -> Option<u32>
    ensures { result ≡ object_by kind }
{
    match kind {
        Kind::Element { object, .. } => Some(object),
        Kind::Local(_) => None,
        Kind::Sum => None,
        Kind::Difference => None,
        Kind::Remainder => None,
        Kind::Own => None,
        Kind::Other => None,
    }
}

/// The object that the expression names with its indices.
#[tactic(auto, using(crate::proofs::Placed::part_reads), unfolding(crate::specs::Chains::stepped))]
fn named_object(e: &Chain) -> Option<u32>
    ensures { result ≡ object_in (chain_core e.now) }
{
    match e.outer() {
        None => None,
        Some(step) => object_of(kind_of(step.operation)),
    }
}

/// The form of a place in the executing node's own memory.
#[tactic(auto, using(crate::proofs::Placed::own_reads))]
fn own_form(step: &Outer) -> Form
    ensures { result ≡ own_by (one_in (stepped step.now).arguments) }
{
    match step.one() {
        None => Form::OwnExposed,
        Some(e) => match named_object(&e) {
            None => Form::OwnExposed,
            Some(object) => Form::Own { object },
        },
    }
}

#[tactic(auto, using(crate::proofs::Placed::place_reads), unfolding(crate::specs::Chains::stepped, crate::specs::Placing::placed))]
fn step_form(sight: Sight, mines: &[u32], step: &Outer) -> Result<Form, AllocError>
    ensures { IfOk result (λ form. form ≡ placed sight.nodes mines.now (stepped step.now)) }
{
    match kind_of(step.operation) {
        Kind::Own => Ok(own_form(step)),
        Kind::Element { object, plain } => {
            let index = index_in(sight, mines, plain, step)?;
            Ok(Form::Element { object, index })
        }
        Kind::Local(_) => Ok(Form::Exposed),
        Kind::Sum => Ok(Form::Exposed),
        Kind::Difference => Ok(Form::Exposed),
        Kind::Remainder => Ok(Form::Exposed),
        Kind::Other => Ok(Form::Exposed),
    }
}

/// The form of a place: what comes first, and what is done with its value in turn. `nodes` is the number of nodes, and
/// `mines` are the locals of the `for_my_1d` around it. The one error is want of memory; a tree that takes the least
/// number of 64 bits from such a local, which no source gives, counts as that.
#[tactic(auto, using(crate::proofs::Placed::whole_reads), unfolding(crate::specs::Chains::chain_core))]
pub fn form_of_chain(
    alloc: Global,
    nodes: u32,
    mines: &[u32],
    first: &CoreFirst,
    links: &[CoreLink],
) -> Result<Form, AllocError>
    ensures { IfOk result (λ form. form ≡ forms.form_by (within_of nodes mines.now) (places.form_of (linked (plain_core_first first.now) (map plain_core_link links.now)))) }
{
    let place = Chain { first, links };
    let Some(step) = place.outer() else {
        return Ok(Form::Exposed);
    };
    let form = step_form(Sight { alloc, nodes }, mines, &step)?;
    Ok(form)
}

/// The form of a place that is a whole expression, as `form_of_chain` gives it.
#[tactic(auto, using(crate::proofs::Placed::expression_reads))]
pub fn form_of_place(
    alloc: Global,
    nodes: u32,
    mines: &[u32],
    place: &CoreExpr,
) -> Result<Form, AllocError>
    ensures { IfOk result (λ form. form ≡ forms.form_by (within_of nodes mines.now) (places.form_of (plain_core place.now))) }
{
    let form = form_of_chain(alloc, nodes, mines, &place.first, place.links.as_slice())?;
    Ok(form)
}
