//! Locals plus or minus a number.

ghost use Rattle.std.specs.Prelude.{◌≡◌, IfOk};
ghost use Rattle.index_form.specs.Chains.{chain_core, stepped, seen_two};
ghost use Rattle.index_form.specs.Offsets.{kind, number_in, local_in, bare_local_in, moved, moved_back, sum_offset, difference_offset, step_offset, offset_in};

use crate::chain::{Chain, Outer, Two};
use sc_base::Binary;
use sc_core::{Constant, Operation};
use std::alloc::AllocError;

/// What the forms of places tell apart among operations.
#[derive(Clone, Copy, Debug, PartialEq, Eq)]
pub(crate) enum Kind {
    Local(u32),
    Sum,
    Difference,
    Remainder,
    Own,
    Element { object: u32, plain: bool },
    Other,
}

#[tactic(auto, unfolding(crate::specs::Offsets::kind))]
pub(crate) fn kind_of(operation: Operation) -> Kind
    ensures { result ≡ kind operation }
{
    match operation {
        Operation::Use(local) => Kind::Local(local),
        Operation::Binary(Binary::Add) => Kind::Sum,
        Operation::Binary(Binary::Sub) => Kind::Difference,
        Operation::Binary(Binary::Rem) => Kind::Remainder,
        Operation::Own => Kind::Own,
        Operation::Element { object, plain, .. } => Kind::Element { object, plain },
        _ => Kind::Other,
    }
}

/// A local plus a number.
#[derive(Clone, Copy, Debug, PartialEq, Eq)]
pub(crate) struct Offset {
    pub(crate) local: u32,
    pub(crate) plus: i64,
}

#[tactic(auto, using(crate::proofs::Offsetting::part_reads))]
fn number(e: &Chain) -> Option<i64>
    ensures { result ≡ number_in (chain_core e.now) }
{
    match e.constant() {
        None => None,
        Some(Constant::Number(number)) => Some(number),
        Some(Constant::Null) => None,
        Some(Constant::Mine) => None,
        Some(Constant::Procs) => None,
    }
}

#[tactic(auto, using(crate::proofs::Offsetting::part_reads))]
fn local(e: &Chain) -> Option<u32>
    ensures { result ≡ local_in (chain_core e.now) }
{
    match e.outer() {
        None => None,
        Some(step) => bare_local(&step),
    }
}

#[tactic(auto, using(crate::proofs::Offsetting::local_reads), unfolding(crate::specs::Chains::stepped, crate::specs::Offsets::bare_local_in))]
fn bare_local(step: &Outer) -> Option<u32>
    ensures { result ≡ bare_local_in (stepped step.now) }
{
    match kind_of(step.operation) {
        Kind::Local(local) => { if step.is_bare() { Some(local) } else { None } }
        Kind::Sum => None,
        Kind::Difference => None,
        Kind::Remainder => None,
        Kind::Own => None,
        Kind::Element { .. } => None,
        Kind::Other => None,
    }
}

#[tactic(auto, unfolding(crate::specs::Offsets::moved))]
fn plus_number(local: Option<u32>, number: Option<i64>) -> Option<Offset>
    ensures { result ≡ moved local number }
{
    match (local, number) {
        (Some(local), Some(plus)) => Some(Offset { local, plus }),
        _ => None,
    }
}

/// No source has the least number, which cannot be negated: it counts as want of memory.
#[tactic(auto, unfolding(crate::specs::Offsets::moved_back))]
fn minus_number(local: Option<u32>, number: Option<i64>) -> Result<Option<Offset>, AllocError>
    ensures { IfOk result (λ offset. offset ≡ moved_back local number) }
{
    match (local, number) {
        (Some(local), Some(number)) => match number.checked_neg() {
            Some(plus) => Ok(Some(Offset { local, plus })),
            None => Err(AllocError),
        },
        _ => Ok(None),
    }
}

#[tactic(auto, using(crate::proofs::Offsetting::side_reads))]
fn sum(two: &Two) -> Option<Offset>
    ensures { result ≡ sum_offset (seen_two two.now) }
{
    match plus_number(local(&two.left), number(&two.right)) {
        Some(offset) => Some(offset),
        None => plus_number(local(&two.right), number(&two.left)),
    }
}

#[tactic(auto, using(crate::proofs::Offsetting::side_reads))]
fn difference(two: &Two) -> Result<Option<Offset>, AllocError>
    ensures { IfOk result (λ offset. offset ≡ difference_offset (seen_two two.now)) }
{
    let offset = minus_number(local(&two.left), number(&two.right))?;
    Ok(offset)
}

/// The local and the number whose sum the expression is.
#[tactic(auto, using(crate::proofs::Offsetting::part_reads))]
pub(crate) fn offset_of(e: &Chain) -> Result<Option<Offset>, AllocError>
    ensures { IfOk result (λ offset. offset ≡ offset_in (chain_core e.now)) }
{
    match e.outer() {
        None => Ok(None),
        Some(step) => {
            let offset = offset_of_step(&step)?;
            Ok(offset)
        }
    }
}

#[tactic(auto, using(crate::proofs::Offsetting::step_reads), unfolding(crate::specs::Chains::stepped, crate::specs::Offsets::step_offset))]
fn offset_of_step(step: &Outer) -> Result<Option<Offset>, AllocError>
    ensures { IfOk result (λ offset. offset ≡ step_offset (stepped step.now)) }
{
    match kind_of(step.operation) {
        Kind::Local(local) => {
            if step.is_bare() {
                Ok(Some(Offset { local, plus: 0 }))
            } else {
                Ok(None)
            }
        }
        Kind::Sum => match step.two() {
            Some(two) => Ok(sum(&two)),
            None => Ok(None),
        },
        Kind::Difference => match step.two() {
            Some(two) => {
                let offset = difference(&two)?;
                Ok(offset)
            }
            None => Ok(None),
        },
        Kind::Remainder => Ok(None),
        Kind::Own => Ok(None),
        Kind::Element { .. } => Ok(None),
        Kind::Other => Ok(None),
    }
}
