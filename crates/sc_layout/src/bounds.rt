//! The values of bounds.

ghost use Rattle.std.specs.Prelude.{◌≡◌, Some, None, Ok, Err, IfOk, MatchResult, MatchBool, reverse};
ghost use Rattle.std.specs.Option.{option_and_then};
ghost use Rattle.sc_base.specs.declared.shape.BoundStep.TheVariants.{Op};
ghost use Rattle.sc_layout.specs.Bound.{stack_after, only, positive, value_of};
ghost use Rattle.sc_layout.specs.Layout.{each_of, bound_of, IsCause};

use crate::error::LayoutError;
use sc_base::{Binary, Bound, BoundStep, binary};
use std::alloc::{AllocError, Global};

/// The value of each bound, or the first one that has none.
pub fn values_of(alloc: Global, bounds: &[Bound], nodes: u32) -> Result<Vec<u64>, LayoutError>
    ensures { let answer = each_of (bound_of nodes) bounds.now in MatchResult result (λ v. answer ≡ Ok v.items) (λ e. IsCause e answer) }
{
    let mut values = Vec::new(alloc);
    for bound in bounds {
        let value = bound_value(alloc, bound, nodes)?;
        values.push(value)?;
    }
    Ok(values)
}

#[tactic(auto, unfolding(crate::specs::Layout::bound_of))]
fn bound_value(alloc: Global, bound: &Bound, nodes: u32) -> Result<u64, LayoutError>
    ensures { let answer = bound_of nodes bound.now in MatchResult result (λ v. answer ≡ Ok v) (λ e. IsCause e answer) }
{
    match value_of_steps(alloc, bound.steps.as_slice(), nodes)? {
        Some(value) => Ok(value),
        None => Err(LayoutError::BadBound { line: bound.line }),
    }
}

#[tactic(auto, unfolding(crate::specs::Bound::value_of, crate::specs::Bound::result_of))]
fn value_of_steps(alloc: Global, steps: &[BoundStep], nodes: u32) -> Result<Option<u64>, AllocError>
    ensures { IfOk result (λ value. value ≡ value_of nodes steps.now) }
{
    let mut stack = Vec::new(alloc);
    for step in steps {
        let done = take_step(&mut stack, *step, nodes)?;
        if !done {
            return Ok(None);
        }
    }
    Ok(only_positive(stack.as_slice()))
}

/// Does one step on the stack, and tells whether there was nothing wrong with it.
fn take_step(stack: &mut Vec<i64>, step: BoundStep, nodes: u32) -> Result<bool, AllocError>
    ensures { IfOk result (λ done. let after = stack_after nodes step (reverse stack.old.items) in MatchBool done (after ≡ Some (reverse stack.new.items)) (after ≡ None)) }
{
    match step {
        BoundStep::Number(number) => stack.push(number)?,
        BoundStep::Procs => stack.push(i64::from(nodes))?,
        BoundStep::Op(op) => return operate(stack, op, nodes),
    }
    Ok(true)
}

fn operate(stack: &mut Vec<i64>, op: Binary, nodes: u32) -> Result<bool, AllocError>
    ensures { IfOk result (λ done. let after = stack_after nodes (Op op) (reverse stack.old.items) in MatchBool done (after ≡ Some (reverse stack.new.items)) (after ≡ None)) }
{
    let Some(b) = stack.pop() else {
        return Ok(false);
    };
    let Some(a) = stack.pop() else {
        return Ok(false);
    };
    match binary(op, a, b) {
        Ok(value) => {
            stack.push(value)?;
            Ok(true)
        }
        Err(_) => Ok(false),
    }
}

fn only_positive(stack: &[i64]) -> Option<u64>
    ensures { result ≡ option_and_then positive (only (reverse stack.now)) }
{
    match stack {
        [value] if *value > 0 => Some(*value as u64),
        _ => None,
    }
}
