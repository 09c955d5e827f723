//! The arguments of calls, against the types that are wanted.

ghost use Rattle.std.specs.Prelude.{◌≡◌, map, IfOk};
ghost use Rattle.std.specs.List.{list_all, zip};
ghost use Rattle.sc_tree.specs.ViewTyped.{plain_typed};
ghost use Rattle.sc_typing.specs.Arguments as arguments;
ghost use Rattle.sc_typing.specs.Calls as calls;
ghost use Rattle.sc_typing.specs.Known as facts;
ghost use Rattle.sc_typing.specs.Rules as rules;
ghost use Rattle.sc_typing.specs.ViewKnown.{seen_judged};

use sc_base::Ty;
use sc_operators::chains::push_operand;
use sc_tree::TypedExpr;
use sc_typing::known::Judged;
use sc_typing::rules::fit;
use std::alloc::{AllocError, Global};

fn pairs_fit(wanted: &[Ty], given: &[Judged]) -> bool
    ensures { result ≡ list_all (λ pair. rules.fit (seen_judged pair.1).known pair.0) (zip wanted.now given.now) }
{
    wanted
        .iter()
        .zip(given.iter())
        .all(|(ty, judged)| fit(&judged.known, ty))
}

/// Whether there are as many arguments as types that are wanted, and each fits.
#[tactic(auto, using(crate::proofs::FitLaws::fit_all_is_zip))]
pub fn fit_all(wanted: &[Ty], given: &[Judged]) -> bool
    ensures { result ≡ arguments.fit_all wanted.now (map seen_judged given.now) }
{
    wanted.len() == given.len() && pairs_fit(wanted, given)
}

fn each_used(given: &[Judged]) -> bool
    ensures { result ≡ list_all (λ judged. facts.is_used (seen_judged judged)) given.now }
{
    given.iter().all(|judged| judged.is_used())
}

/// Whether each argument has a type, and none is void.
#[tactic(auto, using(crate::proofs::FitLaws::all_used_is))]
pub fn all_used(given: &[Judged]) -> bool
    ensures { result ≡ calls.all_used (map seen_judged given.now) }
{
    each_used(given)
}

/// Each argument as one of the type that is wanted. The error is want of memory.
pub fn met_all(
    alloc: Global,
    wanted: &[Ty],
    given: Vec<Judged>,
) -> Result<Vec<TypedExpr>, AllocError>
    ensures { IfOk result (λ made. map plain_typed made.items ≡ calls.met_all wanted.now (map seen_judged given.items)) }
{
    let mut left = given.into_iter();
    let mut made = Vec::new(alloc);
    for ty in wanted {
        let Some(judged) = left.next() else {
            return Ok(made);
        };
        let e = judged.met(alloc, ty)?;
        push_operand(&mut made, e)?;
    }
    Ok(made)
}
