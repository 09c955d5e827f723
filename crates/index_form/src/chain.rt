//! A core expression as it stands in a tree, or the part of it before one of its links, and its outermost step.

ghost use Rattle.std.specs.Prelude.{◌≡◌, map, if◌then◌else◌};
ghost use Rattle.std.specs.Option.{option_map};
ghost use Rattle.sc_core.specs.declared.operation.Constant.TheVariants.{Number};
ghost use Rattle.sc_core.specs.View.{plain_core, arguments_of};
ghost use Rattle.sc_core.specs.ViewParts.{plain_core_first};
ghost use Rattle.index_form.specs.Outermost.{constant_in, step_in, one_in, two_in, has_none};
ghost use Rattle.index_form.specs.Chains.{chain_core, stepped, seen_two};

use sc_core::{Constant, CoreExpr, CoreFirst, CoreLink, Operation};

/// What comes first, and what is done with its value in turn.
#[derive(Clone, Copy)]
pub(crate) struct Chain<'a> {
    pub(crate) first: &'a CoreFirst,
    pub(crate) links: &'a [CoreLink],
}

/// A step: what it does, and its first argument apart from those behind it.
#[derive(Clone, Copy)]
pub(crate) struct Outer<'a> {
    pub(crate) operation: Operation,
    pub(crate) value: Option<Chain<'a>>,
    pub(crate) more: &'a [CoreExpr],
}

/// The arguments of a step that has two.
#[derive(Clone, Copy)]
pub(crate) struct Two<'a> {
    pub(crate) left: Chain<'a>,
    pub(crate) right: Chain<'a>,
}

impl<'a> Chain<'a> {
    /// A whole expression.
    #[tactic(auto, using(crate::proofs::Chains::chain_reads))]
    pub(crate) fn of(e: &'a CoreExpr) -> Chain<'a>
        ensures { chain_core result ≡ plain_core e.now }
    {
        Chain {
            first: &e.first,
            links: e.links.as_slice(),
        }
    }

    /// The constant that the expression is.
    #[tactic(auto, using(crate::proofs::Chains::chain_reads))]
    pub(crate) fn constant(&self) -> Option<Constant>
        ensures { result ≡ constant_in (chain_core self.now) }
    {
        if self.links.is_empty() {
            constant_first(self.first)
        } else {
            None
        }
    }

    /// Its outermost step.
    #[tactic(auto, using(crate::proofs::Chains::chain_reads), unfolding(crate::specs::Chains::stepped))]
    pub(crate) fn outer(&self) -> Option<Outer<'a>>
        ensures { option_map stepped result ≡ step_in (chain_core self.now) }
    {
        match self.links.split_last() {
            Some((link, before)) => Some(Outer {
                operation: link.operation,
                value: Some(Chain {
                    first: self.first,
                    links: before,
                }),
                more: link.more.as_slice(),
            }),
            None => outer_first(self.first),
        }
    }
}

#[tactic(auto, using(crate::proofs::Chains::first_reads))]
fn constant_first(first: &CoreFirst) -> Option<Constant>
    ensures { result ≡ constant_in (plain_core_first first.now) }
{
    match first {
        CoreFirst::Constant(constant) => Some(*constant),
        CoreFirst::Every(tests) => number_if(tests.as_slice().is_empty(), 1),
        CoreFirst::Any(tests) => number_if(tests.as_slice().is_empty(), 0),
        CoreFirst::Step { .. } => None,
        CoreFirst::Choice { .. } => None,
        CoreFirst::Update { .. } => None,
    }
}

fn number_if(is_it: bool, number: i64) -> Option<Constant>
    ensures { result ≡ (if is_it then Some (Number number) else None) }
{
    if is_it {
        Some(Constant::Number(number))
    } else {
        None
    }
}

#[tactic(auto, using(crate::proofs::Chains::first_reads))]
fn outer_first(first: &CoreFirst) -> Option<Outer<'_>>
    ensures { option_map stepped result ≡ step_in (plain_core_first first.now) }
{
    match first {
        CoreFirst::Step {
            operation,
            arguments,
            ..
        } => Some(outer_of(*operation, arguments.as_slice())),
        CoreFirst::Constant(_) => None,
        CoreFirst::Every(_) => None,
        CoreFirst::Any(_) => None,
        CoreFirst::Choice { .. } => None,
        CoreFirst::Update { .. } => None,
    }
}

#[tactic(auto, using(crate::proofs::Chains::argument_reads), unfolding(crate::specs::Chains::stepped))]
fn outer_of(operation: Operation, arguments: &[CoreExpr]) -> Outer<'_>
    ensures { stepped result ≡ record { operation = operation; arguments = arguments_of (map plain_core arguments.now) } }
{
    match arguments.split_first() {
        Some((e, more)) => Outer {
            operation,
            value: Some(Chain::of(e)),
            more,
        },
        None => Outer {
            operation,
            value: None,
            more: arguments,
        },
    }
}

/// The only expression.
#[tactic(auto, using(crate::proofs::Chains::argument_reads))]
fn only(all: &[CoreExpr]) -> Option<&CoreExpr>
    ensures { option_map (λ e. plain_core e.now) result ≡ one_in (arguments_of (map plain_core all.now)) }
{
    match all.split_first() {
        Some((e, more)) => { if more.is_empty() { Some(e) } else { None } }
        None => None,
    }
}

impl<'a> Outer<'a> {
    /// Whether it has no argument.
    #[tactic(auto, using(crate::proofs::Chains::argument_reads), unfolding(crate::specs::Chains::stepped))]
    pub(crate) fn is_bare(&self) -> bool
        ensures { result ≡ has_none (stepped self.now).arguments }
    {
        self.value.is_none()
    }

    /// The only argument.
    #[tactic(auto, using(crate::proofs::Chains::argument_reads), unfolding(crate::specs::Chains::stepped))]
    pub(crate) fn one(&self) -> Option<Chain<'a>>
        ensures { option_map chain_core result ≡ one_in (stepped self.now).arguments }
    {
        if self.more.is_empty() {
            self.value
        } else {
            None
        }
    }

    /// The two arguments.
    #[tactic(auto, using(crate::proofs::Chains::argument_reads), unfolding(crate::specs::Chains::stepped))]
    pub(crate) fn two(&self) -> Option<Two<'a>>
        ensures { option_map seen_two result ≡ two_in (stepped self.now).arguments }
    {
        match (self.value, only(self.more)) {
            (Some(left), Some(right)) => Some(Two {
                left,
                right: Chain::of(right),
            }),
            _ => None,
        }
    }
}
