//! Expressions of `MYPROC` that are affine: `k * MYPROC + c`.

ghost use Rattle.std.specs.Prelude.{◌≡◌, ◌+ℤ◌, ◌-ℤ◌, ◌*ℤ◌, IfOk, map, if◌then◌else◌};
ghost use Rattle.std.specs.Option.{option_map};
ghost use Rattle.sc_core.specs.View.{plain_core, arguments_of};
ghost use Rattle.sc_core.specs.ViewParts.{plain_core_first, plain_core_link};
ghost use Rattle.sc_core.specs.Core as core_tree;
ghost use Rattle.sc_core.specs.declared.operation.Constant.TheVariants.{Number};
ghost use Rattle.flow_form.specs.Forms as forms;
ghost use Rattle.index_form.specs.Outermost.{one_in, two_in};
ghost use Rattle.index_form.specs.Chains.{chain_core};
ghost use Rattle.index_form.specs.Seen.{affine_seen, seen, nothing_seen, seen_in, seen_sum, seen_difference, seen_product, seen_joined, joining, all_join, seen_link, seen_links, sides_seen, side_seen};

use crate::chain::Chain;
use sc_base::Binary;
use sc_core::{Constant, CoreExpr, CoreFirst, CoreLink, Operation};
use std::alloc::{AllocError, Global};
use wide_integer::Wide;

/// `k * MYPROC + c`.
#[derive(Debug, Drop)]
pub(crate) struct Affine {
    pub(crate) k: Wide,
    pub(crate) c: Wide,
}

/// What is known of the value of an expression: its affine form, and the value itself of a number or `PROCS`.
#[derive(Debug, Drop)]
pub(crate) struct Known {
    pub(crate) affine: Option<Affine>,
    factor: Option<i64>,
}

impl Affine {
    #[tactic(auto, unfolding(crate::specs::Seen::affine_seen))]
    fn new(alloc: Global, k: i64, c: i64) -> Result<Affine, AllocError>
        ensures { IfOk result (λ made. affine_seen made ≡ record { k = k; c = c }) }
    {
        let k = Wide::of(alloc, k)?;
        let c = Wide::of(alloc, c)?;
        Ok(Affine { k, c })
    }

    #[tactic(auto, unfolding(crate::specs::Seen::affine_seen))]
    fn plus(&self, other: &Affine) -> Result<Affine, AllocError>
        ensures { IfOk result (λ sum. affine_seen sum ≡ record { k = self.now.k +ℤ other.now.k; c = self.now.c +ℤ other.now.c }) }
    {
        let k = self.k.plus(&other.k)?;
        let c = self.c.plus(&other.c)?;
        Ok(Affine { k, c })
    }

    #[tactic(auto, unfolding(crate::specs::Seen::affine_seen))]
    fn minus(&self, other: &Affine) -> Result<Affine, AllocError>
        ensures { IfOk result (λ difference. affine_seen difference ≡ record { k = self.now.k -ℤ other.now.k; c = self.now.c -ℤ other.now.c }) }
    {
        let k = self.k.minus(&other.k)?;
        let c = self.c.minus(&other.c)?;
        Ok(Affine { k, c })
    }

    #[tactic(auto, unfolding(crate::specs::Seen::affine_seen))]
    fn times(&self, factor: i64) -> Result<Affine, AllocError>
        ensures { IfOk result (λ product. affine_seen product ≡ record { k = factor *ℤ self.now.k; c = factor *ℤ self.now.c }) }
    {
        let k = self.k.times(factor)?;
        let c = self.c.times(factor)?;
        Ok(Affine { k, c })
    }
}

/// A product by a number that is known.
#[tactic(auto, unfolding(crate::specs::Seen::affine_seen))]
fn scaled(factor: Option<i64>, a: &Option<Affine>) -> Result<Option<Affine>, AllocError>
    ensures { IfOk result (λ product. option_map affine_seen product ≡ forms.scaled factor (option_map affine_seen a.now)) }
{
    match (factor, a) {
        (Some(factor), Some(a)) => {
            let product = a.times(factor)?;
            Ok(Some(product))
        }
        _ => Ok(None),
    }
}

#[tactic(auto, unfolding(crate::specs::Seen::affine_seen, crate::specs::Seen::seen_sum))]
fn sum(a: &Option<Affine>, b: &Option<Affine>) -> Result<Option<Affine>, AllocError>
    ensures { IfOk result (λ sum. option_map affine_seen sum ≡ seen_sum (option_map affine_seen a.now) (option_map affine_seen b.now)) }
{
    match (a, b) {
        (Some(a), Some(b)) => {
            let sum = a.plus(b)?;
            Ok(Some(sum))
        }
        _ => Ok(None),
    }
}

#[tactic(auto, unfolding(crate::specs::Seen::affine_seen, crate::specs::Seen::seen_difference))]
fn difference(a: &Option<Affine>, b: &Option<Affine>) -> Result<Option<Affine>, AllocError>
    ensures { IfOk result (λ difference. option_map affine_seen difference ≡ seen_difference (option_map affine_seen a.now) (option_map affine_seen b.now)) }
{
    match (a, b) {
        (Some(a), Some(b)) => {
            let difference = a.minus(b)?;
            Ok(Some(difference))
        }
        _ => Ok(None),
    }
}

/// The operators of affine expressions.
#[derive(Clone, Copy, Debug, PartialEq, Eq)]
enum Joining {
    Sum,
    Difference,
    Product,
}

#[tactic(auto, unfolding(crate::specs::Seen::joining))]
fn joining_of(operation: Operation) -> Option<Joining>
    ensures { result ≡ joining operation }
{
    match operation {
        Operation::Binary(Binary::Add) => Some(Joining::Sum),
        Operation::Binary(Binary::Sub) => Some(Joining::Difference),
        Operation::Binary(Binary::Mul) => Some(Joining::Product),
        _ => None,
    }
}

/// Whether each link is an operator of affine expressions. The last one that is none is found first.
#[tactic(auto, using(crate::proofs::Seeing::join_reads))]
fn are_joining(links: &[CoreLink]) -> bool
    ensures { result ≡ all_join (map plain_core_link links.now) }
{
    let mut i = links.len();
    while i > 0 {
        i -= 1;
        if joining_of(links[i].operation).is_none() {
            return false;
        }
    }
    true
}

impl Known {
    #[tactic(auto, unfolding(crate::specs::Seen::seen, crate::specs::Seen::nothing_seen))]
    fn nothing() -> Known
        ensures { seen result ≡ nothing_seen }
    {
        Known {
            affine: None,
            factor: None,
        }
    }

    #[tactic(auto, unfolding(crate::specs::Seen::affine_seen, crate::specs::Seen::seen, crate::specs::Seen::seen_in, crate::specs::Seen::nothing_seen))]
    fn constant(alloc: Global, nodes: u32, constant: Constant) -> Result<Known, AllocError>
        ensures { IfOk result (λ known. seen known ≡ seen_in nodes (core_tree.constant constant)) }
    {
        let (k, c, factor) = match constant {
            Constant::Number(number) => (0, number, Some(number)),
            Constant::Procs => (0, i64::from(nodes), Some(i64::from(nodes))),
            Constant::Mine => (1, 0, None),
            Constant::Null => return Ok(Known::nothing()),
        };
        let affine = Affine::new(alloc, k, c)?;
        Ok(Known {
            affine: Some(affine),
            factor,
        })
    }

    /// The value of an operator of two such values.
    #[tactic(auto, unfolding(crate::specs::Seen::seen, crate::specs::Seen::seen_joined, crate::specs::Seen::joined_by))]
    fn joined(&self, joining: Joining, other: &Known) -> Result<Known, AllocError>
        ensures { IfOk result (λ known. seen known ≡ seen_joined joining (seen self.now) (seen other.now)) }
    {
        match joining {
            Joining::Sum => {
                let affine = sum(&self.affine, &other.affine)?;
                Ok(Known {
                    affine,
                    factor: None,
                })
            }
            Joining::Difference => {
                let affine = difference(&self.affine, &other.affine)?;
                Ok(Known {
                    affine,
                    factor: None,
                })
            }
            Joining::Product => {
                let affine = product(self, other)?;
                Ok(Known {
                    affine,
                    factor: None,
                })
            }
        }
    }
}

/// A product of which one side is known.
#[tactic(auto, using(crate::proofs::Seeing::product_reads), unfolding(crate::specs::Seen::seen, crate::specs::Seen::seen_product))]
fn product(a: &Known, b: &Known) -> Result<Option<Affine>, AllocError>
    ensures { IfOk result (λ product. option_map affine_seen product ≡ seen_product (seen a.now) (seen b.now)) }
{
    let product = scaled(a.factor, &b.affine)?;
    if product.is_some() {
        return Ok(product);
    }
    let product = scaled(b.factor, &a.affine)?;
    Ok(product)
}

/// What expressions are evaluated with: the allocator, and the number of nodes.
#[derive(Clone, Copy)]
pub(crate) struct Sight {
    pub(crate) alloc: Global,
    pub(crate) nodes: u32,
}

impl Sight {
    /// What is known of the value of a chain.
    #[tactic(auto, using(crate::proofs::Seeing::walk_reads, crate::proofs::Seeing::chain_is))]
    pub(crate) fn chain(self, e: &Chain) -> Result<Known, AllocError>
        ensures { IfOk result (λ known. seen known ≡ seen_in self.nodes (chain_core e.now)) }
    {
        let known = self.first(e.first)?;
        self.links(known, e.links)
    }

    #[cycle(known)]
    #[tactic(auto, using(std::proofs::lemmas::Grind::common_steps, crate::proofs::Seeing::walk_reads))]
    fn expression(self, e: &CoreExpr) -> Result<Known, AllocError>
        ensures { IfOk result (λ known. seen known ≡ seen_in self.nodes (plain_core e.now)) }
    {
        let known = self.first(&e.first)?;
        self.links(known, e.links.as_slice())
    }

    #[cycle(known)]
    #[tactic(auto, using(std::proofs::lemmas::Grind::common_steps, crate::proofs::Seeing::walk_reads))]
    fn first(self, first: &CoreFirst) -> Result<Known, AllocError>
        ensures { IfOk result (λ known. seen known ≡ seen_in self.nodes (plain_core_first first.now)) }
    {
        match first {
            CoreFirst::Constant(constant) => Known::constant(self.alloc, self.nodes, *constant),
            CoreFirst::Every(tests) => self.number_if(tests.as_slice().is_empty(), 1),
            CoreFirst::Any(tests) => self.number_if(tests.as_slice().is_empty(), 0),
            CoreFirst::Step {
                operation,
                arguments,
                ..
            } => match joining_of(*operation) {
                Some(joining) => {
                    let known = self.sides(joining, arguments.as_slice())?;
                    Ok(known)
                }
                None => Ok(Known::nothing()),
            },
            CoreFirst::Choice { .. } => Ok(Known::nothing()),
            CoreFirst::Update { .. } => Ok(Known::nothing()),
        }
    }

    /// A number, if it is there.
    fn number_if(self, is_it: bool, number: i64) -> Result<Known, AllocError>
        ensures { IfOk result (λ known. seen known ≡ (if is_it then seen_in self.nodes (core_tree.constant (Number number)) else nothing_seen)) }
    {
        if is_it {
            Known::constant(self.alloc, self.nodes, Constant::Number(number))
        } else {
            Ok(Known::nothing())
        }
    }

    /// The arguments of an operator, if there are two.
    #[cycle(known)]
    #[tactic(auto, using(std::proofs::lemmas::Grind::common_steps, crate::proofs::Seeing::walk_reads))]
    fn sides(self, joining: Joining, all: &[CoreExpr]) -> Result<Known, AllocError>
        ensures { IfOk result (λ known. seen known ≡ sides_seen self.nodes joining (two_in (arguments_of (map plain_core all.now)))) }
    {
        match all {
            [] => Ok(Known::nothing()),
            [_] => Ok(Known::nothing()),
            [a, b] => {
                let a = self.expression(a)?;
                let b = self.expression(b)?;
                let known = a.joined(joining, &b)?;
                Ok(known)
            }
            [_, _, _, ..] => Ok(Known::nothing()),
        }
    }

    /// What is done with a value in turn. After what joins nothing, nothing is known any more.
    #[cycle(known)]
    #[tactic(auto, using(std::proofs::lemmas::Grind::common_steps, crate::proofs::Seeing::walk_reads))]
    fn links(self, known: Known, links: &[CoreLink]) -> Result<Known, AllocError>
        ensures { IfOk result (λ all. seen all ≡ seen_links self.nodes (seen known) (map plain_core_link links.now)) }
    {
        if !are_joining(links) {
            return Ok(Known::nothing());
        }
        let mut known = known;
        for link in links {
            known = self.link(known, link)?;
        }
        Ok(known)
    }

    #[cycle(known)]
    #[tactic(auto, using(std::proofs::lemmas::Grind::common_steps, crate::proofs::Seeing::walk_reads))]
    fn link(self, known: Known, link: &CoreLink) -> Result<Known, AllocError>
        ensures { IfOk result (λ all. seen all ≡ seen_link self.nodes (seen known) (plain_core_link link.now)) }
    {
        match joining_of(link.operation) {
            Some(joining) => {
                let known = self.side(joining, known, link.more.as_slice())?;
                Ok(known)
            }
            None => Ok(Known::nothing()),
        }
    }

    /// The argument behind a value, if there is one alone.
    #[cycle(known)]
    #[tactic(auto, using(std::proofs::lemmas::Grind::common_steps, crate::proofs::Seeing::walk_reads))]
    fn side(self, joining: Joining, known: Known, all: &[CoreExpr]) -> Result<Known, AllocError>
        ensures { IfOk result (λ both. seen both ≡ side_seen self.nodes joining (seen known) (one_in (arguments_of (map plain_core all.now)))) }
    {
        match all {
            [] => Ok(Known::nothing()),
            [e] => {
                let other = self.expression(e)?;
                let known = known.joined(joining, &other)?;
                Ok(known)
            }
            [_, _, ..] => Ok(Known::nothing()),
        }
    }
}
