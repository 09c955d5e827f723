//! Objects of a layout, with what their extents are computed from.

ghost use Rattle.std.specs.Prelude.{◌≡◌, ◌<◌, ◌+◌, ◌-◌, ◌*◌, ◌/◌, ◌%◌, ◌^◌, Ok, min, IfOk, MatchResult};
ghost use Rattle.sc_layout.specs.Layout.{product, cells_of, object_of, IsCause};
ghost use Rattle.sc_layout.specs.Place.{place_in, spread_place};
ghost use Rattle.sc_layout.specs.Small.{IsSmall};

use crate::bounds::values_of;
use crate::error::LayoutError;
use sc_base::{Place, Shape, copy_of_shape};
use std::alloc::{AllocError, Global};
use std::marker::Model;

/// An object of a layout, seen as its shape and the values of its bounds. It keeps the number of its blocks and
/// of the cells in each, or the greatest number of 128 bits in place of a larger one.
#[derive(Debug, Drop)]
pub struct Object {
    shape: Shape,
    bounds: Vec<u64>,
    blocks: u128,
    block: u128,
}

impl Model for Object {
    ghost use Rattle.std.specs.Prelude.{◌≡◌, ◌-◌, ◌^◌, min, length, take, drop};
    ghost use Rattle.sc_layout.specs.Layout.{LaidObject, product};

    ghost Value = { LaidObject };

    ghost view = { λ a. record { shape = a.shape; bounds = a.bounds.items } };

    ghost invariant = { λ a. (a.blocks ≡ min (product (take (length a.shape.left) a.bounds.items)) (2 ^ 128 - 1)) × (a.block ≡ min (product (drop (length a.shape.left) a.bounds.items)) (2 ^ 128 - 1)) };
}

impl Object {
    #[tactic(auto, unfolding(crate::specs::Layout::object_of))]
    /// The object that the shape declares, or the first of its bounds that has no value.
    pub fn of(alloc: Global, shape: &Shape, nodes: u32) -> Result<Object, LayoutError>
        ensures { let answer = object_of nodes shape.now in MatchResult result (λ o. answer ≡ Ok o) (λ e. IsCause e answer) }
    {
        let left = values_of(alloc, shape.left.as_slice(), nodes)?;
        let right = values_of(alloc, shape.right.as_slice(), nodes)?;
        let blocks = product_of(left.as_slice());
        let block = product_of(right.as_slice());
        let mut bounds = left;
        bounds.extend_from_slice(right.as_slice())?;
        Ok(Object {
            shape: copy_of_shape(alloc, shape)?,
            bounds,
            blocks,
            block,
        })
    }

    /// An object of its own with the same shape and bounds.
    pub fn copy(&self, alloc: Global) -> Result<Object, AllocError>
        ensures { IfOk result (λ copy. copy ≡ self.now) }
    {
        let shape = copy_of_shape(alloc, &self.shape)?;
        let bounds = Vec::from_slice(alloc, self.bounds.as_slice())?;
        Ok(Object {
            shape,
            bounds,
            blocks: self.blocks,
            block: self.block,
        })
    }

    /// The shape that was declared.
    pub fn shape(&self) -> &Shape
        ensures { result.now ≡ self.now.shape }
    {
        &self.shape
    }

    /// The values of its bounds, the left ones first.
    pub fn bounds(&self) -> &[u64]
        ensures { result.now ≡ self.now.bounds }
    {
        self.bounds.as_slice()
    }

    /// The cells on the node.
    pub fn cells_on(&self, nodes: u32, node: u32) -> u32
        requires small { IsSmall nodes self.now }
        requires node { node < nodes }
        ensures { result ≡ cells_of nodes self.now node }
    {
        let rounds = if self.shape.spread {
            (self.blocks + u128::from(nodes - 1 - node)) / u128::from(nodes)
        } else {
            self.blocks
        };
        (rounds * self.block) as u32
    }

    /// The place of the cell with this flat index, where the object has the number `object`.
    pub fn place(&self, nodes: u32, node: u32, object: u32, index: u64) -> Option<Place>
        requires small { IsSmall nodes self.now }
        requires node { node < nodes }
        ensures { result ≡ place_in nodes self.now node object index }
    {
        if u128::from(index) >= self.blocks * self.block {
            return None;
        }
        if self.shape.spread {
            Some(place_in_blocks(nodes, self.block as u64, object, index))
        } else {
            Some(Place {
                object,
                node,
                offset: index as u32,
            })
        }
    }

    /// The cells on node 0, or `2^64 - 1` where there are more.
    pub fn first_cells(&self, nodes: u32) -> u64
        requires { 0 < nodes }
        ensures { result ≡ min (cells_of nodes self.now 0) (2 ^ 64 - 1) }
    {
        let rounds = if self.shape.spread {
            self.blocks.saturating_add(u128::from(nodes - 1)) / u128::from(nodes)
        } else {
            self.blocks
        };
        narrowed(rounds.saturating_mul(self.block))
    }
}

/// The place of the cell with this flat index among blocks of `block` cells.
fn place_in_blocks(nodes: u32, block: u64, object: u32, index: u64) -> Place
    requires some_node { 0 < nodes }
    requires some_cell { 0 < block }
    requires near { index / block / nodes * block + index % block < 2 ^ 32 }
    ensures { result ≡ spread_place nodes block object index }
{
    let nodes = u64::from(nodes);
    let round = index / block;
    let offset = round / nodes * block + index % block;
    Place {
        object,
        node: (round % nodes) as u32,
        offset: offset as u32,
    }
}

fn narrowed(number: u128) -> u64
    ensures { result ≡ min number (2 ^ 64 - 1) }
{
    u64::try_from(number).unwrap_or(u64::MAX)
}

/// The product, or the greatest number of 128 bits in place of a larger one.
fn product_of(numbers: &[u64]) -> u128
    ensures { result ≡ min (product numbers.now) (2 ^ 128 - 1) }
{
    let mut all = 1u128;
    for number in numbers {
        all = all.saturating_mul(u128::from(*number));
    }
    all
}
