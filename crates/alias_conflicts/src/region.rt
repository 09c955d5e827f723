//! What an access reaches on a node.

ghost use Rattle.std.specs.Prelude.{◌≡◌, ◌<◌, ℕ, length, pos, IfSome};
ghost use Rattle.std.specs.Int.{int_rem_euclid};
ghost use Rattle.sc_layout.specs.Layout.{IsLayout};
ghost use Rattle.site_graph.specs.Graph.{Graph};
ghost use Rattle.site_graph.specs.Kept.{NamesForm};
ghost use Rattle.alias_conflicts.specs.May.{linear};
ghost use Rattle.alias_conflicts.specs.Regions.{AreIndices, IsRegion, IsRegionOf, IsBelow, IsOnly};

use sc_layout::Layout;
use site_graph::{Form, IndexForm};

/// Flat indices of an object's cells.
#[derive(Clone, Copy, Debug, PartialEq, Eq)]
pub(crate) enum Indices {
    Any,
    One(u64),
    /// Those that leave this remainder when they are divided by the number of nodes.
    Remainder(u32),
}

/// The cells of the object, or of all exposed ones where none is given, on the node, or on all where none is given, that
/// have these indices.
#[derive(Clone, Copy, Debug, PartialEq, Eq)]
pub(crate) struct Region {
    pub(crate) object: Option<u32>,
    pub(crate) node: Option<u32>,
    pub(crate) indices: Indices,
}

/// The cells that the form allows on the node; None where no object has its index.
pub(crate) fn region_of(layout: &Layout, form: Form, node: u32) -> Option<Region>
    requires lawful { IsLayout layout.now }
    requires node { node < layout.now.nodes }
    requires names { NamesForm (length layout.now.objects) form }
    ensures region { IfSome result (IsRegion layout.now) }
    ensures exact { (graph : Graph) → IsRegionOf layout.now graph form node result }
{
    let (object, own, indices) = match form {
        Form::Element { object, index } => {
            let indices = indices_of(index, layout.nodes(), node)?;
            let spread = layout.shape(object).spread;
            let own = if spread { None } else { Some(node) };
            (Some(object), own, indices)
        }
        Form::Own { object } => (Some(object), Some(node), Indices::Any),
        Form::OwnExposed => (None, Some(node), Indices::Any),
        Form::Exposed => (None, None, Indices::Any),
    };
    Some(Region {
        object,
        node: own,
        indices,
    })
}

/// The indices that the form allows on the node, as far as 64 bits go; None where there are none.
fn indices_of(form: IndexForm, nodes: u32, node: u32) -> Option<Indices>
    requires { 0 < nodes }
    ensures below { IfSome result (IsBelow nodes) }
    ensures exact { AreIndices nodes node form result }
{
    match form {
        IndexForm::Linear { k, c } => one_index(value_of(k, c, node)),
        IndexForm::Wrapped { k, c } => {
            let index = remainder_of(value_of(k, c, node), nodes);
            Some(Indices::One(u64::from(index)))
        }
        IndexForm::Mine { c } => Some(Indices::Remainder(remainder_of(
            value_of(1, c, node),
            nodes,
        ))),
        IndexForm::Any => Some(Indices::Any),
    }
}

/// The value of `k * node + c`.
pub(crate) fn value_of(k: i64, c: i64, node: u32) -> i128
    ensures { result ≡ linear k c node }
{
    i128::from(k) * i128::from(node) + i128::from(c)
}

/// The remainder from 0 to `nodes - 1` of the value divided by `nodes`.
pub(crate) fn remainder_of(value: i128, nodes: u32) -> u32
    requires { 0 < nodes }
    ensures { pos result ≡ int_rem_euclid value (pos nodes) }
{
    value.rem_euclid(i128::from(nodes)) as u32
}

/// The one index that has the value; None where 64 bits have none.
fn one_index(value: i128) -> Option<Indices>
    ensures below { (nodes : ℕ) → IfSome result (IsBelow nodes) }
    ensures exact { IsOnly value result }
{
    let index = u64::try_from(value).ok()?;
    Some(Indices::One(index))
}
