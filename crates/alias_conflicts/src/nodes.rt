//! On which nodes a form can allow a cell that another allows on a given node.

ghost use Rattle.std.specs.Prelude.{◌≡◌, ◌≢◌, ◌<◌, ℕ, pos, ◌-ℤ◌, length, IsTrue, IfSome, Some};
ghost use Rattle.sc_base.specs.declared.value.Place.{Place};
ghost use Rattle.sc_layout.specs.Layout.{IsLayout};
ghost use Rattle.sc_layout.specs.Place.{place_of};
ghost use Rattle.site_graph.specs.Kept.{NamesForm};
ghost use Rattle.site_graph.specs.Graph.{Graph};
ghost use Rattle.alias_conflicts.specs.May.{linear};
ghost use Rattle.alias_conflicts.specs.Regions.{FormsShare, IsRegion, IsBelow};
ghost use Rattle.alias_conflicts.specs.Across.{IsAlike, AreIndicesAlike, IsOnlyNode, IsOnlyIndexNode, AreOnNode};

use crate::region::{Indices, Region, region_of, remainder_of, value_of};
use sc_layout::Layout;
use site_graph::{Form, IndexForm};

/// Whether the form allows the same cells on all nodes, as far as its kind tells.
pub(crate) fn is_alike(layout: &Layout, form: Form) -> bool
    requires names { NamesForm (length layout.now.objects) form }
    ensures { IsTrue result → IsAlike layout.now form }
{
    match form {
        Form::Element { object, index } => {
            layout.shape(object).spread && indices_are_alike(index)
        }
        Form::Own { .. } | Form::OwnExposed => false,
        Form::Exposed => true,
    }
}

/// Whether the form allows the same indices on all nodes, as far as its kind tells.
fn indices_are_alike(form: IndexForm) -> bool
    ensures { IsTrue result → AreIndicesAlike form }
{
    match form {
        IndexForm::Linear { k, .. } => k == 0,
        IndexForm::Wrapped { k, .. } => k == 0,
        IndexForm::Mine { .. } => false,
        IndexForm::Any => true,
    }
}

/// The one node on which the second form can allow a cell that the first allows on the node `p`, as far as their kinds
/// tell. The number may be no node's, where there is none.
pub(crate) fn only_node(layout: &Layout, a: Form, p: u32, b: Form) -> Option<u32>
    requires lawful { IsLayout layout.now }
    requires a { NamesForm (length layout.now.objects) a }
    requires b { NamesForm (length layout.now.objects) b }
    requires p { p < layout.now.nodes }
    ensures { IfSome result (λ n. (graph : Graph) → IsOnlyNode layout.now graph a p b n) }
{
    let Some(region) = region_of(layout, a, p) else {
        return Some(p);
    };
    match b {
        Form::Element { object, index } => {
            if layout.shape(object).spread {
                only_index_node(layout.nodes(), region.indices, index)
            } else {
                node_of(layout, &region)
            }
        }
        Form::Own { .. } | Form::OwnExposed => node_of(layout, &region),
        Form::Exposed => None,
    }
}

/// The node on which all cells of the region are, as far as its parts tell.
fn node_of(layout: &Layout, region: &Region) -> Option<u32>
    requires lawful { IsLayout layout.now }
    requires region { IsRegion layout.now region.now }
    ensures { IfSome result (λ n. (graph : Graph) → AreOnNode layout.now graph region.now n) }
{
    if region.node.is_some() {
        return region.node;
    }
    let Some(object) = region.object else {
        return None;
    };
    let Indices::One(index) = region.indices else {
        return None;
    };
    if layout.shape(object).spread {
        Some(node_of_cell(layout, object, index))
    } else {
        None
    }
}

/// The node on which the object's cell with this index is; no node's number where there is no such cell.
fn node_of_cell(layout: &Layout, object: u32, index: u64) -> u32
    requires lawful { IsLayout layout.now }
    requires object { object < length layout.now.objects }
    ensures { (cell : Place) → place_of layout.now 0 object index ≡ Some cell → cell.node ≡ result }
{
    match layout.place_of(0, object, index) {
        Some(cell) => cell.node,
        None => layout.nodes(),
    }
}

/// The one node on which the form can allow one of these indices, as far as their kinds tell. The number may be no node's.
fn only_index_node(nodes: u32, indices: Indices, form: IndexForm) -> Option<u32>
    requires some_node { 0 < nodes }
    requires indices { IsBelow nodes indices }
    ensures { IfSome result (IsOnlyIndexNode nodes indices form) }
{
    match (form, indices) {
        (IndexForm::Linear { k, c }, Indices::One(index)) => node_on_line(nodes, k, c, index),
        (IndexForm::Mine { c }, Indices::One(index)) => {
            Some(remainder_of(gap_to(index, c), nodes))
        }
        (IndexForm::Mine { c }, Indices::Remainder(remainder)) => {
            Some(remainder_of(gap_to(u64::from(remainder), c), nodes))
        }
        _ => None,
    }
}

/// The one node on which `k * node + c` can be the index; None where k is 0.
fn node_on_line(nodes: u32, k: i64, c: i64, index: u64) -> Option<u32>
    ensures { IfSome result (λ n. (q : ℕ) → q < nodes → pos index ≡ linear k c q → q ≡ n) }
{
    if k == 0 {
        return None;
    }
    let node = steps_to(k, c, index);
    match u32::try_from(node) {
        Ok(node) => Some(node),
        Err(_) => Some(nodes),
    }
}

/// How many steps of `k`, forwards or backwards, lead from `c` nearest to the index.
fn steps_to(k: i64, c: i64, index: u64) -> u128
    requires { k ≢ pos 0 }
    ensures { (q : ℕ) → pos index ≡ linear k c q → q ≡ result }
{
    gap_to(index, c).unsigned_abs() / u128::from(k.unsigned_abs())
}

/// How far the index is above `c`.
fn gap_to(index: u64, c: i64) -> i128
    ensures { result ≡ pos index -ℤ c }
{
    i128::from(index) - i128::from(c)
}

/// Whether it is better asked for each node of the second form on which nodes the first one meets it.
pub(crate) fn is_met_first(layout: &Layout, a: Form, b: Form) -> bool
    requires a { NamesForm (length layout.now.objects) a }
    requires b { NamesForm (length layout.now.objects) b }
{
    rank(layout, a) > rank(layout, b)
}

/// How much the form tells of the nodes on which it meets another.
fn rank(layout: &Layout, form: Form) -> u32
    requires { NamesForm (length layout.now.objects) form }
{
    if is_alike(layout, form) {
        return 4;
    }
    let Form::Element { object, index } = form else {
        return 3;
    };
    if !layout.shape(object).spread {
        return 3;
    }
    match index {
        IndexForm::Mine { .. } => 2,
        IndexForm::Linear { .. } => 1,
        IndexForm::Wrapped { .. } | IndexForm::Any => 0,
    }
}
