//! Whether two accesses reach one cell.

ghost use Rattle.std.specs.Prelude.{◌≡◌, ◌<◌, ◌*◌, ◌↔◌, ◌^◌, ◌≤◌, ◌+◌, ◌%◌, ℕ, length, All, IsTrue, IfSome, IsSomeAnd, Contains, slice_get, Some, true};
ghost use Rattle.sc_layout.specs.Place.{place_of};
ghost use Rattle.alias_conflicts.specs.declared.region.Indices.TheVariants.{Remainder};
ghost use Rattle.sc_layout.specs.Layout.{IsLayout, LaidObject, block_of};
ghost use Rattle.alias_conflicts.specs.Regions.{AreCommon, HasCell, HasIndex, HasObject, IsBelow, IsRegion, Agrees, Meets, Overlap};
ghost use Rattle.alias_conflicts.specs.Firsts.{first_index, next_index};

use crate::region::{Indices, Region};
use sc_layout::Layout;

/// Whether some cell is in both regions. `exposed` lists the exposed objects.
pub(crate) fn overlap(layout: &Layout, exposed: &[u32], a: &Region, b: &Region) -> bool
    requires lawful { IsLayout layout.now }
    requires exposed { All (λ o. o < length layout.now.objects) exposed.now }
    requires a { IsRegion layout.now a.now }
    requires b { IsRegion layout.now b.now }
    ensures { IsTrue result ↔ Overlap layout.now exposed.now a.now b.now }
{
    match a.object {
        Some(object) => has_object(exposed, b.object, object) && meet(layout, object, a, b),
        None => overlap_some(layout, exposed, a, b),
    }
}

/// Whether some exposed object has a cell that is in both regions, of which the first has no object of its own. Where their
/// nodes differ no object is looked at.
fn overlap_some(layout: &Layout, exposed: &[u32], a: &Region, b: &Region) -> bool
    requires lawful { IsLayout layout.now }
    requires exposed { All (λ o. o < length layout.now.objects) exposed.now }
    requires a { IsRegion layout.now a.now }
    requires b { IsRegion layout.now b.now }
    ensures { IsTrue result ↔ ((o : ℕ) × Contains exposed.now o × HasObject exposed.now b.now.object o × Meets layout.now o a.now b.now) }
{
    match a.node {
        Some(node) => agrees(b.node, node) && overlap_exposed(layout, exposed, a, b),
        None => overlap_exposed(layout, exposed, a, b),
    }
}

/// The same, object by object.
fn overlap_exposed(layout: &Layout, exposed: &[u32], a: &Region, b: &Region) -> bool
    requires lawful { IsLayout layout.now }
    requires exposed { All (λ o. o < length layout.now.objects) exposed.now }
    requires a { IsRegion layout.now a.now }
    requires b { IsRegion layout.now b.now }
    ensures { IsTrue result ↔ ((o : ℕ) × Contains exposed.now o × HasObject exposed.now b.now.object o × Meets layout.now o a.now b.now) }
{
    for object in exposed {
        if has_object(exposed, b.object, *object) && meet(layout, *object, a, b) {
            return true;
        }
    }
    false
}

/// Whether the object is the one that is given, or else is exposed.
fn has_object(exposed: &[u32], given: Option<u32>, object: u32) -> bool
    ensures { IsTrue result ↔ HasObject exposed.now given object }
{
    match given {
        Some(only) => object == only,
        None => exposed.contains(&object),
    }
}

/// Whether some cell of the object is in both regions, as far as their nodes and indices go.
fn meet(layout: &Layout, object: u32, a: &Region, b: &Region) -> bool
    requires lawful { IsLayout layout.now }
    requires object { object < length layout.now.objects }
    requires a { IsRegion layout.now a.now }
    requires b { IsRegion layout.now b.now }
    ensures { IsTrue result ↔ Meets layout.now object a.now b.now }
{
    let Some(indices) = common(layout.nodes(), a.indices, b.indices) else {
        return false;
    };
    match a.node {
        Some(node) => agrees(b.node, node) && has_cell_on(layout, object, node, indices),
        None => has_cell(layout, object, b.node, indices),
    }
}

/// Whether the number is the one that is given, where one is.
pub(crate) fn agrees(given: Option<u32>, number: u32) -> bool
    ensures { IsTrue result ↔ Agrees given number }
{
    match given {
        Some(only) => number == only,
        None => true,
    }
}

/// The indices that both have; None where there are none.
fn common(nodes: u32, a: Indices, b: Indices) -> Option<Indices>
    requires some_node { 0 < nodes }
    requires a { IsBelow nodes a }
    requires b { IsBelow nodes b }
    ensures below { IfSome result (IsBelow nodes) }
    ensures exact { AreCommon nodes a b result }
{
    match a {
        Indices::Any => Some(b),
        Indices::One(index) => {
            if has_index(nodes, b, index) {
                Some(a)
            } else {
                None
            }
        }
        Indices::Remainder(remainder) => with_remainder(nodes, remainder, b),
    }
}

/// Those of the indices that leave the remainder; None where there are none.
fn with_remainder(nodes: u32, remainder: u32, indices: Indices) -> Option<Indices>
    requires some_node { 0 < nodes }
    requires remainder { remainder < nodes }
    requires indices { IsBelow nodes indices }
    ensures below { IfSome result (IsBelow nodes) }
    ensures exact { AreCommon nodes (Remainder remainder) indices result }
{
    let fits = match indices {
        Indices::Any => return Some(Indices::Remainder(remainder)),
        Indices::One(index) => index % u64::from(nodes) == u64::from(remainder),
        Indices::Remainder(other) => other == remainder,
    };
    if fits { Some(indices) } else { None }
}

/// Whether the index is one of these.
fn has_index(nodes: u32, indices: Indices, index: u64) -> bool
    requires { 0 < nodes }
    ensures { IsTrue result ↔ HasIndex nodes indices index }
{
    match indices {
        Indices::Any => true,
        Indices::One(only) => index == only,
        Indices::Remainder(remainder) => index % u64::from(nodes) == u64::from(remainder),
    }
}

/// Whether some cell of the object is on the node, where one is given, and has one of the indices.
fn has_cell(layout: &Layout, object: u32, node: Option<u32>, indices: Indices) -> bool
    requires lawful { IsLayout layout.now }
    requires object { object < length layout.now.objects }
    requires node { IfSome node (λ n. n < layout.now.nodes) }
    requires indices { IsBelow layout.now.nodes indices }
    ensures { IsTrue result ↔ HasCell layout.now object node indices }
{
    match node {
        Some(node) => has_cell_on(layout, object, node, indices),
        None => {
            let index = next_from(layout.nodes(), 0, indices);
            layout.place_of(0, object, index).is_some()
        }
    }
}

/// Whether some cell of the object is on the node and has one of the indices.
fn has_cell_on(layout: &Layout, object: u32, node: u32, indices: Indices) -> bool
    requires lawful { IsLayout layout.now }
    requires object { object < length layout.now.objects }
    requires node { node < layout.now.nodes }
    requires indices { IsBelow layout.now.nodes indices }
    ensures { IsTrue result ↔ HasCell layout.now object (Some node) indices }
{
    let index = next_from(layout.nodes(), first_on(layout, object, node), indices);
    match layout.place_of(node, object, index) {
        Some(cell) => cell.node == node,
        None => false,
    }
}

/// The least of the indices that is not below the first, or the one that they are.
fn next_from(nodes: u32, first: u64, indices: Indices) -> u64
    requires some_node { 0 < nodes }
    requires indices { IsBelow nodes indices }
    requires first { first + nodes < 2 ^ 64 }
    ensures { result ≡ next_index nodes first indices }
{
    let nodes = u64::from(nodes);
    match indices {
        Indices::Any => first,
        Indices::One(index) => index,
        Indices::Remainder(remainder) => {
            first + (u64::from(remainder) + nodes - first % nodes) % nodes
        }
    }
}

/// The flat index of the object's first cell on the node, if it has one there.
fn first_on(layout: &Layout, object: u32, node: u32) -> u64
    requires lawful { IsLayout layout.now }
    requires object { object < length layout.now.objects }
    requires node { node < layout.now.nodes }
    ensures first { (o : LaidObject) → slice_get layout.now.objects object ≡ Some o → result ≡ first_index o node }
    ensures small { result + layout.now.nodes < 2 ^ 64 }
{
    // Read for the proof alone, which learns so that it fits its type.
    let _nodes = layout.nodes();
    if layout.shape(object).spread {
        u64::from(node) * u64::from(first_block(layout, object))
    } else {
        0
    }
}

/// How many cells the first block of a spread object has, where there is more than one node.
fn first_block(layout: &Layout, object: u32) -> u32
    requires lawful { IsLayout layout.now }
    requires object { object < length layout.now.objects }
    ensures { (o : LaidObject) → slice_get layout.now.objects object ≡ Some o → o.shape.spread ≡ true → 1 < layout.now.nodes → result ≡ block_of o }
{
    let mut low = 0;
    let mut high = layout.extent(0, object);
    while low < high {
        let middle = low + (high - low) / 2;
        if is_in_first_block(layout, object, middle) {
            low = middle + 1;
        } else {
            high = middle;
        }
    }
    low
}

/// Whether the object's cell with this index is on node 0 and as many cells are before it there.
fn is_in_first_block(layout: &Layout, object: u32, index: u32) -> bool
    requires lawful { IsLayout layout.now }
    requires object { object < length layout.now.objects }
    ensures { IsTrue result ↔ IsSomeAnd (place_of layout.now 0 object index) (λ c. (c.node ≡ 0) × (c.offset ≡ index)) }
{
    match layout.place_of(0, object, u64::from(index)) {
        Some(cell) => cell.node == 0 && cell.offset == index,
        None => false,
    }
}
