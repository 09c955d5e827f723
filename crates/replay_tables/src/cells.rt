//! What the cells of all nodes hold.

ghost use Rattle.std.specs.Prelude.{◌≡◌, IfOk, OnOk, Some, length, slice_get, ◌<◌, [], IsSome, reverse};
ghost use Rattle.std.specs.List.{find};
ghost use Rattle.sc_layout.specs.Start.{zero_of, start, zero_in};
ghost use Rattle.sc_layout.specs.Place.{IsPlace};
ghost use Rattle.effect_order.specs.Effect.{same_place};
ghost use Rattle.sc_base.specs.declared.value.Place.{Place as Spot};
ghost use Rattle.replay_tables.specs.Cells.{holds, cell_in, object_at, with_cell, stray_value, known_at_start, node_start, with_object};

use crate::requests::same_place;
use sc_base::{OutOfMemory, Place, Ty, Value};
use sc_layout::Layout;
use sc_meaning::{Cells, NodeCells, ObjectCells};
use sqlite_items::Items;
use std::alloc::{AllocError, Global};
use std::marker::Model;

/// What the cells of one node hold, by object and offset, seen as a list.
#[derive(Drop)]
struct NodeTable {
    objects: Vec<Items<Value>>,
}

impl Model for NodeTable {
    ghost use Rattle.std.specs.Prelude.{List};
    ghost use Rattle.sc_base.specs.declared.value.Value.{Value as CellValue};

    ghost Value = { List (List CellValue) };

    ghost view = { λ n. n.objects.items };
}

/// A value that was written to a place which is no cell of the layout.
#[derive(Clone, Copy, Debug)]
pub struct Stray {
    pub place: Place,
    pub value: Value,
}

/// What each place holds: the cells of a layout, and apart from them what was written to places that are none of it,
/// so that it is told of every place, whatever is written.
#[derive(Drop)]
pub struct CellTable {
    nodes: Vec<NodeTable>,
    strays: Vec<Stray>,
}

impl Model for CellTable {
    ghost use Rattle.replay_tables.specs.Cells.{CellBook};

    ghost Value = { CellBook };

    ghost view = { λ c. record { known = c.nodes.items; strays = c.strays.items } };
}

impl NodeTable {
    /// What the cell holds, if there is one.
    fn read(&self, object: u32, offset: u32) -> Option<Value>
        ensures { result ≡ object_at self.now object offset }
    {
        match self.objects.get(object as usize) {
            Some(values) => values.get(offset as usize).copied(),
            None => None,
        }
    }

    /// Lets the cell hold the value.
    fn write(&mut self, object: u32, offset: u32, value: Value)
        requires { IsSome (object_at self.old object offset) }
        ensures { self.new ≡ with_object self.old object offset value }
    {
        let values = &mut self.objects[object as usize];
        values.set(offset as usize, value);
    }

    /// The cells as a part of an outcome.
    fn copied(&self, alloc: Global) -> Result<NodeCells, AllocError>
        ensures { IfOk result (λ cells. cells ≡ self.now) }
    {
        let mut objects = Vec::new(alloc);
        for values in self.objects.as_slice() {
            let copy = Vec::from_slice(alloc, values.as_slice())?;
            objects.push(ObjectCells::from_vec(copy))?;
        }
        Ok(NodeCells::from_vec(objects))
    }
}

impl CellTable {
    /// The cells of the layout before any write.
    pub fn new(alloc: Global, layout: &Layout) -> Result<CellTable, OutOfMemory>
        ensures { IfOk result (λ cells. cells ≡ record { known = known_at_start layout.now; strays = [] }) }
    {
        let Ok(nodes) = nodes_at_start(alloc, layout) else {
            return Err(OutOfMemory);
        };
        Ok(CellTable {
            nodes,
            strays: Vec::new(alloc),
        })
    }

    /// What the cell of the layout holds; None where the place is no cell of it.
    fn known(&self, place: Place) -> Option<Value>
        ensures { result ≡ cell_in self.now.known place }
    {
        match self.nodes.get(place.node as usize) {
            Some(node) => node.read(place.object, place.offset),
            None => None,
        }
    }

    /// What was written to the place last, where it is no cell of the layout.
    fn stray(&self, place: Place) -> Option<Value>
        ensures { result ≡ stray_value self.now.strays place }
    {
        match last_at(self.strays.as_slice(), place) {
            Some(stray) => Some(stray.value),
            None => None,
        }
    }

    /// What the place holds.
    pub fn read(&self, layout: &Layout, place: Place) -> Value
        ensures { result ≡ holds layout.now self.now place }
    {
        if let Some(value) = self.known(place) {
            return value;
        }
        match self.stray(place) {
            Some(value) => value,
            None => start_of(layout, place.object),
        }
    }

    /// Lets the place hold the value.
    pub fn write(&mut self, place: Place, value: Value) -> Result<(), OutOfMemory>
        ensures { OnOk result (self.new ≡ with_cell self.old place value) }
    {
        if self.known(place).is_some() {
            let node = &mut self.nodes[place.node as usize];
            node.write(place.object, place.offset, value);
            return Ok(());
        }
        let Ok(()) = self.strays.push(Stray { place, value }) else {
            return Err(OutOfMemory);
        };
        Ok(())
    }

    /// What the cells of the layout hold, as a part of an outcome.
    pub fn copied(&self, alloc: Global) -> Result<Cells, AllocError>
        ensures { IfOk result (λ cells. cells ≡ self.now.known) }
    {
        let mut nodes = Vec::new(alloc);
        for node in self.nodes.as_slice() {
            nodes.push(node.copied(alloc)?)?;
        }
        Ok(Cells::from_vec(nodes))
    }
}

/// The cells of all nodes before any write.
fn nodes_at_start(alloc: Global, layout: &Layout) -> Result<Vec<NodeTable>, AllocError>
    ensures { IfOk result (λ nodes. nodes.items ≡ known_at_start layout.now) }
{
    let mut nodes = Vec::new(alloc);
    for node in 0..layout.nodes() {
        nodes.push(node_at_start(alloc, layout, node)?)?;
    }
    Ok(nodes)
}

/// The cells of the node before any write.
fn node_at_start(alloc: Global, layout: &Layout, node: u32) -> Result<NodeTable, AllocError>
    requires { node < layout.now.nodes }
    ensures { IfOk result (λ cells. cells ≡ node_start layout.now node) }
{
    let mut objects = Vec::new(alloc);
    for object in 0..layout.count() {
        let values = object_at_start(alloc, layout, node, object)?;
        objects.push(values)?;
    }
    Ok(NodeTable { objects })
}

/// The cells of the object on the node before any write.
fn object_at_start(
    alloc: Global,
    layout: &Layout,
    node: u32,
    object: u32,
) -> Result<Items<Value>, AllocError>
    requires node { node < layout.now.nodes }
    requires object { object < length layout.now.objects }
    ensures { IfOk result (λ values. slice_get (node_start layout.now node) object ≡ Some values) }
{
    let value = start_of(layout, object);
    let extent = layout.extent(node, object);
    let values = vec![in alloc; value; extent as usize]?;
    Ok(Items::from_vec(values))
}

/// What the cells of the object begin with.
fn start_of(layout: &Layout, object: u32) -> Value
    ensures { result ≡ zero_in (slice_get layout.now.objects object) }
{
    if object >= layout.count() {
        return Value::Int(0);
    }
    zero_of(&layout.shape(object).ty)
}

/// What a cell of the type begins with.
fn zero_of(ty: &Ty) -> Value
    ensures { result ≡ zero_of ty.now.stars }
{
    if ty.stars.as_slice().is_empty() {
        Value::Int(0)
    } else {
        Value::Null
    }
}

/// The last of the writes that is to the place.
fn last_at(strays: &[Stray], place: Place) -> Option<Stray>
    ensures { result ≡ find (λ s. same_place s.place place) (reverse strays.now) }
{
    strays
        .iter()
        .rev()
        .copied()
        .find(|stray| same_place(stray.place, place))
}
