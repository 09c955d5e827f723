//! The cells of all nodes.

ghost use Rattle.std.specs.Prelude.{◌≡◌, ◌≢◌, ◌<◌, length, slice_get, slice_set, Some, IfOk};
ghost use Rattle.sc_base.specs.declared.value.Place.{Place};
ghost use Rattle.sc_layout.specs.Place.{IsPlace, Fits};
ghost use Rattle.sc_layout.specs.Start.{zero_of, start};
ghost use Rattle.node_memory.specs.Memory.{Holds, cell, row, index_at};
ghost use Rattle.node_memory.specs.Rows.{rows_at_start};

use sc_base::{OutOfMemory, Place, Ty, Value};
use sc_layout::Layout;
use sqlite_items::Items;
use std::alloc::Global;
use std::marker::Model;

/// The cells of a layout, each of which holds a value that fits it. Seen as the layout and a row of values for each
/// object.
#[derive(Drop)]
pub struct NodeMemory {
    layout: Layout,
    rows: Vec<Items<Value>>,
}

impl Model for NodeMemory {
    ghost use Rattle.node_memory.specs.Memory as memory;

    ghost Value = { memory.Memory };

    ghost view = { λ m. record { layout = m.layout; rows = m.rows.items } };

    ghost invariant = { λ m. memory.AllFit (record { layout = m.layout; rows = m.rows.items }) };
}

impl NodeMemory {
    /// The cells of the layout before any write: a cell of type int holds 0, and one of a pointer type null.
    pub fn new(alloc: Global, layout: &Layout) -> Result<NodeMemory, OutOfMemory>
        ensures layout { IfOk result (λ m. m.layout ≡ layout.now) }
        ensures holds { IfOk result (λ m. Holds m (start layout.now)) }
    {
        let rows = rows_of(alloc, layout)?;
        let Ok(layout) = layout.copy(alloc) else {
            return Err(OutOfMemory);
        };
        Ok(NodeMemory { layout, rows })
    }

    /// The layout whose cells these are.
    pub fn layout(&self) -> &Layout
        ensures { result.now ≡ self.now.layout }
    {
        &self.layout
    }

    /// What the cell at the place holds.
    pub fn read(&self, place: Place) -> Value
        requires { IsPlace self.now.layout place }
        ensures holds { cell self.now place ≡ Some result }
        ensures fits { Fits self.now.layout place result }
    {
        let index = index_in(self.layout.nodes(), place);
        self.rows[place.object as usize].as_slice()[index]
    }

    /// Lets the cell at the place hold the value.
    pub fn write(&mut self, place: Place, value: Value)
        requires placed { IsPlace self.old.layout place }
        requires fits { Fits self.old.layout place value }
        ensures layout { self.new.layout ≡ self.old.layout }
        ensures there { cell self.new place ≡ Some value }
        ensures elsewhere { (other : Place) → IsPlace self.old.layout other → other ≢ place → cell self.new other ≡ cell self.old other }
    {
        let index = index_in(self.layout.nodes(), place);
        set_cell(&mut self.rows, place.object, index, value);
    }
}

/// Sets the cell with this number in the object's row.
fn set_cell(rows: &mut Vec<Items<Value>>, object: u32, index: usize, value: Value)
    requires row { object < length rows.old.items }
    requires index { index < length (row rows.old.items object) }
    ensures { rows.new.items ≡ slice_set rows.old.items object (slice_set (row rows.old.items object) index value) }
{
    let row = &mut rows[object as usize];
    row.set(index, value);
}

/// The number in its object's row of the cell at the place.
fn index_in(nodes: u32, place: Place) -> usize
    ensures { result ≡ index_at nodes place }
{
    place.offset as usize * nodes as usize + place.node as usize
}

/// The rows of all objects before any write.
fn rows_of(alloc: Global, layout: &Layout) -> Result<Vec<Items<Value>>, OutOfMemory>
    ensures { IfOk result (λ rows. rows.items ≡ rows_at_start layout.now) }
{
    let mut rows = Vec::new(alloc);
    for object in 0..layout.count() {
        let row = row_of(alloc, layout, object)?;
        let Ok(()) = rows.push(row) else {
            return Err(OutOfMemory);
        };
    }
    Ok(rows)
}

/// The row of an object before any write.
fn row_of(alloc: Global, layout: &Layout, object: u32) -> Result<Items<Value>, OutOfMemory>
    requires { object < length layout.now.objects }
    ensures { IfOk result (λ row. slice_get (rows_at_start layout.now) object ≡ Some row) }
{
    // Read for the proof alone, which learns that there is a node.
    let _count = layout.count();
    let most = layout.extent(0, object);
    let value = zero_of(&layout.shape(object).ty);
    let Ok(row) = vec![in alloc; value; layout.nodes() as usize * most as usize] else {
        return Err(OutOfMemory);
    };
    Ok(Items::from_vec(row))
}

/// What a cell of the type begins with.
fn zero_of(ty: &Ty) -> Value
    ensures { result ≡ zero_of ty.now.stars }
{
    if ty.stars.as_slice().is_empty() {
        Value::Int(0)
    } else {
        Value::Null
    }
}
