//! What the objects of a layout hold.

ghost use Rattle.std.specs.Prelude.{◌≡◌, ◌<◌, ◌++◌, length, OnOk};
ghost use Rattle.run_report.specs.Memory.{held_in};
ghost use Rattle.run_report.specs.Report.{is_spread, cells_text, spread_line, copy_line};
ghost use Rattle.run_report.specs.Report.{object_lines, memory_lines, each_from};

use crate::values::{add_cell, add_marked, name_of};
use node_memory::NodeMemory;
use sc_layout::Layout;
use sc_tree::Names;
use std::alloc::AllocError;

/// Adds what the object's cells hold, in array order, and of an ordinary object those of the node.
fn add_cells(
    to: &mut Vec<u8>,
    names: &Names,
    layout: &Layout,
    memory: &NodeMemory,
    node: u32,
    object: u32,
) -> Result<(), AllocError>
    requires laid { memory.now.layout ≡ layout.now }
    requires node { node < layout.now.nodes }
    requires object { object < length layout.now.objects }
    ensures { OnOk result (to.new.items ≡ to.old.items
        ++ cells_text names.now layout.now (held_in memory.now) node object) }
{
    // Both are read for the proof alone, which learns so that the count of cells fits 64 bits.
    let _nodes = layout.nodes();
    let _objects = layout.count();
    let mut index = 0u64;
    while let Some(place) = layout.place_of(node, object, index) {
        add_cell(to, names, layout, memory.read(place))?;
        index += 1;
    }
    Ok(())
}

/// Adds the line of a spread object.
fn add_spread(
    to: &mut Vec<u8>,
    names: &Names,
    layout: &Layout,
    memory: &NodeMemory,
    object: u32,
) -> Result<(), AllocError>
    requires laid { memory.now.layout ≡ layout.now }
    requires some_node { 0 < layout.now.nodes }
    requires object { object < length layout.now.objects }
    ensures { OnOk result (to.new.items ≡ to.old.items
        ++ spread_line names.now layout.now (held_in memory.now) object) }
{
    to.extend_from_slice(name_of(names, layout, object))?;
    to.extend_from_slice(b" =")?;
    add_cells(to, names, layout, memory, 0, object)?;
    to.push(b'\n')?;
    Ok(())
}

/// Adds the line of a node's copy of an ordinary object.
fn add_copy(
    to: &mut Vec<u8>,
    names: &Names,
    layout: &Layout,
    memory: &NodeMemory,
    object: u32,
    node: u32,
) -> Result<(), AllocError>
    requires laid { memory.now.layout ≡ layout.now }
    requires node { node < layout.now.nodes }
    requires object { object < length layout.now.objects }
    ensures { OnOk result (to.new.items ≡ to.old.items
        ++ copy_line names.now layout.now (held_in memory.now) object node) }
{
    to.extend_from_slice(name_of(names, layout, object))?;
    add_marked(to, b'@', node)?;
    to.extend_from_slice(b" =")?;
    add_cells(to, names, layout, memory, node, object)?;
    to.push(b'\n')?;
    Ok(())
}

/// Adds a line for each node's copy of an ordinary object.
fn add_copies(
    to: &mut Vec<u8>,
    names: &Names,
    layout: &Layout,
    memory: &NodeMemory,
    object: u32,
) -> Result<(), AllocError>
    requires laid { memory.now.layout ≡ layout.now }
    requires object { object < length layout.now.objects }
    ensures { OnOk result (to.new.items ≡ to.old.items
        ++ each_from 0 layout.now.nodes (copy_line names.now layout.now (held_in memory.now) object)) }
{
    for node in 0..layout.nodes() {
        add_copy(to, names, layout, memory, object, node)?;
    }
    Ok(())
}

fn is_spread(layout: &Layout, object: u32) -> bool
    requires { object < length layout.now.objects }
    ensures { result ≡ is_spread layout.now object }
{
    layout.shape(object).spread
}

/// Adds the lines of an object.
#[tactic(auto, unfolding(crate::specs::Report::object_lines))]
fn add_object(
    to: &mut Vec<u8>,
    names: &Names,
    layout: &Layout,
    memory: &NodeMemory,
    object: u32,
) -> Result<(), AllocError>
    requires laid { memory.now.layout ≡ layout.now }
    requires some_node { 0 < layout.now.nodes }
    requires object { object < length layout.now.objects }
    ensures { OnOk result (to.new.items ≡ to.old.items
        ++ object_lines names.now layout.now (held_in memory.now) object) }
{
    if is_spread(layout, object) {
        add_spread(to, names, layout, memory, object)?;
        return Ok(());
    }
    add_copies(to, names, layout, memory, object)?;
    Ok(())
}

/// Adds the lines of all objects, in the order of declaration.
fn add_objects(
    to: &mut Vec<u8>,
    names: &Names,
    layout: &Layout,
    memory: &NodeMemory,
) -> Result<(), AllocError>
    requires laid { memory.now.layout ≡ layout.now }
    ensures { OnOk result (to.new.items ≡ to.old.items
        ++ each_from 0 (length layout.now.objects) (object_lines names.now layout.now (held_in memory.now))) }
{
    for object in 0..layout.count() {
        add_object(to, names, layout, memory, object)?;
    }
    Ok(())
}

/// Adds what the memory holds.
pub fn add_memory(
    to: &mut Vec<u8>,
    names: &Names,
    layout: &Layout,
    memory: &NodeMemory,
) -> Result<(), AllocError>
    requires laid { memory.now.layout ≡ layout.now }
    ensures { OnOk result (to.new.items ≡ to.old.items ++ memory_lines names.now layout.now (held_in memory.now)) }
{
    to.extend_from_slice(b"== memory ==\n")?;
    add_objects(to, names, layout, memory)?;
    Ok(())
}
