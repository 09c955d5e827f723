//! The report of a run.

ghost use Rattle.std.specs.Prelude.{◌≡◌, length, IfOk};
ghost use Rattle.run_report.specs.Memory.{held_in};
ghost use Rattle.run_report.specs.Report.{report, ends_in, texts_in};

use crate::nodes::add_nodes;
use crate::objects::add_memory;
use node_memory::NodeMemory;
use sc_base::OutOfMemory;
use sc_isa::NodeResult;
use sc_layout::Layout;
use sc_tree::Names;
use std::alloc::{AllocError, Global};

fn text_of(
    alloc: Global,
    names: &Names,
    layout: &Layout,
    nodes: &[NodeResult],
    memory: &NodeMemory,
    shows_memory: bool,
) -> Result<Vec<u8>, AllocError>
    requires counted { layout.now.nodes ≡ length nodes.now }
    requires laid { memory.now.layout ≡ layout.now }
    ensures { IfOk result (λ text. text.items
        ≡ report names.now layout.now (ends_in nodes.now) (texts_in nodes.now) (held_in memory.now) shows_memory) }
{
    let mut text = Vec::new(alloc);
    add_nodes(alloc, &mut text, nodes)?;
    if shows_memory {
        add_memory(&mut text, names, layout, memory)?;
    }
    Ok(text)
}

/// The report of a run on the layout's nodes: what each node printed and how it ended, by number, and what the memory
/// holds where `shows_memory` asks for it.
pub fn report_text(
    alloc: Global,
    names: &Names,
    layout: &Layout,
    nodes: &[NodeResult],
    memory: &NodeMemory,
    shows_memory: bool,
) -> Result<Vec<u8>, OutOfMemory>
    requires counted { layout.now.nodes ≡ length nodes.now }
    requires laid { memory.now.layout ≡ layout.now }
    ensures { IfOk result (λ text. text.items
        ≡ report names.now layout.now (ends_in nodes.now) (texts_in nodes.now) (held_in memory.now) shows_memory) }
{
    match text_of(alloc, names, layout, nodes, memory, shows_memory) {
        Ok(text) => Ok(text),
        Err(_) => Err(OutOfMemory),
    }
}
