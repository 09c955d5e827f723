//! The lines of a history.

ghost use Rattle.std.specs.Prelude.{◌≡◌, IfOk};
ghost use Rattle.history_report.specs.History.{history_text};

use crate::events::add_line;
use sc_base::OutOfMemory;
use sc_layout::Layout;
use sc_meaning::SourceHistory;
use sc_tree::Names;
use std::alloc::{AllocError, Global};

fn text_of(
    alloc: Global,
    names: &Names,
    layout: &Layout,
    history: &SourceHistory,
) -> Result<Vec<u8>, AllocError>
    ensures { IfOk result (λ text. text.items ≡ history_text names.now layout.now history.now) }
{
    let mut text = Vec::new(alloc);
    for event in history.as_slice() {
        add_line(&mut text, names, layout, *event)?;
    }
    Ok(text)
}

/// The lines of the history, one for each event in their order, with the objects' names and the places of the layout.
pub fn history_text(
    alloc: Global,
    names: &Names,
    layout: &Layout,
    history: &SourceHistory,
) -> Result<Vec<u8>, OutOfMemory>
    ensures { IfOk result (λ text. text.items ≡ history_text names.now layout.now history.now) }
{
    match text_of(alloc, names, layout, history) {
        Ok(text) => Ok(text),
        Err(_) => Err(OutOfMemory),
    }
}
