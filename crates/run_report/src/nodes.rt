//! What the nodes of a run printed, and how they ended.

ghost use Rattle.std.specs.Prelude.{◌≡◌, ◌++◌, Some, length, string_bytes, IfOk, OnOk};
ghost use Rattle.run_report.specs.Report.{fault_name, end_text, whole_lines, node_lines, nodes_lines};
ghost use Rattle.run_report.specs.Report.{ends_in, texts_in};

use sc_base::{End, FaultKind};
use sc_isa::NodeResult;
use std::alloc::{AllocError, Global};

/// The name of the fault.
pub fn fault_name(kind: FaultKind) -> &'static str
    ensures { result.now ≡ fault_name kind }
{
    match kind {
        FaultKind::Divide => "Divide",
        FaultKind::Overflow => "Overflow",
        FaultKind::Shift => "Shift",
        FaultKind::Index => "Index",
        FaultKind::NullUse => "NullUse",
        FaultKind::BadNode => "BadNode",
        FaultKind::PendingUse => "PendingUse",
        FaultKind::BadSize => "BadSize",
        FaultKind::Depth => "Depth",
    }
}

/// The text of an end, without its newline.
fn end_text(alloc: Global, end: End) -> Result<String, AllocError>
    ensures { IfOk result (λ text. string_bytes text ≡ end_text (Some end)) }
{
    match end {
        End::Ended => format!(in alloc; "-- ended --"),
        End::Fault { kind, line } => {
            let name = fault_name(kind);
            format!(in alloc; "-- fault {name} line {line} --")
        }
        End::Cut => format!(in alloc; "-- cut --"),
        End::Waiting => format!(in alloc; "-- waiting --"),
    }
}

/// Adds the text, and a newline where it has bytes and none at its end.
fn add_whole_lines(to: &mut Vec<u8>, text: &[u8]) -> Result<(), AllocError>
    ensures { OnOk result (to.new.items ≡ to.old.items ++ whole_lines text.now) }
{
    to.extend_from_slice(text)?;
    let Some(last) = text.last() else {
        return Ok(());
    };
    if *last == b'\n' {
        return Ok(());
    }
    to.push(b'\n')?;
    Ok(())
}

/// Adds what a node printed, between its number and its end.
fn add_node(
    alloc: Global,
    to: &mut Vec<u8>,
    number: usize,
    node: &NodeResult,
) -> Result<(), AllocError>
    ensures { OnOk result (to.new.items ≡ to.old.items ++ node_lines number (Some node.now.end) node.now.printed) }
{
    let head = format!(in alloc; "== node {number} ==\n")?;
    to.extend_from_slice(head.as_bytes())?;
    add_whole_lines(to, node.printed.as_slice())?;
    let end = end_text(alloc, node.end)?;
    to.extend_from_slice(end.as_bytes())?;
    to.push(b'\n')?;
    Ok(())
}

/// Adds what each node printed, by number.
pub fn add_nodes(alloc: Global, to: &mut Vec<u8>, nodes: &[NodeResult]) -> Result<(), AllocError>
    ensures { OnOk result (to.new.items ≡ to.old.items
        ++ nodes_lines (length nodes.now) (ends_in nodes.now) (texts_in nodes.now)) }
{
    for (number, node) in nodes.iter().enumerate() {
        add_node(alloc, to, number, node)?;
    }
    Ok(())
}
