//! All edges of a run.

ghost use Rattle.std.specs.Prelude.{◌≡◌, ◌++◌, All, IfOk, OnOk, reverse, length};
ghost use Rattle.sc_meaning.specs.Past.{Processes};
ghost use Rattle.fabric.specs.Asked.{Machine};
ghost use Rattle.least_order.specs.Least.{IsWithin};
ghost use Rattle.least_order.specs.Ways.{AreWays};
ghost use Rattle.source_order.specs.Items.{items as items_of};
ghost use Rattle.journal_order.specs.Listed.{IsOn};
ghost use Rattle.journal_order.specs.Ordering.{CanBeOrdered, before_at};
ghost use Rattle.order_edges.specs.Tables.{releases_in, releases_of, nodes_edges};
ghost use Rattle.order_edges.specs.Whole.{all_edges};

use crate::keyed::{Pairing, add_keyed};
use crate::tables::{Node, Releases};
use least_order::Edge;
use sc_base::OutOfMemory;
use sc_isa::Entry;
use sc_meaning::SourceEvent;
use std::alloc::{AllocError, Global};

fn add_nodes(
    alloc: Global,
    edges: &mut Vec<Edge>,
    journal: &[Entry],
    nodes: u32,
    items: &[SourceEvent],
    releases: &Releases,
) -> Result<(), AllocError>
    requires { releases_in releases.now ≡ releases_of (reverse journal.now) items.now }
    ensures { OnOk result (edges.new.items ≡ edges.old.items ++ nodes_edges (reverse journal.now) items.now nodes) }
{
    for node in 0..nodes {
        let node = Node::new(alloc, journal, items, node)?;
        node.add(edges, releases, items)?;
    }
    Ok(())
}

fn all_edges(
    alloc: Global,
    journal: &[Entry],
    nodes: u32,
    items: &[SourceEvent],
) -> Result<Vec<Edge>, AllocError>
    requires { All (IsOn nodes) journal.now }
    ensures { IfOk result (λ edges. edges.items ≡ all_edges (reverse journal.now) nodes items.now) }
{
    let releases = Releases::new(alloc, journal, nodes, items)?;
    let mut edges = Vec::new(alloc);
    releases.add(&mut edges, items)?;
    add_nodes(alloc, &mut edges, journal, nodes, items, &releases)?;
    add_keyed(alloc, &mut edges, items, Pairing::Copied)?;
    add_keyed(alloc, &mut edges, items, Pairing::LastWrite)?;
    add_keyed(alloc, &mut edges, items, Pairing::NextWrite)?;
    Ok(edges)
}

/// Edges between the places of the items in the list, which are those of the journal of a whole run of so many nodes:
/// an item has to come before another exactly if a way of one or more edges leads from it to that one.
pub fn edges(
    alloc: Global,
    journal: &[Entry],
    nodes: u32,
    items: &[SourceEvent],
) -> Result<Vec<Edge>, OutOfMemory>
    requires { All (IsOn nodes) journal.now }
    ensures bounds { IfOk result (λ edges. All (IsWithin (length items.now)) edges.items) }
    ensures ways { IfOk result (λ edges. (processes : Processes) (machine : Machine) → processes.nodes ≡ nodes
        → CanBeOrdered processes machine journal.now
        → items.now ≡ items_of processes.start nodes (reverse journal.now)
        → AreWays edges.items (length items.now) (before_at processes.start (reverse journal.now) items.now)) }
{
    match all_edges(alloc, journal, nodes, items) {
        Ok(edges) => Ok(edges),
        Err(_) => Err(OutOfMemory),
    }
}
