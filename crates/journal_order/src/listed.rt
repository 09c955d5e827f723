//! The items of a run.

ghost use Rattle.std.specs.Prelude.{◌≡◌, ◌++◌, All, IfOk, OnOk, reverse};
ghost use Rattle.fabric.specs.Barriers.{released};
ghost use Rattle.source_order.specs.Items.{own_steps, all_steps, all_releases};
ghost use Rattle.journal_order.specs.Listed.{IsOn};

use crate::own::own_steps;
use crate::passed::releases;
use sc_base::OutOfMemory;
use sc_isa::Entry;
use sc_meaning::SourceEvent;
use std::alloc::{AllocError, Global};

/// Adds the own steps of the node.
fn add_own(
    alloc: Global,
    to: &mut Vec<SourceEvent>,
    journal: &[Entry],
    node: u32,
) -> Result<(), AllocError>
    ensures { OnOk result (to.new.items ≡ to.old.items ++ own_steps node (reverse journal.now)) }
{
    let steps = own_steps(alloc, journal, node)?;
    to.extend_from_slice(steps.as_slice())
}

/// Adds the own steps of the first nodes, so many of them, by number.
fn add_steps(
    alloc: Global,
    to: &mut Vec<SourceEvent>,
    journal: &[Entry],
    nodes: u32,
) -> Result<(), AllocError>
    ensures { OnOk result (to.new.items ≡ to.old.items ++ all_steps nodes (reverse journal.now)) }
{
    for node in 0..nodes {
        add_own(alloc, to, journal, node)?;
    }
    Ok(())
}

/// Adds the first releases, so many of them.
fn add_releases(to: &mut Vec<SourceEvent>, count: u64) -> Result<(), AllocError>
    ensures { OnOk result (to.new.items ≡ to.old.items ++ all_releases count) }
{
    for number in 0..count {
        to.push(SourceEvent::Release { number: number + 1 })?;
    }
    Ok(())
}

fn listed(
    alloc: Global,
    journal: &[Entry],
    nodes: u32,
    effects: &[SourceEvent],
) -> Result<Vec<SourceEvent>, AllocError>
    requires { All (IsOn nodes) journal.now }
    ensures { IfOk result (λ items. items.items ≡ all_steps nodes (reverse journal.now)
        ++ (all_releases (released (reverse journal.now)) ++ effects.now)) }
{
    let mut items = Vec::new(alloc);
    add_steps(alloc, &mut items, journal, nodes)?;
    let count = releases(alloc, journal, nodes)?;
    add_releases(&mut items, count)?;
    items.extend_from_slice(effects)?;
    Ok(items)
}

/// The items of a journal of so many nodes, of which these are the effects: own steps by node, then releases, then effects.
pub fn list_items(
    alloc: Global,
    journal: &[Entry],
    nodes: u32,
    effects: &[SourceEvent],
) -> Result<Vec<SourceEvent>, OutOfMemory>
    requires { All (IsOn nodes) journal.now }
    ensures { IfOk result (λ items. items.items ≡ all_steps nodes (reverse journal.now)
        ++ (all_releases (released (reverse journal.now)) ++ effects.now)) }
{
    match listed(alloc, journal, nodes, effects) {
        Ok(items) => Ok(items),
        Err(_) => Err(OutOfMemory),
    }
}
