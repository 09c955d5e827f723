//! The effects that occur with an entry of a journal.

ghost use Rattle.std.specs.Prelude.{◌≡◌, IfOk};
ghost use Rattle.std.specs.Option.{option_map, IfSome};
ghost use Rattle.sc_layout.specs.Start.{start};
ghost use Rattle.fabric.specs.Access.{transfer_of};
ghost use Rattle.fabric.specs.Effects.{due, occurs_on, cell_at_issue, at_issue, and_effect, at_delivery};
ghost use Rattle.journal_effects.specs.Issues.{HaveNumberedCells, with_entry};
ghost use Rattle.journal_effects.specs.Numbered.{HasNumberedCells, IsNumbered};
ghost use Rattle.journal_effects.specs.Occurred.{effect_of};

use crate::effect::CellEffect;
use crate::issues::Issues;
use crate::occurred::Occurred;
use crate::parts::due;
use sc_base::OutOfMemory;
use sc_isa::{Access, Entry};
use sc_layout::Layout;

/// With the effect, if it is on the node.
fn with_own(
    occurred: Occurred,
    node: u32,
    effect: Option<CellEffect>,
) -> Result<Occurred, OutOfMemory>
    ensures { IfOk result (λ after. after ≡ occurs_on node (option_map effect_of effect) occurred) }
{
    match effect {
        Some(effect) => {
            if effect.place.node == node {
                occurred.with(effect)
            } else {
                Ok(occurred)
            }
        }
        None => Ok(occurred),
    }
}

/// With the effect, if there is one.
fn with_effect(occurred: Occurred, effect: Option<CellEffect>) -> Result<Occurred, OutOfMemory>
    ensures { IfOk result (λ after. after ≡ and_effect (option_map effect_of effect) occurred) }
{
    match effect {
        Some(effect) => occurred.with(effect),
        None => Ok(occurred),
    }
}

/// With the parts of the cell that occur with the issue: those on the issuer's node up to the first that is not.
fn cell_at_issue(
    occurred: Occurred,
    layout: &Layout,
    access: Access,
    node: u32,
    number: u64,
    cell: u32,
) -> Result<Occurred, OutOfMemory>
    requires { HasNumberedCells access }
    ensures { IfOk result (λ after. after ≡ cell_at_issue (start layout.now) (transfer_of access) node number cell occurred) }
{
    let first = due(&occurred, layout, access, node, number, cell);
    let once = with_own(occurred, node, first)?;
    let second = due(&once, layout, access, node, number, cell);
    with_own(once, node, second)
}

/// How many cells the access moves.
fn cells_of(access: Access) -> u32
    ensures { result ≡ (transfer_of access).cells }
{
    match access {
        Access::Read { .. } => 1,
        Access::Write { .. } => 1,
        Access::Copy { cells, .. } => cells,
    }
}

/// With the parts that occur with the issue, in cell order.
#[tactic(auto, using(crate::proofs::Kept::issue_more))]
pub fn with_issue(
    occurred: Occurred,
    layout: &Layout,
    access: Access,
    node: u32,
    number: u64,
) -> Result<Occurred, OutOfMemory>
    requires { HasNumberedCells access }
    ensures { IfOk result (λ after. after ≡ at_issue (start layout.now) (transfer_of access) node number (transfer_of access).cells occurred) }
{
    let mut after = occurred;
    for cell in 0..cells_of(access) {
        after = cell_at_issue(after, layout, access, node, number, cell)?;
    }
    Ok(after)
}

/// With the part that a delivery for the cell of the access brings.
pub fn with_delivery(
    occurred: Occurred,
    layout: &Layout,
    access: Option<Access>,
    node: u32,
    number: u64,
    cell: u32,
) -> Result<Occurred, OutOfMemory>
    requires { IfSome access HasNumberedCells }
    ensures { IfOk result (λ after. after ≡ and_effect (at_delivery (start layout.now) access node number cell occurred) occurred) }
{
    match access {
        Some(access) => {
            let effect = due(&occurred, layout, access, node, number, cell);
            with_effect(occurred, effect)
        }
        None => Ok(occurred),
    }
}

/// With what occurs with the entry, where these are the issues before it.
pub fn with_entry(
    occurred: Occurred,
    layout: &Layout,
    issues: &Issues,
    entry: Entry,
) -> Result<Occurred, OutOfMemory>
    requires issued { HaveNumberedCells issues.now }
    requires entry { IsNumbered entry }
    ensures { IfOk result (λ after. after ≡ with_entry (start layout.now) issues.now entry occurred) }
{
    match entry {
        Entry::Issued {
            node,
            number,
            access,
        } => with_issue(occurred, layout, access, node, number),
        Entry::Delivered {
            node,
            number,
            cell,
            ..
        } => {
            let access = issues.access(node, number);
            with_delivery(occurred, layout, access, node, number, cell)
        }
        _ => Ok(occurred),
    }
}
