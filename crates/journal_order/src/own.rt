//! The own steps of the nodes of a run.

ghost use Rattle.std.specs.Prelude.{◌≡◌, ◌++◌, ◌<◌, ◌^◌, IfOk, OnOk, reverse, option_to_list};
ghost use Rattle.sc_meaning.specs.OfAccess.{is_blocking, is_done_at_once};
ghost use Rattle.source_order.specs.Steps.{request_by, count_one};
ghost use Rattle.source_order.specs.Items.{own_steps};
ghost use Rattle.journal_order.specs.Listed.{step_with};

use sc_isa::{Access, Entry, Track};
use sc_meaning::SourceEvent;
use std::alloc::{AllocError, Global};

/// Whether an access on the track is over, in the source, before its node's next own step.
fn is_blocking(track: Track) -> bool
    ensures { result ≡ is_blocking track }
{
    match track {
        Track::Counter(counter) => counter != 0,
        Track::Store => false,
        Track::Covered => true,
    }
}

/// Whether the access is a blocking read or write, which is one event of the source.
pub fn is_done_at_once(access: Access) -> bool
    ensures { result ≡ is_done_at_once access }
{
    match access {
        Access::Read { track, .. } => is_blocking(track),
        Access::Write { track, .. } => is_blocking(track),
        Access::Copy { .. } => false,
    }
}

/// The own step of the node that the entry is, as its request with this number, but for blocking reads and writes.
fn step_of(node: u32, request: u64, entry: Entry) -> Option<SourceEvent>
    ensures { result ≡ step_with node request entry }
{
    match entry {
        Entry::Issued {
            node: other,
            access,
            ..
        } => {
            if other == node && !is_done_at_once(access) {
                Some(SourceEvent::Issue { node, request })
            } else {
                None
            }
        }
        Entry::Waited {
            node: other,
            counter,
        } => {
            if other == node && counter == 0 {
                Some(SourceEvent::Sync { node, request })
            } else {
                None
            }
        }
        Entry::Arrived {
            node: other,
            stores,
        } => {
            if other == node {
                Some(SourceEvent::Arrive {
                    node,
                    request,
                    stores,
                })
            } else {
                None
            }
        }
        Entry::Finished { node: other, end } => {
            if other == node {
                Some(SourceEvent::End { node, end })
            } else {
                None
            }
        }
        _ => None,
    }
}

/// How many requests the node has made after the entry, before which it has made so many.
fn requests_after(node: u32, request: u64, entry: Entry) -> u64
    requires { request < 2 ^ 63 }
    ensures { result ≡ count_one (request_by node entry) request }
{
    let is_request = match entry {
        Entry::Issued { node: other, .. } => other == node,
        Entry::Waited {
            node: other,
            counter,
        } => other == node && counter == 0,
        Entry::Arrived { node: other, .. } => other == node,
        _ => false,
    };
    if is_request { request + 1 } else { request }
}

/// Adds the step, if there is one.
fn add_step(to: &mut Vec<SourceEvent>, step: Option<SourceEvent>) -> Result<(), AllocError>
    ensures { OnOk result (to.new.items ≡ to.old.items ++ option_to_list step) }
{
    if let Some(event) = step {
        to.push(event)?;
    }
    Ok(())
}

/// The own steps of the node in the journal, in their order, but for blocking reads and writes: those are their effects.
pub fn own_steps(
    alloc: Global,
    journal: &[Entry],
    node: u32,
) -> Result<Vec<SourceEvent>, AllocError>
    ensures { IfOk result (λ steps. steps.items ≡ own_steps node (reverse journal.now)) }
{
    let mut steps = Vec::new(alloc);
    let mut request = 0;
    for entry in journal {
        add_step(&mut steps, step_of(node, request, *entry))?;
        request = requests_after(node, request, *entry);
    }
    Ok(steps)
}
