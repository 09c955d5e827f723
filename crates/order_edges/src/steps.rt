//! The requests of a node in a journal, as far as the order asks for them.

ghost use Rattle.std.specs.Prelude.{◌≡◌, ◌++◌, ◌<◌, ◌^◌, IfOk, OnOk, reverse};
ghost use Rattle.order_edges.specs.Steps.{track_in, is_request, is_arrival, step_if, arrivals_with, steps_of};

use sc_isa::{Access, Entry, Track};
use std::alloc::{AllocError, Global};

/// A request of a node: what its access is waited for by, if it is one, and how many arrivals are before it.
#[derive(Clone, Copy)]
pub struct Step {
    pub track: Option<Track>,
    pub arrivals: u64,
}

fn track_in(entry: Entry) -> Option<Track>
    ensures { result ≡ track_in entry }
{
    match entry {
        Entry::Issued {
            access: Access::Read { track, .. },
            ..
        } => Some(track),
        Entry::Issued {
            access: Access::Write { track, .. },
            ..
        } => Some(track),
        Entry::Issued {
            access: Access::Copy { track, .. },
            ..
        } => Some(track),
        _ => None,
    }
}

fn is_request(node: u32, entry: Entry) -> bool
    ensures { result ≡ is_request node entry }
{
    match entry {
        Entry::Issued { node: other, .. } => other == node,
        Entry::Waited {
            node: other,
            counter,
        } => other == node && counter == 0,
        Entry::Arrived { node: other, .. } => other == node,
        _ => false,
    }
}

fn is_arrival(node: u32, entry: Entry) -> bool
    ensures { result ≡ is_arrival node entry }
{
    match entry {
        Entry::Arrived { node: other, .. } => other == node,
        _ => false,
    }
}

/// Adds the request that the entry is, if it is one of the node.
fn add_step(to: &mut Vec<Step>, node: u32, arrivals: u64, entry: Entry) -> Result<(), AllocError>
    ensures { OnOk result (to.new.items ≡ to.old.items ++ step_if node arrivals entry) }
{
    if is_request(node, entry) {
        let track = track_in(entry);
        to.push(Step { track, arrivals })?;
    }
    Ok(())
}

/// How often the node has arrived at barriers after the entry.
fn arrivals_after(node: u32, arrivals: u64, entry: Entry) -> u64
    requires { arrivals < 2 ^ 63 }
    ensures { result ≡ arrivals_with node arrivals entry }
{
    if is_arrival(node, entry) {
        arrivals + 1
    } else {
        arrivals
    }
}

/// The requests of the node in their order, and its end as one more.
pub fn steps(alloc: Global, journal: &[Entry], node: u32) -> Result<Vec<Step>, AllocError>
    ensures { IfOk result (λ steps. steps.items ≡ steps_of node (reverse journal.now)) }
{
    let mut steps = Vec::new(alloc);
    let mut arrivals = 0;
    for entry in journal {
        add_step(&mut steps, node, arrivals, *entry)?;
        arrivals = arrivals_after(node, arrivals, *entry);
    }
    steps.push(Step {
        track: None,
        arrivals,
    })?;
    Ok(steps)
}
