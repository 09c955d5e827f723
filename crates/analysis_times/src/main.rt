//! One stage of the analysis, of a large flow whose size is given in words: `STAGE POINTS SITES BETWEEN NODES`, where a
//! barrier stands at every so many points. It prints a count of what the stage found.
#![tactic(auto)]

mod flows;
mod shapes;

ghost use Rattle.std.specs.Prelude.{◌≡◌, ◌+◌, ◌<◌, ◌↔◌, All, IsTrue, IfSome, length};
ghost use Rattle.site_graph.specs.Kept.{Names, NamesForm, NamesSite};

use crate::flows::{Size, large_flow};
use crate::shapes::objects;
use alias_conflicts::conflicts;
use delay_sets::delays;
use pending_flow::pending;
use phase_map::{phases, phases_early};
use sc_layout::Layout;
use site_graph::{BitRows, Flow, Form, Site};
use std::alloc::Global;
use std::env;
use std::process::ExitCode;
use sync_place::demanding::demand;
use sync_place::place;

/// What is asked: the stage, the flow's size, and the number of nodes.
#[derive(Clone, Copy, Debug)]
struct Asked {
    stage: u32,
    size: Size,
    nodes: u32,
}

/// The words, of which each that is wanting is that of a small flow.
fn read_words(rt: &HostRuntime) -> Asked {
    let small = Asked {
        stage: 5,
        size: Size {
            points: 600,
            sites: 10,
            between: 100,
        },
        nodes: 4,
    };
    let Ok(words) = env::args(rt) else {
        return small;
    };
    let mut numbers = words.skip(1).map(|word| word.parse::<u32>().ok());
    let mut next = |or: u32| numbers.next().flatten().unwrap_or(or);
    Asked {
        stage: next(small.stage),
        size: Size {
            points: next(small.size.points),
            sites: next(small.size.sites),
            between: next(small.size.between),
        },
        nodes: next(small.nodes),
    }
}

fn main(rt: HostRuntime) -> ExitCode {
    let asked = read_words(&rt);
    match found(rt.alloc(), asked) {
        Some(count) => {
            let _ = println!(rt; "{count}");
            ExitCode::SUCCESS
        }
        None => ExitCode::FAILURE,
    }
}

/// How much the stage finds; None where something is wanting.
fn found(alloc: Global, asked: Asked) -> Option<usize> {
    let flow = large_flow(alloc, asked.size).ok()??;
    match asked.stage {
        0 => Some(flow.points.as_slice().len()),
        1 => phases(alloc, &flow).ok().map(|phases| count(&phases.meets)),
        2 | 3 => conflicting(alloc, &flow, asked),
        4 => demanded(alloc, &flow),
        _ => placed(alloc, &flow),
    }
}

/// The conflicts of the flow in which all sites meet, and for stage 3 the delays too.
fn conflicting(alloc: Global, flow: &Flow, asked: Asked) -> Option<usize> {
    if asked.nodes == 0 {
        return None;
    }
    let layout = objects(alloc, asked.nodes).ok()?;
    if !all_named(flow, &layout) {
        return None;
    }
    let phases = phases_early(alloc, flow).ok()?;
    let conflicts = conflicts(alloc, flow, &phases, &layout).ok()?;
    if asked.stage == 2 {
        return Some(count(&conflicts.cross));
    }
    let delays = delays(alloc, flow, &conflicts).ok()?;
    Some(count(&delays))
}

/// The first demands of the flow without a delay.
fn demanded(alloc: Global, flow: &Flow) -> Option<usize> {
    let none = no_delays(alloc, flow)?;
    let demand = demand(alloc, flow, &none).ok()?;
    let first = pending(alloc, flow, &demand).ok()?;
    Some(count(&first))
}

/// The waits of the flow without a delay.
fn placed(alloc: Global, flow: &Flow) -> Option<usize> {
    let none = no_delays(alloc, flow)?;
    let plan = place(alloc, flow, &none).ok()?;
    Some(plan.oneway.as_slice().len())
}

fn no_delays(alloc: Global, flow: &Flow) -> Option<BitRows>
    ensures { IfSome result (λ b. (b.rows ≡ length flow.now.sites + 1) × (b.columns ≡ length flow.now.sites + 1)) }
{
    let size = flow.sites.as_slice().len() as u32 + 1;
    BitRows::new(alloc, size, size).ok()
}

/// How many columns are set in the first row that may have some.
fn count(rows: &BitRows) -> usize {
    if rows.rows() < 2 {
        return 0;
    }
    let mut found = 0usize;
    for column in 0..rows.columns() {
        if rows.get(1, column) {
            found = found.saturating_add(1);
        }
    }
    found
}

/// Whether all objects that the flow names are the layout's.
fn all_named(flow: &Flow, layout: &Layout) -> bool
    ensures { IsTrue result → Names (length layout.now.objects) flow.now }
{
    let objects = layout.count();
    if !sites_named(objects, flow.sites.as_slice()) {
        return false;
    }
    exposed_named(objects, flow.exposed.as_slice())
}

fn sites_named(objects: u32, sites: &[Site]) -> bool
    ensures { IsTrue result ↔ All (NamesSite objects) sites.now }
{
    sites.iter().all(|site| site_named(objects, *site))
}

fn exposed_named(objects: u32, exposed: &[u32]) -> bool
    ensures { IsTrue result ↔ All (λ o. o < objects) exposed.now }
{
    exposed.iter().all(|object| *object < objects)
}

fn site_named(objects: u32, site: Site) -> bool
    ensures { IsTrue result ↔ NamesSite objects site }
{
    site.reads.is_none_or(|form| form_named(objects, form))
        && site.writes.is_none_or(|form| form_named(objects, form))
}

fn form_named(objects: u32, form: Form) -> bool
    ensures { IsTrue result ↔ NamesForm objects form }
{
    match form {
        Form::Element { object, .. } | Form::Own { object } => object < objects,
        Form::OwnExposed | Form::Exposed => true,
    }
}
