//! Delays: which accesses of one node must not overlap.

ghost use Rattle.std.specs.Prelude.{◌≡◌, ◌<◌, ◌≤◌, ◌+◌, ◌↔◌, length, IfOk, IsTrue};
ghost use Rattle.site_graph.specs.Bits.{AreInOrder, IsOf};
ghost use Rattle.site_graph.specs.Plans.{Blocks};
ghost use Rattle.site_graph.specs.Ways.{Precedes};
ghost use Rattle.delay_sets.specs.Delays.{IsExplicit, Link, AreDelays};
ghost use Rattle.delay_sets.specs.Backing.{AreBackPaths, AreLinks, BackPathBy, IsWithLinks, IsWithDelays, DelaysBy, AreSquare};

use crate::preceding::preceding;
use crate::relations::{close, composed, unite};
use sc_base::OutOfMemory;
use site_graph::{BitRows, Conflicts, Flow};
use std::alloc::Global;

/// Sets (a, b) exactly where the access of the site a has to be over before that of the site b begins, by these conflicts.
/// Rows and columns are the flow's sites, numbered from 1.
pub fn delays(alloc: Global, flow: &Flow, conflicts: &Conflicts) -> Result<BitRows, OutOfMemory>
    requires cross { AreSquare (length flow.now.sites + 1) conflicts.now.cross }
    requires own { AreSquare (length flow.now.sites + 1) conflicts.now.own }
    ensures { IfOk result (AreDelays flow.now conflicts.now.cross conflicts.now.own) }
{
    let before = preceding(alloc, flow)?;
    let links = links(alloc, flow, conflicts)?;
    let back = back_paths(alloc, &links, &before)?;
    let count = flow.sites.as_slice().len() as u32 + 1;
    let mut delays = BitRows::new(alloc, count, count)?;
    for site in 0..count {
        if blocks(flow, site) {
            add_delays(&before, &conflicts.own, &back, site, &mut delays);
        }
    }
    Ok(delays)
}

/// The conflicts whose order only the run decides.
fn links(alloc: Global, flow: &Flow, conflicts: &Conflicts) -> Result<BitRows, OutOfMemory>
    requires cross { AreSquare (length flow.now.sites + 1) conflicts.now.cross }
    requires own { AreSquare (length flow.now.sites + 1) conflicts.now.own }
    ensures { IfOk result (AreLinks flow.now conflicts.now.cross conflicts.now.own) }
{
    let mut rows = BitRows::new(alloc, conflicts.cross.rows(), conflicts.own.columns())?;
    for site in 0..rows.rows() {
        add_links(flow, conflicts, site, &mut rows);
    }
    Ok(rows)
}

/// Sets in the row of the site those to which a link leads from it.
fn add_links(flow: &Flow, conflicts: &Conflicts, site: u32, rows: &mut BitRows)
    requires cross { AreSquare (length flow.now.sites + 1) conflicts.now.cross }
    requires own { AreSquare (length flow.now.sites + 1) conflicts.now.own }
    requires site { site ≤ length flow.now.sites }
    requires rows { AreSquare (length flow.now.sites + 1) rows.old }
    ensures { IsWithLinks flow.now conflicts.now.cross conflicts.now.own site (length flow.now.sites + 1) rows.old rows.new }
{
    for other in 0..rows.columns() {
        if is_link(flow, conflicts, site, other) {
            rows.set(site, other);
        }
    }
}

/// Whether a link leads from the one site to the other.
fn is_link(flow: &Flow, conflicts: &Conflicts, site: u32, other: u32) -> bool
    requires cross { AreSquare (length flow.now.sites + 1) conflicts.now.cross }
    requires own { AreSquare (length flow.now.sites + 1) conflicts.now.own }
    requires site { site ≤ length flow.now.sites }
    requires other { other ≤ length flow.now.sites }
    ensures { IsTrue result ↔ Link flow.now conflicts.now.cross conflicts.now.own site other }
{
    conflicts.cross.get(site, other)
        || conflicts.own.get(site, other) && (is_explicit(flow, site) || is_explicit(flow, other))
}

/// Whether there is a site with this number, and its access is not over before the node's next step.
fn is_explicit(flow: &Flow, number: u32) -> bool
    requires { number ≤ length flow.now.sites }
    ensures { IsTrue result ↔ IsExplicit flow.now number }
{
    number != 0 && !flow.site(number).kind.is_blocking()
}

/// Whether there is a site with this number, and its access is over before the node's next step.
fn blocks(flow: &Flow, number: u32) -> bool
    requires { number ≤ length flow.now.sites }
    ensures { IsTrue result ↔ Blocks flow.now number }
{
    number != 0 && flow.site(number).kind.is_blocking()
}

/// Sets (b, a) exactly where a back-path leads from b to a: a link, then links and steps to what comes behind, then a link.
fn back_paths(alloc: Global, links: &BitRows, before: &BitRows) -> Result<BitRows, OutOfMemory>
    requires links { links.now.columns ≡ links.now.rows }
    requires before { AreSquare links.now.rows before.now }
    ensures back { IfOk result (AreBackPaths links.now before.now) }
    ensures in_order { AreInOrder links.now }
{
    let mut steps = BitRows::new(alloc, links.rows(), links.columns())?;
    unite(&mut steps, links);
    unite(&mut steps, before);
    close(&mut steps);
    let mut ends = composed(alloc, &steps, links)?;
    unite(&mut ends, links);
    composed(alloc, links, &ends)
}

/// Sets in the row of the blocking site those that it has to be over before.
fn add_delays(before: &BitRows, own: &BitRows, back: &BitRows, site: u32, delays: &mut BitRows)
    requires before { AreSquare delays.old.rows before.now }
    requires own { AreSquare delays.old.rows own.now }
    requires back { AreSquare delays.old.rows back.now }
    requires columns { delays.old.columns ≡ delays.old.rows }
    requires site { site < delays.old.rows }
    ensures { IsWithDelays before.now own.now back.now site delays.old.rows delays.old delays.new }
{
    for other in 0..delays.columns() {
        if is_delayed(before, own, back, site, other) {
            delays.set(site, other);
        }
    }
}

/// Whether the blocking site has to be over before the other begins.
fn is_delayed(before: &BitRows, own: &BitRows, back: &BitRows, site: u32, other: u32) -> bool
    requires before { AreSquare own.now.rows before.now }
    requires own { own.now.columns ≡ own.now.rows }
    requires back { AreSquare own.now.rows back.now }
    requires site { site < own.now.rows }
    requires other { other < own.now.rows }
    ensures { IsTrue result ↔ DelaysBy before.now own.now back.now site other }
{
    before.get(site, other) && (own.get(site, other) || back.get(other, site))
}
