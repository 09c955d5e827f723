//! Which sites conflict.

ghost use Rattle.std.specs.Prelude.{◌≡◌, ◌<◌, ◌+◌, ◌↔◌, length, IsTrue, IfOk};
ghost use Rattle.sc_layout.specs.Layout.{IsLayout};
ghost use Rattle.site_graph.specs.Kept.{Names, NamesSite};
ghost use Rattle.site_graph.specs.Bits.{IsSet};
ghost use Rattle.alias_conflicts.specs.Conflicting.{AreConflicts};
ghost use Rattle.alias_conflicts.specs.Pairs.{IsMarked, ShareAcross, ShareOwn, AreRowsUpTo};

use crate::crossing::{forms_across, forms_own};
use sc_base::OutOfMemory;
use sc_layout::Layout;
use site_graph::{BitRows, Conflicts, Flow, Phases, Site};
use std::alloc::Global;

/// The pairs (a, b) of sites, which are numbered from 1, that may reach one cell, at least one of them by writing it:
/// `own` has those that may do so from one node, and `cross` those that may do so from two nodes that may stand at them
/// between the same two releases, as the phases say. The first row and column are of no site.
pub fn conflicts(
    alloc: Global,
    flow: &Flow,
    phases: &Phases,
    layout: &Layout,
) -> Result<Conflicts, OutOfMemory>
    requires names { Names (length layout.now.objects) flow.now }
    requires rows { phases.now.meets.rows ≡ length flow.now.sites + 1 }
    requires columns { phases.now.meets.columns ≡ length flow.now.sites + 1 }
    ensures { IfOk result (λ c. AreConflicts layout.now flow.now phases.now.meets c.cross c.own) }
{
    // Read for the proof alone, which learns that the layout is lawful.
    let _objects = layout.count();
    let sites = flow.sites.as_slice();
    let size = sites.len() as u32 + 1;
    let mut cross = BitRows::new(alloc, size, size)?;
    let mut own = BitRows::new(alloc, size, size)?;
    for (before, site) in sites.iter().enumerate() {
        let number = before as u32 + 1;
        conflicts_of(
            flow,
            &phases.meets,
            layout,
            number,
            site,
            &mut cross,
            &mut own,
        );
    }
    Ok(Conflicts { cross, own })
}

/// Sets the conflicts of one site.
fn conflicts_of(
    flow: &Flow,
    meets: &BitRows,
    layout: &Layout,
    number: u32,
    site: &Site,
    cross: &mut BitRows,
    own: &mut BitRows,
)
    requires lawful { IsLayout layout.now }
    requires names { Names (length layout.now.objects) flow.now }
    requires site { NamesSite (length layout.now.objects) site.now }
    requires row { number < length flow.now.sites + 1 }
    requires meets_rows { meets.now.rows ≡ length flow.now.sites + 1 }
    requires meets_columns { meets.now.columns ≡ length flow.now.sites + 1 }
    requires cross_rows { cross.old.rows ≡ length flow.now.sites + 1 }
    requires cross_columns { cross.old.columns ≡ length flow.now.sites + 1 }
    requires own_rows { own.old.rows ≡ length flow.now.sites + 1 }
    requires own_columns { own.old.columns ≡ length flow.now.sites + 1 }
    ensures { AreRowsUpTo layout.now flow.now meets.now number site.now (length flow.now.sites) cross.old own.old cross.new own.new }
{
    for (before, other) in flow.sites.as_slice().iter().enumerate() {
        let column = before as u32 + 1;
        let from_two = conflict_across(flow, meets, layout, number, site, column, other);
        mark(cross, number, column, from_two);
        let from_one = share_own(flow, layout, site, other);
        mark(own, number, column, from_one);
    }
}

/// Sets the pair if that holds.
fn mark(rows: &mut BitRows, row: u32, column: u32, holds: bool)
    requires row { row < rows.old.rows }
    requires column { column < rows.old.columns }
    ensures { IsMarked row column holds rows.old rows.new }
{
    if holds {
        rows.set(row, column);
    }
}

/// Whether two nodes may stand at the sites with these numbers, and the sites conflict from two nodes.
fn conflict_across(
    flow: &Flow,
    meets: &BitRows,
    layout: &Layout,
    number: u32,
    site: &Site,
    column: u32,
    other: &Site,
) -> bool
    requires lawful { IsLayout layout.now }
    requires names { Names (length layout.now.objects) flow.now }
    requires site { NamesSite (length layout.now.objects) site.now }
    requires other { NamesSite (length layout.now.objects) other.now }
    requires row { number < meets.now.rows }
    requires column { column < meets.now.columns }
    ensures { IsTrue result ↔ (ShareAcross layout.now flow.now site.now other.now × IsSet meets.now number column) }
{
    meets.get(number, column) && share_across(flow, layout, site, other)
}

/// Whether the sites conflict from two nodes.
fn share_across(flow: &Flow, layout: &Layout, a: &Site, b: &Site) -> bool
    requires lawful { IsLayout layout.now }
    requires names { Names (length layout.now.objects) flow.now }
    requires a { NamesSite (length layout.now.objects) a.now }
    requires b { NamesSite (length layout.now.objects) b.now }
    ensures { IsTrue result ↔ ShareAcross layout.now flow.now a.now b.now }
{
    forms_across(flow, layout, a.writes, b.writes)
        || forms_across(flow, layout, a.writes, b.reads)
        || forms_across(flow, layout, a.reads, b.writes)
}

/// Whether the sites conflict from one node.
fn share_own(flow: &Flow, layout: &Layout, a: &Site, b: &Site) -> bool
    requires lawful { IsLayout layout.now }
    requires names { Names (length layout.now.objects) flow.now }
    requires a { NamesSite (length layout.now.objects) a.now }
    requires b { NamesSite (length layout.now.objects) b.now }
    ensures { IsTrue result ↔ ShareOwn layout.now flow.now a.now b.now }
{
    forms_own(flow, layout, a.writes, b.writes)
        || forms_own(flow, layout, a.writes, b.reads)
        || forms_own(flow, layout, a.reads, b.writes)
}
