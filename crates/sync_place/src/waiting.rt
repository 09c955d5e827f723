//! Lists of waits, and the writes that go one-way.

ghost use Rattle.std.specs.Prelude.{◌≡◌, ◌<◌, ◌+◌, ◌^◌, ◌↔◌, ℕ, length, IfOk, IsTrue, true, false, Contains, slice_index_or};
ghost use Rattle.site_graph.specs.Bits.{IsSet};
ghost use Rattle.sync_place.specs.Waiting.{AreMarks, IsWaitRow, AreWaitRows, AreMarked, GoesByFirst, IsWriteSite, OnlyBarriers};

use crate::demanding::is_barrier;
use sc_base::OutOfMemory;
use site_graph::{BitRows, Flow, SiteKind, SiteList, WaitRows};
use sqlite_items::Items;
use std::alloc::Global;

/// For each number of a site whether the site goes one-way, where `first` are the first demands.
pub fn one_way_marks(alloc: Global, flow: &Flow, first: &BitRows) -> Result<Vec<bool>, OutOfMemory>
    requires rows { first.now.rows ≡ length flow.now.sites + 1 }
    requires columns { first.now.columns ≡ length flow.now.points }
    ensures { IfOk result (λ v. AreMarks flow.now first.now (length flow.now.sites + 1) v.items) }
{
    let mut marks = Vec::new(alloc);
    for number in 0..first.rows() {
        let Ok(()) = marks.push(goes_one_way(flow, first, number)) else {
            return Err(OutOfMemory);
        };
    }
    Ok(marks)
}

/// Whether the site is a write whose first demands are all barriers.
fn goes_one_way(flow: &Flow, first: &BitRows, number: u32) -> bool
    requires rows { number < first.now.rows }
    requires columns { first.now.columns ≡ length flow.now.points }
    ensures { IsTrue result ↔ GoesByFirst flow.now first.now number }
{
    is_write(flow, number) && only_barriers(flow, first, number)
}

/// Whether there is a site with this number, and it writes.
fn is_write(flow: &Flow, number: u32) -> bool
    ensures { IsTrue result ↔ IsWriteSite flow.now number }
{
    if number == 0 {
        return false;
    }
    match flow.sites.get(number as usize - 1) {
        Some(site) => site.kind == SiteKind::Write,
        None => false,
    }
}

/// Whether all points that are set in the row are barriers.
fn only_barriers(flow: &Flow, first: &BitRows, number: u32) -> bool
    requires rows { number < first.now.rows }
    requires columns { first.now.columns ≡ length flow.now.points }
    ensures { IsTrue result ↔ OnlyBarriers flow.now first.now number (length flow.now.points) }
{
    for (at, point) in flow.points.as_slice().iter().enumerate() {
        if !is_barrier(point.kind) && first.get(number, at as u32) {
            return false;
        }
    }
    true
}

/// For each point the sites of which it is a first demand, but those that are marked.
pub fn waits(
    alloc: Global,
    flow: &Flow,
    first: &BitRows,
    marks: &[bool],
) -> Result<WaitRows, OutOfMemory>
    requires marks { length marks.now ≡ first.now.rows }
    requires columns { first.now.columns ≡ length flow.now.points }
    ensures { IfOk result (AreWaitRows first.now marks.now (length flow.now.points)) }
{
    let mut rows = Items::new(alloc);
    for at in 0..first.columns() {
        let row = waits_at(alloc, first, marks, at)?;
        let Ok(()) = rows.push(row) else {
            return Err(OutOfMemory);
        };
    }
    Ok(rows)
}

/// The sites of which the point is a first demand, but those that are marked, in rising order.
fn waits_at(
    alloc: Global,
    first: &BitRows,
    marks: &[bool],
    at: u32,
) -> Result<SiteList, OutOfMemory>
    requires marks { length marks.now ≡ first.now.rows }
    requires at { at < first.now.columns }
    ensures { IfOk result (IsWaitRow first.now marks.now at first.now.rows) }
{
    let mut row = Items::new(alloc);
    for number in 0..first.rows() {
        if first.get(number, at) && !marks[number as usize] {
            let Ok(()) = row.push(number) else {
                return Err(OutOfMemory);
            };
        }
    }
    Ok(row)
}

/// The numbers that are marked, in rising order.
pub fn marked(alloc: Global, marks: &[bool]) -> Result<SiteList, OutOfMemory>
    requires { length marks.now < 2 ^ 32 }
    ensures { IfOk result (AreMarked marks.now (length marks.now)) }
{
    let mut all = Items::new(alloc);
    for (number, mark) in marks.iter().enumerate() {
        if *mark {
            let Ok(()) = all.push(number as u32) else {
                return Err(OutOfMemory);
            };
        }
    }
    Ok(all)
}
