//! What the tables keep of all nodes.

ghost use Rattle.std.specs.Prelude.{◌≡◌, ◌+◌, ◌<◌, Some, OnOk, IfOk, length, replicate, slice_get, false, true, map, ◌||◌, ◌==◌};
ghost use Rattle.std.specs.List.{list_all, list_any};
ghost use Rattle.replay_books.specs.Row.{landing, fresh_row};
ghost use Rattle.replay_books.specs.Tables.{fresh_tables, row_at, goes_on_at, made_at, with_made, with_occurred, with_sync, with_arrival, with_release, with_end, may_occur_in_tables, may_release_in, stands_at, is_complete_in, split_over, is_ready, left_behind, is_finished, ended_well, end_or_cut};

use crate::row::{Row, one_more};
use sc_base::{CopyMode, End, OutOfMemory, Place, Value};
use sc_meaning::Request;
use std::alloc::{AllocError, Global};
use std::marker::Model;

/// What is kept of all nodes: a row for each, how many releases there were, and whether a node that stands at a
/// barrier waits for stores there. After an `Err` of a call it is not to be used.
#[derive(Debug, Drop)]
pub struct Tables {
    rows: Vec<Row>,
    releases: u64,
    stores: bool,
}

impl Model for Tables {
    ghost use Rattle.replay_books.specs.Tables.{TablesBook};

    ghost Value = { TablesBook };

    ghost view = { λ t. record { rows = t.rows.items; releases = t.releases; stores = t.stores } };
}

impl Tables {
    /// So many nodes before their first step.
    pub fn new(alloc: Global, nodes: u32) -> Result<Tables, OutOfMemory>
        ensures { IfOk result (λ t. t ≡ fresh_tables nodes) }
    {
        let Ok(rows) = fresh_rows(alloc, nodes) else {
            return Err(OutOfMemory);
        };
        Ok(Tables {
            rows,
            releases: 0,
            stores: false,
        })
    }

    /// Whether there is such a node, and it can do its next own event.
    pub fn goes_on(&self, node: u32) -> bool
        ensures answer { result ≡ goes_on_at self.now node }
        ensures within { result ≡ true → node < length self.now.rows }
    {
        match self.rows.get(node as usize) {
            Some(row) => row.goes_on(self.releases),
            None => false,
        }
    }

    /// How many requests the node has made.
    pub fn made(&self, node: u32) -> u64
        requires { node < length self.now.rows }
        ensures { result ≡ made_at self.now node }
    {
        let row = &self.rows[node as usize];
        row.made()
    }

    /// The node makes the request, which is its next.
    pub fn make(&mut self, alloc: Global, node: u32, request: Request) -> Result<(), OutOfMemory>
        requires { node < length self.old.rows }
        ensures { OnOk result (self.new ≡ with_made self.old node request) }
    {
        let row = &mut self.rows[node as usize];
        row.make(alloc, request)
    }

    /// Whether there is such a node, and the part of its request with this number may occur at the place with the
    /// value, where the place holds `shown`.
    pub fn may_occur(
        &self,
        node: u32,
        number: u64,
        cell: u32,
        wrote: bool,
        place: Place,
        value: Value,
        shown: Value,
    ) -> bool
        ensures answer { result ≡ may_occur_in_tables self.now node number cell wrote place value shown }
        ensures within { result ≡ true → node < length self.now.rows }
    {
        match self.rows.get(node as usize) {
            Some(row) => row.may_occur(number, cell, wrote, place, value, shown),
            None => false,
        }
    }

    /// The part of the node's request with this number occurs.
    pub fn occur(&mut self, node: u32, number: u64, cell: u32, wrote: bool, value: Value)
        requires { node < length self.old.rows }
        ensures { self.new ≡ with_occurred self.old node number cell wrote value }
    {
        let row = &mut self.rows[node as usize];
        row.occur(number, cell, wrote, value);
    }

    /// Whether all parts of the node's gets, puts and split copies have occurred.
    pub fn split_over(&self, node: u32) -> bool
        requires { node < length self.now.rows }
        ensures { result ≡ split_over self.now node }
    {
        let row = &self.rows[node as usize];
        row.all_over(CopyMode::Split)
    }

    /// The values that the node's gets since its last sync read, in order of issue.
    pub fn landing(&self, alloc: Global, node: u32) -> Result<Vec<Value>, OutOfMemory>
        requires { node < length self.now.rows }
        ensures { IfOk result (λ values. values.items ≡ landing (row_at self.now node)) }
    {
        let row = &self.rows[node as usize];
        let Ok(values) = row.landing(alloc) else {
            return Err(OutOfMemory);
        };
        Ok(values)
    }

    /// The node syncs, by this request.
    pub fn sync(&mut self, alloc: Global, node: u32, request: Request) -> Result<(), OutOfMemory>
        requires { node < length self.old.rows }
        ensures { OnOk result (self.new ≡ with_sync self.old node request) }
    {
        let row = &mut self.rows[node as usize];
        row.make(alloc, request)?;
        row.land();
        Ok(())
    }

    /// The node arrives at its next barrier by this request, and there waits for stores or not.
    pub fn arrive(
        &mut self,
        alloc: Global,
        node: u32,
        request: Request,
        stores: bool,
    ) -> Result<(), OutOfMemory>
        requires { node < length self.old.rows }
        ensures { OnOk result (self.new ≡ with_arrival self.old node request stores) }
    {
        let row = &mut self.rows[node as usize];
        row.make(alloc, request)?;
        row.arrive()?;
        self.stores = self.stores || stores;
        Ok(())
    }

    /// Whether the release with this number is the next, each node has arrived at it and not ended, and the parts that
    /// it waits for have occurred.
    pub fn may_release(&self, number: u64) -> bool
        ensures { result ≡ may_release_in self.now number }
    {
        self.is_next_release(number) && all_ready(self.rows.as_slice(), number, self.stores)
    }

    /// Whether the release with this number is the next.
    fn is_next_release(&self, number: u64) -> bool
        ensures { result ≡ (number == self.now.releases + 1) }
    {
        number != 0 && number - 1 == self.releases
    }

    /// All nodes that stand at a barrier are released.
    pub fn release(&mut self) -> Result<(), OutOfMemory>
        ensures { OnOk result (self.new ≡ with_release self.old) }
    {
        self.releases = one_more(self.releases)?;
        self.stores = false;
        Ok(())
    }

    /// Whether there is such a node, which has not ended and stands at a barrier that was not released.
    pub fn stands(&self, node: u32) -> bool
        ensures answer { result ≡ stands_at self.now node }
        ensures within { result ≡ true → node < length self.now.rows }
    {
        match self.rows.get(node as usize) {
            Some(row) => row.ended().is_none() && self.is_next_release(row.arrived()),
            None => false,
        }
    }

    /// The node ends so.
    pub fn end(&mut self, node: u32, end: End)
        requires { node < length self.old.rows }
        ensures { self.new ≡ with_end self.old node end }
    {
        let row = &mut self.rows[node as usize];
        row.end(end);
    }

    /// Whether each node has ended and all parts of its transfers have occurred, and a node has ended as waiting only
    /// where some node has ended otherwise and arrived less often.
    pub fn is_complete(&self) -> bool
        ensures { result ≡ is_complete_in self.now }
    {
        let forsaken = any_left_behind(self.rows.as_slice(), self.releases);
        all_finished(self.rows.as_slice(), self.releases, forsaken)
    }

    /// How each node ended, where each has.
    pub fn ends(&self, alloc: Global) -> Result<Vec<End>, AllocError>
        ensures { IfOk result (λ ends. ends.items ≡ map (λ row. end_or_cut row.ended) self.now.rows) }
    {
        let mut ends = Vec::new(alloc);
        for row in self.rows.as_slice() {
            ends.push(row.ended().unwrap_or(End::Cut))?;
        }
        Ok(ends)
    }
}

/// The rows of so many nodes before their first step.
fn fresh_rows(alloc: Global, nodes: u32) -> Result<Vec<Row>, AllocError>
    ensures { IfOk result (λ rows. rows.items ≡ replicate nodes fresh_row) }
{
    let mut rows = Vec::with_capacity(alloc, nodes as usize)?;
    for _ in 0..nodes {
        rows.push(Row::new(alloc))?;
    }
    Ok(rows)
}

/// Whether the node is ready for the release with this number, which waits for stores or not.
fn is_ready(row: &Row, number: u64, stores: bool) -> bool
    ensures { result ≡ is_ready number stores row.now }
{
    number <= row.arrived() && row.ended().is_none() && (!stores || row.all_over(CopyMode::OneWay))
}

/// Whether the node has ended otherwise than as waiting, and has not arrived at the next barrier.
fn left_behind(row: &Row, releases: u64) -> bool
    ensures { result ≡ left_behind releases row.now }
{
    match row.ended() {
        None | Some(End::Waiting) => false,
        Some(_) => row.arrived() <= releases,
    }
}

/// Whether the node has ended and its transfers are over; as waiting only if it is forsaken.
fn is_finished(row: &Row, releases: u64, forsaken: bool) -> bool
    ensures { result ≡ is_finished releases forsaken row.now }
{
    row.all_over(CopyMode::Blocking)
        && row.all_over(CopyMode::Split)
        && row.all_over(CopyMode::OneWay)
        && ended_well(row, releases, forsaken)
}

/// Whether the node has ended; as waiting only at the next barrier, and if it is forsaken.
fn ended_well(row: &Row, releases: u64, forsaken: bool) -> bool
    ensures { result ≡ ended_well releases forsaken row.now }
{
    match row.ended() {
        None => false,
        Some(End::Waiting) => forsaken && row.arrived() > releases,
        Some(_) => true,
    }
}

/// Whether each node is ready for the release with this number, which waits for stores or not.
fn all_ready(rows: &[Row], number: u64, stores: bool) -> bool
    ensures { result ≡ list_all (is_ready number stores) rows.now }
{
    rows.iter().all(|row| is_ready(row, number, stores))
}

/// Whether some node is left behind.
fn any_left_behind(rows: &[Row], releases: u64) -> bool
    ensures { result ≡ list_any (left_behind releases) rows.now }
{
    rows.iter().any(|row| left_behind(row, releases))
}

/// Whether each node is finished.
fn all_finished(rows: &[Row], releases: u64, forsaken: bool) -> bool
    ensures { result ≡ list_all (is_finished releases forsaken) rows.now }
{
    rows.iter().all(|row| is_finished(row, releases, forsaken))
}
