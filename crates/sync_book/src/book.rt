//! The books of a run.

ghost use Rattle.std.specs.Prelude.{◌≡◌, ◌<◌, ◌≤◌, ◌+◌, ◌-◌, ◌^◌, ◌↔◌, IfOk, IfSome};
ghost use Rattle.std.specs.Prelude.{IsTrue, length, true, false, replicate, count_by, not, map};
ghost use Rattle.std.specs.List.{list_any, list_all, position};
ghost use Rattle.sc_isa.specs.declared.access.Track.TheVariants.{Counter};
ghost use Rattle.sync_book.specs.declared.standing.Standing.TheVariants.{Away, Arrived, Released};
ghost use Rattle.sync_book.specs.Book.{empty_book, fresh_node, node_at, with_node, outstanding, outstanding_on, with_outstanding, all_outstanding, IsTrackOf};
ghost use Rattle.sync_book.specs.Book.{gap_of, CanRelease, after_release, broken_by, MayFinish, is_arrived, waits_for_stores, stands, is_settled, released_node};

use crate::gap::Gap;
use crate::row::Row;
use crate::standing::Standing;
use sc_base::OutOfMemory;
use sc_isa::Track;
use std::alloc::{AllocError, Global};
use std::marker::Model;

/// The books of a run, seen as counts: for each node its outstanding cells on each counter, where it stands between
/// barriers and whether it has finished; and the one-way cells in flight, explicit ones and those that the compiler
/// made. All calls but `new` take no memory.
#[derive(Debug, Drop)]
pub struct SyncBook {
    rows: Vec<Row>,
    sites: u32,
    stores: u64,
    covered: u64,
}

impl Model for SyncBook {
    ghost use Rattle.std.specs.Prelude.{◌<◌, ◌+◌, ◌^◌, All, vec_len};
    ghost use Rattle.sync_book.specs.Book.{Book};

    ghost Value = { Book };

    ghost use Rattle.sync_book.specs.Book.{HasCounters};

    ghost view = { λ b. record { nodes = b.rows.items; sites = b.sites; stores = b.stores; covered = b.covered } };

    ghost invariant = { λ b. (vec_len b.rows < 2 ^ 32) × All (HasCounters b.sites) b.rows.items
        × (b.stores + b.covered < 2 ^ 64) };
}

impl SyncBook {
    /// The books of a run of so many nodes, whose counters go from 0 to `sites`, before its first step.
    pub fn new(alloc: Global, nodes: u32, sites: u32) -> Result<SyncBook, OutOfMemory>
        ensures { IfOk result (λ book. book ≡ empty_book nodes sites) }
    {
        let Ok(rows) = fresh_rows(alloc, nodes, sites) else {
            return Err(OutOfMemory);
        };
        Ok(SyncBook {
            rows,
            sites,
            stores: 0,
            covered: 0,
        })
    }

    /// Counts `cells` cells more as outstanding on the track.
    pub fn issue(&mut self, node: u32, track: Track, cells: u32)
        requires node { node < length self.old.nodes }
        requires counter { IsTrackOf self.old track }
        requires fits { all_outstanding self.old + cells < 2 ^ 64 }
        ensures counted { self.new ≡ with_outstanding self.old node track (outstanding_on self.old node track + cells) }
        ensures total { all_outstanding self.new ≡ all_outstanding self.old + cells }
    {
        match track {
            Track::Counter(counter) => {
                let row = &mut self.rows[node as usize];
                row.add(counter, cells);
            }
            Track::Store => self.stores += u64::from(cells),
            Track::Covered => self.covered += u64::from(cells),
        }
    }

    /// Takes one cell off the track, on which one is outstanding.
    pub fn complete(&mut self, node: u32, track: Track)
        requires node { node < length self.old.nodes }
        requires counter { IsTrackOf self.old track }
        requires outstanding { 0 < outstanding_on self.old node track }
        ensures counted { self.new ≡ with_outstanding self.old node track (outstanding_on self.old node track - 1) }
        ensures total { all_outstanding self.new + 1 ≡ all_outstanding self.old }
    {
        match track {
            Track::Counter(counter) => {
                let row = &mut self.rows[node as usize];
                row.take_one(counter);
            }
            Track::Store => self.stores -= 1,
            Track::Covered => self.covered -= 1,
        }
    }

    /// How many of the node's cells on the counter are outstanding.
    pub fn outstanding(&self, node: u32, counter: u32) -> u64
        requires node { node < length self.now.nodes }
        requires counter { counter ≤ self.now.sites }
        ensures { result ≡ outstanding self.now node counter }
    {
        let row = &self.rows[node as usize];
        row.outstanding(counter)
    }

    /// The node arrives at the next release, and there waits for all stores where `stores` is true.
    pub fn arrive(&mut self, node: u32, stores: bool)
        requires node { node < length self.old.nodes }
        requires running { (node_at self.old node).finished ≡ false }
        requires away { (node_at self.old node).standing ≡ Away }
        ensures { self.new ≡ with_node self.old node (record (node_at self.old node) { standing = Arrived stores }) }
    {
        let row = &mut self.rows[node as usize];
        row.stand(Standing::Arrived { stores });
    }

    /// The node finishes: it stands at no barrier, or at one that is broken.
    pub fn finish(&mut self, node: u32)
        requires node { node < length self.old.nodes }
        requires may { MayFinish self.old node }
        ensures { self.new ≡ with_node self.old node (record (node_at self.old node) { finished = true }) }
    {
        let row = &mut self.rows[node as usize];
        row.finish();
    }

    /// What is missing for the next release.
    pub fn gap(&self) -> Gap
        ensures { result ≡ gap_of self.now }
    {
        let missing = self.missing();
        let flying = if self.waits_for_stores() {
            self.covered + self.stores
        } else {
            self.covered
        };
        Gap { missing, flying }
    }

    /// How many nodes have not arrived at the next release.
    fn missing(&self) -> u32
        ensures { result ≡ count_by (λ row. not (is_arrived row.standing)) self.now.nodes }
    {
        let missing = self.rows.iter().filter(|row| !row.is_arrived()).count();
        missing as u32
    }

    /// Whether some node has arrived at the next release, and there waits for all stores.
    fn waits_for_stores(&self) -> bool
        ensures { result ≡ list_any (λ row. waits_for_stores row.standing) self.now.nodes }
    {
        self.rows.iter().any(|row| row.waits_for_stores())
    }

    /// Whether every node has arrived at the next release, and nothing that it waits for is in flight.
    pub fn can_release(&self) -> bool
        ensures { IsTrue result ↔ CanRelease self.now }
    {
        let gap = self.gap();
        gap.missing == 0 && gap.flying == 0
    }

    /// Releases all arrivals.
    pub fn release(&mut self)
        requires { CanRelease self.old }
        ensures { self.new ≡ after_release self.old }
    {
        release_rows(self.rows.as_mut_slice());
    }

    /// Whether the node has an arrival that was released and that it has not left.
    pub fn released(&self, node: u32) -> bool
        requires { node < length self.now.nodes }
        ensures { IsTrue result ↔ ((node_at self.now node).standing ≡ Released) }
    {
        let row = &self.rows[node as usize];
        row.standing() == Standing::Released
    }

    /// The node leaves the barrier that was released for it.
    pub fn leave(&mut self, node: u32)
        requires node { node < length self.old.nodes }
        requires released { (node_at self.old node).standing ≡ Released }
        ensures { self.new ≡ with_node self.old node (record (node_at self.old node) { standing = Away }) }
    {
        let row = &mut self.rows[node as usize];
        row.stand(Standing::Away);
    }

    /// The least finished node, exactly where at least one node stands at the next release and every other has arrived
    /// or finished, one of them finished.
    pub fn broken(&self) -> Option<u32>
        ensures { result ≡ broken_by self.now }
    {
        if self.some_stands() && self.all_settled() {
            self.least_finished()
        } else {
            None
        }
    }

    /// Whether some node stands at the next release.
    fn some_stands(&self) -> bool
        ensures { result ≡ list_any stands self.now.nodes }
    {
        self.rows.iter().any(|row| row.stands())
    }

    /// Whether every node has arrived at the next release or has finished.
    fn all_settled(&self) -> bool
        ensures { result ≡ list_all is_settled self.now.nodes }
    {
        self.rows.iter().all(|row| row.is_settled())
    }

    /// The least finished node.
    fn least_finished(&self) -> Option<u32>
        ensures { result ≡ position (λ row. row.finished) self.now.nodes }
    {
        match self.first_finished() {
            Some(least) => Some(least as u32),
            None => None,
        }
    }

    /// The place of the first finished node.
    fn first_finished(&self) -> Option<usize>
        ensures place { result ≡ position (λ row. row.finished) self.now.nodes }
        ensures within { IfSome result (λ place. place < 2 ^ 32) }
    {
        self.rows.iter().position(|row| row.finished())
    }
}

/// What is kept of the nodes before their first step.
fn fresh_rows(alloc: Global, nodes: u32, sites: u32) -> Result<Vec<Row>, AllocError>
    ensures { IfOk result (λ rows. rows.items ≡ replicate nodes (fresh_node sites)) }
{
    let mut rows = Vec::with_capacity(alloc, nodes as usize)?;
    for _ in 0..nodes {
        let row = Row::new(alloc, sites)?;
        rows.push(row)?;
    }
    Ok(rows)
}

/// Releases each node that has arrived at the next release.
fn release_rows(rows: &mut [Row])
    ensures { rows.new ≡ map released_node rows.old }
{
    for row in rows.iter_mut() {
        row.release();
    }
}
