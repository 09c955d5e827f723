//! What the books keep of one node.

ghost use Rattle.std.specs.Prelude.{◌≡◌, ◌+◌, ◌-◌, ◌<◌, ◌^◌, IfOk, true, length, slice_index};
ghost use Rattle.sync_book.specs.Book.{fresh_node, with_counter, is_arrived, waits_for_stores, released_node, stands, is_settled};

use crate::standing::Standing;
use std::alloc::{AllocError, Global};
use std::marker::Model;

/// What the books keep of one node: how many of its cells are outstanding on each counter, where it stands between
/// barriers, and whether it has finished.
#[derive(Debug, Drop)]
pub struct Row {
    counters: Vec<u64>,
    standing: Standing,
    finished: bool,
}

impl Model for Row {
    ghost use Rattle.sync_book.specs.Book.{NodeBook};

    ghost Value = { NodeBook };

    ghost view = { λ r. record { counters = r.counters.items; standing = r.standing; finished = r.finished } };
}

impl Row {
    /// A node before its first step, whose counters go from 0 to `sites`.
    pub fn new(alloc: Global, sites: u32) -> Result<Row, AllocError>
        ensures { IfOk result (λ row. row ≡ fresh_node sites) }
    {
        let counters = vec![in alloc; 0; sites as usize + 1]?;
        Ok(Row {
            counters,
            standing: Standing::Away,
            finished: false,
        })
    }

    /// How many cells are outstanding on the counter.
    pub fn outstanding(&self, counter: u32) -> u64
        requires { counter < length self.now.counters }
        ensures { result ≡ slice_index self.now.counters counter }
    {
        self.counters[counter as usize]
    }

    /// Counts so many cells more on the counter.
    pub fn add(&mut self, counter: u32, cells: u32)
        requires counter { counter < length self.old.counters }
        requires fits { slice_index self.old.counters counter + cells < 2 ^ 64 }
        ensures { self.new ≡ with_counter self.old counter (slice_index self.old.counters counter + cells) }
    {
        self.counters[counter as usize] += u64::from(cells);
    }

    /// Takes one cell off the counter.
    pub fn take_one(&mut self, counter: u32)
        requires counter { counter < length self.old.counters }
        requires outstanding { 0 < slice_index self.old.counters counter }
        ensures { self.new ≡ with_counter self.old counter (slice_index self.old.counters counter - 1) }
    {
        self.counters[counter as usize] -= 1;
    }

    /// Where the node stands.
    pub fn standing(&self) -> Standing
        ensures { result ≡ self.now.standing }
    {
        self.standing
    }

    /// The node stands there from now on.
    pub fn stand(&mut self, standing: Standing)
        ensures { self.new ≡ record self.old { standing = standing } }
    {
        self.standing = standing;
    }

    /// Releases the node, if it has arrived at the next release.
    pub fn release(&mut self)
        ensures { self.new ≡ released_node self.old }
    {
        if self.standing.is_arrived() {
            self.standing = Standing::Released;
        }
    }

    /// Whether the node has finished.
    pub fn finished(&self) -> bool
        ensures { result ≡ self.now.finished }
    {
        self.finished
    }

    /// The node has finished.
    pub fn finish(&mut self)
        ensures { self.new ≡ record self.old { finished = true } }
    {
        self.finished = true;
    }

    /// Whether the node has arrived at the next release.
    pub fn is_arrived(&self) -> bool
        ensures { result ≡ is_arrived self.now.standing }
    {
        self.standing.is_arrived()
    }

    /// Whether the node has arrived at the next release, and there waits for all stores.
    pub fn waits_for_stores(&self) -> bool
        ensures { result ≡ waits_for_stores self.now.standing }
    {
        self.standing.waits_for_stores()
    }

    /// Whether the node runs, and stands at the next release.
    pub fn stands(&self) -> bool
        ensures { result ≡ stands self.now }
    {
        self.standing.is_arrived() && !self.finished
    }

    /// Whether the node has arrived at the next release or has finished.
    pub fn is_settled(&self) -> bool
        ensures { result ≡ is_settled self.now }
    {
        self.standing.is_arrived() || self.finished
    }
}
