//! A request that a node has made.

ghost use Rattle.std.specs.Prelude.{◌≡◌, IfOk, Some, slice_set};
ghost use Rattle.sc_meaning.specs.Test.{holds_value};
ghost use Rattle.replay_books.specs.Entry.{fresh_entry, part_of, occurred, may_occur_in, written_in};

use crate::requests::{given_value, is_issued, is_part_place, parts_of, same_value};
use sc_base::{Place, Value};
use sc_meaning::Request;
use std::alloc::{AllocError, Global};
use std::marker::Model;

/// A request that a node has made, and of each of its parts the value, if it has occurred.
#[derive(Debug, Drop)]
pub struct Entry {
    request: Request,
    reads: Vec<Option<Value>>,
    writes: Vec<Option<Value>>,
    left: u64,
}

impl Model for Entry {
    ghost use Rattle.replay_books.specs.Entry.{EntryBook};

    ghost Value = { EntryBook };

    ghost view = { λ e. record { request = e.request; reads = e.reads.items; writes = e.writes.items; left = e.left } };
}

impl Entry {
    /// The request, of which no part has occurred.
    pub fn new(alloc: Global, request: Request) -> Result<Entry, AllocError>
        ensures { IfOk result (λ e. e ≡ fresh_entry request) }
    {
        let to_read = parts_of(request, false);
        let to_write = parts_of(request, true);
        let reads = vec![in alloc; None; to_read as usize]?;
        let writes = vec![in alloc; None; to_write as usize]?;
        Ok(Entry {
            request,
            reads,
            writes,
            left: u64::from(to_read) + u64::from(to_write),
        })
    }

    /// The request.
    pub fn request(&self) -> Request
        ensures { result ≡ self.now.request }
    {
        self.request
    }

    /// How many of its parts have not occurred.
    pub fn left(&self) -> u64
        ensures { result ≡ self.now.left }
    {
        self.left
    }

    /// The value of the part, if it has occurred.
    pub fn part(&self, cell: u32, wrote: bool) -> Option<Value>
        ensures { result ≡ part_of self.now cell wrote }
    {
        let side = if wrote {
            self.writes.as_slice()
        } else {
            self.reads.as_slice()
        };
        match side.get(cell as usize) {
            Some(part) => *part,
            None => None,
        }
    }

    /// Whether the writing part for this cell writes the value.
    fn writes_value(&self, cell: u32, value: Value) -> bool
        ensures { result ≡ holds_value value (written_in self.now cell) }
    {
        let known = match given_value(self.request) {
            Some(given) => Some(given),
            None => self.part(cell, false),
        };
        match known {
            Some(other) => same_value(value, other),
            None => false,
        }
    }

    /// Whether the part may occur at the place with the value, where the place holds `shown`.
    pub fn may_occur(
        &self,
        cell: u32,
        wrote: bool,
        place: Place,
        value: Value,
        shown: Value,
    ) -> bool
        ensures { result ≡ may_occur_in self.now cell wrote place value shown }
    {
        if !is_issued(self.request) || !is_part_place(self.request, cell, wrote, place) {
            return false;
        }
        if self.part(cell, wrote).is_some() {
            return false;
        }
        if wrote {
            self.writes_value(cell, value)
        } else {
            same_value(value, shown)
        }
    }

    /// The part occurs with the value.
    pub fn occur(&mut self, cell: u32, wrote: bool, value: Value)
        ensures { self.new ≡ occurred self.old cell wrote value }
    {
        if wrote {
            set_part(&mut self.writes, cell, value);
        } else {
            set_part(&mut self.reads, cell, value);
        }
        self.left = self.left.saturating_sub(1);
    }
}

/// Sets the value of the part for this cell, if there is one.
#[tactic(auto, using(crate::proofs::Start::set_past))]
fn set_part(parts: &mut Vec<Option<Value>>, cell: u32, value: Value)
    ensures { parts.new.items ≡ slice_set parts.old.items cell (Some value) }
{
    if (cell as usize) < parts.len() {
        parts[cell as usize] = Some(value);
    }
}
