//! What the tables keep of one node.

ghost use Rattle.std.specs.Prelude.{◌≡◌, ◌+◌, ◌<◌, [], None, Some, OnOk, IfOk, length, map, slice_get, IsSome, ◌-◌, ◌&&◌};
ghost use Rattle.sc_base.specs.declared.value.CopyMode.TheVariants.{Blocking, Split, OneWay};
ghost use Rattle.replay_books.specs.Row.{fresh_row, with_request, with_part, goes_on, one_if, is_of, all_over, landing, may_occur_at, gets_with, value_got};

use crate::entry::Entry;
use crate::requests::{is_get, is_of};
use sc_base::{CopyMode, End, OutOfMemory, Place, Value};
use sc_meaning::Request;
use std::alloc::{AllocError, Global};
use std::marker::Model;

/// What the tables keep of one node: its requests by number, at how many barriers it has arrived, how it ended, which
/// of its requests since its last sync are gets, and how many of its transfers, by the way in which they are waited
/// for, have parts that have not occurred. After an `Err` of a call it is not to be used.
#[derive(Debug, Drop)]
pub struct Row {
    entries: Vec<Entry>,
    arrived: u64,
    ended: Option<End>,
    gets: Vec<u64>,
    blocking: u64,
    split: u64,
    one_way: u64,
}

impl Model for Row {
    ghost use Rattle.replay_books.specs.Row.{RowBook};

    ghost Value = { RowBook };

    ghost view = { λ r. record {
      entries = r.entries.items;
      arrived = r.arrived;
      ended = r.ended;
      gets = r.gets.items;
      blocking = r.blocking;
      split = r.split;
      one_way = r.one_way;
    } };
}

impl Row {
    /// A node before its first step.
    pub fn new(alloc: Global) -> Row
        ensures { result ≡ fresh_row }
    {
        Row {
            entries: Vec::new(alloc),
            arrived: 0,
            ended: None,
            gets: Vec::new(alloc),
            blocking: 0,
            split: 0,
            one_way: 0,
        }
    }

    /// How many requests the node has made.
    pub fn made(&self) -> u64
        ensures { result ≡ length self.now.entries }
    {
        self.entries.len() as u64
    }

    /// At how many barriers the node has arrived.
    pub fn arrived(&self) -> u64
        ensures { result ≡ self.now.arrived }
    {
        self.arrived
    }

    /// How the node ended.
    pub fn ended(&self) -> Option<End>
        ensures { result ≡ self.now.ended }
    {
        self.ended
    }

    /// Whether the node can do its next own event, where there were so many releases.
    pub fn goes_on(&self, releases: u64) -> bool
        ensures { result ≡ goes_on releases self.now }
    {
        self.ended.is_none() && self.blocking == 0 && self.arrived <= releases
    }

    /// Whether all transfers that are waited for in this way are over.
    pub fn all_over(&self, mode: CopyMode) -> bool
        ensures { result ≡ all_over mode self.now }
    {
        match mode {
            CopyMode::Blocking => self.blocking == 0,
            CopyMode::Split => self.split == 0,
            CopyMode::OneWay => self.one_way == 0,
        }
    }

    /// Notes the request among the gets, if it is one.
    fn note_get(&mut self, request: Request) -> Result<(), AllocError>
        ensures { OnOk result (self.new ≡ record self.old { gets = gets_with self.old request }) }
    {
        if is_get(request) {
            self.gets.push(self.entries.len() as u64)?;
        }
        Ok(())
    }

    /// The node makes the request, which is its next.
    pub fn make(&mut self, alloc: Global, request: Request) -> Result<(), OutOfMemory>
        ensures { OnOk result (self.new ≡ with_request self.old request) }
    {
        let Ok(entry) = Entry::new(alloc, request) else {
            return Err(OutOfMemory);
        };
        let is_open = entry.left() != 0;
        let Ok(()) = self.note_get(request) else {
            return Err(OutOfMemory);
        };
        let Ok(()) = self.entries.push(entry) else {
            return Err(OutOfMemory);
        };
        self.count(request, is_open)
    }

    /// Counts the request among those that have parts which have not occurred, if it is one.
    fn count(&mut self, request: Request, is_open: bool) -> Result<(), OutOfMemory>
        ensures { OnOk result (self.new ≡ record self.old {
          blocking = self.old.blocking + one_if (is_of Blocking request && is_open);
          split = self.old.split + one_if (is_of Split request && is_open);
          one_way = self.old.one_way + one_if (is_of OneWay request && is_open);
        }) }
    {
        self.blocking = more_if(self.blocking, is_of(CopyMode::Blocking, request) && is_open)?;
        self.split = more_if(self.split, is_of(CopyMode::Split, request) && is_open)?;
        self.one_way = more_if(self.one_way, is_of(CopyMode::OneWay, request) && is_open)?;
        Ok(())
    }

    /// Counts the request no longer, if no part of it is left.
    fn discount(&mut self, request: Request, is_over: bool)
        ensures { self.new ≡ record self.old {
          blocking = self.old.blocking - one_if (is_of Blocking request && is_over);
          split = self.old.split - one_if (is_of Split request && is_over);
          one_way = self.old.one_way - one_if (is_of OneWay request && is_over);
        } }
    {
        self.blocking = less_if(self.blocking, is_of(CopyMode::Blocking, request) && is_over);
        self.split = less_if(self.split, is_of(CopyMode::Split, request) && is_over);
        self.one_way = less_if(self.one_way, is_of(CopyMode::OneWay, request) && is_over);
    }

    /// Whether the part of the request with this number may occur at the place with the value, where the place holds
    /// `shown`.
    pub fn may_occur(
        &self,
        number: u64,
        cell: u32,
        wrote: bool,
        place: Place,
        value: Value,
        shown: Value,
    ) -> bool
        ensures { result ≡ may_occur_at self.now number cell wrote place value shown }
    {
        match self.entries.get(number as usize) {
            Some(entry) => entry.may_occur(cell, wrote, place, value, shown),
            None => false,
        }
    }

    /// The part of the request with this number occurs, if there is such a request.
    pub fn occur(&mut self, number: u64, cell: u32, wrote: bool, value: Value)
        ensures { self.new ≡ with_part self.old number cell wrote value }
    {
        if number as usize >= self.entries.len() {
            return;
        }
        let entry = &mut self.entries[number as usize];
        entry.occur(cell, wrote, value);
        let is_over = entry.left() == 0;
        let request = entry.request();
        self.discount(request, is_over);
    }

    /// The values that the gets since the last sync read, in order of issue. A get that has not read counts as 0.
    pub fn landing(&self, alloc: Global) -> Result<Vec<Value>, AllocError>
        ensures { IfOk result (λ values. values.items ≡ landing self.now) }
    {
        let mut values = Vec::new(alloc);
        for number in self.gets.as_slice() {
            values.push(self.value_of(*number))?;
        }
        Ok(values)
    }

    /// The value that the get with this number read, or 0.
    fn value_of(&self, number: u64) -> Value
        ensures { result ≡ value_got self.now number }
    {
        match self.entries.get(number as usize) {
            Some(entry) => entry.part(0, false).unwrap_or(Value::Int(0)),
            None => Value::Int(0),
        }
    }

    /// The gets so far have landed.
    pub fn land(&mut self)
        ensures { self.new ≡ record self.old { gets = [] } }
    {
        self.gets.clear();
    }

    /// The node arrives at its next barrier.
    pub fn arrive(&mut self) -> Result<(), OutOfMemory>
        ensures { OnOk result (self.new ≡ record self.old { arrived = self.old.arrived + 1 }) }
    {
        self.arrived = one_more(self.arrived)?;
        Ok(())
    }

    /// The node ends so.
    pub fn end(&mut self, end: End)
        ensures { self.new ≡ record self.old { ended = Some end } }
    {
        self.ended = Some(end);
    }
}

/// One more, or want of memory where 64 bits do not count it.
pub fn one_more(count: u64) -> Result<u64, OutOfMemory>
    ensures { IfOk result (λ more. more ≡ count + 1) }
{
    match count.checked_add(1) {
        Some(more) => Ok(more),
        None => Err(OutOfMemory),
    }
}

/// One more if it is so, or want of memory where 64 bits do not count it.
fn more_if(count: u64, so: bool) -> Result<u64, OutOfMemory>
    ensures { IfOk result (λ more. more ≡ count + one_if so) }
{
    if so { one_more(count) } else { Ok(count) }
}

/// One less if it is so.
fn less_if(count: u64, so: bool) -> u64
    ensures { result ≡ count - one_if so }
{
    if so { count.saturating_sub(1) } else { count }
}
