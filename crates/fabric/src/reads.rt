//! The reads that waits will answer.

ghost use Rattle.std.specs.Prelude.{◌≡◌, ◌<◌, ◌≤◌, ◌+◌, [], ◌∷◌, ◌++◌, length, map, OnOk, OnErr};
ghost use Rattle.fabric.specs.Reads.{is_on, reads_on, reads_off, values_in, filled};

use sc_base::{OutOfMemory, Value};
use sc_isa::Landed;
use std::alloc::Global;
use std::marker::Model;

/// A read that the next wait of its node on its counter answers; its value is 0 until it is known.
#[derive(Clone, Copy, Debug, PartialEq, Eq)]
pub struct Awaited {
    pub node: u32,
    pub counter: u32,
    pub number: u64,
    pub value: Value,
}

/// The reads that waits will answer, in order of issue, with room for more.
#[derive(Debug, Drop)]
pub struct Reads {
    reads: Vec<Awaited>,
}

impl Model for Reads {
    ghost use Rattle.std.specs.Prelude.{◌-◌, vec_len, vec_capacity};
    ghost use Rattle.fabric.specs.Reads.{Waiting};

    ghost Value = { Waiting };

    ghost view = { λ r. record { reads = r.reads.items; spare = vec_capacity r.reads - vec_len r.reads } };
}

impl Reads {
    /// No reads.
    pub fn new(alloc: Global) -> Reads
        ensures { result.reads ≡ [] }
    {
        Reads {
            reads: Vec::new(alloc),
        }
    }

    /// Makes room for at least so many more.
    pub fn reserve(&mut self, count: u32) -> Result<(), OutOfMemory>
        ensures reads { self.new.reads ≡ self.old.reads }
        ensures spare { self.old.spare ≤ self.new.spare }
        ensures enough { OnOk result (count ≤ self.new.spare) }
    {
        self.reads.reserve(count as usize).map_err(|_| OutOfMemory)
    }

    /// Appends a read.
    pub fn add(&mut self, read: Awaited)
        requires { 0 < self.old.spare }
        ensures reads { self.new.reads ≡ self.old.reads ++ read ∷ [] }
        ensures spare { self.new.spare + 1 ≡ self.old.spare }
    {
        self.reads.push_reserved(read);
    }

    /// Notes the value of the node's read with this number, if it is awaited.
    pub fn fill(&mut self, node: u32, number: u64, value: Value)
        ensures reads { self.new.reads ≡ map (filled node number value) self.old.reads }
        ensures spare { self.new.spare ≡ self.old.spare }
    {
        fill_all(self.reads.as_mut_slice(), node, number, value);
    }

    /// How many reads of the node on the counter are awaited.
    pub fn count(&self, node: u32, counter: u32) -> u64
        ensures { result ≡ length (reads_on node counter self.now.reads) }
    {
        let on = self
            .reads
            .iter()
            .filter(|read| read.node == node && read.counter == counter)
            .count();
        on as u64
    }

    /// Takes out the reads of the node on the counter, and adds their values in order.
    pub fn take(&mut self, node: u32, counter: u32, into: &mut Landed)
        requires { length (reads_on node counter self.old.reads) ≤ into.old.spare }
        ensures reads { self.new.reads ≡ reads_off node counter self.old.reads }
        ensures spare { self.old.spare ≤ self.new.spare }
        ensures values { into.new.values ≡ into.old.values ++ values_in (reads_on node counter self.old.reads) }
    {
        add_values(self.reads.as_slice(), node, counter, into);
        self.reads
            .retain(|read| !(read.node == node && read.counter == counter));
    }
}

/// The read with the value, if it is this access.
fn filled(read: Awaited, node: u32, number: u64, value: Value) -> Awaited
    ensures { result ≡ filled node number value read }
{
    if read.node == node && read.number == number {
        Awaited { value, ..read }
    } else {
        read
    }
}

fn fill_all(reads: &mut [Awaited], node: u32, number: u64, value: Value)
    ensures { reads.new ≡ map (filled node number value) reads.old }
{
    for read in reads.iter_mut() {
        *read = filled(*read, node, number, value);
    }
}

fn add_values(reads: &[Awaited], node: u32, counter: u32, into: &mut Landed)
    requires { length (reads_on node counter reads.now) ≤ into.old.spare }
    ensures { into.new.values ≡ into.old.values ++ values_in (reads_on node counter reads.now) }
{
    for read in reads {
        if read.node == node && read.counter == counter {
            into.add(read.value);
        }
    }
}
