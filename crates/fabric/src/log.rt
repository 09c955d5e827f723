//! The journal as it grows.

ghost use Rattle.std.specs.Prelude.{◌≡◌, ◌<◌, ◌≤◌, ◌+◌, ◌^◌, [], ◌∷◌, length, reverse, false, IfOk, OnOk};
ghost use Rattle.sc_isa.specs.declared.journal.Entry.TheVariants.{Issued};
ghost use Rattle.fabric.specs.Effects.{issues};
ghost use Rattle.fabric.specs.Log.{is_issue};

use sc_base::OutOfMemory;
use sc_isa::{Access, Entry};
use std::alloc::Global;
use std::marker::Model;

/// The entries of a run so far, with how many accesses each node has issued, and room for more entries.
#[derive(Debug, Drop)]
pub struct Log {
    entries: Vec<Entry>,
    issued: Vec<u64>,
}

impl Model for Log {
    ghost use Rattle.std.specs.Prelude.{◌-◌, length, reverse, vec_len, vec_capacity};
    ghost use Rattle.fabric.specs.Log as log;

    ghost Value = { log.Log };

    ghost view = { λ l. record { past = reverse l.entries.items; nodes = length l.issued.items; room = vec_capacity l.entries - vec_len l.entries } };

    ghost invariant = { λ l. log.AreIssues l.issued.items (reverse l.entries.items) };
}

impl Log {
    /// No entries.
    pub fn new(alloc: Global, nodes: u32) -> Result<Log, OutOfMemory>
        ensures past { IfOk result (λ log. log.past ≡ []) }
        ensures nodes { IfOk result (λ log. log.nodes ≡ nodes) }
    {
        let Ok(issued) = vec![in alloc; 0u64; nodes as usize] else {
            return Err(OutOfMemory);
        };
        Ok(Log {
            entries: Vec::new(alloc),
            issued,
        })
    }

    /// Makes room for at least so many more entries.
    pub fn reserve(&mut self, count: usize) -> Result<(), OutOfMemory>
        ensures past { self.new.past ≡ self.old.past }
        ensures nodes { self.new.nodes ≡ self.old.nodes }
        ensures room { self.old.room ≤ self.new.room }
        ensures enough { OnOk result (count ≤ self.new.room) }
    {
        self.entries.reserve(count).map_err(|_| OutOfMemory)
    }

    /// The number of the node's next issue.
    pub fn next_number(&self, node: u32) -> u64
        requires { node < self.now.nodes }
        ensures { result ≡ issues node self.now.past }
    {
        self.issued[node as usize]
    }

    /// How many entries there are.
    pub fn len(&self) -> u64
        ensures is { result ≡ length self.now.past }
        ensures short { length self.now.past + self.now.room + 1 < 2 ^ 64 }
    {
        self.entries.len() as u64
    }

    /// Writes down that the node issued the access.
    pub fn issue(&mut self, node: u32, access: Access)
        requires node { node < self.old.nodes }
        requires room { 0 < self.old.room }
        ensures past { self.new.past ≡ Issued node (issues node self.old.past) access ∷ self.old.past }
        ensures nodes { self.new.nodes ≡ self.old.nodes }
        ensures room { self.new.room + 1 ≡ self.old.room }
    {
        // Read for the proof alone, which learns that the journal is short.
        let _len = self.len();
        let number = self.issued[node as usize];
        self.entries.push_reserved(Entry::Issued {
            node,
            number,
            access,
        });
        self.issued[node as usize] = number + 1;
    }

    /// Writes down an entry that is no issue.
    pub fn add(&mut self, entry: Entry)
        requires other { is_issue entry ≡ false }
        requires room { 0 < self.old.room }
        ensures past { self.new.past ≡ entry ∷ self.old.past }
        ensures nodes { self.new.nodes ≡ self.old.nodes }
        ensures room { self.new.room + 1 ≡ self.old.room }
    {
        self.entries.push_reserved(entry);
    }

    /// The entries in their order.
    pub fn into_entries(self) -> Vec<Entry>
        ensures { reverse result.items ≡ self.past }
    {
        let Log { entries, issued: _ } = self;
        entries
    }
}
