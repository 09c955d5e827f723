//! Barriers, and the end of a node.

ghost use Rattle.std.specs.Prelude.{◌≡◌, ◌<◌, ◌-◌, ◌∷◌};
ghost use Rattle.sc_isa.specs.declared.journal.Entry.TheVariants.{Arrived, Passed as PassedIt, Finished};
ghost use Rattle.fabric.specs.declared.answers.Passed.TheVariants.{Yes};
ghost use Rattle.fabric.specs.Barriers.{arrivals, passes};
ghost use Rattle.fabric.specs.Wired.{Running, Going, EntryWired};
ghost use Rattle.sync_book.specs.declared.standing.Standing.TheVariants.{Released};
ghost use Rattle.sync_book.specs.Book.{node_at, CanRelease, gap_of, broken_by};
ghost use Rattle.fabric.specs.Causes.{passed_of, not_passed, SomeMissing};
ghost use Rattle.fabric.specs.State.{start_of, nodes_of};

use crate::answers::Passed;
use crate::state::Fabric;
use sc_base::End;
use sc_isa::Entry;
use sync_book::SyncBook;

impl Fabric {
    /// The node arrives at its next barrier, and there waits for all stores where `stores` is true.
    pub fn arrive(&mut self, node: u32, stores: bool)
        requires going { Going (nodes_of self.old) self.old.past node }
        requires room { 0 < self.old.spare }
        ensures past { self.new.past ≡ Arrived node stores ∷ self.old.past }
        ensures rest { self.new ≡ record self.old { past = self.new.past; spare = self.old.spare - 1; book = self.new.book } }
        ensures sites { self.new.book.sites ≡ self.old.book.sites }
    {
        self.book.arrive(node, stores);
        self.log.add(Entry::Arrived { node, stores });
        self.spare -= 1;
    }

    /// The node passes the barrier at which it stands, where its arrival was released or can be released now. The barrier
    /// is broken where some node stands at the next release and every other one has arrived or finished, one of them
    /// finished. Else the gap is answered, and nothing changes.
    pub fn try_pass(&mut self, node: u32) -> Passed
        requires running { Running (nodes_of self.old) self.old.past node }
        requires arrived { passes node self.old.past < arrivals node self.old.past }
        requires room { 0 < self.old.spare }
        ensures answer { result ≡ passed_of self.old.book node }
        ensures past { result ≡ Yes → self.new.past ≡ PassedIt node ∷ self.old.past }
        ensures rest { result ≡ Yes → self.new ≡ record self.old { past = self.new.past; spare = self.old.spare - 1; book = self.new.book } }
        ensures same { (result ≡ Yes → ⊥) → self.new ≡ self.old }
        ensures some_missing { SomeMissing result }
        ensures sites { self.new.book.sites ≡ self.old.book.sites }
    {
        if self.book.released(node) {
            self.leave(node);
            return Passed::Yes;
        }
        if self.book.can_release() {
            self.release(node);
            return Passed::Yes;
        }
        not_passed(&self.book)
    }

    fn leave(&mut self, node: u32)
        requires running { Running (nodes_of self.old) self.old.past node }
        requires released { (node_at self.old.book node).standing ≡ Released }
        requires room { 0 < self.old.spare }
        ensures past { self.new.past ≡ PassedIt node ∷ self.old.past }
        ensures rest { self.new ≡ record self.old { past = self.new.past; spare = self.old.spare - 1; book = self.new.book } }
        ensures sites { self.new.book.sites ≡ self.old.book.sites }
    {
        self.book.leave(node);
        self.log.add(Entry::Passed { node });
        self.spare -= 1;
    }

    fn release(&mut self, node: u32)
        requires running { Running (nodes_of self.old) self.old.past node }
        requires open { CanRelease self.old.book }
        requires room { 0 < self.old.spare }
        ensures past { self.new.past ≡ PassedIt node ∷ self.old.past }
        ensures rest { self.new ≡ record self.old { past = self.new.past; spare = self.old.spare - 1; book = self.new.book } }
        ensures sites { self.new.book.sites ≡ self.old.book.sites }
    {
        self.book.release();
        self.book.leave(node);
        self.log.add(Entry::Passed { node });
        self.spare -= 1;
    }

    /// The node finishes: as waiting at a broken barrier, and else where it stands at none.
    pub fn finish(&mut self, node: u32, end: End)
        requires wired { EntryWired (start_of self.old) (nodes_of self.old) self.old.past (Finished node end) }
        requires room { 0 < self.old.spare }
        ensures past { self.new.past ≡ Finished node end ∷ self.old.past }
        ensures rest { self.new ≡ record self.old { past = self.new.past; spare = self.old.spare - 1; book = self.new.book } }
        ensures sites { self.new.book.sites ≡ self.old.book.sites }
    {
        self.book.finish(node);
        self.log.add(Entry::Finished { node, end });
        self.spare -= 1;
    }
}

/// Why no barrier is passed now.
fn not_passed(book: &SyncBook) -> Passed
    ensures { result ≡ not_passed (broken_by book.now) (gap_of book.now) }
{
    match book.broken() {
        Some(ended) => Passed::Broken { ended },
        None => {
            let gap = book.gap();
            Passed::NotYet {
                missing: gap.missing,
                flying: gap.flying,
            }
        }
    }
}
