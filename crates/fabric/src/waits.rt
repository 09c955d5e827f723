//! Waits on counters.

ghost use Rattle.std.specs.Prelude.{◌≡◌, ◌<◌, ◌≤◌, ◌-◌, [], ◌∷◌, ◌==◌, length};
ghost use Rattle.sc_isa.specs.declared.journal.Entry.TheVariants.{Waited as WaitedOn};
ghost use Rattle.fabric.specs.declared.answers.Waited.TheVariants.{Landed as LandedIt};
ghost use Rattle.fabric.specs.Access.{is_counter};
ghost use Rattle.fabric.specs.Effects.{awaited, landed};
ghost use Rattle.fabric.specs.Outstanding.{outstanding};
ghost use Rattle.fabric.specs.Wired.{Going};
ghost use Rattle.fabric.specs.Causes.{waited_of};
ghost use Rattle.fabric.specs.State.{start_of, nodes_of};

use crate::answers::Waited;
use crate::state::Fabric;
use sc_isa::{Entry, Landed};

impl Fabric {
    /// The node waits on the counter, where no cell of its accesses there has a part still to occur: the values of its
    /// reads there since its last wait land in order of issue. Else the number of those cells is answered, and nothing
    /// changes.
    pub fn try_wait(&mut self, node: u32, counter: u32, into: &mut Landed) -> Waited
        requires going { Going (nodes_of self.old) self.old.past node }
        requires counter { counter ≤ self.old.book.sites }
        requires empty { into.old.values ≡ [] }
        requires enough { length (awaited node counter self.old.past) ≤ into.old.spare }
        requires room { 0 < self.old.spare }
        ensures answer { result ≡ waited_of (outstanding (start_of self.old) (λ other. other == node) (is_counter counter) self.old.past) }
        ensures past { result ≡ LandedIt → self.new.past ≡ WaitedOn node counter ∷ self.old.past }
        ensures rest { result ≡ LandedIt → self.new ≡ record self.old { past = self.new.past; spare = self.old.spare - 1 } }
        ensures values { result ≡ LandedIt → into.new.values ≡ landed (start_of self.old) node counter self.old.past }
        ensures same { (result ≡ LandedIt → ⊥) → self.new ≡ self.old }
        ensures none { (result ≡ LandedIt → ⊥) → into.new.values ≡ [] }
    {
        let outstanding = self.book.outstanding(node, counter);
        if outstanding != 0 {
            return Waited::NotYet { outstanding };
        }
        self.land(node, counter, into);
        Waited::Landed
    }

    fn land(&mut self, node: u32, counter: u32, into: &mut Landed)
        requires going { Going (nodes_of self.old) self.old.past node }
        requires none { outstanding (start_of self.old) (λ other. other == node) (is_counter counter) self.old.past ≡ 0 }
        requires empty { into.old.values ≡ [] }
        requires enough { length (awaited node counter self.old.past) ≤ into.old.spare }
        requires room { 0 < self.old.spare }
        ensures past { self.new.past ≡ WaitedOn node counter ∷ self.old.past }
        ensures rest { self.new ≡ record self.old { past = self.new.past; spare = self.old.spare - 1 } }
        ensures values { into.new.values ≡ landed (start_of self.old) node counter self.old.past }
    {
        self.reads.take(node, counter, into);
        self.log.add(Entry::Waited { node, counter });
        self.spare -= 1;
    }
}
