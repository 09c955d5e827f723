//! Deliveries.

ghost use Rattle.std.specs.Prelude.{◌≡◌, ◌<◌, ◌≤◌, ◌+◌, ◌∷◌, ◌++◌, List, Some, length};
ghost use Rattle.effect_order.specs.Effect.{Effect};
ghost use Rattle.sc_base.specs.declared.value.Place.{Place};
ghost use Rattle.sc_layout.specs.Place.{Fits};
ghost use Rattle.sc_layout.specs.Start.{start};
ghost use Rattle.sc_isa.specs.declared.journal.Entry.TheVariants.{Delivered as DeliveredIt};
ghost use Rattle.msg_pool.specs.declared.message.Part.TheVariants.{Write};
ghost use Rattle.msg_pool.specs.Pool.{IsPending};
ghost use Rattle.sync_book.specs.Book.{IsTrackOf, outstanding_on, all_outstanding};
ghost use Rattle.fabric.specs.Effects.{effects};
ghost use Rattle.fabric.specs.Flight.{back_from};
ghost use Rattle.fabric.specs.State.{start_of, messages_of, Grows};
ghost use Rattle.fabric.specs.Kept.{PartReady};
ghost use Rattle.fabric.specs.Issuing.{HoldsAfter, IsSendable};
ghost use Rattle.fabric.specs.Delivering.{value_in, Delivers, back_of, HasPart, book_after, reads_after};

use crate::answers::Delivered;
use crate::issuing::send;
use crate::reads::Reads;
use crate::state::Fabric;
use msg_pool::{Message, MsgId, MsgPool, Part};
use node_memory::NodeMemory;
use sc_base::{Place, Value};
use sc_isa::Entry;
use sync_book::SyncBook;

/// Lets the part take effect, and answers its value.
fn take_effect(memory: &mut NodeMemory, part: Part) -> Value
    requires { PartReady memory.old.layout part }
    ensures layout { memory.new.layout ≡ memory.old.layout }
    ensures value { (earlier : List Effect) → HoldsAfter memory.old earlier → result ≡ value_in (start memory.old.layout) earlier part }
    ensures holds { (earlier : List Effect) (e : Effect) → HasPart e part → HoldsAfter memory.old earlier → HoldsAfter memory.new (e ∷ earlier) }
    ensures fits { (to : Place) → back_of part ≡ Some to → Fits memory.old.layout to result }
{
    match part {
        Part::Read { from, .. } => memory.read(from),
        Part::Write { to, value } => {
            memory.write(to, value);
            value
        }
    }
}

/// Where the part's value goes back to.
fn way_back(part: Part) -> Option<Place>
    ensures { result ≡ back_of part }
{
    match part {
        Part::Read { back, .. } => back,
        Part::Write { .. } => None,
    }
}

/// What a delivered message becomes is put last; one that becomes nothing is no more outstanding.
fn follow(pool: &mut MsgPool, book: &mut SyncBook, message: Message, value: Value)
    requires sendable { (to : Place) → back_of message.part ≡ Some to → IsSendable pool.old (record message { part = Write to value }) }
    requires node { message.issuer < length book.old.nodes }
    requires counter { IsTrackOf book.old message.track }
    requires outstanding { 0 < outstanding_on book.old message.issuer message.track }
    ensures messages { messages_of pool.new ≡ messages_of pool.old ++ back_from message value message.part }
    ensures stay { Grows pool.old pool.new }
    ensures spare { pool.new.spare + length (back_from message value message.part) ≡ pool.old.spare }
    ensures puts { pool.new.puts ≡ pool.old.puts + length (back_from message value message.part) }
    ensures nodes { pool.new.nodes ≡ pool.old.nodes }
    ensures book { book.new ≡ book_after book.old message.issuer message.track (back_of message.part) }
    ensures total { all_outstanding book.new + 1 ≡ all_outstanding book.old + length (back_from message value message.part) }
{
    match way_back(message.part) {
        Some(to) => send(
            pool,
            Message {
                part: Part::Write { to, value },
                ..message
            },
        ),
        None => book.complete(message.issuer, message.track),
    }
}

/// Notes the value of a read that a wait may answer.
fn note(reads: &mut Reads, message: Message, value: Value)
    ensures reads { reads.new.reads ≡ reads_after message value reads.old.reads }
    ensures spare { reads.new.spare ≡ reads.old.spare }
{
    match message.part {
        Part::Read { back, .. } => match back {
            Some(_) => {}
            None => reads.fill(message.issuer, message.number, value),
        },
        Part::Write { .. } => {}
    }
}

impl Fabric {
    /// Delivers the message that the id names: its part takes effect, and has the value that is answered. A read that
    /// goes back to write becomes a message again, put last.
    pub fn deliver(&mut self, id: MsgId) -> Delivered
        requires pending { IsPending self.old.pool id }
        ensures message { Delivers self.old.pool id result.message result.value self.new.pool }
        ensures value { result.value ≡ value_in (start_of self.old) (effects (start_of self.old) self.old.past) result.message.part }
        ensures past { self.new.past ≡ DeliveredIt result.message.issuer result.message.number result.message.cell result.value ∷ self.old.past }
        ensures spare { self.new.spare ≡ self.old.spare }
        ensures layout { self.new.memory.layout ≡ self.old.memory.layout }
        ensures sites { self.new.book.sites ≡ self.old.book.sites }
    {
        // Read for the proof alone, which learns that the journal is short.
        let _len = self.log.len();
        let message = self.pool.take(id).unwrap();
        let value = take_effect(&mut self.memory, message.part);
        follow(&mut self.pool, &mut self.book, message, value);
        note(&mut self.reads, message, value);
        self.log.add(Entry::Delivered {
            node: message.issuer,
            number: message.number,
            cell: message.cell,
            value,
        });
        Delivered { message, value }
    }
}
