//! Issues.

ghost use Rattle.std.specs.Prelude.{◌≡◌, ℕ, ◌+◌, ◌<◌, ◌≤◌, ◌∷◌, List, None, pos, length};
ghost use Rattle.sc_base.specs.declared.value.Value.TheVariants.{Int};
ghost use Rattle.sc_isa.specs.declared.access.Access.TheVariants.{Read};
ghost use Rattle.sc_isa.specs.declared.access.Track.TheVariants.{Counter};
ghost use Rattle.node_memory.specs.Memory.{cell as cell_of};
ghost use Rattle.effect_order.specs.Effect.{Effect};
ghost use Rattle.effect_order.specs.Lists.{Each};
ghost use Rattle.sc_layout.specs.Layout.{IsLayout};
ghost use Rattle.sc_layout.specs.Start.{start};
ghost use Rattle.sc_layout.specs.Place.{IsPlace};
ghost use Rattle.sc_isa.specs.declared.journal.Entry.{Entry};
ghost use Rattle.sc_isa.specs.declared.journal.Entry.TheVariants.{Issued as IssuedIt};
ghost use Rattle.fabric.specs.Access.{transfer_of, track_of};
ghost use Rattle.fabric.specs.Effects.{access_at, effects, issues};
ghost use Rattle.fabric.specs.Wired.{Going};
ghost use Rattle.fabric.specs.State.{nodes_of, need_of, IsAccess, IsPlaced, IsTrack, Grows, messages_of};
ghost use Rattle.fabric.specs.Kept.{IsReady, AreAwaited};
ghost use Rattle.fabric.specs.Issuing.{Unissued, HoldsAfter, CellsIssued, CanSendMany, AtMost};

use crate::answers::Issued;
use crate::issuing::{issue_copy, issue_read, issue_write};
use crate::reads::{Awaited, Reads};
use crate::state::Fabric;
use msg_pool::MsgPool;
use node_memory::NodeMemory;
use sc_base::{Place, Value};
use sc_isa::{Access, Track};

/// What the access is waited for by.
fn track_of(access: Access) -> Track
    ensures { result ≡ track_of access }
{
    match access {
        Access::Read { track, .. } => track,
        Access::Write { track, .. } => track,
        Access::Copy { track, .. } => track,
    }
}

/// All cells of the access.
fn issue_access(memory: &mut NodeMemory, pool: &mut MsgPool, node: u32, number: u64, access: Access)
    requires ready { CanSendMany memory.old pool.old node (transfer_of access).cells }
    requires placed { IsPlaced memory.old.layout access }
    requires layout { IsLayout memory.old.layout }
    ensures layout { memory.new.layout ≡ memory.old.layout }
    ensures issued { (earlier : List Effect) → Unissued node number earlier → HoldsAfter memory.old earlier → CellsIssued node number (transfer_of access).cells access earlier memory.old memory.new pool.old pool.new }
    ensures many { AtMost (transfer_of access).cells pool.old pool.new }
    ensures stay { Grows pool.old pool.new }
    ensures ready { (sites : ℕ) → IsTrack sites (track_of access) → Each (IsReady memory.old.layout sites) (messages_of pool.old) → Each (IsReady memory.old.layout sites) (messages_of pool.new) }
{
    match access {
        Access::Read { place, track } => issue_read(memory, pool, node, number, place, track),
        Access::Write {
            place,
            value,
            track,
        } => issue_write(memory, pool, node, number, place, value, track),
        Access::Copy {
            from,
            to,
            cells,
            track,
        } => issue_copy(memory, pool, node, number, from, to, cells, track),
    }
}

/// What the node's own cell holds; 0 for a cell elsewhere, whose value is not known yet.
fn own_value(memory: &NodeMemory, node: u32, place: Place) -> Value
    requires { IsPlace memory.now.layout place }
    ensures here { place.node ≡ node → cell_of memory.now place ≡ Some result }
    ensures away { (place.node ≡ node → ⊥) → result ≡ Int (pos 0) }
{
    if place.node == node {
        memory.read(place)
    } else {
        Value::Int(0)
    }
}

/// Notes the read that a wait on the counter will answer.
fn await_value(
    reads: &mut Reads,
    memory: &NodeMemory,
    node: u32,
    number: u64,
    place: Place,
    counter: u32,
)
    requires room { 0 < reads.old.spare }
    requires placed { IsPlace memory.now.layout place }
    ensures awaited { (past : List Entry) → access_at node number past ≡ None → HoldsAfter memory.now (effects (start memory.now.layout) (IssuedIt node number (Read place (Counter counter)) ∷ past))
        → Unissued node number (effects (start memory.now.layout) past)
        → AreAwaited (start memory.now.layout) past reads.old.reads → AreAwaited (start memory.now.layout) (IssuedIt node number (Read place (Counter counter)) ∷ past) reads.new.reads }
    ensures room { reads.old.spare ≤ reads.new.spare + 1 }
{
    let value = own_value(memory, node, place);
    reads.add(Awaited {
        node,
        counter,
        number,
        value,
    });
}

/// Notes the read that a wait will answer, if the access is one.
fn await_read(reads: &mut Reads, memory: &NodeMemory, node: u32, number: u64, access: Access)
    requires room { 0 < reads.old.spare }
    requires placed { IsPlaced memory.now.layout access }
    ensures awaited { (past : List Entry) → access_at node number past ≡ None → HoldsAfter memory.now (effects (start memory.now.layout) (IssuedIt node number access ∷ past))
        → Unissued node number (effects (start memory.now.layout) past)
        → AreAwaited (start memory.now.layout) past reads.old.reads → AreAwaited (start memory.now.layout) (IssuedIt node number access ∷ past) reads.new.reads }
    ensures room { reads.old.spare ≤ reads.new.spare + 1 }
{
    match access {
        Access::Read { place, track } => match track {
            Track::Counter(counter) => await_value(reads, memory, node, number, place, counter),
            Track::Store => {}
            Track::Covered => {}
        },
        Access::Write { .. } => {}
        Access::Copy { .. } => {}
    }
}

impl Fabric {
    /// Issues an access. A part on the issuer's own node takes effect at once: for a copy whose `from` is there its reads
    /// in cell order, and where `to` is also there each cell's write after its read. Every other cell becomes one message.
    pub fn issue(&mut self, node: u32, access: Access) -> Issued
        requires going { Going (nodes_of self.old) self.old.past node }
        requires access { IsAccess self.old.memory.layout self.old.book.sites access }
        requires room { need_of access ≤ self.old.spare }
        ensures number { result.number ≡ issues node self.old.past }
        ensures past { self.new.past ≡ IssuedIt node result.number access ∷ self.old.past }
        ensures messages { result.messages + length self.old.pool.pending ≡ length self.new.pool.pending }
        ensures stay { Grows self.old.pool self.new.pool }
        ensures spare { self.new.spare + need_of access ≡ self.old.spare }
        ensures layout { self.new.memory.layout ≡ self.old.memory.layout }
        ensures sites { self.new.book.sites ≡ self.old.book.sites }
    {
        // Read for the proof alone, which learns that the layout is lawful and the journal short.
        let _count = self.memory.layout().count();
        let _len = self.log.len();
        let number = self.log.next_number(node);
        let before = self.pool.count();
        issue_access(&mut self.memory, &mut self.pool, node, number, access);
        let messages = (self.pool.count() - before) as u32;
        self.book.issue(node, track_of(access), messages);
        await_read(&mut self.reads, &self.memory, node, number, access);
        self.log.issue(node, access);
        self.spare -= u64::from(Fabric::need(&access));
        Issued { number, messages }
    }
}
