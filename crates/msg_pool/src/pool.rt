//! The pool.

ghost use Rattle.std.specs.Prelude.{◌≡◌, ◌≤◌, ◌<◌, ◌+◌, ◌^◌, ◌↔◌};
ghost use Rattle.std.specs.Prelude.{IfOk, OnOk, IfSome, IfNone, IsSome, length, slice_get, replicate};
ghost use Rattle.msg_pool.specs.Pool.{empty_pool, target_of, of_issuer, to_target, ids, NamesOnce, IsPending, with_message, Takes};
ghost use Rattle.slab.specs.Slab.{ContainsKey, get};
ghost use Rattle.msg_pool.specs.declared.slot.Slot.{Slot};
ghost use Rattle.msg_pool.specs.Chains.{empty_chain, chain_at};
ghost use Rattle.msg_pool.specs.Slots.{pending_at};

use crate::chain::{Chain, appended, empty, nth, unlinked};
use crate::message::{Message, MsgId};
use crate::slot::{Grouping, Link, Slot};
use sc_base::OutOfMemory;
use slab::Slab;
use std::alloc::{AllocError, Global};
use std::marker::Model;

/// The messages that are under way, seen as the list of pending messages with their ids in order of their puts, how
/// many puts need no memory (`spare`), how many puts there were (`puts`), and the number of nodes. All calls but `new`
/// and `reserve` take no memory.
#[derive(Debug, Drop)]
pub struct MsgPool {
    slots: Slab<Slot>,
    every: Chain,
    issuers: Vec<Chain>,
    targets: Vec<Chain>,
    puts: u64,
}

impl Model for MsgPool {
    ghost use Rattle.msg_pool.specs.Pool.{Pool};

    ghost Value = { Pool };

    ghost use Rattle.msg_pool.specs.Sound.{pool_of, IsPool};
    ghost use Rattle.msg_pool.specs.Inner.{parts_of};

    ghost view = { λ p. pool_of (parts_of p) };

    ghost invariant = { λ p. IsPool (parts_of p) };
}

impl MsgPool {
    /// A pool for messages among so many nodes, in which none was put yet.
    pub fn new(alloc: Global, nodes: u32) -> Result<MsgPool, OutOfMemory>
        ensures { IfOk result (λ pool. pool ≡ empty_pool nodes) }
    {
        let Ok(issuers) = empty_chains(alloc, nodes) else {
            return Err(OutOfMemory);
        };
        let Ok(targets) = empty_chains(alloc, nodes) else {
            return Err(OutOfMemory);
        };
        Ok(MsgPool {
            slots: Slab::new(alloc),
            every: empty(),
            issuers,
            targets,
            puts: 0,
        })
    }

    /// Makes room, so that at least `count` puts need no memory.
    pub fn reserve(&mut self, count: u32) -> Result<(), OutOfMemory>
        ensures room { OnOk result (count ≤ self.new.spare) }
        ensures kept { self.old.spare ≤ self.new.spare }
        ensures same { self.new ≡ record self.old { spare = self.new.spare } }
    {
        match self.slots.reserve(count as usize) {
            Ok(()) => Ok(()),
            Err(_) => Err(OutOfMemory),
        }
    }

    /// Puts the message last, and answers an id that was never given before.
    pub fn put(&mut self, message: Message) -> MsgId
        requires spare { 0 < self.old.spare }
        requires puts { self.old.puts + 1 < 2 ^ 64 }
        requires issuer { message.issuer < self.old.nodes }
        requires target { target_of message < self.old.nodes }
        ensures message { self.new ≡ with_message self.old result message }
        ensures serial { result.serial ≡ self.old.puts }
        ensures fresh { IsPending self.old result → ⊥ }
    {
        let serial = self.puts;
        let issuer = message.issuer;
        let target = message.target();
        let of_issuer = chain_of(self.issuers.as_slice(), issuer);
        let to_target = chain_of(self.targets.as_slice(), target);
        let slot = Slot {
            serial,
            message,
            every: behind(self.every),
            issuer: behind(of_issuer),
            target: behind(to_target),
        };
        let key = self.slots.insert_reserved(slot);
        let every = appended(&mut self.slots, Grouping::Every, self.every, key);
        let of_issuer = appended(&mut self.slots, Grouping::Issuer, of_issuer, key);
        let to_target = appended(&mut self.slots, Grouping::Target, to_target, key);
        self.every = every;
        self.issuers[issuer as usize] = of_issuer;
        self.targets[target as usize] = to_target;
        self.puts = serial + 1;
        MsgId {
            key: key as u64,
            serial,
        }
    }

    /// Takes out the message that the id names. None comes exactly where no pending message has that id.
    pub fn take(&mut self, id: MsgId) -> Option<Message>
        ensures found { IsSome result ↔ IsPending self.old id }
        ensures taken { IfSome result (λ message. Takes self.old id message self.new) }
        ensures absent { IfNone result (self.new ≡ self.old) }
    {
        let slot = slot_of(&self.slots, id)?;
        let issuer = slot.message.issuer;
        let target = slot.message.target();
        let of_issuer = chain_of(self.issuers.as_slice(), issuer);
        let to_target = chain_of(self.targets.as_slice(), target);
        let every = unlinked(&mut self.slots, Grouping::Every, self.every, slot.every);
        let of_issuer = unlinked(&mut self.slots, Grouping::Issuer, of_issuer, slot.issuer);
        let to_target = unlinked(&mut self.slots, Grouping::Target, to_target, slot.target);
        self.every = every;
        self.issuers[issuer as usize] = of_issuer;
        self.targets[target as usize] = to_target;
        self.slots.remove(id.key as usize);
        Some(slot.message)
    }

    /// The id of the pending message that is number `k` of all, counted from 0. No id names two of them.
    pub fn nth(&self, k: u64) -> Option<MsgId>
        ensures id { result ≡ slice_get (ids self.now.pending) k }
        ensures once { NamesOnce (ids self.now.pending) }
    {
        let key = nth(&self.slots, Grouping::Every, self.every, k)?;
        Some(id_at(&self.slots, key))
    }

    /// The id of the pending message that is number `k` of the issuer's.
    pub fn nth_of(&self, issuer: u32, k: u64) -> Option<MsgId>
        ensures { result ≡ slice_get (ids (of_issuer issuer self.now.pending)) k }
    {
        let chain = chain_of(self.issuers.as_slice(), issuer);
        let key = nth(&self.slots, Grouping::Issuer, chain, k)?;
        Some(id_at(&self.slots, key))
    }

    /// The id of the pending message that is number `k` of those to the target.
    pub fn nth_to(&self, target: u32, k: u64) -> Option<MsgId>
        ensures { result ≡ slice_get (ids (to_target target self.now.pending)) k }
    {
        let chain = chain_of(self.targets.as_slice(), target);
        let key = nth(&self.slots, Grouping::Target, chain, k)?;
        Some(id_at(&self.slots, key))
    }

    /// How many messages are pending.
    pub fn count(&self) -> u64
        ensures { result ≡ length self.now.pending }
    {
        self.every.count
    }

    /// How many pending messages the issuer has.
    pub fn count_of(&self, issuer: u32) -> u64
        ensures { result ≡ length (of_issuer issuer self.now.pending) }
    {
        let chain = chain_of(self.issuers.as_slice(), issuer);
        chain.count
    }

    /// How many pending messages go to the target.
    pub fn count_to(&self, target: u32) -> u64
        ensures { result ≡ length (to_target target self.now.pending) }
    {
        let chain = chain_of(self.targets.as_slice(), target);
        chain.count
    }
}

/// The id of the message with this key.
fn id_at(slots: &Slab<Slot>, key: usize) -> MsgId
    requires { ContainsKey slots.now key }
    ensures { result ≡ (pending_at slots.now key).id }
{
    let slot = slots[key];
    MsgId {
        key: key as u64,
        serial: slot.serial,
    }
}

/// What is kept of the message that the id names.
fn slot_of(slots: &Slab<Slot>, id: MsgId) -> Option<Slot>
    ensures stored { IfSome result (λ slot. get slots.now id.key ≡ Some slot) }
    ensures serial { IfSome result (λ slot. slot.serial ≡ id.serial) }
    ensures absent { IfNone result ((slot : Slot) → get slots.now id.key ≡ Some slot → slot.serial ≡ id.serial → ⊥) }
{
    let slot = *slots.get(id.key as usize)?;
    if slot.serial == id.serial {
        Some(slot)
    } else {
        None
    }
}

/// The neighbours of a message that is put behind the last one of the chain.
fn behind(chain: Chain) -> Link
    ensures { result ≡ record { next = None; previous = chain.tail } }
{
    Link {
        next: None,
        previous: chain.tail,
    }
}

/// The chain of that group.
fn chain_of(chains: &[Chain], group: u32) -> Chain
    ensures { result ≡ chain_at chains.now group }
{
    match chains.get(group as usize) {
        Some(chain) => *chain,
        None => empty(),
    }
}

/// A chain of no message for each node.
fn empty_chains(alloc: Global, nodes: u32) -> Result<Vec<Chain>, AllocError>
    ensures { IfOk result (λ chains. chains.items ≡ replicate nodes empty_chain) }
{
    let mut chains = Vec::with_capacity(alloc, nodes as usize)?;
    for _ in 0..nodes {
        chains.push(empty())?;
    }
    Ok(chains)
}
