//! Doubly linked lists over the entries of a slab. Each step is the same for each of a message's lists.

ghost use Rattle.std.specs.Prelude.{◌≡◌, ◌<◌, ◌+◌, ◌-◌, ◌^◌, slice_get};
ghost use Rattle.msg_pool.specs.Chains.{empty_chain, next_in, previous_in, walk_of, IsWalked, chain_with, chain_without};
ghost use Rattle.msg_pool.specs.Slots.{Holds, changed, with_next, with_previous, link_at};

use crate::slot::{Grouping, Link, Slot};
use slab::Slab;

/// A list: the keys of its first and its last message, and how many messages it has.
#[derive(Clone, Copy, Debug)]
pub struct Chain {
    pub head: Option<usize>,
    pub tail: Option<usize>,
    pub count: u64,
}

/// A list of no message.
pub fn empty() -> Chain
    ensures { result ≡ empty_chain }
{
    Chain {
        head: None,
        tail: None,
        count: 0,
    }
}

/// From now on `next` stands behind the message `at`, if there is one.
fn relink_next(slots: &mut Slab<Slot>, grouping: Grouping, at: Option<usize>, next: Option<usize>)
    requires { Holds slots.old at }
    ensures { slots.new ≡ changed (with_next grouping next) at slots.old }
{
    if let Some(key) = at {
        slots[key].set_next(grouping, next);
    }
}

/// From now on `previous` stands before the message `at`, if there is one.
fn relink_previous(
    slots: &mut Slab<Slot>,
    grouping: Grouping,
    at: Option<usize>,
    previous: Option<usize>,
)
    requires { Holds slots.old at }
    ensures { slots.new ≡ changed (with_previous grouping previous) at slots.old }
{
    if let Some(key) = at {
        slots[key].set_previous(grouping, previous);
    }
}

/// The list with the message `key` behind its last one. The message itself has been linked to that one before.
pub fn appended(slots: &mut Slab<Slot>, grouping: Grouping, chain: Chain, key: usize) -> Chain
    requires tail { Holds slots.old chain.tail }
    requires room { chain.count + 1 < 2 ^ 64 }
    ensures slots { slots.new ≡ changed (with_next grouping (Some key)) chain.tail slots.old }
    ensures chain { result ≡ chain_with chain key }
{
    relink_next(slots, grouping, chain.tail, Some(key));
    Chain {
        head: chain.head.or(Some(key)),
        tail: Some(key),
        count: chain.count + 1,
    }
}

/// The list without the message that has these neighbours there.
pub fn unlinked(slots: &mut Slab<Slot>, grouping: Grouping, chain: Chain, link: Link) -> Chain
    requires next { Holds slots.old link.next }
    requires previous { Holds slots.old link.previous }
    requires some { 0 < chain.count }
    ensures slots { slots.new ≡ changed (with_previous grouping link.previous) link.next
        (changed (with_next grouping link.next) link.previous slots.old) }
    ensures chain { result ≡ chain_without chain link }
{
    relink_next(slots, grouping, link.previous, link.next);
    relink_previous(slots, grouping, link.next, link.previous);
    Chain {
        head: if link.previous.is_none() {
            link.next
        } else {
            chain.head
        },
        tail: if link.next.is_none() {
            link.previous
        } else {
            chain.tail
        },
        count: chain.count - 1,
    }
}

/// The key that stands behind the message `at` on its list.
fn next(slots: &Slab<Slot>, grouping: Grouping, at: Option<usize>) -> Option<usize>
    ensures { result ≡ next_in (link_at grouping slots.now) at }
{
    slots.get(at?)?.link(grouping).next
}

/// The key that stands before the message `at` on its list.
fn previous(slots: &Slab<Slot>, grouping: Grouping, at: Option<usize>) -> Option<usize>
    ensures { result ≡ previous_in (link_at grouping slots.now) at }
{
    slots.get(at?)?.link(grouping).previous
}

/// The key of the message that is number `k` of the list, counted from 0. It is looked for from the nearer end.
pub fn nth(slots: &Slab<Slot>, grouping: Grouping, chain: Chain, k: u64) -> Option<usize>
    requires { IsWalked (link_at grouping slots.now) chain }
    ensures { result ≡ slice_get (walk_of (link_at grouping slots.now) chain) k }
{
    if k >= chain.count {
        return None;
    }
    if k <= chain.count / 2 {
        from_head(slots, grouping, chain, k)
    } else {
        from_tail(slots, grouping, chain, chain.count - 1 - k)
    }
}

/// The key that is `steps` behind the first one.
fn from_head(slots: &Slab<Slot>, grouping: Grouping, chain: Chain, steps: u64) -> Option<usize>
    requires { IsWalked (link_at grouping slots.now) chain }
    ensures { result ≡ slice_get (walk_of (link_at grouping slots.now) chain) steps }
{
    let mut at = chain.head;
    for _ in 0..steps {
        at = next(slots, grouping, at);
    }
    at
}

/// The key that is `steps` before the last one.
fn from_tail(slots: &Slab<Slot>, grouping: Grouping, chain: Chain, steps: u64) -> Option<usize>
    requires linked { IsWalked (link_at grouping slots.now) chain }
    requires within { steps < chain.count }
    ensures { result ≡ slice_get (walk_of (link_at grouping slots.now) chain) (chain.count - 1 - steps) }
{
    let mut at = chain.tail;
    for _ in 0..steps {
        at = previous(slots, grouping, at);
    }
    at
}
