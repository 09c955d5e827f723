//! What the table knows of a seat, and the rule of the table.

use crate::book::{Book, Lane};
use atomic_table::TableRule;
use std::collections::LinkedList;

/// How far a seat is: without a ticket, waiting with one, or holding the turn with one. Tickets are counted without
/// a bound here.
pub(crate) enum Stage {
    Idle,
    Waiting(u64),
    Holding(u64),
}

/// What is known of a seat: the list that it has seen, the lanes that it owns and its stage. After a join it was also
/// told the shorter of the two seen lists, with the lanes of the seat that had seen it. In a clause a `LinkedList` is
/// a list. No value of this type is made.
pub(crate) struct View<E> {
    pub(crate) seen: LinkedList<E>,
    pub(crate) lanes: LinkedList<u32>,
    pub(crate) stage: Stage,
    pub(crate) told: LinkedList<E>,
    pub(crate) told_lanes: LinkedList<u32>,
}

/// The rule of the table.
pub(crate) struct InTurn;

impl<T: Book> TableRule<Option<T>, View<T::Entry>, u32> for InTurn {
    ghost use Rattle.turn_lock.specs.Rule.{Kept, newcomer};

    // what holds between any two steps
    ghost holds = { λ lanes. Kept T.entries T.Entry.lane T.Entry.closes lanes };

    // the view of the first seat
    ghost first = { λ lanes. newcomer lanes };
}
