//! The lock, its seats and its turns.

ghost use Rattle.std.specs.Prelude.{◌≡◌, ◌+◌, ◌<◌, ◌≤◌, ◌^◌, true, false, ◌⊎◌, [], ◌∷◌, ◌++◌, length, IfOk, IfErr, Some, None, ◌%◌};
ghost use mathlib.Core.List.{IsPrefix};
ghost use Rattle.std.specs.List.{range_with_len};
ghost use Rattle.std.specs.Borrow.{sem};
ghost use Rattle.turn_lock.specs.Lent.{LendsValue};
ghost use Rattle.turn_lock.specs.Rule.{Gains, view, ticket_of};
ghost use Rattle.turn_lock.specs.Seats.{is_out, HasSlot, WaitsFor, IsSameInner, OwnsAll, KeepsOwn, AddsOwn, MayAdd};
ghost use Rattle.turn_lock.specs.Words.{times, IsOpen, ClosesLast, least, without, longer};

use crate::book::{Book, Lane};
use crate::plays::{Draw, Hear, Lanes, Look, Pass, Publish, Said};
use crate::rule::{InTurn, View};
use atomic_table::{Refused, Shared, Table};
use sc_base::OutOfMemory;
use std::alloc::{AllocFailed, Global};
use std::marker::{Brand, Model};
use std::sync::Wait;
use std::thread;

// The words of the table.
const TICKET: usize = 0;

const SERVING: usize = 1;

const LENGTH: usize = 2;

// The only slot of the table.
const VALUE: usize = 0;

// What the table knows a seat as.
type Inner<T> = atomic_table::Seat<Option<T>, View<<T as Book>::Entry>>;

// The part of the table that all seats share.
type Words<T> = Shared<Option<T>, View<<T as Book>::Entry>, u32, InTurn>;

/// The right to take turns at a lock. A seat knows the list that it has seen and the lanes that it owns. Its own list
/// for such a lane is what it has seen of that lane.
#[derive(Drop)]
pub struct Seat<T: Book> {
    inner: Inner<T>,
}

impl<T: Book> Model for Seat<T> {
    ghost use Rattle.turn_lock.specs.Seats.{Known, known, IsWhole};

    // its lock, its number, its seen list, its lanes, and whether it has a turn out
    ghost Value = { Known T.Entry };

    // what the table knows of it
    ghost view = { λ s. known s.inner };

    // it owns a lane, and has the slot exactly during a turn
    ghost invariant = { λ s. IsWhole s.inner };
}

/// A value that seats take turns at. Each lane of its list below the number of lanes is owned by one seat, which alone
/// adds to it. An entry of any other lane is common, and every seat may add it. Nothing is promised of waiting.
#[derive(Drop)]
pub struct TurnLock<T: Book> {
    table: Table<Option<T>, View<T::Entry>, u32, InTurn, Global>,
}

impl<T: Book> Model for TurnLock<T> {
    ghost use Rattle.std.specs.Prelude.{◌≡◌};
    ghost use Rattle.turn_lock.specs.Seats.{Lock};

    // which lock it is, and the number of its lanes
    ghost Value = { Lock };

    // the table's identity and key
    ghost view = { λ l. record { id = l.table.shared.table_id; lanes = l.table.shared.key } };

    // three words and one slot
    ghost invariant = { λ l. (l.table.shared.table_id.words ≡ 3) × (l.table.shared.table_id.slots ≡ 1) };
}

/// The value, while a seat has the turn. It is handed back by `TurnLock::pass_on` and cannot be dropped. Contracts see
/// a turn as the value.
pub struct Turn<T> {
    value: T,
}

impl<T> Model for Turn<T> {
    // An import of its own keeps those of the file, which speak of `Turn`, out of it.
    ghost use Rattle.std.specs.Prelude.{ℕ};

    // the value
    ghost Value = { T };

    // the value that it lends
    ghost view = { λ t. t.value };
}

impl<T> Turn<T> {
    /// The value.
    pub fn value(&self) -> &T
        ensures { result.now ≡ self.now }
    {
        &self.value
    }

    /// The value, to be changed. When the borrow ends, the turn has what was written through it.
    pub fn value_mut(&mut self) -> &mut T
        ensures* writes_back { sem 𝓛 (LendsValue T.row self.entry result) }
        ensures value { result.now ≡ self.old }
    {
        &mut self.value
    }
}

// Takes the value out of the slot.
fn take_out<T: Book>(words: &Words<T>, seat: &mut Inner<T>) -> T
    requires lock { seat.old.table_id ≡ words.now.table_id }
    requires full { (value : T) × HasSlot seat.old (Some value) }
    ensures seat { IsSameInner seat.old seat.new × (seat.new.me.0 ≡ seat.old.me.0) × HasSlot seat.new None }
    ensures value { HasSlot seat.old (Some result) }
{
    match words.exchange(seat, VALUE, None) {
        Some(value) => value,
        None => unreachable!(),
    }
}

// Puts the value back into the slot.
fn put_back<T: Book>(words: &Words<T>, seat: &mut Inner<T>, value: T)
    requires lock { seat.old.table_id ≡ words.now.table_id }
    requires empty { HasSlot seat.old None }
    ensures { IsSameInner seat.old seat.new × (seat.new.me.0 ≡ seat.old.me.0) × HasSlot seat.new (Some value) }
{
    match words.exchange(seat, VALUE, Some(value)) {
        None => {}
        Some(_) => unreachable!(),
    }
}

// Waits until the ticket is served.
fn wait<T: Book, R: Wait>(rt: &R, words: &Words<T>, seat: &mut Inner<T>, ticket: u64)
    requires lock { (seat.old.table_id ≡ words.now.table_id) × (words.now.table_id.words ≡ 3) }
    requires waits { WaitsFor seat.old ticket }
    ensures seat { IsSameInner seat.old seat.new }
    ensures turn { Gains T.entries T.Entry.lane T.Entry.closes (ticket_of seat.old.me.0.stage)
        seat.old.me seat.new.me }
{
    for _ in rt.forever() {
        if words.load::<Look>(seat, SERVING) == ticket {
            return;
        }
        thread::yield_now();
    }
    unreachable!()
}

// Adds the entry that is said to what the seat has seen.
fn note<T: Book, N: Said<T::Entry>>(words: &Words<T>, seat: &mut Inner<T>, entry: &T::Entry)
    requires said { N.said ≡ entry.now ∷ [] }
    requires lock { (seat.old.table_id ≡ words.now.table_id) × (words.now.table_id.words ≡ 3) }
    requires out { is_out seat.old.me.0.stage ≡ true }
    requires short { length seat.old.me.0.seen + 1 < 2 ^ 64 }
    requires lane { (words.now.key ≤ T.Entry.lane entry.now)
        ⊎ (0 < times (T.Entry.lane entry.now) seat.old.me.0.lanes) }
    requires opened { IsOpen T.Entry.lane T.Entry.closes (T.Entry.lane entry.now) seat.old.me.0.seen }
    ensures same { IsSameInner seat.old seat.new × (seat.new.me.1 ≡ seat.old.me.1) }
    ensures view { seat.new.me.0 ≡ view (seat.old.me.0.seen ++ entry.now ∷ []) seat.old.me.0.lanes
        seat.old.me.0.stage }
{
    words.fetch_add::<Publish<N>>(seat, LENGTH, 1);
}

impl<T: Book + Send> TurnLock<T> {
    /// A lock over a value whose list is empty, with at least one lane, and the first seat, which has seen the empty
    /// list and owns every lane. Where memory is refused, the value comes back.
    pub fn new(
        alloc: Global,
        value: T,
        lanes: u32,
    ) -> Result<(TurnLock<T>, Seat<T>), (T, OutOfMemory)>
        requires some_lane { 0 < lanes }
        requires empty { T.entries value ≡ [] }
        ensures lock { IfOk result (λ r. r.0.lanes ≡ lanes) }
        ensures seat { IfOk result (λ r. (r.1.lock ≡ r.0.id) × (r.1.seen ≡ [])
            × (r.1.lanes ≡ range_with_len 0 lanes) × (r.1.out ≡ false)) }
        ensures err { IfErr result (λ e. e.0 ≡ value) }
    {
        let mut slots = Vec::new(alloc);
        if let Err(AllocFailed { value: back }) = slots.push(Some(value)) {
            slots.destroy_empty();
            return Err((back.unwrap(), OutOfMemory));
        }
        match Table::new(alloc, &[0, 0, 0], slots, &lanes) {
            Ok((table, inner)) => Ok((TurnLock { table }, Seat { inner })),
            Err(Refused { mut slots }) => {
                let back = slots.pop().unwrap().unwrap();
                slots.destroy_empty();
                Err((back, OutOfMemory))
            }
        }
    }
}

impl<T: Book> TurnLock<T> {
    /// Draws a ticket and waits until it is served. The value's list begins with all that the seat had seen, and the
    /// seat has then seen that list.
    pub fn turn<R: Wait>(&self, rt: &R, seat: &mut Seat<T>) -> Turn<T>
        requires lock { seat.old.lock ≡ self.now.id }
        requires resting { seat.old.out ≡ false }
        ensures seat { seat.new ≡ record seat.old { seen = T.entries result; out = true } }
        ensures begins { IsPrefix seat.old.seen (T.entries result) }
        ensures own { KeepsOwn T.Entry.lane seat.old (T.entries result) }
        ensures ends { ClosesLast T.Entry.lane T.Entry.closes (T.entries result) }
    {
        let words = &self.table.shared;
        let ticket = words.fetch_add::<Draw>(&mut seat.inner, TICKET, 1);
        wait(rt, words, &mut seat.inner, ticket);
        let value = take_out(words, &mut seat.inner);
        Turn { value }
    }

    /// Makes known the one entry by which the value's list grew in this turn. Its lane is common or the seat's own,
    /// and not closed. The seat has then seen the value's list, and its own list of that lane has the entry last.
    pub fn publish(&self, seat: &mut Seat<T>, turn: &mut Turn<T>, entry: T::Entry)
        requires lock { seat.old.lock ≡ self.now.id }
        requires out { seat.old.out ≡ true }
        requires grown { T.entries turn.old ≡ seat.old.seen ++ entry ∷ [] }
        requires lane { MayAdd self.now seat.old (T.Entry.lane entry) }
        requires opened { IsOpen T.Entry.lane T.Entry.closes (T.Entry.lane entry) seat.old.seen }
        ensures seat { seat.new ≡ record seat.old { seen = seat.old.seen ++ entry ∷ [] } }
        ensures sees { seat.new.seen ≡ T.entries turn.new }
        ensures own { AddsOwn T.Entry.lane seat.old seat.new entry }
        ensures value { turn.new ≡ turn.old }
    {
        // A list whose length is a `u64` leaves room for the count of its last entry.
        let _length = turn.value.len();
        note::<T, Brand>(&self.table.shared, &mut seat.inner, &entry);
    }

    /// Ends the turn. Every new entry was published. It takes no memory.
    pub fn pass_on(&self, seat: &mut Seat<T>, turn: Turn<T>)
        requires lock { seat.old.lock ≡ self.now.id }
        requires out { seat.old.out ≡ true }
        requires published { T.entries turn ≡ seat.old.seen }
        ensures { seat.new ≡ record seat.old { out = false } }
    {
        let Turn { value } = turn;
        let words = &self.table.shared;
        put_back(words, &mut seat.inner, value);
        words.fetch_add::<Pass>(&mut seat.inner, SERVING, 1);
    }

    /// A new seat, which gets the least lane of this one, with that lane's own list, and has seen as much. It takes no
    /// memory.
    pub fn split(&self, seat: &mut Seat<T>) -> Seat<T>
        requires lock { seat.old.lock ≡ self.now.id }
        requires resting { seat.old.out ≡ false }
        requires two_lanes { 2 ≤ length seat.old.lanes }
        ensures seat { seat.new ≡ record seat.old { lanes = without (least seat.old.lanes) seat.old.lanes } }
        ensures given { (result.lock ≡ seat.old.lock) × (result.seen ≡ seat.old.seen)
            × (result.lanes ≡ least seat.old.lanes ∷ []) × (result.out ≡ false) }
    {
        let inner = self.table.shared.split_seat::<Lanes>(&mut seat.inner);
        Seat { inner }
    }

    /// Takes over the other seat's lanes, each with its own list, and the longer of the two seen lists, which both
    /// begin. It takes no memory.
    pub fn join(&self, seat: &mut Seat<T>, other: Seat<T>)
        requires lock { (seat.old.lock ≡ self.now.id) × (other.lock ≡ self.now.id) }
        requires resting { (seat.old.out ≡ false) × (other.out ≡ false) }
        ensures seat { seat.new ≡ record seat.old {
          seen = longer seat.old.seen other.seen;
          lanes = seat.old.lanes ++ other.lanes;
        } }
        ensures begins { IsPrefix seat.old.seen seat.new.seen × IsPrefix other.seen seat.new.seen }
        ensures own { KeepsOwn T.Entry.lane seat.old seat.new.seen × KeepsOwn T.Entry.lane other seat.new.seen }
    {
        let Seat { inner } = other;
        let words = &self.table.shared;
        words.join_seat::<Lanes>(&mut seat.inner, inner);
        words.load::<Hear>(&mut seat.inner, TICKET);
    }

    /// Hands back the value, whose list begins with all that the seat has seen. The seat owns every lane, so all other
    /// seats were joined. It takes no memory.
    pub fn close(self, seat: Seat<T>) -> T
        requires lock { seat.lock ≡ self.id }
        requires resting { seat.out ≡ false }
        requires all_lanes { OwnsAll self seat }
        ensures begins { IsPrefix seat.seen (T.entries result) }
        ensures own { KeepsOwn T.Entry.lane seat (T.entries result) }
        ensures ends { ClosesLast T.Entry.lane T.Entry.closes (T.entries result) }
    {
        let TurnLock { table } = self;
        let Seat { inner } = seat;
        let mut closed = table.close_with(inner);
        let slot = closed.take(VALUE);
        closed.free();
        match slot {
            Some(value) => value,
            None => unreachable!(),
        }
    }
}
