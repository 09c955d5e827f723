ghost use Rattle.std.specs.Prelude.{◌≡◌, ◌++◌, ◌∷◌, [], MatchBool, IfSome, OnOk, OnErr, true, false};
ghost use Rattle.turn_lock.specs.Seats.{MayAdd, Owns, OwnsAll, own_list};

use crate::{Book, Lane, Seat, Turn, TurnLock};
use std::alloc::{AllocError, Global};
use std::marker::Model;
use std::sync::Wait;
use std::sync::atomic::{AtomicU64, Ordering};
use std::test::Fail;
use std::thread;
use std::thread::{Threads, join};

#[derive(Clone, Copy, Debug, PartialEq, Eq)]
struct Pair {
    lane: u32,
    number: u64,
}

impl Lane for Pair {
    ghost use Rattle.std.specs.Prelude.{false};

    ghost lane = { λ p. p.lane };

    ghost closes = { λ p. false };

    fn lane(&self) -> u32 {
        self.lane
    }

    fn closes(&self) -> bool {
        false
    }
}

#[derive(Drop)]
struct Pairs {
    items: Vec<Pair>,
}

impl Model for Pairs {
    ghost use Rattle.std.specs.Prelude.{List};
    ghost use Rattle.turn_lock.specs.declared.tests.Pair.{Pair};

    ghost Value = { List Pair };

    ghost view = { λ p. p.items.items };
}

impl Book for Pairs {
    type Entry = Pair;

    ghost entries = { λ p. p };

    fn len(&self) -> u64 {
        self.items.len() as u64
    }
}

impl Pairs {
    fn new(alloc: Global) -> Pairs
        ensures { result ≡ [] }
    {
        Pairs {
            items: Vec::new(alloc),
        }
    }

    fn push(&mut self, pair: Pair) -> Result<(), AllocError>
        ensures ok { OnOk result (self.new ≡ self.old ++ pair ∷ []) }
        ensures err { OnErr result (self.new ≡ self.old) }
    {
        self.items.reserve(1)?;
        self.items.push_reserved(pair);
        Ok(())
    }
}

// Adds a pair in a turn of its own, or says that there was no memory.
fn add<R: Wait>(rt: &R, lock: &TurnLock<Pairs>, seat: &mut Seat<Pairs>, pair: Pair) -> bool
    requires lock { seat.old.lock ≡ lock.now.id }
    requires resting { seat.old.out ≡ false }
    requires may { MayAdd lock.now seat.old pair.lane }
    ensures seat { (seat.new.lock ≡ seat.old.lock) × (seat.new.lanes ≡ seat.old.lanes) × (seat.new.out ≡ false) }
    ensures lane { let old = own_list (λ p. p.lane) seat.old pair.lane in
        let new = own_list (λ p. p.lane) seat.new pair.lane in
        Owns seat.old pair.lane → MatchBool result (new ≡ old ++ pair ∷ []) (new ≡ old) }
{
    let mut turn = lock.turn(rt, seat);
    let added = turn.value_mut().push(pair).is_ok();
    if added {
        lock.publish(seat, &mut turn, pair);
    }
    lock.pass_on(seat, turn);
    added
}

// What a thread calls before and after each of its turns, outside the lock.
trait Gate {
    fn at(&self, lane: u32, event: u64);

    fn after(&self);
}

// Holds nobody.
struct Open;

impl Gate for Open {
    fn at(&self, lane: u32, event: u64) {}

    fn after(&self) {}
}

// Lets the lanes 0 and 1 through by turns. Whoever waits too long is let through too, and leaves a mark.
#[derive(Drop)]
struct ByTurns {
    done: AtomicU64,
    late: AtomicU64,
}

impl Gate for ByTurns {
    fn at(&self, lane: u32, event: u64) {
        let before = event.wrapping_mul(2).wrapping_add(u64::from(lane));
        for _ in 0..10_000_000 {
            if self.done.load(Ordering::SeqCst) == before {
                return;
            }
            thread::yield_now();
        }
        self.late.store(1, Ordering::SeqCst);
    }

    fn after(&self) {
        self.done.fetch_add(1, Ordering::SeqCst);
    }
}

// Adds the pairs of a lane with the numbers below `count`, each through the gate, or stops where there is no memory.
fn fill_lane<G: Gate, R: Wait>(
    rt: &R,
    gate: &G,
    lock: &TurnLock<Pairs>,
    mut seat: Seat<Pairs>,
    lane: u32,
    count: u64,
) -> (Seat<Pairs>, bool)
    requires lock { seat.lock ≡ lock.now.id }
    requires resting { seat.out ≡ false }
    requires own { seat.lanes ≡ lane ∷ [] }
    ensures { (result.0.lock ≡ seat.lock) × (result.0.out ≡ false) × (result.0.lanes ≡ seat.lanes) }
{
    let mut all = true;
    for number in 0..count {
        gate.at(lane, number);
        all = all && add(rt, lock, &mut seat, Pair { lane, number });
        gate.after();
    }
    (seat, all)
}

// Two threads fill a lane each.
fn two_threads<G: Gate + Sync, R: Threads + Wait + Sync>(
    rt: &R,
    alloc: Global,
    gate: &G,
    count: u64,
) -> Option<Pairs> {
    let (lock, mut first) = TurnLock::new(alloc, Pairs::new(alloc), 2).ok()?;
    let second = lock.split(&mut first);
    let shared = &lock;
    let ((mut first, a), (second, b)) = join(
        rt,
        || fill_lane(rt, gate, shared, first, 1, count),
        || fill_lane(rt, gate, shared, second, 0, count),
    );
    lock.join(&mut first, second);
    let book = lock.close(first);
    if a && b { Some(book) } else { None }
}

// The first seat splits, and the new seat gets lane 0. It adds (0, 5), and then the first adds (1, 6) in its own lane
// and (7, 9) in a common one, each in a turn of its own.
fn filled(rt: &impl Wait, alloc: Global) -> Option<(TurnLock<Pairs>, Seat<Pairs>)>
    ensures seat { IfSome result (λ r. (r.1.lock ≡ r.0.id) × (r.1.out ≡ false) × OwnsAll r.0 r.1) }
    ensures lane { IfSome result (λ r. own_list (λ p. p.lane) r.1 0 ≡ record { lane = 0; number = 5 } ∷ []) }
{
    let (lock, mut first) = TurnLock::new(alloc, Pairs::new(alloc), 2).ok()?;
    let mut second = lock.split(&mut first);
    if !add(rt, &lock, &mut second, Pair { lane: 0, number: 5 }) {
        return None;
    }
    if !add(rt, &lock, &mut first, Pair { lane: 1, number: 6 }) {
        return None;
    }
    if !add(rt, &lock, &mut first, Pair { lane: 7, number: 9 }) {
        return None;
    }
    lock.join(&mut first, second);
    Some((lock, first))
}

#[test]
fn the_closed_list_has_each_entry_in_the_order_of_the_turns(rt: HostRuntime) -> Result<(), Fail> {
    let (lock, seat) = filled(&rt, rt.alloc()).ok_or("memory")?;
    let book = lock.close(seat);
    let wanted = [(0, 5), (1, 6), (7, 9)].map(|(lane, number)| Pair { lane, number });
    assert_eq!(rt; book.items.as_slice(), wanted.as_slice());
    Ok(())
}

#[test]
fn a_turn_hands_out_what_was_published_and_not_the_opening_value(
    rt: HostRuntime,
) -> Result<(), Fail> {
    let (lock, mut seat) = filled(&rt, rt.alloc()).ok_or("memory")?;
    let turn = lock.turn(&rt, &mut seat);
    let handed_out = turn.value().items.len();
    lock.pass_on(&mut seat, turn);
    assert_eq!(rt; handed_out, 3);
    Ok(())
}

#[test]
fn two_threads_fill_a_lane_each_in_order(rt: HostRuntime) -> Result<(), Fail> {
    let book = two_threads(&rt, rt.alloc(), &Open, 1000).ok_or("memory")?;
    assert_eq!(rt; book.items.len(), 2000);
    for lane in 0..2 {
        let mut next = 0;
        for pair in book.items.iter().filter(|pair| pair.lane == lane) {
            assert_eq!(rt; pair.number, next);
            next = pair.number.wrapping_add(1);
        }
        assert_eq!(rt; next, 1000);
    }
    Ok(())
}

#[test]
fn threads_take_turns_as_a_gate_lets_them(rt: HostRuntime) -> Result<(), Fail> {
    let gate = ByTurns {
        done: AtomicU64::new(0),
        late: AtomicU64::new(0),
    };
    let book = two_threads(&rt, rt.alloc(), &gate, 100).ok_or("memory")?;
    assert_eq!(rt; gate.late.load(Ordering::SeqCst), 0);
    assert_eq!(rt; book.items.len(), 200);
    let mut number = 0;
    for pairs in book.items.chunks(2) {
        assert_eq!(rt;
            pairs,
            [Pair { lane: 0, number }, Pair { lane: 1, number }].as_slice()
        );
        number = number.wrapping_add(1);
    }
    Ok(())
}

fn crosses<T: Send>() {}

fn is_shared<T: Sync>() {}

// Over any book that may be sent, a lock is shared, and seats and turns cross threads.
fn what_crosses<T: Book + Send>() {
    crosses::<TurnLock<T>>();
    is_shared::<TurnLock<T>>();
    crosses::<Seat<T>>();
    crosses::<Turn<T>>();
}

#[test]
fn locks_seats_and_turns_cross_threads(_rt: HostRuntime) -> Result<(), Fail> {
    what_crosses::<Pairs>();
    Ok(())
}
