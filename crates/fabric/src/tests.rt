//! Runs by hand: which messages fly, what deliveries in another order bring, and when a barrier is passed.

ghost use Rattle.std.specs.Prelude.{◌≡◌, ◌<◌, ℕ, IsTrue, IfOk, slice_get, replicate, true};
ghost use Rattle.effect_order.specs.Transfer.{further};
ghost use Rattle.sc_layout.specs.Bound.{IsWhole};
ghost use Rattle.sc_layout.specs.Layout.{IsLawful};
ghost use Rattle.sc_layout.specs.Place.{IsPlace};
ghost use Rattle.fabric.specs.State.{IsAccess, IsTrack};

use crate::{Fabric, Passed, Waited};
use msg_pool::MsgId;
use sc_base::{
    Bound, BoundStep, BoundSteps, Bounds, End, OutOfMemory, Place, Shape, Stars, Ty, Value,
};
use sc_isa::{Access, Entry, Landed, NodeResults, Track};
use sc_layout::{Layout, layout};
use std::alloc::{AllocError, Global};
use std::marker::Model;
use std::test::Fail;
use sync_book::Gap;

/// A step of a run: of a node, or the delivery of the pending message with that number.
#[derive(Clone, Copy, Debug, PartialEq, Eq)]
enum Move {
    Issue(u32, Access),
    Deliver(u64),
    Wait(u32, u32),
    Arrive(u32, bool),
    Pass(u32),
    Finish(u32),
}

/// What a step is answered: how many messages it made, the value that was delivered, the first and the last value that
/// landed, or what was outstanding. A step that no node may take is refused.
#[derive(Clone, Copy, Debug, PartialEq, Eq)]
enum Answer {
    Sent(u32),
    Brought(Value),
    Landed(Option<Value>, Option<Value>),
    Outstanding(u64),
    Done,
    Passed(Passed),
    Refused,
}

/// What is seen of a fabric: how many entries it has, its messages in flight, and what is missing for a release.
#[derive(Clone, Copy, Debug, PartialEq, Eq)]
struct Seen {
    entries: u64,
    pending: u64,
    first: Option<MsgId>,
    second: Option<MsgId>,
    gap: Gap,
}

/// A fabric with what is known of its nodes: which run, and which stand at no barrier.
#[derive(Drop)]
struct Board {
    fabric: Fabric,
    layout: Layout,
    sites: u32,
    running: Vec<bool>,
    away: Vec<bool>,
}

impl Model for Board {
    ghost use Rattle.fabric.specs.State as state;
    ghost use Rattle.fabric.specs.Known.{Knows};

    ghost Value = { state.State };

    ghost view = { λ b. b.fabric };

    ghost invariant = { λ b. Knows b.fabric b.running.items b.away.items b.layout b.sites };
}

fn flag(flags: &[bool], node: u32) -> Option<bool>
    ensures { result ≡ slice_get flags.now node }
{
    flags.get(node as usize).copied()
}

fn all_set(alloc: Global, count: u32) -> Result<Vec<bool>, OutOfMemory>
    ensures { IfOk result (λ flags. flags.items ≡ replicate count true) }
{
    let Ok(flags) = vec![in alloc; true; count as usize] else {
        return Err(OutOfMemory);
    };
    Ok(flags)
}

fn is_place(layout: &Layout, place: Place) -> bool
    ensures { IsTrue result → IsPlace layout.now place }
{
    place.object < layout.count()
        && place.node < layout.nodes()
        && place.offset < layout.extent(place.node, place.object)
}

/// So many cells from the place on are the layout's.
fn is_row(layout: &Layout, place: Place, cells: u32) -> bool
    ensures { IsTrue result → (cell : ℕ) → cell < cells → IsPlace layout.now (further cell place) }
{
    is_place(layout, place)
        && u64::from(place.offset) + u64::from(cells)
            <= u64::from(layout.extent(place.node, place.object))
}

fn is_track(track: Track, sites: u32) -> bool
    ensures { IsTrue result → IsTrack sites track }
{
    match track {
        Track::Counter(counter) => counter <= sites,
        Track::Store => true,
        Track::Covered => true,
    }
}

/// The access may be issued; a copy only inside one object.
fn is_access(layout: &Layout, sites: u32, access: Access) -> bool
    ensures { IsTrue result → IsAccess layout.now sites access }
{
    match access {
        Access::Read { place, track } => is_track(track, sites) && is_place(layout, place),
        Access::Write {
            place,
            value,
            track,
        } => is_track(track, sites) && is_place(layout, place) && layout.fits(place, value),
        Access::Copy {
            from,
            to,
            cells,
            track,
        } => {
            is_track(track, sites)
                && from.object == to.object
                && 0 < cells
                && cells <= 65536
                && is_row(layout, from, cells)
                && is_row(layout, to, cells)
        }
    }
}

impl Board {
    fn new(alloc: Global, layout: Layout, sites: u32) -> Result<Board, OutOfMemory> {
        let fabric = Fabric::new(alloc, &layout, sites)?;
        let running = all_set(alloc, layout.nodes())?;
        let away = all_set(alloc, layout.nodes())?;
        Ok(Board {
            fabric,
            layout,
            sites,
            running,
            away,
        })
    }

    fn seen(&self) -> Seen {
        let pool = self.fabric.pool();
        Seen {
            entries: self.fabric.entries(),
            pending: pool.count(),
            first: pool.nth(0),
            second: pool.nth(1),
            gap: self.fabric.book().gap(),
        }
    }

    /// Makes room. A refused call leaves what is seen as it was, and can be made again.
    fn make_room(&mut self, count: u32) -> bool {
        let before = self.seen();
        let Err(OutOfMemory) = self.fabric.reserve(count) else {
            return true;
        };
        self.seen() == before && self.fabric.reserve(count).is_ok()
    }

    fn issue(&mut self, node: u32, access: Access) -> Answer {
        let Some(true) = flag(self.running.as_slice(), node) else {
            return Answer::Refused;
        };
        let Some(true) = flag(self.away.as_slice(), node) else {
            return Answer::Refused;
        };
        if !is_access(&self.layout, self.sites, access) {
            return Answer::Refused;
        }
        let Ok(()) = self.fabric.reserve(Fabric::need(&access)) else {
            return Answer::Refused;
        };
        let issued = self.fabric.issue(node, access);
        Answer::Sent(issued.messages)
    }

    fn deliver(&mut self, number: u64) -> Answer {
        let Some(id) = self.fabric.pool().nth(number) else {
            return Answer::Refused;
        };
        let delivered = self.fabric.deliver(id);
        Answer::Brought(delivered.value)
    }

    fn wait(&mut self, alloc: Global, node: u32, counter: u32) -> Answer {
        let Some(true) = flag(self.running.as_slice(), node) else {
            return Answer::Refused;
        };
        let Some(true) = flag(self.away.as_slice(), node) else {
            return Answer::Refused;
        };
        if counter > self.sites {
            return Answer::Refused;
        }
        let Ok(()) = self.fabric.reserve(1) else {
            return Answer::Refused;
        };
        let mut into = Landed::new(alloc);
        let Ok(()) = into.reserve(self.fabric.landing(node, counter)) else {
            return Answer::Refused;
        };
        match self.fabric.try_wait(node, counter, &mut into) {
            Waited::NotYet { outstanding } => Answer::Outstanding(outstanding),
            Waited::Landed => {
                Answer::Landed(
                    into.values().first().copied(),
                    into.values().last().copied(),
                )
            }
        }
    }

    fn arrive(&mut self, node: u32, stores: bool) -> Answer {
        let Some(true) = flag(self.running.as_slice(), node) else {
            return Answer::Refused;
        };
        let Some(true) = flag(self.away.as_slice(), node) else {
            return Answer::Refused;
        };
        let Ok(()) = self.fabric.reserve(1) else {
            return Answer::Refused;
        };
        self.fabric.arrive(node, stores);
        self.away[node as usize] = false;
        Answer::Done
    }

    fn pass(&mut self, node: u32) -> Answer {
        let Some(true) = flag(self.running.as_slice(), node) else {
            return Answer::Refused;
        };
        let Some(false) = flag(self.away.as_slice(), node) else {
            return Answer::Refused;
        };
        let Ok(()) = self.fabric.reserve(1) else {
            return Answer::Refused;
        };
        // Read for the proof alone, which learns that the fabric is that of its journal.
        let _entries = self.fabric.entries();
        match self.fabric.try_pass(node) {
            Passed::Yes => {
                self.away[node as usize] = true;
                Answer::Passed(Passed::Yes)
            }
            other => Answer::Passed(other),
        }
    }

    fn finish(&mut self, node: u32) -> Answer {
        let Some(true) = flag(self.running.as_slice(), node) else {
            return Answer::Refused;
        };
        let Some(true) = flag(self.away.as_slice(), node) else {
            return Answer::Refused;
        };
        let Ok(()) = self.fabric.reserve(1) else {
            return Answer::Refused;
        };
        self.fabric.finish(node, End::Ended);
        self.running[node as usize] = false;
        Answer::Done
    }

    fn play(&mut self, alloc: Global, step: Move) -> Answer {
        match step {
            Move::Issue(node, access) => self.issue(node, access),
            Move::Deliver(number) => self.deliver(number),
            Move::Wait(node, counter) => self.wait(alloc, node, counter),
            Move::Arrive(node, stores) => self.arrive(node, stores),
            Move::Pass(node) => self.pass(node),
            Move::Finish(node) => self.finish(node),
        }
    }
}

/// An array of four ints on each node.
fn four_cells(alloc: Global) -> Result<Shape, AllocError>
    ensures { IfOk result IsLawful }
{
    let mut bounds = Vec::new(alloc);
    bounds.push(four(alloc)?)?;
    Ok(Shape {
        name: 0,
        ty: Ty {
            void: false,
            stars: Stars::from_vec(Vec::new(alloc)),
        },
        spread: false,
        left: Bounds::from_vec(bounds),
        right: Bounds::from_vec(Vec::new(alloc)),
        at: 1,
        line: 1,
    })
}

fn four(alloc: Global) -> Result<Bound, AllocError>
    ensures { IfOk result (λ b. IsWhole b.steps) }
{
    let mut steps = Vec::new(alloc);
    steps.push(BoundStep::Number(4))?;
    Ok(Bound {
        steps: BoundSteps::from_vec(steps),
        line: 1,
    })
}

/// A board of so many nodes, each with four cells, and with the counters 0 and 1.
fn make_board(alloc: Global, nodes: u32) -> Result<Option<Board>, Fail>
    requires { 0 < nodes }
{
    let mut shapes = Vec::new(alloc);
    shapes.push(four_cells(alloc)?)?;
    let Ok(layout) = layout(alloc, shapes.as_slice(), nodes) else {
        return Ok(None);
    };
    Ok(Some(Board::new(alloc, layout, 1)?))
}

fn cell(node: u32, offset: u32) -> Place {
    Place {
        object: 0,
        node,
        offset,
    }
}

fn read(node: u32, offset: u32, track: Track) -> Access {
    Access::Read {
        place: cell(node, offset),
        track,
    }
}

fn write(node: u32, offset: u32, value: i64, track: Track) -> Access {
    Access::Write {
        place: cell(node, offset),
        value: Value::Int(value),
        track,
    }
}

fn copy(from: Place, to: Place, cells: u32) -> Access {
    Access::Copy {
        from,
        to,
        cells,
        track: Track::Counter(1),
    }
}

fn brought(value: i64) -> Answer {
    Answer::Brought(Value::Int(value))
}

fn landed(first: i64, last: i64) -> Answer {
    Answer::Landed(Some(Value::Int(first)), Some(Value::Int(last)))
}

const ON_0: Track = Track::Counter(0);

#[test]
fn a_read_lands_after_its_delivery(rt: HostRuntime) -> Result<(), Fail> {
    let Some(mut board) = make_board(rt.alloc(), 2)? else {
        panic!(rt; "no layout");
    };
    let steps = [
        (Move::Issue(0, read(1, 0, ON_0)), Answer::Sent(1)),
        (Move::Wait(0, 0), Answer::Outstanding(1)),
        (Move::Deliver(0), brought(0)),
    ];
    for (step, answer) in steps {
        assert!(rt; board.play(rt.alloc(), step) == answer, "at {step:?}");
        assert_eq!(rt; board.fabric.landing(0, 0), 1);
    }
    assert_eq!(rt; board.play(rt.alloc(), Move::Wait(0, 0)), landed(0, 0));
    assert_eq!(rt; board.fabric.landing(0, 0), 0);
    let run = board
        .fabric
        .into_run(NodeResults::from_vec(Vec::new(rt.alloc())));
    let last = Entry::Waited {
        node: 0,
        counter: 0,
    };
    assert!(rt; run.journal.as_slice().last() == Some(&last));
    assert_eq!(rt; run.journal.as_slice().len(), 3);
    Ok(())
}

#[test]
fn a_copy_moves_its_cells_wherever_they_lie(rt: HostRuntime) -> Result<(), Fail> {
    let Some(mut board) = make_board(rt.alloc(), 3)? else {
        panic!(rt; "no layout");
    };
    let steps = [
        (Move::Issue(0, write(0, 0, 1, ON_0)), Answer::Sent(0)),
        (Move::Issue(0, write(0, 1, 2, ON_0)), Answer::Sent(0)),
        // Both ends elsewhere: two reads, and their writes in the order in which the reads were delivered.
        (
            Move::Issue(1, copy(cell(0, 0), cell(2, 0), 2)),
            Answer::Sent(2),
        ),
        (Move::Deliver(1), brought(2)),
        (Move::Deliver(0), brought(1)),
        (Move::Wait(1, 1), Answer::Outstanding(2)),
        (Move::Deliver(1), brought(1)),
        (Move::Deliver(0), brought(2)),
        (Move::Wait(1, 1), Answer::Landed(None, None)),
        // From the node itself: read with the issue, so the write after it does not count.
        (
            Move::Issue(0, copy(cell(0, 0), cell(1, 0), 1)),
            Answer::Sent(1),
        ),
        (Move::Issue(0, write(0, 0, 9, ON_0)), Answer::Sent(0)),
        (Move::Deliver(0), brought(1)),
        // To the node itself: read at the delivery, so the write before it counts.
        (
            Move::Issue(2, copy(cell(0, 0), cell(2, 2), 1)),
            Answer::Sent(1),
        ),
        (Move::Issue(0, write(0, 0, 8, ON_0)), Answer::Sent(0)),
        (Move::Deliver(0), brought(8)),
        (Move::Issue(0, write(0, 0, 7, ON_0)), Answer::Sent(0)),
        (Move::Deliver(0), brought(8)),
        // Onto itself, on the node: each cell's write follows its read, so the first value goes on.
        (
            Move::Issue(0, copy(cell(0, 0), cell(0, 1), 3)),
            Answer::Sent(0),
        ),
        (Move::Deliver(0), Answer::Refused),
        // What the cells hold then.
        (Move::Issue(1, read(2, 0, ON_0)), Answer::Sent(1)),
        (Move::Issue(1, read(2, 1, ON_0)), Answer::Sent(1)),
        (Move::Issue(1, read(1, 0, ON_0)), Answer::Sent(0)),
        (Move::Issue(1, read(2, 2, ON_0)), Answer::Sent(1)),
        (Move::Issue(1, read(0, 3, ON_0)), Answer::Sent(1)),
        (Move::Deliver(3), brought(7)),
        (Move::Deliver(2), brought(8)),
        (Move::Deliver(1), brought(2)),
        (Move::Wait(1, 0), Answer::Outstanding(1)),
        (Move::Deliver(0), brought(1)),
        (Move::Wait(1, 0), landed(1, 7)),
        (Move::Wait(1, 0), Answer::Landed(None, None)),
    ];
    for (step, answer) in steps {
        assert!(rt; board.play(rt.alloc(), step) == answer, "at {step:?}");
    }
    Ok(())
}

#[test]
fn a_barrier_is_passed_when_all_stand_there(rt: HostRuntime) -> Result<(), Fail> {
    let Some(mut board) = make_board(rt.alloc(), 2)? else {
        panic!(rt; "no layout");
    };
    let yes = Answer::Passed(Passed::Yes);
    let flying = |missing, flying| Answer::Passed(Passed::NotYet { missing, flying });
    let steps = [
        // A store that no arrival waits for.
        (
            Move::Issue(0, write(1, 0, 5, Track::Store)),
            Answer::Sent(1),
        ),
        (Move::Arrive(0, false), Answer::Done),
        (Move::Pass(0), flying(1, 0)),
        (Move::Issue(0, write(0, 0, 5, ON_0)), Answer::Refused),
        (Move::Arrive(1, false), Answer::Done),
        (Move::Pass(1), yes),
        // The other one is released, and passes while the first stands at the next barrier.
        (Move::Arrive(1, true), Answer::Done),
        (Move::Pass(1), flying(1, 1)),
        (Move::Pass(0), yes),
        // One arrival waits for stores.
        (Move::Arrive(0, false), Answer::Done),
        (Move::Pass(0), flying(0, 1)),
        (Move::Deliver(0), brought(5)),
        (Move::Pass(0), yes),
        (Move::Pass(1), yes),
        // Covered cells are waited for by each barrier.
        (
            Move::Issue(1, write(0, 0, 6, Track::Covered)),
            Answer::Sent(1),
        ),
        (Move::Arrive(0, false), Answer::Done),
        (Move::Arrive(1, false), Answer::Done),
        (Move::Pass(1), flying(0, 1)),
        (Move::Deliver(0), brought(6)),
        (Move::Pass(1), yes),
        (Move::Pass(0), yes),
        // A barrier that a finished node does not reach is broken.
        (Move::Arrive(0, false), Answer::Done),
        (Move::Pass(0), flying(1, 0)),
        (Move::Finish(1), Answer::Done),
        (Move::Pass(0), Answer::Passed(Passed::Broken { ended: 1 })),
        (Move::Issue(1, write(1, 0, 5, ON_0)), Answer::Refused),
    ];
    for (step, answer) in steps {
        assert!(rt; board.play(rt.alloc(), step) == answer, "at {step:?}");
    }
    Ok(())
}

#[test]
fn sixteen_nodes_write_around_a_ring(rt: HostRuntime) -> Result<(), Fail> {
    let Some(mut board) = make_board(rt.alloc(), 16)? else {
        panic!(rt; "no layout");
    };
    for node in 0..16u32 {
        let access = write((node + 1) % 16, 0, i64::from(node), Track::Store);
        assert_eq!(rt;
            board.play(rt.alloc(), Move::Issue(node, access)),
            Answer::Sent(1)
        );
        assert_eq!(rt;
            board.play(rt.alloc(), Move::Arrive(node, true)),
            Answer::Done
        );
    }
    for node in 0..16u32 {
        let last = u64::from(15 - node);
        let missing = Answer::Passed(Passed::NotYet {
            missing: 0,
            flying: last + 1,
        });
        assert_eq!(rt; board.play(rt.alloc(), Move::Pass(node)), missing);
        assert_eq!(rt;
            board.play(rt.alloc(), Move::Deliver(last)),
            brought(last as i64)
        );
    }
    for node in 0..16u32 {
        let access = read(node, 0, ON_0);
        let before = i64::from((node + 15) % 16);
        assert_eq!(rt;
            board.play(rt.alloc(), Move::Pass(node)),
            Answer::Passed(Passed::Yes)
        );
        assert_eq!(rt;
            board.play(rt.alloc(), Move::Issue(node, access)),
            Answer::Sent(0)
        );
        assert_eq!(rt;
            board.play(rt.alloc(), Move::Wait(node, 0)),
            landed(before, before)
        );
    }
    Ok(())
}

/// Each table grows each time. Where a growth is refused, the call is made again.
#[test]
fn a_refused_reserve_changes_nothing(rt: HostRuntime) -> Result<(), Fail> {
    let Some(mut board) = make_board(rt.alloc(), 2)? else {
        panic!(rt; "no layout");
    };
    for (room, value) in [(6u32, 1), (60, 2), (600, 3)] {
        let issues = [write(1, 0, value, ON_0), read(1, 0, ON_0)];
        assert!(rt; board.make_room(room), "room for {room}");
        for access in issues {
            assert_eq!(rt;
                board.play(rt.alloc(), Move::Issue(0, access)),
                Answer::Sent(1)
            );
        }
    }
    for value in [1, 1, 2, 2, 3, 3] {
        assert_eq!(rt; board.play(rt.alloc(), Move::Deliver(0)), brought(value));
    }
    Ok(())
}
