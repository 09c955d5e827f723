//! Histories of small sources by hand: whole ones, and beginnings with events that the conditions refuse.

mod endings;
mod histories;
mod sources;

use histories::{
    COPIED, EXCHANGED, FORSAKEN, PRINTED, S0, S1, S2, S3, STORED_LATE, arrive, done, effect, issue,
    over, sync,
};
use history_replay::judge::Judge;
use history_replay::replay_core;
use sc_base::{End, OutOfMemory, Place, Value};
use sc_core::CoreProgram;
use sc_layout::Layout;
use sc_meaning::{Outcome, SourceEvent, SourceHistory};
use sources::{
    COPYING, EXCHANGE, FORSAKING, LATE_STORE, MEETING, MISFITTING, MISLANDING, PRINTING, Source,
    four_cells, program,
};
use std::alloc::Global;
use std::process::Abort;
use std::test::Fail;

const MEET: &[SourceEvent] = &[
    SourceEvent::Arrive {
        node: 0,
        request: 0,
        stores: false,
    },
    SourceEvent::Arrive {
        node: 1,
        request: 0,
        stores: false,
    },
    SourceEvent::End {
        node: 0,
        end: End::Waiting,
    },
];

/// How the list of events is judged for the source on two nodes, or on one.
fn judged(
    alloc: Global,
    source: &Source,
    two: bool,
    events: Vec<SourceEvent>,
) -> Result<Option<Outcome>, Fail> {
    let core = program(alloc, source)?;
    let layout = four_cells(alloc, two)?.ok_or("no layout")?;
    let history = SourceHistory::from_vec(events);
    Ok(replay_core(alloc, &core, &layout, 10, &history).map_err(|_| "memory")?)
}

/// What a history on two nodes shows: the nodes' ends and texts, and the cells of `s`.
#[derive(Clone, Copy)]
struct Shown<'a> {
    ends: [End; 2],
    texts: [&'a [u8]; 2],
    cells: [i64; 4],
}

/// The history is one of the source on two nodes, and shows this.
fn holds(
    rt: &impl Abort,
    alloc: Global,
    source: &Source,
    history: &[SourceEvent],
    shown: Shown<'_>,
) -> Result<(), Fail> {
    let Shown { ends, texts, cells } = shown;
    let events = Vec::from_slice(alloc, history)?;
    let told = judged(alloc, source, true, events)?.ok_or("no history")?;
    assert_eq!(rt; told.ends.as_slice(), ends.as_slice());
    for node in 0..2usize {
        let text = told.printed.as_slice().get(node).ok_or("no text")?;
        assert_eq!(rt; text.as_slice(), texts[node]);
        let objects = told.memory.as_slice().get(node).ok_or("no memory")?;
        let object = objects.as_slice().first().ok_or("no object")?;
        let values = [Value::Int(cells[node]), Value::Int(cells[node + 2])];
        assert_eq!(rt; object.as_slice(), values.as_slice());
    }
    Ok(())
}

/// Where the list of events leads, each of which is taken.
fn led<'a>(
    rt: &impl Abort,
    alloc: Global,
    core: &'a CoreProgram,
    layout: &'a Layout,
    history: &[SourceEvent],
) -> Result<Judge<'a>, Fail> {
    let mut judge = Judge::new(alloc, core, layout, 10).map_err(|_| "memory")?;
    for event in history {
        assert!(rt; judge.take(*event).map_err(|_| "memory")?, "{event:?}");
    }
    Ok(judge)
}

/// The source's nodes take each of the events but the last, which they refuse.
fn refuses(
    rt: &impl Abort,
    alloc: Global,
    source: &Source,
    history: &[SourceEvent],
    event: SourceEvent,
) -> Result<(), Fail> {
    let core = program(alloc, source)?;
    let layout = four_cells(alloc, true)?.ok_or("no layout")?;
    let mut judge = led(rt, alloc, &core, &layout, history)?;
    assert!(rt; !judge.take(event).map_err(|_| "memory")?, "{event:?}");
    Ok(())
}

/// The source's nodes take each of the events, after which the history is not over.
fn unfinished(
    rt: &impl Abort,
    alloc: Global,
    source: &Source,
    history: &[SourceEvent],
) -> Result<(), Fail> {
    let core = program(alloc, source)?;
    let layout = four_cells(alloc, true)?.ok_or("no layout")?;
    let judge = led(rt, alloc, &core, &layout, history)?;
    assert!(rt; !judge.is_complete(), "{history:?}");
    let events = Vec::from_slice(alloc, history)?;
    assert!(rt; judged(alloc, source, true, events)?.is_none());
    Ok(())
}

#[test]
fn whole_histories_are_accepted(rt: HostRuntime) -> Result<(), Fail> {
    let alloc = rt.alloc();
    let silent: [&[u8]; 2] = [b"", b""];
    let both = Shown {
        ends: [End::Ended, End::Ended],
        texts: silent,
        cells: [0, 0, 0, 0],
    };
    let exchanged = Shown {
        texts: [b"05", b""],
        cells: [4, 5, 7, 0],
        ..both
    };
    holds(&rt, alloc, &EXCHANGE, EXCHANGED, exchanged)?;
    let copied = Shown {
        cells: [3, 3, 3, 3],
        ..both
    };
    holds(&rt, alloc, &COPYING, COPIED, copied)?;
    let stored = Shown {
        cells: [0, 9, 0, 0],
        ..both
    };
    holds(&rt, alloc, &LATE_STORE, STORED_LATE, stored)?;
    let forsaken = Shown {
        ends: [End::Waiting, End::Ended],
        cells: [6, 0, 0, 0],
        ..both
    };
    holds(&rt, alloc, &FORSAKING, FORSAKEN, forsaken)
}

#[test]
fn three_events_on_one_node(rt: HostRuntime) -> Result<(), Fail> {
    let alloc = rt.alloc();
    let told = judged(alloc, &PRINTING, false, Vec::from_slice(alloc, PRINTED)?)?;
    let told = told.ok_or("no history")?;
    let text = told.printed.as_slice().first().ok_or("no text")?;
    assert_eq!(rt; text.as_slice(), b"7\n".as_slice());
    assert_eq!(rt; told.ends.as_slice(), [End::Ended].as_slice());
    let mut twice = Vec::from_slice(alloc, PRINTED)?;
    twice.push(over(0, End::Ended))?;
    assert!(rt; judged(alloc, &PRINTING, false, twice)?.is_none());
    let mut wrong = Vec::from_slice(alloc, &PRINTED[..1])?;
    wrong.push(done(0, 1, false, S0, Value::Int(0)))?;
    wrong.push(over(0, End::Ended))?;
    assert!(rt; judged(alloc, &PRINTING, false, wrong)?.is_none());
    let open = Vec::from_slice(alloc, &PRINTED[..2])?;
    assert!(rt; judged(alloc, &PRINTING, false, open)?.is_none());
    Ok(())
}

/// A beginning of the history of so many events, all of which are taken, and an event that is refused there.
type Row = (usize, SourceEvent);

/// So it is with each row, for the source.
fn refuses_each(
    rt: &impl Abort,
    alloc: Global,
    source: &Source,
    history: &[SourceEvent],
    rows: &[Row],
) -> Result<(), Fail> {
    for (taken, event) in rows {
        let before = history.get(..*taken).ok_or("no such beginning")?;
        refuses(rt, alloc, source, before, *event)?;
    }
    Ok(())
}

#[test]
fn requests_are_made_in_their_order(rt: HostRuntime) -> Result<(), Fail> {
    let alloc = rt.alloc();
    let rows = [
        (0, issue(2, 0)),
        (0, issue(0, 1)),
        (0, sync(0, 0)),
        (6, issue(0, 3)),
        (8, arrive(1, 1, false)),
        (9, arrive(0, 4, true)),
        (12, issue(0, 5)),
    ];
    refuses_each(&rt, alloc, &EXCHANGE, EXCHANGED, &rows)?;
    // a blocking copy is not over
    refuses(&rt, alloc, &COPYING, &COPIED[..6], issue(0, 2))?;
    // the barrier that the node met is not released
    refuses(&rt, alloc, &MEETING, &MEET[..2], arrive(0, 1, false))
}

#[test]
fn reads_and_writes_are_those_of_the_source(rt: HostRuntime) -> Result<(), Fail> {
    let alloc = rt.alloc();
    let rows = [
        (12, done(0, 5, false, S3, Value::Int(0))),
        (12, done(0, 5, false, S2, Value::Int(0))),
        (12, done(0, 5, true, S2, Value::Int(7))),
        (14, done(1, 2, true, S1, Value::Int(4))),
        (14, done(1, 2, true, S0, Value::Int(5))),
        (14, done(1, 2, false, S0, Value::Int(0))),
    ];
    refuses_each(&rt, alloc, &EXCHANGE, EXCHANGED, &rows)?;
    let stale = done(0, 1, false, S0, Value::Int(0));
    refuses(&rt, alloc, &PRINTING, &PRINTED[..1], stale)
}

#[test]
fn parts_occur_once_and_where_they_belong(rt: HostRuntime) -> Result<(), Fail> {
    let alloc = rt.alloc();
    let rows = [
        (0, effect(0, 0, 0, true, S1, Value::Int(5))),
        (0, effect(2, 0, 0, true, S1, Value::Int(5))),
        (3, effect(0, 0, 0, true, S2, Value::Int(5))),
        (3, effect(0, 0, 1, true, S3, Value::Int(5))),
        (3, effect(0, 0, 0, false, S1, Value::Int(0))),
        (3, effect(0, 1, 0, true, S3, Value::Int(0))),
        (3, effect(0, 1, 0, false, S3, Value::Int(1))),
        (3, effect(0, 0, 0, true, S1, Value::Int(6))),
        (4, effect(0, 0, 0, true, S1, Value::Int(5))),
    ];
    refuses_each(&rt, alloc, &EXCHANGE, EXCHANGED, &rows)?;
    // a copy writes a cell when it has read it, and what it read, has no third cell, and reads each once
    let third = Place { offset: 2, ..S0 };
    let rows = [
        (3, effect(0, 1, 2, false, third, Value::Int(0))),
        (5, effect(0, 1, 0, false, S0, Value::Int(3))),
        (5, effect(0, 1, 0, true, S3, Value::Int(3))),
        (3, effect(0, 1, 0, true, S1, Value::Int(0))),
        (3, effect(0, 1, 1, false, S0, Value::Int(3))),
        (5, effect(0, 1, 0, true, S1, Value::Int(0))),
    ];
    refuses_each(&rt, alloc, &COPYING, COPIED, &rows)
}

#[test]
fn syncs_and_releases_wait(rt: HostRuntime) -> Result<(), Fail> {
    let alloc = rt.alloc();
    let rows = [
        (5, sync(0, 3)),
        (10, SourceEvent::Release { number: 1 }),
        (11, SourceEvent::Release { number: 2 }),
        (12, SourceEvent::Release { number: 1 }),
    ];
    refuses_each(&rt, alloc, &EXCHANGE, EXCHANGED, &rows)?;
    let rows = [(9, sync(0, 3)), (14, SourceEvent::Release { number: 1 })];
    refuses_each(&rt, alloc, &COPYING, COPIED, &rows)?;
    // a put alone is open
    refuses(&rt, alloc, &MISLANDING, &[issue(0, 0)], sync(0, 1))?;
    // a node has not arrived, or has given up
    let rows = [
        (1, SourceEvent::Release { number: 1 }),
        (3, SourceEvent::Release { number: 1 }),
    ];
    refuses_each(&rt, alloc, &MEETING, MEET, &rows)
}

#[test]
fn nodes_end_once_and_as_they_do(rt: HostRuntime) -> Result<(), Fail> {
    let alloc = rt.alloc();
    let rows = [(13, over(0, End::Cut)), (14, over(0, End::Ended))];
    refuses_each(&rt, alloc, &EXCHANGE, EXCHANGED, &rows)?;
    let rows = [(1, over(2, End::Waiting)), (3, over(0, End::Waiting))];
    refuses_each(&rt, alloc, &MEETING, MEET, &rows)?;
    // before the release, and as waiting behind it
    let rows = [(2, over(0, End::Ended)), (4, over(0, End::Waiting))];
    refuses_each(&rt, alloc, &LATE_STORE, STORED_LATE, &rows)?;
    let rows = [(0, over(1, End::Ended)), (0, over(0, End::Waiting))];
    refuses_each(&rt, alloc, &FORSAKING, &[], &rows)?;
    refuses(&rt, alloc, &PRINTING, PRINTED, over(0, End::Ended))
}

#[test]
fn what_is_not_over_is_refused(rt: HostRuntime) -> Result<(), Fail> {
    let alloc = rt.alloc();
    unfinished(&rt, alloc, &EXCHANGE, &EXCHANGED[..15])?;
    unfinished(&rt, alloc, &COPYING, &COPIED[..17])?;
    // a store and a put whose parts have not occurred
    unfinished(&rt, alloc, &LATE_STORE, &STORED_LATE[..6])?;
    let put_is_out = [
        arrive(0, 0, false),
        issue(1, 0),
        over(1, End::Ended),
        over(0, End::Waiting),
    ];
    unfinished(&rt, alloc, &FORSAKING, &put_is_out)?;
    // two nodes that give up, though their barrier can be released
    let both_wait = [
        arrive(0, 0, false),
        arrive(1, 0, false),
        over(0, End::Waiting),
        over(1, End::Waiting),
    ];
    unfinished(&rt, alloc, &MEETING, &both_wait)
}

#[test]
fn a_value_that_does_not_fit_is_no_answer(rt: HostRuntime) -> Result<(), Fail> {
    let alloc = rt.alloc();
    let written = [done(0, 0, true, S0, Value::Null)];
    let read = done(0, 1, false, S0, Value::Null);
    refuses(&rt, alloc, &MISFITTING, &written, read)?;
    let gotten = [
        issue(0, 0),
        effect(0, 0, 0, true, S0, Value::Null),
        sync(0, 1),
        issue(0, 2),
        effect(0, 2, 0, false, S0, Value::Null),
    ];
    refuses(&rt, alloc, &MISLANDING, &gotten, sync(0, 3))
}

#[test]
fn any_event_may_be_asked(rt: HostRuntime) -> Result<(), Fail> {
    let alloc = rt.alloc();
    let far = Place {
        object: u32::MAX,
        node: u32::MAX,
        offset: u32::MAX,
    };
    let pointer = Value::Ptr {
        object: 9,
        node: 9,
        offset: 9,
    };
    let events = [
        done(u32::MAX, u64::MAX, false, far, pointer),
        done(0, u64::MAX, true, far, pointer),
        issue(u32::MAX, 0),
        issue(0, u64::MAX),
        effect(u32::MAX, 0, 0, true, far, pointer),
        effect(0, u64::MAX, u32::MAX, false, far, pointer),
        effect(0, 0, u32::MAX, true, far, pointer),
        sync(u32::MAX, 0),
        arrive(u32::MAX, 0, true),
        arrive(0, u64::MAX, true),
        SourceEvent::Release { number: 0 },
        SourceEvent::Release { number: u64::MAX },
        over(u32::MAX, End::Ended),
        over(u32::MAX, End::Waiting),
        over(0, End::Waiting),
    ];
    for event in events {
        refuses(&rt, alloc, &EXCHANGE, &EXCHANGED[..3], event)?;
    }
    Ok(())
}
