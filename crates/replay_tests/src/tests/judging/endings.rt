//! Histories that end by a fault or a cut, with a split copy in flight, or behind two syncs.

use super::histories::{S0, S1, S2, S3, done, effect, issue, over, sync};
use super::sources::{COPYING_AT_THE_END, FAULTING, SYNCING_TWICE, TURNING};
use super::{Shown, holds, refuses, unfinished};
use sc_base::{End, FaultKind, Value};
use std::test::Fail;

const ENDED: Shown<'static> = Shown {
    ends: [End::Ended, End::Ended],
    texts: [b"", b""],
    cells: [0, 0, 0, 0],
};

#[test]
fn a_fault_ends_its_node_alone(rt: HostRuntime) -> Result<(), Fail> {
    let alloc = rt.alloc();
    let fault = |line| End::Fault {
        kind: FaultKind::Index,
        line,
    };
    let history = [
        done(0, 0, true, S0, Value::Int(7)),
        over(0, fault(1)),
        issue(1, 0),
        over(1, End::Ended),
        effect(1, 0, 0, true, S2, Value::Int(3)),
    ];
    let shown = Shown {
        ends: [fault(1), End::Ended],
        cells: [7, 0, 3, 0],
        ..ENDED
    };
    holds(&rt, alloc, &FAULTING, &history, shown)?;
    refuses(&rt, alloc, &FAULTING, &history[..1], over(0, End::Ended))?;
    refuses(&rt, alloc, &FAULTING, &history[..1], over(0, fault(2)))?;
    let goes_on = done(0, 1, true, S0, Value::Int(8));
    refuses(&rt, alloc, &FAULTING, &history[..2], goes_on)
}

#[test]
fn a_node_is_cut_in_its_turns(rt: HostRuntime) -> Result<(), Fail> {
    let alloc = rt.alloc();
    let history = [
        done(0, 0, true, S0, Value::Int(7)),
        over(0, End::Cut),
        done(1, 0, false, S0, Value::Int(7)),
        over(1, End::Ended),
    ];
    let shown = Shown {
        ends: [End::Cut, End::Ended],
        cells: [7, 0, 0, 0],
        ..ENDED
    };
    holds(&rt, alloc, &TURNING, &history, shown)?;
    refuses(&rt, alloc, &TURNING, &[], over(0, End::Cut))?;
    refuses(&rt, alloc, &TURNING, &history[..1], over(0, End::Ended))
}

#[test]
fn each_sync_lands_what_was_got_since_the_last(rt: HostRuntime) -> Result<(), Fail> {
    let alloc = rt.alloc();
    let history = [
        issue(0, 0),
        issue(0, 1),
        effect(0, 1, 0, false, S3, Value::Int(0)),
        effect(0, 0, 0, true, S1, Value::Int(5)),
        sync(0, 2),
        issue(0, 3),
        effect(0, 3, 0, false, S1, Value::Int(5)),
        sync(0, 4),
        over(0, End::Ended),
        over(1, End::Ended),
    ];
    let shown = Shown {
        texts: [b"05", b""],
        cells: [0, 5, 0, 0],
        ..ENDED
    };
    holds(&rt, alloc, &SYNCING_TWICE, &history, shown)?;
    refuses(&rt, alloc, &SYNCING_TWICE, &history[..3], sync(0, 2))?;
    refuses(&rt, alloc, &SYNCING_TWICE, &history[..6], sync(0, 4))
}

#[test]
fn a_split_copy_is_over_before_the_history_is(rt: HostRuntime) -> Result<(), Fail> {
    let alloc = rt.alloc();
    let history = [
        done(0, 0, true, S0, Value::Int(3)),
        issue(0, 1),
        effect(0, 1, 0, false, S0, Value::Int(3)),
        effect(0, 1, 1, false, S2, Value::Int(0)),
        effect(0, 1, 0, true, S1, Value::Int(3)),
        over(0, End::Ended),
        over(1, End::Ended),
        effect(0, 1, 1, true, S3, Value::Int(0)),
    ];
    let shown = Shown {
        cells: [3, 3, 0, 0],
        ..ENDED
    };
    holds(&rt, alloc, &COPYING_AT_THE_END, &history, shown)?;
    unfinished(&rt, alloc, &COPYING_AT_THE_END, &history[..7])
}
