//! Items put into their order, and the steps of a journal, by hand.

ghost use Rattle.std.specs.Prelude.{◌<◌};

use crate::arranged::arrange;
use crate::listed::list_items;
use crate::own::own_steps;
use crate::passed::releases;
use least_order::Edge;
use sc_base::{End, Place, Value};
use sc_isa::{Access, Entry, Track};
use sc_meaning::SourceEvent;
use std::test::Fail;

const PLACE: Place = Place {
    object: 0,
    node: 1,
    offset: 0,
};

#[test]
fn an_item_comes_as_soon_as_it_may(rt: HostRuntime) -> Result<(), Fail> {
    let sync = SourceEvent::Sync {
        node: 0,
        request: 1,
    };
    let issue = SourceEvent::Issue {
        node: 1,
        request: 0,
    };
    let effect = SourceEvent::Effect {
        node: 0,
        request: 0,
        cell: 0,
        wrote: true,
        place: PLACE,
        value: Value::Int(1),
    };
    let edges = [Edge {
        before: 2,
        after: 0,
    }];
    let history = arrange(rt.alloc(), &[sync, issue, effect], &edges)?.ok_or("a cycle")?;
    assert_eq!(rt; history.as_slice(), [issue, effect, sync].as_slice());
    Ok(())
}

#[test]
fn own_steps_of_two_nodes(rt: HostRuntime) -> Result<(), Fail> {
    let put = Access::Write {
        place: PLACE,
        value: Value::Int(1),
        track: Track::Counter(0),
    };
    let read = Access::Read {
        place: PLACE,
        track: Track::Counter(4),
    };
    let journal = [
        Entry::Issued {
            node: 0,
            number: 0,
            access: read,
        },
        Entry::Issued {
            node: 0,
            number: 1,
            access: put,
        },
        Entry::Waited {
            node: 0,
            counter: 4,
        },
        Entry::Arrived {
            node: 1,
            stores: true,
        },
        Entry::Waited {
            node: 0,
            counter: 0,
        },
        Entry::Finished {
            node: 0,
            end: End::Ended,
        },
    ];
    let first = own_steps(rt.alloc(), &journal, 0)?;
    let steps = [
        SourceEvent::Issue {
            node: 0,
            request: 1,
        },
        SourceEvent::Sync {
            node: 0,
            request: 2,
        },
        SourceEvent::End {
            node: 0,
            end: End::Ended,
        },
    ];
    assert_eq!(rt; first.as_slice(), steps.as_slice());
    let second = own_steps(rt.alloc(), &journal, 1)?;
    let arrival = SourceEvent::Arrive {
        node: 1,
        request: 0,
        stores: true,
    };
    assert_eq!(rt; second.as_slice(), [arrival].as_slice());
    Ok(())
}

#[test]
fn a_barrier_is_released_once(rt: HostRuntime) -> Result<(), Fail> {
    let journal = [
        Entry::Passed { node: 1 },
        Entry::Passed { node: 0 },
        Entry::Passed { node: 1 },
    ];
    assert_eq!(rt; releases(rt.alloc(), &journal, 2)?, 2);
    Ok(())
}

#[test]
fn items_by_node_then_releases_then_effects(rt: HostRuntime) -> Result<(), Fail> {
    let journal = [
        Entry::Arrived {
            node: 1,
            stores: false,
        },
        Entry::Arrived {
            node: 0,
            stores: false,
        },
        Entry::Passed { node: 0 },
    ];
    let effect = SourceEvent::Do {
        node: 0,
        request: 0,
        wrote: true,
        place: PLACE,
        value: Value::Null,
    };
    let items = list_items(rt.alloc(), &journal, 2, &[effect])?;
    let first = SourceEvent::Arrive {
        node: 0,
        request: 0,
        stores: false,
    };
    let second = SourceEvent::Arrive {
        node: 1,
        request: 0,
        stores: false,
    };
    let release = SourceEvent::Release { number: 1 };
    assert_eq!(rt;
        items.as_slice(),
        [first, second, release, effect].as_slice()
    );
    Ok(())
}
