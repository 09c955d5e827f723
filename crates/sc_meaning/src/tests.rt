//! Each call once with ample memory.

use crate::event::SourceEvent;
use crate::history::SourceHistory;
use crate::outcome::{Cells, Ends, NodeCells, ObjectCells, Outcome, Streams};
use sc_base::{Bytes, End, Value};
use std::test::Fail;

#[test]
fn a_history_keeps_its_events(rt: HostRuntime) -> Result<(), Fail> {
    let events = [
        SourceEvent::Arrive {
            node: 0,
            request: 0,
            stores: false,
        },
        SourceEvent::Release { number: 1 },
    ];
    let history = SourceHistory::from_vec(Vec::from_slice(rt.alloc(), &events)?);
    assert_eq!(rt; history.as_slice(), events.as_slice());
    Ok(())
}

#[test]
fn an_outcome_is_read_by_node(rt: HostRuntime) -> Result<(), Fail> {
    let alloc = rt.alloc();
    let mut streams = Vec::new(alloc);
    streams.push(Bytes::from_vec(Vec::from_slice(alloc, b"7\n")?))?;
    let mut objects = Vec::new(alloc);
    let values = [Value::Int(7), Value::Null];
    objects.push(ObjectCells::from_vec(Vec::from_slice(alloc, &values)?))?;
    let mut nodes = Vec::new(alloc);
    nodes.push(NodeCells::from_vec(objects))?;
    let outcome = Outcome {
        ends: Ends::from_vec(Vec::from_slice(alloc, &[End::Cut])?),
        printed: Streams::from_vec(streams),
        memory: Cells::from_vec(nodes),
    };
    assert_eq!(rt; outcome.ends.as_slice(), [End::Cut].as_slice());
    assert_eq!(rt; outcome.printed.as_slice()[0].as_slice(), b"7\n".as_slice());
    assert_eq!(rt;
        outcome.memory.as_slice()[0].as_slice()[0].as_slice(),
        values.as_slice()
    );
    Ok(())
}
