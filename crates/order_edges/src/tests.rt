//! Edges by hand.

use crate::joined::edges;
use journal_order::list_items;
use least_order::Edge;
use sc_isa::Entry;
use std::test::Fail;

#[test]
fn a_release_after_the_arrivals(rt: HostRuntime) -> Result<(), Fail> {
    let journal = [
        Entry::Arrived {
            node: 1,
            stores: false,
        },
        Entry::Arrived {
            node: 0,
            stores: false,
        },
        Entry::Passed { node: 0 },
    ];
    // 0 arrival of node 0; 1 arrival of node 1; 2 release
    let items = list_items(rt.alloc(), &journal, 2, &[])?;
    let found = edges(rt.alloc(), &journal, 2, items.as_slice())?;
    let first = Edge {
        before: 0,
        after: 2,
    };
    let second = Edge {
        before: 1,
        after: 2,
    };
    assert_eq!(rt; found.as_slice(), [first, second].as_slice());
    Ok(())
}
