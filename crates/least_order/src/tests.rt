//! Least orders by hand.

ghost use Rattle.std.specs.Prelude.{◌<◌, All, IfOk};
ghost use Rattle.least_order.specs.Least.{IsWithin};

use crate::edge::Edge;
use crate::order::least_order;
use std::test::Fail;

#[test]
fn no_edge_is_the_order_of_the_numbers(rt: HostRuntime) -> Result<(), Fail> {
    let order = least_order(rt.alloc(), 4, &[])?.ok_or("a cycle")?;
    assert_eq!(rt; order.as_slice(), [0, 1, 2, 3].as_slice());
    Ok(())
}

#[test]
fn a_lesser_item_is_taken_as_soon_as_it_is_free(rt: HostRuntime) -> Result<(), Fail> {
    let edges = [
        Edge {
            before: 2,
            after: 0,
        },
        Edge {
            before: 3,
            after: 1,
        },
    ];
    let order = least_order(rt.alloc(), 5, &edges)?.ok_or("a cycle")?;
    assert_eq!(rt; order.as_slice(), [2, 0, 3, 1, 4].as_slice());
    Ok(())
}

#[test]
fn an_item_waits_for_all_that_come_before_it(rt: HostRuntime) -> Result<(), Fail> {
    let edges = [
        Edge {
            before: 3,
            after: 0,
        },
        Edge {
            before: 1,
            after: 0,
        },
        Edge {
            before: 1,
            after: 0,
        },
        Edge {
            before: 3,
            after: 2,
        },
    ];
    let order = least_order(rt.alloc(), 4, &edges)?.ok_or("a cycle")?;
    assert_eq!(rt; order.as_slice(), [1, 3, 0, 2].as_slice());
    Ok(())
}

#[test]
fn a_cycle_has_no_order(rt: HostRuntime) -> Result<(), Fail> {
    let ring = [
        Edge {
            before: 1,
            after: 2,
        },
        Edge {
            before: 2,
            after: 1,
        },
    ];
    assert!(rt; least_order(rt.alloc(), 3, &ring)?.is_none());
    let own = [Edge {
        before: 0,
        after: 0,
    }];
    assert!(rt; least_order(rt.alloc(), 1, &own)?.is_none());
    Ok(())
}

#[test]
fn no_item_is_an_empty_order(rt: HostRuntime) -> Result<(), Fail> {
    let order = least_order(rt.alloc(), 0, &[])?.ok_or("a cycle")?;
    assert!(rt; order.as_slice().is_empty());
    Ok(())
}
