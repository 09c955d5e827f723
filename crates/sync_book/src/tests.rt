//! What no clause says: that the calls succeed with ample memory.

use crate::{Gap, SyncBook};
use sc_isa::Track;
use std::test::Fail;

#[test]
fn a_covered_cell_in_flight_holds_the_barrier(rt: HostRuntime) -> Result<(), Fail> {
    let mut book = SyncBook::new(rt.alloc(), 2, 3)?;
    book.issue(0, Track::Covered, 1);
    book.arrive(0, false);
    book.arrive(1, false);
    assert_eq!(rt;
        book.gap(),
        Gap {
            missing: 0,
            flying: 1
        }
    );
    assert!(rt; !book.can_release());
    book.complete(0, Track::Covered);
    assert!(rt; book.can_release());
    book.release();
    assert!(rt; book.released(0));
    book.leave(0);
    assert!(rt; !book.released(0));
    assert!(rt; book.released(1));
    Ok(())
}

#[test]
fn a_store_holds_only_the_barrier_that_waits_for_stores(rt: HostRuntime) -> Result<(), Fail> {
    let mut book = SyncBook::new(rt.alloc(), 2, 3)?;
    book.issue(1, Track::Store, 2);
    book.arrive(0, false);
    assert_eq!(rt;
        book.gap(),
        Gap {
            missing: 1,
            flying: 0
        }
    );
    book.arrive(1, true);
    assert_eq!(rt;
        book.gap(),
        Gap {
            missing: 0,
            flying: 2
        }
    );
    Ok(())
}

#[test]
fn a_finished_node_breaks_the_barrier(rt: HostRuntime) -> Result<(), Fail> {
    let mut book = SyncBook::new(rt.alloc(), 3, 0)?;
    book.finish(2);
    book.arrive(0, false);
    assert_eq!(rt; book.broken(), None);
    book.arrive(1, false);
    assert_eq!(rt; book.broken(), Some(2));
    Ok(())
}

#[test]
fn counters_are_counted_apart(rt: HostRuntime) -> Result<(), Fail> {
    let mut book = SyncBook::new(rt.alloc(), 2, 3)?;
    book.issue(1, Track::Counter(3), 2);
    book.complete(1, Track::Counter(3));
    assert_eq!(rt; book.outstanding(1, 3), 1);
    assert_eq!(rt; book.outstanding(0, 3), 0);
    assert_eq!(rt; book.outstanding(1, 0), 0);
    Ok(())
}
