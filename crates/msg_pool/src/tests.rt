//! What no clause says: that the calls succeed with ample memory.

ghost use Rattle.std.specs.Prelude.{◌≡◌, ◌≤◌, OnOk};
ghost use Rattle.msg_pool.specs.Pool.{target_of};

use crate::{Message, MsgId, MsgPool, Part};
use sc_base::{OutOfMemory, Place, Value};
use sc_isa::Track;
use std::test::Fail;

/// A write of null that one node sends to another.
fn null_to(issuer: u32, target: u32) -> Message
    ensures issuer { result.issuer ≡ issuer }
    ensures target { target_of result ≡ target }
{
    let to = Place {
        object: 0,
        node: target,
        offset: 0,
    };
    Message {
        issuer,
        number: 0,
        cell: 0,
        track: Track::Store,
        part: Part::Write {
            to,
            value: Value::Null,
        },
    }
}

#[test]
fn each_list_keeps_the_order_of_puts(rt: HostRuntime) -> Result<(), Fail> {
    let mut pool = MsgPool::new(rt.alloc(), 2)?;
    pool.reserve(3)?;
    let first = pool.put(null_to(0, 1));
    let second = pool.put(null_to(1, 1));
    let third = pool.put(null_to(0, 0));
    assert_eq!(rt; pool.nth(1), Some(second));
    assert_eq!(rt; pool.nth_of(0, 1), Some(third));
    assert_eq!(rt; pool.nth_to(1, 0), Some(first));
    assert_eq!(rt; pool.nth_to(1, 2), None);
    assert_eq!(rt; pool.count(), 3);
    Ok(())
}

#[test]
fn a_taken_message_is_on_no_list(rt: HostRuntime) -> Result<(), Fail> {
    let mut pool = MsgPool::new(rt.alloc(), 2)?;
    pool.reserve(3)?;
    let first = pool.put(null_to(0, 1));
    let second = pool.put(null_to(1, 0));
    let third = pool.put(null_to(0, 1));
    let Some(taken) = pool.take(first) else {
        panic!(rt; "not pending");
    };
    assert_eq!(rt; taken, null_to(0, 1));
    assert_eq!(rt; pool.nth(0), Some(second));
    assert_eq!(rt; pool.nth_of(0, 0), Some(third));
    assert_eq!(rt; pool.nth_to(1, 0), Some(third));
    assert_eq!(rt; pool.nth_of(0, 1), None);
    assert_eq!(rt; (pool.count_of(0), pool.count_to(1)), (1, 1));
    // The next one comes under the old key, and not under the old id.
    let fourth = pool.put(null_to(1, 1));
    assert_eq!(rt; fourth.key, first.key);
    assert_eq!(rt; pool.take(first), None);
    assert_eq!(rt; pool.take(fourth), Some(null_to(1, 1)));
    Ok(())
}

/// Makes room, where `first` is the first message. A refused call leaves it first, and can be made again.
fn make_room(pool: &mut MsgPool, count: u32, first: MsgId) -> Result<bool, OutOfMemory>
    ensures enough { OnOk result (count ≤ pool.new.spare) }
    ensures same { pool.new ≡ record pool.old { spare = pool.new.spare } }
{
    let Err(OutOfMemory) = pool.reserve(count) else {
        return Ok(true);
    };
    let same = pool.count() == 1 && pool.nth(0) == Some(first);
    pool.reserve(count)?;
    Ok(same)
}

#[test]
fn a_refused_reserve_changes_nothing(rt: HostRuntime) -> Result<(), Fail> {
    let mut pool = MsgPool::new(rt.alloc(), 2)?;
    pool.reserve(1)?;
    let first = pool.put(null_to(0, 1));
    assert!(rt; make_room(&mut pool, 100, first)?);
    let second = pool.put(null_to(1, 1));
    assert_eq!(rt; pool.nth_to(1, 0), Some(first));
    assert_eq!(rt; pool.nth_to(1, 1), Some(second));
    Ok(())
}
