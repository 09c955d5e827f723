//! Issuing an access cell by cell.

ghost use Rattle.std.specs.Prelude.{◌≡◌, ℕ, ◌+◌, ◌<◌, ◌≤◌, ◌^◌, List};
ghost use Rattle.effect_order.specs.Lists.{Each};
ghost use Rattle.effect_order.specs.Effect.{Effect};
ghost use Rattle.effect_order.specs.Transfer.{further};
ghost use Rattle.sc_layout.specs.Place.{IsPlace, Fits};
ghost use Rattle.sc_isa.specs.declared.access.Access.TheVariants.{Read, Write, Copy};
ghost use Rattle.fabric.specs.Access.{transfer_of};
ghost use Rattle.fabric.specs.State.{IsCopy, IsTrack, IsAccess, Grows, messages_of};
ghost use Rattle.fabric.specs.Kept.{IsReady};
ghost use Rattle.fabric.specs.Issuing.{Untouched, Unissued, HoldsAfter, CellIssued, CellsIssued, Sends, IsSendable, CanSend, CanSendMany, AtMost};

use msg_pool::{Message, MsgPool, Part};
use node_memory::NodeMemory;
use sc_base::{Place, Value};
use sc_isa::Track;

/// Puts the message last.
pub(crate) fn send(pool: &mut MsgPool, message: Message)
    requires { IsSendable pool.old message }
    ensures { Sends pool.old pool.new message }
{
    pool.put(message);
}

/// A read of one cell: on the node itself it takes effect at once, and else it becomes a message.
pub(crate) fn issue_read(
    memory: &NodeMemory,
    pool: &mut MsgPool,
    node: u32,
    number: u64,
    place: Place,
    track: Track,
)
    requires ready { CanSend memory.now pool.old node }
    requires placed { IsPlace memory.now.layout place }
    ensures issued { (earlier : List Effect) → Untouched node number 0 earlier → HoldsAfter memory.now earlier → CellIssued node number 0 (Read place track) earlier memory.now memory.now pool.old pool.new }
    ensures one { AtMost 1 pool.old pool.new }
    ensures stay { Grows pool.old pool.new }
    ensures ready { (sites : ℕ) → IsTrack sites track → Each (IsReady memory.now.layout sites) (messages_of pool.old) → Each (IsReady memory.now.layout sites) (messages_of pool.new) }
{
    if place.node != node {
        send(
            pool,
            Message {
                issuer: node,
                number,
                cell: 0,
                track,
                part: Part::Read {
                    from: place,
                    back: None,
                },
            },
        );
    }
}

/// A write of one cell: on the node itself it takes effect at once, and else it becomes a message.
pub(crate) fn issue_write(
    memory: &mut NodeMemory,
    pool: &mut MsgPool,
    node: u32,
    number: u64,
    place: Place,
    value: Value,
    track: Track,
)
    requires ready { CanSend memory.old pool.old node }
    requires placed { IsPlace memory.old.layout place }
    requires fits { Fits memory.old.layout place value }
    ensures layout { memory.new.layout ≡ memory.old.layout }
    ensures issued { (earlier : List Effect) → Untouched node number 0 earlier → HoldsAfter memory.old earlier → CellIssued node number 0 (Write place value track) earlier memory.old memory.new pool.old pool.new }
    ensures one { AtMost 1 pool.old pool.new }
    ensures stay { Grows pool.old pool.new }
    ensures ready { (sites : ℕ) → IsTrack sites track → Each (IsReady memory.old.layout sites) (messages_of pool.old) → Each (IsReady memory.old.layout sites) (messages_of pool.new) }
{
    if place.node == node {
        memory.write(place, value);
    } else {
        send(
            pool,
            Message {
                issuer: node,
                number,
                cell: 0,
                track,
                part: Part::Write { to: place, value },
            },
        );
    }
}

/// The cell so many cells further on.
fn further(place: Place, cells: u32) -> Place
    requires { place.offset + cells < 2 ^ 32 }
    ensures { result ≡ further cells place }
{
    Place {
        object: place.object,
        node: place.node,
        offset: place.offset + cells,
    }
}

/// One cell of a copy: what of it is on the node itself takes effect at once, and the rest becomes a message.
fn copy_cell(
    memory: &mut NodeMemory,
    pool: &mut MsgPool,
    node: u32,
    number: u64,
    cell: u32,
    from: Place,
    to: Place,
    cells: u32,
    track: Track,
)
    requires ready { CanSend memory.old pool.old node }
    requires copy { IsCopy memory.old.layout from to cells }
    requires within { cell < cells }
    requires small { from.offset + cells < 2 ^ 32 }
    requires small_too { to.offset + cells < 2 ^ 32 }
    ensures layout { memory.new.layout ≡ memory.old.layout }
    ensures issued { (earlier : List Effect) → Untouched node number cell earlier → HoldsAfter memory.old earlier → CellIssued node number cell (Copy from to cells track) earlier memory.old memory.new pool.old pool.new }
    ensures one { AtMost 1 pool.old pool.new }
    ensures stay { Grows pool.old pool.new }
    ensures ready { (sites : ℕ) → IsTrack sites track → Each (IsReady memory.old.layout sites) (messages_of pool.old) → Each (IsReady memory.old.layout sites) (messages_of pool.new) }
{
    let read = further(from, cell);
    let written = further(to, cell);
    if read.node != node {
        let part = Part::Read {
            from: read,
            back: Some(written),
        };
        send(
            pool,
            Message {
                issuer: node,
                number,
                cell,
                track,
                part,
            },
        );
        return;
    }
    let value = memory.read(read);
    if written.node == node {
        memory.write(written, value);
    } else {
        let part = Part::Write { to: written, value };
        send(
            pool,
            Message {
                issuer: node,
                number,
                cell,
                track,
                part,
            },
        );
    }
}

/// A copy, cell by cell.
pub(crate) fn issue_copy(
    memory: &mut NodeMemory,
    pool: &mut MsgPool,
    node: u32,
    number: u64,
    from: Place,
    to: Place,
    cells: u32,
    track: Track,
)
    requires ready { CanSendMany memory.old pool.old node cells }
    requires copy { IsCopy memory.old.layout from to cells }
    requires small { from.offset + cells < 2 ^ 32 }
    requires small_too { to.offset + cells < 2 ^ 32 }
    ensures layout { memory.new.layout ≡ memory.old.layout }
    ensures issued { (earlier : List Effect) → Unissued node number earlier → HoldsAfter memory.old earlier → CellsIssued node number cells (Copy from to cells track) earlier memory.old memory.new pool.old pool.new }
    ensures many { AtMost cells pool.old pool.new }
    ensures stay { Grows pool.old pool.new }
    ensures ready { (sites : ℕ) → IsTrack sites track → Each (IsReady memory.old.layout sites) (messages_of pool.old) → Each (IsReady memory.old.layout sites) (messages_of pool.new) }
{
    for cell in 0..cells {
        copy_cell(memory, pool, node, number, cell, from, to, cells, track);
    }
}
