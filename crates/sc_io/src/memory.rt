//! A source and a sink in memory that move pieces of a chosen size, and fail at chosen calls.

ghost use Rattle.std.specs.Prelude.{◌≡◌, ◌<◌, ◌≤◌, [], Some, IfOk, length};
ghost use Rattle.sc_io.specs.Streams.{Takes, Puts, TakeCause, PutCause};
ghost use Rattle.sc_io.specs.Memory.{take_answer, after_take, put_answer, after_put};

use crate::pieces::{give, keep};
use crate::stream::{Put, Sink, Source, Take};
use sc_base::OutOfMemory;
use std::alloc::Global;
use std::marker::Model;

/// A source over bytes in memory. Each call gives at most `piece` bytes, and the calls whose numbers, counted
/// from 0, stand in `failing` fail. The number of calls and the count of faults stand still at their type's end.
#[derive(Debug, Drop)]
pub struct MemorySource {
    bytes: Vec<u8>,
    at: usize,
    failing: Vec<u64>,
    piece: usize,
    call: u64,
    faults: u64,
}

impl Model for MemorySource {
    ghost use Rattle.std.specs.Prelude.{◌≤◌, drop, vec_len};
    ghost use Rattle.sc_io.specs.MemoryState.{SourceState};

    ghost Value = { SourceState };

    ghost view = { λ s. record { left = drop s.at s.bytes.items; failing = s.failing.items; piece = s.piece; call = s.call; faults = s.faults } };

    ghost invariant = { λ s. (s.at ≤ vec_len s.bytes) × (1 ≤ s.piece) };
}

impl MemorySource {
    /// A source that has all the bytes left and was not called yet.
    pub fn new(bytes: Vec<u8>, failing: Vec<u64>, piece: usize) -> MemorySource
        requires { 1 ≤ piece }
        ensures { result ≡ record { left = bytes.items; failing = failing.items; piece = piece; call = 0; faults = 0 } }
    {
        MemorySource {
            bytes,
            at: 0,
            failing,
            piece,
            call: 0,
            faults: 0,
        }
    }
}

impl Source for MemorySource {
    ghost left = { λ s. Some s.left };

    ghost faults = { λ s. s.faults };

    fn take(&mut self, into: &mut [u8]) -> Take
        requires { 0 < length into.old }
        ensures bytes { Takes (Some self.old.left) (Some self.new.left) result into.new }
        ensures cause { TakeCause self.old.faults self.new.faults result }
        ensures answer { result ≡ take_answer self.old (length into.old) }
        ensures after { self.new ≡ after_take self.old result }
    {
        let call = self.call;
        self.call = call.saturating_add(1);
        if self.failing.contains(&call) {
            self.faults = self.faults.saturating_add(1);
            return Take::Failed;
        }
        let n = give(&self.bytes[self.at..], into, self.piece);
        if n == 0 {
            return Take::End;
        }
        self.at += n;
        Take::Got(n)
    }
}

/// A sink in memory. Each call takes at most `piece` bytes, and all together at most `room`. The calls whose
/// numbers, counted from 0, stand in `failing` fail, and so do those that find no room left. The number of calls
/// and the count of faults stand still at their type's end.
#[derive(Debug, Drop)]
pub struct MemorySink {
    bytes: Vec<u8>,
    room: usize,
    failing: Vec<u64>,
    piece: usize,
    call: u64,
    faults: u64,
}

impl Model for MemorySink {
    ghost use Rattle.std.specs.Prelude.{◌≤◌, vec_len};
    ghost use Rattle.std.specs.Vec.{vec_capacity};
    ghost use Rattle.sc_io.specs.MemoryState.{SinkState};

    ghost Value = { SinkState };

    ghost view = { λ s. record { held = s.bytes.items; room = s.room; failing = s.failing.items; piece = s.piece; call = s.call; faults = s.faults } };

    ghost invariant = { λ s. (vec_len s.bytes ≤ s.room) × (s.room ≤ vec_capacity s.bytes) × (1 ≤ s.piece) };
}

impl MemorySink {
    /// A sink that holds nothing and was not called yet. The memory for `room` bytes is taken here.
    pub fn new(
        alloc: Global,
        room: usize,
        failing: Vec<u64>,
        piece: usize,
    ) -> Result<MemorySink, OutOfMemory>
        requires { 1 ≤ piece }
        ensures { IfOk result (λ sink. sink ≡ record { held = []; room = room; failing = failing.items; piece = piece; call = 0; faults = 0 }) }
    {
        match Vec::with_capacity(alloc, room) {
            Ok(bytes) => Ok(MemorySink {
                bytes,
                room,
                failing,
                piece,
                call: 0,
                faults: 0,
            }),
            Err(_) => Err(OutOfMemory),
        }
    }

    /// All the bytes that it holds.
    pub fn bytes(&self) -> &[u8]
        ensures held { result.now ≡ self.now.held }
        ensures room { length self.now.held ≤ self.now.room }
    {
        self.bytes.as_slice()
    }
}

impl Sink for MemorySink {
    ghost held = { λ s. Some s.held };

    ghost faults = { λ s. s.faults };

    /// It takes no memory.
    fn put(&mut self, bytes: &[u8]) -> Put
        requires { 0 < length bytes.now }
        ensures bytes { Puts (Some self.old.held) (Some self.new.held) result bytes.now }
        ensures cause { PutCause self.old.faults self.new.faults result }
        ensures answer { result ≡ put_answer self.old (length bytes.now) }
        ensures after { self.new ≡ after_put self.old result bytes.now }
    {
        let call = self.call;
        self.call = call.saturating_add(1);
        let room = self.room - self.bytes.len();
        if room == 0 || self.failing.contains(&call) {
            self.faults = self.faults.saturating_add(1);
            return Put::Failed;
        }
        let n = bytes.len().min(self.piece).min(room);
        keep(&mut self.bytes, &bytes[..n]);
        Put::Done(n)
    }
}
