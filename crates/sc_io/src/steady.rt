//! A source and a sink in memory that never fail.

ghost use Rattle.std.specs.Prelude.{◌≡◌, ◌<◌, ◌≤◌, [], false, Some, IfOk, length, min};
ghost use Rattle.sc_io.specs.Streams.{Takes, Puts, TakeCause, PutCause};
ghost use Rattle.sc_io.specs.Steady.{told, after_all};

use crate::pieces::{give, keep};
use crate::stream::{Put, Sink, Source, Take};
use sc_base::OutOfMemory;
use std::alloc::Global;
use std::marker::Model;

/// A source over bytes in memory that never fails, seen as the bytes that are left.
#[derive(Debug, Drop)]
pub struct SteadySource {
    bytes: Vec<u8>,
    at: usize,
}

impl Model for SteadySource {
    ghost use Rattle.std.specs.Prelude.{ℕ, List, ◌≤◌, drop, vec_len};

    ghost Value = { List ℕ };

    ghost view = { λ s. drop s.at s.bytes.items };

    ghost invariant = { λ s. s.at ≤ vec_len s.bytes };
}

impl SteadySource {
    /// A source that has all the bytes left.
    pub fn new(bytes: Vec<u8>) -> SteadySource
        ensures { result ≡ bytes.items }
    {
        SteadySource { bytes, at: 0 }
    }
}

impl Source for SteadySource {
    ghost left = { λ s. Some s };

    ghost faults = { λ _. 0 };

    fn take(&mut self, into: &mut [u8]) -> Take {
        let n = give(&self.bytes[self.at..], into, usize::MAX);
        if n == 0 {
            return Take::End;
        }
        self.at += n;
        Take::Got(n)
    }
}

/// A sink in memory that never fails. It takes every piece whole and keeps the first `room` bytes. It tells
/// what it holds until more were put.
#[derive(Debug, Drop)]
pub struct SteadySink {
    bytes: Vec<u8>,
    room: usize,
    over: bool,
}

impl Model for SteadySink {
    ghost use Rattle.std.specs.Prelude.{◌≤◌, vec_len};
    ghost use Rattle.std.specs.Vec.{vec_capacity};
    ghost use Rattle.sc_io.specs.SteadyState.{SteadyState};

    ghost Value = { SteadyState };

    ghost view = { λ s. record { kept = s.bytes.items; room = s.room; over = s.over } };

    ghost invariant = { λ s. (vec_len s.bytes ≤ s.room) × (s.room ≤ vec_capacity s.bytes) };
}

impl SteadySink {
    /// A sink that holds nothing. The memory for `room` bytes is taken here.
    pub fn new(alloc: Global, room: usize) -> Result<SteadySink, OutOfMemory>
        ensures { IfOk result (λ sink. sink ≡ record { kept = []; room = room; over = false }) }
    {
        match Vec::with_capacity(alloc, room) {
            Ok(bytes) => Ok(SteadySink {
                bytes,
                room,
                over: false,
            }),
            Err(_) => Err(OutOfMemory),
        }
    }

    /// The first `room` of the bytes that were put.
    pub fn bytes(&self) -> &[u8]
        ensures kept { result.now ≡ self.now.kept }
        ensures room { length self.now.kept ≤ self.now.room }
    {
        self.bytes.as_slice()
    }
}

impl Sink for SteadySink {
    ghost held = { told };

    ghost faults = { λ _. 0 };

    /// It takes no memory.
    fn put(&mut self, bytes: &[u8]) -> Put
        requires { 0 < length bytes.now }
        ensures bytes { Puts (told self.old) (told self.new) result bytes.now }
        ensures cause { PutCause 0 0 result }
        ensures answer { result ≡ Put.Done (length bytes.now) }
        ensures after { self.new ≡ after_all self.old bytes.now }
    {
        let n = bytes.len().min(self.room - self.bytes.len());
        keep(&mut self.bytes, &bytes[..n]);
        if n < bytes.len() {
            self.over = true;
        }
        Put::Done(bytes.len())
    }
}
