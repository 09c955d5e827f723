//! Std's readers and writers as sources and sinks.

ghost use Rattle.std.specs.Prelude.{◌≡◌, ◌<◌, None, length};
ghost use Rattle.sc_io.specs.Streams.{Takes, Puts, TakeCause, PutCause};
ghost use Rattle.sc_io.specs.Adapter.{TakeCount, PutCount, Writes};

use crate::stream::{Put, Sink, Source, Take};
use std::io::{Read, Write};

/// A reader as a source. It counts the reads that failed, up to the last number of 64 bits.
#[derive(Debug, Drop)]
pub struct ReadSource<R> {
    reader: R,
    faults: u64,
}

impl<R: Read> ReadSource<R> {
    /// A reader that has not failed yet.
    pub fn new(reader: R) -> ReadSource<R>
        ensures reader { result.reader ≡ reader }
        ensures faults { result.faults ≡ 0 }
    {
        ReadSource { reader, faults: 0 }
    }
}

impl<R: Read> Source for ReadSource<R> {
    ghost left = { λ s. R.remaining s.reader };

    ghost faults = { λ s. s.faults };

    fn take(&mut self, into: &mut [u8]) -> Take
        requires { 0 < length into.old }
        ensures bytes { Takes (R.remaining self.old.reader) (R.remaining self.new.reader) result into.new }
        ensures cause { TakeCause self.old.faults self.new.faults result }
        ensures count { TakeCount self.old.faults self.new.faults result }
    {
        match self.reader.read(into) {
            Ok(0) => Take::End,
            Ok(n) => Take::Got(n),
            Err(_) => {
                self.faults = self.faults.saturating_add(1);
                Take::Failed
            }
        }
    }
}

/// A writer as a sink. It counts the writes that failed or took nothing, up to the last number of 64 bits, and
/// tells nothing of what it holds, since a writer may begin to tell that after a call.
#[derive(Debug, Drop)]
pub struct WriteSink<W> {
    writer: W,
    faults: u64,
}

impl<W: Write> WriteSink<W> {
    /// A writer that has not failed yet.
    pub fn new(writer: W) -> WriteSink<W>
        ensures writer { result.writer ≡ writer }
        ensures faults { result.faults ≡ 0 }
    {
        WriteSink { writer, faults: 0 }
    }
}

impl<W: Write> Sink for WriteSink<W> {
    ghost held = { λ _. None };

    ghost faults = { λ s. s.faults };

    fn put(&mut self, bytes: &[u8]) -> Put
        requires { 0 < length bytes.now }
        ensures bytes { Puts None None result bytes.now }
        ensures cause { PutCause self.old.faults self.new.faults result }
        ensures count { PutCount self.old.faults self.new.faults result }
        ensures wrote { Writes (W.contents self.old.writer) (W.contents self.new.writer) result bytes.now }
    {
        match self.writer.write(bytes) {
            Ok(n) if n > 0 => Put::Done(n),
            _ => {
                self.faults = self.faults.saturating_add(1);
                Put::Failed
            }
        }
    }
}
