//! Reading to the end of a source, and writing the whole of a text.

ghost use Rattle.std.specs.Prelude.{◌≡◌, ◌<◌, ◌≤◌, ◌↔◌, Err, length, take, OnOk, IfOk, IfErr};
ghost use Rattle.std.specs.Io.KnownBytes.{Consumes, IsAtEnd};
ghost use Rattle.sc_io.specs.Streams.{Rose, Gains, GivenWhere};

use crate::stream::{Put, Sink, Source, Take};
use std::alloc::Global;

/// Why the bytes of a source were not read.
#[derive(Clone, Copy, Debug, PartialEq, Eq)]
pub enum ReadError {
    /// The source failed.
    Fault,
    /// It gave more bytes than the limit.
    TooLong,
    /// An allocation was refused.
    OutOfMemory,
}

/// The sink failed, and had taken the first `done` bytes before.
#[derive(Clone, Copy, Debug, PartialEq, Eq)]
pub struct WriteFault {
    pub done: usize,
}

/// All the bytes that are left in the source, at most `limit` of them. It stops at the first byte past the
/// limit and at a failure, with the bytes up to there gone from the source.
pub fn read_all<S: Source>(
    alloc: Global,
    source: &mut S,
    limit: usize,
) -> Result<Vec<u8>, ReadError>
    ensures all { IfOk result (λ bytes. Consumes (S.left source.old) (S.left source.new) bytes.items) }
    ensures end { OnOk result (IsAtEnd (S.left source.new)) }
    ensures within { IfOk result (λ bytes. length bytes.items ≤ limit) }
    ensures too_long { GivenWhere (S.left source.old) (S.left source.new)
        (λ given. (result ≡ Err ReadError.TooLong) ↔ (limit < length given)) }
    ensures later { S.faults source.old ≤ S.faults source.new }
    ensures cause { result ≡ Err ReadError.Fault → Rose (S.faults source.old) (S.faults source.new) }
{
    let mut bytes = Vec::new(alloc);
    let mut piece = [0u8; 4096];
    'reading: loop {
        match source.take(&mut piece) {
            Take::Got(n) => {
                if n > limit - bytes.len() {
                    return Err(ReadError::TooLong);
                }
                if bytes.extend_from_slice(&piece[..n]).is_err() {
                    return Err(ReadError::OutOfMemory);
                }
            }
            Take::End => return Ok(bytes),
            Take::Failed => return Err(ReadError::Fault),
        }
    }
}

/// Appends all the bytes to the sink. It takes no memory.
pub fn write_all<K: Sink>(sink: &mut K, bytes: &[u8]) -> Result<(), WriteFault>
    ensures all { OnOk result (Gains (K.held sink.old) (K.held sink.new) bytes.now) }
    ensures part { IfErr result (λ fault. Gains (K.held sink.old) (K.held sink.new) (take fault.done bytes.now)) }
    ensures proper { IfErr result (λ fault. fault.done < length bytes.now) }
    ensures later { K.faults sink.old ≤ K.faults sink.new }
    ensures cause { IfErr result (λ _. Rose (K.faults sink.old) (K.faults sink.new)) }
{
    let mut done = 0;
    while done < bytes.len() {
        match sink.put(&bytes[done..]) {
            Put::Done(n) => done += n,
            Put::Failed => return Err(WriteFault { done }),
        }
    }
    Ok(())
}
