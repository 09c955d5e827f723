//! What the calls give over bytes in memory, piece by piece and with failures in mid-stream.

use crate::{
    MemorySink, MemorySource, Put, ReadError, ReadSource, Sink, Source, SteadySink, SteadySource,
    Take, WriteFault, WriteSink, read_all, write_all,
};
use std::io;
use std::io::{ErrorKind, Read};
use std::test::Fail;

const TEXT: &[u8] = b"abcdefgh";

#[test]
fn a_memory_source_gives_pieces_and_fails_at_its_calls(rt: HostRuntime) -> Result<(), Fail> {
    let failing = vec![in rt.alloc(); 1]?;
    let mut source = MemorySource::new(TEXT.to_vec(rt.alloc())?, failing, 3);
    let calls: [(usize, Take, &[u8]); 6] = [
        (8, Take::Got(3), b"abc"),
        (8, Take::Failed, b""),
        (2, Take::Got(2), b"de"),
        (8, Take::Got(3), b"fgh"),
        (8, Take::End, b""),
        (1, Take::End, b""),
    ];
    for (room, want, bytes) in calls {
        let mut into = [0; 8];
        assert_eq!(rt; source.take(&mut into[..room]), want);
        assert_eq!(rt; &into[..bytes.len()], bytes);
    }
    Ok(())
}

#[test]
fn read_all_reads_to_the_end_the_limit_or_the_fault(rt: HostRuntime) -> Result<(), Fail> {
    let cases = [
        (3, 9, 8, Ok(())),
        (8, 9, 8, Ok(())),
        (3, 9, 7, Err(ReadError::TooLong)),
        (8, 9, 0, Err(ReadError::TooLong)),
        (3, 0, 8, Err(ReadError::Fault)),
        (3, 2, 8, Err(ReadError::Fault)),
        (8, 1, 8, Err(ReadError::Fault)),
    ];
    for (piece, failing, limit, want) in cases {
        let failing = vec![in rt.alloc(); failing]?;
        let mut source = MemorySource::new(TEXT.to_vec(rt.alloc())?, failing, piece);
        match read_all(rt.alloc(), &mut source, limit) {
            Ok(bytes) => {
                assert_eq!(rt; want, Ok(()));
                assert_eq!(rt; bytes.as_slice(), TEXT);
            }
            Err(error) => assert_eq!(rt; want, Err(error), "piece {piece}, limit {limit}"),
        }
    }
    let mut none = SteadySource::new(Vec::new(rt.alloc()));
    assert_eq!(rt; read_all(rt.alloc(), &mut none, 0)?.len(), 0);
    let mut whole = SteadySource::new(TEXT.to_vec(rt.alloc())?);
    assert_eq!(rt; read_all(rt.alloc(), &mut whole, 8)?.as_slice(), TEXT);
    Ok(())
}

#[test]
fn a_memory_sink_keeps_a_prefix_where_it_fails(rt: HostRuntime) -> Result<(), Fail> {
    let text = b"abcdefghijklmnopqrst";
    let cases: [(usize, u64, usize, Result<(), WriteFault>, &[u8]); 5] = [
        (99, 9, 3, Ok(()), text),
        (20, 9, 8, Ok(()), text),
        (99, 1, 8, Err(WriteFault { done: 8 }), b"abcdefgh"),
        (5, 9, 3, Err(WriteFault { done: 5 }), b"abcde"),
        (99, 0, 8, Err(WriteFault { done: 0 }), b""),
    ];
    for (room, failing, piece, want, held) in cases {
        let failing = vec![in rt.alloc(); failing]?;
        let mut sink = MemorySink::new(rt.alloc(), room, failing, piece)?;
        assert_eq!(rt; write_all(&mut sink, b""), Ok(()));
        assert_eq!(rt;
            write_all(&mut sink, text),
            want,
            "room {room}, piece {piece}"
        );
        assert_eq!(rt; sink.bytes(), held);
    }
    Ok(())
}

#[test]
fn a_steady_sink_takes_all_and_keeps_what_it_has_room_for(rt: HostRuntime) -> Result<(), Fail> {
    let mut sink = SteadySink::new(rt.alloc(), 5)?;
    assert_eq!(rt; sink.put(b"abc"), Put::Done(3));
    assert_eq!(rt; sink.put(b"defgh"), Put::Done(5));
    assert_eq!(rt; write_all(&mut sink, b"xy"), Ok(()));
    assert_eq!(rt; sink.bytes(), b"abcde".as_slice());
    Ok(())
}

#[derive(Drop)]
struct Broken;

impl Read for Broken {
    fn read(&mut self, _into: &mut [u8]) -> io::Result<usize> {
        Err(ErrorKind::BrokenPipe.into())
    }
}

#[test]
fn readers_and_writers_serve_as_sources_and_sinks(rt: HostRuntime) -> Result<(), Fail> {
    let mut source = ReadSource::new(TEXT);
    assert_eq!(rt; read_all(rt.alloc(), &mut source, 8)?.as_slice(), TEXT);
    let mut broken = ReadSource::new(Broken);
    assert_eq!(rt; broken.take(&mut [0; 4]), Take::Failed);
    let mut held = Vec::new(rt.alloc());
    let mut sink = WriteSink::new(&mut held);
    assert_eq!(rt; write_all(&mut sink, TEXT), Ok(()));
    assert_eq!(rt; held.as_slice(), TEXT);
    let mut room = [0; 3];
    let mut short = WriteSink::new(&mut room[..]);
    assert_eq!(rt; write_all(&mut short, TEXT), Err(WriteFault { done: 3 }));
    assert_eq!(rt; room, *b"abc");
    Ok(())
}
