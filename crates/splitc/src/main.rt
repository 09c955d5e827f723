//! `splitc` over the process's words and its standard streams.
#![tactic(auto)]

use sc_io::{ReadSource, WriteSink, write_all};
use splitc_top::Status;
use splitc_top::top::{NoGate, top};
use std::alloc::{AllocError, Global};
use std::env;
use std::io::ErrorKind;
use std::process::ExitCode;

/// The words after the program's name; none where some word is no text.
fn words(rt: &HostRuntime) -> Result<Vec<String>, AllocError> {
    let mut words = Vec::new(rt.alloc());
    let all = match env::args(rt) {
        Ok(all) => all,
        Err(error) if error.kind() == ErrorKind::OutOfMemory => return Err(AllocError),
        Err(_) => return Ok(words),
    };
    for word in all.skip(1) {
        words.push(word)?;
    }
    Ok(words)
}

fn main(rt: HostRuntime) -> ExitCode {
    let mut source = ReadSource::new(rt.reader());
    let mut out = WriteSink::new(rt.stdout());
    let mut err = WriteSink::new(rt.stderr());
    let mut made = None;
    let status = match words(&rt) {
        Ok(words) => top(
            &rt,
            rt.alloc(),
            words.as_slice(),
            &mut source,
            &mut out,
            &mut err,
            &NoGate,
            &mut made,
        ),
        Err(_) => match write_all(&mut err, b"splitc: no memory\n") {
            Ok(()) => Status::Memory,
            Err(_) => Status::Write,
        },
    };
    ExitCode::from(status.code())
}
