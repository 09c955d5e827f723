//! The program over any source and any sinks.

ghost use Rattle.std.specs.Prelude.{◌≡◌, ◌≢◌, ◌≤◌, map, string_bytes, IfOk, IfErr, Some, None};
ghost use Rattle.std.specs.Option.{option_map};
ghost use Rattle.splitc_compile.specs.Compiled.{Parts, parts_of};
ghost use Rattle.splitc_top.specs.Words.{command_of};
ghost use Rattle.splitc_top.specs.Reasons.{Holds};
ghost use Rattle.splitc_top.specs.Top.{IsReported, IsMade, IsAnswer, stream};

use crate::line::line_of;
use crate::reason::{Reason, status_of_reason};
use crate::texts::text_of;
use crate::words::{WordsError, read_words};
use run_report::Status;
use run_texts::Report;
use sc_base::LIMITS;
use sc_io::{ReadError, Sink, Source, read_all, write_all};
use splitc_compile::Compiled;
use std::alloc::Global;
use std::sync::Wait;
use std::thread::Threads;

/// Reads the words and the source, and does what the command says; and what was made of the source on the way.
fn prepare<S: Source>(
    alloc: Global,
    words: &[String],
    source: &mut S,
    made: &mut Option<Compiled>,
) -> Result<Report, Reason>
    requires none { made.old ≡ None }
    ensures told { IfOk result (λ r. IsReported (command_of (map string_bytes words.now)) (option_map parts_of made.new)
        (S.left source.old) (S.left source.new) r.text.items r.status) }
    ensures made { (parts : Parts) → option_map parts_of made.new ≡ Some parts
        → IsMade (command_of (map string_bytes words.now)) (S.left source.old) (S.left source.new) parts }
    ensures refused { IfErr result (λ e. Holds (command_of (map string_bytes words.now))
        (S.left source.old) (S.left source.new) (S.faults source.old) (S.faults source.new) e) }
    ensures unmade { IfErr result (λ e. e ≢ Reason.Memory → option_map parts_of made.new ≡ None) }
    ensures later { S.faults source.old ≤ S.faults source.new }
{
    let command = match read_words(alloc, words) {
        Ok(command) => command,
        Err(WordsError::Form) => return Err(Reason::Words),
        Err(WordsError::OutOfMemory) => return Err(Reason::Memory),
    };
    let bytes = match read_all(alloc, source, LIMITS.source as usize) {
        Ok(bytes) => bytes,
        Err(ReadError::Fault) => return Err(Reason::Read),
        Err(ReadError::TooLong) => return Err(Reason::TooLong),
        Err(ReadError::OutOfMemory) => return Err(Reason::Memory),
    };
    text_of(alloc, command, bytes.as_slice(), made)
}

/// Does what the words say with the source, writes the text to `out`, and a refusal's line to `err`. The text is made
/// whole before its first byte is written, and after a sink has failed nothing more is written. `made` becomes what the
/// source was compiled to, and None where nothing was made of it.
pub fn top_still<S: Source, K: Sink, E: Sink>(
    alloc: Global,
    words: &[String],
    source: &mut S,
    out: &mut K,
    err: &mut E,
    made: &mut Option<Compiled>,
) -> Status
    ensures answer { IsAnswer (record {
      command = command_of (map string_bytes words.now);
      made = option_map parts_of made.new;
      source = stream (S.left source.old) (S.left source.new) (S.faults source.old) (S.faults source.new);
      out = stream (K.held out.old) (K.held out.new) (K.faults out.old) (K.faults out.new);
      err = stream (E.held err.old) (E.held err.new) (E.faults err.old) (E.faults err.new);
    }) result }

    // The counts never fall.
    ensures source_later { S.faults source.old ≤ S.faults source.new }
    ensures out_later { K.faults out.old ≤ K.faults out.new }
    ensures err_later { E.faults err.old ≤ E.faults err.new }
{
    *made = None;
    match prepare(alloc, words, source, made) {
        Ok(report) => match write_all(out, report.text.as_slice()) {
            Ok(()) => report.status,
            Err(_) => Status::Write,
        },
        Err(reason) => {
            let line = line_of(alloc, reason);
            match write_all(err, line.text.as_bytes()) {
                Ok(()) => status_of_reason(line.reason),
                Err(_) => Status::Write,
            }
        }
    }
}

/// Where a node of a run by threads is about to make an event.
pub trait Gate {
    /// The node's event with this number, counted from 0, comes next.
    fn at(&self, node: u32, event: u64);
}

/// A gate that does nothing.
#[derive(Clone, Copy, Debug, PartialEq, Eq)]
pub struct NoGate;

impl Gate for NoGate {
    fn at(&self, _node: u32, _event: u64) {}
}

/// The shipped program: it answers as `top_still`, and calls no gate, as no run is by threads yet.
pub fn top<R: Threads + Wait + Sync, S: Source, K: Sink, E: Sink, G: Gate + Sync>(
    _rt: &R,
    alloc: Global,
    words: &[String],
    source: &mut S,
    out: &mut K,
    err: &mut E,
    _gate: &G,
    made: &mut Option<Compiled>,
) -> Status
    ensures answer { IsAnswer (record {
      command = command_of (map string_bytes words.now);
      made = option_map parts_of made.new;
      source = stream (S.left source.old) (S.left source.new) (S.faults source.old) (S.faults source.new);
      out = stream (K.held out.old) (K.held out.new) (K.faults out.old) (K.faults out.new);
      err = stream (E.held err.old) (E.held err.new) (E.faults err.old) (E.faults err.new);
    }) result }

    // The counts never fall.
    ensures source_later { S.faults source.old ≤ S.faults source.new }
    ensures out_later { K.faults out.old ≤ K.faults out.new }
    ensures err_later { E.faults err.old ≤ E.faults err.new }
{
    top_still(alloc, words, source, out, err, made)
}
