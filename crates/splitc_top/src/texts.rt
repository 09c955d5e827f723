//! What each command writes of a source.

ghost use Rattle.std.specs.Prelude.{◌≡◌, ◌≢◌, ◌<◌, ◌≤◌, length, IfOk, IfErr, Some, None};
ghost use Rattle.std.specs.Option.{option_map};
ghost use Rattle.sc_base.specs.declared.limits.TheConstants.{LIMITS};
ghost use Rattle.splitc_compile.specs.Compiled.{Parts, parts_of, AreParts};
ghost use Rattle.splitc_top.specs.Reasons.{Excuses, reason_of};
ghost use Rattle.splitc_top.specs.Texts.{Writes, IsMadeFor, IsTextOf};
ghost use Rattle.splitc_top.specs.Words.{nodes_of};

use crate::pairs::delay_text;
use crate::reason::Reason;
use crate::words::Command;
use run_report::Status;
use run_texts::{Report, explanation, run_report};
use sc_base::{LIMITS, OutOfMemory};
use sc_isa::listing;
use splitc_compile::{CompileError, Compiled, compile};
use std::alloc::Global;

/// Why a source that has no code gives no text.
fn reason_of(error: CompileError) -> Reason
    ensures { result ≡ reason_of error }
{
    match error {
        CompileError::Refused(refusal) => Reason::Refused(refusal),
        CompileError::OutOfMemory => Reason::Memory,
    }
}

/// The source compiled on the command's nodes, or why it is not compiled.
fn compiled_of(alloc: Global, command: Command, source: &[u8]) -> Result<Compiled, Reason>
    requires some { 0 < nodes_of command }
    requires short { length source.now ≤ LIMITS.source }
    ensures compiled { IfOk result (λ c. IsMadeFor command source.now (parts_of c)) }
    ensures refused { IfErr result (λ e. Excuses command source.now e) }
{
    match compile(alloc, source, command.nodes()) {
        Ok(compiled) => Ok(compiled),
        Err(e) => Err(reason_of(e)),
    }
}

/// A text that comes with the status of its own success.
fn ended(text: Vec<u8>) -> Report
    ensures text { result.text ≡ text }
    ensures status { result.status ≡ Status.Ended }
{
    Report {
        text,
        status: Status::Ended,
    }
}

/// What the command writes of the compiled source.
fn told_of(alloc: Global, command: Command, compiled: &Compiled) -> Result<Report, OutOfMemory>
    requires { AreParts (parts_of compiled.now) }
    ensures { IfOk result (λ r. Writes command (parts_of compiled.now) r.text.items r.status) }
{
    match command {
        Command::Run {
            seed,
            budget,
            memory,
            ..
        } => {
            let report = run_report(alloc, compiled, seed, budget, memory)?;
            Ok(report)
        }
        Command::Explain { seed, budget, .. } => {
            let text = explanation(alloc, compiled, seed, budget)?;
            Ok(ended(text))
        }
        Command::Compile { .. } => {
            let text = listing(alloc, &compiled.code)?;
            Ok(ended(text))
        }
        Command::Delays { .. } => {
            let text = delay_text(alloc, compiled)?;
            Ok(ended(text))
        }
    }
}

/// The text of the command for the source, or why there is none; and what was made of the source on the way.
pub fn text_of(
    alloc: Global,
    command: Command,
    source: &[u8],
    made: &mut Option<Compiled>,
) -> Result<Report, Reason>
    requires some { 0 < nodes_of command }
    requires short { length source.now ≤ LIMITS.source }
    requires none { made.old ≡ None }
    ensures told { IfOk result (λ r. IsTextOf command (option_map parts_of made.new) source.now r.text.items r.status) }
    ensures refused { IfErr result (λ e. Excuses command source.now e) }
    ensures unmade { IfErr result (λ e. e ≢ Reason.Memory → option_map parts_of made.new ≡ None) }
    ensures made { (parts : Parts) → option_map parts_of made.new ≡ Some parts → IsMadeFor command source.now parts }
{
    let compiled = compiled_of(alloc, command, source)?;
    let told = told_of(alloc, command, &compiled);
    *made = Some(compiled);
    match told {
        Ok(report) => Ok(report),
        Err(OutOfMemory) => Err(Reason::Memory),
    }
}
