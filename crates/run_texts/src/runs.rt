//! The run of a compiled source by the picks of a seed, and what it shows.

ghost use Rattle.std.specs.Prelude.{IfOk};
ghost use Rattle.splitc_compile.specs.Compiled.{parts_of, AreParts};
ghost use Rattle.run_texts.specs.Runs.{IsReportOf, IsExplanationOf};
ghost use Rattle.run_texts.specs.Seeds.{IsSeedRun};

use crate::texts::{history_text, report_text};
use compiled_order::order;
use fabric::Run;
use run_report::{Status, status_of_results};
use run_sim::{SeedPicks, run_picks};
use sc_base::OutOfMemory;
use splitc_compile::Compiled;
use std::alloc::Global;

/// The report of a run, and the status that its nodes' ends give the program.
#[derive(Drop)]
pub struct Report {
    pub text: Vec<u8>,
    pub status: Status,
}

/// The run by the seed's picks, in which each node may begin so many loop turns and calls.
fn run_of(alloc: Global, compiled: &Compiled, seed: u64, budget: u64) -> Result<Run, OutOfMemory>
    requires { AreParts (parts_of compiled.now) }
    ensures { IfOk result (λ run. IsSeedRun (parts_of compiled.now) seed budget run) }
{
    let mut picks = SeedPicks::new(seed);
    let run = run_picks(alloc, compiled, budget, &mut picks)?;
    Ok(run)
}

/// Runs the code of the source by the seed's picks, each node with this budget of loop turns and calls, and reports what
/// the nodes printed and how they ended, with the cells where `memory` asks for them. What is reported is the outcome of one
/// complete history of the source. The one error is want of memory.
pub fn run_report(
    alloc: Global,
    compiled: &Compiled,
    seed: u64,
    budget: u64,
    memory: bool,
) -> Result<Report, OutOfMemory>
    requires { AreParts (parts_of compiled.now) }
    ensures { IfOk result (λ report. IsReportOf (parts_of compiled.now) seed budget memory report.text.items report.status) }
{
    let run = run_of(alloc, compiled, seed, budget)?;
    let text = report_text(alloc, compiled, &run, memory)?;
    Ok(Report {
        text,
        status: status_of_results(run.nodes.as_slice()),
    })
}

/// Runs the code as `run_report` does, and gives the lines of the one complete history of the source that the run is. The
/// one error is want of memory.
pub fn explanation(
    alloc: Global,
    compiled: &Compiled,
    seed: u64,
    budget: u64,
) -> Result<Vec<u8>, OutOfMemory>
    requires { AreParts (parts_of compiled.now) }
    ensures { IfOk result (λ text. IsExplanationOf (parts_of compiled.now) seed budget text.items) }
{
    let run = run_of(alloc, compiled, seed, budget)?;
    let history = order(alloc, compiled, budget, &run)?;
    let text = history_text(alloc, compiled, &history)?;
    Ok(text)
}
