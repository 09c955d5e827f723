//! How the program ends.

ghost use Rattle.std.specs.Prelude.{◌≡◌, Some, length};
ghost use Rattle.std.specs.List.{list_any};
ghost use Rattle.run_report.specs.Report.{ends_in};
ghost use Rattle.run_report.specs.Status.{code_of, is_fault, is_cut, is_waiting, status_of};

use sc_base::End;
use sc_isa::NodeResult;

/// How the program ends: with the report of a run in which each node ended or in which some is at fault, is waiting or was
/// cut (`Ended`, `Fault`, `Waiting`, `Cut`), with a refusal's line (`Words`, `Refused`, `Read`, `Memory`), or by a sink
/// that failed (`Write`).
#[derive(Clone, Copy, Debug, PartialEq, Eq)]
pub enum Status {
    Ended,
    Fault,
    Waiting,
    Cut,
    Words,
    Refused,
    Read,
    Write,
    Memory,
}

impl Status {
    /// The number that the process ends with.
    pub fn code(&self) -> u8
        ensures { result ≡ code_of self.now }
    {
        match self {
            Status::Ended => 0,
            Status::Fault => 10,
            Status::Waiting => 11,
            Status::Cut => 12,
            Status::Words => 2,
            Status::Refused => 3,
            Status::Read => 4,
            Status::Write => 5,
            Status::Memory => 6,
        }
    }
}

fn some_fault(nodes: &[NodeResult]) -> bool
    ensures { result ≡ list_any (λ node. is_fault (Some node.end)) nodes.now }
{
    nodes
        .iter()
        .any(|node| matches!(node.end, End::Fault { .. }))
}

fn some_cut(nodes: &[NodeResult]) -> bool
    ensures { result ≡ list_any (λ node. is_cut (Some node.end)) nodes.now }
{
    nodes.iter().any(|node| matches!(node.end, End::Cut))
}

fn some_waiting(nodes: &[NodeResult]) -> bool
    ensures { result ≡ list_any (λ node. is_waiting (Some node.end)) nodes.now }
{
    nodes.iter().any(|node| matches!(node.end, End::Waiting))
}

/// How the run ends whose nodes left these results: at fault before cut, and cut before waiting.
pub fn status_of_results(nodes: &[NodeResult]) -> Status
    ensures { result ≡ status_of (length nodes.now) (ends_in nodes.now) }
{
    if some_fault(nodes) {
        Status::Fault
    } else if some_cut(nodes) {
        Status::Cut
    } else if some_waiting(nodes) {
        Status::Waiting
    } else {
        Status::Ended
    }
}
