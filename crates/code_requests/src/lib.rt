//! What the runs of code request. Each law is the contract of a public function with an empty body; nothing of it runs.
#![tactic(auto)]

ghost use Rattle.code_requests.specs.Laws.{CodeAccessesArePlaced, CodeMakesRequests, CodeRunsAreOrdered, JournalsArePlayed, SourcesWaitForAnswers};

/// In a whole run of code what a node requests, says and ends with is what the code plays under the oracle that the run shows: the
/// values of the node's accesses, and the barriers that it passes.
pub fn journals_are_played()
    ensures { JournalsArePlayed }
{}

/// In each whole run of the code of a source each access lies in the layout: its cells are cells of it, a value that is written fits
/// its cell, and a copy is between cells of one type.
pub fn code_accesses_are_placed()
    ensures { CodeAccessesArePlaced }
{}

/// In each whole run of the code of a source each node makes the requests of the source's process under the answers that the run
/// shows, with the same text and the same end. This is what the order theorem takes of a run.
pub fn code_makes_requests()
    ensures { CodeMakesRequests }
{}

/// A source waits for an answer exactly after the requests that are answered.
pub fn sources_wait_for_answers()
    ensures { SourcesWaitForAnswers }
{}

/// The order theorem for the code of a source: where what has to come before what has no cycle, the source order of a whole run is one
/// whole history of the source, with the run's outcome.
pub fn code_runs_are_ordered()
    ensures { CodeRunsAreOrdered }
{}
