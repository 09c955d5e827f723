//! Laws of the code of a source beside its flow and its plan. Each is the contract of a public function with an empty
//! body; nothing of it runs.
#![tactic(auto)]

ghost use Rattle.code_laws.specs.Laws.{CodeDoesAsItsSource};

/// The code of a laid source, under any plan that waits in time, does on each node what the source does there, whatever
/// is answered, and its instructions are the runs of the points of the source's flow.
pub fn code_does_as_its_source()
    ensures { CodeDoesAsItsSource }
{}
