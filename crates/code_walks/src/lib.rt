//! Laws of the walks of code along the flow of its source. Each is the contract of a public function with an empty body; nothing
//! of it runs.
#![tactic(auto)]

ghost use Rattle.code_walks.specs.Laws.{CodeCarriesItsFlow};

/// The code of a laid source, under any plan that waits in time, carries the flow of the source and the plan: it is the runs of the
/// flow's points with the plan's waits before them, enters them at their beginning, and walks along the flow's edges.
pub fn code_carries_its_flow()
    ensures { CodeCarriesItsFlow }
{}
