//! The code theorem: the code of a source is sound, carries the source's flow and the plan, and does what its source does. It is
//! the contract of a public function with an empty body; nothing of it runs.
#![tactic(auto)]

ghost use Rattle.node_emit.specs.Law.{CodeTheorem};

/// The code of a laid source, under any plan that waits in time, is sound, carries the flow of the source and the plan, and on each
/// node shows what the source shows, whatever is answered and whatever goes one-way.
pub fn code_theorem()
    ensures { CodeTheorem }
{}
