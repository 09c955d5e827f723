//! Runs without marks, and by oracles.

ghost use Rattle.forgotten_marks.specs.Laws.{PlaysAreRuns, RunsArePlayed, TellsAreRuns};
ghost use Rattle.node_emit.specs.Forgotten.{MarksAreForgotten, RunsAreByOracles};

/// Without the marks of points what code asks is the code's run.
pub fn marks_are_forgotten()
    ensures { MarksAreForgotten }
{}

/// Each run of a source that ends is told by some oracle.
pub fn runs_are_by_oracles()
    ensures { RunsAreByOracles }
{}

/// What a source tells under an oracle is its run by the oracle's answers.
pub fn tells_are_runs()
    ensures { TellsAreRuns }
{}

/// What code plays under an oracle is its run by the oracle's answers.
pub fn plays_are_runs()
    ensures { PlaysAreRuns }
{}

/// Each run of code that ends is by some oracle's answers.
pub fn runs_are_played()
    ensures { RunsArePlayed }
{}
