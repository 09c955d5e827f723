//! The table of steps, of which a source's meaning and its node code are read.

ghost use Rattle.meaning_laws.specs.StepTable.{StepsAreTheirInstructions, ActionsAreTheirInstructions};

/// The instructions of a step with a value do to a node's state what the step does with the values of its arguments.
pub fn steps_are_their_instructions()
    ensures { StepsAreTheirInstructions }
{}

/// So do those of a step without a value.
pub fn actions_are_their_instructions()
    ensures { ActionsAreTheirInstructions }
{}
