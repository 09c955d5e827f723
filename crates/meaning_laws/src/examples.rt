//! Small histories, by computation: whole ones, and for each condition one that it alone keeps from being whole.

ghost use Rattle.meaning_laws.specs.ExampleHistories.{HistoriesHold};
ghost use Rattle.meaning_laws.specs.BudgetExamples.{BudgetsCut};
ghost use Rattle.meaning_laws.specs.Refusals.{ConditionsRefuse};
ghost use Rattle.meaning_laws.specs.Incomplete.{ConditionsAreNeeded};

/// Four histories of two nodes are legal and complete, with puts, gets, stores, copies in each way, syncs, barriers
/// that are released and one that is not.
pub fn histories_hold()
    ensures { HistoriesHold }
{}

/// For each condition of a legal history an event that it alone refuses.
pub fn conditions_refuse()
    ensures { ConditionsRefuse }
{}

/// For each condition of completeness a list of events that it alone keeps from being complete.
pub fn conditions_are_needed()
    ensures { ConditionsAreNeeded }
{}

/// Small sources use up their budget in loops and in calls, or their frames; a loop that is left before its turn uses
/// no budget.
pub fn budgets_cut()
    ensures { BudgetsCut }
{}
