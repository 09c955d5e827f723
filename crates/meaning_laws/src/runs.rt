//! What every run of a source's node keeps to.

ghost use Rattle.meaning_laws.specs.Budget.{BudgetBounds, FramesAreBounded};
ghost use Rattle.meaning_laws.specs.Points.{PointsAreForgotten};

/// A node begins no more loop turns and calls than its budget, and is cut exactly where it would begin one more.
pub fn budget_bounds()
    ensures { BudgetBounds }
{}

/// No more frames stand in a node than may. A call that would make one more is the last that it does: the node is cut
/// there, or it is the fault `Depth`, which comes nowhere else.
pub fn frames_are_bounded()
    ensures { FramesAreBounded }
{}

/// Forgetting the points of a node's run leaves its requests, its text and its end as they are without points.
pub fn points_are_forgotten()
    ensures { PointsAreForgotten }
{}
