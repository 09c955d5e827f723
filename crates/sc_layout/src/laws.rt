//! Laws of layouts and of the arithmetic of pointers: each function's clause is the law.

ghost use Rattle.std.specs.Prelude.{◌≡◌, ℕ, List, Err};
ghost use Rattle.sc_base.specs.declared.shape.Shape.{Shape};
ghost use Rattle.sc_layout.specs.declared.error.LayoutError.TheVariants.{OutOfMemory};
ghost use Rattle.sc_layout.specs.Layout.{layout_of};
ghost use Rattle.sc_layout.specs.Laws.{PartsGiveTheValue, SpreadElementsArePlaces, NodeZeroIsFullest, SpreadStepsAdd, WalkIsCyclic, ToprocOfToglobal};

/// A bound's expression has the value of its operator at the values of its two parts.
pub fn parts_give_the_value()
    ensures { PartsGiveTheValue }
{}

/// The elements of a spread object and its places correspond one to one.
pub fn spread_elements_are_places()
    ensures { SpreadElementsArePlaces }
{}

/// Node 0 has at least as many cells as any other.
pub fn node_zero_is_fullest()
    ensures { NodeZeroIsFullest }
{}

/// A spread step and then another are a step by the sum, where none of them faults.
pub fn spread_steps_add()
    ensures { SpreadStepsAdd }
{}

/// A walk by spread steps from element 0 visits the elements in cyclic order over the nodes.
pub fn walk_is_cyclic()
    ensures { WalkIsCyclic }
{}

/// `toproc` gives the node that `toglobal` was given.
pub fn toproc_of_toglobal()
    ensures { ToprocOfToglobal }
{}

/// Shapes are refused for what they are, and not for want of memory.
pub fn refused_for_what_they_are()
    ensures { (shapes : List Shape) (nodes : ℕ) → layout_of shapes nodes ≡ Err OutOfMemory → ⊥ }
{}
