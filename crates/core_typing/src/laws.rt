//! Laws of the core trees of typed sources, as contracts of functions that do nothing.

ghost use Rattle.core_typing.specs.Law.{CoresAreTyped, SourcesAreProper, SourcesHaveTypedCores};

/// The core tree of a proper tree in which no typing rule is broken is typed.
pub fn cores_are_typed()
    ensures { CoresAreTyped }
{}

/// In the tree of a source each number has 64 bits, and no declaration stands alone behind an `if` or a loop.
pub fn sources_are_proper()
    ensures { SourcesAreProper }
{}

/// The core tree of a source that lexing, the grammar, the layout and typing accept is typed.
pub fn sources_have_typed_cores()
    ensures { SourcesHaveTypedCores }
{}
