//! The tests of histories say exactly what is allowed and what is complete.

ghost use Rattle.sc_meaning.specs.CompleteTest.{TestIsExact, CompleteTestIsExact};

/// The test of an event after a past holds exactly where the event is allowed.
pub fn test_is_exact()
    ensures { TestIsExact }
{}

/// The test of a past holds exactly where it is complete.
pub fn complete_test_is_exact()
    ensures { CompleteTestIsExact }
{}
