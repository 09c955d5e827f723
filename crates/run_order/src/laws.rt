//! What a legal journal gives.

ghost use Rattle.run_order.specs.Laws.{LegalJournalsAreOn};

/// Each entry of a legal journal is of a node of its machine.
pub fn legal_journals_are_on()
    ensures { LegalJournalsAreOn }
{}
