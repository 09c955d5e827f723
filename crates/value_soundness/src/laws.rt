//! Laws of typed sources.

ghost use Rattle.value_soundness.specs.Laws.{RunsAreLawful, LegalPastsAreLawful};

/// Under answers whose pointers name exposed objects only, each request of a typed source is lawful, and no value of a
/// wrong kind is met.
pub fn runs_are_lawful()
    ensures { RunsAreLawful }
{}

/// In a legal history of a typed source each answer fits, each effect on a cell is lawful, and each request is.
pub fn legal_pasts_are_lawful()
    ensures { LegalPastsAreLawful }
{}
