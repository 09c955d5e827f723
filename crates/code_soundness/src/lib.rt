//! The code of a source is sound, and shows what its source shows. Each law is the contract of a public function with an
//! empty body; nothing of it runs.
#![tactic(auto)]

ghost use Rattle.code_soundness.specs.Laws.{CodeIsSound, CodeShowsItsSource};

/// The code of a laid source, under any plan that waits in time, is never stuck, asks only for cells of the layout and
/// writes there only what fits, and has numbers that fall at each step but turns, calls and returns.
pub fn code_is_sound()
    ensures { CodeIsSound }
{}

/// It shows what its source shows, with enough instructions, also where the source's run is cut off.
pub fn code_shows_its_source()
    ensures { CodeShowsItsSource }
{}
