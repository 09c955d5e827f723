//! Laws of stages.

ghost use Rattle.replay_stages.specs.Courses.{CoursesAreFollowed};
ghost use Rattle.replay_stages.specs.Laws.{StagesGoOn};
ghost use Rattle.replay_stages.specs.Ending.{HistoriesAreTold};

/// A node that is followed stands at its next request or its stop, and goes on by what it is answered.
pub fn courses_are_followed()
    ensures { CoursesAreFollowed }
{}

/// A stage goes on with each event that is allowed, and with none that is not.
pub fn stages_go_on()
    ensures { StagesGoOn }
{}

/// A stage at which all is complete is that of a legal and complete history, and shows its outcome.
pub fn histories_are_told()
    ensures { HistoriesAreTold }
{}
