//! Laws by which a history is judged event by event. Each is the contract of a public function with an empty body;
//! nothing of it runs.

ghost use Rattle.sc_replay.specs.Courses.{CoursesGoOn};
ghost use Rattle.sc_replay.specs.Judging.{JudgesInOneWay};

/// A node's run is followed by its requests and answers: what is left of it tells its next request and its end.
pub fn courses_go_on()
    ensures { CoursesGoOn }
{}

/// A list of events is judged in one way: there is one answer that is right.
pub fn judged_in_one_way()
    ensures { JudgesInOneWay }
{}
