//! Laws of resumptions, over any types of events, answers and stops.

ghost use Rattle.resumption.specs.Laws.{FollowsAnswers, StaysShort, AnswersExtend, SaysFirst, BeginsWithNext, ForgetsEvents};

/// What a process does is told by events; some of them are answered; and it stops for some reason. `Other` is what is
/// shown of an event where some are forgotten.
pub trait Resuming {
    ghost Event: { Type 0 };

    ghost Answer: { Type 0 };

    ghost Stop: { Type 0 };

    ghost Other: { Type 0 };
}

/// Answers that are followed are taken by the run, and then the others.
pub fn follows_answers<T: Resuming>()
    ensures { FollowsAnswers T.Event T.Answer T.Stop }
{}

/// Where answers are not all taken, further ones change nothing.
pub fn stays_short<T: Resuming>()
    ensures { StaysShort T.Event T.Answer T.Stop }
{}

/// More answers only extend what is done.
pub fn answers_extend<T: Resuming>()
    ensures { AnswersExtend T.Event T.Answer T.Stop }
{}

/// What is said before the next event comes first in every run.
pub fn says_first<T: Resuming>()
    ensures { SaysFirst T.Event T.Answer T.Stop }
{}

/// The first event of every run is the next one.
pub fn begins_with_next<T: Resuming>()
    ensures { BeginsWithNext T.Event T.Answer T.Stop }
{}

/// Forgetting leaves out, of every run, the events that are not shown.
pub fn forgets_events<T: Resuming>()
    ensures { ForgetsEvents T.Event T.Other T.Answer T.Stop }
{}
