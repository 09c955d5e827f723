//! A node that is followed as a history is read: it goes on to its next request or its stop before it is asked.

ghost use Rattle.std.specs.Prelude.{◌≡◌, ◌++◌, [], ◌∷◌, List, true, false, Some, IfOk, OnOk};
ghost use Rattle.resumption.specs.Resumption.{next_event};
ghost use Rattle.sc_meaning.specs.declared.request.Request.{Request as Wish};
ghost use Rattle.sc_meaning.specs.Test.{same_end};
ghost use Rattle.sc_meaning.specs.Asking.{Answer as Reply, SourceDoing};
ghost use Rattle.core_run.specs.Views.{plain_answer};
ghost use Rattle.replay_stages.specs.Courses.{Course, stop_of, IsStuck};
ghost use Rattle.sc_meaning.specs.Answering.{is_answered};
ghost use Rattle.replay_stages.specs.Stage.{Front};
ghost use Rattle.replay_stages.specs.Laws.{ends_now};
ghost use Rattle.history_replay.specs.Fronts.{IsAt, said, StandsOn, request_in, stop_in};

use core_run::{Answer, Halt, Runner, Step};
use sc_base::{Bytes, End, OutOfMemory};
use sc_meaning::Request;
use std::alloc::Global;

/// The request that the step is.
fn request_of(step: Step) -> Option<Request>
    ensures { result ≡ request_in step }
{
    match step {
        Step::Asks(request) | Step::Makes(request) => Some(request),
        Step::Stops(_) => None,
    }
}

/// Whether the step is this end.
fn is_end(step: Step, end: End) -> bool
    ensures { result ≡ ends_now end (stop_in step) }
{
    match step {
        Step::Stops(Halt::Finishes(other)) => same_end(end, other),
        _ => false,
    }
}

/// Whether the two are one end.
fn same_end(end: End, other: End) -> bool
    ensures { result ≡ same_end end other }
{
    end == other
}

/// The node's next request, if it does not stop.
pub fn next_request(runner: &mut Runner<'_>) -> Result<Option<Request>, OutOfMemory>
    ensures request { (f : Front) → IsAt runner.old f → IfOk result (λ r. r ≡ next_event f.rest) }
    ensures stands { (f : Front) → IsAt runner.old f → OnOk result (IsAt runner.new (said f)) }
{
    let step = runner.next()?;
    Ok(request_of(step))
}

/// Whether the node stops next, and so.
pub fn ends_as(runner: &mut Runner<'_>, end: End) -> Result<bool, OutOfMemory>
    ensures so { (f : Front) → IsAt runner.old f → IfOk result (λ so. so ≡ ends_now end (stop_of f.rest)) }
    ensures stands { (f : Front) → IsAt runner.old f → OnOk result (IsAt runner.new (said f)) }
{
    let step = runner.next()?;
    Ok(is_end(step, end))
}

/// The node goes on past its next request, which is not answered.
pub fn pass(runner: &mut Runner<'_>) -> Result<(), OutOfMemory>
    ensures { (start : SourceDoing) (given : List Reply) (requests : List Wish) (f : Front) (r : Wish)
        → IsAt runner.old f → Course start given requests f.text f.rest → next_event f.rest ≡ Some r → is_answered r ≡ false
        → OnOk result (StandsOn runner.new start given (requests ++ r ∷ [])) }
{
    let _ = runner.next()?;
    runner.pass();
    Ok(())
}

/// The node goes on by the answer to its next request, if the answer fits, which is told.
pub fn answer(runner: &mut Runner<'_>, answer: Answer<'_>) -> Result<bool, OutOfMemory>
    ensures taken { (start : SourceDoing) (given : List Reply) (requests : List Wish) (f : Front) (r : Wish)
        → IsAt runner.old f → Course start given requests f.text f.rest → next_event f.rest ≡ Some r → is_answered r ≡ true
        → IfOk result (λ taken. taken ≡ true
        → StandsOn runner.new start (given ++ plain_answer answer.entry ∷ []) (requests ++ r ∷ [])) }
    ensures refused { (start : SourceDoing) (given : List Reply) (requests : List Wish) (f : Front) (r : Wish)
        → IsAt runner.old f → Course start given requests f.text f.rest → next_event f.rest ≡ Some r → is_answered r ≡ true
        → IfOk result (λ taken. taken ≡ false → IsStuck start (given ++ plain_answer answer.entry ∷ [])) }
{
    let _ = runner.next()?;
    runner.answer(answer)
}

/// What the node prints before its next request or its stop.
pub fn text_of(alloc: Global, runner: &mut Runner<'_>) -> Result<Bytes, OutOfMemory>
    ensures { (f : Front) → IsAt runner.old f → IfOk result (λ text. text ≡ (said f).text) }
{
    let _ = runner.next()?;
    let Ok(text) = Vec::from_slice(alloc, runner.printed()) else {
        return Err(OutOfMemory);
    };
    Ok(Bytes::from_vec(text))
}
