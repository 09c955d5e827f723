//! The nodes that are followed as a history is read.

ghost use Rattle.std.specs.Prelude.{◌≡◌, ◌<◌, ◌++◌, [], ◌∷◌, ℕ, List, true, false, Some, IfOk, OnOk, length, slice_get};
ghost use Rattle.resumption.specs.Resumption.{next_event};
ghost use Rattle.sc_core.specs.ViewStatements.{plain_program};
ghost use Rattle.sc_meaning.specs.declared.request.Request.{Request as Wish};
ghost use Rattle.sc_meaning.specs.Asking.{Answer as Reply, SourceDoing, Passed};
ghost use Rattle.sc_meaning.specs.Meaning.{meaning};
ghost use Rattle.core_run.specs.Views.{plain_answer};
ghost use Rattle.replay_stages.specs.Courses.{Course, stop_of, IsStuck};
ghost use Rattle.sc_meaning.specs.Answering.{is_answered};
ghost use Rattle.replay_stages.specs.Stage.{Front};
ghost use Rattle.replay_stages.specs.Laws.{ends_now, with_front};
ghost use Rattle.history_replay.specs.Fronts.{AllAt, said, GoesTo, first_front, AllWait, Passing, SomeStuck};

use crate::front::{answer, ends_as, next_request, pass, text_of};
use core_run::{Answer, Runner};
use sc_base::{Bytes, End, OutOfMemory};
use sc_core::CoreProgram;
use sc_layout::Layout;
use sc_meaning::Request;
use std::alloc::Global;

/// The nodes of a source, by number. After an `Err` they are not to be used.
#[derive(Drop)]
pub struct Nodes<'a> {
    runners: Vec<Runner<'a>>,
}

impl<'a> Nodes<'a> {
    /// All nodes before their first step.
    pub fn new(
        alloc: Global,
        program: &'a CoreProgram,
        layout: &'a Layout,
        budget: u64,
    ) -> Result<Nodes<'a>, OutOfMemory>
        ensures many { IfOk result (λ all. length all.runners.items ≡ layout.now.nodes) }
        ensures all { IfOk result (λ all. AllAt all.runners.items (first_front layout.now (plain_program program.now) budget)) }
    {
        let mut runners = Vec::new(alloc);
        for node in 0..layout.nodes() {
            let runner = Runner::new(alloc, program, layout, node, budget)?;
            let Ok(()) = runners.push(runner) else {
                return Err(OutOfMemory);
            };
        }
        Ok(Nodes { runners })
    }

    /// The next request of the node, if there is such a node and it does not stop.
    pub fn request(&mut self, node: u32) -> Result<Option<Request>, OutOfMemory>
        ensures many { OnOk result (length self.new.runners.items ≡ length self.old.runners.items) }
        ensures request { (fronts : ℕ → Front) → AllAt self.old.runners.items fronts → node < length self.old.runners.items
            → IfOk result (λ r. r ≡ next_event (fronts node).rest) }
        ensures stands { (fronts : ℕ → Front) → AllAt self.old.runners.items fronts → node < length self.old.runners.items
            → OnOk result (AllAt self.new.runners.items (with_front fronts node (said (fronts node)))) }
    {
        if node as usize >= self.runners.len() {
            return Ok(None);
        }
        let runner = &mut self.runners[node as usize];
        next_request(runner)
    }

    /// Whether there is such a node, and it stops next, and so.
    pub fn ends_as(&mut self, node: u32, end: End) -> Result<bool, OutOfMemory>
        ensures many { OnOk result (length self.new.runners.items ≡ length self.old.runners.items) }
        ensures so { (fronts : ℕ → Front) → AllAt self.old.runners.items fronts → node < length self.old.runners.items
            → IfOk result (λ so. so ≡ ends_now end (stop_of (fronts node).rest)) }
        ensures stands { (fronts : ℕ → Front) → AllAt self.old.runners.items fronts → node < length self.old.runners.items
            → OnOk result (AllAt self.new.runners.items (with_front fronts node (said (fronts node)))) }
    {
        if node as usize >= self.runners.len() {
            return Ok(false);
        }
        let runner = &mut self.runners[node as usize];
        ends_as(runner, end)
    }

    /// The node, if there is one, goes on past its next request, which is not answered.
    pub fn pass(&mut self, node: u32) -> Result<(), OutOfMemory>
        ensures many { OnOk result (length self.new.runners.items ≡ length self.old.runners.items) }
        ensures goes { (start : SourceDoing) (given : List Reply) (requests : List Wish) (fronts : ℕ → Front) (r : Wish)
            → AllAt self.old.runners.items fronts → node < length self.old.runners.items
            → Course start given requests (fronts node).text (fronts node).rest → next_event (fronts node).rest ≡ Some r
            → is_answered r ≡ false
            → OnOk result (GoesTo self.new.runners.items fronts node start given (requests ++ r ∷ [])) }
    {
        if node as usize >= self.runners.len() {
            return Ok(());
        }
        let runner = &mut self.runners[node as usize];
        pass(runner)
    }

    /// The node goes on by the answer to its next request, if there is such a node and the answer fits, which is told.
    pub fn answer(&mut self, node: u32, reply: Answer<'_>) -> Result<bool, OutOfMemory>
        ensures many { OnOk result (length self.new.runners.items ≡ length self.old.runners.items) }
        ensures taken { (start : SourceDoing) (given : List Reply) (requests : List Wish) (fronts : ℕ → Front) (r : Wish)
            → AllAt self.old.runners.items fronts → node < length self.old.runners.items
            → Course start given requests (fronts node).text (fronts node).rest → next_event (fronts node).rest ≡ Some r
            → is_answered r ≡ true → IfOk result (λ taken. taken ≡ true
            → GoesTo self.new.runners.items fronts node start (given ++ plain_answer reply.entry ∷ []) (requests ++ r ∷ [])) }
        ensures refused { (start : SourceDoing) (given : List Reply) (requests : List Wish) (fronts : ℕ → Front) (r : Wish)
            → AllAt self.old.runners.items fronts → node < length self.old.runners.items
            → Course start given requests (fronts node).text (fronts node).rest → next_event (fronts node).rest ≡ Some r
            → is_answered r ≡ true → IfOk result (λ taken. taken ≡ false
            → IsStuck start (given ++ plain_answer reply.entry ∷ [])) }
    {
        if node as usize >= self.runners.len() {
            return Ok(false);
        }
        let runner = &mut self.runners[node as usize];
        answer(runner, reply)
    }

    /// Each node goes on from the barrier at which it stands.
    pub fn pass_barrier(&mut self, nodes: u32) -> Result<bool, OutOfMemory>
        ensures many { OnOk result (length self.new.runners.items ≡ length self.old.runners.items) }
        ensures passes { (start : ℕ → SourceDoing) (given : ℕ → List Reply) (all : ℕ → List Wish) (fronts : ℕ → Front)
            → AllWait nodes start given all self.old.runners.items fronts → IfOk result (λ ok. ok ≡ true
            → Passing nodes start given all nodes self.new.runners.items fronts) }
        ensures refused { (start : ℕ → SourceDoing) (given : ℕ → List Reply) (all : ℕ → List Wish) (fronts : ℕ → Front)
            → AllWait nodes start given all self.old.runners.items fronts → IfOk result (λ ok. ok ≡ false
            → SomeStuck nodes start given all) }
    {
        for node in 0..nodes {
            if !self.answer(node, Answer::Passed)? {
                return Ok(false);
            }
        }
        Ok(true)
    }

    /// What each node prints before its next request or its stop.
    pub fn texts(&mut self, alloc: Global) -> Result<Vec<Bytes>, OutOfMemory>
        ensures many { IfOk result (λ texts. length texts.items ≡ length self.old.runners.items) }
        ensures texts { (fronts : ℕ → Front) → AllAt self.old.runners.items fronts → IfOk result (λ texts. (n : ℕ)
            → n < length self.old.runners.items → slice_get texts.items n ≡ Some (said (fronts n)).text) }
    {
        let mut texts = Vec::new(alloc);
        for node in 0..self.runners.len() {
            let runner = &mut self.runners[node];
            let text = text_of(alloc, runner)?;
            let Ok(()) = texts.push(text) else {
                return Err(OutOfMemory);
            };
        }
        Ok(texts)
    }
}
