//! A node: its machine, what it stands at, and the answers that it got.

ghost use Rattle.std.specs.Prelude.{◌≡◌, ℕ, false, ◌<◌, [], ◌∷◌, ◌++◌, List, length, IfOk, OnOk};
ghost use Rattle.sc_layout.specs.Layout.{Arrangement};
ghost use Rattle.sc_isa.specs.declared.code.Code.{Code};
ghost use Rattle.sc_isa.specs.Run.{Ask, Wait, Pass};
ghost use Rattle.sc_isa.specs.Sound.{IsSound};
ghost use Rattle.node_machine.specs.Course.{Finishes};
ghost use Rattle.node_machine.specs.Standings.{HasEnded, FitsAsk, standing_by, standing_of, standing_passed, between, is_between, asked_at, end_of, ask_of};
ghost use Rattle.node_machine.specs.Nodes.{IsAt, HasCounters, HasRoom, IsNext, plain_answers};

use crate::machine::{After, Machine, Move};
use sc_base::{Bytes, End, OutOfMemory};
use sc_isa::{Access, Code, Landed, NodeResult};
use sc_layout::Layout;
use std::alloc::{AllocError, Global};

/// What a node asks next.
#[derive(Clone, Copy, Debug)]
pub enum Asked {
    Issue(Access),
    Wait { counter: u32 },
    Arrive { stores: bool },
    Pass,
    Finish(End),
}

/// What it is answered.
#[derive(Debug, Drop)]
pub enum Answer {
    Issued,
    Landed(Landed),
    Arrived,
    Passed,
    Broken,
}

/// Where a node stands: between two instructions, or at what it asked, or it has ended.
#[derive(Clone, Copy, Debug)]
pub enum Standing {
    Between,
    Issued(Access, After),
    Waits(u32),
    Arrives(bool),
    Passes,
    Ended(End),
    Stuck,
}

/// A node that runs code, with the answers so far to its waits and passes.
#[derive(Debug, Drop)]
pub struct Node {
    own: u32,
    budget: u64,
    machine: Machine,
    standing: Standing,
    answers: Vec<Answer>,
    printed: Vec<u8>,
}

fn standing_after(after: After) -> Standing
    ensures { result ≡ standing_by after }
{
    match after {
        After::GoesOn => Standing::Between,
        After::Ends(end) => Standing::Ended(end),
        After::Sticks => Standing::Stuck,
    }
}

fn standing_of(made: Move) -> Standing
    ensures { result ≡ standing_of made }
{
    match made {
        Move::Comes(after) => standing_after(after),
        Move::Issues(access, after) => Standing::Issued(access, after),
        Move::Waits(counter) => Standing::Waits(counter),
        Move::Meets(stores) => Standing::Arrives(stores),
    }
}

impl Node {
    /// Does an instruction. Where memory is wanting, all is as it was.
    fn advance(&mut self, code: &Code, layout: &Layout) -> Result<(), AllocError>
        requires between { self.old.standing ≡ between }
        requires counters { HasCounters code.now self.old }
        ensures course { (asked : List Ask) → IsAt code.now layout.now self.old asked
            → IsAt code.now layout.now self.new asked }
        ensures counters { HasCounters code.now self.new }
        ensures answers { self.new.answers ≡ self.old.answers }
        ensures own { self.new.own ≡ self.old.own }
        ensures budget { self.new.budget ≡ self.old.budget }
    {
        let made = self
            .machine
            .step(code, layout, self.own, &mut self.printed)?;
        self.standing = standing_of(made);
        Ok(())
    }

    /// Does the next instruction, if that is one that is done at once.
    fn hasten(&mut self, code: &Code) -> bool
        requires between { self.old.standing ≡ between }
        ensures course { (layout : Arrangement) (asked : List Ask) → IsAt code.now layout self.old asked
            → IsAt code.now layout self.new asked }
        ensures counters { HasCounters code.now self.old → HasCounters code.now self.new }
        ensures standing { self.new.standing ≡ self.old.standing }
        ensures answers { self.new.answers ≡ self.old.answers }
        ensures own { self.new.own ≡ self.old.own }
        ensures budget { self.new.budget ≡ self.old.budget }
    {
        self.machine.quick(code)
    }

    /// Does an instruction, at once or by the table.
    fn go_on(&mut self, code: &Code, layout: &Layout) -> Result<(), AllocError>
        requires between { self.old.standing ≡ between }
        requires counters { HasCounters code.now self.old }
        ensures course { (asked : List Ask) → IsAt code.now layout.now self.old asked
            → IsAt code.now layout.now self.new asked }
        ensures counters { HasCounters code.now self.new }
        ensures answers { self.new.answers ≡ self.old.answers }
        ensures own { self.new.own ≡ self.old.own }
        ensures budget { self.new.budget ≡ self.old.budget }
    {
        if self.hasten(code) {
            return Ok(());
        }
        self.advance(code, layout)
    }

    /// Goes on to where something is asked.
    fn run(&mut self, code: &Code, layout: &Layout) -> Result<(), AllocError>
        requires { HasCounters code.now self.old }
        ensures course { (asked : List Ask) → IsAt code.now layout.now self.old asked
            → IsAt code.now layout.now self.new asked }
        ensures stops { OnOk result (is_between self.new.standing ≡ false) }
        ensures counters { HasCounters code.now self.new }
        ensures answers { self.new.answers ≡ self.old.answers }
        ensures own { self.new.own ≡ self.old.own }
        ensures budget { self.new.budget ≡ self.old.budget }
    {
        for _ in 0..u64::MAX {
            if !is_between(self.standing) {
                return Ok(());
            }
            self.go_on(code, layout)?;
        }
        Err(AllocError)
    }

    /// Runs to the next event and makes the room for its answer: what is asked is the next ask of the code's run under
    /// the answers so far. Where memory is wanting, or after 2^64 - 1 instructions, the node stands at an instruction
    /// boundary, and the call may be made again.
    pub fn run_to_event(&mut self, code: &Code, layout: &Layout) -> Result<Asked, OutOfMemory>
        requires { HasCounters code.now self.old }
        ensures course { (asked : List Ask) → IsAt code.now layout.now self.old asked
            → IsAt code.now layout.now self.new asked }
        ensures next { IsSound code.now layout.now → self.old.own < layout.now.nodes → IfOk result (λ ask. (asked : List Ask)
            → IsAt code.now layout.now self.old asked → IsNext code.now layout.now self.new asked ask) }
        ensures standing { IfOk result (λ ask. ask ≡ asked_at self.new.standing) }
        ensures room { OnOk result (HasRoom self.new) }
        ensures counters { HasCounters code.now self.new }
        ensures answers { plain_answers self.new.answers.items ≡ plain_answers self.old.answers.items }
        ensures own { self.new.own ≡ self.old.own }
        ensures budget { self.new.budget ≡ self.old.budget }
    {
        let Ok(()) = self.run(code, layout) else {
            return Err(OutOfMemory);
        };
        let Ok(()) = self.answers.reserve(1) else {
            return Err(OutOfMemory);
        };
        Ok(asked_at(self.standing))
    }

    /// Goes on by the answer, which fits what was asked. This takes no memory.
    pub fn answer(&mut self, answer: Answer)
        requires { HasRoom self.old }
        ensures course { (code : Code) (layout : Arrangement) (asked : List Ask) → IsAt code layout self.old asked
            → FitsAsk layout self.old.standing asked answer
            → IsAt code layout self.new (asked ++ ask_of self.old.standing) }
        ensures answers { (layout : Arrangement) (asked : List Ask) → FitsAsk layout self.old.standing asked answer
            → plain_answers self.new.answers.items
            ≡ plain_answers self.old.answers.items ++ plain_answers (answer ∷ []) }
        ensures counters { (code : Code) → HasCounters code self.old → HasCounters code self.new }
        ensures own { self.new.own ≡ self.old.own }
        ensures budget { self.new.budget ≡ self.old.budget }
    {
        match self.standing {
            Standing::Issued(_, after) => self.standing = standing_after(after),
            Standing::Waits(counter) => self.land(counter, answer),
            Standing::Arrives(_) => self.standing = Standing::Passes,
            Standing::Passes => self.pass(answer),
            Standing::Between | Standing::Ended(_) | Standing::Stuck => {}
        }
    }

    /// The values land.
    #[tactic(auto, using(crate::proofs::Answered::one_more_answer))]
    fn land(&mut self, counter: u32, answer: Answer)
        requires room { HasRoom self.old }
        requires standing { self.old.standing ≡ Standing.Waits counter }
        ensures course { (code : Code) (layout : Arrangement) (asked : List Ask) → IsAt code layout self.old asked
            → FitsAsk layout (Standing.Waits counter) asked answer
            → IsAt code layout self.new (asked ++ Wait counter ∷ []) }
        ensures answers { (layout : Arrangement) (asked : List Ask) → FitsAsk layout (Standing.Waits counter) asked answer
            → plain_answers self.new.answers.items
            ≡ plain_answers self.old.answers.items ++ plain_answers (answer ∷ []) }
        ensures counters { length self.new.machine.reads ≡ length self.old.machine.reads }
        ensures own { self.new.own ≡ self.old.own }
        ensures budget { self.new.budget ≡ self.old.budget }
    {
        let Answer::Landed(landed) = &answer else {
            return;
        };
        self.machine.land(counter, landed.values());
        self.standing = Standing::Between;
        self.answers.push_reserved(answer);
    }

    /// The barrier is passed or broken.
    #[tactic(auto, using(crate::proofs::Answered::one_more_answer))]
    fn pass(&mut self, answer: Answer)
        requires room { HasRoom self.old }
        requires standing { self.old.standing ≡ Standing.Passes }
        ensures course { (code : Code) (layout : Arrangement) (asked : List Ask) → IsAt code layout self.old asked
            → FitsAsk layout Standing.Passes asked answer
            → IsAt code layout self.new (asked ++ Pass ∷ []) }
        ensures answers { plain_answers self.new.answers.items
            ≡ plain_answers self.old.answers.items ++ plain_answers (answer ∷ []) }
        ensures counters { length self.new.machine.reads ≡ length self.old.machine.reads }
        ensures own { self.new.own ≡ self.old.own }
        ensures budget { self.new.budget ≡ self.old.budget }
    {
        self.standing = passed(&answer);
        self.answers.push_reserved(answer);
    }

    /// What the node printed, and how it ended.
    pub fn into_result(self) -> NodeResult
        ensures printed { result.printed ≡ self.printed.items }
        ensures finishes { (code : Code) (layout : Arrangement) (asked : List Ask) → IsAt code layout self asked
            → HasEnded self.standing → Finishes code layout self.own self.budget (plain_answers self.answers.items) asked
            result.printed result.end }
    {
        let end = end_of(self.standing);
        NodeResult {
            printed: Bytes::from_vec(self.printed),
            end,
        }
    }
}

fn is_between(standing: Standing) -> bool
    ensures { result ≡ is_between standing }
{
    matches!(standing, Standing::Between)
}

fn asked_at(standing: Standing) -> Asked
    ensures { result ≡ asked_at standing }
{
    match standing {
        Standing::Issued(access, _) => Asked::Issue(access),
        Standing::Waits(counter) => Asked::Wait { counter },
        Standing::Arrives(stores) => Asked::Arrive { stores },
        Standing::Passes => Asked::Pass,
        Standing::Ended(end) => Asked::Finish(end),
        Standing::Between | Standing::Stuck => Asked::Finish(End::Waiting),
    }
}

/// A node that finds its barrier broken ends as waiting.
fn passed(answer: &Answer) -> Standing
    ensures { result ≡ standing_passed answer.now }
{
    match answer {
        Answer::Broken => Standing::Ended(End::Waiting),
        _ => Standing::Between,
    }
}

fn end_of(standing: Standing) -> End
    ensures { result ≡ end_of standing }
{
    match standing {
        Standing::Ended(end) => end,
        _ => End::Waiting,
    }
}

impl Node {
    /// The node at its first instruction.
    #[tactic(auto, using(crate::proofs::Beginning::begins_flying))]
    pub fn new(
        alloc: Global,
        node: u32,
        layout: &Layout,
        budget: u64,
        code: &Code,
    ) -> Result<Node, OutOfMemory>
        ensures at { IfOk result (λ made. IsAt code.now layout.now made []) }
        ensures own { IfOk result (λ made. made.own ≡ node) }
        ensures budget { IfOk result (λ made. made.budget ≡ budget) }
        ensures answers { IfOk result (λ made. plain_answers made.answers.items ≡ []) }
        ensures counters { IfOk result (HasCounters code.now) }
    {
        let _ = layout;
        let machine = Machine::begin(alloc, budget, code).map_err(|_| OutOfMemory)?;
        Ok(Node {
            own: node,
            budget,
            machine,
            standing: Standing::Between,
            answers: Vec::new(alloc),
            printed: Vec::new(alloc),
        })
    }
}
