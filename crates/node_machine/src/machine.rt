//! The state of a node between two instructions, and the moves that the instruction table is made of.

ghost use Rattle.std.specs.Prelude.{◌≡◌, ◌<◌, length};
ghost use Rattle.sc_isa.specs.declared.operand.Operand.TheVariants.{Here};
ghost use Rattle.sc_isa.specs.State.{State, pushed, landed};
ghost use Rattle.sc_isa.specs.Moves.{GoesOn, Comes};
ghost use Rattle.node_machine.specs.View.{Does, Stands};

use node_state::{Counts, Frames};
use node_values::computing::Outcome;
use sc_base::{End, FaultKind, Value};
use sc_isa::{Access, Operand, Slot};

/// What an instruction comes to that asks nothing more.
#[derive(Clone, Copy, Debug)]
pub enum After {
    GoesOn,
    Ends(End),
    Sticks,
}

/// What an instruction does.
#[derive(Clone, Copy, Debug)]
pub enum Move {
    Comes(After),
    Issues(Access, After),
    Waits(u32),
    Meets(bool),
}

pub const GOES_ON: Move = Move::Comes(After::GoesOn);

pub const STICKS: Move = Move::Comes(After::Sticks);

/// A node's state between two instructions: where it goes on, what is left of its budget, its frames, and for each
/// counter the number of its reads since the last wait on it.
#[derive(Debug, Drop)]
pub struct Machine {
    pub(crate) at: u32,
    pub(crate) left: u64,
    pub(crate) frames: Frames,
    pub(crate) reads: Counts,
}

pub(crate) fn fault(kind: FaultKind, line: u32) -> After
    ensures { result ≡ After.Ends (End.Fault kind line) }
{
    After::Ends(End::Fault { kind, line })
}

pub(crate) fn fails(kind: FaultKind, line: u32) -> Move
    ensures { result ≡ Move.Comes (After.Ends (End.Fault kind line)) }
{
    Move::Comes(fault(kind, line))
}

impl Machine {
    /// Puts the value on top.
    pub(crate) fn gain(&mut self, value: Value) -> Move
        requires { 0 < self.old.frames.spare }
        ensures done { Does self.old result self.new (λ s. Comes (GoesOn (pushed (Here value) s))) }
        ensures counters { length self.new.reads ≡ length self.old.reads }
    {
        self.frames.push(Operand::Here(value));
        GOES_ON
    }

    /// The values land: each operand that is landing on the counter becomes its value, in every stack and local.
    #[tactic(auto, using(crate::proofs::Flying::counts_landed))]
    pub(crate) fn land(&mut self, counter: u32, values: &[Value])
        ensures stands { (s : State) → Stands self.old s → Stands self.new (landed counter values.now s) }
        ensures counters { length self.new.reads ≡ length self.old.reads }
    {
        self.frames.land(counter, values);
        self.reads.set(counter, 0);
    }
}
