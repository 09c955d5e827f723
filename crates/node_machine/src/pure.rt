//! The instructions that compute a value, and those that move operands.

ghost use Rattle.std.specs.Prelude.{◌≡◌, ℕ, ◌+◌, ◌<◌, ◌^◌, [], length};
ghost use Rattle.sc_isa.specs.declared.code.Code.{Code};
ghost use Rattle.sc_isa.specs.declared.access.Track.{Track};
ghost use Rattle.sc_isa.specs.Pure.{bin, elem};
ghost use Rattle.sc_isa.specs.Deeds.{pure, made_by};
ghost use Rattle.sc_isa.specs.Moves.{taken, gain_done};
ghost use Rattle.sc_isa.specs.Table.{gained, duplicated, dropped, swapped};
ghost use Rattle.node_values.specs.Plain.{plain, one_of, two_of};
ghost use Rattle.node_machine.specs.View.{Does};

use crate::machine::{GOES_ON, Machine, Move, STICKS, fails};
use node_values::computing::{Outcome, apply_binary, of_one, of_two};
use node_values::element::element;
use sc_base::{Binary, Value};
use sc_isa::{Code, Op, Operand, Track};
use sc_layout::Layout;

impl Machine {
    /// Puts the value on top, where there is one.
    pub(crate) fn gives(&mut self, outcome: Outcome, line: u32) -> Move
        requires { 0 < self.old.frames.spare }
        ensures done { (code : Code) (site : ℕ) (track : Track)
            → Does self.old result self.new (λ s. gain_done code site track line s (made_by (plain outcome))) }
        ensures counters { length self.new.reads ≡ length self.old.reads }
    {
        match outcome {
            Outcome::Gives(value) => self.gain(value),
            Outcome::Fails(kind) => fails(kind, line),
            Outcome::Wrong => STICKS,
        }
    }

    /// An operation on one value.
    #[tactic(auto, using(crate::proofs::Operations::computed_one))]
    pub(crate) fn one(&mut self, layout: &Layout, own: u32, op: Op, line: u32) -> Move
        ensures done { (code : Code) (site : ℕ) (track : Track) → Does self.old result self.new
            (λ s. gained code layout.now own (pure (one_of op)) site track line s (taken 1 [] s.frame.stack)) }
        ensures counters { length self.new.reads ≡ length self.old.reads }
    {
        let Some(value) = self.frames.take_one() else {
            return STICKS;
        };
        self.gives(of_one(layout, own, op, value), line)
    }

    /// An operation on two values.
    #[tactic(auto, using(crate::proofs::Operations::computed_two))]
    pub(crate) fn two(&mut self, layout: &Layout, own: u32, op: Op, line: u32) -> Move
        ensures done { (code : Code) (site : ℕ) (track : Track) → Does self.old result self.new
            (λ s. gained code layout.now own (pure (two_of op)) site track line s (taken 2 [] s.frame.stack)) }
        ensures counters { length self.new.reads ≡ length self.old.reads }
    {
        let Some(two) = self.frames.take_two() else {
            return STICKS;
        };
        self.gives(of_two(layout, op, two.a, two.b), line)
    }

    /// An operation on two numbers.
    pub(crate) fn binary(&mut self, layout: &Layout, own: u32, operator: Binary, line: u32) -> Move
        ensures done { (code : Code) (site : ℕ) (track : Track) → Does self.old result self.new
            (λ s. gained code layout.now own (pure (bin operator)) site track line s (taken 2 [] s.frame.stack)) }
        ensures counters { length self.new.reads ≡ length self.old.reads }
    {
        let Some(two) = self.frames.take_two() else {
            return STICKS;
        };
        self.gives(apply_binary(layout, operator, two.a, two.b), line)
    }

    /// The cell of an object at so many indices.
    pub(crate) fn elem(
        &mut self,
        layout: &Layout,
        own: u32,
        object: u32,
        count: u32,
        line: u32,
    ) -> Move
        requires room { 0 < self.old.frames.spare }
        requires few { count + 1 < 2 ^ 32 }
        ensures done { (code : Code) (site : ℕ) (track : Track) → Does self.old result self.new
            (λ s. gained code layout.now own (pure (elem object count)) site track line s
            (taken count [] s.frame.stack)) }
        ensures counters { length self.new.reads ≡ length self.old.reads }
    {
        let Some(operands) = self.frames.topmost(count) else {
            return STICKS;
        };
        let outcome = element(layout, object, operands);
        self.frames.drop_many(count);
        self.gives(outcome, line)
    }

    pub(crate) fn duplicate(&mut self) -> Move
        requires { 0 < self.old.frames.spare }
        ensures done { Does self.old result self.new (λ s. duplicated s s.frame.stack) }
        ensures counters { length self.new.reads ≡ length self.old.reads }
    {
        let Some(top) = self.frames.pop() else {
            return STICKS;
        };
        self.frames.push(top);
        self.frames.push(top);
        GOES_ON
    }

    pub(crate) fn let_go(&mut self) -> Move
        ensures done { Does self.old result self.new (λ s. dropped s s.frame.stack) }
        ensures counters { length self.new.reads ≡ length self.old.reads }
    {
        match self.frames.pop() {
            Some(_) => GOES_ON,
            None => STICKS,
        }
    }

    pub(crate) fn swap(&mut self) -> Move
        ensures done { Does self.old result self.new (λ s. swapped s s.frame.stack) }
        ensures counters { length self.new.reads ≡ length self.old.reads }
    {
        let Some(top) = self.frames.pop() else {
            return STICKS;
        };
        let Some(next) = self.frames.pop() else {
            return STICKS;
        };
        self.frames.push(top);
        self.frames.push(next);
        GOES_ON
    }
}
