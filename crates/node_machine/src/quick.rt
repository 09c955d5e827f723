//! The instructions that loops over numbers are made of, done at once where they ask, end and need nothing. They do
//! what the table does, and are left to it where anything else comes of them.

ghost use Rattle.std.specs.Prelude.{◌≡◌, ℕ, ◌+◌, ◌<◌, ◌^◌, true, false, length, slice_get};
ghost use Rattle.sc_isa.specs.declared.op.Op.TheVariants as ops;
ghost use Rattle.sc_isa.specs.declared.operand.Operand.TheVariants.{Here};
ghost use Rattle.sc_isa.specs.State.{pushed, at_instr};
ghost use Rattle.sc_isa.specs.Moves.{GoesOn, Comes};
ghost use Rattle.sc_isa.specs.Table.{step_of};
ghost use Rattle.sc_layout.specs.Layout.{Arrangement};
ghost use Rattle.node_machine.specs.View.{Does, DoesQuickly};

use crate::machine::{After, Machine, Move};
use node_values::computing::pushed;
use sc_base::{Binary, Value, binary};
use sc_isa::{Code, Op, Operand, Slot};

impl Machine {
    fn quick_push(&mut self, value: Value) -> bool
        requires { self.old.at + 1 < 2 ^ 32 }
        ensures done { result ≡ true → Does self.old (Move.Comes After.GoesOn) self.new
            (λ s. Comes (GoesOn (pushed (Here value) (at_instr (s.frame.at + 1) s)))) }
        ensures kept { result ≡ false → self.new ≡ self.old }
        ensures counters { length self.new.reads ≡ length self.old.reads }
    {
        if !self.frames.has_room() {
            return false;
        }
        self.frames.push(Operand::Here(value));
        self.at += 1;
        true
    }

    fn quick_load(&mut self, local: u32) -> bool
        requires { self.old.at + 1 < 2 ^ 32 }
        ensures done { DoesQuickly self.old result self.new (ops.Load local) }
        ensures counters { length self.new.reads ≡ length self.old.reads }
    {
        if !self.frames.has_room() {
            return false;
        }
        let Some(Slot::Holds(Operand::Here(value))) = self.frames.local(local) else {
            return false;
        };
        self.frames.push(Operand::Here(value));
        self.at += 1;
        true
    }

    fn quick_drop(&mut self) -> bool
        requires { self.old.at + 1 < 2 ^ 32 }
        ensures done { DoesQuickly self.old result self.new ops.Drop }
        ensures counters { length self.new.reads ≡ length self.old.reads }
    {
        if self.frames.topmost(1).is_none() {
            return false;
        }
        self.frames.drop_many(1);
        self.at += 1;
        true
    }

    fn quick_turn(&mut self) -> bool
        requires { self.old.at + 1 < 2 ^ 32 }
        ensures done { DoesQuickly self.old result self.new ops.Turn }
        ensures counters { length self.new.reads ≡ length self.old.reads }
    {
        let Some(left) = self.left.checked_sub(1) else {
            return false;
        };
        self.left = left;
        self.at += 1;
        true
    }

    fn quick_bin(&mut self, operator: Binary) -> bool
        requires { self.old.at + 1 < 2 ^ 32 }
        ensures done { DoesQuickly self.old result self.new (ops.Bin operator) }
        ensures counters { length self.new.reads ≡ length self.old.reads }
    {
        let Some([Operand::Here(Value::Int(a)), Operand::Here(Value::Int(b))]) = self
            .frames
            .topmost(2)
        else {
            return false;
        };
        let Ok(number) = binary(operator, *a, *b) else {
            return false;
        };
        self.frames.drop_many(2);
        self.frames.push(Operand::Here(Value::Int(number)));
        self.at += 1;
        true
    }

    fn quick_set(&mut self, local: u32) -> bool
        requires { self.old.at + 1 < 2 ^ 32 }
        ensures done { DoesQuickly self.old result self.new (ops.Set local) }
        ensures counters { length self.new.reads ≡ length self.old.reads }
    {
        let Some([Operand::Here(Value::Int(number))]) = self.frames.topmost(1) else {
            return false;
        };
        let number = *number;
        let Some(Slot::Holds(Operand::Here(_))) = self.frames.local(local) else {
            return false;
        };
        self.frames
            .set_local(local, Slot::Holds(Operand::Here(Value::Int(number))));
        self.at += 1;
        true
    }

    fn quick_zero(&mut self, target: u32) -> bool
        requires { self.old.at + 1 < 2 ^ 32 }
        ensures done { DoesQuickly self.old result self.new (ops.Zero target) }
        ensures counters { length self.new.reads ≡ length self.old.reads }
    {
        let Some([Operand::Here(Value::Int(number))]) = self.frames.topmost(1) else {
            return false;
        };
        let next = if *number == 0 { target } else { self.at + 1 };
        self.frames.drop_many(1);
        self.at = next;
        true
    }

    fn quick_jump(&mut self, target: u32) -> bool
        requires { self.old.at + 1 < 2 ^ 32 }
        ensures done { DoesQuickly self.old result self.new (ops.Jump target) }
        ensures counters { length self.new.reads ≡ length self.old.reads }
    {
        self.at = target;
        true
    }

    fn quick_op(&mut self, op: Op) -> bool
        requires { self.old.at + 1 < 2 ^ 32 }
        ensures done { DoesQuickly self.old result self.new op }
        ensures counters { length self.new.reads ≡ length self.old.reads }
    {
        match op {
            Op::Push(_) => self.quick_push(pushed(op)),
            Op::Load(local) => self.quick_load(local),
            Op::Set(local) => self.quick_set(local),
            Op::Drop => self.quick_drop(),
            Op::Bin(operator) => self.quick_bin(operator),
            Op::Jump(target) => self.quick_jump(target),
            Op::Zero(target) => self.quick_zero(target),
            Op::Turn => self.quick_turn(),
            _ => false,
        }
    }

    /// Does the next instruction, if it is one of these; else all is as it was.
    pub(crate) fn quick(&mut self, code: &Code) -> bool
        ensures done { result ≡ true → (layout : Arrangement) (own : ℕ)
            → Does self.old (Move.Comes After.GoesOn) self.new (step_of code.now layout own) }
        ensures kept { result ≡ false → self.new ≡ self.old }
        ensures counters { length self.new.reads ≡ length self.old.reads }
    {
        let Some(instr) = self.instr(code) else {
            return false;
        };
        self.quick_op(instr.op)
    }
}
