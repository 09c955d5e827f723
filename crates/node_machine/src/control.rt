//! The instructions that use locals, and those that say where a node goes on.

ghost use Rattle.std.specs.Prelude.{◌≡◌, ℕ, ◌+◌, ◌<◌, ◌≤◌, ◌^◌, List, [], slice_get, IfSome, IfNone, IfOk, OnErr, length};
ghost use Rattle.std.specs.List.{list_all, list_any};
ghost use Rattle.sc_isa.specs.declared.code.Code.{Code};
ghost use Rattle.sc_isa.specs.declared.access.Track.{Track};
ghost use Rattle.sc_isa.specs.Deeds.{load, set, clear, call};
ghost use Rattle.sc_isa.specs.State.{at_instr, with_left, with_local, pushed};
ghost use Rattle.sc_isa.specs.declared.operand.Operand.TheVariants.{Here};
ghost use Rattle.sc_isa.specs.declared.operand.Slot.TheVariants.{Holds};
ghost use Rattle.sc_isa.specs.Moves.{GoesOn, Comes, taken, counted};
ghost use Rattle.sc_isa.specs.Table.{gained, acted, jumped, left_with, returned, prints_text, calls_row};
ghost use Rattle.node_values.specs.Operands.{is_here, is_pending};
ghost use Rattle.node_machine.specs.View.{Does, Steps, IsAsBefore, local_of};

use crate::machine::{After, GOES_ON, Machine, Move, STICKS, fails, fault};
use node_values::printing::{are_ints, print_operands};
use sc_base::{End, FaultKind, LIMITS, Value};
use sc_isa::{Code, FnRow, Operand, Slot, Track};
use sc_layout::Layout;
use std::alloc::AllocError;

impl Machine {
    /// The local's value; PendingUse where a get is pending.
    pub(crate) fn local(&self, local: u32, line: u32) -> Result<Value, After>
        ensures { result ≡ local_of line (slice_get self.now.frames.locals local) }
    {
        match self.frames.local(local) {
            Some(Slot::Holds(Operand::Here(value))) => Ok(value),
            Some(Slot::Pending { .. }) => Err(fault(FaultKind::PendingUse, line)),
            _ => Err(After::Sticks),
        }
    }

    pub(crate) fn load(&mut self, layout: &Layout, own: u32, local: u32, line: u32) -> Move
        requires { 0 < self.old.frames.spare }
        ensures done { (code : Code) (site : ℕ) (track : Track) → Does self.old result self.new
            (λ s. gained code layout.now own (load local) site track line s (taken 0 [] s.frame.stack)) }
        ensures counters { length self.new.reads ≡ length self.old.reads }
    {
        match self.local(local, line) {
            Ok(value) => self.gain(value),
            Err(after) => Move::Comes(after),
        }
    }

    pub(crate) fn set(&mut self, layout: &Layout, own: u32, local: u32, line: u32) -> Move
        ensures done { (code : Code) (site : ℕ) (track : Track) → Does self.old result self.new
            (λ s. gained code layout.now own (set local) site track line s (taken 1 [] s.frame.stack)) }
        ensures counters { length self.new.reads ≡ length self.old.reads }
    {
        let Some(value) = self.frames.take_one() else {
            return STICKS;
        };
        match self.local(local, line) {
            Ok(_) => self.assign(local, value),
            Err(after) => Move::Comes(after),
        }
    }

    /// The local holds the value, which is put on top.
    fn assign(&mut self, local: u32, value: Value) -> Move
        requires { 0 < self.old.frames.spare }
        ensures done { Does self.old result self.new
            (λ s. Comes (GoesOn (pushed (Here value) (with_local local (Holds (Here value)) s)))) }
        ensures counters { length self.new.reads ≡ length self.old.reads }
    {
        self.frames
            .set_local(local, Slot::Holds(Operand::Here(value)));
        self.gain(value)
    }

    pub(crate) fn clear(&mut self, layout: &Layout, local: u32, pointer: bool, line: u32) -> Move
        ensures done { (site : ℕ) (track : Track) → Does self.old result self.new
            (λ s. acted layout.now (clear local pointer) site track line s (taken 0 [] s.frame.stack)) }
        ensures counters { length self.new.reads ≡ length self.old.reads }
    {
        let value = if pointer { Value::Null } else { Value::Int(0) };
        match self.local(local, line) {
            Ok(_) => {
                self.frames
                    .set_local(local, Slot::Holds(Operand::Here(value)));
                GOES_ON
            }
            Err(after) => Move::Comes(after),
        }
    }

    pub(crate) fn jump(&mut self, target: u32) -> Move
        ensures done { Does self.old result self.new (λ s. Comes (GoesOn (at_instr target s))) }
        ensures counters { length self.new.reads ≡ length self.old.reads }
    {
        self.at = target;
        GOES_ON
    }

    /// Jumps where the top is 0.
    pub(crate) fn jump_on_zero(&mut self, target: u32) -> Move
        ensures done { Does self.old result self.new (λ s. jumped target s s.frame.stack) }
        ensures counters { length self.new.reads ≡ length self.old.reads }
    {
        match self.frames.pop() {
            Some(Operand::Here(Value::Int(0))) => self.jump(target),
            Some(Operand::Here(Value::Int(_))) => GOES_ON,
            _ => STICKS,
        }
    }

    pub(crate) fn turn(&mut self) -> Move
        ensures done { Does self.old result self.new (λ s. Comes (counted s.left (λ left. GoesOn (with_left left s)))) }
        ensures counters { length self.new.reads ≡ length self.old.reads }
    {
        let Some(left) = self.left.checked_sub(1) else {
            return Move::Comes(After::Ends(End::Cut));
        };
        self.left = left;
        GOES_ON
    }
}

/// The text with this number.
fn format_at(code: &Code, text: u32) -> Option<&[u8]>
    ensures some { IfSome result (λ format. slice_get code.now.texts text ≡ Some format.now) }
    ensures none { IfNone result (slice_get code.now.texts text ≡ None) }
{
    match code.texts.as_slice().get(text as usize) {
        Some(bytes) => Some(bytes.as_slice()),
        None => None,
    }
}

/// Whether all operands are values.
pub(crate) fn are_values(operands: &[Operand]) -> bool
    ensures { result ≡ list_all is_here operands.now }
{
    operands
        .iter()
        .all(|operand| matches!(operand, Operand::Here(_)))
}

/// Whether an explicit get into one of the locals is pending.
pub(crate) fn has_pending(slots: &[Slot]) -> bool
    ensures { result ≡ list_any is_pending slots.now }
{
    slots
        .iter()
        .any(|slot| matches!(slot, Slot::Pending { .. }))
}

impl Machine {
    /// Calls a function. Where memory is wanting, all is as it was.
    pub(crate) fn call(
        &mut self,
        code: &Code,
        layout: &Layout,
        own: u32,
        function: u32,
        line: u32,
    ) -> Result<Move, AllocError>
        requires { self.old.at + 1 < 2 ^ 32 }
        ensures done { IfOk result (λ made. Does self.old made self.new (λ s. calls_row code.now layout.now own function
            (slice_get code.now.functions function) line (at_instr (s.frame.at + 1) s))) }
        ensures refused { OnErr result (IsAsBefore self.old self.new) }
        ensures counters { length self.new.reads ≡ length self.old.reads }
    {
        let Some(row) = code.functions.as_slice().get(function as usize).copied() else {
            return Ok(STICKS);
        };
        self.frames
            .reserve_frame(u64::from(row.params) + u64::from(row.locals))?;
        self.at += 1;
        Ok(self.call_row(code, layout, own, function, row, line))
    }

    /// Calls the function of this row.
    pub(crate) fn call_row(
        &mut self,
        code: &Code,
        layout: &Layout,
        own: u32,
        function: u32,
        row: FnRow,
        line: u32,
    ) -> Move
        requires row { slice_get code.now.functions function ≡ Some row }
        requires frame { 0 < self.old.frames.spare_callers }
        requires locals { row.params + row.locals ≤ self.old.frames.spare_locals }
        ensures done { (site : ℕ) (track : Track) → Does self.old result self.new
            (λ s. gained code.now layout.now own (call function row.params) site track line s
            (taken row.params [] s.frame.stack)) }
        ensures counters { length self.new.reads ≡ length self.old.reads }
    {
        let Some(operands) = self.frames.topmost(row.params) else {
            return STICKS;
        };
        if !are_values(operands) {
            return STICKS;
        }
        if self.left == 0 {
            return Move::Comes(After::Ends(End::Cut));
        }
        if self.frames.depth() as u64 >= LIMITS.frames - 1 {
            return fails(FaultKind::Depth, line);
        }
        self.frames.enter(self.at, row.params, row.locals);
        self.at = row.start;
        self.left -= 1;
        GOES_ON
    }

    /// Returns to the caller with the value on top, or ends the node.
    pub(crate) fn ret(&mut self, line: u32) -> Move
        ensures done { Does self.old result self.new (λ s. left_with line s s.frame.stack) }
        ensures counters { length self.new.reads ≡ length self.old.reads }
    {
        let Some(Operand::Here(value)) = self.frames.pop() else {
            return STICKS;
        };
        if has_pending(self.frames.locals()) {
            return fails(FaultKind::PendingUse, line);
        }
        self.leave_with(value)
    }

    /// The caller goes on with the value; the node ends where there is none.
    fn leave_with(&mut self, value: Value) -> Move
        requires { 0 < self.old.frames.spare }
        ensures done { Does self.old result self.new (λ s. Comes (returned value s s.callers)) }
        ensures counters { length self.new.reads ≡ length self.old.reads }
    {
        let Some(at) = self.frames.leave() else {
            return Move::Comes(After::Ends(End::Ended));
        };
        self.at = at;
        self.gain(value)
    }
}

impl Machine {
    /// Prints by a text of the code, and goes on at the next instruction. Where memory is wanting, all is as it was.
    pub(crate) fn print(
        &mut self,
        code: &Code,
        layout: &Layout,
        own: u32,
        text: u32,
        count: u32,
        printed: &mut Vec<u8>,
    ) -> Result<Move, AllocError>
        requires { self.old.at + 1 < 2 ^ 32 }
        ensures done { IfOk result (λ made. (line : ℕ) → Steps self.old made self.new printed.old.items printed.new.items
            (λ s. prints_text code.now layout.now own (slice_get code.now.texts text) count line
            (at_instr (s.frame.at + 1) s))) }
        ensures refused { OnErr result (IsAsBefore self.old self.new) }
        ensures kept { OnErr result (printed.new.items ≡ printed.old.items) }
        ensures counters { length self.new.reads ≡ length self.old.reads }
    {
        let Some(format) = format_at(code, text) else {
            return Ok(STICKS);
        };
        let Some(operands) = self.frames.topmost(count) else {
            return Ok(STICKS);
        };
        if !are_ints(operands) {
            return Ok(STICKS);
        }
        let before = printed.len();
        match print_operands(printed, format, operands) {
            Ok(()) => {}
            Err(error) => {
                printed.truncate(before);
                return Err(error);
            }
        }
        self.frames.drop_many(count);
        self.at += 1;
        Ok(GOES_ON)
    }
}
