//! The instruction table.

ghost use Rattle.std.specs.Prelude.{◌≡◌, ℕ, ◌+◌, ◌<◌, ◌≤◌, ◌^◌, length, nat_le, true, IfOk, OnErr, slice_get, slice_index, if◌then◌else◌};
ghost use Rattle.sc_isa.specs.State.{at_instr};
ghost use Rattle.sc_isa.specs.Table.{does_op, does_instr, step_of};
ghost use Rattle.node_machine.specs.View.{Does, Steps, IsAsBefore};
ghost use Rattle.node_machine.specs.Groups.{IsPlain, IsAccess, HasRoom, HasFewIndices, site_of};

use crate::accesses::{copy_track, has_site};
use crate::machine::{After, Machine, Move, STICKS};
use node_values::computing::constant;
use sc_isa::{Code, Instr, Op, Track};
use sc_layout::Layout;
use std::alloc::AllocError;

impl Machine {
    /// Does an instruction that takes no memory but for an operand, in the state that goes on at the next one.
    pub(crate) fn does(&mut self, code: &Code, layout: &Layout, own: u32, op: Op, line: u32) -> Move
        requires room { 0 < self.old.frames.spare }
        requires plain { IsPlain op }
        requires counters { code.now.sites < length self.old.reads }
        requires reads { HasRoom op self.old.reads }
        ensures done { Does self.old result self.new (does_op code.now layout.now own op line) }
        ensures counters { length self.new.reads ≡ length self.old.reads }
    {
        match op {
            Op::Push(_) => self.gain(constant(layout, own, op)),
            Op::Null => self.gain(constant(layout, own, op)),
            Op::Mine => self.gain(constant(layout, own, op)),
            Op::Procs => self.gain(constant(layout, own, op)),
            Op::Step(star) => self.two(layout, own, Op::Step(star), line),
            Op::Glob => self.one(layout, own, Op::Glob, line),
            Op::ToLocal => self.one(layout, own, Op::ToLocal, line),
            Op::ToProc => self.one(layout, own, Op::ToProc, line),
            Op::ToGlobal => self.two(layout, own, Op::ToGlobal, line),
            Op::Load(local) => self.load(layout, own, local, line),
            Op::Set(local) => self.set(layout, own, local, line),
            Op::Clear { local, pointer } => self.clear(layout, local, pointer, line),
            Op::Dup => self.duplicate(),
            Op::Drop => self.let_go(),
            Op::Swap => self.swap(),
            Op::Bin(operator) => self.binary(layout, own, operator, line),
            Op::Un(operator) => self.one(layout, own, Op::Un(operator), line),
            Op::Same => self.two(layout, own, Op::Same, line),
            Op::Truth => self.one(layout, own, Op::Truth, line),
            Op::Jump(target) => self.jump(target),
            Op::Zero(target) => self.jump_on_zero(target),
            Op::Turn => self.turn(),
            Op::Ret => self.ret(line),
            Op::Wait(counter) => waits(code, counter),
            Op::Barrier => Move::Meets(false),
            Op::AllSync => Move::Meets(true),
            Op::Elem { object, count } => self.elem(layout, own, object, count, line),
            _ => self.accesses(code, layout, own, op, line),
        }
    }

    /// Does an instruction that issues an access.
    fn accesses(&mut self, code: &Code, layout: &Layout, own: u32, op: Op, line: u32) -> Move
        requires access { IsAccess op }
        requires counters { code.now.sites < length self.old.reads }
        requires room { HasRoom op self.old.reads }
        ensures done { Does self.old result self.new (does_op code.now layout.now own op line) }
        ensures counters { length self.new.reads ≡ length self.old.reads }
    {
        let site = site_of(op);
        if !has_site(code, site) {
            return STICKS;
        }
        match op {
            Op::Read(site) => self.read(layout, own, site, line),
            Op::Fill { site, local } => self.fill(layout, site, local, line),
            Op::Write(site) => self.write(layout, own, site, Track::Counter(site), line),
            Op::Store(site) => self.write(layout, own, site, Track::Covered, line),
            Op::Get { site, local } => self.get(layout, site, local, line),
            Op::Put(site) => self.put(layout, site, Track::Counter(0), line),
            Op::Send(site) => self.put(layout, site, Track::Store, line),
            Op::Copy { site, mode } => self.copy(layout, site, copy_track(site, mode), line),
            _ => STICKS,
        }
    }
}

/// The site of an instruction that issues an access; 0 of any other.
fn site_of(op: Op) -> u32
    ensures { result ≡ site_of op }
{
    match op {
        Op::Read(site) => site,
        Op::Fill { site, .. } => site,
        Op::Write(site) => site,
        Op::Store(site) => site,
        Op::Get { site, .. } => site,
        Op::Put(site) => site,
        Op::Send(site) => site,
        Op::Copy { site, .. } => site,
        _ => 0,
    }
}

/// Waits on the counter, if the code has it.
fn waits(code: &Code, counter: u32) -> Move
    ensures { result ≡ (if nat_le counter code.now.sites then Move.Waits counter else Move.Comes After.Sticks) }
{
    if counter <= code.sites {
        Move::Waits(counter)
    } else {
        STICKS
    }
}

impl Machine {
    /// Whether one more read on the instruction's counter, and its indices, can be counted.
    fn can_count(&self, op: Op) -> bool
        ensures room { result ≡ true → HasRoom op self.now.reads }
        ensures indices { result ≡ true → HasFewIndices op }
    {
        match op {
            Op::Read(site) => self.reads.get(site) < u64::MAX,
            Op::Fill { site, .. } => self.reads.get(site) < u64::MAX,
            Op::Get { .. } => self.reads.get(0) < u64::MAX,
            Op::Elem { count, .. } => count < u32::MAX,
            _ => true,
        }
    }

    /// Does an instruction other than a call and a print.
    fn step_plain(
        &mut self,
        code: &Code,
        layout: &Layout,
        own: u32,
        op: Op,
        line: u32,
    ) -> Result<Move, AllocError>
        requires room { 0 < self.old.frames.spare }
        requires at { self.old.at + 1 < 2 ^ 32 }
        requires plain { HasFewIndices op → IsPlain op }
        requires counters { code.now.sites < length self.old.reads }
        ensures done { IfOk result (λ made. Does self.old made self.new (λ s. does_op code.now layout.now own op line
            (at_instr (s.frame.at + 1) s))) }
        ensures refused { OnErr result (IsAsBefore self.old self.new) }
        ensures counters { length self.new.reads ≡ length self.old.reads }
    {
        if !self.can_count(op) {
            return Err(AllocError);
        }
        self.at += 1;
        Ok(self.does(code, layout, own, op, line))
    }

    /// Does this instruction.
    fn step_instr(
        &mut self,
        code: &Code,
        layout: &Layout,
        own: u32,
        instr: Instr,
        printed: &mut Vec<u8>,
    ) -> Result<Move, AllocError>
        requires room { 0 < self.old.frames.spare }
        requires at { self.old.at + 1 < 2 ^ 32 }
        requires counters { code.now.sites < length self.old.reads }
        ensures done { IfOk result (λ made. Steps self.old made self.new printed.old.items printed.new.items
            (does_instr code.now layout.now own (Some instr))) }
        ensures refused { OnErr result (IsAsBefore self.old self.new) }
        ensures kept { OnErr result (printed.new.items ≡ printed.old.items) }
        ensures counters { length self.new.reads ≡ length self.old.reads }
    {
        match instr.op {
            Op::Call(function) => {
                let made = self.call(code, layout, own, function, instr.line)?;
                Ok(made)
            }
            Op::Print { text, count } => {
                let made = self.print(code, layout, own, text, count, printed)?;
                Ok(made)
            }
            op => {
                let made = self.step_plain(code, layout, own, op, instr.line)?;
                Ok(made)
            }
        }
    }

    /// The instruction at which the node goes on, if the code has it.
    pub(crate) fn instr(&self, code: &Code) -> Option<Instr>
        ensures { result ≡ slice_get code.now.instrs self.now.at }
    {
        code.instrs.as_slice().get(self.at as usize).copied()
    }

    /// Does the next instruction. Where memory is wanting, or one more read or so many indices can't be counted, all is
    /// as it was.
    pub(crate) fn step(
        &mut self,
        code: &Code,
        layout: &Layout,
        own: u32,
        printed: &mut Vec<u8>,
    ) -> Result<Move, AllocError>
        requires { code.now.sites < length self.old.reads }
        ensures done { IfOk result (λ made. Steps self.old made self.new printed.old.items printed.new.items
            (step_of code.now layout.now own)) }
        ensures refused { OnErr result (IsAsBefore self.old self.new) }
        ensures kept { OnErr result (printed.new.items ≡ printed.old.items) }
        ensures counters { length self.new.reads ≡ length self.old.reads }
    {
        let Some(instr) = self.instr(code) else {
            return Ok(STICKS);
        };
        self.frames.reserve()?;
        let made = self.step_instr(code, layout, own, instr, printed)?;
        Ok(made)
    }
}
