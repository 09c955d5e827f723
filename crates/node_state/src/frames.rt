//! The frames of a node.

ghost use Rattle.std.specs.Prelude.{◌≡◌, ◌↔◌, IsTrue, ◌+◌, ◌-◌, ◌<◌, ◌≤◌, [], ◌∷◌, ◌++◌, length, map, reverse, take, drop, replicate, slice_get, slice_set, IfSome, OnSome, IfNone, OnOk, IfOk};
ghost use Rattle.sc_isa.specs.declared.operand.Slot.TheVariants.{Holds};
ghost use Rattle.sc_isa.specs.State.{blank, land, land_slot, land_frame};

use crate::landing::{add_arguments, add_blanks, land_operands, land_slots};
use sc_base::Value;
use sc_isa::{Operand, Slot};
use std::alloc::{AllocError, Global};
use std::marker::Model;

/// A frame that called another: where it goes on, and where its operands and its locals begin.
#[derive(Clone, Copy, Debug)]
pub struct Caller {
    at: u32,
    base: usize,
    first: usize,
}

/// The frames of a node, with one list of operands and one of locals for all of them. Seen as the operands of the
/// frame that runs, the top first, its locals, the frames that called, the newest first, and how much room is left.
#[derive(Debug, Drop)]
pub struct Frames {
    stack: Vec<Operand>,
    slots: Vec<Slot>,
    base: usize,
    first: usize,
    callers: Vec<Caller>,
}

impl Model for Frames {
    ghost use Rattle.std.specs.Prelude.{◌-◌, reverse, take, drop, vec_len, vec_capacity};
    ghost use Rattle.node_state.specs.Frames as seen;

    ghost Value = { seen.Frames };

    ghost view = { λ f. record {
      stack = reverse (drop f.base f.stack.items);
      locals = drop f.first f.slots.items;
      callers = seen.frames_below (take f.base f.stack.items) (take f.first f.slots.items) (reverse f.callers.items);
      spare = vec_capacity f.stack - vec_len f.stack;
      spare_locals = vec_capacity f.slots - vec_len f.slots;
      spare_callers = vec_capacity f.callers - vec_len f.callers;
    } };

    ghost invariant = { λ f. seen.IsWithin f.base f.first f.stack.items f.slots.items (reverse f.callers.items) };
}

impl Frames {
    /// One frame, with no operands and no locals. This takes no memory.
    pub fn new(alloc: Global) -> Frames
        ensures stack { result.stack ≡ [] }
        ensures locals { result.locals ≡ [] }
        ensures callers { result.callers ≡ [] }
    {
        Frames {
            stack: Vec::new(alloc),
            slots: Vec::new(alloc),
            base: 0,
            first: 0,
            callers: Vec::new(alloc),
        }
    }

    /// Makes room for an operand.
    pub fn reserve(&mut self) -> Result<(), AllocError>
        ensures stack { self.new.stack ≡ self.old.stack }
        ensures locals { self.new.locals ≡ self.old.locals }
        ensures callers { self.new.callers ≡ self.old.callers }
        ensures spare { OnOk result (0 < self.new.spare) }
    {
        self.stack.reserve(1)
    }

    /// Whether there is room for an operand.
    pub fn has_room(&self) -> bool
        ensures { IsTrue result ↔ (0 < self.now.spare) }
    {
        self.stack.len() < self.stack.capacity()
    }

    /// Makes room for a frame with so many locals.
    pub fn reserve_frame(&mut self, locals: u64) -> Result<(), AllocError>
        ensures stack { self.new.stack ≡ self.old.stack }
        ensures locals { self.new.locals ≡ self.old.locals }
        ensures callers { self.new.callers ≡ self.old.callers }
        ensures spare { self.new.spare ≡ self.old.spare }
        ensures spare_callers { OnOk result (0 < self.new.spare_callers) }
        ensures spare_locals { OnOk result (locals ≤ self.new.spare_locals) }
    {
        self.callers.reserve(1)?;
        self.slots.reserve(locals as usize)?;
        Ok(())
    }

    /// Puts an operand on top.
    pub fn push(&mut self, operand: Operand)
        requires { 0 < self.old.spare }
        ensures stack { self.new.stack ≡ operand ∷ self.old.stack }
        ensures locals { self.new.locals ≡ self.old.locals }
        ensures callers { self.new.callers ≡ self.old.callers }
        ensures spare { self.new.spare + 1 ≡ self.old.spare }
    {
        self.stack.push_reserved(operand);
    }

    /// Takes the operand on top; None where the frame that runs has none.
    pub fn pop(&mut self) -> Option<Operand>
        ensures stack { IfSome result (λ operand. self.old.stack ≡ operand ∷ self.new.stack) }
        ensures none { IfNone result (self.old.stack ≡ []) }
        ensures empty { IfNone result (self.new.stack ≡ []) }
        ensures locals { self.new.locals ≡ self.old.locals }
        ensures callers { self.new.callers ≡ self.old.callers }
        ensures spare { self.old.spare ≤ self.new.spare }
        ensures more { OnSome result (self.old.spare < self.new.spare) }
    {
        if self.stack.len() <= self.base {
            return None;
        }
        self.stack.pop()
    }

    /// The topmost operands that are so many, the top last; None where there are fewer.
    pub fn topmost(&self, count: u32) -> Option<&[Operand]>
        ensures few { IfNone result (length self.now.stack < count) }
        ensures enough { OnSome result (count ≤ length self.now.stack) }
        ensures operands { IfSome result (λ operands. operands.now ≡ reverse (take count self.now.stack)) }
    {
        if self.stack.len() - self.base < count as usize {
            return None;
        }
        let begin = self.stack.len() - count as usize;
        Some(&self.stack.as_slice()[begin..])
    }

    /// Takes so many operands from the top.
    pub fn drop_many(&mut self, count: u32)
        requires { count ≤ length self.old.stack }
        ensures stack { self.new.stack ≡ drop count self.old.stack }
        ensures locals { self.new.locals ≡ self.old.locals }
        ensures callers { self.new.callers ≡ self.old.callers }
        ensures spare { self.old.spare + count ≡ self.new.spare }
    {
        self.stack.truncate(self.stack.len() - count as usize);
    }

    /// The locals of the frame that runs.
    pub fn locals(&self) -> &[Slot]
        ensures { result.now ≡ self.now.locals }
    {
        &self.slots.as_slice()[self.first..]
    }

    /// The local; None where the frame has no such.
    pub fn local(&self, local: u32) -> Option<Slot>
        ensures { result ≡ slice_get self.now.locals local }
    {
        self.locals().get(local as usize).copied()
    }

    /// Replaces the local, if the frame has it.
    pub fn set_local(&mut self, local: u32, slot: Slot)
        ensures stack { self.new.stack ≡ self.old.stack }
        ensures locals { self.new.locals ≡ slice_set self.old.locals local slot }
        ensures callers { self.new.callers ≡ self.old.callers }
        ensures spare { self.new.spare ≡ self.old.spare }
    {
        let place = self.first + local as usize;
        if place < self.slots.len() {
            self.slots[place] = slot;
        }
    }

    /// How many frames called.
    pub fn depth(&self) -> usize
        ensures { result ≡ length self.now.callers }
    {
        self.callers.len()
    }

    /// Adds blank locals to the frame that runs.
    pub fn add_locals(&mut self, count: u32)
        requires { count ≤ self.old.spare_locals }
        ensures stack { self.new.stack ≡ self.old.stack }
        ensures locals { self.new.locals ≡ self.old.locals ++ replicate count blank }
        ensures callers { self.new.callers ≡ self.old.callers }
    {
        add_blanks(&mut self.slots, count);
    }

    /// Enters a function, which takes so many operands as its first locals; the frame that called goes on there.
    pub fn enter(&mut self, at: u32, params: u32, locals: u32)
        requires operands { params ≤ length self.old.stack }
        requires room { params + locals ≤ self.old.spare_locals }
        requires frame { 0 < self.old.spare_callers }
        ensures stack { self.new.stack ≡ [] }
        ensures locals { self.new.locals ≡ map Holds (reverse (take params self.old.stack))
            ++ replicate (locals - params) blank }
        ensures callers { self.new.callers ≡ record {
          at = at;
          stack = drop params self.old.stack;
          locals = self.old.locals;
        } ∷ self.old.callers }
    {
        let first = self.slots.len();
        let begin = self.stack.len() - params as usize;
        add_arguments(&mut self.slots, &self.stack.as_slice()[begin..]);
        add_blanks(&mut self.slots, locals.saturating_sub(params));
        self.stack.truncate(begin);
        self.callers.push_reserved(Caller {
            at,
            base: self.base,
            first: self.first,
        });
        self.base = begin;
        self.first = first;
    }

    /// Leaves the frame that runs, and answers where its caller goes on; None where no frame called.
    pub fn leave(&mut self) -> Option<u32>
        ensures caller { IfSome result (λ at. self.old.callers ≡ record {
          at = at;
          stack = self.new.stack;
          locals = self.new.locals;
        } ∷ self.new.callers) }
        ensures none { IfNone result (self.old.callers ≡ []) }
        ensures spare { self.old.spare ≤ self.new.spare }
    {
        let caller = self.callers.pop()?;
        self.stack.truncate(self.base);
        self.slots.truncate(self.first);
        self.base = caller.base;
        self.first = caller.first;
        Some(caller.at)
    }

    /// Replaces each operand that is landing on the counter by its value, in every stack and local.
    pub fn land(&mut self, counter: u32, values: &[Value])
        ensures stack { self.new.stack ≡ map (land counter values.now) self.old.stack }
        ensures locals { self.new.locals ≡ map (land_slot counter values.now) self.old.locals }
        ensures callers { self.new.callers ≡ map (land_frame counter values.now) self.old.callers }
    {
        land_operands(self.stack.as_mut_slice(), counter, values);
        land_slots(self.slots.as_mut_slice(), counter, values);
    }
}
