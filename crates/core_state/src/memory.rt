//! The locals of a node's functions, and its gets that have not landed.

ghost use Rattle.std.specs.Prelude.{◌≡◌, [], ◌++◌, map, replicate, length, is_none, OnOk, IfOk};
ghost use Rattle.std.specs.List.{list_any};
ghost use Rattle.sc_meaning.specs.Memory.{slot, with_slot, with_get, synced, pushed, entered, popped, top, blank};
ghost use Rattle.sc_meaning.specs.Memory.{has};
ghost use Rattle.node_values.specs.Operands.{value_in};
ghost use Rattle.core_machine.specs.Moves.{any_awaited};
ghost use Rattle.core_state.specs.Locals.{slot_in, spot_of, put_at};

use sc_base::{Place, Value};
use sc_isa::Operand;
use sqlite_items::Items;
use std::alloc::{AllocError, Global};
use std::marker::Model;

/// A local of a frame, by the number of frames below it, that gets the value of a place.
#[derive(Clone, Copy, Debug)]
pub struct Spot {
    pub level: usize,
    pub local: u32,
    pub place: Place,
}

/// The locals of all functions that were entered and not left, of which one into which a get is outstanding is None;
/// and these gets in order of issue.
#[derive(Drop)]
pub struct Memory {
    frames: Vec<Items<Option<Value>>>,
    getting: Vec<Spot>,
}

impl Model for Memory {
    ghost use Rattle.std.specs.Prelude.{map, reverse};
    ghost use Rattle.sc_meaning.specs.Memory as meant;
    ghost use Rattle.core_state.specs.Locals.{slot_in, spot_of};

    ghost Value = { meant.Memory };

    ghost view = { λ m. record {
      frames = reverse (map (map slot_in) m.frames.items);
      getting = map spot_of m.getting.items;
    } };
}

fn value_of(operand: Operand) -> Value
    ensures { result ≡ value_in operand }
{
    match operand {
        Operand::Here(value) => value,
        Operand::Landing { .. } => Value::Int(0),
    }
}

/// Adds a local for each argument, which it holds.
fn add_arguments(all: &mut Vec<Option<Value>>, arguments: &[Operand]) -> Result<(), AllocError>
    ensures { OnOk result (map slot_in all.new.items ≡ map slot_in all.old.items ++ map has (map value_in arguments.now)) }
{
    for operand in arguments {
        all.push(Some(value_of(*operand)))?;
    }
    Ok(())
}

/// Adds so many locals that have not begun.
fn add_blanks(all: &mut Vec<Option<Value>>, count: usize) -> Result<(), AllocError>
    ensures { OnOk result (map slot_in all.new.items ≡ map slot_in all.old.items ++ replicate count blank) }
{
    for _ in 0..count {
        all.push(Some(Value::Int(0)))?;
    }
    Ok(())
}

fn locals(
    alloc: Global,
    arguments: &[Operand],
    others: usize,
) -> Result<Items<Option<Value>>, AllocError>
    ensures { IfOk result (λ all. map slot_in all ≡ entered (map value_in arguments.now) others) }
{
    let mut all = Vec::new(alloc);
    add_arguments(&mut all, arguments)?;
    add_blanks(&mut all, others)?;
    Ok(Items::from_vec(all))
}

/// Whether a get into one of the locals is outstanding.
fn any_awaits(slots: &[Option<Value>]) -> bool
    ensures { result ≡ list_any is_none slots.now }
{
    slots.iter().any(|slot| matches!(slot, None))
}

impl Memory {
    /// No functions and no gets. This takes no memory.
    pub fn new(alloc: Global) -> Memory
        ensures { result ≡ record { frames = []; getting = [] } }
    {
        Memory {
            frames: Vec::new(alloc),
            getting: Vec::new(alloc),
        }
    }

    /// How many functions were entered and not left.
    pub fn depth(&self) -> usize
        ensures { result ≡ length self.now.frames }
    {
        self.frames.len()
    }

    /// A function is entered with these arguments and so many other locals.
    pub fn enter(
        &mut self,
        alloc: Global,
        arguments: &[Operand],
        others: usize,
    ) -> Result<(), AllocError>
        ensures { OnOk result (self.new ≡ pushed (entered (map value_in arguments.now) others) self.old) }
    {
        let frame = locals(alloc, arguments, others)?;
        self.frames.push(frame)?;
        Ok(())
    }

    /// The function that was entered last is left.
    pub fn leave(&mut self)
        ensures { self.new ≡ popped self.old }
    {
        self.frames.pop();
    }

    /// The value of the local; None where a get into it is outstanding.
    pub fn local(&self, local: u32) -> Option<Value>
        ensures { slot_in result ≡ slot self.now local }
    {
        let Some(frame) = self.frames.last() else {
            return Some(Value::Int(0));
        };
        frame
            .as_slice()
            .get(local as usize)
            .copied()
            .unwrap_or(Some(Value::Int(0)))
    }

    /// Whether a get into a local of the function that runs is outstanding.
    #[tactic(auto, using(crate::proofs::Frames::any_is))]
    pub fn awaits_any(&self) -> bool
        ensures { result ≡ any_awaited (top self.now.frames) }
    {
        match self.frames.last() {
            Some(frame) => any_awaits(frame.as_slice()),
            None => false,
        }
    }

    /// Sets a local of the frame with so many below it.
    fn put(&mut self, level: usize, local: u32, slot: Option<Value>)
        ensures frames { self.new.frames ≡ put_at level local (slot_in slot) self.old.frames }
        ensures getting { self.new.getting ≡ self.old.getting }
    {
        if level < self.frames.len() {
            let frame = &mut self.frames[level];
            if (local as usize) < frame.len() {
                frame.set(local as usize, slot);
            }
        }
    }

    /// The local becomes the value.
    #[tactic(auto, using(crate::proofs::Frames::put_top, crate::proofs::Frames::newest_level))]
    pub fn set(&mut self, local: u32, value: Value)
        ensures { self.new ≡ with_slot self.old local (has value) }
    {
        let level = self.frames.len().saturating_sub(1);
        self.put(level, local, Some(value));
    }

    /// The local gets the value of the place.
    #[tactic(auto, using(crate::proofs::Frames::put_top, crate::proofs::Frames::newest_level, crate::proofs::Frames::length_below))]
    pub fn get(&mut self, local: u32, place: Place) -> Result<(), AllocError>
        ensures { OnOk result (self.new ≡ with_get self.old local place) }
    {
        let level = self.frames.len().saturating_sub(1);
        self.getting.push(Spot {
            level,
            local,
            place,
        })?;
        self.put(level, local, None);
        Ok(())
    }

    /// The gets land.
    #[tactic(auto, using(crate::proofs::Frames::land_step, crate::proofs::Frames::land_end))]
    pub fn land(&mut self, values: &[Value])
        ensures { self.new ≡ synced values.now self.old }
    {
        let count = self.getting.len().min(values.len());
        for number in 0..count {
            let spot = self.getting[number];
            self.put(spot.level, spot.local, Some(values[number]));
        }
        self.getting.clear();
    }

    /// The gets in order of issue.
    pub fn getting(&self) -> &[Spot]
        ensures { map spot_of result.now ≡ self.now.getting }
    {
        self.getting.as_slice()
    }
}
