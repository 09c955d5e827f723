//! The locals that occur in what is evaluated.

ghost use Rattle.std.specs.Prelude.{◌≡◌, ◌≤◌, ◌↔◌, IsTrue, OnOk, [], length, ltb, slice_get};
ghost use Rattle.std.specs.List.{prefix_len};
ghost use Rattle.site_graph.specs.Rising.{inserted};
ghost use Rattle.flow_form.specs.Occurring as occurring;
ghost use Rattle.flow_draw.specs.Noted.{noted};

use sc_core::{Constant, Operation};
use site_graph::NODE_MARK;
use std::alloc::{AllocError, Global};
use std::marker::Model;

/// Numbers of locals, with the node mark, each once and in rising order; seen as a list.
#[derive(Debug, Drop)]
pub struct Locals {
    numbers: Vec<u32>,
}

impl Model for Locals {
    ghost use Rattle.std.specs.Prelude.{List, ℕ};

    ghost Value = { List ℕ };

    ghost view = { λ l. l.numbers.items };
}

/// How many of the numbers stand before this one, where they rise.
#[tactic(auto, using(crate::proofs::Noting::places))]
fn count_before(numbers: &[u32], number: u32) -> usize
    ensures count { result ≡ prefix_len (λ m. ltb m number) numbers.now }
    ensures within { result ≤ length numbers.now }
{
    numbers.iter().take_while(|other| **other < number).count()
}

/// Whether the number stands at this place.
fn stands_at(numbers: &[u32], at: usize, number: u32) -> bool
    ensures { IsTrue result ↔ (slice_get numbers.now at ≡ Some number) }
{
    numbers.get(at).copied() == Some(number)
}

impl Locals {
    pub fn new(alloc: Global) -> Locals
        ensures { result ≡ [] }
    {
        Locals {
            numbers: Vec::new(alloc),
        }
    }

    pub fn as_slice(&self) -> &[u32]
        ensures { result.now ≡ self.now }
    {
        self.numbers.as_slice()
    }

    /// Puts the number among the others.
    pub fn note(&mut self, number: u32) -> Result<(), AllocError>
        ensures { OnOk result (self.new ≡ inserted ltb number self.old) }
    {
        let at = count_before(self.numbers.as_slice(), number);
        if stands_at(self.numbers.as_slice(), at, number) {
            return Ok(());
        }
        self.numbers.insert(at, number)?;
        Ok(())
    }

    /// Puts each of these among the others.
    #[tactic(auto, using(std::proofs::lemmas::Grind::common_steps, crate::proofs::Noting::notes))]
    pub fn note_all(&mut self, numbers: &[u32]) -> Result<(), AllocError>
        ensures { OnOk result (self.new ≡ noted numbers.now self.old) }
    {
        for number in numbers {
            self.note(*number)?;
        }
        Ok(())
    }

    /// A local of a function with so many parameters: what a parameter is may differ from node to node.
    #[tactic(auto, using(std::proofs::lemmas::Grind::common_steps, crate::proofs::Noting::notes))]
    fn note_local(&mut self, params: u32, local: u32) -> Result<(), AllocError>
        ensures { OnOk result (self.new ≡ noted (occurring.local params local) self.old) }
    {
        self.note(local)?;
        if local < params {
            self.note(NODE_MARK)?;
        }
        Ok(())
    }

    #[tactic(auto, using(std::proofs::lemmas::Grind::common_steps, crate::proofs::Noting::notes))]
    pub fn note_constant(&mut self, constant: Constant) -> Result<(), AllocError>
        ensures { OnOk result (self.new ≡ noted (occurring.occurring_constant constant) self.old) }
    {
        match constant {
            Constant::Mine => {
                self.note(NODE_MARK)?;
                Ok(())
            }
            _ => Ok(()),
        }
    }

    /// What an operation itself adds, in a function with so many parameters.
    #[tactic(auto, using(std::proofs::lemmas::Grind::common_steps, crate::proofs::Noting::notes))]
    pub fn note_operation(&mut self, params: u32, operation: Operation) -> Result<(), AllocError>
        ensures { OnOk result (self.new ≡ noted (occurring.occurring_by params operation) self.old) }
    {
        match operation {
            Operation::Use(local) | Operation::Set(local) => {
                self.note_local(params, local)?;
                Ok(())
            }
            Operation::Own
            | Operation::Convert
            | Operation::ToGlobal
            | Operation::ToProc
            | Operation::ToLocal
            | Operation::Call { .. }
            | Operation::Read => {
                self.note(NODE_MARK)?;
                Ok(())
            }
            _ => Ok(()),
        }
    }

    /// What takes the old value back adds, if anything does.
    #[tactic(auto, using(std::proofs::lemmas::Grind::common_steps, crate::proofs::Noting::notes))]
    pub fn note_back(&mut self, params: u32, back: Option<Operation>) -> Result<(), AllocError>
        ensures { OnOk result (self.new ≡ noted (occurring.occurring_back params back) self.old) }
    {
        match back {
            None => Ok(()),
            Some(operation) => {
                self.note_operation(params, operation)?;
                Ok(())
            }
        }
    }
}
