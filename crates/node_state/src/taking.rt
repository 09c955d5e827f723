//! Values that are taken from the top of a stack.

ghost use Rattle.std.specs.Prelude.{◌≡◌, ◌<◌, ◌≤◌, []};
ghost use Rattle.std.specs.Prelude.{IfSome, OnSome};
ghost use Rattle.sc_isa.specs.Moves.{taken};
ghost use Rattle.node_state.specs.Taking.{one_taken, two_taken, three_taken, values_of};

use crate::frames::Frames;
use sc_base::Value;
use sc_isa::Operand;

/// Two values in the order in which they were pushed.
#[derive(Clone, Copy, Debug)]
pub struct Two {
    pub a: Value,
    pub b: Value,
}

/// Three values in the order in which they were pushed.
#[derive(Clone, Copy, Debug)]
pub struct Three {
    pub a: Value,
    pub b: Value,
    pub c: Value,
}

impl Frames {
    /// Takes a value; None where the top is no value.
    pub fn take_one(&mut self) -> Option<Value>
        ensures taken { taken 1 [] self.old.stack ≡ one_taken result self.new.stack }
        ensures locals { self.new.locals ≡ self.old.locals }
        ensures callers { self.new.callers ≡ self.old.callers }
        ensures spare { OnSome result (self.old.spare < self.new.spare) }
    {
        match self.pop()? {
            Operand::Here(value) => Some(value),
            Operand::Landing { .. } => None,
        }
    }

    /// Takes two values.
    pub fn take_two(&mut self) -> Option<Two>
        ensures taken { taken 2 [] self.old.stack ≡ two_taken result self.new.stack }
        ensures locals { self.new.locals ≡ self.old.locals }
        ensures callers { self.new.callers ≡ self.old.callers }
        ensures spare { OnSome result (self.old.spare < self.new.spare) }
    {
        let b = self.take_one()?;
        let a = self.take_one()?;
        Some(Two { a, b })
    }

    /// Takes three values.
    pub fn take_three(&mut self) -> Option<Three>
        ensures taken { taken 3 [] self.old.stack ≡ three_taken result self.new.stack }
        ensures locals { self.new.locals ≡ self.old.locals }
        ensures callers { self.new.callers ≡ self.old.callers }
        ensures spare { OnSome result (self.old.spare < self.new.spare) }
    {
        let c = self.take_one()?;
        let two = self.take_two()?;
        Some(Three {
            a: two.a,
            b: two.b,
            c,
        })
    }
}
