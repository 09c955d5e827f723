//! The values that land at a wait.

ghost use Rattle.std.specs.Prelude.{◌≡◌, ◌+◌, ◌<◌, ◌≤◌, [], ◌∷◌, ◌++◌, OnOk, OnErr};

use sc_base::{OutOfMemory, Value};
use std::alloc::Global;
use std::marker::Model;

/// The values of the reads that a wait ends, in order of issue. Seen as a list of values and a number `spare`
/// of values for which there is room.
#[derive(Debug, Drop)]
pub struct Landed {
    values: Vec<Value>,
}

impl Model for Landed {
    ghost use Rattle.std.specs.Prelude.{◌-◌, vec_len, vec_capacity};
    ghost use Rattle.sc_isa.specs.Landing.{Landing};

    ghost Value = { Landing };

    ghost view = { λ l. record { values = l.values.items; spare = vec_capacity l.values - vec_len l.values } };
}

impl Landed {
    /// No values. This takes no memory.
    pub fn new(alloc: Global) -> Landed
        ensures { result.values ≡ [] }
    {
        Landed {
            values: Vec::new(alloc),
        }
    }

    /// Makes `spare` at least `count`, and never lowers it.
    pub fn reserve(&mut self, count: u64) -> Result<(), OutOfMemory>
        ensures values { self.new.values ≡ self.old.values }
        ensures spare { self.old.spare ≤ self.new.spare }
        ensures enough { OnOk result (count ≤ self.new.spare) }
        ensures refused { OnErr result (self.new ≡ self.old) }
    {
        self.values.reserve(count as usize).map_err(|_| OutOfMemory)
    }

    /// Appends the value, for which there is room. This takes no memory.
    pub fn add(&mut self, value: Value)
        requires { 0 < self.old.spare }
        ensures values { self.new.values ≡ self.old.values ++ value ∷ [] }
        ensures spare { self.new.spare + 1 ≡ self.old.spare }
    {
        self.values.push_reserved(value);
    }

    /// The values.
    pub fn values(&self) -> &[Value]
        ensures { result.now ≡ self.now.values }
    {
        self.values.as_slice()
    }
}
