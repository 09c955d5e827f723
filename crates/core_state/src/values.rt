//! The values that a node has made and not used.

ghost use Rattle.std.specs.Prelude.{◌≡◌, ◌≤◌, true, [], ◌∷◌, length, map, reverse, take, drop, nat_le, MatchOption, OnOk};
ghost use Rattle.std.specs.List.{list_all};
ghost use Rattle.node_values.specs.Operands.{is_here, value_in};

use sc_base::Value;
use sc_isa::Operand;
use std::alloc::{AllocError, Global};
use std::marker::Model;

/// Values, seen as the list of them, the last first.
#[derive(Drop)]
pub struct Values {
    operands: Vec<Operand>,
}

impl Model for Values {
    ghost use Rattle.std.specs.Prelude.{◌≡◌, List, map, reverse, true};
    ghost use Rattle.std.specs.List.{list_all};
    ghost use Rattle.sc_base.specs.declared.value.Value.{Value as Held};
    ghost use Rattle.node_values.specs.Operands.{is_here, value_in};

    ghost Value = { List Held };

    ghost view = { λ v. reverse (map value_in v.operands.items) };

    ghost invariant = { λ v. list_all is_here v.operands.items ≡ true };
}

impl Values {
    /// None. This takes no memory.
    pub fn new(alloc: Global) -> Values
        ensures { result ≡ [] }
    {
        Values {
            operands: Vec::new(alloc),
        }
    }

    pub fn push(&mut self, value: Value) -> Result<(), AllocError>
        ensures { OnOk result (self.new ≡ value ∷ self.old) }
    {
        self.operands.push(Operand::Here(value))?;
        Ok(())
    }

    /// Takes the last value.
    pub fn pop(&mut self) -> Option<Value>
        ensures { MatchOption result ((self.old ≡ []) × (self.new ≡ [])) (λ value. self.old ≡ value ∷ self.new) }
    {
        match self.operands.pop()? {
            Operand::Here(value) => Some(value),
            Operand::Landing { .. } => Some(Value::Int(0)),
        }
    }

    /// Whether there are so many.
    pub fn has(&self, count: usize) -> bool
        ensures { result ≡ nat_le count (length self.now) }
    {
        count <= self.operands.len()
    }

    /// The last ones that are so many, in the order in which they were made.
    pub fn last(&self, count: usize) -> &[Operand]
        requires { count ≤ length self.now }
        ensures values { map value_in result.now ≡ reverse (take count self.now) }
        ensures here { list_all is_here result.now ≡ true }
        ensures many { length result.now ≡ count }
    {
        let begin = self.operands.len() - count;
        &self.operands.as_slice()[begin..]
    }

    /// Takes so many.
    pub fn drop_last(&mut self, count: usize)
        requires { count ≤ length self.old }
        ensures { self.new ≡ drop count self.old }
    {
        self.operands.truncate(self.operands.len() - count);
    }
}
