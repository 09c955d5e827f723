//! The names that directives defined.

ghost use Rattle.std.specs.Prelude.{◌≡◌, None, [], ◌∷◌, ◌++◌, OnOk, slice_get};
ghost use Rattle.sc_lexer.specs.Defined.{defined_value};

use sc_base::OutOfMemory;
use sc_tree::Names;
use std::alloc::Global;
use std::marker::Model;

/// The defined names with their numbers, in the order of their directives. Seen as a list of pairs.
#[derive(Debug, Drop)]
pub struct Defined {
    names: Names,
    values: Vec<i64>,
}

impl Model for Defined {
    ghost use Rattle.std.specs.Prelude.{◌≡◌, ℕ, ℤ, List, zip, length};

    ghost Value = { List (List ℕ × ℤ) };

    ghost view = { λ d. zip d.names d.values.items };

    ghost invariant = { λ d. length d.names ≡ length d.values.items };
}

impl Defined {
    /// No name is defined.
    pub fn new(alloc: Global) -> Defined
        ensures { result ≡ [] }
    {
        Defined {
            names: Names::new(alloc),
            values: Vec::new(alloc),
        }
    }

    /// The number that the name is defined as, if it is defined.
    #[tactic(auto, using(crate::proofs::DefinedLaws::looks))]
    pub fn value(&self, name: &[u8]) -> Option<i64>
        ensures { result ≡ defined_value name.now self.now }
    {
        match self.names.find(name) {
            Some(number) => value_at(self.values.as_slice(), number),
            None => None,
        }
    }

    /// Defines a name that is not defined yet.
    pub fn add(&mut self, name: &[u8], value: i64) -> Result<(), OutOfMemory>
        requires { defined_value name.now self.old ≡ None }
        ensures { OnOk result (self.new ≡ self.old ++ (name.now, value) ∷ []) }
    {
        let Ok(()) = self.values.push(value) else {
            return Err(OutOfMemory);
        };
        let Ok(_) = self.names.add(name) else {
            let _ = self.values.pop();
            return Err(OutOfMemory);
        };
        Ok(())
    }
}

fn value_at(values: &[i64], at: usize) -> Option<i64>
    ensures { result ≡ slice_get values.now at }
{
    values.get(at).copied()
}
