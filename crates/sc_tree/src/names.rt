//! Distinct names in the order in which they came.

ghost use Rattle.std.specs.Prelude.{◌≡◌, [], IfOk, OnOk, OnErr, is_some, length, slice_get};
ghost use Rattle.std.specs.List.{list_any, position};
ghost use Rattle.std.specs.Option.{option_map};
ghost use Rattle.std.specs.Str.{bytes_eq};
ghost use Rattle.sc_tree.specs.Names.{with_name, number_of};

use indexmap::IndexSet;
use sc_base::OutOfMemory;
use std::alloc::Global;
use std::marker::Model;

/// The distinct names of a source in order of first appearance, seen as the list of their bytes.
#[derive(Debug, Drop)]
pub struct Names {
    set: IndexSet<Vec<u8>>,
}

impl Model for Names {
    ghost use Rattle.std.specs.Prelude.{List, ℕ, map};

    ghost Value = { List (List ℕ) };

    ghost view = { λ n. map (λ v. v.items) n.set.keys };
}

impl Names {
    /// No names.
    pub fn new(alloc: Global) -> Names
        ensures { result ≡ [] }
    {
        Names {
            set: IndexSet::new(alloc),
        }
    }

    /// The name's number, counted from 0. A name that is new goes last. Where memory runs out, or a name would
    /// have no number of 32 bits, nothing changes.
    #[tactic(auto, using(crate::proofs::Views::texts))]
    pub fn add(&mut self, name: &[u8]) -> Result<u32, OutOfMemory>
        ensures number { IfOk result (λ n. n ≡ number_of name.now self.old) }
        ensures names { OnOk result (self.new ≡ with_name name.now self.old) }
        ensures same { OnErr result (self.new ≡ self.old) }
    {
        if let Some(found) = self.find(name) {
            let number = number_32(found)?;
            return Ok(number);
        }
        let number = number_32(self.set.len())?;
        let Ok(owned) = Vec::from_slice(*self.set.allocator(), name) else {
            return Err(OutOfMemory);
        };
        match self.set.insert_full(owned) {
            Ok(_) => Ok(number),
            Err(_) => Err(OutOfMemory),
        }
    }

    /// The number of the name, and None exactly where it is not among the names.
    #[tactic(auto, using(crate::proofs::Views::texts))]
    pub fn find(&self, name: &[u8]) -> Option<usize>
        ensures number { result ≡ position (bytes_eq name.now) self.now }
        ensures found { is_some result ≡ list_any (bytes_eq name.now) self.now }
    {
        self.set.get_index_of(name)
    }

    /// The bytes of the name with this number, and None exactly where there is no such number.
    pub fn text(&self, name: u32) -> Option<&[u8]>
        ensures { option_map (λ t. t.now) result ≡ slice_get self.now name }
    {
        let found = self.set.get_index(name as usize)?;
        Some(found.as_slice())
    }
}

/// The number in 32 bits, if it has as few.
fn number_32(number: usize) -> Result<u32, OutOfMemory>
    ensures { IfOk result (λ n. n ≡ number) }
{
    match u32::try_from(number) {
        Ok(n) => Ok(n),
        Err(_) => Err(OutOfMemory),
    }
}
