//! The locals in scope.

ghost use Rattle.std.specs.Prelude.{◌≡◌, drop, length, nat_eq, IfOk};
ghost use Rattle.std.specs.List.{list_any};
ghost use Rattle.std.specs.Option.{option_copied};
ghost use Rattle.sc_typing.specs.Scope as scope;

use sc_base::{Ty, copy_of_type};
use std::alloc::{AllocError, Global};
use std::marker::Model;

/// A local in scope, with its number in its function.
#[derive(Debug, Drop)]
pub struct InScope {
    pub name: u32,
    pub number: u32,
    pub ty: Ty,
}

/// The locals in scope, those of inner blocks last, and the number of locals that the function has so far.
#[derive(Drop)]
pub struct Scope {
    locals: Vec<InScope>,
    count: u32,
}

impl Model for Scope {
    ghost Value = { scope.Scope };

    ghost view = { λ s. record { locals = s.locals.items; count = s.count } };
}

impl Scope {
    /// The scope at the beginning of a function.
    pub fn new(alloc: Global) -> Scope
        ensures { result ≡ scope.nothing_in_scope }
    {
        Scope {
            locals: Vec::new(alloc),
            count: 0,
        }
    }

    /// The innermost local of this name in scope.
    pub fn local(&self, name: u32) -> Option<&InScope>
        ensures { option_copied result ≡ scope.innermost name self.now.locals }
    {
        self.locals.iter().rev().find(|l| l.name == name)
    }

    /// How many locals are in scope.
    pub fn depth(&self) -> usize
        ensures { result ≡ scope.depth self.now }
    {
        self.locals.len()
    }

    /// Whether one of the locals in scope, but for the first `from`, has the name.
    pub fn declared_since(&self, from: usize, name: u32) -> bool
        ensures { result ≡ scope.declared_since from name self.now }
    {
        self.locals.iter().skip(from).any(|l| l.name == name)
    }

    /// A further local of the function, in scope from here on where it has a name.
    #[tactic(auto, unfolding(crate::specs::Scope::with_declared))]
    pub fn declare(&mut self, alloc: Global, name: Option<u32>, ty: &Ty) -> Result<(), AllocError>
        ensures { IfOk result (λ _. self.new ≡ scope.with_declared name ty.now self.old) }
    {
        let number = self.count;
        let Some(count) = number.checked_add(1) else {
            return Err(AllocError);
        };
        if let Some(name) = name {
            let ty = copy_of_type(alloc, ty)?;
            self.locals.push(InScope { name, number, ty })?;
        }
        self.count = count;
        Ok(())
    }

    /// Takes all but the first locals out of scope.
    #[tactic(auto, unfolding(crate::specs::Scope::left_block))]
    pub fn leave(&mut self, depth: usize)
        ensures { self.new ≡ scope.left_block depth self.old }
    {
        self.locals.truncate(depth);
    }
}
