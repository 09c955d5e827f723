//! The broken rules that a check has met.

ghost use Rattle.std.specs.Prelude.{◌≡◌, [], IfOk};
ghost use Rattle.sc_typing.specs.Notes as notes;

use crate::rule::Rule;
use std::alloc::{AllocError, Global};
use std::marker::Model;

/// A rule that is broken at a token.
#[derive(Clone, Copy, Debug, PartialEq, Eq)]
pub struct Breach {
    pub at: u32,
    pub rule: Rule,
}

/// The broken rules in the order in which they were met.
#[derive(Drop)]
pub struct Notes {
    broken: Vec<Breach>,
}

impl Model for Notes {
    ghost use Rattle.std.specs.Prelude.{List};
    ghost use Rattle.sc_typing.specs.declared.notes.Breach.{Breach};

    ghost Value = { List Breach };

    ghost view = { λ n. n.broken.items };
}

impl Notes {
    /// No broken rule so far.
    pub fn new(alloc: Global) -> Notes
        ensures { result ≡ [] }
    {
        Notes {
            broken: Vec::new(alloc),
        }
    }

    /// The broken rules, in the order in which they were met.
    pub fn as_slice(&self) -> &[Breach]
        ensures { result.now ≡ self.now }
    {
        self.broken.as_slice()
    }

    /// Notes that the rule is broken at the token, unless it is kept.
    #[tactic(auto, unfolding(crate::specs::Notes::unless))]
    pub fn demand(&mut self, kept: bool, at: u32, rule: Rule) -> Result<(), AllocError>
        ensures { IfOk result (λ _. self.new ≡ notes.unless kept at rule self.old) }
    {
        if !kept {
            self.broken.push(Breach { at, rule })?;
        }
        Ok(())
    }
}
