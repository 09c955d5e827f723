//! The journal of a run.

ghost use Rattle.std.specs.Prelude.{◌≡◌};

use crate::access::Access;
use sc_base::{End, Value};
use std::marker::Model;

/// One atomic step of a run. `number` counts the issues of the node from 0, and `cell` the cells of the access.
/// A delivery has the value of the part of the access that takes effect with it. `stores` tells whether the
/// node waits at its barrier for all explicit one-way stores too.
#[derive(Clone, Copy, Debug, PartialEq, Eq)]
pub enum Entry {
    Issued {
        node: u32,
        number: u64,
        access: Access,
    },
    Delivered {
        node: u32,
        number: u64,
        cell: u32,
        value: Value,
    },
    Waited {
        node: u32,
        counter: u32,
    },
    Arrived {
        node: u32,
        stores: bool,
    },
    Passed {
        node: u32,
    },
    Finished {
        node: u32,
        end: End,
    },
}

/// The steps of a run in their order, seen as a list.
#[derive(Debug, Drop)]
pub struct Journal {
    entries: Vec<Entry>,
}

impl Model for Journal {
    ghost use Rattle.std.specs.Prelude.{List};
    ghost use Rattle.sc_isa.specs.declared.journal.Entry.{Entry};

    ghost Value = { List Entry };

    ghost view = { λ j. j.entries.items };
}

impl Journal {
    pub fn from_vec(entries: Vec<Entry>) -> Journal
        ensures { result ≡ entries.items }
    {
        Journal { entries }
    }

    pub fn as_slice(&self) -> &[Entry]
        ensures { result.now ≡ self.now }
    {
        self.entries.as_slice()
    }
}
