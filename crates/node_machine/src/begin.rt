//! Where a node begins.

ghost use Rattle.std.specs.Prelude.{◌≡◌, ◌+◌, ◌<◌, [], ◌∷◌, length, replicate, drop, IfOk, IfSome, IfNone, codes};
ghost use Rattle.sc_isa.specs.State.{State, blank};
ghost use Rattle.sc_isa.specs.Begin.{begin, entry, row_named, names};
ghost use Rattle.node_machine.specs.View.{Stands};

use crate::machine::Machine;
use node_state::{Counts, Frames};
use sc_base::Bytes;
use sc_isa::{Code, FnRow};
use std::alloc::{AllocError, Global};

/// The names of the functions, which are the last texts.
fn names(code: &Code) -> &[Bytes]
    ensures { result.now ≡ names code.now }
{
    let texts = code.texts.as_slice();
    &texts[texts.len().saturating_sub(code.functions.as_slice().len())..]
}

/// The first function that has the name.
fn row_named(name: &[u8], functions: &[FnRow], names: &[Bytes]) -> Option<FnRow>
    ensures { result ≡ row_named name.now functions.now names.now }
{
    for (number, row) in functions.iter().enumerate() {
        if number >= names.len() {
            return None;
        }
        if name == names[number].as_slice() {
            return Some(*row);
        }
    }
    None
}

/// The function that a node begins in.
fn entry(code: &Code) -> Option<FnRow>
    ensures { result ≡ entry code.now }
{
    row_named(b"splitc_main", code.functions.as_slice(), names(code))
}

impl Machine {
    /// The node at this instruction, in a frame with so many locals.
    #[tactic(auto, using(crate::proofs::Beginning::no_counts))]
    fn begin_at(
        alloc: Global,
        budget: u64,
        code: &Code,
        at: u32,
        locals: u32,
    ) -> Result<Machine, AllocError>
        ensures stands { IfOk result (λ machine. Stands machine (record {
          frame = record {
            at = at;
            stack = [];
            locals = replicate locals blank;
          };
          callers = [];
          left = budget;
          flying = [];
        })) }
        ensures counters { IfOk result (λ machine. code.now.sites < length machine.reads) }
    {
        let mut frames = Frames::new(alloc);
        frames.reserve_frame(u64::from(locals))?;
        frames.add_locals(locals);
        let reads = Counts::new(alloc, code.sites)?;
        Ok(Machine {
            at,
            left: budget,
            frames,
            reads,
        })
    }

    /// The node at the first instruction of `splitc_main`; past the last one where there is no such function.
    pub(crate) fn begin(alloc: Global, budget: u64, code: &Code) -> Result<Machine, AllocError>
        ensures stands { IfOk result (λ machine. Stands machine (begin code.now budget)) }
        ensures counters { IfOk result (λ machine. code.now.sites < length machine.reads) }
    {
        match entry(code) {
            Some(row) => {
                let machine = Machine::begin_at(alloc, budget, code, row.start, row.locals)?;
                Ok(machine)
            }
            None => {
                let outside = code.instrs.as_slice().len() as u32;
                let machine = Machine::begin_at(alloc, budget, code, outside, 0)?;
                Ok(machine)
            }
        }
    }
}
