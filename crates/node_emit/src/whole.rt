//! The code of functions and of whole sources.

ghost use Rattle.std.specs.Prelude.{◌≡◌, ◌+◌, ◌≤◌, ◌<◌, IfOk, IfErr, OnOk, map, length};
ghost use Rattle.sc_core.specs.ViewStatements.{plain_function, plain_program};
ghost use Rattle.node_emit.specs.Sources as sources;
ghost use Rattle.node_emit.specs.Sources.{IsCodeOf};
ghost use Rattle.node_emit.specs.Whole.{AreWithin, IsRefused, function_put, functions_put, row_of, rows_of};

use crate::draft::{Draft, added, narrowed};
use crate::error::EmitError;
use crate::steps::{Emitter, constant_op, one, zero_of};
use sc_base::{Bytes, LIMITS};
use sc_core::{CoreFunction, CoreProgram};
use sc_isa::{Code, FnRow, FnRows, Instrs, Op};
use sc_tree::Texts;
use site_graph::Plan;
use std::alloc::{AllocError, Global};

/// How many locals the function has, its parameters among them.
fn locals_of(f: &CoreFunction) -> Result<u32, AllocError>
    ensures { IfOk result (λ n. n ≡ sources.locals_of (plain_function f.now)) }
{
    let params = narrowed(f.params.len())?;
    let others = narrowed(f.others.len())?;
    let all = added(params, others)?;
    Ok(all)
}

/// Ok where no function has more locals than the limit; else the first that has, with their number, its parameters among
/// them. It also answers want of memory where 32 bits do not count the locals of a function.
pub fn check_locals(core: &CoreProgram) -> Result<(), EmitError>
    ensures within { OnOk result (AreWithin (plain_program core.now)) }
    ensures refused { IfErr result (λ error. IsRefused (plain_program core.now) error) }
{
    for f in core.functions.as_slice() {
        let count = locals_of(f)?;
        if count as u64 > LIMITS.locals {
            return Err(EmitError::TooManyLocals { count });
        }
    }
    Ok(())
}

/// The texts, in memory of their own.
fn copies_of(alloc: Global, texts: &[Bytes]) -> Result<Vec<Bytes>, AllocError>
    ensures { IfOk result (λ copies. copies.items ≡ texts.now) }
{
    let mut copies = Vec::new(alloc);
    for text in texts {
        let copy = Vec::from_slice(alloc, text.as_slice())?;
        copies.push(Bytes::from_vec(copy))?;
    }
    Ok(copies)
}

impl Emitter<'_> {
    /// A function. It answers the function's row.
    #[tactic(auto, using(std::proofs::lemmas::Grind::common_steps, crate::proofs::Sources::functions), unfolding(crate::specs::Whole::row_of))]
    fn function(&self, draft: &mut Draft, f: &CoreFunction) -> Result<FnRow, AllocError>
        ensures draft { OnOk result (draft.new ≡ function_put self.now.plan.now (plain_function f.now) draft.old) }
        ensures row { IfOk result (λ row. row ≡ row_of (plain_function f.now) draft.old) }
    {
        let start = draft.here()?;
        let params = narrowed(f.params.len())?;
        let locals = locals_of(f)?;
        let mut breaks = Vec::new(self.alloc);
        let mut continues = Vec::new(self.alloc);
        draft.pass()?;
        self.statement(draft, &f.body, &mut breaks, &mut continues)?;
        draft.outside(constant_op(zero_of(&f.result)))?;
        self.run(draft, one(Op::Ret), f.line)?;
        Ok(FnRow {
            start,
            params,
            locals,
        })
    }

    /// The functions in the order of the text. It answers their rows.
    #[tactic(auto, using(std::proofs::lemmas::Grind::common_steps, crate::proofs::Sources::lists))]
    fn functions(&self, draft: &mut Draft, all: &[CoreFunction]) -> Result<Vec<FnRow>, AllocError>
        ensures draft { OnOk result (draft.new ≡ functions_put self.now.plan.now (map plain_function all.now) draft.old) }
        ensures rows { IfOk result (λ rows. rows.items ≡ rows_of self.now.plan.now (map plain_function all.now) draft.old) }
    {
        let mut rows = Vec::new(self.alloc);
        for f in all {
            let row = self.function(draft, f)?;
            rows.push(row)?;
        }
        Ok(rows)
    }
}

/// The code of the source under the plan, whatever it waits for. It comes exactly where no function has more locals
/// than the limit and memory suffices: code of which 32 bits do not count the functions, instructions, texts, bytes of
/// a text, points or sites is want of memory.
#[tactic(auto, using(std::proofs::lemmas::Grind::common_steps, crate::proofs::Sources::wholes))]
pub fn emit(alloc: Global, core: &CoreProgram, plan: &Plan) -> Result<Code, EmitError>
    ensures code { IfOk result (λ code. IsCodeOf plan.now (plain_program core.now) code) }
    ensures within { IfOk result (λ _. AreWithin (plain_program core.now)) }
    ensures refused { IfErr result (λ error. IsRefused (plain_program core.now) error) }
{
    check_locals(core)?;
    let emitter = Emitter { alloc, plan };
    let mut draft = Draft::new(alloc, 1);
    let rows = emitter.functions(&mut draft, core.functions.as_slice())?;
    let texts = copies_of(alloc, core.texts.as_slice())?;
    let sites = draft.sites();
    let instrs = draft.into_instrs();
    match Code::new(
        FnRows::from_vec(rows),
        Instrs::from_vec(instrs),
        Texts::from_vec(texts),
        sites,
    ) {
        Some(code) => Ok(code),
        None => Err(EmitError::OutOfMemory),
    }
}
