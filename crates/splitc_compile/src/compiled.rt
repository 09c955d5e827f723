//! A compiled source.

ghost use Rattle.std.specs.Prelude.{ℕ, ◌≡◌, ◌≤◌, ◌<◌, List, IfOk, IfErr, length};
ghost use Rattle.sc_base.specs.declared.limits.TheConstants.{LIMITS};
ghost use Rattle.sc_tree.specs.Names.{Text};
ghost use Rattle.sc_tree.specs.PlainTypedTree.{PlainTypedTree};
ghost use Rattle.sc_tree.specs.ViewTypedTree.{plain_typed_tree};
ghost use Rattle.sc_layout.specs.Layout.{Arrangement};
ghost use Rattle.sc_core.specs.Lowering as lowering;
ghost use Rattle.sc_core.specs.ViewStatements.{plain_program};
ghost use Rattle.value_soundness.specs.Laws.{IsLaidSource};
ghost use Rattle.flow_form.specs.Accesses.{accesses_of};
ghost use Rattle.node_emit.specs.Sources.{IsCodeOf};
ghost use Rattle.node_emit.specs.Whole.{AreWithin};
ghost use Rattle.front_end.specs.Accepted.{IsAccepted};
ghost use Rattle.front_end.specs.declared.refusal.CompileError.TheVariants as CompileError;
ghost use Rattle.splitc_compile.specs.Answers.{IsCompiled, Excuses};
ghost use Rattle.splitc_compile.specs.Compiled.{parts_of};

use crate::analysed::{Analysed, analyse};
use core_lower::lower;
use flow_form::{FlowError, scan_source};
use front_end::{Accepted, CompileError, Refusal, accept};
use node_emit::{EmitError, check_locals, emit};
use sc_base::OutOfMemory;
use sc_core::CoreProgram;
use sc_isa::Code;
use sc_layout::Layout;
use sc_tree::{Names, Typed};
use site_graph::{BitRows, Flow, Plan};
use std::alloc::Global;

/// A compiled source: its names, its tree with types, the layout of its objects, its core tree, its flow, the pairs of
/// accesses of which the first must be over before the second begins, where its code waits, and its code. Each part is
/// that of the ones before.
#[derive(Drop)]
pub struct Compiled {
    pub names: Names,
    pub typed: Typed,
    pub layout: Layout,
    pub core: CoreProgram,
    pub flow: Flow,
    pub delays: BitRows,
    pub plan: Plan,
    pub code: Code,
}

/// The source compiled for so many nodes, or the first refusal. A source has at most `LIMITS.source` bytes, and there is
/// at least one node.
pub fn compile(alloc: Global, source: &[u8], nodes: u32) -> Result<Compiled, CompileError>
    requires short { length source.now ≤ LIMITS.source }
    requires some_node { 0 < nodes }
    ensures compiled { IfOk result (λ c. IsCompiled source.now nodes (parts_of c)) }
    ensures refused { IfErr result (λ e. Excuses source.now nodes e) }
{
    let accepted = match accept(alloc, source, nodes) {
        Ok(accepted) => accepted,
        Err(e) => return Err(e),
    };
    let core = core_of(alloc, &accepted)?;
    // What is read at each point is noted in the flow, so that too many locals are found before it is drawn.
    keep_limits(alloc, &core)?;
    let analysed = analyse(alloc, &core, &accepted.layout)?;
    let code = code_of(alloc, &core, &analysed.plan)?;
    Ok(Compiled {
        names: accepted.names,
        typed: accepted.typed,
        layout: accepted.layout,
        core,
        flow: analysed.flow,
        delays: analysed.delays,
        plan: analysed.plan,
        code,
    })
}

/// The core tree of an accepted source.
fn core_of(alloc: Global, accepted: &Accepted) -> Result<CoreProgram, CompileError>
    ensures core { IfOk result (λ core. plain_program core ≡ lowering.core_of (plain_typed_tree accepted.now.typed)) }
    ensures laid { IfOk result (λ core. (source : List ℕ) (nodes : ℕ)
        → IsAccepted source nodes accepted.now.names (plain_typed_tree accepted.now.typed) accepted.now.layout
        → IsLaidSource accepted.now.layout (plain_program core)) }
    ensures named { IfOk result (λ core. (source : List ℕ) (nodes : ℕ)
        → IsAccepted source nodes accepted.now.names (plain_typed_tree accepted.now.typed) accepted.now.layout
        → length (plain_program core).functions ≤ length (plain_program core).texts) }
    ensures memory { IfErr result (λ e. e ≡ CompileError.OutOfMemory) }
{
    // Read for the proof alone, which learns that the layout is lawful, and that 32 bits count the nodes.
    let _objects = accepted.layout.count();
    let _nodes = accepted.layout.nodes();
    let core = lower(alloc, &accepted.typed)?;
    Ok(core)
}

/// Ok where the core tree has no more accesses, and no function of it more locals, than the limits; else what it has too
/// many of, accesses first.
fn keep_limits(alloc: Global, core: &CoreProgram) -> Result<(), CompileError>
    ensures refused { IfErr result (λ e. (source : List ℕ) (nodes : ℕ) (names : List Text) (typed : PlainTypedTree)
        (layout : Arrangement) → IsAccepted source nodes names typed layout
        → plain_program core.now ≡ lowering.core_of typed → Excuses source nodes e) }
{
    match scan_source(alloc, core) {
        Ok(_) => {}
        Err(FlowError::TooManySites { count }) => {
            return Err(CompileError::Refused(Refusal::TooManySites { count }));
        }
        Err(FlowError::OutOfMemory) => return Err(CompileError::OutOfMemory),
    }
    match check_locals(core) {
        Ok(()) => Ok(()),
        Err(EmitError::TooManyLocals { count }) => {
            Err(CompileError::Refused(Refusal::TooManyLocals { count }))
        }
        Err(EmitError::OutOfMemory) => Err(CompileError::OutOfMemory),
    }
}

/// The code of the core tree under the plan.
fn code_of(alloc: Global, core: &CoreProgram, plan: &Plan) -> Result<Code, CompileError>
    ensures code { IfOk result (λ code. IsCodeOf plan.now (plain_program core.now) code) }
    ensures within { IfOk result (λ _. AreWithin (plain_program core.now)) }
    ensures refused { IfErr result (λ e. (source : List ℕ) (nodes : ℕ) (names : List Text) (typed : PlainTypedTree)
        (layout : Arrangement) → IsAccepted source nodes names typed layout
        → plain_program core.now ≡ lowering.core_of typed → accesses_of (plain_program core.now) ≤ LIMITS.sites
        → Excuses source nodes e) }
{
    match emit(alloc, core, plan) {
        Ok(code) => Ok(code),
        Err(EmitError::TooManyLocals { count }) => {
            Err(CompileError::Refused(Refusal::TooManyLocals { count }))
        }
        Err(EmitError::OutOfMemory) => Err(CompileError::OutOfMemory),
    }
}
