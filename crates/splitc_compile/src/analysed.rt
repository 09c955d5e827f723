//! What is found of a core tree before it is made code: its flow, which of its accesses must not overlap, and where it
//! waits.

ghost use Rattle.std.specs.Prelude.{ℕ, ◌≡◌, ◌≤◌, ◌+◌, List, IfOk, IfErr, length};
ghost use Rattle.sc_base.specs.declared.limits.TheConstants.{LIMITS};
ghost use Rattle.sc_tree.specs.Names.{Text};
ghost use Rattle.sc_tree.specs.PlainTypedTree.{PlainTypedTree};
ghost use Rattle.sc_core.specs.Lowering.{core_of};
ghost use Rattle.sc_core.specs.ViewStatements.{plain_program};
ghost use Rattle.value_soundness.specs.Laws.{IsLaidSource};
ghost use Rattle.site_graph.specs.Kept.{Names as NamesObjects};
ghost use Rattle.site_graph.specs.Plans.{IsPlainPlan};
ghost use Rattle.flow_form.specs.Accesses.{accesses_of};
ghost use Rattle.flow_form.specs.FlowOf.{flow_of};
ghost use Rattle.sync_place.specs.Plain.{FirstsFollowNoAccess};
ghost use Rattle.front_end.specs.Accepted.{IsAccepted};
ghost use Rattle.splitc_compile.specs.Answers.{Excuses};
ghost use Rattle.splitc_compile.specs.Compiled.{AreDelaysOf};

use alias_conflicts::conflicts;
use delay_sets::delays;
use flow_form::FlowError;
use flow_walk::source::flow;
use front_end::{CompileError, Refusal};
use phase_map::phases_early;
use sc_base::OutOfMemory;
use sc_core::CoreProgram;
use sc_layout::Layout;
use site_graph::{BitRows, Flow, Plan};
use std::alloc::Global;
use sync_place::plain_plan;

/// The flow of a core tree, the pairs of accesses of which the first must be over before the second begins, and the plan
/// that waits directly behind each access.
#[derive(Drop)]
pub struct Analysed {
    pub flow: Flow,
    pub delays: BitRows,
    pub plan: Plan,
}

/// The analysis of the core tree of a source whose objects are laid out so.
pub fn analyse(alloc: Global, core: &CoreProgram, layout: &Layout) -> Result<Analysed, CompileError>
    requires { IsLaidSource layout.now (plain_program core.now) }
    ensures flow { IfOk result (λ a. a.flow ≡ flow_of layout.now.nodes (plain_program core.now)) }
    ensures within { IfOk result (λ _. accesses_of (plain_program core.now) ≤ LIMITS.sites) }
    ensures delays { IfOk result (λ a. AreDelaysOf layout.now a.flow a.delays) }
    ensures plan { IfOk result (λ a. IsPlainPlan a.flow a.plan) }
    ensures refused { IfErr result (λ e. (source : List ℕ) (nodes : ℕ) (names : List Text) (typed : PlainTypedTree)
        → IsAccepted source nodes names typed layout.now → plain_program core.now ≡ core_of typed
        → Excuses source nodes e) }
{
    let flow = flow_of(alloc, core, layout)?;
    let delays = delays_of(alloc, &flow, layout)?;
    let plan = plain_plan(alloc, &flow)?;
    Ok(Analysed { flow, delays, plan })
}

/// The flow of the core tree.
fn flow_of(alloc: Global, core: &CoreProgram, layout: &Layout) -> Result<Flow, CompileError>
    requires { IsLaidSource layout.now (plain_program core.now) }
    ensures flow { IfOk result (λ f. f ≡ flow_of layout.now.nodes (plain_program core.now)) }
    ensures within { IfOk result (λ _. accesses_of (plain_program core.now) ≤ LIMITS.sites) }
    ensures names { IfOk result (λ f. NamesObjects (length layout.now.objects) f) }
    ensures firsts { IfOk result (λ f. FirstsFollowNoAccess f) }
    ensures refused { IfErr result (λ e. (source : List ℕ) (nodes : ℕ) (names : List Text) (typed : PlainTypedTree)
        → IsAccepted source nodes names typed layout.now → plain_program core.now ≡ core_of typed
        → Excuses source nodes e) }
{
    match flow(alloc, core, layout.nodes()) {
        Ok(flow) => Ok(flow),
        Err(FlowError::TooManySites { count }) => {
            Err(CompileError::Refused(Refusal::TooManySites { count }))
        }
        Err(FlowError::OutOfMemory) => Err(CompileError::OutOfMemory),
    }
}

/// Which accesses must not overlap, where all sites meet.
fn delays_of(alloc: Global, flow: &Flow, layout: &Layout) -> Result<BitRows, OutOfMemory>
    requires { NamesObjects (length layout.now.objects) flow.now }
    ensures { IfOk result (AreDelaysOf layout.now flow.now) }
{
    let phases = phases_early(alloc, flow)?;
    let conflicts = conflicts(alloc, flow, &phases, layout)?;
    delays(alloc, flow, &conflicts)
}
