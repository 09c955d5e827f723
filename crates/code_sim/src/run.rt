//! A run by picks.

ghost use Rattle.std.specs.Prelude.{◌≡◌, ◌<◌, ◌≤◌, ◌+◌, ◌^◌, ◌%◌, ℕ, [], ◌∷◌, length, reverse, slice_get, IfOk, OnOk, Some};
ghost use Rattle.sc_isa.specs.Sound.{IsSound};
ghost use Rattle.sc_isa.specs.declared.results.NodeResult.{NodeResult as ResultRecord};
ghost use Rattle.fabric.specs.Flight.{in_flight};
ghost use Rattle.fabric.specs.Kept.{IsOfJournal};
ghost use Rattle.fabric.specs.State.{start_of};
ghost use Rattle.run_moves.specs.Moves.{moves, step_of, steps_below};
ghost use Rattle.code_sim.specs.declared.node.Runner.{Runner as RunnerRecord};
ghost use Rattle.run_moves.specs.OfCode.{machine_of};
ghost use Rattle.code_sim.specs.Enough.{Suffices};
ghost use Rattle.code_sim.specs.Ran.{IsCodeRun};
ghost use Rattle.code_sim.specs.Asking.{IsRunner, IsLeft};
ghost use Rattle.code_sim.specs.UnderWay.{IsUnderWay, IsStepped, IsDelivered, IsMoved, IsEnded};

use crate::node::{Runner, begun};
use crate::picks::Picks;
use crate::steps::{may_step, step};
use fabric::{Fabric, Run};
use sc_base::OutOfMemory;
use sc_isa::{Code, NodeResult, NodeResults};
use sc_layout::Layout;
use std::alloc::Global;

/// A run under way: its fabric and its nodes, by number.
#[derive(Drop)]
struct Simulation {
    fabric: Fabric,
    nodes: Vec<Runner>,
}

/// The nodes of the layout, each run to its first event.
fn start_nodes(
    alloc: Global,
    code: &Code,
    layout: &Layout,
    budget: u64,
) -> Result<Vec<Runner>, OutOfMemory>
    requires sound { IsSound code.now layout.now }
    ensures count { IfOk result (λ nodes. length nodes.items ≡ layout.now.nodes) }
    ensures each { IfOk result (λ nodes. (number : ℕ) (runner : RunnerRecord) → slice_get nodes.items number ≡ Some runner
        → IsRunner code.now layout.now budget [] number runner) }
{
    let mut nodes = Vec::new(alloc);
    for number in 0..layout.nodes() {
        let runner = begun(alloc, number, layout, budget, code)?;
        let Ok(()) = nodes.push(runner) else {
            return Err(OutOfMemory);
        };
    }
    Ok(nodes)
}

/// What the nodes leave, by number.
fn results_of(alloc: Global, nodes: Vec<Runner>) -> Result<Vec<NodeResult>, OutOfMemory>
    ensures count { IfOk result (λ results. length results.items ≡ length nodes.items) }
    ensures each { IfOk result (λ results. (number : ℕ) (runner : RunnerRecord) (left : ResultRecord)
        → slice_get nodes.items number ≡ Some runner → slice_get results.items number ≡ Some left → IsLeft runner left) }
{
    let mut results = Vec::new(alloc);
    for runner in nodes {
        let Ok(()) = results.push(runner.into_result()) else {
            return Err(OutOfMemory);
        };
    }
    Ok(results)
}

impl Simulation {
    /// Nothing has happened yet.
    fn start(
        alloc: Global,
        code: &Code,
        layout: &Layout,
        budget: u64,
    ) -> Result<Simulation, OutOfMemory>
        requires sound { IsSound code.now layout.now }
        ensures under_way { IfOk result (λ run. IsUnderWay code.now layout.now budget run.fabric run.nodes.items) }
        ensures past { IfOk result (λ run. run.fabric.past ≡ []) }
    {
        let fabric = Fabric::new(alloc, layout, code.sites)?;
        let nodes = start_nodes(alloc, code, layout, budget)?;
        Ok(Simulation { fabric, nodes })
    }

    /// How many nodes can go on.
    fn ready(&self, code: &Code, layout: &Layout, budget: u64) -> u64
        requires sound { IsSound code.now layout.now }
        requires under_way { IsUnderWay code.now layout.now budget self.now.fabric self.now.nodes.items }
        ensures { (many : ℕ) → Suffices code.now layout.now budget many
            → result ≡ length (steps_below (machine_of layout.now code.now budget many) self.now.fabric.past layout.now.nodes) }
    {
        // What is read here bounds the numbers of the nodes.
        let _nodes = layout.nodes();
        let mut count = 0;
        for (number, runner) in self.nodes.iter().enumerate() {
            if may_step(&self.fabric, runner, number as u32, code, layout) {
                count += 1;
            }
        }
        count
    }

    /// The node that is number k, from 0, of those that can go on.
    fn ready_node(&self, code: &Code, layout: &Layout, budget: u64, k: u64) -> u32
        requires sound { IsSound code.now layout.now }
        requires under_way { IsUnderWay code.now layout.now budget self.now.fabric self.now.nodes.items }
        requires within { (many : ℕ) → Suffices code.now layout.now budget many
            → k < length (steps_below (machine_of layout.now code.now budget many) self.now.fabric.past layout.now.nodes) }
        ensures within { result < layout.now.nodes }
        ensures before { (many : ℕ) → Suffices code.now layout.now budget many
            → k ≡ length (steps_below (machine_of layout.now code.now budget many) self.now.fabric.past result) }
        ensures goes { (many : ℕ) → Suffices code.now layout.now budget many
            → length (step_of (machine_of layout.now code.now budget many) self.now.fabric.past result) ≡ 1 }
    {
        // What is read here bounds the numbers of the nodes.
        let _nodes = layout.nodes();
        let mut left = k;
        for (number, runner) in self.nodes.iter().enumerate() {
            if may_step(&self.fabric, runner, number as u32, code, layout) {
                if left == 0 {
                    return number as u32;
                }
                left -= 1;
            }
        }
        unreachable!()
    }

    /// How many moves there are: the nodes that can go on, and then the messages in flight. More than can be counted are
    /// want of memory.
    fn moves(&self, code: &Code, layout: &Layout, budget: u64) -> Result<u64, OutOfMemory>
        requires sound { IsSound code.now layout.now }
        requires under_way { IsUnderWay code.now layout.now budget self.now.fabric self.now.nodes.items }
        ensures count { IfOk result (λ count. (many : ℕ) → Suffices code.now layout.now budget many
            → count ≡ length (moves (machine_of layout.now code.now budget many) self.now.fabric.past)) }
        ensures short { OnOk result (length self.now.fabric.past < 2 ^ 64) }
    {
        // What is read here bounds the number of entries.
        let _entries = self.fabric.entries();
        let ready = self.ready(code, layout, budget);
        match ready.checked_add(self.fabric.pool().count()) {
            Some(moves) => Ok(moves),
            None => Err(OutOfMemory),
        }
    }

    /// Delivers the message in flight with this number.
    fn deliver(&mut self, k: u64)
        requires within { k < length (in_flight (start_of self.old.fabric) self.old.fabric.past) }
        ensures delivered { IsDelivered self.old.fabric self.new.fabric k }
        ensures nodes { self.new.nodes ≡ self.old.nodes }
    {
        let Some(id) = self.fabric.pool().nth(k) else {
            unreachable!()
        };
        self.fabric.deliver(id);
    }

    /// The node that is number k of those that can go on takes its step.
    fn step(
        &mut self,
        alloc: Global,
        code: &Code,
        layout: &Layout,
        budget: u64,
        k: u64,
    ) -> Result<(), OutOfMemory>
        requires sound { IsSound code.now layout.now }
        requires under_way { IsUnderWay code.now layout.now budget self.old.fabric self.old.nodes.items }
        requires within { (many : ℕ) → Suffices code.now layout.now budget many
            → k < length (steps_below (machine_of layout.now code.now budget many) self.old.fabric.past layout.now.nodes) }
        ensures under_way { OnOk result (IsUnderWay code.now layout.now budget self.new.fabric self.new.nodes.items) }
        ensures moved { OnOk result (IsMoved code.now layout.now budget k self.old.fabric.past self.new.fabric.past) }
    {
        let number = self.ready_node(code, layout, budget, k);
        let runner = &mut self.nodes[number as usize];
        step(alloc, &mut self.fabric, runner, number, code, layout)?;
        Ok(())
    }

    /// Makes the move with this number.
    fn advance(
        &mut self,
        alloc: Global,
        code: &Code,
        layout: &Layout,
        budget: u64,
        k: u64,
    ) -> Result<(), OutOfMemory>
        requires sound { IsSound code.now layout.now }
        requires under_way { IsUnderWay code.now layout.now budget self.old.fabric self.old.nodes.items }
        requires within { (many : ℕ) → Suffices code.now layout.now budget many
            → k < length (moves (machine_of layout.now code.now budget many) self.old.fabric.past) }
        ensures under_way { OnOk result (IsUnderWay code.now layout.now budget self.new.fabric self.new.nodes.items) }
        ensures moved { OnOk result (IsMoved code.now layout.now budget k self.old.fabric.past self.new.fabric.past) }
    {
        let ready = self.ready(code, layout, budget);
        if k < ready {
            self.step(alloc, code, layout, budget, k)?;
        } else {
            self.deliver(k - ready);
        }
        Ok(())
    }

    /// What the run leaves.
    fn end(self, alloc: Global) -> Result<Run, OutOfMemory>
        ensures { IfOk result (IsEnded self.fabric self.nodes.items) }
    {
        let Simulation { fabric, nodes } = self;
        let results = results_of(alloc, nodes)?;
        Ok(fabric.into_run(NodeResults::from_vec(results)))
    }
}

/// Runs the code on each node of the layout, each with this budget of turns and calls, to the end: the picks name each
/// move among those that there are, and the run ends when no move is left. Each move takes one pick. The one error is want
/// of memory.
pub fn run_code<P: Picks>(
    alloc: Global,
    code: &Code,
    layout: &Layout,
    budget: u64,
    picks: &mut P,
) -> Result<Run, OutOfMemory>
    requires { IsSound code.now layout.now }
    ensures run { IfOk result (IsCodeRun code.now layout.now budget (P.words picks.old)) }
    ensures rest { IfOk result (λ run. (k : ℕ) → P.words picks.new k ≡ P.words picks.old (length run.journal + k)) }
{
    let mut run = Simulation::start(alloc, code, layout, budget)?;
    let mut moves = run.moves(code, layout, budget)?;
    while moves > 0 {
        let k = picks.pick(moves);
        run.advance(alloc, code, layout, budget, k)?;
        moves = run.moves(code, layout, budget)?;
    }
    run.end(alloc)
}
