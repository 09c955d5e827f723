//! A node of a run, with what it asks now.

ghost use Rattle.std.specs.Prelude.{◌≡◌, ◌<◌, [], ◌++◌, ◌∷◌, List, IfOk, OnOk, None};
ghost use Rattle.sc_isa.specs.Run.{Ask};
ghost use Rattle.sc_isa.specs.Sound.{IsSound};
ghost use Rattle.node_machine.specs.Nodes.{IsAt, HasCounters, HasRoom};
ghost use Rattle.node_machine.specs.Standings.{FitsAsk};
ghost use Rattle.code_sim.specs.Asking.{IsRunner, IsLeft, IsAnswered, HasGivenUp};
ghost use Rattle.node_machine.specs.declared.node.Standing.TheVariants as stands;

use node_machine::{Answer, Asked, Node};
use sc_base::OutOfMemory;
use sc_isa::{Code, NodeResult};
use sc_layout::Layout;
use std::alloc::Global;

/// A node that runs code, and what it asks now; it asks nothing once it has finished.
#[derive(Debug, Drop)]
pub struct Runner {
    pub node: Node,
    pub asks: Option<Asked>,
}

/// The node from its first instruction to its first event.
pub fn begun(
    alloc: Global,
    number: u32,
    layout: &Layout,
    budget: u64,
    code: &Code,
) -> Result<Runner, OutOfMemory>
    requires sound { IsSound code.now layout.now }
    requires within { number < layout.now.nodes }
    ensures { IfOk result (IsRunner code.now layout.now budget [] number) }
{
    let mut node = Node::new(alloc, number, layout, budget, code)?;
    let ask = node.run_to_event(code, layout)?;
    Ok(Runner {
        node,
        asks: Some(ask),
    })
}

impl Runner {
    /// Answers what the node asks, and runs it to its next event.
    pub fn go_on(&mut self, code: &Code, layout: &Layout, answer: Answer) -> Result<(), OutOfMemory>
        requires sound { IsSound code.now layout.now }
        requires within { self.old.node.own < layout.now.nodes }
        requires counters { HasCounters code.now self.old.node }
        requires room { HasRoom self.old.node }
        ensures { OnOk result ((asked : List Ask) → IsAt code.now layout.now self.old.node asked
            → FitsAsk layout.now self.old.node.standing asked answer
            → IsAnswered code.now layout.now self.old.node asked answer self.new) }
    {
        self.node.answer(answer);
        let ask = self.node.run_to_event(code, layout)?;
        self.asks = Some(ask);
        Ok(())
    }

    /// The node, which stands at a barrier, gives up there, and ends as waiting.
    pub fn give_up(&mut self, code: &Code, layout: &Layout) -> Result<(), OutOfMemory>
        requires sound { IsSound code.now layout.now }
        requires within { self.old.node.own < layout.now.nodes }
        requires counters { HasCounters code.now self.old.node }
        requires room { HasRoom self.old.node }
        ensures { OnOk result ((asked : List Ask) → IsAt code.now layout.now self.old.node asked
            → self.old.node.standing ≡ stands.Passes
            → HasGivenUp code.now layout.now self.old.node asked self.new) }
    {
        self.go_on(code, layout, Answer::Broken)?;
        self.asks = None;
        Ok(())
    }

    /// The node has finished.
    pub fn finish(&mut self)
        ensures asks { self.new.asks ≡ None }
        ensures node { self.new.node ≡ self.old.node }
    {
        self.asks = None;
    }

    /// What the node printed, and how it ended.
    pub fn into_result(self) -> NodeResult
        ensures { IsLeft self result }
    {
        self.node.into_result()
    }
}
