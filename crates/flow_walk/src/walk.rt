//! Statements of a flow that is drawn.

ghost use Rattle.std.specs.Prelude.{◌≡◌, [], ◌∷◌, ◌++◌, ◌==◌, IfOk, OnOk, map};
ghost use Rattle.std.specs.List.{list_any};
ghost use Rattle.sc_core.specs.View.{plain_core, arguments_of};
ghost use Rattle.sc_core.specs.ViewParts.{plain_core_arm};
ghost use Rattle.sc_core.specs.ViewStatements.{plain_does};
ghost use Rattle.flow_form.specs.Statements.{mine_in};
ghost use Rattle.flow_form.specs.Steps.{fetched_into};
ghost use Rattle.flow_draw.specs.Around.{within_of};
ghost use Rattle.flow_draw.specs.Drawings.{noting};
ghost use Rattle.flow_walk.specs.Walked.{walked};
ghost use Rattle.flow_walk.specs.Steps.{walk_point, walk_value, walk_act, walk_from, walk_break, walk_continue, walk_block, walk_opened, walk_end, walk_arm, walk_arms, walk_joined, count_of, walk_enter, walk_turn, walk_again, walk_closed};

use crate::actions::{kind_of_action, set_by_action, site_of_action};
use flow_draw::{Around, Drawing, Outer};
use flow_exits::again_from;
use flow_form::Count;
use flow_form::count::added;
use flow_form::gather::Wanted;
use sc_core::{Action, CoreArm, CoreExpr, CoreStmt};
use site_graph::{NODE_MARK, PointKind};
use sqlite_items::Items;
use std::alloc::{AllocError, Global};
use std::mem;

/// A flow while the statements of a function are drawn: beside the drawing, the points from which `break` and `continue`
/// lead on, and those from which evaluation comes to the end of the innermost `if`, over the arms so far.
#[derive(Debug, Drop)]
pub struct Walk {
    pub drawing: Drawing,
    pub breaks: Items<u32>,
    pub continues: Items<u32>,
    pub ends: Items<u32>,
}

/// The points from which `break` and `continue` lead on.
#[derive(Debug, Drop)]
struct Ways {
    breaks: Items<u32>,
    continues: Items<u32>,
}

/// Whether the number is in the list.
fn has(list: &[u32], number: u32) -> bool
    ensures { result ≡ list_any (λ y. number == y) list.now }
{
    list.iter().any(|other| number == *other)
}

/// The locals that in the body of a loop leave the remainder `MYPROC` when they are divided by `PROCS`.
#[tactic(auto, using(std::proofs::lemmas::Grind::common_steps, crate::proofs::Mines::mines), unfolding(flow_form::specs::Gathers::gathered_in, flow_form::specs::Gathers::wanted_in))]
fn mines_in(
    around: &Around,
    mine: Option<u32>,
    before: &CoreStmt,
    body: &CoreStmt,
) -> Result<Items<u32>, AllocError>
    ensures { IfOk result (λ it. it ≡ mine_in mine (plain_does before.now) (plain_does body.now) ++ around.now.mines.now) }
{
    let mut mines = Items::new(around.alloc);
    if let Some(local) = mine {
        let mut written = Items::new(around.alloc);
        Wanted::Written.statement(&mut written, before)?;
        Wanted::Written.statement(&mut written, body)?;
        if !has(written.as_slice(), local) {
            mines.push(local)?;
        }
    }
    let more = Items::from_slice(around.alloc, around.mines)?;
    mines.append(more)?;
    Ok(mines)
}

/// The number. One that 32 bits do not hold counts as want of memory.
pub(crate) fn number_of(count: usize) -> Result<u32, AllocError>
    ensures { IfOk result (λ number. number ≡ count) }
{
    match u32::try_from(count) {
        Ok(number) => Ok(number),
        Err(_) => Err(AllocError),
    }
}

impl Walk {
    /// How many points and sites there are so far.
    #[tactic(auto, using(std::proofs::lemmas::Grind::common_steps), unfolding(crate::specs::Steps::count_of))]
    fn count(&self) -> Result<Count, AllocError>
        ensures { IfOk result (λ c. c ≡ count_of self.now) }
    {
        let points = number_of(self.drawing.points.len())?;
        let sites = number_of(self.drawing.sites.len())?;
        Ok(Count { points, sites })
    }

    /// The next point alone.
    #[tactic(auto, using(std::proofs::lemmas::Grind::common_steps), unfolding(crate::specs::Steps::walk_point, crate::specs::Steps::pointed, crate::specs::Steps::restored, flow_draw::specs::Drawings::outer_of))]
    pub(crate) fn point(&mut self, around: &Around, kind: PointKind) -> Result<(), AllocError>
        ensures { OnOk result (self.new ≡ walk_point (within_of around.now) kind self.old) }
    {
        let outer = self.drawing.begin(around.alloc);
        self.drawing.pass(around, kind, None)?;
        self.restore(outer);
        Ok(())
    }

    /// An expression, and the point that takes its value.
    #[tactic(auto, using(std::proofs::lemmas::Grind::common_steps), unfolding(crate::specs::Steps::walk_value, crate::specs::Steps::valued, crate::specs::Steps::restored, flow_draw::specs::Drawings::outer_of))]
    fn value(&mut self, around: &Around, kind: PointKind, e: &CoreExpr) -> Result<(), AllocError>
        ensures { OnOk result (self.new ≡ walk_value around.now.entries.now (within_of around.now) kind (plain_core e.now) self.old) }
    {
        let outer = self.drawing.begin(around.alloc);
        self.drawing.expression(around, e)?;
        self.drawing.pass(around, kind, None)?;
        self.restore(outer);
        Ok(())
    }

    /// What was taken and occurred before stands again.
    fn restore(&mut self, outer: Outer)
        ensures { self.new ≡ record self.old { drawing = record self.old.drawing { takes = outer.takes; occurs = outer.occurs } } }
    {
        let Outer { takes, occurs } = outer;
        self.drawing.takes = takes;
        self.drawing.occurs = occurs;
    }

    /// What an action fetches from memory, it reads.
    #[tactic(auto, using(std::proofs::lemmas::Grind::common_steps, crate::proofs::Acting::marks), unfolding(flow_draw::specs::Drawings::noting))]
    fn fetch_into(&mut self, action: Action) -> Result<(), AllocError>
        ensures { OnOk result (self.new ≡ record self.old { drawing = noting (fetched_into action) self.old.drawing }) }
    {
        match action {
            Action::Fill(_) | Action::Get(_) => {
                self.drawing.occurs.note(NODE_MARK)?;
                Ok(())
            }
            _ => Ok(()),
        }
    }

    /// An action.
    #[tactic(auto, using(std::proofs::lemmas::Grind::common_steps), unfolding(crate::specs::Steps::walk_act, crate::specs::Steps::acted, crate::specs::Steps::acted_at, crate::specs::Steps::restored, flow_draw::specs::Drawings::outer_of))]
    fn act(
        &mut self,
        around: &Around,
        action: Action,
        arguments: &[CoreExpr],
        line: u32,
    ) -> Result<(), AllocError>
        ensures { OnOk result (self.new ≡ walk_act around.now.entries.now (within_of around.now) action (arguments_of (map plain_core arguments.now)) line self.old) }
    {
        let site = site_of_action(around, action, arguments, line)?;
        let outer = self.drawing.begin(around.alloc);
        self.drawing.arguments(around, arguments)?;
        let number = added(number_of(self.drawing.sites.len())?, 1)?;
        self.fetch_into(action)?;
        self.drawing.pass(
            around,
            kind_of_action(action, number),
            set_by_action(action),
        )?;
        self.drawing.access(site)?;
        self.restore(outer);
        Ok(())
    }

    #[tactic(auto, using(std::proofs::lemmas::Grind::common_steps), unfolding(crate::specs::Steps::walk_from, crate::specs::Steps::walk_break))]
    fn broken(&mut self, alloc: Global) -> Result<(), AllocError>
        ensures { OnOk result (self.new ≡ walk_break self.old) }
    {
        let froms = mem::replace(&mut self.drawing.froms, Items::new(alloc));
        self.breaks.append(froms)?;
        Ok(())
    }

    #[tactic(auto, using(std::proofs::lemmas::Grind::common_steps), unfolding(crate::specs::Steps::walk_from, crate::specs::Steps::walk_continue))]
    fn continued(&mut self, alloc: Global) -> Result<(), AllocError>
        ensures { OnOk result (self.new ≡ walk_continue self.old) }
    {
        let froms = mem::replace(&mut self.drawing.froms, Items::new(alloc));
        self.continues.append(froms)?;
        Ok(())
    }

    /// Evaluation does not go on.
    #[tactic(auto, using(std::proofs::lemmas::Grind::common_steps), unfolding(crate::specs::Steps::walk_from))]
    fn stop(&mut self, alloc: Global)
        ensures { self.new ≡ walk_from [] self.old }
    {
        self.drawing.froms = Items::new(alloc);
    }

    /// Before an `if`: the ends of the `if` around it, which are kept meanwhile.
    #[tactic(auto, using(std::proofs::lemmas::Grind::common_steps), unfolding(crate::specs::Steps::walk_opened))]
    fn opened(&mut self, alloc: Global) -> Items<u32>
        ensures outer { result ≡ self.old.ends }
        ensures walk { self.new ≡ walk_opened self.old }
    {
        mem::replace(&mut self.ends, Items::new(alloc))
    }

    /// Behind an arm, behind whose test evaluation goes on at the next one too.
    #[tactic(auto, using(std::proofs::lemmas::Grind::common_steps), unfolding(crate::specs::Steps::walk_from, crate::specs::Steps::walk_end))]
    fn ended(&mut self, test: Items<u32>) -> Result<(), AllocError>
        ensures { OnOk result (self.new ≡ walk_end test self.old) }
    {
        let froms = mem::replace(&mut self.drawing.froms, test);
        self.ends.append(froms)?;
        Ok(())
    }

    /// Behind an `if`, with the ends of the `if` around it.
    #[tactic(auto, using(std::proofs::lemmas::Grind::common_steps), unfolding(crate::specs::Steps::walk_from, crate::specs::Steps::walk_joined))]
    fn joined(&mut self, alloc: Global, outer: Items<u32>) -> Result<(), AllocError>
        ensures { OnOk result (self.new ≡ walk_joined outer self.old) }
    {
        let mut froms = mem::replace(&mut self.ends, outer);
        froms.append(mem::replace(&mut self.drawing.froms, Items::new(alloc)))?;
        self.drawing.froms = froms;
        Ok(())
    }

    /// Before a loop, to which evaluation comes back from these points. It answers what led on before.
    #[tactic(auto, using(std::proofs::lemmas::Grind::common_steps), unfolding(crate::specs::Steps::walk_from, crate::specs::Steps::walk_enter))]
    fn enter(&mut self, alloc: Global, again: Items<u32>) -> Result<Ways, AllocError>
        ensures walk { OnOk result (self.new ≡ walk_enter again self.old) }
        ensures breaks { IfOk result (λ ways. ways.breaks ≡ self.old.breaks) }
        ensures continues { IfOk result (λ ways. ways.continues ≡ self.old.continues) }
    {
        self.drawing.froms.append(again)?;
        let breaks = mem::replace(&mut self.breaks, Items::new(alloc));
        let continues = mem::replace(&mut self.continues, Items::new(alloc));
        Ok(Ways { breaks, continues })
    }

    /// Before the turn of a loop. It answers from where `continue` led on before it.
    #[tactic(auto, using(std::proofs::lemmas::Grind::common_steps), unfolding(crate::specs::Steps::walk_turn))]
    fn turn(&mut self, alloc: Global) -> Items<u32>
        ensures before { result ≡ self.old.continues }
        ensures walk { self.new ≡ walk_turn self.old }
    {
        mem::replace(&mut self.continues, Items::new(alloc))
    }

    /// Behind the body of a loop.
    #[tactic(auto, using(std::proofs::lemmas::Grind::common_steps), unfolding(crate::specs::Steps::walk_from, crate::specs::Steps::walk_again))]
    fn on_again(&mut self, alloc: Global) -> Result<(), AllocError>
        ensures { OnOk result (self.new ≡ walk_again self.old) }
    {
        let continues = mem::replace(&mut self.continues, Items::new(alloc));
        self.drawing.froms.append(continues)?;
        Ok(())
    }

    /// Behind a loop.
    #[tactic(auto, using(std::proofs::lemmas::Grind::common_steps), unfolding(crate::specs::Steps::walk_from, crate::specs::Steps::walk_closed))]
    fn closed(&mut self, outer: Ways, before: Items<u32>) -> Result<(), AllocError>
        ensures { OnOk result (self.new ≡ walk_closed outer.breaks outer.continues before self.old) }
    {
        let Ways { breaks, continues } = outer;
        self.drawing.froms = mem::replace(&mut self.breaks, breaks);
        let mut all = before;
        all.append(mem::replace(&mut self.continues, continues))?;
        self.continues.append(all)?;
        Ok(())
    }

    /// A statement.
    #[cycle(walk)]
    #[tactic(auto, using(std::proofs::lemmas::Grind::common_steps, sc_core::proofs::ViewCoreStmtLaws::core_statement_views, crate::proofs::Walking::forms))]
    pub fn statement(&mut self, around: &Around, s: &CoreStmt) -> Result<(), AllocError>
        ensures { OnOk result (self.new ≡ walked around.now.entries.now (within_of around.now) (plain_does s.now) self.old) }
    {
        match s {
            CoreStmt::Nothing => Ok(()),
            CoreStmt::Break => {
                self.broken(around.alloc)?;
                Ok(())
            }
            CoreStmt::Continue => {
                self.continued(around.alloc)?;
                Ok(())
            }
            CoreStmt::Block(all) => {
                self.block(around, all.as_slice())?;
                Ok(())
            }
            CoreStmt::Act {
                action,
                arguments,
                line,
            } => {
                self.act(around, *action, arguments.as_slice(), *line)?;
                Ok(())
            }
            CoreStmt::Choose { arms, rest } => {
                let outer = self.opened(around.alloc);
                self.arms(around, arms.as_slice())?;
                self.statement(around, rest.get())?;
                self.joined(around.alloc, outer)?;
                Ok(())
            }
            CoreStmt::Loop {
                mine,
                before,
                body,
                after,
            } => {
                let count = self.count()?;
                let again = again_from(around.alloc, count, before.get(), body.get(), after.get())?;
                let mines = mines_in(around, *mine, before.get(), body.get())?;
                let outer = self.enter(around.alloc, again)?;
                self.statement(around, before.get())?;
                let first = self.turn(around.alloc);
                self.point(around, PointKind::Plain)?;
                let inside = Around {
                    mines: mines.as_slice(),
                    ..*around
                };
                self.statement(&inside, body.get())?;
                self.on_again(around.alloc)?;
                self.statement(around, after.get())?;
                self.closed(outer, first)?;
                Ok(())
            }
            CoreStmt::Return { value, .. } => {
                self.value(around, PointKind::Return, value)?;
                self.stop(around.alloc);
                Ok(())
            }
        }
    }

    /// Statements in turn.
    #[cycle(walk)]
    #[tactic(auto, using(std::proofs::lemmas::Grind::common_steps, crate::proofs::Walking::chains))]
    fn block(&mut self, around: &Around, all: &[CoreStmt]) -> Result<(), AllocError>
        ensures { OnOk result (self.new ≡ walk_block around.now.entries.now (within_of around.now) (map plain_does all.now) self.old) }
    {
        for s in all {
            self.statement(around, s)?;
        }
        Ok(())
    }

    /// The arms of an `if`.
    #[cycle(walk)]
    #[tactic(auto, using(std::proofs::lemmas::Grind::common_steps, crate::proofs::Walking::chains))]
    fn arms(&mut self, around: &Around, arms: &[CoreArm]) -> Result<(), AllocError>
        ensures { OnOk result (self.new ≡ walk_arms around.now.entries.now (within_of around.now) (map plain_core_arm arms.now) self.old) }
    {
        for arm in arms {
            self.arm(around, arm)?;
        }
        Ok(())
    }

    #[cycle(walk)]
    #[tactic(auto, using(std::proofs::lemmas::Grind::common_steps, sc_core::proofs::ViewCoreStmtLaws::core_statement_views), unfolding(crate::specs::Steps::walk_arm))]
    fn arm(&mut self, around: &Around, arm: &CoreArm) -> Result<(), AllocError>
        ensures { OnOk result (self.new ≡ walk_arm around.now.entries.now (within_of around.now) (plain_core_arm arm.now) self.old) }
    {
        self.value(around, PointKind::Plain, &arm.test)?;
        let test = Items::from_slice(around.alloc, self.drawing.froms.as_slice())?;
        self.statement(around, &arm.body)?;
        self.ended(test)?;
        Ok(())
    }
}
