//! The points from which evaluation leaves a statement: over its end, by `break` or by `continue`.

ghost use Rattle.std.specs.Prelude.{◌≡◌, [], ◌∷◌, ◌++◌, IfOk, OnOk, map};
ghost use Rattle.sc_core.specs.View.{plain_core, arguments_of};
ghost use Rattle.sc_core.specs.ViewParts.{plain_core_arm};
ghost use Rattle.sc_core.specs.ViewStatements.{plain_does};
ghost use Rattle.flow_form.specs.Counts.{counted_in};
ghost use Rattle.flow_exits.specs.Leaving.{left, again_from, left_value, left_values, left_point, left_return, left_break, left_continue, left_block, opened, left_end, left_arm, left_arms, joined, leaving_from, inside, on_again, back_to, closed};

use flow_form::Count;
use flow_form::scan::{Scan, sites_by_action};
use sc_core::{CoreArm, CoreExpr, CoreStmt};
use sqlite_items::Items;
use std::alloc::{AllocError, Global};
use std::mem;

/// What comes before a statement on the way through a function: how many points and sites, and the points from which
/// evaluation comes to it, leads on by `break` and by `continue`, and comes to the end of the innermost `if`.
#[derive(Debug, Drop)]
pub struct Leaving {
    pub count: Count,
    pub froms: Items<u32>,
    pub breaks: Items<u32>,
    pub continues: Items<u32>,
    pub ends: Items<u32>,
}

/// One point alone.
fn one(alloc: Global, point: u32) -> Result<Items<u32>, AllocError>
    ensures { IfOk result (λ it. it ≡ point ∷ []) }
{
    let mut it = Items::new(alloc);
    it.push(point)?;
    Ok(it)
}

/// The points of both.
fn both(alloc: Global, a: &Items<u32>, b: &Items<u32>) -> Result<Items<u32>, AllocError>
    ensures { IfOk result (λ it. it ≡ a.now ++ b.now) }
{
    let mut it = Items::from_slice(alloc, a.as_slice())?;
    let more = Items::from_slice(alloc, b.as_slice())?;
    it.append(more)?;
    Ok(it)
}

/// How many points and sites there are behind a statement.
#[tactic(auto, using(std::proofs::lemmas::Grind::common_steps), unfolding(flow_form::specs::Scans::scanned))]
fn behind(alloc: Global, count: Count, s: &CoreStmt) -> Result<Count, AllocError>
    ensures { IfOk result (λ c. c ≡ counted_in (plain_does s.now) count) }
{
    let mut scan = Scan {
        count,
        returns: Items::new(alloc),
    };
    scan.statement(s)?;
    Ok(scan.count)
}

/// Evaluation that comes from these points.
#[tactic(auto, using(std::proofs::lemmas::Grind::common_steps), unfolding(crate::specs::Leaving::leaving_from))]
fn started(alloc: Global, count: Count, froms: Items<u32>) -> Leaving
    ensures { result ≡ leaving_from count froms }
{
    Leaving {
        count,
        froms,
        breaks: Items::new(alloc),
        continues: Items::new(alloc),
        ends: Items::new(alloc),
    }
}

/// What comes before the body of a loop whose turn is the next point.
#[tactic(auto, using(std::proofs::lemmas::Grind::common_steps), unfolding(crate::specs::Leaving::inside))]
fn turned(alloc: Global, count: Count) -> Result<Leaving, AllocError>
    ensures { IfOk result (λ l. l ≡ inside count) }
{
    let froms = one(alloc, count.points)?;
    let mut body = count;
    body.add(1, 0)?;
    Ok(started(alloc, body, froms))
}

impl Leaving {
    #[tactic(auto, using(std::proofs::lemmas::Grind::common_steps), unfolding(crate::specs::Leaving::left_value))]
    fn value(&mut self, e: &CoreExpr) -> Result<(), AllocError>
        ensures { OnOk result (self.new ≡ left_value (plain_core e.now) self.old) }
    {
        self.count.expression(e)?;
        Ok(())
    }

    #[tactic(auto, using(std::proofs::lemmas::Grind::common_steps), unfolding(crate::specs::Leaving::left_values))]
    fn values(&mut self, all: &[CoreExpr]) -> Result<(), AllocError>
        ensures { OnOk result (self.new ≡ left_values (arguments_of (map plain_core all.now)) self.old) }
    {
        self.count.arguments(all)?;
        Ok(())
    }

    /// The next point, which has so many sites.
    #[tactic(auto, using(std::proofs::lemmas::Grind::common_steps), unfolding(crate::specs::Leaving::left_point))]
    fn point(&mut self, alloc: Global, sites: u32) -> Result<(), AllocError>
        ensures { OnOk result (self.new ≡ left_point sites self.old) }
    {
        self.froms = one(alloc, self.count.points)?;
        self.count.add(1, sites)?;
        Ok(())
    }

    /// The next point returns.
    #[tactic(auto, using(std::proofs::lemmas::Grind::common_steps), unfolding(crate::specs::Leaving::left_return))]
    fn returned(&mut self, alloc: Global) -> Result<(), AllocError>
        ensures { OnOk result (self.new ≡ left_return self.old) }
    {
        self.count.add(1, 0)?;
        self.froms = Items::new(alloc);
        Ok(())
    }

    #[tactic(auto, using(std::proofs::lemmas::Grind::common_steps), unfolding(crate::specs::Leaving::left_break))]
    fn broken(&mut self, alloc: Global) -> Result<(), AllocError>
        ensures { OnOk result (self.new ≡ left_break self.old) }
    {
        let froms = mem::replace(&mut self.froms, Items::new(alloc));
        self.breaks.append(froms)?;
        Ok(())
    }

    #[tactic(auto, using(std::proofs::lemmas::Grind::common_steps), unfolding(crate::specs::Leaving::left_continue))]
    fn continued(&mut self, alloc: Global) -> Result<(), AllocError>
        ensures { OnOk result (self.new ≡ left_continue self.old) }
    {
        let froms = mem::replace(&mut self.froms, Items::new(alloc));
        self.continues.append(froms)?;
        Ok(())
    }

    /// Before an `if`: the ends of the `if` around it, which are kept meanwhile.
    #[tactic(auto, using(std::proofs::lemmas::Grind::common_steps), unfolding(crate::specs::Leaving::opened))]
    fn opened(&mut self, alloc: Global) -> Items<u32>
        ensures outer { result ≡ self.old.ends }
        ensures opened { self.new ≡ opened self.old }
    {
        mem::replace(&mut self.ends, Items::new(alloc))
    }

    /// Behind an arm, whose test leads to the next one too.
    #[tactic(auto, using(std::proofs::lemmas::Grind::common_steps), unfolding(crate::specs::Leaving::left_end))]
    fn ended(&mut self, alloc: Global, test: u32) -> Result<(), AllocError>
        ensures { OnOk result (self.new ≡ left_end test self.old) }
    {
        let test = one(alloc, test)?;
        let froms = mem::replace(&mut self.froms, test);
        self.ends.append(froms)?;
        Ok(())
    }

    /// Behind an `if`, with the ends of the `if` around it.
    #[tactic(auto, using(std::proofs::lemmas::Grind::common_steps), unfolding(crate::specs::Leaving::joined))]
    fn joined(&mut self, alloc: Global, outer: Items<u32>) -> Result<(), AllocError>
        ensures { OnOk result (self.new ≡ joined outer self.old) }
    {
        let mut froms = mem::replace(&mut self.ends, outer);
        froms.append(mem::replace(&mut self.froms, Items::new(alloc)))?;
        self.froms = froms;
        Ok(())
    }

    /// Behind the body of a loop.
    #[tactic(auto, using(std::proofs::lemmas::Grind::common_steps), unfolding(crate::specs::Leaving::on_again))]
    fn on_again(&mut self, alloc: Global) -> Result<(), AllocError>
        ensures { OnOk result (self.new ≡ on_again self.old) }
    {
        let continues = mem::replace(&mut self.continues, Items::new(alloc));
        self.froms.append(continues)?;
        Ok(())
    }

    /// What comes before the turn of a loop, to which evaluation comes back from these points.
    #[tactic(auto, using(std::proofs::lemmas::Grind::common_steps), unfolding(crate::specs::Leaving::back_to))]
    fn back_to(&self, alloc: Global, froms: &Items<u32>) -> Result<Leaving, AllocError>
        ensures { IfOk result (λ l. l ≡ back_to self.now froms.now) }
    {
        let froms = both(alloc, &self.froms, froms)?;
        Ok(started(alloc, self.count, froms))
    }

    /// Behind a loop.
    #[tactic(auto, using(std::proofs::lemmas::Grind::common_steps), unfolding(crate::specs::Leaving::closed))]
    fn closed(&mut self, before: Leaving, inner: Leaving) -> Result<(), AllocError>
        ensures { OnOk result (self.new ≡ closed before inner self.old) }
    {
        let mut breaks = before.breaks;
        breaks.append(inner.breaks)?;
        let mut continues = before.continues;
        continues.append(inner.continues)?;
        self.continues.append(continues)?;
        self.count = inner.count;
        self.froms = breaks;
        Ok(())
    }

    /// A statement.
    #[cycle(leave)]
    #[tactic(auto, using(std::proofs::lemmas::Grind::common_steps, sc_core::proofs::ViewCoreStmtLaws::core_statement_views, crate::proofs::Leaves::forms))]
    pub fn statement(&mut self, alloc: Global, s: &CoreStmt) -> Result<(), AllocError>
        ensures { OnOk result (self.new ≡ left (plain_does s.now) self.old) }
    {
        match s {
            CoreStmt::Nothing => Ok(()),
            CoreStmt::Break => {
                self.broken(alloc)?;
                Ok(())
            }
            CoreStmt::Continue => {
                self.continued(alloc)?;
                Ok(())
            }
            CoreStmt::Block(all) => {
                self.block(alloc, all.as_slice())?;
                Ok(())
            }
            CoreStmt::Act {
                action,
                arguments,
                ..
            } => {
                self.values(arguments.as_slice())?;
                self.point(alloc, sites_by_action(*action))?;
                Ok(())
            }
            CoreStmt::Choose { arms, rest } => {
                let outer = self.opened(alloc);
                self.arms(alloc, arms.as_slice())?;
                self.statement(alloc, rest.get())?;
                self.joined(alloc, outer)?;
                Ok(())
            }
            CoreStmt::Loop {
                before,
                body,
                after,
                ..
            } => {
                let turn = behind(alloc, self.count, before.get())?;
                let mut inner = turned(alloc, turn)?;
                inner.statement(alloc, body.get())?;
                inner.on_again(alloc)?;
                inner.statement(alloc, after.get())?;
                let mut first = self.back_to(alloc, &inner.froms)?;
                first.statement(alloc, before.get())?;
                self.closed(first, inner)?;
                Ok(())
            }
            CoreStmt::Return { value, .. } => {
                self.value(value)?;
                self.returned(alloc)?;
                Ok(())
            }
        }
    }

    /// Statements in turn.
    #[cycle(leave)]
    #[tactic(auto, using(std::proofs::lemmas::Grind::common_steps, crate::proofs::Leaves::chains))]
    fn block(&mut self, alloc: Global, all: &[CoreStmt]) -> Result<(), AllocError>
        ensures { OnOk result (self.new ≡ left_block (map plain_does all.now) self.old) }
    {
        for s in all {
            self.statement(alloc, s)?;
        }
        Ok(())
    }

    /// The arms of an `if`.
    #[cycle(leave)]
    #[tactic(auto, using(std::proofs::lemmas::Grind::common_steps, crate::proofs::Leaves::chains))]
    fn arms(&mut self, alloc: Global, arms: &[CoreArm]) -> Result<(), AllocError>
        ensures { OnOk result (self.new ≡ left_arms (map plain_core_arm arms.now) self.old) }
    {
        for arm in arms {
            self.arm(alloc, arm)?;
        }
        Ok(())
    }

    #[cycle(leave)]
    #[tactic(auto, using(std::proofs::lemmas::Grind::common_steps, sc_core::proofs::ViewCoreStmtLaws::core_statement_views, crate::proofs::Leaves::tests), unfolding(crate::specs::Leaving::left_arm))]
    fn arm(&mut self, alloc: Global, arm: &CoreArm) -> Result<(), AllocError>
        ensures { OnOk result (self.new ≡ left_arm (plain_core_arm arm.now) self.old) }
    {
        self.value(&arm.test)?;
        let test = self.count.points;
        self.point(alloc, 0)?;
        self.statement(alloc, &arm.body)?;
        self.ended(alloc, test)?;
        Ok(())
    }
}

/// The points from which the turn of a loop is begun again, where so much comes before the loop.
#[tactic(auto, using(std::proofs::lemmas::Grind::common_steps, crate::proofs::Leaves::turns))]
pub fn again_from(
    alloc: Global,
    count: Count,
    before: &CoreStmt,
    body: &CoreStmt,
    after: &CoreStmt,
) -> Result<Items<u32>, AllocError>
    ensures { IfOk result (λ it. it ≡ again_from (plain_does before.now) (plain_does body.now) (plain_does after.now) count) }
{
    let turn = behind(alloc, count, before)?;
    let mut inner = turned(alloc, turn)?;
    inner.statement(alloc, body)?;
    inner.on_again(alloc)?;
    inner.statement(alloc, after)?;
    Ok(inner.froms)
}
