//! The code of statements.

ghost use Rattle.std.specs.Prelude.{◌≡◌, ◌++◌, IfOk, OnOk, map};
ghost use Rattle.sc_core.specs.ViewParts.{plain_core_arm};
ghost use Rattle.sc_core.specs.ViewStatements.{plain_does, block_of};
ghost use Rattle.node_emit.specs.Done.{done, breaks_of, continues_of, entered, arm_put, arm_jump, arms_put, arms_jumps, arms_breaks, arms_continues};

use crate::draft::Draft;
use crate::steps::{Emitter, one};
use sc_core::{CoreArm, CoreStmt};
use sc_isa::Op;
use std::alloc::AllocError;

impl Emitter<'_> {
    /// A statement. The places of its jumps out of the loop around it and on with that loop are added to `breaks` and
    /// `continues`.
    #[cycle(statement)]
    #[tactic(auto, using(std::proofs::lemmas::Grind::common_steps, sc_core::proofs::ViewCoreStmtLaws::core_statement_views, crate::proofs::Deeds::statements))]
    pub fn statement(
        &self,
        draft: &mut Draft,
        stmt: &CoreStmt,
        breaks: &mut Vec<usize>,
        continues: &mut Vec<usize>,
    ) -> Result<(), AllocError>
        ensures draft { OnOk result (draft.new ≡ done self.now.plan.now (plain_does stmt.now) draft.old) }
        ensures breaks { OnOk result (breaks.new.items
            ≡ breaks.old.items ++ breaks_of self.now.plan.now (plain_does stmt.now) draft.old) }
        ensures continues { OnOk result (continues.new.items
            ≡ continues.old.items ++ continues_of self.now.plan.now (plain_does stmt.now) draft.old) }
    {
        match stmt {
            CoreStmt::Nothing => Ok(()),
            CoreStmt::Break => {
                breaks.push(draft.place())?;
                draft.outside(Op::Jump(0))?;
                Ok(())
            }
            CoreStmt::Continue => {
                continues.push(draft.place())?;
                draft.outside(Op::Jump(0))?;
                Ok(())
            }
            CoreStmt::Block(all) => {
                self.block(draft, all.as_slice(), breaks, continues)?;
                Ok(())
            }
            CoreStmt::Act {
                action,
                arguments,
                line,
            } => {
                self.arguments(draft, arguments.as_slice())?;
                self.act(draft, *action, *line)?;
                Ok(())
            }
            CoreStmt::Choose { arms, rest } => {
                let mut jumps = Vec::new(self.alloc);
                self.arms(draft, arms.as_slice(), &mut jumps, breaks, continues)?;
                self.statement(draft, rest.get(), breaks, continues)?;
                draft.end(&jumps)?;
                Ok(())
            }
            CoreStmt::Loop {
                before,
                body,
                after,
                ..
            } => {
                let mut out = Vec::new(self.alloc);
                let mut on = Vec::new(self.alloc);
                let start = draft.here()?;
                self.statement(draft, before.get(), &mut out, continues)?;
                self.run(draft, one(Op::Turn), 0)?;
                self.statement(draft, body.get(), &mut out, &mut on)?;
                draft.end(&on)?;
                self.statement(draft, after.get(), &mut out, continues)?;
                draft.outside(Op::Jump(start))?;
                draft.end(&out)?;
                Ok(())
            }
            CoreStmt::Return { value, line } => {
                self.value(draft, value)?;
                self.run(draft, one(Op::Ret), *line)?;
                Ok(())
            }
        }
    }

    /// Statements one after another.
    #[cycle(statement)]
    #[tactic(auto, using(std::proofs::lemmas::Grind::common_steps, crate::proofs::Deeds::blocks))]
    fn block(
        &self,
        draft: &mut Draft,
        all: &[CoreStmt],
        breaks: &mut Vec<usize>,
        continues: &mut Vec<usize>,
    ) -> Result<(), AllocError>
        ensures draft { OnOk result (draft.new ≡ done self.now.plan.now (block_of (map plain_does all.now)) draft.old) }
        ensures breaks { OnOk result (breaks.new.items
            ≡ breaks.old.items ++ breaks_of self.now.plan.now (block_of (map plain_does all.now)) draft.old) }
        ensures continues { OnOk result (continues.new.items
            ≡ continues.old.items ++ continues_of self.now.plan.now (block_of (map plain_does all.now)) draft.old) }
    {
        for stmt in all {
            self.statement(draft, stmt, breaks, continues)?;
        }
        Ok(())
    }

    /// The arms of an `if`. The places of the jumps behind them are added to `jumps`.
    #[cycle(statement)]
    #[tactic(auto, using(std::proofs::lemmas::Grind::common_steps, crate::proofs::Deeds::arms))]
    fn arms(
        &self,
        draft: &mut Draft,
        arms: &[CoreArm],
        jumps: &mut Vec<usize>,
        breaks: &mut Vec<usize>,
        continues: &mut Vec<usize>,
    ) -> Result<(), AllocError>
        ensures draft { OnOk result (draft.new ≡ arms_put self.now.plan.now (map plain_core_arm arms.now) draft.old) }
        ensures jumps { OnOk result (jumps.new.items
            ≡ jumps.old.items ++ arms_jumps self.now.plan.now (map plain_core_arm arms.now) draft.old) }
        ensures breaks { OnOk result (breaks.new.items
            ≡ breaks.old.items ++ arms_breaks self.now.plan.now (map plain_core_arm arms.now) draft.old) }
        ensures continues { OnOk result (continues.new.items
            ≡ continues.old.items ++ arms_continues self.now.plan.now (map plain_core_arm arms.now) draft.old) }
    {
        for arm in arms {
            let jump = self.arm(draft, arm, breaks, continues)?;
            jumps.push(jump)?;
        }
        Ok(())
    }

    /// An arm of an `if`. It answers the place of the jump behind it.
    #[cycle(statement)]
    #[tactic(auto, using(std::proofs::lemmas::Grind::common_steps, sc_core::proofs::ViewCoreStmtLaws::core_statement_views), unfolding(crate::specs::Done::arm_put, crate::specs::Done::arm_jump, crate::specs::Done::entered))]
    fn arm(
        &self,
        draft: &mut Draft,
        arm: &CoreArm,
        breaks: &mut Vec<usize>,
        continues: &mut Vec<usize>,
    ) -> Result<usize, AllocError>
        ensures draft { OnOk result (draft.new ≡ arm_put self.now.plan.now (plain_core_arm arm.now) draft.old) }
        ensures jump { IfOk result (λ jump. jump ≡ arm_jump self.now.plan.now (plain_core_arm arm.now) draft.old) }
        ensures breaks { OnOk result (breaks.new.items ≡ breaks.old.items ++ breaks_of self.now.plan.now
            (plain_core_arm arm.now).body (entered self.now.plan.now (plain_core_arm arm.now) draft.old)) }
        ensures continues { OnOk result (continues.new.items ≡ continues.old.items ++ continues_of self.now.plan.now
            (plain_core_arm arm.now).body (entered self.now.plan.now (plain_core_arm arm.now) draft.old)) }
    {
        self.value(draft, &arm.test)?;
        let zero = self.test(draft, arm.of_pointer)?;
        self.statement(draft, &arm.body, breaks, continues)?;
        let jump = draft.turn(zero)?;
        Ok(jump)
    }
}
