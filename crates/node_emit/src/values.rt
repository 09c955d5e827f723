//! The code of expressions.

ghost use Rattle.std.specs.Prelude.{◌≡◌, ◌+◌, ◌-◌, IfOk, OnOk, length, map};
ghost use Rattle.sc_core.specs.View.{plain_core, arguments_of, every_of, any_of};
ghost use Rattle.sc_core.specs.ViewParts.{plain_core_first, plain_core_link, plain_core_test};
ghost use Rattle.node_emit.specs.Drafts.{emitted, emitted_all};
ghost use Rattle.node_emit.specs.Drafted.{opened, linked_put, chained, closed};

use crate::draft::Draft;
use crate::steps::{Emitter, constant_op};
use sc_core::{CoreExpr, CoreFirst, CoreLink, CoreTest, Operation};
use sc_isa::Op;
use std::alloc::AllocError;

impl Emitter<'_> {
    /// An expression.
    #[cycle(value)]
    #[tactic(auto, using(std::proofs::lemmas::Grind::common_steps, crate::proofs::Views::core_reads, crate::proofs::Emitted::chains))]
    pub fn value(&self, draft: &mut Draft, e: &CoreExpr) -> Result<(), AllocError>
        ensures { OnOk result (draft.new ≡ emitted self.now.plan.now (plain_core e.now) draft.old) }
    {
        self.first(draft, &e.first)?;
        self.links(draft, e.links.as_slice())?;
        Ok(())
    }

    /// What an expression begins with.
    #[cycle(value)]
    #[tactic(auto, using(std::proofs::lemmas::Grind::common_steps, sc_core::proofs::ViewCoreLaws::core_views, crate::proofs::Choices::forms))]
    fn first(&self, draft: &mut Draft, first: &CoreFirst) -> Result<(), AllocError>
        ensures { OnOk result (draft.new ≡ emitted self.now.plan.now (plain_core_first first.now) draft.old) }
    {
        match first {
            CoreFirst::Constant(constant) => {
                draft.outside(constant_op(*constant))?;
                Ok(())
            }
            CoreFirst::Step {
                operation,
                arguments,
                line,
            } => {
                self.arguments(draft, arguments.as_slice())?;
                self.step(draft, *operation, *line)?;
                Ok(())
            }
            CoreFirst::Every(tests) => {
                self.every(draft, tests.as_slice())?;
                Ok(())
            }
            CoreFirst::Any(tests) => {
                self.any(draft, tests.as_slice())?;
                Ok(())
            }
            CoreFirst::Choice {
                of_pointer,
                test,
                yes,
                no,
            } => {
                self.value(draft, test.get())?;
                let zero = self.test(draft, *of_pointer)?;
                self.value(draft, yes.get())?;
                let jump = draft.turn(zero)?;
                self.value(draft, no.get())?;
                draft.end(&[jump])?;
                Ok(())
            }
            CoreFirst::Update {
                pointer,
                operation,
                right,
                taken_back,
                line,
            } => {
                self.value(draft, pointer.get())?;
                draft.outside(Op::Dup)?;
                self.step(draft, Operation::Read, *line)?;
                self.value(draft, right.get())?;
                self.step(draft, *operation, *line)?;
                self.step(draft, Operation::Write, *line)?;
                self.take_back(draft, *taken_back, *line)?;
                Ok(())
            }
        }
    }

    /// Arguments from left to right.
    #[cycle(value)]
    #[tactic(auto, using(std::proofs::lemmas::Grind::common_steps, crate::proofs::Emitted::chains))]
    pub fn arguments(&self, draft: &mut Draft, all: &[CoreExpr]) -> Result<(), AllocError>
        ensures { OnOk result (draft.new
            ≡ emitted_all self.now.plan.now (arguments_of (map plain_core all.now)) draft.old) }
    {
        for e in all {
            self.value(draft, e)?;
        }
        Ok(())
    }

    /// What is done with a value in turn.
    #[cycle(value)]
    #[tactic(auto, using(std::proofs::lemmas::Grind::common_steps, crate::proofs::Emitted::chains))]
    fn links(&self, draft: &mut Draft, links: &[CoreLink]) -> Result<(), AllocError>
        ensures { OnOk result (draft.new ≡ chained self.now.plan.now (map plain_core_link links.now) draft.old) }
    {
        for link in links {
            self.link(draft, link)?;
        }
        Ok(())
    }

    #[cycle(value)]
    #[tactic(auto, using(std::proofs::lemmas::Grind::common_steps, crate::proofs::Views::core_reads), unfolding(crate::specs::Drafted::linked_put))]
    fn link(&self, draft: &mut Draft, link: &CoreLink) -> Result<(), AllocError>
        ensures { OnOk result (draft.new ≡ linked_put self.now.plan.now (plain_core_link link.now) draft.old) }
    {
        self.arguments(draft, link.more.as_slice())?;
        self.step(draft, link.operation, link.line)?;
        Ok(())
    }

    /// An operand of `&&` or `||`. It answers the place of the instruction that leads on where it is false.
    #[cycle(value)]
    #[tactic(auto, using(std::proofs::lemmas::Grind::common_steps, crate::proofs::Views::core_reads), unfolding(crate::specs::Drafted::opened))]
    fn operand(&self, draft: &mut Draft, test: &CoreTest) -> Result<usize, AllocError>
        ensures draft { OnOk result (draft.new ≡ opened self.now.plan.now (plain_core_test test.now) draft.old) }
        ensures place { IfOk result (λ at. at ≡ length draft.new.instrs - 1) }
    {
        self.value(draft, &test.e)?;
        let zero = self.test(draft, test.of_pointer)?;
        Ok(zero)
    }

    /// Operands joined by `&&`.
    #[cycle(value)]
    #[tactic(auto, using(std::proofs::lemmas::Grind::common_steps, crate::proofs::Choices::everies))]
    fn every(&self, draft: &mut Draft, tests: &[CoreTest]) -> Result<(), AllocError>
        ensures { OnOk result (draft.new
            ≡ emitted self.now.plan.now (every_of (map plain_core_test tests.now)) draft.old) }
    {
        let mut zeros = Vec::new(self.alloc);
        for test in tests {
            let zero = self.operand(draft, test)?;
            zeros.push(zero)?;
        }
        draft.outside(Op::Push(1))?;
        close(draft, zeros)?;
        Ok(())
    }

    /// Operands joined by `||`.
    #[cycle(value)]
    #[tactic(auto, using(std::proofs::lemmas::Grind::common_steps, crate::proofs::Choices::anies))]
    fn any(&self, draft: &mut Draft, tests: &[CoreTest]) -> Result<(), AllocError>
        ensures { OnOk result (draft.new
            ≡ emitted self.now.plan.now (any_of (map plain_core_test tests.now)) draft.old) }
    {
        let mut jumps = Vec::new(self.alloc);
        for test in tests {
            let zero = self.operand(draft, test)?;
            draft.outside(Op::Push(1))?;
            let jump = draft.turn(zero)?;
            jumps.push(jump)?;
        }
        draft.outside(Op::Push(0))?;
        draft.end(&jumps)?;
        Ok(())
    }
}

/// The ways on from the tests at these places, the last first: each leads to a 0 of its own.
#[tactic(auto, using(std::proofs::lemmas::Grind::common_steps, crate::proofs::Choices::closes))]
fn close(draft: &mut Draft, zeros: Vec<usize>) -> Result<(), AllocError>
    ensures { OnOk result (draft.new ≡ closed zeros.items draft.old) }
{
    let mut zeros = zeros;
    while let Some(place) = zeros.pop() {
        let jump = draft.turn(place)?;
        draft.outside(Op::Push(0))?;
        draft.end(&[jump])?;
    }
    Ok(())
}
