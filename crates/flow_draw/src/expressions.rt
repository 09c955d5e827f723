//! Expressions of a flow that is drawn.

ghost use Rattle.std.specs.Prelude.{◌≡◌, IfOk, OnOk, map, []};
ghost use Rattle.sc_core.specs.View.{plain_core, arguments_of, linked};
ghost use Rattle.sc_core.specs.ViewParts.{plain_core_first, plain_core_link, plain_core_test};
ghost use Rattle.flow_draw.specs.Around.{within_of};
ghost use Rattle.flow_draw.specs.Drawn.{drawn, drawn_all};
ghost use Rattle.flow_draw.specs.Drawings.{drawn_link, drawn_links, tested, test_point, every_from, any_from};

use crate::around::Around;
use crate::drawing::{Drawing, site_by};
use crate::places::{form_of_place, site_at, site_of};
use sc_core::{CoreExpr, CoreFirst, CoreLink, CoreTest, Operation};
use site_graph::PointKind;
use sqlite_items::Items;
use std::alloc::AllocError;

impl Drawing {
    /// An expression.
    #[cycle(draw)]
    #[tactic(auto, using(std::proofs::lemmas::Grind::common_steps, crate::proofs::Walked::expressions))]
    pub fn expression(&mut self, around: &Around, e: &CoreExpr) -> Result<(), AllocError>
        ensures { OnOk result (self.new
            ≡ drawn around.now.entries.now (within_of around.now) (plain_core e.now) self.old) }
    {
        if e.links.is_empty() {
            self.first(around, &e.first)?;
            return Ok(());
        }
        let outer = self.begin(around.alloc);
        self.first(around, &e.first)?;
        self.links(around, e.links.as_slice(), &e.first)?;
        self.end(outer)?;
        Ok(())
    }

    /// What an expression begins with.
    #[cycle(draw)]
    #[tactic(auto, using(std::proofs::lemmas::Grind::common_steps, sc_core::proofs::ViewCoreLaws::core_views, crate::proofs::Walked::forms))]
    fn first(&mut self, around: &Around, first: &CoreFirst) -> Result<(), AllocError>
        ensures { OnOk result (self.new
            ≡ drawn around.now.entries.now (within_of around.now) (plain_core_first first.now) self.old) }
    {
        match first {
            CoreFirst::Constant(constant) => {
                self.constant(*constant)?;
                Ok(())
            }
            CoreFirst::Step {
                operation,
                arguments,
                line,
            } => {
                let site = site_of(around, *operation, arguments.as_slice(), *line)?;
                let outer = self.begin(around.alloc);
                self.arguments(around, arguments.as_slice())?;
                self.step(around, *operation, site)?;
                self.end(outer)?;
                Ok(())
            }
            CoreFirst::Every(tests) => {
                self.every(around, tests.as_slice())?;
                Ok(())
            }
            CoreFirst::Any(tests) => {
                self.any(around, tests.as_slice())?;
                Ok(())
            }
            CoreFirst::Choice { test, yes, no, .. } => {
                let point = self.test(around, test.get())?;
                self.expression(around, yes.get())?;
                let ways = self.turn(around.alloc, point)?;
                self.expression(around, no.get())?;
                self.meet(ways)?;
                Ok(())
            }
            CoreFirst::Update {
                pointer,
                operation,
                right,
                taken_back,
                line,
            } => {
                let outer = self.begin(around.alloc);
                self.expression(around, pointer.get())?;
                let takes = Items::from_slice(around.alloc, self.takes.as_slice())?;
                let form = form_of_place(around, pointer.get())?;
                self.step(
                    around,
                    Operation::Read,
                    site_by(Operation::Read, *line, form),
                )?;
                self.expression(around, right.get())?;
                self.join(around, *operation, *taken_back, *line)?;
                self.put(around, takes, form, *line)?;
                self.take_back(around, *taken_back, *line)?;
                self.end(outer)?;
                Ok(())
            }
        }
    }

    /// Arguments from left to right.
    #[cycle(draw)]
    #[tactic(auto, using(std::proofs::lemmas::Grind::common_steps, crate::proofs::Walked::chains))]
    pub fn arguments(&mut self, around: &Around, all: &[CoreExpr]) -> Result<(), AllocError>
        ensures { OnOk result (self.new
            ≡ drawn_all around.now.entries.now (within_of around.now) (arguments_of (map plain_core all.now))
            self.old) }
    {
        for e in all {
            self.expression(around, e)?;
        }
        Ok(())
    }

    /// What is done with the value of `first` in turn.
    #[cycle(draw)]
    #[tactic(auto, using(std::proofs::lemmas::Grind::common_steps, crate::proofs::Walked::links))]
    fn links(
        &mut self,
        around: &Around,
        links: &[CoreLink],
        first: &CoreFirst,
    ) -> Result<(), AllocError>
        ensures { OnOk result (self.new ≡ drawn_links around.now.entries.now (within_of around.now)
            (plain_core_first first.now) [] (map plain_core_link links.now) self.old) }
    {
        for i in 0..links.len() {
            self.link(around, &links[i], first, &links[..i])?;
        }
        Ok(())
    }

    /// A step that takes the value of `first` and the links before it.
    #[cycle(draw)]
    #[tactic(auto, using(std::proofs::lemmas::Grind::common_steps, crate::proofs::Walked::reads, crate::proofs::Walked::sites), unfolding(crate::specs::Drawings::drawn_link))]
    fn link(
        &mut self,
        around: &Around,
        link: &CoreLink,
        first: &CoreFirst,
        before: &[CoreLink],
    ) -> Result<(), AllocError>
        ensures { OnOk result (self.new ≡ drawn_link around.now.entries.now (within_of around.now)
            (linked (plain_core_first first.now) (map plain_core_link before.now)) (plain_core_link link.now)
            self.old) }
    {
        let site = site_at(around, link.operation, first, before, link.line)?;
        self.arguments(around, link.more.as_slice())?;
        self.step(around, link.operation, site)?;
        Ok(())
    }

    /// An expression that is tested, and the point of its test, whose number it answers.
    #[cycle(draw)]
    #[tactic(auto, using(std::proofs::lemmas::Grind::common_steps), unfolding(crate::specs::Drawings::tested, crate::specs::Drawings::test_point))]
    pub fn test(&mut self, around: &Around, e: &CoreExpr) -> Result<u32, AllocError>
        ensures drawing { OnOk result (self.new
            ≡ tested around.now.entries.now (within_of around.now) (plain_core e.now) self.old) }
        ensures number { IfOk result (λ t. t
            ≡ test_point around.now.entries.now (within_of around.now) (plain_core e.now) self.old) }
    {
        let outer = self.begin(around.alloc);
        self.expression(around, e)?;
        let point = self.pass(around, PointKind::Plain, None)?;
        self.end(outer)?;
        Ok(point)
    }

    /// Operands joined by `&&`.
    #[cycle(draw)]
    #[tactic(auto, using(std::proofs::lemmas::Grind::common_steps, crate::proofs::Walked::everies))]
    fn every(&mut self, around: &Around, tests: &[CoreTest]) -> Result<(), AllocError>
        ensures { OnOk result (self.new
            ≡ every_from around.now.entries.now (within_of around.now) [] (map plain_core_test tests.now) self.old) }
    {
        let mut ways = Vec::new(around.alloc);
        for test in tests {
            let point = self.test(around, &test.e)?;
            ways.push(point)?;
        }
        self.meet_after(ways)?;
        Ok(())
    }

    /// Operands joined by `||`.
    #[cycle(draw)]
    #[tactic(auto, using(std::proofs::lemmas::Grind::common_steps, crate::proofs::Walked::anies))]
    fn any(&mut self, around: &Around, tests: &[CoreTest]) -> Result<(), AllocError>
        ensures { OnOk result (self.new
            ≡ any_from around.now.entries.now (within_of around.now) [] (map plain_core_test tests.now) self.old) }
    {
        let mut ways = Items::new(around.alloc);
        for test in tests {
            let point = self.test(around, &test.e)?;
            ways.push(point)?;
        }
        self.meet(ways)?;
        Ok(())
    }
}
