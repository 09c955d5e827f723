//! How many points and sites the parts of a source have.

ghost use Rattle.std.specs.Prelude.{◌≡◌, ◌+◌, IfOk, OnOk, map};
ghost use Rattle.sc_core.specs.View.{plain_core, arguments_of};
ghost use Rattle.sc_core.specs.ViewParts.{plain_core_first, plain_core_link, plain_core_test};
ghost use Rattle.sc_meaning.specs.Points.{one_if_some};
ghost use Rattle.flow_form.specs.Accesses.{accesses_by, accesses_back};
ghost use Rattle.flow_form.specs.Counts.{with_more, counted, counted_all, counted_link, counted_links, counted_test, counted_tests};

use sc_core::{CoreExpr, CoreFirst, CoreLink, CoreTest, Operation};
use std::alloc::AllocError;

/// How many points and sites come before a part.
#[derive(Clone, Copy, Debug, PartialEq, Eq)]
pub struct Count {
    pub points: u32,
    pub sites: u32,
}

/// The sum. One that 32 bits do not hold counts as want of memory.
pub fn added(a: u32, b: u32) -> Result<u32, AllocError>
    ensures { IfOk result (λ sum. sum ≡ a + b) }
{
    match a.checked_add(b) {
        Some(sum) => Ok(sum),
        None => Err(AllocError),
    }
}

/// How many sites an operation itself has.
pub fn sites_by(operation: Operation) -> u32
    ensures { result ≡ accesses_by operation }
{
    match operation {
        Operation::Read | Operation::Write => 1,
        _ => 0,
    }
}

impl Count {
    #[tactic(auto, using(std::proofs::lemmas::Grind::common_steps), unfolding(crate::specs::Counts::with_more))]
    pub fn add(&mut self, points: u32, sites: u32) -> Result<(), AllocError>
        ensures { OnOk result (self.new ≡ with_more points sites self.old) }
    {
        let points = added(self.points, points)?;
        let sites = added(self.sites, sites)?;
        self.points = points;
        self.sites = sites;
        Ok(())
    }

    /// An expression.
    #[cycle(count)]
    #[tactic(auto, using(std::proofs::lemmas::Grind::common_steps, crate::proofs::Counting::core_reads, crate::proofs::Counting::chains))]
    pub fn expression(&mut self, e: &CoreExpr) -> Result<(), AllocError>
        ensures { OnOk result (self.new ≡ counted (plain_core e.now) self.old) }
    {
        self.first(&e.first)?;
        self.links(e.links.as_slice())?;
        Ok(())
    }

    /// What an expression begins with.
    #[cycle(count)]
    #[tactic(auto, using(std::proofs::lemmas::Grind::common_steps, sc_core::proofs::ViewCoreLaws::core_views, crate::proofs::Counting::forms))]
    fn first(&mut self, first: &CoreFirst) -> Result<(), AllocError>
        ensures { OnOk result (self.new ≡ counted (plain_core_first first.now) self.old) }
    {
        match first {
            CoreFirst::Constant(_) => Ok(()),
            CoreFirst::Step {
                operation,
                arguments,
                ..
            } => {
                self.arguments(arguments.as_slice())?;
                self.add(1, sites_by(*operation))?;
                Ok(())
            }
            CoreFirst::Every(tests) => {
                self.tests(tests.as_slice())?;
                Ok(())
            }
            CoreFirst::Any(tests) => {
                self.tests(tests.as_slice())?;
                Ok(())
            }
            CoreFirst::Choice { test, yes, no, .. } => {
                self.expression(test.get())?;
                self.add(1, 0)?;
                self.expression(yes.get())?;
                self.expression(no.get())?;
                Ok(())
            }
            CoreFirst::Update {
                pointer,
                operation,
                right,
                taken_back,
                ..
            } => {
                self.expression(pointer.get())?;
                self.add(1, 1)?;
                self.expression(right.get())?;
                self.add(1, sites_by(*operation))?;
                self.add(1, 1)?;
                self.back(*taken_back)?;
                Ok(())
            }
        }
    }

    /// What takes the old value back, if anything does.
    #[tactic(auto, using(std::proofs::lemmas::Grind::common_steps, crate::proofs::Counting::backs))]
    fn back(&mut self, taken_back: Option<Operation>) -> Result<(), AllocError>
        ensures { OnOk result (self.new ≡ with_more (one_if_some taken_back) (accesses_back taken_back) self.old) }
    {
        match taken_back {
            None => Ok(()),
            Some(operation) => {
                self.add(1, sites_by(operation))?;
                Ok(())
            }
        }
    }

    /// Arguments from left to right.
    #[cycle(count)]
    #[tactic(auto, using(std::proofs::lemmas::Grind::common_steps, crate::proofs::Counting::chains))]
    pub fn arguments(&mut self, all: &[CoreExpr]) -> Result<(), AllocError>
        ensures { OnOk result (self.new ≡ counted_all (arguments_of (map plain_core all.now)) self.old) }
    {
        for e in all {
            self.expression(e)?;
        }
        Ok(())
    }

    /// What is done with a value in turn.
    #[cycle(count)]
    #[tactic(auto, using(std::proofs::lemmas::Grind::common_steps, crate::proofs::Counting::chains))]
    fn links(&mut self, links: &[CoreLink]) -> Result<(), AllocError>
        ensures { OnOk result (self.new ≡ counted_links (map plain_core_link links.now) self.old) }
    {
        for link in links {
            self.link(link)?;
        }
        Ok(())
    }

    #[cycle(count)]
    #[tactic(auto, using(std::proofs::lemmas::Grind::common_steps, crate::proofs::Counting::core_reads), unfolding(crate::specs::Counts::counted_link))]
    fn link(&mut self, link: &CoreLink) -> Result<(), AllocError>
        ensures { OnOk result (self.new ≡ counted_link (plain_core_link link.now) self.old) }
    {
        self.arguments(link.more.as_slice())?;
        self.add(1, sites_by(link.operation))?;
        Ok(())
    }

    /// Operands of `&&` or `||`.
    #[cycle(count)]
    #[tactic(auto, using(std::proofs::lemmas::Grind::common_steps, crate::proofs::Counting::chains))]
    fn tests(&mut self, tests: &[CoreTest]) -> Result<(), AllocError>
        ensures { OnOk result (self.new ≡ counted_tests (map plain_core_test tests.now) self.old) }
    {
        for test in tests {
            self.test(test)?;
        }
        Ok(())
    }

    #[cycle(count)]
    #[tactic(auto, using(std::proofs::lemmas::Grind::common_steps, crate::proofs::Counting::core_reads), unfolding(crate::specs::Counts::counted_test))]
    fn test(&mut self, test: &CoreTest) -> Result<(), AllocError>
        ensures { OnOk result (self.new ≡ counted_test (plain_core_test test.now) self.old) }
    {
        self.expression(&test.e)?;
        self.add(1, 0)?;
        Ok(())
    }
}
