//! Lists that are gathered from the parts of a source in the order of the text: the objects that it exposes, or the
//! locals that it writes.

ghost use Rattle.std.specs.Prelude.{◌≡◌, OnOk, map};
ghost use Rattle.std.specs.Option.{option_to_list};
ghost use Rattle.sc_core.specs.View.{plain_core, arguments_of};
ghost use Rattle.sc_core.specs.ViewParts.{plain_core_first, plain_core_link, plain_core_test, plain_core_arm};
ghost use Rattle.sc_core.specs.ViewStatements.{plain_does, plain_function};
ghost use Rattle.flow_form.specs.Gathers.{wanted_by, wanted_by_action, found, gathered, gathered_all, gathered_in, gathered_link, gathered_links, gathered_test, gathered_tests, gathered_block, gathered_arm, gathered_arms, gathered_functions};

use sc_core::{
    Action, CoreArm, CoreExpr, CoreFirst, CoreFunction, CoreLink, CoreStmt, CoreTest, Operation,
};
use sqlite_items::Items;
use std::alloc::AllocError;

/// What is gathered: the objects that are exposed, or the locals that are written.
#[derive(Clone, Copy, Debug, PartialEq, Eq)]
pub enum Wanted {
    Exposed,
    Written,
}

/// What an operation itself adds.
#[tactic(auto, using(std::proofs::lemmas::Grind::common_steps), unfolding(crate::specs::Gathers::wanted_by))]
fn of_operation(wanted: Wanted, operation: Operation) -> Option<u32>
    ensures { option_to_list result ≡ wanted_by wanted operation }
{
    match (wanted, operation) {
        (Wanted::Exposed, Operation::Address { object, .. }) => Some(object),
        (Wanted::Written, Operation::Set(local)) => Some(local),
        _ => None,
    }
}

/// What an action itself adds.
#[tactic(auto, using(std::proofs::lemmas::Grind::common_steps), unfolding(crate::specs::Gathers::wanted_by_action))]
fn of_action(wanted: Wanted, action: Action) -> Option<u32>
    ensures { option_to_list result ≡ wanted_by_action wanted action }
{
    match wanted {
        Wanted::Exposed => None,
        Wanted::Written => match action {
            Action::Begin(local) | Action::Fill(local) | Action::Get(local) => Some(local),
            Action::Clear { local, .. } => Some(local),
            _ => None,
        },
    }
}

impl Wanted {
    #[tactic(auto, using(std::proofs::lemmas::Grind::common_steps, crate::proofs::Gathering::singles), unfolding(crate::specs::Gathers::found))]
    fn note(self, to: &mut Items<u32>, number: Option<u32>) -> Result<(), AllocError>
        ensures { OnOk result (to.new ≡ found (option_to_list number) to.old) }
    {
        if let Some(number) = number {
            to.push(number)?;
        }
        Ok(())
    }

    /// An expression.
    #[cycle(gather)]
    #[tactic(auto, using(std::proofs::lemmas::Grind::common_steps, crate::proofs::Counting::core_reads, crate::proofs::Gathering::chains))]
    pub fn expression(self, to: &mut Items<u32>, e: &CoreExpr) -> Result<(), AllocError>
        ensures { OnOk result (to.new ≡ gathered self (plain_core e.now) to.old) }
    {
        self.first(to, &e.first)?;
        self.links(to, e.links.as_slice())?;
        Ok(())
    }

    /// What an expression begins with.
    #[cycle(gather)]
    #[tactic(auto, using(std::proofs::lemmas::Grind::common_steps, sc_core::proofs::ViewCoreLaws::core_views, crate::proofs::Gathering::forms))]
    fn first(self, to: &mut Items<u32>, first: &CoreFirst) -> Result<(), AllocError>
        ensures { OnOk result (to.new ≡ gathered self (plain_core_first first.now) to.old) }
    {
        match first {
            CoreFirst::Constant(_) => Ok(()),
            CoreFirst::Step {
                operation,
                arguments,
                ..
            } => {
                self.arguments(to, arguments.as_slice())?;
                self.note(to, of_operation(self, *operation))?;
                Ok(())
            }
            CoreFirst::Every(tests) => {
                self.tests(to, tests.as_slice())?;
                Ok(())
            }
            CoreFirst::Any(tests) => {
                self.tests(to, tests.as_slice())?;
                Ok(())
            }
            CoreFirst::Choice { test, yes, no, .. } => {
                self.expression(to, test.get())?;
                self.expression(to, yes.get())?;
                self.expression(to, no.get())?;
                Ok(())
            }
            CoreFirst::Update { pointer, right, .. } => {
                self.expression(to, pointer.get())?;
                self.expression(to, right.get())?;
                Ok(())
            }
        }
    }

    /// Arguments from left to right.
    #[cycle(gather)]
    #[tactic(auto, using(std::proofs::lemmas::Grind::common_steps, crate::proofs::Gathering::chains))]
    fn arguments(self, to: &mut Items<u32>, all: &[CoreExpr]) -> Result<(), AllocError>
        ensures { OnOk result (to.new ≡ gathered_all self (arguments_of (map plain_core all.now)) to.old) }
    {
        for e in all {
            self.expression(to, e)?;
        }
        Ok(())
    }

    /// What is done with a value in turn.
    #[cycle(gather)]
    #[tactic(auto, using(std::proofs::lemmas::Grind::common_steps, crate::proofs::Gathering::chains))]
    fn links(self, to: &mut Items<u32>, links: &[CoreLink]) -> Result<(), AllocError>
        ensures { OnOk result (to.new ≡ gathered_links self (map plain_core_link links.now) to.old) }
    {
        for link in links {
            self.link(to, link)?;
        }
        Ok(())
    }

    #[cycle(gather)]
    #[tactic(auto, using(std::proofs::lemmas::Grind::common_steps, crate::proofs::Counting::core_reads), unfolding(crate::specs::Gathers::gathered_link))]
    fn link(self, to: &mut Items<u32>, link: &CoreLink) -> Result<(), AllocError>
        ensures { OnOk result (to.new ≡ gathered_link self (plain_core_link link.now) to.old) }
    {
        self.arguments(to, link.more.as_slice())?;
        self.note(to, of_operation(self, link.operation))?;
        Ok(())
    }

    /// Operands of `&&` or `||`.
    #[cycle(gather)]
    #[tactic(auto, using(std::proofs::lemmas::Grind::common_steps, crate::proofs::Gathering::chains))]
    fn tests(self, to: &mut Items<u32>, tests: &[CoreTest]) -> Result<(), AllocError>
        ensures { OnOk result (to.new ≡ gathered_tests self (map plain_core_test tests.now) to.old) }
    {
        for test in tests {
            self.test(to, test)?;
        }
        Ok(())
    }

    #[cycle(gather)]
    #[tactic(auto, using(std::proofs::lemmas::Grind::common_steps, crate::proofs::Counting::core_reads), unfolding(crate::specs::Gathers::gathered_test))]
    fn test(self, to: &mut Items<u32>, test: &CoreTest) -> Result<(), AllocError>
        ensures { OnOk result (to.new ≡ gathered_test self (plain_core_test test.now) to.old) }
    {
        self.expression(to, &test.e)?;
        Ok(())
    }

    /// A statement.
    #[cycle(gather_in)]
    #[tactic(auto, using(std::proofs::lemmas::Grind::common_steps, sc_core::proofs::ViewCoreStmtLaws::core_statement_views, crate::proofs::Gathering::statements))]
    pub fn statement(self, to: &mut Items<u32>, s: &CoreStmt) -> Result<(), AllocError>
        ensures { OnOk result (to.new ≡ gathered_in self (plain_does s.now) to.old) }
    {
        match s {
            CoreStmt::Nothing | CoreStmt::Break | CoreStmt::Continue => Ok(()),
            CoreStmt::Block(all) => {
                self.block(to, all.as_slice())?;
                Ok(())
            }
            CoreStmt::Act {
                action,
                arguments,
                ..
            } => {
                self.arguments(to, arguments.as_slice())?;
                self.note(to, of_action(self, *action))?;
                Ok(())
            }
            CoreStmt::Choose { arms, rest } => {
                self.arms(to, arms.as_slice())?;
                self.statement(to, rest.get())?;
                Ok(())
            }
            CoreStmt::Loop {
                before,
                body,
                after,
                ..
            } => {
                self.statement(to, before.get())?;
                self.statement(to, body.get())?;
                self.statement(to, after.get())?;
                Ok(())
            }
            CoreStmt::Return { value, .. } => {
                self.expression(to, value)?;
                Ok(())
            }
        }
    }

    /// Statements in turn.
    #[cycle(gather_in)]
    #[tactic(auto, using(std::proofs::lemmas::Grind::common_steps, crate::proofs::Gathering::chains))]
    fn block(self, to: &mut Items<u32>, all: &[CoreStmt]) -> Result<(), AllocError>
        ensures { OnOk result (to.new ≡ gathered_block self (map plain_does all.now) to.old) }
    {
        for s in all {
            self.statement(to, s)?;
        }
        Ok(())
    }

    /// The arms of an `if`.
    #[cycle(gather_in)]
    #[tactic(auto, using(std::proofs::lemmas::Grind::common_steps, crate::proofs::Gathering::chains))]
    fn arms(self, to: &mut Items<u32>, arms: &[CoreArm]) -> Result<(), AllocError>
        ensures { OnOk result (to.new ≡ gathered_arms self (map plain_core_arm arms.now) to.old) }
    {
        for arm in arms {
            self.arm(to, arm)?;
        }
        Ok(())
    }

    #[cycle(gather_in)]
    #[tactic(auto, using(std::proofs::lemmas::Grind::common_steps, sc_core::proofs::ViewCoreStmtLaws::core_statement_views), unfolding(crate::specs::Gathers::gathered_arm))]
    fn arm(self, to: &mut Items<u32>, arm: &CoreArm) -> Result<(), AllocError>
        ensures { OnOk result (to.new ≡ gathered_arm self (plain_core_arm arm.now) to.old) }
    {
        self.expression(to, &arm.test)?;
        self.statement(to, &arm.body)?;
        Ok(())
    }

    /// Functions in turn.
    #[tactic(auto, using(std::proofs::lemmas::Grind::common_steps, crate::proofs::Gathering::chains))]
    pub fn functions(self, to: &mut Items<u32>, all: &[CoreFunction]) -> Result<(), AllocError>
        ensures { OnOk result (to.new ≡ gathered_functions self (map plain_function all.now) to.old) }
    {
        for f in all {
            self.statement(to, &f.body)?;
        }
        Ok(())
    }
}
