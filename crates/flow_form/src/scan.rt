//! Where the functions of a source begin and return, and how many points and sites they have.

ghost use Rattle.std.specs.Prelude.{◌≡◌, ◌≤◌, IfOk, IfErr, OnOk, map};
ghost use Rattle.sc_base.specs.declared.limits.TheConstants.{LIMITS};
ghost use Rattle.sc_core.specs.View.{plain_core, arguments_of};
ghost use Rattle.sc_core.specs.ViewParts.{plain_core_arm};
ghost use Rattle.sc_core.specs.ViewStatements.{plain_does, plain_function, plain_program};
ghost use Rattle.flow_form.specs.Accesses.{accesses_by_action, accesses_of};
ghost use Rattle.flow_form.specs.FlowOf.{IsCause};
ghost use Rattle.flow_form.specs.Scans.{scanned, scan_more, scan_value, scan_values, scan_returns, scan_block, scan_arm, scan_arms, scan_from, function_scan, with_entry, with_function, whole_of};

use crate::count::Count;
use crate::error::FlowError;
use sc_base::LIMITS;
use sc_core::{Action, CoreArm, CoreExpr, CoreFunction, CoreProgram, CoreStmt};
use sqlite_items::Items;
use std::alloc::{AllocError, Global};

/// Where a function begins, and the points at which it returns.
#[derive(Debug, Drop)]
pub struct Entry {
    pub first: u32,
    pub returns: Items<u32>,
}

/// The functions of a source, seen as a list.
pub type Entries = Items<Entry>;

/// Where the functions of a source begin and return, and how many points and sites it has.
#[derive(Debug, Drop)]
pub struct Whole {
    pub entries: Entries,
    pub count: Count,
}

/// What comes before a statement of a function: how many points and sites, and the points at which it returned.
#[derive(Debug, Drop)]
pub struct Scan {
    pub count: Count,
    pub returns: Items<u32>,
}

/// How many sites an action itself has.
pub fn sites_by_action(action: Action) -> u32
    ensures { result ≡ accesses_by_action action }
{
    match action {
        Action::Fill(_) | Action::Get(_) | Action::Put | Action::Send | Action::Copy(_) => 1,
        _ => 0,
    }
}

impl Scan {
    #[tactic(auto, using(std::proofs::lemmas::Grind::common_steps), unfolding(crate::specs::Scans::scan_more))]
    fn more(&mut self, points: u32, sites: u32) -> Result<(), AllocError>
        ensures { OnOk result (self.new ≡ scan_more points sites self.old) }
    {
        self.count.add(points, sites)?;
        Ok(())
    }

    #[tactic(auto, using(std::proofs::lemmas::Grind::common_steps), unfolding(crate::specs::Scans::scan_value))]
    fn value(&mut self, e: &CoreExpr) -> Result<(), AllocError>
        ensures { OnOk result (self.new ≡ scan_value (plain_core e.now) self.old) }
    {
        self.count.expression(e)?;
        Ok(())
    }

    #[tactic(auto, using(std::proofs::lemmas::Grind::common_steps), unfolding(crate::specs::Scans::scan_values))]
    fn values(&mut self, all: &[CoreExpr]) -> Result<(), AllocError>
        ensures { OnOk result (self.new ≡ scan_values (arguments_of (map plain_core all.now)) self.old) }
    {
        self.count.arguments(all)?;
        Ok(())
    }

    /// The next point returns.
    #[tactic(auto, using(std::proofs::lemmas::Grind::common_steps), unfolding(crate::specs::Scans::scan_returns))]
    fn returned(&mut self) -> Result<(), AllocError>
        ensures { OnOk result (self.new ≡ scan_returns self.old) }
    {
        self.returns.push(self.count.points)?;
        Ok(())
    }

    /// A statement.
    #[cycle(scan)]
    #[tactic(auto, using(std::proofs::lemmas::Grind::common_steps, sc_core::proofs::ViewCoreStmtLaws::core_statement_views, crate::proofs::Scanning::forms))]
    pub fn statement(&mut self, s: &CoreStmt) -> Result<(), AllocError>
        ensures { OnOk result (self.new ≡ scanned (plain_does s.now) self.old) }
    {
        match s {
            CoreStmt::Nothing | CoreStmt::Break | CoreStmt::Continue => Ok(()),
            CoreStmt::Block(all) => {
                self.block(all.as_slice())?;
                Ok(())
            }
            CoreStmt::Act {
                action,
                arguments,
                ..
            } => {
                self.values(arguments.as_slice())?;
                self.more(1, sites_by_action(*action))?;
                Ok(())
            }
            CoreStmt::Choose { arms, rest } => {
                self.arms(arms.as_slice())?;
                self.statement(rest.get())?;
                Ok(())
            }
            CoreStmt::Loop {
                before,
                body,
                after,
                ..
            } => {
                self.statement(before.get())?;
                self.more(1, 0)?;
                self.statement(body.get())?;
                self.statement(after.get())?;
                Ok(())
            }
            CoreStmt::Return { value, .. } => {
                self.value(value)?;
                self.returned()?;
                self.more(1, 0)?;
                Ok(())
            }
        }
    }

    /// Statements in turn.
    #[cycle(scan)]
    #[tactic(auto, using(std::proofs::lemmas::Grind::common_steps, crate::proofs::Scanning::chains))]
    fn block(&mut self, all: &[CoreStmt]) -> Result<(), AllocError>
        ensures { OnOk result (self.new ≡ scan_block (map plain_does all.now) self.old) }
    {
        for s in all {
            self.statement(s)?;
        }
        Ok(())
    }

    /// The arms of an `if`.
    #[cycle(scan)]
    #[tactic(auto, using(std::proofs::lemmas::Grind::common_steps, crate::proofs::Scanning::chains))]
    fn arms(&mut self, arms: &[CoreArm]) -> Result<(), AllocError>
        ensures { OnOk result (self.new ≡ scan_arms (map plain_core_arm arms.now) self.old) }
    {
        for arm in arms {
            self.arm(arm)?;
        }
        Ok(())
    }

    #[cycle(scan)]
    #[tactic(auto, using(std::proofs::lemmas::Grind::common_steps, sc_core::proofs::ViewCoreStmtLaws::core_statement_views), unfolding(crate::specs::Scans::scan_arm))]
    fn arm(&mut self, arm: &CoreArm) -> Result<(), AllocError>
        ensures { OnOk result (self.new ≡ scan_arm (plain_core_arm arm.now) self.old) }
    {
        self.value(&arm.test)?;
        self.more(1, 0)?;
        self.statement(&arm.body)?;
        Ok(())
    }
}

#[tactic(auto, using(std::proofs::lemmas::Grind::common_steps), unfolding(crate::specs::Scans::scan_from))]
fn begun(alloc: Global, count: Count) -> Scan
    ensures { result ≡ scan_from count }
{
    Scan {
        count,
        returns: Items::new(alloc),
    }
}

/// A function that begins at the next point.
#[tactic(auto, using(std::proofs::lemmas::Grind::common_steps, crate::proofs::Scanning::functions))]
fn function(alloc: Global, count: Count, f: &CoreFunction) -> Result<Scan, AllocError>
    ensures { IfOk result (λ s. s ≡ function_scan (plain_function f.now) count) }
{
    let mut scan = begun(alloc, count);
    scan.more(1, 0)?;
    scan.statement(&f.body)?;
    scan.returned()?;
    scan.more(1, 0)?;
    Ok(scan)
}

impl Whole {
    #[tactic(auto, using(std::proofs::lemmas::Grind::common_steps), unfolding(crate::specs::Scans::with_entry))]
    fn entry(&mut self, first: u32, scan: Scan) -> Result<(), AllocError>
        ensures { OnOk result (self.new ≡ with_entry first scan self.old) }
    {
        let Scan { count, returns } = scan;
        self.entries.push(Entry { first, returns })?;
        self.count = count;
        Ok(())
    }

    /// With one function more.
    #[tactic(auto, using(std::proofs::lemmas::Grind::common_steps, crate::proofs::Scanning::functions))]
    fn function(&mut self, alloc: Global, f: &CoreFunction) -> Result<(), AllocError>
        ensures { OnOk result (self.new ≡ with_function (plain_function f.now) self.old) }
    {
        let first = self.count.points;
        let scan = function(alloc, self.count, f)?;
        self.entry(first, scan)?;
        Ok(())
    }
}

/// The functions of a source, of which the first begins at point 1.
#[tactic(auto, using(std::proofs::lemmas::Grind::common_steps, crate::proofs::Scanning::wholes))]
pub fn entries_of(alloc: Global, functions: &[CoreFunction]) -> Result<Whole, AllocError>
    ensures { IfOk result (λ w. w ≡ whole_of (map plain_function functions.now)) }
{
    let mut whole = Whole {
        entries: Items::new(alloc),
        count: Count {
            points: 1,
            sites: 0,
        },
    };
    for f in functions {
        whole.function(alloc, f)?;
    }
    Ok(whole)
}

/// The functions of a source, where it has no more sites than the limit.
pub fn scan_source(alloc: Global, program: &CoreProgram) -> Result<Whole, FlowError>
    ensures whole { IfOk result (λ w. w ≡ whole_of (plain_program program.now).functions) }
    ensures few { IfOk result (λ w. accesses_of (plain_program program.now) ≤ LIMITS.sites) }
    ensures cause { IfErr result (λ e. IsCause e (plain_program program.now)) }
{
    let Ok(whole) = entries_of(alloc, program.functions.as_slice()) else {
        return Err(FlowError::OutOfMemory);
    };
    if u64::from(whole.count.sites) > LIMITS.sites {
        return Err(FlowError::TooManySites {
            count: whole.count.sites,
        });
    }
    Ok(whole)
}
