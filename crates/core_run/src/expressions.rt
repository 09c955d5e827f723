//! The pieces of work that evaluate expressions.

ghost use Rattle.std.specs.Prelude.{◌≡◌, ◌∷◌, [], ◌++◌, map, OnOk};
ghost use Rattle.sc_core.specs.Core.{constant, update};
ghost use Rattle.sc_core.specs.Table.{made_of};
ghost use Rattle.sc_meaning.specs.Asking.{Breaks};
ghost use Rattle.sc_core.specs.View.{plain_core, arguments_of, every_of, any_of};
ghost use Rattle.sc_core.specs.ViewParts.{plain_core_first, plain_core_link, plain_core_test};
ghost use Rattle.sc_core.specs.Places.{number_one, number_zero};
ghost use Rattle.core_state.specs.PlainDeeds.{plain_made};
ghost use Rattle.core_machine.specs.Todo.{evaluates, performs};
ghost use Rattle.core_machine.specs.Moves as moves;
ghost use Rattle.core_machine.specs.Moves.{at_work, halted, evaluated, each_taken, by_values, by_value, after_step};
ghost use Rattle.core_machine.specs.Links.{unlinked};
ghost use Rattle.core_run.specs.Views.{first_of, links_of, setting_of, by, branched, Becomes};

use crate::runner::Runner;
use crate::step::Halt;
use crate::task::Task;
use core_state::deeds::{Made, constant, step_deed};
use sc_base::{FaultKind, Value};
use sc_core::{Constant, CoreExpr, CoreFirst, CoreLink, CoreTest, Operation};
use sc_meaning::Request;
use std::alloc::AllocError;

impl<'a> Runner<'a> {
    /// What an expression begins with, and then what is done with its value.
    pub(crate) fn evaluate(&mut self, e: &'a CoreExpr) -> Result<(), AllocError>
        ensures { OnOk result (Becomes self.old (by self.old (λ ts. at_work (evaluates (first_of e.now) ∷ unlinked (links_of e.now) ++ ts))) self.new) }
    {
        self.tasks.push(Task::Links(e.links.as_slice()))?;
        self.tasks.push(Task::First(&e.first))
    }

    #[tactic(auto, using(sc_core::proofs::ViewCoreLaws::core_views, crate::proofs::Dropping::count_is))]
    pub(crate) fn evaluate_first(&mut self, first: &'a CoreFirst) -> Result<(), AllocError>
        ensures { OnOk result (Becomes self.old (by self.old (evaluated (setting_of self.old) (plain_core_first first.now))) self.new) }
    {
        match first {
            CoreFirst::Constant(c) => self.constant(*c),
            CoreFirst::Step {
                operation,
                arguments,
                line,
            } => {
                self.tasks.push(Task::Perform {
                    operation: *operation,
                    count: arguments.len(),
                    line: *line,
                })?;
                self.tasks.push(Task::Arguments(arguments.as_slice()))
            }
            CoreFirst::Every(tests) => self.every(tests.as_slice()),
            CoreFirst::Any(tests) => self.any(tests.as_slice()),
            CoreFirst::Choice {
                of_pointer,
                test,
                yes,
                no,
            } => {
                self.tasks.push(Task::Decide {
                    of_pointer: *of_pointer,
                    yes: yes.get(),
                    no: no.get(),
                })?;
                self.tasks.push(Task::Evaluate(test.get()))
            }
            CoreFirst::Update {
                pointer,
                operation,
                right,
                taken_back,
                line,
            } => self.update(pointer.get(), *operation, right.get(), *taken_back, *line),
        }
    }

    /// A compound assignment to the cell behind the pointer.
    fn update(
        &mut self,
        pointer: &'a CoreExpr,
        operation: Operation,
        right: &'a CoreExpr,
        taken_back: Option<Operation>,
        line: u32,
    ) -> Result<(), AllocError>
        ensures { OnOk result (Becomes self.old (by self.old (evaluated (setting_of self.old)
            (update (plain_core pointer.now) operation (plain_core right.now) taken_back line))) self.new) }
    {
        self.take_back(taken_back, line)?;
        self.perform_later(Operation::Write, 2, line)?;
        self.perform_later(operation, 2, line)?;
        self.tasks.push(Task::Evaluate(right))?;
        self.perform_later(Operation::Read, 1, line)?;
        self.tasks.push(Task::Double)?;
        self.tasks.push(Task::Evaluate(pointer))?;
        Ok(())
    }

    fn perform_later(
        &mut self,
        operation: Operation,
        count: usize,
        line: u32,
    ) -> Result<(), AllocError>
        ensures { OnOk result (Becomes self.old (by self.old (λ ts. at_work (performs operation count line ∷ ts))) self.new) }
    {
        self.tasks.push(Task::Perform {
            operation,
            count,
            line,
        })
    }

    /// 1 is taken back from what was written.
    fn take_back(&mut self, taken_back: Option<Operation>, line: u32) -> Result<(), AllocError>
        ensures { OnOk result (Becomes self.old (by self.old (λ ts. at_work (moves.taken_back taken_back line ts))) self.new) }
    {
        let Some(operation) = taken_back else {
            return Ok(());
        };
        self.perform_later(operation, 2, line)?;
        self.tasks.push(Task::Gain(Value::Int(1)))
    }

    pub(crate) fn arguments(&mut self, all: &'a [CoreExpr]) -> Result<(), AllocError>
        ensures { OnOk result (Becomes self.old (by self.old (λ ts. at_work (each_taken (arguments_of (map plain_core all.now)) ts))) self.new) }
    {
        let [e, more @ ..] = all else {
            return Ok(());
        };
        self.tasks.push(Task::Arguments(more))?;
        self.tasks.push(Task::Evaluate(e))
    }

    pub(crate) fn links(&mut self, all: &'a [CoreLink]) -> Result<(), AllocError>
        ensures { OnOk result (Becomes self.old (by self.old (λ ts. at_work (unlinked (map plain_core_link all.now) ++ ts))) self.new) }
    {
        let [link, more @ ..] = all else {
            return Ok(());
        };
        self.tasks.push(Task::Links(more))?;
        self.link(link)
    }

    /// A step that takes the value so far and the arguments behind it.
    fn link(&mut self, link: &'a CoreLink) -> Result<(), AllocError>
        ensures { OnOk result (Becomes self.old (by self.old (λ ts. at_work (unlinked (plain_core_link link.now ∷ []) ++ ts))) self.new) }
    {
        let Some(count) = link.more.len().checked_add(1) else {
            return Err(AllocError);
        };
        self.perform_later(link.operation, count, link.line)?;
        self.tasks.push(Task::Arguments(link.more.as_slice()))
    }

    #[tactic(auto, using(crate::proofs::Dropping::core_parts))]
    pub(crate) fn every(&mut self, all: &'a [CoreTest]) -> Result<(), AllocError>
        ensures { OnOk result (Becomes self.old (by self.old (evaluated (setting_of self.old) (every_of (map plain_core_test all.now)))) self.new) }
    {
        let [test, more @ ..] = all else {
            return self.gain(Value::Int(1));
        };
        self.tasks.push(Task::DecideEvery {
            of_pointer: test.of_pointer,
            more,
        })?;
        self.tasks.push(Task::Evaluate(&test.e))
    }

    #[tactic(auto, using(crate::proofs::Dropping::core_parts))]
    pub(crate) fn any(&mut self, all: &'a [CoreTest]) -> Result<(), AllocError>
        ensures { OnOk result (Becomes self.old (by self.old (evaluated (setting_of self.old) (any_of (map plain_core_test all.now)))) self.new) }
    {
        let [test, more @ ..] = all else {
            return self.gain(Value::Int(0));
        };
        self.tasks.push(Task::DecideAny {
            of_pointer: test.of_pointer,
            more,
        })?;
        self.tasks.push(Task::Evaluate(&test.e))
    }

    pub(crate) fn decide_every(
        &mut self,
        of_pointer: bool,
        more: &'a [CoreTest],
    ) -> Result<(), AllocError>
        ensures { OnOk result (Becomes self.old (by self.old
            (branched (setting_of self.old) of_pointer (evaluates (every_of (map plain_core_test more.now)))
            (evaluates number_zero))) self.new) }
    {
        match self.decided(of_pointer) {
            Some(true) => self.tasks.push(Task::Every(more)),
            Some(false) => self.tasks.push(Task::Constant(Constant::Number(0))),
            None => self.halt(Halt::Breaks),
        }
    }

    pub(crate) fn decide_any(
        &mut self,
        of_pointer: bool,
        more: &'a [CoreTest],
    ) -> Result<(), AllocError>
        ensures { OnOk result (Becomes self.old (by self.old
            (branched (setting_of self.old) of_pointer (evaluates number_one)
            (evaluates (any_of (map plain_core_test more.now))))) self.new) }
    {
        match self.decided(of_pointer) {
            Some(true) => self.tasks.push(Task::Constant(Constant::Number(1))),
            Some(false) => self.tasks.push(Task::Any(more)),
            None => self.halt(Halt::Breaks),
        }
    }

    pub(crate) fn choose_value(
        &mut self,
        of_pointer: bool,
        yes: &'a CoreExpr,
        no: &'a CoreExpr,
    ) -> Result<(), AllocError>
        ensures { OnOk result (Becomes self.old (by self.old
            (branched (setting_of self.old) of_pointer (evaluates (plain_core yes.now))
            (evaluates (plain_core no.now)))) self.new) }
    {
        match self.decided(of_pointer) {
            Some(true) => self.tasks.push(Task::Evaluate(yes)),
            Some(false) => self.tasks.push(Task::Evaluate(no)),
            None => self.halt(Halt::Breaks),
        }
    }

    /// The last value once more.
    pub(crate) fn double(&mut self) -> Result<(), AllocError>
        ensures { OnOk result (Becomes self.old (by self.old (λ ts vs m left. by_value vs (λ v vs. at_work ts (v ∷ v ∷ vs) m left) (halted Breaks ts vs m left))) self.new) }
    {
        let Some(value) = self.values.pop() else {
            return self.halt(Halt::Breaks);
        };
        self.values.push(value)?;
        self.values.push(value)
    }

    /// One more value.
    pub(crate) fn gain(&mut self, value: Value) -> Result<(), AllocError>
        ensures { OnOk result (Becomes self.old (by self.old (λ ts vs. at_work ts (value ∷ vs))) self.new) }
    {
        self.values.push(value)
    }

    /// The value of the constant.
    pub(crate) fn constant(&mut self, c: Constant) -> Result<(), AllocError>
        ensures { OnOk result (Becomes self.old (by self.old (evaluated (setting_of self.old) (constant c))) self.new) }
    {
        self.values.push(constant(self.layout, self.node, c))
    }

    /// A step by the last values, which are so many.
    pub(crate) fn perform(
        &mut self,
        operation: Operation,
        count: usize,
        line: u32,
    ) -> Result<(), AllocError>
        ensures { OnOk result (Becomes self.old (by self.old (λ ts vs m left. by_values count vs (λ xs vs.
            after_step (setting_of self.old) (made_of self.old.layout.now self.old.node operation xs) line ts vs m left)
            (halted Breaks ts vs m left))) self.new) }
    {
        if !self.values.has(count) {
            return self.halt(Halt::Breaks);
        }
        if let Operation::Call { function, .. } = operation {
            return self.call(function, count, line);
        }
        if count >= u32::MAX as usize {
            return Err(AllocError);
        }
        let deed = step_deed(self.layout, self.node, operation, self.values.last(count));
        self.values.drop_last(count);
        self.perform_deed(deed, line)
    }

    fn perform_deed(&mut self, deed: Made, line: u32) -> Result<(), AllocError>
        ensures { OnOk result (Becomes self.old (by self.old (after_step (setting_of self.old) (plain_made deed) line)) self.new) }
    {
        match deed {
            Made::Makes(value) => self.gain(value),
            Made::Faults(kind) => self.fault(kind, line),
            Made::Stuck => self.halt(Halt::Breaks),
            Made::Uses(local) => match self.memory.local(local) {
                Some(value) => self.gain(value),
                None => self.fault(FaultKind::PendingUse, line),
            },
            Made::Sets(local, value) => match self.memory.local(local) {
                Some(_) => {
                    self.memory.set(local, value);
                    self.gain(value)
                }
                None => self.fault(FaultKind::PendingUse, line),
            },
            Made::Reads(place) => self.tasks.push(Task::Read { place, line }),
            Made::Writes(place, value) => {
                self.gain(value)?;
                self.tasks
                    .push(Task::Request(Request::Write { place, value, line }))
            }
        }
    }
}
