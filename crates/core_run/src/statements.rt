//! The pieces of work that do statements, and those that are seen.

ghost use Rattle.std.specs.Prelude.{◌≡◌, false, true, Some, None, [], ◌∷◌, ◌++◌, ◌≤◌, ℕ, length, map, if◌then◌else◌, OnOk};
ghost use Rattle.std.specs.Option.{option_map};
ghost use Rattle.sc_core.specs.ViewParts.{plain_core_arm};
ghost use Rattle.sc_core.specs.ViewStatements.{plain_does, block_of, chosen as arms_of};
ghost use Rattle.sc_meaning.specs.Asking.{Breaks};
ghost use Rattle.sc_meaning.specs.Memory.{slot, with_get};
ghost use Rattle.sc_meaning.specs.declared.request.Request.TheVariants as request;
ghost use Rattle.core_state.specs.PlainDeeds.{plain_done};
ghost use Rattle.core_machine.specs.Todo.{does_, closes, enacts, requests};
ghost use Rattle.sc_meaning.specs.Meaning.{constant_of};
ghost use Rattle.core_machine.specs.Moves as moves;
ghost use Rattle.core_machine.specs.Moves.{at_work, halted, after_action, or_stuck, left_by_break, left_by_continue, returned, turned, unless_awaited};
ghost use Rattle.core_run.specs.Views.{todos_of, all_of, setting_of, by, branched, Becomes};
ghost use Rattle.core_run.specs.Seen.{Leads};

use crate::runner::Runner;
use crate::step::Halt;
use crate::task::{Loop, Task};
use core_state::deeds::{Done, action_deed, mode_of};
use node_values::printing::{are_ints, print_operands};
use sc_base::{CopyMode, End, FaultKind, Place};
use sc_core::{Action, Constant, CoreArm, CoreStmt};
use sc_meaning::Request;
use std::alloc::AllocError;

impl<'a> Runner<'a> {
    /// Does a piece of work that is not seen.
    #[tactic(auto, using(crate::proofs::Advancing::leads, crate::proofs::Advancing::evaluates_linked, crate::proofs::Advancing::linked_on))]
    pub(crate) fn advance(&mut self, task: Task<'a>) -> Result<(), AllocError>
        ensures { OnOk result (Leads self.old (todos_of task.entry) self.new) }
    {
        match task {
            Task::Evaluate(e) => self.evaluate(e),
            Task::First(first) => self.evaluate_first(first),
            Task::Arguments(all) => self.arguments(all),
            Task::Links(all) => self.links(all),
            Task::Constant(c) => self.constant(c),
            Task::Every(all) => self.every(all),
            Task::Any(all) => self.any(all),
            Task::DecideEvery { of_pointer, more } => self.decide_every(of_pointer, more),
            Task::DecideAny { of_pointer, more } => self.decide_any(of_pointer, more),
            Task::Decide {
                of_pointer,
                yes,
                no,
            } => self.choose_value(of_pointer, yes, no),
            Task::Perform {
                operation,
                count,
                line,
            } => self.perform(operation, count, line),
            Task::Double => self.double(),
            Task::Gain(value) => self.gain(value),
            _ => self.advance_statement(task),
        }
    }

    #[tactic(auto, using(crate::proofs::Advancing::leads))]
    fn advance_statement(&mut self, task: Task<'a>) -> Result<(), AllocError>
        ensures { OnOk result (Leads self.old (todos_of task.entry) self.new) }
    {
        match task {
            Task::Do(s) => self.statement(s),
            Task::Block(all) => self.block(all),
            Task::Choose { arms, rest } => self.choose(arms, rest),
            Task::DecideArm {
                of_pointer,
                body,
                arms,
                rest,
            } => self.decide_arm(of_pointer, body, arms, rest),
            Task::Enact {
                action,
                count,
                line,
            } => self.enact(action, count, line),
            Task::Rounds(parts) => {
                self.tasks.push(Task::Turn(parts))?;
                self.tasks.push(Task::Do(parts.before))
            }
            Task::Turn(parts) => self.turn(parts),
            Task::After(parts) => {
                self.tasks.push(Task::Rounds(parts))?;
                self.tasks.push(Task::Do(parts.after))
            }
            Task::Return { line } => self.leave(line),
            Task::Close { zero, line } => self.close(zero, line),
            _ => self.tasks.push(task),
        }
    }

    /// Leaves the function that runs where no `return` comes.
    fn close(&mut self, zero: Constant, line: u32) -> Result<(), AllocError>
        ensures { OnOk result (Becomes self.old (by self.old (λ ts vs m left.
            returned line (Some ts) (closes zero line ∷ ts) (constant_of (setting_of self.old) zero ∷ vs) m left)) self.new) }
    {
        self.constant(zero)?;
        self.tasks.push(Task::Close { zero, line })?;
        self.leave(line)?;
        Ok(())
    }

    #[tactic(auto, using(crate::proofs::Advancing::leads, sc_core::proofs::ViewCoreStmtLaws::core_statement_views, crate::proofs::Dropping::count_is))]
    fn statement(&mut self, s: &'a CoreStmt) -> Result<(), AllocError>
        ensures { OnOk result (Leads self.old (does_ (plain_does s.now) ∷ []) self.new) }
    {
        match s {
            CoreStmt::Nothing => Ok(()),
            CoreStmt::Break => self.break_out(),
            CoreStmt::Continue => self.go_round(),
            CoreStmt::Block(all) => self.block(all.as_slice()),
            CoreStmt::Act {
                action,
                arguments,
                line,
            } => {
                self.tasks.push(Task::Enact {
                    action: *action,
                    count: arguments.len(),
                    line: *line,
                })?;
                self.tasks.push(Task::Arguments(arguments.as_slice()))
            }
            CoreStmt::Choose { arms, rest } => self.tasks.push(Task::Choose {
                arms: arms.as_slice(),
                rest: rest.get(),
            }),
            CoreStmt::Loop {
                before,
                body,
                after,
                ..
            } => self.tasks.push(Task::Rounds(Loop {
                before: before.get(),
                body: body.get(),
                after: after.get(),
            })),
            CoreStmt::Return { value, line } => {
                self.tasks.push(Task::Return { line: *line })?;
                self.tasks.push(Task::Evaluate(value))
            }
        }
    }

    fn block(&mut self, all: &'a [CoreStmt]) -> Result<(), AllocError>
        ensures { OnOk result (Becomes self.old (by self.old (moves.done (block_of (map plain_does all.now)))) self.new) }
    {
        let [s, more @ ..] = all else {
            return Ok(());
        };
        self.tasks.push(Task::Block(more))?;
        self.tasks.push(Task::Do(s))
    }

    /// Arms from the first one on, and what is done where the tests of all are false.
    fn choose(&mut self, arms: &'a [CoreArm], rest: &'a CoreStmt) -> Result<(), AllocError>
        ensures { OnOk result (Leads self.old (does_ (arms_of (map plain_core_arm arms.now) (plain_does rest.now)) ∷ []) self.new) }
    {
        let [arm, more @ ..] = arms else {
            return self.tasks.push(Task::Do(rest));
        };
        self.tasks.push(Task::DecideArm {
            of_pointer: arm.of_pointer,
            body: &arm.body,
            arms: more,
            rest,
        })?;
        self.tasks.push(Task::Evaluate(&arm.test))
    }

    fn decide_arm(
        &mut self,
        of_pointer: bool,
        body: &'a CoreStmt,
        arms: &'a [CoreArm],
        rest: &'a CoreStmt,
    ) -> Result<(), AllocError>
        ensures { OnOk result (Becomes self.old (by self.old
            (branched (setting_of self.old) of_pointer (does_ (plain_does body.now))
            (does_ (arms_of (map plain_core_arm arms.now) (plain_does rest.now))))) self.new) }
    {
        match self.decided(of_pointer) {
            Some(true) => self.tasks.push(Task::Do(body)),
            Some(false) => self.tasks.push(Task::Choose { arms, rest }),
            None => self.halt(Halt::Breaks),
        }
    }

    /// A turn is counted, or the node is cut.
    fn turn(&mut self, parts: Loop<'a>) -> Result<(), AllocError>
        ensures { OnOk result (Becomes self.old (by self.old (turned (plain_does parts.entry.before.now) (plain_does parts.entry.body.now) (plain_does parts.entry.after.now))) self.new) }
    {
        let Some(left) = self.left.checked_sub(1) else {
            return self.halt(Halt::Finishes(End::Cut));
        };
        self.left = left;
        self.tasks.push(Task::After(parts))?;
        self.tasks.push(Task::Do(parts.body))
    }

    /// Leaves the loop that is around.
    fn break_out(&mut self) -> Result<(), AllocError>
        ensures { OnOk result (Becomes self.old (by self.old (λ ts. or_stuck (left_by_break ts))) self.new) }
    {
        if self.drop_loop() {
            return Ok(());
        }
        self.tasks.clear();
        self.halt(Halt::Breaks)
    }

    /// Drops what is left to do in the loop that is around.
    #[tactic(auto, using(crate::proofs::Dropping::break_is))]
    fn drop_loop(&mut self) -> bool
        ensures left { left_by_break (all_of self.old.tasks) ≡ (if result then Some (all_of self.new.tasks) else None) }
        ensures kept { self.new ≡ record self.old { tasks = self.new.tasks } }
    {
        while let Some(task) = self.tasks.pop() {
            match task {
                Task::Rounds(_) | Task::Turn(_) | Task::After(_) => return true,
                Task::Close { .. } => return false,
                _ => {}
            }
        }
        false
    }

    /// Goes on behind the body of the loop that is around.
    fn go_round(&mut self) -> Result<(), AllocError>
        ensures { OnOk result (Becomes self.old (by self.old (λ ts. or_stuck (left_by_continue ts))) self.new) }
    {
        if let Some(parts) = self.drop_body() {
            return self.tasks.push(Task::After(parts));
        }
        self.tasks.clear();
        self.halt(Halt::Breaks)
    }

    /// Drops what is left to do in the body of the loop that is around.
    #[tactic(auto, using(crate::proofs::Dropping::continue_is))]
    fn drop_body(&mut self) -> Option<Loop<'a>>
        ensures left { left_by_continue (all_of self.old.tasks)
            ≡ option_map (λ l. todos_of (Task.After l) ++ all_of self.new.tasks) result }
        ensures kept { self.new ≡ record self.old { tasks = self.new.tasks } }
    {
        while let Some(task) = self.tasks.pop() {
            match task {
                Task::After(parts) => return Some(parts),
                Task::Close { .. } => return None,
                _ => {}
            }
        }
        None
    }

    /// A step without a value by the last values, which are so many.
    fn enact(&mut self, action: Action, count: usize, line: u32) -> Result<(), AllocError>
        ensures { OnOk result (Leads self.old (enacts action count line ∷ []) self.new) }
    {
        if !self.values.has(count) {
            return self.halt(Halt::Breaks);
        }
        if let Action::Print { text, .. } = action {
            return self.print(text, count);
        }
        let deed = action_deed(self.layout, action, self.values.last(count));
        self.values.drop_last(count);
        self.enact_deed(deed, mode_of(action), line)
    }

    /// Prints the last values, which are so many, by the text.
    fn print(&mut self, text: u32, count: usize) -> Result<(), AllocError>
        requires { count ≤ length self.old.values }
        ensures { (limit line : ℕ) → OnOk result (Leads self.old (enacts (Action.Print text limit) count line ∷ []) self.new) }
    {
        let Some(format) = self.program.texts.as_slice().get(text as usize) else {
            return self.halt(Halt::Breaks);
        };
        let operands = self.values.last(count);
        if !are_ints(operands) {
            return self.halt(Halt::Breaks);
        }
        print_operands(&mut self.printed, format.as_slice(), operands)?;
        self.values.drop_last(count);
        Ok(())
    }

    fn enact_deed(&mut self, deed: Done, mode: CopyMode, line: u32) -> Result<(), AllocError>
        ensures { OnOk result (Becomes self.old (by self.old (after_action mode (plain_done deed) line)) self.new) }
    {
        match deed {
            Done::LetsGo => Ok(()),
            Done::Faults(kind) => self.fault(kind, line),
            Done::Stuck => self.halt(Halt::Breaks),
            Done::Clears(local, value) => self.set_local(local, value, line),
            Done::Fills(local, place) => self.tasks.push(Task::Fill { local, place, line }),
            Done::Gets(local, place) => self.get_local(local, place, line),
            Done::Misses(local, kind) => match self.memory.local(local) {
                Some(_) => self.fault(kind, line),
                None => self.fault(FaultKind::PendingUse, line),
            },
            Done::Puts(place, value) => self.request(Request::Put { place, value, line }),
            Done::Sends(place, value) => self.request(Request::Store { place, value, line }),
            Done::Copies { from, to, cells } => self.request(Request::Copy {
                from,
                to,
                cells,
                mode,
                line,
            }),
            Done::Waits => self.tasks.push(Task::Sync { line }),
            Done::Meets { stores } => self.tasks.push(Task::Meet { stores, line }),
        }
    }

    fn request(&mut self, request: Request) -> Result<(), AllocError>
        ensures { OnOk result (Becomes self.old (by self.old (λ ts. at_work (requests request ∷ ts))) self.new) }
    {
        self.tasks.push(Task::Request(request))
    }

    /// The local gets the value of the place, unless a get into it is outstanding.
    fn get_local(&mut self, local: u32, place: Place, line: u32) -> Result<(), AllocError>
        ensures { OnOk result (Becomes self.old (by self.old (λ ts vs m left. unless_awaited line (slot m local)
            (λ old. at_work (requests (request.Get place line) ∷ ts) vs (with_get m local place) left) ts vs m left)) self.new) }
    {
        if self.memory.local(local).is_none() {
            return self.fault(FaultKind::PendingUse, line);
        }
        self.memory.get(local, place)?;
        self.request(Request::Get { place, line })
    }
}
