//! A node that walks its core tree, with a list of what is left to do.

ghost use Rattle.std.specs.Prelude.{◌≡◌, ◌≤◌, ◌<◌, ℕ, Option, Some, None, Bool, true, false, List, [], ◌∷◌, ◌++◌, length, map, reverse, take, drop, slice_get, if◌then◌else◌, IfOk, OnOk, IfSome, MatchOption};
ghost use Rattle.resumption.specs.Resumption.{Asks, Makes, next_text, past_text};
ghost use Rattle.sc_base.specs.declared.value.End.TheVariants as end;
ghost use Rattle.sc_base.specs.declared.value.Value.{Value as Held};
ghost use Rattle.sc_layout.specs.Layout.{Arrangement};
ghost use Rattle.sc_isa.specs.Fitting.{fits, fits_all, is_pointer_to};
ghost use Rattle.sc_core.specs.Statements.{zero_of};
ghost use Rattle.sc_core.specs.ViewStatements.{plain_does, plain_function, plain_program};
ghost use Rattle.sc_meaning.specs.declared.request.Request.{Request as Wish};
ghost use Rattle.sc_meaning.specs.Asking.{Answer as Reply, SourceDoing, Finishes, Breaks, fits_read, fits_sync, fits_barrier};
ghost use Rattle.sc_meaning.specs.Steps.{shown_or_zero, landed_or_none};
ghost use Rattle.sc_meaning.specs.Meaning.{meaning};
ghost use Rattle.sc_meaning.specs.Memory.{has, slot, with_slot, popped, places};
ghost use Rattle.core_machine.specs.Todo.{does_, closes, State};
ghost use Rattle.core_machine.specs.Moves.{at_work, halted, faulted, called, returned, left_by_return, truth_of, chosen, by_value, unless_awaited, begun, passed};
ghost use Rattle.core_run.specs.Views.{plain_halt, plain_answer, todos_of, step_of, all_of, setting_of, state_of, working, by, Becomes};
ghost use Rattle.core_run.specs.Seen.{Stands, IsTowards, Leads, is_seen, Shows, is_nothing, fits_task, next_by, places_of};

use crate::step::{Answer, Halt, Step};
use crate::task::Task;
use core_state::deeds::decide;
use core_state::{Memory, Spot, Stack, Values};
use sc_base::{End, FaultKind, LIMITS, OutOfMemory, Place, Ty, Value};
use sc_core::{Constant, CoreFunction, CoreProgram};
use sc_layout::Layout;
use sc_meaning::Request;
use std::alloc::{AllocError, Global};

/// A node of a source under a budget of turns and calls. After an `Err` it is not to be used.
#[derive(Drop)]
pub struct Runner<'a> {
    pub(crate) alloc: Global,
    pub(crate) program: &'a CoreProgram,
    pub(crate) layout: &'a Layout,
    pub(crate) node: u32,
    pub(crate) tasks: Stack<Task<'a>>,
    pub(crate) values: Values,
    pub(crate) memory: Memory,
    pub(crate) left: u64,
    pub(crate) printed: Vec<u8>,
}

/// What is given where no `return` comes: 0, or null where the result is a pointer.
fn zero_of(ty: &Ty) -> Constant
    ensures { result ≡ zero_of ty.now }
{
    if ty.stars.as_slice().is_empty() {
        Constant::Number(0)
    } else {
        Constant::Null
    }
}

impl<'a> Runner<'a> {
    /// The node before its first step.
    pub fn new(
        alloc: Global,
        program: &'a CoreProgram,
        layout: &'a Layout,
        node: u32,
        budget: u64,
    ) -> Result<Runner<'a>, OutOfMemory>
        ensures stands { IfOk result (λ made. Stands made (meaning (record {
          layout = layout.now;
          node = node;
          program = plain_program program.now;
        }) budget)) }
        ensures printed { IfOk result (λ made. made.printed.items ≡ []) }
    {
        let mut runner = Runner {
            alloc,
            program,
            layout,
            node,
            tasks: Stack::new(alloc),
            values: Values::new(alloc),
            memory: Memory::new(alloc),
            left: budget,
            printed: Vec::new(alloc),
        };
        let Ok(()) = runner.begin() else {
            return Err(OutOfMemory);
        };
        Ok(runner)
    }

    /// Enters `splitc_main`, behind which the node ends.
    fn begin(&mut self) -> Result<(), AllocError>
        requires tasks { self.old.tasks ≡ [] }
        requires values { self.old.values ≡ [] }
        requires memory { self.old.memory ≡ record { frames = []; getting = [] } }
        ensures { OnOk result (Becomes self.old (begun (slice_get (plain_program self.old.program.now).functions self.old.program.now.main) self.old.left) self.new) }
    {
        let Some(f) = self.program.functions.get(self.program.main as usize) else {
            return self.halt(Halt::Breaks);
        };
        self.tasks.push(Task::Halt(Halt::Finishes(End::Ended)))?;
        self.memory.enter(self.alloc, &[], f.others.len())?;
        self.open(f)
    }

    /// What the node printed so far.
    pub fn printed(&self) -> &[u8]
        ensures { result.now ≡ self.now.printed.items }
    {
        self.printed.as_slice()
    }

    /// The node stops.
    pub(crate) fn halt(&mut self, halt: Halt) -> Result<(), AllocError>
        ensures stands { OnOk result (Becomes self.old (by self.old (halted (plain_halt halt))) self.new) }
        ensures printed { self.new.printed ≡ self.old.printed }
    {
        self.tasks.push(Task::Halt(halt))
    }

    /// The node ends by a fault.
    pub(crate) fn fault(&mut self, kind: FaultKind, line: u32) -> Result<(), AllocError>
        ensures stands { OnOk result (Becomes self.old (by self.old (faulted kind line)) self.new) }
        ensures printed { self.new.printed ≡ self.old.printed }
    {
        self.halt(Halt::Finishes(End::Fault { kind, line }))
    }

    /// Does the body of the function, whose frame stands.
    fn open(&mut self, f: &'a CoreFunction) -> Result<(), AllocError>
        ensures { OnOk result (Becomes self.old (by self.old (λ ts. at_work
            (does_ (plain_does f.now.body) ∷ closes (zero_of f.now.result) f.now.line ∷ ts))) self.new) }
    {
        self.tasks.push(Task::Close {
            zero: zero_of(&f.result),
            line: f.line,
        })?;
        self.tasks.push(Task::Do(&f.body))
    }

    /// Calls the function with the last values, which are so many.
    pub(crate) fn call(&mut self, function: u32, count: usize, line: u32) -> Result<(), AllocError>
        requires { count ≤ length self.old.values }
        ensures { OnOk result (Becomes self.old (called (setting_of self.old) function (reverse (take count self.old.values)) line
            (all_of self.old.tasks) (drop count self.old.values) self.old.memory self.old.left) self.new) }
    {
        let Some(left) = self.left.checked_sub(1) else {
            self.values.drop_last(count);
            return self.halt(Halt::Finishes(End::Cut));
        };
        self.left = left;
        if self.memory.depth() as u64 >= LIMITS.frames {
            self.values.drop_last(count);
            return self.fault(FaultKind::Depth, line);
        }
        let Some(f) = self.program.functions.get(function as usize) else {
            self.values.drop_last(count);
            return self.halt(Halt::Breaks);
        };
        self.memory
            .enter(self.alloc, self.values.last(count), f.others.len())?;
        self.values.drop_last(count);
        self.open(f)
    }

    /// The last value as a test: None where it is none, or there is none.
    pub(crate) fn decided(&mut self, of_pointer: bool) -> Option<bool>
        ensures test { (on off : List Held → State) → by_value self.old.values (λ v vs. chosen (truth_of (setting_of self.old) of_pointer v) (on vs) (off vs)
            (by (record self.old { values = vs }) (halted Breaks))) (by self.old (halted Breaks))
            ≡ chosen result (on self.new.values) (off self.new.values) (by self.new (halted Breaks)) }
        ensures kept { self.new ≡ record self.old { values = self.new.values } }
    {
        decide(of_pointer, self.values.pop()?)
    }

    /// Leaves the function that runs with the last value, unless a get into one of its locals is outstanding.
    pub(crate) fn leave(&mut self, line: u32) -> Result<(), AllocError>
        ensures { OnOk result (Becomes self.old (by self.old (λ ts. returned line (left_by_return ts) ts)) self.new) }
    {
        if self.memory.awaits_any() {
            return self.fault(FaultKind::PendingUse, line);
        }
        let closed = self.drop_to_close();
        self.memory.leave();
        if closed {
            return Ok(());
        }
        self.halt(Halt::Breaks)
    }

    /// Drops what is left to do in the function that runs.
    #[tactic(auto, using(crate::proofs::Dropping::return_is))]
    fn drop_to_close(&mut self) -> bool
        ensures left { left_by_return (all_of self.old.tasks) ≡ (if result then Some (all_of self.new.tasks) else None) }
        ensures none { result ≡ false → self.new.tasks ≡ [] }
        ensures kept { self.new ≡ record self.old { tasks = self.new.tasks } }
    {
        while let Some(task) = self.tasks.pop() {
            if matches!(task, Task::Close { .. }) {
                return true;
            }
        }
        false
    }

    /// Goes on to the node's next request or its stop, at which it stands then.
    #[tactic(auto, using(crate::proofs::Advancing::stops_at))]
    fn run(&mut self) -> Result<Step, AllocError>
        ensures towards { (text : List ℕ) (rest : SourceDoing) → IsTowards text rest self.old
            → IfOk result (λ step. Stands self.new rest × Shows rest step × (self.new.printed.items ≡ text)) }
        ensures seen { OnOk result (is_seen (all_of self.new.tasks) ≡ true) }
    {
        for _ in 0..u64::MAX {
            let Some(task) = self.tasks.pop() else {
                self.halt(Halt::Breaks)?;
                return Ok(Step::Stops(Halt::Breaks));
            };
            if let Some(step) = step_at(task) {
                self.tasks.push(task)?;
                return Ok(step);
            }
            self.advance(task)?;
        }
        Err(AllocError)
    }

    /// Goes on to the node's next request or its stop, at which it stands then, and prints what it says before. Where
    /// memory is wanting, and after 2^64 - 1 pieces of work, it is an `Err`.
    pub fn next(&mut self) -> Result<Step, OutOfMemory>
        ensures stands { (doing : SourceDoing) → Stands self.old doing → IfOk result (λ step. Stands self.new (past_text doing)) }
        ensures shows { (doing : SourceDoing) → Stands self.old doing → IfOk result (λ step. Shows (past_text doing) step) }
        ensures printed { (doing : SourceDoing) → Stands self.old doing
            → OnOk result (self.new.printed.items ≡ self.old.printed.items ++ next_text doing) }
        ensures seen { OnOk result (is_seen (all_of self.new.tasks) ≡ true) }
    {
        let Ok(step) = self.run() else {
            return Err(OutOfMemory);
        };
        Ok(step)
    }

    /// Goes on past a request that is not answered, at which the node stands.
    #[tactic(auto, using(crate::proofs::Answering::passes_on))]
    pub fn pass(&mut self)
        requires { is_seen (all_of self.old.tasks) ≡ true }
        ensures stands { (request : Wish) (rest : SourceDoing) → Stands self.old (Makes request rest) → Stands self.new rest }
        ensures printed { self.new.printed ≡ self.old.printed }
    {
        self.take_next();
    }

    /// Goes on by the answer to the request at which the node stands, if it fits; else it stands there still. It
    /// answers whether the answer fits.
    pub fn answer(&mut self, answer: Answer<'_>) -> Result<bool, OutOfMemory>
        requires { is_seen (all_of self.old.tasks) ≡ true }
        ensures fits { (request : Wish) (fits : Reply → Bool) (go : Reply → SourceDoing) → Stands self.old (Asks request fits go)
            → IfOk result (λ taken. taken ≡ fits (plain_answer answer.entry)) }
        ensures taken { (request : Wish) (fits : Reply → Bool) (go : Reply → SourceDoing) → Stands self.old (Asks request fits go)
            → IfOk result (λ taken. taken ≡ true → Stands self.new (go (plain_answer answer.entry))) }
        ensures refused { (doing : SourceDoing) → Stands self.old doing → IfOk result (λ taken. taken ≡ false → Stands self.new doing) }
        ensures printed { self.new.printed ≡ self.old.printed }
    {
        let Ok(taken) = self.answered(answer) else {
            return Err(OutOfMemory);
        };
        Ok(taken)
    }

    fn answered(&mut self, answer: Answer<'_>) -> Result<bool, AllocError>
        requires { is_seen (all_of self.old.tasks) ≡ true }
        ensures fits { (request : Wish) (fits : Reply → Bool) (go : Reply → SourceDoing) → Stands self.old (Asks request fits go)
            → IfOk result (λ taken. taken ≡ fits (plain_answer answer.entry)) }
        ensures taken { (request : Wish) (fits : Reply → Bool) (go : Reply → SourceDoing) → Stands self.old (Asks request fits go)
            → IfOk result (λ taken. taken ≡ true → Stands self.new (go (plain_answer answer.entry))) }
        ensures refused { (doing : SourceDoing) → Stands self.old doing → IfOk result (λ taken. taken ≡ false → Stands self.new doing) }
        ensures printed { self.new.printed ≡ self.old.printed }
    {
        let Some(task) = self.take_next() else {
            return Ok(false);
        };
        if !self.fits_task(task, answer) {
            self.tasks.push(task)?;
            return Ok(false);
        }
        self.go_by(task, answer)?;
        Ok(true)
    }

    /// Takes what stands next. Links of which none is left are nothing.
    fn take_next(&mut self) -> Option<Task<'a>>
        ensures taken { MatchOption result (all_of self.old.tasks ≡ []) (λ task. all_of self.old.tasks ≡ todos_of task ++ all_of self.new.tasks) }
        ensures some { IfSome result (λ task. is_nothing task ≡ false) }
        ensures kept { self.new ≡ record self.old { tasks = self.new.tasks } }
    {
        while let Some(task) = self.tasks.pop() {
            if !is_nothing(task) {
                return Some(task);
            }
        }
        None
    }

    /// Whether this is asked for, and the answer fits.
    fn fits_task(&self, task: Task<'a>, answer: Answer<'_>) -> bool
        ensures { result ≡ fits_task self.now.layout.now self.now.memory task.entry (plain_answer answer.entry) }
    {
        match task {
            Task::Read { place, .. } | Task::Fill { place, .. } => self.fits_read(place, answer),
            Task::Sync { .. } => self.fits_sync(answer),
            Task::Meet { .. } => fits_barrier(answer),
            _ => false,
        }
    }

    fn fits_read(&self, place: Place, answer: Answer<'_>) -> bool
        ensures { result ≡ fits_read self.now.layout.now place (plain_answer answer.entry) }
    {
        match answer {
            Answer::Shown(value) => fits(self.layout, place, value),
            _ => false,
        }
    }

    fn fits_sync(&self, answer: Answer<'_>) -> bool
        ensures { result ≡ fits_sync self.now.layout.now (places self.now.memory) (plain_answer answer.entry) }
    {
        match answer {
            Answer::Landed(values) => self.fits_all(values),
            _ => false,
        }
    }

    /// Goes on by the answer to this.
    fn go_by(&mut self, task: Task<'a>, answer: Answer<'_>) -> Result<(), AllocError>
        ensures stands { OnOk result (Becomes self.old (by self.old (next_by task.entry (plain_answer answer.entry))) self.new) }
        ensures printed { self.new.printed ≡ self.old.printed }
    {
        match task {
            Task::Read { .. } => self.values.push(value_in(answer)),
            Task::Fill { local, line, .. } => self.set_local(local, value_in(answer), line),
            Task::Sync { .. } => {
                self.memory.land(values_in(answer));
                Ok(())
            }
            Task::Meet { .. } => self.go_past(answer),
            _ => self.tasks.push(task),
        }
    }

    /// Goes on past a barrier.
    fn go_past(&mut self, answer: Answer<'_>) -> Result<(), AllocError>
        ensures stands { OnOk result (Becomes self.old (by self.old (passed (plain_answer answer.entry))) self.new) }
        ensures printed { self.new.printed ≡ self.old.printed }
    {
        match answer {
            Answer::Broken => self.halt(Halt::Finishes(End::Waiting)),
            _ => Ok(()),
        }
    }

    /// Whether there is exactly one value for each get, which fits its cell.
    fn fits_all(&self, values: &[Value]) -> bool
        ensures { result ≡ fits_all self.now.layout.now (places self.now.memory) values.now }
    {
        let spots = self.memory.getting();
        if values.len() != spots.len() {
            return false;
        }
        all_fit(self.layout, spots, values)
    }

    /// The local becomes the value, unless a get into it is outstanding.
    pub(crate) fn set_local(
        &mut self,
        local: u32,
        value: Value,
        line: u32,
    ) -> Result<(), AllocError>
        ensures stands { OnOk result (Becomes self.old (by self.old (λ ts vs m left.
            unless_awaited line (slot m local) (λ old. at_work ts vs (with_slot m local (has value)) left) ts vs m left)) self.new) }
        ensures printed { self.new.printed ≡ self.old.printed }
    {
        if self.memory.local(local).is_none() {
            return self.fault(FaultKind::PendingUse, line);
        }
        self.memory.set(local, value);
        Ok(())
    }
}

/// What the node does at this piece of work, if it is one that is seen.
fn step_at(task: Task<'_>) -> Option<Step>
    ensures { result ≡ step_of task.entry }
{
    match task {
        Task::Read { place, line } | Task::Fill { place, line, .. } => {
            Some(Step::Asks(Request::Read { place, line }))
        }
        Task::Sync { line } => Some(Step::Asks(Request::Sync { line })),
        Task::Meet { stores, line } => Some(Step::Asks(if stores {
            Request::AllStoreSync { line }
        } else {
            Request::Barrier { line }
        })),
        Task::Request(request) => Some(Step::Makes(request)),
        Task::Halt(halt) => Some(Step::Stops(halt)),
        _ => None,
    }
}

/// Whether there is nothing to do.
fn is_nothing(task: Task<'_>) -> bool
    ensures { result ≡ is_nothing task.entry }
{
    matches!(task, Task::Links([]))
}

fn fits_barrier(answer: Answer<'_>) -> bool
    ensures { result ≡ fits_barrier (plain_answer answer.entry) }
{
    matches!(answer, Answer::Passed | Answer::Broken)
}

/// The value that is shown.
fn value_in(answer: Answer<'_>) -> Value
    ensures { result ≡ shown_or_zero (plain_answer answer.entry) }
{
    match answer {
        Answer::Shown(value) => value,
        _ => Value::Int(0),
    }
}

/// The values that land.
fn values_in<'b>(answer: Answer<'b>) -> &'b [Value]
    ensures { result.now ≡ landed_or_none (plain_answer answer.entry) }
{
    match answer {
        Answer::Landed(values) => values,
        _ => &[],
    }
}

/// Whether the value may stand in the place's cell.
fn fits(layout: &Layout, place: Place, value: Value) -> bool
    ensures { result ≡ fits layout.now place value }
{
    if place.object >= layout.count() {
        return false;
    }
    let ty = &layout.shape(place.object).ty;
    match value {
        Value::Int(_) => ty.stars.as_slice().is_empty(),
        Value::Null => !ty.stars.as_slice().is_empty(),
        Value::Ptr { object, node, .. } => {
            node < layout.nodes()
                && object < layout.count()
                && points_to(&layout.shape(object).ty, ty)
        }
    }
}

/// Whether each value may stand in the cell of its get.
fn all_fit(layout: &Layout, spots: &[Spot], values: &[Value]) -> bool
    ensures { length spots.now ≡ length values.now → result ≡ fits_all layout.now (places_of spots.now) values.now }
{
    for number in 0..values.len().min(spots.len()) {
        if !fits(layout, spots[number].place, values[number]) {
            return false;
        }
    }
    true
}

/// Whether the type is that of a pointer to a cell of the other type.
fn points_to(cell: &Ty, ty: &Ty) -> bool
    ensures { result ≡ is_pointer_to cell.now ty.now }
{
    match ty.stars.as_slice() {
        [stars @ .., _] => stars == cell.stars.as_slice() && ty.void == cell.void,
        [] => false,
    }
}
