//! The runs of single points.

ghost use Rattle.std.specs.Prelude.{◌≡◌, ◌+◌, ◌-◌, ◌∷◌, [], IfOk, OnOk, length};
ghost use Rattle.std.specs.Option.{option_to_list};
ghost use Rattle.sc_core.specs.Table as table;
ghost use Rattle.sc_core.specs.Statements as statements;
ghost use Rattle.flow_form.specs.Accesses as sites;
ghost use Rattle.site_graph.specs.Plans as plans;
ghost use Rattle.node_emit.specs.Runs as runs;
ghost use Rattle.node_emit.specs.Drafts.{ran, stepped, acted, taken_back, tested, put_all};
ghost use Rattle.node_emit.specs.Ops.{list_of};

use crate::draft::{Draft, added};
use sc_base::{Ty, Unary};
use sc_core::{Action, Constant, Operation};
use sc_isa::{Instr, Op};
use site_graph::Plan;
use std::alloc::{AllocError, Global};

/// The instructions of a step: one or two.
#[derive(Clone, Copy)]
pub struct Ops {
    pub first: Op,
    pub second: Option<Op>,
}

pub fn one(first: Op) -> Ops
    ensures { list_of result ≡ first ∷ [] }
{
    Ops {
        first,
        second: None,
    }
}

fn two(first: Op, second: Op) -> Ops
    ensures { list_of result ≡ first ∷ second ∷ [] }
{
    Ops {
        first,
        second: Some(second),
    }
}

/// The instruction of a write.
fn write_op(one_way: bool, site: u32) -> Op
    ensures { result ≡ table.write_op one_way site }
{
    if one_way {
        Op::Store(site)
    } else {
        Op::Write(site)
    }
}

/// The instructions of an operation at this site, whose write is sent one-way or not.
fn ops_of(one_way: bool, site: u32, operation: Operation) -> Ops
    ensures { list_of result ≡ table.ops_of one_way site operation }
{
    match operation {
        Operation::Use(local) => one(Op::Load(local)),
        Operation::Element { object, count, .. } => one(Op::Elem { object, count }),
        Operation::Address { object, count } => one(Op::Elem { object, count }),
        Operation::Own => one(Op::Glob),
        Operation::Convert => one(Op::Glob),
        Operation::Forward(star) => one(Op::Step(star)),
        Operation::Back(star) => two(Op::Un(Unary::Minus), Op::Step(star)),
        Operation::Binary(operator) => one(Op::Bin(operator)),
        Operation::Unary(operator) => one(Op::Un(operator)),
        Operation::Same => one(Op::Same),
        Operation::Differ => two(Op::Same, Op::Un(Unary::Not)),
        Operation::IsNull => two(Op::Truth, Op::Un(Unary::Not)),
        Operation::ToGlobal => one(Op::ToGlobal),
        Operation::ToProc => one(Op::ToProc),
        Operation::ToLocal => one(Op::ToLocal),
        Operation::Set(local) => one(Op::Set(local)),
        Operation::Call { function, .. } => one(Op::Call(function)),
        Operation::Read => one(Op::Read(site)),
        Operation::Write => one(write_op(one_way, site)),
    }
}

/// The instructions of an action at this site.
fn ops_of_action(site: u32, action: Action) -> Ops
    ensures { list_of result ≡ table.ops_of_action site action }
{
    match action {
        Action::Drop => one(Op::Drop),
        Action::Begin(local) => two(Op::Set(local), Op::Drop),
        Action::Clear { local, pointer } => one(Op::Clear { local, pointer }),
        Action::Fill(local) => one(Op::Fill { site, local }),
        Action::Get(local) => one(Op::Get { site, local }),
        Action::Put => one(Op::Put(site)),
        Action::Send => one(Op::Send(site)),
        Action::Copy(mode) => one(Op::Copy { site, mode }),
        Action::Print { text, count } => one(Op::Print { text, count }),
        Action::Sync => one(Op::Wait(0)),
        Action::Barrier => one(Op::Barrier),
        Action::AllStoreSync => one(Op::AllSync),
    }
}

/// A test, which leads to the first instruction on 0 until its target is known.
fn test_ops(of_pointer: bool) -> Ops
    ensures { list_of result ≡ runs.test_ops of_pointer 0 }
{
    if of_pointer {
        two(Op::Truth, Op::Zero(0))
    } else {
        one(Op::Zero(0))
    }
}

/// The instruction that gives a constant.
pub fn constant_op(constant: Constant) -> Op
    ensures { result ≡ runs.constant_op constant }
{
    match constant {
        Constant::Number(n) => Op::Push(n),
        Constant::Null => Op::Null,
        Constant::Mine => Op::Mine,
        Constant::Procs => Op::Procs,
    }
}

/// What a function of this result gives without a value.
pub fn zero_of(ty: &Ty) -> Constant
    ensures { result ≡ statements.zero_of ty.now }
{
    if ty.stars.as_slice().is_empty() {
        Constant::Number(0)
    } else {
        Constant::Null
    }
}

/// How many accesses the operation itself makes.
fn accesses_by(operation: Operation) -> u32
    ensures { result ≡ sites.accesses_by operation }
{
    match operation {
        Operation::Read | Operation::Write => 1,
        _ => 0,
    }
}

/// How many accesses the action itself makes.
fn accesses_by_action(action: Action) -> u32
    ensures { result ≡ sites.accesses_by_action action }
{
    match action {
        Action::Fill(_) | Action::Get(_) | Action::Put | Action::Send | Action::Copy(_) => 1,
        _ => 0,
    }
}

/// Whether the write of the site is sent one-way.
fn goes_one_way(plan: &Plan, site: u32) -> bool
    ensures { result ≡ runs.goes_one_way plan.now site }
{
    plan.oneway.as_slice().iter().any(|other| *other == site)
}

/// The sites that are waited for before the point.
#[tactic(auto, using(std::proofs::lemmas::Grind::common_steps, crate::proofs::Patches::rows))]
fn waits_at(plan: &Plan, point: u32) -> &[u32]
    ensures { result.now ≡ plans.waits_at plan.now point }
{
    match plan.waits.get(point as usize) {
        Some(sites) => sites.as_slice(),
        None => &[],
    }
}

/// What writes code: the allocator, and where the code waits.
#[derive(Clone, Copy)]
pub struct Emitter<'a> {
    pub alloc: Global,
    pub plan: &'a Plan,
}

impl Emitter<'_> {
    #[tactic(auto, using(std::proofs::lemmas::Grind::common_steps, crate::proofs::Patches::puts))]
    fn put_ops(&self, draft: &mut Draft, ops: Ops, line: u32) -> Result<(), AllocError>
        ensures { OnOk result (draft.new ≡ put_all line (list_of ops) draft.old) }
    {
        draft.put(Instr {
            op: ops.first,
            line,
        })?;
        if let Some(op) = ops.second {
            draft.put(Instr { op, line })?;
        }
        Ok(())
    }

    /// The run of the next point.
    #[tactic(auto, using(std::proofs::lemmas::Grind::common_steps, crate::proofs::Patches::runs))]
    pub fn run(&self, draft: &mut Draft, ops: Ops, line: u32) -> Result<(), AllocError>
        ensures { OnOk result (draft.new ≡ ran self.now.plan.now line (list_of ops) draft.old) }
    {
        draft.wait(waits_at(self.plan, draft.point()), line)?;
        self.put_ops(draft, ops, line)?;
        draft.pass()?;
        Ok(())
    }

    /// The step of an operation.
    #[tactic(auto, using(std::proofs::lemmas::Grind::common_steps, crate::proofs::Patches::steps))]
    pub fn step(&self, draft: &mut Draft, operation: Operation, line: u32) -> Result<(), AllocError>
        ensures { OnOk result (draft.new ≡ stepped self.now.plan.now operation line draft.old) }
    {
        let site = added(draft.sites(), 1)?;
        let ops = ops_of(goes_one_way(self.plan, site), site, operation);
        self.run(draft, ops, line)?;
        draft.count(accesses_by(operation))?;
        Ok(())
    }

    /// The step of an action.
    #[tactic(auto, using(std::proofs::lemmas::Grind::common_steps, crate::proofs::Patches::steps))]
    pub fn act(&self, draft: &mut Draft, action: Action, line: u32) -> Result<(), AllocError>
        ensures { OnOk result (draft.new ≡ acted self.now.plan.now action line draft.old) }
    {
        let site = added(draft.sites(), 1)?;
        self.run(draft, ops_of_action(site, action), line)?;
        draft.count(accesses_by_action(action))?;
        Ok(())
    }

    /// What takes 1 back from a value that was written, where the old one is wanted.
    #[tactic(auto, using(std::proofs::lemmas::Grind::common_steps), unfolding(crate::specs::Drafts::taken_back))]
    pub fn take_back(
        &self,
        draft: &mut Draft,
        operation: Option<Operation>,
        line: u32,
    ) -> Result<(), AllocError>
        ensures { OnOk result (draft.new ≡ taken_back self.now.plan.now operation line draft.old) }
    {
        match operation {
            None => Ok(()),
            Some(operation) => {
                draft.outside(Op::Push(1))?;
                self.step(draft, operation, line)?;
                Ok(())
            }
        }
    }

    /// A test. It answers the place of the instruction that leads on where it is false.
    #[tactic(auto, using(std::proofs::lemmas::Grind::common_steps), unfolding(crate::specs::Drafts::tested))]
    pub fn test(&self, draft: &mut Draft, of_pointer: bool) -> Result<usize, AllocError>
        ensures draft { OnOk result (draft.new ≡ tested self.now.plan.now of_pointer draft.old) }
        ensures place { IfOk result (λ at. at ≡ length draft.new.instrs - 1) }
    {
        self.run(draft, test_ops(of_pointer), 0)?;
        Ok(draft.place().saturating_sub(1))
    }
}
