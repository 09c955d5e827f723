//! Codes assembled by hand, and what they ask, print and end with.

use super::cells::{numbers, on_two_nodes, ordinary};
use node_machine::node::{Answer, Asked, Node};
use sc_base::{
    Binary, Bound, BoundStep, BoundSteps, Bounds, Bytes, CopyMode, End, FaultKind, Shape, Star,
    Stars, Ty, Unary, Value,
};
use sc_isa::{Code, FnRow, FnRows, Instr, Instrs, Landed, Op};
use sc_layout::{Layout, layout};
use sc_tree::Texts;
use std::alloc::{AllocError, Global};
use std::process::Abort;
use std::test::Fail;

/// `int A[2][3];` on two nodes.
fn two_nodes(alloc: Global) -> Result<Option<Layout>, AllocError> {
    let bounds = numbers(alloc, &[2, 3])?;
    on_two_nodes(alloc, ordinary(alloc, bounds)?)
}

/// The code of `splitc_main` from the beginning on, and of a function of one parameter and two locals from `second`.
fn assembled(alloc: Global, second: u32, ops: &[Op]) -> Result<Option<Code>, AllocError> {
    let rows = [
        FnRow {
            start: 0,
            params: 0,
            locals: 2,
        },
        FnRow {
            start: second,
            params: 1,
            locals: 2,
        },
    ];
    let mut instrs = Vec::new(alloc);
    for op in ops {
        instrs.push(Instr { op: *op, line: 7 })?;
    }
    let mut texts = Vec::new(alloc);
    texts.push(Bytes::from_vec(Vec::from_slice(alloc, b"%d,%d%%\n")?))?;
    texts.push(Bytes::from_vec(Vec::from_slice(alloc, b"splitc_main")?))?;
    texts.push(Bytes::from_vec(Vec::from_slice(alloc, b"f")?))?;
    Ok(Code::new(
        FnRows::from_vec(Vec::from_slice(alloc, &rows)?),
        Instrs::from_vec(instrs),
        Texts::from_vec(texts),
        3,
    ))
}

/// How node 1 of the code ends with this budget where each wait lands the next value, and each barrier is passed; with
/// what it printed and how often it asked.
fn ended(
    alloc: Global,
    budget: u64,
    second: u32,
    ops: &[Op],
    values: &[Value],
) -> Result<Option<(End, Vec<u8>, u32)>, AllocError> {
    let Some(layout) = two_nodes(alloc)? else {
        return Ok(None);
    };
    let Some(code) = assembled(alloc, second, ops)? else {
        return Ok(None);
    };
    let Ok(mut node) = Node::new(alloc, 1, &layout, budget, &code) else {
        return Ok(None);
    };
    let mut next = 0;
    for asks in 0..1000u32 {
        let Ok(asked) = node.run_to_event(&code, &layout) else {
            return Ok(None);
        };
        let answer = match asked {
            Asked::Issue(_) => Answer::Issued,
            Asked::Arrive { .. } => Answer::Arrived,
            Asked::Pass => Answer::Passed,
            Asked::Wait { .. } => {
                let mut landed = Landed::new(alloc);
                if landed.reserve(1).is_ok() {
                    landed.add(values.get(next).copied().unwrap_or(Value::Int(0)));
                }
                next += 1;
                Answer::Landed(landed)
            }
            Asked::Finish(end) => {
                let result = node.into_result();
                let printed = Vec::from_slice(alloc, result.printed.as_slice())?;
                return Ok(Some((end, printed, asks)));
            }
        };
        node.answer(answer);
    }
    Ok(None)
}

const FIRST: [Op; 4] = [
    Op::Push(0),
    Op::Push(0),
    Op::Elem {
        object: 0,
        count: 2,
    },
    Op::Glob,
];

fn fault(kind: FaultKind) -> End {
    End::Fault { kind, line: 7 }
}

const GET: Op = Op::Get { site: 1, local: 0 };

const FILL: Op = Op::Fill { site: 2, local: 0 };

const COPY: Op = Op::Copy {
    site: 1,
    mode: CopyMode::Split,
};

fn elem(count: u32) -> Op {
    Op::Elem { object: 0, count }
}

/// A code with its budget, and how node 1 of two ends it after so many asks.
#[derive(Clone, Copy)]
struct Case<'a> {
    name: &'a str,
    ops: &'a [Op],
    budget: u64,
    end: End,
    asks: u32,
}

fn row<'a>(name: &'a str, ops: &'a [Op], budget: u64, end: End, asks: u32) -> Case<'a> {
    Case {
        name,
        ops,
        budget,
        end,
        asks,
    }
}

fn check(rt: &impl Abort, alloc: Global, cases: &[Case<'_>]) -> Result<(), Fail> {
    for one in cases {
        let (got, printed, asked) = ended(alloc, one.budget, 0, one.ops, &[])?.ok_or("no run")?;
        assert_eq!(rt; got, one.end, "{}", one.name);
        assert_eq!(rt; asked, one.asks, "{}", one.name);
        assert_eq!(rt; printed.as_slice(), b"".as_slice(), "{}", one.name);
    }
    Ok(())
}

#[test]
fn turns_calls_and_barriers_end_as_the_table_says(rt: HostRuntime) -> Result<(), Fail> {
    let again = [Op::Turn, Op::Jump(0)];
    let deeper = [Op::Push(0), Op::Call(1)];
    check(
        &rt,
        rt.alloc(),
        &[
            row("budget 0", &again, 0, End::Cut, 0),
            row("turns", &again, 3, End::Cut, 0),
            row("256 frames", &deeper, 256, fault(FaultKind::Depth), 0),
            row("the budget before the depth", &deeper, 255, End::Cut, 0),
            row(
                "barriers",
                &[Op::Barrier, Op::AllSync, Op::Push(0), Op::Ret],
                0,
                End::Ended,
                4,
            ),
        ],
    )
}

#[test]
fn values_end_as_the_table_says(rt: HostRuntime) -> Result<(), Fail> {
    let index = fault(FaultKind::Index);
    let null = fault(FaultKind::NullUse);
    let step = Op::Step(Star::Global);
    check(
        &rt,
        rt.alloc(),
        &[
            row(
                "each index has its bound",
                &[Op::Push(1), Op::Push(3), elem(2)],
                0,
                index,
                0,
            ),
            row(
                "the first index first",
                &[Op::Push(2), Op::Push(0), Op::Push(0), elem(3)],
                0,
                index,
                0,
            ),
            row("a step of null", &[Op::Null, Op::Push(1), step], 0, null, 0),
            row(
                "a node that is not there",
                &[Op::Push(2), Op::Null, Op::ToGlobal],
                0,
                fault(FaultKind::BadNode),
                0,
            ),
            row("the node of null", &[Op::Null, Op::ToProc], 0, null, 0),
            row(
                "a divisor of 0",
                &[Op::Push(1), Op::Push(0), Op::Bin(Binary::Div)],
                0,
                fault(FaultKind::Divide),
                0,
            ),
            row(
                "the least number",
                &[Op::Push(i64::MIN), Op::Un(Unary::Minus)],
                0,
                fault(FaultKind::Overflow),
                0,
            ),
        ],
    )
}

#[test]
fn accesses_end_as_the_table_says(rt: HostRuntime) -> Result<(), Fail> {
    let null = fault(FaultKind::NullUse);
    check(
        &rt,
        rt.alloc(),
        &[
            row("a read of null", &[Op::Null, Op::Read(1)], 0, null, 0),
            row("a fill of null", &[Op::Null, FILL], 0, null, 0),
            row(
                "a write to null",
                &[Op::Null, Op::Push(1), Op::Write(1)],
                0,
                null,
                0,
            ),
            row(
                "a store to null",
                &[Op::Null, Op::Push(1), Op::Store(1)],
                0,
                null,
                0,
            ),
            row(
                "a put to null",
                &[Op::Null, Op::Push(1), Op::Put(1)],
                0,
                null,
                0,
            ),
            row(
                "a send to null",
                &[Op::Null, Op::Push(1), Op::Send(1)],
                0,
                null,
                0,
            ),
            row("a get of null", &[Op::Null, GET], 0, null, 0),
            row(
                "bytes first",
                &[Op::Null, Op::Null, Op::Push(12), COPY],
                0,
                fault(FaultKind::BadSize),
                0,
            ),
            row(
                "no bytes",
                &[Op::Null, Op::Null, Op::Push(0), COPY, Op::Push(0), Op::Ret],
                0,
                End::Ended,
                0,
            ),
            row(
                "a copy to null",
                &[Op::Null, Op::Null, Op::Push(8), COPY],
                0,
                null,
                0,
            ),
        ],
    )
}

/// A get into local 0 of the first cell, and what comes then.
fn after_get(alloc: Global, ops: &[Op]) -> Result<Vec<Op>, AllocError> {
    let mut all = Vec::from_slice(alloc, &FIRST)?;
    all.push(GET)?;
    all.extend_from_slice(ops)?;
    Ok(all)
}

#[test]
fn a_pending_get_is_a_fault(rt: HostRuntime) -> Result<(), Fail> {
    let pending = fault(FaultKind::PendingUse);
    let load = after_get(rt.alloc(), &[Op::Load(0)])?;
    let set = after_get(rt.alloc(), &[Op::Push(1), Op::Set(0)])?;
    let ret = after_get(rt.alloc(), &[Op::Push(0), Op::Ret])?;
    let get = after_get(rt.alloc(), &[Op::Null, GET])?;
    let mut fill = after_get(rt.alloc(), &FIRST)?;
    fill.push(FILL)?;
    let again = after_get(
        rt.alloc(),
        &[Op::Wait(0), Op::Load(0), Op::Drop, Op::Push(0), Op::Ret],
    )?;
    check(
        &rt,
        rt.alloc(),
        &[
            row("load", load.as_slice(), 0, pending, 1),
            row("set", set.as_slice(), 0, pending, 1),
            row("ret", ret.as_slice(), 0, pending, 1),
            row("get before its place", get.as_slice(), 0, pending, 1),
            row("fill after its request", fill.as_slice(), 0, pending, 2),
            row("after the wait", again.as_slice(), 0, End::Ended, 2),
        ],
    )
}

/// How the code ends, what it prints and how often it asks.
fn told(
    rt: &impl Abort,
    alloc: Global,
    second: u32,
    ops: &[Op],
    values: &[Value],
    text: &[u8],
    asks: u32,
) -> Result<(), Fail> {
    let (end, printed, asked) = ended(alloc, 1000, second, ops, values)?.ok_or("no run")?;
    assert_eq!(rt; end, End::Ended);
    assert_eq!(rt; printed.as_slice(), text);
    assert_eq!(rt; asked, asks);
    Ok(())
}

const LAST: [Op; 3] = [Op::Print { text: 0, count: 2 }, Op::Push(0), Op::Ret];

#[test]
fn a_wait_fills_each_copy(rt: HostRuntime) -> Result<(), Fail> {
    let mut ops = Vec::from_slice(rt.alloc(), &FIRST)?;
    ops.extend_from_slice(&[
        Op::Read(1),
        Op::Dup,
        Op::Dup,
        Op::Drop,
        Op::Wait(1),
        Op::Bin(Binary::Add),
        Op::Push(5),
    ])?;
    ops.extend_from_slice(&LAST)?;
    told(
        &rt,
        rt.alloc(),
        0,
        ops.as_slice(),
        &[Value::Int(21)],
        b"42,5%\n",
        2,
    )
}

#[test]
fn each_counter_is_waited_for_alone(rt: HostRuntime) -> Result<(), Fail> {
    let mut ops = Vec::from_slice(rt.alloc(), &FIRST)?;
    ops.push(Op::Read(1))?;
    ops.extend_from_slice(&FIRST)?;
    ops.extend_from_slice(&[Op::Read(2), Op::Wait(2), Op::Wait(1)])?;
    ops.extend_from_slice(&LAST)?;
    told(
        &rt,
        rt.alloc(),
        0,
        ops.as_slice(),
        &[Value::Int(7), Value::Int(8)],
        b"8,7%\n",
        4,
    )
}

#[test]
fn a_fill_may_land_after_its_frame_returned(rt: HostRuntime) -> Result<(), Fail> {
    let mut ops = Vec::from_slice(
        rt.alloc(),
        &[Op::Push(3), Op::Call(1), Op::Push(4), Op::Wait(2)],
    )?;
    ops.extend_from_slice(&LAST)?;
    ops.extend_from_slice(&FIRST)?;
    ops.extend_from_slice(&[Op::Fill { site: 2, local: 1 }, Op::Load(0), Op::Ret])?;
    told(
        &rt,
        rt.alloc(),
        7,
        ops.as_slice(),
        &[Value::Int(99)],
        b"3,4%\n",
        2,
    )
}

#[test]
fn a_thousand_turns(rt: HostRuntime) -> Result<(), Fail> {
    let mut ops = Vec::from_slice(
        rt.alloc(),
        &[
            Op::Load(0),
            Op::Push(1000),
            Op::Bin(Binary::Lt),
            Op::Zero(16),
            Op::Turn,
            Op::Load(1),
            Op::Load(0),
            Op::Bin(Binary::Add),
            Op::Set(1),
            Op::Drop,
            Op::Load(0),
            Op::Push(1),
            Op::Bin(Binary::Add),
            Op::Set(0),
            Op::Drop,
            Op::Jump(0),
            Op::Load(0),
            Op::Load(1),
        ],
    )?;
    ops.extend_from_slice(&LAST)?;
    told(
        &rt,
        rt.alloc(),
        0,
        ops.as_slice(),
        &[],
        b"1000,499500%\n",
        0,
    )
}
