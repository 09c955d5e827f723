//! The listing of each instruction, written by hand, and each call once with ample memory.

use crate::code::{Code, FnRow, FnRows, Instrs};
use crate::journal::{Entry, Journal};
use crate::landed::Landed;
use crate::op::{Instr, Op};
use crate::results::{NodeResult, NodeResults};
use crate::text::listing;
use sc_base::{Binary, Bytes, CopyMode, End, FaultKind, Star, Unary, Value};
use sc_tree::Texts;
use std::alloc::{AllocError, Global};
use std::test::Fail;

/// Two functions, the second from instruction 3 on, behind one format.
fn code_of(alloc: Global, ops: &[Op]) -> Result<Option<Code>, AllocError> {
    let rows = [
        FnRow {
            start: 0,
            params: 0,
            locals: 1,
        },
        FnRow {
            start: 3,
            params: 1,
            locals: 2,
        },
    ];
    let mut instrs = Vec::new(alloc);
    for op in ops {
        instrs.push(Instr { op: *op, line: 1 })?;
    }
    let mut texts = Vec::new(alloc);
    texts.push(Bytes::from_vec(Vec::from_slice(alloc, b"%d\n")?))?;
    texts.push(Bytes::from_vec(Vec::from_slice(alloc, b"splitc_main")?))?;
    texts.push(Bytes::from_vec(Vec::from_slice(alloc, b"f")?))?;
    Ok(Code::new(
        FnRows::from_vec(Vec::from_slice(alloc, &rows)?),
        Instrs::from_vec(instrs),
        Texts::from_vec(texts),
        9,
    ))
}

const LISTED: &[u8] = b"function splitc_main\n\
0 push -9223372036854775808\n1 null\n2 mine\nfunction f\n3 procs\n4 elem 3 2\n5 step local\n6 step global\n\
7 step spread\n8 glob\n9 tolocal\n10 toproc\n11 toglobal\n12 load 5\n13 set 6\n14 clear 7\n15 clear 8\n\
16 dup\n17 drop\n18 swap\n19 bin 0\n20 bin 15\n21 un 0\n22 un 2\n23 same\n24 truth\n25 jump 4294967295\n\
26 zero 4\n27 turn\n28 call 1\n29 ret\n30 print 0 1\n31 read 2\n32 fill 3 4\n33 write 5\n34 store 6\n\
35 get 7 8\n36 put 9\n37 send 1\n38 copy 2\n39 wait 0\n40 barrier\n41 allsync\n";

#[test]
fn each_instruction_has_its_line(rt: HostRuntime) -> Result<(), Fail> {
    let ops = [
        Op::Push(i64::MIN),
        Op::Null,
        Op::Mine,
        Op::Procs,
        Op::Elem {
            object: 3,
            count: 2,
        },
        Op::Step(Star::Local),
        Op::Step(Star::Global),
        Op::Step(Star::Spread),
        Op::Glob,
        Op::ToLocal,
        Op::ToProc,
        Op::ToGlobal,
        Op::Load(5),
        Op::Set(6),
        Op::Clear {
            local: 7,
            pointer: false,
        },
        Op::Clear {
            local: 8,
            pointer: true,
        },
        Op::Dup,
        Op::Drop,
        Op::Swap,
        Op::Bin(Binary::Add),
        Op::Bin(Binary::Ge),
        Op::Un(Unary::Minus),
        Op::Un(Unary::Invert),
        Op::Same,
        Op::Truth,
        Op::Jump(u32::MAX),
        Op::Zero(4),
        Op::Turn,
        Op::Call(1),
        Op::Ret,
        Op::Print { text: 0, count: 1 },
        Op::Read(2),
        Op::Fill { site: 3, local: 4 },
        Op::Write(5),
        Op::Store(6),
        Op::Get { site: 7, local: 8 },
        Op::Put(9),
        Op::Send(1),
        Op::Copy {
            site: 2,
            mode: CopyMode::Split,
        },
        Op::Wait(0),
        Op::Barrier,
        Op::AllSync,
    ];
    let code = code_of(rt.alloc(), &ops)?.ok_or("too long")?;
    assert!(rt; code.functions.as_slice().len() <= code.texts.as_slice().len());
    let text = listing(rt.alloc(), &code)?;
    assert_eq!(rt; text.as_slice(), LISTED);
    Ok(())
}

#[test]
fn values_land_in_order(rt: HostRuntime) -> Result<(), Fail> {
    let mut landed = Landed::new(rt.alloc());
    assert_eq!(rt; landed.values(), [].as_slice());
    landed.reserve(2)?;
    landed.add(Value::Int(4));
    landed.add(Value::Null);
    assert_eq!(rt; landed.values(), [Value::Int(4), Value::Null].as_slice());
    Ok(())
}

#[test]
fn lists_give_what_they_were_made_of(rt: HostRuntime) -> Result<(), Fail> {
    let entry = Entry::Waited {
        node: 1,
        counter: 0,
    };
    let journal = Journal::from_vec(Vec::from_slice(rt.alloc(), &[entry])?);
    assert_eq!(rt; journal.as_slice(), [entry].as_slice());
    let end = End::Fault {
        kind: FaultKind::Depth,
        line: 3,
    };
    let mut results = Vec::new(rt.alloc());
    results.push(NodeResult {
        printed: Bytes::from_vec(Vec::from_slice(rt.alloc(), b"7\n")?),
        end,
    })?;
    let results = NodeResults::from_vec(results);
    assert_eq!(rt; results.as_slice().len(), 1);
    assert_eq!(rt; results.as_slice()[0].printed.as_slice(), b"7\n".as_slice());
    assert_eq!(rt; results.as_slice()[0].end, end);
    Ok(())
}

fn crosses<T: Send>() {}

fn is_shared<T: Send + Sync>() {}

#[test]
fn what_threads_move_and_share() {
    is_shared::<Code>();
    crosses::<Journal>();
    crosses::<Landed>();
    crosses::<NodeResults>();
}
