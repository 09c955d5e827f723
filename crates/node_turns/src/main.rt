//! A loop of so many turns, assembled by hand, on the node machine: it adds the numbers below the word that it is given.
#![tactic(auto)]

use node_machine::{Answer, Asked, Node};
use sc_base::{Binary, Bytes, End, Shape};
use sc_isa::{Code, FnRow, FnRows, Instr, Instrs, Op};
use sc_layout::{Layout, layout};
use sc_tree::Texts;
use std::alloc::{AllocError, Global};
use std::env;
use std::process::ExitCode;

/// `for (i = 0; i < turns; i++) s += i; printf("%d\n", s);`
fn ops(turns: i64) -> [Op; 22] {
    [
        Op::Load(0),
        Op::Push(turns),
        Op::Bin(Binary::Lt),
        Op::Zero(16),
        Op::Turn,
        Op::Load(1),
        Op::Load(0),
        Op::Bin(Binary::Add),
        Op::Set(1),
        Op::Drop,
        Op::Load(0),
        Op::Push(1),
        Op::Bin(Binary::Add),
        Op::Set(0),
        Op::Drop,
        Op::Jump(0),
        Op::Load(1),
        Op::Print { text: 0, count: 1 },
        Op::Push(0),
        Op::Ret,
        Op::Null,
        Op::Null,
    ]
}

fn code(alloc: Global, turns: i64) -> Result<Option<Code>, AllocError> {
    let mut rows = Vec::new(alloc);
    rows.push(FnRow {
        start: 0,
        params: 0,
        locals: 2,
    })?;
    let mut instrs = Vec::new(alloc);
    for op in ops(turns) {
        instrs.push(Instr { op, line: 1 })?;
    }
    let mut texts = Vec::new(alloc);
    texts.push(Bytes::from_vec(Vec::from_slice(alloc, b"%d\n")?))?;
    texts.push(Bytes::from_vec(Vec::from_slice(alloc, b"splitc_main")?))?;
    Ok(Code::new(
        FnRows::from_vec(rows),
        Instrs::from_vec(instrs),
        Texts::from_vec(texts),
        0,
    ))
}

/// What the node prints; None where something is wanting.
fn printed(alloc: Global, turns: u32) -> Result<Option<Bytes>, AllocError> {
    let shapes: Vec<Shape> = Vec::new(alloc);
    let Ok(layout) = layout(alloc, shapes.as_slice(), 1) else {
        return Ok(None);
    };
    let Some(code) = code(alloc, i64::from(turns))? else {
        return Ok(None);
    };
    let Ok(mut node) = Node::new(alloc, 0, &layout, u64::from(turns), &code) else {
        return Ok(None);
    };
    match node.run_to_event(&code, &layout) {
        Ok(Asked::Finish(End::Ended)) => Ok(Some(node.into_result().printed)),
        _ => Ok(None),
    }
}

fn turns(rt: &HostRuntime) -> u32 {
    let Ok(mut words) = env::args(rt) else {
        return 1_000;
    };
    match words.nth(1) {
        Some(word) => word.parse().unwrap_or(0),
        None => 1_000,
    }
}

fn main(rt: HostRuntime) -> ExitCode {
    match printed(rt.alloc(), turns(&rt)) {
        Ok(Some(text)) => {
            for byte in text.as_slice() {
                let _ = print!(rt; "{}", char::from(*byte));
            }
            ExitCode::SUCCESS
        }
        _ => ExitCode::FAILURE,
    }
}
