//! The listing of code.

ghost use Rattle.std.specs.Prelude.{◌≡◌, ◌+◌, ◌≤◌, ◌<◌, ◌^◌, ◌∷◌, ◌++◌, pos, length, IfOk, OnOk};
ghost use Rattle.std.specs.Fmt.{signed_decimal};
ghost use Rattle.sc_isa.specs.Listing.{binary_number, unary_number, step_name, op_name, first_argument, second_argument, spaced, instr_line, heading_if, headings, lines_from, listing_of};

use crate::code::{Code, FnRow};
use crate::op::{Instr, Op};
use itoa::Buffer;
use sc_base::{Binary, Bytes, OutOfMemory, Star, Unary};
use std::alloc::{AllocError, Global};

/// The text of the code: before the first instruction of each function a line with its name, and for each instruction
/// a line with its number from 0, its name and its arguments.
pub fn listing(alloc: Global, code: &Code) -> Result<Vec<u8>, OutOfMemory>
    requires { length code.now.functions ≤ length code.now.texts }
    ensures { IfOk result (λ text. text.items ≡ listing_of code.now) }
{
    let functions = code.functions.as_slice();
    let texts = code.texts.as_slice();
    let names = &texts[texts.len() - functions.len()..];
    match text_of(alloc, functions, names, code.instrs.as_slice()) {
        Ok(text) => Ok(text),
        Err(_) => Err(OutOfMemory),
    }
}

#[tactic(auto, using(crate::proofs::Lines::lines_step))]
fn text_of(
    alloc: Global,
    functions: &[FnRow],
    names: &[Bytes],
    instrs: &[Instr],
) -> Result<Vec<u8>, AllocError>
    requires few { length instrs.now < 2 ^ 32 }
    requires named { length functions.now ≡ length names.now }
    ensures { IfOk result (λ text. text.items ≡ lines_from functions.now names.now 0 instrs.now) }
{
    let mut text = Vec::new(alloc);
    let mut at: u32 = 0;
    for instr in instrs {
        add_headings(&mut text, functions, names, at)?;
        add_instr(&mut text, at, instr)?;
        at += 1;
    }
    Ok(text)
}

/// Adds the lines of the functions whose first instruction is the one with this number.
#[tactic(auto, using(crate::proofs::Lines::headings_step))]
fn add_headings(
    text: &mut Vec<u8>,
    functions: &[FnRow],
    names: &[Bytes],
    at: u32,
) -> Result<(), AllocError>
    requires { length functions.now ≡ length names.now }
    ensures { OnOk result (text.new.items ≡ text.old.items ++ headings at functions.now names.now) }
{
    for (number, row) in functions.iter().enumerate() {
        add_heading(text, row, names[number].as_slice(), at)?;
    }
    Ok(())
}

fn add_heading(text: &mut Vec<u8>, row: &FnRow, name: &[u8], at: u32) -> Result<(), AllocError>
    ensures { OnOk result (text.new.items ≡ text.old.items ++ heading_if name.now at row.now) }
{
    if row.start != at {
        return Ok(());
    }
    text.extend_from_slice(b"function ")?;
    text.extend_from_slice(name)?;
    text.push(b'\n')?;
    Ok(())
}

fn add_instr(text: &mut Vec<u8>, at: u32, instr: &Instr) -> Result<(), AllocError>
    ensures { OnOk result (text.new.items ≡ text.old.items ++ instr_line at instr.now) }
{
    let mut buffer = Buffer::new();
    text.extend_from_slice(buffer.format(at).as_bytes())?;
    text.push(b' ')?;
    text.extend_from_slice(name_of(&instr.op))?;
    add_argument(text, first_argument_of(&instr.op))?;
    add_argument(text, second_argument_of(&instr.op))?;
    text.push(b'\n')?;
    Ok(())
}

/// Adds the number with a blank before it, where there is one.
fn add_argument(text: &mut Vec<u8>, argument: Option<i64>) -> Result<(), AllocError>
    ensures { OnOk result (text.new.items ≡ text.old.items ++ spaced argument) }
{
    match argument {
        None => Ok(()),
        Some(number) => {
            let mut buffer = Buffer::new();
            text.push(b' ')?;
            text.extend_from_slice(buffer.format(number).as_bytes())
        }
    }
}

fn name_of(op: &Op) -> &'static [u8]
    ensures { result.now ≡ op_name op.now }
{
    match op {
        Op::Push(_) => b"push",
        Op::Null => b"null",
        Op::Mine => b"mine",
        Op::Procs => b"procs",
        Op::Elem { .. } => b"elem",
        Op::Step(Star::Local) => b"step local",
        Op::Step(Star::Global) => b"step global",
        Op::Step(Star::Spread) => b"step spread",
        Op::Glob => b"glob",
        Op::ToLocal => b"tolocal",
        Op::ToProc => b"toproc",
        Op::ToGlobal => b"toglobal",
        Op::Load(_) => b"load",
        Op::Set(_) => b"set",
        Op::Clear { .. } => b"clear",
        Op::Dup => b"dup",
        Op::Drop => b"drop",
        Op::Swap => b"swap",
        Op::Bin(_) => b"bin",
        Op::Un(_) => b"un",
        Op::Same => b"same",
        Op::Truth => b"truth",
        Op::Jump(_) => b"jump",
        Op::Zero(_) => b"zero",
        Op::Turn => b"turn",
        Op::Call(_) => b"call",
        Op::Ret => b"ret",
        Op::Print { .. } => b"print",
        Op::Read(_) => b"read",
        Op::Fill { .. } => b"fill",
        Op::Write(_) => b"write",
        Op::Store(_) => b"store",
        Op::Get { .. } => b"get",
        Op::Put(_) => b"put",
        Op::Send(_) => b"send",
        Op::Copy { .. } => b"copy",
        Op::Wait(_) => b"wait",
        Op::Barrier => b"barrier",
        Op::AllSync => b"allsync",
    }
}

fn first_argument_of(op: &Op) -> Option<i64>
    ensures { result ≡ first_argument op.now }
{
    match *op {
        Op::Push(number) => Some(number),
        Op::Elem { object, .. } => Some(i64::from(object)),
        Op::Load(local) | Op::Set(local) | Op::Clear { local, .. } => Some(i64::from(local)),
        Op::Bin(operator) => Some(binary_number_of(operator)),
        Op::Un(operator) => Some(unary_number_of(operator)),
        Op::Jump(target) | Op::Zero(target) => Some(i64::from(target)),
        Op::Call(function) => Some(i64::from(function)),
        Op::Print { text, .. } => Some(i64::from(text)),
        Op::Read(site)
        | Op::Fill { site, .. }
        | Op::Write(site)
        | Op::Store(site)
        | Op::Get { site, .. }
        | Op::Put(site)
        | Op::Send(site)
        | Op::Copy { site, .. } => Some(i64::from(site)),
        Op::Wait(counter) => Some(i64::from(counter)),
        _ => None,
    }
}

fn second_argument_of(op: &Op) -> Option<i64>
    ensures { result ≡ second_argument op.now }
{
    match *op {
        Op::Elem { count, .. } | Op::Print { count, .. } => Some(i64::from(count)),
        Op::Fill { local, .. } | Op::Get { local, .. } => Some(i64::from(local)),
        _ => None,
    }
}

/// The operator's number in the order of its kind.
fn binary_number_of(operator: Binary) -> i64
    ensures { result ≡ pos (binary_number operator) }
{
    match operator {
        Binary::Add => 0,
        Binary::Sub => 1,
        Binary::Mul => 2,
        Binary::Div => 3,
        Binary::Rem => 4,
        Binary::Shl => 5,
        Binary::Shr => 6,
        Binary::And => 7,
        Binary::Or => 8,
        Binary::Xor => 9,
        Binary::Eq => 10,
        Binary::Ne => 11,
        Binary::Lt => 12,
        Binary::Le => 13,
        Binary::Gt => 14,
        Binary::Ge => 15,
    }
}

fn unary_number_of(operator: Unary) -> i64
    ensures { result ≡ pos (unary_number operator) }
{
    match operator {
        Unary::Minus => 0,
        Unary::Not => 1,
        Unary::Invert => 2,
    }
}
