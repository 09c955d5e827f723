//! The instructions of a node.

use sc_base::{Binary, CopyMode, Star, Unary};

/// What an instruction does: one variant for each row of the instruction table, but that the steps of the three
/// kinds of pointers share `Step`. The numbers of locals, functions, texts and sites are counted as in the code, and
/// jumps lead to the number of an instruction.
#[derive(Clone, Copy, Debug, PartialEq, Eq)]
pub enum Op {
    Push(i64),
    Null,
    Mine,
    Procs,
    Elem { object: u32, count: u32 },
    Step(Star),
    Glob,
    ToLocal,
    ToProc,
    ToGlobal,
    Load(u32),
    Set(u32),
    Clear { local: u32, pointer: bool },
    Dup,
    Drop,
    Swap,
    Bin(Binary),
    Un(Unary),
    Same,
    Truth,
    Jump(u32),
    Zero(u32),
    Turn,
    Call(u32),
    Ret,
    Print { text: u32, count: u32 },
    Read(u32),
    Fill { site: u32, local: u32 },
    Write(u32),
    Store(u32),
    Get { site: u32, local: u32 },
    Put(u32),
    Send(u32),
    Copy { site: u32, mode: CopyMode },
    Wait(u32),
    Barrier,
    AllSync,
}

/// An instruction, with the line of the source that its faults have, counted from 1.
#[derive(Clone, Copy, Debug, PartialEq, Eq)]
pub struct Instr {
    pub op: Op,
    pub line: u32,
}
