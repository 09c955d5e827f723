//! The code of the nodes.

ghost use Rattle.std.specs.Prelude.{◌≡◌, ◌^◌, ◌<◌, length, IsTrue, IfSome, IfNone};
ghost use Rattle.std.specs.List.{list_all};
ghost use Rattle.sc_isa.specs.Short.{is_short, IsShort};

use crate::op::Instr;
use sc_base::Bytes;
use sc_tree::Texts;
use std::marker::Model;

/// A function of the code: the number of its first instruction, how many parameters it has, and how many locals,
/// the parameters among them.
#[derive(Clone, Copy, Debug, PartialEq, Eq)]
pub struct FnRow {
    pub start: u32,
    pub params: u32,
    pub locals: u32,
}

/// The functions in text order, seen as a list.
#[derive(Debug, Drop)]
pub struct FnRows {
    rows: Vec<FnRow>,
}

impl Model for FnRows {
    ghost use Rattle.std.specs.Prelude.{List};
    ghost use Rattle.sc_isa.specs.declared.code.FnRow.{FnRow};

    ghost Value = { List FnRow };

    ghost view = { λ f. f.rows.items };
}

impl FnRows {
    pub fn from_vec(rows: Vec<FnRow>) -> FnRows
        ensures { result ≡ rows.items }
    {
        FnRows { rows }
    }

    pub fn as_slice(&self) -> &[FnRow]
        ensures { result.now ≡ self.now }
    {
        self.rows.as_slice()
    }
}

/// The instructions by number, seen as a list.
#[derive(Debug, Drop)]
pub struct Instrs {
    instrs: Vec<Instr>,
}

impl Model for Instrs {
    ghost use Rattle.std.specs.Prelude.{List};
    ghost use Rattle.sc_isa.specs.declared.op.Instr.{Instr};

    ghost Value = { List Instr };

    ghost view = { λ i. i.instrs.items };
}

impl Instrs {
    pub fn from_vec(instrs: Vec<Instr>) -> Instrs
        ensures { result ≡ instrs.items }
    {
        Instrs { instrs }
    }

    pub fn as_slice(&self) -> &[Instr]
        ensures { result.now ≡ self.now }
    {
        self.instrs.as_slice()
    }
}

/// The code that all nodes run: its functions and instructions; its texts, which are the formats that it prints by
/// and after them the names of the functions; and the number of its access sites, which are counted from 1. Every
/// number in it that counts functions, instructions, texts or the bytes of a text fits 32 bits.
#[derive(Debug, Drop)]
pub struct Code {
    pub functions: FnRows,
    pub instrs: Instrs,
    pub texts: Texts,
    pub sites: u32,
    pub ghost few_functions: { length functions < 2 ^ 32 },
    pub ghost few_instrs: { length instrs < 2 ^ 32 },
    pub ghost few_texts: { length texts < 2 ^ 32 },
    pub ghost short_texts: { IsTrue (list_all is_short texts) },
}

impl Code {
    /// The code of these parts; None where they have too many functions, instructions or texts, or a text has too many
    /// bytes, to count them in 32 bits.
    pub fn new(functions: FnRows, instrs: Instrs, texts: Texts, sites: u32) -> Option<Code>
        ensures parts { IfSome result (λ code. (code.functions ≡ functions) × (code.instrs ≡ instrs)
            × (code.texts ≡ texts) × (code.sites ≡ sites)) }
        ensures none { IfNone result (IsShort (length functions) (length instrs) texts → ⊥) }
    {
        if functions.as_slice().len() > u32::MAX as usize {
            return None;
        }
        if instrs.as_slice().len() > u32::MAX as usize {
            return None;
        }
        if texts.as_slice().len() > u32::MAX as usize {
            return None;
        }
        if !are_short(texts.as_slice()) {
            return None;
        }
        Some(Code {
            functions,
            instrs,
            texts,
            sites,
        })
    }
}

/// Whether the bytes of each text can be counted in 32 bits.
fn are_short(texts: &[Bytes]) -> bool
    ensures { result ≡ list_all is_short texts.now }
{
    texts.iter().all(|text| is_short(text.as_slice()))
}

fn is_short(text: &[u8]) -> bool
    ensures { result ≡ is_short text.now }
{
    text.len() <= u32::MAX as usize
}
