//! The text that a format and its operands give.

ghost use Rattle.std.specs.Prelude.{◌≡◌, ◌+◌, ◌<◌, ◌≤◌, ◌++◌, map, length, drop, slice_get, IfOk, OnOk};
ghost use Rattle.std.specs.Fmt.{signed_decimal};
ghost use Rattle.std.specs.List.{list_all};
ghost use Rattle.sc_isa.specs.Printing.{formatted};
ghost use Rattle.node_values.specs.Operands.{is_int, int_in};
ghost use Rattle.node_values.specs.Printing.{piece_of, left_to_print, GoesOn};

use itoa::Buffer;
use sc_base::Value;
use sc_isa::Operand;
use std::alloc::AllocError;

/// What stands next in a format.
#[derive(Clone, Copy, Debug)]
pub enum Piece {
    Percent,
    Number,
    Byte,
}

/// A place in a format, and how many operands are used before it.
#[derive(Clone, Copy, Debug)]
pub struct Reached {
    pub at: usize,
    pub used: usize,
}

/// Whether all operands are numbers.
pub fn are_ints(operands: &[Operand]) -> bool
    ensures { result ≡ list_all is_int operands.now }
{
    operands
        .iter()
        .all(|operand| matches!(operand, Operand::Here(Value::Int(_))))
}

fn next_piece(format: &[u8], more: bool) -> Piece
    ensures { result ≡ piece_of format.now more }
{
    match format {
        [b'%', b'%', ..] => Piece::Percent,
        [b'%', b'd', ..] if more => Piece::Number,
        _ => Piece::Byte,
    }
}

fn push_decimal(text: &mut Vec<u8>, number: i64) -> Result<(), AllocError>
    ensures text { OnOk result (text.new.items ≡ text.old.items ++ signed_decimal number) }
    ensures kept { GoesOn text.old.items text.new.items }
{
    let mut buffer = Buffer::new();
    text.extend_from_slice(buffer.format(number).as_bytes())
}

/// Adds the number that the operand is.
fn push_number(text: &mut Vec<u8>, operand: Operand) -> Result<(), AllocError>
    ensures text { OnOk result (text.new.items ≡ text.old.items ++ signed_decimal (int_in operand)) }
    ensures kept { GoesOn text.old.items text.new.items }
{
    match operand {
        Operand::Here(Value::Int(number)) => push_decimal(text, number),
        _ => push_decimal(text, 0),
    }
}

/// Prints what stands next in the format.
fn print_piece(
    text: &mut Vec<u8>,
    format: &[u8],
    operands: &[Operand],
    from: Reached,
) -> Result<Reached, AllocError>
    requires { from.at < length format.now }
    ensures on { IfOk result (λ to. from.at < to.at) }
    ensures within { IfOk result (λ to. to.at ≤ length format.now) }
    ensures text { IfOk result (λ to. text.new.items ++ left_to_print format.now operands.now to.at to.used
        ≡ text.old.items ++ left_to_print format.now operands.now from.at from.used) }
    ensures kept { GoesOn text.old.items text.new.items }
{
    match next_piece(&format[from.at..], from.used < operands.len()) {
        Piece::Percent => {
            text.push(b'%')?;
            Ok(Reached {
                at: from.at + 2,
                used: from.used,
            })
        }
        Piece::Number => {
            push_number(text, operands[from.used])?;
            Ok(Reached {
                at: from.at + 2,
                used: from.used + 1,
            })
        }
        Piece::Byte => {
            text.push(format[from.at])?;
            Ok(Reached {
                at: from.at + 1,
                used: from.used,
            })
        }
    }
}

/// Adds the format's bytes to the text, each `%d` replaced by the next operand in decimal, and each `%%` by `%`.
pub fn print_operands(
    text: &mut Vec<u8>,
    format: &[u8],
    operands: &[Operand],
) -> Result<(), AllocError>
    ensures text { OnOk result (text.new.items ≡ text.old.items ++ formatted format.now (map int_in operands.now)) }
    ensures kept { GoesOn text.old.items text.new.items }
{
    let mut reached = Reached { at: 0, used: 0 };
    while reached.at < format.len() {
        reached = print_piece(text, format, operands, reached)?;
    }
    Ok(())
}
