//! What the marks stand for in expressions.

ghost use Rattle.std.specs.Prelude.{◌≡◌, Some, None};
ghost use Rattle.sc_grammar.specs.Marks as marks;
ghost use Rattle.sc_grammar.specs.Marks.{operator_of};
ghost use Rattle.sc_grammar.proofs.ReadingExpressions as reading;

use sc_base::Binary;
use sc_grammar::{Assigning, Operator, Prefix};
use sc_tree::Mark;

fn at_level(level: u32, op: Binary) -> Option<Operator>
    ensures { result ≡ Some (record { level = level; op = Some op }) }
{
    Some(Operator {
        level,
        op: Some(op),
    })
}

fn logical(level: u32) -> Option<Operator>
    ensures { result ≡ Some (record { level = level; op = None }) }
{
    Some(Operator { level, op: None })
}

/// The operator that joins operands by this mark.
pub fn operator_of(mark: Mark) -> Option<Operator>
    ensures { result ≡ marks.operator_of mark }
{
    match mark {
        Mark::Star => at_level(0, Binary::Mul),
        Mark::Slash => at_level(0, Binary::Div),
        Mark::Percent => at_level(0, Binary::Rem),
        Mark::Plus => at_level(1, Binary::Add),
        Mark::Minus => at_level(1, Binary::Sub),
        Mark::ShiftLeft => at_level(2, Binary::Shl),
        Mark::ShiftRight => at_level(2, Binary::Shr),
        Mark::Less => at_level(3, Binary::Lt),
        Mark::LessEqual => at_level(3, Binary::Le),
        Mark::Greater => at_level(3, Binary::Gt),
        Mark::GreaterEqual => at_level(3, Binary::Ge),
        Mark::EqualEqual => at_level(4, Binary::Eq),
        Mark::NotEqual => at_level(4, Binary::Ne),
        Mark::And => at_level(5, Binary::And),
        Mark::Caret => at_level(6, Binary::Xor),
        Mark::Or => at_level(7, Binary::Or),
        Mark::AndAnd => logical(8),
        Mark::OrOr => logical(9),
        _ => None,
    }
}

fn compound(op: Binary) -> Option<Assigning>
    ensures { result ≡ Some (record { op = Some op }) }
{
    Some(Assigning { op: Some(op) })
}

/// The operator by this mark if it is of the level and evaluates all its operands.
pub fn arithmetic_at(level: u32, mark: Mark) -> Option<Binary>
    ensures { result ≡ reading.at_level level (operator_of mark) }
{
    let operator = operator_of(mark)?;
    if operator.level == level {
        operator.op
    } else {
        None
    }
}

/// Whether the mark is `&&` and the level is 8, or it is `||` and the level is 9.
pub fn is_logical_at(level: u32, mark: Mark) -> bool
    ensures { result ≡ reading.is_logical_at level (operator_of mark) }
{
    match operator_of(mark) {
        Some(operator) => operator.level == level && operator.op.is_none(),
        None => false,
    }
}

/// The operator that assigns by this mark.
pub fn assigning_of(mark: Mark) -> Option<Assigning>
    ensures { result ≡ marks.assigning_of mark }
{
    match mark {
        Mark::Equal => Some(Assigning { op: None }),
        Mark::PlusEqual => compound(Binary::Add),
        Mark::MinusEqual => compound(Binary::Sub),
        Mark::StarEqual => compound(Binary::Mul),
        Mark::SlashEqual => compound(Binary::Div),
        Mark::PercentEqual => compound(Binary::Rem),
        Mark::AndEqual => compound(Binary::And),
        Mark::OrEqual => compound(Binary::Or),
        Mark::CaretEqual => compound(Binary::Xor),
        Mark::ShiftLeftEqual => compound(Binary::Shl),
        Mark::ShiftRightEqual => compound(Binary::Shr),
        _ => None,
    }
}

/// The operator before an operand by this mark.
pub fn prefix_of(mark: Mark) -> Option<Prefix>
    ensures { result ≡ marks.prefix_of mark }
{
    match mark {
        Mark::Minus => Some(Prefix::Minus),
        Mark::Plus => Some(Prefix::Plus),
        Mark::Not => Some(Prefix::Not),
        Mark::Tilde => Some(Prefix::Invert),
        Mark::Star => Some(Prefix::Deref),
        Mark::And => Some(Prefix::Address),
        Mark::PlusPlus => Some(Prefix::Up),
        Mark::MinusMinus => Some(Prefix::Down),
        _ => None,
    }
}
