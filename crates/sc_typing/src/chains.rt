//! The operators of chains: which rule speaks of the operands.

ghost use Rattle.std.specs.Prelude.{◌≡◌};
ghost use Rattle.sc_typing.specs.Chains as chains;

use crate::rule::Rule;
use sc_base::Binary;

/// How tightly an operator binds, as far as what it asks of its operands and makes of them differs.
#[derive(Clone, Copy, Debug, PartialEq, Eq)]
pub enum Level {
    Sums,
    Equalities,
    Others,
}

/// The level of the operator.
pub fn level_of(op: Binary) -> Level
    ensures { result ≡ chains.level_of op }
{
    match op {
        Binary::Add | Binary::Sub => Level::Sums,
        Binary::Eq | Binary::Ne => Level::Equalities,
        _ => Level::Others,
    }
}

/// The rule on the operands of a link of this level.
pub fn link_rule(level: Level) -> Rule
    ensures { result ≡ (chains.row_at level).rule }
{
    match level {
        Level::Sums => Rule::Sum,
        Level::Equalities => Rule::Comparison,
        Level::Others => Rule::Ints,
    }
}
