//! The trees of what was read.

ghost use Rattle.std.specs.Prelude.{◌≡◌, IfOk, map};
ghost use Rattle.sc_tree.specs.Plain as plain;
ghost use Rattle.sc_tree.specs.View.{plain, plain_kind, plain_link, plain_tail, expressions_of, links_of, tails_of};
ghost use Rattle.sc_grammar.specs.Marks.{prefixed};
ghost use Rattle.sc_grammar.specs.Expressions as expressions;
ghost use Rattle.sc_grammar.proofs.ReadingExpressions as reading;
ghost use Rattle.sc_grammar.specs.Statements as statements;

use sc_base::{Binary, Stars, Ty, Unary};
use sc_grammar::{Position, Prefix};
use sc_tree::{Expr, ExprKind, Exprs, Links, Tails};
use sqlite_items::{Boxed, Items};
use std::alloc::{AllocError, Global};

/// An expression whose own token is its first.
pub fn placed(position: Position, kind: ExprKind) -> Expr
    ensures { plain result ≡ reading.placed_at position (plain_kind kind) }
{
    between(position, position, kind)
}

/// An expression with its own token at a place of its own.
pub fn between(start: Position, own: Position, kind: ExprKind) -> Expr
    ensures { plain result ≡ reading.between start own (plain_kind kind) }
{
    Expr {
        kind,
        start: start.at,
        at: own.at,
        line: own.line,
    }
}

/// What an operator before an operand makes of it.
pub fn prefixed(alloc: Global, prefix: Prefix, operand: Expr) -> Result<ExprKind, AllocError>
    ensures { IfOk result (λ kind. plain_kind kind ≡ prefixed prefix (plain operand)) }
{
    let e = Boxed::new(alloc, operand)?;
    Ok(match prefix {
        Prefix::Minus => ExprKind::Prefix {
            op: Unary::Minus,
            e,
        },
        Prefix::Plus => ExprKind::Plus(e),
        Prefix::Not => ExprKind::Prefix { op: Unary::Not, e },
        Prefix::Invert => ExprKind::Prefix {
            op: Unary::Invert,
            e,
        },
        Prefix::Deref => ExprKind::Deref(e),
        Prefix::Address => ExprKind::Address(e),
        Prefix::Up => ExprKind::Step { up: true, place: e },
        Prefix::Down => ExprKind::Step {
            up: false,
            place: e,
        },
    })
}

/// The assignment, a compound one where it has an operator.
pub fn assignment(
    alloc: Global,
    op: Option<Binary>,
    left: Expr,
    right: Expr,
) -> Result<ExprKind, AllocError>
    ensures { IfOk result (λ kind. plain_kind kind ≡ plain.assign op (plain left) (plain right)) }
{
    let left = Boxed::new(alloc, left)?;
    let right = Boxed::new(alloc, right)?;
    Ok(ExprKind::Assign { op, left, right })
}

/// The cast of the operand to int with these stars.
pub fn cast(alloc: Global, stars: Stars, operand: Expr) -> Result<ExprKind, AllocError>
    ensures { IfOk result (λ kind. plain_kind kind ≡ plain.cast stars (plain operand)) }
{
    let e = Boxed::new(alloc, operand)?;
    Ok(ExprKind::Cast { stars, e })
}

/// The expression in parentheses, which start there.
pub fn around(start: Position, inner: Expr) -> Expr
    ensures { plain result ≡ expressions.around start.at start.line (plain inner) }
{
    let Expr { kind, at, line, .. } = inner;
    match kind {
        kind @ (ExprKind::Chain { .. }
        | ExprKind::And(_)
        | ExprKind::Or(_)
        | ExprKind::Postfix { .. }) => placed(start, kind),
        kind => between(start, Position { at, line }, kind),
    }
}

/// A chain of operands, or the only one.
#[tactic(auto, using(sc_grammar::proofs::Joined::joined, sc_tree::proofs::ViewLaws::expression_views))]
pub fn chained(alloc: Global, start: Position, first: Expr, rest: Links) -> Result<Expr, AllocError>
    ensures { IfOk result (λ e. plain e ≡ expressions.chained start.at start.line (plain first) (links_of (map plain_link rest))) }
{
    if rest.is_empty() {
        return Ok(first);
    }
    let first = Boxed::new(alloc, first)?;
    Ok(placed(start, ExprKind::Chain { first, rest }))
}

/// The operands of `&&` where the level is 8, and else of `||`, or the only operand.
#[tactic(auto, using(sc_grammar::proofs::Joined::joined, sc_tree::proofs::ViewLaws::expression_views))]
pub fn listed(
    alloc: Global,
    level: u32,
    start: Position,
    first: Expr,
    rest: Exprs,
) -> Result<Expr, AllocError>
    ensures { IfOk result (λ e. plain e ≡ expressions.listed level start.at start.line (plain first) (expressions_of (map plain rest))) }
{
    if rest.is_empty() {
        return Ok(first);
    }
    let mut all = Items::new(alloc);
    all.push(first)?;
    all.append(rest)?;
    let kind = if level == 8 {
        ExprKind::And(all)
    } else {
        ExprKind::Or(all)
    };
    Ok(placed(start, kind))
}

/// An expression with what stands behind it, if anything does.
#[tactic(auto, using(sc_grammar::proofs::Joined::joined, sc_tree::proofs::ViewLaws::expression_views))]
pub fn tailed(alloc: Global, start: Position, first: Expr, tails: Tails) -> Result<Expr, AllocError>
    ensures { IfOk result (λ e. plain e ≡ expressions.tailed start.at start.line (plain first) (tails_of (map plain_tail tails))) }
{
    if tails.is_empty() {
        return Ok(first);
    }
    let first = Boxed::new(alloc, first)?;
    Ok(placed(start, ExprKind::Postfix { first, tails }))
}

/// An int, or a pointer for each star.
pub fn int_with(stars: Stars) -> Ty
    ensures { result ≡ statements.int_with stars }
{
    Ty { void: false, stars }
}
