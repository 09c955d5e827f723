//! Trees as texts. A part ends with `@` and its token, or with its first and its own token, and the line where that
//! is not the first. A type is the list of its stars.

use sc_base::{Bound, Shape, Ty};
use sc_tree::{Arm, Expr, ExprKind, Function, Link, Local, Param, Stmt, Tail, Tree};
use std::alloc::{AllocError, Global};

pub fn show_items(alloc: Global, tree: &Tree) -> Result<String, AllocError> {
    let mut out = String::new(alloc);
    for shape in tree.objects.as_slice() {
        show_shape(&mut out, shape)?;
    }
    for function in tree.functions.as_slice() {
        show_function(&mut out, function)?;
    }
    Ok(out)
}

/// The items and the lines.
pub fn show_tree(alloc: Global, tree: &Tree) -> Result<String, AllocError> {
    let mut out = show_items(alloc, tree)?;
    write!(out, " lines {:?} last {}", tree.lines.as_slice(), tree.last)?;
    Ok(out)
}

/// The statements of the functions alone.
pub fn show_body(alloc: Global, tree: &Tree) -> Result<String, AllocError> {
    let mut out = String::new(alloc);
    for function in tree.functions.as_slice() {
        if let Some(body) = &function.body {
            show_statements(&mut out, body.as_slice())?;
        }
    }
    Ok(out)
}

fn show_place(out: &mut String, start: u32, at: u32, line: u32) -> Result<(), AllocError> {
    write!(out, "@{start}")?;
    if at != start {
        write!(out, ".{at}")?;
    }
    if line != 1 {
        write!(out, ":{line}")?;
    }
    Ok(())
}

fn show_type(out: &mut String, ty: &Ty) -> Result<(), AllocError> {
    if ty.void {
        out.push_str(" void")?;
    }
    write!(out, " {:?}", ty.stars.as_slice())
}

fn show_shape(out: &mut String, shape: &Shape) -> Result<(), AllocError> {
    write!(out, "(Object n{}", shape.name)?;
    show_place(out, shape.at, shape.at, shape.line)?;
    show_type(out, &shape.ty)?;
    show_bounds(out, shape.left.as_slice())?;
    if shape.spread {
        out.push_str(" ::")?;
    }
    show_bounds(out, shape.right.as_slice())?;
    out.push_str(")")
}

fn show_bounds(out: &mut String, bounds: &[Bound]) -> Result<(), AllocError> {
    for bound in bounds {
        write!(out, " {:?}", bound.steps.as_slice())?;
        if bound.line != 1 {
            write!(out, ":{}", bound.line)?;
        }
    }
    Ok(())
}

fn show_function(out: &mut String, function: &Function) -> Result<(), AllocError> {
    write!(out, "(Function n{}", function.name)?;
    show_place(out, function.at, function.at, function.line)?;
    show_type(out, &function.result)?;
    for param in function.params.as_slice() {
        show_param(out, param)?;
    }
    if let Some(body) = &function.body {
        out.push_str(" (Body ")?;
        show_statements(out, body.as_slice())?;
        out.push_str(")")?;
    }
    out.push_str(")")
}

fn show_param(out: &mut String, param: &Param) -> Result<(), AllocError> {
    out.push_str(" (Param")?;
    if let Some(name) = param.name {
        write!(out, " n{name}")?;
    }
    show_type(out, &param.ty)?;
    write!(out, ")@{}", param.at)
}

#[cycle(show_statement)]
fn show_statements(out: &mut String, all: &[Stmt]) -> Result<(), AllocError> {
    for stmt in all {
        show_statement(out, stmt)?;
    }
    Ok(())
}

#[cycle(show_statement)]
fn show_statement(out: &mut String, stmt: &Stmt) -> Result<(), AllocError> {
    match stmt {
        Stmt::Block(all) => {
            out.push_str("(Block ")?;
            show_statements(out, all.as_slice())?;
        }
        Stmt::If { arms, rest } => {
            out.push_str("(If")?;
            for arm in arms.as_slice() {
                show_arm(out, arm)?;
            }
            if let Some(rest) = rest {
                out.push_str(" ")?;
                show_statement(out, rest.get())?;
            }
        }
        Stmt::While { test, body } => {
            out.push_str("(While ")?;
            show_expr(out, test)?;
            show_statement(out, body.get())?;
        }
        Stmt::DoWhile { body, test } => {
            out.push_str("(DoWhile ")?;
            show_statement(out, body.get())?;
            show_expr(out, test)?;
        }
        Stmt::For {
            first,
            test,
            next,
            body,
        } => {
            out.push_str("(For")?;
            show_optional(out, first)?;
            show_optional(out, test)?;
            show_optional(out, next)?;
            show_statement(out, body.get())?;
        }
        Stmt::ForMine {
            name,
            bound,
            body,
            at,
            line,
        } => {
            write!(out, "(ForMine n{name}")?;
            show_place(out, *at, *at, *line)?;
            out.push_str(" ")?;
            show_expr(out, bound)?;
            show_statement(out, body.get())?;
        }
        other => show_simple(out, other)?,
    }
    out.push_str(")")
}

#[cycle(show_statement)]
fn show_arm(out: &mut String, arm: &Arm) -> Result<(), AllocError> {
    out.push_str(" (")?;
    show_expr(out, &arm.test)?;
    show_statement(out, &arm.body)?;
    out.push_str(")")
}

/// A statement without a statement inside.
fn show_simple(out: &mut String, stmt: &Stmt) -> Result<(), AllocError> {
    match stmt {
        Stmt::Declare { locals } => {
            out.push_str("(Declare")?;
            for local in locals.as_slice() {
                show_local(out, local)?;
            }
            Ok(())
        }
        Stmt::Simple(e) => {
            out.push_str("(Simple ")?;
            show_expr(out, e)
        }
        Stmt::Split {
            left,
            right,
            oneway,
            at,
            line,
        } => {
            write!(out, "(Split {oneway}")?;
            show_place(out, *at, *at, *line)?;
            out.push_str(" ")?;
            show_expr(out, left)?;
            out.push_str(" ")?;
            show_expr(out, right)
        }
        Stmt::Return { value, at, line } => {
            out.push_str("(Return")?;
            show_place(out, *at, *at, *line)?;
            show_optional(out, value)
        }
        Stmt::Break { at } => write!(out, "(Break@{at}"),
        Stmt::Continue { at } => write!(out, "(Continue@{at}"),
        _ => out.push_str("(Empty"),
    }
}

fn show_local(out: &mut String, local: &Local) -> Result<(), AllocError> {
    write!(out, " (n{}", local.name)?;
    show_place(out, local.at, local.at, local.line)?;
    show_type(out, &local.ty)?;
    show_optional(out, &local.init)?;
    out.push_str(")")
}

fn show_optional(out: &mut String, e: &Option<Expr>) -> Result<(), AllocError> {
    match e {
        Some(e) => {
            out.push_str(" ")?;
            show_expr(out, e)
        }
        None => out.push_str(" -"),
    }
}

#[cycle(show_expr)]
fn show_expr(out: &mut String, e: &Expr) -> Result<(), AllocError> {
    match &e.kind {
        ExprKind::Number(n) => write!(out, "{n}")?,
        ExprKind::Null => out.push_str("NULL")?,
        ExprKind::MyProc => out.push_str("MYPROC")?,
        ExprKind::Procs => out.push_str("PROCS")?,
        ExprKind::SizeInt => out.push_str("SizeInt")?,
        ExprKind::Name(n) => write!(out, "n{n}")?,
        ExprKind::Format(n) => write!(out, "f{n}")?,
        compound => {
            out.push_str("(")?;
            show_compound(out, compound)?;
            out.push_str(")")?;
        }
    }
    show_place(out, e.start, e.at, e.line)
}

/// An expression of several parts.
#[cycle(show_expr)]
fn show_compound(out: &mut String, kind: &ExprKind) -> Result<(), AllocError> {
    match kind {
        ExprKind::Chain { first, rest } => {
            out.push_str("Chain ")?;
            show_expr(out, first.get())?;
            for link in rest.as_slice() {
                show_link(out, link)?;
            }
            Ok(())
        }
        ExprKind::And(all) => {
            out.push_str("And")?;
            show_all(out, all.as_slice())
        }
        ExprKind::Or(all) => {
            out.push_str("Or")?;
            show_all(out, all.as_slice())
        }
        ExprKind::Cond { test, yes, no } => {
            out.push_str("Cond ")?;
            show_expr(out, test.get())?;
            out.push_str(" ")?;
            show_expr(out, yes.get())?;
            out.push_str(" ")?;
            show_expr(out, no.get())
        }
        ExprKind::Assign { op, left, right } => {
            write!(out, "Assign {op:?} ")?;
            show_expr(out, left.get())?;
            out.push_str(" ")?;
            show_expr(out, right.get())
        }
        ExprKind::Postfix { first, tails } => {
            out.push_str("Postfix ")?;
            show_expr(out, first.get())?;
            for tail in tails.as_slice() {
                show_tail(out, tail)?;
            }
            Ok(())
        }
        ExprKind::Call { name, args } => {
            write!(out, "Call n{name}")?;
            show_all(out, args.as_slice())
        }
        prefixed => show_prefixed(out, prefixed),
    }
}

/// An operand with what stands before it.
#[cycle(show_expr)]
fn show_prefixed(out: &mut String, kind: &ExprKind) -> Result<(), AllocError> {
    match kind {
        ExprKind::Step { up, place } => {
            write!(out, "Step {up} ")?;
            show_expr(out, place.get())
        }
        ExprKind::Plus(e) => {
            out.push_str("Plus ")?;
            show_expr(out, e.get())
        }
        ExprKind::Prefix { op, e } => {
            write!(out, "{op:?} ")?;
            show_expr(out, e.get())
        }
        ExprKind::Deref(e) => {
            out.push_str("Deref ")?;
            show_expr(out, e.get())
        }
        ExprKind::Address(e) => {
            out.push_str("Address ")?;
            show_expr(out, e.get())
        }
        ExprKind::Cast { stars, e } => {
            write!(out, "Cast {:?} ", stars.as_slice())?;
            show_expr(out, e.get())
        }
        _ => out.push_str("?"),
    }
}

#[cycle(show_expr)]
fn show_all(out: &mut String, all: &[Expr]) -> Result<(), AllocError> {
    for e in all {
        out.push_str(" ")?;
        show_expr(out, e)?;
    }
    Ok(())
}

#[cycle(show_expr)]
fn show_link(out: &mut String, link: &Link) -> Result<(), AllocError> {
    write!(out, " {:?}", link.op)?;
    show_place(out, link.at, link.at, link.line)?;
    out.push_str(" ")?;
    show_expr(out, &link.e)
}

#[cycle(show_expr)]
fn show_tail(out: &mut String, tail: &Tail) -> Result<(), AllocError> {
    match tail {
        Tail::Index { index, at, line } => {
            out.push_str(" Index")?;
            show_place(out, *at, *at, *line)?;
            out.push_str(" ")?;
            show_expr(out, index)
        }
        Tail::Up { at, line } => {
            out.push_str(" Up")?;
            show_place(out, *at, *at, *line)
        }
        Tail::Down { at, line } => {
            out.push_str(" Down")?;
            show_place(out, *at, *at, *line)
        }
    }
}
