//! The core of whole expressions, of declarations and of split assignments.

ghost use Rattle.std.specs.Prelude.{◌≡◌, ◌+◌, ◌++◌, ◌∷◌, [], IfOk, true, false, map, length};
ghost use Rattle.std.specs.Option.{option_map};
ghost use Rattle.sc_tree.specs.PlainTyped as tree;
ghost use Rattle.sc_tree.specs.ViewTyped.{plain_typed, plain_typed_kind, typed_expressions_of};
ghost use Rattle.sc_tree.specs.ViewTypedStmt.{typed_declared};
ghost use Rattle.sc_core.specs.Core as core_tree;
ghost use Rattle.sc_core.specs.declared.operation.Action.TheVariants as acts;
ghost use Rattle.sc_core.specs.declared.operation.Operation.TheVariants as does;
ghost use Rattle.sc_core.specs.Expressions as expressions;
ghost use Rattle.sc_core.specs.Expressions.{value_of};
ghost use Rattle.sc_core.specs.Places as places;
ghost use Rattle.sc_core.specs.Statements as statements;
ghost use Rattle.sc_core.specs.View.{plain_core};
ghost use Rattle.core_expr.specs.ViewFound.{seen_found};
ghost use Rattle.sc_core.specs.ViewStatements.{plain_does};
ghost use Rattle.core_lower.specs.ViewWhole.{set_whole};

use crate::acts::{
    act, act_alone, act_on, act_on_three, act_on_two, block, nothing, push_statement,
};
use core_expr::Sight;
use core_expr::places::{
    Found, assigned, fetched, is_own, is_pointer, last_of, narrowed, reaching,
};
use core_expr::reading::{line_of, star_of};
use core_expr::steps::{constant, used, with_one};
use sc_base::{Binary, CopyMode, Ty, copy_of_type};
use sc_core::{Action, Constant, CoreExpr, CoreStmt, Operation};
use sc_tree::{TypedExpr, TypedKind, TypedLocal};
use sqlite_items::Boxed;
use std::alloc::{AllocError, Global};

/// Whether values of the type are pointers.
fn has_star(ty: &Ty) -> bool
    ensures { result ≡ statements.has_star ty.now }
{
    is_pointer(last_of(ty.stars.as_slice()))
}

/// What a function of this result gives without a value.
pub fn zero_of(ty: &Ty) -> Constant
    ensures { result ≡ statements.zero_of ty.now }
{
    if has_star(ty) {
        Constant::Null
    } else {
        Constant::Number(0)
    }
}

/// The local becomes the value of the cell.
fn fill(
    alloc: Global,
    number: u32,
    pointer: CoreExpr,
    own: bool,
    at: u32,
    line: u32,
) -> Result<Boxed<CoreStmt>, AllocError>
    ensures { IfOk result (λ made. plain_does made
        ≡ statements.act_on (acts.Fill number) (places.reaching own (plain_core pointer) at) line) }
{
    let place = reaching(alloc, own, pointer, at)?;
    let made = act_on(alloc, Action::Fill(number), place, line)?;
    Ok(made)
}

/// The local becomes what was found, by an assignment.
fn local_set(
    alloc: Global,
    number: u32,
    right: Found,
    line: u32,
) -> Result<Boxed<CoreStmt>, AllocError>
    ensures { IfOk result (λ made. plain_does made ≡ statements.filled number (seen_found right)
        (statements.act_on acts.Drop
        (places.with_one (does.Set number) (places.fetched (seen_found right)) line) line) line) }
{
    match right {
        Found::Cell {
            pointer,
            own,
            line: at,
        } => fill(alloc, number, pointer, own, at, line),
        Found::Value(e) => set_and_dropped(alloc, number, e, line),
        Found::Local {
            number: other,
            line: at,
        } => set_and_dropped(alloc, number, used(alloc, other, at), line),
    }
}

pub fn set_and_dropped(
    alloc: Global,
    number: u32,
    e: CoreExpr,
    line: u32,
) -> Result<Boxed<CoreStmt>, AllocError>
    ensures { IfOk result (λ made. plain_does made ≡ statements.set_and_dropped number (plain_core e) line) }
{
    let set = with_one(alloc, Operation::Set(number), e, line)?;
    let made = act_on(alloc, Action::Drop, set, line)?;
    Ok(made)
}

/// The local begins with what was found.
fn local_begun(
    alloc: Global,
    number: u32,
    init: Found,
    line: u32,
) -> Result<Boxed<CoreStmt>, AllocError>
    ensures { IfOk result (λ made. plain_does made ≡ statements.filled number (seen_found init)
        (statements.act_on (acts.Begin number) (places.fetched (seen_found init)) line) line) }
{
    match init {
        Found::Cell {
            pointer,
            own,
            line: at,
        } => fill(alloc, number, pointer, own, at, line),
        Found::Value(e) => act_on(alloc, Action::Begin(number), e, line),
        Found::Local {
            number: other,
            line: at,
        } => act_on(alloc, Action::Begin(number), used(alloc, other, at), line),
    }
}

/// A plain assignment as a whole statement.
fn assigned_whole(
    alloc: Global,
    place: Found,
    right: Found,
    line: u32,
) -> Result<Boxed<CoreStmt>, AllocError>
    ensures { IfOk result (λ made. plain_does made ≡ statements.assigning (seen_found place) (seen_found right)
        (statements.act_on acts.Drop
        (places.assigned (seen_found place) (places.fetched (seen_found right)) line) line) line) }
{
    match place {
        Found::Local { number, .. } => local_set(alloc, number, right, line),
        Found::Value(e) => value_set(alloc, Found::Value(e), right, line),
        Found::Cell {
            pointer,
            own,
            line: at,
        } => {
            let place = Found::Cell {
                pointer,
                own,
                line: at,
            };
            value_set(alloc, place, right, line)
        }
    }
}

/// A plain assignment whose value is let go.
fn value_set(
    alloc: Global,
    place: Found,
    right: Found,
    line: u32,
) -> Result<Boxed<CoreStmt>, AllocError>
    ensures { IfOk result (λ made. plain_does made ≡ statements.act_on acts.Drop
        (places.assigned (seen_found place) (places.fetched (seen_found right)) line) line) }
{
    let value = fetched(alloc, right)?;
    let set = assigned(alloc, place, value, line)?;
    let made = act_on(alloc, Action::Drop, set, line)?;
    Ok(made)
}

/// The place that was found as the argument of a transfer.
fn placed(alloc: Global, found: Found) -> Result<CoreExpr, AllocError>
    ensures { IfOk result (λ made. plain_core made ≡ statements.placed (seen_found found)) }
{
    match found {
        Found::Cell { pointer, own, line } => reaching(alloc, own, pointer, line),
        Found::Value(e) => Ok(e),
        Found::Local { number, line } => Ok(used(alloc, number, line)),
    }
}

fn put_or_send(one_way: bool) -> Action
    ensures { result ≡ statements.put_or_send one_way }
{
    if one_way { Action::Send } else { Action::Put }
}

/// The number of the next local, behind so many parameters and these others. One that does not fit 32 bits counts
/// as want of memory.
fn next_local(params: usize, others: &Vec<Ty>) -> Result<u32, AllocError>
    ensures { IfOk result (λ n. n ≡ params + length others.now.items) }
{
    match params.checked_add(others.len()) {
        Some(number) => narrowed(number),
        None => Err(AllocError),
    }
}

/// An expression whose value is let go.
pub fn dropped(sight: &Sight<'_>, e: &TypedExpr) -> Result<Boxed<CoreStmt>, AllocError>
    ensures { IfOk result (λ made. plain_does made
        ≡ statements.dropped sight.now.objects.now (plain_typed e.now)) }
{
    let value = sight.value(e)?;
    let made = act_on(sight.alloc, Action::Drop, value, line_of(e))?;
    Ok(made)
}

pub fn optional(sight: &Sight<'_>, e: &Option<TypedExpr>) -> Result<Boxed<CoreStmt>, AllocError>
    ensures { IfOk result (λ made. plain_does made
        ≡ statements.optional sight.now.objects.now (option_map plain_typed e.now)) }
{
    match e {
        None => nothing(sight.alloc),
        Some(e) => dropped(sight, e),
    }
}

/// An expression as a whole statement.
#[tactic(auto, using(sc_tree::proofs::ViewTypedLaws::typed_expression_views, crate::proofs::Wholes::wholes))]
pub fn whole(sight: &Sight<'_>, e: &TypedExpr) -> Result<Boxed<CoreStmt>, AllocError>
    ensures { IfOk result (λ made. plain_does made ≡ statements.whole sight.now.objects.now (plain_typed e.now)) }
{
    match &e.kind {
        TypedKind::Assign { op, left, right } => {
            assignment(sight, e, *op, left.get(), right.get())
        }
        TypedKind::Printf { format, args } => printing(sight, *format, args.as_slice(), e.line),
        TypedKind::Sync => act_alone(sight.alloc, Action::Sync, e.line),
        TypedKind::Barrier => act_alone(sight.alloc, Action::Barrier, e.line),
        TypedKind::AllStoreSync => act_alone(sight.alloc, Action::AllStoreSync, e.line),
        TypedKind::BulkRead { to, from, bytes } => {
            copying(
                sight,
                CopyMode::Blocking,
                to.get(),
                from.get(),
                bytes.get(),
                e.line,
            )
        }
        TypedKind::BulkWrite { to, from, bytes } => {
            copying(
                sight,
                CopyMode::Blocking,
                to.get(),
                from.get(),
                bytes.get(),
                e.line,
            )
        }
        TypedKind::BulkGet { to, from, bytes } => {
            copying(
                sight,
                CopyMode::Split,
                to.get(),
                from.get(),
                bytes.get(),
                e.line,
            )
        }
        TypedKind::BulkPut { to, from, bytes } => {
            copying(
                sight,
                CopyMode::Split,
                to.get(),
                from.get(),
                bytes.get(),
                e.line,
            )
        }
        TypedKind::BulkStore { to, from, bytes } => {
            copying(
                sight,
                CopyMode::OneWay,
                to.get(),
                from.get(),
                bytes.get(),
                e.line,
            )
        }
        _ => dropped(sight, e),
    }
}

/// An assignment as a whole statement.
#[tactic(auto, using(sc_tree::proofs::ViewTypedLaws::typed_expression_views, crate::proofs::Wholes::wholes))]
fn assignment(
    sight: &Sight<'_>,
    e: &TypedExpr,
    op: Option<Binary>,
    left: &TypedExpr,
    right: &TypedExpr,
) -> Result<Boxed<CoreStmt>, AllocError>
    requires { plain_typed_kind e.now.kind ≡ tree.assign op (plain_typed left.now) (plain_typed right.now) }
    ensures { IfOk result (λ made. plain_does made ≡ statements.whole sight.now.objects.now (plain_typed e.now)) }
{
    match op {
        None => assigning(sight, left, right, e.line),
        Some(_) => dropped(sight, e),
    }
}

/// A plain assignment as a whole statement.
fn assigning(
    sight: &Sight<'_>,
    left: &TypedExpr,
    right: &TypedExpr,
    line: u32,
) -> Result<Boxed<CoreStmt>, AllocError>
    ensures { IfOk result (λ made. plain_does made ≡ set_whole sight.now.objects.now
        (plain_typed left.now) (plain_typed right.now) line) }
{
    let place = sight.found(left)?;
    let right = sight.found(right)?;
    let made = assigned_whole(sight.alloc, place, right, line)?;
    Ok(made)
}

#[tactic(auto, using(core_expr::proofs::Equations::arguments))]
fn printing(
    sight: &Sight<'_>,
    format: u32,
    args: &[TypedExpr],
    line: u32,
) -> Result<Boxed<CoreStmt>, AllocError>
    ensures { IfOk result (λ made. plain_does made ≡ core_tree.act
        (acts.Print format (expressions.count_of (typed_expressions_of (map plain_typed args.now))))
        (expressions.values_of sight.now.objects.now (typed_expressions_of (map plain_typed args.now))) line) }
{
    let count = narrowed(args.len())?;
    let values = sight.values(args)?;
    let action = Action::Print {
        text: format,
        count,
    };
    let made = act(sight.alloc, action, values, line)?;
    Ok(made)
}

/// An argument of a bulk transfer.
fn transferred(sight: &Sight<'_>, e: &TypedExpr) -> Result<CoreExpr, AllocError>
    ensures { IfOk result (λ made. plain_core made
        ≡ statements.transferred sight.now.objects.now (plain_typed e.now)) }
{
    let pointer = sight.value(e)?;
    let made = reaching(sight.alloc, is_own(star_of(e)), pointer, line_of(e))?;
    Ok(made)
}

fn copying(
    sight: &Sight<'_>,
    mode: CopyMode,
    to: &TypedExpr,
    from: &TypedExpr,
    bytes: &TypedExpr,
    line: u32,
) -> Result<Boxed<CoreStmt>, AllocError>
    ensures { IfOk result (λ made. plain_does made ≡ statements.copying sight.now.objects.now mode
        (plain_typed to.now) (plain_typed from.now) (plain_typed bytes.now) line) }
{
    let to = transferred(sight, to)?;
    let from = transferred(sight, from)?;
    let bytes = sight.value(bytes)?;
    let made = act_on_three(sight.alloc, Action::Copy(mode), to, from, bytes, line)?;
    Ok(made)
}

/// The declared local begins.
#[tactic(auto, using(core_expr::proofs::Equations::equations))]
fn begun(sight: &Sight<'_>, number: u32, local: &TypedLocal) -> Result<Boxed<CoreStmt>, AllocError>
    ensures { IfOk result (λ made. plain_does made ≡ statements.begun sight.now.objects.now number
        (typed_declared local.now).ty (typed_declared local.now).init (typed_declared local.now).line) }
{
    match &local.init {
        None => {
            let action = Action::Clear {
                local: number,
                pointer: has_star(&local.ty),
            };
            act_alone(sight.alloc, action, local.line)
        }
        Some(e) => {
            let init = sight.found(e)?;
            local_begun(sight.alloc, number, init, local.line)
        }
    }
}

/// The declared locals begin one after another, behind so many parameters and these others, to which their types
/// are added.
#[tactic(auto, using(std::proofs::lemmas::Grind::common_steps, crate::proofs::Numbered::numbered), unfolding(crate::specs::ListedStatements::begun_in))]
pub fn locals_begun(
    sight: &Sight<'_>,
    params: usize,
    others: &mut Vec<Ty>,
    locals: &[TypedLocal],
) -> Result<Boxed<CoreStmt>, AllocError>
    ensures does { IfOk result (λ made. plain_does made ≡ statements.declared sight.now.objects.now
        (params + length others.old.items) (map typed_declared locals.now)) }
    ensures types { IfOk result (λ _. others.new.items
        ≡ others.old.items ++ map (λ l. l.ty) (map typed_declared locals.now)) }
{
    let mut all = Vec::new(sight.alloc);
    for local in locals {
        let number = next_local(params, others)?;
        let begins = begun(sight, number, local)?;
        push_statement(&mut all, begins)?;
        let ty = copy_of_type(sight.alloc, &local.ty)?;
        others.push(ty)?;
    }
    let made = block(sight.alloc, all)?;
    Ok(made)
}

/// `left := right`, or `left :- right` where it is one-way.
#[tactic(auto, using(core_expr::proofs::Equations::equations))]
pub fn splitting(
    sight: &Sight<'_>,
    left: &TypedExpr,
    right: &TypedExpr,
    one_way: bool,
    line: u32,
) -> Result<Boxed<CoreStmt>, AllocError>
    ensures { IfOk result (λ made. plain_does made ≡ statements.splitting sight.now.objects.now
        (expressions.found sight.now.objects.now (plain_typed left.now)) (plain_typed right.now) one_way line) }
{
    let place = sight.found(left)?;
    match place {
        Found::Local { number, .. } => get_of(sight, number, right, line),
        Found::Cell {
            pointer,
            own,
            line: at,
        } => {
            if own {
                return split_copy(sight, pointer, at, right, line);
            }
            let value = sight.value(right)?;
            act_on_two(sight.alloc, put_or_send(one_way), pointer, value, line)
        }
        Found::Value(_) => nothing(sight.alloc),
    }
}

fn get_of(
    sight: &Sight<'_>,
    number: u32,
    right: &TypedExpr,
    line: u32,
) -> Result<Boxed<CoreStmt>, AllocError>
    ensures { IfOk result (λ made. plain_does made ≡ statements.act_on (acts.Get number)
        (statements.placed (expressions.found sight.now.objects.now (plain_typed right.now))) line) }
{
    let what = sight.found(right)?;
    let place = placed(sight.alloc, what)?;
    let made = act_on(sight.alloc, Action::Get(number), place, line)?;
    Ok(made)
}

/// A copy of one cell to the executing node's own cell behind the pointer.
fn split_copy(
    sight: &Sight<'_>,
    pointer: CoreExpr,
    at: u32,
    right: &TypedExpr,
    line: u32,
) -> Result<Boxed<CoreStmt>, AllocError>
    ensures { IfOk result (λ made. plain_does made ≡ statements.splitting sight.now.objects.now
        (places.cell (plain_core pointer) true at) (plain_typed right.now) false line) }
{
    let what = sight.found(right)?;
    let from = placed(sight.alloc, what)?;
    let to = reaching(sight.alloc, true, pointer, at)?;
    let eight = constant(sight.alloc, Constant::Number(8));
    let made = act_on_three(
        sight.alloc,
        Action::Copy(CopyMode::Split),
        to,
        from,
        eight,
        line,
    )?;
    Ok(made)
}
