//! The core of typed statements.

ghost use Rattle.std.specs.Prelude.{◌≡◌, ◌+◌, ◌++◌, IfOk, Some, None, map, length};
ghost use Rattle.std.specs.Option.{option_map};
ghost use Rattle.sc_tree.specs.ViewTyped.{plain_typed};
ghost use Rattle.sc_tree.specs.ViewTypedStmt.{plain_typed_stmt, plain_typed_arm, typed_statements_of, typed_arms_of};
ghost use Rattle.sc_core.specs.Core as core_tree;
ghost use Rattle.sc_core.specs.Expressions.{value_of};
ghost use Rattle.core_lower.specs.ListedStatements.{arms_in};
ghost use Rattle.sc_core.specs.Lowering as lowering;
ghost use Rattle.sc_core.specs.Lowering.{types_in, types_of, types_of_arms, does_of, all_of};
ghost use Rattle.sc_core.specs.Statements as statements;
ghost use Rattle.sc_core.specs.View.{plain_core};
ghost use Rattle.sc_core.specs.ViewParts.{plain_core_arm};
ghost use Rattle.sc_core.specs.ViewStatements.{plain_does, chosen};

use crate::acts::{
    block, choose, in_turn, leave_unless, loop_of, nothing, push_arm, push_statement, return_of,
};
use crate::declarations::{locals_begun, optional, set_and_dropped, splitting, whole, zero_of};
use core_expr::Sight;
use core_expr::places::is_pointer;
use core_expr::reading::star_of;
use core_expr::steps::{constant, used, with_two};
use sc_base::{Binary, Ty};
use sc_core::{Constant, CoreArm, CoreExpr, CoreStmt, Operation};
use sc_tree::{Named, TypedArm, TypedExpr, TypedStmt};
use sqlite_items::Boxed;
use std::alloc::{AllocError, Global};

/// What the lowering of a statement sees: what that of an expression does, how many parameters the function has,
/// and the type of its result.
#[derive(Clone, Copy)]
pub struct Body<'a> {
    pub sight: Sight<'a>,
    pub params: usize,
    pub result: &'a Ty,
}

/// The first assignment of a `for_my_1d`.
fn mine_first(alloc: Global, local: u32, line: u32) -> Result<Boxed<CoreStmt>, AllocError>
    ensures { IfOk result (λ made. plain_does made ≡ statements.mine_first local line) }
{
    let mine = constant(alloc, Constant::Mine);
    let made = set_and_dropped(alloc, local, mine, line)?;
    Ok(made)
}

/// The test of a `for_my_1d`.
fn mine_test(
    alloc: Global,
    local: u32,
    bound: CoreExpr,
    line: u32,
) -> Result<Boxed<CoreStmt>, AllocError>
    ensures { IfOk result (λ made. plain_does made ≡ statements.mine_test local (plain_core bound) line) }
{
    let value = used(alloc, local, line);
    let test = with_two(alloc, Operation::Binary(Binary::Lt), value, bound, line)?;
    let made = leave_unless(alloc, false, test)?;
    Ok(made)
}

/// What a `for_my_1d` does behind each turn.
fn mine_next(alloc: Global, local: u32, line: u32) -> Result<Boxed<CoreStmt>, AllocError>
    ensures { IfOk result (λ made. plain_does made ≡ statements.mine_next local line) }
{
    let value = used(alloc, local, line);
    let procs = constant(alloc, Constant::Procs);
    let sum = with_two(alloc, Operation::Binary(Binary::Add), value, procs, line)?;
    let made = set_and_dropped(alloc, local, sum, line)?;
    Ok(made)
}

/// `for_my_1d` over the local.
fn mine_of(
    alloc: Global,
    local: u32,
    bound: CoreExpr,
    body: Boxed<CoreStmt>,
    line: u32,
) -> Result<Boxed<CoreStmt>, AllocError>
    ensures { IfOk result (λ made. plain_does made ≡ statements.in_turn (statements.mine_first local line)
        (core_tree.loop (Some local) (statements.mine_test local (plain_core bound) line) (plain_does body)
        (statements.mine_next local line))) }
{
    let first = mine_first(alloc, local, line)?;
    let test = mine_test(alloc, local, bound, line)?;
    let next = mine_next(alloc, local, line)?;
    let all = loop_of(alloc, Some(local), test, body, next)?;
    let made = in_turn(alloc, first, all)?;
    Ok(made)
}

/// `for_my_1d`, whose name is a local's in a typed source.
fn mine_named(
    alloc: Global,
    name: Named,
    bound: CoreExpr,
    body: Boxed<CoreStmt>,
    line: u32,
) -> Result<Boxed<CoreStmt>, AllocError>
    ensures { IfOk result (λ made. plain_does made
        ≡ statements.mine_loop name (plain_core bound) (plain_does body) line) }
{
    match name {
        Named::Local(local) => mine_of(alloc, local, bound, body, line),
        Named::Object(_) => nothing(alloc),
        Named::Function(_) => nothing(alloc),
    }
}

/// `if` without a last `else`.
fn chosen_alone(alloc: Global, arms: Vec<CoreArm>) -> Result<Boxed<CoreStmt>, AllocError>
    ensures { IfOk result (λ made. plain_does made ≡ chosen (map plain_core_arm arms.items) core_tree.nothing) }
{
    let rest = nothing(alloc)?;
    let made = choose(alloc, arms, rest)?;
    Ok(made)
}

/// Leaves the loop where the test is false.
fn tested(sight: &Sight<'_>, e: &TypedExpr) -> Result<Boxed<CoreStmt>, AllocError>
    ensures { IfOk result (λ made. plain_does made ≡ statements.tested sight.now.objects.now (plain_typed e.now)) }
{
    let test = sight.value(e)?;
    let made = leave_unless(sight.alloc, is_pointer(star_of(e)), test)?;
    Ok(made)
}

fn tested_if(sight: &Sight<'_>, e: &Option<TypedExpr>) -> Result<Boxed<CoreStmt>, AllocError>
    ensures { IfOk result (λ made. plain_does made
        ≡ statements.tested_if sight.now.objects.now (option_map plain_typed e.now)) }
{
    match e {
        None => nothing(sight.alloc),
        Some(e) => tested(sight, e),
    }
}

impl Body<'_> {
    /// What `return` gives.
    fn returned(&self, value: &Option<TypedExpr>, line: u32) -> Result<Boxed<CoreStmt>, AllocError>
        ensures { IfOk result (λ made. plain_does made ≡ lowering.returned self.now.sight.objects.now
            self.now.result.now (option_map plain_typed value.now) line) }
    {
        let alloc = self.sight.alloc;
        match value {
            None => return_of(alloc, constant(alloc, zero_of(self.result)), line),
            Some(e) => {
                let value = self.sight.value(e)?;
                return_of(alloc, value, line)
            }
        }
    }

    /// A statement, behind the function's parameters and these other locals, to which the types of those that it
    /// declares are added.
    #[cycle(statement)]
    #[tactic(auto, using(sc_tree::proofs::ViewTypedStmtLaws::typed_statement_views, sc_core::proofs::ViewCoreStmtLaws::core_statement_views, crate::proofs::Numbered::numbered, std::proofs::lemmas::Grind::common_steps), unfolding(sc_core::specs::Lowering::does_of))]
    fn statement(
        &self,
        others: &mut Vec<Ty>,
        stmt: &TypedStmt,
    ) -> Result<Boxed<CoreStmt>, AllocError>
        ensures does { IfOk result (λ made. plain_does made ≡ does_of self.now.sight.objects.now self.now.result.now
            (self.now.params + length others.old.items) (plain_typed_stmt stmt.now)) }
        ensures types { IfOk result (λ _. others.new.items
            ≡ others.old.items ++ types_in (plain_typed_stmt stmt.now)) }
    {
        match stmt {
            TypedStmt::Block(all) => self.block(others, all.as_slice()),
            TypedStmt::Empty => nothing(self.sight.alloc),
            TypedStmt::Declare { locals } => {
                locals_begun(&self.sight, self.params, others, locals.as_slice())
            }
            TypedStmt::Simple(e) => whole(&self.sight, e),
            TypedStmt::Split {
                left,
                right,
                oneway,
                line,
                ..
            } => splitting(&self.sight, left, right, *oneway, *line),
            TypedStmt::If { arms, rest } => {
                let arms = self.arms(others, arms.as_slice())?;
                match rest {
                    Some(otherwise) => self.otherwise(others, otherwise.get(), arms),
                    None => chosen_alone(self.sight.alloc, arms),
                }
            }
            TypedStmt::While { test, body } => self.while_loop(others, body.get(), test),
            TypedStmt::DoWhile { body, test } => self.do_loop(others, body.get(), test),
            TypedStmt::For {
                first,
                test,
                next,
                body,
            } => self.for_loop(others, body.get(), first, test, next),
            TypedStmt::ForMine {
                name,
                bound,
                body,
                line,
                ..
            } => self.mine_loop(others, body.get(), *name, bound, *line),
            TypedStmt::Return { value, line, .. } => self.returned(value, *line),
            TypedStmt::Break { .. } => {
                let made = Boxed::new(self.sight.alloc, CoreStmt::Break)?;
                Ok(made)
            }
            TypedStmt::Continue { .. } => {
                let made = Boxed::new(self.sight.alloc, CoreStmt::Continue)?;
                Ok(made)
            }
        }
    }

    /// Statements one after another.
    #[cycle(statement)]
    #[tactic(auto, using(crate::proofs::Numbered::numbered, std::proofs::lemmas::Grind::common_steps), unfolding(crate::specs::ListedStatements::does_in))]
    pub fn block(
        &self,
        others: &mut Vec<Ty>,
        all: &[TypedStmt],
    ) -> Result<Boxed<CoreStmt>, AllocError>
        ensures does { IfOk result (λ made. plain_does made ≡ all_of self.now.sight.objects.now self.now.result.now
            (self.now.params + length others.old.items) (typed_statements_of (map plain_typed_stmt all.now))) }
        ensures types { IfOk result (λ _. others.new.items
            ≡ others.old.items ++ types_of (typed_statements_of (map plain_typed_stmt all.now))) }
    {
        let mut made = Vec::new(self.sight.alloc);
        for stmt in all {
            let one = self.statement(others, stmt)?;
            push_statement(&mut made, one)?;
        }
        let joined = block(self.sight.alloc, made)?;
        Ok(joined)
    }

    /// The arms of an `if`.
    #[cycle(statement)]
    #[tactic(auto, using(crate::proofs::Numbered::numbered, std::proofs::lemmas::Grind::common_steps, sc_tree::proofs::ViewTypedStmtLaws::typed_statement_views), unfolding(crate::specs::ListedStatements::arms_in))]
    fn arms(&self, others: &mut Vec<Ty>, all: &[TypedArm]) -> Result<Vec<CoreArm>, AllocError>
        ensures does { IfOk result (λ made. map plain_core_arm made.items ≡ arms_in self.now.sight.objects.now
            self.now.result.now self.now.params others.old.items (typed_arms_of (map plain_typed_arm all.now))) }
        ensures types { IfOk result (λ _. others.new.items
            ≡ others.old.items ++ types_of_arms (typed_arms_of (map plain_typed_arm all.now))) }
    {
        let mut made = Vec::new(self.sight.alloc);
        for arm in all {
            let test = self.sight.value(&arm.test)?;
            let body = self.statement(others, &arm.body)?;
            push_arm(&mut made, is_pointer(star_of(&arm.test)), test, body)?;
        }
        Ok(made)
    }

    /// What is done where none of these arms is taken, and the arms before it.
    #[cycle(statement)]
    fn otherwise(
        &self,
        others: &mut Vec<Ty>,
        otherwise: &TypedStmt,
        arms: Vec<CoreArm>,
    ) -> Result<Boxed<CoreStmt>, AllocError>
        ensures does { IfOk result (λ made. plain_does made ≡ chosen (map plain_core_arm arms.items)
            (does_of self.now.sight.objects.now self.now.result.now
            (self.now.params + length others.old.items) (plain_typed_stmt otherwise.now))) }
        ensures types { IfOk result (λ _. others.new.items
            ≡ others.old.items ++ types_in (plain_typed_stmt otherwise.now)) }
    {
        let rest = self.statement(others, otherwise)?;
        let made = choose(self.sight.alloc, arms, rest)?;
        Ok(made)
    }

    #[cycle(statement)]
    fn while_loop(
        &self,
        others: &mut Vec<Ty>,
        body: &TypedStmt,
        test: &TypedExpr,
    ) -> Result<Boxed<CoreStmt>, AllocError>
        ensures does { IfOk result (λ made. plain_does made ≡ core_tree.loop None
            (statements.tested self.now.sight.objects.now (plain_typed test.now))
            (does_of self.now.sight.objects.now self.now.result.now
            (self.now.params + length others.old.items) (plain_typed_stmt body.now)) core_tree.nothing) }
        ensures types { IfOk result (λ _. others.new.items
            ≡ others.old.items ++ types_in (plain_typed_stmt body.now)) }
    {
        let before = tested(&self.sight, test)?;
        let turn = self.statement(others, body)?;
        let after = nothing(self.sight.alloc)?;
        let made = loop_of(self.sight.alloc, None, before, turn, after)?;
        Ok(made)
    }

    #[cycle(statement)]
    fn do_loop(
        &self,
        others: &mut Vec<Ty>,
        body: &TypedStmt,
        test: &TypedExpr,
    ) -> Result<Boxed<CoreStmt>, AllocError>
        ensures does { IfOk result (λ made. plain_does made ≡ core_tree.loop None core_tree.nothing
            (does_of self.now.sight.objects.now self.now.result.now
            (self.now.params + length others.old.items) (plain_typed_stmt body.now))
            (statements.tested self.now.sight.objects.now (plain_typed test.now))) }
        ensures types { IfOk result (λ _. others.new.items
            ≡ others.old.items ++ types_in (plain_typed_stmt body.now)) }
    {
        let turn = self.statement(others, body)?;
        let after = tested(&self.sight, test)?;
        let before = nothing(self.sight.alloc)?;
        let made = loop_of(self.sight.alloc, None, before, turn, after)?;
        Ok(made)
    }

    #[cycle(statement)]
    fn for_loop(
        &self,
        others: &mut Vec<Ty>,
        body: &TypedStmt,
        first: &Option<TypedExpr>,
        test: &Option<TypedExpr>,
        next: &Option<TypedExpr>,
    ) -> Result<Boxed<CoreStmt>, AllocError>
        ensures does { IfOk result (λ made. plain_does made ≡ statements.in_turn
            (statements.optional self.now.sight.objects.now (option_map plain_typed first.now))
            (core_tree.loop None
            (statements.tested_if self.now.sight.objects.now (option_map plain_typed test.now))
            (does_of self.now.sight.objects.now self.now.result.now
            (self.now.params + length others.old.items) (plain_typed_stmt body.now))
            (statements.optional self.now.sight.objects.now (option_map plain_typed next.now)))) }
        ensures types { IfOk result (λ _. others.new.items
            ≡ others.old.items ++ types_in (plain_typed_stmt body.now)) }
    {
        let first = optional(&self.sight, first)?;
        let before = tested_if(&self.sight, test)?;
        let turn = self.statement(others, body)?;
        let after = optional(&self.sight, next)?;
        let all = loop_of(self.sight.alloc, None, before, turn, after)?;
        let made = in_turn(self.sight.alloc, first, all)?;
        Ok(made)
    }

    #[cycle(statement)]
    fn mine_loop(
        &self,
        others: &mut Vec<Ty>,
        body: &TypedStmt,
        name: Named,
        bound: &TypedExpr,
        line: u32,
    ) -> Result<Boxed<CoreStmt>, AllocError>
        ensures does { IfOk result (λ made. plain_does made ≡ statements.mine_loop name
            (value_of self.now.sight.objects.now (plain_typed bound.now))
            (does_of self.now.sight.objects.now self.now.result.now
            (self.now.params + length others.old.items) (plain_typed_stmt body.now)) line) }
        ensures types { IfOk result (λ _. others.new.items
            ≡ others.old.items ++ types_in (plain_typed_stmt body.now)) }
    {
        let bound = self.sight.value(bound)?;
        let turn = self.statement(others, body)?;
        let made = mine_named(self.sight.alloc, name, bound, turn, line)?;
        Ok(made)
    }
}
