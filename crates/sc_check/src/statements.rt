//! Statements with types, and notes of what is broken in them.

ghost use Rattle.std.specs.Prelude.{◌≡◌, ◌++◌, ◌∷◌, [], true, map, IfOk};
ghost use Rattle.std.specs.Option.{option_map};
ghost use Rattle.sc_typing.proofs.StatementNotes as notes_of;
ghost use Rattle.sc_typing.specs.Statements as typed;
ghost use Rattle.sc_tree.specs.PlainStmt as form;
ghost use Rattle.sc_tree.specs.PlainTypedStmt as typed_form;
ghost use Rattle.sc_tree.specs.View.{plain};
ghost use Rattle.sc_tree.specs.ViewStmt.{plain_stmt, plain_arm, arms_of};
ghost use Rattle.sc_tree.specs.ViewTree.{plain_block};
ghost use Rattle.sc_tree.specs.ViewTyped.{plain_typed};
ghost use Rattle.sc_tree.specs.ViewTypedStmt.{plain_typed_stmt, plain_typed_arm, typed_arms_of};
ghost use Rattle.sc_typing.specs.ViewSource.{source_of};
ghost use Rattle.sc_check.specs.ViewStatements.{within_of};

use crate::values::unboxed;
use sc_base::Ty;
use sc_tree::{Arm, Expr, Stmt, TypedArm, TypedExpr, TypedStmt};
use sc_typing::file::File;
use sc_typing::notes::Notes;
use sc_typing::scope::Scope;
use sqlite_items::{Boxed, Items};
use std::alloc::{AllocError, Global};

/// What the statements of a function see: the file, and the function's result.
#[derive(Clone, Copy)]
pub struct Body<'a> {
    pub alloc: Global,
    pub file: File<'a>,
    pub result: &'a Ty,
}

#[tactic(auto, using(sc_tree::proofs::ViewTypedStmtLaws::typed_statement_views))]
fn push_arm(
    arms: &mut Vec<TypedArm>,
    test: Boxed<TypedExpr>,
    body: Boxed<TypedStmt>,
) -> Result<(), AllocError>
    ensures { IfOk result (λ _. map plain_typed_arm arms.new.items
        ≡ map plain_typed_arm arms.old.items ++ typed_form.arm (plain_typed test) (plain_typed_stmt body) ∷ []) }
{
    arms.push(TypedArm {
        test: test.into_inner(),
        body: body.into_inner(),
    })?;
    Ok(())
}

fn push_statement(made: &mut Vec<TypedStmt>, one: Boxed<TypedStmt>) -> Result<(), AllocError>
    ensures { IfOk result (λ _. map plain_typed_stmt made.new.items
        ≡ map plain_typed_stmt made.old.items ++ plain_typed_stmt one ∷ []) }
{
    made.push(one.into_inner())?;
    Ok(())
}

#[tactic(auto, using(sc_tree::proofs::ViewTypedStmtLaws::typed_statement_views))]
fn for_of(
    alloc: Global,
    first: Option<Boxed<TypedExpr>>,
    test: Option<Boxed<TypedExpr>>,
    next: Option<Boxed<TypedExpr>>,
    body: Boxed<TypedStmt>,
) -> Result<Boxed<TypedStmt>, AllocError>
    ensures { IfOk result (λ made. plain_typed_stmt made
        ≡ typed_form.for_ (option_map plain_typed first) (option_map plain_typed test) (option_map plain_typed next)
        (plain_typed_stmt body)) }
{
    let made = TypedStmt::For {
        first: unboxed(first),
        test: unboxed(test),
        next: unboxed(next),
        body,
    };
    let made = Boxed::new(alloc, made)?;
    Ok(made)
}

#[tactic(auto, using(sc_tree::proofs::ViewTypedStmtLaws::typed_statement_views))]
fn choose_else_of(
    alloc: Global,
    arms: Vec<TypedArm>,
    rest: Boxed<TypedStmt>,
) -> Result<Boxed<TypedStmt>, AllocError>
    ensures { IfOk result (λ made. plain_typed_stmt made
        ≡ typed_form.choose_else (typed_arms_of (map plain_typed_arm arms.items)) (plain_typed_stmt rest)) }
{
    let made = TypedStmt::If {
        arms: Items::from_vec(arms),
        rest: Some(rest),
    };
    let made = Boxed::new(alloc, made)?;
    Ok(made)
}

impl Body<'_> {
    /// The statement. `looped` says whether a loop is around it, and `from` how many locals were in scope where its
    /// block began.
    #[tactic(auto, using(sc_tree::proofs::ViewStmtLaws::statement_views, sc_tree::proofs::ViewTypedStmtLaws::typed_statement_views))]
    #[cycle(statement)]
    pub fn statement(
        &self,
        scope: &mut Scope,
        notes: &mut Notes,
        looped: bool,
        from: usize,
        statement: &Stmt,
    ) -> Result<Boxed<TypedStmt>, AllocError>
        ensures typed { IfOk result (λ made. plain_typed_stmt made
            ≡ typed.typed_statement (within_of self.now) scope.old (plain_stmt statement.now)) }
        ensures scope { IfOk result (λ _. scope.new ≡ typed.after scope.old (plain_stmt statement.now)) }
        ensures notes { IfOk result (λ _. notes.new
            ≡ notes_of.note_statement (within_of self.now) looped from scope.old (plain_stmt statement.now) notes.old) }
    {
        let made = match statement {
            Stmt::Block(all) => self.block(scope, notes, looped, all.as_slice())?,
            Stmt::Empty => Boxed::new(self.alloc, TypedStmt::Empty)?,
            Stmt::Declare { locals } => self.declare(scope, notes, from, locals.as_slice())?,
            Stmt::Simple(e) => self.simple(scope, notes, e)?,
            Stmt::Split {
                left,
                right,
                oneway,
                at,
                line,
            } => self.split(scope, notes, left, right, *oneway, *at, *line)?,
            Stmt::If { arms, rest } => match rest {
                None => self.choose(scope, notes, looped, from, arms.as_slice())?,
                Some(rest) => {
                    let arms = self.arms(scope, notes, looped, from, arms.as_slice())?;
                    let rest = self.statement(scope, notes, looped, from, rest.get())?;
                    choose_else_of(self.alloc, arms, rest)?
                }
            },
            Stmt::While { test, body } => self.while_loop(scope, notes, from, body.get(), test)?,
            Stmt::DoWhile { body, test } => self.do_loop(scope, notes, from, body.get(), test)?,
            Stmt::For {
                first,
                test,
                next,
                body,
            } => self.for_loop(scope, notes, from, body.get(), first, test, next)?,
            Stmt::ForMine {
                name,
                bound,
                body,
                at,
                line,
            } => self.for_mine_loop(scope, notes, from, body.get(), *name, bound, *at, *line)?,
            Stmt::Return { value, at, line } => self.return_statement(
                scope, notes, value, *at, *line,
            )?,
            Stmt::Break { at } => self.break_statement(notes, looped, *at)?,
            Stmt::Continue { at } => self.continue_statement(notes, looped, *at)?,
        };
        Ok(made)
    }

    /// The statements of a block or body, which began where so many locals were in scope.
    #[cycle(statement)]
    pub fn sequence(
        &self,
        scope: &mut Scope,
        notes: &mut Notes,
        looped: bool,
        from: usize,
        all: &[Stmt],
    ) -> Result<Vec<TypedStmt>, AllocError>
        ensures typed { IfOk result (λ made. map plain_typed_stmt made.items
            ≡ typed.typed_all (within_of self.now) scope.old (plain_block all.now)) }
        ensures scope { IfOk result (λ _. scope.new ≡ typed.after_all scope.old (plain_block all.now)) }
        ensures notes { IfOk result (λ _. notes.new
            ≡ notes_of.note_all (within_of self.now) looped from scope.old (plain_block all.now) notes.old) }
    {
        let mut made = Vec::new(self.alloc);
        for s in all {
            let one = self.statement(scope, notes, looped, from, s)?;
            push_statement(&mut made, one)?;
        }
        Ok(made)
    }

    /// A block, whose locals leave the scope at its end.
    #[tactic(auto, using(sc_tree::proofs::ViewTypedStmtLaws::typed_statement_views))]
    #[cycle(statement)]
    fn block(
        &self,
        scope: &mut Scope,
        notes: &mut Notes,
        looped: bool,
        all: &[Stmt],
    ) -> Result<Boxed<TypedStmt>, AllocError>
        ensures typed { IfOk result (λ made. plain_typed_stmt made
            ≡ typed.typed_statement (within_of self.now) scope.old (form.block (plain_block all.now))) }
        ensures scope { IfOk result (λ _. scope.new ≡ typed.after scope.old (form.block (plain_block all.now))) }
        ensures notes { IfOk result (λ _. notes.new
            ≡ notes_of.note_statement (within_of self.now) looped 0 scope.old
            (form.block (plain_block all.now)) notes.old) }
    {
        let depth = scope.depth();
        let all = self.sequence(scope, notes, looped, depth, all)?;
        scope.leave(depth);
        let made = Boxed::new(self.alloc, TypedStmt::Block(Items::from_vec(all)))?;
        Ok(made)
    }

    /// The tests of an `if` with what each guards.
    #[tactic(auto, using(sc_tree::proofs::ViewStmtLaws::statement_views))]
    #[cycle(statement)]
    fn arms(
        &self,
        scope: &mut Scope,
        notes: &mut Notes,
        looped: bool,
        from: usize,
        all: &[Arm],
    ) -> Result<Vec<TypedArm>, AllocError>
        ensures typed { IfOk result (λ made. map plain_typed_arm made.items
            ≡ typed.typed_arms (within_of self.now) scope.old (arms_of (map plain_arm all.now))) }
        ensures scope { IfOk result (λ _. scope.new ≡ typed.after_arms scope.old (arms_of (map plain_arm all.now))) }
        ensures notes { IfOk result (λ _. notes.new
            ≡ notes_of.note_arms (within_of self.now) looped from scope.old
            (arms_of (map plain_arm all.now)) notes.old) }
    {
        let mut made = Vec::new(self.alloc);
        for a in all {
            self.one_arm(scope, notes, looped, from, &a.body, &a.test, &mut made)?;
        }
        Ok(made)
    }

    /// One more of them.
    #[cycle(statement)]
    fn one_arm(
        &self,
        scope: &mut Scope,
        notes: &mut Notes,
        looped: bool,
        from: usize,
        body: &Stmt,
        test: &Expr,
        arms: &mut Vec<TypedArm>,
    ) -> Result<(), AllocError>
        ensures typed { IfOk result (λ _. map plain_typed_arm arms.new.items
            ≡ map plain_typed_arm arms.old.items ++ typed_form.arm
            (typed.typed_value (source_of self.now.file) scope.old (plain test.now))
            (typed.typed_statement (within_of self.now) scope.old (plain_stmt body.now)) ∷ []) }
        ensures scope { IfOk result (λ _. scope.new ≡ typed.after scope.old (plain_stmt body.now)) }
        ensures notes { IfOk result (λ _. notes.new
            ≡ notes_of.note_statement (within_of self.now) looped from scope.old (plain_stmt body.now)
            (notes_of.note_test (source_of self.now.file) scope.old (plain test.now) notes.old)) }
    {
        let test = self.test(scope, notes, test)?;
        let body = self.statement(scope, notes, looped, from, body)?;
        push_arm(arms, test, body)?;
        Ok(())
    }

    /// `if` without a last `else`.
    #[tactic(auto, using(sc_tree::proofs::ViewTypedStmtLaws::typed_statement_views))]
    #[cycle(statement)]
    fn choose(
        &self,
        scope: &mut Scope,
        notes: &mut Notes,
        looped: bool,
        from: usize,
        all: &[Arm],
    ) -> Result<Boxed<TypedStmt>, AllocError>
        ensures typed { IfOk result (λ made. plain_typed_stmt made
            ≡ typed.typed_statement (within_of self.now) scope.old (form.choose (arms_of (map plain_arm all.now)))) }
        ensures scope { IfOk result (λ _. scope.new
            ≡ typed.after scope.old (form.choose (arms_of (map plain_arm all.now)))) }
        ensures notes { IfOk result (λ _. notes.new
            ≡ notes_of.note_statement (within_of self.now) looped from scope.old
            (form.choose (arms_of (map plain_arm all.now))) notes.old) }
    {
        let arms = self.arms(scope, notes, looped, from, all)?;
        let arms = Items::from_vec(arms);
        let made = Boxed::new(self.alloc, TypedStmt::If { arms, rest: None })?;
        Ok(made)
    }

    /// `while`
    #[tactic(auto, using(sc_tree::proofs::ViewTypedStmtLaws::typed_statement_views))]
    #[cycle(statement)]
    fn while_loop(
        &self,
        scope: &mut Scope,
        notes: &mut Notes,
        from: usize,
        body: &Stmt,
        test: &Expr,
    ) -> Result<Boxed<TypedStmt>, AllocError>
        ensures typed { IfOk result (λ made. plain_typed_stmt made
            ≡ typed.typed_statement (within_of self.now) scope.old
            (form.while_ (plain test.now) (plain_stmt body.now))) }
        ensures scope { IfOk result (λ _. scope.new
            ≡ typed.after scope.old (form.while_ (plain test.now) (plain_stmt body.now))) }
        ensures notes { IfOk result (λ _. notes.new
            ≡ notes_of.note_statement (within_of self.now) true from scope.old
            (form.while_ (plain test.now) (plain_stmt body.now)) notes.old) }
    {
        let test = self.test(scope, notes, test)?;
        let body = self.statement(scope, notes, true, from, body)?;
        let test = test.into_inner();
        let made = Boxed::new(self.alloc, TypedStmt::While { test, body })?;
        Ok(made)
    }

    /// `do` with its `while`
    #[tactic(auto, using(sc_tree::proofs::ViewTypedStmtLaws::typed_statement_views))]
    #[cycle(statement)]
    fn do_loop(
        &self,
        scope: &mut Scope,
        notes: &mut Notes,
        from: usize,
        body: &Stmt,
        test: &Expr,
    ) -> Result<Boxed<TypedStmt>, AllocError>
        ensures typed { IfOk result (λ made. plain_typed_stmt made
            ≡ typed.typed_statement (within_of self.now) scope.old
            (form.do_while (plain_stmt body.now) (plain test.now))) }
        ensures scope { IfOk result (λ _. scope.new
            ≡ typed.after scope.old (form.do_while (plain_stmt body.now) (plain test.now))) }
        ensures notes { IfOk result (λ _. notes.new
            ≡ notes_of.note_statement (within_of self.now) true from scope.old
            (form.do_while (plain_stmt body.now) (plain test.now)) notes.old) }
    {
        let body = self.statement(scope, notes, true, from, body)?;
        let test = self.test(scope, notes, test)?;
        let test = test.into_inner();
        let made = Boxed::new(self.alloc, TypedStmt::DoWhile { body, test })?;
        Ok(made)
    }

    /// `for`
    #[tactic(auto, using(sc_tree::proofs::ViewTypedStmtLaws::typed_statement_views))]
    #[cycle(statement)]
    fn for_loop(
        &self,
        scope: &mut Scope,
        notes: &mut Notes,
        from: usize,
        body: &Stmt,
        first: &Option<Expr>,
        test: &Option<Expr>,
        next: &Option<Expr>,
    ) -> Result<Boxed<TypedStmt>, AllocError>
        ensures typed { IfOk result (λ made. plain_typed_stmt made
            ≡ typed.typed_statement (within_of self.now) scope.old
            (form.for_ (option_map plain first.now) (option_map plain test.now) (option_map plain next.now)
            (plain_stmt body.now))) }
        ensures scope { IfOk result (λ _. scope.new
            ≡ typed.after scope.old
            (form.for_ (option_map plain first.now) (option_map plain test.now) (option_map plain next.now)
            (plain_stmt body.now))) }
        ensures notes { IfOk result (λ _. notes.new
            ≡ notes_of.note_statement (within_of self.now) true from scope.old
            (form.for_ (option_map plain first.now) (option_map plain test.now) (option_map plain next.now)
            (plain_stmt body.now)) notes.old) }
    {
        let first = self.used_if(scope, notes, first)?;
        let test = self.test_if(scope, notes, test)?;
        let next = self.used_if(scope, notes, next)?;
        let body = self.statement(scope, notes, true, from, body)?;
        let made = for_of(self.alloc, first, test, next, body)?;
        Ok(made)
    }

    /// `for_my_1d`
    #[tactic(auto, using(sc_tree::proofs::ViewTypedStmtLaws::typed_statement_views))]
    #[cycle(statement)]
    fn for_mine_loop(
        &self,
        scope: &mut Scope,
        notes: &mut Notes,
        from: usize,
        body: &Stmt,
        local: u32,
        bound: &Expr,
        at: u32,
        line: u32,
    ) -> Result<Boxed<TypedStmt>, AllocError>
        ensures typed { IfOk result (λ made. plain_typed_stmt made
            ≡ typed.typed_statement (within_of self.now) scope.old
            (form.for_mine local (plain bound.now) (plain_stmt body.now) at line)) }
        ensures scope { IfOk result (λ _. scope.new
            ≡ typed.after scope.old (form.for_mine local (plain bound.now) (plain_stmt body.now) at line)) }
        ensures notes { IfOk result (λ _. notes.new
            ≡ notes_of.note_statement (within_of self.now) true from scope.old
            (form.for_mine local (plain bound.now) (plain_stmt body.now) at line) notes.old) }
    {
        let name = self.turns(scope, notes, local, at, line)?;
        let bound = self.bound(scope, notes, bound)?;
        let body = self.statement(scope, notes, true, from, body)?;
        let made = TypedStmt::ForMine {
            name,
            bound: bound.into_inner(),
            body,
            at,
            line,
        };
        let made = Boxed::new(self.alloc, made)?;
        Ok(made)
    }
}
