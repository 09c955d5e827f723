//! Statements that hold no statement, with types and notes of what is broken in them.

ghost use Rattle.std.specs.Prelude.{◌≡◌, false, map, IfOk};
ghost use Rattle.std.specs.Option.{option_copied, option_map};
ghost use Rattle.sc_tree.specs.PlainStmt as form;
ghost use Rattle.sc_tree.specs.PlainTypedStmt as typed_form;
ghost use Rattle.sc_tree.specs.View.{plain};
ghost use Rattle.sc_tree.specs.ViewStmt.{declared};
ghost use Rattle.sc_tree.specs.ViewTyped.{plain_typed};
ghost use Rattle.sc_tree.specs.ViewTypedStmt.{plain_typed_stmt};
ghost use Rattle.sc_typing.specs.Notes.{Noted, unless};
ghost use Rattle.sc_typing.specs.Rules as rules;
ghost use Rattle.sc_typing.specs.Scope.{innermost};
ghost use Rattle.sc_typing.proofs.StatementNotes as notes_of;
ghost use Rattle.sc_typing.specs.Statements as typed;
ghost use Rattle.sc_typing.specs.ViewKnown.{seen_judged};
ghost use Rattle.sc_typing.specs.ViewSource.{source_of};
ghost use Rattle.sc_check.specs.ViewStatements.{within_of};

use crate::statements::Body;
use crate::values::{sent, unboxed};
use sc_judge::names::named;
use sc_operators::noting::{note_one, note_two};
use sc_tree::{Expr, Local, Named, TypedExpr, TypedStmt};
use sc_typing::Rule;
use sc_typing::known::{Judged, Spot};
use sc_typing::notes::Notes;
use sc_typing::rules::{fit, return_kept, split_assignment_kept, store_kept, turns_kept};
use sc_typing::scope::{InScope, Scope};
use sqlite_items::{Boxed, Items};
use std::alloc::{AllocError, Global};

/// The rule on the sides of a split-phase assignment.
#[tactic(auto, unfolding(sc_typing::proofs::StatementNotes::note_split))]
fn note_split(
    notes: &mut Notes,
    oneway: bool,
    left: &Judged,
    right: &Judged,
    at: u32,
) -> Result<(), AllocError>
    ensures { IfOk result (λ _. notes.new
        ≡ notes_of.note_split oneway (seen_judged left.now) (seen_judged right.now) at notes.old) }
{
    if oneway {
        note_two(notes, left, right, store_kept(left, right), at, Rule::Store)?;
    } else {
        note_two(
            notes,
            left,
            right,
            split_assignment_kept(left, right),
            at,
            Rule::SplitAssignment,
        )?;
    }
    Ok(())
}

#[tactic(auto, using(sc_tree::proofs::ViewTypedStmtLaws::typed_statement_views), unfolding(sc_typing::specs::Statements::typed_split))]
fn split_of(
    alloc: Global,
    left: Judged,
    right: Judged,
    oneway: bool,
    at: u32,
    line: u32,
) -> Result<Boxed<TypedStmt>, AllocError>
    ensures { IfOk result (λ made. plain_typed_stmt made
        ≡ typed.typed_split (seen_judged left) (seen_judged right) oneway at line) }
{
    let right = sent(alloc, left.place, &left.known, right)?;
    let left = left.into_expr(alloc)?;
    let made = TypedStmt::Split {
        left: left.into_inner(),
        right: right.into_inner(),
        oneway,
        at,
        line,
    };
    let made = Boxed::new(alloc, made)?;
    Ok(made)
}

fn local_number(local: Option<&InScope>) -> Named
    ensures { result ≡ typed.local_number (option_copied local.entry) }
{
    match local {
        None => Named::Local(0),
        Some(local) => Named::Local(local.number),
    }
}

impl Body<'_> {
    /// The declaration of locals, in a block that began where so many locals were in scope.
    #[tactic(auto, using(sc_tree::proofs::ViewTypedStmtLaws::typed_statement_views))]
    pub fn declare(
        &self,
        scope: &mut Scope,
        notes: &mut Notes,
        from: usize,
        locals: &[Local],
    ) -> Result<Boxed<TypedStmt>, AllocError>
        ensures typed { IfOk result (λ made. plain_typed_stmt made
            ≡ typed.typed_statement (within_of self.now) scope.old (form.declare (map declared locals.now))) }
        ensures scope { IfOk result (λ _. scope.new ≡ typed.after scope.old (form.declare (map declared locals.now))) }
        ensures notes { IfOk result (λ _. notes.new
            ≡ notes_of.note_statement (within_of self.now) false from scope.old
            (form.declare (map declared locals.now)) notes.old) }
    {
        let locals = self.locals(scope, notes, from, locals)?;
        let made = Boxed::new(
            self.alloc,
            TypedStmt::Declare {
                locals: Items::from_vec(locals),
            },
        )?;
        Ok(made)
    }

    /// An expression as a statement.
    #[tactic(auto, using(sc_tree::proofs::ViewTypedStmtLaws::typed_statement_views))]
    pub fn simple(
        &self,
        scope: &Scope,
        notes: &mut Notes,
        expression: &Expr,
    ) -> Result<Boxed<TypedStmt>, AllocError>
        ensures { Noted plain_typed_stmt result
            (typed.typed_statement (within_of self.now) scope.now (form.simple (plain expression.now))) notes.new
            (notes_of.note_statement (within_of self.now) false 0 scope.now (form.simple (plain expression.now)) notes.old) }
    {
        let expression = self.dropped(scope, notes, expression)?;
        let made = Boxed::new(self.alloc, TypedStmt::Simple(expression.into_inner()))?;
        Ok(made)
    }

    /// `left := right`, or `left :- right` where `oneway` is true.
    pub fn split(
        &self,
        scope: &Scope,
        notes: &mut Notes,
        left: &Expr,
        right: &Expr,
        oneway: bool,
        at: u32,
        line: u32,
    ) -> Result<Boxed<TypedStmt>, AllocError>
        ensures { Noted plain_typed_stmt result
            (typed.typed_statement (within_of self.now) scope.now
            (form.split (plain left.now) (plain right.now) oneway at line)) notes.new
            (notes_of.note_statement (within_of self.now) false 0 scope.now
            (form.split (plain left.now) (plain right.now) oneway at line) notes.old) }
    {
        let left = self.judge(scope, notes, left)?;
        let right = self.judge(scope, notes, right)?;
        note_split(notes, oneway, &left, &right, at)?;
        let made = split_of(self.alloc, left, right, oneway, at, line)?;
        Ok(made)
    }

    /// The name of a `for_my_1d`.
    #[tactic(auto, unfolding(sc_typing::proofs::StatementNotes::note_turns))]
    pub fn turns(
        &self,
        scope: &Scope,
        notes: &mut Notes,
        name: u32,
        at: u32,
        line: u32,
    ) -> Result<Named, AllocError>
        ensures number { IfOk result (λ local. local ≡ typed.local_number (innermost name scope.now.locals)) }
        ensures notes { IfOk result (λ _. notes.new
            ≡ notes_of.note_turns (source_of self.now.file) scope.now name at line notes.old) }
    {
        let spot = Spot {
            start: at,
            at,
            line,
        };
        let judged = named(self.alloc, &self.file, scope, notes, 0, name, spot)?;
        notes.demand(turns_kept(&judged), at, Rule::Use)?;
        Ok(local_number(scope.local(name)))
    }

    /// The result that a `return` at the token gives.
    fn result(
        &self,
        scope: &Scope,
        notes: &mut Notes,
        expression: &Option<Expr>,
        at: u32,
    ) -> Result<Option<Boxed<TypedExpr>>, AllocError>
        ensures { Noted (option_map plain_typed) result
            (typed.typed_result (within_of self.now) scope.now (option_map plain expression.now)) notes.new
            (notes_of.note_return (within_of self.now) scope.now (option_map plain expression.now) at notes.old) }
    {
        let Some(expression) = expression else {
            notes.demand(return_kept(self.result, &None), at, Rule::Return)?;
            return Ok(None);
        };
        let judged = self.judge(scope, notes, expression)?;
        let kept = !self.result.void && fit(&judged.known, self.result);
        note_one(notes, &judged, kept, at, Rule::Return)?;
        let made = judged.met(self.alloc, self.result)?;
        Ok(Some(made))
    }

    /// `return`, with a value or without one.
    #[tactic(auto, using(sc_tree::proofs::ViewTypedStmtLaws::typed_statement_views))]
    pub fn return_statement(
        &self,
        scope: &Scope,
        notes: &mut Notes,
        expression: &Option<Expr>,
        at: u32,
        line: u32,
    ) -> Result<Boxed<TypedStmt>, AllocError>
        ensures { Noted plain_typed_stmt result
            (typed.typed_statement (within_of self.now) scope.now (form.return (option_map plain expression.now) at line))
            notes.new (notes_of.note_statement (within_of self.now) false 0 scope.now
            (form.return (option_map plain expression.now) at line) notes.old) }
    {
        let value = self.result(scope, notes, expression, at)?;
        let value = unboxed(value);
        let made = Boxed::new(self.alloc, TypedStmt::Return { value, at, line })?;
        Ok(made)
    }

    /// `break`, in a loop or not.
    #[tactic(auto, using(sc_tree::proofs::ViewTypedStmtLaws::typed_statement_views))]
    pub fn break_statement(
        &self,
        notes: &mut Notes,
        looped: bool,
        at: u32,
    ) -> Result<Boxed<TypedStmt>, AllocError>
        ensures typed { IfOk result (λ made. plain_typed_stmt made ≡ typed_form.break at) }
        ensures notes { IfOk result (λ _. notes.new ≡ unless (rules.loop_kept looped) at Rule.Loop notes.old) }
    {
        notes.demand(looped, at, Rule::Loop)?;
        let made = Boxed::new(self.alloc, TypedStmt::Break { at })?;
        Ok(made)
    }

    /// `continue`, in a loop or not.
    #[tactic(auto, using(sc_tree::proofs::ViewTypedStmtLaws::typed_statement_views))]
    pub fn continue_statement(
        &self,
        notes: &mut Notes,
        looped: bool,
        at: u32,
    ) -> Result<Boxed<TypedStmt>, AllocError>
        ensures typed { IfOk result (λ made. plain_typed_stmt made ≡ typed_form.continue at) }
        ensures notes { IfOk result (λ _. notes.new ≡ unless (rules.loop_kept looped) at Rule.Loop notes.old) }
    {
        notes.demand(looped, at, Rule::Loop)?;
        let made = Boxed::new(self.alloc, TypedStmt::Continue { at })?;
        Ok(made)
    }
}
